//! Tables whose contents are not shown.

use crate::fields::add_hex;
use std::alloc::AllocError;

/// Why the contents of a table are not shown.
#[derive(Clone, Copy)]
pub enum Unread {
    /// It is too short for the fields that are shown.
    Short,
    /// It does not meet the standard.
    Bad,
}

/// Adds the line of a table whose contents are not shown: `TABLE ADDRESS short`, or `TABLE ADDRESS bad`.
pub fn add_unread(
    text: &mut String,
    table: &'static str,
    address: u64,
    why: Unread,
) -> Result<(), AllocError> {
    let why = match why {
        Unread::Short => " short\n",
        Unread::Bad => " bad\n",
    };
    text.push_str(table)?;
    add_hex(text, " ", address)?;
    text.push_str(why)
}
