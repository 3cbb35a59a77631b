//! The lines of the entries of the MADT, the SRAT and the PPTT.

use crate::fields::{add_decimal, add_hex};
use crate::madt::add_madt_entry;
use crate::pptt::add_pptt_entry;
use crate::srat::add_srat_entry;
use acpi_read::{Entries, Entry};
use std::alloc::AllocError;

/// The tables of entries.
#[derive(Clone, Copy)]
pub enum Owner {
    Madt,
    Srat,
    Pptt,
}

/// Adds a line for each entry of a table, and `OFFSET cut` if bytes that are not an entry follow them.
pub fn add_entries(
    text: &mut String,
    owner: Owner,
    mut entries: Entries<'_>,
) -> Result<(), AllocError> {
    while let Some(entry) = entries.next() {
        add_hex(text, "", entry.offset)?;
        text.push(' ')?;
        match owner {
            Owner::Madt => add_madt_entry(text, &entry)?,
            Owner::Srat => add_srat_entry(text, &entry)?,
            Owner::Pptt => add_pptt_entry(text, &entry)?,
        }
        text.push('\n')?;
    }
    match entries.cut() {
        Some(offset) => {
            add_hex(text, "", offset)?;
            text.push_str(" cut\n")
        }
        None => Ok(()),
    }
}

/// Adds `entry type N length N`: an entry of a type that is not shown, or with a length that its type does not have.
pub fn add_other(text: &mut String, entry: &Entry<'_>) -> Result<(), AllocError> {
    add_decimal(text, "entry type ", entry.bytes[0])?;
    add_decimal(text, " length ", entry.bytes[1])
}
