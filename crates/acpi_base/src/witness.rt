//! Faults, each with the numbers that show where it is.

ghost use Rattle.std.specs.Prelude.{◌≡◌};

use crate::code::Code;

/// A fault, and where it is. Its code determines what the three numbers mean. A number that a code does not use is 0.
/// Offsets are in bytes from a table's start.
#[derive(Clone, Copy, Debug, PartialEq, Eq)]
pub struct Witness {
    /// What is wrong.
    pub code: Code,
    /// An address, the number of a slot, or an offset.
    pub at: u64,
    /// A second address or offset, or how many steps lead to a cycle.
    pub other: u64,
    /// A number that two ranges contain, or how many steps a cycle has.
    pub point: u64,
}

impl Witness {
    /// A fault that one number describes: the other two are 0.
    pub fn at(code: Code, at: u64) -> Witness
        ensures { result ≡ record { code = code; at = at; other = 0; point = 0 } }
    {
        Witness {
            code,
            at,
            other: 0,
            point: 0,
        }
    }
}
