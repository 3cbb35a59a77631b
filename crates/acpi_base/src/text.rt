//! Images and faults as text, read and written; and why an image text could not be read.

pub(crate) mod fault_parsing;
pub(crate) mod fault_text;
pub(crate) mod image_text;
pub mod written_text;

ghost use Rattle.std.specs.Prelude.{◌≡◌};

use std::alloc::AllocError;
use thiserror::Error;

/// Why an image text could not be read. Lines count from 1.
#[derive(Clone, Copy, Debug, PartialEq, Eq, Error)]
pub enum TextFault {
    /// The line is neither an address, nor data, nor empty.
    #[error("line {line}: bad line")]
    BadLine { line: u64 },
    /// Data comes before the first address.
    #[error("line {line}: no address")]
    NoAddress { line: u64 },
    /// An address is given a second byte; this is the lowest such address of the line.
    #[error("address {address:#x} twice")]
    Twice { address: u64 },
    /// The line's data passes the address 2^64 - 1.
    #[error("line {line}: past the end")]
    PastEnd { line: u64 },
    /// The text has more than 67,108,864 bytes, or one of its lines more than 65,536.
    #[error("too long")]
    TooLong,
    /// The reader failed.
    #[error("device")]
    Read,
    /// Out of memory for the text or the image.
    #[error("out of memory")]
    Memory,
}

impl From<AllocError> for TextFault {
    ghost use Rattle.acpi_base.specs.declared.text.TextFault.{TextFault};

    ghost from_gives = { λ _ fault. fault ≡ TextFault.Memory };

    fn from(_error: AllocError) -> TextFault {
        TextFault::Memory
    }
}
