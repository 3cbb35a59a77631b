//! Why a call is refused.

ghost use Rattle.std.specs.Prelude.{◌≡◌};
ghost use Rattle.acpi_c.specs.declared.refusal.Refusal.{Refusal};

use acpi_base::{ImageFault, TextFault};
use std::alloc::AllocError;

/// Why a call is refused. Indexes count from 0, lines from 1.
#[derive(Clone, Copy)]
pub enum Refusal {
    /// Out of memory.
    OutOfMemory,
    /// The settings have another size than those of this version.
    Size,
    /// The default number of inputs is outside 1 to 256.
    DefaultInputs,
    /// The setting of hot-pluggable ranges is neither 0 nor 1.
    HotPlug,
    /// The setting of processors is neither 0 nor 1.
    Processors,
    /// The number of inputs at this index is outside 1 to 256.
    Inputs { index: u64 },
    /// The number of the last stage is outside 1 to 18.
    Stage,
    /// The number is that of no fault code.
    Code,
    /// The piece at this index passes the address 2^64 - 1.
    PiecePastEnd { index: u64 },
    /// The piece at this index shares addresses with earlier ones; this is the lowest of them.
    PiecesOverlap { index: u64, address: u64 },
    /// This line of the text is neither an address, nor data, nor empty.
    BadLine { line: u64 },
    /// This line of the text is data, and no address comes before it.
    NoAddress { line: u64 },
    /// The text gives this address a second byte.
    TextOverlap { address: u64 },
    /// The data of this line of the text passes the address 2^64 - 1.
    TextPastEnd { line: u64 },
    /// The text has more than 67,108,864 bytes, or a line more than 65,536.
    TextTooLong,
    /// The base address is not a multiple of 64.
    Unaligned,
    /// The XSDT of the rebuilt set would have more than 4,294,967,295 bytes.
    TableTooLong,
    /// A part of the rebuilt set would pass the address 2^64 - 1.
    PastEnd,
    /// The FADT has no field for the FACS's address, which would be 2^32 or above.
    NeedsLow,
}

impl Refusal {
    ghost use Rattle.acpi_c.specs.Pieces.{piece_refusal};

    /// Why the piece at this index cannot be added to those before it.
    pub fn of_piece(index: u64, fault: ImageFault) -> Refusal
        ensures { result ≡ piece_refusal index fault }
    {
        match fault {
            ImageFault::PastEnd => Refusal::PiecePastEnd { index },
            ImageFault::Twice { address } => Refusal::PiecesOverlap { index, address },
            ImageFault::Memory => Refusal::OutOfMemory,
        }
    }
}

impl From<AllocError> for Refusal {
    ghost from_gives = { λ _ refusal. refusal ≡ Refusal.OutOfMemory };

    fn from(_error: AllocError) -> Refusal {
        Refusal::OutOfMemory
    }
}

impl From<TextFault> for Refusal {
    ghost use Rattle.acpi_c.specs.Sources.{text_refusal};

    ghost from_gives = { λ fault refusal. refusal ≡ text_refusal fault };

    fn from(fault: TextFault) -> Refusal {
        match fault {
            TextFault::BadLine { line } => Refusal::BadLine { line },
            TextFault::NoAddress { line } => Refusal::NoAddress { line },
            TextFault::Twice { address } => Refusal::TextOverlap { address },
            TextFault::PastEnd { line } => Refusal::TextPastEnd { line },
            TextFault::TooLong => Refusal::TextTooLong,
            // No device is read, so only memory can fail.
            TextFault::Read | TextFault::Memory => Refusal::OutOfMemory,
        }
    }
}
