//! The call that searches for the RSDP, for C.

ghost use Rattle.std.specs.Prelude.{◌≡◌, ℕ, Option, Result};
ghost use Rattle.acpi_c.specs.Answers.{find_answer};
ghost use Rattle.acpi_c.specs.Results.{Finds};
ghost use Rattle.acpi_c.specs.Sources.{pieces_source};
ghost use Rattle.acpi_c.specs.declared.refusal.Refusal.{Refusal};

use crate::answer::{Answer, found};
use crate::pieces::{Piece, image_of_pieces};
use crate::refusal::Refusal;
use acpi_base::find_rsdp;
use std::alloc::Global;

/// Where the RSDP is found in the image of the pieces.
fn searched(alloc: Global, pieces: &[Piece<'_>]) -> Result<Option<u64>, Refusal>
    ensures { Finds (pieces_source pieces.now) result }
{
    let image = image_of_pieces(alloc, pieces)?;
    Ok(find_rsdp(&image))
}

/// Looks for the RSDP in the image that the pieces give, where a BIOS puts it: at the multiples of 16 from 0xE0000 to
/// 0xFFFF0 (ACPI 6.5, 5.2.5.1). Returns `Yes` with the lowest such address with the signature and a right checksum,
/// otherwise `No`.
///
/// Refuses with `PiecePastEnd`, `PiecesOverlap` and `OutOfMemory` as `acpiset_check` does.
#[unsafe(no_mangle)]
pub extern "C" fn acpiset_find(alloc: Global, pieces: &[Piece<'_>]) -> Answer
    ensures { (address : Result (Option ℕ) Refusal)
        × Finds (pieces_source pieces.now) address
        × (result ≡ find_answer address) }
{
    match searched(alloc, pieces) {
        Ok(address) => found(address),
        Err(refusal) => Answer::from(refusal),
    }
}
