//! The call that rebuilds a set at another address, for C.

ghost use Rattle.std.specs.Prelude.{◌≡◌, List, ℕ, Result};
ghost use Rattle.std.specs.Result.{result_err};
ghost use Rattle.acpi_base.specs.declared.witness.Witness.{Witness};
ghost use Rattle.acpi_c.specs.Answers.{made_answer, made_written};
ghost use Rattle.acpi_c.specs.Made.{made_in};
ghost use Rattle.acpi_c.specs.Results.{Rebuilds};
ghost use Rattle.acpi_c.specs.Settings.{base_refusal};
ghost use Rattle.acpi_c.specs.Sources.{pieces_source};
ghost use Rattle.acpi_c.specs.declared.refusal.Refusal.{Refusal};

use crate::answer::Answer;
use crate::made::{Made, write_made};
use crate::pieces::{Piece, image_of_pieces};
use crate::refusal::Refusal;
use crate::settings::{Inputs, Settings, add_inputs, test_base, tested_policy};
use crate::sums::add_sums;
use acpi_write::{RebuildFault, rebuild_bytes};
use std::alloc::Global;

/// The bytes of the set in the image of the pieces, rebuilt at the base address, or its first fault.
fn rebuilt(
    alloc: Global,
    pieces: &[Piece<'_>],
    inputs: &[Inputs],
    settings: &Settings,
    base: u64,
) -> Result<Made, Refusal>
    ensures { Rebuilds (pieces_source pieces.now) settings.now inputs.now base (made_in result) }
{
    let mut policy = tested_policy(alloc, settings, inputs)?;
    test_base(base)?;
    let mut image = image_of_pieces(alloc, pieces)?;
    add_inputs(&mut policy, inputs)?;
    add_sums(&mut image, pieces, settings.rsdp)?;
    match rebuild_bytes(alloc, &image, &policy, base) {
        Ok(bytes) => Ok(Made::Bytes(bytes)),
        Err(RebuildFault::NotClean(fault)) => Ok(Made::Fault(fault)),
        Err(RebuildFault::TableTooLong) => Err(Refusal::TableTooLong),
        Err(RebuildFault::PastEnd) => Err(Refusal::PastEnd),
        Err(RebuildFault::NeedsLow) => Err(Refusal::NeedsLow),
        // The base address is a multiple of 64, so only memory is left.
        Err(RebuildFault::Unaligned | RebuildFault::Memory) => Err(Refusal::OutOfMemory),
    }
}

/// The set in the image that the pieces give, rebuilt at the base address as the program's command `rebuild` does: as
/// memory, from that address on. It has the RSDP, the XSDT, the FACS if there is one, and the listed tables in the order of
/// their slots, each at the next multiple of 64, and zeros between them. The bytes are written to `bytes`, as many as
/// fit; the rest of it does not change. The last stage of the settings is ignored.
///
/// Returns `Yes` with the number of all bytes, if the set is clean; otherwise `No` with its first fault, and writes
/// nothing.
///
/// Refuses, in this order, and then writes nothing: `BadSize`, `BadDefaultInputs`, `BadHotPlug`, `BadProcessors`,
/// `BadInputs`, as `acpiset_check` does; `Unaligned` if the base address is not a multiple of 64; `PiecePastEnd` and
/// `PiecesOverlap`, as `acpiset_check` does; for a clean set `TableTooLong` if the XSDT would have more than
/// 4,294,967,295 bytes, `PastEnd` if a part would pass the address 2^64 - 1, `NeedsLow` if the FADT has fewer than 140
/// bytes and the FACS would be at 2^32 or above; `OutOfMemory`, which may also be returned instead of any answer after
/// `Unaligned`, but not instead of `PiecePastEnd` for the first piece.
#[unsafe(no_mangle)]
pub extern "C" fn acpiset_rebuild(
    alloc: Global,
    pieces: &[Piece<'_>],
    inputs: &[Inputs],
    settings: &Settings,
    base: u64,
    bytes: &mut [u8],
) -> Answer
    ensures { (made : Result (Result (List ℕ) Witness) Refusal)
        × Rebuilds (pieces_source pieces.now) settings.now inputs.now base made
        × (result ≡ made_answer made)
        × (bytes.new ≡ made_written made bytes.old) }
{
    write_made(bytes, rebuilt(alloc, pieces, inputs, settings, base))
}
