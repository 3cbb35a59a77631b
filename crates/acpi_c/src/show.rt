//! The call that shows a set, for C.

ghost use Rattle.std.specs.Prelude.{◌≡◌, List, ℕ, Result};
ghost use Rattle.acpi_base.specs.declared.witness.Witness.{Witness};
ghost use Rattle.acpi_c.specs.Answers.{made_answer, made_written};
ghost use Rattle.acpi_c.specs.Made.{made_in};
ghost use Rattle.acpi_c.specs.Results.{Shows};
ghost use Rattle.acpi_c.specs.Sources.{pieces_source};
ghost use Rattle.acpi_c.specs.declared.refusal.Refusal.{Refusal};

use crate::answer::Answer;
use crate::made::{Made, write_made};
use crate::pieces::{Piece, image_of_pieces};
use crate::refusal::Refusal;
use crate::settings::{Inputs, Settings, tested_policy};
use crate::sums::add_sums;
use acpi_check::read_set;
use acpi_show::set_text;
use std::alloc::Global;

/// The lines of the set in the image of the pieces, or its first fault of the stages up to the listed tables.
fn shown(
    alloc: Global,
    pieces: &[Piece<'_>],
    inputs: &[Inputs],
    settings: &Settings,
) -> Result<Made, Refusal>
    ensures { Shows (pieces_source pieces.now) settings.now inputs.now (made_in result) }
{
    let policy = tested_policy(alloc, settings, inputs)?;
    let mut image = image_of_pieces(alloc, pieces)?;
    let rsdp = policy.rsdp();
    add_sums(&mut image, pieces, rsdp)?;
    let set = match read_set(alloc, &image, rsdp) {
        Ok(set) => set,
        Err(fault) => return Ok(Made::Fault(fault)),
    };
    let text = set_text(alloc, &image, rsdp, &set.root, &set.tables)?;
    Ok(Made::Bytes(text.into_bytes()))
}

/// The lines that the program's command `show` prints without an option, of the set in the image that the pieces give:
/// one for the RSDP, for the root table, for each of its slots, and for each structure of the tables that are read. They
/// are written to `text`, as many bytes as fit, without a final zero; the rest of it does not change. The last stage of
/// the settings is ignored.
///
/// Returns `Yes` with the number of bytes of all lines, if the stages up to the listed tables hold; otherwise `No` with
/// the first fault, and writes nothing.
///
/// Refuses, in this order, and then writes nothing: `BadSize`, `BadDefaultInputs`, `BadHotPlug`, `BadProcessors`,
/// `BadInputs`, `PiecePastEnd`, `PiecesOverlap`, `OutOfMemory`, as `acpiset_check` does.
#[unsafe(no_mangle)]
pub extern "C" fn acpiset_show(
    alloc: Global,
    pieces: &[Piece<'_>],
    inputs: &[Inputs],
    settings: &Settings,
    text: &mut [u8],
) -> Answer
    ensures { (made : Result (Result (List ℕ) Witness) Refusal)
        × Shows (pieces_source pieces.now) settings.now inputs.now made
        × (result ≡ made_answer made)
        × (text.new ≡ made_written made text.old) }
{
    write_made(text, shown(alloc, pieces, inputs, settings))
}
