//! The calls that check an image, for C.

ghost use Rattle.std.specs.Prelude.{◌≡◌, Result};
ghost use Rattle.acpi_base.specs.declared.verdict.Verdict.{Verdict};
ghost use Rattle.acpi_c.specs.Answers.{check_answer};
ghost use Rattle.acpi_c.specs.Results.{Checks};
ghost use Rattle.acpi_c.specs.Sources.{pieces_source, text_source};
ghost use Rattle.acpi_c.specs.declared.refusal.Refusal.{Refusal};

use crate::answer::Answer;
use crate::pieces::{Piece, image_of_pieces};
use crate::refusal::Refusal;
use crate::settings::{Inputs, Settings, add_inputs, last_stage, tested_policy};
use crate::sums::add_sums;
use crate::text::image_of_text;
use acpi_base::Verdict;
use acpi_check::check_to;
use std::alloc::Global;

/// The verdict on the image of the pieces.
fn judged_pieces(
    alloc: Global,
    pieces: &[Piece<'_>],
    inputs: &[Inputs],
    settings: &Settings,
) -> Result<Verdict, Refusal>
    ensures { Checks (pieces_source pieces.now) settings.now inputs.now result }
{
    let mut policy = tested_policy(alloc, settings, inputs)?;
    let last = last_stage(settings)?;
    let mut image = image_of_pieces(alloc, pieces)?;
    add_inputs(&mut policy, inputs)?;
    add_sums(&mut image, pieces, settings.rsdp)?;
    let verdict = check_to(alloc, &image, &policy, last)?;
    Ok(verdict)
}

/// The verdict on the image of the text.
fn judged_text(
    alloc: Global,
    text: &[u8],
    inputs: &[Inputs],
    settings: &Settings,
) -> Result<Verdict, Refusal>
    ensures { Checks (text_source text.now) settings.now inputs.now result }
{
    let mut policy = tested_policy(alloc, settings, inputs)?;
    let last = last_stage(settings)?;
    let image = image_of_text(alloc, text)?;
    add_inputs(&mut policy, inputs)?;
    let verdict = check_to(alloc, &image, &policy, last)?;
    Ok(verdict)
}

/// The answer of a check.
fn answer_of(judged: Result<Verdict, Refusal>) -> Answer
    ensures { result ≡ check_answer judged }
{
    match judged {
        Ok(verdict) => Answer::from(verdict),
        Err(refusal) => Answer::from(refusal),
    }
}

/// Checks the tables of the image that the pieces give, from the RSDP at the address in the settings, through their
/// last stage. Returns `Yes` if all statements of these stages hold, otherwise `No` with the first fault.
///
/// Refuses, in this order: `BadSize`, `BadDefaultInputs`, `BadHotPlug`, `BadProcessors`, for the settings;
/// `BadInputs`, for the first number of inputs outside 1 to 256, with its index; `BadStage` if the last stage is
/// outside 1 to 18; `PiecePastEnd` and `PiecesOverlap`, for the first piece that passes the last address or shares
/// addresses with those before it, with its index, and for an overlap the lowest address; `OutOfMemory`, which may
/// also be returned instead of any answer after `BadStage`, but not instead of `PiecePastEnd` for the first piece.
#[unsafe(no_mangle)]
pub extern "C" fn acpiset_check(
    alloc: Global,
    pieces: &[Piece<'_>],
    inputs: &[Inputs],
    settings: &Settings,
) -> Answer
    ensures { (judged : Result Verdict Refusal)
        × Checks (pieces_source pieces.now) settings.now inputs.now judged
        × (result ≡ check_answer judged) }
{
    answer_of(judged_pieces(alloc, pieces, inputs, settings))
}

/// Checks the tables of the image with this text. The text need not end with a zero.
///
/// Refuses as `acpiset_check` does, but instead of `PiecePastEnd` and `PiecesOverlap`: `TextTooLong`, `BadLine`,
/// `NoAddress`, `TextPastEnd` or `TextOverlap`, for the first line with a fault, and within one line in this order.
/// `OutOfMemory` is not returned instead of a fault that comes before the first line of data or in it.
#[unsafe(no_mangle)]
pub extern "C" fn acpiset_check_text(
    alloc: Global,
    text: &[u8],
    inputs: &[Inputs],
    settings: &Settings,
) -> Answer
    ensures { (judged : Result Verdict Refusal)
        × Checks (text_source text.now) settings.now inputs.now judged
        × (result ≡ check_answer judged) }
{
    answer_of(judged_text(alloc, text, inputs, settings))
}
