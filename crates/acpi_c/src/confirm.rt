//! The call that confirms one fault, for C.

ghost use Rattle.std.specs.Prelude.{◌≡◌, Bool, IfOk, Result};
ghost use Rattle.std.specs.Result.{result_err};
ghost use Rattle.acpi_base.specs.Codes.{code_number};
ghost use Rattle.acpi_c.specs.Answers.{confirm_answer};
ghost use Rattle.acpi_c.specs.Results.{Confirms};
ghost use Rattle.acpi_c.specs.Settings.{code_refusal};
ghost use Rattle.acpi_c.specs.Sources.{pieces_source};
ghost use Rattle.acpi_c.specs.declared.refusal.Refusal.{Refusal};

use crate::answer::{Answer, Finding, yes_or_no};
use crate::pieces::{Piece, image_of_pieces};
use crate::refusal::Refusal;
use crate::settings::{Inputs, Settings, add_inputs, tested_policy};
use acpi_base::{Code, Witness};
use acpi_confirm::confirm;
use std::alloc::Global;

/// The fault code that the finding names.
fn code_of(finding: &Finding) -> Result<Code, Refusal>
    ensures ok { IfOk result (λ code. code_number code ≡ finding.now.number) }
    ensures refused { code_refusal finding.now.number ≡ result_err result }
{
    u8::try_from(finding.number)
        .ok()
        .and_then(Code::new)
        .ok_or(Refusal::Code)
}

/// Whether the finding is a fault of the image of the pieces.
fn confirmed(
    alloc: Global,
    pieces: &[Piece<'_>],
    inputs: &[Inputs],
    settings: &Settings,
    finding: &Finding,
) -> Result<bool, Refusal>
    ensures { Confirms (pieces_source pieces.now) settings.now inputs.now finding.now result }
{
    let mut policy = tested_policy(alloc, settings, inputs)?;
    let code = code_of(finding)?;
    let image = image_of_pieces(alloc, pieces)?;
    add_inputs(&mut policy, inputs)?;
    let witness = Witness {
        code,
        at: finding.at,
        other: finding.other,
        point: finding.point,
    };
    Ok(confirm(&image, &policy, &witness))
}

/// Whether the finding is a fault of the image that the pieces give. It need not be the first one.
///
/// Refuses, in this order: `BadSize`, `BadDefaultInputs`, `BadHotPlug`, `BadProcessors`, `BadInputs`, as
/// `acpiset_check` does; `BadCode` if the finding's number is that of no code, as that of a finding of advice is;
/// `PiecePastEnd`, `PiecesOverlap`, `OutOfMemory`, as `acpiset_check` does.
#[unsafe(no_mangle)]
pub extern "C" fn acpiset_confirm(
    alloc: Global,
    pieces: &[Piece<'_>],
    inputs: &[Inputs],
    settings: &Settings,
    finding: &Finding,
) -> Answer
    ensures { (judged : Result Bool Refusal)
        × Confirms (pieces_source pieces.now) settings.now inputs.now finding.now judged
        × (result ≡ confirm_answer judged) }
{
    match confirmed(alloc, pieces, inputs, settings, finding) {
        Ok(is_so) => yes_or_no(is_so),
        Err(refusal) => Answer::from(refusal),
    }
}
