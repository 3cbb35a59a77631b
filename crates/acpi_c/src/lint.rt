//! The call that returns all findings, for C.

ghost use Rattle.std.specs.Prelude.{◌≡◌, ◌≤◌, ◌++◌, List, Result, Ok, IfOk, MatchResult, OnOk, length, map};
ghost use Rattle.acpi_lint.specs.declared.rule.Advice.{Advice};
ghost use Rattle.acpi_base.specs.declared.witness.Witness.{Witness};
ghost use Rattle.acpi_c.specs.Answers.{advice_finding, all_findings, fault_finding, lint_answer, written};
ghost use Rattle.acpi_c.specs.Results.{Lints, Reports, IsRefusal};
ghost use Rattle.acpi_c.specs.Settings.{policy_refusal};
ghost use Rattle.acpi_c.specs.Sources.{pieces_source};
ghost use Rattle.acpi_c.specs.declared.refusal.Refusal.{Refusal};

use crate::answer::{Answer, Finding, copy_to};
use crate::kind::AnswerKind;
use crate::pieces::{Piece, image_of_pieces};
use crate::refusal::Refusal;
use crate::settings::{Inputs, Settings, add_inputs, tested_policy};
use crate::sums::add_sums;
use acpi_base::{Code, Witness};
use acpi_lint::{Advice, Findings, Rule, lint};
use std::alloc::{AllocError, Global};

/// The most faults that `acpiset_lint` finds: one of each code.
pub const MOST_FAULTS: usize = Code::COUNT;
/// The most findings of advice: one of each rule.
pub const MOST_ADVICE: usize = Rule::COUNT;

/// All findings on the image of the pieces, and the same as numbers.
fn searched(
    alloc: Global,
    pieces: &[Piece<'_>],
    inputs: &[Inputs],
    settings: &Settings,
) -> Result<(Findings, Vec<Finding>), Refusal>
    ensures { MatchResult result
        (λ both. Reports (pieces_source pieces.now) settings.now inputs.now
        (both.0.faults.items, both.0.advice.items)
        × (both.1.items ≡ all_findings both.0.faults.items both.0.advice.items))
        (IsRefusal (policy_refusal settings.now inputs.now) (pieces_source pieces.now)) }
{
    let mut policy = tested_policy(alloc, settings, inputs)?;
    let mut image = image_of_pieces(alloc, pieces)?;
    add_inputs(&mut policy, inputs)?;
    add_sums(&mut image, pieces, settings.rsdp)?;
    let found = lint(alloc, &image, &policy)?;
    let all = numbers_of(alloc, &found)?;
    Ok((found, all))
}

/// A fault as numbers.
fn fault_finding(fault: &Witness) -> Finding
    ensures { result ≡ fault_finding fault.now }
{
    Finding {
        number: u32::from(fault.code.number()),
        at: fault.at,
        other: fault.other,
        point: fault.point,
    }
}

/// A finding of advice as numbers.
fn advice_finding(advice: &Advice) -> Finding
    ensures { result ≡ advice_finding advice.now }
{
    Finding {
        number: u32::from(advice.rule.number()),
        at: advice.at,
        other: advice.other,
        point: advice.point,
    }
}

/// The faults as numbers, and after them the advice.
fn numbers_of(alloc: Global, found: &Findings) -> Result<Vec<Finding>, AllocError>
    ensures { IfOk result (λ all.
        all.items ≡ all_findings found.now.faults.items found.now.advice.items) }
{
    let mut all = Vec::new(alloc);
    for fault in &found.faults {
        all.push(fault_finding(fault))?;
    }
    add_advice(&mut all, &found.advice)?;
    Ok(all)
}

/// Adds findings of advice as numbers.
fn add_advice(all: &mut Vec<Finding>, advice: &[Advice]) -> Result<(), AllocError>
    ensures { OnOk result (all.new.items ≡ all.old.items ++ map advice_finding advice.now) }
{
    for own in advice {
        all.push(advice_finding(own))?;
    }
    Ok(())
}

/// How many findings there are.
fn answer_of(found: &Findings) -> Answer
    ensures { result ≡ lint_answer (Ok (found.now.faults.items, found.now.advice.items)) }
{
    let kind = if found.faults.is_empty() {
        AnswerKind::Yes
    } else {
        AnswerKind::No
    };
    Answer::with_two(kind, found.faults.len() as u64, found.advice.len() as u64)
}

/// All that is wrong with the tables of the image that the pieces give: the first fault of each code that has one, in
/// the order of the codes' numbers, and after these the first finding of each rule of advice that is broken, in the
/// order of the rules' numbers. They are written to `findings`, as many as fit; the rest of the array does not
/// change. The last stage of the settings is ignored.
///
/// Returns `Yes` if there is no fault, otherwise `No`, with the number of faults, at most `MOST_FAULTS`, and the number
/// of findings of advice, at most `MOST_ADVICE`. An array of as many as both together is always long enough.
///
/// Refuses, in this order, and then writes nothing: `BadSize`, `BadDefaultInputs`, `BadHotPlug`, `BadProcessors`,
/// `BadInputs`, `PiecePastEnd`, `PiecesOverlap`, `OutOfMemory`, as `acpiset_check` does.
#[unsafe(no_mangle)]
pub extern "C" fn acpiset_lint(
    alloc: Global,
    pieces: &[Piece<'_>],
    inputs: &[Inputs],
    settings: &Settings,
    findings: &mut [Finding],
) -> Answer
    ensures { (found : Result (List Witness × List Advice) Refusal)
        × Lints (pieces_source pieces.now) settings.now inputs.now found
        × IfOk found (λ own. (length own.0 ≤ MOST_FAULTS) × (length own.1 ≤ MOST_ADVICE))
        × (result ≡ lint_answer found)
        × (findings.new ≡ written found findings.old) }
{
    match searched(alloc, pieces, inputs, settings) {
        Ok((found, all)) => {
            copy_to(findings, &all);
            answer_of(&found)
        }
        Err(refusal) => Answer::from(refusal),
    }
}
