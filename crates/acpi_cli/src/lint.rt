//! The command `lint`.

ghost use Rattle.std.specs.Prelude.{◌≡◌, IfOk};
ghost use Rattle.std.specs.List.{flat_map};
ghost use Rattle.acpi_cli.specs.Commands.{device, no_line, Runs, ReportsLint, fault_lines, finding_lines, is_allowed, other_advice, outcome_of_findings};

use crate::check::{no_rsdp, rsdp_address};
use crate::devices::{Output, read_input, write_output};
use crate::outcome::{Outcome, RunFault};
use acpi_base::{Image, Policy, Tally, Verdict, Witness, verdict_text};
use acpi_lint::{Advice, Rule, advice_text, lint};
use std::alloc::{AllocError, Global};
use std::io::{Read, Write};

/// A line for each of the faults.
fn no_text(alloc: Global, faults: &[Witness]) -> Result<Vec<u8>, AllocError>
    ensures { IfOk result (λ text. text.items ≡ flat_map no_line faults.now) }
{
    let mut text = Vec::new(alloc);
    for fault in faults {
        text.extend_from_slice(&verdict_text(alloc, &Verdict::No(*fault))?)?;
    }
    Ok(text)
}

/// The lines of the faults: `yes` if there is none.
#[tactic(auto, using(crate::proofs::FindingLines::lines_of_faults))]
fn fault_text(alloc: Global, faults: &[Witness]) -> Result<Vec<u8>, AllocError>
    ensures { IfOk result (λ text. text.items ≡ fault_lines faults.now) }
{
    if faults.is_empty() {
        verdict_text(alloc, &Verdict::Yes)
    } else {
        no_text(alloc, faults)
    }
}

/// The lines of the faults, then those of the advice.
fn finding_text(alloc: Global, faults: &[Witness], advice: &[Advice]) -> Result<Vec<u8>, AllocError>
    ensures { IfOk result (λ text. text.items ≡ finding_lines faults.now advice.now) }
{
    let mut text = fault_text(alloc, faults)?;
    for finding in advice {
        text.extend_from_slice(&advice_text(alloc, finding)?)?;
    }
    Ok(text)
}

/// Whether a rule is one of these.
fn is_allowed(allowed: &[Rule], rule: Rule) -> bool
    ensures { result ≡ is_allowed allowed.now rule }
{
    for other in allowed {
        if other.number() == rule.number() {
            return true;
        }
    }
    false
}

/// The advice of other rules than these.
fn other_advice(
    alloc: Global,
    allowed: &[Rule],
    advice: &[Advice],
) -> Result<Vec<Advice>, AllocError>
    ensures { IfOk result (λ others. others.items ≡ other_advice allowed.now advice.now) }
{
    let mut others = Vec::new(alloc);
    for finding in advice {
        if !is_allowed(allowed, finding.rule) {
            others.push(*finding)?;
        }
    }
    Ok(others)
}

/// The outcome for these findings. If `is_strict`, advice alone makes it `No`.
fn outcome_of(faults: &[Witness], advice: &[Advice], is_strict: bool) -> Outcome
    ensures { result ≡ outcome_of_findings is_strict faults.now advice.now }
{
    let is_bad = !faults.is_empty() || is_strict && !advice.is_empty();
    if is_bad { Outcome::No } else { Outcome::Yes }
}

/// What is reported on the image.
fn lint_output(
    alloc: Global,
    image: &Image,
    allowed: &[Rule],
    given: Option<u64>,
    mut policy: Policy,
    is_strict: bool,
) -> Result<Output, AllocError>
    ensures { IfOk result (λ output. ReportsLint allowed.now given policy is_strict image.now
        output.bytes.items
        output.outcome) }
{
    let Some(address) = rsdp_address(image, given) else {
        return no_rsdp(alloc);
    };
    policy.set_rsdp(address);
    let findings = lint(alloc, image, &policy)?;
    let advice = other_advice(alloc, allowed, &findings.advice)?;
    let bytes = finding_text(alloc, &findings.faults, &advice)?;
    let outcome = outcome_of(&findings.faults, &advice, is_strict);
    Ok(Output { bytes, outcome })
}

/// Searches for everything that is wrong with the tables of the image whose text is on `reader`, from the RSDP at the
/// address `rsdp`, or if that is `None` from the one that is found. The policy's own address is ignored.
///
/// Writes a line `no` with the first fault of each code that has one, or `yes` if none has, then
/// a line `advice` with the first finding of each rule that is broken, but for the rules
/// `allowed`, which do not count. Returns `No` if there is a fault, and if `is_strict` also if
/// there is advice, otherwise `Yes`. If no address is given and none is found, it writes
/// `no rsdp` and returns `No`. Nothing is written before the image is read and checked and all
/// lines are made. Returns `Image` if the input is not image text, `Memory`, or `Device` if a read
/// or a write failed; what was written then is a prefix of the lines.
pub fn run_lint<R: Read, W: Write>(
    alloc: Global,
    reader: &mut Tally<R>,
    writer: &mut Tally<W>,
    allowed: &[Rule],
    rsdp: Option<u64>,
    policy: Policy,
    is_strict: bool,
) -> Result<Outcome, RunFault>
    ensures { Runs (ReportsLint allowed.now rsdp policy is_strict)
        (device R.remaining reader.old reader.new)
        (device W.contents writer.old writer.new)
        result }
{
    let image = read_input(alloc, reader)?;
    let output = lint_output(alloc, &image, allowed, rsdp, policy, is_strict);
    write_output(writer, output)
}
