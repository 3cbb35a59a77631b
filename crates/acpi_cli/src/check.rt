//! The command `check`.

ghost use Rattle.std.specs.Prelude.{◌≡◌, IfOk, IfSome, IsNone, codes};
ghost use Rattle.acpi_cli.specs.Commands.{device, HasNoRsdp, IsRsdpAddress, Runs, ReportsCheck, outcome_of};

use crate::devices::{Output, read_input, write_output};
use crate::outcome::{Outcome, RunFault};
use acpi_base::{Image, Policy, Stage, Tally, Verdict, find_rsdp, verdict_text};
use acpi_check::check_to;
use std::alloc::{AllocError, Global};
use std::io::{Read, Write};

/// The outcome for a verdict.
fn outcome_of(verdict: &Verdict) -> Outcome
    ensures { result ≡ outcome_of verdict.now }
{
    match verdict {
        Verdict::Yes => Outcome::Yes,
        Verdict::No(_) => Outcome::No,
    }
}

/// The address that is given, otherwise the one that is found.
pub fn rsdp_address(image: &Image, given: Option<u64>) -> Option<u64>
    ensures some { IfSome result (IsRsdpAddress given image.now) }
    ensures none { IsNone result → HasNoRsdp given image.now }
{
    match given {
        Some(address) => Some(address),
        None => find_rsdp(image),
    }
}

/// What is reported if there is no RSDP to start from.
pub fn no_rsdp(alloc: Global) -> Result<Output, AllocError>
    ensures { IfOk result (λ output. (output.bytes.items ≡ codes "no rsdp\n")
        × (output.outcome ≡ Outcome.No)) }
{
    let bytes = Vec::from_slice(alloc, b"no rsdp\n")?;
    let outcome = Outcome::No;
    Ok(Output { bytes, outcome })
}

/// What a check reports on the image.
fn check_output(
    alloc: Global,
    image: &Image,
    given: Option<u64>,
    mut policy: Policy,
    last: Stage,
) -> Result<Output, AllocError>
    ensures { IfOk result (λ output. ReportsCheck given policy last image.now output.bytes.items
        output.outcome) }
{
    let Some(address) = rsdp_address(image, given) else {
        return no_rsdp(alloc);
    };
    policy.set_rsdp(address);
    let verdict = check_to(alloc, image, &policy, last)?;
    let bytes = verdict_text(alloc, &verdict)?;
    let outcome = outcome_of(&verdict);
    Ok(Output { bytes, outcome })
}

/// Checks the tables of the image whose text is on `reader`, from the RSDP at the address `rsdp`, or if
/// that is `None` from the one that is found, up to the stage `last`. The policy's own address is ignored.
///
/// Writes the verdict's line: `yes`, and returns `Yes`, or `no` with the first fault, and returns `No`. If
/// no address is given and none is found, it writes `no rsdp` and returns `No`. Nothing is written before
/// the image is read and checked. Returns `Image` if the input is not image text, `Memory`, or `Device` if a
/// read or a write failed; what was written then is a prefix of the line.
pub fn run_check<R: Read, W: Write>(
    alloc: Global,
    reader: &mut Tally<R>,
    writer: &mut Tally<W>,
    rsdp: Option<u64>,
    policy: Policy,
    last: Stage,
) -> Result<Outcome, RunFault>
    ensures { Runs (ReportsCheck rsdp policy last)
        (device R.remaining reader.old reader.new)
        (device W.contents writer.old writer.new)
        result }
{
    let image = read_input(alloc, reader)?;
    let output = check_output(alloc, &image, rsdp, policy, last);
    write_output(writer, output)
}
