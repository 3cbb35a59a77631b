//! The command `rebuild`.

ghost use Rattle.std.specs.Prelude.{◌≡◌, IfOk};
ghost use Rattle.acpi_cli.specs.Commands.{device, IsRefusalLine, Runs, ReportsRebuild, TellsRebuilt};

use crate::check::{no_rsdp, rsdp_address};
use crate::devices::{Output, read_input, write_output};
use crate::outcome::{Outcome, RunFault};
use acpi_base::written_text::image_text;
use acpi_base::{Image, Policy, Tally, Verdict, verdict_text};
use acpi_write::{RebuildFault, rebuild};
use std::alloc::{AllocError, Global};
use std::io::{Read, Write};

/// What is reported about a set that is not rebuilt.
fn refused(alloc: Global, fault: RebuildFault) -> Result<Output, AllocError>
    ensures { IfOk result (λ output. IsRefusalLine fault output.bytes.items
        × (output.outcome ≡ Outcome.No)) }
{
    let bytes = match fault {
        RebuildFault::Unaligned => Vec::from_slice(alloc, b"refused Unaligned\n")?,
        RebuildFault::NotClean(witness) => verdict_text(alloc, &Verdict::No(witness))?,
        RebuildFault::TableTooLong => Vec::from_slice(alloc, b"refused TableTooLong\n")?,
        RebuildFault::PastEnd => Vec::from_slice(alloc, b"refused PastEnd\n")?,
        RebuildFault::NeedsLow => Vec::from_slice(alloc, b"refused NeedsLow\n")?,
        RebuildFault::Memory => return Err(AllocError),
    };
    let outcome = Outcome::No;
    Ok(Output { bytes, outcome })
}

/// What is reported about the image's set under the policy, rebuilt from the address `base` on. The image is dropped
/// before the text of the new one is made: that text takes three times the memory of the new image.
fn rebuilt_output(
    alloc: Global,
    image: Image,
    policy: &Policy,
    base: u64,
) -> Result<Output, AllocError>
    ensures { IfOk result (λ output. TellsRebuilt image.entry policy.now base output.bytes.items
        output.outcome) }
{
    let rebuilt = rebuild(alloc, &image, policy, base);
    drop(image);
    match rebuilt {
        Ok(rebuilt) => {
            let bytes = image_text(alloc, &rebuilt)?;
            let outcome = Outcome::Yes;
            Ok(Output { bytes, outcome })
        }
        Err(fault) => refused(alloc, fault),
    }
}

/// What is reported on the image, whose set is to be rebuilt from the address `base` on.
fn rebuild_output(
    alloc: Global,
    image: Image,
    given: Option<u64>,
    mut policy: Policy,
    base: u64,
) -> Result<Output, AllocError>
    ensures { IfOk result (λ output. ReportsRebuild given policy base image.entry output.bytes.items
        output.outcome) }
{
    let Some(address) = rsdp_address(&image, given) else {
        return no_rsdp(alloc);
    };
    policy.set_rsdp(address);
    rebuilt_output(alloc, image, &policy, base)
}

/// Rebuilds the set of tables of the image whose text is on `reader`, from the address `base` on. The set is the one
/// that is reached from the RSDP at the address `rsdp`, or if that is `None` from the one that is found. The policy's
/// own address is ignored.
///
/// Writes the text of the new image, which has the rebuilt set and nothing else (`image_text`), and returns `Yes`.
/// Otherwise it returns `No`, and writes the first of these that applies: `no rsdp`, if no address is given and none is
/// found; `refused Unaligned`, if `base` is not a multiple of 64; the verdict's line, if the set is not clean; `refused
/// TableTooLong`, `refused PastEnd` or `refused NeedsLow`, if it cannot be placed at that address (`RebuildFault`).
///
/// Nothing is written before the image is read, checked and rebuilt. Returns `Image` if the input is not image text,
/// `Memory`, or `Device` if a read or a write failed; what was written then is a prefix of the output.
pub fn run_rebuild<R: Read, W: Write>(
    alloc: Global,
    reader: &mut Tally<R>,
    writer: &mut Tally<W>,
    rsdp: Option<u64>,
    policy: Policy,
    base: u64,
) -> Result<Outcome, RunFault>
    ensures { Runs (ReportsRebuild rsdp policy base)
        (device R.remaining reader.old reader.new)
        (device W.contents writer.old writer.new)
        result }
{
    let image = read_input(alloc, reader)?;
    let output = rebuild_output(alloc, image, rsdp, policy, base);
    write_output(writer, output)
}
