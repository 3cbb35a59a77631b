//! The command `confirm`.

ghost use Rattle.std.specs.Prelude.{IfOk};
ghost use Rattle.acpi_cli.specs.Commands.{device, Runs, ReportsConfirm};

use crate::check::{no_rsdp, rsdp_address};
use crate::devices::{Output, read_input, write_output};
use crate::outcome::{Outcome, RunFault};
use acpi_base::{Image, Policy, Tally, Witness};
use acpi_confirm::confirm;
use std::alloc::{AllocError, Global};
use std::io::{Read, Write};

/// What is reported about a fault of the image.
fn confirm_output(
    alloc: Global,
    image: &Image,
    given: Option<u64>,
    mut policy: Policy,
    witness: &Witness,
) -> Result<Output, AllocError>
    ensures { IfOk result (λ output. ReportsConfirm given policy witness.now image.now
        output.bytes.items output.outcome) }
{
    let Some(address) = rsdp_address(image, given) else {
        return no_rsdp(alloc);
    };
    policy.set_rsdp(address);
    if confirm(image, &policy, witness) {
        let bytes = Vec::from_slice(alloc, b"true\n")?;
        let outcome = Outcome::Yes;
        return Ok(Output { bytes, outcome });
    }
    let bytes = Vec::from_slice(alloc, b"false\n")?;
    let outcome = Outcome::No;
    Ok(Output { bytes, outcome })
}

/// Checks whether the witness is a fault of the image whose text is on `reader`, with the RSDP at the address `rsdp`,
/// or if that is `None` at the one that is found. The policy's own address is ignored. No stage needs to hold, and the
/// witness need not be the first fault.
///
/// Writes `true` and returns `Yes`, or writes `false` and returns `No`. If no address is given and none is found, it
/// writes `no rsdp` and returns `No`. Nothing is written before the image is read and the fault is checked. Returns
/// `Image` if the input is not image text, `Memory`, or `Device` if a read or a write failed; what was written then is
/// a prefix of the line.
pub fn run_confirm<R: Read, W: Write>(
    alloc: Global,
    reader: &mut Tally<R>,
    writer: &mut Tally<W>,
    rsdp: Option<u64>,
    policy: Policy,
    witness: &Witness,
) -> Result<Outcome, RunFault>
    ensures { Runs (ReportsConfirm rsdp policy witness.now)
        (device R.remaining reader.old reader.new)
        (device W.contents writer.old writer.new)
        result }
{
    let image = read_input(alloc, reader)?;
    let output = confirm_output(alloc, &image, rsdp, policy, witness);
    write_output(writer, output)
}
