//! The command `show`.

ghost use Rattle.std.specs.Prelude.{IfOk};
ghost use Rattle.acpi_base.specs.Faults.{IsVerdict};
ghost use Rattle.acpi_base.specs.Policy.{with_rsdp};
ghost use Rattle.acpi_cli.specs.Commands.{device, shown_policy, Runs, ReportsShow, ReportsShowAnyway};

use crate::check::{no_rsdp, rsdp_address};
use crate::devices::{Output, read_input, write_output};
use crate::outcome::{Outcome, RunFault};
use acpi_base::{Image, Stage, Tally, Verdict, verdict_text};
use acpi_check::read_set;
use acpi_read::Root;
use acpi_show::{complete_tables, set_text};
use std::alloc::{AllocError, Global};
use std::io::{Read, Write};

/// What is shown for the image.
fn show_output(alloc: Global, image: &Image, given: Option<u64>) -> Result<Output, AllocError>
    ensures { IfOk result (λ output. ReportsShow given image.now output.bytes.items
        output.outcome) }
{
    let Some(address) = rsdp_address(image, given) else {
        return no_rsdp(alloc);
    };
    let set = match read_set(alloc, image, address) {
        Ok(set) => set,
        Err(fault) => {
            let bytes = verdict_text(alloc, &Verdict::No(fault))?;
            let outcome = Outcome::No;
            return Ok(Output { bytes, outcome });
        }
    };
    let bytes = set_text(alloc, image, address, &set.root, &set.tables)?.into_bytes();
    let outcome = Outcome::Yes;
    Ok(Output { bytes, outcome })
}

/// Shows the set of tables of the image whose text is on `reader`, from the RSDP at the address `rsdp`, or if that is
/// `None` from the one that is found: a line for the RSDP, for the root, for each of its slots, and for each structure
/// of the FADT, the FACS, the MADT, the SRAT, the SLIT and the PPTT.
///
/// Returns `Yes` if the stages up to the listed tables hold. If they do not, it writes the verdict's line and returns
/// `No`; if no address is given and none is found, it writes `no rsdp` and returns `No`. Nothing is written before the
/// image is read and checked and all lines are made. Returns `Image` if the input is not image text, `Memory`, or
/// `Device` if a read or a write failed; what was written then is a prefix of the lines.
pub fn run_show<R: Read, W: Write>(
    alloc: Global,
    reader: &mut Tally<R>,
    writer: &mut Tally<W>,
    rsdp: Option<u64>,
) -> Result<Outcome, RunFault>
    ensures { Runs (ReportsShow rsdp)
        (device R.remaining reader.old reader.new)
        (device W.contents writer.old writer.new)
        result }
{
    let image = read_input(alloc, reader)?;
    let output = show_output(alloc, &image, rsdp);
    write_output(writer, output)
}

/// The verdict on the stages up to the listed tables, from the RSDP at an address.
fn tables_verdict(alloc: Global, image: &Image, rsdp: u64) -> Verdict
    ensures { IsVerdict Stage.Tables image.now (with_rsdp shown_policy rsdp) result }
{
    match read_set(alloc, image, rsdp) {
        Ok(_) => Verdict::Yes,
        Err(fault) => Verdict::No(fault),
    }
}

/// What is shown for the image even if the stages up to the listed tables do not hold.
fn anyway_output(alloc: Global, image: &Image, given: Option<u64>) -> Result<Output, AllocError>
    ensures { IfOk result (λ output. ReportsShowAnyway given image.now output.bytes.items
        output.outcome) }
{
    let Some(address) = rsdp_address(image, given) else {
        return no_rsdp(alloc);
    };
    let mut bytes = verdict_text(alloc, &tables_verdict(alloc, image, address))?;
    let Some(root) = Root::complete(image, address) else {
        let outcome = Outcome::No;
        return Ok(Output { bytes, outcome });
    };
    let tables = complete_tables(image, &root);
    let lines = set_text(alloc, image, address, &root, &tables)?.into_bytes();
    bytes.extend_from_slice(&lines)?;
    let outcome = Outcome::Yes;
    Ok(Output { bytes, outcome })
}

/// Shows the set of tables of the image whose text is on `reader` (see `run_show`), even if checksums and Lengths of these
/// tables are wrong. The first line is the verdict's on the stages up to the listed tables, `yes` too.
///
/// Returns `Yes` if the root table is complete: if it has its signature, a Length of at least 36, and all its bytes are
/// present, whatever they sum to. The line of a slot with a table that is not complete is `slot K ADDRESS bad`; the first
/// listed table of a kind has lines only if it is complete. Without such a root table, it writes the verdict's line alone
/// and returns `No`; if no address is given and none is found, it writes `no rsdp` and returns `No`. All else is as for
/// `run_show`.
pub fn run_show_anyway<R: Read, W: Write>(
    alloc: Global,
    reader: &mut Tally<R>,
    writer: &mut Tally<W>,
    rsdp: Option<u64>,
) -> Result<Outcome, RunFault>
    ensures { Runs (ReportsShowAnyway rsdp)
        (device R.remaining reader.old reader.new)
        (device W.contents writer.old writer.new)
        result }
{
    let image = read_input(alloc, reader)?;
    let output = anyway_output(alloc, &image, rsdp);
    write_output(writer, output)
}
