//! The command `find`.

ghost use Rattle.std.specs.Prelude.{IfOk};
ghost use Rattle.acpi_cli.specs.Commands.{device, Runs, ReportsFound};

use crate::devices::{Output, read_input, write_output};
use crate::outcome::{Outcome, RunFault};
use acpi_base::{Image, Tally, find_rsdp};
use std::alloc::{AllocError, Global};
use std::io::{Read, Write};

/// What a search reports on the image.
#[tactic(auto, unfolding(acpi_base::specs::Text::WitnessText::hex_text))]
fn find_output(alloc: Global, image: &Image) -> Result<Output, AllocError>
    ensures { IfOk result (λ output. ReportsFound image.now output.bytes.items output.outcome) }
{
    let Some(address) = find_rsdp(image) else {
        let bytes = Vec::from_slice(alloc, b"rsdp none\n")?;
        let outcome = Outcome::No;
        return Ok(Output { bytes, outcome });
    };
    let bytes = format!(in alloc; "rsdp 0x{address:x}\n")?.into_bytes();
    let outcome = Outcome::Yes;
    Ok(Output { bytes, outcome })
}

/// Searches the image whose text is on `reader` for the RSDP, at the multiples of 16 from 0xe0000 to
/// 0xffff0 (ACPI 6.5, 5.2.5.1).
///
/// Writes `rsdp` and the lowest address at which it is found, in hex, and returns `Yes`; or `rsdp none`,
/// and returns `No`. Nothing is written before the image is read. Returns `Image` if the input is not
/// image text, `Memory`, or `Device` if a read or a write failed; what was written then is a prefix of
/// the line.
pub fn run_find<R: Read, W: Write>(
    alloc: Global,
    reader: &mut Tally<R>,
    writer: &mut Tally<W>,
) -> Result<Outcome, RunFault>
    ensures { Runs ReportsFound
        (device R.remaining reader.old reader.new)
        (device W.contents writer.old writer.new)
        result }
{
    let image = read_input(alloc, reader)?;
    let output = find_output(alloc, &image);
    write_output(writer, output)
}
