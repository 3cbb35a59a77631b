//! Reading a command function's input and writing its output.

ghost use Rattle.std.specs.Prelude.{◌≡◌, ℕ, Err, IfErr, IfOk, OnOk, OnErr, take};
ghost use Rattle.std.specs.Io.KnownBytes.{Appends};
ghost use Rattle.acpi_base.specs.Tally.{CountsFailure};
ghost use Rattle.acpi_cli.specs.Commands.{device, ReadsInput, WritesNothing, WritesOutput};

use crate::outcome::{Outcome, RunFault};
use acpi_base::{DeviceFailed, Image, Tally, TextFault, read_image};
use std::alloc::{AllocError, Global};
use std::io::{Read, Write};

/// What a command function is to write, and the outcome that it then returns.
#[derive(Drop)]
pub struct Output {
    pub bytes: Vec<u8>,
    pub outcome: Outcome,
}

/// The image whose text is on `reader`. Returns `Image` if the input is not image text, `Memory`, or
/// `Device` if a read failed.
pub fn read_input<R: Read>(alloc: Global, reader: &mut Tally<R>) -> Result<Image, RunFault>
    ensures { ReadsInput (device R.remaining reader.old reader.new) result }
{
    match read_image(alloc, reader) {
        Ok(image) => Ok(image),
        Err(TextFault::Read) => Err(RunFault::Device),
        Err(TextFault::Memory) => Err(RunFault::Memory),
        Err(fault) => Err(RunFault::Image(fault)),
    }
}

/// Writes the output's bytes, and returns its outcome, or `Device` if a write failed. If the output was not made,
/// nothing is written: `Memory`.
pub fn write_output<W: Write>(
    writer: &mut Tally<W>,
    output: Result<Output, AllocError>,
) -> Result<Outcome, RunFault>
    ensures made { IfOk output (λ made. WritesOutput (device W.contents writer.old writer.new)
        made.bytes.items made.outcome result) }
    ensures memory { IfErr output (λ _. (result ≡ Err RunFault.Memory)
        × WritesNothing (device W.contents writer.old writer.new)) }
{
    let Ok(output) = output else {
        return Err(RunFault::Memory);
    };
    match write_all(writer, &output.bytes) {
        Ok(()) => Ok(output.outcome),
        Err(DeviceFailed) => Err(RunFault::Device),
    }
}

/// Writes all the bytes, with as many writes as it takes.
fn write_all<W: Write>(writer: &mut Tally<W>, bytes: &[u8]) -> Result<(), DeviceFailed>
    ensures ok { OnOk result
        (Appends (W.contents writer.old.inner) (W.contents writer.new.inner) bytes.now) }
    ensures valid { OnOk result (writer.new.failures ≡ writer.old.failures) }
    ensures err { OnErr result
        ((n : ℕ) × Appends (W.contents writer.old.inner) (W.contents writer.new.inner)
        (take n bytes.now)) }
    ensures counted { OnErr result (CountsFailure writer.old.failures writer.new.failures) }
{
    let mut written = 0;
    while written < bytes.len() {
        written += writer.write(&bytes[written..])?;
    }
    Ok(())
}
