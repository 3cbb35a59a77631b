//! What a command function returns, and the exit status for it.

ghost use Rattle.std.specs.Prelude.{◌≡◌};
ghost use Rattle.acpi_cli.specs.Program.{exit_status};

use acpi_base::TextFault;
use thiserror::Error;

/// What a command function returns if nothing failed.
#[derive(Clone, Copy, Debug, PartialEq, Eq)]
pub enum Outcome {
    /// The answer is yes.
    Yes,
    /// The answer is no; the output says why.
    No,
}

/// Why a command function failed.
#[derive(Clone, Copy, Debug, PartialEq, Eq, Error)]
pub enum RunFault {
    /// The input is not image text: a fault of the text, never `Read` or `Memory`.
    #[error("{0}")]
    Image(TextFault),
    /// Out of memory.
    #[error("out of memory")]
    Memory,
    /// A read or a write failed.
    #[error("device")]
    Device,
}

/// The program's exit status: 0 for `Yes`, 1 for `No`, 3 if the text is refused, and 4 if memory ran out or
/// a device failed. Refused arguments have status 2, before any command function runs.
pub fn status_of(run: &Result<Outcome, RunFault>) -> u8
    ensures { result ≡ exit_status run.now }
{
    match run {
        Ok(Outcome::Yes) => 0,
        Ok(Outcome::No) => 1,
        Err(RunFault::Image(_)) => 3,
        Err(RunFault::Memory | RunFault::Device) => 4,
    }
}
