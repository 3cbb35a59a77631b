//! Bytes that a call makes for its caller.

ghost use Rattle.std.specs.Prelude.{◌≡◌};
ghost use Rattle.acpi_c.specs.Answers.{made_answer, made_written};
ghost use Rattle.acpi_c.specs.Made.{made_in};

use crate::answer::{Answer, copy_to};
use crate::kind::AnswerKind;
use crate::refusal::Refusal;
use acpi_base::{Verdict, Witness};

/// What a call makes.
#[derive(Drop)]
pub enum Made {
    /// These bytes.
    Bytes(Vec<u8>),
    /// None, since the set has this fault.
    Fault(Witness),
}

/// Copies the bytes to the caller's room, as many as fit, and returns how many there are; or returns the fault, or why
/// the call is refused.
pub fn write_made(room: &mut [u8], made: Result<Made, Refusal>) -> Answer
    ensures answer { result ≡ made_answer (made_in made) }
    ensures room { room.new ≡ made_written (made_in made) room.old }
{
    match made {
        Ok(Made::Bytes(bytes)) => {
            copy_to(room, &bytes);
            Answer::with_at(AnswerKind::Yes, bytes.len() as u64)
        }
        Ok(Made::Fault(fault)) => Answer::from(Verdict::No(fault)),
        Err(refusal) => Answer::from(refusal),
    }
}
