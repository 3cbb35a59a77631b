//! Why a stage fails.

ghost use Rattle.std.specs.Prelude.{◌≡◌, Err, MatchOption, Ok};
ghost use Rattle.acpi_check.specs.declared.refusal.Refusal.{Refusal};

use acpi_base::{Code, Witness};
use std::alloc::AllocError;

/// Why a stage fails.
#[derive(Clone, Copy)]
pub enum Refusal {
    /// The first fault of the set, or of the tables that were passed: it is one of the stage's.
    Fault(Witness),
    /// Out of memory. The stages up to 6 never run out of memory.
    OutOfMemory,
}

impl From<Witness> for Refusal {
    ghost from_gives = { λ fault refusal. refusal ≡ Refusal.Fault fault };

    fn from(fault: Witness) -> Refusal {
        Refusal::Fault(fault)
    }
}

impl From<AllocError> for Refusal {
    ghost from_gives = { λ _ refusal. refusal ≡ Refusal.OutOfMemory };

    fn from(_error: AllocError) -> Refusal {
        Refusal::OutOfMemory
    }
}

/// Refuses with a fault, if there is one.
pub fn refuse(fault: Option<Witness>) -> Result<(), Refusal>
    ensures { MatchOption fault (result ≡ Ok tt) (λ found. result ≡ Err (Refusal.Fault found)) }
{
    match fault {
        Some(fault) => Err(Refusal::Fault(fault)),
        None => Ok(()),
    }
}
