//! The places of the faults that stages on single tables find.

ghost use Rattle.std.specs.Prelude.{◌<◌, ◌^◌, IfOk, IfSome, ◌≡◌, Err, OnErr};
ghost use Rattle.acpi_check.specs.declared.refusal.Refusal.{Refusal};
ghost use Rattle.acpi_lint.specs.StageFaults.{IsPlaceOf};

use acpi_check::Refusal;
use acpi_rules::Place;
use std::alloc::AllocError;

/// The place of the fault that a stage finds. Refuses if the stage ran out of memory.
pub fn place_of(verdict: Result<(), Refusal>) -> Result<Option<Place>, AllocError>
    ensures place { IfOk result (IsPlaceOf verdict) }
    ensures memory { OnErr result (verdict ≡ Err Refusal.OutOfMemory) }
    ensures fits { IfOk result (λ found. IfSome found (λ place. place.point < 2 ^ 64)) }
{
    match verdict {
        Ok(()) => Ok(None),
        Err(Refusal::Fault(fault)) => Ok(Some(Place {
            at: fault.at,
            other: fault.other,
            point: fault.point,
        })),
        Err(Refusal::OutOfMemory) => Err(AllocError),
    }
}
