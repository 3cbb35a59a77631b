//! Stage 5: the FACS.

ghost use Rattle.acpi_base.specs.Fadt.{IsFadt};
ghost use Rattle.acpi_base.specs.Policy.{PolicyValue};
ghost use Rattle.acpi_base.specs.Statements.{CleanBefore};
ghost use Rattle.acpi_base.specs.declared.stage.Stage.{Stage};
ghost use Rattle.acpi_check.specs.StageSets.{IsFacsNamed};
ghost use Rattle.acpi_check.specs.StageResults.{Reads};

use acpi_base::{LentImage, Witness};
use acpi_read::{Facs, Fadt};

/// The FACS that the FADT names, which is valid, or none if none is needed; its faults are at its address, and at 0
/// if none is named.
pub fn check_facs<'a>(
    image: &'a LentImage<'_>,
    fadt: &Fadt<'_>,
) -> Result<Option<Facs<'a>>, Witness>
    ensures { (q : PolicyValue) → CleanBefore Stage.Facs image.now q
        → IsFadt image.now q.rsdp fadt.now
        → Reads Stage.Facs image.now q (IsFacsNamed image.now fadt.now) result }
{
    match Facs::read(image, fadt) {
        Ok(facs) => Ok(facs),
        Err(code) => Err(Witness::at(code, fadt.facs_address())),
    }
}
