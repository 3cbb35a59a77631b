//! Stage 1: the RSDP.

ghost use Rattle.std.specs.Prelude.{◌≡◌};
ghost use Rattle.acpi_base.specs.Policy.{PolicyValue};
ghost use Rattle.acpi_base.specs.Rsdp.{IsRsdp};
ghost use Rattle.acpi_base.specs.declared.stage.Stage.{Stage};
ghost use Rattle.acpi_check.specs.StageResults.{Reads};

use acpi_base::{LentImage, Witness};
use acpi_read::Rsdp;

/// The RSDP at an address; its faults are at that address.
pub fn check_rsdp(image: &LentImage<'_>, address: u64) -> Result<Rsdp, Witness>
    ensures { (q : PolicyValue) → q.rsdp ≡ address
        → Reads Stage.Rsdp image.now q (IsRsdp image.now q.rsdp) result }
{
    match Rsdp::read(image, address) {
        Ok(rsdp) => Ok(rsdp),
        Err(code) => Err(Witness::at(code, address)),
    }
}
