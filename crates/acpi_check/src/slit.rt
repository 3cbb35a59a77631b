//! Stage 11: the SLIT's distances.

ghost use Rattle.std.specs.Prelude.{◌≢◌, IfErr};
ghost use Rattle.acpi_base.specs.Slit.{slit_contents, IsValidSlit, SlitFault};
ghost use Rattle.acpi_base.specs.declared.stage.Stage.{Stage};
ghost use Rattle.acpi_check.specs.TableResults.{FindsFirst};
ghost use Rattle.acpi_check.specs.declared.refusal.Refusal.{Refusal};

use crate::refusal::Refusal;
use acpi_read::{Slit, Table};

/// Whether a SLIT is valid. The first fault is at 0 for one that is too short, at 36 for a number of localities that
/// does not match its length, otherwise at a cell's offset. Allocates nothing.
pub fn check_slit(table: Table<'_>) -> Result<(), Refusal>
    ensures settled { FindsFirst Stage.Slit (IsValidSlit (slit_contents table.entry))
        (SlitFault (slit_contents table.entry)) result }
    ensures memory { IfErr result (λ refusal. refusal ≢ Refusal.OutOfMemory) }
{
    match Slit::new(table) {
        Ok(_) => Ok(()),
        Err(fault) => Err(Refusal::Fault(fault)),
    }
}
