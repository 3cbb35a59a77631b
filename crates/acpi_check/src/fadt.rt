//! Stage 4: the FADT.

ghost use Rattle.acpi_base.specs.Fadt.{IsFadt};
ghost use Rattle.acpi_base.specs.Policy.{PolicyValue};
ghost use Rattle.acpi_base.specs.Statements.{CleanBefore};
ghost use Rattle.acpi_base.specs.Memory.{Memory};
ghost use Rattle.acpi_base.specs.declared.stage.Stage.{Stage};
ghost use Rattle.acpi_check.specs.StageResults.{Reads};
ghost use Rattle.acpi_check.specs.TableResults.{AreFirstTables};

use acpi_base::{Code, TableKind, Witness};
use acpi_read::{Fadt, FirstTables};

/// The FADT, which is valid; its faults are at an offset from the FADT's start, and at 0 if there is none or it is
/// too short.
pub fn check_fadt<'a>(tables: &FirstTables<'a>) -> Result<Fadt<'a>, Witness>
    ensures { (m : Memory) (q : PolicyValue) → CleanBefore Stage.Fadt m q
        → AreFirstTables m q.rsdp tables.now
        → Reads Stage.Fadt m q (IsFadt m q.rsdp) result }
{
    let Some(table) = tables.first(TableKind::Fadt) else {
        return Err(Witness::at(Code::NoFadt, 0));
    };
    let fadt = match Fadt::new(table) {
        Ok(fadt) => fadt,
        Err(code) => return Err(Witness::at(code, 0)),
    };
    match fadt.fault() {
        Some(fault) => Err(fault),
        None => Ok(fadt),
    }
}
