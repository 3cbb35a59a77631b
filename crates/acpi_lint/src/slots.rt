//! Codes 15 to 18: the tables that the slots of the root table list (ACPI 6.5, 5.2.6 to 5.2.8).

ghost use Rattle.acpi_base.specs.Memory.{Memory};
ghost use Rattle.acpi_base.specs.Policy.{PolicyValue};
ghost use Rattle.acpi_base.specs.declared.stage.Stage.{Stage};
ghost use Rattle.acpi_rules.specs.Places.{FindsLeast};
ghost use Rattle.acpi_lint.specs.StageFaults.{IsFaultOfStage};
ghost use Rattle.acpi_lint.specs.CompleteTables.{AreCompleteTables};

use crate::complete_tables::CompleteTables;
use crate::listed_slots::first_slot;
use crate::table_at::Sought;
use acpi_base::Code;
use acpi_rules::Place;

/// The first slot whose table has the fault with this code, and the table's address. The tables are those of the set.
pub fn slot_fault(tables: &CompleteTables<'_>, code: Code) -> Option<Place>
    ensures { (m : Memory) (q : PolicyValue) → AreCompleteTables m q.rsdp tables.now
        → FindsLeast (IsFaultOfStage Stage.Tables code m q) result }
{
    let slot = first_slot(&tables.slots, Sought::Fault(code))?;
    Some(Place {
        at: slot.number,
        other: slot.table.address,
        point: 0,
    })
}
