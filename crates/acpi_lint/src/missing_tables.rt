//! Tables that another one needs and that no slot of the root table lists.

ghost use Rattle.std.specs.Prelude.{ℕ, IfOk};
ghost use Rattle.acpi_base.specs.Memory.{Memory};
ghost use Rattle.acpi_rules.specs.Places.{FindsLeast};
ghost use Rattle.acpi_lint.specs.Rules.MissingTables.{IsHmatAlone, IsNoGtdt};
ghost use Rattle.acpi_lint.specs.Slots.{AreFirstSlots};

use crate::first_slots::FirstSlots;
use crate::further_table::FurtherTable;
use crate::rows::NEEDS_GTDT;
use acpi_base::TableKind;
use acpi_read::Table;
use acpi_rules::{IndexedTable, Place, Tables, first_finding};
use std::alloc::{AllocError, Global};

/// 207 HmatAlone, likely wrong (5.2.28): there is an HMAT, and no SRAT is listed.
/// Numbers: all 0.
/// "There is an HMAT, and no SRAT is listed."
/// The HMAT counts if all its bytes are there, also one that HmatHeader reports, and an SRAT if its header is there.
// No row: a row does not see which tables are listed.
pub fn hmat_alone(firsts: &FirstSlots) -> Option<Place>
    ensures { (m : Memory) (p : ℕ) → AreFirstSlots m p firsts.now
        → FindsLeast (IsHmatAlone m p) result }
{
    if firsts.of_kind(TableKind::Srat).is_some() {
        return None;
    }
    Some(Place {
        at: 0,
        other: 0,
        point: 0,
    })
}

/// 209 NoGtdt, likely wrong (5.2.25): the MADT has a GIC CPU interface, and no GTDT is listed.
/// Numbers: all 0.
/// "The MADT has a GIC CPU interface, and no GTDT is listed."
/// A GTDT counts if its header is there.
// No row: a row does not see which tables are listed.
pub fn no_gtdt(
    alloc: Global,
    firsts: &FirstSlots,
    madt: &Table<'_>,
) -> Result<Option<Place>, AllocError>
    ensures { IfOk result (λ found. (m : Memory) (p : ℕ) → AreFirstSlots m p firsts.now
        → FindsLeast (IsNoGtdt m p madt.now) found) }
{
    if firsts.of_further(FurtherTable::Gtdt).is_some() {
        return Ok(None);
    }
    let tables = Tables {
        table: IndexedTable::new(madt.bytes()),
        other: IndexedTable::new(&[]),
    };
    first_finding(alloc, &NEEDS_GTDT, &tables)
}
