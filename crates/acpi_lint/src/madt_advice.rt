//! A rule by hand on a MADT: whether the redistributors of a GIC are enough (ACPI 6.5, 5.2.12.17).

ghost use Rattle.std.specs.Prelude.{◌≡◌, ◌/◌, IfOk, sum_by};
ghost use Rattle.acpi_rules.specs.Places.{FindsLeast};
ghost use Rattle.acpi_lint.specs.Rules.GicAdvice.{IsGicrTooSmall};

use crate::rows::{GICR_LENGTHS, GICRS_ARE_KNOWN, MADT_ENTRIES, USABLE_GICCS};
use acpi_read::Table;
use acpi_rules::{IndexedTable, Numbered, Place, Tables, all_guards_hold, numbers_in_order};
use std::alloc::{AllocError, Global};

/// How many bytes a redistributor takes.
const REDISTRIBUTOR_SIZE: u64 = 0x20000;

/// How many redistributors ranges of these lengths have.
fn redistributors(lengths: &[Numbered]) -> u128
    ensures { result ≡ sum_by (λ g. g.number / 0x20000) lengths.now }
{
    let mut count = 0;
    for length in lengths {
        count += u128::from(length.number / REDISTRIBUTOR_SIZE);
    }
    count
}

/// 161 GicrTooSmall, likely wrong (5.2.12.17): the ranges of redistributors are too small for the usable processors.
/// Numbers: `at` is the offset of the first GICR, `other` is the number of redistributors for which there is room,
/// `point` that of usable GICCs.
/// "The ranges of redistributors, the first at {at} of the MADT, have room for {other:d}, and {point:d} processors are
/// usable."
///
/// The first range of redistributors, with for how many there is room as `other`, and with how many CPU interfaces are
/// usable as `point`, if these are more, and all ranges are known. Allocates for each range and each usable interface.
// No row: it compares a sum with a count.
pub fn gicr_too_small(alloc: Global, madt: &Table<'_>) -> Result<Option<Place>, AllocError>
    ensures { IfOk result (FindsLeast (IsGicrTooSmall madt.now)) }
{
    let tables = Tables {
        table: IndexedTable::new(madt.bytes()),
        other: IndexedTable::new(&[]),
    };
    let lengths = numbers_in_order(alloc, &MADT_ENTRIES, GICR_LENGTHS, &tables)?;
    let Some(first) = lengths.first() else {
        return Ok(None);
    };
    let interfaces = numbers_in_order(alloc, &MADT_ENTRIES, USABLE_GICCS, &tables)?;
    let count = redistributors(&lengths);
    let due = interfaces.len() as u128;
    if count >= due || !all_guards_hold(GICRS_ARE_KNOWN, &tables) {
        return Ok(None);
    }
    Ok(Some(Place {
        at: first.at,
        other: count as u64,
        point: due as u64,
    }))
}
