//! A rule by hand on a GTDT: ranges of registers that overlap (ACPI 6.5, 5.2.25.1, 5.2.25.2).

ghost use Rattle.std.specs.Prelude.{IfOk};
ghost use Rattle.acpi_rules.specs.Places.{FindsLeast};
ghost use Rattle.acpi_lint.specs.Rules.TimerAdvice.{IsTimerOverlap};

use crate::rows::TIMER_RANGES;
use acpi_read::Table;
use acpi_rules::{IndexedTable, Place, Range, Tables, first_overlap_of};
use std::alloc::{AllocError, Global};

/// 219 TimerOverlap, look at it (5.2.25.1, 5.2.25.2): two ranges of registers of the GTDT's platform timers share an
/// address.
/// Numbers: `at` and `other` are the offsets in the GTDT of the addresses of two such ranges, first that of the one
/// that begins lower, and of two that begin together the lower offset; `point` is the lowest address at which two
/// overlap.
/// "The registers whose addresses are at {at} and {other} of the GTDT share the address {point}."
/// A range has 4096 bytes. Its address is the CntCtlBase of a GT Block, the CntBase or CntEL0Base of a frame, or the
/// RefreshFrame or WatchdogControlFrame address of a watchdog, unless that is 0 or 2^64 - 1.
///
/// Allocates for each address of registers.
// No row: a structure has several ranges.
pub fn timer_overlap(alloc: Global, gtdt: &Table<'_>) -> Result<Option<Place>, AllocError>
    ensures { IfOk result (FindsLeast (IsTimerOverlap gtdt.now)) }
{
    let tables = Tables {
        table: IndexedTable::new(gtdt.bytes()),
        other: IndexedTable::new(&[]),
    };
    first_overlap_of(alloc, TIMER_RANGES, Range::Count, &tables)
}
