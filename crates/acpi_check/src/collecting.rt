//! Values collected from the entries of a table.

ghost use Rattle.std.specs.Prelude.{IfOk, Contains};
ghost use denote.Ref.{Bor};
ghost use Rattle.acpi_base.specs.Entries.{entries_read_by};
ghost use Rattle.acpi_read.specs.Entries.{entry_at_value};
ghost use Rattle.acpi_check.specs.CollectedValues.{Collects, Picks};

use acpi_read::{EntryAt, TableEntry, TypedEntries};
use std::alloc::{AllocError, Global};

/// The values that `pick` returns for a table's remaining entries, in their order; an entry for which it returns none
/// is skipped. It is called once for each entry, with the entry's offset in bytes from the table's start. The entries
/// are those of a MADT (ACPI 6.5, 5.2.12), an SRAT (5.2.16) or a PPTT (5.2.30).
///
/// Refuses with `AllocError` if out of memory: it allocates for each value.
// Inlined, so that a `pick` that is passed in one place alone is inlined too, and not called for each entry.
#[inline(always)]
pub fn collected<'a, E: TableEntry<'a> + Copy, T: Drop, F: Fn(&EntryAt<E>) -> Option<T>>(
    alloc: Global,
    entries: TypedEntries<'a, E>,
    pick: F,
) -> Result<Vec<T>, AllocError>
    requires { (at : Bor (EntryAt E))
        → Contains (entries_read_by E.said_by entries.entries.entries)
        (entry_at_value E.value at.now) → F.pre pick at }
    ensures { IfOk result (λ found. Collects (Picks E.value (F.post pick))
        (entries_read_by E.said_by entries.entry.entries.entries) found.items) }
{
    let mut found = Vec::new(alloc);
    for entry in entries {
        if let Some(value) = pick(&entry) {
            found.push(value)?;
        }
    }
    Ok(found)
}
