//! Stages 6, 9 and 12: the entries of the MADT, the SRAT and the PPTT, each by itself.

ghost use Rattle.std.specs.Prelude.{◌≢◌, IfErr, MatchOption};
ghost use Rattle.acpi_base.specs.declared.code.Code.{Code};
ghost use Rattle.acpi_read.specs.EntryTables.{entry_table};
ghost use Rattle.acpi_check.specs.PassResults.{PassesEntry, IsLowest};
ghost use Rattle.acpi_check.specs.TableResults.{FindsFirst};
ghost use Rattle.acpi_check.specs.declared.refusal.Refusal.{Refusal};

use crate::refusal::Refusal;
use acpi_base::{Code, Policy, Witness};
use acpi_read::{Entry, Table, TableEntry};

/// The lowest fault that an entry has by itself.
fn own_fault<'a, E: TableEntry<'a> + Copy>(policy: &Policy, entry: &E) -> Option<Code>
    requires { E.IsRead entry.now }
    ensures { MatchOption result ((code : Code) → ¬ E.IsOwn policy.now code (E.value entry.now))
        (λ code. IsLowest (λ other. E.IsOwn policy.now other (E.value entry.now)) code) }
{
    let code = entry.own_code();
    entry.has_fault(policy, code).then_some(code)
}

/// Checks an entry. `earlier` is the offset of the first of those before it of which a table has at most one;
/// returns that offset with this entry counted, or the entry's lowest fault.
fn pass_entry<'a, E: TableEntry<'a> + Copy>(
    policy: &Policy,
    entry: &Entry<'a>,
    earlier: Option<u64>,
) -> Result<Option<u64>, Witness>
    ensures { PassesEntry (entry_table E.first E.said_by (E.IsOwn policy.now) E.IsSingle) E.codes
        entry.now.offset (E.said_by entry.now.bytes.now) earlier result }
{
    let offset = entry.offset;
    let read = E::of(entry.bytes);
    if let Some(code) = own_fault(policy, &read) {
        return Err(Witness::at(code, offset));
    }
    let Some(code) = read.single_code() else {
        return Ok(earlier);
    };
    let Some(first) = earlier else {
        return Ok(Some(offset));
    };
    Err(Witness {
        code,
        at: offset,
        other: first,
        point: 0,
    })
}

/// Whether the entries of a table are valid, each by itself. The first fault is at an entry's offset, at that of the
/// bytes after the entries, or at 0 for a table that is too short. Allocates nothing.
#[inline(never)]
pub fn check_entries<'a, E: TableEntry<'a> + Copy>(
    policy: &Policy,
    table: Table<'a>,
) -> Result<(), Refusal>
    ensures settled { FindsFirst E.stage (E.IsValid policy.now table.entry)
        (E.IsFault policy.now table.entry) result }
    ensures memory { IfErr result (λ refusal. refusal ≢ Refusal.OutOfMemory) }
{
    let mut entries = match E::raw_entries(table) {
        Ok(entries) => entries,
        Err(code) => return Err(Refusal::Fault(Witness::at(code, 0))),
    };
    let mut earlier = None;
    while let Some(entry) = entries.next() {
        earlier = pass_entry::<E>(policy, &entry, earlier)?;
    }
    match entries.cut() {
        Some(offset) => Err(Refusal::Fault(Witness::at(E::codes().cut, offset))),
        None => Ok(()),
    }
}
