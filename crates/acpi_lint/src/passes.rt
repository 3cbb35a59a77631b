//! Passes over the entries of a table, and the faults of a table of entries: codes 32 to 38 (the MADT, ACPI 6.5,
//! 5.2.12), 41 to 44 (the SRAT, 5.2.16), and 50 and 51 (the PPTT, 5.2.30).

ghost use Rattle.std.specs.Prelude.{◌↔◌, Contains, IsTrue};
ghost use denote.Ref.{Bor};
ghost use Rattle.acpi_base.specs.Entries.{entries_of, entries_read_by};
ghost use Rattle.acpi_base.specs.Listed.{HasListed};
ghost use Rattle.acpi_base.specs.Memory.{Memory};
ghost use Rattle.acpi_base.specs.TableKinds.{signature_of};
ghost use Rattle.acpi_check.specs.CollectedValues.{Picks};
ghost use Rattle.acpi_rules.specs.Places.{FindsLeast, HasNone};
ghost use Rattle.acpi_lint.specs.Places.{IsSoughtEntry, FindsOwn, PicksFirst};
ghost use Rattle.acpi_lint.specs.CompleteTables.{AreCompleteTables};
ghost use Rattle.acpi_read.specs.EntryTables.{entry_table, IsAbout};
ghost use Rattle.acpi_read.specs.Entries.{entry_at_value};
ghost use Rattle.acpi_read.specs.declared.entry_codes.Subject.{Subject};

use crate::complete_tables::CompleteTables;
use acpi_base::{Code, Policy, TableKind};
use acpi_read::{EntryAt, Subject, Table, TableEntry, TypedEntries};
use acpi_rules::Place;

/// The result of `pick` for the first entry for which it returns one.
pub fn first_picked<'a, E: TableEntry<'a> + Copy, T: Drop, F: Fn(&EntryAt<E>) -> Option<T>>(
    entries: TypedEntries<'a, E>,
    pick: F,
) -> Option<T>
    requires { (at : Bor (EntryAt E))
        → Contains (entries_read_by E.said_by entries.entries.entries)
        (entry_at_value E.value at.now) → E.IsRead at.now.entry → F.pre pick at }
    ensures { PicksFirst (Picks E.value (F.post pick))
        (entries_read_by E.said_by entries.entry.entries.entries) result }
{
    for entry in entries {
        if let Some(value) = pick(&entry) {
            return Some(value);
        }
    }
    None
}

/// What is looked for among the entries of a table.
#[derive(Clone, Copy)]
pub enum SoughtEntry {
    /// One that has the fault with this code by itself.
    Own(Code),
    /// One of a kind of which a table has at most one.
    Single,
    /// One of these after the first, which is at this offset.
    SingleAfter(u64),
}

/// The place of an entry that is looked for.
#[inline(always)]
fn sought_place<'a, E: TableEntry<'a>>(
    policy: &Policy,
    sought: SoughtEntry,
    at: &EntryAt<E>,
) -> Option<Place>
    requires { E.IsRead at.now.entry }
    ensures { FindsOwn
        (IsSoughtEntry (entry_table E.first E.said_by (E.IsOwn policy.now) E.IsSingle) sought)
        (entry_at_value E.value at.now) result }
{
    match sought {
        SoughtEntry::Own(code) => at
            .entry
            .has_fault(policy, code)
            .then_some(Place::at(at.offset)),
        SoughtEntry::Single => at
            .entry
            .single_code()
            .is_some()
            .then_some(Place::at(at.offset)),
        SoughtEntry::SingleAfter(first) if at.offset > first => {
            at.entry.single_code().is_some().then_some(Place {
                at: at.offset,
                other: first,
                point: 0,
            })
        }
        SoughtEntry::SingleAfter(_) => None,
    }
}

/// The place of the first entry that is looked for, if the table does not end before the offset of its first entry.
#[inline(always)]
fn first_sought<'a, E: TableEntry<'a> + Copy>(
    policy: &Policy,
    sought: SoughtEntry,
    table: &Table<'a>,
) -> Option<Place>
    ensures { PicksFirst
        (FindsOwn (IsSoughtEntry (entry_table E.first E.said_by (E.IsOwn policy.now) E.IsSingle) sought))
        (entries_read_by E.said_by (entries_of E.first table.now)) result }
{
    let entries = match E::raw_entries(table.copied()) {
        Ok(entries) => TypedEntries::<E>::from(entries),
        Err(_) => return None,
    };
    for at in entries {
        if let Some(place) = sought_place(policy, sought, &at) {
            return Some(place);
        }
    }
    None
}

/// The place of the second entry of a kind of which a table has at most one; `other` is the first.
fn second_single<'a, E: TableEntry<'a> + Copy>(
    policy: &Policy,
    code: Code,
    table: &Table<'a>,
) -> Option<Place>
    ensures { FindsLeast
        (IsAbout (entry_table E.first E.said_by (E.IsOwn policy.now) E.IsSingle) table.now
        Subject.Second code) result }
{
    let first = first_sought::<E>(policy, SoughtEntry::Single, table)?;
    first_sought::<E>(policy, SoughtEntry::SingleAfter(first.at), table)
}

/// The place of the first fault of a table with this code. None for a code of another stage.
fn table_fault<'a, E: TableEntry<'a> + Copy>(
    policy: &Policy,
    code: Code,
    table: &Table<'a>,
) -> Option<Place>
    ensures { FindsLeast (E.IsFault policy.now table.now code) result }
{
    let entries = E::raw_entries(table.copied());
    match E::codes().subject(code) {
        Subject::Short => entries.is_err().then_some(Place::at(0)),
        Subject::Cut => Some(Place::at(table.cut::<E>()?)),
        Subject::Second => second_single::<E>(policy, code, table),
        Subject::Own => first_sought::<E>(policy, SoughtEntry::Own(code), table),
    }
}

/// Whether a table has no fault with these two codes: of the cut, and of an entry with another length than its type's.
pub fn is_well_formed<'a, E: TableEntry<'a> + Copy>(
    policy: &Policy,
    cut: Code,
    length: Code,
    table: &Table<'a>,
) -> bool
    ensures { IsTrue result ↔ (HasNone (E.IsFault policy.now table.now cut)
        × HasNone (E.IsFault policy.now table.now length)) }
{
    table_fault::<E>(policy, cut, table).is_none()
        && table_fault::<E>(policy, length, table).is_none()
}

/// The place of the first fault with this code of a set's table of a kind. None for a code of another stage, and if
/// the set lists no complete table of the kind.
pub fn listed_fault<'a, E: TableEntry<'a> + Copy>(
    tables: &CompleteTables<'a>,
    kind: TableKind,
    policy: &Policy,
    code: Code,
) -> Option<Place>
    ensures { (m : Memory) → AreCompleteTables m policy.now.rsdp tables.now
        → FindsLeast (λ at other point. HasListed m policy.now.rsdp (signature_of kind)
        (λ whole. E.IsFault policy.now whole code at other point)) result }
{
    table_fault::<E>(policy, code, &tables.table(kind)?)
}
