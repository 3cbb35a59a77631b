//! The entries of a table by contents.

ghost use Rattle.std.specs.Prelude.{◌≡◌, ◌≤◌, ◌<◌, ◌↔◌, ℕ, List, length, IsTrue, IfOk, IfErr, MatchOption};
ghost use Rattle.std.specs.Iterator.{item_count};
ghost use Rattle.acpi_base.specs.Codes.{code_number};
ghost use Rattle.acpi_base.specs.Entries.{IsEntry, PlacedEntry, entries_of, entries_read_by};
ghost use Rattle.acpi_base.specs.Policy.{PolicyValue};
ghost use Rattle.acpi_base.specs.declared.code.Code.{Code};
ghost use Rattle.acpi_base.specs.declared.stage.Stage.{Stage};
ghost use Rattle.acpi_read.specs.Entries.{entries_from_place, GivesTyped};
ghost use Rattle.acpi_read.specs.EntryTables.{entry_table, subject_of, AreFaults};
ghost use Rattle.acpi_read.specs.declared.entry_codes.EntryCodes.{EntryCodes};
ghost use Rattle.acpi_read.specs.declared.entry_codes.Subject.{Subject};

use crate::entries::Entries;
use crate::entry::Entry;
use crate::entry_codes::EntryCodes;
use crate::table::Table;
use acpi_base::{Code, Policy};
use std::marker::PhantomData;

/// The contents of an entry of a kind of table: one variant for each type of entry that is read, and one for all
/// others; and what is wrong with an entry by itself.
pub trait TableEntry<'a>: Sized {
    ghost Said: { Type 0 };

    /// What a value represents.
    ghost value: { Self → Said };

    /// The contents of an entry with these bytes.
    ghost said_by: { List ℕ → Said };

    /// What holds for every value that was read.
    ghost IsRead: { Self → Type 0 } = { λ _. Unit {0} };

    /// The offset of the first entry.
    ghost first: { ℕ };

    /// The entries of a table with these bytes.
    ghost contents: { List ℕ → List (PlacedEntry Said) };

    /// The codes of the table's faults that are not about an entry by itself.
    ghost codes: { EntryCodes };

    /// The faults that an entry has by itself, by their code.
    ghost IsOwn: { PolicyValue → Code → Said → Type 0 };

    /// The code of the lowest fault that an entry can have by itself.
    ghost own_code: { Said → Code };

    /// The entries of which a table has at most one.
    ghost IsSingle: { Said → Type 0 };

    /// The stage that checks each entry by itself.
    ghost stage: { Stage };

    /// Its faults, of a table with these bytes.
    ghost IsFault: { PolicyValue → List ℕ → Code → ℕ → ℕ → ℕ → Type 0 };

    /// It holds for a table with these bytes.
    ghost IsValid: { PolicyValue → List ℕ → Type 0 };

    /// The contents of an entry with these bytes. One whose length is wrong for its type is opaque, like one of
    /// another type.
    fn of(bytes: &'a [u8]) -> Self
        requires { IsEntry bytes.now }
        ensures value { value result ≡ said_by bytes.now }
        ensures read { IsRead result };

    /// The offset of the first entry.
    fn first() -> usize
        ensures value { result ≡ first }
        ensures contents { (whole : List ℕ)
            → contents whole ≡ entries_read_by said_by (entries_of first whole) };

    /// The codes of the table's faults that are not about an entry by itself.
    fn codes() -> EntryCodes
        ensures { result ≡ codes };

    /// The entries of a table by their bytes. Refuses one that ends before the offset of its first entry, with the code
    /// for that. Also states that the faults of the stage are those of such a table (`AreFaults`).
    fn raw_entries(table: Table<'a>) -> Result<Entries<'a>, Code>
        ensures ok { IfOk result
            (λ entries. (first ≤ length table.entry) × (entries ≡ entries_from_place first table.entry)) }
        ensures err { IfErr result
            (λ code. (length table.entry < first) × (subject_of codes code ≡ Subject.Short)) }
        ensures faults { AreFaults stage codes
            (λ q. entry_table first said_by (IsOwn q) IsSingle) IsFault IsValid };

    /// Whether the entry has the fault with a code by itself.
    fn has_fault(&self, policy: &Policy, code: Code) -> bool
        requires { IsRead self.now }
        ensures { IsTrue result ↔ IsOwn policy.now code (value self.now) };

    /// The code of the lowest fault that the entry can have by itself.
    fn own_code(&self) -> Code
        ensures value { result ≡ own_code (value self.now) }
        ensures lowest { (q : PolicyValue) (code : Code) → IsOwn q code (value self.now)
            → IsOwn q (own_code (value self.now)) (value self.now)
            × (code_number (own_code (value self.now)) ≤ code_number code) };

    /// The code of a second entry like this one, if a table has at most one.
    fn single_code(&self) -> Option<Code>
        ensures { MatchOption result (¬ IsSingle (value self.now))
            (λ code. IsSingle (value self.now) × (subject_of codes code ≡ Subject.Second)) };
}

/// The contents of an entry, and its offset.
#[derive(Clone, Copy, Debug, PartialEq, Eq)]
pub struct EntryAt<E> {
    /// Its offset, from the table's start.
    pub offset: u64,
    /// Its contents.
    pub entry: E,
}

/// The entries of a table by contents, in their order, from its first one up to the cut.
#[derive(Debug, Drop)]
pub struct TypedEntries<'a, E> {
    entries: Entries<'a>,
    kind: PhantomData<E>,
}

impl<'a, E> From<Entries<'a>> for TypedEntries<'a, E> {
    ghost from_gives = { λ entries typed. typed.entries.entries ≡ entries.entries };

    fn from(entries: Entries<'a>) -> TypedEntries<'a, E> {
        TypedEntries {
            entries,
            kind: PhantomData,
        }
    }
}

impl<'a, E: TableEntry<'a>> Iterator for TypedEntries<'a, E> {
    type Item = EntryAt<E>;

    ghost next_gives = { λ before entry after. GivesTyped E.value E.said_by E.IsRead
        before.entries.entries entry after.entries.entries };

    ghost remaining = { item_count (λ left. left.entries.entries) };

    // A caller mostly uses entries of one type: the fields of the others need not be read.
    #[inline(always)]
    fn next(&mut self) -> Option<EntryAt<E>> {
        let Entry { offset, bytes } = self.entries.next()?;
        let entry = E::of(bytes);
        Some(EntryAt { offset, entry })
    }
}
