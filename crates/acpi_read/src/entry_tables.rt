//! The entries of tables of entries, up to the cut. They need not be valid: one whose length is wrong for its type is
//! opaque, like one of another type.

ghost use Rattle.std.specs.Prelude.{◌≡◌, ◌<◌, ◌^◌, length};
ghost use Rattle.acpi_base.specs.Entries.{cut_of, entries_of, entries_read_by};

use crate::entries::{Entries, entries_from};
use crate::table::Table;
use crate::typed_entries::{TableEntry, TypedEntries};

impl<'a> Table<'a> {
    /// The entries from the offset on where those of a kind of table begin: none if the table ends before it.
    #[tactic(auto, using(crate::proofs::EntriesLeft::entries_within, crate::proofs::EntriesLeft::cut_within))]
    fn entries_within<E: TableEntry<'a>>(&self) -> Entries<'a>
        ensures entries { result.entries ≡ entries_of E.first self.now }
        ensures contents { entries_read_by E.said_by result.entries ≡ E.contents self.now }
        ensures cut { result.cut ≡ cut_of E.first self.now }
        ensures size { length self.now < 2 ^ 32 }
    {
        let first = E::first().min(self.bytes().len());
        entries_from(self.copied(), first)
    }

    /// Its entries by contents, as those of a kind of table: none if it ends before the offset of its first entry.
    pub fn entries<E: TableEntry<'a>>(&self) -> TypedEntries<'a, E>
        ensures entries { entries_read_by E.said_by result.entries.entries ≡ E.contents self.now }
        ensures size { length self.now < 2 ^ 32 }
    {
        self.entries_within::<E>().into()
    }

    /// The cut: the offset of the bytes after these entries, if there are any. No entry can begin there.
    pub fn cut<E: TableEntry<'a>>(&self) -> Option<u64>
        ensures { result ≡ cut_of E.first self.now }
    {
        let mut entries = self.entries_within::<E>();
        while entries.next().is_some() {}
        entries.cut()
    }
}
