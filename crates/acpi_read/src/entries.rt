//! Entries of the tables that consist of entries: the MADT, the SRAT and the PPTT.

ghost use Rattle.std.specs.Prelude.{◌≡◌, ◌≤◌, ◌<◌, ◌+◌, ◌↔◌, length, IsOk, IfOk, IfErr, MatchOption};
ghost use Rattle.std.specs.Iterator.{YieldsFirstBy, item_count};
ghost use Rattle.std.specs.Option.{option_map};
ghost use Rattle.acpi_base.specs.Entries.{first_entry};
ghost use Rattle.acpi_base.specs.declared.code.Code.{Code};
ghost use Rattle.acpi_read.specs.Entries.{entries_from_place, entry_value, cut_behind, IsLast, IsNext};

use crate::entry::Entry;
use crate::table::Table;
use acpi_base::Code;
use std::marker::Model;

/// The entries of a table in order, from its first one up to the cut. Each has at least two bytes: its type, its
/// length in bytes, and the rest.
#[derive(Debug, Drop)]
pub struct Entries<'a> {
    /// All the table's bytes.
    whole: &'a [u8],
    /// The offset of the bytes that remain after the entries that were returned.
    offset: usize,
}

impl<'a> Model for Entries<'a> {
    ghost use Rattle.std.specs.Prelude.{◌≤◌, length};
    ghost use Rattle.acpi_read.specs.Entries.{EntriesValue, entries_from_place};

    ghost Value = { EntriesValue };

    ghost view = { λ entries. entries_from_place entries.offset entries.whole.now };

    ghost invariant = { λ entries. entries.offset ≤ length entries.whole.now };
}

/// The entry that the bytes begin with, if there is one.
#[tactic(auto, unfolding(acpi_base::specs::Entries::first_entry))]
fn first_entry(left: &[u8]) -> Option<&[u8]>
    ensures { option_map (λ entry. entry.now) result ≡ first_entry left.now }
{
    if left.len() < 2 {
        return None;
    }
    let length = usize::from(left[1]);
    if length < 2 || left.len() < length {
        return None;
    }
    Some(&left[..length])
}

/// The entry at an offset of a table, which is not past its end.
fn entry_at(whole: &[u8], offset: usize) -> Option<&[u8]>
    requires { offset ≤ length whole.now }
    ensures { MatchOption result (IsLast offset whole.now)
        (λ entry. IsNext offset whole.now entry.now) }
{
    first_entry(&whole[offset..])
}

/// The entries of a table from an offset on.
pub(crate) fn entries_from<'a>(table: Table<'a>, first: usize) -> Entries<'a>
    requires { first ≤ length table }
    ensures { result ≡ entries_from_place first table.entry }
{
    Entries {
        whole: table.bytes(),
        offset: first,
    }
}

impl<'a> Entries<'a> {
    /// The offset of a MADT's first entry: after its header, the local APICs' address and Flags (ACPI 6.5, 5.2.12).
    pub const MADT_START: usize = 44;

    /// The offset of an SRAT's first entry: after its header and 12 reserved bytes (5.2.16).
    pub const SRAT_START: usize = 48;

    /// The offset of a PPTT's first entry: after its header (5.2.30).
    pub const PPTT_START: usize = 36;

    /// The entries of a MADT, from offset 44 on. Refuses a MADT of fewer than 44 bytes with `MadtShort`.
    pub fn madt(table: Table<'a>) -> Result<Entries<'a>, Code>
        ensures ok { IsOk result ↔ (44 ≤ length table.entry) }
        ensures entries { IfOk result (λ entries. entries ≡ entries_from_place 44 table.entry) }
        ensures fault { IfErr result (λ code. code ≡ Code.MadtShort) }
    {
        if table.bytes().len() < Entries::MADT_START {
            return Err(Code::MadtShort);
        }
        Ok(entries_from(table, Entries::MADT_START))
    }

    /// The entries of an SRAT, from offset 48 on. Refuses an SRAT of fewer than 48 bytes with `SratShort`.
    pub fn srat(table: Table<'a>) -> Result<Entries<'a>, Code>
        ensures ok { IsOk result ↔ (48 ≤ length table.entry) }
        ensures entries { IfOk result (λ entries. entries ≡ entries_from_place 48 table.entry) }
        ensures fault { IfErr result (λ code. code ≡ Code.SratShort) }
    {
        if table.bytes().len() < Entries::SRAT_START {
            return Err(Code::SratShort);
        }
        Ok(entries_from(table, Entries::SRAT_START))
    }

    /// The entries of a PPTT, from offset 36 on.
    pub fn pptt(table: Table<'a>) -> Entries<'a>
        ensures { result ≡ entries_from_place 36 table.entry }
    {
        entries_from(table, Entries::PPTT_START)
    }

    /// The cut: once no entry is left, the offset of the remaining bytes, if there are any. No entry can begin there.
    pub fn cut(&self) -> Option<u64>
        ensures { result ≡ cut_behind self.now.entries self.now.cut }
    {
        if entry_at(self.whole, self.offset).is_some() || self.offset == self.whole.len() {
            return None;
        }
        Some(self.offset as u64)
    }
}

impl<'a> Iterator for Entries<'a> {
    type Item = Entry<'a>;

    ghost next_gives = { λ before entry after. YieldsFirstBy entry_value (λ left. left.entries)
        before entry
        after × (after.cut ≡ before.cut) };

    ghost remaining = { item_count (λ left. left.entries) };

    #[inline(always)]
    fn next(&mut self) -> Option<Entry<'a>> {
        let bytes = entry_at(self.whole, self.offset)?;
        let offset = self.offset as u64;
        self.offset += bytes.len();
        Some(Entry { offset, bytes })
    }
}
