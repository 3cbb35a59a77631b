//! The tables of a set that the finders read.

ghost use Rattle.std.specs.Prelude.{◌≡◌, ℕ, IfOk, option_map, OnErr};
ghost use Rattle.acpi_base.specs.Entries.{entries_read_by};
ghost use Rattle.acpi_base.specs.Pptt.{pptt_contents, pptt_entry};
ghost use Rattle.acpi_base.specs.Srat.{srat_contents, srat_entry};
ghost use Rattle.acpi_base.specs.TableKinds.{signature_of};
ghost use Rattle.acpi_lint.specs.Slots.{AreFirstSlots};
ghost use Rattle.acpi_lint.specs.CompleteTables.{HasRoot, IsFound, IsLong, AreEntries, further_of, table_of, AreCompleteTables};
ghost use Rattle.acpi_lint.specs.FurtherTables.{further_signature};
ghost use Rattle.acpi_lint.specs.TableLengths.{least_length};

use crate::first_slots::FirstSlots;
use crate::further_table::FurtherTable;
use crate::listed_slots::{Slot, listed_slots};
use acpi_base::{LentImage, TableKind};
use acpi_read::{Fadt, PpttEntry, Root, SratEntry, Table, TypedEntries};
use std::alloc::{AllocError, Global};

/// The root table of a set and the first listed table of each kind, if they are complete, whatever their checksums.
/// They are looked up once.
#[derive(Drop)]
pub struct CompleteTables<'a> {
    /// The root table.
    pub root: Option<Root<'a>>,
    /// Its slots that list an address, in their order.
    pub slots: Vec<Slot>,
    /// The first of these slots of each kind.
    pub firsts: FirstSlots,
    /// The FADT.
    pub fadt: Option<Table<'a>>,
    /// The MADT.
    pub madt: Option<Table<'a>>,
    /// The SRAT.
    pub srat: Option<Table<'a>>,
    /// The SLIT.
    pub slit: Option<Table<'a>>,
    /// The PPTT.
    pub pptt: Option<Table<'a>>,
    /// The MCFG.
    pub mcfg: Option<Table<'a>>,
    /// The HPET.
    pub hpet: Option<Table<'a>>,
    /// The HMAT.
    pub hmat: Option<Table<'a>>,
    /// The GTDT.
    pub gtdt: Option<Table<'a>>,
    /// The DMAR.
    pub dmar: Option<Table<'a>>,
    /// The IVRS.
    pub ivrs: Option<Table<'a>>,
    /// The SPCR.
    pub spcr: Option<Table<'a>>,
}

/// The first listed table of a kind in a set with these first slots.
fn found<'a>(image: &'a LentImage<'_>, firsts: &FirstSlots, kind: TableKind) -> Option<Table<'a>>
    ensures { (p : ℕ) → AreFirstSlots image.now p firsts.now
        → IsFound image.now p (signature_of kind) result }
{
    let slot = firsts.of_kind(kind)?;
    Table::complete(image, slot.table.address)
}

/// The first listed one of a further table in a set with these first slots.
fn found_further<'a>(
    image: &'a LentImage<'_>,
    firsts: &FirstSlots,
    table: FurtherTable,
) -> Option<Table<'a>>
    ensures { (p : ℕ) → AreFirstSlots image.now p firsts.now
        → IsFound image.now p (further_signature table) result }
{
    let slot = firsts.of_further(table)?;
    Table::complete(image, slot.table.address)
}

/// How many bytes a table of a kind has at least that has all the fields which every such table has (ACPI 6.5, 5.2.9,
/// 5.2.12, 5.2.16, 5.2.17, 5.2.30).
fn least_length(kind: TableKind) -> usize
    ensures { result ≡ least_length kind }
{
    match kind {
        TableKind::Fadt => 116,
        TableKind::Madt => 44,
        TableKind::Srat => 48,
        TableKind::Slit => 44,
        TableKind::Pptt => 36,
    }
}

impl<'a> CompleteTables<'a> {
    /// The tables of the set that the RSDP at an address leads to. Allocates for each slot of its root table: refuses if
    /// out of memory, but not where there is no complete root table.
    pub fn of(
        alloc: Global,
        image: &'a LentImage<'_>,
        rsdp: u64,
    ) -> Result<CompleteTables<'a>, AllocError>
        ensures tables { IfOk result (AreCompleteTables image.now rsdp) }
        ensures memory { OnErr result (HasRoot image.now rsdp) }
    {
        let root = Root::complete(image, rsdp);
        let slots = listed_slots(alloc, image, &root)?;
        let firsts = FirstSlots::of(&slots);
        Ok(CompleteTables {
            fadt: found(image, &firsts, TableKind::Fadt),
            madt: found(image, &firsts, TableKind::Madt),
            srat: found(image, &firsts, TableKind::Srat),
            slit: found(image, &firsts, TableKind::Slit),
            pptt: found(image, &firsts, TableKind::Pptt),
            mcfg: found_further(image, &firsts, FurtherTable::Mcfg),
            hpet: found_further(image, &firsts, FurtherTable::Hpet),
            hmat: found_further(image, &firsts, FurtherTable::Hmat),
            gtdt: found_further(image, &firsts, FurtherTable::Gtdt),
            dmar: found_further(image, &firsts, FurtherTable::Dmar),
            ivrs: found_further(image, &firsts, FurtherTable::Ivrs),
            spcr: found_further(image, &firsts, FurtherTable::Spcr),
            root,
            slots,
            firsts,
        })
    }

    /// The table of a kind, if there is one.
    pub fn table(&self, kind: TableKind) -> Option<Table<'a>>
        ensures { result ≡ table_of self.now kind }
    {
        let table = match kind {
            TableKind::Fadt => &self.fadt,
            TableKind::Madt => &self.madt,
            TableKind::Srat => &self.srat,
            TableKind::Slit => &self.slit,
            TableKind::Pptt => &self.pptt,
        };
        Some(table.as_ref()?.copied())
    }

    /// A further table, if there is one. It has a header.
    pub fn further(&self, table: FurtherTable) -> Option<Table<'a>>
        ensures { IsLong 36 (further_of self.now table) result }
    {
        let table = match table {
            FurtherTable::Mcfg => &self.mcfg,
            FurtherTable::Hpet => &self.hpet,
            FurtherTable::Hmat => &self.hmat,
            FurtherTable::Gtdt => &self.gtdt,
            FurtherTable::Dmar => &self.dmar,
            FurtherTable::Ivrs => &self.ivrs,
            FurtherTable::Spcr => &self.spcr,
        };
        let table = table.as_ref()?.copied();
        if table.bytes().len() < 36 {
            return None;
        }
        Some(table)
    }

    /// The FADT, if it has the 116 bytes that are always read.
    pub fn fadt(&self) -> Option<Fadt<'a>>
        ensures { IsLong 116 self.now.fadt result }
    {
        Fadt::new(self.table(TableKind::Fadt)?).ok()
    }

    /// The table of a kind, if it has all its fields.
    pub fn long(&self, kind: TableKind) -> Option<Table<'a>>
        ensures { IsLong (least_length kind) (table_of self.now kind) result }
    {
        let table = self.table(kind)?;
        if table.bytes().len() < least_length(kind) {
            return None;
        }
        Some(table)
    }

    /// The MADT, if it has the 44 bytes of its fields.
    pub fn madt(&self) -> Option<Table<'a>>
        ensures { IsLong 44 self.now.madt result }
    {
        self.long(TableKind::Madt)
    }

    /// The SRAT, if it has the 48 bytes of its fields.
    pub fn srat(&self) -> Option<Table<'a>>
        ensures { IsLong 48 self.now.srat result }
    {
        self.long(TableKind::Srat)
    }

    /// The PPTT.
    pub fn pptt(&self) -> Option<Table<'a>>
        ensures { result ≡ self.now.pptt }
    {
        self.table(TableKind::Pptt)
    }

    /// The entries of the SRAT, if it has the 48 bytes of its fields.
    pub fn srat_entries(&self) -> Option<TypedEntries<'a, SratEntry<'a>>>
        ensures { AreEntries 48 (λ whole. (srat_contents whole).entries) self.now.srat
            (option_map (λ e. entries_read_by srat_entry e.entries.entries) result) }
    {
        Some(self.srat()?.entries::<SratEntry<'_>>())
    }

    /// The entries of the PPTT.
    pub fn pptt_entries(&self) -> Option<TypedEntries<'a, PpttEntry<'a>>>
        ensures { option_map (λ e. entries_read_by pptt_entry e.entries.entries) result
            ≡ option_map (λ whole. (pptt_contents whole).entries) self.now.pptt }
    {
        Some(self.pptt()?.entries::<PpttEntry<'_>>())
    }
}
