//! The first slot of the root table that lists a table of each kind (ACPI 6.5, 5.2.6 to 5.2.8).

ghost use Rattle.std.specs.Prelude.{◌≡◌, ℕ};
ghost use Rattle.acpi_base.specs.Memory.{Memory};
ghost use Rattle.acpi_base.specs.Root.{IsSlot};
ghost use Rattle.acpi_lint.specs.Slots.{AreSlots, AreFirstSlots, first_of, first_of_further};

use crate::further_table::FurtherTable;
use crate::listed_slots::{Slot, first_slot};
use crate::table_at::Sought;
use acpi_base::TableKind;

/// The first slot with a header of each kind.
#[derive(Clone, Copy)]
pub struct FirstSlots {
    /// Of a FADT.
    pub fadt: Option<Slot>,
    /// Of a MADT.
    pub madt: Option<Slot>,
    /// Of an SRAT.
    pub srat: Option<Slot>,
    /// Of a SLIT.
    pub slit: Option<Slot>,
    /// Of a PPTT.
    pub pptt: Option<Slot>,
    /// Of an MCFG.
    pub mcfg: Option<Slot>,
    /// Of an HPET.
    pub hpet: Option<Slot>,
    /// Of an HMAT.
    pub hmat: Option<Slot>,
    /// Of a GTDT.
    pub gtdt: Option<Slot>,
    /// Of a DMAR.
    pub dmar: Option<Slot>,
    /// Of an IVRS.
    pub ivrs: Option<Slot>,
    /// Of an SPCR.
    pub spcr: Option<Slot>,
}

impl FirstSlots {
    /// The first of a set's slots.
    pub fn of(slots: &[Slot]) -> FirstSlots
        ensures { (m : Memory) (p : ℕ) → AreSlots m (IsSlot m p) slots.now
            → AreFirstSlots m p result }
    {
        FirstSlots {
            fadt: first_slot(slots, Sought::Kind(TableKind::Fadt)),
            madt: first_slot(slots, Sought::Kind(TableKind::Madt)),
            srat: first_slot(slots, Sought::Kind(TableKind::Srat)),
            slit: first_slot(slots, Sought::Kind(TableKind::Slit)),
            pptt: first_slot(slots, Sought::Kind(TableKind::Pptt)),
            mcfg: first_slot(slots, Sought::Further(FurtherTable::Mcfg)),
            hpet: first_slot(slots, Sought::Further(FurtherTable::Hpet)),
            hmat: first_slot(slots, Sought::Further(FurtherTable::Hmat)),
            gtdt: first_slot(slots, Sought::Further(FurtherTable::Gtdt)),
            dmar: first_slot(slots, Sought::Further(FurtherTable::Dmar)),
            ivrs: first_slot(slots, Sought::Further(FurtherTable::Ivrs)),
            spcr: first_slot(slots, Sought::Further(FurtherTable::Spcr)),
        }
    }

    /// The first slot with a header of this kind.
    pub fn of_kind(&self, kind: TableKind) -> Option<Slot>
        ensures { result ≡ first_of self.now kind }
    {
        match kind {
            TableKind::Fadt => self.fadt,
            TableKind::Madt => self.madt,
            TableKind::Srat => self.srat,
            TableKind::Slit => self.slit,
            TableKind::Pptt => self.pptt,
        }
    }

    /// The first slot with a header of this further table.
    pub fn of_further(&self, table: FurtherTable) -> Option<Slot>
        ensures { result ≡ first_of_further self.now table }
    {
        match table {
            FurtherTable::Mcfg => self.mcfg,
            FurtherTable::Hpet => self.hpet,
            FurtherTable::Hmat => self.hmat,
            FurtherTable::Gtdt => self.gtdt,
            FurtherTable::Dmar => self.dmar,
            FurtherTable::Ivrs => self.ivrs,
            FurtherTable::Spcr => self.spcr,
        }
    }
}
