//! Entries of the MADT, read by their contents, and their faults.

mod kinds;

ghost use Rattle.std.specs.Prelude.{◌+◌, ◌<◌, ◌^◌, ◌↔◌, IsTrue};
ghost use Rattle.acpi_base.specs.Entries.{IsTypeOf};
ghost use Rattle.acpi_base.specs.Madt.{madt_kinds, IsReservedInti, HasReservedInti};
ghost use Rattle.acpi_base.specs.Policy.{inputs_of};
ghost use Rattle.acpi_read.specs.Madts.{madt_value};

use crate::entries::Entries;
use crate::entry_codes::EntryCodes;
use crate::kind::{FixedKind, typed};
use crate::table::Table;
use crate::typed_entries::TableEntry;
use acpi_base::{Code, Policy};
pub use kinds::{
    AddressOverride, IoApic, LocalApic, LocalNmi, NmiSource, Override, X2apic, X2apicNmi,
};

/// The offset of Local Interrupt Controller Address in a MADT (ACPI 6.5, 5.2.12).
pub const MADT_LOCAL_APIC_ADDRESS: usize = 36;

/// The offset of Flags in a MADT.
pub const MADT_FLAGS: usize = 40;

/// The type of a GIC CPU interface (ACPI 6.5, 5.2.12.14). Only `lint` reads its fields.
pub const GICC: u8 = 11;

/// The length of a GIC CPU interface in ACPI 5.0. Later ones are longer.
pub const GICC_LEN: usize = 40;

/// The contents of an entry of a MADT (ACPI 6.5, 5.2.12).
#[derive(Clone, Copy, Debug, PartialEq, Eq)]
pub enum MadtEntry<'a> {
    /// A local APIC.
    LocalApic(LocalApic),
    /// An I/O APIC.
    IoApic(IoApic),
    /// An interrupt source override.
    Override(Override),
    /// An NMI source.
    NmiSource(NmiSource),
    /// A local APIC NMI.
    LocalNmi(LocalNmi),
    /// A local APIC address override.
    AddressOverride(AddressOverride),
    /// A local x2APIC.
    X2apic(X2apic),
    /// A local x2APIC NMI.
    X2apicNmi(X2apicNmi),
    /// Any other type: all its bytes.
    Opaque(&'a [u8]),
}

impl<'a> MadtEntry<'a> {
    ghost use Rattle.std.specs.Prelude.{◌≡◌, slice_index, IfOk, IfErr};
    ghost use Rattle.acpi_base.specs.Entries.{IsEntry, IsTypeOf};
    ghost use Rattle.acpi_base.specs.Madt.{madt_kinds, madt_entry, Opaque};
    ghost use Rattle.acpi_base.specs.declared.code.Code.{Code};
    ghost use Rattle.acpi_read.specs.Madts.{madt_value, IsOfOwnLength, IsCompleteEntry};

    /// The contents of an entry with these bytes: at least two, the second of which is their count, as those of an
    /// `Entry` are. Refuses with `MadtEntryLength` those of a type above that have another length. Neither the bus of
    /// an override nor any flags are checked.
    #[tactic(auto, unfolding(acpi_base::specs::Madt::madt_entry, acpi_base::specs::Entries::has_form))]
    #[inline(always)]
    pub fn read(bytes: &'a [u8]) -> Result<MadtEntry<'a>, Code>
        requires { IsEntry bytes.now }
        ensures ok { IfOk result (λ entry. madt_value entry ≡ madt_entry bytes.now) }
        ensures whole { IfOk result IsCompleteEntry }
        ensures length { IfOk result (λ entry. IsOfOwnLength (madt_value entry)) }
        ensures err { IfErr result
            (λ code. (code ≡ Code.MadtEntryLength) × (madt_entry bytes.now ≡ Opaque bytes.now)
            × IsTypeOf madt_kinds (slice_index bytes.now 0)) }
    {
        let code = Code::MadtEntryLength;
        match bytes[0] {
            LocalApic::TYPE => Ok(MadtEntry::LocalApic(typed(bytes, code)?)),
            IoApic::TYPE => Ok(MadtEntry::IoApic(typed(bytes, code)?)),
            Override::TYPE => Ok(MadtEntry::Override(typed(bytes, code)?)),
            NmiSource::TYPE => Ok(MadtEntry::NmiSource(typed(bytes, code)?)),
            LocalNmi::TYPE => Ok(MadtEntry::LocalNmi(typed(bytes, code)?)),
            AddressOverride::TYPE => Ok(MadtEntry::AddressOverride(typed(bytes, code)?)),
            X2apic::TYPE => Ok(MadtEntry::X2apic(typed(bytes, code)?)),
            X2apicNmi::TYPE => Ok(MadtEntry::X2apicNmi(typed(bytes, code)?)),
            _ => Ok(MadtEntry::Opaque(bytes)),
        }
    }
}

/// Whether a type is one of the eight whose entries are read.
#[inline(always)]
fn is_typed(number: u8) -> bool
    ensures { IsTrue result ↔ IsTypeOf madt_kinds number }
{
    matches!(number, 0..=5 | 9 | 10)
}

/// Whether flags have a reserved polarity, in bits 1:0, or a reserved trigger mode, in bits 3:2.
#[inline(always)]
fn is_reserved_inti(flags: u16) -> bool
    ensures { IsTrue result ↔ IsReservedInti flags }
{
    flags & 0b11 == 0b10 || flags >> 2 & 0b11 == 0b10
}

/// Whether an entry has a reserved polarity or trigger mode.
#[inline(always)]
fn has_reserved_inti(entry: &MadtEntry<'_>) -> bool
    ensures { IsTrue result ↔ HasReservedInti (madt_value entry.now) }
{
    match entry {
        MadtEntry::Override(source) => is_reserved_inti(source.flags),
        MadtEntry::NmiSource(nmi) => is_reserved_inti(nmi.flags),
        MadtEntry::LocalNmi(nmi) => is_reserved_inti(nmi.flags),
        MadtEntry::X2apicNmi(nmi) => is_reserved_inti(nmi.flags),
        _ => false,
    }
}

/// Whether the interrupt numbers of an I/O APIC end past 2^32.
#[inline(always)]
fn has_gsi_past_end(policy: &Policy, io_apic: &IoApic) -> bool
    ensures { IsTrue result
        ↔ (2 ^ 32 < io_apic.now.gsi_base + inputs_of policy.now io_apic.now.address) }
{
    policy.is_past_end(io_apic.gsi_base, io_apic.address)
}

impl<'a> TableEntry<'a> for MadtEntry<'a> {
    ghost use Rattle.std.specs.Prelude.{◌≡◌, ℕ, List};
    ghost use Rattle.acpi_base.specs.Entries.{entries_of, entries_read_by};
    ghost use Rattle.acpi_base.specs.Madt as said;
    ghost use Rattle.acpi_base.specs.Madt.{madt_entry, madt_contents, IsAddressOverride, IsValidMadt, MadtEntryFault, MadtFault};
    ghost use Rattle.acpi_base.specs.declared.stage.Stage.{Stage};
    ghost use Rattle.acpi_read.specs.EntryFaults.{madt_codes, madt_own_code};
    ghost use Rattle.acpi_read.specs.Madts.{madt_value, IsCompleteEntry};

    ghost Said = { said.MadtEntry };

    ghost value = { madt_value };

    ghost said_by = { madt_entry };

    ghost IsRead = { IsCompleteEntry };

    ghost first = { 44 };

    ghost contents = { λ whole. (madt_contents whole).entries };

    ghost codes = { madt_codes };

    ghost IsOwn = { MadtEntryFault };

    ghost own_code = { madt_own_code };

    ghost IsSingle = { IsAddressOverride };

    ghost stage = { Stage.Madt };

    ghost IsFault = { λ q whole. MadtFault q (madt_contents whole) };

    ghost IsValid = { λ q whole. IsValidMadt q (madt_contents whole) };

    #[inline(always)]
    fn of(bytes: &'a [u8]) -> MadtEntry<'a> {
        MadtEntry::read(bytes).unwrap_or(MadtEntry::Opaque(bytes))
    }

    #[tactic(auto, unfolding(acpi_base::specs::Madt::madt_contents))]
    #[inline(always)]
    fn first() -> usize
        ensures value { result ≡ 44 }
        ensures contents { (whole : List ℕ)
            → (madt_contents whole).entries ≡ entries_read_by madt_entry (entries_of 44 whole) }
    {
        Entries::MADT_START
    }

    fn codes() -> EntryCodes
        ensures { result ≡ madt_codes }
    {
        EntryCodes {
            short: Some(Code::MadtShort),
            cut: Code::MadtEntryCut,
            second: Some(Code::SecondAddressOverride),
        }
    }

    #[tactic(auto, using(crate::proofs::MadtFaults::madt_faults))]
    fn raw_entries(table: Table<'a>) -> Result<Entries<'a>, Code> {
        Entries::madt(table)
    }

    #[inline(always)]
    fn has_fault(&self, policy: &Policy, code: Code) -> bool {
        match (code, self) {
            (Code::MadtEntryLength, MadtEntry::Opaque(bytes)) => is_typed(bytes[0]),
            (Code::OverrideBus, MadtEntry::Override(source)) => source.bus != 0,
            (Code::ReservedInti, entry) => has_reserved_inti(entry),
            (Code::GsiPastEnd, MadtEntry::IoApic(io_apic)) => has_gsi_past_end(policy, io_apic),
            _ => false,
        }
    }

    #[tactic(auto, using(crate::proofs::MadtFaults::madt_lowest))]
    #[inline(always)]
    fn own_code(&self) -> Code {
        match self {
            MadtEntry::Opaque(_) => Code::MadtEntryLength,
            MadtEntry::Override(source) if source.bus != 0 => Code::OverrideBus,
            MadtEntry::IoApic(_) => Code::GsiPastEnd,
            _ => Code::ReservedInti,
        }
    }

    #[inline(always)]
    fn single_code(&self) -> Option<Code> {
        matches!(self, MadtEntry::AddressOverride(_)).then_some(Code::SecondAddressOverride)
    }
}
