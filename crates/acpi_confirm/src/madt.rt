//! Codes 32 to 40: the MADT.

ghost use Rattle.std.specs.Prelude.{◌≡◌, ◌≤◌, ◌↔◌, length, IsTrue};
ghost use Rattle.acpi_base.specs.Codes.{stage_of};
ghost use Rattle.acpi_base.specs.Entries.{IsEntry, StandsWith, IsTypeOf, AreUnused};
ghost use Rattle.acpi_base.specs.Madt.{MadtFault, MadtEntryFault, InterruptFault, OverrideFault, IsReservedInti, IsAddressOverride, Overrides, madt_kinds, madt_entry, madt_contents};
ghost use Rattle.acpi_base.specs.declared.code.Code.{Code};
ghost use Rattle.acpi_confirm.specs.Conditions.{MadtCondition};
ghost use Rattle.acpi_confirm.specs.Madts.{HasType, ServesGsi, madt_value};
ghost use Rattle.acpi_confirm.specs.Walks.{IsOnly};

use crate::cross::is_served_fault;
use crate::entries::{cut, entry_at};
use acpi_base::field::{u8_at, u16_at, u32_at, u64_at};
use acpi_base::{Code, Policy, Stage, Witness};

/// The offset of the first entry.
pub(crate) const FIRST_ENTRY: usize = 44;

/// The contents of an entry: if it is of a known type its fields, otherwise its bytes.
#[derive(Clone, Copy)]
pub(crate) enum MadtEntry<'a> {
    /// Type 0, 8 bytes.
    LocalApic {
        uid: u8,
        apic_id: u8,
        flags: u32,
    },
    /// Type 1, 12 bytes.
    IoApic {
        id: u8,
        address: u32,
        gsi_base: u32,
    },
    /// Type 2, 10 bytes.
    Override {
        bus: u8,
        source: u8,
        gsi: u32,
        flags: u16,
    },
    /// Type 3, 8 bytes.
    NmiSource {
        flags: u16,
        gsi: u32,
    },
    /// Type 4, 6 bytes.
    LocalNmi {
        uid: u8,
        flags: u16,
        lint: u8,
    },
    /// Type 5, 12 bytes.
    AddressOverride {
        address: u64,
    },
    /// Type 9, 16 bytes.
    X2apic {
        x2apic_id: u32,
        flags: u32,
        uid: u32,
    },
    /// Type 0x0A, 12 bytes.
    X2apicNmi {
        flags: u16,
        uid: u32,
        lint: u8,
    },
    /// Any other type or length.
    Opaque(&'a [u8]),
}

/// The contents of an entry with these bytes.
#[tactic(auto, unfolding(acpi_base::specs::Madt::madt_entry, acpi_base::specs::Entries::has_form))]
pub(crate) fn read(entry: &[u8]) -> MadtEntry<'_>
    requires { 2 ≤ length entry.now }
    ensures says { madt_value result ≡ madt_entry entry.now }
    ensures typed { HasType (madt_value result) }
{
    match (entry[0], entry.len()) {
        (0, 8) => MadtEntry::LocalApic {
            uid: u8_at(entry, 2),
            apic_id: u8_at(entry, 3),
            flags: u32_at(entry, 4),
        },
        (1, 12) => MadtEntry::IoApic {
            id: u8_at(entry, 2),
            address: u32_at(entry, 4),
            gsi_base: u32_at(entry, 8),
        },
        (2, 10) => MadtEntry::Override {
            bus: u8_at(entry, 2),
            source: u8_at(entry, 3),
            gsi: u32_at(entry, 4),
            flags: u16_at(entry, 8),
        },
        (3, 8) => MadtEntry::NmiSource {
            flags: u16_at(entry, 2),
            gsi: u32_at(entry, 4),
        },
        (4, 6) => MadtEntry::LocalNmi {
            uid: u8_at(entry, 2),
            flags: u16_at(entry, 3),
            lint: u8_at(entry, 5),
        },
        (5, 12) => MadtEntry::AddressOverride {
            address: u64_at(entry, 4),
        },
        (9, 16) => MadtEntry::X2apic {
            x2apic_id: u32_at(entry, 4),
            flags: u32_at(entry, 8),
            uid: u32_at(entry, 12),
        },
        (10, 12) => MadtEntry::X2apicNmi {
            flags: u16_at(entry, 2),
            uid: u32_at(entry, 4),
            lint: u8_at(entry, 8),
        },
        _ => MadtEntry::Opaque(entry),
    }
}

/// Whether flags have a reserved polarity, in bits 1:0, or a reserved trigger mode, in bits 3:2.
fn is_reserved_inti(flags: u16) -> bool
    ensures { IsTrue result ↔ IsReservedInti flags }
{
    flags % 4 == 2 || flags / 4 % 4 == 2
}

/// Whether one of the entry types has this number.
fn is_madt_type(number: u8) -> bool
    ensures { IsTrue result ↔ IsTypeOf madt_kinds number }
{
    matches!(number, 0..=5 | 9 | 10)
}

/// Codes 34 to 36 and 38: whether the entry at an offset has this fault by itself.
fn has_own_fault_at(policy: &Policy, madt: &[u8], at: u64, code: Code) -> bool
    ensures { IsTrue result ↔ StandsWith (madt_contents madt.now).entries at
        (MadtEntryFault policy.now code) }
{
    entry_at(madt, FIRST_ENTRY, at).is_some_and(|entry| match (code, read(entry)) {
        (Code::MadtEntryLength, MadtEntry::Opaque(bytes)) => is_madt_type(bytes[0]),
        (Code::OverrideBus, MadtEntry::Override { bus, .. }) => bus != 0,
        (
            Code::ReservedInti,
            MadtEntry::Override { flags, .. }
            | MadtEntry::NmiSource { flags, .. }
            | MadtEntry::LocalNmi { flags, .. }
            | MadtEntry::X2apicNmi { flags, .. },
        ) => is_reserved_inti(flags),
        (
            Code::GsiPastEnd,
            MadtEntry::IoApic {
                address,
                gsi_base,
                ..
            },
        ) => u64::from(gsi_base) + u64::from(policy.inputs_of(address)) > 1 << 32,
        _ => false,
    })
}

/// Whether the entry at an offset is an address override.
fn is_address_override_at(madt: &[u8], at: u64) -> bool
    ensures { IsTrue result ↔ StandsWith (madt_contents madt.now).entries at IsAddressOverride }
{
    entry_at(madt, FIRST_ENTRY, at).is_some_and(|entry| matches!(
        read(entry),
        MadtEntry::AddressOverride { .. }
    ))
}

/// Whether the two numbers that most faults do not use are 0.
fn is_unused(witness: &Witness) -> bool
    ensures { IsTrue result ↔ AreUnused witness.now.other witness.now.point }
{
    witness.other == 0 && witness.point == 0
}

/// Codes 32 to 38: the table, each entry by itself, and a second address override.
#[tactic(auto, using(crate::proofs::MadtFaults::madt_codes))]
fn has_entry_fault(madt: &[u8], policy: &Policy, witness: &Witness) -> bool
    ensures { IsTrue result ↔ MadtFault policy.now (madt_contents madt.now) witness.now.code
        witness.now.at witness.now.other witness.now.point }
{
    match witness.code {
        Code::MadtShort => madt.len() < 44 && witness.at == 0 && is_unused(witness),
        Code::MadtEntryCut => cut(madt, FIRST_ENTRY) == Some(witness.at) && is_unused(witness),
        Code::SecondAddressOverride => {
            is_address_override_at(madt, witness.at)
                && is_address_override_at(madt, witness.other)
                && witness.other < witness.at
                && witness.point == 0
        }
        code => has_own_fault_at(policy, madt, witness.at, code) && is_unused(witness),
    }
}

/// Whether an entry is an I/O APIC that serves the interrupt number.
pub(crate) fn serves(policy: &Policy, entry: &[u8], number: u64) -> bool
    requires { IsEntry entry.now }
    ensures { IsTrue result ↔ ServesGsi policy.now number (madt_entry entry.now) }
{
    match read(entry) {
        MadtEntry::IoApic {
            address,
            gsi_base,
            ..
        } => {
            let base = u64::from(gsi_base);
            base <= number && number < base + u64::from(policy.inputs_of(address))
        }
        _ => false,
    }
}

/// Whether the entry at an offset is an I/O APIC that serves the interrupt number.
fn serves_at(policy: &Policy, madt: &[u8], at: u64, number: u64) -> bool
    ensures { IsTrue result ↔ StandsWith (madt_contents madt.now).entries at
        (ServesGsi policy.now number) }
{
    entry_at(madt, FIRST_ENTRY, at).is_some_and(|entry| serves(policy, entry, number))
}

/// Code 39: whether two I/O APICs serve one interrupt number.
#[tactic(auto, using(crate::proofs::MadtFaults::gsi_clash))]
fn has_interrupt_fault(madt: &[u8], policy: &Policy, witness: &Witness) -> bool
    ensures { IsTrue result ↔ InterruptFault policy.now (madt_contents madt.now) witness.now.code
        witness.now.at witness.now.other witness.now.point }
{
    matches!(witness.code, Code::GsiClash)
        && witness.at != witness.other
        && serves_at(policy, madt, witness.at, witness.point)
        && serves_at(policy, madt, witness.other, witness.point)
}

/// The interrupt number that the entry at an offset gives the source, if it is an override of it.
fn overriding_at(madt: &[u8], at: u64, source: u64) -> Option<u32>
    ensures { IsOnly (λ gsi. StandsWith (madt_contents madt.now).entries at (Overrides source gsi))
        result }
{
    entry_at(madt, FIRST_ENTRY, at).and_then(|entry| match read(entry) {
        MadtEntry::Override {
            source: own,
            gsi,
            ..
        } if u64::from(own) == source => Some(gsi),
        _ => None,
    })
}

/// Whether two overrides, the second of which comes earlier, give one source two interrupt numbers.
fn do_overrides_differ(madt: &[u8], at: u64, earlier: u64, source: u64) -> bool
    ensures { IsTrue result ↔ OverrideFault (madt_contents madt.now) Code.OverrideClash at earlier
        source }
{
    earlier < at
        && overriding_at(madt, at, source)
            .zip(overriding_at(madt, earlier, source))
            .is_some_and(|(one, other)| one != other)
}

/// Code 40: two overrides.
fn has_override_fault(madt: &[u8], witness: &Witness) -> bool
    ensures { IsTrue result ↔ OverrideFault (madt_contents madt.now) witness.now.code witness.now.at
        witness.now.other witness.now.point }
{
    matches!(witness.code, Code::OverrideClash)
        && do_overrides_differ(madt, witness.at, witness.other, witness.point)
}

/// Whether the MADT has this fault of stages 6 to 8 or 17.
pub(crate) fn is_madt_fault(madt: &[u8], policy: &Policy, witness: &Witness) -> bool
    ensures { IsTrue result ↔ MadtCondition (stage_of witness.now.code) policy.now
        (madt_contents madt.now) witness.now }
{
    match witness.code.stage() {
        Stage::Madt => has_entry_fault(madt, policy, witness),
        Stage::Interrupts => has_interrupt_fault(madt, policy, witness),
        Stage::Overrides => has_override_fault(madt, witness),
        Stage::Served => is_served_fault(madt, policy, witness),
        _ => false,
    }
}
