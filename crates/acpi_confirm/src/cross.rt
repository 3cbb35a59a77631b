//! Codes 57 to 59: rules across tables.

ghost use Rattle.std.specs.Prelude.{◌≡◌, ◌≢◌, ◌≤◌, ◌<◌, ◌↔◌, ℕ, IsTrue};
ghost use Rattle.acpi_base.specs.Across.{DomainFault, ServedFault, LeafFault, IsEnabled, HasIoApic, IsServed, IsLeaf, IsUid, PutsAt};
ghost use Rattle.acpi_base.specs.Entries.{IsEntry, StandsWith};
ghost use Rattle.acpi_base.specs.Madt.{NamesGsi, IsWhollyTyped, madt_contents};
ghost use Rattle.acpi_base.specs.Policy.{counts_as_enabled};
ghost use Rattle.acpi_base.specs.Pptt.{pptt_entry, pptt_contents};
ghost use Rattle.acpi_base.specs.Srat.{PutsIn, srat_contents};
ghost use Rattle.acpi_confirm.specs.Madts.{IsOpaque};
ghost use Rattle.acpi_confirm.specs.Walks.{IsOnly};

use crate::entries::{cut, entry_at, has_bit, has_entry};
use crate::madt::{self, MadtEntry, serves};
use crate::pptt::{self, is_node};
use crate::srat::{self, SratEntry, is_enabled};
use acpi_base::field::{u8_at, u32_at};
use acpi_base::{Code, Policy, Processors, Witness};

// ---- Code 57: domains

/// Whether a processor with these flags in the MADT counts as enabled.
#[tactic(auto, unfolding(acpi_base::specs::Policy::counts_as_enabled))]
fn counts_as_enabled(processors: Processors, flags: u32) -> bool
    ensures { result ≡ counts_as_enabled processors flags }
{
    match processors {
        Processors::Enabled => has_bit(flags, 0),
        Processors::Usable => has_bit(flags, 0) || has_bit(flags, 1),
    }
}

/// Whether the MADT has a processor with this number that counts as enabled.
fn has_enabled(processors: Processors, madt: &[u8], number: u64) -> bool
    ensures { IsTrue result ↔ IsEnabled processors (madt_contents madt.now) number }
{
    has_entry(madt, madt::FIRST_ENTRY, |entry| match madt::read(entry) {
        MadtEntry::LocalApic { apic_id, flags, .. } => {
            u64::from(apic_id) == number && counts_as_enabled(processors, flags)
        }
        MadtEntry::X2apic {
            x2apic_id,
            flags,
            ..
        } => u64::from(x2apic_id) == number && counts_as_enabled(processors, flags),
        _ => false,
    })
}

/// The domain into which the entry at an offset puts the processor with this number.
fn domain_at(srat: &[u8], at: u64, number: u64) -> Option<u64>
    ensures { IsOnly (λ domain. StandsWith (srat_contents srat.now).entries at
        (PutsIn number domain)) result }
{
    entry_at(srat, srat::FIRST_ENTRY, at).and_then(|entry| match srat::read(entry) {
        SratEntry::ApicDomain {
            domain,
            apic_id,
            flags,
            ..
        } if u64::from(apic_id) == number && is_enabled(flags) => Some(domain),
        SratEntry::X2apicDomain {
            domain,
            x2apic_id,
            flags,
            ..
        } if u64::from(x2apic_id) == number && is_enabled(flags) => Some(u64::from(domain)),
        _ => None,
    })
}

/// Whether two entries of the SRAT, the second of which comes earlier, put the processor with this number into two
/// domains.
fn do_domains_differ(srat: &[u8], at: u64, earlier: u64, number: u64) -> bool
    ensures { IsTrue result ↔ ((d f : ℕ) × PutsAt (srat_contents srat.now) at number d
        × PutsAt (srat_contents srat.now) earlier number f × (earlier < at) × (d ≢ f)) }
{
    earlier < at
        && domain_at(srat, at, number)
            .zip(domain_at(srat, earlier, number))
            .is_some_and(|(one, other)| one != other)
}

/// Code 57: whether the MADT and the SRAT have this fault.
pub(crate) fn is_domain_fault(madt: &[u8], srat: &[u8], policy: &Policy, witness: &Witness) -> bool
    ensures { IsTrue result ↔ DomainFault policy.now.processors (madt_contents madt.now)
        (srat_contents srat.now) witness.now.code witness.now.at witness.now.other
        witness.now.point }
{
    match witness.code {
        Code::TwoDomains => {
            do_domains_differ(srat, witness.at, witness.other, witness.point)
                && has_enabled(policy.processors(), madt, witness.point)
        }
        _ => false,
    }
}

// ---- Code 58: interrupt numbers

/// Whether the MADT has an I/O APIC.
fn has_io_apic(madt: &[u8]) -> bool
    ensures { IsTrue result ↔ HasIoApic (madt_contents madt.now) }
{
    has_entry(
        madt,
        madt::FIRST_ENTRY,
        |entry| matches!(madt::read(entry), MadtEntry::IoApic { .. }),
    )
}

/// Whether an I/O APIC serves the interrupt number.
fn is_served(policy: &Policy, madt: &[u8], number: u64) -> bool
    ensures { IsTrue result ↔ IsServed policy.now (madt_contents madt.now) number }
{
    has_entry(
        madt,
        madt::FIRST_ENTRY,
        |entry| serves(policy, entry, number),
    )
}

/// Whether the entry at an offset names the interrupt number.
fn names_gsi_at(madt: &[u8], at: u64, number: u64) -> bool
    ensures { IsTrue result ↔ StandsWith (madt_contents madt.now).entries at (NamesGsi number) }
{
    entry_at(madt, madt::FIRST_ENTRY, at).is_some_and(|entry| match madt::read(entry) {
        MadtEntry::Override { gsi, .. } | MadtEntry::NmiSource { gsi, .. } => {
            u64::from(gsi) == number
        }
        _ => false,
    })
}

/// Code 58: whether the MADT has this fault.
pub(crate) fn is_served_fault(madt: &[u8], policy: &Policy, witness: &Witness) -> bool
    ensures { IsTrue result ↔ ServedFault policy.now (madt_contents madt.now) witness.now.code
        witness.now.at witness.now.other witness.now.point }
{
    matches!(witness.code, Code::GsiNowhere)
        && witness.other == 0
        && names_gsi_at(madt, witness.at, witness.point)
        && has_io_apic(madt)
        && !is_served(policy, madt, witness.point)
}

// ---- Code 59: leaves

/// Whether the MADT has an entry that is not of a known type.
fn has_opaque(madt: &[u8]) -> bool
    ensures { IsTrue result ↔ ((o : ℕ) × StandsWith (madt_contents madt.now).entries o IsOpaque) }
{
    has_entry(
        madt,
        madt::FIRST_ENTRY,
        |entry| matches!(madt::read(entry), MadtEntry::Opaque(_)),
    )
}

/// Whether the MADT has at least 44 bytes, and the rest of it is filled by entries of known types.
#[tactic(auto, using(crate::proofs::MadtFaults::madt_codes))]
fn are_types_known(madt: &[u8]) -> bool
    ensures { IsTrue result ↔ IsWhollyTyped (madt_contents madt.now) }
{
    if madt.len() < 44 {
        return false;
    }
    match cut(madt, madt::FIRST_ENTRY) {
        Some(_) => false,
        None => !has_opaque(madt),
    }
}

/// Whether a processor of the MADT has this UID.
fn is_uid(madt: &[u8], uid: u64) -> bool
    ensures { IsTrue result ↔ IsUid (madt_contents madt.now) uid }
{
    has_entry(madt, madt::FIRST_ENTRY, |entry| match madt::read(entry) {
        MadtEntry::LocalApic { uid: own, .. } => u64::from(own) == uid,
        MadtEntry::X2apic { uid: own, .. } => u64::from(own) == uid,
        _ => false,
    })
}

/// Whether an entry of the PPTT is a leaf node with this ID, which is valid by its flags.
#[tactic(auto, unfolding(acpi_base::specs::Pptt::pptt_entry))]
fn is_leaf(entry: &[u8], id: u64) -> bool
    requires { IsEntry entry.now }
    ensures { IsTrue result ↔ IsLeaf id (pptt_entry entry.now) }
{
    if !is_node(entry) {
        return false;
    }
    let flags = u32_at(entry, 4);
    has_bit(flags, 1) && has_bit(flags, 3) && u64::from(u32_at(entry, 12)) == id
}

/// Whether the entry at an offset is a leaf with this ID.
fn is_leaf_at(pptt: &[u8], at: u64, id: u64) -> bool
    ensures { IsTrue result ↔ StandsWith (pptt_contents pptt.now).entries at (IsLeaf id) }
{
    entry_at(pptt, pptt::FIRST_ENTRY, at).is_some_and(|entry| is_leaf(entry, id))
}

/// Whether the PPTT's Revision is at least 2.
#[tactic(auto, using(crate::proofs::Across::revision))]
fn has_revision_2(pptt: &[u8]) -> bool
    ensures { IsTrue result ↔ (2 ≤ (pptt_contents pptt.now).revision) }
{
    pptt.len() > 8 && u8_at(pptt, 8) >= 2
}

/// Code 59: whether the MADT and the PPTT have this fault.
pub(crate) fn is_leaf_fault(madt: &[u8], pptt: &[u8], witness: &Witness) -> bool
    ensures { IsTrue result ↔ LeafFault (madt_contents madt.now) (pptt_contents pptt.now)
        witness.now.code witness.now.at witness.now.other witness.now.point }
{
    matches!(witness.code, Code::LeafUnknown)
        && witness.other == 0
        && has_revision_2(pptt)
        && is_leaf_at(pptt, witness.at, witness.point)
        && are_types_known(madt)
        && !is_uid(madt, witness.point)
}
