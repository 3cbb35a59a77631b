//! Codes 41 to 45: the SRAT.

ghost use Rattle.std.specs.Prelude.{◌≡◌, ◌≤◌, ◌+◌, ◌*◌, ◌↔◌, length, IsTrue};
ghost use Rattle.acpi_base.specs.Codes.{stage_of};
ghost use Rattle.acpi_base.specs.Entries.{StandsWith};
ghost use Rattle.acpi_base.specs.Number.{field};
ghost use Rattle.acpi_base.specs.Srat as srat;
ghost use Rattle.acpi_base.specs.Srat.{SratFault, SratEntryFault, RangeFault, IsOverlap, srat_entry, srat_contents};
ghost use Rattle.acpi_confirm.specs.Conditions.{SratCondition};
ghost use Rattle.acpi_confirm.specs.Srats.{HasType, CoversWith, AreCompared, srat_value};
ghost use Rattle.acpi_confirm.specs.Walks.{IsOnly};

use crate::entries::{cut, entry_at, has_bit};
use acpi_base::field::{u8_at, u16_at, u32_at, u64_at};
use acpi_base::{Code, HotPlug, Policy, Stage, Witness};

/// The offset of the first entry.
pub(crate) const FIRST_ENTRY: usize = 48;

/// The contents of an entry: if it is of a known type its fields, otherwise its bytes.
#[derive(Clone, Copy)]
pub(crate) enum SratEntry<'a> {
    /// Type 0, 16 bytes.
    ApicDomain {
        domain: u64,
        apic_id: u8,
        flags: u32,
        eid: u8,
        clock_domain: u32,
    },
    /// Type 1, 40 bytes.
    MemoryRange {
        domain: u32,
        base: u64,
        size: u64,
        flags: u32,
    },
    /// Type 2, 24 bytes.
    X2apicDomain {
        domain: u32,
        x2apic_id: u32,
        flags: u32,
        clock_domain: u32,
    },
    /// Any other type or length.
    Opaque(&'a [u8]),
}

/// The domain of an entry of type 0, whose bits 31:8 are separate from bits 7:0.
#[tactic(auto, using(crate::proofs::SratFaults::three_bytes))]
fn apic_domain(entry: &[u8]) -> u64
    requires { 16 ≤ length entry.now }
    ensures { result ≡ field entry.now 2 1 + 256 * field entry.now 9 3 }
{
    let low = u64::from(u8_at(entry, 2));
    let middle = u64::from(u16_at(entry, 9));
    let high = u64::from(u8_at(entry, 11));
    low + 256 * (middle + 65536 * high)
}

/// The contents of an entry with these bytes.
#[tactic(auto, unfolding(acpi_base::specs::Srat::srat_entry, acpi_base::specs::Entries::has_form))]
pub(crate) fn read(entry: &[u8]) -> SratEntry<'_>
    requires { 2 ≤ length entry.now }
    ensures says { srat_value result ≡ srat_entry entry.now }
    ensures typed { HasType (srat_value result) }
{
    match (entry[0], entry.len()) {
        (0, 16) => SratEntry::ApicDomain {
            domain: apic_domain(entry),
            apic_id: u8_at(entry, 3),
            flags: u32_at(entry, 4),
            eid: u8_at(entry, 8),
            clock_domain: u32_at(entry, 12),
        },
        (1, 40) => SratEntry::MemoryRange {
            domain: u32_at(entry, 2),
            base: u64_at(entry, 8),
            size: u64_at(entry, 16),
            flags: u32_at(entry, 28),
        },
        (2, 24) => SratEntry::X2apicDomain {
            domain: u32_at(entry, 4),
            x2apic_id: u32_at(entry, 8),
            flags: u32_at(entry, 12),
            clock_domain: u32_at(entry, 16),
        },
        _ => SratEntry::Opaque(entry),
    }
}

/// Whether the flags of an entry say that it is enabled.
pub(crate) fn is_enabled(flags: u32) -> bool
    ensures { result ≡ srat.is_enabled flags }
{
    has_bit(flags, 0)
}

/// Whether the flags of a range say that it is hot-pluggable.
fn is_hot_pluggable(flags: u32) -> bool
    ensures { result ≡ srat.is_hot_pluggable flags }
{
    has_bit(flags, 1)
}

/// Codes 43 and 44: whether the entry at an offset has this fault by itself.
fn has_own_fault_at(srat: &[u8], at: u64, code: Code) -> bool
    ensures { IsTrue result ↔ StandsWith (srat_contents srat.now).entries at (SratEntryFault code) }
{
    entry_at(srat, FIRST_ENTRY, at).is_some_and(|entry| match (code, read(entry)) {
        (Code::SratEntryLength, SratEntry::Opaque(bytes)) => bytes[0] <= 2,
        (
            Code::RangePastEnd,
            SratEntry::MemoryRange {
                base,
                size,
                flags,
                ..
            },
        ) => is_enabled(flags) && u128::from(base) + u128::from(size) > 1 << 64,
        _ => false,
    })
}

/// Codes 41 to 44: the table and each entry by itself.
#[tactic(auto, using(crate::proofs::SratFaults::srat_codes))]
fn has_entry_fault(srat: &[u8], witness: &Witness) -> bool
    ensures { IsTrue result ↔ SratFault (srat_contents srat.now) witness.now.code witness.now.at
        witness.now.other witness.now.point }
{
    if witness.other != 0 || witness.point != 0 {
        return false;
    }
    match witness.code {
        Code::SratShort => srat.len() < 48 && witness.at == 0,
        Code::SratEntryCut => cut(srat, FIRST_ENTRY) == Some(witness.at),
        code => has_own_fault_at(srat, witness.at, code),
    }
}

/// The flags of the enabled range at an offset that covers the address.
fn covering_at(srat: &[u8], at: u64, address: u64) -> Option<u32>
    ensures { IsOnly (λ flags. StandsWith (srat_contents srat.now).entries at
        (CoversWith address flags)) result }
{
    entry_at(srat, FIRST_ENTRY, at).and_then(|entry| match read(entry) {
        SratEntry::MemoryRange {
            base,
            size,
            flags,
            ..
        } if is_enabled(flags)
            && base <= address
            && u128::from(address) < u128::from(base) + u128::from(size) => { Some(flags) }
        _ => None,
    })
}

/// Whether two ranges with these flags are compared, so that they must not overlap.
fn are_compared(hotplug: HotPlug, one: u32, other: u32) -> bool
    ensures { IsTrue result ↔ AreCompared hotplug one other }
{
    match hotplug {
        HotPlug::Counted => true,
        HotPlug::Apart => is_hot_pluggable(one) == is_hot_pluggable(other),
    }
}

/// Whether the enabled ranges at two offsets are compared, and both cover the address.
fn is_overlap(srat: &[u8], hotplug: HotPlug, at: u64, other: u64, address: u64) -> bool
    ensures { IsTrue result ↔ IsOverlap hotplug (srat_contents srat.now) at other address }
{
    at != other
        && covering_at(srat, at, address)
            .zip(covering_at(srat, other, address))
            .is_some_and(|(one, other)| are_compared(hotplug, one, other))
}

/// Code 45: two ranges.
fn has_range_fault(srat: &[u8], hotplug: HotPlug, witness: &Witness) -> bool
    ensures { IsTrue result ↔ RangeFault hotplug (srat_contents srat.now) witness.now.code
        witness.now.at witness.now.other witness.now.point }
{
    matches!(witness.code, Code::Overlap)
        && is_overlap(srat, hotplug, witness.at, witness.other, witness.point)
}

/// Whether the SRAT has this fault of stages 9 and 10.
pub(crate) fn is_srat_fault(srat: &[u8], policy: &Policy, witness: &Witness) -> bool
    ensures { IsTrue result ↔ SratCondition (stage_of witness.now.code) policy.now
        (srat_contents srat.now) witness.now }
{
    match witness.code.stage() {
        Stage::Srat => has_entry_fault(srat, witness),
        Stage::Ranges => has_range_fault(srat, policy.hotplug(), witness),
        _ => false,
    }
}
