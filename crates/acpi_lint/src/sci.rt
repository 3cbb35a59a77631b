//! Advice on the interrupt of a FADT, SCI_INT: whether an I/O APIC of a MADT serves it (ACPI 6.5, 5.2.9, 5.2.12).

ghost use Rattle.std.specs.Prelude.{◌≡◌, ◌↔◌, ℕ, IsSome, IsTrue};
ghost use Rattle.acpi_base.specs.Across.{HasIoApic, IsIoApic, IsServed};
ghost use Rattle.acpi_lint.specs.Rules.FadtAdvice.{IsGsiOf, IsSciNowhere};
ghost use Rattle.acpi_base.specs.Madt.{madt_contents};
ghost use Rattle.acpi_read.specs.Madts.{madt_value};
ghost use Rattle.acpi_read.specs.Entries.{entry_at_value};
ghost use Rattle.acpi_rules.specs.Places.{FindsLeast};
ghost use Rattle.acpi_lint.specs.Places.{FindsOwn};
ghost use Rattle.acpi_lint.specs.Overrides.{IsOwnOverride, IsOverrideAt, ServesNumber, IsUnserved, IsNowhere};

use crate::passes::first_picked;
use crate::well_formed::is_madt_well_formed;
use acpi_base::Policy;
use acpi_base::field::u16_at;
use acpi_read::{EntryAt, Fadt, MadtEntry, Table};
use acpi_rules::Place;

/// The place of an override of an ISA interrupt, and the interrupt number that it gives.
fn own_override(source: u16, at: &EntryAt<MadtEntry<'_>>) -> Option<Place>
    ensures { FindsOwn (IsOwnOverride source) (entry_at_value madt_value at.now) result }
{
    match &at.entry {
        MadtEntry::Override(named) if named.bus == 0 && u16::from(named.source) == source => {
            Some(Place {
                at: at.offset,
                other: u64::from(named.gsi),
                point: 0,
            })
        }
        _ => None,
    }
}

/// The place of the first override of an ISA interrupt, and the interrupt number that it gives.
fn first_override(madt: &Table<'_>, source: u16) -> Option<Place>
    ensures { FindsLeast (IsOverrideAt source (madt_contents madt.now)) result }
{
    first_picked(
        madt.entries::<MadtEntry<'_>>(),
        |at| own_override(source, at),
    )
}

/// The interrupt number of an ISA interrupt: that of its first override, or else its own.
fn gsi_of(madt: &Table<'_>, source: u16) -> u64
    ensures is { IsGsiOf (madt_contents madt.now) source result }
    ensures one { (g : ℕ) → IsGsiOf (madt_contents madt.now) source g → g ≡ result }
{
    match first_override(madt, source) {
        Some(place) => place.other,
        None => u64::from(source),
    }
}

/// Some for an I/O APIC.
fn io_apic_at(at: &EntryAt<MadtEntry<'_>>) -> Option<()>
    ensures { IsSome result ↔ IsIoApic (madt_value at.now.entry) }
{
    matches!(at.entry, MadtEntry::IoApic(_)).then_some(())
}

/// Whether a MADT has an I/O APIC.
pub fn has_io_apic(madt: &Table<'_>) -> bool
    ensures { IsTrue result ↔ HasIoApic (madt_contents madt.now) }
{
    first_picked(madt.entries::<MadtEntry<'_>>(), io_apic_at).is_some()
}

/// Whether an entry is an I/O APIC that serves an interrupt number.
fn serves(policy: &Policy, entry: &MadtEntry<'_>, gsi: u64) -> bool
    ensures { IsTrue result ↔ ServesNumber policy.now gsi (madt_value entry.now) }
{
    match entry {
        MadtEntry::IoApic(io_apic) => {
            let start = u64::from(io_apic.gsi_base);
            start <= gsi && gsi < start + u64::from(policy.inputs_of(io_apic.address))
        }
        _ => false,
    }
}

/// Whether an I/O APIC of a MADT serves an interrupt number.
pub fn is_served(policy: &Policy, madt: &Table<'_>, gsi: u64) -> bool
    ensures { IsTrue result ↔ IsServed policy.now (madt_contents madt.now) gsi }
{
    first_picked(madt.entries::<MadtEntry<'_>>(), |at| {
        serves(policy, &at.entry, gsi).then_some(at.offset)
    })
    .is_some()
}

/// Whether none of the I/O APICs of a MADT serves an interrupt number, although there are some, and the hardware is
/// not reduced.
fn is_unserved(policy: &Policy, fadt: &Fadt<'_>, madt: &Table<'_>, gsi: u64) -> bool
    ensures { IsTrue result ↔ IsUnserved policy.now fadt.now (madt_contents madt.now) gsi }
{
    !fadt.reduced() && has_io_apic(madt) && !is_served(policy, madt, gsi)
}

/// The same for a MADT that is well-formed.
fn is_nowhere(policy: &Policy, fadt: &Fadt<'_>, madt: &Table<'_>, gsi: u64) -> bool
    ensures { IsTrue result ↔ IsNowhere policy.now fadt.now (madt_contents madt.now) gsi }
{
    is_unserved(policy, fadt, madt, gsi) && is_madt_well_formed(policy, madt)
}

/// 108 SciNowhere, likely wrong (5.2.9, 5.2.12.5): no I/O APIC serves the interrupt number of SCI_INT.
/// Numbers: `at` is 0x2e (46), the offset of SCI_INT in the FADT, `point` is the interrupt number.
/// "No I/O APIC serves interrupt number {point:d}, that of SCI_INT, at {at} of the FADT."
///
/// SCI_INT, at 46, if the hardware is not reduced, and none of the I/O APICs serves its interrupt number although
/// there are some, and the MADT is well-formed.
pub fn sci_nowhere(policy: &Policy, fadt: &Fadt<'_>, madt: &Table<'_>) -> Option<Place>
    ensures { FindsLeast (IsSciNowhere policy.now fadt.now (madt_contents madt.now)) result }
{
    let gsi = gsi_of(madt, u16_at(fadt.bytes(), 46));
    is_nowhere(policy, fadt, madt, gsi).then_some(Place {
        at: 46,
        other: 0,
        point: gsi,
    })
}
