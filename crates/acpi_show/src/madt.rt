//! The lines of the MADT.

use crate::entries::{Owner, add_entries, add_other};
use crate::fields::{add_decimal, add_hex};
use crate::unread::{Unread, add_unread};
use acpi_base::field::u32_at;
use acpi_read::{
    Entries, Entry, IoApic, Listed, LocalApic, LocalNmi, MADT_FLAGS, MADT_LOCAL_APIC_ADDRESS,
    MadtEntry, NmiSource, Override, TableEntry, X2apic, X2apicNmi,
};
use std::alloc::AllocError;

/// Adds the lines of the MADT: `madt ADDRESS lapic ADDRESS flags FLAGS`, with the address of the local APICs, and those
/// of its entries.
pub fn add_madt(text: &mut String, listed: &Listed<'_>) -> Result<(), AllocError> {
    let address = listed.address;
    let Ok(entries) = Entries::madt(listed.table.copied()) else {
        return add_unread(text, "madt", address, Unread::Short);
    };
    let bytes = listed.table.bytes();
    let local_apic = u32_at(bytes, MADT_LOCAL_APIC_ADDRESS);
    let flags = u32_at(bytes, MADT_FLAGS);
    add_hex(text, "madt ", address)?;
    add_hex(text, " lapic ", local_apic)?;
    add_hex(text, " flags ", flags)?;
    text.push('\n')?;
    add_entries(text, Owner::Madt, entries)
}

/// Adds what an entry of the MADT says.
pub fn add_madt_entry(text: &mut String, entry: &Entry<'_>) -> Result<(), AllocError> {
    match MadtEntry::of(entry.bytes) {
        MadtEntry::LocalApic(apic) => add_local_apic(text, apic),
        MadtEntry::IoApic(apic) => add_io_apic(text, apic),
        MadtEntry::Override(isa) => add_override(text, isa),
        MadtEntry::NmiSource(nmi) => add_nmi_source(text, nmi),
        MadtEntry::LocalNmi(nmi) => add_local_nmi(text, nmi),
        MadtEntry::AddressOverride(apics) => add_hex(text, "lapic-address ", apics.address),
        MadtEntry::X2apic(apic) => add_x2apic(text, apic),
        MadtEntry::X2apicNmi(nmi) => add_x2apic_nmi(text, nmi),
        MadtEntry::Opaque(_) => add_other(text, entry),
    }
}

/// Adds `lapic uid N id N flags FLAGS`.
fn add_local_apic(text: &mut String, apic: LocalApic) -> Result<(), AllocError> {
    add_decimal(text, "lapic uid ", apic.uid)?;
    add_decimal(text, " id ", apic.apic_id)?;
    add_hex(text, " flags ", apic.flags)
}

/// Adds `ioapic id N address ADDRESS base N`.
fn add_io_apic(text: &mut String, apic: IoApic) -> Result<(), AllocError> {
    add_decimal(text, "ioapic id ", apic.id)?;
    add_hex(text, " address ", apic.address)?;
    add_decimal(text, " base ", apic.gsi_base)
}

/// Adds `override source N gsi N flags FLAGS`.
fn add_override(text: &mut String, isa: Override) -> Result<(), AllocError> {
    add_decimal(text, "override source ", isa.source)?;
    add_decimal(text, " gsi ", isa.gsi)?;
    add_hex(text, " flags ", isa.flags)
}

/// Adds `nmi gsi N flags FLAGS`.
fn add_nmi_source(text: &mut String, nmi: NmiSource) -> Result<(), AllocError> {
    add_decimal(text, "nmi gsi ", nmi.gsi)?;
    add_hex(text, " flags ", nmi.flags)
}

/// Adds `lapic-nmi uid N flags FLAGS lint N`.
fn add_local_nmi(text: &mut String, nmi: LocalNmi) -> Result<(), AllocError> {
    let LocalNmi { uid, flags, lint } = nmi;
    add_decimal(text, "lapic-nmi uid ", uid)?;
    add_hex(text, " flags ", flags)?;
    add_decimal(text, " lint ", lint)
}

/// Adds `x2apic uid N id N flags FLAGS`.
fn add_x2apic(text: &mut String, apic: X2apic) -> Result<(), AllocError> {
    add_decimal(text, "x2apic uid ", apic.uid)?;
    add_decimal(text, " id ", apic.x2apic_id)?;
    add_hex(text, " flags ", apic.flags)
}

/// Adds `x2apic-nmi uid N flags FLAGS lint N`.
fn add_x2apic_nmi(text: &mut String, nmi: X2apicNmi) -> Result<(), AllocError> {
    let X2apicNmi { flags, uid, lint } = nmi;
    add_decimal(text, "x2apic-nmi uid ", uid)?;
    add_hex(text, " flags ", flags)?;
    add_decimal(text, " lint ", lint)
}
