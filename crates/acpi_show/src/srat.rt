//! The lines of the SRAT.

use crate::entries::{Owner, add_entries, add_other};
use crate::fields::{add_decimal, add_hex};
use crate::unread::{Unread, add_unread};
use acpi_read::{Entries, Entry, Listed, MemoryRange, SratEntry, TableEntry};
use std::alloc::AllocError;

/// Adds the lines of the SRAT: `srat ADDRESS`, and those of its entries.
pub fn add_srat(text: &mut String, listed: &Listed<'_>) -> Result<(), AllocError> {
    let address = listed.address;
    let table = listed.table.copied();
    let Ok(entries) = Entries::srat(table) else {
        return add_unread(text, "srat", address, Unread::Short);
    };
    add_hex(text, "srat ", address)?;
    text.push('\n')?;
    add_entries(text, Owner::Srat, entries)
}

/// Adds what an entry of the SRAT says.
pub fn add_srat_entry(text: &mut String, entry: &Entry<'_>) -> Result<(), AllocError> {
    match SratEntry::of(entry.bytes) {
        SratEntry::ApicDomain(cpu) => add_processor(
            text,
            u32::from(cpu.apic_id),
            cpu.domain,
            cpu.flags,
        ),
        SratEntry::MemoryRange(range) => add_memory_range(text, range),
        SratEntry::X2apicDomain(cpu) => add_processor(text, cpu.x2apic_id, cpu.domain, cpu.flags),
        SratEntry::Opaque(_) => add_other(text, entry),
    }
}

/// Adds `cpu id N domain N flags FLAGS`: a processor by the ID of its local APIC or its local x2APIC.
fn add_processor(text: &mut String, id: u32, domain: u32, flags: u32) -> Result<(), AllocError> {
    add_decimal(text, "cpu id ", id)?;
    add_decimal(text, " domain ", domain)?;
    add_hex(text, " flags ", flags)
}

/// `memory domain N base ADDRESS length N flags FLAGS`, the length in hex.
fn add_memory_range(text: &mut String, range: MemoryRange) -> Result<(), AllocError> {
    add_decimal(text, "memory domain ", range.domain)?;
    add_hex(text, " base ", range.base)?;
    add_hex(text, " length ", range.size)?;
    add_hex(text, " flags ", range.flags)
}
