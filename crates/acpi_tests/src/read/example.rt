//! The example at the head of `acpi_read`.

use crate::samples::{Q35, facs, fadt_body, set, table};
use acpi_base::{Code, Image};
use acpi_read::{Entries, Facs, Fadt, MadtEntry, Root, Rsdp, Table, first};
use std::test::*;

/// The lines of the example at the head of `acpi_read`.
fn example(image: &Image) -> Result<(), Code> {
    let rsdp = Rsdp::read(image, 0xe0000)?;
    let root = Root::read(image, &rsdp)?;
    if let Some(address) = first(image, &root, *b"FACP") {
        let fadt = Fadt::new(Table::read(image, address)?)?;
        let facs = Facs::read(image, &fadt)?;
    }
    if let Some(address) = first(image, &root, *b"APIC") {
        let mut entries = Entries::madt(Table::read(image, address)?)?;
        while let Some(entry) = entries.next() {
            if let MadtEntry::IoApic(io_apic) = MadtEntry::read(entry.bytes)? {}
        }
        if let Some(offset) = entries.cut() {}
    }
    Ok(())
}

#[test]
fn example_reads_a_machine(rt: HostRuntime) -> Result<(), Fail> {
    let fadt = table(rt.alloc(), &Q35, *b"FACP", &fadt_body(0x7000, [0; 4], 0))?;
    // The Local APICs' address, Flags, an I/O APIC and a Local APIC NMI.
    let body = [
        0, 0, 0xe0, 0xfe, 1, 0, 0, 0, 1, 12, 0, 0, 0, 0, 0xc0, 0xfe, 0, 0, 0, 0, 4, 6, 0xff, 0, 0,
        1,
    ];
    let madt = table(rt.alloc(), &Q35, *b"APIC", &body)?;
    let tables: [(u32, &[u8]); 2] = [(0x2000, &fadt), (0x3000, &madt)];
    let mut image = set(rt.alloc(), &Q35, &tables)?;
    image.add(0x7000, &facs(0))?;
    assert!(rt; example(&image).is_ok());
    Ok(())
}
