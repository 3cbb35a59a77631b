//! Tests of the entries of tables, and of the cut.

use crate::samples::{Q35, image_of_table};
use acpi_base::{Code, Image, TableKind};
use acpi_read::{Entries, Table};
use std::test::*;

/// A table's signature and body, and its entries, each with its offset.
type Case<'a> = ([u8; 4], &'a [u8], &'a [(u64, &'a [u8])]);

/// Tables without a cut.
const TABLES: [Case; 3] = [
    (
        *b"APIC",
        &[
            0, 0, 0xe0, 0xfe, 1, 0, 0, 0, 0xc1, 3, 0xa1, 0xc2, 2, 0xc3, 4, 0xa2, 0xa3,
        ],
        &[
            (44, &[0xc1, 3, 0xa1]),
            (47, &[0xc2, 2]),
            (49, &[0xc3, 4, 0xa2, 0xa3]),
        ],
    ),
    // Its first 12 bytes after the header would be entries if it were a PPTT.
    (
        *b"SRAT",
        &[1, 3, 0, 0, 9, 0, 0, 0, 0, 0, 0, 0, 0xc1, 3, 0xa1],
        &[(48, &[0xc1, 3, 0xa1])],
    ),
    (
        *b"PPTT",
        &[0xc1, 3, 0xa1, 0xc2, 2],
        &[(36, &[0xc1, 3, 0xa1]), (39, &[0xc2, 2])],
    ),
];

/// The entries of the table in the image, read by its signature.
fn entries_of(image: &Image) -> Result<Entries<'_>, Code> {
    let table = Table::read(image, 0x1000)?;
    match TableKind::of(table.bytes()) {
        Some(TableKind::Madt) => Entries::madt(table),
        Some(TableKind::Srat) => Entries::srat(table),
        _ => Ok(Entries::pptt(table)),
    }
}

/// Whether the entries of the table in the image are these, and there is no cut.
fn has_entries(image: &Image, expected: &[(u64, &[u8])]) -> Result<bool, Code> {
    let mut entries = entries_of(image)?;
    for (offset, bytes) in expected {
        match entries.next() {
            Some(entry) if entry.offset == *offset && entry.bytes == *bytes => {}
            _ => return Ok(false),
        }
    }
    Ok(entries.next().is_none() && entries.cut().is_none())
}

#[test]
fn entries_stand_at_their_offsets(rt: HostRuntime) -> Result<(), Fail> {
    for (signature, body, expected) in &TABLES {
        let image = image_of_table(rt.alloc(), &Q35, *signature, body)?;
        assert!(rt; has_entries(&image, expected) == Ok(true), "{body:?}");
    }
    Ok(())
}

/// The offset of the last entry of a PPTT, and the cut after it.
fn last_and_cut(image: &Image) -> Result<(Option<u64>, Option<u64>), Code> {
    let mut entries = Entries::pptt(Table::read(image, 0x1000)?);
    let mut last = None;
    while let Some(entry) = entries.next() {
        last = Some(entry.offset);
    }
    Ok((last, entries.cut()))
}

/// Bodies of a PPTT, the offset of the last entry of each, and the cut after it.
const CUT: [(&[u8], Option<u64>, Option<u64>); 7] = [
    (&[], None, None),
    // A single byte.
    (&[7], None, Some(36)),
    (&[0xc1, 3, 0xa1, 7], Some(36), Some(39)),
    // Lengths of 0 and 1.
    (&[0xc1, 3, 0xa1, 7, 0], Some(36), Some(39)),
    (&[0xc1, 3, 0xa1, 7, 1, 0xc2, 2], Some(36), Some(39)),
    // A length that passes the end by one byte, and one that reaches the end.
    (&[0xc1, 2, 7, 5, 0xa1, 0xa2], Some(36), Some(38)),
    (&[0xc1, 2, 7, 4, 0xa1, 0xa2], Some(38), None),
];

#[test]
fn what_is_no_entry_is_cut_off(rt: HostRuntime) -> Result<(), Fail> {
    for (body, last, cut) in &CUT {
        let image = image_of_table(rt.alloc(), &Q35, *b"PPTT", body)?;
        let told = last_and_cut(&image);
        assert!(rt; told == Ok((*last, *cut)), "{body:?}: {told:?}");
    }
    Ok(())
}

/// Why the table in the image is refused as a MADT, and as an SRAT.
fn refusals(image: &Image) -> Result<[Option<Code>; 2], Code> {
    let madt = Entries::madt(Table::read(image, 0x1000)?).err();
    let srat = Entries::srat(Table::read(image, 0x1000)?).err();
    Ok([madt, srat])
}

/// Bodies, and why each is refused as a MADT, and as an SRAT.
const SHORT: [(&[u8], [Option<Code>; 2]); 4] = [
    (&[0; 7], [Some(Code::MadtShort), Some(Code::SratShort)]),
    (&[0; 8], [None, Some(Code::SratShort)]),
    (&[0; 11], [None, Some(Code::SratShort)]),
    (&[0; 12], [None, None]),
];

#[test]
fn short_tables_have_no_entries(rt: HostRuntime) -> Result<(), Fail> {
    for (body, faults) in &SHORT {
        let image = image_of_table(rt.alloc(), &Q35, *b"TEST", body)?;
        let told = refusals(&image);
        assert!(rt; told == Ok(*faults), "{body:?}: {told:?}");
    }
    Ok(())
}
