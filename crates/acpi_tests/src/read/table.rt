//! Tests of system description tables.

use crate::samples::{Q35, image_of, table};
use acpi_base::{Code, Image};
use acpi_read::Table;
use std::process::Abort;
use std::test::*;

/// There is a table with these bytes at the address.
fn expect_table(rt: &impl Abort, image: &Image, address: u64, bytes: &[u8]) -> Result<(), Code> {
    let table = Table::read(image, address)?;
    assert!(rt; table.bytes() == bytes && table.copied().bytes() == bytes);
    let header = table.header();
    assert!(rt; header.signature == *b"WAET" && header.length == 40);
    assert!(rt; header.oemid == *b"BOCHS ");
    Ok(())
}

#[test]
fn table_has_its_length(rt: HostRuntime) -> Result<(), Fail> {
    let bytes = table(rt.alloc(), &Q35, *b"WAET", &[2, 0, 0, 0])?;
    let image = image_of(rt.alloc(), &[(0x3000, &bytes)])?;
    let told = expect_table(&rt, &image, 0x3000, &bytes);
    assert!(rt; told == Ok(()), "{told:?}");
    let beyond = Table::read(&image, 0x3005);
    assert!(rt; beyond.err() == Some(Code::TableHeaderOut));
    Ok(())
}
