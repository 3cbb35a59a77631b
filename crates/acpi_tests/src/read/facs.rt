//! Tests of the FACS.

use crate::samples::{Q35, facs, fadt_body, image_of_table};
use acpi_base::{Code, Image};
use acpi_read::{Facs, Fadt, Table};
use std::test::*;

/// The FACS that the FADT at 0x1000 names.
fn named_facs(image: &Image) -> Result<Option<Facs<'_>>, Code> {
    let fadt = Fadt::new(Table::read(image, 0x1000)?)?;
    Facs::read(image, &fadt)
}

/// Whether the FACS that the FADT names is at the address, and has these bytes.
fn is_facs(image: &Image, address: u64, bytes: &[u8]) -> Result<bool, Code> {
    match named_facs(image)? {
        Some(facs) => Ok(facs.address() == address && facs.bytes() == bytes),
        None => Ok(false),
    }
}

#[test]
fn facs_is_the_one_that_is_named(rt: HostRuntime) -> Result<(), Fail> {
    let mut image = image_of_table(rt.alloc(), &Q35, *b"FACP", &fadt_body(0x7000, [0; 4], 0))?;
    assert!(rt; named_facs(&image).err() == Some(Code::FacsHeaderOut));
    image.add(0x7000, &facs(0))?;
    assert!(rt; is_facs(&image, 0x7000, &facs(0)) == Ok(true));
    Ok(())
}
