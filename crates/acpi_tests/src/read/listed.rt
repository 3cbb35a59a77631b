//! Tests of the first listed table with a signature.

use crate::samples::{Q35, set, table};
use acpi_base::{Code, Image};
use acpi_read::{Root, Rsdp, first};
use std::test::*;

/// The first listed table of the signature.
fn first_of(image: &Image, signature: [u8; 4]) -> Result<Option<u64>, Code> {
    let rsdp = Rsdp::read(image, 0xe0000)?;
    let root = Root::read(image, &rsdp)?;
    Ok(first(image, &root, signature))
}

// The image has no byte of the first table that the RSDT lists.
#[test]
fn first_is_listed_and_present(rt: HostRuntime) -> Result<(), Fail> {
    let waet = table(rt.alloc(), &Q35, *b"WAET", &[2, 0, 0, 0])?;
    let image = set(rt.alloc(), &Q35, &[(0x2000, &[]), (0x3000, &waet)])?;
    assert!(rt; first_of(&image, *b"WAET") == Ok(Some(0x3000)));
    assert!(rt; first_of(&image, *b"FACP") == Ok(None));
    Ok(())
}
