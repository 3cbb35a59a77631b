//! Tests of the XSDT and the RSDT.

use crate::samples::{Q35, extended_rsdp, image_of, set, table};
use acpi_base::{Code, Image};
use acpi_read::{Root, Rsdp};
use std::process::Abort;
use std::test::*;

/// The root table is at this address, with these slots.
fn expect_root(
    rt: &impl Abort,
    image: &Image,
    address: u64,
    wide: bool,
    slots: &[u64],
) -> Result<(), Code> {
    let rsdp = Rsdp::read(image, 0xe0000)?;
    let root = Root::read(image, &rsdp)?;
    assert!(rt; root.address() == address && root.wide() == wide);
    let mut k = 0;
    for slot in slots {
        assert!(rt; k < root.slots());
        assert!(rt; root.slot(k) == *slot, "{k}");
        k += 1;
    }
    assert!(rt; k == root.slots());
    Ok(())
}

#[test]
fn slots_of_an_rsdt(rt: HostRuntime) -> Result<(), Fail> {
    let image = set(rt.alloc(), &Q35, &[(0x2000, &[]), (0x7fe_2214, &[])])?;
    let told = expect_root(&rt, &image, 0x1000, false, &[0x2000, 0x7fe_2214]);
    assert!(rt; told == Ok(()), "{told:?}");
    Ok(())
}

// The image has no RSDT. One slot is 0, and one is above 4 GiB.
#[test]
fn xsdt_goes_before_the_rsdt(rt: HostRuntime) -> Result<(), Fail> {
    let body = [0, 0, 0, 0, 0, 0, 0, 0, 0x14, 0x22, 0xfe, 7, 1, 0, 0, 0];
    let xsdt = table(rt.alloc(), &Q35, *b"XSDT", &body)?;
    let rsdp = extended_rsdp(0x1000, 0x1_0000_1100);
    let image = image_of(rt.alloc(), &[(0xe0000, &rsdp), (0x1_0000_1100, &xsdt)])?;
    let told = expect_root(&rt, &image, 0x1_0000_1100, true, &[0, 0x1_07fe_2214]);
    assert!(rt; told == Ok(()), "{told:?}");
    Ok(())
}
