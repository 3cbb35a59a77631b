//! Tests of the RSDP.

use crate::samples::{Q35, extended_rsdp, image_of, rsdp};
use acpi_base::{Code, Image};
use acpi_read::Rsdp;
use std::process::Abort;
use std::test::*;

/// The RSDP at the address has this revision, this OEMID and these addresses of the RSDT and the XSDT.
fn expect_rsdp(
    rt: &impl Abort,
    image: &Image,
    address: u64,
    fields: (u8, [u8; 6], u32, u64),
) -> Result<(), Code> {
    let (revision, oemid, rsdt, xsdt) = fields;
    let rsdp = Rsdp::read(image, address)?;
    assert!(rt; rsdp.address() == address);
    assert!(rt; rsdp.revision() == revision && rsdp.oemid() == oemid);
    assert!(rt; rsdp.rsdt() == rsdt && rsdp.xsdt() == xsdt);
    Ok(())
}

#[test]
fn fields_of_the_short_and_the_extended_form(rt: HostRuntime) -> Result<(), Fail> {
    let extended = extended_rsdp(0x1000, 0x1_0000_1100);
    let pieces: [(u64, &[u8]); 2] = [(0xf59e0, &rsdp(&Q35, 0x07fe_223c)), (0xe0000, &extended)];
    let image = image_of(rt.alloc(), &pieces)?;
    let short = expect_rsdp(&rt, &image, 0xf59e0, (0, *b"BOCHS ", 0x07fe_223c, 0));
    let extended = expect_rsdp(&rt, &image, 0xe0000, (2, *b"AAAAAA", 0x1000, 0x1_0000_1100));
    assert!(rt; short == Ok(()) && extended == Ok(()));
    Ok(())
}
