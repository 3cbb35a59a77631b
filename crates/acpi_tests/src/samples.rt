//! Tables and sets of tables for the tests of `read` and `write`, whose lengths and checksums are computed, and what
//! is expected of a layout.

ghost use Rattle.std.specs.Prelude.{◌≡◌, ◌+◌, ◌^◌, ◌<◌, length, IsTrue};
ghost use Rattle.acpi_base.specs.Entries.{IsEntry};

use acpi_base::field::{put_bytes, put_u32, put_u64};
use acpi_base::{Image, ImageFault, Policy, PolicyFault, sum};
use acpi_read::{Layout, read_back};
use std::alloc::Global;
use std::fmt::Debug;
use std::process::Abort;
use std::test::Fail;

/// The names in an RSDP and in the header of a table.
#[derive(Clone, Copy)]
pub(crate) struct Names {
    oemid: [u8; 6],
    oem_table_id: [u8; 8],
    creator_id: [u8; 4],
}

/// Those of the machine `q35` of QEMU 7.2.
pub(crate) const Q35: Names = Names {
    oemid: *b"BOCHS ",
    oem_table_id: *b"BXPC    ",
    creator_id: *b"BXPC",
};

/// Names that are all `A`.
pub(crate) const PLAIN: Names = Names {
    oemid: *b"AAAAAA",
    oem_table_id: *b"AAAAAAAA",
    creator_id: *b"AAAA",
};

/// The number that makes the sum 0.
fn checksum(sum: u8) -> u8 {
    0u8.wrapping_sub(sum)
}

/// The header of a table with this signature and this body. Its revisions are 1.
pub(crate) fn header_before(names: &Names, signature: [u8; 4], body: &[u8]) -> [u8; 36]
    requires { 36 + length body.now < 2 ^ 32 }
{
    let mut header = [0; 36];
    put_bytes(&mut header, 0, &signature);
    put_u32(&mut header, 4, 36 + body.len() as u32);
    header[8] = 1;
    put_bytes(&mut header, 10, &names.oemid);
    put_bytes(&mut header, 16, &names.oem_table_id);
    put_u32(&mut header, 24, 1);
    put_bytes(&mut header, 28, &names.creator_id);
    put_u32(&mut header, 32, 1);
    header[9] = checksum(sum(&header).wrapping_add(sum(body)));
    header
}

/// A table with this signature and this body.
pub(crate) fn table(
    alloc: Global,
    names: &Names,
    signature: [u8; 4],
    body: &[u8],
) -> Result<Vec<u8>, Fail> {
    if body.len() > 0xffff {
        return Err(Fail::new("the body is too long"));
    }
    let mut bytes = Vec::from_slice(alloc, &header_before(names, signature, body))?;
    bytes.extend_from_slice(body)?;
    Ok(bytes)
}

/// An RSDP of revision 0 that names this RSDT.
pub(crate) fn rsdp(names: &Names, rsdt: u32) -> [u8; 20] {
    let mut bytes = *b"RSD PTR \0\0\0\0\0\0\0\0\0\0\0\0";
    put_bytes(&mut bytes, 9, &names.oemid);
    put_u32(&mut bytes, 16, rsdt);
    bytes[8] = checksum(sum(&bytes));
    bytes
}

/// An RSDP of revision 2, with names that are all `A`, that names this RSDT and this XSDT. Its first 20 bytes have
/// their own checksum.
pub(crate) fn extended_rsdp(rsdt: u32, xsdt: u64) -> [u8; 36] {
    let mut bytes = *b"RSD PTR \0AAAAAA\x02\0\0\0\0\x24\0\0\0\0\0\0\0\0\0\0\0\0\0\0\0";
    put_u32(&mut bytes, 16, rsdt);
    put_u64(&mut bytes, 24, xsdt);
    bytes[8] = checksum(sum(&bytes[..20]));
    bytes[32] = checksum(sum(&bytes));
    bytes
}

/// The body of a FADT of 116 bytes: the FACS's address at 36, the lengths of PM1_EVT, PM1_CNT, PM2_CNT and PM_TMR at
/// 88, and Flags at 112.
pub(crate) fn fadt_body(facs: u32, lengths: [u8; 4], flags: u32) -> [u8; 80] {
    let mut body = [0; 80];
    put_u32(&mut body, 0, facs);
    put_bytes(&mut body, 52, &lengths);
    put_u32(&mut body, 76, flags);
    body
}

/// The body of a FADT with reduced hardware, which names no FACS.
pub(crate) fn reduced_body() -> [u8; 80] {
    fadt_body(0, [0; 4], 1 << 20)
}

/// A FACS of 64 bytes of this version (ACPI 6.5, 5.2.10).
pub(crate) fn facs(version: u8) -> [u8; 64] {
    let mut bytes = [0; 64];
    put_bytes(&mut bytes, 0, b"FACS");
    bytes[4] = 64;
    bytes[32] = version;
    bytes
}

/// An image of these bytes, each piece at its address.
pub(crate) fn image_of(alloc: Global, pieces: &[(u64, &[u8])]) -> Result<Image, Fail> {
    let mut image = Image::new(alloc);
    for (address, bytes) in pieces {
        image.add(*address, bytes)?;
    }
    Ok(image)
}

/// An image that has one table, at 0x1000.
pub(crate) fn image_of_table(
    alloc: Global,
    names: &Names,
    signature: [u8; 4],
    body: &[u8],
) -> Result<Image, Fail> {
    let bytes = table(alloc, names, signature, body)?;
    image_of(alloc, &[(0x1000, &bytes)])
}

/// The addresses, as the slots of an RSDT.
fn slots(alloc: Global, tables: &[(u32, &[u8])]) -> Result<Vec<u8>, Fail> {
    let mut slots = Vec::new(alloc);
    for (address, _) in tables {
        slots.extend_from_slice(&address.to_le_bytes())?;
    }
    Ok(slots)
}

/// Adds to the image an RSDP at 0xE0000, whose RSDT is at 0x1000, and these tables, each at its address.
fn add_tables(image: &mut Image, names: &Names, tables: &[(u32, &[u8])]) -> Result<(), ImageFault> {
    image.add(0xe0000, &rsdp(names, 0x1000))?;
    for (address, bytes) in tables {
        image.add(u64::from(*address), bytes)?;
    }
    Ok(())
}

/// An image with an RSDP at 0xE0000 and an RSDT at 0x1000, which lists these tables, each at its address.
pub(crate) fn set(alloc: Global, names: &Names, tables: &[(u32, &[u8])]) -> Result<Image, Fail> {
    let slots = slots(alloc, tables)?;
    let mut image = image_of_table(alloc, names, *b"RSDT", &slots)?;
    add_tables(&mut image, names, tables)?;
    Ok(image)
}

/// A set, with names that are all `A`, whose only table is a FADT of this body at 0x2000.
pub(crate) fn set_of_fadt(alloc: Global, body: &[u8; 80]) -> Result<Image, Fail> {
    let fadt = table(alloc, &PLAIN, *b"FACP", body)?;
    set(alloc, &PLAIN, &[(0x2000, &fadt)])
}

/// The policy for it.
pub(crate) fn policy(alloc: Global) -> Result<Policy, PolicyFault> {
    Policy::new(alloc, 0xe0000, 24)
}

/// The bytes are read as the value, and the value is written as the same bytes, except that reserved bytes are
/// written as 0. In these bytes exactly the reserved ones are 0xFF.
pub(crate) fn expect_layout<R: Abort, L: Layout + Copy + Debug + PartialEq, const N: usize>(
    rt: &R,
    value: L,
    bytes: &[u8; N],
)
    requires { N ≡ L.LEN }
{
    let mut written = *bytes;
    for byte in &mut written {
        if *byte == 0xff {
            *byte = 0;
        }
    }
    let out = &mut [0xff; N];
    assert!(rt; L::read(bytes) == Some(value));
    assert!(rt; read_back(&value, out) == Some(value));
    assert!(rt; *out == written);
}

/// Whether the second byte is the number of bytes, as in an entry.
pub(crate) fn is_entry(bytes: &[u8]) -> bool
    ensures { IsTrue result → IsEntry bytes.now }
{
    bytes.len() >= 2 && usize::from(bytes[1]) == bytes.len()
}
