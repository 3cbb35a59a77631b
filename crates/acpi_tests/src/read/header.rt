//! Tests of the header of a table.

use crate::samples::expect_layout;
use acpi_read::{Header, Layout};
use std::test::*;

/// The header of the WAET of QEMU 7.2, but for its OEM revision.
const WAET: Header = Header {
    signature: *b"WAET",
    length: 40,
    revision: 1,
    checksum: 0x39,
    oemid: *b"BOCHS ",
    oem_table_id: *b"BXPC    ",
    oem_revision: 2,
    creator_id: 0x4350_5842,
    creator_revision: 1,
};

#[test]
fn header_is_read_and_written(rt: HostRuntime) {
    let bytes = b"WAET\x28\0\0\0\x01\x39BOCHS BXPC    \x02\0\0\0BXPC\x01\0\0\0";
    expect_layout(&rt, WAET, bytes);
    assert!(rt; Header::read(&bytes[..35]).is_none());
    assert!(rt; Header::read(&[0; 37]).is_none());
}
