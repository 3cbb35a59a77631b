//! Tests of the entries of the SRAT.

use crate::samples::{expect_layout, is_entry};
use acpi_base::Code;
use acpi_read::{ApicDomain, Layout, MemoryRange, SratEntry, X2apicDomain};
use std::process::Abort;
use std::test::*;

/// The bytes are read as the entry.
fn expect_entry(rt: &impl Abort, bytes: &[u8], entry: SratEntry) {
    assert!(rt; is_entry(bytes));
    let told = SratEntry::read(bytes);
    assert!(rt; told == Ok(entry), "{told:?}");
}

#[test]
fn apic_domain_is_read_and_written(rt: HostRuntime) {
    let value = ApicDomain {
        domain: 0xa4a3_a2a1,
        apic_id: 0xb1,
        flags: 0xc4c3_c2c1,
        eid: 0xd1,
        clock_domain: 0xe4e3_e2e1,
    };
    let bytes = [
        0x00, 0x10, 0xa1, 0xb1, 0xc1, 0xc2, 0xc3, 0xc4, 0xd1, 0xa2, 0xa3, 0xa4, 0xe1, 0xe2, 0xe3,
        0xe4,
    ];
    expect_entry(&rt, &bytes, SratEntry::ApicDomain(value));
    expect_layout(&rt, value, &bytes);
}

#[test]
fn memory_range_is_read_and_written(rt: HostRuntime) {
    let value = MemoryRange {
        domain: 0xa4a3_a2a1,
        base: 0xb8b7_b6b5_b4b3_b2b1,
        size: 0xc8c7_c6c5_c4c3_c2c1,
        flags: 0xd4d3_d2d1,
    };
    let bytes = [
        0x01, 0x28, 0xa1, 0xa2, 0xa3, 0xa4, 0xff, 0xff, 0xb1, 0xb2, 0xb3, 0xb4, 0xb5, 0xb6, 0xb7,
        0xb8, 0xc1, 0xc2, 0xc3, 0xc4, 0xc5, 0xc6, 0xc7, 0xc8, 0xff, 0xff, 0xff, 0xff, 0xd1, 0xd2,
        0xd3, 0xd4, 0xff, 0xff, 0xff, 0xff, 0xff, 0xff, 0xff, 0xff,
    ];
    expect_entry(&rt, &bytes, SratEntry::MemoryRange(value));
    expect_layout(&rt, value, &bytes);
}

#[test]
fn x2apic_domain_is_read_and_written(rt: HostRuntime) {
    let value = X2apicDomain {
        domain: 0xa4a3_a2a1,
        x2apic_id: 0xb4b3_b2b1,
        flags: 0xc4c3_c2c1,
        clock_domain: 0xd4d3_d2d1,
    };
    let bytes = [
        0x02, 0x18, 0xff, 0xff, 0xa1, 0xa2, 0xa3, 0xa4, 0xb1, 0xb2, 0xb3, 0xb4, 0xc1, 0xc2, 0xc3,
        0xc4, 0xd1, 0xd2, 0xd3, 0xd4, 0xff, 0xff, 0xff, 0xff,
    ];
    expect_entry(&rt, &bytes, SratEntry::X2apicDomain(value));
    expect_layout(&rt, value, &bytes);
}

/// Bytes of another type and of other lengths, and how they are read.
const OTHERS: [(&[u8], Result<SratEntry, Code>); 3] = [
    (
        &[0x03, 0x06, 0xa1, 0xa2, 0xa3, 0xa4],
        Ok(SratEntry::Opaque(&[0x03, 0x06, 0xa1, 0xa2, 0xa3, 0xa4])),
    ),
    (&[0x00, 0x02], Err(Code::SratEntryLength)),
    (&LONG, Err(Code::SratEntryLength)),
];

/// A Local APIC affinity and one more byte, which the length byte counts.
const LONG: [u8; 17] = [
    0x00, 0x11, 0xa1, 0xb1, 0xc1, 0xc2, 0xc3, 0xc4, 0xd1, 0xa2, 0xa3, 0xa4, 0xe1, 0xe2, 0xe3, 0xe4,
    0xe5,
];

#[test]
fn other_types_are_opaque_and_other_lengths_refused(rt: HostRuntime) {
    for (bytes, entry) in &OTHERS {
        assert!(rt; is_entry(bytes));
        let read = SratEntry::read(bytes);
        assert!(rt; read == *entry, "{bytes:?}: {read:?}");
        assert!(rt; ApicDomain::read(bytes).is_none(), "{bytes:?}");
        assert!(rt; X2apicDomain::read(bytes).is_none(), "{bytes:?}");
    }
    assert!(rt; ApicDomain::read(&LONG[..16]).is_none());
}
