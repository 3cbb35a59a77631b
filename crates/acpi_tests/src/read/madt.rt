//! Tests of the entries of the MADT.

use crate::samples::{expect_layout, is_entry};
use acpi_base::Code;
use acpi_read::{
    AddressOverride, IoApic, Layout, LocalApic, LocalNmi, MadtEntry, NmiSource, Override, X2apic,
    X2apicNmi,
};
use std::process::Abort;
use std::test::*;

/// The bytes are read as the entry.
fn expect_entry(rt: &impl Abort, bytes: &[u8], entry: MadtEntry) {
    assert!(rt; is_entry(bytes));
    let told = MadtEntry::read(bytes);
    assert!(rt; told == Ok(entry), "{told:?}");
}

#[test]
fn local_apic_is_read_and_written(rt: HostRuntime) {
    let value = LocalApic {
        uid: 0xa1,
        apic_id: 0xb1,
        flags: 0xc4c3_c2c1,
    };
    let bytes = [0x00, 0x08, 0xa1, 0xb1, 0xc1, 0xc2, 0xc3, 0xc4];
    expect_entry(&rt, &bytes, MadtEntry::LocalApic(value));
    expect_layout(&rt, value, &bytes);
}

#[test]
fn io_apic_is_read_and_written(rt: HostRuntime) {
    let value = IoApic {
        id: 0xa1,
        address: 0xb4b3_b2b1,
        gsi_base: 0xc4c3_c2c1,
    };
    let bytes = [
        0x01, 0x0c, 0xa1, 0xff, 0xb1, 0xb2, 0xb3, 0xb4, 0xc1, 0xc2, 0xc3, 0xc4,
    ];
    expect_entry(&rt, &bytes, MadtEntry::IoApic(value));
    expect_layout(&rt, value, &bytes);
}

#[test]
fn override_is_read_and_written(rt: HostRuntime) {
    let value = Override {
        bus: 0xa1,
        source: 0xb1,
        gsi: 0xc4c3_c2c1,
        flags: 0xd2d1,
    };
    let bytes = [0x02, 0x0a, 0xa1, 0xb1, 0xc1, 0xc2, 0xc3, 0xc4, 0xd1, 0xd2];
    expect_entry(&rt, &bytes, MadtEntry::Override(value));
    expect_layout(&rt, value, &bytes);
}

#[test]
fn nmi_source_is_read_and_written(rt: HostRuntime) {
    let value = NmiSource {
        flags: 0xa2a1,
        gsi: 0xb4b3_b2b1,
    };
    let bytes = [0x03, 0x08, 0xa1, 0xa2, 0xb1, 0xb2, 0xb3, 0xb4];
    expect_entry(&rt, &bytes, MadtEntry::NmiSource(value));
    expect_layout(&rt, value, &bytes);
}

#[test]
fn local_nmi_is_read_and_written(rt: HostRuntime) {
    let value = LocalNmi {
        uid: 0xa1,
        flags: 0xb2b1,
        lint: 0xc1,
    };
    let bytes = [0x04, 0x06, 0xa1, 0xb1, 0xb2, 0xc1];
    expect_entry(&rt, &bytes, MadtEntry::LocalNmi(value));
    expect_layout(&rt, value, &bytes);
}

#[test]
fn address_override_is_read_and_written(rt: HostRuntime) {
    let value = AddressOverride {
        address: 0xa8a7_a6a5_a4a3_a2a1,
    };
    let bytes = [
        0x05, 0x0c, 0xff, 0xff, 0xa1, 0xa2, 0xa3, 0xa4, 0xa5, 0xa6, 0xa7, 0xa8,
    ];
    expect_entry(&rt, &bytes, MadtEntry::AddressOverride(value));
    expect_layout(&rt, value, &bytes);
}

#[test]
fn x2apic_is_read_and_written(rt: HostRuntime) {
    let value = X2apic {
        x2apic_id: 0xa4a3_a2a1,
        flags: 0xb4b3_b2b1,
        uid: 0xc4c3_c2c1,
    };
    let bytes = [
        0x09, 0x10, 0xff, 0xff, 0xa1, 0xa2, 0xa3, 0xa4, 0xb1, 0xb2, 0xb3, 0xb4, 0xc1, 0xc2, 0xc3,
        0xc4,
    ];
    expect_entry(&rt, &bytes, MadtEntry::X2apic(value));
    expect_layout(&rt, value, &bytes);
}

#[test]
fn x2apic_nmi_is_read_and_written(rt: HostRuntime) {
    let value = X2apicNmi {
        flags: 0xa2a1,
        uid: 0xb4b3_b2b1,
        lint: 0xc1,
    };
    let bytes = [
        0x0a, 0x0c, 0xa1, 0xa2, 0xb1, 0xb2, 0xb3, 0xb4, 0xc1, 0xff, 0xff, 0xff,
    ];
    expect_entry(&rt, &bytes, MadtEntry::X2apicNmi(value));
    expect_layout(&rt, value, &bytes);
}

/// Bytes of other types and other lengths, and whether they are read as opaque.
const OTHERS: [(&[u8], bool); 5] = [
    (&[0x0b, 0x06, 0xa1, 0xa2, 0xa3, 0xa4], true),
    (&[0xff, 0x02], true),
    (&[0x00, 0x06, 0xa1, 0xb1, 0xc1, 0xc2], false),
    (&[0x04, 0x08, 0xa1, 0xb1, 0xb2, 0xc1, 0xc2, 0xc3], false),
    (&[0x0a, 0x02], false),
];

#[test]
fn other_types_are_opaque_and_other_lengths_refused(rt: HostRuntime) {
    for (bytes, is_opaque) in &OTHERS {
        assert!(rt; is_entry(bytes));
        let read = MadtEntry::read(bytes);
        let opaque = is_opaque.then_some(MadtEntry::Opaque(bytes));
        assert!(rt;
            read == opaque.ok_or(Code::MadtEntryLength),
            "{bytes:?}: {read:?}"
        );
        assert!(rt; LocalNmi::read(bytes).is_none(), "{bytes:?}");
    }
    // The bytes of a Local APIC NMI, but with the length byte 8.
    assert!(rt; LocalNmi::read(&[0x04, 0x08, 0xa1, 0xb1, 0xb2, 0xc1]).is_none());
}
