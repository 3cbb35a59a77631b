//! Tests of the entries of the PPTT.

use crate::samples::{expect_layout, is_entry};
use acpi_base::Code;
use acpi_read::{Cache24, Cache28, Layout, NodeHead, PpttEntry};
use std::process::Abort;
use std::test::*;

const HEAD: NodeHead = NodeHead {
    flags: 0xa4a3_a2a1,
    parent: 0xb4b3_b2b1,
    id: 0xc4c3_c2c1,
    count: 2,
};

#[test]
fn node_is_read_and_written(rt: HostRuntime) {
    let bytes = [
        0x00, 0x1c, 0xff, 0xff, 0xa1, 0xa2, 0xa3, 0xa4, 0xb1, 0xb2, 0xb3, 0xb4, 0xc1, 0xc2, 0xc3,
        0xc4, 0x02, 0x00, 0x00, 0x00, 0xd1, 0xd2, 0xd3, 0xd4, 0xe1, 0xe2, 0xe3, 0xe4,
    ];
    let mut head = [0; 20];
    head.copy_from_slice(&bytes[..20]);
    expect_layout(&rt, HEAD, &head);
    assert!(rt; NodeHead::read(&bytes).is_none());
    assert!(rt; PpttEntry::read(&bytes) == Ok(PpttEntry::Node(HEAD, &bytes[20..])));
}

/// A node without private resources, with this length byte and this count of resources.
fn node(length: u8, count: u8) -> [u8; 20] {
    [
        0x00, length, 0x00, 0x00, 0xa1, 0xa2, 0xa3, 0xa4, 0xb1, 0xb2, 0xb3, 0xb4, 0xc1, 0xc2, 0xc3,
        0xc4, count, 0x00, 0x00, 0x00,
    ]
}

/// Whether a node with this length and this count of resources is read.
fn is_node_read(rt: &impl Abort, length: u8, count: u8) -> bool {
    let bytes = node(length, count);
    let is_read = NodeHead::read(&bytes).is_some();
    if is_entry(&bytes) {
        assert!(rt; PpttEntry::read(&bytes).is_ok() == is_read, "{count}");
    }
    is_read
}

#[test]
fn node_has_the_length_of_its_resources(rt: HostRuntime) {
    // 20 + 4 * 64 is 276, whose lowest byte is 0x14.
    for (length, count) in [(0x14, 1), (0x14, 64), (0x18, 0)] {
        assert!(rt; !is_node_read(&rt, length, count), "{length} {count}");
    }
    for (length, count) in [(0x14, 0), (0x18, 1)] {
        assert!(rt; is_node_read(&rt, length, count), "{length} {count}");
    }
}

#[test]
fn cache24_is_read_and_written(rt: HostRuntime) {
    let value = Cache24 {
        flags: 0xa4a3_a2a1,
        next_level: 0xb4b3_b2b1,
        size: 0xc4c3_c2c1,
        sets: 0xd4d3_d2d1,
        associativity: 0xe1,
        attributes: 0xe2,
        line_size: 0xf2f1,
    };
    let bytes = [
        0x01, 0x18, 0xff, 0xff, 0xa1, 0xa2, 0xa3, 0xa4, 0xb1, 0xb2, 0xb3, 0xb4, 0xc1, 0xc2, 0xc3,
        0xc4, 0xd1, 0xd2, 0xd3, 0xd4, 0xe1, 0xe2, 0xf1, 0xf2,
    ];
    assert!(rt; PpttEntry::read(&bytes) == Ok(PpttEntry::Cache24(value)));
    expect_layout(&rt, value, &bytes);
}

#[test]
fn cache28_is_read_and_written(rt: HostRuntime) {
    let fields = Cache24 {
        flags: 0xa4a3_a2a1,
        next_level: 0xb4b3_b2b1,
        size: 0xc4c3_c2c1,
        sets: 0xd4d3_d2d1,
        associativity: 0xe1,
        attributes: 0xe2,
        line_size: 0xf2f1,
    };
    let value = Cache28 {
        fields,
        id: 0x9493_9291,
    };
    let bytes = [
        0x01, 0x1c, 0xff, 0xff, 0xa1, 0xa2, 0xa3, 0xa4, 0xb1, 0xb2, 0xb3, 0xb4, 0xc1, 0xc2, 0xc3,
        0xc4, 0xd1, 0xd2, 0xd3, 0xd4, 0xe1, 0xe2, 0xf1, 0xf2, 0x91, 0x92, 0x93, 0x94,
    ];
    assert!(rt; PpttEntry::read(&bytes) == Ok(PpttEntry::Cache28(value)));
    expect_layout(&rt, value, &bytes);
    assert!(rt; Cache24::read(&bytes[..24]).is_none());
}

/// Bytes of another type and of other lengths, and whether they are read as opaque.
const OTHERS: [(&[u8], bool); 4] = [
    (&[0x02, 0x06, 0xa1, 0xa2, 0xa3, 0xa4], true),
    (&[0x01, 0x06, 0xa1, 0xa2, 0xa3, 0xa4], false),
    (&[0x00, 0x03, 0xa1], false),
    // A node with room for a private resource that it does not count.
    (&NODE, false),
];

const NODE: [u8; 24] = [
    0x00, 0x18, 0x00, 0x00, 0xa1, 0xa2, 0xa3, 0xa4, 0xb1, 0xb2, 0xb3, 0xb4, 0xc1, 0xc2, 0xc3, 0xc4,
    0x00, 0x00, 0x00, 0x00, 0xd1, 0xd2, 0xd3, 0xd4,
];

#[test]
fn other_types_are_opaque_and_other_lengths_refused(rt: HostRuntime) {
    for (bytes, is_opaque) in &OTHERS {
        assert!(rt; is_entry(bytes));
        let read = PpttEntry::read(bytes);
        let opaque = is_opaque.then_some(PpttEntry::Opaque(bytes));
        assert!(rt;
            read == opaque.ok_or(Code::PpttEntryLength),
            "{bytes:?}: {read:?}"
        );
    }
}
