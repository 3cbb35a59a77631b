//! Tests of tables written as bytes.

ghost use Rattle.std.specs.Prelude.{◌+◌, ◌^◌, ◌<◌, length};

use crate::samples::{PLAIN, header_before};
use acpi_read::{Cache24, IoApic, MadtEntry, MemoryRange, NodeHead, PpttEntry, SratEntry};
use acpi_write::{Head, TableValue, WriteFault, encode_table};
use std::alloc::{AllocError, Global};
use std::process::Abort;
use std::test::Fail;

/// A head whose names are all `A`, of revision 1.
fn head() -> Head {
    Head {
        revision: 1,
        oemid: *b"AAAAAA",
        oem_table_id: *b"AAAAAAAA",
        oem_revision: 1,
        creator_id: 0x4141_4141,
        creator_revision: 1,
    }
}

// The checksum by hand: the other bytes sum to 2313, and 2313 + 247 = 10 * 256.
#[test]
fn a_slit_of_one_cell(rt: HostRuntime) -> Result<(), Fail> {
    let slit = TableValue::Slit {
        head: head(),
        count: 1,
        cells: &[10],
    };
    let expected = [
        0x53, 0x4c, 0x49, 0x54, 0x2d, 0, 0, 0, 1, 0xf7, 0x41, 0x41, 0x41, 0x41, 0x41, 0x41, 0x41,
        0x41, 0x41, 0x41, 0x41, 0x41, 0x41, 0x41, 1, 0, 0, 0, 0x41, 0x41, 0x41, 0x41, 1, 0, 0, 0,
        1, 0, 0, 0, 0, 0, 0, 0, 0x0a,
    ];
    let bytes = encode_table(rt.alloc(), &slit)?;
    assert!(rt; bytes.as_slice() == expected.as_slice(), "{bytes:?}");
    Ok(())
}

/// The value is written as the table of this signature with this body.
fn expect_table(
    rt: &impl Abort,
    alloc: Global,
    value: TableValue<'_>,
    signature: [u8; 4],
    body: &[u8],
) -> Result<(), WriteFault>
    requires { 36 + length body.now < 2 ^ 32 }
{
    let bytes = encode_table(alloc, &value)?;
    assert!(rt; bytes.get(36..) == Some(body), "{bytes:?}");
    assert!(rt; bytes.starts_with(&header_before(&PLAIN, signature, body)));
    Ok(())
}

// Reserved bytes are 0; an entry of a type without a meaning is kept.
#[test]
fn a_madt_of_two_entries(rt: HostRuntime) -> Result<(), Fail> {
    let io_apic = IoApic {
        id: 2,
        address: 0xfec0_0000,
        gsi_base: 24,
    };
    let kept = MadtEntry::Opaque(&[0x0b, 4, 0xee, 0xff]);
    let madt = TableValue::Madt {
        head: head(),
        address: 0xfee0_0000,
        flags: 1,
        entries: vec![in rt.alloc(); MadtEntry::IoApic(io_apic), kept]?,
    };
    let body = [
        0, 0, 0xe0, 0xfe, 1, 0, 0, 0, 1, 12, 2, 0, 0, 0, 0xc0, 0xfe, 24, 0, 0, 0, 0x0b, 4, 0xee,
        0xff,
    ];
    Ok(expect_table(&rt, rt.alloc(), madt, *b"APIC", &body)?)
}

// The SRAT's 4 reserved bytes at 36 are 1 (ACPI 6.5, 5.2.16).
#[test]
fn an_srat_of_a_range(rt: HostRuntime) -> Result<(), Fail> {
    let range = MemoryRange {
        domain: 3,
        base: 0x10_0000,
        size: 0x2000,
        flags: 1,
    };
    let srat = TableValue::Srat {
        head: head(),
        entries: vec![in rt.alloc(); SratEntry::MemoryRange(range)]?,
    };
    let body = [
        1, 0, 0, 0, 0, 0, 0, 0, 0, 0, 0, 0, 1, 40, 3, 0, 0, 0, 0, 0, 0, 0, 0x10, 0, 0, 0, 0, 0, 0,
        0x20, 0, 0, 0, 0, 0, 0, 0, 0, 0, 0, 1, 0, 0, 0, 0, 0, 0, 0, 0, 0, 0, 0,
    ];
    Ok(expect_table(&rt, rt.alloc(), srat, *b"SRAT", &body)?)
}

#[test]
fn a_pptt_of_a_node_and_a_cache(rt: HostRuntime) -> Result<(), Fail> {
    let node = NodeHead {
        flags: 10,
        parent: 0,
        id: 5,
        count: 1,
    };
    let cache = Cache24 {
        flags: 0x7f,
        next_level: 0,
        size: 0x8000,
        sets: 64,
        associativity: 8,
        attributes: 2,
        line_size: 64,
    };
    let node = PpttEntry::Node(node, &[60, 0, 0, 0]);
    let pptt = TableValue::Pptt {
        head: head(),
        entries: vec![in rt.alloc(); node, PpttEntry::Cache24(cache)]?,
    };
    let body = [
        0, 24, 0, 0, 10, 0, 0, 0, 0, 0, 0, 0, 5, 0, 0, 0, 1, 0, 0, 0, 60, 0, 0, 0, 1, 24, 0, 0,
        0x7f, 0, 0, 0, 0, 0, 0, 0, 0, 0x80, 0, 0, 64, 0, 0, 0, 8, 2, 64, 0,
    ];
    Ok(expect_table(&rt, rt.alloc(), pptt, *b"PPTT", &body)?)
}

/// Why the value is not written, if it is refused.
fn fault_of(alloc: Global, value: TableValue<'_>) -> Option<WriteFault> {
    encode_table(alloc, &value).err()
}

/// The error for a MADT with an entry that is kept as these bytes.
fn fault_of_kept(alloc: Global, bytes: &[u8]) -> Result<Option<WriteFault>, AllocError> {
    let madt = TableValue::Madt {
        head: head(),
        address: 0,
        flags: 0,
        entries: vec![in alloc; MadtEntry::Opaque(bytes)]?,
    };
    Ok(fault_of(alloc, madt))
}

/// The error for a FADT with this body.
fn fault_of_body(alloc: Global, body: &[u8]) -> Result<Option<WriteFault>, AllocError> {
    let fadt = TableValue::Fadt {
        head: head(),
        body: Vec::from_slice(alloc, body)?,
    };
    Ok(fault_of(alloc, fadt))
}

#[test]
fn values_of_another_shape(rt: HostRuntime) -> Result<(), Fail> {
    let alloc = rt.alloc();
    let slit = TableValue::Slit {
        head: head(),
        count: 2,
        cells: &[10, 20, 20],
    };
    let faults = [
        fault_of(alloc, slit),
        fault_of(alloc, TableValue::Other { bytes: b"HPET" }),
        fault_of_kept(alloc, &[0, 8, 0, 0, 0, 0, 0, 0])?,
        fault_of_kept(alloc, &[0x0b, 3])?,
        fault_of_body(alloc, &[0; 79])?,
    ];
    assert!(rt; faults == [Some(WriteFault::Shape); 5], "{faults:?}");
    Ok(())
}

/// Errors, and their messages.
const TEXTS: [(WriteFault, &str); 3] = [
    (WriteFault::Shape, "no bytes for the value"),
    (WriteFault::TooLong, "table too long"),
    (WriteFault::Memory, "out of memory"),
];

#[test]
fn texts_of_faults(rt: HostRuntime) -> Result<(), Fail> {
    for (fault, wanted) in &TEXTS {
        let text = fault.to_string(rt.alloc())?;
        assert!(rt; text.as_str() == *wanted, "{text}");
    }
    Ok(())
}
