//! Tests of numbers and bytes at an offset.

use acpi_base::field::*;
use std::test::*;

#[test]
fn numbers_are_little_endian(rt: HostRuntime) {
    let bytes = [0xff, 0x21, 0x43, 0x65, 0x87, 0xa9, 0xcb, 0xed, 0x0f];
    assert!(rt; u8_at(&bytes, 1) == 0x21);
    assert!(rt; u16_at(&bytes, 1) == 0x4321);
    assert!(rt; u32_at(&bytes, 1) == 0x8765_4321);
    assert!(rt; u64_at(&bytes, 1) == 0x0fed_cba9_8765_4321);
    assert!(rt; number_at(&bytes, 1, 3) == 0x65_4321);
    assert!(rt; array_at(&bytes, 1) == [0x21, 0x43]);
}

#[test]
fn values_are_written_in_order(rt: HostRuntime) {
    let mut out = [0xff; 19];
    put_values(
        &mut out,
        &[
            Value::U8(0x21),
            Value::U16(0x4321),
            Value::Zeros(1),
            Value::U32(0x8765_4321),
            Value::Bytes(b"ACP"),
            Value::U64(0x0fed_cba9_8765_4321),
        ],
    );
    let expected = [
        0x21, 0x21, 0x43, 0, 0x21, 0x43, 0x65, 0x87, b'A', b'C', b'P', 0x21, 0x43, 0x65, 0x87,
        0xa9, 0xcb, 0xed, 0x0f,
    ];
    assert!(rt; out == expected, "{out:?}");
}

#[test]
fn signatures_are_compared_whole(rt: HostRuntime) {
    assert!(rt; is_signed(b"FACP\xf4", b"FACP"));
    assert!(rt; !is_signed(b"FACS\x40", b"FACP"));
    assert!(rt; !is_signed(b"FAC", b"FACP"));
}
