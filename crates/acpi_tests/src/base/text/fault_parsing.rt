//! Tests of faults read from their text.

use acpi_base::{Code, Witness, parse_witness};

/// Texts, and the fault of each by its code's number.
const FAULTS: [(&str, u8, u64, u64, u64); 3] = [
    ("10 Overlap 0x30 0x58 0x0", 45, 0x30, 0x58, 0),
    ("1 RsdpOut 0xe0000 0x0 0x0", 1, 0xe0000, 0, 0),
    (
        "18 LeafUnknown 0xffffffffffffffff 0xffffffffffffffff 0xffffffffffffffff",
        59,
        u64::MAX,
        u64::MAX,
        u64::MAX,
    ),
];

#[test]
fn texts_that_are_read(rt: HostRuntime) {
    for (text, number, at, other, point) in &FAULTS {
        let wanted = Witness {
            code: Code::new(*number).expect(&rt, "a code"),
            at: *at,
            other: *other,
            point: *point,
        };
        assert!(rt; parse_witness(text.as_bytes()) == Some(wanted), "{text}");
    }
}

/// Texts of no fault.
const OTHERS: [&str; 15] = [
    "",
    "10 Overlap 0x30 0x58",
    "10 Overlap 0x30 0x58 0x0 ",
    "10 Overlap 0x30 0x58 0x0\n",
    " 10 Overlap 0x30 0x58 0x0",
    "10  Overlap 0x30 0x58 0x0",
    "9 Overlap 0x30 0x58 0x0",
    "010 Overlap 0x30 0x58 0x0",
    "10 overlap 0x30 0x58 0x0",
    "10 Overlap 0x030 0x58 0x0",
    "10 Overlap 0X30 0x58 0x0",
    "10 Overlap 0x3A 0x58 0x0",
    "10 Overlap 0x 0x58 0x0",
    "10 Overlap 30 0x58 0x0",
    "10 Overlap 0x10000000000000000 0x58 0x0",
];

#[test]
fn texts_that_are_not(rt: HostRuntime) {
    for text in &OTHERS {
        assert!(rt; parse_witness(text.as_bytes()).is_none(), "{text}");
    }
}
