//! Tests of the texts of faults and verdicts.

use acpi_base::{Code, Verdict, Witness, verdict_text, witness_text};
use std::alloc::AllocError;
use std::process::Abort;

/// A fault of the code with this number.
fn fault(rt: &impl Abort, number: u8, at: u64, other: u64, point: u64) -> Witness {
    Witness {
        code: Code::new(number).expect(rt, "a code"),
        at,
        other,
        point,
    }
}

/// Faults by the numbers of their codes, and the text of each.
const FAULTS: [(u8, u64, u64, u64, &str); 4] = [
    (45, 0x30, 0x58, 0, "10 Overlap 0x30 0x58 0x0"),
    (1, 0xe0000, 0, 0, "1 RsdpOut 0xe0000 0x0 0x0"),
    (19, 0, 0, 0, "4 NoFadt 0x0 0x0 0x0"),
    (
        59,
        u64::MAX,
        u64::MAX,
        u64::MAX,
        "18 LeafUnknown 0xffffffffffffffff 0xffffffffffffffff 0xffffffffffffffff",
    ),
];

#[test]
fn texts_of_faults(rt: HostRuntime) -> Result<(), AllocError> {
    for (number, at, other, point, wanted) in &FAULTS {
        let fault = fault(&rt, *number, *at, *other, *point);
        let text = witness_text(rt.alloc(), &fault)?;
        assert!(rt; text.as_slice() == wanted.as_bytes(), "{wanted}");
    }
    Ok(())
}

#[test]
fn lines_of_verdicts(rt: HostRuntime) -> Result<(), AllocError> {
    let no = Verdict::No(fault(&rt, 39, 0x2c, 0x38, 0x18));
    let lines = [
        (Verdict::Yes, "yes\n"),
        (no, "no 7 GsiClash 0x2c 0x38 0x18\n"),
    ];
    for (verdict, wanted) in &lines {
        let text = verdict_text(rt.alloc(), verdict)?;
        assert!(rt; text.as_slice() == wanted.as_bytes(), "{wanted}");
    }
    Ok(())
}
