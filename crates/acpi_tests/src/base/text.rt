//! Tests of the texts of errors, and of the modules on texts.

mod fault_parsing;
mod fault_text;
mod image_text;
mod written_text;

use acpi_base::{DeviceFailed, ImageFault, TextFault};
use std::alloc::AllocError;

/// Faults of each kind, and the message of each.
const FAULTS: [(TextFault, &str); 9] = [
    (TextFault::BadLine { line: 1 }, "line 1: bad line"),
    (TextFault::NoAddress { line: 10 }, "line 10: no address"),
    (
        TextFault::Twice {
            address: 0xfec0_abcd,
        },
        "address 0xfec0abcd twice",
    ),
    (TextFault::Twice { address: 0 }, "address 0x0 twice"),
    (
        TextFault::Twice { address: u64::MAX },
        "address 0xffffffffffffffff twice",
    ),
    (
        TextFault::PastEnd { line: 4_000_000 },
        "line 4000000: past the end",
    ),
    (TextFault::TooLong, "too long"),
    (TextFault::Read, "device"),
    (TextFault::Memory, "out of memory"),
];

#[test]
fn texts_of_text_faults(rt: HostRuntime) -> Result<(), AllocError> {
    for (fault, wanted) in &FAULTS {
        let text = format!(in rt.alloc(); "{fault}")?;
        assert!(rt; text.as_str() == *wanted, "{text}");
    }
    let text = format!(in rt.alloc(); "{DeviceFailed}")?;
    assert!(rt; text.as_str() == "device");
    Ok(())
}

/// Why bytes cannot be added, and the message of each.
const IMAGE_FAULTS: [(ImageFault, &str); 3] = [
    (ImageFault::PastEnd, "past the end"),
    (
        ImageFault::Twice {
            address: 0xfec0_abcd,
        },
        "address 0xfec0abcd twice",
    ),
    (ImageFault::Memory, "out of memory"),
];

#[test]
fn texts_of_image_faults(rt: HostRuntime) -> Result<(), AllocError> {
    for (fault, wanted) in &IMAGE_FAULTS {
        let text = format!(in rt.alloc(); "{fault}")?;
        assert!(rt; text.as_str() == *wanted, "{text}");
    }
    Ok(())
}
