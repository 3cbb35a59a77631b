//! Tests of `acpi_lint`.

use acpi_base::{Code, Image, Policy, Witness};
use acpi_lint::{Advice, Rule, advice_text, lint};
use std::test::*;

#[test]
fn an_image_that_holds_nothing_has_one_fault(rt: HostRuntime) -> Result<(), Fail> {
    let alloc = rt.alloc();
    let image = Image::new(alloc);
    let policy = Policy::new(alloc, 0xe0000, 24)?;
    let found = lint(alloc, &image, &policy)?;
    let faults = [Witness::at(Code::RsdpOut, 0xe0000)];
    assert_eq!(rt; found.faults.as_slice(), faults.as_slice());
    assert!(rt; found.advice.is_empty());
    Ok(())
}

/// An RSDP that names an RSDT at 0x1000. Its signature should end in `R`; then its bytes would sum to 0.
const UNSIGNED: &[u8] = b"RSD PTr \x4bAAAAAA\0\0\x10\0\0";

/// An RSDT that lists 0x2000 twice. Its bytes sum to 0.
const LISTS_TWICE: &[u8] =
    b"RSDT\x2c\0\0\0\x01\xc2AAAAAAAAAAAAAA\x01\0\0\0AAAA\x01\0\0\0\0\x20\0\0\0\x20\0\0";

// The example at the head of `acpi_lint`. There is no table at 0x2000, so both slots have that fault, of which only the
// first is reported, and no slot lists a FADT.
#[test]
fn example_finds_faults_of_three_stages(rt: HostRuntime) -> Result<(), Fail> {
    let alloc = rt.alloc();
    let mut image = Image::new(alloc);
    image.add(0xe0000, UNSIGNED)?;
    image.add(0x1000, LISTS_TWICE)?;
    let policy = Policy::new(alloc, 0xe0000, 24)?;
    let found = lint(alloc, &image, &policy)?;
    let faults = [
        Witness::at(Code::RsdpSignature, 0xe0000),
        Witness::at(Code::RsdpSum, 0xe0000),
        Witness {
            code: Code::TableHeaderOut,
            at: 0,
            other: 0x2000,
            point: 0,
        },
        Witness::at(Code::NoFadt, 0),
    ];
    let advice = [Advice {
        rule: Rule::ListedTwice,
        at: 1,
        other: 0,
        point: 0x2000,
    }];
    assert_eq!(rt; found.faults.as_slice(), faults.as_slice());
    assert_eq!(rt; found.advice.as_slice(), advice.as_slice());
    Ok(())
}

#[test]
fn a_line_of_advice(rt: HostRuntime) -> Result<(), Fail> {
    let advice = Advice {
        rule: Rule::SciNowhere,
        at: 46,
        other: 0,
        point: u64::MAX,
    };
    let line = advice_text(rt.alloc(), &advice)?;
    let wanted = b"advice SciNowhere 0x2e 0x0 0xffffffffffffffff\n";
    assert!(rt; line.as_slice() == wanted.as_slice());
    Ok(())
}
