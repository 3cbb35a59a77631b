//! Tests of the exported functions on settings, overlapping pieces and one fault.

use crate::answer::{Answer, Finding};
use crate::check::{acpiset_check, acpiset_check_text};
use crate::confirm::acpiset_confirm;
use crate::kind::AnswerKind;
use crate::lint::acpiset_lint;
use crate::pieces::Piece;
use crate::settings::{Inputs, Settings};
use std::alloc::{AllocError, Global};
use std::process::Abort;
use std::test::*;

/// The usual settings, with the RSDP at 0xE0000.
const SETTINGS: Settings = Settings {
    size: 32,
    rsdp: 0xe0000,
    default_inputs: 24,
    hotplug: 0,
    processors: 0,
    through: 18,
};

/// Settings, numbers of inputs, and the kind of the answer for no pieces.
type Refused = (Settings, &'static [Inputs], AnswerKind);

/// Settings that are refused, each for the first wrong number.
const REFUSED: [Refused; 5] = [
    (
        Settings {
            size: 31,
            default_inputs: 0,
            ..SETTINGS
        },
        &[],
        AnswerKind::BadSize,
    ),
    (
        Settings {
            default_inputs: 257,
            hotplug: 2,
            ..SETTINGS
        },
        &[],
        AnswerKind::BadDefaultInputs,
    ),
    (
        Settings {
            hotplug: 2,
            processors: 2,
            ..SETTINGS
        },
        &[],
        AnswerKind::BadHotPlug,
    ),
    (
        Settings {
            through: 19,
            ..SETTINGS
        },
        &[Inputs {
            address: 0xfec00000,
            count: 0,
        }],
        AnswerKind::BadInputs,
    ),
    (
        Settings {
            through: 18 + 256,
            ..SETTINGS
        },
        &[],
        AnswerKind::BadStage,
    ),
];

/// The answer, unless memory ran out.
fn answered(answer: Answer) -> Result<Answer, AllocError> {
    if answer.kind == AnswerKind::OutOfMemory.number() {
        return Err(AllocError);
    }
    Ok(answer)
}

#[test]
fn settings_are_refused(rt: HostRuntime) {
    for (settings, inputs, kind) in &REFUSED {
        let answer = acpiset_check(rt.alloc(), &[], inputs, settings);
        assert!(rt; answer.kind == kind.number());
    }
}

/// The second piece has an address of the first one.
fn refuse_an_overlap(rt: &impl Abort, alloc: Global) -> Result<(), AllocError> {
    let pieces = [
        Piece {
            address: 0x1000,
            bytes: &[1, 2],
        },
        Piece {
            address: 0xfff,
            bytes: &[3, 4],
        },
    ];
    let answer = answered(acpiset_check(alloc, &pieces, &[], &SETTINGS))?;
    assert!(rt; answer.kind == AnswerKind::PiecesOverlap.number());
    assert!(rt; answer.at == 1);
    assert!(rt; answer.other == 0x1000);
    Ok(())
}

/// An image without an RSDP has one fault, which is reported by each call.
fn report_a_fault(rt: &impl Abort, alloc: Global) -> Result<(), AllocError> {
    let none = Finding {
        number: 0,
        at: 0,
        other: 0,
        point: 0,
    };
    let mut findings = [none; 2];
    let answer = answered(acpiset_check_text(alloc, b"@1000\n01 02\n", &[], &SETTINGS))?;
    assert!(rt; answer.kind == AnswerKind::No.number() && answer.code == 1);
    let answer = answered(acpiset_lint(alloc, &[], &[], &SETTINGS, &mut findings))?;
    assert!(rt; answer.kind == AnswerKind::No.number() && answer.at == 1);
    assert!(rt; findings[0].number == 1 && findings[0].at == 0xe0000);
    assert!(rt; findings[1].number == 0);
    let answer = answered(acpiset_confirm(alloc, &[], &[], &SETTINGS, &findings[0]))?;
    assert!(rt; answer.kind == AnswerKind::Yes.number());
    Ok(())
}

#[test]
fn calls_answer(rt: HostRuntime) -> Result<(), Fail> {
    refuse_an_overlap(&rt, rt.alloc())?;
    report_a_fault(&rt, rt.alloc())?;
    Ok(())
}
