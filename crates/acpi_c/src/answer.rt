//! Results of calls as numbers.

ghost use Rattle.std.specs.Prelude.{◌≡◌, Ok};
ghost use Rattle.acpi_c.specs.Answers.{check_answer, confirm_answer, find_answer, plain_answer, refusal_answer, written_over};

use crate::kind::AnswerKind;
use crate::refusal::Refusal;
use acpi_base::Verdict;

/// A fault, or a finding of advice, as numbers.
#[repr(C)]
#[derive(Clone, Copy)]
pub struct Finding {
    /// The number of the fault's code, from 1 on, or of the rule of advice, from 101 on.
    pub number: u32,
    /// The first number: the meaning of the three depends on the code or the rule. One that is not used is 0.
    pub at: u64,
    /// The second number.
    pub other: u64,
    /// The third number.
    pub point: u64,
}

/// The answer of a call. A number that a kind does not use is 0.
#[repr(C)]
#[derive(Clone, Copy)]
pub struct Answer {
    /// The number of the kind.
    pub kind: u32,
    /// For a fault, except in a confirmation: the stage, 1 to 18.
    pub stage: u32,
    /// For a fault, except in a confirmation: the number of its code, from 1 on.
    pub code: u32,
    /// For a fault: its first number. For a search: the RSDP's address. For all findings: how many faults there are.
    /// For a set that is shown or rebuilt: how many bytes there are. For a refusal: the index of the piece or of the
    /// number of inputs, from 0 on, or the line of the text, from 1 on.
    pub at: u64,
    /// For a fault: its second number. For all findings: how many findings of advice there are. For an overlap: the
    /// lowest address that is covered twice.
    pub other: u64,
    /// For a fault: its third number.
    pub point: u64,
}

impl Answer {
    /// A kind without numbers.
    pub fn plain(kind: AnswerKind) -> Answer
        ensures { result ≡ plain_answer kind }
    {
        Answer {
            kind: kind.number(),
            stage: 0,
            code: 0,
            at: 0,
            other: 0,
            point: 0,
        }
    }

    /// A kind with a first number.
    pub fn with_at(kind: AnswerKind, at: u64) -> Answer
        ensures { result ≡ record (plain_answer kind) { at = at } }
    {
        Answer {
            at,
            ..Answer::plain(kind)
        }
    }

    /// A kind with two numbers.
    pub fn with_two(kind: AnswerKind, at: u64, other: u64) -> Answer
        ensures { result ≡ record (plain_answer kind) { at = at; other = other } }
    {
        Answer {
            at,
            other,
            ..Answer::plain(kind)
        }
    }
}

impl From<Refusal> for Answer {
    ghost from_gives = { λ refusal answer. answer ≡ refusal_answer refusal };

    fn from(refusal: Refusal) -> Answer {
        match refusal {
            Refusal::OutOfMemory => Answer::plain(AnswerKind::OutOfMemory),
            Refusal::Size => Answer::plain(AnswerKind::BadSize),
            Refusal::DefaultInputs => Answer::plain(AnswerKind::BadDefaultInputs),
            Refusal::HotPlug => Answer::plain(AnswerKind::BadHotPlug),
            Refusal::Processors => Answer::plain(AnswerKind::BadProcessors),
            Refusal::Inputs { index } => Answer::with_at(AnswerKind::BadInputs, index),
            Refusal::Stage => Answer::plain(AnswerKind::BadStage),
            Refusal::Code => Answer::plain(AnswerKind::BadCode),
            Refusal::PiecePastEnd { index } => Answer::with_at(AnswerKind::PiecePastEnd, index),
            Refusal::PiecesOverlap { index, address } => {
                Answer::with_two(AnswerKind::PiecesOverlap, index, address)
            }
            Refusal::BadLine { line } => Answer::with_at(AnswerKind::BadLine, line),
            Refusal::NoAddress { line } => Answer::with_at(AnswerKind::NoAddress, line),
            Refusal::TextOverlap { address } => Answer::with_two(
                AnswerKind::TextOverlap,
                0,
                address,
            ),
            Refusal::TextPastEnd { line } => Answer::with_at(AnswerKind::TextPastEnd, line),
            Refusal::TextTooLong => Answer::plain(AnswerKind::TextTooLong),
            Refusal::Unaligned => Answer::plain(AnswerKind::Unaligned),
            Refusal::TableTooLong => Answer::plain(AnswerKind::TableTooLong),
            Refusal::PastEnd => Answer::plain(AnswerKind::PastEnd),
            Refusal::NeedsLow => Answer::plain(AnswerKind::NeedsLow),
        }
    }
}

impl From<Verdict> for Answer {
    ghost from_gives = { λ verdict answer. answer ≡ check_answer (Ok verdict) };

    fn from(verdict: Verdict) -> Answer {
        match verdict {
            Verdict::Yes => Answer::plain(AnswerKind::Yes),
            Verdict::No(fault) => Answer {
                kind: AnswerKind::No.number(),
                stage: u32::from(fault.code.stage().number()),
                code: u32::from(fault.code.number()),
                at: fault.at,
                other: fault.other,
                point: fault.point,
            },
        }
    }
}

/// The answer to a question.
pub fn yes_or_no(is_so: bool) -> Answer
    ensures { result ≡ confirm_answer (Ok is_so) }
{
    Answer::plain(if is_so {
        AnswerKind::Yes
    } else {
        AnswerKind::No
    })
}

/// The answer of a search for the RSDP.
pub fn found(address: Option<u64>) -> Answer
    ensures { result ≡ find_answer (Ok address) }
{
    match address {
        Some(address) => Answer::with_at(AnswerKind::Yes, address),
        None => Answer::plain(AnswerKind::No),
    }
}

/// Copies these to the caller's room, as many as fit.
pub fn copy_to<T: Copy>(room: &mut [T], all: &[T])
    ensures { room.new ≡ written_over all.now room.old }
{
    let count = room.len().min(all.len());
    room[..count].copy_from_slice(&all[..count]);
}
