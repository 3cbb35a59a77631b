//! Which part of a value of `--witness` is wrong.

use crate::number_words::{decimal_number, hex_number};
use acpi_base::Code;
use std::fmt;

/// The most bytes of a text that are examined. No fault's text has as many, and a longer argument is printed without
/// its end.
const MOST_BYTES: usize = 200;

/// What is wrong with a text that is no fault's.
#[derive(Clone, Copy)]
pub enum WitnessFault<'a> {
    /// It is nothing like a fault.
    Unlike,
    /// It begins with `no`, as a line of `check` does.
    LeadingNo,
    /// It is `no` alone.
    OnlyNo,
    /// It is advice.
    Advice,
    /// It begins or ends with a space, or has two of them together.
    Spaces,
    /// It has fewer than five parts.
    FewParts,
    /// It has more than five parts.
    ManyParts,
    /// No fault has this name. One may have it in other letters.
    Name { name: &'a str, meant: Option<Code> },
    /// The code is not of this stage.
    Stage { code: Code, stage: &'a str },
    /// This is no number as a fault has it.
    Number { text: &'a str },
}

impl<'a> WitnessFault<'a> {
    /// What is wrong with a text that is no fault's.
    pub fn new(text: &'a str) -> WitnessFault<'a> {
        if text == "no" {
            WitnessFault::OnlyNo
        } else if text.starts_with("no ") {
            WitnessFault::LeadingNo
        } else if text.starts_with("advice ") {
            WitnessFault::Advice
        } else if text.is_empty() || text.len() > MOST_BYTES {
            WitnessFault::Unlike
        } else if text.split(' ').any(|part| part.is_empty()) {
            WitnessFault::Spaces
        } else {
            of_parts(text)
        }
    }

    /// A tip, if there is one.
    pub fn tip(&self) -> Option<&'static str> {
        match self {
            WitnessFault::OnlyNo | WitnessFault::FewParts => {
                Some(
                    "put the whole fault in quotation marks, as in --witness '10 Overlap 0x30 0x58 0x0'",
                )
            }
            _ => None,
        }
    }
}

/// What is wrong with a text with a space between each two parts.
fn of_parts(text: &str) -> WitnessFault<'_> {
    let mut parts = text.split(' ');
    let head = (parts.next(), parts.next());
    let numbers = (parts.next(), parts.next(), parts.next());
    let ((Some(stage), Some(name)), (Some(at), Some(other), Some(point))) = (head, numbers) else {
        return WitnessFault::FewParts;
    };
    if parts.next().is_some() {
        return WitnessFault::ManyParts;
    }
    let Some(code) = code_named(name, false) else {
        let meant = code_named(name, true);
        return WitnessFault::Name { name, meant };
    };
    if !is_stage(stage, code) {
        return WitnessFault::Stage { code, stage };
    }
    match [at, other, point]
        .into_iter()
        .find(|number| !is_number(number))
    {
        Some(text) => WitnessFault::Number { text },
        None => WitnessFault::Unlike,
    }
}

/// The code with this name, in letters of either case if `ignores_case`.
fn code_named(name: &str, ignores_case: bool) -> Option<Code> {
    (1..=u8::MAX).filter_map(Code::new).find(|code| {
        code.name() == name || ignores_case && code.name().eq_ignore_ascii_case(name)
    })
}

/// Whether a text is the number of the code's stage, in decimal without leading zeros.
fn is_stage(text: &str, code: Code) -> bool {
    decimal_number(text, 2) == Some(u64::from(code.stage().number())) && !text.starts_with('0')
}

/// Whether a text is a number of 64 bits as a fault has it: `0x`, and digits in lower case without leading zeros.
fn is_number(text: &str) -> bool {
    let Some(digits) = text.strip_prefix("0x") else {
        return false;
    };
    let is_lower = digits
        .bytes()
        .all(|digit| matches!(digit, b'0'..=b'9' | b'a'..=b'f'));
    is_lower && hex_number(digits, 16).is_some() && (digits == "0" || !digits.starts_with('0'))
}

impl fmt::Display for WitnessFault<'_> {
    fn fmt<W: fmt::Write>(&self, f: &mut fmt::Formatter<W>) -> fmt::Result {
        match self {
            WitnessFault::Unlike => f.write_str(
                "expected a fault as check prints it after no, as in '10 Overlap 0x30 0x58 0x0'",
            ),
            WitnessFault::LeadingNo | WitnessFault::OnlyNo => f.write_str(
                "leave out the leading no",
            ),
            WitnessFault::Advice => f.write_str(
                "advice is not a fault, and confirm judges only faults",
            ),
            WitnessFault::Spaces => f.write_str(
                "expected one space between two parts, and none at either end",
            ),
            WitnessFault::FewParts => f.write_str(
                "too few parts: expected a stage, a name and three numbers",
            ),
            WitnessFault::ManyParts => f.write_str(
                "too many parts: expected a stage, a name and three numbers",
            ),
            WitnessFault::Name { name, meant } => write_name(f, name, *meant),
            WitnessFault::Stage { code, stage } => {
                let right = code.stage().number();
                write!(
                    f,
                    "{} is a fault of stage {right}, not '{stage}'",
                    code.name()
                )
            }
            WitnessFault::Number { text } => write!(
                f,
                "'{text}' is not a number as check prints it: 0x and at most 16 digits in lower case, without leading zeros"
            ),
        }
    }
}

/// Writes that no fault has this name, and which has it in other letters.
fn write_name<W: fmt::Write>(
    f: &mut fmt::Formatter<W>,
    name: &str,
    meant: Option<Code>,
) -> fmt::Result {
    write!(f, "no fault is named '{name}'")?;
    match meant {
        Some(code) => write!(f, ": write {}", code.name()),
        None => Ok(()),
    }
}
