//! What the number of a finding means, for C: its stage, its severity, its name, and a text that explains it.

ghost use Rattle.std.specs.Prelude.{◌≡◌, ◌+◌, ◌≤◌, ℕ, IfSome, IsNone, List, [], Some, length};
ghost use Rattle.std.specs.List.{slice_get, slice_range};
ghost use Rattle.acpi_lint.specs.Rules.Rows.{rule_name};
ghost use Rattle.acpi_c.specs.Answers.{written_over};
ghost use Rattle.acpi_c.specs.Meanings.{IsNumbered, IsStageOf, IsSeverityOf, IsNameOf, IsNoNumber, IsWrittenTo};

use crate::answer::copy_to;
use crate::explained::{
    CODE_STARTS, CODE_TEXTS, NAME_STARTS, RULE_NAMES, RULE_STARTS, RULE_TEXTS, SEVERITIES,
};
use acpi_base::Code;
use acpi_lint::Rule;

/// What a number is that of.
#[derive(Clone, Copy)]
pub enum Numbered {
    /// A fault code.
    Code(Code),
    /// A rule of advice.
    Rule(Rule),
}

/// What has this number, if anything has it.
fn with_number(number: u32) -> Option<Numbered>
    ensures { IsNumbered number result }
{
    let number = u16::try_from(number).ok()?;
    if let Ok(number) = u8::try_from(number)
        && let Some(code) = Code::new(number)
    {
        return Some(Numbered::Code(code));
    }
    let rule = Rule::new(number)?;
    Some(Numbered::Rule(rule))
}

/// How sure it is that a rule of advice points out a mistake.
#[derive(Clone, Copy)]
pub enum Severity {
    /// Nothing is known to be wrong, but no rule looks at what is there.
    NotLookedAt,
    /// Unusual, but there may be such hardware, or a later standard may define the value.
    LookAtIt,
    /// Almost always a mistake.
    LikelyWrong,
}

impl Severity {
    /// The severity's number for C.
    fn number(self) -> u32
        ensures { (1 ≤ result) × (result ≤ 3) }
    {
        match self {
            Severity::NotLookedAt => 1,
            Severity::LookAtIt => 2,
            Severity::LikelyWrong => 3,
        }
    }
}

/// The severity of a fault for C.
const FAULT: u32 = 4;

/// The stage of the code with this number, 1 to 18. 0 for the number of a rule of advice, and for a number that is
/// neither that of a code nor that of a rule.
#[unsafe(no_mangle)]
pub extern "C" fn acpiset_stage(number: u32) -> u32
    ensures { IsStageOf number result }
{
    match with_number(number) {
        Some(Numbered::Code(code)) => u32::from(code.stage().number()),
        _ => 0,
    }
}

/// The severity of the code or the rule with this number: 4 for a fault; for a rule of advice 3, almost always a
/// mistake, 2, unusual, or 1, not looked at. 0 for a number that is neither that of a code nor that of a rule.
#[unsafe(no_mangle)]
pub extern "C" fn acpiset_severity(number: u32) -> u32
    ensures { IsSeverityOf number result }
{
    match with_number(number) {
        Some(Numbered::Code(_)) => FAULT,
        Some(Numbered::Rule(rule)) => rule_severity(rule).number(),
        None => 0,
    }
}

/// The severity of a rule.
fn rule_severity(rule: Rule) -> Severity {
    let rows = SEVERITIES.as_slice();
    match rows.get(rule.place()) {
        Some(severity) => *severity,
        None => Severity::LikelyWrong,
    }
}

/// One of texts that stand one after another, of which it is known where each begins. A table of references to them would
/// be larger, since the library can be loaded at any address.
// Its code stands once, and not in each of its callers.
#[inline(never)]
fn nth_text(texts: &'static str, starts: &[u32], place: usize) -> &'static [u8]
    ensures { (start end : ℕ) → slice_get starts.now place ≡ Some start
        → slice_get starts.now (place + 1) ≡ Some end → start ≤ end → end ≤ length texts.now
        → result.now ≡ slice_range texts.now start end }
{
    let Some(start) = starts.get(place) else {
        return b"";
    };
    let Some(end) = starts.get(place.saturating_add(1)) else {
        return b"";
    };
    match texts.as_bytes().get(*start as usize..*end as usize) {
        Some(text) => text,
        None => b"",
    }
}

/// The text that explains a code.
fn code_text(code: Code) -> &'static [u8] {
    nth_text(
        CODE_TEXTS,
        CODE_STARTS.as_slice(),
        usize::from(code.number() - 1),
    )
}

/// The text that explains a rule.
fn rule_text(rule: Rule) -> &'static [u8] {
    nth_text(RULE_TEXTS, RULE_STARTS.as_slice(), rule.place())
}

/// The name of a rule.
fn rule_name(rule: Rule) -> &'static [u8]
    ensures { result.now ≡ rule_name rule }
{
    nth_text(RULE_NAMES, NAME_STARTS.as_slice(), rule.place())
}

/// Writes the bytes of a text to the room, as many as fit, and returns how many there are.
#[inline(never)]
fn write_bytes(room: &mut [u8], bytes: &[u8]) -> usize
    ensures { IsWrittenTo bytes.now room.old room.new result }
{
    copy_to(room, bytes);
    bytes.len()
}

/// Writes the name of the code or the rule with this number to the room, as many bytes of it as fit, without a final
/// zero; the rest of the room does not change. Returns how many bytes the name has: 0 for a number that is neither that
/// of a code nor that of a rule.
#[unsafe(no_mangle)]
pub extern "C" fn acpiset_name(number: u32, room: &mut [u8]) -> usize
    ensures { (name : List ℕ) × IsNameOf number name × IsWrittenTo name room.old room.new result }
{
    let name = match with_number(number) {
        Some(Numbered::Code(code)) => code.name().as_bytes(),
        Some(Numbered::Rule(rule)) => rule_name(rule),
        None => b"",
    };
    write_bytes(room, name)
}

/// Writes a text that explains the code or the rule with this number to the room, as many bytes of it as fit, without a
/// final zero; the rest of the room does not change. Returns how many bytes the text has: 0 for a number that is neither
/// that of a code nor that of a rule. The text is for people, and may differ in another version.
#[unsafe(no_mangle)]
pub extern "C" fn acpiset_explain(number: u32, room: &mut [u8]) -> usize
    ensures { (text : List ℕ) × IsWrittenTo text room.old room.new result }
{
    let text = match with_number(number) {
        Some(Numbered::Code(code)) => code_text(code),
        Some(Numbered::Rule(rule)) => rule_text(rule),
        None => b"",
    };
    write_bytes(room, text)
}
