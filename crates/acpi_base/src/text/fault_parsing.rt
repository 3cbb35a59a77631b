//! Faults read from their text.

ghost use Rattle.std.specs.Prelude.{◌≡◌, ◌<◌, ◌+◌, ◌∷◌, ◌++◌, ◌^◌, ◌↔◌, ℕ, IsTrue, IfSome, Some, MatchOption, true, false, decimal};
ghost use Rattle.std.specs.List.{list_all};
ghost use Rattle.std.specs.Fmt.{digits, digit_glyph};
ghost use Rattle.acpi_base.specs.Laws.{NumbersFit};
ghost use Rattle.acpi_base.specs.Text.WitnessText.{hex_text, witness_line, is_no_blank, AreWords, IsHead};
ghost use Rattle.acpi_base.specs.declared.code.Code.{Code};
ghost use Rattle.acpi_base.specs.declared.witness.Witness.{Witness};

use crate::code::Code;
use crate::text::image_text::line::number_value;
use crate::witness::Witness;
use itoa::Buffer;

/// Parses a fault as `witness_text` writes it: `10 Overlap 0x30 0x58 0x0`. Returns `None` for any other text, including
/// one with another code's stage, an extra blank, leading zeros or upper case digits. Takes no memory.
pub fn parse_witness(text: &[u8]) -> Option<Witness>
    ensures text { IfSome result (λ w. text.now ≡ witness_line w) }
    ensures every { (w : Witness) → NumbersFit w → text.now ≡ witness_line w → result ≡ Some w }
{
    let words = split_words(text)?;
    Some(Witness {
        code: code_with(words.stage, words.name)?,
        at: hex_value(words.at)?,
        other: hex_value(words.other)?,
        point: hex_value(words.point)?,
    })
}

/// The words of a fault's text.
#[derive(Clone, Copy)]
struct Words<'a> {
    stage: &'a [u8],
    name: &'a [u8],
    at: &'a [u8],
    other: &'a [u8],
    point: &'a [u8],
}

/// The parts before, between and after the first four blanks.
fn split_words(text: &[u8]) -> Option<Words<'_>>
    ensures { MatchOption result ((w : Witness) → NumbersFit w → ¬ (text.now ≡ witness_line w))
        (λ words. AreWords text.now words.stage.now words.name.now words.at.now words.other.now
        words.point.now) }
{
    let (stage, rest) = split_word(text)?;
    let (name, rest) = split_word(rest)?;
    let (at, rest) = split_word(rest)?;
    let (other, point) = split_word(rest)?;
    Some(Words {
        stage,
        name,
        at,
        other,
        point,
    })
}

/// The parts before and after the first blank.
fn split_word(text: &[u8]) -> Option<(&[u8], &[u8])>
    ensures { MatchOption result (list_all is_no_blank text.now ≡ true)
        (λ parts. (list_all is_no_blank parts.0.now ≡ true)
        × (text.now ≡ parts.0.now ++ (32 ∷ parts.1.now))) }
{
    for i in 0..text.len() {
        if text[i] == b' ' {
            return Some((&text[..i], &text[i + 1..]));
        }
    }
    None
}

/// The code with this name, if this is its stage in decimal.
fn code_with(stage: &[u8], name: &[u8]) -> Option<Code>
    ensures { MatchOption result ((code : Code) → ¬ IsHead stage.now name.now code)
        (IsHead stage.now name.now) }
{
    let mut number = 1;
    while let Some(code) = Code::new(number) {
        if is_head(stage, name, code) {
            return Some(code);
        }
        number += 1;
    }
    None
}

/// Whether these are the stage and the name of this code.
fn is_head(stage: &[u8], name: &[u8], code: Code) -> bool
    ensures { IsTrue result ↔ IsHead stage.now name.now code }
{
    name == code.name().as_bytes() && is_decimal(stage, code.stage().number())
}

/// Whether a text is a number in decimal.
fn is_decimal(text: &[u8], number: u8) -> bool
    ensures { IsTrue result ↔ (text.now ≡ decimal number) }
{
    let mut buffer = Buffer::new();
    text == buffer.format(number).as_bytes()
}

/// The number with this text: `0x` and its digits in lower case hex, without leading zeros.
fn hex_value(text: &[u8]) -> Option<u64>
    ensures { MatchOption result ((number : ℕ) → number < 2 ^ 64 → ¬ (text.now ≡ hex_text number))
        (λ number. (number < 2 ^ 64) × (text.now ≡ hex_text number)) }
{
    if !text.starts_with(b"0x") {
        return None;
    }
    let digits = &text[2..];
    if digits.len() > 16 {
        return None;
    }
    let number = number_value(digits);
    if !spells(digits, number) {
        return None;
    }
    Some(number)
}

/// Whether the text is this number in hex digits.
#[tactic(auto, using(crate::proofs::Texts::HexTexts::hex_last, crate::proofs::Texts::HexTexts::hex_next))]
fn spells(text: &[u8], number: u64) -> bool
    ensures { IsTrue result ↔ (text.now ≡ digits 16 false number) }
{
    match text.split_last() {
        Some((last, front)) if number < 16 => front.is_empty() && *last == hex_digit(number),
        Some((last, front)) => *last == hex_digit(number % 16) && spells(front, number / 16),
        None => false,
    }
}

/// The digit for a number below 16.
fn hex_digit(number: u64) -> u8
    requires { number < 16 }
    ensures { result ≡ digit_glyph false number }
{
    let number = number as u8;
    if number < 10 {
        b'0' + number
    } else {
        b'a' + number - 10
    }
}
