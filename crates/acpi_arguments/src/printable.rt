//! Arguments as error messages print them: without hidden characters, and not too long.

ghost use Rattle.std.specs.Prelude.{◌≡◌, ◌<◌, ◌^◌, ◌++◌, IfOk, OnOk};
ghost use Rattle.std.specs.Char.{digit_char};
ghost use Rattle.std.specs.String.{string_bytes};
ghost use Rattle.acpi_arguments.specs.Printable.{ArePrinted, IsPrinted, escape, hex_byte, is_hidden, is_within, visible};

use std::alloc::{AllocError, Global};

/// How many bytes of an argument are printed.
const MOST_BYTES: usize = 200;

/// Hidden characters other than control characters, as ranges of codes (`hidden_ranges`).
const HIDDEN: [(u32, u32); 25] = [
    (0xad, 0xad),
    (0x34f, 0x34f),
    (0x600, 0x605),
    (0x61c, 0x61c),
    (0x6dd, 0x6dd),
    (0x70f, 0x70f),
    (0x890, 0x891),
    (0x8e2, 0x8e2),
    (0x115f, 0x1160),
    (0x17b4, 0x17b5),
    (0x180b, 0x180f),
    (0x200b, 0x200f),
    (0x2028, 0x202e),
    (0x2060, 0x206f),
    (0x3164, 0x3164),
    (0xfe00, 0xfe0f),
    (0xfeff, 0xfeff),
    (0xffa0, 0xffa0),
    (0xfff0, 0xfffb),
    (0x110bd, 0x110bd),
    (0x110cd, 0x110cd),
    (0x13430, 0x1343f),
    (0x1bca0, 0x1bca3),
    (0x1d173, 0x1d17a),
    (0xe0000, 0xe0fff),
];

/// The arguments as error messages print them, each by `printable_text`.
pub fn printable_arguments(alloc: Global, words: &[String]) -> Result<Vec<String>, AllocError>
    ensures { IfOk result (λ printed. ArePrinted words.now printed.items) }
{
    let mut printed = Vec::new(alloc);
    for word in words {
        printed.push(printable_text(alloc, word.as_str())?)?;
    }
    Ok(printed)
}

/// A text as error messages print it: each hidden character as its number, such as `\x1b`, and after 200 bytes `...`
/// in place of the rest, never in the middle of a character. A short text without hidden characters is unchanged.
pub fn printable_text(alloc: Global, text: &str) -> Result<String, AllocError>
    ensures { IfOk result (λ printed. IsPrinted text.now (string_bytes printed)) }
{
    let mut printed = String::new(alloc);
    let mut room = MOST_BYTES;
    for character in text.chars() {
        if character.len_utf8() > room {
            printed.push_str("...")?;
            return Ok(printed);
        }
        room -= character.len_utf8();
        push_visible(&mut printed, character)?;
    }
    Ok(printed)
}

/// Whether a character is not seen, or changes what is seen of others: control and format characters, separators of
/// lines and paragraphs, and those that Unicode ignores by default.
fn is_hidden(character: char) -> bool
    ensures { result ≡ is_hidden character }
{
    for range in &HIDDEN {
        if is_within(character as u32, *range) {
            return true;
        }
    }
    character.is_control()
}

/// Whether a code is in a range.
fn is_within(code: u32, range: (u32, u32)) -> bool
    ensures { result ≡ is_within code range }
{
    range.0 <= code && code <= range.1
}

/// Appends a character, or its number if it is hidden.
fn push_visible(text: &mut String, character: char) -> Result<(), AllocError>
    ensures { OnOk result
        (string_bytes text.new ≡ string_bytes text.old ++ visible character) }
{
    if is_hidden(character) {
        push_escape(text, character as u32)
    } else {
        text.push(character)
    }
}

/// Appends a character as its number: `\x1b`, `\u202e` or `\U000e0001`.
fn push_escape(text: &mut String, code: u32) -> Result<(), AllocError>
    requires { code < 2 ^ 24 }
    ensures { OnOk result (string_bytes text.new ≡ string_bytes text.old ++ escape code) }
{
    if code < 0x100 {
        text.push_str("\\x")?;
        return push_byte(text, code);
    }
    if code < 0x1_0000 {
        text.push_str("\\u")?;
    } else {
        text.push_str("\\U00")?;
        push_byte(text, code / 0x1_0000)?;
    }
    push_byte(text, code / 0x100 % 0x100)?;
    push_byte(text, code % 0x100)
}

/// Appends a byte as two hex digits.
fn push_byte(text: &mut String, byte: u32) -> Result<(), AllocError>
    requires { byte < 256 }
    ensures { OnOk result (string_bytes text.new ≡ string_bytes text.old ++ hex_byte byte) }
{
    text.push(hex_digit(byte / 16))?;
    text.push(hex_digit(byte % 16))
}

/// The hex digit of a number below 16.
fn hex_digit(number: u32) -> char
    requires { number < 16 }
    ensures { result ≡ digit_char number }
{
    char::from_digit(number, 16).unwrap()
}
