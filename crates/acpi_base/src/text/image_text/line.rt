//! What one line of image text says.

ghost use Rattle.std.specs.Prelude.{◌≡◌, ◌<◌, ◌≤◌, ℕ, List, [], length, IfOk, IfErr, MatchOption, take_while};
ghost use Rattle.std.specs.List.{list_all};
ghost use Rattle.acpi_base.specs.Text.ImageText.{Bad, is_blank, is_hex_digit, without_cr, without_comment, skip_blanks, hex_number, address_line_of, data_from, line_of};
ghost use Rattle.acpi_base.specs.Text.Lines.{IsData, data_line, line_with};

use super::byte_search::first_index;
use super::digit::digit_value;

/// What a line says.
#[derive(Clone, Copy)]
pub enum Form {
    /// Nothing.
    Blank,
    /// The next address.
    Address(u64),
    /// Bytes, which are kept separately.
    Data,
    /// Neither an address, nor data, nor blank.
    Bad,
}

/// Memory ran out for the bytes of a line of data.
#[derive(Clone, Copy)]
pub struct NoMemory {
    /// How many bytes the line has.
    pub count: usize,
}

fn is_blank_byte(byte: u8) -> bool
    ensures { result ≡ is_blank byte }
{
    byte == b' ' || byte == b'\t'
}

/// The line without a CR at its end.
fn cut_cr(line: &[u8]) -> &[u8]
    ensures { result.now ≡ without_cr line.now }
{
    let length = line.len();
    if length > 0 && line[length - 1] == b'\r' {
        &line[..length - 1]
    } else {
        line
    }
}

/// The line before the first `#`.
fn cut_comment(line: &[u8]) -> &[u8]
    ensures { result.now ≡ without_comment line.now }
{
    &line[..first_index(line, b'#')]
}

/// The line from its first byte on that is not blank.
#[tactic(auto, unfolding(crate::specs::Text::ImageText::skip_blanks))]
fn cut_blanks(line: &[u8]) -> &[u8]
    ensures { result.now ≡ skip_blanks line.now }
{
    for i in 0..line.len() {
        if !is_blank_byte(line[i]) {
            return &line[i..];
        }
    }
    &[]
}

/// How many hex digits the text begins with, and the number that they spell, the highest first; `None` for more than 16.
#[tactic(auto, unfolding(crate::specs::Text::ImageText::hex_number), using(crate::proofs::Texts::LineParsing::power_fits, crate::proofs::Texts::LineParsing::one_more))]
fn leading_number(text: &[u8]) -> Option<(usize, u64)>
    ensures { MatchOption result (16 < length (take_while is_hex_digit text.now))
        (λ found. (found.0 ≡ length (take_while is_hex_digit text.now)) × (found.0 ≤ 16)
        × (found.1 ≡ hex_number 0 (take_while is_hex_digit text.now))) }
{
    let mut value = 0;
    for i in 0..text.len() {
        let Some(digit) = digit_value(text[i]) else {
            return Some((i, value));
        };
        if i == 16 {
            return None;
        }
        value = 16 * value + digit as u64;
    }
    Some((text.len(), value))
}

fn is_all_blank(text: &[u8]) -> bool
    ensures { result ≡ list_all is_blank text.now }
{
    text.iter().all(|byte| is_blank_byte(*byte))
}

/// The number that up to 16 hex digits spell, the highest first.
#[tactic(auto, unfolding(crate::specs::Text::ImageText::hex_number), using(crate::proofs::Texts::LineParsing::power_fits))]
pub fn number_value(digits: &[u8]) -> u64
    requires { length digits.now ≤ 16 }
    ensures { result ≡ hex_number 0 digits.now }
{
    let mut value = 0;
    for byte in digits {
        value = 16 * value + digit_value(*byte).unwrap_or(0) as u64;
    }
    value
}

/// What a line says that has this text after its `@`.
#[tactic(auto, unfolding(crate::specs::Text::ImageText::address_line_of))]
fn parse_address(rest: &[u8]) -> Form
    ensures { (bytes : List ℕ) → line_with result bytes ≡ address_line_of rest.now }
{
    let Some((count, number)) = leading_number(rest) else {
        return Form::Bad;
    };
    if count < 1 || !is_all_blank(&rest[count..]) {
        return Form::Bad;
    }
    Form::Address(number)
}

/// How many bytes the line has, which is pairs of hex digits, with any blanks between pairs and after the last; none
/// for another line. Needs no memory.
#[tactic(auto, unfolding(crate::specs::Text::ImageText::data_from), using(crate::proofs::Texts::LineParsing::one_more))]
fn data_count(line: &[u8]) -> Option<usize>
    ensures { MatchOption result (data_from [] None line.now ≡ Bad)
        (IsData (data_from [] None line.now)) }
{
    let mut count = 0;
    let mut rest = line;
    while let Some((first, after)) = rest.split_first() {
        if digit_value(*first).is_none() {
            if !is_blank_byte(*first) {
                return None;
            }
            rest = after;
            continue;
        }
        let (second, behind) = after.split_first()?;
        digit_value(*second)?;
        count += 1;
        rest = behind;
    }
    Some(count)
}

/// Whether the line is pairs of hex digits, with any blanks between pairs and after the last. If so, the
/// vector has their bytes, unless memory runs out.
#[tactic(auto, unfolding(crate::specs::Text::ImageText::data_from), using(crate::proofs::Texts::LineParsing::one_more))]
fn parse_data(line: &[u8], bytes: &mut Vec<u8>) -> Result<bool, NoMemory>
    ensures ok { IfOk result (λ is_data. data_line is_data bytes.new.items ≡ data_from [] None
        line.now) }
    ensures err { IfErr result (λ error. IsData (data_from [] None line.now) error.count) }
{
    bytes.clear();
    let mut rest = line;
    while let Some((first, after)) = rest.split_first() {
        let Some(high) = digit_value(*first) else {
            if !is_blank_byte(*first) {
                return Ok(false);
            }
            rest = after;
            continue;
        };
        let Some((second, behind)) = after.split_first() else {
            return Ok(false);
        };
        let Some(low) = digit_value(*second) else {
            return Ok(false);
        };
        if bytes.push(16 * high + low).is_err() {
            // A bad line is refused for that, also if there is no memory.
            return match data_count(line) {
                Some(count) => Err(NoMemory { count }),
                None => Ok(false),
            };
        }
        rest = behind;
    }
    Ok(true)
}

/// What a line says, without its LF. The bytes of a data line replace the contents of the vector. Memory runs out only
/// for them, so only at a line of data.
#[tactic(auto, unfolding(crate::specs::Text::ImageText::line_of, crate::specs::Text::ImageText::form_of))]
pub fn parse_line(line: &[u8], bytes: &mut Vec<u8>) -> Result<Form, NoMemory>
    ensures ok { IfOk result (λ form. line_with form bytes.new.items ≡ line_of line.now) }
    ensures err { IfErr result (λ error. IsData (line_of line.now) error.count) }
{
    let rest = cut_blanks(cut_comment(cut_cr(line)));
    if rest.is_empty() {
        return Ok(Form::Blank);
    }
    if rest[0] == b'@' {
        return Ok(parse_address(&rest[1..]));
    }
    if parse_data(rest, bytes)? {
        Ok(Form::Data)
    } else {
        Ok(Form::Bad)
    }
}
