//! Numbers among the arguments of the command line.

ghost use Rattle.std.specs.Prelude.{◌≡◌, ◌≤◌, ◌<◌, ◌^◌, IfSome, length, if◌then◌else◌, Some, None};
ghost use Rattle.std.specs.List.{list_all};
ghost use Rattle.std.specs.Char.{is_digit};
ghost use Rattle.std.specs.Str.Parse.{digits_value};
ghost use Rattle.acpi_arguments.specs.Words.{without_0x, number_word, hex_word, decimal_word};

/// The number that `text` spells in 1 to `most` hex digits of either case, with or without `0x` before
/// them. `None` if it is anything else.
pub fn hex_number(text: &str, most: usize) -> Option<u64>
    requires { most ≤ 16 }
    ensures value { result ≡ hex_word most text.now }
    ensures fits { IfSome result (λ n. n < 16 ^ most) }
{
    number(without_prefix(text.as_bytes()), 16, most)
}

/// The number that `text` spells in 1 to `most` decimal digits. `None` if it is anything else.
pub fn decimal_number(text: &str, most: usize) -> Option<u64>
    requires { most ≤ 16 }
    ensures { result ≡ decimal_word most text.now }
{
    number(text.as_bytes(), 10, most)
}

fn without_prefix(text: &[u8]) -> &[u8]
    ensures { result.now ≡ without_0x text.now }
{
    match text {
        [b'0', b'x', digits @ ..] => digits,
        _ => text,
    }
}

/// The number that 1 to `most` digits spell.
fn number(digits: &[u8], base: u32, most: usize) -> Option<u64>
    requires low { 2 ≤ base }
    requires high { base ≤ 16 }
    requires short { most ≤ 16 }
    ensures value { result ≡ number_word base most digits.now }
    ensures fits { IfSome result (λ n. n < 16 ^ most) }
{
    if digits.is_empty() || digits.len() > most {
        return None;
    }
    value(digits, base)
}

/// The value of the digits, the most significant first. `None` if one is not a digit.
fn value(digits: &[u8], base: u32) -> Option<u64>
    requires low { 2 ≤ base }
    requires high { base ≤ 16 }
    requires short { length digits.now ≤ 16 }
    ensures value { result ≡ (if list_all (λ c. is_digit c base) digits.now
        then Some (digits_value base digits.now) else None) }
    ensures fits { IfSome result (λ n. n < 16 ^ length digits.now) }
{
    let mut value = 0;
    for byte in digits {
        let digit = char::from(*byte).to_digit(base)?;
        value = value * u64::from(base) + u64::from(digit);
    }
    Some(value)
}
