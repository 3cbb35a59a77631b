//! The fields of a line: labels, each with a number. They are added to the text without `write!`, which takes twice as
//! long, as there may be millions of lines, and which would add its formatter to the library.

use itoa::Buffer;
use std::alloc::AllocError;

/// Adds a label and a number in decimal.
pub fn add_decimal<N: Into<u64>>(
    text: &mut String,
    words: &str,
    number: N,
) -> Result<(), AllocError> {
    let number: u64 = number.into();
    text.push_str(words)?;
    text.push_str(Buffer::new().format(number))
}

/// Adds a label, `0x`, and a number in hex: in lower case, without leading zeros.
pub fn add_hex<N: Into<u64>>(text: &mut String, words: &str, number: N) -> Result<(), AllocError> {
    let number: u64 = number.into();
    text.push_str(words)?;
    text.push_str("0x")?;
    // A quarter of the number's bits, rounded up; 0 has a digit too.
    let digits = (67 - (number | 1).leading_zeros()) / 4;
    for place in (0..digits).rev() {
        let digit = ((number >> (4 * place)) & 0xf) as u8;
        let first = if digit < 10 { b'0' } else { b'a' - 10 };
        text.push(char::from(first + digit))?;
    }
    Ok(())
}
