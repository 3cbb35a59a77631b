//! Rows of 16 bytes as most texts write them: pairs of hex digits, separated by single blanks, and an LF. They are read
//! in vectors of 16 bytes.

ghost use Rattle.std.specs.Prelude.{◌≡◌, ◌+◌, ◌*◌, ◌%◌, ◌≤◌, ◌<◌, ℕ, length, slice_index, take, IfSome};
ghost use Rattle.acpi_base.specs.Text.Rows.{AreDigitValues, AreRows, IsRowAt};

use std::simd::prelude::*;

/// How many bytes of text a row has, with its LF.
pub const ROW: usize = 48;

/// How many bytes of text are loaded for a row.
const LOADED: usize = 66;

/// The bit of the lane that has what comes after the last pair.
const LAST: u64 = 1 << 13;

/// The first of each three bytes of the text from `at` on: number `k` is in lane `3 * k % 16`. In this order the vector
/// is made of three loads without a shuffle.
#[inline(always)]
fn firsts_of_three(text: &[u8], at: usize) -> u8x16
    requires { at + 64 ≤ length text.now }
    ensures len { length result ≡ 16 }
    ensures order { (k : ℕ) → k < 16
        → slice_index result (3 * k % 16) ≡ slice_index text.now (at + 3 * k) }
{
    u8x64::from_slice(&text[at..]).swizzle([
        0, 33, 18, 3, 36, 21, 6, 39, 24, 9, 42, 27, 12, 45, 30, 15,
    ])
}

/// The value of each hex digit, in either case; 16 or more for any other byte.
#[inline(always)]
fn digit_values(bytes: u8x16) -> u8x16
    ensures { AreDigitValues bytes result }
{
    let decimal = bytes - u8x16::splat(b'0');
    let letter = (bytes | u8x16::splat(0x20)) - u8x16::splat(b'a');
    decimal.simd_lt(u8x16::splat(10)).select(
        decimal,
        letter.simd_min(u8x16::splat(6)) + u8x16::splat(10),
    )
}

/// The bytes of the row from `at` on; `None` if there is no row.
#[inline(always)]
fn row_at(text: &[u8], at: usize) -> Option<[u8; 16]>
    requires { at + 66 ≤ length text.now }
    ensures { IfSome result (IsRowAt text.now at) }
{
    let high = digit_values(firsts_of_three(text, at));
    let low = digit_values(firsts_of_three(text, at + 1));
    let behind = firsts_of_three(text, at + 2);
    let others = (high | low).simd_ge(u8x16::splat(16)).to_bitmask();
    let unspaced = behind.simd_ne(u8x16::splat(b' ')).to_bitmask();
    if others != 0 || unspaced != LAST || text[at + 47] != b'\n' {
        return None;
    }
    let bytes = high * u8x16::splat(16) + low;
    Some(
        bytes
            .swizzle([0, 3, 6, 9, 12, 15, 2, 5, 8, 11, 14, 1, 4, 7, 10, 13])
            .to_array(),
    )
}

/// Reads the rows that the text begins with, as many as the buffer has room for, and returns how many there are. It may
/// stop before a row that is among the last 65 bytes of the text.
pub fn parse_rows(text: &[u8], bytes: &mut [u8]) -> usize
    ensures rows { AreRows text.now result (take (16 * result) bytes.new) }
    ensures len { length bytes.new ≡ length bytes.old }
    ensures room { 16 * result ≤ length bytes.old }
{
    let mut count = 0;
    while 16 * count + 16 <= bytes.len() && ROW * count + LOADED <= text.len() {
        let Some(row) = row_at(text, ROW * count) else {
            break;
        };
        bytes[16 * count..16 * count + 16].copy_from_slice(&row);
        count += 1;
    }
    count
}
