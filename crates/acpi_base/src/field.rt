//! Fields of tables: numbers and bytes, read and written at an offset.
//!
//! Offsets are in bytes from the start of the slice that is passed. Numbers are unsigned and little-endian (ACPI 6.5,
//! 5.2). A field lies completely within the slice, which callers ensure.

ghost use Rattle.std.specs.Prelude.{◌≡◌, ◌≤◌, ◌<◌, ◌+◌, ◌^◌, ◌++◌, length, take, drop};
ghost use Rattle.acpi_base.specs.Layouts.{FitValues, FitsValue, value_bytes, value_size, values_bytes, values_size};
ghost use Rattle.acpi_base.specs.Number.{field, number_bytes};
ghost use Rattle.acpi_base.specs.Signature.{has_signature};

use byteorder::{ByteOrder, LittleEndian};

/// The byte at an offset.
#[tactic(auto, unfolding(crate::specs::Number::field))]
pub fn u8_at(bytes: &[u8], offset: usize) -> u8
    requires { offset + 1 ≤ length bytes.now }
    ensures { result ≡ field bytes.now offset 1 }
{
    bytes[offset]
}

/// The number in the 2 bytes at an offset.
#[tactic(auto, unfolding(crate::specs::Number::field))]
pub fn u16_at(bytes: &[u8], offset: usize) -> u16
    requires { offset + 2 ≤ length bytes.now }
    ensures { result ≡ field bytes.now offset 2 }
{
    LittleEndian::read_u16(&bytes[offset..])
}

/// The number in the 4 bytes at an offset.
#[tactic(auto, unfolding(crate::specs::Number::field))]
pub fn u32_at(bytes: &[u8], offset: usize) -> u32
    requires { offset + 4 ≤ length bytes.now }
    ensures { result ≡ field bytes.now offset 4 }
{
    LittleEndian::read_u32(&bytes[offset..])
}

/// The number in the 8 bytes at an offset.
#[tactic(auto, unfolding(crate::specs::Number::field))]
pub fn u64_at(bytes: &[u8], offset: usize) -> u64
    requires { offset + 8 ≤ length bytes.now }
    ensures { result ≡ field bytes.now offset 8 }
{
    LittleEndian::read_u64(&bytes[offset..])
}

/// The number in the `width` bytes at an offset. `width` is from 1 to 8.
#[tactic(auto, unfolding(crate::specs::Number::field))]
pub fn number_at(bytes: &[u8], offset: usize, width: usize) -> u64
    requires width { (1 ≤ width) × (width ≤ 8) }
    requires room { offset + width ≤ length bytes.now }
    ensures { result ≡ field bytes.now offset width }
{
    LittleEndian::read_uint(&bytes[offset..], width)
}

/// The bytes at an offset, as many as the array has.
pub fn array_at<const N: usize>(bytes: &[u8], offset: usize) -> [u8; N]
    requires { offset + N ≤ length bytes.now }
    ensures { result ≡ take N (drop offset bytes.now) }
{
    let mut part = [0; N];
    part.copy_from_slice(&bytes[offset..offset + N]);
    part
}

/// Writes bytes at an offset. The bytes before it stay the same, so that a structure is written field by field at
/// rising offsets.
pub fn put_bytes<const N: usize>(out: &mut [u8], offset: usize, bytes: &[u8; N])
    requires { offset + N ≤ length out.old }
    ensures count { length out.new ≡ length out.old }
    ensures written { take (offset + N) out.new ≡ take offset out.old ++ bytes.now }
{
    out[offset..offset + N].copy_from_slice(bytes);
}

/// Writes a byte at an offset. The bytes before it stay the same.
#[tactic(auto, unfolding(crate::specs::Number::number_bytes))]
pub fn put_u8(out: &mut [u8], offset: usize, number: u8)
    requires { offset + 1 ≤ length out.old }
    ensures count { length out.new ≡ length out.old }
    ensures written { take (offset + 1) out.new ≡ take offset out.old ++ number_bytes 1 number }
    ensures fits { number < 256 ^ 1 }
{
    put_bytes(out, offset, &[number]);
}

/// Writes a number into the 2 bytes at an offset. The bytes before them stay the same.
#[tactic(auto, unfolding(crate::specs::Number::number_bytes))]
pub fn put_u16(out: &mut [u8], offset: usize, number: u16)
    requires { offset + 2 ≤ length out.old }
    ensures count { length out.new ≡ length out.old }
    ensures written { take (offset + 2) out.new ≡ take offset out.old ++ number_bytes 2 number }
    ensures fits { number < 256 ^ 2 }
{
    LittleEndian::write_u16(&mut out[offset..], number);
}

/// Writes a number into the 4 bytes at an offset. The bytes before them stay the same.
#[tactic(auto, unfolding(crate::specs::Number::number_bytes))]
pub fn put_u32(out: &mut [u8], offset: usize, number: u32)
    requires { offset + 4 ≤ length out.old }
    ensures count { length out.new ≡ length out.old }
    ensures written { take (offset + 4) out.new ≡ take offset out.old ++ number_bytes 4 number }
    ensures fits { number < 256 ^ 4 }
{
    LittleEndian::write_u32(&mut out[offset..], number);
}

/// Writes a number into the 8 bytes at an offset. The bytes before them stay the same.
#[tactic(auto, unfolding(crate::specs::Number::number_bytes))]
pub fn put_u64(out: &mut [u8], offset: usize, number: u64)
    requires { offset + 8 ≤ length out.old }
    ensures count { length out.new ≡ length out.old }
    ensures written { take (offset + 8) out.new ≡ take offset out.old ++ number_bytes 8 number }
    ensures fits { number < 256 ^ 8 }
{
    put_bytes(out, offset, &number.to_le_bytes());
}

/// A value that is written into a part of a structure.
#[derive(Clone, Copy, Debug)]
pub enum Value<'a> {
    /// A byte.
    U8(u8),
    /// A number in 2 bytes.
    U16(u16),
    /// A number in 4 bytes.
    U32(u32),
    /// A number in 8 bytes.
    U64(u64),
    /// These bytes.
    Bytes(&'a [u8]),
    /// This many bytes that are 0.
    Zeros(usize),
}

/// Writes a value at an offset. The bytes before it stay the same. Returns the offset after the value.
fn put_value(out: &mut [u8], offset: usize, value: &Value<'_>) -> usize
    requires { offset + value_size value.now ≤ length out.old }
    ensures end { result ≡ offset + value_size value.now }
    ensures count { length out.new ≡ length out.old }
    ensures written { take result out.new ≡ take offset out.old ++ value_bytes value.now }
    ensures fits { FitsValue value.now }
{
    match *value {
        Value::U8(number) => {
            put_u8(out, offset, number);
            offset + 1
        }
        Value::U16(number) => {
            put_u16(out, offset, number);
            offset + 2
        }
        Value::U32(number) => {
            put_u32(out, offset, number);
            offset + 4
        }
        Value::U64(number) => {
            put_u64(out, offset, number);
            offset + 8
        }
        Value::Bytes(bytes) => {
            let end = offset + bytes.len();
            out[offset..end].copy_from_slice(bytes);
            end
        }
        Value::Zeros(count) => {
            let end = offset + count;
            out[offset..end].fill(0);
            end
        }
    }
}

/// Writes values one after another from the start of `out`. Together they have as many bytes as `out`.
pub fn put_values(out: &mut [u8], values: &[Value<'_>])
    requires { length out.old ≡ values_size values.now }
    ensures bytes { out.new ≡ values_bytes values.now }
    ensures fits { FitValues values.now }
{
    let mut offset = 0;
    for value in values {
        offset = put_value(out, offset, value);
    }
}

/// Whether the bytes begin with the signature.
#[tactic(auto, unfolding(crate::specs::Signature::has_signature))]
pub fn is_signed(bytes: &[u8], signature: &[u8]) -> bool
    ensures { result ≡ has_signature bytes.now signature.now }
{
    // Bytes that are not signed so mostly differ in the first one, which is soon seen.
    if !bytes.is_empty() && !signature.is_empty() && bytes[0] != signature[0] {
        return false;
    }
    bytes.starts_with(signature)
}
