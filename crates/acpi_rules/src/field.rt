//! Fields of structures: little-endian numbers at an offset.

ghost use Rattle.std.specs.Prelude.{◌≡◌, ◌≤◌, ◌<◌, ◌+◌, ◌^◌, length};
ghost use Rattle.acpi_base.specs.Number.{field};
ghost use Rattle.acpi_rules.specs.Fields.{at_of, end_of, number_in, reading, width_of};

use byteorder::{ByteOrder, LittleEndian};

/// A number in a structure, little-endian: where it is, in 16 bits, since the rows have thousands of fields.
#[derive(Clone, Copy, Debug, PartialEq, Eq)]
pub struct Field {
    /// 16 times its offset in bytes from the structure's start, below 4,096, plus how many bytes it has, from 1 to 8. A
    /// field of another width is in no structure.
    pub place: u16,
}

/// The number in the `width` bytes at an offset.
#[tactic(auto, unfolding(acpi_base::specs::Number::field))]
#[inline(always)]
fn number_at(bytes: &[u8], at: usize, width: usize) -> u64
    requires width { (1 ≤ width) × (width ≤ 8) }
    requires room { at + width ≤ length bytes.now }
    ensures { result ≡ field bytes.now at width }
{
    // Most fields have one of these widths, whose reads have no loop.
    match width {
        1 => u64::from(bytes[at]),
        2 => u64::from(LittleEndian::read_u16(&bytes[at..])),
        4 => u64::from(LittleEndian::read_u32(&bytes[at..])),
        8 => LittleEndian::read_u64(&bytes[at..]),
        _ => LittleEndian::read_uint(&bytes[at..], width),
    }
}

/// The number of a field of a structure with these bytes; 0 if it is not wholly in it.
#[inline(always)]
pub(crate) fn number_in(bytes: &[u8], of: Field) -> u64
    ensures { result ≡ number_in of bytes.now }
{
    match of.read(bytes) {
        Some(number) => number,
        None => 0,
    }
}

impl Field {
    /// Its offset in bytes, from the structure's start.
    #[inline(always)]
    pub fn at(self) -> u16
        ensures { result ≡ at_of self }
    {
        self.place / 16
    }

    /// How many bytes it has.
    #[inline(always)]
    pub fn width(self) -> u16
        ensures { result ≡ width_of self }
    {
        self.place % 16
    }

    /// The number, if all its bytes are in the structure that has these bytes.
    #[tactic(auto, unfolding(crate::specs::Fields::reading))]
    #[inline(always)]
    pub(crate) fn read(&self, bytes: &[u8]) -> Option<u64>
        ensures { result ≡ reading self.now bytes.now }
    {
        let at = usize::from(self.at());
        let width = usize::from(self.width());
        if width < 1 || width > 8 || at + width > bytes.len() {
            return None;
        }
        Some(number_at(bytes, at, width))
    }

    /// The offset behind it.
    #[inline(always)]
    pub(crate) fn end(&self) -> u64
        ensures end { result ≡ end_of self.now }
        ensures fits { result < 2 ^ 17 }
    {
        u64::from(self.at()) + u64::from(self.width())
    }
}
