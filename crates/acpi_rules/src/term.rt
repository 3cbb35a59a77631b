//! The numbers that rules compare and findings show.

ghost use Rattle.std.specs.Prelude.{◌≡◌};
ghost use Rattle.acpi_rules.specs.Walks.{placed};
ghost use Rattle.acpi_rules.specs.Sites.{site_value};
ghost use Rattle.acpi_rules.specs.Terms.{bits_in, excess_in, first_zero, keyed_in, matrix_in, pair_in, product, sum_of, tables_value, value_number, window_of, within_64_bits};

use crate::field::Field;
use crate::indexed_table::IndexedTable;
use crate::sites::Site;
use crate::window::Window;

/// The tables that a rule looks at: the one that it is about, and another one.
#[derive(Clone, Copy, Debug)]
pub struct Tables<'a> {
    /// The table that the rule is about.
    pub table: IndexedTable<'a>,
    /// The other one; it has no bytes if the rule has no other.
    pub other: IndexedTable<'a>,
}

/// Whose bytes a number is in.
#[derive(Clone, Copy, Debug, PartialEq, Eq)]
pub enum Within {
    /// The structure that the rule is about.
    Own,
    /// The one that it is in.
    Around,
    /// The one that this is in.
    Outer,
    /// The table.
    Table,
    /// The other table.
    Other,
}

/// A number that a clause compares or a finding shows: at most 2^64 - 1. A sum or a product above that counts as that.
///
/// The parts stand in an order in which they take 8 bytes, since the rows have thousands of values.
#[derive(Clone, Copy, Debug, PartialEq, Eq)]
pub enum Value {
    /// This number.
    Number(u32),
    /// 2^64 - 1.
    Largest,
    /// The number of a field.
    Of(Within, Field),
    /// The bits of a field's number that are set in a mask.
    Bits(Within, Field, u16),
    /// How many bytes a structure has.
    Length(Within),
    /// How many it has behind this offset; there is no such number if it ends before that.
    Behind(Within, u32),
    /// The offset that is so many bytes behind a structure's start, from its table's start.
    Offset(Within, u16),
    /// The offset behind a structure, from its table's start.
    End(Within),
    /// A multiple of a field's number, and this number.
    Sum(Within, Field, u16, u16),
    /// A multiple of a field's number, and the number of a field of the same structure.
    SumOf(Within, Field, u16, Field),
    /// A multiple of a field's number, and the bits of another field of the same structure that are set in a mask; in the
    /// order: how many times, the mask, the first field, the other one.
    SumBits(Within, u8, u8, Field, Field),
    /// The product of a field of this structure and of one of the structure that the rule is about.
    Product(Within, Field, Field),
    /// The product of three fields of the structure that the rule is about.
    Product3(Field, Field, Field),
    /// How many bytes a structure with a matrix has: this many, 4 for each row and for each column, and 2 for each cell; the
    /// fields say how many rows and columns there are.
    Matrix(Within, u16, Field, Field),
    /// A field of at most 4 bytes of the structure that the rule is about, told apart by where this structure is, at an
    /// offset below 2^32: 2^32 times that offset, and the field's number. So numbers are the same only inside one structure.
    Keyed(Within, Field),
    /// 2^32 times a field of the structure that the rule is about, and another field of it, of at most 4 bytes.
    Pair(Field, Field),
    /// How far the sum of two fields of the structure that the rule is about is above 2^64; 0 if it is not.
    Excess(Field, Field),
    /// The offset in a structure of the first byte that is 0, of those from this offset on; the structure's length if none
    /// is, and no number if it ends before this offset.
    FirstZero(Within, u16),
}

impl Within {
    /// The structure.
    #[inline(always)]
    fn window<'a>(self, tables: &Tables<'a>, site: &Site<'a>) -> Window<'a>
        ensures { placed result
            ≡ window_of (tables_value tables.now) (site_value site.now) self }
    {
        match self {
            Within::Own => site.own,
            Within::Around => site.around,
            Within::Outer => site.outer,
            Within::Table => Window {
                at: 0,
                bytes: tables.table.bytes,
            },
            Within::Other => Window {
                at: 0,
                bytes: tables.other.bytes,
            },
        }
    }
}

/// The bits of a field of a structure with these bytes that are set in a mask.
fn bits_in(bytes: &[u8], field: Field, mask: u16) -> Option<u64>
    ensures { result ≡ bits_in bytes.now field mask }
{
    let number = field.read(bytes)?;
    Some(number & u64::from(mask))
}

/// The multiple of a number, and what is added to it, if both are there.
fn sum_of(number: Option<u64>, times: u16, added: Option<u64>) -> Option<u64>
    ensures { result ≡ sum_of number times added }
{
    let number = number?;
    let added = added?;
    Some(within_64_bits(u128::from(added) + u128::from(times) * u128::from(number)))
}

/// The product of two numbers, if both are there.
fn product(one: Option<u64>, other: Option<u64>) -> Option<u64>
    ensures { result ≡ product one other }
{
    let one = one?;
    let other = other?;
    Some(within_64_bits(u128::from(one) * u128::from(other)))
}

/// How many bytes a structure with these first bytes has: as many as this, and those of a matrix.
fn matrix_in(bytes: &[u8], base: u16, rows: Field, columns: Field) -> Option<u64>
    ensures { result ≡ matrix_in bytes.now base rows columns }
{
    let rows = u128::from(rows.read(bytes)?);
    let columns = u128::from(columns.read(bytes)?);
    let cells = u128::from(within_64_bits(rows * columns));
    Some(within_64_bits(u128::from(base) + 4 * (rows + columns) + 2 * cells))
}

/// 2^32 times an offset, and a field of a structure with these bytes.
fn keyed_in(at: u64, bytes: &[u8], field: Field) -> Option<u64>
    ensures { result ≡ keyed_in at bytes.now field }
{
    let number = field.read(bytes)?;
    Some(within_64_bits(0x1_0000_0000 * u128::from(at) + u128::from(number)))
}

/// 2^32 times the number of a field, and that of another field, if both are there.
fn pair_in(bytes: &[u8], one: Field, other: Field) -> Option<u64>
    ensures { result ≡ pair_in bytes.now one other }
{
    let one = one.read(bytes)?;
    let other = other.read(bytes)?;
    Some(within_64_bits(0x1_0000_0000 * u128::from(one) + u128::from(other)))
}

/// How far the sum of two fields is above 2^64, if both are there.
fn excess_in(bytes: &[u8], one: Field, other: Field) -> Option<u64>
    ensures { result ≡ excess_in bytes.now one other }
{
    let one = u128::from(one.read(bytes)?);
    let other = u128::from(other.read(bytes)?);
    Some((one + other).saturating_sub(1 << 64) as u64)
}

/// The offset of the first byte that is 0, of those from an offset on, or how many bytes there are.
fn first_zero(bytes: &[u8], from: u16) -> Option<u64>
    ensures { result ≡ first_zero bytes.now from }
{
    let mut at = usize::from(from);
    if at > bytes.len() {
        return None;
    }
    while at < bytes.len() && bytes[at] != 0 {
        at += 1;
    }
    Some(at as u64)
}

impl Value {
    /// The number, if each field is within its structure.
    #[tactic(auto, unfolding(crate::specs::Terms::value_number))]
    pub(crate) fn number(&self, tables: &Tables<'_>, site: &Site<'_>) -> Option<u64>
        ensures { result ≡ value_number (tables_value tables.now) (site_value site.now) self.now }
    {
        match *self {
            Value::Number(number) => Some(u64::from(number)),
            Value::Largest => Some(u64::MAX),
            Value::Of(within, field) => field.read(within.window(tables, site).bytes),
            Value::Bits(within, field, mask) => {
                bits_in(within.window(tables, site).bytes, field, mask)
            }
            Value::Length(within) => Some(within.window(tables, site).bytes.len() as u64),
            Value::Behind(within, offset) => {
                (within.window(tables, site).bytes.len() as u64).checked_sub(u64::from(offset))
            }
            Value::Offset(within, behind) => {
                Some(within.window(tables, site).at + u64::from(behind))
            }
            Value::End(within) => {
                let window = within.window(tables, site);
                Some(window.at + window.bytes.len() as u64)
            }
            Value::Sum(within, field, times, added) => sum_of(
                field.read(within.window(tables, site).bytes),
                times,
                Some(u64::from(added)),
            ),
            Value::SumOf(within, field, times, added) => {
                let bytes = within.window(tables, site).bytes;
                sum_of(field.read(bytes), times, added.read(bytes))
            }
            Value::SumBits(within, times, mask, field, added) => {
                let bytes = within.window(tables, site).bytes;
                sum_of(
                    field.read(bytes),
                    u16::from(times),
                    bits_in(bytes, added, u16::from(mask)),
                )
            }
            Value::Product(within, one, other) => product(
                one.read(within.window(tables, site).bytes),
                other.read(site.own.bytes),
            ),
            Value::Product3(one, other, third) => product(
                product(one.read(site.own.bytes), other.read(site.own.bytes)),
                third.read(site.own.bytes),
            ),
            Value::Matrix(within, base, rows, columns) => {
                matrix_in(within.window(tables, site).bytes, base, rows, columns)
            }
            Value::Keyed(within, field) => {
                keyed_in(within.window(tables, site).at, site.own.bytes, field)
            }
            Value::Pair(one, other) => pair_in(site.own.bytes, one, other),
            Value::Excess(one, other) => excess_in(site.own.bytes, one, other),
            Value::FirstZero(within, from) => first_zero(within.window(tables, site).bytes, from),
        }
    }
}

/// A number, or 2^64 - 1 if it is above that.
fn within_64_bits(number: u128) -> u64
    ensures { result ≡ within_64_bits number }
{
    number.min(u128::from(u64::MAX)) as u64
}
