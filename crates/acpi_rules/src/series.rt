//! Descriptions of the structures of a table: where they begin, how long each is, and where they end.
//!
//! A description has no reference, so that contracts can name it. Any description is allowed.

ghost use Rattle.std.specs.Prelude.{◌≡◌, ◌≤◌, ◌<◌, ◌^◌, IfSome};
ghost use Rattle.acpi_rules.specs.Series.{head_end, head_said, is_counted, kind_in, length_by, length_of, most_of, said_in, size_in, start_by, start_of, sum_in};

use crate::field::{Field, number_in};

/// A multiple of a number in a structure.
#[derive(Clone, Copy, Debug, PartialEq, Eq)]
pub struct Multiple {
    /// How many times it counts.
    pub times: u16,
    /// The number.
    pub of: Field,
}

/// A fixed number of bytes and multiples of two numbers in a structure.
#[derive(Clone, Copy, Debug, PartialEq, Eq)]
pub struct Sum {
    /// The fixed part.
    pub base: u16,
    /// The first multiple.
    pub first: Multiple,
    /// The second multiple.
    pub second: Multiple,
}

/// Which rule says where structures begin by the type of the one that they are in.
#[derive(Clone, Copy, Debug, PartialEq, Eq)]
pub enum StartRows {
    /// The device scopes of a DMAR's remapping structures: at 16 in type 0, 24 in type 1, and 8 in types 2, 5 and 6. No
    /// other type has any.
    DeviceScopes,
    /// The device entries of an IVHD: at 24 in type 16, and at 40 in types 17 and 64. No other type has any.
    IvhdDevices,
}

/// Where structures begin in the one that they are in.
#[derive(Clone, Copy, Debug, PartialEq, Eq)]
pub enum Start {
    /// At an offset, or at the end of the enclosing structure if that comes before it.
    At(u16),
    /// At the offset that a field of it says. There are no structures if the field is not in it.
    Said {
        /// The field.
        field: Field,
        /// An offset below this one says that there are no structures.
        least: u16,
    },
    /// At an offset that follows from two of its fields: behind lists with so many members. There are no structures
    /// if one of the two is not in it.
    Behind(Sum),
    /// At an offset that follows from its type, or at its end if that comes before it. There are no structures if its
    /// type is not in it.
    OfType {
        /// The type.
        kind: Field,
        /// The offsets.
        starts: StartRows,
    },
}

/// Where structures that follow one another end.
#[derive(Clone, Copy, Debug, PartialEq, Eq)]
pub enum Extent {
    /// At the end of the one that they are in.
    ToEnd,
    /// After as many as a field of it says.
    Counted(Field),
    /// After as many as the product of two of its fields.
    Product(Field, Field),
}

/// Structures that begin with their type and their length.
#[derive(Clone, Copy, Debug, PartialEq, Eq)]
pub struct Head {
    /// The type.
    pub kind: Field,
    /// The length in bytes, which is at least the end of these two fields.
    pub length: Field,
    /// The length has to be at least this.
    pub least: u16,
}

/// Which rule says the lengths by type.
#[derive(Clone, Copy, Debug, PartialEq, Eq)]
pub enum LengthRows {
    /// The device entries of an IVHD: types 0 to 63 have 4 bytes, 64 to 127 have 8, and 240 has 22 and a UID, whose
    /// length is the byte at 21.
    IvhdDevices,
}

/// Structures that begin with their type, which says their length.
#[derive(Clone, Copy, Debug, PartialEq, Eq)]
pub struct Types {
    /// The type.
    pub kind: Field,
    /// The lengths. A structure of a type without one does not fit.
    pub lengths: LengthRows,
}

/// What structures that follow one another look like.
#[derive(Clone, Copy, Debug, PartialEq, Eq)]
pub enum Shape {
    /// Each has this many bytes, and no type.
    Records(u16),
    /// Each begins with its type and its length.
    Headed(Head),
    /// Each begins with its type, which says its length.
    ByType(Types),
}

/// Structures that follow one another, in another structure or a table.
#[derive(Clone, Copy, Debug, PartialEq, Eq)]
pub struct Series {
    /// Where they begin in it.
    pub start: Start,
    /// Where they end.
    pub extent: Extent,
    /// What they look like.
    pub shape: Shape,
}

/// Structures inside those of some types.
#[derive(Clone, Copy, Debug, PartialEq, Eq)]
pub struct Inner {
    /// The lowest of these types.
    pub first: u16,
    /// The highest of these types.
    pub last: u16,
    /// The structures inside each.
    pub series: Series,
}

/// What a rule is about: which structures of a table.
#[derive(Clone, Copy, Debug, PartialEq, Eq)]
pub enum Path {
    /// The table itself.
    Table,
    /// The structures of a series of it.
    Entries(Series),
    /// Those inside these.
    Inside(Series, Inner),
    /// Those inside the latter.
    Innermost(Series, Inner, Inner),
}

/// A start behind this offset is told as this offset. No structure is so long, and offsets fit 64 bits so.
const FARTHEST: u64 = 1 << 63;

/// The offset behind lists with so many members.
fn sum_in(bytes: &[u8], sum: Sum) -> u128
    ensures { result ≡ sum_in sum bytes.now }
{
    u128::from(sum.base)
        + u128::from(sum.first.times) * u128::from(number_in(bytes, sum.first.of))
        + u128::from(sum.second.times) * u128::from(number_in(bytes, sum.second.of))
}

/// Where structures begin in one of this type; none if there are none.
#[tactic(auto, unfolding(crate::specs::Series::start_by))]
fn start_by(starts: StartRows, kind: u64) -> Option<u64>
    ensures { result ≡ start_by starts kind }
{
    match (starts, kind) {
        (StartRows::DeviceScopes, 0) => Some(16),
        (StartRows::DeviceScopes, 1) => Some(24),
        (StartRows::DeviceScopes, 2 | 5 | 6) => Some(8),
        (StartRows::IvhdDevices, 16) => Some(24),
        (StartRows::IvhdDevices, 17 | 64) => Some(40),
        _ => None,
    }
}

/// Where structures begin in one with these bytes; none if there are none.
#[tactic(auto, unfolding(crate::specs::Series::start_of))]
pub(crate) fn start_of(bytes: &[u8], start: Start) -> Option<u64>
    ensures start { result ≡ start_of start bytes.now }
    ensures near { IfSome result (λ offset. offset ≤ 2 ^ 63) }
{
    let size = bytes.len() as u64;
    match start {
        Start::At(offset) => Some(u64::from(offset).min(size)),
        Start::Said { field, least } => match field.read(bytes) {
            Some(offset) if offset >= u64::from(least) => Some(offset.min(FARTHEST)),
            _ => None,
        },
        Start::Behind(sum) => {
            if sum.first.of.end() > size || sum.second.of.end() > size {
                return None;
            }
            Some(sum_in(bytes, sum).min(u128::from(FARTHEST)) as u64)
        }
        Start::OfType { kind, starts } => {
            let start = start_by(starts, kind.read(bytes)?)?;
            Some(start.min(size))
        }
    }
}

/// How many structures there are at most in one with these bytes.
#[tactic(auto, unfolding(crate::specs::Series::most_of))]
pub(crate) fn most_of(bytes: &[u8], extent: Extent) -> u128
    ensures { result ≡ most_of extent bytes.now }
{
    match extent {
        Extent::ToEnd => bytes.len() as u128,
        Extent::Counted(count) => u128::from(number_in(bytes, count)),
        Extent::Product(rows, columns) => {
            u128::from(number_in(bytes, rows)) * u128::from(number_in(bytes, columns))
        }
    }
}

/// Whether a field says how many structures there are.
pub(crate) fn is_counted(extent: Extent) -> bool
    ensures { result ≡ is_counted extent }
{
    match extent {
        Extent::ToEnd => false,
        _ => true,
    }
}

/// The length of a structure of a type that begins with these bytes; 0 if the type has none or they end before it.
#[tactic(auto, unfolding(crate::specs::Series::length_by))]
fn length_by(bytes: &[u8], lengths: LengthRows, kind: u64) -> u64
    ensures { result ≡ length_by lengths kind bytes.now }
{
    match lengths {
        LengthRows::IvhdDevices => match kind {
            0..=63 => 4,
            64..=127 => 8,
            240 if bytes.len() > 21 => 22 + u64::from(bytes[21]),
            _ => 0,
        },
    }
}

/// The length of a structure that begins with these bytes, by its type; 0 if there is none.
fn length_of(bytes: &[u8], types: Types) -> u64
    ensures { result ≡ length_of types bytes.now }
{
    match types.kind.read(bytes) {
        Some(kind) => length_by(bytes, types.lengths, kind),
        None => 0,
    }
}

/// The type of a structure that begins with these bytes; 0 if it has none.
#[tactic(auto, unfolding(crate::specs::Series::kind_in))]
#[inline(always)]
pub(crate) fn kind_in(bytes: &[u8], shape: Shape) -> u64
    ensures { result ≡ kind_in shape bytes.now }
{
    match shape {
        Shape::Records(_) => 0,
        Shape::Headed(head) => number_in(bytes, head.kind),
        Shape::ByType(types) => number_in(bytes, types.kind),
    }
}

/// The offset behind a head.
#[inline(always)]
fn head_end(head: Head) -> u64
    ensures { result ≡ head_end head }
{
    head.kind.end().max(head.length.end())
}

/// The length that a head says with which these bytes begin; 0 if it is not wholly in them.
#[tactic(auto, unfolding(crate::specs::Series::head_said))]
#[inline(always)]
fn head_said(bytes: &[u8], head: Head) -> u64
    ensures { result ≡ head_said head bytes.now }
{
    if head_end(head) > bytes.len() as u64 {
        return 0;
    }
    number_in(bytes, head.length)
}

/// The length that a structure says with which these bytes begin; 0 if it says none.
#[tactic(auto, unfolding(crate::specs::Series::said_in))]
pub(crate) fn said_in(bytes: &[u8], shape: Shape) -> u64
    ensures { result ≡ said_in shape bytes.now }
{
    match shape {
        Shape::Headed(head) => head_said(bytes, head),
        Shape::Records(_) => 0,
        Shape::ByType(types) => length_of(bytes, types),
    }
}

/// The length of a structure that begins with these bytes; 0 if it is not known or too small.
#[tactic(auto, unfolding(crate::specs::Series::size_in))]
#[inline(always)]
pub(crate) fn size_in(bytes: &[u8], shape: Shape) -> u64
    ensures { result ≡ size_in shape bytes.now }
{
    match shape {
        Shape::Records(size) => u64::from(size),
        Shape::Headed(head) => {
            let said = head_said(bytes, head);
            if said < u64::from(head.least) || said < head_end(head) {
                0
            } else {
                said
            }
        }
        Shape::ByType(types) => length_of(bytes, types),
    }
}
