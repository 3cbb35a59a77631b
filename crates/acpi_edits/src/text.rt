//! Parts of rows as text.

use acpi_lint::RowTable;
use acpi_rules::{Clause, Field, Kind, Test, Value, Within};
use std::fmt;

/// A value as text: fields as their structure, their offset and their width.
#[derive(Clone, Copy)]
pub struct ValueText<'a>(pub &'a Value);

/// A clause as text.
#[derive(Clone, Copy)]
pub struct ClauseText<'a>(pub &'a Clause);

/// A kind as text: its types and its lengths.
#[derive(Clone, Copy)]
pub struct KindText<'a>(pub &'a Kind);

/// A table as text: its name.
#[derive(Clone, Copy)]
pub struct TableText(pub RowTable);

/// The word for a structure.
fn within_word(within: Within) -> &'static str {
    match within {
        Within::Own => "own",
        Within::Around => "around",
        Within::Outer => "outer",
        Within::Table => "table",
        Within::Other => "other",
    }
}

/// The sign of a comparison.
fn test_sign(test: Test) -> &'static str {
    match test {
        Test::Is => "==",
        Test::IsNot => "!=",
        Test::Below => "<",
        Test::UpTo => "<=",
    }
}

/// Writes a field.
fn write_field<W: fmt::Write>(
    f: &mut fmt::Formatter<W>,
    within: Within,
    field: Field,
) -> fmt::Result {
    let word = within_word(within);
    let (at, width) = (field.at(), field.width());
    write!(f, "{word} {at}:{width}")
}

/// Writes bits of a field.
fn write_bits<W: fmt::Write>(
    f: &mut fmt::Formatter<W>,
    within: Within,
    field: Field,
    mask: u16,
) -> fmt::Result {
    write_field(f, within, field)?;
    write!(f, " & {mask:#x}")
}

/// Writes a multiple of a field, and the sign before it.
fn write_multiple<W: fmt::Write>(
    f: &mut fmt::Formatter<W>,
    within: Within,
    times: u16,
    field: Field,
) -> fmt::Result {
    write!(f, " + {times} * ")?;
    write_field(f, within, field)
}

/// Writes a product.
fn write_product<W: fmt::Write>(
    f: &mut fmt::Formatter<W>,
    within: Within,
    one: Field,
    other: Field,
) -> fmt::Result {
    write_field(f, within, one)?;
    write!(f, " * ")?;
    write_field(f, Within::Own, other)
}

/// Writes what is asked of a structure: its length, say.
fn write_of<W: fmt::Write>(
    f: &mut fmt::Formatter<W>,
    what: &'static str,
    within: Within,
) -> fmt::Result {
    let word = within_word(within);
    write!(f, "{what} {word}")
}

impl<'a> fmt::Display for ValueText<'a> {
    fn fmt<W: fmt::Write>(&self, f: &mut fmt::Formatter<W>) -> fmt::Result {
        match *self.0 {
            Value::Number(number) => write!(f, "{number:#x}"),
            Value::Of(within, field) => write_field(f, within, field),
            Value::Largest => write!(f, "2^64 - 1"),
            Value::Bits(within, field, mask) => write_bits(f, within, field, mask),
            Value::Length(within) => write_of(f, "length", within),
            Value::Behind(within, offset) => {
                write_of(f, "length", within)?;
                write!(f, " - {offset}")
            }
            Value::Offset(within, 0) => write_of(f, "offset", within),
            Value::Offset(within, behind) => {
                write_of(f, "offset", within)?;
                write!(f, " + {behind}")
            }
            Value::End(within) => write_of(f, "end", within),
            Value::FirstZero(within, from) => {
                write_of(f, "first zero", within)?;
                write!(f, " from {from}")
            }
            Value::Sum(..)
            | Value::SumOf(..)
            | Value::SumBits(..)
            | Value::Product(..)
            | Value::Product3(..)
            | Value::Matrix(..)
            | Value::Keyed(..)
            | Value::Pair(..)
            | Value::Excess(..) => write_of_fields(f, self.0),
        }
    }
}

/// Writes a value of several fields.
fn write_of_fields<W: fmt::Write>(f: &mut fmt::Formatter<W>, value: &Value) -> fmt::Result {
    match *value {
        Value::Sum(within, field, times, added) => {
            write!(f, "{added:#x}")?;
            write_multiple(f, within, times, field)
        }
        Value::SumOf(within, field, times, added) => {
            write_field(f, within, added)?;
            write_multiple(f, within, times, field)
        }
        Value::SumBits(within, times, mask, field, added) => {
            write_bits(f, within, added, u16::from(mask))?;
            write_multiple(f, within, u16::from(times), field)
        }
        Value::Product(within, one, other) => write_product(f, within, one, other),
        Value::Product3(one, other, third) => {
            write_product(f, Within::Own, one, other)?;
            write!(f, " * ")?;
            write_field(f, Within::Own, third)
        }
        Value::Matrix(within, base, rows, columns) => {
            write!(f, "{base:#x} + a matrix of ")?;
            write_field(f, within, rows)?;
            write!(f, " and ")?;
            write_field(f, within, columns)
        }
        Value::Keyed(within, field) => {
            write_of(f, "key of", within)?;
            write!(f, ": ")?;
            write_field(f, Within::Own, field)
        }
        Value::Pair(one, other) => {
            write_field(f, Within::Own, one)?;
            write!(f, " and ")?;
            write_field(f, Within::Own, other)
        }
        Value::Excess(one, other) => {
            write_field(f, Within::Own, one)?;
            write!(f, " + ")?;
            write_field(f, Within::Own, other)?;
            write!(f, " - 2^64")
        }
        Value::Number(_)
        | Value::Of(..)
        | Value::Largest
        | Value::Bits(..)
        | Value::Length(_)
        | Value::Behind(..)
        | Value::Offset(..)
        | Value::End(_)
        | Value::FirstZero(..) => Ok(()),
    }
}

impl<'a> fmt::Display for ClauseText<'a> {
    fn fmt<W: fmt::Write>(&self, f: &mut fmt::Formatter<W>) -> fmt::Result {
        let left = ValueText(&self.0.left);
        let sign = test_sign(self.0.test);
        let right = ValueText(&self.0.right);
        write!(f, "{left} {sign} {right}")
    }
}

impl fmt::Display for TableText {
    fn fmt<W: fmt::Write>(&self, f: &mut fmt::Formatter<W>) -> fmt::Result {
        match self.0 {
            RowTable::Kind(kind) => write!(f, "{kind:?}"),
            RowTable::Further(table) => write!(f, "{table:?}"),
        }
    }
}

impl<'a> fmt::Display for KindText<'a> {
    fn fmt<W: fmt::Write>(&self, f: &mut fmt::Formatter<W>) -> fmt::Result {
        let Kind {
            first,
            last,
            least,
            most,
        } = *self.0;
        write!(
            f,
            "types {first:#x} to {last:#x}, lengths {least:#x} to {most:#x}"
        )
    }
}
