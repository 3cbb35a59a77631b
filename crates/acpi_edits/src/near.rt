//! Parts of rows, each with one of its numbers changed by one or with another comparison.

use acpi_rules::{Clause, Field, Kind, Test, Value, Within};
use std::alloc::{AllocError, Global};

/// A field at the next offsets and of the next widths, of those from 1 to 8 bytes.
pub fn fields_near(alloc: Global, field: Field) -> Result<Vec<Field>, AllocError> {
    let (place, width) = (field.place, field.width());
    let mut near = Vec::new(alloc);
    if let Some(place) = place.checked_sub(16) {
        near.push(Field { place })?;
    }
    if let Some(place) = place.checked_add(16) {
        near.push(Field { place })?;
    }
    if let Some(place) = place.checked_sub(1)
        && width > 1
    {
        near.push(Field { place })?;
    }
    if let Some(place) = place.checked_add(1)
        && width < 8
    {
        near.push(Field { place })?;
    }
    Ok(near)
}

/// The numbers next to one.
fn numbers_near(alloc: Global, number: u64) -> Result<Vec<u64>, AllocError> {
    let mut near = Vec::new(alloc);
    if let Some(less) = number.checked_sub(1) {
        near.push(less)?;
    }
    if let Some(more) = number.checked_add(1) {
        near.push(more)?;
    }
    Ok(near)
}

/// The same of a number of 16 bits.
fn short_numbers_near(alloc: Global, number: u16) -> Result<Vec<u16>, AllocError> {
    let mut near = Vec::new(alloc);
    for number in numbers_near(alloc, u64::from(number))? {
        if let Ok(number) = u16::try_from(number) {
            near.push(number)?;
        }
    }
    Ok(near)
}

/// The same of a number of 32 bits.
fn long_numbers_near(alloc: Global, number: u32) -> Result<Vec<u32>, AllocError> {
    let mut near = Vec::new(alloc);
    for number in numbers_near(alloc, u64::from(number))? {
        if let Ok(number) = u32::try_from(number) {
            near.push(number)?;
        }
    }
    Ok(near)
}

/// A multiple of a field and what is added to it, with each of its numbers changed, but those of fields.
fn sums_near(alloc: Global, sum: &Value) -> Result<Vec<Value>, AllocError> {
    let mut near = Vec::new(alloc);
    match *sum {
        Value::Sum(within, field, times, added) => {
            for times in short_numbers_near(alloc, times)? {
                near.push(Value::Sum(within, field, times, added))?;
            }
            for added in short_numbers_near(alloc, added)? {
                near.push(Value::Sum(within, field, times, added))?;
            }
        }
        Value::SumOf(within, field, times, added) => {
            for times in short_numbers_near(alloc, times)? {
                near.push(Value::SumOf(within, field, times, added))?;
            }
        }
        Value::SumBits(within, times, mask, field, added) => {
            for times in [times.wrapping_sub(1), times.wrapping_add(1)] {
                near.push(Value::SumBits(within, times, mask, field, added))?;
            }
            for mask in [mask.wrapping_sub(1), mask.wrapping_add(1)] {
                near.push(Value::SumBits(within, times, mask, field, added))?;
            }
        }
        _ => {}
    }
    Ok(near)
}

/// A value with each of its numbers changed, but those of fields.
pub fn values_near(alloc: Global, value: &Value) -> Result<Vec<Value>, AllocError> {
    let mut near = Vec::new(alloc);
    match *value {
        Value::Number(number) => {
            for number in long_numbers_near(alloc, number)? {
                near.push(Value::Number(number))?;
            }
        }
        Value::Bits(within, field, mask) => {
            for mask in short_numbers_near(alloc, mask)? {
                near.push(Value::Bits(within, field, mask))?;
            }
        }
        Value::Behind(within, offset) => {
            for offset in long_numbers_near(alloc, offset)? {
                near.push(Value::Behind(within, offset))?;
            }
        }
        Value::Sum(..) | Value::SumOf(..) | Value::SumBits(..) => return sums_near(alloc, value),
        Value::Largest => near.push(Value::Number(u32::MAX))?,
        Value::Matrix(within, base, rows, columns) => {
            for base in short_numbers_near(alloc, base)? {
                near.push(Value::Matrix(within, base, rows, columns))?;
            }
        }
        Value::Offset(within, behind) => {
            for behind in short_numbers_near(alloc, behind)? {
                near.push(Value::Offset(within, behind))?;
            }
        }
        Value::FirstZero(within, from) => {
            for from in short_numbers_near(alloc, from)? {
                near.push(Value::FirstZero(within, from))?;
            }
        }
        Value::Of(..)
        | Value::Length(_)
        | Value::End(_)
        | Value::Product(..)
        | Value::Product3(..)
        | Value::Keyed(..)
        | Value::Pair(..)
        | Value::Excess(..) => {}
    }
    Ok(near)
}

/// Whether another comparison of a clause's values is the same: no number is below 0.
fn is_same_with_0(clause: &Clause, other: Test) -> bool {
    let nothing = Value::Number(0);
    match (clause.test, other) {
        (Test::Is, Test::UpTo) | (Test::UpTo, Test::Is) => clause.right == nothing,
        (Test::IsNot, Test::Below) | (Test::Below, Test::IsNot) => clause.left == nothing,
        _ => false,
    }
}

/// A comparison with each of its numbers changed, but those of fields, and each other comparison of its values.
pub fn clauses_near(alloc: Global, clause: &Clause) -> Result<Vec<Clause>, AllocError> {
    let Clause { left, test, right } = *clause;
    let mut near = Vec::new(alloc);
    for left in values_near(alloc, &left)? {
        near.push(Clause { left, test, right })?;
    }
    for right in values_near(alloc, &right)? {
        near.push(Clause { left, test, right })?;
    }
    for other in [Test::Is, Test::IsNot, Test::Below, Test::UpTo] {
        if other != test && !is_same_with_0(clause, other) {
            let test = other;
            near.push(Clause { left, test, right })?;
        }
    }
    Ok(near)
}

/// What stands for no bound in a kind.
const NO_BOUND: u16 = u16::MAX;

/// A kind with each of its numbers changed, but those that stand for no bound.
pub fn kinds_near(alloc: Global, kind: &Kind) -> Result<Vec<Kind>, AllocError> {
    let Kind {
        first,
        last,
        least,
        most,
    } = *kind;
    let mut near = Vec::new(alloc);
    for first in short_numbers_near(alloc, first)? {
        near.push(Kind { first, ..*kind })?;
    }
    if last != NO_BOUND {
        for last in short_numbers_near(alloc, last)? {
            near.push(Kind { last, ..*kind })?;
        }
    }
    if least != 0 {
        for least in short_numbers_near(alloc, least)? {
            near.push(Kind { least, ..*kind })?;
        }
    }
    if most != NO_BOUND {
        for most in short_numbers_near(alloc, most)? {
            near.push(Kind { most, ..*kind })?;
        }
    }
    Ok(near)
}
