//! The edits of a case, and rows with edited cases. What an edited row refers to is kept until the program ends, so
//! that it has the type of the rows themselves.

use crate::near::{clauses_near, values_near};
use acpi_rules::{Case, Clause, Clauses, Field, Guard, Kind, Known, Row, Value, Within};
use std::alloc::{AllocError, Global};

/// A change of one number or one comparison of a case.
#[derive(Clone, Copy, Debug)]
pub enum Edit {
    /// The clause at an index is another one.
    Clause(usize, Clause),
    /// The place is another one.
    Place(u16),
    /// The value is another one.
    Value(Value),
    /// The number is another one.
    Number(Value),
}

/// What of a case is read beside its kind and its clauses.
#[derive(Clone, Copy, Debug)]
pub struct Reads {
    /// The place.
    pub place: bool,
    /// The value.
    pub value: bool,
    /// The number.
    pub number: bool,
}

/// The edits of a case, but those of its kind and of fields.
pub fn edits_of(alloc: Global, case: &Case<'_>, reads: Reads) -> Result<Vec<Edit>, AllocError> {
    let (_, clauses, place, value, number) = *case;
    let mut edits = Vec::new(alloc);
    for (index, clause) in clauses.as_slice().iter().enumerate() {
        for near in clauses_near(alloc, clause)? {
            edits.push(Edit::Clause(index, near))?;
        }
    }
    if reads.place {
        if let Some(less) = place.checked_sub(1) {
            edits.push(Edit::Place(less))?;
        }
        if let Some(more) = place.checked_add(1) {
            edits.push(Edit::Place(more))?;
        }
    }
    if reads.value {
        for near in values_near(alloc, &value)? {
            edits.push(Edit::Value(near))?;
        }
    }
    if reads.number {
        for near in values_near(alloc, &number)? {
            edits.push(Edit::Number(near))?;
        }
    }
    Ok(edits)
}

/// Clauses that stay: an edited row has references to them until the program ends.
fn kept_clauses(clauses: Vec<Clause>) -> Clauses<&'static [Clause]> {
    Clauses::All(clauses.leak())
}

/// Cases that stay.
fn kept_cases(cases: Vec<Case<'static>>) -> &'static [Case<'static>] {
    cases.leak()
}

/// Conditions that stay.
fn kept_guards(guards: Vec<Guard<'static>>) -> &'static [Guard<'static>] {
    guards.leak()
}

/// A case after an edit.
fn edited_case(
    alloc: Global,
    case: &Case<'static>,
    edit: &Edit,
) -> Result<Case<'static>, AllocError> {
    let (kind, clauses, place, value, number) = *case;
    match *edit {
        Edit::Clause(index, near) => {
            let mut edited = Vec::from_slice(alloc, clauses.as_slice())?;
            if let Some(clause) = edited.get_mut(index) {
                *clause = near;
            }
            Ok((kind, kept_clauses(edited), place, value, number))
        }
        Edit::Place(near) => Ok((kind, clauses, near, value, number)),
        Edit::Value(near) => Ok((kind, clauses, place, near, number)),
        Edit::Number(near) => Ok((kind, clauses, place, value, near)),
    }
}

/// Cases of which one is edited.
pub fn edited_cases(
    alloc: Global,
    cases: &'static [Case<'static>],
    index: usize,
    edit: &Edit,
) -> Result<&'static [Case<'static>], AllocError> {
    let mut edited = Vec::new(alloc);
    for (at, case) in cases.iter().enumerate() {
        if at == index {
            edited.push(edited_case(alloc, case, edit)?)?;
        } else {
            edited.push(*case)?;
        }
    }
    Ok(kept_cases(edited))
}

/// Cases with a kind in the place of another one.
pub fn cases_of_kind(
    alloc: Global,
    cases: &'static [Case<'static>],
    from: Kind,
    to: Kind,
) -> Result<&'static [Case<'static>], AllocError> {
    let mut edited = Vec::new(alloc);
    for (kind, clauses, place, value, number) in cases {
        let kind = if *kind == from { to } else { *kind };
        edited.push((kind, *clauses, *place, *value, *number))?;
    }
    Ok(kept_cases(edited))
}

/// Which fields are replaced in the cases of a list, and by what: those of the structures of a type, of those that they
/// are in, of their table, and of the other table.
#[derive(Clone, Copy, Debug)]
pub struct Swap {
    /// The field.
    pub from: Field,
    /// The one that takes its place.
    pub to: Field,
    /// The type of the structures of which it is a field; none if it is not a field of the structures.
    pub own: Option<u16>,
    /// Whether it is a field of the structures that they are in.
    pub is_around: bool,
    /// Whether it is a field of their table.
    pub is_of_table: bool,
    /// Whether it is a field of the other table.
    pub is_of_other: bool,
}

impl Swap {
    /// The field that a case about a kind of structures reads.
    fn field(&self, kind: u16, within: Within, field: Field) -> Field {
        let is_meant = match within {
            Within::Own => self.own == Some(kind),
            Within::Around => self.is_around,
            Within::Other => self.is_of_other,
            Within::Outer | Within::Table => self.is_of_table,
        };
        if is_meant && field == self.from {
            self.to
        } else {
            field
        }
    }

    /// The value.
    fn value(&self, kind: u16, value: &Value) -> Value {
        match *value {
            Value::Of(within, field) => Value::Of(within, self.field(kind, within, field)),
            Value::Bits(within, field, mask) => {
                Value::Bits(within, self.field(kind, within, field), mask)
            }
            Value::Sum(within, field, times, added) => {
                Value::Sum(within, self.field(kind, within, field), times, added)
            }
            Value::Keyed(within, field) => {
                Value::Keyed(within, self.field(kind, Within::Own, field))
            }
            Value::SumOf(..)
            | Value::SumBits(..)
            | Value::Product(..)
            | Value::Product3(..)
            | Value::Matrix(..)
            | Value::Pair(..)
            | Value::Excess(..) => self.value_of_fields(kind, value),
            Value::Number(_)
            | Value::Largest
            | Value::Length(_)
            | Value::Behind(..)
            | Value::Offset(..)
            | Value::End(_)
            | Value::FirstZero(..) => *value,
        }
    }

    /// One of several fields.
    fn value_of_fields(&self, kind: u16, value: &Value) -> Value {
        let own = |field| self.field(kind, Within::Own, field);
        match *value {
            Value::SumOf(within, field, times, added) => Value::SumOf(
                within,
                self.field(kind, within, field),
                times,
                self.field(kind, within, added),
            ),
            Value::SumBits(within, times, mask, field, added) => Value::SumBits(
                within,
                times,
                mask,
                self.field(kind, within, field),
                self.field(kind, within, added),
            ),
            Value::Product(within, one, other) => {
                Value::Product(within, self.field(kind, within, one), own(other))
            }
            Value::Product3(one, other, third) => {
                Value::Product3(own(one), own(other), own(third))
            }
            Value::Matrix(within, base, rows, columns) => Value::Matrix(
                within,
                base,
                self.field(kind, within, rows),
                self.field(kind, within, columns),
            ),
            Value::Pair(one, other) => Value::Pair(own(one), own(other)),
            Value::Excess(one, other) => Value::Excess(own(one), own(other)),
            Value::Number(_)
            | Value::Of(..)
            | Value::Largest
            | Value::Bits(..)
            | Value::Length(_)
            | Value::Behind(..)
            | Value::Offset(..)
            | Value::End(_)
            | Value::Sum(..)
            | Value::Keyed(..)
            | Value::FirstZero(..) => *value,
        }
    }
}

/// A case in which a field is replaced.
fn swapped_case(
    alloc: Global,
    case: &Case<'static>,
    swap: &Swap,
) -> Result<Case<'static>, AllocError> {
    let (kind, clauses, place, value, number) = *case;
    let of = kind.first;
    let mut swapped = Vec::new(alloc);
    for clause in clauses.as_slice() {
        swapped.push(Clause {
            left: swap.value(of, &clause.left),
            test: clause.test,
            right: swap.value(of, &clause.right),
        })?;
    }
    let (value, number) = (swap.value(of, &value), swap.value(of, &number));
    Ok((kind, kept_clauses(swapped), place, value, number))
}

/// Cases in which a field is replaced.
pub fn swapped_cases(
    alloc: Global,
    cases: &'static [Case<'static>],
    swap: &Swap,
) -> Result<&'static [Case<'static>], AllocError> {
    let mut edited = Vec::new(alloc);
    for case in cases {
        edited.push(swapped_case(alloc, case, swap)?)?;
    }
    Ok(kept_cases(edited))
}

/// Cases without one of them.
pub fn cases_without(
    alloc: Global,
    cases: &'static [Case<'static>],
    index: usize,
) -> Result<&'static [Case<'static>], AllocError> {
    let mut left = Vec::new(alloc);
    for (at, case) in cases.iter().enumerate() {
        if at != index {
            left.push(*case)?;
        }
    }
    Ok(kept_cases(left))
}

/// Conditions of which one has other cases.
fn guards_with(
    alloc: Global,
    guards: &'static [Guard<'static>],
    index: usize,
    cases: &'static [Case<'static>],
) -> Result<&'static [Guard<'static>], AllocError> {
    let mut edited = Vec::new(alloc);
    for (at, guard) in guards.iter().enumerate() {
        let (need, source, path, own) = *guard;
        let cases = if at == index { cases } else { own };
        edited.push((need, source, path, cases))?;
    }
    Ok(kept_guards(edited))
}

/// What numbers are looked up in, with other cases in the first of its lists or in the second one.
fn known_with(
    alloc: Global,
    known: Option<&'static Known<'static>>,
    is_first: bool,
    cases: &'static [Case<'static>],
) -> Result<Option<&'static Known<'static>>, AllocError> {
    let Some((source, (path, among, except))) = known else {
        return Ok(None);
    };
    let numbers = if is_first {
        (*path, cases, *except)
    } else {
        (*path, *among, cases)
    };
    let kept = vec![in alloc; (*source, numbers)]?;
    Ok(kept.leak().first())
}

/// A row with other cases in one of its lists, which are counted as `lists_of` does.
pub fn row_with(
    alloc: Global,
    row: &Row<'static>,
    list: usize,
    cases: &'static [Case<'static>],
) -> Result<Row<'static>, AllocError> {
    let (number, form, guards, numbers, known) = *row;
    let (path, given, except) = numbers;
    let count = guards.len();
    if list < count {
        let guards = guards_with(alloc, guards, list, cases)?;
        return Ok((number, form, guards, numbers, known));
    }
    Ok(match list - count {
        0 => (number, form, guards, (path, cases, except), known),
        1 => (number, form, guards, (path, given, cases), known),
        behind => {
            let known = known_with(alloc, known, behind == 2, cases)?;
            (number, form, guards, numbers, known)
        }
    })
}
