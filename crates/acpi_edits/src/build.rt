//! Tables built so that a case holds.

use crate::changes::{LONGEST, changes_of_clause, head_of};
use crate::lists::List;
use crate::pair::{Pair, Structure, put_field, structures};
use acpi_rules::{
    Case, Clause, Clauses, Form, Head, Kind, Row, Source, Tables, Value, first_finding,
};
use std::alloc::{AllocError, Global};

/// The tables as a path through one of them sees them.
fn seen(pair: &Pair, source: Source) -> Tables<'_> {
    let Tables { table, other } = pair.tables();
    match source {
        Source::Table => Tables { table, other },
        Source::Other => Tables {
            table: other,
            other: table,
        },
    }
}

/// The offset of the first structure of a kind for which clauses hold.
pub fn first_with(
    alloc: Global,
    pair: &Pair,
    list: &List,
    kind: Kind,
    clauses: &[Clause],
) -> Result<Option<u64>, AllocError> {
    let nothing = Value::Number(0);
    let cases: [Case<'_>; 1] = [(kind, Clauses::All(clauses), 0, nothing, nothing)];
    let row: Row<'_> = (0, Form::Given, &[], (list.path, &cases, &[]), None);
    let found = first_finding(alloc, &row, &seen(pair, list.source))?;
    Ok(found.map(|place| place.at))
}

/// The structure of a list at an offset.
fn structure_at(
    alloc: Global,
    pair: &Pair,
    list: &List,
    at: u64,
) -> Result<Option<Structure>, AllocError> {
    for structure in structures(alloc, list.path, pair.bytes(list.source))? {
        if structure.at as u64 == at {
            return Ok(Some(structure));
        }
    }
    Ok(None)
}

/// Changes one of two tables so that clauses hold for a structure, of which all but the last do; whether that was
/// possible.
fn make_hold(
    alloc: Global,
    pair: &mut Pair,
    list: &List,
    kind: Kind,
    clauses: &[Clause],
) -> Result<bool, AllocError> {
    let Some((last, before)) = clauses.split_last() else {
        return Ok(true);
    };
    let Some(at) = first_with(alloc, pair, list, kind, before)? else {
        return Ok(false);
    };
    let Some(of) = structure_at(alloc, pair, list, at)? else {
        return Ok(false);
    };
    for change in changes_of_clause(alloc, pair, list, of, last)? {
        let changed = pair.changed(alloc, &change)?;
        if first_with(alloc, &changed, list, kind, clauses)?.is_some() {
            *pair = changed;
            return Ok(true);
        }
    }
    Ok(false)
}

/// An entry of a kind, of zeros but for its type and its length.
fn append_entry(
    alloc: Global,
    pair: &mut Pair,
    list: &List,
    head: Head,
    kind: Kind,
) -> Result<(), AllocError> {
    let size = kind.least.max(head.least).min(LONGEST as u16);
    let mut entry = vec![in alloc; 0u8; usize::from(size)]?;
    put_field(&mut entry, 0, head.kind, u64::from(kind.first));
    put_field(&mut entry, 0, head.length, u64::from(size));
    pair.append(list.source, &entry)
}

/// Changes one of two tables so that a case holds for a structure of it; whether that was possible.
pub fn satisfy(
    alloc: Global,
    pair: &mut Pair,
    list: &List,
    case: &Case<'_>,
) -> Result<bool, AllocError> {
    let (kind, clauses, ..) = case;
    let (kind, clauses) = (*kind, clauses.as_slice());
    if first_with(alloc, pair, list, kind, &[])?.is_none()
        && let Some(head) = head_of(list)
    {
        append_entry(alloc, pair, list, head, kind)?;
    }
    for count in 1..=clauses.len() {
        let some = &clauses[..count];
        if first_with(alloc, pair, list, kind, some)?.is_none()
            && !make_hold(alloc, pair, list, kind, some)?
        {
            return Ok(false);
        }
    }
    Ok(true)
}

/// Adds a copy of the first structure for which a case holds.
pub fn append_twin(
    alloc: Global,
    pair: &mut Pair,
    list: &List,
    case: &Case<'_>,
) -> Result<(), AllocError> {
    let Some(at) = first_with(alloc, pair, list, case.0, case.1.as_slice())? else {
        return Ok(());
    };
    let Some(of) = structure_at(alloc, pair, list, at)? else {
        return Ok(());
    };
    let mut twin = Vec::new(alloc);
    for byte in pair.bytes(list.source).iter().skip(of.at).take(of.size) {
        twin.push(*byte)?;
    }
    pair.append(list.source, &twin)
}
