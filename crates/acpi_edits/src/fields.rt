//! The edits of fields: of each field of a kind of structures, or of a table, in all rows that read it.

use crate::edits::{Swap, row_with, swapped_cases};
use crate::lists::{List, lists_of};
use crate::near::fields_near;
use crate::search::search;
use crate::seeds::{Aim, Seed};
use crate::shared::{other_table, table_of};
use acpi_lint::{RowGroup, RowTable};
use acpi_rules::{Field, Path, Row, Within};
use std::alloc::{AllocError, Global};

/// Of what a field is one: of a table, or of structures of a type in it.
#[derive(Clone, Copy, Debug, PartialEq, Eq)]
pub struct Owner {
    /// The table.
    pub table: RowTable,
    /// The path to the structures, or to the table.
    pub path: Path,
    /// Their lowest type.
    pub kind: u16,
}

/// The edits of a field, and whether each is seen.
#[derive(Debug, Drop)]
pub struct FieldEdits {
    /// Of what it is a field.
    pub owner: Owner,
    /// The field.
    pub field: Field,
    /// The fields that take its place.
    pub edits: Vec<Field>,
    /// Whether each of these is seen.
    pub seen: Vec<bool>,
}

/// The structures that those of a path are in, and their lowest type.
fn around(path: &Path) -> (Path, u16) {
    match *path {
        Path::Inside(series, row) => (Path::Entries(series), row.first),
        Path::Innermost(series, row, inner) => (Path::Inside(series, row), inner.first),
        _ => (Path::Table, 0),
    }
}

/// Of what a field is one that a case of a list reads.
pub fn owner_of(group: &RowGroup<'static>, list: &List, kind: u16, within: Within) -> Owner {
    let table = match within {
        Within::Other => other_table(group, list.source),
        _ => table_of(group, list.source),
    };
    let (path, kind) = match within {
        Within::Own => (*list.path, kind),
        Within::Around => around(list.path),
        Within::Outer | Within::Table | Within::Other => (Path::Table, 0),
    };
    Owner { table, path, kind }
}

/// The index of the edits of a field, which are added where they are not there yet.
pub fn index_of_field(
    alloc: Global,
    all: &mut Vec<FieldEdits>,
    owner: Owner,
    field: Field,
) -> Result<usize, AllocError> {
    for (index, of) in all.iter().enumerate() {
        if of.owner == owner && of.field == field {
            return Ok(index);
        }
    }
    let edits = fields_near(alloc, field)?;
    let seen = vec![in alloc; false; edits.len()]?;
    all.push(FieldEdits {
        owner,
        field,
        edits,
        seen,
    })?;
    Ok(all.len().saturating_sub(1))
}

/// Which fields of the cases of a list are replaced.
fn swap_in(group: &RowGroup<'static>, list: &List, of: &FieldEdits, to: Field) -> Swap {
    let is_own = of.owner == owner_of(group, list, of.owner.kind, Within::Own);
    Swap {
        from: of.field,
        to,
        own: is_own.then_some(of.owner.kind),
        is_around: of.owner == owner_of(group, list, 0, Within::Around),
        is_of_table: of.owner == owner_of(group, list, 0, Within::Table),
        is_of_other: of.owner == owner_of(group, list, 0, Within::Other),
    }
}

/// A row in which a field is replaced.
fn row_with_field(
    alloc: Global,
    row: &Row<'static>,
    group: &RowGroup<'static>,
    of: &FieldEdits,
    to: Field,
) -> Result<Row<'static>, AllocError> {
    let mut edited = *row;
    for (index, list) in lists_of(alloc, row)?.iter().enumerate() {
        let swap = swap_in(group, list, of, to);
        let cases = swapped_cases(alloc, list.cases, &swap)?;
        edited = row_with(alloc, &edited, index, cases)?;
    }
    Ok(edited)
}

/// Marks the edits of a field that are seen.
pub fn mark_fields(
    alloc: Global,
    aim: &Aim,
    group: &RowGroup<'static>,
    of: &mut FieldEdits,
    seeds: &[Seed],
) -> Result<(), AllocError> {
    if of.seen.iter().all(|is_seen| *is_seen) {
        return Ok(());
    }
    let mut rows = Vec::new(alloc);
    for to in of.edits.iter() {
        rows.push(row_with_field(alloc, &aim.row, group, of, *to)?)?;
    }
    search(alloc, &aim.row, &rows, seeds, &mut of.seen)
}
