//! The lists of cases of all rows: a condition that several rows share is one list.

use crate::lists::{Role, lists_of};
use acpi_lint::{RowGroup, RowTable};
use acpi_rules::{Case, Row, Source};
use std::alloc::{AllocError, Global};

/// Where a list of cases is used.
#[derive(Clone, Copy, Debug)]
pub struct Use {
    /// In which group of rows.
    pub group: usize,
    /// In which row of it.
    pub at: usize,
    /// The row.
    pub row: Row<'static>,
    /// In which list of the row.
    pub list: usize,
    /// What it is for there.
    pub role: Role,
}

/// A list of cases, and where it is used.
#[derive(Debug, Drop)]
pub struct Shared {
    /// The table of the structures.
    pub table: RowTable,
    /// The cases.
    pub cases: &'static [Case<'static>],
    /// Whether it is a condition, or numbers among which others are looked up.
    pub is_beside: bool,
    /// Where it is used.
    pub uses: Vec<Use>,
}

/// Whether two lists have the same cases.
fn are_same(one: &[Case<'_>], other: &[Case<'_>]) -> bool {
    one.len() == other.len()
        && one.iter().zip(other.iter()).all(|(one, other)| {
            one.0 == other.0
                && one.1 == other.1
                && one.2 == other.2
                && one.3 == other.3
                && one.4 == other.4
        })
}

/// The table that a list of a group is about.
pub fn table_of(group: &RowGroup<'_>, source: Source) -> RowTable {
    match (source, group.1) {
        (Source::Other, Some(other)) => other,
        _ => group.0,
    }
}

/// The other table of a list of a group; its own where there is none.
pub fn other_table(group: &RowGroup<'_>, source: Source) -> RowTable {
    match (source, group.1) {
        (Source::Table, Some(other)) => other,
        _ => group.0,
    }
}

/// Adds a use of a list.
fn add(
    alloc: Global,
    all: &mut Vec<Shared>,
    table: RowTable,
    cases: &'static [Case<'static>],
    used: Use,
) -> Result<(), AllocError> {
    let is_beside = used.role != Role::Given;
    for shared in all.iter_mut() {
        if is_beside && shared.is_beside && shared.table == table && are_same(shared.cases, cases) {
            shared.uses.push(used)?;
            return Ok(());
        }
    }
    let mut uses = Vec::new(alloc);
    uses.push(used)?;
    all.push(Shared {
        table,
        cases,
        is_beside,
        uses,
    })?;
    Ok(())
}

/// The lists of cases of these rows.
pub fn shared_lists(
    alloc: Global,
    groups: &[RowGroup<'static>],
) -> Result<Vec<Shared>, AllocError> {
    let mut all = Vec::new(alloc);
    for (group, rows) in groups.iter().enumerate() {
        for (at, row) in rows.2.iter().enumerate() {
            for (list, of) in lists_of(alloc, row)?.iter().enumerate() {
                let used = Use {
                    group,
                    at,
                    row: *row,
                    list,
                    role: of.role,
                };
                if !of.cases.is_empty() {
                    add(alloc, &mut all, table_of(rows, of.source), of.cases, used)?;
                }
            }
        }
    }
    Ok(all)
}
