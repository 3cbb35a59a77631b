//! Which edited rows find something else than the unedited one.

use crate::changes::{bytes_of_clause, changes_of_clause};
use crate::lists::List;
use crate::pair::{Change, Pair};
use crate::seeds::Seed;
use acpi_rules::{Clause, Row, first_finding};
use std::alloc::{AllocError, Global};

/// Marks the edited rows that find something else in two tables, and returns how many are left without a mark.
fn mark(
    alloc: Global,
    row: &Row<'static>,
    edited: &[Row<'static>],
    pair: &Pair,
    seen: &mut [bool],
) -> Result<usize, AllocError> {
    let tables = pair.tables();
    let found = first_finding(alloc, row, &tables)?;
    let mut left: usize = 0;
    for (one, is_seen) in edited.iter().zip(seen.iter_mut()) {
        if !*is_seen {
            if first_finding(alloc, one, &tables)? == found {
                left = left.saturating_add(1);
            } else {
                *is_seen = true;
            }
        }
    }
    Ok(left)
}

/// Marks the edited rows that find something else in two tables with one of some changes; returns how many are left.
fn mark_changed(
    alloc: Global,
    row: &Row<'static>,
    edited: &[Row<'static>],
    pair: &Pair,
    changes: &[Change],
    seen: &mut [bool],
) -> Result<usize, AllocError> {
    let mut left = mark(alloc, row, edited, pair, seen)?;
    for change in changes {
        if left == 0 {
            break;
        }
        left = mark(alloc, row, edited, &pair.changed(alloc, change)?, seen)?;
    }
    Ok(left)
}

/// Marks the edited rows that find something else in the tables of a seed, as these are or with a change.
pub fn search(
    alloc: Global,
    row: &Row<'static>,
    edited: &[Row<'static>],
    seeds: &[Seed],
    seen: &mut [bool],
) -> Result<(), AllocError> {
    for seed in seeds {
        if mark_changed(alloc, row, edited, &seed.pair, &seed.changes, seen)? == 0 {
            break;
        }
    }
    Ok(())
}

/// On how many seeds two changes are made.
const DEEP_SEEDS: usize = 16;

/// Marks the edited rows that find something else in the tables of a seed with two changes around the fields of a
/// clause.
pub fn search_deep(
    alloc: Global,
    row: &Row<'static>,
    edited: &[Row<'static>],
    list: &List,
    clause: &Clause,
    seeds: &[Seed],
    seen: &mut [bool],
) -> Result<(), AllocError> {
    for seed in seeds.iter().take(DEEP_SEEDS) {
        for of in seed.structures.iter() {
            let bytes = bytes_of_clause(alloc, list, *of, clause)?;
            let writes = changes_of_clause(alloc, &seed.pair, list, *of, clause)?;
            for write in writes.iter() {
                let pair = seed.pair.changed(alloc, write)?;
                if mark_changed(alloc, row, edited, &pair, &writes, seen)? == 0
                    || mark_changed(alloc, row, edited, &pair, &bytes, seen)? == 0
                {
                    return Ok(());
                }
            }
        }
    }
    Ok(())
}
