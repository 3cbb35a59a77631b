//! The report on all edits.

use crate::changes::fields_of_case;
use crate::edits::{Edit, Reads, cases_of_kind, edited_cases, edits_of, row_with};
use crate::fields::{FieldEdits, Owner, index_of_field, mark_fields, owner_of};
use crate::lists::{List, Role, lists_of};
use crate::near::kinds_near;
use crate::pair::Pair;
use crate::search::{search, search_deep};
use crate::seeds::{Aim, Seed, seeds_of};
use crate::sets::{Set, pairs_of};
use crate::shared::{Shared, Use, shared_lists, table_of};
use crate::text::{ClauseText, KindText, TableText, ValueText};
use acpi_lint::{RowGroup, RowTable};
use acpi_rules::{Case, Clause, Field, Kind, Path, Row};
use std::alloc::{AllocError, Global};
use std::io;

/// The edits of a kind of structures of a table, and whether each is seen.
#[derive(Debug, Drop)]
struct KindEdits {
    table: RowTable,
    kind: Kind,
    edits: Vec<Kind>,
    seen: Vec<bool>,
}

/// The edits of what rows share.
#[derive(Debug, Drop)]
struct EditsOfAll {
    kinds: Vec<KindEdits>,
    fields: Vec<FieldEdits>,
}

/// How many edits were tried, and how many were not seen.
#[derive(Clone, Copy, Debug)]
struct Counts {
    tried: usize,
    unseen: usize,
}

/// Whether an edit is of the clause at an index.
fn is_of_clause(edit: &Edit, index: usize) -> bool {
    match edit {
        Edit::Clause(at, _) => *at == index,
        _ => false,
    }
}

/// The row of an aim after an edit.
fn edited_row(
    alloc: Global,
    aim: &Aim,
    cases: &'static [Case<'static>],
    edit: &Edit,
) -> Result<Row<'static>, AllocError> {
    let edited = edited_cases(alloc, cases, aim.case, edit)?;
    row_with(alloc, &aim.row, aim.list, edited)
}

/// Marks the edits of a case that are seen.
fn mark_edits(
    alloc: Global,
    aim: &Aim,
    cases: &'static [Case<'static>],
    edits: &[Edit],
    seeds: &[Seed],
    seen: &mut [bool],
) -> Result<(), AllocError> {
    let mut rows = Vec::new(alloc);
    for edit in edits {
        rows.push(edited_row(alloc, aim, cases, edit)?)?;
    }
    search(alloc, &aim.row, &rows, seeds, seen)?;
    let lists = lists_of(alloc, &aim.row)?;
    if let Some(list) = lists.get(aim.list)
        && let Some(case) = cases.get(aim.case)
    {
        mark_clauses(alloc, aim, list, case, edits, seeds, seen)?;
    }
    Ok(())
}

/// Marks the edits of the clauses of a case that are seen only after two changes.
fn mark_clauses(
    alloc: Global,
    aim: &Aim,
    list: &List,
    case: &Case<'static>,
    edits: &[Edit],
    seeds: &[Seed],
    seen: &mut [bool],
) -> Result<(), AllocError> {
    for (index, clause) in case.1.as_slice().iter().enumerate() {
        mark_clause(alloc, aim, list, (index, clause), edits, seeds, seen)?;
    }
    Ok(())
}

/// Marks the edits of a clause that are seen only after two changes.
fn mark_clause(
    alloc: Global,
    aim: &Aim,
    list: &List,
    (index, clause): (usize, &Clause),
    edits: &[Edit],
    seeds: &[Seed],
    seen: &mut [bool],
) -> Result<(), AllocError> {
    let mut left = Vec::new(alloc);
    for (edit, is_seen) in edits.iter().zip(seen.iter()) {
        if !*is_seen && is_of_clause(edit, index) {
            left.push(edited_row(alloc, aim, list.cases, edit)?)?;
        }
    }
    let mut found = vec![in alloc; false; left.len()]?;
    search_deep(alloc, &aim.row, &left, list, clause, seeds, &mut found)?;
    let mut next = found.iter();
    for (edit, is_seen) in edits.iter().zip(seen.iter_mut()) {
        if !*is_seen && is_of_clause(edit, index) {
            *is_seen = next.next().copied().unwrap_or(false);
        }
    }
    Ok(())
}

/// A row with a kind in the place of another one, in its lists on a table.
fn row_of_kind(
    alloc: Global,
    row: &Row<'static>,
    group: &RowGroup<'static>,
    of: &KindEdits,
    to: Kind,
) -> Result<Row<'static>, AllocError> {
    let mut edited = *row;
    for (index, list) in lists_of(alloc, row)?.iter().enumerate() {
        if table_of(group, list.source) == of.table {
            let cases = cases_of_kind(alloc, list.cases, of.kind, to)?;
            edited = row_with(alloc, &edited, index, cases)?;
        }
    }
    Ok(edited)
}

/// Marks the edits of a kind that are seen.
fn mark_kinds(
    alloc: Global,
    aim: &Aim,
    group: &RowGroup<'static>,
    of: &mut KindEdits,
    seeds: &[Seed],
) -> Result<(), AllocError> {
    let mut rows = Vec::new(alloc);
    for to in of.edits.iter() {
        rows.push(row_of_kind(alloc, &aim.row, group, of, *to)?)?;
    }
    search(alloc, &aim.row, &rows, seeds, &mut of.seen)
}

/// The index of the edits of a kind, which are added where they are not there yet.
fn index_of_kind(
    alloc: Global,
    all: &mut Vec<KindEdits>,
    table: RowTable,
    kind: Kind,
) -> Result<usize, AllocError> {
    for (index, of) in all.iter().enumerate() {
        if of.table == table && of.kind == kind {
            return Ok(index);
        }
    }
    let edits = kinds_near(alloc, &kind)?;
    let seen = vec![in alloc; false; edits.len()]?;
    all.push(KindEdits {
        table,
        kind,
        edits,
        seen,
    })?;
    Ok(all.len().saturating_sub(1))
}

/// What of the cases of a list is read in one of its uses.
fn reads_of(shared: &Shared) -> Reads {
    Reads {
        place: shared
            .uses
            .iter()
            .any(|used| used.role.reads_place(used.row.1)),
        value: !shared.is_beside,
        number: shared.uses.iter().any(|used| used.role.reads_number()),
    }
}

/// The word for a list.
fn role_word(role: Role) -> &'static str {
    match role {
        Role::Guard(_) => "guard",
        Role::Given => "cases",
        Role::Except => "except",
        Role::Known => "among",
        Role::KnownExcept => "among except",
    }
}

/// Prints an edit of a case that is not seen.
fn print_edit(
    rt: &impl Print,
    used: &Use,
    index: usize,
    case: &Case<'_>,
    edit: &Edit,
) -> io::Result<()> {
    let Use {
        group,
        at,
        list,
        ..
    } = *used;
    let number = used.row.0;
    let word = role_word(used.role);
    print!(rt; "{number} row {group}.{at} {word} {list}.{index} ")?;
    match edit {
        Edit::Clause(clause, to) => match case.1.as_slice().get(*clause) {
            Some(from) => {
                let from = ClauseText(from);
                let to = ClauseText(to);
                println!(rt; "clause {clause}: {from} -> {to}")
            }
            None => println!(rt; "clause {clause}"),
        },
        Edit::Place(to) => {
            let from = case.2;
            println!(rt; "place: {from} -> {to}")
        }
        Edit::Value(to) => {
            let from = ValueText(&case.3);
            let to = ValueText(to);
            println!(rt; "value: {from} -> {to}")
        }
        Edit::Number(to) => {
            let from = ValueText(&case.4);
            let to = ValueText(to);
            println!(rt; "number: {from} -> {to}")
        }
    }
}

/// Prints the edits of a kind that are not seen.
fn print_kinds(rt: &impl Print, of: &KindEdits, counts: &mut Counts) -> io::Result<()> {
    for (to, is_seen) in of.edits.iter().zip(of.seen.iter()) {
        counts.tried = counts.tried.saturating_add(1);
        if !*is_seen {
            counts.unseen = counts.unseen.saturating_add(1);
            let table = TableText(of.table);
            let from = KindText(&of.kind);
            let to = KindText(to);
            println!(rt; "{table}: {from} -> {to}")?;
        }
    }
    Ok(())
}

/// Marks the edits of the fields that a case reads.
fn mark_fields_of(
    alloc: Global,
    aim: &Aim,
    group: &RowGroup<'static>,
    case: &Case<'static>,
    seeds: &[Seed],
    fields: &mut Vec<FieldEdits>,
) -> Result<(), AllocError> {
    let lists = lists_of(alloc, &aim.row)?;
    let Some(list) = lists.get(aim.list) else {
        return Ok(());
    };
    for (within, field) in fields_of_case(alloc, case)? {
        let owner = owner_of(group, list, case.0.first, within);
        let at = index_of_field(alloc, fields, owner, field)?;
        if let Some(of) = fields.get_mut(at) {
            mark_fields(alloc, aim, group, of, seeds)?;
        }
    }
    Ok(())
}

/// Marks the edits of a case in one use of its list, and those of its kind and its fields, that are seen.
fn mark_use(
    alloc: Global,
    (group, bases): (&RowGroup<'static>, &[Pair]),
    shared: &Shared,
    aim: &Aim,
    edits: &[Edit],
    all: &mut EditsOfAll,
    seen: &mut [bool],
) -> Result<(), AllocError> {
    let Some(case) = shared.cases.get(aim.case) else {
        return Ok(());
    };
    let seeds = seeds_of(alloc, bases, aim)?;
    mark_edits(alloc, aim, shared.cases, edits, &seeds, seen)?;
    let at = index_of_kind(alloc, &mut all.kinds, shared.table, case.0)?;
    if let Some(of) = all.kinds.get_mut(at) {
        mark_kinds(alloc, aim, group, of, &seeds)?;
    }
    mark_fields_of(alloc, aim, group, case, &seeds, &mut all.fields)
}

/// The report on the edits of a case of a list.
fn report_case(
    rt: &impl Print,
    alloc: Global,
    (groups, bases): (&[RowGroup<'static>], &[Vec<Pair>]),
    shared: &Shared,
    index: usize,
    all: &mut EditsOfAll,
    counts: &mut Counts,
) -> io::Result<()> {
    let Some(case) = shared.cases.get(index) else {
        return Ok(());
    };
    let edits = edits_of(alloc, case, reads_of(shared))?;
    let mut seen = vec![in alloc; false; edits.len()]?;
    for used in shared.uses.iter() {
        let aim = Aim {
            row: used.row,
            list: used.list,
            case: index,
        };
        if let Some(own) = bases.get(used.group)
            && let Some(group) = groups.get(used.group)
        {
            let both = (group, own.as_slice());
            mark_use(alloc, both, shared, &aim, &edits, all, &mut seen)?;
        }
    }
    for (edit, is_seen) in edits.iter().zip(seen.iter()) {
        counts.tried = counts.tried.saturating_add(1);
        if !*is_seen {
            counts.unseen = counts.unseen.saturating_add(1);
            if let Some(used) = shared.uses.first() {
                print_edit(rt, used, index, case, edit)?;
            }
        }
    }
    Ok(())
}

/// Prints the edits of a field that are not seen.
fn print_fields(rt: &impl Print, of: &FieldEdits, counts: &mut Counts) -> io::Result<()> {
    for (to, is_seen) in of.edits.iter().zip(of.seen.iter()) {
        counts.tried = counts.tried.saturating_add(1);
        if !*is_seen {
            counts.unseen = counts.unseen.saturating_add(1);
            let Owner { table, path, kind } = of.owner;
            let table = TableText(table);
            let (at, width) = (of.field.at(), of.field.width());
            let (to_at, to_width) = (to.at(), to.width());
            match path {
                Path::Table => print!(rt; "{table} ")?,
                Path::Entries(_) => print!(rt; "{table} type {kind} ")?,
                Path::Inside(_, row) | Path::Innermost(_, row, _) => {
                    let outer = row.first;
                    print!(rt; "{table} inside type {outer} ")?
                }
            }
            println!(rt; "field: {at}:{width} -> {to_at}:{to_width}")?;
        }
    }
    Ok(())
}

/// Reports the edits of rows that are not seen on these sets, nor on what is built from them; last how many were tried.
pub fn report_unseen(
    rt: &impl Print,
    alloc: Global,
    groups: &[RowGroup<'static>],
    sets: &[Set<'_>],
) -> io::Result<()> {
    let mut bases = Vec::new(alloc);
    for group in groups {
        bases.push(pairs_of(alloc, sets, group.0, group.1)?)?;
    }
    let mut counts = Counts {
        tried: 0,
        unseen: 0,
    };
    let mut all = EditsOfAll {
        kinds: Vec::new(alloc),
        fields: Vec::new(alloc),
    };
    for shared in shared_lists(alloc, groups)? {
        for index in 0..shared.cases.len() {
            let both = (groups, bases.as_slice());
            report_case(rt, alloc, both, &shared, index, &mut all, &mut counts)?;
        }
    }
    for of in all.kinds.iter() {
        print_kinds(rt, of, &mut counts)?;
    }
    for of in all.fields.iter() {
        print_fields(rt, of, &mut counts)?;
    }
    let Counts { tried, unseen } = counts;
    println!(rt; "{tried} edits, {unseen} unseen")
}
