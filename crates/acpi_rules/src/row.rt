//! Rules as rows, and the finding of each.

ghost use Rattle.std.specs.Prelude.{◌≡◌, ◌↔◌, false, AllPairs, Contains, IfOk, IsTrue, OnErr, map};
ghost use Rattle.std.specs.List.{list_all};
ghost use Rattle.std.specs.Option.{is_none};
ghost use Rattle.acpi_rules.specs.Cases.{case_value};
ghost use Rattle.acpi_rules.specs.Numbered.{IsNotAbove};
ghost use Rattle.acpi_rules.specs.Numbers.{Counts, has_except, numbers_value};
ghost use Rattle.acpi_rules.specs.Overlaps.{IsOverlap};
ghost use Rattle.acpi_rules.specs.Places.{FindsLeast};
ghost use Rattle.acpi_rules.specs.Rows.{InForm, IsBroken, IsCut, IsGivenByAny, IsGivenByRow, IsKnown, IsLookedUp, first_is_some, gives_two, guard_holds, guard_value, known_value, needs_memory, of_source, reported, row_value};
ghost use Rattle.acpi_rules.specs.Sites.{first_cut};
ghost use Rattle.acpi_rules.specs.Terms.{tables_value};
ghost use Rattle.acpi_rules.specs.declared.numbered.Numbered.{Numbered};

use crate::case::Case;
use crate::given::first_walked;
use crate::indexed_table::IndexedTable;
use crate::known::LookUp;
use crate::numbered::{Numbered, Repeat, first_repeated, sort_numbers};
use crate::numbers::{Numbers, counted, excepted};
use crate::overlap::{Range, first_overlap};
use crate::passes::{first_told, gives_any};
use crate::place::Place;
use crate::series::Path;
use crate::sites::{WalkedSites, first_cut};
use crate::term::Tables;
use std::alloc::{AllocError, Global};

/// Which of its two tables a path of a rule goes through.
#[derive(Clone, Copy, Debug, PartialEq, Eq)]
pub enum Source {
    /// The table that the rule is about.
    Table,
    /// The other one. There, the other one is the table that the rule is about.
    Other,
}

/// What is wanted of the structures of a path.
#[derive(Clone, Copy, Debug, PartialEq, Eq)]
pub enum Need {
    /// That one of them gives a number.
    Some,
    /// That none of them does.
    None,
    /// That more than one of them does.
    Two,
    /// That the first of them that gives one gives another than 0.
    First,
    /// That none of the walks that find them is cut, whatever they give.
    Whole,
}

/// A condition: what is wanted, of the structures of which table and path, and the cases in which one gives a number.
pub type Guard<'a> = (Need, Source, &'a Path, &'a [Case<'a>]);

/// What is reported of the numbers that structures give.
#[derive(Clone, Copy, Debug, PartialEq, Eq)]
pub enum Form {
    /// Each: its place, its value and the number.
    Given,
    /// Those that occur again.
    Repeated(Repeat),
    /// Those that are looked up, by whether they are found.
    LookedUp(LookUp),
    /// Two whose ranges overlap.
    Overlap(Range),
    /// None. The first cut of the walks that find the structures is: where it is, the length that is said there, and the
    /// end of what encloses it.
    Cut,
}

/// Numbers among which others are looked up, and the table that they are in.
pub type Known<'a> = (Source, Numbers<'a>);

/// A rule: its number, what is reported, conditions that all hold, the numbers that it is about; and those among which
/// they are looked up, if they are.
///
/// It is a tuple since a clause cannot name a constant of a struct that has references.
pub type Row<'a> = (
    u16,
    Form,
    &'a [Guard<'a>],
    Numbers<'a>,
    Option<&'a Known<'a>>,
);

impl Need {
    /// Whether a condition ends with the first structure that decides it, mostly.
    fn is_quick(self) -> bool {
        matches!(self, Need::Some | Need::First | Need::Whole)
    }
}

impl Source {
    /// The tables as a path through this one sees them.
    fn of<'a>(self, tables: &Tables<'a>) -> Tables<'a>
        ensures { tables_value result ≡ of_source self (tables_value tables.now) }
    {
        match self {
            Source::Table => *tables,
            Source::Other => Tables {
                table: tables.other,
                other: tables.table,
            },
        }
    }
}

/// Whether none of the walks that find the structures of a path is cut.
fn is_whole(path: &Path, table: &IndexedTable<'_>) -> bool
    ensures { result ≡ is_none (first_cut path.now table.now.bytes.now) }
{
    match table.index_of(path) {
        Some(index) => index.is_whole,
        None => first_cut(path, table.bytes).is_none(),
    }
}

/// Whether more than one structure gives a number.
fn gives_two(path: &Path, cases: &[Case<'_>], tables: &Tables<'_>) -> bool
    ensures { result ≡ gives_two (tables_value tables.now) path.now (map case_value cases.now) }
{
    // An index tells at once that none does.
    if !gives_any(path, cases, tables) {
        return false;
    }
    let mut walked = WalkedSites::along(path, tables.table.bytes);
    if first_walked(cases, tables, &mut walked).is_none() {
        return false;
    }
    first_walked(cases, tables, &mut walked).is_some()
}

/// Whether the first structure that gives a number gives another than 0.
fn is_first_some(path: &Path, cases: &[Case<'_>], tables: &Tables<'_>) -> bool
    ensures { result
        ≡ first_is_some (tables_value tables.now) path.now (map case_value cases.now) }
{
    if !gives_any(path, cases, tables) {
        return false;
    }
    let mut walked = WalkedSites::along(path, tables.table.bytes);
    match first_walked(cases, tables, &mut walked) {
        Some(first) => first.number != 0,
        None => false,
    }
}

/// Whether a condition holds.
#[tactic(auto, unfolding(crate::specs::Rows::guard_holds))]
fn guard_holds(guard: &Guard<'_>, tables: &Tables<'_>) -> bool
    ensures { result ≡ guard_holds (tables_value tables.now) (guard_value guard.now) }
{
    let (need, source, path, cases) = guard;
    let seen = source.of(tables);
    match need {
        Need::Some => gives_any(path, cases, &seen),
        Need::None => !gives_any(path, cases, &seen),
        Need::Two => gives_two(path, cases, &seen),
        Need::First => is_first_some(path, cases, &seen),
        Need::Whole => is_whole(path, &seen.table),
    }
}

/// Whether all these conditions hold.
pub fn all_guards_hold(guards: &[Guard<'_>], tables: &Tables<'_>) -> bool
    ensures { result
        ≡ list_all (guard_holds (tables_value tables.now)) (map guard_value guards.now) }
{
    for guard in guards {
        if !guard_holds(guard, tables) {
            return false;
        }
    }
    true
}

/// The numbers that a row is about, if its conditions hold; none if not. For a rule that no row says. Refuses if out of
/// memory.
pub fn given_by_row(
    alloc: Global,
    row: &Row<'_>,
    tables: &Tables<'_>,
) -> Result<Vec<Numbered>, AllocError>
    ensures { IfOk result (λ all. (g : Numbered) → Contains all.items g
        ↔ IsGivenByRow (row_value row.now) (tables_value tables.now) g) }
{
    if !all_guards_hold(row.2, tables) {
        return Ok(Vec::new(alloc));
    }
    counted(alloc, &row.3, tables)
}

/// The numbers that some rows are about, of each whose conditions hold. Refuses if out of memory.
fn given_by_any(
    alloc: Global,
    rows: &[Row<'_>],
    tables: &Tables<'_>,
) -> Result<Vec<Numbered>, AllocError>
    ensures { IfOk result (λ all. (g : Numbered) → Contains all.items g
        ↔ IsGivenByAny (map row_value rows.now) (tables_value tables.now) g) }
{
    let mut all = Vec::new(alloc);
    for row in rows {
        let given = given_by_row(alloc, row, tables)?;
        all.extend_from_slice(&given)?;
    }
    Ok(all)
}

/// The lowest number that ranges at two places contain, among all that some rows are about, as `first_overlap` says. For a
/// rule on structures that have several ranges each. Refuses if out of memory.
pub fn first_overlap_of(
    alloc: Global,
    rows: &[Row<'_>],
    range: Range,
    tables: &Tables<'_>,
) -> Result<Option<Place>, AllocError>
    ensures { IfOk result (FindsLeast (IsOverlap range
        (IsGivenByAny (map row_value rows.now) (tables_value tables.now)))) }
{
    first_overlap(given_by_any(alloc, rows, tables)?, range)
}

/// Whether those of these conditions hold that are quick to decide.
fn quick_guards_hold(guards: &[Guard<'_>], tables: &Tables<'_>) -> bool
    ensures { result ≡ false
        → list_all (guard_holds (tables_value tables.now)) (map guard_value guards.now) ≡ false }
{
    for guard in guards {
        if guard.0.is_quick() && !guard_holds(guard, tables) {
            return false;
        }
    }
    true
}

/// The numbers among which others are looked up, in order. Refuses if out of memory.
fn sorted_known(
    alloc: Global,
    known: &Option<&Known<'_>>,
    tables: &Tables<'_>,
) -> Result<Vec<Numbered>, AllocError>
    ensures order { IfOk result (λ all. AllPairs IsNotAbove all.items) }
    ensures all { IfOk result (λ all. (g : Numbered) → Contains all.items g
        ↔ IsKnown (known_value known.now) (tables_value tables.now) g) }
{
    let Some(known) = known else {
        return Ok(Vec::new(alloc));
    };
    let mut all = counted(alloc, &known.1, &known.0.of(tables))?;
    sort_numbers(&mut all)?;
    Ok(all)
}

/// The lowest place of what is told of numbers that are looked up. Refuses if out of memory: it allocates for those
/// among which they are.
fn first_looked_up(
    alloc: Global,
    look_up: LookUp,
    row: &Row<'_>,
    tables: &Tables<'_>,
) -> Result<Option<Place>, AllocError>
    ensures { IfOk result
        (FindsLeast (IsLookedUp look_up (row_value row.now) (tables_value tables.now))) }
{
    let (_, _, _, numbers, known) = row;
    let (path, cases, ..) = numbers;
    // Mostly nothing is looked up.
    if !gives_any(path, cases, tables) {
        return Ok(None);
    }
    let except = excepted(alloc, numbers, tables)?;
    let known = sorted_known(alloc, known, tables)?;
    Ok(first_told(look_up, path, cases, tables, &except, &known))
}

/// The lowest place of a number that counts. Refuses if out of memory, where places are excepted.
fn first_given(
    alloc: Global,
    numbers: &Numbers<'_>,
    tables: &Tables<'_>,
) -> Result<Option<Place>, AllocError>
    ensures found { IfOk result (FindsLeast (λ at other point.
        Counts (tables_value tables.now) (numbers_value numbers.now) (reported at other point))) }
    ensures refuses { OnErr result (IsTrue (has_except (numbers_value numbers.now))) }
{
    let except = excepted(alloc, numbers, tables)?;
    let (path, cases, ..) = numbers;
    Ok(first_told(LookUp::Nowhere, path, cases, tables, &except, &[]))
}

/// The first cut of the walks that find the structures of a path, as it is reported.
fn cut_place(path: &Path, table: &[u8]) -> Option<Place>
    ensures { FindsLeast (IsCut path.now table.now) result }
{
    let cut = first_cut(path, table)?;
    Some(Place {
        at: cut.at,
        other: cut.said,
        point: cut.end,
    })
}

/// What is found first of a rule, whatever its conditions. Refuses if out of memory.
fn first_in_form(
    alloc: Global,
    row: &Row<'_>,
    tables: &Tables<'_>,
) -> Result<Option<Place>, AllocError>
    ensures found { IfOk result
        (FindsLeast (InForm row.now.1 (row_value row.now) (tables_value tables.now))) }
    ensures refuses { OnErr result (IsTrue (needs_memory (row_value row.now))) }
{
    let (_, form, _, numbers, ..) = row;
    match *form {
        Form::Given => first_given(alloc, numbers, tables),
        Form::Repeated(repeat) => first_repeated(counted(alloc, numbers, tables)?, repeat),
        Form::LookedUp(look_up) => first_looked_up(alloc, look_up, row, tables),
        Form::Overlap(range) => first_overlap(counted(alloc, numbers, tables)?, range),
        Form::Cut => Ok(cut_place(numbers.0, tables.table.bytes)),
    }
}

/// The lowest place at which tables break a rule.
///
/// Refuses with `AllocError` if out of memory: it allocates for the numbers of a rule on such as occur again or have
/// ranges, for those among which numbers are looked up, and for places that are excepted; other rules are not refused.
pub fn first_finding(
    alloc: Global,
    row: &Row<'_>,
    tables: &Tables<'_>,
) -> Result<Option<Place>, AllocError>
    ensures found { IfOk result
        (FindsLeast (IsBroken (row_value row.now) (tables_value tables.now))) }
    ensures refuses { OnErr result (IsTrue (needs_memory (row_value row.now))) }
{
    if !quick_guards_hold(row.2, tables) {
        return Ok(None);
    }
    // The other conditions come last, since there is mostly nothing to report.
    let found = first_in_form(alloc, row, tables)?;
    if found.is_none() || !all_guards_hold(row.2, tables) {
        return Ok(None);
    }
    Ok(found)
}
