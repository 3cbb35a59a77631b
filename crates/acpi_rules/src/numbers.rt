//! The numbers that a rule is about.

ghost use Rattle.std.specs.Prelude.{◌≡◌, ◌↔◌, AllPairs, Contains, IfOk, IsTrue, OnErr, map};
ghost use Rattle.acpi_rules.specs.Cases.{case_value};
ghost use Rattle.acpi_rules.specs.Given.{all_given};
ghost use Rattle.acpi_rules.specs.Numbered.{IsNotAbove};
ghost use Rattle.acpi_rules.specs.Numbers.{AreExcepted, Counts, GivenIn, has_except, numbers_value};
ghost use Rattle.acpi_rules.specs.Sites.{sites_of};
ghost use Rattle.acpi_rules.specs.Terms.{tables_value};
ghost use Rattle.acpi_rules.specs.declared.numbered.Numbered.{Numbered};

use crate::case::Case;
use crate::given::first_walked;
use crate::numbered::{Numbered, sort_numbers};
use crate::passes::{all_given, gives_any};
use crate::series::Path;
use crate::sites::WalkedSites;
use crate::term::Tables;
use std::alloc::{AllocError, Global};

/// Numbers: the path to the structures that give them, and the cases in which one gives a number; and the cases in which
/// one gives a place at which none of these counts. Mostly there are no such cases.
///
/// It is a tuple since a clause cannot name a constant of a struct that has references.
pub type Numbers<'a> = (&'a Path, &'a [Case<'a>], &'a [Case<'a>]);

/// The numbers that structures give, in order. Refuses if out of memory.
pub fn sorted_given(
    alloc: Global,
    path: &Path,
    cases: &[Case<'_>],
    tables: &Tables<'_>,
) -> Result<Vec<Numbered>, AllocError>
    ensures order { IfOk result (λ all. AllPairs IsNotAbove all.items) }
    ensures all { IfOk result (λ all. (g : Numbered) → Contains all.items g
        ↔ GivenIn (tables_value tables.now) path.now (map case_value cases.now) g) }
{
    let mut given = all_given(alloc, path, cases, tables, &[])?;
    sort_numbers(&mut given)?;
    Ok(given)
}

/// The numbers that say at which places none of some counts, in order. Refuses if out of memory, where there are cases
/// for them.
pub(crate) fn excepted(
    alloc: Global,
    numbers: &Numbers<'_>,
    tables: &Tables<'_>,
) -> Result<Vec<Numbered>, AllocError>
    ensures order { IfOk result (λ except. AllPairs IsNotAbove except.items) }
    ensures places { IfOk result (λ except. AreExcepted (tables_value tables.now)
        (numbers_value numbers.now) except.items) }
    ensures refuses { OnErr result (IsTrue (has_except (numbers_value numbers.now))) }
{
    let (path, cases, except_cases) = numbers;
    // Mostly there are no cases, or no numbers that count.
    if except_cases.is_empty() || !gives_any(path, cases, tables) {
        return Ok(Vec::new(alloc));
    }
    sorted_given(alloc, path, except_cases, tables)
}

/// The numbers that count. Refuses if out of memory.
pub(crate) fn counted(
    alloc: Global,
    numbers: &Numbers<'_>,
    tables: &Tables<'_>,
) -> Result<Vec<Numbered>, AllocError>
    ensures { IfOk result (λ all. (g : Numbered) → Contains all.items g
        ↔ Counts (tables_value tables.now) (numbers_value numbers.now) g) }
{
    let except = excepted(alloc, numbers, tables)?;
    let (path, cases, ..) = numbers;
    all_given(alloc, path, cases, tables, &except)
}

/// The numbers that structures give, in the order of these. For a rule that no row says. Refuses if out of memory.
pub fn numbers_in_order(
    alloc: Global,
    path: &Path,
    cases: &[Case<'_>],
    tables: &Tables<'_>,
) -> Result<Vec<Numbered>, AllocError>
    ensures { IfOk result (λ all. all.items
        ≡ all_given (tables_value tables.now) (map case_value cases.now)
        (sites_of path.now (tables_value tables.now).table)) }
{
    let mut all = Vec::new(alloc);
    let mut walked = WalkedSites::along(path, tables.table.bytes);
    while let Some(given) = first_walked(cases, tables, &mut walked) {
        all.push(given)?;
    }
    Ok(all)
}
