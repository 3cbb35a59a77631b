//! Passes over the numbers that the structures of a path give.

ghost use Rattle.std.specs.Prelude.{◌≡◌, ◌↔◌, AllPairs, Contains, IfOk, map};
ghost use Rattle.acpi_rules.specs.Cases.{case_value};
ghost use Rattle.acpi_rules.specs.Numbered.{IsNotAbove};
ghost use Rattle.acpi_rules.specs.Places.{FindsLeast};
ghost use Rattle.acpi_rules.specs.Numbers.{GivenBeside, IsToldOf, gives_any};
ghost use Rattle.acpi_rules.specs.Terms.{tables_value};
ghost use Rattle.acpi_rules.specs.declared.numbered.Numbered.{Numbered};
ghost use Rattle.acpi_rules.specs.declared.series.Path.TheVariants.{Table};

use crate::case::Case;
use crate::given::{Given, given_by_table};
use crate::known::{LookUp, first_of, told};
use crate::numbered::{Numbered, lesser};
use crate::place::Place;
use crate::series::Path;
use crate::term::Tables;
use std::alloc::{AllocError, Global};

/// What is told of the number that the table itself gives.
fn told_of_table(
    look_up: LookUp,
    cases: &[Case<'_>],
    tables: &Tables<'_>,
    except: &[Numbered],
    known: &[Numbered],
) -> Option<Place>
    requires except { AllPairs IsNotAbove except.now }
    requires known { AllPairs IsNotAbove known.now }
    ensures { FindsLeast (IsToldOf look_up (tables_value tables.now) Table
        (map case_value cases.now) except.now known.now) result }
{
    match given_by_table(cases, tables) {
        Some(given) => told(look_up, except, known, &given),
        None => None,
    }
}

/// The lowest place of what is told of the numbers that structures give, which are looked up among some.
pub(crate) fn first_told(
    look_up: LookUp,
    path: &Path,
    cases: &[Case<'_>],
    tables: &Tables<'_>,
    except: &[Numbered],
    known: &[Numbered],
) -> Option<Place>
    requires except { AllPairs IsNotAbove except.now }
    requires known { AllPairs IsNotAbove known.now }
    ensures { FindsLeast (IsToldOf look_up (tables_value tables.now) path.now
        (map case_value cases.now) except.now known.now) result }
{
    // There are many rules on a table itself, and to walk to it takes longer than most of them.
    if let Path::Table = path {
        return told_of_table(look_up, cases, tables, except, known);
    }
    let mut least = None;
    for given in Given::along(path, cases, tables) {
        if let Some(place) = told(look_up, except, known, &given) {
            least = Some(lesser(least, place));
        }
    }
    least
}

/// All numbers that structures give at other places than some. Refuses if out of memory.
pub(crate) fn all_given(
    alloc: Global,
    path: &Path,
    cases: &[Case<'_>],
    tables: &Tables<'_>,
    except: &[Numbered],
) -> Result<Vec<Numbered>, AllocError>
    requires { AllPairs IsNotAbove except.now }
    ensures { IfOk result (λ all. (g : Numbered) → Contains all.items g
        ↔ GivenBeside (tables_value tables.now) path.now (map case_value cases.now) except.now g) }
{
    let mut all = Vec::new(alloc);
    for given in Given::along(path, cases, tables) {
        if first_of(except, given.at).is_none() {
            all.push(given)?;
        }
    }
    Ok(all)
}

/// Whether a structure gives a number.
pub(crate) fn gives_any(path: &Path, cases: &[Case<'_>], tables: &Tables<'_>) -> bool
    ensures { result ≡ gives_any (tables_value tables.now) path.now (map case_value cases.now) }
{
    if let Path::Table = path {
        return given_by_table(cases, tables).is_some();
    }
    Given::along(path, cases, tables).next().is_some()
}
