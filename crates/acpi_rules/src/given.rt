//! The numbers that the structures of a path give, by an index where the table has one of them.

ghost use Rattle.std.specs.Prelude.{◌≡◌, ◌∷◌, [], ◌↔◌, Contains, MatchOption, map};
ghost use Rattle.acpi_rules.specs.Cases.{case_value, gives};
ghost use Rattle.acpi_rules.specs.Given.{all_given, given_by_type};
ghost use Rattle.acpi_rules.specs.Indexes.{typed_sites};
ghost use Rattle.acpi_rules.specs.Numbers.{GivenIn};
ghost use Rattle.acpi_rules.specs.Sites.{whole_site, whole_table};
ghost use Rattle.acpi_rules.specs.Terms.{tables_value};
ghost use Rattle.acpi_rules.specs.declared.numbered.Numbered.{Numbered};

use crate::case::{Case, cases_of_type, given};
use crate::index::{Listed, OfType};
use crate::numbered::Numbered;
use crate::series::Path;
use crate::sites::{Site, WalkedSites};
use crate::term::Tables;
use crate::window::Window;
use std::marker::Model;

/// The numbers that the structures of one type give.
#[derive(Debug, Drop)]
struct GivenByType<'a> {
    /// The cases in which they may give one.
    cases: &'a [Case<'a>],
    tables: Tables<'a>,
    kind: u64,
    /// The structures that are left.
    listed: &'a [Listed],
}

impl<'a> Model for GivenByType<'a> {
    ghost use Rattle.std.specs.Prelude.{List, map};
    ghost use Rattle.acpi_rules.specs.declared.numbered.Numbered.{Numbered};
    ghost use Rattle.acpi_rules.specs.Cases.{case_value};
    ghost use Rattle.acpi_rules.specs.Given.{given_by_type};
    ghost use Rattle.acpi_rules.specs.Terms.{tables_value};

    ghost Value = { List Numbered };

    ghost view = { λ s. given_by_type (tables_value s.tables) (map case_value s.cases.now) s.kind s.listed.now };
}

impl<'a> GivenByType<'a> {
    /// No numbers.
    #[inline(always)]
    fn none(tables: &Tables<'a>) -> GivenByType<'a>
        ensures { result ≡ [] }
    {
        GivenByType {
            cases: &[],
            tables: *tables,
            kind: 0,
            listed: &[],
        }
    }

    /// Those of the structures of a type.
    #[inline(always)]
    fn new(cases: &'a [Case<'a>], tables: &Tables<'a>, of_type: &'a OfType) -> GivenByType<'a>
        ensures { result ≡ all_given (tables_value tables.now) (map case_value cases.entry.now)
            (typed_sites (whole_table tables.now.table.bytes.now) of_type.entry.now) }
    {
        let cases = cases_of_type(cases, of_type.kind);
        // Most rules are on other types.
        if cases.is_empty() {
            return GivenByType::none(tables);
        }
        GivenByType {
            cases,
            tables: *tables,
            kind: of_type.kind,
            listed: &of_type.listed,
        }
    }
}

/// The first number that structures of a type give, and those after the one that gives it.
#[inline(always)]
fn first_listed<'a>(
    cases: &[Case<'_>],
    tables: &Tables<'_>,
    kind: u64,
    listed: &'a [Listed],
) -> Option<(Numbered, &'a [Listed])>
    ensures { MatchOption result
        (given_by_type (tables_value tables.now) (map case_value cases.now) kind listed.entry.now ≡ [])
        (λ found. given_by_type (tables_value tables.now) (map case_value cases.now) kind listed.entry.now
        ≡ found.0 ∷ given_by_type (tables_value tables.now) (map case_value cases.now) kind found.1.now) }
{
    let whole = Window {
        at: 0,
        bytes: tables.table.bytes,
    };
    let mut left = listed;
    while let Some((first, rest)) = left.split_first() {
        let site = Site {
            own: first.window(tables.table.bytes),
            around: whole,
            outer: whole,
            kind,
        };
        if let Some(found) = given(cases, tables, &site) {
            return Some((found, rest));
        }
        left = rest;
    }
    None
}

impl<'a> Iterator for GivenByType<'a> {
    type Item = Numbered;

    ghost use Rattle.std.specs.Iterator.{YieldsFirst, item_count};

    ghost next_gives = { YieldsFirst (λ left. left) };

    ghost remaining = { item_count (λ left. left) };

    #[inline(always)]
    fn next(&mut self) -> Option<Numbered> {
        match first_listed(self.cases, &self.tables, self.kind, self.listed) {
            Some((found, rest)) => {
                self.listed = rest;
                Some(found)
            }
            None => {
                self.listed = &[];
                None
            }
        }
    }
}

/// The number that the table itself gives.
pub(crate) fn given_by_table(cases: &[Case<'_>], tables: &Tables<'_>) -> Option<Numbered>
    ensures { result ≡ gives (tables_value tables.now) (map case_value cases.now)
        (whole_site (whole_table tables.now.table.bytes.now)) }
{
    let table = Window {
        at: 0,
        bytes: tables.table.bytes,
    };
    let site = Site {
        own: table,
        around: table,
        outer: table,
        kind: 0,
    };
    given(cases, tables, &site)
}

/// The first number that structures give that are walked. Those before it give none.
pub(crate) fn first_walked(
    cases: &[Case<'_>],
    tables: &Tables<'_>,
    walked: &mut WalkedSites<'_>,
) -> Option<Numbered>
    ensures { MatchOption result
        ((all_given (tables_value tables.now) (map case_value cases.now) walked.old ≡ [])
        × (walked.new ≡ []))
        (λ first. all_given (tables_value tables.now) (map case_value cases.now) walked.old
        ≡ first ∷ all_given (tables_value tables.now) (map case_value cases.now) walked.new) }
{
    while let Some(site) = walked.next() {
        let found = given(cases, tables, &site);
        if found.is_some() {
            return found;
        }
    }
    None
}

/// The numbers that the structures of a path give: type by type if the table has an index of them, or else in their
/// order. Nothing is allocated.
#[derive(Debug, Drop)]
pub struct Given<'a> {
    /// The cases in which they may give one.
    cases: &'a [Case<'a>],
    tables: Tables<'a>,
    /// The types whose structures are left.
    types: &'a [OfType],
    /// What is left of one type.
    by_type: GivenByType<'a>,
    /// What is left to be walked, where there is no index.
    walked: Option<WalkedSites<'a>>,
}

impl<'a> Model for Given<'a> {
    ghost use Rattle.std.specs.Prelude.{List, ◌++◌, map};
    ghost use Rattle.acpi_rules.specs.declared.numbered.Numbered.{Numbered};
    ghost use Rattle.acpi_rules.specs.Cases.{case_value};
    ghost use Rattle.acpi_rules.specs.Given.{given_in_types, given_walked};
    ghost use Rattle.acpi_rules.specs.Terms.{tables_value};

    ghost Value = { List Numbered };

    ghost view = { λ s. s.by_type
        ++ given_in_types (tables_value s.tables) (map case_value s.cases.now) s.types.now
        ++ given_walked (tables_value s.tables) (map case_value s.cases.now) s.walked };
}

impl<'a> Given<'a> {
    /// The numbers that the structures of a path give.
    pub(crate) fn along(path: &Path, cases: &'a [Case<'a>], tables: &Tables<'a>) -> Given<'a>
        ensures { (g : Numbered) → Contains result g
            ↔ GivenIn (tables_value tables.now) path.now (map case_value cases.entry.now) g }
    {
        let by_type = GivenByType::none(tables);
        match tables.table.index_of(path) {
            Some(index) => Given {
                cases,
                tables: *tables,
                types: &index.types,
                by_type,
                walked: None,
            },
            None => Given {
                cases,
                tables: *tables,
                types: &[],
                by_type,
                walked: Some(WalkedSites::along(path, tables.table.bytes)),
            },
        }
    }
}

impl<'a> Iterator for Given<'a> {
    type Item = Numbered;

    ghost use Rattle.std.specs.Iterator.{YieldsFirst, item_count};

    ghost next_gives = { YieldsFirst (λ left. left) };

    ghost remaining = { item_count (λ left. left) };

    fn next(&mut self) -> Option<Numbered> {
        loop {
            let found = self.by_type.next();
            if found.is_some() {
                return found;
            }
            let Some((first, rest)) = self.types.split_first() else {
                break;
            };
            self.types = rest;
            self.by_type = GivenByType::new(self.cases, &self.tables, first);
        }
        match &mut self.walked {
            Some(walked) => first_walked(self.cases, &self.tables, walked),
            None => None,
        }
    }
}
