//! Comparisons of numbers.

ghost use Rattle.std.specs.Prelude.{◌≡◌};
ghost use Rattle.acpi_rules.specs.Clauses.{all_hold, clauses_value, holds, passes};
ghost use Rattle.acpi_rules.specs.Sites.{site_value};
ghost use Rattle.acpi_rules.specs.Terms.{tables_value};

use crate::sites::Site;
use crate::term::{Tables, Value};
use std::slice::from_ref;

/// How two numbers compare.
#[derive(Clone, Copy, Debug, PartialEq, Eq)]
pub enum Test {
    /// They are equal.
    Is,
    /// They differ.
    IsNot,
    /// The first is below the second.
    Below,
    /// The first is the second or below it.
    UpTo,
}

/// A comparison of two values. It does not hold if a field of one is not wholly within its structure.
#[derive(Clone, Copy, Debug, PartialEq, Eq)]
pub struct Clause {
    /// The first value.
    pub left: Value,
    /// The comparison.
    pub test: Test,
    /// The second value.
    pub right: Value,
}

/// The clauses of a case: none, one, or all of a slice.
///
/// Most cases have one. It stands in the case itself, since each reference in the rows takes 24 bytes of the shared library
/// beside its own.
#[derive(Clone, Copy, Debug, PartialEq, Eq)]
pub enum Clauses<L> {
    /// None.
    None,
    /// One.
    One(Clause),
    /// All of these.
    All(L),
}

impl Test {
    /// Whether two numbers pass the test.
    #[inline(always)]
    #[tactic(auto, unfolding(crate::specs::Clauses::passes))]
    fn passes(self, one: u64, other: u64) -> bool
        ensures { result ≡ passes self one other }
    {
        match self {
            Test::Is => one == other,
            Test::IsNot => one != other,
            Test::Below => one < other,
            Test::UpTo => one <= other,
        }
    }
}

impl Clause {
    /// Whether the clause holds for a structure.
    #[tactic(auto, unfolding(crate::specs::Clauses::holds))]
    pub(crate) fn holds(&self, tables: &Tables<'_>, site: &Site<'_>) -> bool
        ensures { result ≡ holds (tables_value tables.now) (site_value site.now) self.now }
    {
        let Some(left) = self.left.number(tables, site) else {
            return false;
        };
        let Some(right) = self.right.number(tables, site) else {
            return false;
        };
        self.test.passes(left, right)
    }
}

impl<'a> Clauses<&'a [Clause]> {
    /// The clauses as a slice.
    pub fn as_slice(&self) -> &[Clause]
        ensures { result.now ≡ clauses_value self.now }
    {
        match self {
            Clauses::None => &[],
            Clauses::One(clause) => from_ref(clause),
            Clauses::All(clauses) => clauses,
        }
    }
}

/// Whether all these clauses hold for a structure.
#[tactic(auto, unfolding(crate::specs::Clauses::all_hold))]
pub(crate) fn all_hold(clauses: &Clauses<&[Clause]>, tables: &Tables<'_>, site: &Site<'_>) -> bool
    ensures { result
        ≡ all_hold (tables_value tables.now) (site_value site.now) (clauses_value clauses.now) }
{
    match clauses {
        Clauses::None => true,
        Clauses::One(clause) => clause.holds(tables, site),
        Clauses::All(clauses) => clauses.iter().all(|clause| clause.holds(tables, site)),
    }
}
