//! What a structure gives: a number, with a value, at a place.

ghost use Rattle.std.specs.Prelude.{◌≡◌, map};
ghost use Rattle.acpi_rules.specs.Cases.{GiveSame, case_value, gives, has_length, has_type, in_case, is_kind};
ghost use Rattle.acpi_rules.specs.Sites.{site_value};
ghost use Rattle.acpi_rules.specs.Terms.{tables_value};

use crate::clause::{Clause, Clauses, all_hold};
use crate::numbered::Numbered;
use crate::sites::Site;
use crate::term::{Tables, Value};

/// Structures by their type and their length. The table itself, and a structure without a type, have the type 0.
#[derive(Clone, Copy, Debug, PartialEq, Eq)]
pub struct Kind {
    /// The lowest type.
    pub first: u16,
    /// The highest type.
    pub last: u16,
    /// The least length, in bytes.
    pub least: u16,
    /// The greatest length, in bytes; 65,535 says that there is none.
    pub most: u16,
}

/// A case in which a structure gives a number: its kind, clauses that all hold, the offset in it that is the place, the
/// value and the number. The structure has the byte at that offset, and the fields of both numbers are there.
///
/// It is a tuple since a clause cannot name a constant of a struct that has references.
pub type Case<'a> = (Kind, Clauses<&'a [Clause]>, u16, Value, Value);

impl Kind {
    /// Whether structures of this type may be of this kind.
    #[inline(always)]
    #[tactic(auto, unfolding(crate::specs::Cases::has_type))]
    fn has_type(&self, kind: u64) -> bool
        ensures { result ≡ has_type self.now kind }
    {
        u64::from(self.first) <= kind && kind <= u64::from(self.last)
    }

    /// Whether structures of this length may be of this kind.
    #[inline(always)]
    #[tactic(auto, unfolding(crate::specs::Cases::has_length))]
    fn has_length(&self, length: u64) -> bool
        ensures { result ≡ has_length self.now length }
    {
        u64::from(self.least) <= length && (self.most == u16::MAX || length <= u64::from(self.most))
    }

    /// Whether a structure is of this kind.
    #[inline(always)]
    #[tactic(auto, unfolding(crate::specs::Cases::is_kind))]
    pub(crate) fn has(&self, site: &Site<'_>) -> bool
        ensures { result ≡ is_kind self.now (site_value site.now) }
    {
        self.has_type(site.kind) && self.has_length(site.own.bytes.len() as u64)
    }
}

/// What a structure gives in a case.
#[inline(always)]
#[tactic(auto, unfolding(crate::specs::Cases::in_case))]
fn in_case(case: &Case<'_>, tables: &Tables<'_>, site: &Site<'_>) -> Option<Numbered>
    ensures { result
        ≡ in_case (tables_value tables.now) (site_value site.now) (case_value case.now) }
{
    // Most structures are of another kind: nothing else of the case is read before that.
    if !case.0.has(site)
        || usize::from(case.2) >= site.own.bytes.len()
        || !all_hold(&case.1, tables, site)
    {
        return None;
    }
    let value = case.3.number(tables, site)?;
    let number = case.4.number(tables, site)?;
    Some(Numbered {
        number,
        at: site.own.at + u64::from(case.2),
        value,
    })
}

/// What a structure gives: in the first case that holds.
#[tactic(auto, unfolding(crate::specs::Cases::gives))]
pub(crate) fn given(cases: &[Case<'_>], tables: &Tables<'_>, site: &Site<'_>) -> Option<Numbered>
    ensures { result ≡ gives (tables_value tables.now) (map case_value cases.now)
        (site_value site.now) }
{
    for case in cases {
        let found = in_case(case, tables, site);
        if found.is_some() {
            return found;
        }
    }
    None
}

/// Those of these cases in which a structure of a type may give a number, and what is between them.
pub(crate) fn cases_of_type<'a>(cases: &'a [Case<'a>], kind: u64) -> &'a [Case<'a>]
    ensures { GiveSame kind (map case_value result.now) (map case_value cases.entry.now) }
{
    let mut first = 0;
    while first < cases.len() && !cases[first].0.has_type(kind) {
        first += 1;
    }
    let own = &cases[first..];
    let mut count = own.len();
    while count > 0 && !own[count - 1].0.has_type(kind) {
        count -= 1;
    }
    &own[..count]
}
