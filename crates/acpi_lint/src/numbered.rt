//! Numbers at places, and those that occur again.

ghost use Rattle.std.specs.Prelude.{◌≡◌, ◌<◌, AllPairs, Contains, IfOk};
ghost use Rattle.std.specs.Option.{option_map};
ghost use Rattle.acpi_lint.specs.Numbered.{HasAt, at_place};
ghost use Rattle.acpi_lint.specs.Rules.Numbered.{IsLater};
ghost use Rattle.acpi_rules.specs.Places.{FindsLeast};

use acpi_rules::{Numbered, Place, Repeat, first_repeated};
use std::alloc::AllocError;

/// If places rise: the first place of a number that also occurs at an earlier one; `other` is the first of these, and
/// `point` the number. The value that is given to a number is its place. Refuses if out of memory: it allocates while it
/// sorts more than 20 that are not in order.
pub fn first_later(given: Vec<Numbered>) -> Result<Option<Place>, AllocError>
    requires { (g : Numbered) → Contains given.items g → g.value ≡ g.at }
    ensures { AllPairs (λ a b. a.at < b.at) given.items
        → IfOk result (FindsLeast (IsLater (HasAt given.items))) }
{
    first_repeated(given, Repeat::Unlike)
}
