//! Ranges of numbers that overlap.

ghost use Rattle.std.specs.Prelude.{◌≡◌, ◌≤◌, AllPairs, Contains, IfOk, IsOk, vec_len};
ghost use Rattle.acpi_rules.specs.Numbered.{IsNotAbove};
ghost use Rattle.acpi_rules.specs.Overlaps.{IsOverlap, range_end};
ghost use Rattle.acpi_rules.specs.Places.{FindsLeast};

use crate::numbered::{Numbered, sort_numbers};
use crate::place::Place;
use std::alloc::AllocError;

/// What the value of a number says of the range that begins with the number. A number from 2^64 on is given as 2^64 - 1,
/// so a case has to leave out structures whose ranges may begin there.
#[derive(Clone, Copy, Debug, PartialEq, Eq)]
pub enum Range {
    /// How many numbers are in it.
    Count,
    /// The last number in it. It is empty if that is below the first one.
    Last,
}

impl Range {
    /// The number after the range.
    fn end(self, given: &Numbered) -> u128
        ensures { result ≡ range_end self given.now }
    {
        match self {
            Range::Count => u128::from(given.number) + u128::from(given.value),
            Range::Last => u128::from(given.value) + 1,
        }
    }
}

/// The first overlap of ranges that are in order. No two at different places that were passed overlap. So if one of them
/// reaches the next range, which is at another place, the one that ends last does.
fn first_in_order(sorted: &[Numbered], range: Range) -> Option<Place>
    ensures { AllPairs IsNotAbove sorted.now
        → FindsLeast (IsOverlap range (λ g. Contains sorted.now g)) result }
{
    let mut highest = *sorted.first()?;
    for here in sorted {
        let start = u128::from(here.number);
        let end = range.end(here);
        if here.at != highest.at && start < end && start < range.end(&highest) {
            return Some(Place {
                at: highest.at,
                other: here.at,
                point: here.number,
            });
        }
        if range.end(&highest) < end {
            highest = *here;
        }
    }
    None
}

/// The lowest number that ranges at two places contain, which is the point, and the first two such places, by the starts
/// of their ranges and then by the places. None if no number is in ranges at two places. Refuses if out of memory: it
/// allocates while it sorts more than 20 that are not in order.
pub fn first_overlap(mut given: Vec<Numbered>, range: Range) -> Result<Option<Place>, AllocError>
    ensures found { IfOk result (FindsLeast (IsOverlap range (λ g. Contains given.items g))) }
    ensures few { vec_len given ≤ 20 → IsOk result }
{
    sort_numbers(&mut given)?;
    Ok(first_in_order(&given, range))
}
