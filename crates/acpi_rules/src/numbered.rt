//! Numbers with values at places, and those that occur again.

ghost use Rattle.std.specs.Prelude.{◌≡◌, ◌≤◌, ◌⊎◌, ◌↔◌, AllPairs, Contains, IfOk, IfSome, IsOk, IsTrue, OnOk, vec_len};
ghost use Rattle.std.specs.List.Sorted.{IsPermutation};
ghost use Rattle.acpi_rules.specs.Numbered.{IsNotAbove, IsRepeated, IsTold, repeat_place};
ghost use Rattle.acpi_rules.specs.Places.{FindsLeast, IsNotAfter};

use crate::place::Place;
use acpi_graph::sort_unless_sorted;
use std::alloc::AllocError;

/// A number at a place, with a value. These compare by number, then by place, then by value.
#[derive(Clone, Copy, Debug, PartialEq, Eq, PartialOrd, Ord)]
pub struct Numbered {
    /// The number.
    pub number: u64,
    /// Its place.
    pub at: u64,
    /// The value that goes with it.
    pub value: u64,
}

/// What should not be of two that have the same number, the first one and a later one, and where it is reported.
#[derive(Clone, Copy, Debug, PartialEq, Eq)]
pub enum Repeat {
    /// They are at two places. Reported at the later one, with the place of the first, and with the later one's value.
    Twice,
    /// They have two values. Reported at the later one, with the place of the first, and the number.
    Unlike,
    /// The same, reported at the first one, with the place of the later one.
    UnlikeFirst,
    /// The same, reported at the later one, with the place of the first, and with the later one's value.
    UnlikeValue,
    /// The same, reported at the later one, with the number, and with the later one's value.
    UnlikeNumber,
    /// The same, reported at the number, with the first one's value and the later one's.
    UnlikeValues,
}

impl Repeat {
    /// Whether that is so of one, and of the first one with its number.
    fn is_told(self, here: &Numbered, first: &Numbered) -> bool
        ensures { IsTrue result ↔ IsTold self here.now first.now }
    {
        match self {
            Repeat::Twice => here.at != first.at,
            _ => here.value != first.value,
        }
    }

    /// Where it is reported.
    fn place(self, here: &Numbered, first: &Numbered) -> Place
        ensures { result ≡ repeat_place self here.now first.now }
    {
        let (at, other) = match self {
            Repeat::UnlikeFirst => (first.at, here.at),
            Repeat::UnlikeNumber => (here.at, here.number),
            Repeat::UnlikeValues => (here.number, first.value),
            _ => (here.at, first.at),
        };
        let point = match self {
            Repeat::Unlike | Repeat::UnlikeFirst => here.number,
            _ => here.value,
        };
        Place { at, other, point }
    }
}

/// The lower of two places.
pub fn lesser(least: Option<Place>, place: Place) -> Place
    ensures one { (result ≡ place) ⊎ (least ≡ Some result) }
    ensures after { IsNotAfter result place.at place.other place.point }
    ensures before { IfSome least (λ l. IsNotAfter result l.at l.other l.point) }
{
    match least {
        Some(least) if least <= place => least,
        _ => place,
    }
}

/// The lowest place of what is told of numbers that are in order: those that are the same are next to each other, the
/// first one before the others.
fn least_repeated(sorted: &[Numbered], repeat: Repeat) -> Option<Place>
    ensures { AllPairs IsNotAbove sorted.now
        → FindsLeast (IsRepeated repeat (λ g. Contains sorted.now g)) result }
{
    let mut first = *sorted.first()?;
    let mut least = None;
    for here in sorted {
        if here.number != first.number {
            first = *here;
        }
        if repeat.is_told(here, &first) {
            least = Some(lesser(least, repeat.place(here, &first)));
        }
    }
    least
}

/// Sorts numbers. Refuses if out of memory, for more than 20 that are not in order.
pub fn sort_numbers(given: &mut Vec<Numbered>) -> Result<(), AllocError>
    ensures permutation { IsPermutation given.old.items given.new.items }
    ensures sorted { OnOk result (AllPairs IsNotAbove given.new.items) }
    ensures few { vec_len given.old ≤ 20 → IsOk result }
{
    sort_unless_sorted(given)
}

/// The lowest place of what is told of these numbers. Refuses if out of memory: it allocates while it sorts more than
/// 20 that are not in order.
pub fn first_repeated(mut given: Vec<Numbered>, repeat: Repeat) -> Result<Option<Place>, AllocError>
    ensures found { IfOk result (FindsLeast (IsRepeated repeat (λ g. Contains given.items g))) }
    ensures few { vec_len given ≤ 20 → IsOk result }
{
    sort_numbers(&mut given)?;
    Ok(least_repeated(&given, repeat))
}
