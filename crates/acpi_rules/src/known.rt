//! Numbers that are looked up among others.

ghost use Rattle.std.specs.Prelude.{◌≡◌, AllPairs};
ghost use Rattle.acpi_rules.specs.Known.{first_of, is_reported, other_told, told};
ghost use Rattle.acpi_rules.specs.Numbered.{IsNotAbove};

use crate::numbered::Numbered;
use crate::place::Place;

/// Of which numbers something is told, and what.
#[derive(Clone, Copy, Debug, PartialEq, Eq)]
pub enum LookUp {
    /// Of those that are not found: the place, the value and the number.
    Nowhere,
    /// Of those that are found, by the first one that is the same.
    Found(FoundAs),
}

/// Of which numbers that are found something is told, and what.
#[derive(Clone, Copy, Debug, PartialEq, Eq)]
pub enum FoundAs {
    /// Of all: the place, the place of the first one, and the value.
    First,
    /// Of those behind the first one: the same.
    Behind,
    /// Of all: the place, this offset, of a field, and the value.
    Field(u16),
    /// Of those with a value below that of the first one: the same.
    FieldBelow(u16),
}

/// The first of these, which are in order, that has a number.
// Inlined, since mostly there are none.
#[inline(always)]
pub fn first_of(known: &[Numbered], number: u64) -> Option<Numbered>
    requires { AllPairs IsNotAbove known.now }
    ensures { result ≡ first_of known.now number }
{
    let before = known.partition_point(|one| one.number < number);
    if before < known.len() && known[before].number == number {
        return Some(known[before]);
    }
    None
}

impl FoundAs {
    /// Whether something is told of a number by the first one that is the same.
    #[tactic(auto, unfolding(crate::specs::Known::is_reported))]
    fn tells(self, given: &Numbered, first: &Numbered) -> bool
        ensures { result ≡ is_reported self given.now first.now }
    {
        match self {
            FoundAs::First | FoundAs::Field(_) => true,
            FoundAs::Behind => first.at < given.at,
            FoundAs::FieldBelow(_) => given.value < first.value,
        }
    }

    /// What is told beside its place and its value: the place of the first one, or the offset of a field.
    #[tactic(auto, unfolding(crate::specs::Known::other_told))]
    fn other(self, first: &Numbered) -> u64
        ensures { result ≡ other_told self first.now }
    {
        match self {
            FoundAs::First | FoundAs::Behind => first.at,
            FoundAs::Field(offset) | FoundAs::FieldBelow(offset) => u64::from(offset),
        }
    }
}

/// What is told of a number that is looked up among others, unless its place is one that does not count.
#[tactic(auto, unfolding(crate::specs::Known::told))]
pub(crate) fn told(
    look_up: LookUp,
    except: &[Numbered],
    known: &[Numbered],
    given: &Numbered,
) -> Option<Place>
    requires except { AllPairs IsNotAbove except.now }
    requires known { AllPairs IsNotAbove known.now }
    ensures { result ≡ told look_up except.now known.now given.now }
{
    if first_of(except, given.at).is_some() {
        return None;
    }
    match (look_up, first_of(known, given.number)) {
        (LookUp::Nowhere, None) => Some(Place {
            at: given.at,
            other: given.value,
            point: given.number,
        }),
        (LookUp::Found(found), Some(first)) if found.tells(given, &first) => {
            Some(Place {
                at: given.at,
                other: found.other(&first),
                point: given.value,
            })
        }
        _ => None,
    }
}
