//! Laws about the walk: the contract of each function is a law, and its body is empty.

ghost use Rattle.acpi_rules.specs.Laws.{CutStops, StructuresFew, StructuresFollow, StructuresReached};
ghost use Rattle.acpi_rules.specs.Today.{EntriesAreSeries};

/// The structures of a walk lie inside the one that is walked, one behind another, in the order of their offsets.
#[tactic(auto, using(crate::proofs::Following::structures_follow))]
pub fn structures_follow()
    ensures follow { StructuresFollow }
{}

/// The structures of a walk are exactly those that are reached: structures that fit follow one another up to each.
pub fn structures_reached()
    ensures reached { StructuresReached }
{}

/// A walk takes no more steps than there are bytes, however many structures a field says.
#[tactic(auto, using(crate::proofs::Following::structures_few))]
pub fn structures_few()
    ensures few { StructuresFew }
{}

/// A walk has all the structures that a field says or fills the bytes, or stops at its cut, where none fits.
#[tactic(auto, using(crate::proofs::Following::cut_stops))]
pub fn cut_stops()
    ensures stops { CutStops }
{}

/// The entries of a MADT, an SRAT and a PPTT are a series.
pub fn entries_are_series()
    ensures same { EntriesAreSeries }
{}
