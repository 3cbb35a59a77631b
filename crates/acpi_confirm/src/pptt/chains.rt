//! Codes 55 and 56: chains of parents and of next levels.

ghost use Rattle.std.specs.Prelude.{◌≤◌, ◌<◌, ◌+◌, ◌↔◌, ℕ, Some, IsTrue, MatchOption, length};
ghost use Rattle.acpi_base.specs.Chains.{IsStep, LeadsTo, IsCycle};
ghost use Rattle.acpi_base.specs.Pptt.{ParentFault, CacheFault, pptt_contents};
ghost use Rattle.acpi_confirm.specs.References.{Names, IsStepTo};
ghost use Rattle.acpi_confirm.specs.Walks.{AreStarts, IsOnly};

use super::starts::{Starts, entry_noted, note_starts};
use super::{Chain, named};
use acpi_base::{Code, Witness};

/// How many starts are noted. In a table of 32 MiB, about as much as an image text can hold, a block has 512 bytes.
const NOTES: usize = 65_536;

/// A node or a cache: its offset, and the offset that it refers to by the chain.
#[derive(Clone, Copy)]
struct Linked {
    at: u64,
    names: u64,
}

/// The offset that the node or cache at an offset refers to, looked up by the noted starts.
fn named_by(pptt: &[u8], chain: Chain, starts: &Starts<'_>, at: u64) -> Option<u64>
    requires { AreStarts starts.now.size starts.now.notes.now pptt.now }
    ensures { IsOnly (Names chain (pptt_contents pptt.now) at) result }
{
    entry_noted(pptt, starts, at).and_then(|entry| named(entry, chain))
}

/// One step: from a node to its Parent, or from a cache to its Next Level.
#[tactic(auto, using(crate::proofs::Chains::steps))]
fn step(pptt: &[u8], chain: Chain, starts: &Starts<'_>, here: Linked) -> Option<Linked>
    requires starts { AreStarts starts.now.size starts.now.notes.now pptt.now }
    requires here { IsOnly (Names chain (pptt_contents pptt.now) here.at) (Some here.names) }
    ensures { MatchOption result
        ((p : ℕ) → ¬ IsStep (Names chain (pptt_contents pptt.now)) here.at p)
        (λ next. IsStepTo (Names chain (pptt_contents pptt.now)) here.at next) }
{
    if here.names == 0 {
        return None;
    }
    let names = named_by(pptt, chain, starts, here.names)?;
    Some(Linked {
        at: here.names,
        names,
    })
}

/// Where this many steps lead from an offset.
#[tactic(auto, using(crate::proofs::Chains::led))]
fn follow(pptt: &[u8], chain: Chain, starts: &Starts<'_>, from: u64, steps: u64) -> Option<u64>
    requires { AreStarts starts.now.size starts.now.notes.now pptt.now }
    ensures { IsOnly (LeadsTo (Names chain (pptt_contents pptt.now)) steps from) result }
{
    if steps == 0 {
        return Some(from);
    }
    let mut here = Linked {
        at: from,
        names: named_by(pptt, chain, starts, from)?,
    };
    let mut left = steps;
    while left > 0 {
        here = step(pptt, chain, starts, here)?;
        left -= 1;
    }
    Some(here.at)
}

/// Whether a cycle has a step, and the steps to it and around it are at most `most`.
fn steps_fit(most: u64, lead: u64, round: u64) -> bool
    ensures { IsTrue result ↔ ((1 ≤ round) × (lead + round ≤ most)) }
{
    round >= 1 && u128::from(lead) + u128::from(round) <= u128::from(most)
}

/// Whether `other` steps lead from the offset `at` to one from which `point` steps lead back to it, at most `most` in
/// all. That is tested before the first step is taken. It is not inlined, so that no other call takes the
/// stack for the notes.
#[inline(never)]
fn is_cycle(pptt: &[u8], chain: Chain, most: u64, witness: &Witness) -> bool
    ensures { IsTrue result ↔ IsCycle (Names chain (pptt_contents pptt.now)) most witness.now.at
        witness.now.other witness.now.point }
{
    let (from, lead, round) = (witness.at, witness.other, witness.point);
    if !steps_fit(most, lead, round) {
        return false;
    }
    let mut notes = [0; NOTES];
    let starts = note_starts(pptt, &mut notes);
    let Some(there) = follow(pptt, chain, &starts, from, lead) else {
        return false;
    };
    follow(pptt, chain, &starts, there, round) == Some(there)
}

/// Code 55: a cycle of parents. No more than one node fits into 20 bytes.
#[tactic(auto, using(acpi_base::proofs::Pptt::Places::size_is))]
pub(super) fn has_parent_fault(pptt: &[u8], witness: &Witness) -> bool
    ensures { IsTrue result ↔ ParentFault (pptt_contents pptt.now) witness.now.code witness.now.at
        witness.now.other witness.now.point }
{
    matches!(witness.code, Code::ParentCycle)
        && is_cycle(pptt, Chain::Parents, pptt.len() as u64 / 20, witness)
}

/// Code 56: a cycle of next levels. No more than one cache fits into 24 bytes.
#[tactic(auto, using(acpi_base::proofs::Pptt::Places::size_is))]
pub(super) fn has_cache_fault(pptt: &[u8], witness: &Witness) -> bool
    ensures { IsTrue result ↔ CacheFault (pptt_contents pptt.now) witness.now.code witness.now.at
        witness.now.other witness.now.point }
{
    matches!(witness.code, Code::CacheCycle)
        && is_cycle(pptt, Chain::NextLevels, pptt.len() as u64 / 24, witness)
}
