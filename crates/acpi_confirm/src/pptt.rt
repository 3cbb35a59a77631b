//! Codes 50 to 56: the PPTT.

mod chains;
mod starts;

ghost use Rattle.std.specs.Prelude.{◌≡◌, ◌≤◌, ◌↔◌, length, IsTrue};
ghost use Rattle.std.specs.Bool.{OnTrue};
ghost use Rattle.acpi_base.specs.Chains.{IsAt, Dangles};
ghost use Rattle.acpi_base.specs.Codes.{stage_of};
ghost use Rattle.acpi_base.specs.Entries.{IsEntry};
ghost use Rattle.acpi_base.specs.Pptt.{PpttFaultAt, PpttFault, ReferenceFault, HasOtherPpttLength, NamesResource, IsResourceAt, has_node_form, has_cache_form, pptt_contents, pptt_entry, resource_of};
ghost use Rattle.acpi_confirm.specs.Conditions.{PpttCondition};
ghost use Rattle.acpi_confirm.specs.References.{Names, named_offset};
ghost use Rattle.acpi_confirm.specs.Walks.{IsOnly};

use crate::entries::{cut, entry_at};
use acpi_base::field::u32_at;
use acpi_base::{Code, Stage, Witness};
use chains::{has_cache_fault, has_parent_fault};

/// The offset of the first entry.
pub(crate) const FIRST_ENTRY: usize = 36;

/// A reference from a node to a node, or from a cache to a cache.
#[derive(Clone, Copy)]
enum Chain {
    /// From a node to its Parent.
    Parents,
    /// From a cache to its Next Level of Cache.
    NextLevels,
}

/// Whether an entry is a node: type 0, 20 bytes and 4 for each private resource.
#[tactic(auto, unfolding(acpi_base::specs::Pptt::has_node_form, acpi_base::specs::Entries::has_form))]
pub(crate) fn is_node(entry: &[u8]) -> bool
    requires { IsEntry entry.now }
    ensures form { result ≡ has_node_form entry.now }
    ensures long { OnTrue result (20 ≤ length entry.now) }
{
    if entry[0] != 0 || entry.len() < 20 {
        return false;
    }
    entry.len() as u64 == 20 + 4 * u64::from(u32_at(entry, 16))
}

/// Whether an entry is a cache: type 1, 24 or 28 bytes.
#[tactic(auto, unfolding(acpi_base::specs::Pptt::has_cache_form, acpi_base::specs::Entries::has_form))]
fn is_cache(entry: &[u8]) -> bool
    requires { IsEntry entry.now }
    ensures form { result ≡ has_cache_form entry.now }
    ensures long { OnTrue result (24 ≤ length entry.now) }
{
    matches!((entry[0], entry.len()), (1, 24 | 28))
}

/// The offset that an entry refers to by the chain, which is 0 if it refers to none. None for an entry that is not of
/// the chain's kind.
#[tactic(auto, unfolding(acpi_base::specs::Pptt::pptt_entry), using(crate::proofs::PpttEntries::kinds))]
fn named(entry: &[u8], chain: Chain) -> Option<u64>
    requires { IsEntry entry.now }
    ensures { result ≡ named_offset chain (pptt_entry entry.now) }
{
    match chain {
        Chain::Parents if is_node(entry) => Some(u64::from(u32_at(entry, 8))),
        Chain::NextLevels if is_cache(entry) => Some(u64::from(u32_at(entry, 8))),
        _ => None,
    }
}

/// The offset that the entry at an offset refers to by the chain.
fn named_at(pptt: &[u8], chain: Chain, at: u64) -> Option<u64>
    ensures { IsOnly (Names chain (pptt_contents pptt.now) at) result }
{
    entry_at(pptt, FIRST_ENTRY, at).and_then(|entry| named(entry, chain))
}

/// Whether an entry has type 0 or 1, but no length of that type.
#[tactic(auto, unfolding(acpi_base::specs::Pptt::pptt_entry), using(crate::proofs::PpttEntries::kinds))]
fn has_other_length(entry: &[u8]) -> bool
    requires { IsEntry entry.now }
    ensures { IsTrue result ↔ HasOtherPpttLength (pptt_entry entry.now) }
{
    entry[0] <= 1 && !is_node(entry) && !is_cache(entry)
}

/// Whether the PPTT has this fault of an entry by itself at this offset.
#[tactic(auto, using(crate::proofs::PpttEntries::pptt_cut))]
fn has_entry_fault_at(pptt: &[u8], code: Code, at: u64) -> bool
    ensures { IsTrue result ↔ PpttFaultAt (pptt_contents pptt.now) code at }
{
    match code {
        Code::PpttEntryCut => cut(pptt, FIRST_ENTRY) == Some(at),
        Code::PpttEntryLength => {
            entry_at(pptt, FIRST_ENTRY, at).is_some_and(|entry| has_other_length(entry))
        }
        _ => false,
    }
}

/// Codes 50 and 51: each entry by itself.
fn has_entry_fault(pptt: &[u8], witness: &Witness) -> bool
    ensures { IsTrue result ↔ PpttFault (pptt_contents pptt.now) witness.now.code witness.now.at
        witness.now.other witness.now.point }
{
    has_entry_fault_at(pptt, witness.code, witness.at) && witness.other == 0 && witness.point == 0
}

/// The private resource `index` of an entry, from 0 on, if it is a node that has this many.
#[tactic(auto, unfolding(acpi_base::specs::Pptt::pptt_entry), using(crate::proofs::PpttEntries::resources))]
fn private_resource(entry: &[u8], index: u64) -> Option<u64>
    requires { IsEntry entry.now }
    ensures { result ≡ resource_of index (pptt_entry entry.now) }
{
    if !is_node(entry) || index >= u64::from(u32_at(entry, 16)) {
        return None;
    }
    Some(u64::from(u32_at(entry, 20 + 4 * index as usize)))
}

/// Whether there is an entry of another type than 0 at an offset.
fn is_resource_at(pptt: &[u8], at: u64) -> bool
    ensures { IsTrue result ↔ IsResourceAt (pptt_contents pptt.now) at }
{
    entry_at(pptt, FIRST_ENTRY, at).is_some_and(|entry| entry[0] != 0)
}

/// Whether there is an entry of the chain's kind at an offset.
fn is_linked_at(pptt: &[u8], chain: Chain, at: u64) -> bool
    ensures { IsTrue result ↔ IsAt (Names chain (pptt_contents pptt.now)) at }
{
    named_at(pptt, chain, at).is_some()
}

/// Whether the entry at an offset refers to this other offset by the chain, and there is no entry of the chain's kind.
fn dangles(pptt: &[u8], chain: Chain, at: u64, other: u64) -> bool
    ensures { IsTrue result ↔ Dangles (Names chain (pptt_contents pptt.now)) at other }
{
    named_at(pptt, chain, at) == Some(other) && other != 0 && !is_linked_at(pptt, chain, other)
}

/// Whether the private resource `index` of the entry at an offset is this one.
fn names_resource(pptt: &[u8], at: u64, index: u64, resource: u64) -> bool
    ensures { IsTrue result ↔ NamesResource (pptt_contents pptt.now) at index resource }
{
    entry_at(pptt, FIRST_ENTRY, at).is_some_and(|entry| private_resource(entry, index)
        == Some(resource))
}

/// Codes 52 to 54: references of entries.
fn has_reference_fault(pptt: &[u8], witness: &Witness) -> bool
    ensures { IsTrue result ↔ ReferenceFault (pptt_contents pptt.now) witness.now.code
        witness.now.at witness.now.other witness.now.point }
{
    let (at, other, point) = (witness.at, witness.other, witness.point);
    match witness.code {
        Code::DanglingParent => point == 0 && dangles(pptt, Chain::Parents, at, other),
        Code::DanglingResource => {
            names_resource(pptt, at, other, point) && !is_resource_at(pptt, point)
        }
        Code::DanglingCache => point == 0 && dangles(pptt, Chain::NextLevels, at, other),
        _ => false,
    }
}

/// Whether the PPTT has this fault of stages 12 to 15.
pub(crate) fn is_pptt_fault(pptt: &[u8], witness: &Witness) -> bool
    ensures { IsTrue result ↔ PpttCondition (stage_of witness.now.code) (pptt_contents pptt.now)
        witness.now }
{
    match witness.code.stage() {
        Stage::Pptt => has_entry_fault(pptt, witness),
        Stage::References => has_reference_fault(pptt, witness),
        Stage::Parents => has_parent_fault(pptt, witness),
        Stage::Caches => has_cache_fault(pptt, witness),
        _ => false,
    }
}
