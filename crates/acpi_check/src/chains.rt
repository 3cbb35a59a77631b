//! Stages 14 and 15: the chains of Parents and of Next Levels in the PPTT.

ghost use Rattle.std.specs.Prelude.{◌≡◌, ◌≢◌, AllPairs, IfOk, IsTrue, None, ◌<◌};
ghost use Rattle.acpi_base.specs.Pptt.{pptt_contents, AreReferencesValid, DoParentsEnd, DoCachesEnd, ParentFault, CacheFault};
ghost use Rattle.acpi_base.specs.declared.stage.Stage.{Stage};
ghost use Rattle.acpi_read.specs.Pptts.{pptt_value};
ghost use Rattle.acpi_check.specs.Chains.{named_offset, code_of, FindsCycle, Leads};
ghost use Rattle.acpi_check.specs.ChainIndices.{IsIndexOf, AreNodesOf, AreIndices};
ghost use Rattle.acpi_check.specs.TableResults.{FindsFirst};

use crate::nodes::{Chain, Nodes};
use crate::refusal::{Refusal, refuse};
use crate::search::binary_search;
use acpi_base::{Code, Witness};
use acpi_graph::{Stray, first_stray};
use acpi_read::{PpttEntry, Table};
use std::alloc::{AllocError, Global};

/// The offset that an entry refers to, if the entry is a node of such chains. 0 is none.
pub fn named_offset(chain: Chain, entry: &PpttEntry<'_>) -> Option<u32>
    ensures { result ≡ named_offset chain (pptt_value entry.now) }
{
    match (chain, entry) {
        (Chain::Parents, PpttEntry::Node(head, _)) => Some(head.parent),
        (Chain::NextLevels, PpttEntry::Cache24(cache)) => Some(cache.next_level),
        (Chain::NextLevels, PpttEntry::Cache28(cache)) => Some(cache.fields.next_level),
        _ => None,
    }
}

/// Whether a reference from an offset leads up, or else down. 0 refers to nothing.
fn does_lead(up: bool, offset: u64, named: u32) -> bool
    ensures { IsTrue result → named ≢ 0 → Leads up offset named }
{
    let named = u64::from(named);
    named == 0 || (if up { offset < named } else { named < offset })
}

/// Whether all references of a PPTT's chains lead up, or all lead down, as in most machines. Then no chain has a cycle.
#[inline(never)]
fn do_all_lead(chain: Chain, up: bool, pptt: &Table<'_>) -> bool
    ensures { IsTrue result → FindsCycle chain (pptt_contents pptt.now) None }
{
    let mut entries = pptt.entries::<PpttEntry<'_>>();
    while let Some(at) = entries.next() {
        if let Some(named) = named_offset(chain, &at.entry) {
            if !does_lead(up, at.offset, named) {
                return false;
            }
        }
    }
    true
}

/// The nodes of a PPTT's chains.
#[tactic(auto, using(crate::proofs::EntryPasses::Collecting::gathering))]
fn nodes_of(alloc: Global, chain: Chain, pptt: &Table<'_>) -> Result<Nodes, AllocError>
    ensures { IfOk result (AreNodesOf chain (pptt_contents pptt.now)) }
{
    let mut offsets = Vec::new(alloc);
    let mut named = Vec::new(alloc);
    for at in pptt.entries::<PpttEntry<'_>>() {
        if let Some(offset) = named_offset(chain, &at.entry) {
            offsets.push(at.offset)?;
            named.push(offset)?;
        }
    }
    Ok(Nodes { offsets, named })
}

/// The index, among offsets that rise, of the one that a node refers to; none if it is not among them, as 0 is not.
fn index_of(offsets: &[u64], named: u32) -> Option<usize>
    requires { AllPairs (λ o p. o < p) offsets.now }
    ensures { IsIndexOf offsets.now named result }
{
    if named == 0 {
        return None;
    }
    binary_search(offsets, u64::from(named))
}

/// For each node the index of the node that it refers to, if it is one.
fn parents_of(alloc: Global, nodes: &Nodes) -> Result<Vec<Option<usize>>, AllocError>
    requires { AllPairs (λ o p. o < p) nodes.now.offsets.items }
    ensures { IfOk result (λ parents. AreIndices nodes.now parents.items) }
{
    let mut parents = Vec::new(alloc);
    for k in 0..nodes.named.len() {
        parents.push(index_of(&nodes.offsets, nodes.named[k]))?;
    }
    Ok(parents)
}

/// The code of a cycle.
fn code_of(chain: Chain) -> Code
    ensures { result ≡ code_of chain }
{
    match chain {
        Chain::Parents => Code::ParentCycle,
        Chain::NextLevels => Code::CacheCycle,
    }
}

/// The fault of the first node of a PPTT whose chain has a cycle, or none if no chain has one: nodes and their
/// Parents (ACPI 6.5, 5.2.30.1), or caches and their Next Levels (5.2.30.2). The PPTT may have any entries. A chain
/// ends if a node refers to 0, or to an offset at which no node of its kind begins.
///
/// The fault has the code `ParentCycle`, or `CacheCycle` for caches: `at` is the node's offset, in bytes from the
/// table's start; `other` is the lowest number of steps from it into its cycle, and `point` the lowest number of
/// steps around it, at least 1. Refuses with `AllocError` if out of memory: unless all references lead to lower offsets,
/// or all to higher ones, it allocates for each node of the kind.
pub fn first_cycle(
    alloc: Global,
    chain: Chain,
    pptt: &Table<'_>,
) -> Result<Option<Witness>, AllocError>
    ensures { IfOk result (FindsCycle chain (pptt_contents pptt.now)) }
{
    if do_all_lead(chain, false, pptt) || do_all_lead(chain, true, pptt) {
        return Ok(None);
    }
    let nodes = nodes_of(alloc, chain, pptt)?;
    let parents = parents_of(alloc, &nodes)?;
    let (found, _) = first_stray(alloc, &parents)?;
    match found {
        Stray::None => Ok(None),
        Stray::Round { node, lead, round } => Ok(Some(Witness {
            code: code_of(chain),
            at: nodes.offsets[node],
            other: lead as u64,
            point: round as u64,
        })),
    }
}

/// Whether the chain of Parents from every node of a PPTT ends. The first fault is at the offset of the first node
/// whose chain does not. Allocates for each node.
pub fn check_parents(alloc: Global, pptt: &Table<'_>) -> Result<(), Refusal>
    requires { AreReferencesValid (pptt_contents pptt.now) }
    ensures { FindsFirst Stage.Parents (DoParentsEnd (pptt_contents pptt.now))
        (ParentFault (pptt_contents pptt.now)) result }
{
    refuse(first_cycle(alloc, Chain::Parents, pptt)?)
}

/// Whether the chain of Next Levels from every cache of a PPTT ends. The first fault is at the offset of the first
/// cache whose chain does not. Allocates for each cache.
pub fn check_caches(alloc: Global, pptt: &Table<'_>) -> Result<(), Refusal>
    requires { AreReferencesValid (pptt_contents pptt.now) }
    ensures { FindsFirst Stage.Caches (DoCachesEnd (pptt_contents pptt.now))
        (CacheFault (pptt_contents pptt.now)) result }
{
    refuse(first_cycle(alloc, Chain::NextLevels, pptt)?)
}
