//! Leaves of a PPTT that are in no physical package (ACPI 6.5, 5.2.30.1).

ghost use Rattle.std.specs.Prelude.{◌≡◌, ◌≢◌, ◌<◌, ◌⊎◌, ◌↔◌, ℕ, AllPairs, Contains, IfOk, IsTrue, MatchOption, OnOk, ◌++◌, false, get_or, length, map};
ghost use Rattle.acpi_base.specs.Chains.{Ends};
ghost use Rattle.acpi_lint.specs.Hierarchy.{AreNoneOutside, IsOutsideAt, none};
ghost use Rattle.acpi_rules.specs.Numbered.{IsFirst, IsNotAbove};
ghost use Rattle.acpi_rules.specs.Places.{FindsLeast};
ghost use Rattle.acpi_lint.specs.Rules.Hierarchy.{HasParent, IsLeafAt, IsNoPackage, by_place, outer_nodes};
ghost use Rattle.acpi_rules.specs.declared.numbered.Numbered.{Numbered};

use crate::rows::{MARKED_LEAVES, OUTER_PARENTS, PPTT_ENTRIES, UNMARKED_LEAVES};
use acpi_read::Table;
use acpi_rules::{
    IndexedTable, Numbered, Place, Tables, given_by_row, numbers_in_order, sort_numbers,
};
use std::alloc::{AllocError, Global};

/// Adds numbers at places as these places, each with its number as its value.
fn push_by_places(given: &[Numbered], all: &mut Vec<Numbered>) -> Result<(), AllocError>
    ensures { OnOk result (all.new.items ≡ all.old.items ++ map by_place given.now) }
{
    for one in given {
        all.push(Numbered {
            number: one.at,
            at: one.at,
            value: one.number,
        })?;
    }
    Ok(())
}

/// The offsets of the leaves, in order, each with its ID as its value. Allocates for each leaf, and below Revision 2 for
/// each node.
fn leaves(alloc: Global, pptt: &Table<'_>) -> Result<Vec<Numbered>, AllocError>
    ensures order { IfOk result (λ leaves. AllPairs IsNotAbove leaves.items) }
    ensures placed { IfOk result (λ leaves. (g : Numbered) → Contains leaves.items g
        → g.at ≡ g.number) }
    ensures all { IfOk result (λ leaves. (at id : ℕ) → IsLeafAt pptt.now at id
        ↔ ((g : Numbered) × Contains leaves.items g × (g.number ≡ at) × (g.value ≡ id))) }
{
    let tables = Tables {
        table: IndexedTable::new(pptt.bytes()),
        other: IndexedTable::new(&[]),
    };
    let mut all = Vec::new(alloc);
    push_by_places(&given_by_row(alloc, &MARKED_LEAVES, &tables)?, &mut all)?;
    push_by_places(&given_by_row(alloc, &UNMARKED_LEAVES, &tables)?, &mut all)?;
    sort_numbers(&mut all)?;
    Ok(all)
}

/// The offsets of the nodes that are no physical packages, in order, each with its Parent as its value. Allocates for each.
fn nodes(alloc: Global, pptt: &Table<'_>) -> Result<Vec<Numbered>, AllocError>
    ensures order { IfOk result (λ nodes. AllPairs IsNotAbove nodes.items) }
    ensures same { IfOk result (λ nodes. (g : Numbered) → Contains nodes.items g
        ↔ Contains (outer_nodes pptt.now) g) }
{
    let tables = Tables {
        table: IndexedTable::new(pptt.bytes()),
        other: IndexedTable::new(&[]),
    };
    let mut all = Vec::new(alloc);
    let parents = numbers_in_order(alloc, &PPTT_ENTRIES, OUTER_PARENTS, &tables)?;
    push_by_places(&parents, &mut all)?;
    sort_numbers(&mut all)?;
    Ok(all)
}

/// The index of the first node at an offset. The nodes are in order.
fn index_of(nodes: &[Numbered], offset: u64) -> Option<usize>
    requires { AllPairs IsNotAbove nodes.now }
    ensures { MatchOption result
        ((g : Numbered) → Contains nodes.now g → g.number ≢ offset)
        (λ i. (i < length nodes.now) × IsFirst (λ g. Contains nodes.now g) (get_or nodes.now i none)
        × ((get_or nodes.now i none).number ≡ offset)) }
{
    let before = nodes.partition_point(|node| node.number < offset);
    if before < nodes.len() && nodes[before].number == offset {
        return Some(before);
    }
    None
}

/// Whether the chain of Parents from an offset on leads over these nodes to one whose Parent is 0. The nodes that it
/// leads over become visited; from one that was visited before, no chain leads there.
fn ends_outside(nodes: &[Numbered], visited: &mut [bool], start: u64) -> bool
    requires order { AllPairs IsNotAbove nodes.now }
    requires visited { AreNoneOutside nodes.now visited.old }
    ensures found { IsTrue result → Ends (HasParent nodes.now) start }
    ensures not { result ≡ false → ¬ Ends (HasParent nodes.now) start }
    ensures visited { result ≡ false → AreNoneOutside nodes.now visited.new }
{
    let mut offset = start;
    while let Some(index) = index_of(nodes, offset) {
        if visited[index] {
            return false;
        }
        visited[index] = true;
        offset = nodes[index].value;
        if offset == 0 {
            return true;
        }
    }
    false
}

/// The place of the first of these leaves whose chain of Parents leads over these nodes to one whose Parent is 0.
fn first_outside(nodes: &[Numbered], visited: &mut [bool], leaves: &[Numbered]) -> Option<Place>
    requires order { AllPairs IsNotAbove nodes.now }
    requires visited { AreNoneOutside nodes.now visited.old }
    requires leaves { AllPairs IsNotAbove leaves.now }
    requires placed { (g : Numbered) → Contains leaves.now g → g.at ≡ g.number }
    ensures { FindsLeast (IsOutsideAt nodes.now leaves.now) result }
{
    for leaf in leaves {
        if ends_outside(nodes, visited, leaf.number) {
            return Some(Place {
                at: leaf.number,
                other: 0,
                point: leaf.value,
            });
        }
    }
    None
}

/// 182 NoPackage, likely wrong (5.2.30.1): no node from a leaf to its root is a package.
/// Numbers: `at` is the leaf's offset, `point` is its ACPI Processor ID.
/// "The leaf at {at} of the PPTT, of ACPI Processor ID {point:d}, is in no package."
///
/// The first leaf with an ID, `point`, whose chain of Parents ends and has no physical package. Allocates for each leaf
/// and for each node.
// No row: it follows chains.
pub fn no_package(alloc: Global, pptt: &Table<'_>) -> Result<Option<Place>, AllocError>
    ensures { IfOk result (FindsLeast (IsNoPackage pptt.now)) }
{
    let leaves = leaves(alloc, pptt)?;
    let nodes = nodes(alloc, pptt)?;
    let mut visited = vec![in alloc; false; nodes.len()]?;
    Ok(first_outside(&nodes, &mut visited, &leaves))
}
