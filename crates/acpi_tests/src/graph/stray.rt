//! Tests of the first chain that does not end, against a walk from each node.

ghost use Rattle.std.specs.Prelude.{IsTrue};
ghost use Rattle.acpi_graph.specs.Parents.{AreNodes};

use acpi_graph::{Stray, first_stray};
use std::alloc::{AllocError, Global};
use std::process::Abort;
use std::test::Fail;

/// Whether every parent is an index of the list.
fn are_nodes(parents: &[Option<usize>]) -> bool
    ensures { IsTrue result → AreNodes parents.now }
{
    for parent in parents {
        if let Some(node) = parent {
            if *node >= parents.len() {
                return false;
            }
        }
    }
    true
}

fn stray_of(
    rt: &impl Abort,
    alloc: Global,
    parents: &[Option<usize>],
) -> Result<(Stray, usize), AllocError> {
    assert!(rt; are_nodes(parents));
    first_stray(alloc, parents)
}

/// A cycle of `round` steps after `lead` steps from a node.
fn round(node: usize, lead: usize, round: usize) -> Stray {
    Stray::Round { node, lead, round }
}

#[test]
fn first_strays(rt: HostRuntime) -> Result<(), Fail> {
    let table: [(&[Option<usize>], Stray, usize); 7] = [
        (&[], Stray::None, 0),
        (&[None], Stray::None, 1),
        (&[Some(0)], round(0, 0, 1), 1),
        (&[None, Some(0), Some(3), Some(3)], round(2, 1, 1), 4),
        (&[Some(1), Some(0), None], round(0, 0, 2), 2),
        (&[Some(2), None, Some(1), Some(2)], Stray::None, 4),
        (
            &[None, Some(2), Some(3), Some(4), Some(5), Some(3)],
            round(1, 2, 3),
            6,
        ),
    ];
    for (parents, stray, steps) in table {
        let found = stray_of(&rt, rt.alloc(), parents)?;
        assert!(rt; found == (stray, steps), "{parents:?}");
    }
    Ok(())
}

/// The node after this many steps.
fn plain_after(parents: &[Option<usize>], node: usize, steps: usize) -> Option<usize> {
    let mut there = node;
    for _ in 0..steps {
        there = (*parents.get(there)?)?;
    }
    Some(there)
}

/// The first lead and round of a node after which it is again at the same node, each tried in turn.
fn plain_round(parents: &[Option<usize>], node: usize) -> Stray {
    for lead in 0..parents.len() {
        for again in lead + 1..=parents.len() {
            let stands = plain_after(parents, node, lead);
            if stands.is_some() && stands == plain_after(parents, node, again) {
                return round(node, lead, again - lead);
            }
        }
    }
    Stray::None
}

/// The first stray: a chain that continues for as many steps as there are nodes never ends.
fn plain_stray(parents: &[Option<usize>]) -> Stray {
    for node in 0..parents.len() {
        if plain_after(parents, node, parents.len()).is_some() {
            return plain_round(parents, node);
        }
    }
    Stray::None
}

/// The list of `count` parents whose digits, from 0 for none up to `count`, write the number.
fn numbered(alloc: Global, count: u8, number: usize) -> Result<Vec<Option<usize>>, AllocError> {
    let mut parents = Vec::new(alloc);
    let mut rest = number;
    let digits = usize::from(count) + 1;
    for _ in 0..count {
        parents.push((rest % digits).checked_sub(1))?;
        rest /= digits;
    }
    Ok(parents)
}

/// Compares the first stray of the list of that number with what the plain walk finds.
fn judge(rt: &impl Abort, alloc: Global, count: u8, number: usize) -> Result<(), AllocError> {
    let parents = numbered(alloc, count, number)?;
    let (stray, steps) = stray_of(rt, alloc, &parents)?;
    let agrees = stray == plain_stray(&parents) && steps <= parents.len();
    assert!(rt;
        agrees && parents.len() == usize::from(count),
        "{parents:?}"
    );
    Ok(())
}

#[test]
fn agrees_with_the_plain_walk(rt: HostRuntime) -> Result<(), Fail> {
    for &(count, lists) in &[(0, 1), (1, 2), (2, 9), (3, 64), (4, 625), (5, 7776)] {
        for number in 0..lists {
            judge(&rt, rt.alloc(), count, number)?;
        }
    }
    Ok(())
}

/// How many nodes the chains have.
const COUNT: usize = 200_000;

/// Each node below `count` has the next as its parent, and the last has this one.
fn chain(
    alloc: Global,
    count: usize,
    last: Option<usize>,
) -> Result<Vec<Option<usize>>, AllocError> {
    let mut parents = Vec::new(alloc);
    for node in 1..count {
        parents.push(Some(node))?;
    }
    parents.push(last)?;
    Ok(parents)
}

/// The first stray of that chain.
fn chain_stray(
    rt: &impl Abort,
    alloc: Global,
    last: Option<usize>,
) -> Result<(Stray, usize), AllocError> {
    let parents = chain(alloc, COUNT, last)?;
    stray_of(rt, alloc, &parents)
}

#[test]
fn many_nodes(rt: HostRuntime) -> Result<(), Fail> {
    let cases = [
        (None, Stray::None),
        (Some(0), round(0, 0, 200_000)),
        (Some(150_000), round(0, 150_000, 50_000)),
    ];
    for (last, stray) in cases {
        let found = chain_stray(&rt, rt.alloc(), last)?;
        assert!(rt; found == (stray, COUNT), "to {last:?}");
    }
    Ok(())
}

/// A chain of 50,000 nodes that ends, and then rings of three.
fn rings(alloc: Global) -> Result<Vec<Option<usize>>, AllocError> {
    let mut parents = chain(alloc, 50_000, None)?;
    for ring in 0..50_000 {
        let first = 50_000 + 3 * ring;
        parents.extend_from_slice(&[Some(first + 1), Some(first + 2), Some(first)])?;
    }
    Ok(parents)
}

#[test]
fn many_rings(rt: HostRuntime) -> Result<(), Fail> {
    let parents = rings(rt.alloc())?;
    let found = stray_of(&rt, rt.alloc(), &parents)?;
    assert!(rt; found == (round(50_000, 0, 3), 50_003));
    Ok(())
}
