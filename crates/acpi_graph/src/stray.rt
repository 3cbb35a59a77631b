//! The first node whose chain of parents never ends.

ghost use Rattle.std.specs.Prelude.{◌≡◌, ◌+◌, ◌<◌, ◌≤◌, ◌↔◌, [], IsOk, IfOk, length, replicate};
ghost use Rattle.acpi_graph.specs.Parents.{AreNodes, parent_of, Ends, AllEnd, IsRound, IsFirstStray, IfRound};
ghost use Rattle.acpi_graph.specs.Walks.{AreMarksOfEnded};

use std::alloc::{AllocError, Global};

/// Whether a chain of parents leads into a cycle.
#[derive(Clone, Copy, Debug, PartialEq, Eq, Hash)]
pub enum Stray {
    /// Every chain ends, at a node with no parent.
    None,
    /// `node` is the lowest one whose chain does not end. `lead` is the lowest number of steps into its cycle, and
    /// `round` is the length of the cycle in steps, at least 1.
    Round {
        node: usize,
        lead: usize,
        round: usize,
    },
}

/// The lowest node whose chain of parents does not end, with its cycle, and how many steps from a node to its parent
/// were taken to find it.
///
/// `parents` has at each node's index the index of its parent, or `None` if it has none. It takes at most one step
/// for each node, and allocates one number for each node: refuses with `AllocError` if out of memory.
pub fn first_stray(alloc: Global, parents: &[Option<usize>]) -> Result<(Stray, usize), AllocError>
    requires { AreNodes parents.now }

    // Without nodes it allocates nothing, so it cannot run out of memory.
    ensures nothing { parents.now ≡ [] → IsOk result }
    ensures none { IfOk result (λ found. (found.0 ≡ Stray.None) ↔ AllEnd parents.now) }
    ensures first { IfOk result (λ found. IfRound found.0 (IsFirstStray parents.now)) }

    // The cycle is closed within as many steps as there are nodes, and the search takes no more.
    ensures within { IfOk result (λ found.
        IfRound found.0 (λ node lead round. lead + round ≤ length parents.now)) }
    ensures steps { IfOk result (λ found. found.1 ≤ length parents.now) }
{
    if parents.is_empty() {
        return Ok((Stray::None, 0));
    }
    let mut marks = vec![in alloc; 0; parents.len()]?;
    Ok(walk_all(parents, &mut marks))
}

/// Walks from each node in turn, until a chain leads into a cycle.
fn walk_all(parents: &[Option<usize>], marks: &mut [usize]) -> (Stray, usize)
    requires nodes { AreNodes parents.now }
    requires fresh { marks.old ≡ replicate (length parents.now) 0 }
    ensures none { result.0 ≡ Stray.None → AllEnd parents.now }
    ensures first { IfRound result.0 (IsFirstStray parents.now) }
    ensures within { IfRound result.0 (λ node lead round. lead + round ≤ length parents.now) }
    ensures steps { result.1 ≤ length parents.now }
{
    let mut steps = 0;
    for start in 0..parents.len() {
        match walk(parents, marks, &mut steps, start) {
            Stray::None => {}
            round => return (round, steps),
        }
    }
    (Stray::None, steps)
}

/// Walks up from a node, until it reaches a node with no parent or one that a walk has left.
///
/// The mark of a node that no walk has left is 0; any other mark is the number of the step that left it. So a mark up
/// to the number of steps before this walk is that of a node whose chain ends, and a higher one says how many steps
/// this walk had taken there.
fn walk(parents: &[Option<usize>], marks: &mut [usize], steps: &mut usize, start: usize) -> Stray
    requires nodes { AreNodes parents.now }
    requires start { start < length parents.now }
    requires settled { AreMarksOfEnded parents.now marks.old steps.old }
    ensures settled { result ≡ Stray.None → AreMarksOfEnded parents.now marks.new steps.new }
    ensures end { result ≡ Stray.None → Ends parents.now start }
    ensures round { IfRound result (λ node lead round.
        (node ≡ start) × IsRound parents.now start lead round
        × (lead + round ≤ length parents.now)) }
    ensures steps { steps.new ≤ length parents.now }
{
    let before = *steps;
    let mut node = start;
    while marks[node] == 0 {
        marks[node] = *steps + 1;
        match step(parents, node, steps) {
            Some(parent) => node = parent,
            None => return Stray::None,
        }
    }
    let mark = marks[node];
    if mark <= before {
        Stray::None
    } else {
        Stray::Round {
            node: start,
            lead: mark - before - 1,
            round: *steps + 1 - mark,
        }
    }
}

/// The parent of a node. Each step to a parent is taken here, and counted.
fn step(parents: &[Option<usize>], node: usize, steps: &mut usize) -> Option<usize>
    requires node { node < length parents.now }
    requires room { steps.old < usize.MAX }
    ensures parent { result ≡ parent_of parents.now node }
    ensures counted { steps.new ≡ steps.old + 1 }
{
    *steps += 1;
    parents[node]
}
