//! The walk over structures that follow one another.

ghost use Rattle.std.specs.Prelude.{◌≡◌, ◌≤◌, [], length, MatchOption};
ghost use Rattle.std.specs.Iterator.{YieldsFirstBy, item_count};
ghost use Rattle.std.specs.Option.{option_map};
ghost use Rattle.acpi_rules.specs.Series.{first_structure};
ghost use Rattle.acpi_rules.specs.Walks.{cut_behind, cut_here, no_walk, placed, walk_of, IsLast, IsNext};

use crate::series::{Series, Shape, is_counted, most_of, said_in, size_in, start_of};
use crate::window::Window;
use std::marker::Model;

/// Where a walk is cut: it has fewer structures than a field says, or does not end exactly with what encloses it.
#[derive(Clone, Copy, Debug, PartialEq, Eq)]
pub struct Cut {
    /// The offset in bytes, from the table's start, where it ends.
    pub at: u64,
    /// The length in bytes that is said there; 0 if none is.
    pub said: u64,
    /// The offset in bytes, from the table's start, behind what encloses it.
    pub end: u64,
}

/// The structures of a series in their order, up to the first that does not fit. Nothing is allocated.
#[derive(Debug, Drop)]
pub struct Structures<'a> {
    shape: Shape,
    /// Whether a field says how many there are.
    counted: bool,
    /// How many are left at most.
    most: u128,
    /// The offset behind what encloses them, from the table's start.
    end: u64,
    /// The offset of the bytes that are left, from the table's start.
    at: u64,
    left: &'a [u8],
}

impl<'a> Model for Structures<'a> {
    ghost use Rattle.std.specs.Prelude.{◌+◌, ◌<◌, ◌≤◌, ◌^◌, length};
    ghost use Rattle.acpi_rules.specs.Walks.{Walk, walk_from};

    ghost Value = { Walk };

    ghost view = { λ s. walk_from s.shape s.counted s.most s.end s.at s.left.now };

    // Where bytes are left, they are some of the enclosing structure; a start may lie behind it.
    ghost invariant = { λ s. 1 ≤ length s.left.now → s.at + length s.left.now < 2 ^ 63 };
}

/// The structure that the remaining bytes begin with, if one fits.
#[tactic(auto, unfolding(crate::specs::Series::first_bytes))]
#[inline(always)]
fn first_structure(shape: Shape, left: &[u8]) -> Option<&[u8]>
    ensures { option_map (λ e. e.now) result ≡ first_structure shape left.now }
{
    let size = size_in(left, shape);
    if size < 1 || size > left.len() as u64 {
        return None;
    }
    Some(&left[..size as usize])
}

/// The next structure, if one is left and fits.
#[inline(always)]
fn next_structure(
    shape: Shape,
    most: u128,
    left: &[u8],
    counted: bool,
    end: u64,
    at: u64,
) -> Option<&[u8]>
    ensures { MatchOption result (IsLast shape counted most end at left.now)
        (λ e. IsNext shape counted most end at left.now e.now) }
{
    if most == 0 {
        return None;
    }
    first_structure(shape, left)
}

/// The cut of a walk that ends here, if it is cut.
fn cut_here(shape: Shape, counted: bool, most: u128, end: u64, at: u64, left: &[u8]) -> Option<Cut>
    ensures { result ≡ cut_here shape counted most end at left.now }
{
    let is_cut = if counted { most > 0 } else { at != end };
    if !is_cut {
        return None;
    }
    let said = said_in(left, shape);
    Some(Cut { at, said, end })
}

impl<'a> Structures<'a> {
    /// The structures of a series inside a structure, or a table.
    #[tactic(auto, using(crate::proofs::Steps::drop_within))]
    pub(crate) fn new(series: &Series, inside: Window<'a>) -> Structures<'a>
        ensures { result ≡ walk_of series.now (placed inside.entry) }
    {
        let bytes = inside.bytes;
        let Some(start) = start_of(bytes, series.start) else {
            return Structures::none();
        };
        let size = bytes.len() as u64;
        Structures {
            shape: series.shape,
            counted: is_counted(series.extent),
            most: most_of(bytes, series.extent),
            end: inside.at + size,
            at: inside.at + start,
            left: &bytes[start.min(size) as usize..],
        }
    }

    /// No structures.
    #[tactic(auto, unfolding(crate::specs::Walks::structures_from, crate::specs::Walks::cut_from))]
    #[inline(always)]
    pub(crate) fn none() -> Structures<'a>
        ensures { result ≡ no_walk }
    {
        Structures {
            shape: Shape::Records(0),
            counted: true,
            most: 0,
            end: 0,
            at: 0,
            left: &[],
        }
    }

    /// Once no structure is left: where the walk is cut, if it is.
    pub(crate) fn cut(&self) -> Option<Cut>
        ensures { result ≡ cut_behind self.now }
    {
        let next = next_structure(
            self.shape,
            self.most,
            self.left,
            self.counted,
            self.end,
            self.at,
        );
        if next.is_some() {
            return None;
        }
        cut_here(
            self.shape,
            self.counted,
            self.most,
            self.end,
            self.at,
            self.left,
        )
    }
}

impl<'a> Iterator for Structures<'a> {
    type Item = Window<'a>;

    ghost next_gives = { λ before structure after. YieldsFirstBy placed (λ left. left.structures)
        before structure
        after × (after.cut ≡ before.cut) };

    ghost remaining = { item_count (λ left. left.structures) };

    #[inline(always)]
    fn next(&mut self) -> Option<Window<'a>> {
        let bytes = next_structure(
            self.shape,
            self.most,
            self.left,
            self.counted,
            self.end,
            self.at,
        )?;
        let at = self.at;
        self.most -= 1;
        self.at += bytes.len() as u64;
        self.left = &self.left[bytes.len()..];
        Some(Window { at, bytes })
    }
}

/// Where the walk over a series inside a structure is cut, if it is.
pub(crate) fn cut_in(series: &Series, inside: Window<'_>) -> Option<Cut>
    ensures { result ≡ (walk_of series.now (placed inside.entry)).cut }
{
    let mut structures = Structures::new(series, inside);
    while structures.next().is_some() {}
    structures.cut()
}
