//! The offsets of the entries of a PPTT, by kind.

use crate::bit_set::BitSet;

/// What an entry is.
#[derive(Clone, Copy)]
pub enum PlaceKind {
    /// A processor hierarchy node.
    Node,
    /// A cache.
    Cache,
    /// Of another type.
    Other,
}

/// The offsets of the entries of a PPTT, by what may refer to them.
#[derive(Drop)]
pub struct Places {
    /// Those of nodes: what a Parent may refer to.
    pub nodes: BitSet,
    /// Those of caches: what a Next Level may refer to.
    pub caches: BitSet,
    /// Those of all entries but nodes: what a private resource may be.
    pub resources: BitSet,
}
