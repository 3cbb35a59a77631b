//! Nodes of chains in a PPTT.

/// What the nodes of chains in a PPTT are, and how each refers to the next one.
#[derive(Clone, Copy)]
pub enum Chain {
    /// Processor hierarchy nodes, by their Parents (ACPI 6.5, 5.2.30.1).
    Parents,
    /// Caches, by their Next Levels (5.2.30.2).
    NextLevels,
}

/// The nodes of chains, in the entries' order.
#[derive(Drop)]
pub struct Nodes {
    /// The offset of each.
    pub offsets: Vec<u64>,
    /// The offset that each refers to; 0 for none.
    pub named: Vec<u32>,
}
