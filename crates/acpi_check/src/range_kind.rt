//! Kinds of ranges of addresses.

/// The ranges of an SRAT that are compared with each other.
#[derive(Clone, Copy)]
pub enum RangeKind {
    /// All of them.
    Any,
    /// Those that are hot-pluggable.
    HotPluggable,
    /// Those that are not.
    NotHotPluggable,
}
