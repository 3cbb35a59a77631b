//! A table's bytes, with an index of its structures.

ghost use Rattle.std.specs.Prelude.{◌≡◌, IfSome, IsTrue};
ghost use Rattle.acpi_rules.specs.declared.series.Path.TheVariants.{Entries};
ghost use Rattle.std.specs.Option.{ForSome};
ghost use Rattle.acpi_rules.specs.Indexes.{IsIndexOf};

use crate::index::Index;
use crate::series::{Extent, Head, Path, Series, Shape, Start};

/// The bytes of a table, and the index of a series of it, if it has one. What rules find does not depend on the index:
/// it saves time where many rules go over the same structures.
#[derive(Clone, Copy, Debug)]
pub struct IndexedTable<'a> {
    /// The bytes.
    pub bytes: &'a [u8],
    /// The index.
    pub index: Option<&'a Index>,
    pub ghost right: { ForSome index (λ i. ∥ IsIndexOf i.now bytes.now ∥₁) },
}

/// Whether two heads are known to be the same.
fn is_same_head(one: Head, other: Head) -> bool
    ensures { IsTrue result → one ≡ other }
{
    one.kind.place == other.kind.place
        && one.length.place == other.length.place
        && one.least == other.least
}

/// Whether two series are known to be the same: of structures that say their lengths, from an offset to the end, as those
/// of the MADT, the SRAT and the PPTT are.
fn is_same(one: &Series, other: &Series) -> bool
    ensures { IsTrue result → one.now ≡ other.now }
{
    match (
        one.start,
        one.extent,
        one.shape,
        other.start,
        other.extent,
        other.shape,
    ) {
        (
            Start::At(first),
            Extent::ToEnd,
            Shape::Headed(head),
            Start::At(second),
            Extent::ToEnd,
            Shape::Headed(likewise),
        ) => first == second && is_same_head(head, likewise),
        _ => false,
    }
}

impl<'a> IndexedTable<'a> {
    /// A table without an index.
    pub fn new(bytes: &'a [u8]) -> IndexedTable<'a>
        ensures { result.bytes.now ≡ bytes.entry.now }
    {
        IndexedTable { bytes, index: None }
    }

    /// A table with an index of it.
    pub fn with(bytes: &'a [u8], index: &'a Index) -> IndexedTable<'a>
        requires { IsIndexOf index.now bytes.now }
        ensures { result.bytes.now ≡ bytes.entry.now }
    {
        IndexedTable {
            bytes,
            index: Some(index),
        }
    }

    /// The index, if the path leads to its structures.
    #[inline(always)]
    pub(crate) fn index_of(&self, path: &Path) -> Option<&'a Index>
        ensures of { IfSome result (λ i. path.now ≡ Entries i.now.series) }
        ensures right { IfSome result (λ i. ∥ IsIndexOf i.now self.now.bytes.now ∥₁) }
    {
        let index = self.index?;
        match path {
            Path::Entries(series) if is_same(&index.series, series) => Some(index),
            _ => None,
        }
    }
}
