//! An entry of a table.

ghost use Rattle.acpi_base.specs.Entries.{IsEntry};

/// An entry of a table.
#[derive(Clone, Copy, Debug, PartialEq, Eq)]
pub struct Entry<'a> {
    /// Its offset, from the table's start.
    pub offset: u64,
    /// Its bytes, at least two: its type, its length, which is their count, and the rest.
    pub bytes: &'a [u8],
    pub ghost is_entry: { IsEntry bytes.now },
}
