//! Runs of a table's bytes with their place in it.

ghost use Rattle.std.specs.Prelude.{◌+◌, ◌<◌, ◌^◌, length};

/// A structure of a table, or the table: where it begins, and its bytes.
#[derive(Clone, Copy, Debug)]
pub struct Window<'a> {
    /// Its offset in bytes, from the table's start.
    pub at: u64,
    /// Its bytes.
    pub bytes: &'a [u8],
    pub ghost fits: { at + length bytes.now < 2 ^ 63 },
}
