//! The runs of an image, in rising order of addresses.

ghost use Rattle.std.specs.Prelude.{MatchOption};
ghost use Rattle.acpi_base.specs.Image.Lent.{AreParts, memory_of_parts};
ghost use Rattle.acpi_base.specs.Image.Runs.{AreBytesFrom};
ghost use Rattle.acpi_base.specs.Text.WrittenText.{IsEmptyFrom, IsFirstFrom, IsNextRun};

use crate::image::LentImage;
use crate::image::parts::Parts;

/// The first run from an address on.
fn next_run<'p>(parts: &'p Parts<'_>, address: u64) -> Option<(u64, &'p [u8])>
    requires { AreParts parts.now }
    ensures { MatchOption result (IsEmptyFrom (memory_of_parts parts.now) address)
        (λ found. IsNextRun (memory_of_parts parts.now) address found.0 found.1.now) }
{
    let base = parts.first_from(address)?;
    Some((base, parts.rest_from(base)))
}

impl<'a> LentImage<'a> {
    /// Returns the bytes from an address on, up to the next address without a byte: none if that is the address itself.
    /// Each window from the address on that the image has is a beginning of these bytes, so whoever needs several of
    /// them searches the image once. Takes no memory.
    pub fn bytes_from(&self, address: u64) -> &[u8]
        ensures { AreBytesFrom self.now address result.now }
    {
        self.parts.rest_from(address)
    }

    /// The lowest address with a byte, from an address on. Takes no memory.
    pub(crate) fn first_from(&self, address: u64) -> Option<u64>
        ensures { MatchOption result (IsEmptyFrom self.now address) (IsFirstFrom self.now address) }
    {
        self.parts.first_from(address)
    }

    /// The first run of bytes from an address on, up to the next address without a byte: its first address, and its
    /// bytes. Takes no memory.
    pub(crate) fn run_from(&self, address: u64) -> Option<(u64, &[u8])>
        ensures { MatchOption result (IsEmptyFrom self.now address)
            (λ found. IsNextRun self.now address found.0 found.1.now) }
    {
        next_run(&self.parts, address)
    }
}
