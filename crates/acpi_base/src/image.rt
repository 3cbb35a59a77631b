//! Memory images.

ghost use Rattle.std.specs.Prelude.{◌≡◌, ◌+◌, ◌^◌, nat_lt, if◌then◌else◌, IsOk, IsOkUnless, OnOk, OnErr, IfSome, MatchOption, length};
ghost use Rattle.std.specs.Option.{option_map};
ghost use Rattle.std.specs.FinMap.{empty};
ghost use Rattle.acpi_base.specs.Memory.{IsImage, least_defined, byte_of, bytes_at, with_bytes};
ghost use Rattle.acpi_base.specs.Image.Adding.{add_refusal};
ghost use Rattle.acpi_base.specs.Number.{byte_sum};
ghost use Rattle.acpi_base.specs.Image.Runs.{lookup};
ghost use Rattle.acpi_base.specs.Image.Lent.{AreParts, runs_of_parts};

pub(crate) mod draft;
mod lent;
mod parts;
mod prefix_sums;
mod runs;
mod segments;
mod sorting;
mod span;

use parts::Parts;
use segments::Segments;
use std::alloc::{AllocError, Global};
use std::marker::Model;
use thiserror::Error;

/// Why bytes could not be added to an image.
#[derive(Clone, Copy, Debug, PartialEq, Eq, Error)]
pub enum ImageFault {
    /// The bytes pass the address 2^64 - 1.
    #[error("past the end")]
    PastEnd,
    /// An address has a byte already; this is the lowest such address.
    #[error("address {address:#x} twice")]
    Twice { address: u64 },
    /// Out of memory.
    #[error("out of memory")]
    Memory,
}

impl From<AllocError> for ImageFault {
    ghost use Rattle.acpi_base.specs.declared.image.ImageFault.{ImageFault};

    ghost from_gives = { λ _ fault. fault ≡ ImageFault.Memory };

    fn from(_error: AllocError) -> ImageFault {
        ImageFault::Memory
    }
}

/// Why `count` bytes cannot be added from an address on.
#[tactic(auto, using(crate::proofs::Images::RunMemory::no_refusal))]
fn refusal(parts: &Parts<'_>, base: u64, count: u64) -> Option<ImageFault>
    requires { AreParts parts.now }
    ensures { result ≡ (if nat_lt (2 ^ 64) (base + count) then Some ImageFault.PastEnd
        else option_map (λ address. ImageFault.Twice address)
        (least_defined (lookup (runs_of_parts parts.now)) base count)) }
{
    if count == 0 {
        return None;
    }
    // The end itself may be 2^64, which is no number of 64 bits.
    if count - 1 > u64::MAX - base {
        return Some(ImageFault::PastEnd);
    }
    // Bytes mostly come in the order of their addresses.
    if parts.end_before(base) {
        return None;
    }
    parts
        .first_present(base, count)
        .map(|address| ImageFault::Twice { address })
}

/// A memory image: bytes at 64-bit addresses, in pieces at any addresses, of which some may be lent: they are not copied,
/// and whoever owns them cannot change or drop them while the image is there.
///
/// Pieces that touch are joined into one. A search takes time that grows with the logarithm of their number.
#[derive(Debug, Drop)]
pub struct LentImage<'a> {
    parts: Parts<'a>,
    alloc: Global,
}

/// An image that owns all of its bytes, or was lent such as are never dropped.
pub type Image = LentImage<'static>;

impl<'a> Model for LentImage<'a> {
    ghost use Rattle.std.specs.Coded.{coded_ℕ};
    ghost use Rattle.std.specs.FinMap.{code};
    ghost use Rattle.acpi_base.specs.Memory.{Memory};

    ghost Value = { Memory };

    ghost coded = { code coded_ℕ coded_ℕ };

    ghost use Rattle.acpi_base.specs.Image.Lent.{AreParts, memory_of_parts};

    ghost view = { λ image. memory_of_parts image.parts };

    ghost invariant = { λ image. AreParts image.parts };
}

impl<'a> LentImage<'a> {
    /// An image without bytes. Takes no memory.
    pub fn new(alloc: Global) -> LentImage<'a>
        ensures nothing { result ≡ empty }
        ensures image { IsImage result }
    {
        LentImage {
            parts: Parts::of(alloc, Segments::new(alloc)),
            alloc,
        }
    }

    /// Adds the bytes, which take the addresses from `base` on.
    ///
    /// Refuses, in this order, and then leaves the image as it was:
    /// `PastEnd`, if the last byte would be past the address 2^64 - 1;
    /// `Twice`, if an address has a byte already, with the lowest such address;
    /// `Memory`, if the allocator is out of memory. Adding no bytes always returns `Ok`, and takes no memory.
    ///
    /// Bytes after all those of the image are appended. Otherwise all bytes of the image are copied once, and none is
    /// lent any more.
    #[tactic(auto, using(crate::proofs::Images::Lent::adding))]
    pub fn add(&mut self, base: u64, bytes: &[u8]) -> Result<(), ImageFault>
        ensures refused { MatchOption (add_refusal self.old base bytes.now)
            (IsOkUnless result ImageFault.Memory) (λ fault. result ≡ Err fault) }
        ensures ok { OnOk result (self.new ≡ with_bytes self.old base bytes.now) }
        ensures image { OnOk result (IsImage self.new) }
        ensures err { OnErr result (self.new ≡ self.old) }
        ensures nothing { length bytes.now ≡ 0 → IsOk result }
    {
        // The refusal comes first, also for no bytes: once the fields are read, the proof has the invariant at each
        // exit.
        if let Some(fault) = refusal(&self.parts, base, bytes.len() as u64) {
            return Err(fault);
        }
        if bytes.is_empty() {
            return Ok(());
        }
        self.parts.put(self.alloc, base, bytes)?;
        Ok(())
    }

    /// Adds the bytes, which take the addresses from `base` on, without a copy of them if they come after all those of the
    /// image and touch none. Otherwise it is `add`. Refuses as `add` does, and then leaves the image as it was.
    #[tactic(auto, using(crate::proofs::Images::Lent::adding))]
    pub fn lend(&mut self, base: u64, bytes: &'a [u8]) -> Result<(), ImageFault>
        ensures refused { MatchOption (add_refusal self.old base bytes.now)
            (IsOkUnless result ImageFault.Memory) (λ fault. result ≡ Err fault) }
        ensures ok { OnOk result (self.new ≡ with_bytes self.old base bytes.now) }
        ensures image { OnOk result (IsImage self.new) }
        ensures err { OnErr result (self.new ≡ self.old) }
        ensures nothing { length bytes.now ≡ 0 → IsOk result }
    {
        // As in `add`, the refusal comes first.
        if let Some(fault) = refusal(&self.parts, base, bytes.len() as u64) {
            return Err(fault);
        }
        if bytes.is_empty() {
            return Ok(());
        }
        self.parts.lend(self.alloc, base, bytes)?;
        Ok(())
    }

    /// Makes the running sums of the lent bytes, with which `window_sum` takes constant time: one byte of memory for each
    /// 128 bytes that are lent, which are read once. Worth it for whoever asks for the sums of more bytes than are lent.
    pub fn add_sums(&mut self) -> Result<(), AllocError>
        ensures same { self.new ≡ self.old }
    {
        self.parts.add_sums(self.alloc)
    }

    /// States that each address of the image is below 2^64 and each of its bytes below 256. A caller with a reference
    /// to an image calls this if its proof needs these bounds: they are ensured when an image is made, and a reference
    /// does not carry them. Does nothing at run time, and takes no memory.
    pub fn numbers_fit(&self)
        ensures fit { IsImage self.now }
    {
        // Reading a field opens the image's invariant to the proof.
        let _parts = &self.parts;
    }

    /// Returns the byte at an address, or `None` if there is none. Takes no memory.
    #[tactic(auto, using(crate::proofs::Images::RunBytes::byte_of_memory_of))]
    pub fn byte_at(&self, address: u64) -> Option<u8>
        ensures { result ≡ byte_of self.now address }
    {
        self.parts.byte_at(address)
    }

    /// Returns the `count` bytes from an address on, or `None` if one of these addresses has no byte. The bytes may
    /// have been added in several calls. For a count of 0 it returns no bytes, at any address. Takes no memory.
    #[tactic(auto, using(crate::proofs::Images::RunMemory::bytes_at_present))]
    pub fn window(&self, address: u64, count: u64) -> Option<&[u8]>
        ensures bytes { option_map (λ bytes. bytes.now) result ≡ bytes_at self.now address count }
        ensures count { IfSome result (λ bytes. length bytes.now ≡ count) }
    {
        self.parts.window(address, count)
    }

    /// Returns the sum modulo 256 of the `count` bytes from an address on, or `None` if one of these addresses has no
    /// byte. It is 0 if a checksum is right, and for a count of 0, at any address. Of bytes that were copied, and of lent
    /// ones after `add_sums`, fewer than 256 are read, however many there are; of other lent ones each is read. Takes no
    /// memory.
    #[tactic(auto, using(crate::proofs::Images::RunMemory::bytes_at_present))]
    pub fn window_sum(&self, address: u64, count: u64) -> Option<u8>
        ensures { result ≡ option_map byte_sum (bytes_at self.now address count) }
    {
        self.parts.window_sum(address, count)
    }
}
