//! The first table with a signature that a root table lists.

ghost use Rattle.std.specs.Prelude.{◌≡◌, ◌<◌, ◌↔◌, IsTrue, IsNone, IfSome, Some, ℕ};
ghost use Rattle.acpi_base.specs.Root.{HasSlot};
ghost use Rattle.acpi_base.specs.Listed.{IsFirstListed};
ghost use Rattle.acpi_base.specs.Tables.{IsSigned};
ghost use Rattle.acpi_read.specs.Roots.{slots_of};

use crate::header::Header;
use crate::layout::Layout;
use crate::root::Root;
use acpi_base::LentImage;
use acpi_base::field::is_signed;

/// Whether a header with the signature is present at an address.
fn has_header(image: &LentImage<'_>, address: u64, signature: &[u8]) -> bool
    ensures { IsTrue result ↔ IsSigned image.now address signature.now }
{
    match image.window(address, Header::LEN as u64) {
        Some(header) => is_signed(header, signature),
        None => false,
    }
}

/// The address in slot k, if a table with the signature is listed there.
fn signed_at(image: &LentImage<'_>, root: &Root<'_>, k: u32, signature: &[u8]) -> Option<u64>
    requires { k < slots_of root.now }
    ensures found { IfSome result
        (λ a. HasSlot root.now.bytes root.now.width k a × IsSigned image.now a signature.now) }
    ensures none { IsNone result → (a : ℕ) → HasSlot root.now.bytes root.now.width k a
        → ¬ IsSigned image.now a signature.now }
{
    let address = root.slot(k);
    if address != 0 && has_header(image, address, signature) {
        return Some(address);
    }
    None
}

/// The address in the first slot of the root table that lists a table with the signature, or none if no slot does.
///
/// Only the header is required: its 36 bytes must be present and begin with the signature. Neither its Length nor its
/// checksum is checked. Later tables with the same signature are ignored, which is this project's choice. Slots that
/// are 0 are skipped. The image may be another than that of the root table.
pub fn first(image: &LentImage<'_>, root: &Root<'_>, signature: [u8; 4]) -> Option<u64>
    ensures found { IfSome result
        (IsFirstListed image.now root.now.bytes root.now.width signature) }
    ensures none { IsNone result → (k a : ℕ) → HasSlot root.now.bytes root.now.width k a
        → ¬ IsSigned image.now a signature }
    ensures every { (a : ℕ) → IsFirstListed image.now root.now.bytes root.now.width signature a
        → result ≡ Some a }
{
    for k in 0..root.slots() {
        if let Some(address) = signed_at(image, root, k, &signature) {
            return Some(address);
        }
    }
    None
}
