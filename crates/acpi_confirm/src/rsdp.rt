//! Codes 1 to 7: the RSDP (ACPI 6.5, 5.2.5.3).

ghost use Rattle.std.specs.Prelude.{◌≡◌, ◌↔◌, List, ℕ, IsTrue, IfSome, Some, length};
ghost use Rattle.acpi_base.specs.Faults.{FaultCondition};
ghost use Rattle.acpi_base.specs.Frames.{frame_length};
ghost use Rattle.acpi_base.specs.Memory.{bytes_at};
ghost use Rattle.acpi_base.specs.Rsdp.{extended_frame, IsExtended, RsdpFault};
ghost use Rattle.acpi_base.specs.declared.code.Code.{Code};
ghost use Rattle.acpi_base.specs.declared.stage.Stage.{Stage};

use acpi_base::field::{is_signed, u8_at, u32_at};
use acpi_base::{Code, LentImage, Policy, Witness, sum};

/// Whether the witness is a fault of the RSDP at the policy's address.
pub(crate) fn is_rsdp_fault(image: &LentImage<'_>, policy: &Policy, witness: &Witness) -> bool
    ensures { IsTrue result ↔ FaultCondition Stage.Rsdp image.now policy.now witness.now }
{
    witness.at == policy.rsdp()
        && witness.other == 0
        && witness.point == 0
        && has_fault(image, witness.at, witness.code)
}

/// Whether the RSDP at an address has the fault with this code.
fn has_fault(image: &LentImage<'_>, address: u64, code: Code) -> bool
    ensures { IsTrue result ↔ RsdpFault image.now address code }
{
    let head = image.window(address, 20);
    match code {
        Code::RsdpOut => head.is_none(),
        Code::RsdpSignature => head.is_some_and(|head| !is_signed(head, b"RSD PTR ")),
        Code::RsdpSum => head.is_some_and(|head| sum(head) != 0),
        Code::RsdpTailOut => is_extended(image, address) && image.window(address, 36).is_none(),
        Code::RsdpLength => extended_length(image, address).is_some_and(|length| length < 36),
        Code::RsdpLongOut => is_long_out(image, address),
        Code::RsdpExtendedSum => is_extended_sum(image, address),
        _ => false,
    }
}

/// Whether the bytes of an extended RSDP, as many as its Length says, are not all present.
fn is_long_out(image: &LentImage<'_>, address: u64) -> bool
    ensures { IsTrue result ↔ RsdpFault image.now address Code.RsdpLongOut }
{
    match extended_length(image, address) {
        Some(length) => length >= 36 && image.window(address, u64::from(length)).is_none(),
        None => false,
    }
}

/// Whether the bytes of an extended RSDP, as many as its Length says, are present and do not sum to 0.
fn is_extended_sum(image: &LentImage<'_>, address: u64) -> bool
    ensures { IsTrue result ↔ RsdpFault image.now address Code.RsdpExtendedSum }
{
    let Some(length) = extended_length(image, address) else {
        return false;
    };
    if length < 36 {
        return false;
    }
    match image.window(address, u64::from(length)) {
        Some(whole) => sum(whole) != 0,
        None => false,
    }
}

/// Whether the 20 bytes of an RSDP of the extended form, of revision 2 or more, are present.
fn is_extended(image: &LentImage<'_>, address: u64) -> bool
    ensures { IsTrue result ↔ IsExtended image.now address }
{
    image
        .window(address, 20)
        .is_some_and(|head| u8_at(head, 15) >= 2)
}

/// The Length of an RSDP of the extended form whose 36 bytes are present.
fn extended_length(image: &LentImage<'_>, address: u64) -> Option<u32>
    ensures found { IfSome result
        (λ length. IsExtended image.now address × (prefix : List ℕ)
        × (bytes_at image.now address 36 ≡ Some prefix) × (frame_length extended_frame prefix ≡ length)) }
    ensures every { (prefix : List ℕ) → IsExtended image.now address
        → bytes_at image.now address 36 ≡ Some prefix
        → result ≡ Some (frame_length extended_frame prefix) }
{
    if !is_extended(image, address) {
        return None;
    }
    let prefix = image.window(address, 36)?;
    Some(u32_at(prefix, 20))
}
