//! Structures whose header has their length, read from an image.

ghost use Rattle.std.specs.Prelude.{◌≡◌, ◌≤◌, ◌<◌, ◌+◌, ◌^◌, ◌↔◌, List, ℕ, length, Some, false, IsTrue, IfOk, IfErr};
ghost use Rattle.acpi_base.specs.Frames.{IsFrame, FrameFault};
ghost use Rattle.acpi_base.specs.Memory.{bytes_at};
ghost use Rattle.acpi_base.specs.Number.{field};
ghost use Rattle.acpi_read.specs.Frames.{is_signed_as, AreBytesOf, IsFirstFrameFault};

use crate::table::sums_to_zero;
use acpi_base::field::{is_signed, u32_at};
use acpi_base::{Frame, LentImage, Question};

/// The bytes of the structure at an address, as many as its Length says, or the first check that fails. The checksum is
/// not checked, and the signature only if one is passed. The image is searched once.
// Inlined, so that the numbers of the frame are known where they are compared.
#[inline(always)]
pub(crate) fn bytes_of<'a>(
    image: &'a LentImage<'_>,
    address: u64,
    frame: Frame,
    signature: Option<[u8; 4]>,
) -> Result<&'a [u8], Question>
    requires header { frame.length_at + 4 ≤ frame.header }
    requires least { frame.header ≤ frame.least }
    ensures ok { IfOk result (λ bytes. AreBytesOf frame image.now address signature bytes.now) }
    ensures count { IfOk result
        (λ bytes. (frame.least ≤ length bytes.now) × (length bytes.now < 2 ^ 32)) }
    ensures present { IfOk result
        (λ bytes. bytes_at image.now address (length bytes.now) ≡ Some bytes.now) }
    ensures said { IfOk result (λ bytes. field bytes.now frame.length_at 4 ≡ length bytes.now) }
    ensures fault { IfErr result (IsFirstFrameFault frame image.now address signature) }
    ensures none { IfErr result (λ _. (header whole : List ℕ)
        → IsFrame frame image.now address header whole → is_signed_as signature header ≡ false) }
{
    let run = image.bytes_from(address);
    let Some(header) = run.get(..frame.header as usize) else {
        return Err(Question::Header);
    };
    if let Some(signature) = signature
        && !is_signed(header, &signature)
    {
        return Err(Question::Signature(signature));
    }
    let length = u32_at(header, frame.length_at as usize);
    if length < frame.least {
        return Err(Question::Length);
    }
    let Some(bytes) = run.get(..length as usize) else {
        return Err(Question::Bytes);
    };
    Ok(bytes)
}

/// Whether a check of the structure at an address fails, even if earlier ones do. Bytes are summed only for
/// `Question::Sum`. The image is searched once.
pub fn fails(image: &LentImage<'_>, address: u64, frame: Frame, question: Question) -> bool
    requires { frame.length_at + 4 ≤ frame.header }
    ensures { IsTrue result ↔ FrameFault frame image.now address question }
{
    let run = image.bytes_from(address);
    let Some(header) = run.get(..frame.header as usize) else {
        return question == Question::Header;
    };
    let length = u32_at(header, frame.length_at as usize);
    let whole = run.get(..length as usize);
    match question {
        Question::Header => false,
        Question::Signature(signature) => !is_signed(header, &signature),
        Question::Length => length < frame.least,
        Question::Bytes => length >= frame.least && whole.is_none(),
        Question::Sum => match whole {
            Some(whole) => length >= frame.least && !sums_to_zero(image, address, whole),
            None => false,
        },
    }
}
