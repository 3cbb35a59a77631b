//! Codes 1 to 7: the RSDP (ACPI 6.5, 5.2.5.3).

ghost use Rattle.std.specs.Prelude.{◌≡◌, ◌↔◌, IsTrue, Some, length};
ghost use Rattle.acpi_base.specs.Frames.{FrameFault};
ghost use Rattle.acpi_base.specs.Memory.{bytes_at};
ghost use Rattle.acpi_base.specs.Rsdp.{RsdpFault, IsExtended, extended_frame};
ghost use Rattle.acpi_base.specs.declared.stage.Stage.{Stage};
ghost use Rattle.acpi_rules.specs.Places.{FindsLeast};
ghost use Rattle.acpi_lint.specs.StageFaults.{IsFaultOfStage};

use acpi_base::field::{is_signed, u8_at};
use acpi_base::{Code, Frame, LentImage, Policy, Question, sum};
use acpi_read::{Rsdp, fails};
use acpi_rules::Place;

/// Whether the RSDP at an address, which begins with `head`, has the extended form, and this question about that fails.
fn is_extended_fault(image: &LentImage<'_>, address: u64, head: &[u8], question: Question) -> bool
    requires head { bytes_at image.now address 20 ≡ Some head.now }
    requires long { length head.now ≡ 20 }
    ensures { IsTrue result ↔ (IsExtended image.now address
        × FrameFault extended_frame image.now address question) }
{
    u8_at(head, 15) >= 2 && fails(image, address, Frame::EXTENDED_RSDP, question)
}

/// Whether the RSDP at an address has the fault with this code. Each code is looked for, even if earlier bytes are
/// wrong.
fn has_fault(image: &LentImage<'_>, address: u64, code: Code) -> bool
    ensures { IsTrue result ↔ RsdpFault image.now address code }
{
    let Some(head) = image.window(address, Rsdp::SHORT_LENGTH) else {
        return code == Code::RsdpOut;
    };
    match code {
        Code::RsdpSignature => !is_signed(head, b"RSD PTR "),
        Code::RsdpSum => sum(head) != 0,
        Code::RsdpTailOut => is_extended_fault(image, address, head, Question::Header),
        Code::RsdpLength => is_extended_fault(image, address, head, Question::Length),
        Code::RsdpLongOut => is_extended_fault(image, address, head, Question::Bytes),
        Code::RsdpExtendedSum => is_extended_fault(image, address, head, Question::Sum),
        _ => false,
    }
}

/// The fault of the RSDP with this code: it has at most one, which is reported at its address.
pub fn rsdp_fault(image: &LentImage<'_>, policy: &Policy, code: Code) -> Option<Place>
    ensures { FindsLeast (IsFaultOfStage Stage.Rsdp code image.now policy.now) result }
{
    let address = policy.rsdp();
    has_fault(image, address, code).then_some(Place::at(address))
}
