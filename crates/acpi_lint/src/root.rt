//! Codes 8 to 14: the root table, which is the XSDT or the RSDT (ACPI 6.5, 5.2.7, 5.2.8).

ghost use Rattle.std.specs.Prelude.{◌↔◌, IsTrue};
ghost use Rattle.acpi_base.specs.Root.{IsSlotWidth, RootTableFault};
ghost use Rattle.acpi_base.specs.declared.code.Code.{Code};
ghost use Rattle.acpi_base.specs.declared.stage.Stage.{Stage};
ghost use Rattle.acpi_rules.specs.Places.{FindsLeast};
ghost use Rattle.acpi_lint.specs.StageFaults.{IsFaultOfStage};

use acpi_base::field::u32_at;
use acpi_base::{Code, Frame, LentImage, Policy, Question};
use acpi_read::{RootPlace, fails, named_root};
use acpi_rules::Place;

/// Whether the header at a place is present, and its Length is at least 36 and ends within a slot.
fn is_ragged(image: &LentImage<'_>, root: RootPlace) -> bool
    requires { IsSlotWidth root.width }
    ensures { IsTrue result ↔ RootTableFault image.now root.address root.width Code.RootRagged }
{
    let Some(header) = image.window(root.address, 36) else {
        return false;
    };
    let length = u32_at(header, 4);
    length >= 36 && (length - 36) % root.width != 0
}

/// Whether the root table at a place has the fault with this code. Each code is looked for, even if earlier bytes are
/// wrong.
fn has_fault(image: &LentImage<'_>, root: RootPlace, code: Code) -> bool
    requires { IsSlotWidth root.width }
    ensures { IsTrue result ↔ RootTableFault image.now root.address root.width code }
{
    let address = root.address;
    match code {
        Code::RootHeaderOut => fails(image, address, Frame::TABLE, Question::Header),
        Code::RootSignature => {
            fails(
                image,
                address,
                Frame::TABLE,
                Question::Signature(root.signature()),
            )
        }
        Code::RootLength => fails(image, address, Frame::TABLE, Question::Length),
        Code::RootOut => fails(image, address, Frame::TABLE, Question::Bytes),
        Code::RootRagged => is_ragged(image, root),
        Code::RootSum => fails(image, address, Frame::TABLE, Question::Sum),
        _ => false,
    }
}

/// The fault of the root table with this code: the RSDP names no root table, or the one that it names has it. There
/// is at most one, which is reported at the address of the RSDP or of the root table.
pub fn root_fault(image: &LentImage<'_>, policy: &Policy, code: Code) -> Option<Place>
    ensures { FindsLeast (IsFaultOfStage Stage.Root code image.now policy.now) result }
{
    let rsdp = policy.rsdp();
    match named_root(image, rsdp)? {
        Some(root) => has_fault(image, root, code).then_some(Place::at(root.address)),
        None => (code == Code::NoRoot).then_some(Place::at(rsdp)),
    }
}
