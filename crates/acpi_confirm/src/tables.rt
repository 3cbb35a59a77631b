//! Codes 15 to 18: the listed tables (ACPI 6.5, 5.2.6).

ghost use Rattle.std.specs.Prelude.{◌≤◌, ◌<◌, ◌^◌, ◌↔◌, ℕ, List, IsTrue, IfSome, MatchOption, Some, length};
ghost use Rattle.acpi_base.specs.Faults.{FaultCondition};
ghost use Rattle.acpi_base.specs.Tables.{IsTable, TableFault};
ghost use Rattle.acpi_base.specs.Root.{IsSlot};
ghost use Rattle.acpi_base.specs.declared.stage.Stage.{Stage};

use crate::root::complete_root;
use acpi_base::field::u32_at;
use acpi_base::{Code, LentImage, Policy, Witness, sum};

/// Whether the witness is a fault of the table that a slot lists: `at` is the slot's number, `other` the table's
/// address.
pub(crate) fn is_table_fault(image: &LentImage<'_>, policy: &Policy, witness: &Witness) -> bool
    ensures { IsTrue result ↔ FaultCondition Stage.Tables image.now policy.now witness.now }
{
    witness.point == 0
        && is_listed(image, policy.rsdp(), witness.at, witness.other)
        && has_fault(image, witness.other, witness.code)
}

/// Whether slot k of the root table that the RSDP at an address names lists a table.
#[tactic(auto, using(crate::proofs::Roots::slot_of_set, crate::proofs::Roots::slot_of_bytes, crate::proofs::Roots::root_of_slot))]
fn is_listed(image: &LentImage<'_>, rsdp: u64, k: u64, table: u64) -> bool
    ensures { IsTrue result ↔ IsSlot image.now rsdp k table }
{
    match complete_root(image, rsdp) {
        Some(root) => root.slot(k) == Some(table),
        None => false,
    }
}

/// Whether the table at an address has the fault with this code.
fn has_fault(image: &LentImage<'_>, address: u64, code: Code) -> bool
    ensures { IsTrue result ↔ TableFault image.now address code }
{
    let Some(header) = image.window(address, 36) else {
        return code == Code::TableHeaderOut;
    };
    let length = u32_at(header, 4);
    let whole = image.window(address, u64::from(length));
    match code {
        Code::TableLength => length < 36,
        Code::TableOut => length >= 36 && whole.is_none(),
        Code::TableSum => length >= 36 && whole.is_some_and(|whole| sum(whole) != 0),
        _ => false,
    }
}

/// The bytes of the table at an address, as many as its Length says, if that is at least 36 and they are present.
pub(crate) fn table_at<'a>(image: &'a LentImage<'_>, address: u64) -> Option<&'a [u8]>
    ensures found { MatchOption result ((header whole : List ℕ)
        → ¬ IsTable image.now address header whole)
        (λ whole. (header : List ℕ) × IsTable image.now address header whole.now) }
    ensures count { IfSome result (λ whole. (36 ≤ length whole.now) × (length whole.now < 2 ^ 32)) }
{
    let header = image.window(address, 36)?;
    let length = u32_at(header, 4);
    if length < 36 {
        return None;
    }
    image.window(address, u64::from(length))
}
