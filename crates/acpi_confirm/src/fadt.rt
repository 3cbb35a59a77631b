//! Codes 19 to 25: the FADT (ACPI 6.5, 5.2.9).

ghost use Rattle.std.specs.Prelude.{◌≡◌, ◌≤◌, ◌<◌, ◌↔◌, IsTrue, length};
ghost use Rattle.acpi_base.specs.Fadt.{has_flag, is_reduced, gas_at, IsNoResetRegister, FadtTableFault};
ghost use Rattle.acpi_base.specs.Faults.{FaultCondition};
ghost use Rattle.acpi_base.specs.declared.stage.Stage.{Stage};

use crate::listed_tables::{listed, lists_none};
use acpi_base::field::{u8_at, u32_at};
use acpi_base::{Code, LentImage, Policy, Witness};

/// RESET_REG_SUP, a bit of Flags: the reset register may be used.
const RESET_REG_SUP: u32 = 10;

/// HW_REDUCED_ACPI, a bit of Flags: the ACPI registers are not implemented.
const HW_REDUCED_ACPI: u32 = 20;

/// Whether the witness is a fault of the FADT: `at` is an offset in it, or 0.
pub(crate) fn is_fadt_fault(image: &LentImage<'_>, policy: &Policy, witness: &Witness) -> bool
    ensures { IsTrue result ↔ FaultCondition Stage.Fadt image.now policy.now witness.now }
{
    if witness.other != 0 || witness.point != 0 {
        return false;
    }
    match witness.code {
        Code::NoFadt => witness.at == 0 && lists_none(image, policy, b"FACP"),
        _ => match listed(image, policy, b"FACP") {
            Some(fadt) => has_fault(fadt, witness.code, witness.at),
            None => false,
        },
    }
}

/// Whether a FADT has the fault with this code at an offset.
fn has_fault(fadt: &[u8], code: Code, at: u64) -> bool
    ensures { IsTrue result ↔ FadtTableFault fadt.now code at }
{
    if fadt.len() < 116 {
        return code == Code::FadtShort && at == 0;
    }
    let fixed = !is_reduced(fadt);
    match code {
        Code::PmEventLength => at == 88 && fixed && u8_at(fadt, 88) < 4,
        Code::PmControlLength => at == 89 && fixed && u8_at(fadt, 89) < 2,
        Code::PmTimerLength => at == 91 && fixed && u8_at(fadt, 91) != 0 && u8_at(fadt, 91) != 4,
        Code::GpeLength => (at == 92 || at == 93) && fixed && u8_at(fadt, at as usize) % 2 != 0,
        Code::ResetRegister => {
            at == 116
                && has_flag(fadt, RESET_REG_SUP)
                && fadt.len() >= 129
                && is_no_reset_register(fadt)
        }
        _ => false,
    }
}

/// Whether HW_REDUCED_ACPI is set.
pub(crate) fn is_reduced(fadt: &[u8]) -> bool
    requires { 116 ≤ length fadt.now }
    ensures { result ≡ is_reduced fadt.now }
{
    has_flag(fadt, HW_REDUCED_ACPI)
}

/// Whether a bit of Flags is set.
#[tactic(auto, unfolding(acpi_base::specs::Fadt::has_flag))]
fn has_flag(fadt: &[u8], bit: u32) -> bool
    requires bit { bit < 32 }
    requires room { 116 ≤ length fadt.now }
    ensures { result ≡ has_flag fadt.now bit }
{
    (u32_at(fadt, 112) >> bit) % 2 == 1
}

/// Whether RESET_REG, at 116, has a space above 2, a width other than 8 bits or a bit offset other than 0.
fn is_no_reset_register(fadt: &[u8]) -> bool
    requires { 129 ≤ length fadt.now }
    ensures { IsTrue result ↔ IsNoResetRegister (gas_at fadt.now 116) }
{
    u8_at(fadt, 116) > 2 || u8_at(fadt, 117) != 8 || u8_at(fadt, 118) != 0
}
