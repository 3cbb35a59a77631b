//! Codes 19 to 25: the FADT (ACPI 6.5, 5.2.9).

ghost use Rattle.std.specs.Prelude.{◌≤◌, ◌↔◌, ℕ, IsTrue, length};
ghost use Rattle.acpi_base.specs.Fadt.{gas_at, HasNoFadt, IsNoResetRegister};
ghost use Rattle.acpi_base.specs.Memory.{Memory};
ghost use Rattle.acpi_base.specs.Policy.{PolicyValue};
ghost use Rattle.acpi_base.specs.declared.stage.Stage.{Stage};
ghost use Rattle.acpi_rules.specs.Places.{FindsLeast};
ghost use Rattle.acpi_lint.specs.Places.{IsFadtFault};
ghost use Rattle.acpi_lint.specs.StageFaults.{IsFaultOfStage};
ghost use Rattle.acpi_lint.specs.CompleteTables.{AreCompleteTables};

use crate::complete_tables::CompleteTables;
use acpi_base::field::u8_at;
use acpi_base::{Code, TableKind};
use acpi_read::{Fadt, RESET_REG_SUP, Table, has_flag};
use acpi_rules::Place;

/// Whether RESET_REG, at 116, has a space above 2, a width other than 8 bits or a bit offset other than 0.
fn is_no_reset_register(bytes: &[u8]) -> bool
    requires { 129 ≤ length bytes.now }
    ensures { IsTrue result ↔ IsNoResetRegister (gas_at bytes.now 116) }
{
    u8_at(bytes, 116) > 2 || u8_at(bytes, 117) != 8 || u8_at(bytes, 118) != 0
}

/// The fault with this code that a FADT has: there is at most one, except for the two of GPE blocks.
fn own_fault(fadt: &Fadt<'_>, code: Code) -> Option<Place>
    ensures { FindsLeast (IsFadtFault fadt.now code) result }
{
    let bytes = fadt.bytes();
    let fixed = !fadt.reduced();
    match code {
        Code::PmEventLength => (fixed && u8_at(bytes, 88) < 4).then_some(Place::at(88)),
        Code::PmControlLength => (fixed && u8_at(bytes, 89) < 2).then_some(Place::at(89)),
        Code::PmTimerLength => {
            let timer = u8_at(bytes, 91);
            (fixed && timer != 0 && timer != 4).then_some(Place::at(91))
        }
        Code::GpeLength if fixed && u8_at(bytes, 92) % 2 != 0 => Some(Place::at(92)),
        Code::GpeLength => (fixed && u8_at(bytes, 93) % 2 != 0).then_some(Place::at(93)),
        Code::ResetRegister => {
            let is_wrong = has_flag(bytes, RESET_REG_SUP)
                && bytes.len() > 128
                && is_no_reset_register(bytes);
            is_wrong.then_some(Place::at(116))
        }
        _ => None,
    }
}

/// The first fault with this code that the table of a FADT has.
fn table_fault(table: Table<'_>, code: Code) -> Option<Place>
    ensures { FindsLeast (IsFadtFault table.entry code) result }
{
    match Fadt::new(table) {
        Ok(fadt) => own_fault(&fadt, code),
        Err(_) => (code == Code::FadtShort).then_some(Place::at(0)),
    }
}

/// Whether the root table is complete and lists no header of a FADT.
fn lists_no_fadt(tables: &CompleteTables<'_>) -> bool
    ensures { (m : Memory) (p : ℕ) → AreCompleteTables m p tables.now
        → IsTrue result ↔ HasNoFadt m p }
{
    match &tables.root {
        Some(_) => tables.firsts.fadt.is_none(),
        None => false,
    }
}

/// The first fault of the FADT with this code: its offset in the table, or 0 if none is listed. The tables are those
/// of the set.
pub fn fadt_fault(tables: &CompleteTables<'_>, code: Code) -> Option<Place>
    ensures { (m : Memory) (q : PolicyValue) → AreCompleteTables m q.rsdp tables.now
        → FindsLeast (IsFaultOfStage Stage.Fadt code m q) result }
{
    match code {
        Code::NoFadt => lists_no_fadt(tables).then_some(Place::at(0)),
        _ => table_fault(tables.table(TableKind::Fadt)?, code),
    }
}
