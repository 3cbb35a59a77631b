//! Codes 26 to 31: the FACS that the FADT names (ACPI 6.5, 5.2.10).

ghost use Rattle.std.specs.Prelude.{◌≡◌, ◌≢◌, ◌↔◌, IsTrue};
ghost use Rattle.acpi_base.specs.Fadt.{facs_address};
ghost use Rattle.acpi_base.specs.Facs.{NamedFacsFault};
ghost use Rattle.acpi_base.specs.Policy.{PolicyValue};
ghost use Rattle.acpi_base.specs.declared.stage.Stage.{Stage};
ghost use Rattle.acpi_rules.specs.Places.{FindsLeast};
ghost use Rattle.acpi_lint.specs.Places.{IsFacsFault, IsFacsFaultOf};
ghost use Rattle.acpi_lint.specs.StageFaults.{IsFaultOfStage};
ghost use Rattle.acpi_lint.specs.CompleteTables.{AreCompleteTables};

use crate::complete_tables::CompleteTables;
use acpi_base::{Code, Frame, LentImage, Question, TableKind};
use acpi_read::{Fadt, Table, fails};
use acpi_rules::Place;

/// Whether the FACS at the address that a FADT names, which is not 0, has the fault with this code. Each code is
/// looked for, even if earlier bytes are wrong.
fn has_fault(image: &LentImage<'_>, fadt: &Fadt<'_>, address: u64, code: Code) -> bool
    requires named { address ≡ facs_address fadt.now }
    requires some { address ≢ 0 }
    ensures { IsTrue result ↔ NamedFacsFault image.now fadt.now code address }
{
    match code {
        Code::FacsAlign => address % 64 != 0,
        Code::FacsHeaderOut => fails(image, address, Frame::FACS, Question::Header),
        Code::FacsSignature => fails(image, address, Frame::FACS, Question::Signature(*b"FACS")),
        Code::FacsLength => fails(image, address, Frame::FACS, Question::Length),
        Code::FacsOut => fails(image, address, Frame::FACS, Question::Bytes),
        _ => false,
    }
}

/// The fault with this code of the FACS that a FADT names, at its address, or at 0 if none is named.
fn named_fault(image: &LentImage<'_>, fadt: &Fadt<'_>, code: Code) -> Option<Place>
    ensures { FindsLeast (IsFacsFault image.now fadt.now code) result }
{
    let address = fadt.facs_address();
    let is_wrong = if address == 0 {
        code == Code::NoFacs && !fadt.reduced()
    } else {
        has_fault(image, fadt, address, code)
    };
    is_wrong.then_some(Place::at(address))
}

/// The same for the table of a FADT: one of fewer than 116 bytes has none.
fn table_fault(image: &LentImage<'_>, table: Table<'_>, code: Code) -> Option<Place>
    ensures { FindsLeast (IsFacsFaultOf image.now table.entry code) result }
{
    named_fault(image, &Fadt::new(table).ok()?, code)
}

/// The fault with this code of the FACS that the set's FADT names: its address, or 0 if none is named. The tables are
/// those of the image's set.
pub fn facs_fault(image: &LentImage<'_>, tables: &CompleteTables<'_>, code: Code) -> Option<Place>
    ensures { (q : PolicyValue) → AreCompleteTables image.now q.rsdp tables.now
        → FindsLeast (IsFaultOfStage Stage.Facs code image.now q) result }
{
    table_fault(image, tables.table(TableKind::Fadt)?, code)
}
