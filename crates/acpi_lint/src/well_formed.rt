//! Whether a MADT is well-formed: only then is it known what is not in it.

ghost use Rattle.std.specs.Prelude.{◌↔◌, IsTrue};
ghost use Rattle.acpi_base.specs.Madt.{madt_contents};
ghost use Rattle.acpi_lint.specs.Rules.WellFormed.{IsWellFormedMadt};

use crate::passes::is_well_formed;
use acpi_base::{Code, Policy};
use acpi_read::{MadtEntry, Table};

/// Whether a MADT is well-formed.
pub fn is_madt_well_formed(policy: &Policy, madt: &Table<'_>) -> bool
    ensures { IsTrue result ↔ IsWellFormedMadt (madt_contents madt.now) }
{
    is_well_formed::<MadtEntry<'_>>(policy, Code::MadtEntryCut, Code::MadtEntryLength, madt)
}
