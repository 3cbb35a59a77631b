//! Stages that are known to hold for a set. No code of theirs has a fault.

ghost use Rattle.std.specs.Prelude.{◌≡◌, IfOk, IsTrue, List, Some, ℕ, IsSome, OnErr};
ghost use Rattle.acpi_base.specs.Memory.{Memory};
ghost use Rattle.acpi_base.specs.Pptt.{pptt_contents, IsCutPptt, AreReferencesValid};
ghost use Rattle.acpi_lint.specs.CompleteTables.{AreCompleteTables};
ghost use Rattle.acpi_lint.specs.HeldStages.{is_held, AreHeld};

use crate::complete_tables::CompleteTables;
use crate::verdicts::place_of;
use acpi_base::{Policy, Stage};
use acpi_check::{check_entries, check_references};
use acpi_read::{MadtEntry, PpttEntry, SratEntry, Table, TableEntry};
use std::alloc::{AllocError, Global};

/// Whether the stages with several codes on the entries of a table hold for a set. One or two passes for a stage that
/// holds replace those for each of its codes.
#[derive(Drop)]
pub struct HeldStages {
    /// That on the MADT.
    madt: bool,
    /// That on the SRAT.
    srat: bool,
    /// That on the PPTT.
    pptt: bool,
    /// Stage 13, on the references of its entries; false where that on the PPTT does not hold.
    references: bool,
}

/// Whether the entries of a table are valid, each by itself, if there is a table.
fn are_valid<'a, E: TableEntry<'a> + Copy>(policy: &Policy, table: &Option<Table<'a>>) -> bool
    ensures { IsTrue result
        → (whole : List ℕ) → table.now ≡ Some whole → E.IsValid policy.now whole }
{
    match table {
        Some(table) => check_entries::<E>(policy, table.copied()).is_ok(),
        None => true,
    }
}

/// Whether the references of a PPTT's entries are valid, if there is a PPTT. Refuses if out of memory: it allocates as
/// the stage does.
fn are_references_valid(alloc: Global, pptt: &Option<Table<'_>>) -> Result<bool, AllocError>
    requires { (whole : List ℕ) → pptt.now ≡ Some whole → IsCutPptt (pptt_contents whole) }
    ensures found { IfOk result (λ valid. IsTrue valid → (whole : List ℕ) → pptt.now ≡ Some whole
        → AreReferencesValid (pptt_contents whole)) }
    ensures memory { OnErr result (IsSome pptt.now) }
{
    let Some(pptt) = pptt else {
        return Ok(true);
    };
    let place = place_of(check_references(alloc, pptt))?;
    Ok(place.is_none())
}

impl HeldStages {
    /// Which of them hold for the set with these tables. Refuses if out of memory: it allocates as stage 13 does.
    pub fn of(
        alloc: Global,
        tables: &CompleteTables<'_>,
        policy: &Policy,
    ) -> Result<HeldStages, AllocError>
        ensures held { IfOk result (λ held. (m : Memory)
            → AreCompleteTables m policy.now.rsdp tables.now → AreHeld held m policy.now) }
        ensures memory { OnErr result (IsSome tables.now.pptt) }
    {
        let pptt = are_valid::<PpttEntry<'_>>(policy, &tables.pptt);
        Ok(HeldStages {
            madt: are_valid::<MadtEntry<'_>>(policy, &tables.madt),
            srat: are_valid::<SratEntry<'_>>(policy, &tables.srat),
            pptt,
            references: pptt && are_references_valid(alloc, &tables.pptt)?,
        })
    }

    /// Whether a stage is known to hold.
    pub fn has(&self, stage: Stage) -> bool
        ensures { result ≡ is_held self.now stage }
    {
        match stage {
            Stage::Madt => self.madt,
            Stage::Srat => self.srat,
            Stage::Pptt => self.pptt,
            Stage::References => self.references,
            _ => false,
        }
    }
}
