//! The first fault of each code.

ghost use Rattle.std.specs.Prelude.{IfOk};
ghost use Rattle.acpi_base.specs.FirstOfCode.{AreFirstFaults, FindsFirstOfCode};
ghost use Rattle.acpi_lint.specs.StageFaults.{FindsFirstAt};
ghost use Rattle.acpi_lint.specs.CompleteTables.{AreCompleteTables};
ghost use Rattle.acpi_lint.specs.HeldStages.{AreHeld};

use crate::complete_tables::CompleteTables;
use crate::facs::facs_fault;
use crate::fadt::fadt_fault;
use crate::held_stages::HeldStages;
use crate::one_code::{
    cycle_place, gsi_clash, gsi_nowhere, leaf_unknown, overlap, override_clash, two_domains,
};
use crate::passes::listed_fault;
use crate::references::reference_fault;
use crate::root::root_fault;
use crate::rsdp::rsdp_fault;
use crate::slit::slit_fault;
use crate::slots::slot_fault;
use acpi_base::{Code, LentImage, Policy, Stage, TableKind, Witness};
use acpi_check::Chain;
use acpi_read::{MadtEntry, PpttEntry, SratEntry};
use acpi_rules::Place;
use std::alloc::{AllocError, Global};

/// The place of the first fault with a code, whether or not earlier stages hold.
fn first_place(
    alloc: Global,
    image: &LentImage<'_>,
    tables: &CompleteTables<'_>,
    policy: &Policy,
    code: Code,
) -> Result<Option<Place>, AllocError>
    requires { AreCompleteTables image.now policy.now.rsdp tables.now }
    ensures { IfOk result (FindsFirstAt code image.now policy.now) }
{
    let (slit, pptt) = (tables.table(TableKind::Slit), tables.pptt());
    match code.stage() {
        Stage::Rsdp => Ok(rsdp_fault(image, policy, code)),
        Stage::Root => Ok(root_fault(image, policy, code)),
        Stage::Tables => Ok(slot_fault(tables, code)),
        Stage::Fadt => Ok(fadt_fault(tables, code)),
        Stage::Facs => Ok(facs_fault(image, tables, code)),
        Stage::Madt => Ok(listed_fault::<MadtEntry<'_>>(tables, TableKind::Madt, policy, code)),
        Stage::Interrupts => gsi_clash(alloc, tables, policy),
        Stage::Overrides => override_clash(tables, policy),
        Stage::Srat => Ok(listed_fault::<SratEntry<'_>>(tables, TableKind::Srat, policy, code)),
        Stage::Ranges => overlap(alloc, tables, policy),
        Stage::Slit => Ok(slit.and_then(|slit| slit_fault(code, slit))),
        Stage::Pptt => Ok(listed_fault::<PpttEntry<'_>>(tables, TableKind::Pptt, policy, code)),
        Stage::References => pptt.map_or(Ok(None), |pptt| reference_fault(alloc, code, &pptt)),
        Stage::Parents => pptt.map_or(Ok(None), |pptt| cycle_place(alloc, Chain::Parents, &pptt)),
        Stage::Caches => pptt.map_or(
            Ok(None),
            |pptt| cycle_place(alloc, Chain::NextLevels, &pptt),
        ),
        Stage::Domains => two_domains(alloc, tables, policy),
        Stage::Served => gsi_nowhere(alloc, tables, policy),
        Stage::Leaves => leaf_unknown(alloc, tables, policy),
    }
}

/// The first fault with a code, whether or not earlier stages hold.
fn first_fault(
    alloc: Global,
    image: &LentImage<'_>,
    tables: &CompleteTables<'_>,
    policy: &Policy,
    held: &HeldStages,
    code: Code,
) -> Result<Option<Witness>, AllocError>
    requires tables { AreCompleteTables image.now policy.now.rsdp tables.now }
    requires held { AreHeld held.now image.now policy.now }
    ensures { IfOk result (FindsFirstOfCode code image.now policy.now) }
{
    if held.has(code.stage()) {
        return Ok(None);
    }
    let Some(Place { at, other, point }) = first_place(alloc, image, tables, policy, code)? else {
        return Ok(None);
    };
    Ok(Some(Witness {
        code,
        at,
        other,
        point,
    }))
}

/// The first faults of all codes that have one, in the order of the codes' numbers.
pub fn first_faults(
    alloc: Global,
    image: &LentImage<'_>,
    tables: &CompleteTables<'_>,
    policy: &Policy,
) -> Result<Vec<Witness>, AllocError>
    requires { AreCompleteTables image.now policy.now.rsdp tables.now }
    ensures { IfOk result (λ faults. AreFirstFaults image.now policy.now faults.items) }
{
    let held = HeldStages::of(alloc, tables, policy)?;
    let mut faults = Vec::new(alloc);
    let mut number = 1;
    while let Some(code) = Code::new(number) {
        if let Some(fault) = first_fault(alloc, image, tables, policy, &held, code)? {
            faults.push(fault)?;
        }
        number += 1;
    }
    Ok(faults)
}
