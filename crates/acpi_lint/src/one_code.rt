//! Codes 39, 40, 45 and 55 to 59, each alone in its stage. The stage's finder is called on the set's tables, whatever
//! the earlier stages find.

ghost use Rattle.std.specs.Prelude.{IfOk, IsOk, IsSome, OnErr};
ghost use Rattle.acpi_base.specs.Chains.{IsCycle};
ghost use Rattle.acpi_base.specs.Memory.{Memory};
ghost use Rattle.acpi_base.specs.Pptt.{pptt_contents};
ghost use Rattle.acpi_base.specs.declared.code.Code.{Code};
ghost use Rattle.acpi_base.specs.declared.stage.Stage.{Stage};
ghost use Rattle.acpi_check.specs.Chains.{Names, most_of};
ghost use Rattle.acpi_rules.specs.Places.{FindsLeast};
ghost use Rattle.acpi_lint.specs.StageFaults.{IsFaultOfStage, FindsFirstAt};
ghost use Rattle.acpi_lint.specs.CompleteTables.{AreCompleteTables};

use crate::complete_tables::CompleteTables;
use crate::verdicts::place_of;
use acpi_base::{Policy, TableKind};
use acpi_check::{
    Chain, check_domains, check_interrupts, check_leaves, check_overrides, check_ranges,
    check_served, first_cycle,
};
use acpi_read::Table;
use acpi_rules::Place;
use std::alloc::{AllocError, Global};

/// The place of the first override of a set's MADT that gives its Source another interrupt number than an earlier one.
pub fn override_clash(
    tables: &CompleteTables<'_>,
    policy: &Policy,
) -> Result<Option<Place>, AllocError>
    ensures found { (m : Memory) → AreCompleteTables m policy.now.rsdp tables.now
        → IfOk result (FindsLeast
        (IsFaultOfStage Stage.Overrides Code.OverrideClash m policy.now)) }
    ensures memory { IsOk result }
{
    match tables.madt() {
        Some(madt) => place_of(check_overrides(&madt)),
        None => Ok(None),
    }
}

/// The place of the first entry of a set's MADT that names an interrupt number that none of its I/O APICs serves.
/// Allocates as the stage does.
pub fn gsi_nowhere(
    alloc: Global,
    tables: &CompleteTables<'_>,
    policy: &Policy,
) -> Result<Option<Place>, AllocError>
    ensures found { (m : Memory) → AreCompleteTables m policy.now.rsdp tables.now
        → IfOk result (FindsLeast (IsFaultOfStage Stage.Served Code.GsiNowhere m policy.now)) }
    ensures memory { OnErr result (IsSome tables.now.madt) }
{
    match tables.madt() {
        Some(madt) => place_of(check_served(alloc, policy, &madt)),
        None => Ok(None),
    }
}

/// The place of the lowest interrupt number that two I/O APICs of a set's MADT serve. Allocates as the stage does.
pub fn gsi_clash(
    alloc: Global,
    tables: &CompleteTables<'_>,
    policy: &Policy,
) -> Result<Option<Place>, AllocError>
    ensures found { (m : Memory) → AreCompleteTables m policy.now.rsdp tables.now
        → IfOk result (FindsFirstAt Code.GsiClash m policy.now) }
    ensures memory { OnErr result (IsSome tables.now.madt) }
{
    match tables.madt() {
        Some(madt) => place_of(check_interrupts(alloc, policy, &madt)),
        None => Ok(None),
    }
}

/// The place of the lowest address that two compared ranges of a set's SRAT cover. Allocates as the stage does.
pub fn overlap(
    alloc: Global,
    tables: &CompleteTables<'_>,
    policy: &Policy,
) -> Result<Option<Place>, AllocError>
    ensures found { (m : Memory) → AreCompleteTables m policy.now.rsdp tables.now
        → IfOk result (FindsFirstAt Code.Overlap m policy.now) }
    ensures memory { OnErr result (IsSome tables.now.srat) }
{
    match tables.srat() {
        Some(srat) => place_of(check_ranges(alloc, policy.hotplug(), &srat)),
        None => Ok(None),
    }
}

/// The place of the first node of a PPTT whose chain has a cycle; a dangling reference ends a chain. Allocates for each
/// node.
pub fn cycle_place(
    alloc: Global,
    chain: Chain,
    pptt: &Table<'_>,
) -> Result<Option<Place>, AllocError>
    ensures { IfOk result (FindsLeast
        (IsCycle (Names chain (pptt_contents pptt.now)) (most_of chain (pptt_contents pptt.now)))) }
{
    match first_cycle(alloc, chain, pptt)? {
        Some(fault) => Ok(Some(Place {
            at: fault.at,
            other: fault.other,
            point: fault.point,
        })),
        None => Ok(None),
    }
}

/// The place of the first entry of a set's SRAT that puts a processor of its MADT that counts as enabled into another
/// domain than the first entry for this processor. Allocates as the stage does.
pub fn two_domains(
    alloc: Global,
    tables: &CompleteTables<'_>,
    policy: &Policy,
) -> Result<Option<Place>, AllocError>
    ensures found { (m : Memory) → AreCompleteTables m policy.now.rsdp tables.now
        → IfOk result (FindsLeast (IsFaultOfStage Stage.Domains Code.TwoDomains m policy.now)) }
    ensures memory { OnErr result (IsSome tables.now.madt) }
{
    let Some(madt) = tables.madt() else {
        return Ok(None);
    };
    let Some(srat) = tables.srat() else {
        return Ok(None);
    };
    place_of(check_domains(alloc, policy.processors(), &madt, &srat))
}

/// The place of the first leaf of a set's PPTT whose ID is the UID of no processor of its MADT, if the MADT's entries
/// fill it and all have types that are read. Allocates as the stage does.
pub fn leaf_unknown(
    alloc: Global,
    tables: &CompleteTables<'_>,
    policy: &Policy,
) -> Result<Option<Place>, AllocError>
    ensures found { (m : Memory) → AreCompleteTables m policy.now.rsdp tables.now
        → IfOk result (FindsLeast (IsFaultOfStage Stage.Leaves Code.LeafUnknown m policy.now)) }
    ensures memory { OnErr result (IsSome tables.now.pptt) }
{
    let Some(madt) = tables.table(TableKind::Madt) else {
        return Ok(None);
    };
    let Some(pptt) = tables.pptt() else {
        return Ok(None);
    };
    place_of(check_leaves(alloc, &madt, &pptt))
}
