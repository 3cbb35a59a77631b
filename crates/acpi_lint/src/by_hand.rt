//! What the rules that are not rows find in a set. A rule on a table finds nothing if the set lists no complete one with
//! all its fields.

ghost use Rattle.std.specs.Prelude.{◌≡◌, ◌∷◌, [], IfOk, IsSome, OnErr};
ghost use Rattle.acpi_base.specs.Memory.{Memory};
ghost use Rattle.acpi_base.specs.Policy.{PolicyValue};
ghost use Rattle.acpi_rules.specs.Places.{FindsLeast};
ghost use Rattle.acpi_lint.specs.ByHand.{Adds, AreFoundByHand, fadt_madt_rules, fadt_rules, gtdt_rules, hmat_rules, madt_rules, mcfg_rules, memory_rules, pptt_rules, rules_by_hand, slit_rules, slot_rules, spcr_rules};
ghost use Rattle.acpi_lint.specs.CompleteTables.{AreCompleteTables};
ghost use Rattle.acpi_lint.specs.Rules.Broken.{IsBrokenByHand};

use crate::cache_types::same_cache_type;
use crate::complete_tables::CompleteTables;
use crate::ecam::ecam_overlap;
use crate::fadt_blocks::{port_past_end, ports_overlap};
use crate::fadt_memory::{dsdt_text, dsdt_wrong, facs_reserved, s4bios_differs};
use crate::further_table::FurtherTable;
use crate::header_advice::{header_text, second_other};
use crate::madt_advice::gicr_too_small;
use crate::missing_tables::{hmat_alone, no_gtdt};
use crate::packages::no_package;
use crate::root_advice::{null_slot, root_header, rsdt_differs};
use crate::row_findings::Found;
use crate::rsdp_advice::{rsdp_reserved, rsdp_text};
use crate::rule::Rule;
use crate::sci::sci_nowhere;
use crate::slit::{remote_as_local, slit_differs};
use crate::slot_advice::{listed_apart, listed_twice, second_table};
use crate::spcr::{gsi_unserved, name_open};
use crate::structures::tables_overlap;
use crate::timers::timer_overlap;
use acpi_base::{LentImage, Policy, TableKind};
use acpi_rules::Place;
use std::alloc::{AllocError, Global};

/// Adds the place where a rule is broken, if it is. Allocates for it.
fn add(found: &mut Vec<Found>, rule: Rule, place: Option<Place>) -> Result<(), AllocError>
    ensures adds { IfOk result (λ _. (m : Memory) (q : PolicyValue)
        → FindsLeast (IsBrokenByHand rule m q) place
        → Adds m q (rule ∷ []) found.old.items found.new.items) }
    ensures refuses { OnErr result (IsSome place) }
{
    if let Some(place) = place {
        found.push(Found {
            number: rule.number(),
            place,
        })?;
    }
    Ok(())
}

/// Adds what the rules on the slots of the root table find.
fn add_of_slots(
    alloc: Global,
    tables: &CompleteTables<'_>,
    found: &mut Vec<Found>,
) -> Result<(), AllocError>
    ensures { IfOk result (λ _. (m : Memory) (q : PolicyValue)
        → AreCompleteTables m q.rsdp tables.now → Adds m q slot_rules found.old.items found.new.items) }
{
    add(found, Rule::ListedTwice, listed_twice(alloc, tables)?)?;
    add(found, Rule::SecondTable, second_table(tables))?;
    add(found, Rule::ListedApart, listed_apart(tables))?;
    add(found, Rule::NullSlot, null_slot(tables))?;
    add(found, Rule::RootHeader, root_header(tables))?;
    add(found, Rule::HeaderText, header_text(tables))?;
    add(found, Rule::SecondOther, second_other(alloc, tables)?)
}

/// Adds what the rules on the memory find, from the RSDP on.
fn add_of_memory(
    alloc: Global,
    image: &LentImage<'_>,
    rsdp: u64,
    tables: &CompleteTables<'_>,
    found: &mut Vec<Found>,
) -> Result<(), AllocError>
    requires { AreCompleteTables image.now rsdp tables.now }
    ensures { IfOk result (λ _. (q : PolicyValue) → q.rsdp ≡ rsdp
        → Adds image.now q memory_rules found.old.items found.new.items) }
{
    let differs = rsdt_differs(alloc, image, rsdp, tables)?;
    add(found, Rule::RsdtDiffers, differs)?;
    let overlaps = tables_overlap(alloc, image, rsdp, tables)?;
    add(found, Rule::TablesOverlap, overlaps)?;
    add(found, Rule::RsdpReserved, rsdp_reserved(image, rsdp))?;
    add(found, Rule::RsdpText, rsdp_text(image, rsdp))
}

/// Adds what the rules on the FADT find, and those on what it names.
fn add_of_fadt(
    alloc: Global,
    image: &LentImage<'_>,
    tables: &CompleteTables<'_>,
    found: &mut Vec<Found>,
) -> Result<(), AllocError>
    ensures adds { IfOk result (λ _. (q : PolicyValue)
        → AreCompleteTables image.now q.rsdp tables.now
        → Adds image.now q fadt_rules found.old.items found.new.items) }
    ensures refuses { OnErr result (IsSome tables.now.fadt) }
{
    let Some(fadt) = tables.fadt() else {
        return Ok(());
    };
    add(found, Rule::PortsOverlap, ports_overlap(alloc, &fadt)?)?;
    add(found, Rule::PortPastEnd, port_past_end(&fadt))?;
    add(found, Rule::DsdtWrong, dsdt_wrong(image, &fadt))?;
    add(found, Rule::DsdtText, dsdt_text(image, &fadt))?;
    add(found, Rule::FacsReserved, facs_reserved(image, &fadt))?;
    add(found, Rule::S4BiosDiffers, s4bios_differs(image, &fadt))
}

/// Adds what the rule on the FADT and the MADT finds.
fn add_of_fadt_madt(
    policy: &Policy,
    tables: &CompleteTables<'_>,
    found: &mut Vec<Found>,
) -> Result<(), AllocError>
    ensures adds { IfOk result (λ _. (m : Memory) → AreCompleteTables m policy.now.rsdp tables.now
        → Adds m policy.now fadt_madt_rules found.old.items found.new.items) }
    ensures refuses { OnErr result (IsSome tables.now.fadt × IsSome tables.now.madt) }
{
    let Some(fadt) = tables.fadt() else {
        return Ok(());
    };
    let Some(madt) = tables.madt() else {
        return Ok(());
    };
    add(found, Rule::SciNowhere, sci_nowhere(policy, &fadt, &madt))
}

/// Adds what the rules on the MADT find.
fn add_of_madt(
    alloc: Global,
    tables: &CompleteTables<'_>,
    found: &mut Vec<Found>,
) -> Result<(), AllocError>
    ensures adds { IfOk result (λ _. (m : Memory) (q : PolicyValue)
        → AreCompleteTables m q.rsdp tables.now → Adds m q madt_rules found.old.items found.new.items) }
    ensures refuses { OnErr result (IsSome tables.now.madt) }
{
    let Some(madt) = tables.madt() else {
        return Ok(());
    };
    add(found, Rule::GicrTooSmall, gicr_too_small(alloc, &madt)?)?;
    add(found, Rule::NoGtdt, no_gtdt(alloc, &tables.firsts, &madt)?)
}

/// Adds what the rules on the SLIT find.
fn add_of_slit(tables: &CompleteTables<'_>, found: &mut Vec<Found>) -> Result<(), AllocError>
    ensures adds { IfOk result (λ _. (m : Memory) (q : PolicyValue)
        → AreCompleteTables m q.rsdp tables.now → Adds m q slit_rules found.old.items found.new.items) }
    ensures refuses { OnErr result (IsSome tables.now.slit) }
{
    let Some(slit) = tables.table(TableKind::Slit) else {
        return Ok(());
    };
    add(found, Rule::SlitDiffers, slit_differs(&slit))?;
    add(found, Rule::RemoteAsLocal, remote_as_local(&slit))
}

/// Adds what the rules on the PPTT find.
fn add_of_pptt(
    alloc: Global,
    tables: &CompleteTables<'_>,
    found: &mut Vec<Found>,
) -> Result<(), AllocError>
    ensures adds { IfOk result (λ _. (m : Memory) (q : PolicyValue)
        → AreCompleteTables m q.rsdp tables.now → Adds m q pptt_rules found.old.items found.new.items) }
    ensures refuses { OnErr result (IsSome tables.now.pptt) }
{
    let Some(pptt) = tables.long(TableKind::Pptt) else {
        return Ok(());
    };
    add(found, Rule::NoPackage, no_package(alloc, &pptt)?)?;
    add(found, Rule::SameCacheType, same_cache_type(alloc, &pptt)?)
}

/// Adds what the rule on the MCFG finds.
fn add_of_mcfg(
    alloc: Global,
    tables: &CompleteTables<'_>,
    found: &mut Vec<Found>,
) -> Result<(), AllocError>
    ensures adds { IfOk result (λ _. (m : Memory) (q : PolicyValue)
        → AreCompleteTables m q.rsdp tables.now → Adds m q mcfg_rules found.old.items found.new.items) }
    ensures refuses { OnErr result (IsSome tables.now.mcfg) }
{
    let Some(mcfg) = tables.further(FurtherTable::Mcfg) else {
        return Ok(());
    };
    add(found, Rule::EcamOverlap, ecam_overlap(alloc, &mcfg)?)
}

/// Adds what the rule on the HMAT and the listed tables finds.
fn add_of_hmat(tables: &CompleteTables<'_>, found: &mut Vec<Found>) -> Result<(), AllocError>
    ensures adds { IfOk result (λ _. (m : Memory) (q : PolicyValue)
        → AreCompleteTables m q.rsdp tables.now → Adds m q hmat_rules found.old.items found.new.items) }
    ensures refuses { OnErr result (IsSome tables.now.hmat) }
{
    let Some(_) = tables.further(FurtherTable::Hmat) else {
        return Ok(());
    };
    add(found, Rule::HmatAlone, hmat_alone(&tables.firsts))
}

/// Adds what the rule on the GTDT finds.
fn add_of_gtdt(
    alloc: Global,
    tables: &CompleteTables<'_>,
    found: &mut Vec<Found>,
) -> Result<(), AllocError>
    ensures adds { IfOk result (λ _. (m : Memory) (q : PolicyValue)
        → AreCompleteTables m q.rsdp tables.now → Adds m q gtdt_rules found.old.items found.new.items) }
    ensures refuses { OnErr result (IsSome tables.now.gtdt) }
{
    let Some(gtdt) = tables.further(FurtherTable::Gtdt) else {
        return Ok(());
    };
    add(found, Rule::TimerOverlap, timer_overlap(alloc, &gtdt)?)
}

/// Adds what is found of the SPCR, and of it with the MADT.
fn add_of_spcr(
    policy: &Policy,
    tables: &CompleteTables<'_>,
    found: &mut Vec<Found>,
) -> Result<(), AllocError>
    ensures adds { IfOk result (λ _. (m : Memory) → AreCompleteTables m policy.now.rsdp tables.now
        → Adds m policy.now spcr_rules found.old.items found.new.items) }
    ensures refuses { OnErr result (IsSome tables.now.spcr) }
{
    let Some(spcr) = tables.further(FurtherTable::Spcr) else {
        return Ok(());
    };
    add(found, Rule::SpcrName, name_open(&spcr))?;
    let Some(madt) = tables.madt() else {
        return Ok(());
    };
    add(found, Rule::SpcrGsi, gsi_unserved(policy, &spcr, &madt))
}

/// The first finding of each rule that is not a row. The tables are those of the set. Allocates for each finding, each
/// slot of the root table, each structure in memory, each register block of the FADT, each range of redistributors, each
/// usable CPU interface of a GIC, each node, private resource and cache of the PPTT, each entry of the MCFG, and each address
/// of registers of the GTDT.
pub fn found_by_hand(
    alloc: Global,
    image: &LentImage<'_>,
    tables: &CompleteTables<'_>,
    policy: &Policy,
) -> Result<Vec<Found>, AllocError>
    requires { AreCompleteTables image.now policy.now.rsdp tables.now }
    ensures { IfOk result (λ found. AreFoundByHand image.now policy.now rules_by_hand found.items) }
{
    let mut found = Vec::new(alloc);
    add_of_mcfg(alloc, tables, &mut found)?;
    add_of_hmat(tables, &mut found)?;
    add_of_gtdt(alloc, tables, &mut found)?;
    add_of_spcr(policy, tables, &mut found)?;
    add_of_slots(alloc, tables, &mut found)?;
    add_of_memory(alloc, image, policy.rsdp(), tables, &mut found)?;
    add_of_fadt(alloc, image, tables, &mut found)?;
    add_of_fadt_madt(policy, tables, &mut found)?;
    add_of_madt(alloc, tables, &mut found)?;
    add_of_slit(tables, &mut found)?;
    add_of_pptt(alloc, tables, &mut found)?;
    Ok(found)
}
