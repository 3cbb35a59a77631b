//! The stages on the tables that a set lists. A stage says nothing about a set that does not list its table, or one of
//! its two; otherwise what is found in the tables is its verdict on the set.

ghost use Rattle.std.specs.Prelude.{Ok, MatchOption};
ghost use Rattle.acpi_check.specs.Set.{IsReady, IsSetResult};

use crate::chains::{check_caches, check_parents};
use crate::domains::check_domains;
use crate::entries::check_entries;
use crate::interrupts::check_interrupts;
use crate::leaves::check_leaves;
use crate::overrides::check_overrides;
use crate::ranges::check_ranges;
use crate::references::check_references;
use crate::refusal::Refusal;
use crate::served::check_served;
use crate::set::Set;
use crate::slit::check_slit;
use acpi_base::{Stage, TableKind};
use acpi_read::{MadtEntry, PpttEntry, SratEntry};
use std::alloc::Global;

/// Runs one stage from the MADT's on. A stage holds if the set does not list the tables that it checks.
pub fn run_stage(alloc: Global, set: &Set<'_, '_>, stage: Stage) -> Result<(), Refusal>
    requires { IsReady stage set.now }
    ensures { IsSetResult stage set.now result }
{
    found(alloc, set, stage).unwrap_or(Ok(()))
}

/// What a stage finds in the tables that it checks, or none if the set does not list them. Those that allocate are
/// passed `alloc`; the others allocate nothing.
fn found(alloc: Global, set: &Set<'_, '_>, stage: Stage) -> Option<Result<(), Refusal>>
    requires { IsReady stage set.now }
    ensures { MatchOption result (IsSetResult stage set.now (Ok tt)) (IsSetResult stage set.now) }
{
    let tables = &set.listed.tables;
    let policy = set.policy;
    Some(match stage {
        Stage::Madt => check_entries::<MadtEntry<'_>>(policy, tables.first(TableKind::Madt)?),
        Stage::Interrupts => check_interrupts(alloc, policy, &tables.first(TableKind::Madt)?),
        Stage::Overrides => check_overrides(&tables.first(TableKind::Madt)?),
        Stage::Srat => check_entries::<SratEntry<'_>>(policy, tables.first(TableKind::Srat)?),
        Stage::Ranges => check_ranges(alloc, policy.hotplug(), &tables.first(TableKind::Srat)?),
        Stage::Slit => check_slit(tables.first(TableKind::Slit)?),
        Stage::Pptt => check_entries::<PpttEntry<'_>>(policy, tables.first(TableKind::Pptt)?),
        Stage::References => check_references(alloc, &tables.first(TableKind::Pptt)?),
        Stage::Parents => check_parents(alloc, &tables.first(TableKind::Pptt)?),
        Stage::Caches => check_caches(alloc, &tables.first(TableKind::Pptt)?),
        Stage::Domains => check_domains(
            alloc,
            policy.processors(),
            &tables.first(TableKind::Madt)?,
            &tables.first(TableKind::Srat)?,
        ),
        Stage::Served => check_served(alloc, policy, &tables.first(TableKind::Madt)?),
        Stage::Leaves => check_leaves(
            alloc,
            &tables.first(TableKind::Madt)?,
            &tables.first(TableKind::Pptt)?,
        ),
        // A `Set` is one for which these hold.
        Stage::Rsdp | Stage::Root | Stage::Tables | Stage::Fadt | Stage::Facs => Ok(()),
    })
}
