//! A check of all stages, or of those up to one.

ghost use Rattle.std.specs.Prelude.{◌≡◌, ◌≤◌, ◌↔◌, IfOk, IfErr, IsOk, OnErr};
ghost use Rattle.acpi_base.specs.Codes.{stage_number, stage_of};
ghost use Rattle.acpi_base.specs.Statements.{IsClean, CleanTo};
ghost use Rattle.acpi_base.specs.Faults.{IsFirstFault, IsVerdict};
ghost use Rattle.acpi_base.specs.Policy.{PolicyValue};
ghost use Rattle.acpi_base.specs.declared.stage.Stage.{Stage};
ghost use Rattle.acpi_base.specs.declared.verdict.Verdict.{Verdict};
ghost use Rattle.acpi_check.specs.StageResults.{ReadsTo, IsResultTo};
ghost use Rattle.acpi_check.specs.Headline.{IfNo};
ghost use Rattle.acpi_check.specs.StageSets.{IsListedSetOf, IsCleanSetOf};
ghost use Rattle.acpi_check.specs.Set.{IsSetOf, IsSet};

use crate::facs::check_facs;
use crate::fadt::check_fadt;
use crate::later_stages::run_stage;
use crate::refusal::Refusal;
use crate::root::check_root;
use crate::rsdp::check_rsdp;
use crate::set::{CleanSet, ListedSet, Set};
use crate::tables::check_tables;
use acpi_base::{LentImage, Policy, Stage, Verdict, Witness};
use std::alloc::{AllocError, Global};

/// The verdict on the image's tables: `Yes` exactly when all eighteen statements hold for the image and the policy,
/// otherwise `No` with the first fault, which is of the first stage that fails.
///
/// Out of memory only if stages 1 to 6 hold.
pub fn check(alloc: Global, image: &LentImage<'_>, policy: &Policy) -> Result<Verdict, AllocError>
    ensures yes { IfOk result (λ verdict. (verdict ≡ Verdict.Yes) ↔ IsClean image.now policy.now) }
    ensures no { IfOk result (IfNo (IsFirstFault image.now policy.now)) }
    ensures memory { OnErr result (CleanTo Stage.Madt image.now policy.now) }
{
    check_to(alloc, image, policy, Stage::LAST)
}

/// The verdict on the image's tables over the stages up to `last`: `Yes` if all of them hold, otherwise `No` with the
/// first fault, which is of the first stage that fails.
///
/// Out of memory only if stages 1 to 6 hold. For `last` up to 6 always `Ok`: those stages never run out of memory.
pub fn check_to(
    alloc: Global,
    image: &LentImage<'_>,
    policy: &Policy,
    last: Stage,
) -> Result<Verdict, AllocError>
    ensures verdict { IfOk result (IsVerdict last image.now policy.now) }
    ensures early { stage_number last ≤ 6 → IsOk result }
    ensures memory { OnErr result (CleanTo Stage.Madt image.now policy.now) }
{
    match stages_to(alloc, image, policy, last) {
        Ok(()) => Ok(Verdict::Yes),
        Err(Refusal::Fault(fault)) => Ok(Verdict::No(fault)),
        Err(Refusal::OutOfMemory) => Err(AllocError),
    }
}

/// Runs the stages up to `last` in their order. Those up to the FACS never run out of memory and are always run: if the
/// first fault is one of a stage after `last`, the stages up to `last` hold.
fn stages_to(
    alloc: Global,
    image: &LentImage<'_>,
    policy: &Policy,
    last: Stage,
) -> Result<(), Refusal>
    ensures { IsResultTo last image.now policy.now (λ _. CleanTo last image.now policy.now) result }
{
    match valid_set(alloc, image, policy) {
        Ok(set) => later_stages(alloc, &set, last),
        Err(fault) if fault.code.stage().number() <= last.number() => Err(Refusal::Fault(fault)),
        Err(_) => Ok(()),
    }
}

/// The set that the RSDP at an address leads to, if its RSDP, its root table and the tables that it lists are valid;
/// otherwise its first fault, which is one of stages 1 to 3. These stages use nothing of a policy but the RSDP's
/// address. Allocates for a root table of more than 1,024 slots; if out of memory, it takes longer.
pub fn read_set<'a>(
    alloc: Global,
    image: &'a LentImage<'_>,
    rsdp: u64,
) -> Result<ListedSet<'a>, Witness>
    ensures { (q : PolicyValue) → q.rsdp ≡ rsdp
        → ReadsTo Stage.Tables image.now q (IsListedSetOf image.now q.rsdp) result }
{
    let rsdp = check_rsdp(image, rsdp)?;
    let root = check_root(image, &rsdp)?;
    let tables = check_tables(alloc, image, &root)?;
    Ok(ListedSet {
        image,
        rsdp,
        root,
        tables,
    })
}

/// The set for which the stages up to the FACS hold, or its first fault, which is one of theirs.
fn valid_set<'a, 'p>(
    alloc: Global,
    image: &'a LentImage<'_>,
    policy: &'p Policy,
) -> Result<Set<'a, 'p>, Witness>
    ensures { ReadsTo Stage.Facs image.now policy.now (IsSetOf image.now policy.now) result }
{
    let listed = read_set(alloc, image, policy.rsdp())?;
    let fadt = check_fadt(&listed.tables)?;
    let facs = check_facs(image, &fadt)?;
    Ok(Set {
        listed,
        policy,
        fadt,
        facs,
    })
}

/// Runs the stages after the FACS, up to `last`, in their order.
fn later_stages(alloc: Global, set: &Set<'_, '_>, last: Stage) -> Result<(), Refusal>
    requires { IsSet set.now }
    ensures { IsResultTo last set.now.listed.image.now set.now.policy.now
        (λ _. CleanTo last set.now.listed.image.now set.now.policy.now) result }
{
    for number in Stage::Madt.number()..last.number() + 1 {
        if let Some(stage) = Stage::new(number) {
            run_stage(alloc, set, stage)?;
        }
    }
    Ok(())
}

/// The set that the policy's RSDP leads to, if all eighteen statements hold; otherwise its first fault, or
/// `OutOfMemory`, which is returned only if stages 1 to 6 hold.
pub fn check_set<'a>(
    alloc: Global,
    image: &'a LentImage<'_>,
    policy: &Policy,
) -> Result<CleanSet<'a>, Refusal>
    ensures { IsResultTo Stage.Leaves image.now policy.now (IsCleanSetOf image.now policy.now)
        result }
{
    let set = valid_set(alloc, image, policy)?;
    later_stages(alloc, &set, Stage::LAST)?;
    Ok(CleanSet {
        listed: set.listed,
        fadt: set.fadt,
        facs: set.facs,
    })
}
