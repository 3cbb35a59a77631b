//! All findings at once.

ghost use Rattle.std.specs.Prelude.{IfOk};
ghost use Rattle.acpi_lint.specs.Rules.Findings.{AreFindings};

use crate::advice::first_advice;
use crate::complete_tables::CompleteTables;
use crate::faults::first_faults;
use crate::rule::Advice;
use acpi_base::{LentImage, Policy, Witness};
use std::alloc::{AllocError, Global};

/// All that is wrong with an image: at most one fault of each code and one finding of each rule.
#[derive(Drop)]
pub struct Findings {
    /// The first fault of each code that has one, by the codes' numbers.
    pub faults: Vec<Witness>,
    /// The first finding of each rule that is broken, by the rules' numbers.
    pub advice: Vec<Advice>,
}

/// All that is wrong with the set of tables that the policy's RSDP leads to. Earlier stages need not hold: each fault
/// is one that `confirm` accepts, and there is none exactly when `check` says yes. An image that lacks any of the 20
/// bytes from the policy's address on has only the fault `RsdpOut`, and no advice.
///
/// Refuses with `AllocError` if out of memory: it allocates for each finding, and for what is compared or looked up,
/// at most for each slot of the root table, each structure of the tables that it reads, and each byte of the PPTT.
pub fn lint(alloc: Global, image: &LentImage<'_>, policy: &Policy) -> Result<Findings, AllocError>
    ensures { IfOk result (λ found.
        AreFindings image.now policy.now found.faults.items found.advice.items) }
{
    let tables = CompleteTables::of(alloc, image, policy.rsdp())?;
    let faults = first_faults(alloc, image, &tables, policy)?;
    let advice = first_advice(alloc, image, &tables, policy)?;
    Ok(Findings { faults, advice })
}
