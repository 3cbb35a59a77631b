//! The law on the two calls `check` and `confirm`, which check an image independently of each other.

ghost use Rattle.std.specs.Prelude.{◌≡◌, ◌↔◌, IfOk, IsTrue, OnErr, false, true};
ghost use Rattle.acpi_base.specs.Faults.{Fault, IsFirstFault};
ghost use Rattle.acpi_base.specs.Statements.{CleanTo, IsClean};
ghost use Rattle.acpi_base.specs.declared.stage.Stage.{Stage};
ghost use Rattle.acpi_check.specs.Headline.{IfNo};

use acpi_base::laws::fault_excludes_clean;
use acpi_base::{Image, Policy, Verdict, Witness};
use acpi_check::check;
use acpi_confirm::confirm;
use std::alloc::{AllocError, Global};

/// What `check` and `confirm` say about one image under one policy.
#[derive(Clone, Copy, Debug, PartialEq, Eq)]
pub struct Judgement {
    /// The verdict of `check`.
    pub verdict: Verdict,
    /// Whether `confirm` accepts the witness.
    pub is_confirmed: bool,
}

/// Calls both: the checker for its verdict, and `confirm` on any witness.
///
/// The checker says yes exactly if all statements hold, otherwise no with the first fault. `confirm` accepts exactly
/// the faults. So it accepts the fault that the checker reports, and no fault of a set that the checker finds clean. If
/// the checker runs out of memory, the first six statements hold.
pub fn check_and_confirm_agree(
    alloc: Global,
    image: &Image,
    policy: &Policy,
    witness: &Witness,
) -> Result<Judgement, AllocError>
    ensures yes { IfOk result (λ both. (both.verdict ≡ Verdict.Yes)
        ↔ IsClean image.now policy.now) }
    ensures no { IfOk result (λ both. IfNo (IsFirstFault image.now policy.now) both.verdict) }
    ensures fault { IfOk result (λ both. IsTrue both.is_confirmed
        ↔ Fault image.now policy.now witness.now) }
    ensures first { IfOk result (λ both. both.verdict ≡ Verdict.No witness.now
        → both.is_confirmed ≡ true) }
    ensures none { IfOk result (λ both. both.verdict ≡ Verdict.Yes → both.is_confirmed ≡ false) }
    ensures memory { OnErr result (CleanTo Stage.Madt image.now policy.now) }
{
    fault_excludes_clean();
    let verdict = check(alloc, image, policy)?;
    let is_confirmed = confirm(image, policy, witness);
    Ok(Judgement {
        verdict,
        is_confirmed,
    })
}
