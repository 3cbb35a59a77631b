//! Laws on advice: the contract of each function is a law, and its body is empty.

ghost use Rattle.acpi_lint.specs.Rules.Advice.{OneFirstAdvice};

/// A rule of advice has at most one first finding.
#[tactic(auto, using(crate::proofs::OneAdvice::one_first_advice))]
pub fn one_first_advice()
    ensures one { OneFirstAdvice }
{}
