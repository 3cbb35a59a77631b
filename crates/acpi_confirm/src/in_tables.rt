//! Codes 32 to 59: the first listed tables that the codes are about, each checked by its bytes.

ghost use Rattle.std.specs.Prelude.{◌↔◌, IsTrue};
ghost use Rattle.acpi_base.specs.Across.{DomainFault, LeafFault};
ghost use Rattle.acpi_base.specs.Codes.{stage_of};
ghost use Rattle.acpi_base.specs.Contents.{HasMadt, HasSrat, HasSlit, HasPptt};
ghost use Rattle.acpi_base.specs.Slit.{SlitFault};
ghost use Rattle.acpi_confirm.specs.Conditions.{MadtCondition, SratCondition, PpttCondition};

use crate::cross::{is_domain_fault, is_leaf_fault};
use crate::listed_tables::{both_listed, listed};
use crate::madt::is_madt_fault;
use crate::pptt::is_pptt_fault;
use crate::slit::is_slit_fault;
use crate::srat::is_srat_fault;
use acpi_base::{LentImage, Policy, Witness};

/// Codes 32 to 40 and 58: whether the witness is a fault of the listed MADT.
pub(crate) fn in_madt(image: &LentImage<'_>, policy: &Policy, witness: &Witness) -> bool
    ensures { IsTrue result ↔ HasMadt image.now policy.now
        (λ madt. MadtCondition (stage_of witness.now.code) policy.now madt witness.now) }
{
    listed(image, policy, b"APIC").is_some_and(|madt| is_madt_fault(madt, policy, witness))
}

/// Codes 41 to 45: whether the witness is a fault of the listed SRAT.
pub(crate) fn in_srat(image: &LentImage<'_>, policy: &Policy, witness: &Witness) -> bool
    ensures { IsTrue result ↔ HasSrat image.now policy.now
        (λ srat. SratCondition (stage_of witness.now.code) policy.now srat witness.now) }
{
    listed(image, policy, b"SRAT").is_some_and(|srat| is_srat_fault(srat, policy, witness))
}

/// Codes 46 to 49: whether the witness is a fault of the listed SLIT.
pub(crate) fn in_slit(image: &LentImage<'_>, policy: &Policy, witness: &Witness) -> bool
    ensures { IsTrue result ↔ HasSlit image.now policy.now
        (λ slit. SlitFault slit witness.now.code witness.now.at witness.now.other
        witness.now.point) }
{
    listed(image, policy, b"SLIT").is_some_and(|slit| is_slit_fault(slit, witness))
}

/// Codes 50 to 56: whether the witness is a fault of the listed PPTT.
pub(crate) fn in_pptt(image: &LentImage<'_>, policy: &Policy, witness: &Witness) -> bool
    ensures { IsTrue result ↔ HasPptt image.now policy.now
        (λ pptt. PpttCondition (stage_of witness.now.code) pptt witness.now) }
{
    listed(image, policy, b"PPTT").is_some_and(|pptt| is_pptt_fault(pptt, witness))
}

/// Code 57: whether the witness is a fault of the listed MADT and SRAT.
pub(crate) fn in_madt_and_srat(image: &LentImage<'_>, policy: &Policy, witness: &Witness) -> bool
    ensures { IsTrue result ↔ HasMadt image.now policy.now
        (λ madt. HasSrat image.now policy.now
        (λ srat. DomainFault policy.now.processors madt srat witness.now.code witness.now.at
        witness.now.other witness.now.point)) }
{
    let (madt, srat) = both_listed(image, policy, b"APIC", b"SRAT");
    madt.zip(srat).is_some_and(|(madt, srat)| is_domain_fault(madt, srat, policy, witness))
}

/// Code 59: whether the witness is a fault of the listed MADT and PPTT.
pub(crate) fn in_madt_and_pptt(image: &LentImage<'_>, policy: &Policy, witness: &Witness) -> bool
    ensures { IsTrue result ↔ HasMadt image.now policy.now
        (λ madt. HasPptt image.now policy.now
        (λ pptt. LeafFault madt pptt witness.now.code witness.now.at witness.now.other
        witness.now.point)) }
{
    let (madt, pptt) = both_listed(image, policy, b"APIC", b"PPTT");
    madt.zip(pptt)
        .is_some_and(|(madt, pptt)| is_leaf_fault(madt, pptt, witness))
}
