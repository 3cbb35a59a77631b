//! Stage 16: the proximity domains into which the SRAT puts the processors of the MADT.

ghost use Rattle.std.specs.Prelude.{◌≡◌, ◌<◌, AllPairs, IfOk, IfSome, IsTrue, None, length};
ghost use Rattle.acpi_base.specs.Across.{HaveOneDomain, DomainFault};
ghost use Rattle.acpi_base.specs.Madt.{madt_contents};
ghost use Rattle.acpi_base.specs.Srat.{srat_contents, PutsIn};
ghost use Rattle.acpi_base.specs.declared.stage.Stage.{Stage};
ghost use Rattle.acpi_read.specs.Srats.{srat_value};
ghost use Rattle.acpi_check.specs.Processors.{placement_of, PutsPlaced};
ghost use Rattle.acpi_check.specs.FirstSeen.{IsGiven, FindsOther};
ghost use Rattle.acpi_check.specs.TableResults.{FindsFirst};

use crate::first_seen::{Given, OtherValue, pass_given};
use crate::processors::{Key, numbers_of};
use crate::refusal::Refusal;
use crate::search::binary_search;
use acpi_base::{Code, Processors, Witness};
use acpi_read::{SratEntry, Table, is_enabled};
use std::alloc::{AllocError, Global};

/// A processor in a proximity domain.
#[derive(Clone, Copy)]
pub struct Placement {
    /// The APIC ID or x2APIC ID: they are one number space.
    pub processor: u32,
    /// The domain.
    pub domain: u32,
}

/// The processor that an enabled entry of an SRAT puts into a domain. None for another entry.
fn placement_of(entry: &SratEntry<'_>) -> Option<Placement>
    ensures { result ≡ placement_of (srat_value entry.now) }
{
    match entry {
        SratEntry::ApicDomain(put) => is_enabled(put.flags).then_some(Placement {
            processor: u32::from(put.apic_id),
            domain: put.domain,
        }),
        SratEntry::X2apicDomain(put) => is_enabled(put.flags).then_some(Placement {
            processor: put.x2apic_id,
            domain: put.domain,
        }),
        _ => None,
    }
}

/// Whether each processor that an entry of an SRAT puts into a domain has a greater number than those before it, as in
/// most machines. Then none is put into two.
#[inline(never)]
fn do_processors_rise(srat: &Table<'_>) -> bool
    ensures { IsTrue result → FindsOther PutsIn (srat_contents srat.now).entries None }
{
    let mut entries = srat.entries::<SratEntry<'_>>();
    let mut least = 0;
    while let Some(at) = entries.next() {
        if let Some(put) = placement_of(&at.entry) {
            let processor = u64::from(put.processor);
            if processor < least {
                return false;
            }
            least = processor + 1;
        }
    }
    true
}

/// The domain into which an entry puts a processor, with the index of the processor's number among these, which rise.
/// None if it puts none of them into one.
fn domain_given(numbers: &[u64], entry: &SratEntry<'_>) -> Option<Given>
    requires { AllPairs (λ i j. i < j) numbers.now }
    ensures given { IsGiven (PutsPlaced numbers.now) (srat_value entry.now) result }
    ensures inside { IfSome result (λ g. g.key < length numbers.now) }
{
    let put = placement_of(entry)?;
    Some(Given {
        key: binary_search(numbers, u64::from(put.processor))?,
        value: put.domain,
    })
}

/// The first entry of an SRAT that puts a processor with one of the numbers, which rise, into another domain than an
/// earlier entry does.
fn first_other_domain(
    alloc: Global,
    numbers: &[u64],
    srat: &Table<'_>,
) -> Result<Option<OtherValue>, AllocError>
    requires { AllPairs (λ i j. i < j) numbers.now }
    ensures found { IfOk result
        (FindsOther (PutsPlaced numbers.now) (srat_contents srat.now).entries) }
    ensures inside { IfOk result (λ found. IfSome found (λ other. other.key < length numbers.now)) }
{
    let mut entries = srat.entries::<SratEntry<'_>>();
    let mut firsts = vec![in alloc; None; numbers.len()]?;
    while let Some(at) = entries.next() {
        let given = domain_given(numbers, &at.entry);
        if let Some(found) = pass_given(&mut firsts, at.offset, given) {
            return Ok(Some(found));
        }
    }
    Ok(None)
}

/// Whether an SRAT puts no processor of a MADT that counts as enabled into two proximity domains (ACPI 6.5, 5.2.16.1
/// and 5.2.16.3; 5.2.12.2 and 5.2.12.12). APIC IDs and x2APIC IDs are one number space. Both tables may have any
/// entries.
///
/// Refuses with `Fault` and the code `TwoDomains`: `at` is the offset, in bytes from the SRAT's start, of its first
/// entry that puts such a processor into another domain than the first entry for this processor, whose offset is
/// `other`; `point` is the processor's APIC ID or x2APIC ID, of 32 bits.
///
/// Refuses with `OutOfMemory`: unless the entries name processors in rising order, it allocates for each processor that
/// counts as enabled.
pub fn check_domains(
    alloc: Global,
    processors: Processors,
    madt: &Table<'_>,
    srat: &Table<'_>,
) -> Result<(), Refusal>
    ensures { FindsFirst Stage.Domains
        (HaveOneDomain processors (madt_contents madt.now) (srat_contents srat.now))
        (DomainFault processors (madt_contents madt.now) (srat_contents srat.now)) result }
{
    if do_processors_rise(srat) {
        return Ok(());
    }
    let numbers = numbers_of(alloc, Key::Enabled(processors), madt)?;
    match first_other_domain(alloc, &numbers, srat)? {
        None => Ok(()),
        Some(found) => Err(Refusal::Fault(Witness {
            code: Code::TwoDomains,
            at: found.at,
            other: found.other,
            point: numbers[found.key],
        })),
    }
}
