//! Stage 7: the interrupt numbers that I/O APICs serve.

ghost use Rattle.std.specs.Prelude.{◌≡◌, ◌<◌, ◌^◌, IfOk, IfSome, IsTrue, option_map};
ghost use Rattle.acpi_base.specs.Madt.{madt_contents, Serves, AreInterruptsApart, IsFirstGsiClash};
ghost use Rattle.acpi_base.specs.declared.code.Code.{Code};
ghost use Rattle.acpi_base.specs.declared.stage.Stage.{Stage};
ghost use Rattle.acpi_read.specs.Madts.{madt_value};
ghost use Rattle.acpi_check.specs.TableResults.{Finds, IsOverlap};
ghost use Rattle.acpi_check.specs.RangeSpans.{span_value, served_span, AreSpansOf, BeginLow, HasLowPoint, IsOverlapResult};

use crate::collecting::collected;
use crate::refusal::Refusal;
use acpi_base::{Code, Policy, Witness};
use acpi_graph::{Clash, Span, first_clash};
use acpi_read::{EntryAt, MadtEntry, Table};
use std::alloc::{AllocError, Global};

/// The interrupt numbers that an I/O APIC serves, as a span with the entry's offset as its id. None for another entry.
pub fn served_span(policy: &Policy, at: &EntryAt<MadtEntry<'_>>) -> Option<Span>
    requires { at.now.offset < 2 ^ 32 }
    ensures span { option_map span_value result ≡ served_span policy.now at.now.offset
        (madt_value at.now.entry) }
    ensures low { IfSome result (λ span. span.start < 2 ^ 64) }
{
    let MadtEntry::IoApic(io_apic) = &at.entry else {
        return None;
    };
    let start = u128::from(io_apic.gsi_base);
    let end = start + u128::from(policy.inputs_of(io_apic.address));
    Span::new(start, end, at.offset as u32)
}

/// Whether each I/O APIC of a MADT serves numbers behind those of the I/O APICs before it, as in most machines. Then no
/// two serve one number.
#[inline(never)]
fn do_numbers_rise(policy: &Policy, madt: &Table<'_>) -> bool
    ensures { IsTrue result → AreInterruptsApart policy.now (madt_contents madt.now) }
{
    let mut entries = madt.entries::<MadtEntry<'_>>();
    let mut least = 0;
    while let Some(at) = entries.next() {
        if let Some(span) = served_span(policy, &at) {
            if span.start < least {
                return false;
            }
            least = span.end;
        }
    }
    true
}

/// The interrupt numbers that each I/O APIC of a MADT serves, in the entries' order.
pub fn served_spans(
    alloc: Global,
    policy: &Policy,
    madt: &Table<'_>,
) -> Result<Vec<Span>, AllocError>
    ensures spans { IfOk result
        (λ spans. AreSpansOf (Serves policy.now (madt_contents madt.now)) spans.items) }
    ensures low { IfOk result (λ spans. BeginLow spans.items) }
{
    collected(
        alloc,
        madt.entries::<MadtEntry<'_>>(),
        |at| served_span(policy, at),
    )
}

/// The lowest interrupt number that two I/O APICs of a MADT serve, and the first two that serve it.
#[tactic(auto, using(crate::proofs::Spans::Clashes::is_found, crate::proofs::Spans::Clashes::low_point))]
fn first_gsi_clash(alloc: Global, policy: &Policy, madt: &Table<'_>) -> Result<Clash, AllocError>
    ensures found { IfOk result (IsOverlapResult (Serves policy.now (madt_contents madt.now))) }
    ensures low { IfOk result HasLowPoint }
{
    let spans = served_spans(alloc, policy, madt)?;
    let (clash, _) = first_clash(alloc, spans)?;
    Ok(clash)
}

/// Whether no interrupt number is served by two I/O APICs of a MADT (ACPI 6.5, 5.2.12.3). An I/O APIC serves the
/// numbers from its Global System Interrupt Base on, as many as it has inputs by the policy. The MADT may have any
/// entries.
///
/// Refuses with `Fault` and the code `GsiClash` if two serve one number: `point` is the lowest such number, which is
/// below 2^32; `at` and `other` are the offsets, in bytes from the table's start, of the first two that serve it, by
/// their first number and then by offset. Refuses with `OutOfMemory`: unless the numbers of each I/O APIC are behind those
/// of the ones before it, it allocates a span for each.
pub fn check_interrupts(alloc: Global, policy: &Policy, madt: &Table<'_>) -> Result<(), Refusal>
    ensures { Finds Stage.Interrupts (AreInterruptsApart policy.now (madt_contents madt.now))
        (IsOverlap Code.GsiClash (IsFirstGsiClash policy.now (madt_contents madt.now))) result }
{
    if do_numbers_rise(policy, madt) {
        return Ok(());
    }
    match first_gsi_clash(alloc, policy, madt)? {
        Clash::None => Ok(()),
        Clash::At {
            first,
            second,
            point,
        } => Err(Refusal::Fault(Witness {
            code: Code::GsiClash,
            at: u64::from(first),
            other: u64::from(second),
            point: point as u64,
        })),
    }
}
