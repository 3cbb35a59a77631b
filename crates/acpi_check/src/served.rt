//! Stage 17: the interrupt numbers that overrides and NMI sources of the MADT name, among those that its I/O APICs
//! serve.

ghost use Rattle.std.specs.Prelude.{◌≡◌, ℕ, ◌↔◌, IfOk, IsTrue, MatchBool, MatchOption};
ghost use Rattle.acpi_base.specs.Across.{AreNamedServed, ServedFault};
ghost use Rattle.acpi_base.specs.Madt.{madt_contents};
ghost use Rattle.acpi_base.specs.declared.code.Code.{Code};
ghost use Rattle.acpi_base.specs.declared.stage.Stage.{Stage};
ghost use Rattle.acpi_read.specs.Madts.{madt_value};
ghost use Rattle.acpi_check.specs.NamedNumbers.{IsKnown, IsUnknown, FindsUnknown};
ghost use Rattle.acpi_check.specs.TableResults.{FindsFirst};
ghost use Rattle.acpi_check.specs.ServedGsis.{named_gsi, IsInSpans, DoStartsRise, DoRise, IsPlaceOf};

use crate::interrupts::{served_span, served_spans};
use crate::refusal::{Refusal, refuse};
use acpi_base::{Code, Policy, Witness};
use acpi_graph::{Span, sort_unless_sorted};
use acpi_read::{EntryAt, MadtEntry, Table};
use std::alloc::{AllocError, Global};

/// The interrupt number that an override or an NMI source names. None for another entry.
fn named_gsi(entry: &MadtEntry<'_>) -> Option<u32>
    ensures { result ≡ named_gsi (madt_value entry.now) }
{
    match entry {
        MadtEntry::Override(source) => Some(source.gsi),
        MadtEntry::NmiSource(nmi) => Some(nmi.gsi),
        _ => None,
    }
}

/// Whether the first I/O APIC of a MADT serves each interrupt number that entries name, and comes before them, as in most
/// machines.
#[inline(never)]
fn does_first_serve(policy: &Policy, madt: &Table<'_>) -> bool
    ensures { IsTrue result → AreNamedServed policy.now (madt_contents madt.now) }
{
    let mut entries = madt.entries::<MadtEntry<'_>>();
    let mut start = 0;
    let mut end = 0;
    while let Some(at) = entries.next() {
        if let Some(gsi) = named_gsi(&at.entry) {
            if u128::from(gsi) < start || u128::from(gsi) >= end {
                return false;
            }
        } else if end == 0
            && let Some(span) = served_span(policy, &at)
        {
            start = span.start;
            end = span.end;
        }
    }
    true
}

/// Spans that contain the same numbers, but end in rising order too: those that overlap or touch are merged. All have
/// one name.
fn merged_spans(alloc: Global, spans: &[Span]) -> Result<Vec<Span>, AllocError>
    requires { DoStartsRise spans.now }
    ensures rise { IfOk result (λ merged. DoRise merged.items) }
    ensures same { IfOk result
        (λ merged. (g : ℕ) → IsInSpans merged.items g ↔ IsInSpans spans.now g) }
{
    let mut merged = Vec::with_capacity(alloc, spans.len())?;
    let Some(first) = spans.first() else {
        return Ok(merged);
    };
    let name = first.name;
    let mut start = first.start;
    let mut end = first.end;
    for span in spans {
        if span.start <= end {
            end = end.max(span.end);
        } else {
            merged.push(Span { start, name, end })?;
            start = span.start;
            end = span.end;
        }
    }
    merged.push(Span { start, name, end })?;
    Ok(merged)
}

/// How many of the spans end at the number or before it.
fn ended_spans(spans: &[Span], gsi: u32) -> usize
    requires { DoRise spans.now }
    ensures { IsPlaceOf spans.now gsi result }
{
    spans.partition_point(|span| span.end <= u128::from(gsi))
}

/// Whether a number is in one of the spans: in the first one that ends after it.
fn has_number(spans: &[Span], gsi: u32) -> bool
    requires { DoRise spans.now }
    ensures { MatchBool result (IsInSpans spans.now gsi) (¬ IsInSpans spans.now gsi) }
{
    let ended = ended_spans(spans, gsi);
    ended < spans.len() && spans[ended].start <= u128::from(gsi)
}

/// The fault of an entry that names a number which is in none of the spans. None for an entry that names none.
fn own_fault(spans: &[Span], at: &EntryAt<MadtEntry<'_>>) -> Option<Witness>
    requires { DoRise spans.now }
    ensures { MatchOption result
        (IsKnown (IsInSpans spans.now) (named_gsi (madt_value at.now.entry)))
        (IsUnknown (IsInSpans spans.now) Code.GsiNowhere at.now.offset
        (named_gsi (madt_value at.now.entry))) }
{
    let gsi = named_gsi(&at.entry)?;
    if has_number(spans, gsi) {
        return None;
    }
    Some(Witness {
        code: Code::GsiNowhere,
        at: at.offset,
        other: 0,
        point: u64::from(gsi),
    })
}

/// The fault of the first entry of a MADT that names a number which is in none of the spans.
#[inline(never)]
fn first_unserved(spans: &[Span], madt: &Table<'_>) -> Option<Witness>
    requires { DoRise spans.now }
    ensures { FindsUnknown (IsInSpans spans.now) named_gsi Code.GsiNowhere
        (madt_contents madt.now).entries result }
{
    let mut entries = madt.entries::<MadtEntry<'_>>();
    while let Some(at) = entries.next() {
        if let Some(fault) = own_fault(spans, &at) {
            return Some(fault);
        }
    }
    None
}

/// Whether an I/O APIC of a MADT serves each interrupt number that an override or an NMI source names (ACPI 6.5,
/// 5.2.12.3, 5.2.12.5 and 5.2.12.6), or the MADT has no I/O APIC. The MADT may have any entries, even two I/O APICs
/// that serve one number.
///
/// Refuses with `Fault` and the code `GsiNowhere`: `at` is the offset, in bytes from the table's start, of the first
/// entry that names a number that is not served; `other` is 0, and `point` is the number, of 32 bits.
///
/// Refuses with `OutOfMemory`: unless the first I/O APIC serves all of them and comes before these entries, it allocates
/// two spans for each I/O APIC. These are sorted and merged, and each number is looked up among them.
pub fn check_served(alloc: Global, policy: &Policy, madt: &Table<'_>) -> Result<(), Refusal>
    ensures { FindsFirst Stage.Served (AreNamedServed policy.now (madt_contents madt.now))
        (ServedFault policy.now (madt_contents madt.now)) result }
{
    // Makes the invariant of `Policy` available to the proof, and does nothing at run time: a policy gives each I/O
    // APIC at least one input, so each has a span.
    let _ = policy.rsdp();
    if does_first_serve(policy, madt) {
        return Ok(());
    }
    let mut spans = served_spans(alloc, policy, madt)?;
    if spans.is_empty() {
        return Ok(());
    }
    sort_unless_sorted(&mut spans)?;
    let merged = merged_spans(alloc, &spans)?;
    refuse(first_unserved(&merged, madt))
}
