//! Stage 10: the addresses that the SRAT's enabled ranges cover.

ghost use Rattle.std.specs.Prelude.{◌≡◌, ◌<◌, ◌^◌, IfOk, IfSome, option_map};
ghost use Rattle.acpi_base.specs.Srat as said;
ghost use Rattle.acpi_base.specs.Srat.{srat_contents, Covers, AreRangesApart, IsFirstOverlap};
ghost use Rattle.acpi_base.specs.declared.code.Code.{Code};
ghost use Rattle.acpi_base.specs.declared.stage.Stage.{Stage};
ghost use Rattle.acpi_read.specs.Srats.{srat_value};
ghost use Rattle.acpi_check.specs.TableResults.{Finds, IsOverlap};
ghost use Rattle.acpi_check.specs.RangeSpans.{span_value, covered_span, earlier_clash, AreSpansOf, BeginLow, HasLowPoint, IsOverlapResult, IsRangesResult, counts, IsOfKind};

use crate::collecting::collected;
use crate::range_kind::RangeKind;
use crate::refusal::Refusal;
use acpi_base::{Code, HotPlug, Witness};
use acpi_graph::{Clash, Span, first_clash};
use acpi_read::{EntryAt, SratEntry, Table, is_enabled};
use std::alloc::{AllocError, Global};

/// Whether a range with these flags is hot-pluggable.
#[tactic(auto, unfolding(acpi_base::specs::Number::has_bit))]
fn is_hot_pluggable(flags: u32) -> bool
    ensures { result ≡ said.is_hot_pluggable flags }
{
    flags >> 1 & 1 == 1
}

/// The addresses that an enabled range of the kind covers, as a span with the entry's offset as its id. None for
/// another entry, and for a range of no bytes.
fn covered_span(kind: RangeKind, at: &EntryAt<SratEntry<'_>>) -> Option<Span>
    requires { at.now.offset < 2 ^ 32 }
    ensures span { option_map span_value result ≡ covered_span (counts kind) at.now.offset
        (srat_value at.now.entry) }
    ensures low { IfSome result (λ span. span.start < 2 ^ 64) }
{
    let SratEntry::MemoryRange(range) = &at.entry else {
        return None;
    };
    let is_of_kind = match kind {
        RangeKind::Any => true,
        RangeKind::HotPluggable => is_hot_pluggable(range.flags),
        RangeKind::NotHotPluggable => !is_hot_pluggable(range.flags),
    };
    if !is_enabled(range.flags) || !is_of_kind {
        return None;
    }
    let start = u128::from(range.base);
    let end = start + u128::from(range.size);
    Span::new(start, end, at.offset as u32)
}

/// The addresses that each enabled range of the kind covers, in the entries' order.
fn covered_spans(alloc: Global, kind: RangeKind, srat: &Table<'_>) -> Result<Vec<Span>, AllocError>
    ensures spans { IfOk result
        (λ spans. AreSpansOf (Covers (IsOfKind kind) (srat_contents srat.now)) spans.items) }
    ensures low { IfOk result (λ spans. BeginLow spans.items) }
{
    collected(
        alloc,
        srat.entries::<SratEntry<'_>>(),
        |at| covered_span(kind, at),
    )
}

/// The lowest address that two enabled ranges of the kind cover, and the first two that cover it.
#[tactic(auto, using(crate::proofs::Spans::Clashes::is_found, crate::proofs::Spans::Clashes::low_point))]
fn first_of_kind(alloc: Global, kind: RangeKind, srat: &Table<'_>) -> Result<Clash, AllocError>
    ensures found { IfOk result
        (IsOverlapResult (Covers (IsOfKind kind) (srat_contents srat.now))) }
    ensures low { IfOk result HasLowPoint }
{
    let spans = covered_spans(alloc, kind, srat)?;
    let (clash, _) = first_clash(alloc, spans)?;
    Ok(clash)
}

/// The overlap with the lower point; if both have one point, the one of ranges that are not hot-pluggable.
fn earlier(other: Clash, hot: Clash) -> Clash
    ensures { result ≡ earlier_clash other hot }
{
    match (other, hot) {
        (Clash::None, _) => hot,
        (
            Clash::At { point, .. },
            Clash::At {
                point: hot_point,
                ..
            },
        ) if hot_point < point => hot,
        _ => other,
    }
}

/// The overlap of an SRAT's enabled ranges that is reported, if there is one. Either any two are compared, or only
/// two that are both hot-pluggable or both not.
#[tactic(auto, using(crate::proofs::Spans::CoveredSpans::counted, crate::proofs::Spans::CoveredSpans::apart))]
fn first_overlap(alloc: Global, hotplug: HotPlug, srat: &Table<'_>) -> Result<Clash, AllocError>
    ensures found { IfOk result (IsRangesResult hotplug (srat_contents srat.now)) }
    ensures low { IfOk result HasLowPoint }
{
    match hotplug {
        HotPlug::Counted => first_of_kind(alloc, RangeKind::Any, srat),
        HotPlug::Apart => {
            let other = first_of_kind(alloc, RangeKind::NotHotPluggable, srat)?;
            let hot = first_of_kind(alloc, RangeKind::HotPluggable, srat)?;
            Ok(earlier(other, hot))
        }
    }
}

/// Whether no address is covered by two enabled ranges of an SRAT that are compared (ACPI 6.5, 5.2.16.2): any two if
/// hot-pluggable ranges are counted, otherwise two that are both hot-pluggable or both not. A range of no bytes
/// covers none. The SRAT may have any entries, even ranges that pass 2^64.
///
/// Refuses with `Fault` and the code `Overlap` if two cover one address: `point` is the lowest such address, of 64
/// bits; `at` and `other` are the offsets, in bytes from the table's start, of the first two that cover it, by base
/// and then by offset. If they are compared by kind, both are of one kind; if both kinds have the same lowest
/// address, those that are not hot-pluggable are named. Refuses with `OutOfMemory`: it allocates a span for each
/// range that is compared.
pub fn check_ranges(alloc: Global, hotplug: HotPlug, srat: &Table<'_>) -> Result<(), Refusal>
    ensures { Finds Stage.Ranges (AreRangesApart hotplug (srat_contents srat.now))
        (IsOverlap Code.Overlap (IsFirstOverlap hotplug (srat_contents srat.now))) result }
{
    match first_overlap(alloc, hotplug, srat)? {
        Clash::None => Ok(()),
        Clash::At {
            first,
            second,
            point,
        } => Err(Refusal::Fault(Witness {
            code: Code::Overlap,
            at: u64::from(first),
            other: u64::from(second),
            point: point as u64,
        })),
    }
}
