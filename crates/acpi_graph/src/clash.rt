//! The first overlap of spans.

ghost use Rattle.std.specs.Prelude.{◌≡◌, ◌+◌, ◌-◌, ◌<◌, ◌≤◌, ◌↔◌, IsTrue, IsOk, IfOk, AllPairs, length, vec_len};
ghost use Rattle.acpi_graph.specs.Spans.{NamesDiffer, IsClear, ComesBefore, IfAt, IsFirstClash};

use crate::sorting::sort_unless_sorted;
use crate::span::Span;
use std::alloc::{AllocError, Global};

/// Whether two spans of a list overlap.
#[derive(Clone, Copy, Debug, PartialEq, Eq, Hash)]
pub enum Clash {
    /// No number is in two spans.
    None,
    /// `point` is the lowest number that is in two spans. `first` and `second` are the ids of the first two spans
    /// that contain it, by start and then by id.
    At {
        first: u32,
        second: u32,
        point: u128,
    },
}

/// The first overlap of the spans, which is at the lowest number that is in two of them, and how many neighbours were
/// compared to find it.
///
/// The spans have different ids (`name`); their order does not matter. It sorts them once by start and id,
/// unless they are in that order, and makes at most n - 1 comparisons for n spans. Refuses if out of memory: the sort
/// of more than 20 spans that are not in that order needs a buffer, which the allocator of the vector gives; `alloc` is
/// not used.
pub fn first_clash(alloc: Global, mut spans: Vec<Span>) -> Result<(Clash, usize), AllocError>
    requires { NamesDiffer spans.items }
    ensures few { vec_len spans ≤ 20 → IsOk result }
    ensures in_order { AllPairs ComesBefore spans.items → IsOk result }
    ensures none { IfOk result (λ found. (found.0 ≡ Clash.None) ↔ IsClear spans.items) }
    ensures first { IfOk result (λ found. IfAt found.0 (IsFirstClash spans.items)) }
    ensures comparisons { IfOk result (λ found. found.1 ≤ vec_len spans - 1) }
{
    sort_unless_sorted(&mut spans)?;
    Ok(first_overlap(&spans))
}

/// The first span that overlaps the next, and how many neighbours were compared.
///
/// All spans before it end at or before the start of the next one, and so at or before the start of each that
/// follows: no lower number is in two spans.
fn first_overlap(spans: &[Span]) -> (Clash, usize)
    requires names { NamesDiffer spans.now }
    requires order { AllPairs ComesBefore spans.now }
    ensures none { result.0 ≡ Clash.None → IsClear spans.now }
    ensures first { IfAt result.0 (IsFirstClash spans.now) }
    ensures comparisons { result.1 ≤ length spans.now - 1 }
{
    let mut comparisons = 0;
    for next in 1..spans.len() {
        let before = &spans[next - 1];
        let after = &spans[next];
        if overlaps(before, after, &mut comparisons) {
            let found = Clash::At {
                first: before.name,
                second: after.name,
                point: after.start,
            };
            return (found, comparisons);
        }
    }
    (Clash::None, comparisons)
}

/// Whether a span overlaps the next one: it contains the start of that one. Each comparison of neighbours is made
/// here, and counted.
fn overlaps(span: &Span, next: &Span, comparisons: &mut usize) -> bool
    requires { comparisons.old < usize.MAX }
    ensures overlap { IsTrue result ↔ (next.now.start < span.now.end) }
    ensures counted { comparisons.new ≡ comparisons.old + 1 }
{
    *comparisons += 1;
    next.start < span.end
}
