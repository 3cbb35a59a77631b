//! Tests of the first overlap of spans, against a search by each number.

ghost use Rattle.std.specs.Prelude.{IsTrue};
ghost use Rattle.acpi_graph.specs.Spans.{NamesDiffer};

use acpi_graph::{Clash, Span, first_clash};
use std::alloc::{AllocError, Global};
use std::process::Abort;
use std::test::Fail;

/// Whether all ids differ: each is compared with all before it.
fn names_differ(spans: &[Span]) -> bool
    ensures { IsTrue result → NamesDiffer spans.now }
{
    for later in 0..spans.len() {
        for earlier in 0..later {
            if spans[earlier].name == spans[later].name {
                return false;
            }
        }
    }
    true
}

/// Whether each id is greater than the one before it, so that all differ.
fn names_rise(spans: &[Span]) -> bool
    ensures { IsTrue result → NamesDiffer spans.now }
{
    for later in 1..spans.len() {
        if spans[later].name <= spans[later - 1].name {
            return false;
        }
    }
    true
}

/// A start, an end and an id.
type Triple = (u128, u128, u32);

/// The spans of the triples that are a span.
fn spans_of(alloc: Global, triples: &[Triple]) -> Result<Vec<Span>, AllocError> {
    let mut spans = Vec::new(alloc);
    for triple in triples {
        if let Some(span) = Span::new(triple.0, triple.1, triple.2) {
            spans.push(span)?;
        }
    }
    Ok(spans)
}

fn clash_of(
    rt: &impl Abort,
    alloc: Global,
    triples: &[Triple],
) -> Result<(Clash, usize), AllocError> {
    let spans = spans_of(alloc, triples)?;
    assert!(rt; spans.len() == triples.len() && names_differ(&spans));
    first_clash(alloc, spans)
}

#[test]
fn a_span_has_a_number(rt: HostRuntime) -> Result<(), Fail> {
    let span = Span::new(5, 6, 7).ok_or("5 lies in it")?;
    assert!(rt; span.start == 5 && span.end == 6 && span.name == 7);
    assert!(rt; Span::new(5, 5, 7).is_none() && Span::new(6, 5, 7).is_none());
    Ok(())
}

/// An overlap of `first` and `second` at `point`.
fn at(first: u32, second: u32, point: u128) -> Clash {
    Clash::At {
        first,
        second,
        point,
    }
}

#[test]
fn first_clashes(rt: HostRuntime) -> Result<(), Fail> {
    let top = u128::MAX;
    let table: [(&[Triple], Clash, usize); 7] = [
        (&[], Clash::None, 0),
        (&[(3, 4, 1)], Clash::None, 0),
        (&[(0, 10, 1), (10, 20, 2), (19, 30, 3)], at(2, 3, 19), 2),
        (&[(5, 9, 4), (5, 6, 2), (5, 7, 3)], at(2, 3, 5), 1),
        (&[(20, 30, 3), (0, 10, 1), (10, 20, 2)], Clash::None, 2),
        (&[(0, 100, 9), (90, 91, 5), (40, 50, 7)], at(9, 7, 40), 1),
        (&[(top - 1, top, 1), (0, top, 2)], at(2, 1, top - 1), 1),
    ];
    for (triples, clash, comparisons) in table {
        let found = clash_of(&rt, rt.alloc(), triples)?;
        assert!(rt; found == (clash, comparisons), "{triples:?}");
    }
    Ok(())
}

/// The limit of the small spans.
const REACH: u8 = 5;

/// The first span by start and id that contains the number, other than the one with this id.
fn first_holder(spans: &[Span], number: u128, other_than: Option<u32>) -> Option<Span> {
    let mut first: Option<Span> = None;
    for span in spans {
        let holds = span.start <= number && number < span.end;
        let sooner = match first {
            None => true,
            Some(found) => (span.start, span.name) < (found.start, found.name),
        };
        if holds && sooner && other_than != Some(span.name) {
            first = Some(*span);
        }
    }
    first
}

/// The first overlap, searched for at each number in turn.
fn plain_clash(spans: &[Span]) -> Clash {
    for number in 0..REACH {
        let point = u128::from(number);
        if let Some(first) = first_holder(spans, point, None) {
            if let Some(second) = first_holder(spans, point, Some(first.name)) {
                return at(first.name, second.name, point);
            }
        }
    }
    Clash::None
}

fn judge(rt: &impl Abort, alloc: Global, triples: &[Triple]) -> Result<(), AllocError> {
    let expected = plain_clash(&spans_of(alloc, triples)?);
    let (clash, comparisons) = clash_of(rt, alloc, triples)?;
    assert!(rt;
        clash == expected && comparisons < triples.len(),
        "{triples:?}"
    );
    Ok(())
}

/// The start and the end of each span within the limit.
const RANGES: [(u128, u128); 15] = [
    (0, 1),
    (0, 2),
    (1, 2),
    (0, 3),
    (1, 3),
    (2, 3),
    (0, 4),
    (1, 4),
    (2, 4),
    (3, 4),
    (0, 5),
    (1, 5),
    (2, 5),
    (3, 5),
    (4, 5),
];

/// The orders of three ids.
const ORDERS: [(u32, u32, u32); 6] = [
    (1, 2, 3),
    (1, 3, 2),
    (2, 1, 3),
    (2, 3, 1),
    (3, 1, 2),
    (3, 2, 1),
];

/// Compares the results for the two ranges with each range as a third one, under each order of three ids.
fn judge_thirds(
    rt: &impl Abort,
    alloc: Global,
    first: (u128, u128),
    second: (u128, u128),
) -> Result<(), AllocError> {
    let (a, b) = first;
    let (c, d) = second;
    for &(e, f) in &RANGES {
        for &(x, y, z) in &ORDERS {
            judge(rt, alloc, &[(a, b, x), (c, d, y), (e, f, z)])?;
        }
    }
    Ok(())
}

#[test]
fn agrees_with_the_plain_search(rt: HostRuntime) -> Result<(), Fail> {
    let alloc = rt.alloc();
    for &(a, b) in &RANGES {
        judge(&rt, alloc, &[(a, b, 1)])?;
        for &(c, d) in &RANGES {
            judge(&rt, alloc, &[(a, b, 1), (c, d, 2)])?;
            judge(&rt, alloc, &[(a, b, 2), (c, d, 1)])?;
            judge_thirds(&rt, alloc, (a, b), (c, d))?;
        }
    }
    Ok(())
}

// It has no factor in common with 77,777 = 7 * 41 * 271, so each position comes once.
const PLACES: u32 = 200_000;

/// Touching spans of 16 numbers each. The ids rise from 0, and the span of each id is 77,777 positions after the one
/// before it, cyclically, so the starts are shuffled.
fn shuffled(alloc: Global) -> Result<Vec<Span>, AllocError> {
    let mut spans = Vec::new(alloc);
    for name in 0..PLACES {
        let place = u64::from(name).wrapping_mul(77_777) % u64::from(PLACES);
        let start = u128::from(place.wrapping_mul(16));
        if let Some(span) = Span::new(start, start.wrapping_add(16), name) {
            spans.push(span)?;
        }
    }
    Ok(spans)
}

/// This many shuffled spans, with one more of a higher id if it is given, and their first overlap.
fn shuffled_clash(
    rt: &impl Abort,
    alloc: Global,
    more: Option<Span>,
) -> Result<(usize, Clash, usize), AllocError> {
    let mut spans = shuffled(alloc)?;
    if let Some(span) = more {
        spans.push(span)?;
    }
    assert!(rt; names_rise(&spans));
    let count = spans.len();
    let (clash, comparisons) = first_clash(alloc, spans)?;
    Ok((count, clash, comparisons))
}

#[test]
fn many_shuffled_spans(rt: HostRuntime) -> Result<(), Fail> {
    let alloc = rt.alloc();
    let touching = shuffled_clash(&rt, alloc, None)?;
    assert!(rt; touching == (200_000, Clash::None, 199_999));

    // 150,000 * 77,777 modulo 200,000 is 150,000, so the span of that id is at that position, from 2,400,000 on. The
    // pairs up to it and the span within it are compared.
    let within = Span::new(2_400_007, 2_400_009, PLACES);
    let overlapping = shuffled_clash(&rt, alloc, within)?;
    assert!(rt; overlapping == (200_001, at(150_000, 200_000, 2_400_007), 150_001));
    Ok(())
}
