//! An image in the making: pieces in the order in which they came. Whether an address came twice is decided at the end.
//!
//! The store has all bytes in the order in which they came. If an address occurs twice among its first `n` bytes, one
//! occurs twice among more bytes too. So the first byte at fault is found by bisection.

ghost use Rattle.std.specs.Prelude.{◌≡◌, ◌⊎◌, ℕ, ◌+◌, ◌-◌, ◌^◌, ◌<◌, ◌≤◌, ◌++◌, min, true, length, Ok, Err, IfOk, IfErr, IsOk, OnOk, OnErr, MatchOption, MatchResult};
ghost use Rattle.std.specs.FinMap.{empty};
ghost use Rattle.std.specs.List.{AllByRecursion};
ghost use Rattle.std.specs.List.Sorted.{IsNonDecreasingBy, IsPermutation};
ghost use Rattle.acpi_base.specs.Memory.{Memory, IsImage};
ghost use Rattle.acpi_base.specs.Image.Adding.{IsLayoutRefusal, added};
ghost use Rattle.acpi_base.specs.Image.Draft.{AreDrafted, ComesTwice, EndsAt, IsFirstTwice, IsOnceBefore, all_added, holder_count};
ghost use Rattle.acpi_base.specs.Image.Pieces.{AreSortedDisjoint, LiesBefore, runs_in};
ghost use Rattle.acpi_base.specs.Image.Runs.{memory_of};
ghost use Rattle.acpi_base.specs.Image.Segments.{AreSegmentsApart, IsValid, memory_in};
ghost use Rattle.acpi_base.specs.Text.ImageText.{on_ok};

use super::parts::Parts;
use super::segments::Segments;
use super::sorting::sort_by_address;
use super::span::Span;
use super::{Image, ImageFault, LentImage};
use std::alloc::{AllocError, Global};
use std::marker::Model;

/// Appends the bytes of a piece.
fn append(store: &mut Vec<u8>, bytes: &[u8]) -> Result<(), AllocError>
    ensures ok { OnOk result (store.new.items ≡ store.old.items ++ bytes.now) }
    ensures err { OnErr result (store.new.items ≡ store.old.items) }
{
    // A copy of one byte takes several times as long as a `push`.
    if bytes.len() == 1 {
        store.push(bytes[0])?;
        return Ok(());
    }
    store.extend_from_slice(bytes)
}

/// How many of the piece's bytes are among the first `count` of the store.
fn present_before(span: Span, count: usize) -> usize
    ensures { result ≡ min span.len (count - span.start) }
{
    span.len.min(count.saturating_sub(span.start))
}

/// An address that occurs twice among the first `count` bytes of the store. The pieces are sorted by address.
fn twice_before(pieces: &[(u64, Span)], count: usize) -> Option<u64>
    requires sorted { IsNonDecreasingBy (λ p. p.0) pieces.now }
    requires fits { AllByRecursion (λ p. p.0 + p.1.len ≤ 2 ^ 64) pieces.now }
    ensures { MatchOption result (IsOnceBefore pieces.now count) (ComesTwice pieces.now count) }
{
    // The end of the last piece so far, which may be 2^64.
    let mut end: u128 = 0;
    for i in 0..pieces.len() {
        let (first, span) = pieces[i];
        let present = present_before(span, count);
        if present == 0 {
            continue;
        }
        if u128::from(first) < end {
            return Some(first);
        }
        end = u128::from(first) + present as u128;
    }
    None
}

/// The first address that came twice. The pieces are sorted by address, and have the first `count` bytes of a store.
fn first_twice(pieces: &[(u64, Span)], count: usize) -> Option<u64>
    requires sorted { IsNonDecreasingBy (λ p. p.0) pieces.now }
    requires fits { AllByRecursion (λ p. p.0 + p.1.len ≤ 2 ^ 64) pieces.now }
    ensures { MatchOption result (IsOnceBefore pieces.now count) (IsFirstTwice pieces.now) }
{
    let mut found = twice_before(pieces, count)?;
    let mut once = 0;
    let mut twice = count;
    while twice - once > 1 {
        let middle = once + (twice - once) / 2;
        match twice_before(pieces, middle) {
            Some(address) => {
                found = address;
                twice = middle;
            }
            None => once = middle,
        }
    }
    Some(found)
}

/// Whether the pieces came in the order of their addresses, with at least one address without a byte between each two,
/// as those of firmware do.
fn are_apart(pieces: &[(u64, Span)]) -> bool
    requires { AllByRecursion (λ p. 0 < p.1.len) pieces.now }
    ensures { result ≡ true → AreSegmentsApart pieces.now }
{
    // Where the next piece begins; after the last one a number above all ends.
    let mut next: u128 = 1 << 65;
    for i in (0..pieces.len()).rev() {
        let (first, span) = pieces[i];
        if next <= u128::from(first) + span.len as u128 {
            return false;
        }
        next = u128::from(first);
    }
    true
}

/// The first address that came twice. The pieces are passed in the order in which they came, and are sorted by address.
fn judge(store: &[u8], pieces: &mut Vec<(u64, Span)>) -> Option<u64>
    requires { AreDrafted store.now pieces.old.items }
    ensures permutation { IsPermutation pieces.old.items pieces.new.items }
    ensures sorted { IsNonDecreasingBy (λ p. p.0) pieces.new.items }
    ensures judged { MatchOption result ((x : ℕ) → holder_count pieces.old.items x < 2)
        (λ address. all_added empty (runs_in store.now pieces.old.items) ≡ Err address) }
{
    sort_by_address(pieces);
    first_twice(pieces, store.len())
}

/// The segments of pieces that are apart, whose bytes stay where they are.
fn adopt(
    alloc: Global,
    store: Vec<u8>,
    mut pieces: Vec<(u64, Span)>,
) -> Result<Segments, AllocError>
    requires draft { AreDrafted store.items pieces.items }
    requires apart { AreSegmentsApart pieces.items }
    ensures valid { IfOk result IsValid }
    ensures same { IfOk result
        (λ segments. all_added empty (runs_in store.items pieces.items) ≡ Ok (memory_in segments)) }
{
    match pieces.pop() {
        Some((base, span)) => Segments::of(alloc, store, pieces, base, span.start),
        None => Ok(Segments::new(alloc)),
    }
}

/// The bytes of pieces in the order of the pieces. These then say where their bytes are among them.
fn put_in_order(
    alloc: Global,
    store: &[u8],
    pieces: &mut Vec<(u64, Span)>,
) -> Result<Vec<u8>, AllocError>
    requires lies { AllByRecursion (LiesBefore (length store.now)) pieces.old.items }
    requires apart { AreSegmentsApart pieces.old.items }
    ensures draft { IfOk result (λ ordered. AreDrafted ordered.items pieces.new.items) }
    ensures apart { OnOk result (AreSegmentsApart pieces.new.items) }
    ensures same { IfOk result
        (λ ordered. runs_in ordered.items pieces.new.items ≡ runs_in store.now pieces.old.items) }
{
    let mut ordered = Vec::with_capacity(alloc, store.len())?;
    for i in 0..pieces.len() {
        let piece = &mut pieces[i];
        let span = piece.1;
        piece.1.start = ordered.len();
        append(&mut ordered, span.bytes(store))?;
    }
    Ok(ordered)
}

/// The segments of sorted pieces: if they are apart, the list of pieces becomes that of the segments.
fn segments_of(
    alloc: Global,
    store: &[u8],
    mut pieces: Vec<(u64, Span)>,
) -> Result<Segments, AllocError>
    requires rising { AreSortedDisjoint pieces.items }
    requires lies { AllByRecursion (LiesBefore (length store.now)) pieces.items }
    ensures valid { IfOk result IsValid }
    ensures same { IfOk result
        (λ segments. memory_in segments ≡ memory_of (runs_in store.now pieces.items)) }
{
    if are_apart(&pieces) {
        let ordered = put_in_order(alloc, store, &mut pieces)?;
        return adopt(alloc, ordered, pieces);
    }
    let mut segments = Segments::with_capacity(alloc, store.len())?;
    segments.take_all(store, &pieces)?;
    Ok(segments)
}

/// The segments of pieces that came in any order.
fn lay_out(
    alloc: Global,
    store: &[u8],
    mut pieces: Vec<(u64, Span)>,
) -> Result<Segments, ImageFault>
    requires { AreDrafted store.now pieces.items }
    ensures same { MatchResult result
        (λ segments. all_added empty (runs_in store.now pieces.items) ≡ Ok (memory_in segments))
        (IsLayoutRefusal (all_added empty (runs_in store.now pieces.items))) }
    ensures valid { IfOk result IsValid }
{
    if let Some(address) = judge(store, &mut pieces) {
        return Err(ImageFault::Twice { address });
    }
    Ok(segments_of(alloc, store, pieces)?)
}

/// Whether bytes from `base` on follow the piece that came last.
fn follows(pieces: &[(u64, Span)], base: u64) -> bool
    ensures { result ≡ true → EndsAt pieces.now base }
{
    match pieces.last() {
        Some((first, span)) => *first <= base && base - *first == span.len as u64,
        None => false,
    }
}

/// Appends bytes to the piece that came last.
fn extend(
    store: &mut Vec<u8>,
    pieces: &mut Vec<(u64, Span)>,
    bytes: &[u8],
) -> Result<(), AllocError>
    requires draft { AreDrafted store.old.items pieces.old.items }
    requires end { (base : ℕ) × EndsAt pieces.old.items base × (base + length bytes.now ≤ 2 ^ 64) }
    ensures draft { AreDrafted store.new.items pieces.new.items }
    ensures ok { OnOk result ((base : ℕ) → EndsAt pieces.old.items base
        → all_added empty (runs_in store.new.items pieces.new.items)
        ≡ on_ok (all_added empty (runs_in store.old.items pieces.old.items))
        (λ m. added m base bytes.now)) }
    ensures err { OnErr result (all_added empty (runs_in store.new.items pieces.new.items)
        ≡ all_added empty (runs_in store.old.items pieces.old.items)) }
{
    append(store, bytes)?;
    let last = pieces.len() - 1;
    pieces[last].1.len += bytes.len();
    Ok(())
}

/// Appends a piece.
fn open(
    store: &mut Vec<u8>,
    pieces: &mut Vec<(u64, Span)>,
    base: u64,
    bytes: &[u8],
) -> Result<(), AllocError>
    requires draft { AreDrafted store.old.items pieces.old.items }
    requires some { 0 < length bytes.now }
    requires fits { base + length bytes.now ≤ 2 ^ 64 }
    ensures draft { AreDrafted store.new.items pieces.new.items }
    ensures ok { OnOk result (all_added empty (runs_in store.new.items pieces.new.items)
        ≡ on_ok (all_added empty (runs_in store.old.items pieces.old.items))
        (λ m. added m base bytes.now)) }
    ensures err { OnErr result (all_added empty (runs_in store.new.items pieces.new.items)
        ≡ all_added empty (runs_in store.old.items pieces.old.items)) }
{
    let span = Span {
        start: store.len(),
        len: bytes.len(),
    };
    pieces.push((base, span))?;
    if let Err(error) = append(store, bytes) {
        pieces.pop();
        return Err(error);
    }
    Ok(())
}

/// An image in the making, to which pieces are added in any order. `first_twice` and `finish` say whether an address
/// came twice. Contracts see the bytes of the pieces, or the first address that came twice. The time grows with the
/// number of bytes, and with n log n for n pieces.
#[derive(Drop)]
pub struct DraftImage {
    store: Vec<u8>,
    pieces: Vec<(u64, Span)>,
    alloc: Global,
}

impl Model for DraftImage {
    ghost use Rattle.std.specs.Prelude.{ℕ, Result};
    ghost use Rattle.std.specs.Coded.{coded_ℕ, coded_result};
    ghost use Rattle.std.specs.FinMap.{code, empty};
    ghost use Rattle.acpi_base.specs.Memory.{Memory};

    ghost Value = { Result Memory ℕ };

    ghost coded = { coded_result (code coded_ℕ coded_ℕ) coded_ℕ };

    ghost use Rattle.acpi_base.specs.Image.Draft.{AreDrafted, all_added};
    ghost use Rattle.acpi_base.specs.Image.Pieces.{runs_in};

    ghost view = { λ draft. all_added empty (runs_in draft.store.items draft.pieces.items) };

    ghost invariant = { λ draft. AreDrafted draft.store.items draft.pieces.items };
}

impl DraftImage {
    /// No pieces. Takes no memory.
    pub fn new(alloc: Global) -> DraftImage
        ensures { result ≡ Ok empty }
    {
        DraftImage {
            store: Vec::new(alloc),
            pieces: Vec::new(alloc),
            alloc,
        }
    }

    /// Adds the bytes, which take the addresses from `base` on, even if an address has a byte already.
    ///
    /// Refuses, in this order, and then leaves the pieces as they were: `PastEnd`, if the last byte would be past the
    /// address 2^64 - 1; `Memory`. Adding no bytes always returns `Ok`, and takes no memory.
    pub fn add(&mut self, base: u64, bytes: &[u8]) -> Result<(), ImageFault>
        ensures fits { OnOk result (base + length bytes.now ≤ 2 ^ 64) }
        ensures ok { OnOk result (self.new ≡ on_ok self.old (λ m. added m base bytes.now)) }
        ensures err { OnErr result (self.new ≡ self.old) }
        ensures refused { IfErr result
            (λ fault. ((fault ≡ ImageFault.Memory) × (base + length bytes.now ≤ 2 ^ 64))
            ⊎ ((fault ≡ ImageFault.PastEnd) × (2 ^ 64 < base + length bytes.now))) }
        ensures nothing { length bytes.now ≡ 0 → IsOk result }
    {
        if bytes.is_empty() {
            return Ok(());
        }
        let count = bytes.len() as u64;
        // The end itself may be 2^64, which is no number of 64 bits.
        if count - 1 > u64::MAX - base {
            return Err(ImageFault::PastEnd);
        }
        if follows(&self.pieces, base) {
            extend(&mut self.store, &mut self.pieces, bytes)?;
        } else {
            open(&mut self.store, &mut self.pieces, base, bytes)?;
        }
        Ok(())
    }

    /// The first address that came twice: the lowest one that the first overlapping piece shares with those before it.
    /// Needs no memory.
    pub fn first_twice(self) -> Option<u64>
        ensures { MatchOption result ((m : Memory) × (self ≡ Ok m))
            (λ address. self ≡ Err address) }
    {
        let DraftImage {
            store,
            mut pieces,
            ..
        } = self;
        judge(&store, &mut pieces)
    }

    /// The same for a draft to which more is added. The list of pieces is copied, unless they came in the order of
    /// their addresses.
    pub fn first_twice_so_far(&self) -> Result<Option<u64>, AllocError>
        ensures { IfOk result (λ found. MatchOption found ((m : Memory) × (self.now ≡ Ok m))
            (λ address. self.now ≡ Err address)) }
    {
        if are_apart(&self.pieces) {
            return Ok(None);
        }
        let mut pieces = Vec::from_slice(self.alloc, &self.pieces)?;
        Ok(judge(&self.store, &mut pieces))
    }

    /// The image of all pieces. Refuses `Twice`, with the first address that came twice, and `Memory`.
    pub fn finish(self) -> Result<Image, ImageFault>
        ensures same { MatchResult result (λ image. self ≡ Ok image)
            (IsLayoutRefusal self) }
        ensures image { IfOk result IsImage }
    {
        let DraftImage {
            store,
            pieces,
            alloc,
        } = self;
        let segments = if are_apart(&pieces) {
            adopt(alloc, store, pieces)?
        } else {
            lay_out(alloc, &store, pieces)?
        };
        Ok(LentImage {
            parts: Parts::of(alloc, segments),
            alloc,
        })
    }
}
