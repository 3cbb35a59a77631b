//! The segments of an image: its bytes in the order of their addresses, found by binary search.
//!
//! There is an address without a byte between two segments. All bytes are in one store. The last segment is open: it
//! has the store's bytes from `start` on, so bytes that follow it are appended. If it is empty, none is open.

ghost use Rattle.std.specs.Prelude.{◌≡◌, ◌+◌, ◌-◌, ◌^◌, ◌<◌, ◌≤◌, ℕ, None, IfSome, IsSome, OnOk, OnErr, IfOk, MatchOption, length, take, drop, true};
ghost use Rattle.std.specs.Option.{option_map, option_or};
ghost use Rattle.std.specs.List.{AllByRecursion};
ghost use Rattle.std.specs.FinMap.{empty};
ghost use Rattle.acpi_base.specs.Memory.{run_of, least_defined, with_bytes, byte_of};
ghost use Rattle.acpi_base.specs.Number.{byte_sum};
ghost use Rattle.acpi_base.specs.Image.Runs.{lookup};
ghost use Rattle.acpi_base.specs.Image.Pieces.{LiesBefore, AreSortedDisjoint, end_at, memory_in_store, run_in, runs_in};
ghost use Rattle.acpi_base.specs.Image.Segments.{AreSegments, IsGap, IsPartitionPoint, IsRest, IsRunAt, IsValid, end_in, memory_in, runs_of};

use super::prefix_sums::PrefixSums;
use super::span::Span;
use std::alloc::{AllocError, Global};

/// The bytes of an image.
#[derive(Debug, Drop)]
pub struct Segments {
    store: PrefixSums,
    ended: Vec<(u64, Span)>,
    base: u64,
    start: usize,
}

impl Segments {
    /// No bytes. Takes no memory.
    pub fn new(alloc: Global) -> Segments
        ensures valid { IsValid result }
        ensures nothing { memory_in result ≡ empty }
        ensures end { end_in result ≡ 0 }
    {
        Segments {
            store: PrefixSums::new(alloc),
            ended: Vec::new(alloc),
            base: 0,
            start: 0,
        }
    }

    /// No bytes, and memory for this many.
    pub fn with_capacity(alloc: Global, count: usize) -> Result<Segments, AllocError>
        ensures valid { IfOk result IsValid }
        ensures nothing { IfOk result (λ segments. memory_in segments ≡ empty) }
        ensures end { IfOk result (λ segments. end_in segments ≡ 0) }
    {
        Ok(Segments {
            store: PrefixSums::with_capacity(alloc, count)?,
            ended: Vec::new(alloc),
            base: 0,
            start: 0,
        })
    }

    /// Segments whose bytes are in a store already, the last of them open.
    pub fn of(
        alloc: Global,
        store: Vec<u8>,
        ended: Vec<(u64, Span)>,
        base: u64,
        start: usize,
    ) -> Result<Segments, AllocError>
        requires { AreSegments store.items ended.items base start }
        ensures valid { IfOk result IsValid }
        ensures same { IfOk result
            (λ segments. memory_in segments ≡ memory_in_store store.items ended.items base start) }
    {
        Ok(Segments {
            store: PrefixSums::of(alloc, store)?,
            ended,
            base,
            start,
        })
    }

    /// How many of the ended segments begin at the address or before it.
    fn place(&self, address: u64) -> usize
        requires { IsValid self.now }
        ensures within { result ≤ length self.now.ended.items }
        ensures place { IsPartitionPoint self.now.ended.items address result }
    {
        self.ended.partition_point(|piece| piece.0 <= address)
    }

    fn open(&self) -> &[u8]
        requires { IsValid self.now }
        ensures { result.now ≡ drop self.now.start self.now.store }
    {
        &self.store.bytes()[self.start..]
    }

    /// The last segment that begins at an address or before it: its base, and the span of its bytes.
    fn piece_reaching(&self, address: u64) -> Option<(u64, Span)>
        requires { IsValid self.now }
        ensures reached { MatchOption result (lookup (runs_of self.now) address ≡ None)
            (λ piece. IsRunAt (runs_of self.now) address (run_in self.now.store piece)) }
        ensures lies { IfSome result
            (λ piece. piece.1.start + piece.1.len ≤ length self.now.store) }
        ensures small { length self.now.store < 2 ^ 64 }
    {
        let count = self.store.len();
        if self.base <= address && self.start < count {
            let span = Span {
                start: self.start,
                len: count - self.start,
            };
            return Some((self.base, span));
        }
        let place = self.place(address);
        if place == 0 {
            return None;
        }
        Some(self.ended[place - 1])
    }

    /// Where the bytes from an address on are, up to the next address without a byte. None if that is the address
    /// itself.
    fn span_from(&self, address: u64) -> Span
        requires { IsValid self.now }
        ensures lies { result.start + result.len ≤ length self.now.store }
        ensures rest { IsRest (runs_of self.now) address
            (take result.len (drop result.start self.now.store)) }
    {
        let Some((base, span)) = self.piece_reaching(address) else {
            return Span { start: 0, len: 0 };
        };
        let skipped = (address - base).min(span.len as u64) as usize;
        Span {
            start: span.start + skipped,
            len: span.len - skipped,
        }
    }

    /// The bytes from an address on, up to the next address without a byte. None if that is the address itself.
    pub fn rest_from(&self, address: u64) -> &[u8]
        requires { IsValid self.now }
        ensures { IsRest (runs_of self.now) address result.now }
    {
        self.span_from(address).bytes(self.store.bytes())
    }

    /// The span of the bytes at this many addresses, if one segment has them all.
    fn window_span(&self, address: u64, count: u64) -> Option<Span>
        requires { IsValid self.now }
        ensures bytes { option_map (λ span. take span.len (drop span.start self.now.store))
            result ≡ run_of (lookup (runs_of self.now)) address count }
        ensures count { IfSome result (λ span. span.len ≡ count) }
        ensures lies { IfSome result (λ span. span.start + span.len ≤ length self.now.store) }
    {
        let span = self.span_from(address);
        if count > span.len as u64 {
            return None;
        }
        Some(Span {
            start: span.start,
            len: count as usize,
        })
    }

    /// The sum of the bytes at this many addresses, if one segment has them all.
    pub fn window_sum(&self, address: u64, count: u64) -> Option<u8>
        requires { IsValid self.now }
        ensures { result ≡ option_map byte_sum (run_of (lookup (runs_of self.now)) address count) }
    {
        let span = self.window_span(address, count)?;
        Some(self.store.sum(span))
    }

    /// Whether all bytes come before an address that comes before this one. Unlike a search this takes constant time.
    pub fn end_before(&self, address: u64) -> bool
        requires { IsValid self.now }
        ensures { result ≡ true → (x : ℕ) → address ≤ x + 1 → lookup (runs_of self.now) x ≡ None }
    {
        let count = self.store.len();
        count == 0 || self.base < address && address - self.base > (count - self.start) as u64
    }

    /// The lowest base of a segment after an address without a byte.
    fn next_base(&self, address: u64) -> Option<u64>
        requires valid { IsValid self.now }
        requires free { lookup (runs_of self.now) address ≡ None }
        ensures none { result ≡ None → (x : ℕ) → address ≤ x → lookup (runs_of self.now) x ≡ None }
        ensures some { IfSome result
            (λ base. (address < base) × IsSome (lookup (runs_of self.now) base)
            × IsGap (runs_of self.now) address base) }
    {
        let place = self.place(address);
        if place < self.ended.len() {
            return Some(self.ended[place].0);
        }
        if address < self.base && self.start < self.store.len() {
            return Some(self.base);
        }
        None
    }

    /// The lowest address with a byte, from an address on.
    pub fn first_from(&self, address: u64) -> Option<u64>
        requires { IsValid self.now }
        ensures none { result ≡ None → (x : ℕ) → address ≤ x → lookup (runs_of self.now) x ≡ None }
        ensures some { IfSome result
            (λ first. (address ≤ first) × IsSome (lookup (runs_of self.now) first)
            × IsGap (runs_of self.now) address first) }
    {
        if !self.rest_from(address).is_empty() {
            return Some(address);
        }
        self.next_base(address)
    }

    /// Ends the open segment, unless bytes from `base` on follow it.
    fn begin(&mut self, base: u64) -> Result<(), AllocError>
        requires valid { IsValid self.old }
        requires behind { end_in self.old ≤ base }
        ensures valid { IsValid self.new }
        ensures same { memory_in self.new ≡ memory_in self.old }
        ensures at { OnOk result (base ≡ end_in self.new) }
    {
        let open = self.store.len() - self.start;
        if open == 0 {
            self.base = base;
            return Ok(());
        }
        if base - self.base == open as u64 {
            return Ok(());
        }
        let span = Span {
            start: self.start,
            len: open,
        };
        self.ended.push((self.base, span))?;
        self.base = base;
        self.start += open;
        Ok(())
    }

    /// Appends bytes at addresses after all others.
    pub fn take(&mut self, base: u64, bytes: &[u8]) -> Result<(), AllocError>
        requires valid { IsValid self.old }
        requires behind { end_in self.old ≤ base }
        requires fits { base + length bytes.now ≤ 2 ^ 64 }
        ensures valid { IsValid self.new }
        ensures ok { OnOk result
            (memory_in self.new ≡ with_bytes (memory_in self.old) base bytes.now) }
        ensures err { OnErr result (memory_in self.new ≡ memory_in self.old) }
        ensures end { OnOk result (end_in self.new ≡ base + length bytes.now) }
    {
        self.begin(base)?;
        self.store.extend(bytes)?;
        Ok(())
    }

    /// Appends the bytes of pieces in another store, which are sorted by address.
    pub fn take_all(&mut self, store: &[u8], pieces: &[(u64, Span)]) -> Result<(), AllocError>
        requires valid { IsValid self.old }
        requires rising { AreSortedDisjoint pieces.now }
        requires lies { AllByRecursion (LiesBefore (length store.now)) pieces.now }
        requires behind { AllByRecursion (λ p. end_in self.old ≤ p.0) pieces.now }
        ensures valid { OnOk result (IsValid self.new) }
        ensures whole { OnOk result
            ((x : ℕ) → byte_of (memory_in self.new) x ≡ option_or (byte_of (memory_in self.old) x)
            (lookup (runs_in store.now pieces.now) x)) }
        ensures end { OnOk result ((a : ℕ) → end_in self.old ≤ a
            → AllByRecursion (λ p. end_at p ≤ a) pieces.now → end_in self.new ≤ a) }
    {
        for piece in pieces {
            self.take(piece.0, piece.1.bytes(store))?;
        }
        Ok(())
    }

    /// These bytes and more, which come before the open segment and overlap nothing.
    fn with(&self, alloc: Global, base: u64, bytes: &[u8]) -> Result<Segments, AllocError>
        requires valid { IsValid self.now }
        requires before { base < self.now.base }
        requires some { 0 < length bytes.now }
        requires fits { base + length bytes.now ≤ 2 ^ 64 }
        requires free { IsGap (runs_of self.now) base (base + length bytes.now) }
        ensures valid { IfOk result IsValid }
        ensures ok { IfOk result
            (λ all. memory_in all ≡ with_bytes (memory_in self.now) base bytes.now) }
    {
        let (low, high) = self.ended.split_at(self.place(base));
        let store = self.store.bytes();
        let mut all = Segments::with_capacity(alloc, store.len() + bytes.len())?;
        all.take_all(store, low)?;
        all.take(base, bytes)?;
        all.take_all(store, high)?;
        if self.start < store.len() {
            all.take(self.base, self.open())?;
        }
        Ok(all)
    }

    /// Adds bytes at free addresses. After all others they are appended; otherwise the segments are laid out anew,
    /// which copies all bytes.
    pub fn put(&mut self, alloc: Global, base: u64, bytes: &[u8]) -> Result<(), AllocError>
        requires valid { IsValid self.old }
        requires some { 0 < length bytes.now }
        requires fits { base + length bytes.now ≤ 2 ^ 64 }
        requires free { IsGap (runs_of self.old) base (base + length bytes.now) }
        ensures valid { IsValid self.new }
        ensures ok { OnOk result
            (memory_in self.new ≡ with_bytes (memory_in self.old) base bytes.now) }
        ensures err { OnErr result (memory_in self.new ≡ memory_in self.old) }
    {
        if base >= self.base {
            return self.take(base, bytes);
        }
        *self = self.with(alloc, base, bytes)?;
        Ok(())
    }
}
