//! The parts of an image: the segments, whose bytes it has itself, and the runs that it borrows. A run of bytes is all in
//! one of them, since no two parts touch.

ghost use Rattle.std.specs.Prelude.{◌≡◌, ◌+◌, ◌^◌, ◌<◌, ◌≤◌, ℕ, None, IfOk, IfSome, IsSome, OnErr, OnOk, length, true};
ghost use Rattle.std.specs.Option.{option_map};
ghost use Rattle.std.specs.List.{AllByRecursion};
ghost use Rattle.acpi_base.specs.Memory.{least_defined, run_of, with_bytes};
ghost use Rattle.acpi_base.specs.Number.{byte_sum};
ghost use Rattle.acpi_base.specs.Image.Lent.{AreParts, memory_of_parts, runs_of_parts, lower};
ghost use Rattle.acpi_base.specs.Image.Runs.{end_of, lookup};
ghost use Rattle.acpi_base.specs.Image.Segments.{IsGap, IsRest, IsValid, memory_in, runs_of};

use super::lent::{self, LentRun};
use super::segments::Segments;
use std::alloc::{AllocError, Global};

/// The bytes of an image.
#[derive(Debug, Drop)]
pub struct Parts<'a> {
    own: Segments,
    lent: Vec<LentRun<'a>>,
}

/// The lower one of two addresses, either of which may be absent.
fn lower_of(one: Option<u64>, other: Option<u64>) -> Option<u64>
    ensures { result ≡ lower one other }
{
    match (one, other) {
        (Some(first), Some(second)) => Some(first.min(second)),
        (Some(first), None) => Some(first),
        (None, second) => second,
    }
}

impl<'a> Parts<'a> {
    /// Segments alone. Takes no memory.
    pub fn of(alloc: Global, own: Segments) -> Parts<'a>
        requires { IsValid own }
        ensures valid { AreParts result }
        ensures same { memory_of_parts result ≡ memory_in own }
    {
        Parts {
            own,
            lent: Vec::new(alloc),
        }
    }

    /// The bytes from an address on, up to the next address without a byte. None if that is the address itself.
    pub fn rest_from(&self, address: u64) -> &[u8]
        requires { AreParts self.now }
        ensures { IsRest (runs_of_parts self.now) address result.now }
    {
        let own = self.own.rest_from(address);
        if own.is_empty() {
            return lent::rest_from(&self.lent, address);
        }
        own
    }

    /// The byte at an address.
    pub fn byte_at(&self, address: u64) -> Option<u8>
        requires { AreParts self.now }
        ensures { result ≡ lookup (runs_of_parts self.now) address }
    {
        self.rest_from(address).first().copied()
    }

    /// The bytes at this many addresses, if all are present.
    pub fn window(&self, address: u64, count: u64) -> Option<&[u8]>
        requires { AreParts self.now }
        ensures bytes { option_map (λ bytes. bytes.now) result
            ≡ run_of (lookup (runs_of_parts self.now)) address count }
        ensures count { IfSome result (λ bytes. length bytes.now ≡ count) }
    {
        let rest = self.rest_from(address);
        if count > rest.len() as u64 {
            return None;
        }
        Some(&rest[..count as usize])
    }

    /// The sum of the bytes at this many addresses, if all are present.
    pub fn window_sum(&self, address: u64, count: u64) -> Option<u8>
        requires { AreParts self.now }
        ensures { result
            ≡ option_map byte_sum (run_of (lookup (runs_of_parts self.now)) address count) }
    {
        match self.own.window_sum(address, count) {
            Some(sum) => Some(sum),
            None => lent::window_sum(&self.lent, address, count),
        }
    }

    /// The lowest address with a byte, from an address on.
    pub fn first_from(&self, address: u64) -> Option<u64>
        requires { AreParts self.now }
        ensures none { result ≡ None → (x : ℕ) → address ≤ x
            → lookup (runs_of_parts self.now) x ≡ None }
        ensures some { IfSome result
            (λ first. (address ≤ first) × IsSome (lookup (runs_of_parts self.now) first)
            × IsGap (runs_of_parts self.now) address first) }
    {
        lower_of(
            self.own.first_from(address),
            lent::first_from(&self.lent, address),
        )
    }

    /// Whether all bytes come before an address that comes before this one. Unlike a search this takes constant time.
    pub fn end_before(&self, address: u64) -> bool
        requires { AreParts self.now }
        ensures lent { result ≡ true
            → AllByRecursion (λ run. end_of run < address) self.now.lent.items }
        ensures own { result ≡ true
            → (x : ℕ) → address ≤ x + 1 → lookup (runs_of self.now.own) x ≡ None }
    {
        lent::end_before(&self.lent, address) && self.own.end_before(address)
    }

    /// The lowest of this many addresses that has a byte.
    #[tactic(auto, using(crate::proofs::Images::Searches::first_in_gap))]
    pub fn first_present(&self, base: u64, count: u64) -> Option<u64>
        requires valid { AreParts self.now }
        requires some { 0 < count }
        ensures { result ≡ least_defined (lookup (runs_of_parts self.now)) base count }
    {
        let first = self.first_from(base)?;
        if first - base < count {
            Some(first)
        } else {
            None
        }
    }

    /// All bytes as segments, which copies them.
    fn copied(&self, alloc: Global) -> Result<Segments, AllocError>
        requires { AreParts self.now }
        ensures valid { IfOk result IsValid }
        ensures same { IfOk result (λ all. memory_in all ≡ memory_of_parts self.now) }
    {
        let mut all = Segments::new(alloc);
        let mut from = 0;
        while let Some(base) = self.first_from(from) {
            let bytes = self.rest_from(base);
            all.take(base, bytes)?;
            // Bytes that end at 2^64 are the last.
            let Some(end) = base.checked_add(bytes.len() as u64) else {
                break;
            };
            from = end;
        }
        Ok(all)
    }

    /// Copies all bytes, so that none is lent any more, unless each lent run ends before an address that comes before this
    /// one.
    fn own_from(&mut self, alloc: Global, address: u64) -> Result<(), AllocError>
        requires { AreParts self.old }
        ensures valid { AreParts self.new }
        ensures same { memory_of_parts self.new ≡ memory_of_parts self.old }
        ensures below { OnOk result
            (AllByRecursion (λ run. end_of run < address) self.new.lent.items) }
    {
        if lent::end_before(&self.lent, address) {
            return Ok(());
        }
        self.own = self.copied(alloc)?;
        self.lent.clear();
        Ok(())
    }

    /// Adds a copy of bytes at free addresses. If a lent run comes after them or touches them, all bytes are copied, so that
    /// none is lent any more.
    pub fn put(&mut self, alloc: Global, base: u64, bytes: &[u8]) -> Result<(), AllocError>
        requires valid { AreParts self.old }
        requires some { 0 < length bytes.now }
        requires fits { base + length bytes.now ≤ 2 ^ 64 }
        requires free { IsGap (runs_of_parts self.old) base (base + length bytes.now) }
        ensures valid { AreParts self.new }
        ensures ok { OnOk result
            (memory_of_parts self.new ≡ with_bytes (memory_of_parts self.old) base bytes.now) }
        ensures err { OnErr result (memory_of_parts self.new ≡ memory_of_parts self.old) }
    {
        self.own_from(alloc, base)?;
        self.own.put(alloc, base, bytes)?;
        Ok(())
    }

    /// Adds bytes at free addresses. They are borrowed if they come after all others and touch none of them; otherwise
    /// they are copied.
    pub fn lend(&mut self, alloc: Global, base: u64, bytes: &'a [u8]) -> Result<(), AllocError>
        requires valid { AreParts self.old }
        requires some { 0 < length bytes.now }
        requires fits { base + length bytes.now ≤ 2 ^ 64 }
        requires free { IsGap (runs_of_parts self.old) base (base + length bytes.now) }
        ensures valid { AreParts self.new }
        ensures ok { OnOk result
            (memory_of_parts self.new ≡ with_bytes (memory_of_parts self.old) base bytes.now) }
        ensures err { OnErr result (memory_of_parts self.new ≡ memory_of_parts self.old) }
    {
        if !self.end_before(base) {
            return self.put(alloc, base, bytes);
        }
        self.lent.push(LentRun::new(alloc, base, bytes))?;
        Ok(())
    }

    /// Makes the running sums of the lent runs, which reads each of their bytes once.
    pub fn add_sums(&mut self, alloc: Global) -> Result<(), AllocError>
        requires { AreParts self.old }
        ensures valid { AreParts self.new }
        ensures same { memory_of_parts self.new ≡ memory_of_parts self.old }
    {
        for index in 0..self.lent.len() {
            self.lent[index].add_sums(alloc)?;
        }
        Ok(())
    }
}
