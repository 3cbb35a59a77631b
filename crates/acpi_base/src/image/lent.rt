//! Bytes that an image borrows, and searches of them.

ghost use Rattle.std.specs.Prelude.{◌≡◌, ◌⊎◌, ◌+◌, ◌/◌, ◌<◌, ◌≤◌, ℕ, None, IfSome, IsSome, MatchOption, length, take, drop, true};
ghost use Rattle.std.specs.List.{AllByRecursion};
ghost use Rattle.std.specs.Option.{option_map};
ghost use Rattle.acpi_base.specs.Memory.{run_of};
ghost use Rattle.acpi_base.specs.Number.{byte_sum};
ghost use Rattle.acpi_base.specs.Image.Lent.{AreLent, IsPlaceOf};
ghost use Rattle.acpi_base.specs.Image.Runs.{end_of, lookup, run_at};
ghost use Rattle.acpi_base.specs.Image.Segments.{IsGap, IsRest, IsRunAt};

use super::prefix_sums::{add_sums, sum_of_span};
use super::span::Span;
use crate::checksum::sum;
use std::alloc::{AllocError, Global};
use std::marker::Model;

/// Bytes that are lent, and the address of the first. Contracts see a run.
#[derive(Debug, Drop)]
pub struct LentRun<'a> {
    base: u64,
    bytes: &'a [u8],
    /// The running sums of the bytes, or none.
    sums: Vec<u8>,
}

impl<'a> Model for LentRun<'a> {
    ghost use Rattle.std.specs.Prelude.{◌≡◌, ◌⊎◌, length};
    ghost use Rattle.acpi_base.specs.Image.Runs.{Run, run_at};
    ghost use Rattle.acpi_base.specs.Image.Sums.{HasAllSums};

    ghost Value = { Run };

    ghost view = { λ run. run_at run.base run.bytes.now };

    ghost invariant = { λ run. (length run.sums.items ≡ 0) ⊎ HasAllSums run.sums.items run.bytes.now };
}

impl<'a> LentRun<'a> {
    /// Bytes from an address on, without running sums. Takes no memory.
    pub fn new(alloc: Global, base: u64, bytes: &'a [u8]) -> LentRun<'a>
        ensures { result ≡ run_at base bytes.now }
    {
        LentRun {
            base,
            bytes,
            sums: Vec::new(alloc),
        }
    }

    /// The address of the first byte.
    pub fn base(&self) -> u64
        ensures { result ≡ self.now.base }
    {
        self.base
    }

    /// All of the bytes.
    pub fn bytes(&self) -> &[u8]
        ensures { result.now ≡ self.now.bytes }
    {
        self.bytes
    }

    /// Makes the running sums, which reads each byte once.
    pub fn add_sums(&mut self, alloc: Global) -> Result<(), AllocError>
        ensures { self.new ≡ self.old }
    {
        let mut sums = Vec::new(alloc);
        add_sums(&mut sums, self.bytes)?;
        self.sums = sums;
        Ok(())
    }

    /// The sum of a span's bytes, modulo 256.
    pub fn sum(&self, span: Span) -> u8
        requires { span.start + span.len ≤ length self.now.bytes }
        ensures { result ≡ byte_sum (take span.len (drop span.start self.now.bytes)) }
    {
        if self.sums.is_empty() {
            return sum(span.bytes(self.bytes));
        }
        sum_of_span(self.bytes, &self.sums, span)
    }
}

/// How many of the runs begin at the address or before it.
fn place(runs: &[LentRun<'_>], address: u64) -> usize
    requires { AreLent runs.now }
    ensures within { result ≤ length runs.now }
    ensures place { IsPlaceOf runs.now address result }
{
    runs.partition_point(|run| run.base() <= address)
}

/// The last run that begins at an address or before it.
fn reaching<'r, 'a>(runs: &'r [LentRun<'a>], address: u64) -> Option<&'r LentRun<'a>>
    requires { AreLent runs.now }
    ensures { MatchOption result (lookup runs.now address ≡ None)
        (λ run. IsRunAt runs.now address run.now) }
{
    let place = place(runs, address);
    if place == 0 {
        return None;
    }
    Some(&runs[place - 1])
}

/// The bytes from an address on, up to the next address without a byte. None if that is the address itself.
pub fn rest_from<'r>(runs: &'r [LentRun<'_>], address: u64) -> &'r [u8]
    requires { AreLent runs.now }
    ensures { IsRest runs.now address result.now }
{
    let Some(run) = reaching(runs, address) else {
        return &[];
    };
    let bytes = run.bytes();
    let skipped = (address - run.base()).min(bytes.len() as u64) as usize;
    &bytes[skipped..]
}

/// The sum of the bytes at this many addresses, if one run has them all.
pub fn window_sum(runs: &[LentRun<'_>], address: u64, count: u64) -> Option<u8>
    requires { AreLent runs.now }
    ensures { result ≡ option_map byte_sum (run_of (lookup runs.now) address count) }
{
    if count == 0 {
        return Some(0);
    }
    let run = reaching(runs, address)?;
    let skipped = address - run.base();
    if u128::from(skipped) + u128::from(count) > run.bytes().len() as u128 {
        return None;
    }
    let span = Span {
        start: skipped as usize,
        len: count as usize,
    };
    Some(run.sum(span))
}

/// The lowest address with a byte, from an address on.
pub fn first_from(runs: &[LentRun<'_>], address: u64) -> Option<u64>
    requires { AreLent runs.now }
    ensures none { result ≡ None → (x : ℕ) → address ≤ x → lookup runs.now x ≡ None }
    ensures some { IfSome result
        (λ first. (address ≤ first) × IsSome (lookup runs.now first) × IsGap runs.now address first) }
{
    if !rest_from(runs, address).is_empty() {
        return Some(address);
    }
    let next = runs.get(place(runs, address))?;
    Some(next.base())
}

/// Whether all runs end before an address that comes before this one.
pub fn end_before(runs: &[LentRun<'_>], address: u64) -> bool
    requires { AreLent runs.now }
    ensures { result ≡ true → AllByRecursion (λ run. end_of run < address) runs.now }
{
    let count = runs.len();
    if count == 0 {
        return true;
    }
    let last = &runs[count - 1];
    let base = last.base();
    // The end itself may be 2^64, which is no number of 64 bits.
    base < address && address - base > last.bytes().len() as u64
}
