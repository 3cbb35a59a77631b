//! Bytes with running sums, which give the sum of any part of them in constant time.

ghost use Rattle.std.specs.Prelude.{◌≡◌, ◌+◌, ◌*◌, ◌/◌, ◌≤◌, ◌++◌, ℕ, List, [], OnOk, OnErr, IfOk, length, take, drop};
ghost use Rattle.acpi_base.specs.Number.{byte_sum};
ghost use Rattle.acpi_base.specs.Image.Sums.{AreSums, HasAllSums};

use super::span::Span;
use crate::checksum::sum;
use std::alloc::{AllocError, Global};
use std::marker::Model;

/// How many bytes there are between two running sums.
const DISTANCE: usize = 128;

/// The sum of this many first blocks of `DISTANCE` bytes.
#[tactic(auto, using(crate::proofs::Images::Sums::no_sum))]
fn sum_of_blocks(sums: &[u8], count: usize) -> u8
    requires { count ≤ length sums.now }
    ensures { (bytes : List ℕ) → AreSums sums.now bytes
        → result ≡ byte_sum (take (128 * count) bytes) }
{
    if count == 0 { 0 } else { sums[count - 1] }
}

/// Appends the running sums that are missing.
#[tactic(auto, using(crate::proofs::Images::Sums::sum_next, crate::proofs::Images::Sums::sums_pushed))]
pub fn add_sums(sums: &mut Vec<u8>, bytes: &[u8]) -> Result<(), AllocError>
    requires each { AreSums sums.old.items bytes.now }
    requires within { length sums.old.items ≤ length bytes.now / 128 }
    ensures each { AreSums sums.new.items bytes.now }
    ensures more { length sums.old.items ≤ length sums.new.items }
    ensures all { OnOk result (length sums.new.items ≡ length bytes.now / 128) }
{
    let count = sums.len();
    let mut total = sum_of_blocks(sums, count);
    for block in count..bytes.len() / DISTANCE {
        let start = block * DISTANCE;
        total = total.wrapping_add(sum(&bytes[start..start + DISTANCE]));
        sums.push(total)?;
    }
    Ok(())
}

/// The sum of this many first bytes.
#[tactic(auto, using(crate::proofs::Images::Sums::sum_to))]
fn sum_before(bytes: &[u8], sums: &[u8], end: usize) -> u8
    requires sums { HasAllSums sums.now bytes.now }
    requires within { end ≤ length bytes.now }
    ensures { result ≡ byte_sum (take end bytes.now) }
{
    let blocks = end / DISTANCE;
    sum_of_blocks(sums, blocks).wrapping_add(sum(&bytes[blocks * DISTANCE..end]))
}

/// The sum of a span's bytes, modulo 256. However many there are, fewer than 256 are read.
#[tactic(auto, using(crate::proofs::Images::Sums::sum_between))]
pub fn sum_of_span(bytes: &[u8], sums: &[u8], span: Span) -> u8
    requires sums { HasAllSums sums.now bytes.now }
    requires within { span.start + span.len ≤ length bytes.now }
    ensures { result ≡ byte_sum (take span.len (drop span.start bytes.now)) }
{
    let behind = sum_before(bytes, sums, span.start + span.len);
    behind.wrapping_sub(sum_before(bytes, sums, span.start))
}

/// Bytes to which more are appended. Contracts see the bytes.
#[derive(Debug, Drop)]
pub struct PrefixSums {
    bytes: Vec<u8>,
    /// The sums of the first 128 bytes, the first 256 and so on, modulo 256.
    sums: Vec<u8>,
}

impl Model for PrefixSums {
    ghost use Rattle.std.specs.Prelude.{ℕ, List};
    ghost use Rattle.acpi_base.specs.Image.Sums.{HasAllSums};

    ghost Value = { List ℕ };

    ghost view = { λ sums. sums.bytes.items };

    ghost invariant = { λ sums. HasAllSums sums.sums.items sums.bytes.items };
}

impl PrefixSums {
    /// No bytes. Takes no memory.
    pub fn new(alloc: Global) -> PrefixSums
        ensures { result ≡ [] }
    {
        PrefixSums {
            bytes: Vec::new(alloc),
            sums: Vec::new(alloc),
        }
    }

    /// No bytes, and memory for this many.
    pub fn with_capacity(alloc: Global, count: usize) -> Result<PrefixSums, AllocError>
        ensures { IfOk result (λ sums. sums ≡ []) }
    {
        Ok(PrefixSums {
            bytes: Vec::with_capacity(alloc, count)?,
            sums: Vec::with_capacity(alloc, count / DISTANCE)?,
        })
    }

    /// These bytes, which are summed once.
    pub fn of(alloc: Global, bytes: Vec<u8>) -> Result<PrefixSums, AllocError>
        ensures { IfOk result (λ sums. sums ≡ bytes.items) }
    {
        let mut sums = Vec::with_capacity(alloc, bytes.len() / DISTANCE)?;
        add_sums(&mut sums, &bytes)?;
        Ok(PrefixSums { bytes, sums })
    }

    /// How many they are.
    pub fn len(&self) -> usize
        ensures { result ≡ length self.now }
    {
        self.bytes.len()
    }

    /// All of them.
    pub fn bytes(&self) -> &[u8]
        ensures { result.now ≡ self.now }
    {
        &self.bytes
    }

    /// Appends bytes, and sums each of them once.
    #[tactic(auto, using(crate::proofs::Images::Sums::sums_kept, crate::proofs::Images::Sums::sums_cut))]
    pub fn extend(&mut self, more: &[u8]) -> Result<(), AllocError>
        ensures ok { OnOk result (self.new ≡ self.old ++ more.now) }
        ensures err { OnErr result (self.new ≡ self.old) }
    {
        let count = self.bytes.len();
        self.bytes.extend_from_slice(more)?;
        if add_sums(&mut self.sums, &self.bytes).is_err() {
            self.bytes.truncate(count);
            self.sums.truncate(count / DISTANCE);
            return Err(AllocError);
        }
        Ok(())
    }

    /// The sum of a span's bytes, modulo 256. However many there are, fewer than 256 are read.
    pub fn sum(&self, span: Span) -> u8
        requires { span.start + span.len ≤ length self.now }
        ensures { result ≡ byte_sum (take span.len (drop span.start self.now)) }
    {
        sum_of_span(&self.bytes, &self.sums, span)
    }
}
