//! Sets of numbers that are not large, such as offsets of a table, as bits.

ghost use Rattle.std.specs.Prelude.{◌≡◌, ◌<◌, ◌↔◌, ℕ, Contains, IfOk, OnErr, OnOk, MatchBool, vec_len, slice_index, true, false};
ghost use Rattle.acpi_check.specs.BitSets.{IsIn, Adds};

use std::alloc::{AllocError, Global};

/// How many numbers a word represents.
const WORD: u64 = 64;

/// Numbers, as a bit for each number up to the largest of them, or up to twice as many: for offsets of a table, a bit
/// for each of its bytes. Looking one up takes constant time.
#[derive(Drop)]
pub struct BitSet {
    /// The number `n` is the bit `n % 64` of the word `n / 64`.
    words: Vec<u64>,
}

/// Extends the words past an index, if they end before it: to twice as many as are needed, since more mostly follow.
fn make_room(words: &mut Vec<u64>, place: usize) -> Result<(), AllocError>
    requires { place < usize.MAX }
    ensures room { OnOk result (place < vec_len words.new) }
    ensures same { (i : ℕ) → slice_index words.new.items i ≡ slice_index words.old.items i }
{
    if words.len() <= place {
        words.resize(place.saturating_mul(2).saturating_add(1), 0)?;
    }
    Ok(())
}

impl BitSet {
    /// The empty set. Allocates nothing.
    pub(crate) fn new(alloc: Global) -> BitSet
        ensures { (n : ℕ) → ¬ IsIn result n }
    {
        BitSet {
            words: Vec::new(alloc),
        }
    }

    /// The set of these numbers.
    ///
    /// Refuses with `AllocError` if out of memory: it allocates a byte for each 8 numbers up to the largest of them, or
    /// twice as many.
    pub fn of(alloc: Global, numbers: &[u64]) -> Result<BitSet, AllocError>
        ensures { IfOk result (λ set. (n : ℕ) → IsIn set n ↔ Contains numbers.now n) }
    {
        let mut set = BitSet::new(alloc);
        for number in numbers {
            set.add(*number)?;
        }
        Ok(set)
    }

    /// Adds a number.
    ///
    /// Refuses with `AllocError` if out of memory, and then the set is the same as before: if none above it was added
    /// before, it allocates a byte for each 8 numbers up to it, or twice as many.
    pub fn add(&mut self, number: u64) -> Result<(), AllocError>
        ensures ok { OnOk result (Adds true number self.old self.new) }
        ensures err { OnErr result (Adds false number self.old self.new) }
    {
        let place = (number / WORD) as usize;
        make_room(&mut self.words, place)?;
        self.words[place] |= 1 << (number % WORD);
        Ok(())
    }

    /// Whether a number is in the set.
    pub fn has(&self, number: u64) -> bool
        ensures { MatchBool result (IsIn self.now number) (¬ IsIn self.now number) }
    {
        let place = (number / WORD) as usize;
        place < self.words.len() && self.words[place] >> (number % WORD) & 1 == 1
    }
}
