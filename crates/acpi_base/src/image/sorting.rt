//! Sorting pieces by address. Millions of them are first partitioned at the middle of their addresses, again and again,
//! until the sort of each part stays in the processor's cache.

ghost use Rattle.std.specs.Prelude.{◌<◌, ◌≤◌, length, take, drop};
ghost use Rattle.std.specs.List.{All};
ghost use Rattle.std.specs.List.Sorted.{IsNonDecreasingBy, IsPermutation};

use super::span::Span;
use std::alloc::Global;

/// At most so many pieces are not partitioned further.
const FEW: usize = 65_536;

/// How often pieces are partitioned at most: if a few addresses are far from all others, that may split off few pieces.
const MOST_PARTITIONS: u32 = 12;

/// The middle between the lowest address and the highest one of some of the pieces.
fn middle(pieces: &[(u64, Span)]) -> u64 {
    let mut low = u64::MAX;
    let mut high = 0;
    for i in (0..pieces.len()).step_by(1024) {
        low = low.min(pieces[i].0);
        high = high.max(pieces[i].0);
    }
    low / 2 + high / 2
}

/// Puts the pieces whose address is at most `most` before the others, and returns how many they are.
fn partition(pieces: &mut [(u64, Span)], most: u64) -> usize
    ensures permutation { IsPermutation pieces.old pieces.new }
    ensures within { result ≤ length pieces.new }
    ensures low { All (λ p. p.0 ≤ most) (take result pieces.new) }
    ensures high { All (λ p. most < p.0) (drop result pieces.new) }
{
    let mut count = 0;
    for i in 0..pieces.len() {
        // Each piece changes places, so that the order of random addresses decides no branch.
        let piece = pieces[i];
        pieces[i] = pieces[count];
        pieces[count] = piece;
        count += (piece.0 <= most) as usize;
    }
    count
}

/// Sorts few pieces. If there is no memory for a buffer, it takes longer.
fn sort_few(alloc: Global, pieces: &mut [(u64, Span)])
    ensures permutation { IsPermutation pieces.old pieces.new }
    ensures sorted { IsNonDecreasingBy (λ p. p.0) pieces.new }
{
    match pieces.sort_by_key(alloc, |piece| piece.0) {
        Ok(()) => (),
        Err(_) => pieces.sort_unstable_by_key(|piece| piece.0),
    }
}

/// Sorts pieces, which are partitioned at most so many times.
fn sort_parts(alloc: Global, pieces: &mut [(u64, Span)], partitions: u32)
    ensures permutation { IsPermutation pieces.old pieces.new }
    ensures sorted { IsNonDecreasingBy (λ p. p.0) pieces.new }
{
    if partitions == 0 || pieces.len() <= FEW {
        return sort_few(alloc, pieces);
    }
    let most = middle(pieces);
    let count = partition(pieces, most);
    let (low, high) = pieces.split_at_mut(count);
    sort_parts(alloc, low, partitions - 1);
    sort_parts(alloc, high, partitions - 1);
}

/// Sorts the pieces by address. If there is no memory for buffers, it takes longer.
pub fn sort_by_address(pieces: &mut Vec<(u64, Span)>)
    ensures permutation { IsPermutation pieces.old.items pieces.new.items }
    ensures sorted { IsNonDecreasingBy (λ p. p.0) pieces.new.items }
{
    let alloc = *pieces.allocator();
    sort_parts(alloc, pieces, MOST_PARTITIONS);
}
