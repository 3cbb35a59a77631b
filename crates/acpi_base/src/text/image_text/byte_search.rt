//! The first place of a byte, sought 64 bytes at a time.

ghost use Rattle.std.specs.Prelude.{◌≡◌, ◌+◌, ◌≤◌, ◌<◌, ◌≢◌, ◌==◌, ℕ, length, not, slice_index};
ghost use Rattle.std.specs.List.{prefix_len};
ghost use Rattle.std.specs.Simd.Lanes.{chunk};

use std::simd::prelude::*;

/// How many bytes the block of 64 from `at` on has before the first one that is `byte`; 64 if none is.
#[inline(always)]
fn index_in_block(text: &[u8], at: usize, byte: u8) -> usize
    requires { at + 64 ≤ length text.now }
    ensures { result ≡ prefix_len (λ x. not (x == byte)) (chunk at 64 text.now) }
{
    let found = u8x64::from_slice(&text[at..])
        .simd_eq(u8x64::splat(byte))
        .to_bitmask();
    if found == 0 {
        64
    } else {
        found.trailing_zeros() as usize
    }
}

/// The same as `first_index`, byte by byte.
fn index_in_rest(text: &[u8], byte: u8) -> usize
    ensures within { result ≤ length text.now }
    ensures before { (k : ℕ) → k < result → slice_index text.now k ≢ byte }
    ensures found { result < length text.now → slice_index text.now result ≡ byte }
{
    for (i, one) in text.iter().enumerate() {
        if *one == byte {
            return i;
        }
    }
    text.len()
}

/// The index of the first byte that is `byte`; the length if none is.
pub fn first_index(text: &[u8], byte: u8) -> usize
    ensures within { result ≤ length text.now }
    ensures before { (k : ℕ) → k < result → slice_index text.now k ≢ byte }
    ensures found { result < length text.now → slice_index text.now result ≡ byte }
{
    let blocks = text.len() / 64;
    for block in 0..blocks {
        let before = index_in_block(text, 64 * block, byte);
        if before < 64 {
            return 64 * block + before;
        }
    }
    64 * blocks + index_in_rest(&text[64 * blocks..], byte)
}
