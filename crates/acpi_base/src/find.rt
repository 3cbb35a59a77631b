//! Finding the RSDP.

ghost use Rattle.std.specs.Prelude.{◌≡◌, ◌↔◌, ◌<◌, ◌≤◌, ℕ, IfSome, IsNone, IsTrue, MatchOption, Some, length};
ghost use Rattle.acpi_base.specs.Image.Runs.{AreBytesFrom};
ghost use Rattle.acpi_base.specs.Memory.{Memory};
ghost use Rattle.acpi_base.specs.RsdpSearch.{IsFound, IsNowhere, IsSearched, LooksLikeRsdp};

use crate::checksum::sum;
use crate::image::LentImage;

/// The first address that is searched.
const FIRST: u64 = 0xe0000;

/// The last one.
const LAST: u64 = 0xffff0;

/// The distance between two of them, in bytes.
const STEP: u64 = 16;

/// The lowest address, of the multiples of 16 from 0xE0000 to 0xFFFF0, at which 20 bytes are present, begin with
/// `RSD PTR ` and sum to 0 (ACPI 6.5, 5.2.5.1). Neither the revision nor anything after the 20 bytes is checked.
/// Addresses without a byte are stepped over. Allocates nothing.
pub fn find_rsdp(image: &LentImage<'_>) -> Option<u64>
    ensures found { IfSome result (IsFound image.now) }
    ensures none { IsNone result → IsNowhere image.now }
    ensures every { (p : ℕ) → IsFound image.now p → result ≡ Some p }
{
    let mut address = FIRST;
    // The bytes from the address on; none if these are yet to be looked up.
    let mut run: &[u8] = &[];
    while address <= LAST {
        let (next, bytes) = next_searched(image, address, run)?;
        if looks_like_rsdp(bytes) {
            return Some(next);
        }
        address = next + STEP;
        run = bytes.split_at(bytes.len().min(STEP as usize)).1;
    }
    None
}

/// The first address to search, from this one on, after those without a byte, and the bytes from there on. If bytes are
/// passed, they are those from the address on.
fn next_searched<'a>(
    image: &'a LentImage<'_>,
    address: u64,
    run: &'a [u8],
) -> Option<(u64, &'a [u8])>
    requires searched { IsSearched address }
    requires run { 0 < length run.now → AreBytesFrom image.now address run.now }
    ensures { MatchOption result
        ((a : ℕ) → address ≤ a → IsSearched a → ¬ LooksLikeRsdp image.now a)
        (λ next. IsSearched next.0 × (address ≤ next.0) × AreBytesFrom image.now next.0 next.1.now
        × ((a : ℕ) → address ≤ a → a < next.0 → IsSearched a → ¬ LooksLikeRsdp image.now a)) }
{
    if !run.is_empty() {
        return Some((address, run));
    }
    let first = image.first_from(address)?;
    if first > LAST {
        return None;
    }
    let next = (first + STEP - 1) / STEP * STEP;
    Some((next, image.bytes_from(next)))
}

/// Whether the bytes from an address on begin with what looks like an RSDP.
#[tactic(auto, unfolding(crate::specs::Signature::has_signature))]
fn looks_like_rsdp(run: &[u8]) -> bool
    ensures { (m : Memory) (a : ℕ) → AreBytesFrom m a run.now → IsTrue result ↔ LooksLikeRsdp m a }
{
    match run.get(..20) {
        Some(head) => head.starts_with(b"RSD PTR ") && sum(head) == 0,
        None => false,
    }
}
