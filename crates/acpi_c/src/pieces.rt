//! Images that are passed as pieces.

ghost use Rattle.std.specs.Prelude.{◌≡◌, ◌⊎◌, ◌<◌, Err, IfErr, IfOk, IfSome, IsOkUnless, MatchOption, None, Ok, OnOk, drop, false, length};
ghost use Rattle.std.specs.FinMap.{empty};
ghost use Rattle.std.specs.List.Sorted.{IsPermutation};
ghost use Rattle.acpi_base.specs.Image.Adding.{add_refusal};
ghost use Rattle.acpi_base.specs.Memory.{with_bytes};
ghost use Rattle.acpi_c.specs.AddedPieces.{RefusesFirst, Stands, has_address, second_with};
ghost use Rattle.acpi_c.specs.Pieces.{FirstFits, with_pieces};
ghost use Rattle.acpi_c.specs.Sources.{Reads, pieces_source};

use crate::refusal::Refusal;
use acpi_base::{DraftImage, Image, ImageFault, LentImage};
use std::alloc::{AllocError, Global};

/// Bytes of an image, and where they are. They are mostly not copied, so they must not change while they are read.
#[repr(C)]
#[derive(Clone, Copy)]
pub struct Piece<'a> {
    /// The address of the first byte.
    pub address: u64,
    /// The bytes: for C a pointer, and then their number.
    pub bytes: &'a [u8],
}

/// From how many bytes on a piece is long. Where one is, whoever lists it often has its bytes summed often.
const LONG: usize = 4096;

/// How many bytes the pieces have if one of them is long, or 2^64 - 1 if they have more; 0 if none is long.
pub fn long_bytes(pieces: &[Piece<'_>]) -> u64 {
    let mut total: u64 = 0;
    let mut longest = 0;
    for piece in pieces {
        total = total.saturating_add(piece.bytes.len() as u64);
        longest = longest.max(piece.bytes.len());
    }
    if longest < LONG { 0 } else { total }
}

/// Whether the piece has a byte at the address.
fn has(piece: &Piece<'_>, address: u64) -> bool
    ensures { result ≡ has_address piece.now address }
{
    piece.address <= address && address - piece.address < piece.bytes.len() as u64
}

/// The index of the second piece that has a byte at the address.
fn second_with(pieces: &[Piece<'_>], address: u64) -> usize
    ensures { result ≡ second_with false 0 pieces.now address }
{
    let mut seen = false;
    for (index, piece) in pieces.iter().enumerate() {
        if has(piece, address) {
            if seen {
                return index;
            }
            seen = true;
        }
    }
    pieces.len()
}

/// The refusal of pieces of which one repeats this address first: the second one that has it.
fn overlap(pieces: &[Piece<'_>], address: u64) -> Refusal
    ensures { result ≡ Refusal.PiecesOverlap (second_with false 0 pieces.now address) address }
{
    Refusal::PiecesOverlap {
        index: second_with(pieces, address) as u64,
        address,
    }
}

/// Adds the pieces in their order, even if they overlap. Stops at the first one that is refused: its index, and why.
fn add_pieces(draft: &mut DraftImage, pieces: &[Piece<'_>]) -> Result<(), (usize, ImageFault)>
    requires { draft.old ≡ Ok empty }
    ensures ok { OnOk result
        (Stands pieces.now (length pieces.now) draft.new × FirstFits pieces.now) }
    ensures err { IfErr result (λ refused. Stands pieces.now refused.0 draft.new
        × RefusesFirst (drop refused.0 pieces.now) refused.1
        × ((refused.0 ≡ 0) ⊎ FirstFits pieces.now)) }
{
    for (index, piece) in pieces.iter().enumerate() {
        if let Err(fault) = draft.add(piece.address, piece.bytes) {
            return Err((index, fault));
        }
    }
    Ok(())
}

/// The image of a copy of the pieces' bytes. Refuses as `image_of_pieces` does.
fn image_by_copying(alloc: Global, pieces: &[Piece<'_>]) -> Result<Image, Refusal>
    ensures { Reads (pieces_source pieces.now) result }
{
    let mut draft = DraftImage::new(alloc);
    if let Err((index, fault)) = add_pieces(&mut draft, pieces) {
        // A piece before it may repeat an address.
        if let Some(address) = draft.first_twice() {
            return Err(overlap(pieces, address));
        }
        return Err(Refusal::of_piece(index as u64, fault));
    }
    match draft.finish() {
        Ok(image) => Ok(image),
        Err(ImageFault::Twice { address }) => Err(overlap(pieces, address)),
        Err(_) => Err(Refusal::OutOfMemory),
    }
}

/// Whether the piece at the index ends before an address that comes before the next piece. Pieces in the order of their
/// addresses touch no other one if this holds for each of them.
fn ends_apart(pieces: &[Piece<'_>], index: usize) -> bool
    requires { index < length pieces.now }
{
    let piece = &pieces[index];
    match pieces.get(index + 1) {
        Some(next) => {
            piece.address < next.address && next.address - piece.address > piece.bytes.len() as u64
        }
        None => true,
    }
}

/// Whether the pieces come in the order of their addresses and none touches another, as those of most callers do.
fn are_apart(pieces: &[Piece<'_>]) -> bool {
    for index in 0..pieces.len() {
        if !ends_apart(pieces, index) {
            return false;
        }
    }
    true
}

/// Adds a piece, lent or copied.
fn put<'a>(image: &mut LentImage<'a>, piece: &Piece<'a>, lent: bool) -> Result<(), ImageFault>
    ensures refused { MatchOption (add_refusal image.old piece.now.address piece.now.bytes.now)
        (IsOkUnless result ImageFault.Memory) (λ fault. result ≡ Err fault) }
    ensures ok { OnOk result ((add_refusal image.old piece.now.address piece.now.bytes.now ≡ None)
        × (image.new ≡ with_bytes image.old piece.now.address piece.now.bytes.now)) }
{
    if lent {
        image.lend(piece.address, piece.bytes)
    } else {
        image.add(piece.address, piece.bytes)
    }
}

/// The image of pieces in the order of their addresses, of which those are lent that touch no other one. Refuses as
/// `image_of_pieces` does.
fn image_in_order<'a>(alloc: Global, pieces: &[Piece<'a>]) -> Result<LentImage<'a>, Refusal>
    ensures { Reads (pieces_source pieces.now) result }
{
    let mut image = LentImage::new(alloc);
    for (index, piece) in pieces.iter().enumerate() {
        if let Err(fault) = put(&mut image, piece, ends_apart(pieces, index)) {
            return Err(Refusal::of_piece(index as u64, fault));
        }
    }
    Ok(image)
}

/// Whether each piece begins behind the one before it.
fn are_rising(pieces: &[Piece<'_>]) -> bool {
    pieces.is_sorted_by_key(|piece| piece.address)
}

/// The pieces in the order of their addresses.
fn sorted<'a>(alloc: Global, pieces: &[Piece<'a>]) -> Result<Vec<Piece<'a>>, AllocError>
    ensures { IfOk result (λ sorted. IsPermutation pieces.now sorted.items) }
{
    let mut sorted = Vec::from_slice(alloc, pieces)?;
    sorted.sort_unstable_by_key(|piece| piece.address);
    Ok(sorted)
}

/// The image of pieces in any order, of which those are lent that touch no other one. None if one cannot be added, or
/// memory runs out.
fn image_by_lending<'a>(alloc: Global, pieces: &[Piece<'a>]) -> Option<LentImage<'a>>
    ensures { IfSome result (λ image. with_pieces 0 empty pieces.now ≡ Ok image) }
{
    if are_rising(pieces) {
        return image_in_order(alloc, pieces).ok();
    }
    let Ok(sorted) = sorted(alloc, pieces) else {
        return None;
    };
    image_in_order(alloc, &sorted).ok()
}

/// The image that the pieces give.
///
/// Refuses, for the first piece that cannot be added to those before it, in this order: `PiecePastEnd` if it passes
/// the address 2^64 - 1; `PiecesOverlap` if it shares addresses with those before it, with the lowest of them;
/// `OutOfMemory`. A piece without bytes is always added.
pub fn image_of_pieces<'a>(alloc: Global, pieces: &[Piece<'a>]) -> Result<LentImage<'a>, Refusal>
    ensures { Reads (pieces_source pieces.now) result }
{
    if are_apart(pieces) {
        return image_in_order(alloc, pieces);
    }
    if long_bytes(pieces) > 0
        && let Some(image) = image_by_lending(alloc, pieces)
    {
        return Ok(image);
    }
    // Of pieces that cannot all be added, this says which one comes first.
    image_by_copying(alloc, pieces)
}
