//! Notes of where entries of a PPTT begin, so that a look-up does not walk from the first entry on.
//!
//! The table's bytes are divided into blocks of one size. One walk over all entries notes where the first one of each
//! block begins, in one byte. A look-up of an entry starts at the note of its block, so it walks over at most one
//! block. It is proved that a note is the start of an entry; that it is the first one affects only speed.

ghost use Rattle.std.specs.Prelude.{◌≡◌, ◌≤◌, IfSome, length};
ghost use Rattle.std.specs.Option.{option_map};
ghost use Rattle.acpi_base.specs.Entries.{IsEntry, entries_of};
ghost use Rattle.acpi_confirm.specs.Walks.{IsNoted, AreStarts, AreNotedWith, IsThere};

use super::FIRST_ENTRY;
use crate::entries::{entry_at, entry_from};

/// The note of a block in which no entry begins. One that does is at a smaller distance from the block's beginning,
/// since the entry before it has at most 255 bytes.
const NOTHING: u8 = 255;

/// Notes of starts: how many bytes a block has, and the note of each block.
#[derive(Clone, Copy)]
pub(super) struct Starts<'a> {
    pub(super) size: usize,
    pub(super) notes: &'a [u8],
}

/// Notes an entry's start for its block, if none is noted there yet.
fn note(notes: &mut [u8], size: usize, start: usize)
    requires { 1 ≤ size }
    ensures { AreNotedWith size start notes.old notes.new }
{
    let block = start / size;
    let distance = start % size;
    if block < notes.len() && notes[block] == NOTHING && distance < usize::from(NOTHING) {
        notes[block] = distance as u8;
    }
}

/// Divides the table into as many blocks as there are notes, and notes for each where its first entry begins.
pub(super) fn note_starts<'a>(pptt: &[u8], notes: &'a mut [u8]) -> Starts<'a>
    requires { 1 ≤ length notes.old }
    ensures { AreStarts result.size result.notes.now pptt.now }
{
    let size = pptt.len() / notes.len() + 1;
    notes.fill(NOTHING);
    let mut start = FIRST_ENTRY;
    while let Some(entry) = entry_from(pptt, start) {
        note(notes, size, start);
        start += entry.len();
    }
    Starts { size, notes }
}

/// The start that is noted for an offset's block, if it is not after the offset.
fn noted_before(starts: &Starts<'_>, at: u64) -> Option<usize>
    requires { 1 ≤ starts.now.size }
    ensures { IfSome result (λ start. (start ≤ at)
        × IsNoted starts.now.size starts.now.notes.now start) }
{
    let at = at as usize;
    let note = *starts.notes.get(at / starts.size)?;
    let distance = at % starts.size;
    if note == NOTHING || usize::from(note) > distance {
        return None;
    }
    Some(at - distance + usize::from(note))
}

/// The entry at an offset, if there is one. If no start is noted from which the walk can go on, it begins at the first
/// entry, and finds none.
pub(super) fn entry_noted<'a>(pptt: &'a [u8], starts: &Starts<'_>, at: u64) -> Option<&'a [u8]>
    requires { AreStarts starts.now.size starts.now.notes.now pptt.now }
    ensures there { IsThere (entries_of 36 pptt.now) at
        (option_map (λ entry. entry.now) result) }
    ensures entry { IfSome result (λ entry. IsEntry entry.now) }
{
    match noted_before(starts, at) {
        Some(start) => entry_at(pptt, start, at),
        None => entry_at(pptt, FIRST_ENTRY, at),
    }
}
