//! Stage 18: the IDs of the PPTT's leaves among the UIDs of the MADT's processors.

ghost use Rattle.std.specs.Prelude.{◌≡◌, ◌<◌, ℕ, AllPairs, Contains, IsTrue, MatchBool, MatchOption};
ghost use Rattle.acpi_base.specs.Across.{AreLeavesKnown, LeafFault};
ghost use Rattle.acpi_base.specs.Entries.{StandsWith, entries_read_by};
ghost use Rattle.acpi_base.specs.Madt.{HasUid, madt_contents, madt_entry, IsWhollyTyped};
ghost use Rattle.acpi_base.specs.Pptt.{pptt_contents};
ghost use Rattle.acpi_base.specs.declared.code.Code.{Code};
ghost use Rattle.acpi_base.specs.declared.stage.Stage.{Stage};
ghost use Rattle.acpi_read.specs.Madts.{madt_value};
ghost use Rattle.acpi_read.specs.Pptts.{pptt_value};
ghost use Rattle.acpi_check.specs.Processors.{has_known_type, leaf_id};
ghost use Rattle.acpi_check.specs.NamedNumbers.{AreAmong, IsKnown, IsUnknown, FindsUnknown};
ghost use Rattle.acpi_check.specs.TableResults.{FindsFirst};

use crate::processors::{Key, number_of, numbers_of};
use crate::refusal::{Refusal, refuse};
use crate::search::has;
use acpi_base::{Code, Witness};
use acpi_read::{Entries, EntryAt, MadtEntry, PpttEntry, Table, TableEntry, TypedEntries};
use std::alloc::Global;

/// Whether an entry of a MADT is of one of the eight types that are read here: one of another type may describe a
/// processor.
fn has_known_type(entry: &MadtEntry<'_>) -> bool
    ensures { result ≡ has_known_type (madt_value entry.now) }
{
    match entry {
        MadtEntry::Opaque(_) => false,
        _ => true,
    }
}

/// Whether a MADT has its 44 bytes, entries fill it, and each is of such a type, so that all its processors are known.
#[inline(never)]
fn are_types_known(madt: &Table<'_>) -> bool
    ensures { MatchBool result (IsWhollyTyped (madt_contents madt.now))
        (¬ IsWhollyTyped (madt_contents madt.now)) }
{
    let Ok(mut entries) = Entries::madt(madt.copied()) else {
        return false;
    };
    while let Some(entry) = entries.next() {
        if !has_known_type(&MadtEntry::of(entry.bytes)) {
            return false;
        }
    }
    entries.cut().is_none()
}

/// The ID of a leaf, which is a node whose flags say that its ID is valid, in bit 1, and that it is a leaf, in bit 3.
/// None for another entry, and for a leaf whose ID is not valid.
#[tactic(auto, unfolding(acpi_base::specs::Number::has_bit))]
fn leaf_id(entry: &PpttEntry<'_>) -> Option<u32>
    ensures { result ≡ leaf_id (pptt_value entry.now) }
{
    let PpttEntry::Node(head, _) = entry else {
        return None;
    };
    let is_valid = head.flags >> 1 & 1 == 1;
    let is_leaf = head.flags >> 3 & 1 == 1;
    (is_valid && is_leaf).then_some(head.id)
}

/// Passes over the entries of a MADT that are left up to the next processor with this UID. False if there is none.
fn pass_uid<'a>(left: &mut TypedEntries<'a, MadtEntry<'a>>, uid: u32) -> bool
    ensures found { IsTrue result → (o : ℕ)
        × StandsWith (entries_read_by madt_entry left.old.entries.entries) o (HasUid uid) }
    ensures among { AreAmong (entries_read_by madt_entry left.new.entries.entries)
        (entries_read_by madt_entry left.old.entries.entries) }
{
    while let Some(at) = left.next() {
        if let Some(own) = number_of(Key::Uid, &at.entry) {
            if own == uid {
                return true;
            }
        }
    }
    false
}

/// Whether the IDs of a PPTT's leaves are UIDs of processors of a MADT, in its order, as in most machines.
#[inline(never)]
fn do_leaves_follow(madt: &Table<'_>, pptt: &Table<'_>) -> bool
    ensures { IsTrue result → AreLeavesKnown (madt_contents madt.now) (pptt_contents pptt.now) }
{
    let mut processors = madt.entries::<MadtEntry<'_>>();
    let mut entries = pptt.entries::<PpttEntry<'_>>();
    while let Some(at) = entries.next() {
        if let Some(id) = leaf_id(&at.entry) {
            if !pass_uid(&mut processors, id) {
                return false;
            }
        }
    }
    true
}

/// The fault of a leaf whose ID is not among the UIDs, which rise. None for an entry that is not a leaf.
fn own_fault(uids: &[u64], at: &EntryAt<PpttEntry<'_>>) -> Option<Witness>
    requires { AllPairs (λ i j. i < j) uids.now }
    ensures { MatchOption result (IsKnown (Contains uids.now) (leaf_id (pptt_value at.now.entry)))
        (IsUnknown (Contains uids.now) Code.LeafUnknown at.now.offset
        (leaf_id (pptt_value at.now.entry))) }
{
    let id = leaf_id(&at.entry)?;
    if has(uids, id) {
        return None;
    }
    Some(Witness {
        code: Code::LeafUnknown,
        at: at.offset,
        other: 0,
        point: u64::from(id),
    })
}

/// The fault of the first leaf of a PPTT whose ID is not among the UIDs.
#[inline(never)]
fn first_unknown(uids: &[u64], pptt: &Table<'_>) -> Option<Witness>
    requires { AllPairs (λ i j. i < j) uids.now }
    ensures { FindsUnknown (Contains uids.now) leaf_id Code.LeafUnknown
        (pptt_contents pptt.now).entries result }
{
    let mut entries = pptt.entries::<PpttEntry<'_>>();
    while let Some(at) = entries.next() {
        if let Some(fault) = own_fault(uids, &at) {
            return Some(fault);
        }
    }
    None
}

/// The lowest Revision of the PPTT that has the flag of a leaf.
pub const HAS_LEAVES: u8 = 2;

/// Whether the ID of each leaf of a PPTT is the UID of a processor of a MADT, enabled or not (ACPI 6.5, 5.2.30.1;
/// 5.2.12.2 and 5.2.12.12), or the PPTT's Revision is below 2, or the MADT may have further processors: it ends before
/// the offset of its first entry, or has bytes at which no entry can begin, or an entry of a type that is not read
/// here. A leaf is a node whose flags say that it is one and that its ID is valid. Both tables may have any entries.
///
/// Refuses with `Fault` and the code `LeafUnknown`: `at` is the offset, in bytes from the PPTT's start, of the first
/// leaf whose ID is no UID; `other` is 0, and `point` is the ID, of 32 bits.
///
/// Refuses with `OutOfMemory`. What exempts tables is tested first, and allocates nothing. After that it allocates for the
/// UID of each processor, unless the leaves follow the processors; these are sorted, and each leaf's ID is looked up among
/// them.
pub fn check_leaves(alloc: Global, madt: &Table<'_>, pptt: &Table<'_>) -> Result<(), Refusal>
    ensures { FindsFirst Stage.Leaves
        (AreLeavesKnown (madt_contents madt.now) (pptt_contents pptt.now))
        (LeafFault (madt_contents madt.now) (pptt_contents pptt.now)) result }
{
    if pptt.header().revision < HAS_LEAVES || do_leaves_follow(madt, pptt) {
        return Ok(());
    }
    if !are_types_known(madt) {
        return Ok(());
    }
    let uids = numbers_of(alloc, Key::Uid, madt)?;
    refuse(first_unknown(&uids, pptt))
}
