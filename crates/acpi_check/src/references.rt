//! Stage 13: the references of the PPTT's entries.

ghost use Rattle.std.specs.Prelude.{◌≡◌, ◌≢◌, ◌*◌, ◌<◌, ◌⊎◌, ℕ, IfOk, OnOk, MatchOption, length};
ghost use Rattle.acpi_base.specs.Number.{field};
ghost use Rattle.acpi_base.specs.Pptt.{pptt_contents, IsCutPptt, AreReferencesValid, ReferenceFault};
ghost use Rattle.acpi_base.specs.declared.stage.Stage.{Stage};
ghost use Rattle.acpi_read.specs.Pptts.{pptt_value, HasReferences};
ghost use Rattle.acpi_check.specs.TableResults.{FindsFirst};
ghost use Rattle.acpi_check.specs.EntryPlaces.{kind_of, is_node, is_cache, is_resource, ArePlaces, NamesPlaces, IsFirstReference};
ghost use Rattle.acpi_check.specs.BitSets.{IsIn, Adds};

use crate::bit_set::BitSet;
use crate::places::{PlaceKind, Places};
use crate::refusal::Refusal;
use acpi_base::field::u32_at;
use acpi_base::{Code, Witness};
use acpi_read::{EntryAt, PpttEntry, Table};
use std::alloc::{AllocError, Global};

/// What an entry is.
fn kind_of(entry: &PpttEntry<'_>) -> PlaceKind
    ensures { result ≡ kind_of (pptt_value entry.now) }
{
    match entry {
        PpttEntry::Node(..) => PlaceKind::Node,
        PpttEntry::Cache24(_) | PpttEntry::Cache28(_) => PlaceKind::Cache,
        PpttEntry::Opaque(_) => PlaceKind::Other,
    }
}

/// Adds the offset of an entry to those of its kind.
fn add_place(places: &mut Places, kind: PlaceKind, offset: u64) -> Result<(), AllocError>
    ensures nodes { OnOk result (Adds (is_node kind) offset places.old.nodes places.new.nodes) }
    ensures caches { OnOk result (Adds (is_cache kind) offset places.old.caches places.new.caches) }
    ensures resources { OnOk result
        (Adds (is_resource kind) offset places.old.resources places.new.resources) }
{
    match kind {
        PlaceKind::Node => places.nodes.add(offset)?,
        PlaceKind::Cache => {
            places.caches.add(offset)?;
            places.resources.add(offset)?;
        }
        PlaceKind::Other => places.resources.add(offset)?,
    }
    Ok(())
}

/// The offsets of the entries of a PPTT, by what they are.
#[inline(never)]
fn places_of(alloc: Global, pptt: &Table<'_>) -> Result<Places, AllocError>
    requires { IsCutPptt (pptt_contents pptt.now) }
    ensures { IfOk result (ArePlaces (pptt_contents pptt.now)) }
{
    let mut places = Places {
        nodes: BitSet::new(alloc),
        caches: BitSet::new(alloc),
        resources: BitSet::new(alloc),
    };
    for at in pptt.entries::<PpttEntry<'_>>() {
        add_place(&mut places, kind_of(&at.entry), at.offset)?;
    }
    Ok(places)
}

/// The first of a node's private resources that is not at one of these offsets: its number, from 0, and its own offset.
/// `references` has 4 bytes for each of the `count` resources (ACPI 6.5, 5.2.30.1).
pub fn first_dangling(offsets: &BitSet, count: u32, references: &[u8]) -> Option<(u32, u32)>
    requires { length references.now ≡ 4 * count }
    ensures { MatchOption result ((j : ℕ) → j < count
        → IsIn offsets.now (field references.now (4 * j) 4))
        (λ found. (found.0 < count) × (found.1 ≡ field references.now (4 * found.0) 4)
        × (¬ IsIn offsets.now found.1)
        × ((j : ℕ) → j < found.0 → IsIn offsets.now (field references.now (4 * j) 4))) }
{
    for j in 0..count {
        let offset = u32_at(references, 4 * j as usize);
        if !offsets.has(u64::from(offset)) {
            return Some((j, offset));
        }
    }
    None
}

/// The fault of a Parent or a Next Level that refers to an offset that is not among these. 0 refers to nothing.
fn link_fault(code: Code, at: u64, offsets: &BitSet, offset: u32) -> Option<Witness>
    ensures { MatchOption result ((offset ≡ 0) ⊎ IsIn offsets.now offset)
        (λ w. (w ≡ record { code = code; at = at; other = offset; point = 0 }) × (offset ≢ 0)
        × ¬ IsIn offsets.now offset) }
{
    if offset == 0 || offsets.has(u64::from(offset)) {
        return None;
    }
    Some(Witness {
        code,
        at,
        other: u64::from(offset),
        point: 0,
    })
}

/// The first fault of an entry's references: in a node its Parent comes before its private resources.
fn own_fault(places: &Places, at: &EntryAt<PpttEntry<'_>>) -> Option<Witness>
    requires { HasReferences at.now.entry }
    ensures { MatchOption result (NamesPlaces places.now (pptt_value at.now.entry))
        (λ w. (w.at ≡ at.now.offset) × IsFirstReference places.now (pptt_value at.now.entry) w) }
{
    let EntryAt { offset: at, entry } = *at;
    match entry {
        PpttEntry::Node(head, references) => {
            if let Some(fault) = link_fault(Code::DanglingParent, at, &places.nodes, head.parent) {
                return Some(fault);
            }
            match first_dangling(&places.resources, head.count, references) {
                Some((number, resource)) => Some(Witness {
                    code: Code::DanglingResource,
                    at,
                    other: u64::from(number),
                    point: u64::from(resource),
                }),
                None => None,
            }
        }
        PpttEntry::Cache24(cache) => {
            link_fault(Code::DanglingCache, at, &places.caches, cache.next_level)
        }
        PpttEntry::Cache28(cache) => {
            link_fault(
                Code::DanglingCache,
                at,
                &places.caches,
                cache.fields.next_level,
            )
        }
        PpttEntry::Opaque(_) => None,
    }
}

/// The first fault of the entries' references, in the entries' order.
#[inline(never)]
fn first_fault(places: &Places, pptt: &Table<'_>) -> Result<(), Refusal>
    requires { ArePlaces (pptt_contents pptt.now) places.now }
    ensures { FindsFirst Stage.References (AreReferencesValid (pptt_contents pptt.now))
        (ReferenceFault (pptt_contents pptt.now)) result }
{
    let mut entries = pptt.entries::<PpttEntry<'_>>();
    while let Some(at) = entries.next() {
        if let Some(fault) = own_fault(places, &at) {
            return Err(Refusal::Fault(fault));
        }
    }
    Ok(())
}

/// Whether there is an entry at each offset that a PPTT's entries refer to, of the required kind. Stage 12 has to hold
/// for the table. The first fault is at the offset of the entry with the reference.
///
/// Refuses with `Refusal::OutOfMemory` if out of memory: it allocates a bit or two for each byte of the table, three
/// times.
pub fn check_references(alloc: Global, pptt: &Table<'_>) -> Result<(), Refusal>
    requires { IsCutPptt (pptt_contents pptt.now) }
    ensures { FindsFirst Stage.References (AreReferencesValid (pptt_contents pptt.now))
        (ReferenceFault (pptt_contents pptt.now)) result }
{
    let places = places_of(alloc, pptt)?;
    first_fault(&places, pptt)
}
