//! Codes 52 to 54: the references of the PPTT's entries (ACPI 6.5, 5.2.30), whatever the entries' lengths.

ghost use Rattle.std.specs.Prelude.{◌≡◌, IfOk};
ghost use Rattle.acpi_base.specs.Chains.{IsAt};
ghost use Rattle.acpi_base.specs.Pptt.{pptt_contents, Says, IsResourceAt, ReferenceFault};
ghost use Rattle.acpi_base.specs.declared.code.Code.{Code};
ghost use Rattle.acpi_check.specs.Chains.{named_offset};
ghost use Rattle.acpi_read.specs.Pptts.{pptt_value, HasReferences};
ghost use Rattle.acpi_read.specs.Entries.{entry_at_value};
ghost use Rattle.acpi_rules.specs.Places.{FindsLeast};
ghost use Rattle.acpi_lint.specs.Places.{FindsOwn};
ghost use Rattle.acpi_lint.specs.References.{is_linked, is_resource, offset_where, AreOffsets, IsDanglingLink, NamesNoLink, NamesNoResource};

use crate::passes::first_picked;
use acpi_base::Code;
use acpi_check::{BitSet, Chain, collected, first_dangling, named_offset};
use acpi_read::{EntryAt, PpttEntry, Table};
use acpi_rules::Place;
use std::alloc::{AllocError, Global};

/// The offset of an entry that is a node of such chains, so that another entry may refer to it.
fn linked_offset(chain: Chain, at: &EntryAt<PpttEntry<'_>>) -> Option<u64>
    ensures { result ≡ offset_where (is_linked chain) (entry_at_value pptt_value at.now) }
{
    named_offset(chain, &at.entry)
        .is_some()
        .then_some(at.offset)
}

/// The offsets of a PPTT's entries that are nodes of such chains.
fn linked_offsets(alloc: Global, chain: Chain, pptt: &Table<'_>) -> Result<BitSet, AllocError>
    ensures { IfOk result (AreOffsets (IsAt (Says (named_offset chain) (pptt_contents pptt.now)))) }
{
    let offsets = collected(
        alloc,
        pptt.entries::<PpttEntry<'_>>(),
        |at| linked_offset(chain, at),
    )?;
    BitSet::of(alloc, &offsets)
}

/// The place of an entry that refers to none of these offsets.
fn unlinked_place(chain: Chain, offsets: &BitSet, at: &EntryAt<PpttEntry<'_>>) -> Option<Place>
    ensures { FindsOwn (NamesNoLink chain offsets.now) (entry_at_value pptt_value at.now) result }
{
    let offset = named_offset(chain, &at.entry)?;
    if offset == 0 || offsets.has(u64::from(offset)) {
        return None;
    }
    Some(Place {
        at: at.offset,
        other: u64::from(offset),
        point: 0,
    })
}

/// The place of the first entry of a PPTT that refers to an offset at which there is no entry of its kind.
fn dangling_link(alloc: Global, chain: Chain, pptt: &Table<'_>) -> Result<Option<Place>, AllocError>
    ensures { IfOk result (FindsLeast (IsDanglingLink chain (pptt_contents pptt.now))) }
{
    let offsets = linked_offsets(alloc, chain, pptt)?;
    Ok(first_picked(
        pptt.entries::<PpttEntry<'_>>(),
        |at| unlinked_place(chain, &offsets, at),
    ))
}

/// Whether an entry may be a private resource: it has another type than a node, even one that is not read.
fn is_resource(entry: &PpttEntry<'_>) -> bool
    ensures { result ≡ is_resource (pptt_value entry.now) }
{
    match entry {
        PpttEntry::Node(..) => false,
        PpttEntry::Cache24(_) | PpttEntry::Cache28(_) => true,
        PpttEntry::Opaque(bytes) => bytes.first().is_some_and(|number| *number != 0),
    }
}

/// The offset of such an entry.
fn resource_offset(at: &EntryAt<PpttEntry<'_>>) -> Option<u64>
    ensures { result ≡ offset_where is_resource (entry_at_value pptt_value at.now) }
{
    is_resource(&at.entry).then_some(at.offset)
}

/// The offsets of such entries of a PPTT.
fn resource_offsets(alloc: Global, pptt: &Table<'_>) -> Result<BitSet, AllocError>
    ensures { IfOk result (AreOffsets (IsResourceAt (pptt_contents pptt.now))) }
{
    let offsets = collected(alloc, pptt.entries::<PpttEntry<'_>>(), resource_offset)?;
    BitSet::of(alloc, &offsets)
}

/// The place of the first private resource of an entry that is at none of these offsets.
fn missing_place(offsets: &BitSet, at: &EntryAt<PpttEntry<'_>>) -> Option<Place>
    requires { HasReferences at.now.entry }
    ensures { FindsOwn (NamesNoResource offsets.now) (entry_at_value pptt_value at.now) result }
{
    let PpttEntry::Node(head, references) = at.entry else {
        return None;
    };
    let (number, resource) = first_dangling(offsets, head.count, references)?;
    Some(Place {
        at: at.offset,
        other: u64::from(number),
        point: u64::from(resource),
    })
}

/// The place of the first private resource of a PPTT's nodes that is at none of its entries of another type.
fn dangling_resource(alloc: Global, pptt: &Table<'_>) -> Result<Option<Place>, AllocError>
    ensures { IfOk result (FindsLeast
        (ReferenceFault (pptt_contents pptt.now) Code.DanglingResource)) }
{
    let offsets = resource_offsets(alloc, pptt)?;
    Ok(first_picked(
        pptt.entries::<PpttEntry<'_>>(),
        |at| missing_place(&offsets, at),
    ))
}

/// The place of the first fault with this code in the references of a PPTT's entries. None for a code of another
/// stage. Allocates for each entry that may be referred to.
pub fn reference_fault(
    alloc: Global,
    code: Code,
    pptt: &Table<'_>,
) -> Result<Option<Place>, AllocError>
    ensures { IfOk result (FindsLeast (ReferenceFault (pptt_contents pptt.now) code)) }
{
    match code {
        Code::DanglingParent => dangling_link(alloc, Chain::Parents, pptt),
        Code::DanglingResource => dangling_resource(alloc, pptt),
        Code::DanglingCache => dangling_link(alloc, Chain::NextLevels, pptt),
        _ => Ok(None),
    }
}
