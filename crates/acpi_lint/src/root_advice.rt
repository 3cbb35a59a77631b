//! Advice on the root tables that the RSDP names (ACPI 6.5, 5.2.7, 5.2.8).

ghost use Rattle.std.specs.Prelude.{◌≡◌, ◌≤◌, ℕ, List, IfOk, MatchOption, filter_map, length};
ghost use Rattle.std.specs.List.Sorted.{IsPermutation};
ghost use Rattle.acpi_base.specs.Listed.{slot_numbers};
ghost use Rattle.acpi_base.specs.Root.{IsSlotWidth};
ghost use Rattle.acpi_base.specs.Memory.{Memory};
ghost use Rattle.acpi_lint.specs.CompleteTables.{AreCompleteTables};
ghost use Rattle.acpi_rules.specs.Places.{FindsLeast};
ghost use Rattle.acpi_lint.specs.Rules.RootAdvice.{IsNullIn, IsNullSlot, IsOddRoot, IsOtherRevision, IsRootHeader, listed_signature, IsXsdt, IsNamedRsdt, IsRsdtDiffers};
ghost use Rattle.acpi_lint.specs.Differences.{first_difference, FindsDifference};

use crate::complete_tables::CompleteTables;
use crate::header_advice::odd_oem;
use acpi_base::LentImage;
use acpi_base::field::{is_signed, number_at, u8_at, u32_at};
use acpi_graph::sort_unless_sorted;
use acpi_read::{Root, Rsdp, Table};
use acpi_rules::Place;
use std::alloc::{AllocError, Global};

// ---- the header

/// The place of the Revision of a root table, if it is not 1.
fn other_revision(whole: &[u8]) -> Option<Place>
    requires { 36 ≤ length whole.now }
    ensures { FindsLeast (IsOtherRevision whole.now) result }
{
    let revision = u8_at(whole, 8);
    (revision != 1).then_some(Place {
        at: 8,
        other: 0,
        point: u64::from(revision),
    })
}

/// The place of the first field of a root table's header that is odd.
fn odd_root(whole: &[u8]) -> Option<Place>
    requires { 36 ≤ length whole.now }
    ensures { (d : ℕ) → FindsLeast (IsOddRoot whole.now d) result }
{
    other_revision(whole).or(odd_oem(whole))
}

/// 280 RootHeader, look at it (5.2.7, 5.2.8): the root table has a Revision that is not 1, or a text of its header has a
/// byte that is not printable.
/// Numbers: `at` is the field's offset: 0x8 for Revision, 0xa (10) for OEMID, 0x10 (16) for OEM Table ID, 0x1c (28) for
/// Creator ID; `point` is the field as a number.
/// If `at` is 0x8: "The Revision of the root table, at {at}, is {point:d}, not 1."
/// "The text at {at} of the root table, {point} as a number, has a byte that is not printable."
///
/// The place of the first such field of a set's root table, if that is complete. The tables are those of the set.
pub fn root_header(tables: &CompleteTables<'_>) -> Option<Place>
    ensures { (m : Memory) (p : ℕ) → AreCompleteTables m p tables.now
        → FindsLeast (IsRootHeader m p) result }
{
    odd_root(tables.root.as_ref()?.bytes())
}

// ---- slots that list nothing

/// The first slot of a root table that is 0. None if no slot is.
fn null_in(root: &Root<'_>) -> Option<Place>
    ensures { FindsLeast (IsNullIn root.now.bytes root.now.width) result }
{
    for slot in 0..root.slots() {
        if root.slot(slot) == 0 {
            return Some(Place::at(u64::from(slot)));
        }
    }
    None
}

/// 129 NullSlot, look at it (5.2.7, 5.2.8): a slot of the root table is 0.
/// Numbers: `at` is the slot's number, from 0.
/// "Slot {at:d} is 0."
///
/// The first slot of a set's root table that is 0. None if no slot is, or the set has no complete
/// root table. The tables are those of the set.
pub fn null_slot(tables: &CompleteTables<'_>) -> Option<Place>
    ensures { (m : Memory) (p : ℕ) → AreCompleteTables m p tables.now
        → FindsLeast (IsNullSlot m p) result }
{
    null_in(tables.root.as_ref()?)
}

// ---- an RSDT beside the XSDT

/// The XSDT of a set, if that is its root table. The tables are those of the set.
fn xsdt<'a>(tables: &CompleteTables<'a>) -> Option<&'a [u8]>
    ensures root { (m : Memory) (p : ℕ) → AreCompleteTables m p tables.now
        → MatchOption result ((bytes : List ℕ) → ¬ IsXsdt m p bytes) (λ bytes. IsXsdt m p bytes.now) }
    ensures long { MatchOption result (Unit {0}) (λ bytes. 36 ≤ length bytes.now) }
{
    let root = tables.root.as_ref()?;
    if !root.wide() {
        return None;
    }
    Some(root.bytes())
}

/// The RSDT that the RSDP at an address names, if 36 bytes of that are present and the table is
/// complete.
fn named_rsdt<'a>(image: &'a LentImage<'_>, rsdp: u64) -> Option<Table<'a>>
    ensures { MatchOption result ((bytes : List ℕ) → ¬ IsNamedRsdt image.now rsdp bytes)
        (IsNamedRsdt image.now rsdp) }
{
    let bytes = image.window(rsdp, Rsdp::EXTENDED_LENGTH)?;
    let address = u64::from(u32_at(bytes, 16));
    if address == 0 {
        return None;
    }
    let header = image.window(address, 36)?;
    if !is_signed(header, b"RSDT") {
        return None;
    }
    Table::complete(image, address)
}

/// The signature of what is at an address that a slot lists, if that is below 2^32 and the 4 bytes are present.
#[tactic(auto, unfolding(crate::specs::Rules::RootAdvice::listed_signature))]
fn listed_signature(image: &LentImage<'_>, address: u64) -> Option<u64>
    ensures { result ≡ listed_signature image.now address }
{
    if address == 0 || address >= 1 << 32 {
        return None;
    }
    Some(u64::from(u32_at(image.window(address, 4)?, 0)))
}

/// The signatures of what is at these addresses, as far as there are any, in their order.
fn signatures_at(
    alloc: Global,
    image: &LentImage<'_>,
    addresses: &[u64],
) -> Result<Vec<u64>, AllocError>
    ensures { IfOk result (λ found.
        found.items ≡ filter_map (listed_signature image.now) addresses.now) }
{
    let mut found = Vec::new(alloc);
    for address in addresses {
        if let Some(signature) = listed_signature(image, *address) {
            found.push(signature)?;
        }
    }
    Ok(found)
}

/// The numbers in all slots of a root table, which have `width` bytes, in rising order: so each is looked up near the
/// one before it.
fn rising_slots(alloc: Global, bytes: &[u8], width: usize) -> Result<Vec<u64>, AllocError>
    requires width { IsSlotWidth width }
    requires long { 36 ≤ length bytes.now }
    ensures { IfOk result (λ found. IsPermutation (slot_numbers bytes.now width) found.items) }
{
    let mut found = Vec::new(alloc);
    for slot in 0..(bytes.len() - 36) / width {
        found.push(number_at(bytes, 36 + width * slot, width))?;
    }
    sort_unless_sorted(&mut found)?;
    Ok(found)
}

/// The first number at which two lists differ: the lower one of the two, or the one that the longer list has.
fn first_difference(ours: &[u64], theirs: &[u64]) -> Option<u64>
    ensures { result ≡ first_difference ours.now theirs.now }
{
    for i in 0..ours.len().min(theirs.len()) {
        if ours[i] != theirs[i] {
            return Some(ours[i].min(theirs[i]));
        }
    }
    if ours.len() > theirs.len() {
        Some(ours[theirs.len()])
    } else if theirs.len() > ours.len() {
        Some(theirs[ours.len()])
    } else {
        None
    }
}

/// The lowest number that two lists have a different number of times. None if there is none.
/// Allocates while it sorts them.
fn lowest_difference(mut ours: Vec<u64>, mut theirs: Vec<u64>) -> Result<Option<u64>, AllocError>
    ensures { IfOk result (FindsDifference ours.items theirs.items) }
{
    sort_unless_sorted(&mut ours)?;
    sort_unless_sorted(&mut theirs)?;
    Ok(first_difference(&ours, &theirs))
}

/// 130 RsdtDiffers, likely wrong (5.2.7): the RSDT and the XSDT list different numbers of tables with a signature.
/// Numbers: `at` is 0x10 (16), the offset of RsdtAddress in the RSDP, `point` is the signature as a little-endian
/// number: 0x54545050 is `PPTT`. If several signatures differ, it is the lowest of these numbers.
/// "The RSDT, by the address at {at} of the RSDP, and the XSDT list different numbers of tables with the signature
/// {point:s}."
///
/// The lowest signature that the XSDT and the RSDT list a different number of times, if the RSDP at an address names
/// both. The tables are those of the set. Allocates for each slot of the two.
pub fn rsdt_differs(
    alloc: Global,
    image: &LentImage<'_>,
    rsdp: u64,
    tables: &CompleteTables<'_>,
) -> Result<Option<Place>, AllocError>
    requires { AreCompleteTables image.now rsdp tables.now }
    ensures { IfOk result (FindsLeast (IsRsdtDiffers image.now rsdp)) }
{
    let Some(xsdt) = xsdt(tables) else {
        return Ok(None);
    };
    let Some(rsdt) = named_rsdt(image, rsdp) else {
        return Ok(None);
    };
    let ours = rising_slots(alloc, xsdt, 8)?;
    let theirs = rising_slots(alloc, rsdt.bytes(), 4)?;
    if ours == theirs {
        return Ok(None);
    }
    let ours = signatures_at(alloc, image, &ours)?;
    let theirs = signatures_at(alloc, image, &theirs)?;
    let Some(signature) = lowest_difference(ours, theirs)? else {
        return Ok(None);
    };
    Ok(Some(Place {
        at: 16,
        other: 0,
        point: signature,
    }))
}
