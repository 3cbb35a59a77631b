//! Advice on the structures that a set has in memory: two that overlap (ACPI 6.5, 5.2).

ghost use Rattle.std.specs.Prelude.{◌≡◌, ◌≢◌, ◌<◌, ◌++◌, ◌↔◌, ℕ, AllPairs, Contains, IfOk, IsTrue, OnOk, false, map};
ghost use Rattle.acpi_lint.specs.CompleteTables.{AreCompleteTables};
ghost use Rattle.acpi_lint.specs.Numbered.{FindsRange, begins_at, first_only, range_at};
ghost use Rattle.acpi_rules.specs.Places.{FindsLeast};
ghost use Rattle.acpi_lint.specs.Slots.{listed_address};
ghost use Rattle.acpi_lint.specs.Rules.Structures.{IsRsdpRange, IsFacsRange, IsDsdtRange, IsTableRange, IsFirstStructure, IsTablesOverlap};

use crate::complete_tables::CompleteTables;
use crate::listed_slots::Slot;
use crate::rsdp_advice::revision_of;
use acpi_base::LentImage;
use acpi_base::field::is_signed;
use acpi_check::sorted_unique;
use acpi_read::{Facs, Fadt, Rsdp, Table};
use acpi_rules::{Numbered, Place, Range, first_overlap};
use std::alloc::{AllocError, Global};

/// The bytes of a structure, by its address, which is also their place. An image may have millions, and these are sorted
/// with a buffer as long, so they are kept smaller than spans.
fn structure(address: u64, length: u64) -> Numbered
    ensures { result ≡ range_at address length }
{
    Numbered {
        number: address,
        at: address,
        value: length,
    }
}

/// Whether one of these begins at an address.
fn begins_at(given: &[Numbered], address: u64) -> bool
    ensures { result ≡ begins_at given.now address }
{
    given.iter().any(|one| one.number == address)
}

/// Adds what was found, unless another one begins where it does.
fn push_first(given: &mut Vec<Numbered>, found: Option<Numbered>) -> Result<(), AllocError>
    ensures { OnOk result
        (given.new.items ≡ given.old.items ++ first_only given.old.items found) }
{
    if let Some(found) = found {
        if !begins_at(given, found.number) {
            given.push(found)?;
        }
    }
    Ok(())
}

/// The RSDP at an address, if its bytes are present: 20, or in the extended form 36.
fn rsdp_range(image: &LentImage<'_>, rsdp: u64) -> Option<Numbered>
    ensures { FindsRange (IsRsdpRange image.now rsdp) result }
{
    let head = image.window(rsdp, Rsdp::SHORT_LENGTH)?;
    if revision_of(head) < 2 {
        return Some(structure(rsdp, Rsdp::SHORT_LENGTH));
    }
    image.window(rsdp, Rsdp::EXTENDED_LENGTH)?;
    Some(structure(rsdp, Rsdp::EXTENDED_LENGTH))
}

/// The FACS that a FADT names, if it is valid.
fn facs_range(image: &LentImage<'_>, fadt: &Fadt<'_>) -> Option<Numbered>
    ensures { FindsRange (IsFacsRange image.now fadt.now) result }
{
    let facs = Facs::read(image, fadt).ok()??;
    Some(structure(facs.address(), facs.bytes().len() as u64))
}

/// The table at an address, if it is complete.
fn table_range(image: &LentImage<'_>, address: u64) -> Option<Numbered>
    ensures { FindsRange (λ s n. (s ≡ address) × IsTableRange image.now s n) result }
{
    let table = Table::complete(image, address)?;
    Some(structure(address, table.bytes().len() as u64))
}

/// The DSDT that a FADT names, if it is complete and has its signature.
fn dsdt_range(image: &LentImage<'_>, fadt: &Fadt<'_>) -> Option<Numbered>
    ensures { FindsRange (IsDsdtRange image.now fadt.now) result }
{
    let address = fadt.dsdt_address();
    if address == 0 || !is_signed(image.window(address, 36)?, b"DSDT") {
        return None;
    }
    table_range(image, address)
}

/// The addresses that slots list and at which none of these begins, in rising order, each once. Allocates for each slot.
fn further_addresses(
    alloc: Global,
    slots: &[Slot],
    given: &[Numbered],
) -> Result<Vec<u64>, AllocError>
    ensures rise { IfOk result (λ found. AllPairs (λ a b. a < b) found.items) }
    ensures same { IfOk result (λ found. (a : ℕ) → Contains found.items a
        ↔ (Contains (map listed_address slots.now) a × (begins_at given.now a ≡ false))) }
{
    let mut addresses = Vec::new(alloc);
    for slot in slots {
        if !begins_at(given, slot.table.address) {
            addresses.push(slot.table.address)?;
        }
    }
    sorted_unique(addresses)
}

/// The first structure of a set at each address where some begin. The tables are those of the set that the RSDP at an
/// address leads to. Allocates for each structure, and for each slot.
fn structures(
    alloc: Global,
    image: &LentImage<'_>,
    rsdp: u64,
    tables: &CompleteTables<'_>,
) -> Result<Vec<Numbered>, AllocError>
    requires { AreCompleteTables image.now rsdp tables.now }
    ensures { IfOk result (λ given. (g : Numbered)
        → Contains given.items g ↔ IsFirstStructure image.now rsdp g) }
{
    let mut given = Vec::new(alloc);
    push_first(&mut given, rsdp_range(image, rsdp))?;
    let Some(root) = &tables.root else {
        return Ok(given);
    };
    let length = root.bytes().len() as u64;
    push_first(&mut given, Some(structure(root.address(), length)))?;
    if let Some(fadt) = tables.fadt() {
        push_first(&mut given, facs_range(image, &fadt))?;
        push_first(&mut given, dsdt_range(image, &fadt))?;
    }
    for address in &further_addresses(alloc, &tables.slots, &given)? {
        if let Some(table) = table_range(image, *address) {
            given.push(table)?;
        }
    }
    Ok(given)
}

/// 131 TablesOverlap, likely wrong (5.2): two structures, the RSDP or tables, share bytes of memory.
/// Numbers: `at` and `other` are the addresses at which two such structures begin, the lower one first, `point` is the
/// lowest address at which two of them overlap.
/// "The structures at {at} and {other} both have the byte at {point}."
///
/// The lowest address that is in two structures of a set in memory, and where the first two that contain it begin; of
/// those that begin at one address only the first is compared. The tables are those of the set that the RSDP at an
/// address leads to. Allocates for each structure, and for each slot.
pub fn tables_overlap(
    alloc: Global,
    image: &LentImage<'_>,
    rsdp: u64,
    tables: &CompleteTables<'_>,
) -> Result<Option<Place>, AllocError>
    requires { AreCompleteTables image.now rsdp tables.now }
    ensures { IfOk result (FindsLeast (IsTablesOverlap image.now rsdp)) }
{
    let given = structures(alloc, image, rsdp, tables)?;
    first_overlap(given, Range::Count)
}
