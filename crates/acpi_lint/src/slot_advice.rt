//! Advice on the slots of the root table: what is listed twice, and what should not be listed (ACPI 6.5, 5.2.7,
//! 5.2.8).

ghost use Rattle.std.specs.Prelude.{◌≡◌, ℕ, map, IfOk};
ghost use Rattle.acpi_lint.specs.Rules.Slots.{IsListedTwice, IsSecondTable, IsListedApart};
ghost use Rattle.acpi_base.specs.Memory.{Memory};
ghost use Rattle.acpi_rules.specs.Places.{FindsLeast};
ghost use Rattle.acpi_lint.specs.Slots.{numbered_slot, second_place};
ghost use Rattle.acpi_lint.specs.CompleteTables.{AreCompleteTables};

use crate::complete_tables::CompleteTables;
use crate::first_slots::FirstSlots;
use crate::header_advice::{header_text, second_other};
use crate::listed_slots::{Slot, first_slot};
use crate::numbered::first_later;
use crate::root_advice::null_slot;
use crate::table_at::Sought;
use acpi_rules::{Numbered, Place};
use std::alloc::{AllocError, Global};

/// The addresses that slots list, each at its slot's number.
fn numbered_slots(alloc: Global, slots: &[Slot]) -> Result<Vec<Numbered>, AllocError>
    ensures { IfOk result (λ given. given.items ≡ map numbered_slot slots.now) }
{
    let mut given = Vec::new(alloc);
    for slot in slots {
        given.push(Numbered {
            number: slot.table.address,
            at: slot.number,
            value: slot.number,
        })?;
    }
    Ok(given)
}

/// 101 ListedTwice, likely wrong (5.2.7, 5.2.8): an address is listed twice.
/// Numbers: `at` is the slot's number, from 0, `other` that of the first slot with this address, `point` is the
/// address.
/// "Slot {at:d} lists the address {point}, as slot {other:d} does."
///
/// The first slot that lists an address that an earlier slot also lists. The tables are those of the set. Allocates for
/// each slot.
pub fn listed_twice(alloc: Global, tables: &CompleteTables<'_>) -> Result<Option<Place>, AllocError>
    ensures { (m : Memory) (p : ℕ) → AreCompleteTables m p tables.now
        → IfOk result (FindsLeast (IsListedTwice m p)) }
{
    let given = numbered_slots(alloc, &tables.slots)?;
    first_later(given)
}

/// The place of a slot that lists a table of a kind at another address than the first slot of this kind.
fn second_place(firsts: &FirstSlots, slot: &Slot) -> Option<Place>
    ensures { result ≡ second_place firsts.now slot.now }
{
    let kind = slot.table.kind?;
    let first = firsts.of_kind(kind)?;
    (first.table.address != slot.table.address).then_some(Place {
        at: slot.number,
        other: first.number,
        point: slot.table.address,
    })
}

/// 102 SecondTable, likely wrong (5.2): a second table of a kind is listed, of which only the first is read.
/// Numbers: `at` is the slot's number, `other` that of the first slot with this signature, `point` is the address in
/// slot `at`.
/// "Slot {at:d} lists a second table of a kind, at {point}: only the first one, in slot {other:d}, is read."
///
/// The first slot that lists a table of the same kind as an earlier one, at another address. The tables are those of
/// the set.
pub fn second_table(tables: &CompleteTables<'_>) -> Option<Place>
    ensures { (m : Memory) (p : ℕ) → AreCompleteTables m p tables.now
        → FindsLeast (IsSecondTable m p) result }
{
    for slot in &tables.slots {
        if let Some(place) = second_place(&tables.firsts, slot) {
            return Some(place);
        }
    }
    None
}

/// 103 ListedApart, likely wrong (5.2.9): a DSDT or FACS is listed, which only the FADT should name.
/// Numbers: `at` is the slot's number, `point` is the address in it.
/// "Slot {at:d} lists a DSDT or FACS, at {point}: only the FADT should name it."
///
/// The first slot that lists a DSDT or a FACS, which only the FADT should name. The tables are those of the set.
pub fn listed_apart(tables: &CompleteTables<'_>) -> Option<Place>
    ensures { (m : Memory) (p : ℕ) → AreCompleteTables m p tables.now
        → FindsLeast (IsListedApart m p) result }
{
    let slot = first_slot(&tables.slots, Sought::Apart)?;
    Some(Place {
        at: slot.number,
        other: 0,
        point: slot.table.address,
    })
}
