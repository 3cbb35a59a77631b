//! Advice on the headers of listed tables (ACPI 6.5, 5.2.6).

ghost use Rattle.std.specs.Prelude.{◌≡◌, ◌==◌, map, ◌≤◌, ◌<◌, ◌+◌, ◌↔◌, ℕ, AllPairs, Contains, IfOk, IsTrue, length, take, drop};
ghost use Rattle.std.specs.List.{filter_map, list_any};
ghost use Rattle.acpi_base.specs.Memory.{Memory};
ghost use Rattle.acpi_lint.specs.CompleteTables.{AreCompleteTables};
ghost use Rattle.acpi_rules.specs.Places.{FindsLeast};
ghost use Rattle.acpi_lint.specs.Rules.HeaderAdvice.{IsNoText, IsHeaderText, IsOddNumber, IsOddOem, IsSecondOther, signature_number, is_once};
ghost use Rattle.acpi_lint.specs.Headers.{IsFirstOdd, once_numbered};
ghost use Rattle.acpi_lint.specs.declared.listed_slots.Slot.{Slot};

use crate::complete_tables::CompleteTables;
use crate::listed_slots::Slot;
use acpi_base::field::{number_at, u32_at};
use acpi_rules::{Numbered, Place, Repeat, first_repeated};
use std::alloc::{AllocError, Global};

// ---- text

/// Whether a byte is no printable ASCII, and none of the zeros at the end of the text.
fn is_no_text(text: &[u8]) -> bool
    ensures { IsTrue result ↔ IsNoText text.now }
{
    let mut is_odd = false;
    for byte in text {
        if *byte < 0x20 || *byte > 0x7e {
            is_odd = true;
        }
        if is_odd && *byte != 0 {
            return true;
        }
    }
    false
}

/// Whether the text at an offset of a header has such a byte.
fn is_odd_field(header: &[u8], offset: usize, size: usize) -> bool
    requires { offset + size ≤ length header.now }
    ensures { IsTrue result ↔ IsNoText (take size (drop offset header.now)) }
{
    is_no_text(&header[offset..offset + size])
}

/// The place of the text at an offset, with its number, if it has such a byte.
pub fn odd_number(bytes: &[u8], offset: usize, size: usize) -> Option<Place>
    requires size { (1 ≤ size) × (size ≤ 8) }
    requires room { offset + size ≤ length bytes.now }
    ensures { FindsLeast (IsOddNumber bytes.now offset size) result }
{
    is_odd_field(bytes, offset, size).then_some(Place {
        at: offset as u64,
        other: 0,
        point: number_at(bytes, offset, size),
    })
}

/// The place of the first text of a header, behind its signature, with such a byte.
pub fn odd_oem(header: &[u8]) -> Option<Place>
    requires { 36 ≤ length header.now }
    ensures { FindsLeast (IsOddOem header.now) result }
{
    let later = odd_number(header, 16, 8).or(odd_number(header, 28, 4));
    odd_number(header, 10, 6).or(later)
}

/// The offset of the first field of a header with such a byte.
pub fn odd_field(header: &[u8]) -> Option<u8>
    requires { length header.now ≡ 36 }
    ensures { IsFirstOdd header.now result }
{
    if is_odd_field(header, 0, 4) {
        Some(0)
    } else if is_odd_field(header, 10, 6) {
        Some(10)
    } else if is_odd_field(header, 16, 8) {
        Some(16)
    } else if is_odd_field(header, 28, 4) {
        Some(28)
    } else {
        None
    }
}

/// 148 HeaderText, look at it (5.2.6): a text of a table's header has a byte that is not printable.
/// Numbers: `at` is the slot's number, `other` the offset of the text, `point` is the table's address.
/// "The table at {point}, of slot {at:d}, has a byte that is not printable in the text at {other} of its header."
///
/// The first slot that lists a header with such a field. The tables are those of a set.
pub fn header_text(tables: &CompleteTables<'_>) -> Option<Place>
    ensures { (m : Memory) (p : ℕ) → AreCompleteTables m p tables.now
        → FindsLeast (IsHeaderText m p) result }
{
    for slot in &tables.slots {
        if let Some(offset) = slot.table.odd_text {
            return Some(Place {
                at: slot.number,
                other: u64::from(offset),
                point: slot.table.address,
            });
        }
    }
    None
}

// ---- tables of which a set has one

/// The signatures of the tables beside the five kinds that are read of which a set has one at most.
const ONCE: [[u8; 4]; 35] = [
    *b"BERT", *b"BGRT", *b"CCEL", *b"CPEP", *b"DBG2", *b"DMAR", *b"ECDT", *b"EINJ", *b"ERST",
    *b"FPDT", *b"GTDT", *b"HEST", *b"HMAT", *b"IORT", *b"IVRS", *b"MCFG", *b"MPST", *b"MSCT",
    *b"NFIT", *b"PCCT", *b"PDTT", *b"PHAT", *b"PMTT", *b"PRMT", *b"RASF", *b"RAS2", *b"SBST",
    *b"SDEI", *b"SDEV", *b"SPCR", *b"SVKL", *b"TPM2", *b"VIOT", *b"WAET", *b"WSMT",
];

/// Whether a signature is one of these.
fn is_among(names: &[[u8; 4]], signature: u32) -> bool
    ensures { result ≡ list_any (λ s. s == signature) (map signature_number names.now) }
{
    for name in names {
        if u32_at(name, 0) == signature {
            return true;
        }
    }
    false
}

/// Whether a set has one table with this signature at most.
#[tactic(auto, unfolding(crate::specs::Rules::HeaderAdvice::once_signatures))]
fn is_once(signature: u32) -> bool
    ensures { result ≡ is_once signature }
{
    is_among(&ONCE, signature)
}

/// The signature of the header that a slot lists, if a set has one such table at most: the slot's address, at its
/// number.
fn once_numbered(slot: &Slot) -> Option<Numbered>
    ensures { result ≡ once_numbered slot.now }
{
    let signature = slot.table.signature;
    is_once(signature).then_some(Numbered {
        number: u64::from(signature),
        at: slot.number,
        value: slot.table.address,
    })
}

/// The same of all slots.
fn numbered_once(alloc: Global, slots: &[Slot]) -> Result<Vec<Numbered>, AllocError>
    ensures { IfOk result (λ given. given.items ≡ filter_map once_numbered slots.now) }
{
    let mut given = Vec::new(alloc);
    for slot in slots {
        if let Some(numbered) = once_numbered(slot) {
            given.push(numbered)?;
        }
    }
    Ok(given)
}

/// The address that the slot with a number lists.
fn address_of(slots: &[Slot], number: u64) -> u64
    ensures { AllPairs (λ s t. s.number < t.number) slots.now
        → (s : Slot) → Contains slots.now s → s.number ≡ number → result ≡ s.table.address }
{
    for slot in slots {
        if slot.number == number {
            return slot.table.address;
        }
    }
    0
}

/// 149 SecondOther, look at it (5.2.6): a second table of a kind is listed that should be listed once.
/// Numbers: `at` is the slot's number, `other` that of the first slot with this signature, `point` is the address in
/// slot `at`.
/// "Slot {at:d} lists a second table of a kind that should be listed once, at {point}: the first is in slot {other:d}."
///
/// The first slot that lists a table of which a set has one, at another address than the first slot with its signature.
/// The tables are those of a set. Allocates for each such slot.
pub fn second_other(alloc: Global, tables: &CompleteTables<'_>) -> Result<Option<Place>, AllocError>
    ensures { (m : Memory) (p : ℕ) → AreCompleteTables m p tables.now
        → IfOk result (FindsLeast (IsSecondOther m p)) }
{
    let given = numbered_once(alloc, &tables.slots)?;
    let Some(place) = first_repeated(given, Repeat::Unlike)? else {
        return Ok(None);
    };
    Ok(Some(Place {
        at: place.at,
        other: place.other,
        point: address_of(&tables.slots, place.at),
    }))
}
