//! A rule by hand on an MCFG: ECAMs that overlap (PCI Firmware Specification 3.3, 4.1.2).

ghost use Rattle.std.specs.Prelude.{◌≡◌, IfOk};
ghost use Rattle.std.specs.List.{filter_map};
ghost use Rattle.acpi_rules.specs.Places.{FindsLeast};
ghost use Rattle.acpi_lint.specs.Rules.McfgAdvice.{IsEcamOverlap, ecam_of};

use crate::rows::{ECAMS, MCFG_ENTRIES};
use acpi_read::Table;
use acpi_rules::{IndexedTable, Numbered, Place, Range, Tables, first_overlap, numbers_in_order};
use std::alloc::{AllocError, Global};

/// The ECAM of an entry whose base address is the number and whose value is 256 times its End Bus Number and its Start Bus
/// Number: its first and its last address, up to 2^64 - 1; none if it begins behind that. Each bus has 1 MiB.
#[tactic(auto, unfolding(crate::specs::Rules::McfgAdvice::ecam_of))]
fn ecam_of(given: &Numbered) -> Option<Numbered>
    ensures { result ≡ ecam_of given.now }
{
    let start = u128::from(given.number) + 0x10_0000 * u128::from(given.value % 256);
    if start > u128::from(u64::MAX) {
        return None;
    }
    let last = u128::from(given.number) + 0x10_0000 * u128::from(given.value / 256) + 0xf_ffff;
    Some(Numbered {
        number: start as u64,
        at: given.at,
        value: last.min(u128::from(u64::MAX)) as u64,
    })
}

/// The same of all entries that are given. Allocates for each.
fn all_ecams(alloc: Global, entries: &[Numbered]) -> Result<Vec<Numbered>, AllocError>
    ensures { IfOk result (λ all. all.items ≡ filter_map ecam_of entries.now) }
{
    let mut all = Vec::new(alloc);
    for entry in entries {
        if let Some(ecam) = ecam_of(entry) {
            all.push(ecam)?;
        }
    }
    Ok(all)
}

/// 191 EcamOverlap, likely wrong (PCI Firmware Specification 3.3, 4.1.2): the ECAMs of two entries of the MCFG share
/// an address.
/// Numbers: `at` and `other` are the offsets of two such entries, first the one whose ECAM begins lower, and of two
/// that begin together the one at the lower offset; `point` is the lowest address at which two overlap.
/// "The ECAMs of the entries at {at} and {other} of the MCFG share the address {point}."
/// An ECAM is the buses of an entry, of 1 MiB each, whose base address is not 0.
///
/// Allocates for each entry.
pub fn ecam_overlap(alloc: Global, mcfg: &Table<'_>) -> Result<Option<Place>, AllocError>
    ensures { IfOk result (FindsLeast (IsEcamOverlap mcfg.now)) }
{
    let tables = Tables {
        table: IndexedTable::new(mcfg.bytes()),
        other: IndexedTable::new(&[]),
    };
    let entries = numbers_in_order(alloc, &MCFG_ENTRIES, ECAMS, &tables)?;
    let ecams = all_ecams(alloc, &entries)?;
    first_overlap(ecams, Range::Last)
}
