//! What rules by hand say of an SPCR (Microsoft's Serial Port Console Redirection Table 1.10).

ghost use Rattle.std.specs.Prelude.{◌≡◌, ◌↔◌, IsTrue};
ghost use Rattle.acpi_base.specs.Madt.{madt_contents};
ghost use Rattle.acpi_rules.specs.Places.{FindsLeast};
ghost use Rattle.acpi_lint.specs.Rules.SpcrAdvice.{IsGsiUnserved, IsNameOpen, IsUnserved, ServesNone, io_apic_gsi, name_end};

use crate::sci::{has_io_apic, is_served};
use crate::well_formed::is_madt_well_formed;
use acpi_base::Policy;
use acpi_base::field::{u8_at, u16_at, u32_at};
use acpi_read::Table;
use acpi_rules::Place;

/// The offset of the last byte of the namespace string of a table from Revision 4 on, if the string has 2 bytes or more
/// and lies within the table, behind its fields.
fn name_end(bytes: &[u8]) -> Option<usize>
    ensures { result ≡ name_end bytes.now }
{
    if bytes.len() < 88 || u8_at(bytes, 8) < 4 {
        return None;
    }
    let size = usize::from(u16_at(bytes, 84));
    let start = usize::from(u16_at(bytes, 86));
    if size < 2 || start < 88 || start + size > bytes.len() {
        return None;
    }
    Some(start + size - 1)
}

/// Of 276 SpcrName: the last byte of the namespace string, if it is not 0.
pub fn name_open(spcr: &Table<'_>) -> Option<Place>
    ensures { FindsLeast (IsNameOpen spcr.now) result }
{
    let bytes = spcr.bytes();
    let last = name_end(bytes)?;
    let byte = u8_at(bytes, last);
    (byte != 0).then_some(Place {
        at: last as u64,
        other: 0,
        point: u64::from(byte),
    })
}

/// The GSI of a table with the fields of its Revision, if its interrupt is one of an I/O APIC.
fn io_apic_gsi(bytes: &[u8]) -> Option<u64>
    ensures { result ≡ io_apic_gsi bytes.now }
{
    if bytes.len() < 80 || (u8_at(bytes, 8) >= 4 && bytes.len() < 88) {
        return None;
    }
    if u8_at(bytes, 52) & 0b10 == 0 {
        return None;
    }
    Some(u64::from(u32_at(bytes, 54)))
}

/// Whether none of the I/O APICs of a MADT serves an interrupt number, although there are some.
fn serves_none(policy: &Policy, madt: &Table<'_>, gsi: u64) -> bool
    ensures { IsTrue result ↔ ServesNone policy.now (madt_contents madt.now) gsi }
{
    has_io_apic(madt) && !is_served(policy, madt, gsi)
}

/// The same for a MADT that is well-formed.
fn is_unserved(policy: &Policy, madt: &Table<'_>, gsi: u64) -> bool
    ensures { IsTrue result ↔ IsUnserved policy.now (madt_contents madt.now) gsi }
{
    serves_none(policy, madt, gsi) && is_madt_well_formed(policy, madt)
}

/// Of 274 SpcrGsi: the GSI, if the interrupt is one of an I/O APIC and the MADT has none for it.
pub fn gsi_unserved(policy: &Policy, spcr: &Table<'_>, madt: &Table<'_>) -> Option<Place>
    ensures { FindsLeast (IsGsiUnserved policy.now spcr.now (madt_contents madt.now)) result }
{
    let gsi = io_apic_gsi(spcr.bytes())?;
    is_unserved(policy, madt, gsi).then_some(Place {
        at: 54,
        other: 0,
        point: gsi,
    })
}
