//! Advice on the RSDP (ACPI 6.5, 5.2.5.3).

ghost use Rattle.std.specs.Prelude.{◌≡◌, ◌≤◌, ℕ, List, Some, length, MatchOption};
ghost use Rattle.acpi_base.specs.Rsdp.{revision_of};
ghost use Rattle.acpi_rules.specs.Places.{FindsLeast};
ghost use Rattle.acpi_lint.specs.Rules.RsdpAdvice.{AreExtendedBytes, IsOddRevision, IsLongRsdp, IsOddExtended, IsRsdpReserved, IsRsdpText};

use crate::header_advice::odd_number;
use crate::limits::used;
use acpi_base::LentImage;
use acpi_base::field::{u8_at, u32_at};
use acpi_read::Rsdp;
use acpi_rules::Place;

/// The Revision of an RSDP, whose first bytes these are.
pub fn revision_of(head: &[u8]) -> u8
    requires { 20 ≤ length head.now }
    ensures { result ≡ revision_of head.now }
{
    u8_at(head, 15)
}

/// The place of the Revision, if it is neither 0 nor 2.
fn odd_revision(image: &LentImage<'_>, rsdp: u64) -> Option<Place>
    ensures { FindsLeast (IsOddRevision image.now rsdp) result }
{
    let head = image.window(rsdp, Rsdp::SHORT_LENGTH)?;
    let revision = revision_of(head);
    (revision != 0 && revision != 2).then_some(Place {
        at: 15,
        other: 0,
        point: u64::from(revision),
    })
}

/// The 36 bytes of the extended form, if the RSDP has it and they are present.
fn extended_bytes<'a>(image: &'a LentImage<'_>, rsdp: u64) -> Option<&'a [u8]>
    ensures { MatchOption result ((bytes : List ℕ) → ¬ AreExtendedBytes image.now rsdp bytes)
        (λ bytes. AreExtendedBytes image.now rsdp bytes.now × (length bytes.now ≡ 36)) }
{
    let head = image.window(rsdp, Rsdp::SHORT_LENGTH)?;
    if revision_of(head) < 2 {
        return None;
    }
    image.window(rsdp, Rsdp::EXTENDED_LENGTH)
}

/// The place of the Length of the extended form, if that is above 36, and as many bytes are present.
fn long_rsdp(image: &LentImage<'_>, rsdp: u64, bytes: &[u8]) -> Option<Place>
    requires { length bytes.now ≡ 36 }
    ensures { FindsLeast (IsLongRsdp image.now rsdp bytes.now) result }
{
    let length = u64::from(u32_at(bytes, 20));
    if length <= Rsdp::EXTENDED_LENGTH {
        return None;
    }
    image.window(rsdp, length)?;
    Some(Place {
        at: 20,
        other: 0,
        point: length,
    })
}

/// The place of the first field or reserved byte of the extended form that has no meaning.
fn odd_extended(image: &LentImage<'_>, rsdp: u64) -> Option<Place>
    ensures { FindsLeast (IsOddExtended image.now rsdp) result }
{
    let bytes = extended_bytes(image, rsdp)?;
    long_rsdp(image, rsdp, bytes).or(used(bytes, 33, 36))
}

/// 147 RsdpReserved, look at it (5.2.5.3): a field of the RSDP has a reserved value.
/// Numbers: `at` is the field's offset in the RSDP, `point` is its value.
/// "The field at {at} of the RSDP has the value {point}, which is reserved."
///
/// The place of the first field or reserved byte of the RSDP at an address that has no meaning.
pub fn rsdp_reserved(image: &LentImage<'_>, rsdp: u64) -> Option<Place>
    ensures { FindsLeast (IsRsdpReserved image.now rsdp) result }
{
    odd_revision(image, rsdp).or(odd_extended(image, rsdp))
}

/// 279 RsdpText, look at it (5.2.5.3): the OEMID of the RSDP has a byte that is not printable.
/// Numbers: `at` is 0x9, the offset of OEMID in the RSDP, `point` is its 6 bytes as a number.
/// "The OEMID, at {at} of the RSDP, {point} as a number, has a byte that is not printable."
///
/// The place of the OEMID of the RSDP at an address, if it is no text.
pub fn rsdp_text(image: &LentImage<'_>, rsdp: u64) -> Option<Place>
    ensures { FindsLeast (IsRsdpText image.now rsdp) result }
{
    odd_number(image.window(rsdp, Rsdp::SHORT_LENGTH)?, 9, 6)
}
