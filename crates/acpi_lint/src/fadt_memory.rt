//! Advice on what a FADT names in memory: the DSDT and the FACS (ACPI 6.5, 5.2.10, 5.2.11).

ghost use Rattle.std.specs.Prelude.{◌≡◌, ◌≢◌, ◌≤◌, ◌⊎◌, ◌↔◌, IsTrue, true, false, length};
ghost use Rattle.acpi_base.specs.Number.{field, has_bit};
ghost use Rattle.acpi_rules.specs.Places.{FindsLeast};
ghost use Rattle.acpi_lint.specs.Rules.NamedAdvice.{IsBrokenDsdt, IsDsdtText, IsDsdtWrong, IsOddFacs, IsFacsReserved, IsS4BiosDiffers};

use crate::flags::is_set;
use crate::header_advice::odd_oem;
use crate::limits::{above, used};
use acpi_base::field::{is_signed, u8_at, u32_at};
use acpi_base::{Frame, LentImage, Question};
use acpi_read::{Facs, Fadt, fails};
use acpi_rules::Place;

/// Whether the header at an address is not that of a DSDT, or says a Length that no table has, or the table there has a
/// wrong checksum.
fn is_no_dsdt(image: &LentImage<'_>, address: u64) -> bool
    ensures { IsTrue result ↔ IsBrokenDsdt image.now address }
{
    fails(image, address, Frame::TABLE, Question::Signature(*b"DSDT"))
        || fails(image, address, Frame::TABLE, Question::Length)
        || fails(image, address, Frame::TABLE, Question::Sum)
}

/// 133 DsdtWrong, likely wrong (5.2.11.1): the DSDT has another signature, a wrong Length or a wrong checksum.
/// Numbers: `at` is 0x28 (40), the offset of DSDT in the FADT, `point` is the DSDT's address.
/// "The DSDT at {point}, which the FADT names, has another signature, a wrong Length or a wrong checksum."
///
/// DSDT, at 40, if what a FADT names as the DSDT is none, or has a wrong checksum.
pub fn dsdt_wrong(image: &LentImage<'_>, fadt: &Fadt<'_>) -> Option<Place>
    ensures { FindsLeast (IsDsdtWrong image.now fadt.now) result }
{
    let address = fadt.dsdt_address();
    (address != 0 && is_no_dsdt(image, address)).then_some(Place {
        at: 40,
        other: 0,
        point: address,
    })
}

/// 281 DsdtText, look at it (5.2.6): a text of the DSDT's header has a byte that is not printable.
/// Numbers: `at` is the text's offset in the DSDT: 0xa (10) for OEMID, 0x10 (16) for OEM Table ID, 0x1c (28) for Creator
/// ID; `point` is the text as a number.
/// "The text at {at} of the DSDT, {point} as a number, has a byte that is not printable."
///
/// The place of the first such text of what a FADT names as the DSDT, if it has this signature.
pub fn dsdt_text(image: &LentImage<'_>, fadt: &Fadt<'_>) -> Option<Place>
    ensures { FindsLeast (IsDsdtText image.now fadt.now) result }
{
    let address = fadt.dsdt_address();
    if address == 0 {
        return None;
    }
    let header = image.window(address, 36)?;
    if !is_signed(header, b"DSDT") {
        return None;
    }
    odd_oem(header)
}

/// The first field or reserved byte of a FACS that has no meaning.
fn odd_facs(bytes: &[u8]) -> Option<Place>
    requires { 64 ≤ length bytes.now }
    ensures { FindsLeast (IsOddFacs bytes.now) result }
{
    let ospm = above(bytes, 36, 4, 1).or(used(bytes, 40, 64));
    let version = above(bytes, 32, 1, 2).or(used(bytes, 33, 36).or(ospm));
    above(bytes, 20, 4, 3).or(version)
}

/// 146 FacsReserved, look at it (5.2.10): a field of the FACS has a reserved value.
/// Numbers: `at` is the field's offset in the FACS, `point` is its value.
/// "The field at {at} of the FACS has the value {point}, which is reserved."
///
/// The same of the FACS that a FADT names, if it is valid.
pub fn facs_reserved(image: &LentImage<'_>, fadt: &Fadt<'_>) -> Option<Place>
    ensures { FindsLeast (IsFacsReserved image.now fadt.now) result }
{
    let facs = Facs::read(image, fadt).ok()??;
    odd_facs(facs.bytes())
}

/// Whether a FADT has a command for S4BIOS and a FACS says that there is no S4BIOS, or the other way round.
fn is_other_s4bios(command: u8, facs: &[u8]) -> bool
    requires { 64 ≤ length facs.now }
    ensures { IsTrue result
        ↔ (((command ≢ 0) × (has_bit (field facs.now 20 4) 0 ≡ false))
        ⊎ ((command ≡ 0) × (has_bit (field facs.now 20 4) 0 ≡ true))) }
{
    (command == 0) == is_set(u32_at(facs, 20), 0)
}

/// 286 S4BiosDiffers, look at it (5.2.9, 5.2.10): S4BIOS_REQ of the FADT and S4BIOS_F of the FACS do not agree.
/// Numbers: `at` is 0x36 (54), the offset of S4BIOS_REQ, `point` is S4BIOS_REQ.
/// If `point` is 0: "S4BIOS_REQ, at {at} of the FADT, is 0, and S4BIOS_F of the FACS is set."
/// "S4BIOS_REQ, at {at} of the FADT, is {point}, and S4BIOS_F of the FACS is clear."
///
/// The place of S4BIOS_REQ of a FADT of hardware that is not reduced, if the FACS that it names is valid and says otherwise.
pub fn s4bios_differs(image: &LentImage<'_>, fadt: &Fadt<'_>) -> Option<Place>
    ensures { FindsLeast (IsS4BiosDiffers image.now fadt.now) result }
{
    if fadt.reduced() {
        return None;
    }
    let facs = Facs::read(image, fadt).ok()??;
    let command = u8_at(fadt.bytes(), 54);
    is_other_s4bios(command, facs.bytes()).then_some(Place {
        at: 54,
        other: 0,
        point: u64::from(command),
    })
}
