//! Codes 26 to 31: the FACS (ACPI 6.5, 5.2.10).

ghost use Rattle.std.specs.Prelude.{◌≡◌, ◌≤◌, ◌↔◌, IsTrue, None, length};
ghost use Rattle.acpi_base.specs.Fadt.{facs_address};
ghost use Rattle.acpi_base.specs.Facs.{NamedFacsFault};
ghost use Rattle.acpi_base.specs.Faults.{FaultCondition};
ghost use Rattle.acpi_base.specs.Memory.{bytes_at};
ghost use Rattle.acpi_base.specs.declared.stage.Stage.{Stage};

use crate::fadt::is_reduced;
use crate::listed_tables::listed;
use acpi_base::field::{is_signed, u32_at, u64_at};
use acpi_base::{Code, LentImage, Policy, Witness};

/// Whether the witness is a fault of the FACS that the FADT names: `at` is its address, or 0 if none is named. A FADT
/// of fewer than 116 bytes has none of these faults.
pub(crate) fn is_facs_fault(image: &LentImage<'_>, policy: &Policy, witness: &Witness) -> bool
    ensures { IsTrue result ↔ FaultCondition Stage.Facs image.now policy.now witness.now }
{
    if witness.other != 0 || witness.point != 0 {
        return false;
    }
    match listed(image, policy, b"FACP") {
        Some(fadt) => has_fault(image, fadt, witness.code, witness.at),
        None => false,
    }
}

/// Whether the FACS that a FADT names has the fault with this code at an address.
fn has_fault(image: &LentImage<'_>, fadt: &[u8], code: Code, at: u64) -> bool
    ensures { IsTrue result ↔ ((116 ≤ length fadt.now)
        × NamedFacsFault image.now fadt.now code at) }
{
    if fadt.len() < 116 {
        return false;
    }
    let address = facs_address(fadt);
    let named = address != 0 && at == address;
    let prefix = image.window(at, 8);
    match code {
        Code::NoFacs => !is_reduced(fadt) && address == 0 && at == 0,
        Code::FacsAlign => named && at % 64 != 0,
        Code::FacsHeaderOut => named && prefix.is_none(),
        Code::FacsSignature => named && prefix.is_some_and(|prefix| !is_signed(prefix, b"FACS")),
        Code::FacsLength => named && prefix.is_some_and(|prefix| u32_at(prefix, 4) < 64),
        Code::FacsOut => match prefix {
            Some(prefix) => named && is_out(image, at, u32_at(prefix, 4)),
            None => false,
        },
        _ => false,
    }
}

/// Whether the Length is at least 64, and that many bytes from an address on are not all present.
fn is_out(image: &LentImage<'_>, address: u64, length: u32) -> bool
    ensures { IsTrue result ↔ ((64 ≤ length) × (bytes_at image.now address length ≡ None)) }
{
    length >= 64 && image.window(address, u64::from(length)).is_none()
}

/// The address that a FADT names: X_FIRMWARE_CTRL, at 132, if the table has it and it is not 0; otherwise
/// FIRMWARE_CTRL, at 36.
#[tactic(auto, unfolding(acpi_base::specs::Fadt::wide_address))]
fn facs_address(fadt: &[u8]) -> u64
    requires { 116 ≤ length fadt.now }
    ensures { result ≡ facs_address fadt.now }
{
    if fadt.len() >= 140 && u64_at(fadt, 132) != 0 {
        return u64_at(fadt, 132);
    }
    u64::from(u32_at(fadt, 36))
}
