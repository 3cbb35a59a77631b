//! The bytes of a rebuilt set's RSDP.

ghost use Rattle.std.specs.Prelude.{◌≡◌, ◌++◌, length, IfOk};
ghost use Rattle.acpi_write.specs.Encoded.{checksum_of};
ghost use Rattle.acpi_write.specs.Rebuilt.{rsdp_head, rsdp_tail, rsdp_bytes};

use acpi_base::sum;
use acpi_read::Rsdp;
use std::alloc::{AllocError, Global};

/// The byte that makes the sum of the bytes 0, if they have 0 in its place.
fn checksum_of(bytes: &[u8]) -> u8
    ensures { result ≡ checksum_of bytes.now }
{
    0u8.wrapping_sub(sum(bytes))
}

/// The first 20 bytes of an RSDP of the extended form that names no RSDT, with this checksum.
#[tactic(auto, unfolding(acpi_base::specs::Number::number_bytes))]
fn rsdp_head(alloc: Global, oemid: [u8; 6], checksum: u8) -> Result<Vec<u8>, AllocError>
    ensures bytes { IfOk result (λ bytes. bytes.items ≡ rsdp_head oemid checksum) }
    ensures count { IfOk result (λ bytes. length bytes.items ≡ 20) }
{
    let mut bytes = Vec::from_slice(alloc, b"RSD PTR ")?;
    bytes.push(checksum)?;
    bytes.extend_from_slice(&oemid)?;
    bytes.extend_from_slice(&[2, 0, 0, 0, 0])?;
    Ok(bytes)
}

/// The head, followed by the 16 bytes that name the XSDT, with this extended checksum.
fn with_tail(alloc: Global, head: &[u8], xsdt: u64, checksum: u8) -> Result<Vec<u8>, AllocError>
    ensures { IfOk result (λ bytes. bytes.items ≡ head.now ++ rsdp_tail xsdt checksum) }
{
    let mut bytes = Vec::from_slice(alloc, head)?;
    bytes.extend_from_slice(&(Rsdp::EXTENDED_LENGTH as u32).to_le_bytes())?;
    bytes.extend_from_slice(&xsdt.to_le_bytes())?;
    bytes.extend_from_slice(&[checksum, 0, 0, 0])?;
    Ok(bytes)
}

/// The 36 bytes of an RSDP with this OEMID that names the XSDT at an address and no RSDT (ACPI 6.5, 5.2.5.3): its first
/// 20 bytes sum to 0, and so do all.
#[tactic(auto, unfolding(crate::specs::Rebuilt::rsdp_bytes))]
pub(crate) fn rsdp_bytes(alloc: Global, oemid: [u8; 6], xsdt: u64) -> Result<Vec<u8>, AllocError>
    ensures bytes { IfOk result (λ bytes. bytes.items ≡ rsdp_bytes oemid xsdt) }
    ensures count { IfOk result (λ bytes. length bytes.items ≡ 36) }
{
    let open_head = rsdp_head(alloc, oemid, 0)?;
    let head = rsdp_head(alloc, oemid, checksum_of(&open_head))?;
    let open_bytes = with_tail(alloc, &head, xsdt, 0)?;
    with_tail(alloc, &head, xsdt, checksum_of(&open_bytes))
}
