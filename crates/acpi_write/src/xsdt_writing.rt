//! The bytes of a rebuilt set's XSDT.

ghost use Rattle.std.specs.Prelude.{◌≡◌, ◌+◌, ◌*◌, ◌^◌, ◌<◌, length, flat_map, IfOk};
ghost use Rattle.acpi_base.specs.Number.{number_bytes};
ghost use Rattle.acpi_base.specs.Signature.{xsdt_signature};
ghost use Rattle.acpi_write.specs.Encoded.{table_bytes};
ghost use Rattle.acpi_write.specs.Views.{head_value};

use crate::encode::with_header;
use crate::table_value::Head;
use std::alloc::{AllocError, Global};

/// A slot of 8 bytes for each address.
#[tactic(auto, using(crate::proofs::EntryBytes::EntryLists::entry_lists), unfolding(acpi_base::specs::Number::number_bytes))]
fn slots(alloc: Global, addresses: &[u64]) -> Result<Vec<u8>, AllocError>
    ensures { IfOk result (λ bytes. bytes.items ≡ flat_map (number_bytes 8) addresses.now) }
{
    let mut bytes = Vec::new(alloc);
    for address in addresses {
        bytes.extend_from_slice(&address.to_le_bytes())?;
    }
    Ok(bytes)
}

/// The bytes of an XSDT with this head, which lists the addresses (ACPI 6.5, 5.2.8).
#[tactic(auto, using(crate::proofs::NewSets::NewRoot::root_slots))]
pub(crate) fn xsdt_bytes(
    alloc: Global,
    head: &Head,
    addresses: &[u64],
) -> Result<Vec<u8>, AllocError>
    requires { 36 + 8 * length addresses.now < 2 ^ 32 }
    ensures bytes { IfOk result
        (λ bytes. bytes.items ≡ table_bytes xsdt_signature (head_value head.now)
        (flat_map (number_bytes 8) addresses.now)) }
    ensures count { IfOk result (λ bytes. length bytes.items ≡ 36 + 8 * length addresses.now) }
{
    let slots = slots(alloc, addresses)?;
    with_header(alloc, *b"XSDT", head, &slots)
}
