//! The bytes of a rebuilt set, as they are in memory.

ghost use Rattle.std.specs.Prelude.{◌≡◌, ◌-◌, ◌<◌, ◌≤◌, ◌++◌, length, replicate, IfOk, OnOk};
ghost use Rattle.std.specs.List.{All};
ghost use Rattle.acpi_write.specs.Placed.{IsPlaced};
ghost use Rattle.acpi_write.specs.Rebuilt.{option_list, part_places, rebuilt_image};
ghost use Rattle.acpi_write.specs.SetBytes.{AreAllBytes};
ghost use Rattle.acpi_write.specs.Views.{set_value, IsShaped, IsShort};

use crate::set_value::SetValue;
use crate::set_writing::part;
use std::alloc::{AllocError, Global};

/// Appends the bytes of a part at this offset, and zeros before it.
fn append_at(bytes: &mut Vec<u8>, offset: usize, part: &[u8]) -> Result<(), AllocError>
    requires { length bytes.old.items ≤ offset }
    ensures { OnOk result (bytes.new.items ≡ bytes.old.items
        ++ (replicate (offset - length bytes.old.items) 0 ++ part.now)) }
{
    bytes.resize(offset, 0)?;
    bytes.extend_from_slice(part)
}

/// The bytes of the parts of a set at their addresses, the first of which is the base address; zeros are between them.
/// Besides these, the bytes of only one part at a time are in memory.
pub(crate) fn set_bytes(
    alloc: Global,
    value: &SetValue<'_>,
    base: u64,
    places: &[u64],
) -> Result<Vec<u8>, AllocError>
    requires shaped { All IsShaped value.now.tables.items }
    requires short { All IsShort value.now.tables.items }
    requires facs { All (λ bytes. 0 < length bytes) (option_list (set_value value.now).facs) }
    requires placed { IsPlaced (set_value value.now) base }
    requires places { places.now ≡ part_places (set_value value.now) base }
    ensures { IfOk result (λ bytes.
        AreAllBytes (rebuilt_image (set_value value.now) base) base bytes.items) }
{
    let mut bytes = Vec::new(alloc);
    for k in 0..places.len() {
        let part = part(alloc, value, places, k)?;
        append_at(&mut bytes, (places[k] - base) as usize, &part)?;
    }
    Ok(bytes)
}
