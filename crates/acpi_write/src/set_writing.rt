//! The image of a rebuilt set.

ghost use Rattle.std.specs.Prelude.{◌≡◌, ◌+◌, ◌^◌, ◌<◌, ◌≤◌, length, true, IfOk, OnOk};
ghost use Rattle.std.specs.List.{All};
ghost use Rattle.acpi_base.specs.Memory.{with_bytes};
ghost use Rattle.acpi_write.specs.Encoded.{encoded_bytes_with, encoded_length};
ghost use Rattle.acpi_write.specs.Placed.{IsPlaced};
ghost use Rattle.acpi_write.specs.Rebuilt.{part_lengths, part_places, rebuilt_image, xsdt_length};
ghost use Rattle.acpi_write.specs.SetWriting.{EndsBelow, FitsFacs, IsPart, facs_among};
ghost use Rattle.acpi_write.specs.Views.{set_value, table_value, IsShaped, IsShort};

use crate::encode::{bytes_of, with_header};
use crate::fadt_body::with_facs;
use crate::rsdp_writing::rsdp_bytes;
use crate::set_value::SetValue;
use crate::table_value::TableValue;
use crate::xsdt_writing::xsdt_bytes;
use acpi_base::{Image, ImageFault};
use std::alloc::{AllocError, Global};

/// The bytes of a table in a set whose FACS is at this address, which is 0 if there is none.
fn bytes_with(alloc: Global, table: &TableValue<'_>, facs: u64) -> Result<Vec<u8>, AllocError>
    requires shaped { IsShaped table.now }
    requires short { IsShort table.now }
    requires low { FitsFacs facs table.now }
    ensures bytes { IfOk result
        (λ bytes. bytes.items ≡ encoded_bytes_with facs (table_value table.now)) }
    ensures count { IfOk result
        (λ bytes. length bytes.items ≡ encoded_length (table_value table.now)) }
{
    match table {
        TableValue::Fadt { head, body } => {
            let body = with_facs(alloc, body, facs)?;
            with_header(alloc, *b"FACP", head, &body)
        }
        _ => bytes_of(alloc, table),
    }
}

/// Adds the bytes of a part at its address, after everything that the image has.
fn put(image: &mut Image, place: u64, bytes: &[u8]) -> Result<(), AllocError>
    requires behind { EndsBelow image.old place }
    requires inside { place + length bytes.now ≤ 2 ^ 64 }
    ensures { OnOk result (image.new ≡ with_bytes image.old place bytes.now) }
{
    if let Err(fault) = image.add(place, bytes) {
        // The part ends below 2^64, and overlaps nothing that is present.
        prove!(matches!(fault, ImageFault::Memory));
        return Err(AllocError);
    }
    Ok(())
}

/// The bytes of the k-th part of a set: the RSDP, the XSDT, the FACS if there is one, or a table.
pub(crate) fn part(
    alloc: Global,
    value: &SetValue<'_>,
    places: &[u64],
    k: usize,
) -> Result<Vec<u8>, AllocError>
    requires shaped { All IsShaped value.now.tables.items }
    requires short { All IsShort value.now.tables.items }
    requires size { xsdt_length (set_value value.now) < 2 ^ 32 }
    requires low { All (FitsFacs (facs_among (set_value value.now) places.now))
        value.now.tables.items }
    requires places { length places.now ≡ length (part_lengths (set_value value.now)) }
    requires index { k < length places.now }
    ensures { IfOk result (λ bytes. IsPart (set_value value.now) places.now k bytes.items) }
{
    if k == 0 {
        return rsdp_bytes(alloc, value.oemid, places[1]);
    }
    if k == 1 {
        let tables = &places[places.len() - value.tables.len()..];
        return xsdt_bytes(alloc, &value.root, tables);
    }
    let Some(facs) = value.facs else {
        return bytes_with(alloc, &value.tables[k - 2], 0);
    };
    if k == 2 {
        return Vec::from_slice(alloc, facs);
    }
    bytes_with(alloc, &value.tables[k - 3], places[2])
}

/// The image that has the parts of a set at their addresses, the first of which is the base address, and nothing
/// else. Besides the image, the bytes of only one part at a time are in memory.
pub(crate) fn written_set(
    alloc: Global,
    value: &SetValue<'_>,
    base: u64,
    places: &[u64],
) -> Result<Image, AllocError>
    requires shaped { All IsShaped value.now.tables.items }
    requires short { All IsShort value.now.tables.items }
    requires placed { IsPlaced (set_value value.now) base }
    requires places { places.now ≡ part_places (set_value value.now) base }
    ensures { IfOk result (λ image. image ≡ rebuilt_image (set_value value.now) base) }
{
    prove!(places[0] == base);
    let mut image = Image::new(alloc);
    for k in 0..places.len() {
        let bytes = part(alloc, value, places, k)?;
        put(&mut image, places[k], &bytes)?;
    }
    Ok(image)
}
