//! The lines of the RSDP, of the root, and of its slots.

use crate::fields::{add_decimal, add_hex};
use acpi_base::LentImage;
use acpi_base::field::u8_at;
use acpi_read::{Root, Rsdp, Table};
use std::alloc::AllocError;

/// The offset of Revision in an RSDP (ACPI 6.5, 5.2.5.3).
const REVISION: usize = 15;

/// Adds `rsdp ADDRESS revision N`, if the 20 bytes of the RSDP at this address are present.
pub fn add_rsdp(text: &mut String, image: &LentImage<'_>, address: u64) -> Result<(), AllocError> {
    let Some(head) = image.window(address, Rsdp::SHORT_LENGTH) else {
        return Ok(());
    };
    let revision = u8_at(head, REVISION);
    add_hex(text, "rsdp ", address)?;
    add_decimal(text, " revision ", revision)?;
    text.push('\n')
}

/// Adds the line of the root table, `root ADDRESS RSDT length N slots N`, or the same for an XSDT, and those of its
/// slots.
pub fn add_root(
    text: &mut String,
    image: &LentImage<'_>,
    root: &Root<'_>,
) -> Result<(), AllocError> {
    let kind = if root.wide() { " XSDT" } else { " RSDT" };
    let length = root.bytes().len();
    let slots = root.slots();
    add_hex(text, "root ", root.address())?;
    text.push_str(kind)?;
    add_decimal(text, " length ", length as u64)?;
    add_decimal(text, " slots ", slots)?;
    text.push('\n')?;
    for slot in 0..slots {
        add_slot(text, image, slot, root.slot(slot))?;
    }
    Ok(())
}

/// Adds the line of a slot of the root, `slot K ADDRESS SIGNATURE length N revision N`; `slot K empty`, if it lists nothing;
/// or `slot K ADDRESS bad`, if the table there is not complete.
fn add_slot(
    text: &mut String,
    image: &LentImage<'_>,
    slot: u32,
    address: u64,
) -> Result<(), AllocError> {
    if address == 0 {
        add_decimal(text, "slot ", slot)?;
        return text.push_str(" empty\n");
    }
    let Some(table) = Table::complete(image, address) else {
        add_decimal(text, "slot ", slot)?;
        add_hex(text, " ", address)?;
        return text.push_str(" bad\n");
    };
    let header = table.header();
    add_decimal(text, "slot ", slot)?;
    add_hex(text, " ", address)?;
    text.push(' ')?;
    add_signature(text, header.signature)?;
    add_decimal(text, " length ", header.length)?;
    add_decimal(text, " revision ", header.revision)?;
    text.push('\n')
}

/// Adds a signature as four characters: printable ASCII, 0x20 to 0x7e, as it is, any other byte as a dot.
fn add_signature(text: &mut String, signature: [u8; 4]) -> Result<(), AllocError> {
    for byte in signature {
        let is_printed = byte == b' ' || byte.is_ascii_graphic();
        text.push(if is_printed { char::from(byte) } else { '.' })?;
    }
    Ok(())
}
