//! The lines of the FADT, of its register blocks, and of the FACS.

use crate::fields::{add_decimal, add_hex};
use crate::unread::{Unread, add_unread};
use acpi_base::LentImage;
use acpi_base::field::{u8_at, u16_at, u32_at};
use acpi_read::{Block, Facs, Fadt, Gas, Listed};
use std::alloc::AllocError;

/// The offset of Preferred_PM_Profile in a FADT (ACPI 6.5, 5.2.9).
const PREFERRED_PM_PROFILE: usize = 45;

/// The offset of SCI_INT in a FADT.
const SCI_INT: usize = 46;

/// The offset of Flags in a FADT.
const FLAGS: usize = 112;

/// The offset of Version in a FACS (5.2.10).
const VERSION: usize = 32;

/// The names of the register blocks, in the order of a FADT's fields.
const BLOCKS: [&str; 8] = [
    "PM1a_EVT", "PM1b_EVT", "PM1a_CNT", "PM1b_CNT", "PM2_CNT", "PM_TMR", "GPE0", "GPE1",
];

/// Adds the lines of the FADT, of its blocks and of the FACS that it names.
pub fn add_fadt(
    text: &mut String,
    image: &LentImage<'_>,
    listed: &Listed<'_>,
) -> Result<(), AllocError> {
    let address = listed.address;
    let table = listed.table.copied();
    let Ok(fadt) = Fadt::new(table) else {
        return add_unread(text, "fadt", address, Unread::Short);
    };
    add_fields(text, address, &fadt)?;
    add_blocks(text, &fadt)?;
    add_facs(text, image, &fadt)
}

/// Adds the line of the FADT itself, `fadt ADDRESS length N profile N sci N flags FLAGS reduced yes`, or `reduced no`,
/// and `dsdt ADDRESS`, of the DSDT that it names; 0 for none.
fn add_fields(text: &mut String, address: u64, fadt: &Fadt<'_>) -> Result<(), AllocError> {
    let bytes = fadt.bytes();
    let profile = u8_at(bytes, PREFERRED_PM_PROFILE);
    let sci = u16_at(bytes, SCI_INT);
    let flags = u32_at(bytes, FLAGS);
    let reduced = if fadt.reduced() {
        " reduced yes\n"
    } else {
        " reduced no\n"
    };
    add_hex(text, "fadt ", address)?;
    add_decimal(text, " length ", bytes.len() as u64)?;
    add_decimal(text, " profile ", profile)?;
    add_decimal(text, " sci ", sci)?;
    add_hex(text, " flags ", flags)?;
    text.push_str(reduced)?;
    add_hex(text, "dsdt ", fadt.dsdt_address())?;
    text.push('\n')
}

/// Adds a line for each register block that the FADT gives an address: that of a generic address structure, or `block
/// NAME port BYTES ADDRESS`, with how many bytes the block has.
fn add_blocks(text: &mut String, fadt: &Fadt<'_>) -> Result<(), AllocError> {
    for k in 0..8u8 {
        let name = BLOCKS[usize::from(k)];
        match fadt.block(k) {
            Block::None => {}
            Block::Gas(gas) => add_gas(text, name, gas)?,
            Block::Port { address, bytes } => {
                add_block_name(text, name)?;
                add_decimal(text, " port ", bytes)?;
                add_hex(text, " ", address)?;
                text.push('\n')?;
            }
        }
    }
    Ok(())
}

/// Adds `block NAME`.
fn add_block_name(text: &mut String, name: &str) -> Result<(), AllocError> {
    text.push_str("block ")?;
    text.push_str(name)
}

/// Adds `block NAME gas SPACE WIDTH OFFSET ACCESS ADDRESS`.
fn add_gas(text: &mut String, name: &str, gas: Gas) -> Result<(), AllocError> {
    add_block_name(text, name)?;
    add_decimal(text, " gas ", gas.space)?;
    add_decimal(text, " ", gas.bit_width)?;
    add_decimal(text, " ", gas.bit_offset)?;
    add_decimal(text, " ", gas.access_size)?;
    add_hex(text, " ", gas.address)?;
    text.push('\n')
}

/// Adds the line of the FACS, if the FADT names one: `facs ADDRESS length N version N`.
fn add_facs(text: &mut String, image: &LentImage<'_>, fadt: &Fadt<'_>) -> Result<(), AllocError> {
    let address = fadt.facs_address();
    if address == 0 {
        return Ok(());
    }
    match Facs::read(image, fadt) {
        Ok(Some(facs)) => {
            let bytes = facs.bytes();
            let version = u8_at(bytes, VERSION);
            add_hex(text, "facs ", facs.address())?;
            add_decimal(text, " length ", bytes.len() as u64)?;
            add_decimal(text, " version ", version)?;
            text.push('\n')
        }
        Ok(None) => Ok(()),
        Err(_) => add_unread(text, "facs", address, Unread::Bad),
    }
}
