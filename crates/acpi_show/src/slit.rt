//! The lines of the SLIT.

ghost use Rattle.std.specs.Prelude.{◌<◌};

use crate::fields::{add_decimal, add_hex};
use crate::unread::{Unread, add_unread};
use acpi_base::Code;
use acpi_read::{Listed, Slit};
use std::alloc::AllocError;

/// Adds the lines of the SLIT: `slit ADDRESS count N`, and one for each locality.
pub fn add_slit(text: &mut String, listed: &Listed<'_>) -> Result<(), AllocError> {
    let address = listed.address;
    let table = listed.table.copied();
    let slit = match Slit::new(table) {
        Ok(slit) => slit,
        Err(fault) => {
            let why = if fault.code == Code::SlitShort {
                Unread::Short
            } else {
                Unread::Bad
            };
            return add_unread(text, "slit", address, why);
        }
    };
    let count = slit.count();
    add_hex(text, "slit ", address)?;
    add_decimal(text, " count ", count)?;
    text.push('\n')?;
    for row in 0..count {
        add_row(text, &slit, row)?;
    }
    Ok(())
}

/// Adds `row I D D ..`: the distances from locality I to each locality.
fn add_row(text: &mut String, slit: &Slit<'_>, row: u32) -> Result<(), AllocError>
    requires { row < slit.now.count }
{
    add_decimal(text, "row ", row)?;
    for column in 0..slit.count() {
        add_decimal(text, " ", slit.distance(row, column))?;
    }
    text.push('\n')
}
