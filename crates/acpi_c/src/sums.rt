//! Running sums of bytes that are lent.

ghost use Rattle.std.specs.Prelude.{◌≡◌};

use crate::pieces::{Piece, long_bytes};
use acpi_base::LentImage;
use acpi_read::{Root, Table};
use std::alloc::AllocError;

/// Whether the tables that are listed have more bytes than this, each counted as often as it is listed. Slots in a row
/// that list the same one count once, as it is read once for them.
fn list_more_than(image: &LentImage<'_>, rsdp: u64, most: u64) -> bool {
    let Some(root) = Root::complete(image, rsdp) else {
        return false;
    };
    let mut total: u64 = 0;
    let mut last = 0;
    for k in 0..root.slots() {
        let address = root.slot(k);
        if address == last {
            continue;
        }
        last = address;
        if let Some(table) = Table::complete(image, address) {
            total = total.saturating_add(table.bytes().len() as u64);
        }
        if total > most {
            return true;
        }
    }
    false
}

/// Makes the running sums of the bytes that are lent, if tables overlap or are listed again, so that more bytes are to be
/// summed than there are: else each byte is read once without them.
pub fn add_sums(
    image: &mut LentImage<'_>,
    pieces: &[Piece<'_>],
    rsdp: u64,
) -> Result<(), AllocError>
    ensures { image.new ≡ image.old }
{
    let lent = long_bytes(pieces);
    if lent > 0 && list_more_than(image, rsdp, lent) {
        image.add_sums()?;
    }
    Ok(())
}
