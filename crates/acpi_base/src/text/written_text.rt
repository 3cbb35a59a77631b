//! Images written as text, which `read_image` reads.

ghost use Rattle.std.specs.Prelude.{◌≡◌, ◌+◌, ◌<◌, ◌≤◌, ◌++◌, ◌∷◌, length, take, IfOk, OnOk};
ghost use Rattle.acpi_base.specs.Text.WrittenText.{pair, row, rows, row_count, line_with_lf, text_of, address_line, run_lines, IsWritten};

use crate::image::LentImage;
use std::alloc::{AllocError, Global};

/// How many bytes a line has at most.
const ROW: usize = 16;

/// How many characters a line has at most: a blank before each byte's two digits, and the LF.
const LINE: usize = 3 * ROW + 1;

/// Writes a blank and a byte's two digits into a line.
#[tactic(auto, using(crate::proofs::Texts::Written::Pairs::pair_put))]
fn put_pair(line: &mut [u8], at: usize, byte: u8)
    requires { at + 3 ≤ length line.old }
    ensures written { take (at + 3) line.new ≡ take at line.old ++ 32 ∷ pair byte }
    ensures same { length line.new ≡ length line.old }
{
    let mut digits = [0; 2];
    hex::encode_to_slice([byte], &mut digits).unwrap();
    line[at] = b' ';
    line[at + 1] = digits[0];
    line[at + 2] = digits[1];
}

/// Adds a line of bytes, which is made in a buffer and appended at once.
#[tactic(auto, using(crate::proofs::Texts::Written::Rows::pairs), unfolding(crate::specs::Text::WrittenText::row, crate::specs::Text::WrittenText::spaced_pairs))]
fn write_row(text: &mut Vec<u8>, bytes: &[u8]) -> Result<(), AllocError>
    requires some { 0 < length bytes.now }
    requires short { length bytes.now ≤ 16 }
    ensures { OnOk result (text.new.items ≡ text.old.items ++ line_with_lf (row bytes.now)) }
{
    let mut line = [0; LINE];
    let mut end = 0;
    for byte in bytes {
        put_pair(&mut line, end, *byte);
        end += 3;
    }
    line[end] = b'\n';
    // There is no blank before the first byte.
    text.extend_from_slice(&line[1..end + 1])
}

/// Adds the lines of a run.
#[tactic(auto, using(crate::proofs::Texts::Written::Rows::lines))]
fn write_run(
    text: &mut Vec<u8>,
    alloc: Global,
    address: u64,
    bytes: &[u8],
) -> Result<(), AllocError>
    ensures { OnOk result (text.new.items ≡ text.old.items ++ text_of
        (run_lines (record { base = address; bytes = bytes.now }))) }
{
    let line = format!(in alloc; "@{address:x}\n")?;
    text.extend_from_slice(line.as_bytes())?;
    for row in bytes.chunks(ROW) {
        write_row(text, row)?;
    }
    Ok(())
}

/// Writes an image as text: for each run of addresses with bytes, in rising order, `@` and its first address, and then
/// its bytes, 16 per line, as pairs of hex digits separated by single blanks. Digits are in lower case, the address has
/// no leading zeros, and each line ends with LF.
///
/// An image has one such text. `read_image` reads it as the image if it has at most 67,108,864 bytes, and refuses a
/// longer one with `TooLong`.
#[tactic(auto, using(crate::proofs::Texts::Written::WrittenRuns::written_runs))]
pub fn image_text(alloc: Global, image: &LentImage<'_>) -> Result<Vec<u8>, AllocError>
    ensures { IfOk result (λ text. IsWritten text.items image.now) }
{
    // Opens the invariant of `Image` to the proof, and does nothing when it runs.
    image.numbers_fit();
    let mut text = Vec::new(alloc);
    let mut from = 0;
    while let Some((base, bytes)) = image.run_from(from) {
        write_run(&mut text, alloc, base, bytes)?;
        // A run that ends at 2^64 is the last.
        let Some(end) = base.checked_add(bytes.len() as u64) else {
            break;
        };
        from = end;
    }
    Ok(text)
}
