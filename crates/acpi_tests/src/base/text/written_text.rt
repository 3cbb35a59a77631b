//! Tests of the written form of an image.

use acpi_base::written_text::image_text;
use acpi_base::{Image, ImageFault};
use std::alloc::Global;

/// The smallest set at 0xe0000, and bytes on both sides of a gap.
const PIECES: [(u64, &[u8]); 4] = [
    (0xe0010, &[0x10, 0xff]),
    (0, &[0x0a]),
    (0xe0000, b"RSD PTR \x59AAAAAA\x02"),
    (u64::MAX, &[0xcb]),
];

/// The text of these bytes by hand, from the form's rules.
const WRITTEN: &[u8] = b"@0
0a
@e0000
52 53 44 20 50 54 52 20 59 41 41 41 41 41 41 02
10 ff
@ffffffffffffffff
cb
";

/// The text of an image to which the bytes are added in this order.
fn written(alloc: Global, pieces: &[(u64, &[u8])]) -> Result<Vec<u8>, ImageFault> {
    let mut image = Image::new(alloc);
    for (address, bytes) in pieces {
        image.add(*address, bytes)?;
    }
    Ok(image_text(alloc, &image)?)
}

#[test]
fn runs_are_written_in_rising_order(rt: HostRuntime) -> Result<(), ImageFault> {
    let text = written(rt.alloc(), &PIECES)?;
    assert!(rt; text.as_slice() == WRITTEN);
    Ok(())
}
