//! Images that are passed as image text.

ghost use Rattle.acpi_c.specs.Sources.{Reads, text_source};

use crate::refusal::Refusal;
use acpi_base::{Image, parse_image};
use std::alloc::Global;

/// The image of the text. Refuses as `parse_image` does.
pub fn image_of_text(alloc: Global, text: &[u8]) -> Result<Image, Refusal>
    ensures { Reads (text_source text.now) result }
{
    let image = parse_image(alloc, text)?;
    Ok(image)
}
