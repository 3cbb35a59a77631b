//! The base of all parts of the ACPI table checker: images of a machine's memory, the text that they are read from,
//! the codes of faults, and the definitions of a valid set of tables.
//!
//! - `Image`: bytes at 64-bit addresses. `DraftImage` builds one from pieces in any order. `read_image`, `parse_image`
//!   read one from image text, `ImageText` from such a text in pieces, and `written_text::image_text` writes it.
//!   `LentImage` may borrow bytes; what takes one takes an `Image` too.
//! - `sum`, `find_rsdp`: a checksum, and the search for the RSDP.
//! - `field`: numbers and bytes at an offset in a table, read and written.
//! - `Frame`, `Question`: the checks of a structure whose header has its length.
//! - `Code`, `Stage`, `Witness`, `Verdict`: what can be wrong, in which part of the check, where, and the
//!   result of a check. `witness_text` and `verdict_text` write them.
//! - `TableKind`: the five kinds of tables whose contents are read, with their signatures.
//! - `Policy`: the settings of a check.
//! - `Tally`: a reader or writer that counts its failures.
//! - `laws`: what holds for the definitions, such as that an image has one first fault or none.
//!
//! ```rust
//! let mut reader = Tally::new(b"@1000\n01 02\n03 # the last byte\n".as_slice());
//! let image = read_image(alloc, &mut reader)?;
//! assert!(rt; image.window(0x1000, 3) == Some([1, 2, 3].as_slice()));
//! assert!(rt; image.window(0x1000, 4).is_none());
//! ```
//!
//! `specs/` has the definitions, one file for each subject. None depends on a function of the code.
#![tactic(auto)]

mod checksum;
mod code;
pub mod field;
mod find;
mod frame;
mod image;
pub mod laws;
mod policy;
mod stage;
mod table_kind;
mod tally;
mod text;
mod verdict;
mod witness;

pub use checksum::sum;
pub use code::Code;
pub use find::find_rsdp;
pub use frame::{Frame, Question};
pub use image::draft::DraftImage;
pub use image::{Image, ImageFault, LentImage};
pub use policy::{HotPlug, Policy, PolicyFault, Processors};
pub use stage::Stage;
pub use table_kind::TableKind;
pub use tally::{DeviceFailed, Tally};
pub use text::fault_parsing::parse_witness;
pub use text::fault_text::{verdict_text, witness_text};
pub use text::image_text::{ImageText, parse_image, read_image};
pub use text::{TextFault, written_text};
pub use verdict::Verdict;
pub use witness::Witness;
