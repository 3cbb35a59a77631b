//! The contents of ACPI tables, and their bytes: the value of a clean set, tables written from their contents, and
//! complete sets rebuilt at another address.
//!
//! - `values`: the contents of a clean set, without the addresses of its parts, or the first fault of a set that is
//!   not clean.
//! - `TableValue`: the contents of a table: of a `TableKind` by its contents, the FADT by its bytes after the header,
//!   and any other table by all its bytes.
//! - `encode_table`: the bytes of a table with a value, with the checksum that makes them sum to 0.
//! - `rebuild`: the set of an image rebuilt at a base address, or why it cannot be. `rebuild_bytes`: the same as the
//!   bytes from that address on.
//! - `laws`: what holds for the definitions: bytes encode at most one value of a kind, a table that is read and
//!   written again has the same contents, and a clean set has one value.
//!
//! An example, from `crates/acpi_cli/src/rebuild.rt`:
//!
//! ```rust
//! let rebuilt = rebuild(alloc, &image, policy, base);
//! drop(image);
//! match rebuilt {
//!     Ok(rebuilt) => {
//!         let bytes = image_text(alloc, &rebuilt)?;
//!         let outcome = Outcome::Yes;
//!         Ok(Output { bytes, outcome })
//!     }
//!     Err(fault) => refused(alloc, fault),
//! }
//! ```
#![tactic(auto)]

mod encode;
mod entry_bytes;
mod fadt_body;
pub mod laws;
mod placing;
mod rebuilding;
mod rsdp_writing;
mod set_bytes;
mod set_reading;
mod set_value;
mod set_writing;
mod table_reading;
mod table_value;
mod xsdt_writing;

pub use encode::{WriteFault, encode_table};
pub use placing::RebuildFault;
pub use rebuilding::{rebuild, rebuild_bytes};
pub use set_reading::values;
pub use set_value::{SetValue, ValuesFault};
pub use table_value::{Head, TableValue};
