//! What the tables of a set say, as lines of text: one for the RSDP, for the root table, for each of its slots, and for
//! each structure of the FADT, the FACS, the MADT, the SRAT, the SLIT and the PPTT.
//!
//! `set_text` makes the lines of a root table and of the first listed table of each kind: those of a set for which the
//! stages up to the listed tables hold, or, from `complete_tables`, those that are complete. Which tables these are is
//! proved; of the lines nothing is promised.
//!
//! An example, from `crates/acpi_cli/src/show.rt`:
//!
//! ```rust
//! let tables = complete_tables(image, &root);
//! let lines = set_text(alloc, image, address, &root, &tables)?.into_bytes();
//! ```
#![tactic(auto)]

mod entries;
mod fadt;
mod fields;
mod listed_tables;
mod madt;
mod pptt;
mod root;
mod set;
mod slit;
mod srat;
mod unread;

pub use listed_tables::complete_tables;
pub use set::set_text;
