//! All that is wrong with a set of tables: the first fault of each code, and the first finding of each rule of
//! advice.
//!
//! Earlier stages need not hold: a table whose checksum is wrong is still checked, and a dangling reference ends its
//! chain.
//!
//! An example, from `crates/acpi_tests/src/lint.rt`. The RSDP at 0xE0000 has a wrong byte in its signature, and so a
//! wrong checksum. It names an RSDT that lists the address 0x2000 in slots 0 and 1, where there is no table.
//!
//! ```rust
//! let policy = Policy::new(alloc, 0xe0000, 24)?;
//! let found = lint(alloc, &image, &policy)?;
//! let faults = [
//!     Witness::at(Code::RsdpSignature, 0xe0000),
//!     Witness::at(Code::RsdpSum, 0xe0000),
//!     Witness {
//!         code: Code::TableHeaderOut,
//!         at: 0,
//!         other: 0x2000,
//!         point: 0,
//!     },
//!     Witness::at(Code::NoFadt, 0),
//! ];
//! let advice = [Advice {
//!     rule: Rule::ListedTwice,
//!     at: 1,
//!     other: 0,
//!     point: 0x2000,
//! }];
//! assert_eq!(rt; found.faults.as_slice(), faults.as_slice());
//! assert_eq!(rt; found.advice.as_slice(), advice.as_slice());
//! ```
#![tactic(auto)]

mod advice;
mod by_hand;
mod cache_types;
mod complete_tables;
mod ecam;
mod facs;
mod fadt;
mod fadt_blocks;
mod fadt_memory;
mod faults;
mod findings;
mod first_slots;
mod flags;
mod further_table;
mod header_advice;
mod held_stages;
pub mod laws;
mod limits;
mod listed_slots;
mod madt_advice;
mod missing_tables;
mod numbered;
mod one_code;
mod packages;
mod passes;
mod references;
mod root;
mod root_advice;
mod row_findings;
mod rows;
mod rsdp;
mod rsdp_advice;
mod rule;
mod sci;
mod slit;
mod slot_advice;
mod slots;
mod spcr;
mod structures;
mod table_at;
mod text;
mod timers;
mod verdicts;
mod well_formed;

pub use findings::{Findings, lint};
pub use further_table::{FurtherTable, RowTable};
pub use rows::{RowGroup, row_groups};
pub use rule::{Advice, Rule};
pub use text::advice_text;
