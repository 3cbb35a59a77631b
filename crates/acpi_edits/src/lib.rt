//! Edits of the rules of `lint` that are rows: each number and each comparison of each row is changed at run time, and
//! the edited row is evaluated beside the unedited one. An edit after which the row finds the same on all tables that
//! are tried is reported.
//!
//! Only the edited row is compared with the unedited one here. That the unedited ones are right is judged by a second
//! program, on the sets of `tests/lint/near.py`.
//!
//! ```rust
//! let sets = read_sets(alloc, &bytes)?;
//! if sets.is_empty() {
//!     return println!(rt; "no sets");
//! }
//! let groups = row_groups();
//! report_unseen(&rt, alloc, &groups, &sets)
//! ```
#![tactic(auto)]

mod build;
mod changes;
mod edits;
mod fields;
mod lists;
mod near;
mod pair;
mod report;
mod search;
mod seeds;
mod sets;
mod shared;
mod text;

pub use report::report_unseen;
pub use sets::{Set, read_sets};
