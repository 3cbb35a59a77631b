//! The check: whether the tables of an image are valid, and if not, the first fault.
//!
//! Each stage is one function, which is called only if the earlier stages hold, and reports its own first fault. The
//! first five pass on what they have read: the RSDP, the root table, the listed tables, the FADT, the FACS. The
//! others read that, and pass on nothing. `check` runs all eighteen in their order, `check_to` those up to one.
//! `read_set` and `check_set` return the set for which stages 1 to 3, or all eighteen, hold. Stages 7, 10 and 13 to 18
//! allocate; so does stage 3 for many slots, but it does without if out of memory. The others do not.
//!
//! A loop over the entries of a table is mostly a function that is not inlined: as a part of `check_to`, which has all of
//! them, it would keep its counters in memory, and a check of 240 processors would take some 6 % more instructions.
//!
//! The finders of stages that have one code are public: `check_interrupts`, `check_overrides`, `check_ranges`,
//! `first_cycle`, `check_domains`, `check_served` and `check_leaves` require nothing of earlier stages, and may be
//! called on any table. So may `check_entries`, stages 6, 9 and 12; `check_references`, stage 13, requires that stage 12
//! holds for the table. Public too are the functions that read an entry of a PPTT (`named_offset`, `first_dangling`),
//! `collected`, which gathers values, the searches that look them up, and `BitSet`.
//!
//! An example, from `crates/acpi_cli/src/check.rt`, where the set at an address is checked under a policy up to a
//! stage:
//!
//! ```rust
//! policy.set_rsdp(address);
//! let verdict = check_to(alloc, image, &policy, last)?; // `Verdict::Yes`, or `Verdict::No` with the first fault
//! let bytes = verdict_text(alloc, &verdict)?;
//! ```
#![tactic(auto)]

mod bit_set;
mod chains;
mod collecting;
mod domains;
mod entries;
mod facs;
mod fadt;
mod first_seen;
mod interrupts;
mod later_stages;
mod leaves;
mod nodes;
mod overrides;
mod places;
mod processors;
mod range_kind;
mod ranges;
mod read_addresses;
mod references;
mod refusal;
mod root;
mod rsdp;
mod search;
mod served;
mod set;
mod slit;
mod stages;
mod tables;

pub use bit_set::BitSet;
pub use chains::{first_cycle, named_offset};
pub use collecting::collected;
pub use domains::check_domains;
pub use entries::check_entries;
pub use interrupts::check_interrupts;
pub use leaves::{HAS_LEAVES, check_leaves};
pub use nodes::Chain;
pub use overrides::check_overrides;
pub use ranges::check_ranges;
pub use references::{check_references, first_dangling};
pub use refusal::Refusal;
pub use search::{binary_search, has, sorted_unique};
pub use served::check_served;
pub use set::{CleanSet, ListedSet};
pub use stages::{check, check_set, check_to, read_set};
