//! Two searches that a checker of tables needs. Each returns the first case in a fixed order, so that the result does
//! not depend on how the tables list their entries.
//!
//! - `first_clash`: for spans of numbers, such as memory ranges, the first overlap: the lowest number that is in two,
//!   and the first two spans that contain it.
//! - `first_stray`: for nodes that refer to their parents, the first one whose chain of parents leads into a cycle
//!   and never ends, and where its cycle begins.
//!
//! `sort_unless_sorted` sorts what such a checker gathers, which is mostly in order already.
//!
//! ```rust
//! let low = Span::new(0, 10, 1).unwrap(); // 0 to 9, under the name 1
//! let high = Span::new(8, 12, 2).unwrap(); // 8 to 11, under the name 2
//! let spans = vec![in alloc; low, high]?;
//! let (clash, comparisons) = first_clash(alloc, spans)?;
//! let found = Clash::At {
//!     first: 1,
//!     second: 2,
//!     point: 8,
//! };
//! assert!(rt; clash == found && comparisons == 1);
//!
//! let (stray, steps) = first_stray(alloc, &[None, Some(0), Some(3), Some(3)])?;
//! let found = Stray::Round {
//!     node: 2,
//!     lead: 1,
//!     round: 1,
//! };
//! assert!(rt; stray == found && steps == 4);
//! ```
//!
//! The searches return how many of their steps they took. The steps inside a sort are not counted.
#![tactic(auto)]

mod clash;
mod sorting;
mod span;
mod stray;

pub use clash::{Clash, first_clash};
pub use sorting::sort_unless_sorted;
pub use span::Span;
pub use stray::{Stray, first_stray};
