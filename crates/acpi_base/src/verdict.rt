//! Verdicts.

use crate::witness::Witness;

/// The result of a check.
#[derive(Clone, Copy, Debug, PartialEq, Eq)]
pub enum Verdict {
    /// Every requested stage holds.
    Yes,
    /// The first fault.
    No(Witness),
}
