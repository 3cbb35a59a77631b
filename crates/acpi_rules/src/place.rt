//! Places of findings.

/// Where something is found: up to three numbers, whose meaning depends on the rule. Those that it does not use are 0.
/// Places compare by `at`, then by `other`, then by `point`.
#[derive(Clone, Copy, Debug, PartialEq, Eq, PartialOrd)]
pub struct Place {
    /// Where it is reported.
    pub at: u64,
    /// A second number.
    pub other: u64,
    /// A third one.
    pub point: u64,
}

impl Place {
    ghost use Rattle.std.specs.Prelude.{◌≡◌};

    /// The place of a finding that uses one number.
    pub fn at(at: u64) -> Place
        ensures { result ≡ record { at = at; other = 0; point = 0 } }
    {
        Place {
            at,
            other: 0,
            point: 0,
        }
    }
}
