//! The eighteen stages of a check.

ghost use Rattle.std.specs.Prelude.{◌≡◌, ◌≤◌, ◌↔◌, IsSome, IfSome};
ghost use Rattle.acpi_base.specs.Codes.{stage_number};

/// A part of the check. A stage is checked only if all earlier ones hold. Sections are those of ACPI 6.5.
#[derive(Clone, Copy, Debug, PartialEq, Eq)]
pub enum Stage {
    /// The RSDP (5.2.5.3).
    Rsdp,
    /// The XSDT or RSDT (5.2.7, 5.2.8).
    Root,
    /// Each listed table's header, length and checksum (5.2.6).
    Tables,
    /// The FADT (5.2.9).
    Fadt,
    /// The FACS (5.2.10).
    Facs,
    /// The MADT (5.2.12).
    Madt,
    /// Interrupt numbers: none is served by two I/O APICs (5.2.12.3).
    Interrupts,
    /// Interrupt source overrides: none contradicts another (5.2.12.5).
    Overrides,
    /// The SRAT (5.2.16).
    Srat,
    /// Memory ranges: no address is in two (5.2.16.2).
    Ranges,
    /// The SLIT (5.2.17).
    Slit,
    /// The PPTT (5.2.30).
    Pptt,
    /// References of the PPTT's entries (5.2.30).
    References,
    /// Chains of parents end (5.2.30.1).
    Parents,
    /// Chains of caches end (5.2.30.2).
    Caches,
    /// No enabled processor has two proximity domains (5.2.12, 5.2.16).
    Domains,
    /// Each interrupt number that an entry names is served (5.2.12).
    Served,
    /// Each leaf of the PPTT is a processor of the MADT (5.2.12, 5.2.30.1).
    Leaves,
}

/// All stages, in the order of their numbers.
const STAGES: [Stage; 18] = [
    Stage::Rsdp,
    Stage::Root,
    Stage::Tables,
    Stage::Fadt,
    Stage::Facs,
    Stage::Madt,
    Stage::Interrupts,
    Stage::Overrides,
    Stage::Srat,
    Stage::Ranges,
    Stage::Slit,
    Stage::Pptt,
    Stage::References,
    Stage::Parents,
    Stage::Caches,
    Stage::Domains,
    Stage::Served,
    Stage::Leaves,
];

impl Stage {
    /// The last stage: a check goes up to it if no other is given.
    pub const LAST: Stage = Stage::Leaves;

    /// The stage with this number, from 1 to 18.
    pub fn new(number: u8) -> Option<Stage>
        ensures some { IsSome result ↔ ((1 ≤ number) × (number ≤ 18)) }
        ensures same { IfSome result (λ stage. stage_number stage ≡ number) }
    {
        let index = number.checked_sub(1)?;
        STAGES.get(usize::from(index)).copied()
    }

    /// The stage's number, from 1 to 18.
    pub fn number(self) -> u8
        ensures { result ≡ stage_number self }
    {
        self as u8 + 1
    }
}
