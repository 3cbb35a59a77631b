//! The HPET (IA-PC HPET 1.0a, 3.2.4): its fields, by the standard's names.

use acpi_rules::{Field, Kind};

/// One with all its fields.
pub const HPET_FULL: Kind = kind!(0, 56..);

/// Base Address: its address space and its address.
pub const HPET_SPACE: Field = field!(40, 1);

pub const HPET_ADDRESS: Field = field!(44, 8);

/// Its bits 31:0, and its bits 63:32.
pub const HPET_ADDRESS_31_0: Field = field!(44, 4);

pub const HPET_ADDRESS_63_32: Field = field!(48, 4);
