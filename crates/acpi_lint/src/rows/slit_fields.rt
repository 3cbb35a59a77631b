//! The fields of the SLIT (ACPI 6.5, 5.2.17).

use acpi_rules::Field;

/// Number of System Localities.
pub const LOCALITIES: Field = field!(36, 8);
