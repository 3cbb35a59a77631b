//! The SRAT (ACPI 6.5, 5.2.16): its entries and their fields, by the standard's names. Offsets are from an entry's start.

use crate::rows::table_fields::TYPED;
use acpi_rules::{Extent, Field, Kind, Path, Series, Start};

/// The entries.
pub const SRAT_SERIES: Series = Series {
    start: Start::At(48),
    extent: Extent::ToEnd,
    shape: TYPED,
};

pub const SRAT_ENTRIES: Path = Path::Entries(SRAT_SERIES);

/// A reserved number of the table, which is 1.
pub const SRAT_RESERVED: Field = field!(36, 4);

/// Processor Local APIC/SAPIC Affinity (5.2.16.1). Bits 31:8 of the domain are separate from bits 7:0.
pub const APIC_AFFINITY: Kind = kind!(0, 16);

pub const APIC_AFFINITY_DOMAIN: Field = field!(2, 1);

pub const APIC_AFFINITY_DOMAIN_HIGH: Field = field!(9, 3);

pub const APIC_AFFINITY_ID: Field = field!(3, 1);

pub const APIC_AFFINITY_FLAGS: Field = field!(4, 4);

/// Memory Affinity (5.2.16.2).
pub const MEMORY: Kind = kind!(1, 40);

pub const MEMORY_DOMAIN: Field = field!(2, 4);

pub const MEMORY_BASE: Field = field!(8, 8);

pub const MEMORY_LENGTH: Field = field!(16, 8);

pub const MEMORY_FLAGS: Field = field!(28, 4);

/// Processor Local x2APIC Affinity (5.2.16.3).
pub const X2APIC_AFFINITY: Kind = kind!(2, 24);

pub const X2APIC_AFFINITY_DOMAIN: Field = field!(4, 4);

pub const X2APIC_AFFINITY_ID: Field = field!(8, 4);

pub const X2APIC_AFFINITY_FLAGS: Field = field!(12, 4);

/// GICC Affinity (5.2.16.4).
pub const GICC_AFFINITY: Kind = kind!(3, 18);

pub const GICC_AFFINITY_DOMAIN: Field = field!(2, 4);

pub const GICC_AFFINITY_UID: Field = field!(6, 4);

pub const GICC_AFFINITY_FLAGS: Field = field!(10, 4);

/// GIC Interrupt Translation Service Affinity (5.2.16.5).
pub const ITS_AFFINITY: Kind = kind!(4, 12);

pub const ITS_AFFINITY_DOMAIN: Field = field!(2, 4);

pub const ITS_AFFINITY_ID: Field = field!(8, 4);

/// Generic Initiator Affinity (5.2.16.6).
pub const INITIATOR: Kind = kind!(5, 32);

pub const INITIATOR_HANDLE_TYPE: Field = field!(3, 1);

pub const INITIATOR_DOMAIN: Field = field!(4, 4);

pub const INITIATOR_FLAGS: Field = field!(24, 4);

/// Generic Port Affinity (5.2.16.7).
pub const PORT: Kind = kind!(6, 32);

pub const PORT_HANDLE_TYPE: Field = field!(3, 1);

pub const PORT_DOMAIN: Field = field!(4, 4);

pub const PORT_FLAGS: Field = field!(24, 4);

/// RINTC Affinity (after ACPI 6.5).
pub const RINTC_AFFINITY: Kind = kind!(7, 20);

pub const RINTC_AFFINITY_DOMAIN: Field = field!(4, 4);

pub const RINTC_AFFINITY_UID: Field = field!(8, 4);

pub const RINTC_AFFINITY_FLAGS: Field = field!(12, 4);

/// Entries of a type that neither `check` nor these rules read.
pub const SRAT_FROM_8: Kind = kind!(8..=0xffff);
