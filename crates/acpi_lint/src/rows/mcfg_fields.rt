//! The MCFG (PCI Firmware Specification 3.3, 4.1.2): its entries and their fields, by the standard's names. Offsets are
//! from an entry's start.

use acpi_rules::{Extent, Field, Kind, Path, Series, Shape, Start};

/// The entries, of 16 bytes each. What is behind the last whole one is not read.
pub const MCFG_SERIES: Series = Series {
    start: Start::At(44),
    extent: Extent::ToEnd,
    shape: Shape::Records(16),
};

pub const MCFG_ENTRIES: Path = Path::Entries(MCFG_SERIES);

pub const ECAM: Kind = kind!(0, 16);

/// Base Address: that of bus 0.
pub const ECAM_BASE: Field = field!(0, 8);

/// Its bits 15:0, 31:16, and 63:32.
pub const ECAM_BASE_15_0: Field = field!(0, 2);

pub const ECAM_BASE_31_16: Field = field!(2, 2);

pub const ECAM_BASE_63_32: Field = field!(4, 4);

/// PCI Segment Group Number.
pub const ECAM_SEGMENT: Field = field!(8, 2);

/// Start Bus Number.
pub const ECAM_FIRST_BUS: Field = field!(10, 1);

/// End Bus Number.
pub const ECAM_LAST_BUS: Field = field!(11, 1);
