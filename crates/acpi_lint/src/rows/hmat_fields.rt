//! The HMAT (ACPI 6.5, 5.2.28): its structures, what they list, and their fields, by the standard's names. Offsets are from
//! the start of the structure, or of what it lists.

use acpi_rules::{Extent, Field, Head, Inner, Kind, Multiple, Path, Series, Shape, Start, Sum};

/// The structures, which begin with their type, of 2 bytes, and their length, of 4.
pub const HMAT_SERIES: Series = Series {
    start: Start::At(40),
    extent: Extent::ToEnd,
    shape: Shape::Headed(Head {
        kind: field!(0, 2),
        length: field!(4, 4),
        least: 8,
    }),
};

pub const HMAT_STRUCTURES: Path = Path::Entries(HMAT_SERIES);

/// Memory Proximity Domain Attributes (5.2.28.3).
pub const ATTRIBUTES: Kind = kind!(0, 40);

pub const ATTRIBUTES_FLAGS: Field = field!(8, 2);

/// Proximity Domain for the Attached Initiator.
pub const ATTACHED_INITIATOR: Field = field!(12, 4);

/// Proximity Domain for the Memory.
pub const ATTRIBUTES_MEMORY: Field = field!(16, 4);

/// System Locality Latency and Bandwidth Information (5.2.28.4), with the fields before its lists.
pub const LOCALITY: Kind = kind!(1, 32..);

pub const LOCALITY_FLAGS: Field = field!(8, 1);

pub const DATA_TYPE: Field = field!(9, 1);

/// Number of Initiator Proximity Domains, and of Target Proximity Domains.
pub const INITIATORS: Field = field!(12, 4);

pub const TARGETS: Field = field!(16, 4);

/// Entry Base Unit.
pub const BASE_UNIT: Field = field!(24, 8);

/// Its lists: the domains of the initiators, those of the targets, and a number for each initiator and each target.
pub const HMAT_INITIATORS: Path = Path::Inside(
    HMAT_SERIES,
    Inner {
        first: 1,
        last: 1,
        series: Series {
            start: Start::At(32),
            extent: Extent::Counted(INITIATORS),
            shape: Shape::Records(4),
        },
    },
);

pub const HMAT_TARGETS: Path = Path::Inside(
    HMAT_SERIES,
    Inner {
        first: 1,
        last: 1,
        series: Series {
            start: Start::Behind(Sum {
                base: 32,
                first: Multiple {
                    times: 4,
                    of: INITIATORS,
                },
                second: Multiple {
                    times: 0,
                    of: TARGETS,
                },
            }),
            extent: Extent::Counted(TARGETS),
            shape: Shape::Records(4),
        },
    },
);

pub const HMAT_ENTRIES: Path = Path::Inside(
    HMAT_SERIES,
    Inner {
        first: 1,
        last: 1,
        series: Series {
            start: Start::Behind(Sum {
                base: 32,
                first: Multiple {
                    times: 4,
                    of: INITIATORS,
                },
                second: Multiple {
                    times: 4,
                    of: TARGETS,
                },
            }),
            extent: Extent::Product(INITIATORS, TARGETS),
            shape: Shape::Records(2),
        },
    },
);

/// The domain of an initiator or of a target.
pub const LISTED_DOMAIN: Kind = kind!(0, 4);

pub const DOMAIN: Field = field!(0, 4);

/// The number for an initiator and a target, which counts in units of Entry Base Unit.
pub const ENTRY: Kind = kind!(0, 2);

pub const ENTRY_VALUE: Field = field!(0, 2);

/// Memory Side Cache Information (5.2.28.5), with the fields before its list.
pub const MEMORY_CACHE: Kind = kind!(2, 32..);

pub const MEMORY_CACHE_DOMAIN: Field = field!(8, 4);

/// Memory Side Cache Attributes.
pub const MEMORY_CACHE_ATTRIBUTES: Field = field!(24, 4);

/// Number of SMBIOS Handles.
pub const SMBIOS_HANDLES: Field = field!(30, 2);
