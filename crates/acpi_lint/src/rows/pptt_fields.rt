//! The entries of the PPTT and their fields, by the standard's names (ACPI 6.5, 5.2.30).

use crate::rows::table_fields::TYPED;
use acpi_rules::{Extent, Field, Inner, Kind, Path, Series, Shape, Start};

/// The entries.
pub const PPTT_SERIES: Series = Series {
    start: Start::At(36),
    extent: Extent::ToEnd,
    shape: TYPED,
};

pub const PPTT_ENTRIES: Path = Path::Entries(PPTT_SERIES);

/// Processor Hierarchy Node (5.2.30.1), which has 20 bytes, and 4 for each private resource.
pub const NODE: Kind = kind!(0, 20..);

pub const NODE_FLAGS: Field = field!(4, 4);

pub const NODE_PARENT: Field = field!(8, 4);

pub const NODE_ID: Field = field!(12, 4);

pub const NODE_RESOURCES: Field = field!(16, 4);

/// The private resources of each node: the offset of another structure.
pub const PPTT_RESOURCES: Path = Path::Inside(
    PPTT_SERIES,
    Inner {
        first: 0,
        last: 0,
        series: Series {
            start: Start::At(20),
            extent: Extent::Counted(NODE_RESOURCES),
            shape: Shape::Records(4),
        },
    },
);

pub const RESOURCE: Kind = kind!(0, 4);

pub const RESOURCE_OFFSET: Field = field!(0, 4);

/// Cache Type Structure (5.2.30.2), before and since it has a Cache ID.
pub const CACHE_24: Kind = kind!(1, 24);

pub const CACHE_28: Kind = kind!(1, 28);

pub const CACHE_FLAGS: Field = field!(4, 4);

pub const CACHE_NEXT_LEVEL: Field = field!(8, 4);

pub const CACHE_SIZE: Field = field!(12, 4);

pub const CACHE_SETS: Field = field!(16, 4);

pub const CACHE_ASSOCIATIVITY: Field = field!(20, 1);

pub const CACHE_ATTRIBUTES: Field = field!(21, 1);

pub const CACHE_LINE_SIZE: Field = field!(22, 2);

pub const CACHE_ID: Field = field!(24, 4);

/// Entries of a type that neither `check` nor these rules read: the ID structure, of type 2, went with ACPI 6.4.
pub const PPTT_FROM_2: Kind = kind!(2..=0xffff);
