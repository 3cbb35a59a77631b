//! What tables have in common (ACPI 6.5, 5.2.6): a header, and entries that begin with their type and their length.

use acpi_rules::{Field, Head, Kind, Path, Shape};

/// The table itself: no entry of it.
pub const TABLE: Path = Path::Table;

/// The table, whatever its length.
pub const WHOLE: Kind = kind!(0, 0..);

/// Its Length.
pub const LENGTH: Field = field!(4, 4);

/// Its Revision.
pub const REVISION: Field = field!(8, 1);

/// The first three bytes of its OEMID.
pub const OEM_ID_0_2: Field = field!(10, 3);

/// An entry's type, of a byte, and its length, of a byte.
pub const TYPE: Field = field!(0, 1);

/// Entries that begin with these.
pub const TYPED: Shape = Shape::Headed(Head {
    kind: TYPE,
    length: field!(1, 1),
    least: 2,
});

/// Reserved bytes of entries, by their offsets.
pub const RESERVED_2: Field = field!(2, 1);

pub const RESERVED_3: Field = field!(3, 1);

pub const RESERVED_6: Field = field!(6, 1);

pub const RESERVED_7: Field = field!(7, 1);

pub const RESERVED_9: Field = field!(9, 1);

pub const RESERVED_10: Field = field!(10, 1);

pub const RESERVED_11: Field = field!(11, 1);

pub const RESERVED_16: Field = field!(16, 1);

pub const RESERVED_17: Field = field!(17, 1);

pub const RESERVED_18: Field = field!(18, 1);

pub const RESERVED_19: Field = field!(19, 1);

pub const RESERVED_20: Field = field!(20, 1);

pub const RESERVED_21: Field = field!(21, 1);

pub const RESERVED_22: Field = field!(22, 1);

pub const RESERVED_23: Field = field!(23, 1);

pub const RESERVED_24: Field = field!(24, 1);

pub const RESERVED_25: Field = field!(25, 1);

pub const RESERVED_26: Field = field!(26, 1);

pub const RESERVED_27: Field = field!(27, 1);

pub const RESERVED_28: Field = field!(28, 1);

pub const RESERVED_29: Field = field!(29, 1);

pub const RESERVED_30: Field = field!(30, 1);

pub const RESERVED_31: Field = field!(31, 1);

pub const RESERVED_32: Field = field!(32, 1);

pub const RESERVED_33: Field = field!(33, 1);

pub const RESERVED_34: Field = field!(34, 1);

pub const RESERVED_35: Field = field!(35, 1);

pub const RESERVED_36: Field = field!(36, 1);

pub const RESERVED_37: Field = field!(37, 1);

pub const RESERVED_38: Field = field!(38, 1);

pub const RESERVED_39: Field = field!(39, 1);

pub const RESERVED_77: Field = field!(77, 1);
