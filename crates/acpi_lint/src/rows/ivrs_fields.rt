//! The IVRS (AMD 48882, 5.2): its blocks, their device entries, and their fields, by the specification's names. Offsets are
//! from the start of the block, or of the device entry.

use crate::rows::table_fields::TYPE;
use acpi_rules::{
    Extent, Field, Head, Inner, Kind, LengthRows, Path, Series, Shape, Start, StartRows, Types,
};

/// The blocks, which begin with their type, of a byte, and have their length at 2.
pub const IVRS_SERIES: Series = Series {
    start: Start::At(48),
    extent: Extent::ToEnd,
    shape: Shape::Headed(Head {
        kind: TYPE,
        length: field!(2, 2),
        least: 4,
    }),
};

pub const IVRS_BLOCKS: Path = Path::Entries(IVRS_SERIES);

/// I/O Virtualization Hardware Definition, IVHD, of types 0x10, 0x11 and 0x40 (5.2.2).
pub const IVHD_10: Kind = kind!(0x10, 24..);

pub const IVHD_11: Kind = kind!(0x11, 40..);

pub const IVHD_40: Kind = kind!(0x40, 40..);

/// DeviceID.
pub const IVHD_DEVICE: Field = field!(4, 2);

/// IOMMU Base Address, and its lowest bytes.
pub const IVHD_BASE: Field = field!(8, 8);

pub const IVHD_BASE_15_0: Field = field!(8, 2);

/// PCI Segment Group.
pub const IVHD_SEGMENT: Field = field!(16, 2);

/// I/O Virtualization Memory Definition, IVMD, of any type, of those with a defined range of devices, and of a range from a
/// device to another (5.2.3).
pub const IVMD: Kind = kind!(0x20..=0x23, 32..);

pub const IVMD_OF_DEVICES: Kind = kind!(0x20..=0x22, 32..);

pub const IVMD_RANGE: Kind = kind!(0x22, 32..);

pub const IVMD_FLAGS: Field = field!(1, 1);

pub const IVMD_DEVICE: Field = field!(4, 2);

pub const IVMD_LAST_DEVICE: Field = field!(6, 2);

/// IVMD Start Address.
pub const IVMD_START: Field = field!(16, 8);

/// IVMD Memory Block Length.
pub const IVMD_LENGTH: Field = field!(24, 8);

/// The device entries at the end of an IVHD (5.2.2).
pub const DEVICE_ENTRIES: Path = Path::Inside(
    IVRS_SERIES,
    Inner {
        first: 0x10,
        last: 0x40,
        series: Series {
            start: Start::OfType {
                kind: TYPE,
                starts: StartRows::IvhdDevices,
            },
            extent: Extent::ToEnd,
            shape: Shape::ByType(Types {
                kind: TYPE,
                lengths: LengthRows::IvhdDevices,
            }),
        },
    },
);

/// DeviceID.
pub const ENTRY_DEVICE: Field = field!(1, 2);

/// The start of a range of devices, one of an alias, one with an extended setting, and the end of a range.
pub const RANGE_START: Kind = kind!(0x3, 4..);

pub const ALIAS_START: Kind = kind!(0x43, 8..);

pub const EXTENDED_START: Kind = kind!(0x47, 8..);

pub const RANGE_END: Kind = kind!(0x4, 4..);

/// A special device.
pub const SPECIAL: Kind = kind!(0x48, 8..);

pub const HANDLE: Field = field!(4, 1);

pub const VARIETY: Field = field!(7, 1);

/// An ACPI HID device.
pub const HID_DEVICE: Kind = kind!(0xf0, 22..);

/// The first byte of Hardware ID.
pub const HARDWARE_ID_0: Field = field!(4, 1);

pub const UID_FORMAT: Field = field!(20, 1);

pub const UID_LENGTH: Field = field!(21, 1);

/// Types of device entries that are not defined, by their lengths.
pub const UNKNOWN_OF_4: Kind = kind!(0x5..=0x3f);

pub const UNKNOWN_41: Kind = kind!(0x41..=0x41);

pub const UNKNOWN_44: Kind = kind!(0x44..=0x45);

pub const UNKNOWN_OF_8: Kind = kind!(0x49..=0x7f);

/// All types but that of the end of a range, and all but those of the start of one.
pub const BELOW_END: Kind = kind!(0..=3);

pub const ABOVE_END: Kind = kind!(5..=0xff);

pub const BELOW_START: Kind = kind!(0..=2);

pub const BELOW_ALIAS_START: Kind = kind!(4..=0x42);

pub const BELOW_EXTENDED_START: Kind = kind!(0x44..=0x46);

pub const ABOVE_STARTS: Kind = kind!(0x48..=0xff);
