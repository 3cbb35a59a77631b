//! The GTDT (ACPI 6.5, 5.2.25): its timers, its platform timers and their fields, by the standard's names. Offsets are from
//! the start of the structure.

use acpi_rules::{Extent, Field, Head, Inner, Kind, Path, Series, Shape, Start};

/// One with the fields of Revision 0 or 1, of Revision 2, and of Revision 3.
pub const GTDT_80: Kind = kind!(0, 80..);

pub const GTDT_96: Kind = kind!(0, 96..);

pub const GTDT_104: Kind = kind!(0, 104..);

/// Non-Secure EL1 timer GSIV, and Virtual EL1 timer GSIV.
pub const NON_SECURE_TIMER: Field = field!(56, 4);

pub const VIRTUAL_TIMER: Field = field!(64, 4);

/// Platform Timer Count, and Platform Timer Offset.
pub const TIMER_COUNT: Field = field!(88, 4);

pub const TIMERS_OFFSET: Field = field!(92, 4);

/// The GSIVs of the timers and their flags, at 48 (secure EL1), 56, 64, 72 (EL2) and 96 (virtual EL2). The fields between the
/// last two are of the same size.
pub const GTDT_TIMERS: Path = Path::Entries(Series {
    start: Start::At(48),
    extent: Extent::ToEnd,
    shape: Shape::Records(8),
});

pub const TIMER: Kind = kind!(0, 8);

pub const TIMER_GSIV: Field = field!(0, 4);

/// The platform timers, of a table whose Platform Timer Offset is not within its fields. They begin with their type and their
/// length, of 2 bytes.
pub const PLATFORM_TIMER_SERIES: Series = Series {
    start: Start::Said {
        field: TIMERS_OFFSET,
        least: 96,
    },
    extent: Extent::Counted(TIMER_COUNT),
    shape: Shape::Headed(Head {
        kind: field!(0, 1),
        length: field!(1, 2),
        least: 4,
    }),
};

pub const PLATFORM_TIMERS: Path = Path::Entries(PLATFORM_TIMER_SERIES);

pub const PLATFORM_TIMER_TYPE: Field = field!(0, 1);

/// A platform timer of a type that there is not.
pub const PLATFORM_TIMER_FROM_2: Kind = kind!(2..=0xffff);

/// GT Block Structure (5.2.25.1), with the fields before its timers.
pub const BLOCK: Kind = kind!(0, 20..);

/// GT Block Physical Address.
pub const BLOCK_ADDRESS: Field = field!(4, 8);

/// GT Block Timer Count, and GT Block Timer Offset.
pub const FRAME_COUNT: Field = field!(12, 4);

pub const FRAMES_OFFSET: Field = field!(16, 4);

/// The timers of each block, of which each has its frame.
pub const FRAMES: Path = Path::Inside(
    PLATFORM_TIMER_SERIES,
    Inner {
        first: 0,
        last: 0,
        series: Series {
            start: Start::Said {
                field: FRAMES_OFFSET,
                least: 20,
            },
            extent: Extent::Counted(FRAME_COUNT),
            shape: Shape::Records(40),
        },
    },
);

pub const FRAME: Kind = kind!(0, 40);

/// GT Frame Number.
pub const FRAME_NUMBER: Field = field!(0, 1);

/// GTx Physical Address, CntBaseX, and GTx Physical Address, CntEL0BaseX.
pub const FRAME_BASE: Field = field!(4, 8);

pub const FRAME_EL0_BASE: Field = field!(12, 8);

/// GTx Physical Timer GSIV, and GTx Virtual Timer GSIV.
pub const FRAME_GSIV: Field = field!(20, 4);

pub const FRAME_VIRTUAL_GSIV: Field = field!(28, 4);

/// GTx Common Flags: bit 0 says that the timer is secure.
pub const FRAME_FLAGS: Field = field!(36, 4);

/// Arm Generic Watchdog Structure (5.2.25.2).
pub const WATCHDOG: Kind = kind!(1, 28);

/// RefreshFrame Physical Address, and WatchdogControlFrame Physical Address.
pub const REFRESH_FRAME: Field = field!(4, 8);

pub const CONTROL_FRAME: Field = field!(12, 8);

pub const WATCHDOG_GSIV: Field = field!(20, 4);
