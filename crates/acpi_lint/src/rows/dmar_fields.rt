//! The DMAR (Intel VT-d specification, 8.1 to 8.9): its structures, their device scopes, and their fields, by the
//! specification's names. Offsets are from the start of the structure, or of what is in it.

use crate::rows::table_fields::TYPE;
use acpi_rules::{Extent, Field, Head, Inner, Kind, Path, Series, Shape, Start, StartRows};

/// Host Address Width.
pub const HOST_ADDRESS_WIDTH: Field = field!(36, 1);

/// Flags.
pub const DMAR_FLAGS: Field = field!(37, 1);

/// The structures' type, of 2 bytes.
pub const DMAR_TYPE: Field = field!(0, 2);

/// The structures, which begin with their type and their length, of 2 bytes each.
pub const DMAR_SERIES: Series = Series {
    start: Start::At(48),
    extent: Extent::ToEnd,
    shape: Shape::Headed(Head {
        kind: DMAR_TYPE,
        length: field!(2, 2),
        least: 4,
    }),
};

pub const DMAR_STRUCTURES: Path = Path::Entries(DMAR_SERIES);

/// DMA Remapping Hardware Unit Definition, DRHD (8.3).
pub const DRHD: Kind = kind!(0, 16..);

pub const DRHD_FLAGS: Field = field!(4, 1);

pub const DRHD_SIZE: Field = field!(5, 1);

pub const DRHD_SEGMENT: Field = field!(6, 2);

/// Register Base Address, and its lowest bytes.
pub const DRHD_BASE: Field = field!(8, 8);

pub const DRHD_BASE_15_0: Field = field!(8, 2);

/// Reserved Memory Region Reporting, RMRR (8.4), and one without a device scope.
pub const RMRR: Kind = kind!(1, 24..);

pub const RMRR_ALONE: Kind = kind!(1, 24);

/// Reserved Memory Region Base Address, and Limit Address, and their lowest bytes.
pub const RMRR_BASE: Field = field!(8, 8);

pub const RMRR_BASE_15_0: Field = field!(8, 2);

pub const RMRR_LIMIT: Field = field!(16, 8);

pub const RMRR_LIMIT_15_0: Field = field!(16, 2);

/// Root Port ATS Capability Reporting, ATSR (8.5).
pub const ATSR: Kind = kind!(2, 8..);

pub const ATSR_FLAGS: Field = field!(4, 1);

pub const ATSR_SEGMENT: Field = field!(6, 2);

/// Remapping Hardware Static Affinity, RHSA (8.6).
pub const RHSA: Kind = kind!(3, 20..);

/// Register Base Address.
pub const RHSA_BASE: Field = field!(8, 8);

/// Proximity Domain.
pub const RHSA_DOMAIN: Field = field!(16, 4);

/// ACPI Name-space Device Declaration, ANDD (8.7).
pub const ANDD: Kind = kind!(4, 9..);

/// ACPI Device Number.
pub const ANDD_NUMBER: Field = field!(7, 1);

/// SoC Integrated Address Translation Cache, SATC (8.8), and SoC Integrated Device Property, SIDP (8.9).
pub const SATC: Kind = kind!(5, 8..);

pub const SIDP: Kind = kind!(6, 8..);

/// The device scopes (8.3.1) at the end of a DRHD, an RMRR, an ATSR, a SATC or an SIDP.
const DEVICE_SCOPES: Inner = Inner {
    first: 0,
    last: 6,
    series: Series {
        start: Start::OfType {
            kind: DMAR_TYPE,
            starts: StartRows::DeviceScopes,
        },
        extent: Extent::ToEnd,
        shape: Shape::Headed(Head {
            kind: TYPE,
            length: SCOPE_LENGTH,
            least: 8,
        }),
    },
};

pub const SCOPES: Path = Path::Inside(DMAR_SERIES, DEVICE_SCOPES);

/// Any device scope, one of an I/O APIC, and one of a namespace device.
pub const SCOPE: Kind = kind!(0..=255);

pub const IO_APIC_SCOPE: Kind = kind!(3, 8..);

pub const NAMESPACE_SCOPE: Kind = kind!(5, 8..);

pub const SCOPE_LENGTH: Field = field!(1, 1);

/// Enumeration ID.
pub const ENUMERATION_ID: Field = field!(4, 1);

/// The steps of a device scope's path.
pub const STEPS: Path = Path::Innermost(
    DMAR_SERIES,
    DEVICE_SCOPES,
    Inner {
        first: 0,
        last: 255,
        series: Series {
            start: Start::At(6),
            extent: Extent::ToEnd,
            shape: Shape::Records(2),
        },
    },
);

pub const STEP: Kind = kind!(0, 2);

pub const STEP_DEVICE: Field = field!(0, 1);

pub const STEP_FUNCTION: Field = field!(1, 1);
