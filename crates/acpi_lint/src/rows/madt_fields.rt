//! The MADT (ACPI 6.5, 5.2.12): its entries and their fields, by the standard's names. Offsets are from an entry's start.

use crate::rows::table_fields::TYPED;
use acpi_rules::{Extent, Field, Kind, Path, Series, Start};

/// The entries.
pub const MADT_SERIES: Series = Series {
    start: Start::At(44),
    extent: Extent::ToEnd,
    shape: TYPED,
};

pub const MADT_ENTRIES: Path = Path::Entries(MADT_SERIES);

/// Flags of the table.
pub const MADT_FLAGS: Field = field!(40, 4);

/// Processor Local APIC (5.2.12.2).
pub const LOCAL_APIC: Kind = kind!(0, 8);

pub const LOCAL_APIC_UID: Field = field!(2, 1);

pub const LOCAL_APIC_ID: Field = field!(3, 1);

pub const LOCAL_APIC_FLAGS: Field = field!(4, 4);

/// I/O APIC (5.2.12.3).
pub const IO_APIC: Kind = kind!(1, 12);

pub const IO_APIC_ID: Field = field!(2, 1);

pub const IO_APIC_ADDRESS: Field = field!(4, 4);

/// Interrupt Source Override (5.2.12.5).
pub const OVERRIDE: Kind = kind!(2, 10);

pub const OVERRIDE_SOURCE: Field = field!(3, 1);

pub const OVERRIDE_GSI: Field = field!(4, 4);

pub const OVERRIDE_FLAGS: Field = field!(8, 2);

/// NMI Source (5.2.12.6).
pub const NMI_SOURCE: Kind = kind!(3, 8);

pub const NMI_SOURCE_FLAGS: Field = field!(2, 2);

/// Local APIC NMI (5.2.12.7).
pub const LOCAL_NMI: Kind = kind!(4, 6);

pub const LOCAL_NMI_UID: Field = field!(2, 1);

pub const LOCAL_NMI_FLAGS: Field = field!(3, 2);

pub const LOCAL_NMI_LINT: Field = field!(5, 1);

/// Local APIC Address Override (5.2.12.8).
pub const ADDRESS_OVERRIDE: Kind = kind!(5, 12);

pub const ADDRESS_OVERRIDE_ADDRESS: Field = field!(4, 8);

/// Processor Local x2APIC (5.2.12.12).
pub const X2APIC: Kind = kind!(9, 16);

pub const X2APIC_ID: Field = field!(4, 4);

pub const X2APIC_FLAGS: Field = field!(8, 4);

pub const X2APIC_UID: Field = field!(12, 4);

/// Local x2APIC NMI (5.2.12.13).
pub const X2APIC_NMI: Kind = kind!(10, 12);

pub const X2APIC_NMI_FLAGS: Field = field!(2, 2);

pub const X2APIC_NMI_UID: Field = field!(4, 4);

pub const X2APIC_NMI_LINT: Field = field!(8, 1);

/// GIC CPU Interface, GICC (5.2.12.14): at least the 40 bytes of ACPI 5.0.
pub const GICC: Kind = kind!(11, 40..);

pub const GICC_UID: Field = field!(8, 4);

pub const GICC_FLAGS: Field = field!(12, 4);

pub const GICC_PARKING_VERSION: Field = field!(16, 4);

pub const GICC_BASE: Field = field!(32, 8);

/// One that is long enough for its virtual interface and the maintenance interrupt of that.
pub const GICC_WITH_GICV: Kind = kind!(11, 60..);

pub const GICC_GICV_BASE: Field = field!(40, 8);

pub const GICC_GICH_BASE: Field = field!(48, 8);

pub const GICC_MAINTENANCE: Field = field!(56, 4);

/// The address of a redistributor of its own, which ACPI 5.1 added.
pub const GICC_GICR_BASE: Field = field!(60, 8);

/// One that is long enough for an MPIDR, which ACPI 5.1 added.
pub const GICC_WITH_MPIDR: Kind = kind!(11, 76..);

pub const GICC_MPIDR: Field = field!(68, 8);

/// Its bits 31:24, and its bits 63:40.
pub const GICC_MPIDR_31_24: Field = field!(71, 1);

pub const GICC_MPIDR_63_40: Field = field!(73, 3);

/// The interrupts of statistical profiling and of the trace buffer, which ACPI 6.3 and 6.5 added.
pub const GICC_SPE: Field = field!(78, 2);

pub const GICC_TRBE: Field = field!(80, 2);

/// GIC Distributor, GICD (5.2.12.15).
pub const GICD: Kind = kind!(12, 24);

pub const GICD_BASE: Field = field!(8, 8);

pub const GICD_VERSION: Field = field!(20, 1);

/// GIC MSI Frame (5.2.12.16).
pub const MSI_FRAME: Kind = kind!(13, 24);

pub const MSI_FRAME_ID: Field = field!(4, 4);

pub const MSI_FRAME_BASE: Field = field!(8, 8);

pub const MSI_FRAME_FLAGS: Field = field!(16, 4);

/// GIC Redistributor, GICR (5.2.12.17).
pub const GICR: Kind = kind!(14, 16);

pub const GICR_FLAGS: Field = field!(2, 1);

pub const GICR_BASE: Field = field!(4, 8);

pub const GICR_LENGTH: Field = field!(12, 4);

/// GIC Interrupt Translation Service, ITS (5.2.12.18).
pub const ITS: Kind = kind!(15, 20);

pub const ITS_FLAGS: Field = field!(2, 1);

pub const ITS_ID: Field = field!(4, 4);

pub const ITS_BASE: Field = field!(8, 8);

/// Multiprocessor Wakeup (5.2.12.19), of 16 bytes; of Mailbox Version 1, which came after ACPI 6.5, of 24.
pub const WAKEUP: Kind = kind!(16, 16);

pub const WAKEUP_VERSION: Field = field!(2, 2);

pub const WAKEUP_RESERVED: Field = field!(4, 4);

pub const WAKEUP_MAILBOX: Field = field!(8, 8);

/// The version of the programmable interrupt controllers below (5.2.12.20 to 5.2.12.26, and after ACPI 6.5).
pub const PIC_VERSION: Field = field!(2, 1);

/// Core Programmable Interrupt Controller, CORE PIC (5.2.12.20).
pub const CORE_PIC: Kind = kind!(17, 15);

pub const CORE_PIC_UID: Field = field!(3, 4);

pub const CORE_PIC_ID: Field = field!(7, 4);

pub const CORE_PIC_FLAGS: Field = field!(11, 4);

/// Legacy I/O, HT, Extended I/O, MSI, Bridge I/O and LPC Programmable Interrupt Controllers (5.2.12.21 to 5.2.12.26).
pub const LIO_PIC: Kind = kind!(18, 23);

pub const HT_PIC: Kind = kind!(19, 21);

pub const EIO_PIC: Kind = kind!(20, 13);

pub const MSI_PIC: Kind = kind!(21, 19);

pub const BIO_PIC: Kind = kind!(22, 17);

pub const LPC_PIC: Kind = kind!(23, 14);

/// RISC-V hart local interrupt controller, RINTC (after ACPI 6.5), of at least 20 bytes.
pub const RINTC: Kind = kind!(24, 20..);

pub const RINTC_FLAGS: Field = field!(4, 4);

pub const RINTC_HART_ID: Field = field!(8, 8);

pub const RINTC_UID: Field = field!(16, 4);

/// RISC-V Incoming MSI Controller, IMSIC, Advanced Platform-Level Interrupt Controller, APLIC, and Platform-Level Interrupt
/// Controller, PLIC (after ACPI 6.5).
pub const IMSIC: Kind = kind!(25, 16);

pub const IMSIC_RESERVED: Field = field!(4, 4);

pub const APLIC: Kind = kind!(26, 36);

pub const PLIC: Kind = kind!(27, 36);

/// I/O SAPIC and Local SAPIC (5.2.12.9, 5.2.12.10), which are told by their types alone.
pub const IO_SAPIC: Kind = kind!(6, 2..);

pub const LOCAL_SAPIC: Kind = kind!(7, 2..);

/// Entries of types that neither `check` nor these rules read.
pub const UNREAD_6_TO_8: Kind = kind!(6..=8);

pub const UNREAD_FROM_28: Kind = kind!(28..=0xffff);

/// Entries of types that the MADT has from Revision 3 on, and from 6 on.
pub const SINCE_REVISION_3: Kind = kind!(9..=15);

pub const SINCE_REVISION_6: Kind = kind!(24..=27);
