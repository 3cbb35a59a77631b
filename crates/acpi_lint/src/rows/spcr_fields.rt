//! The SPCR (Microsoft's Serial Port Console Redirection Table 1.10): its fields, by the standard's names.

use acpi_rules::{Field, Kind};

/// One with the fields of Revision 1 to 3, and one with those of Revision 4.
pub const SPCR_80: Kind = kind!(0, 80..);

pub const SPCR_88: Kind = kind!(0, 88..);

pub const INTERFACE_TYPE: Field = field!(36, 1);

/// Base Address: its address space, its access size and its address.
pub const CONSOLE_SPACE: Field = field!(40, 1);

pub const CONSOLE_ACCESS_SIZE: Field = field!(43, 1);

pub const CONSOLE_ADDRESS: Field = field!(44, 8);

pub const INTERRUPT_TYPE: Field = field!(52, 1);

pub const IRQ: Field = field!(53, 1);

/// Global System Interrupt.
pub const CONSOLE_GSI: Field = field!(54, 4);

/// Configured Baud Rate.
pub const BAUD_RATE: Field = field!(58, 1);

pub const PCI_DEVICE_ID: Field = field!(64, 2);

pub const PCI_VENDOR_ID: Field = field!(66, 2);

pub const PCI_DEVICE: Field = field!(69, 1);

pub const PCI_FUNCTION: Field = field!(70, 1);

pub const PRECISE_BAUD_RATE: Field = field!(80, 4);

/// NamespaceStringLength and NamespaceStringOffset.
pub const NAME_LENGTH: Field = field!(84, 2);

pub const NAME_OFFSET: Field = field!(86, 2);
