//! The values of tables and headers.

use acpi_read::{MadtEntry, PpttEntry, SratEntry};

/// The contents of a table's header, except its signature, its length and its checksum (ACPI 6.5, 5.2.6).
#[derive(Clone, Copy, Debug, PartialEq, Eq)]
pub struct Head {
    /// At 8: the revision of the table's layout.
    pub revision: u8,
    /// At 10: six characters that identify the OEM.
    pub oemid: [u8; 6],
    /// At 16: eight characters that identify the table among the OEM's.
    pub oem_table_id: [u8; 8],
    /// At 24: the OEM's revision of the table.
    pub oem_revision: u32,
    /// At 28: which tool made the table.
    pub creator_id: u32,
    /// At 32: the tool's revision.
    pub creator_revision: u32,
}

/// The contents of a table.
#[derive(Debug, Drop)]
pub enum TableValue<'a> {
    /// The MADT (ACPI 6.5, 5.2.12).
    Madt {
        head: Head,
        /// At 36: the local APICs' physical address.
        address: u32,
        /// At 40: Flags.
        flags: u32,
        /// From 44 on, in order.
        entries: Vec<MadtEntry<'a>>,
    },
    /// The SRAT (5.2.16).
    Srat {
        head: Head,
        /// From 48 on, in order.
        entries: Vec<SratEntry<'a>>,
    },
    /// The SLIT (5.2.17).
    Slit {
        head: Head,
        /// At 36: the number of localities.
        count: u64,
        /// From 44 on: a distance for each pair, row after row.
        cells: &'a [u8],
    },
    /// The PPTT (5.2.30).
    Pptt {
        head: Head,
        /// From 36 on, in order.
        entries: Vec<PpttEntry<'a>>,
    },
    /// The FADT (5.2.9).
    Fadt {
        head: Head,
        /// Its bytes from 36 on, at least 80.
        body: Vec<u8>,
    },
    /// Any other table.
    Other {
        /// All its bytes, with the header, which sum to 0.
        bytes: &'a [u8],
    },
}
