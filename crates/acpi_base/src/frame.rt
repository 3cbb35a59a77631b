//! Structures whose header has their length.

/// The requirements on a structure whose header has its length: the extended form of the RSDP, the root table, a listed
/// table and the FACS (ACPI 6.5, 5.2.5.3, 5.2.6 and 5.2.10).
#[derive(Clone, Copy, Debug)]
pub struct Frame {
    /// How many bytes its header has. The header is read before the length is known.
    pub header: u32,
    /// The offset of Length in the header, a number of 4 bytes.
    pub length_at: u32,
    /// The minimum Length in bytes.
    pub least: u32,
}

impl Frame {
    /// A table: 36 bytes, with Length at 4 (5.2.6).
    pub const TABLE: Frame = Frame {
        header: 36,
        length_at: 4,
        least: 36,
    };

    /// The extended form of the RSDP: 36 bytes, with Length at 20 (5.2.5.3).
    pub const EXTENDED_RSDP: Frame = Frame {
        header: 36,
        length_at: 20,
        least: 36,
    };

    /// The FACS: 8 bytes, with Length at 4, which is at least 64 (5.2.10).
    pub const FACS: Frame = Frame {
        header: 8,
        length_at: 4,
        least: 64,
    };
}

/// The checks of such a structure, in their order.
#[derive(Clone, Copy, Debug, PartialEq, Eq)]
pub enum Question {
    /// Whether all bytes of the header are present.
    Header,
    /// Whether it begins with this signature.
    Signature([u8; 4]),
    /// Whether Length is at least the minimum.
    Length,
    /// Whether as many bytes as Length says are present.
    Bytes,
    /// Whether they sum to 0.
    Sum,
}
