//! The header of a system description table.

ghost use Rattle.std.specs.Prelude.{◌≡◌, ◌≤◌, length, refl};
ghost use Rattle.std.proofs.Common.{rules};
ghost use Rattle.acpi_base.specs.Header.{header_of, header_parts, header_values};
ghost use Rattle.acpi_read.specs.Structures.{header_value};
ghost use Rattle.acpi_read.specs.declared.header.Header.{Header};

use crate::layout::Layout;
use acpi_base::field::{Value, array_at, put_values, u8_at, u32_at};

/// The 36 bytes that every system description table begins with (ACPI 6.5, 5.2.6). It has no reserved
/// bytes, and any 36 bytes are one: a signature or an OEM's name may be any bytes.
#[derive(Clone, Copy, Debug, PartialEq, Eq)]
pub struct Header {
    /// At 0: what kind of table it is.
    pub signature: [u8; 4],
    /// At 4: the length of the table in bytes, including the header.
    pub length: u32,
    /// At 8: the revision of the table's layout.
    pub revision: u8,
    /// At 9: the byte that makes the complete table sum to 0.
    pub checksum: u8,
    /// At 10: six characters that identify the OEM.
    pub oemid: [u8; 6],
    /// At 16: eight characters that identify the table among the OEM's.
    pub oem_table_id: [u8; 8],
    /// At 24: the OEM's revision of the table.
    pub oem_revision: u32,
    /// At 28: which tool made the table.
    pub creator_id: u32,
    /// At 32: the tool's revision.
    pub creator_revision: u32,
}

/// The header that a table's bytes begin with.
#[tactic(auto, unfolding(acpi_base::specs::Header::header_of))]
pub(crate) fn header_at(bytes: &[u8]) -> Header
    requires { 36 ≤ length bytes.now }
    ensures { header_value result ≡ header_of bytes.now }
{
    Header {
        signature: array_at(bytes, 0),
        length: u32_at(bytes, 4),
        revision: u8_at(bytes, 8),
        checksum: u8_at(bytes, 9),
        oemid: array_at(bytes, 10),
        oem_table_id: array_at(bytes, 16),
        oem_revision: u32_at(bytes, 24),
        creator_id: u32_at(bytes, 28),
        creator_revision: u32_at(bytes, 32),
    }
}

impl Layout for Header {
    ghost LEN = { 36 };

    const LEN: usize = 36;

    ghost parts = { header_parts };

    ghost values = { λ header. header_values (header_value header) };

    #[tactic(auto, unfolding(acpi_base::specs::Header::header_of))]
    fn read(bytes: &[u8]) -> Option<Header> {
        if bytes.len() != Header::LEN {
            return None;
        }
        Some(header_at(bytes))
    }

    fn write(&self, out: &mut [u8]) {
        put_values(
            out,
            &[
                Value::Bytes(&self.signature),
                Value::U32(self.length),
                Value::U8(self.revision),
                Value::U8(self.checksum),
                Value::Bytes(&self.oemid),
                Value::Bytes(&self.oem_table_id),
                Value::U32(self.oem_revision),
                Value::U32(self.creator_id),
                Value::U32(self.creator_revision),
            ],
        );
    }

    ghost counted = { refl };

    ghost one_value = { λ _ _ same. Prim.search rules };
}
