//! Nodes of the PPTT's processor hierarchy.

ghost use Rattle.std.specs.Prelude.{◌≡◌, ◌≤◌, refl};

use crate::layout::Layout;
use acpi_base::field::{Value, put_values, u8_at, u32_at};

/// The first 20 bytes of a processor hierarchy node (ACPI 6.5, 5.2.30.1): type 0. They are followed by references to
/// its private resources, of 4 bytes each. Bytes 2 and 3 are reserved; the length, at 1, is that of the head and the
/// references, 20 + 4 * count.
#[derive(Clone, Copy, Debug, PartialEq, Eq)]
pub struct NodeHead {
    /// At 4: bit 0 is Physical package, bit 1 ACPI Processor ID valid, bit 2 Processor is a Thread, bit 3 Node
    /// is a Leaf, bit 4 Identical Implementation.
    pub flags: u32,
    /// At 8: the offset of the parent, from the table's start; 0 for none.
    pub parent: u32,
    /// At 12: the ACPI Processor ID.
    pub id: u32,
    /// At 16: how many private resources it has. The length byte limits them.
    pub count: u32,
    pub ghost fits: { count ≤ 58 },
}

impl Layout for NodeHead {
    ghost use Rattle.acpi_read.specs.Pptts.{node_head_parts, node_head_values, HasNodeLength};
    ghost use Rattle.acpi_read.specs.Structures.{one_head};
    ghost use Rattle.acpi_read.specs.declared.pptt.node_head.NodeHead.{NodeHead};

    ghost LEN = { 20 };

    const LEN: usize = 20;

    ghost parts = { node_head_parts };

    ghost values = { node_head_values };

    ghost allows = { HasNodeLength };

    fn read(bytes: &[u8]) -> Option<NodeHead> {
        if bytes.len() != 20 || u8_at(bytes, 0) != 0 {
            return None;
        }
        let length = u8_at(bytes, 1);
        let count = u32_at(bytes, 16);
        if count > 58 || u32::from(length) != 20 + 4 * count {
            return None;
        }
        Some(NodeHead {
            flags: u32_at(bytes, 4),
            parent: u32_at(bytes, 8),
            id: u32_at(bytes, 12),
            count,
        })
    }

    fn write(&self, out: &mut [u8]) {
        put_values(
            out,
            &[
                Value::U8(0),
                Value::U8((20 + 4 * self.count) as u8),
                Value::Zeros(2),
                Value::U32(self.flags),
                Value::U32(self.parent),
                Value::U32(self.id),
                Value::U32(self.count),
            ],
        );
    }

    ghost counted = { refl };

    ghost one_value = { one_head };
}
