//! Generic addresses, which say where a register is.

ghost use Rattle.std.specs.Prelude.{◌≡◌, ◌≤◌, ◌+◌, length, refl};
ghost use Rattle.std.proofs.Common.{rules};
ghost use Rattle.acpi_base.specs.Fadt.{gas_at, gas_parts, gas_values};
ghost use Rattle.acpi_read.specs.Structures.{gas_value};
ghost use Rattle.acpi_read.specs.declared.gas.Gas.{Gas};

use crate::layout::Layout;
use acpi_base::field::{Value, put_values, u8_at, u64_at};

/// The 12 bytes of a generic address structure (ACPI 6.5, 5.2.3.2), which says where a register is. Offsets
/// are from its own start. It has no reserved bytes, and any 12 bytes are one: neither the address
/// space nor the sizes are checked.
#[derive(Clone, Copy, Debug, PartialEq, Eq)]
pub struct Gas {
    /// At 0: the address space: 0 is system memory, 1 system I/O, 2 PCI configuration space.
    pub space: u8,
    /// At 1: the register's width in bits.
    pub bit_width: u8,
    /// At 2: at which bit it begins.
    pub bit_offset: u8,
    /// At 3: how many bytes are read or written at a time: 0 for undefined, 1 to 4 for 1, 2, 4 and 8 bytes.
    pub access_size: u8,
    /// At 4: where it is in its space; 0 for none.
    pub address: u64,
}

/// The generic address at an offset.
pub(crate) fn gas_in(bytes: &[u8], offset: usize) -> Gas
    requires { offset + 12 ≤ length bytes.now }
    ensures { gas_value result ≡ gas_at bytes.now offset }
{
    Gas {
        space: u8_at(bytes, offset),
        bit_width: u8_at(bytes, offset + 1),
        bit_offset: u8_at(bytes, offset + 2),
        access_size: u8_at(bytes, offset + 3),
        address: u64_at(bytes, offset + 4),
    }
}

impl Layout for Gas {
    ghost LEN = { 12 };

    const LEN: usize = 12;

    ghost parts = { gas_parts };

    ghost values = { λ gas. gas_values (gas_value gas) };

    fn read(bytes: &[u8]) -> Option<Gas> {
        if bytes.len() != Gas::LEN {
            return None;
        }
        Some(gas_in(bytes, 0))
    }

    fn write(&self, out: &mut [u8]) {
        put_values(
            out,
            &[
                Value::U8(self.space),
                Value::U8(self.bit_width),
                Value::U8(self.bit_offset),
                Value::U8(self.access_size),
                Value::U64(self.address),
            ],
        );
    }

    ghost counted = { refl };

    ghost one_value = { λ _ _ same. Prim.search rules };
}
