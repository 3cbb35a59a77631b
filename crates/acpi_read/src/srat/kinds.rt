//! The kinds of entries of the SRAT.

ghost use Rattle.std.specs.Prelude.{◌≡◌, refl};
ghost use Rattle.std.proofs.Common.{rules, arith};
ghost use Rattle.acpi_base.specs.Srat as said;
ghost use Rattle.acpi_base.proofs.Srat.DomainBytes.{apic_domain_reads, apic_domain_agrees};
ghost use Rattle.acpi_read.specs.Srats as layouts;

use crate::kind::FixedKind;
use acpi_base::field::{Value, put_values, u8_at, u32_at, u64_at};

/// A processor local APIC affinity structure (ACPI 6.5, 5.2.16.1): type 0, 16 bytes. Bits 31:8 of its domain are
/// separate from bits 7:0; they are read whatever the table's revision.
#[derive(Clone, Copy, Debug, PartialEq, Eq)]
pub struct ApicDomain {
    /// At 2 and at 9: the proximity domain.
    pub domain: u32,
    /// At 3: the ID of the processor's local APIC.
    pub apic_id: u8,
    /// At 4: bit 0 is Enabled.
    pub flags: u32,
    /// At 8: the EID of a local SAPIC.
    pub eid: u8,
    /// At 12: the clock domain.
    pub clock_domain: u32,
}

impl FixedKind for ApicDomain {
    ghost Said = { said.ApicDomainValue };

    ghost layout = { layouts.apic_domain_layout };

    ghost say = { layouts.apic_domain_value };

    ghost TYPE = { said.apic_domain.type };

    const TYPE: u8 = 0;

    ghost SIZE = { said.apic_domain.size };

    const SIZE: usize = 16;

    fn fields(bytes: &[u8]) -> ApicDomain {
        let domain = [
            u8_at(bytes, 2),
            u8_at(bytes, 9),
            u8_at(bytes, 10),
            u8_at(bytes, 11),
        ];
        ApicDomain {
            domain: u32::from_le_bytes(domain),
            apic_id: u8_at(bytes, 3),
            flags: u32_at(bytes, 4),
            eid: u8_at(bytes, 8),
            clock_domain: u32_at(bytes, 12),
        }
    }

    fn put_fields(&self, out: &mut [u8]) {
        let domain = self.domain.to_le_bytes();
        put_values(
            out,
            &[
                Value::U8(domain[0]),
                Value::U8(self.apic_id),
                Value::U32(self.flags),
                Value::U8(self.eid),
                Value::U8(domain[1]),
                Value::U8(domain[2]),
                Value::U8(domain[3]),
                Value::U32(self.clock_domain),
            ],
        );
    }

    ghost laid = { (
      refl,
      refl,
      record {
        counted = refl;
        numbers = refl;
        typed = Prim.omega arith;
        sized = Prim.omega arith;
        shaped = λ e count. tt;
        reads = λ e v count same. apic_domain_reads e v same;
        agrees = λ e count low. apic_domain_agrees e low;
      },
      λ _ _ same. Prim.search rules,
    ) };
}

/// A memory affinity structure (ACPI 6.5, 5.2.16.2): type 1, 40 bytes. It says in which domain a range of
/// addresses is. Bytes 6 and 7, 24 to 27 and 32 to 39 are reserved.
#[derive(Clone, Copy, Debug, PartialEq, Eq)]
pub struct MemoryRange {
    /// At 2: the proximity domain.
    pub domain: u32,
    /// At 8: the first address.
    pub base: u64,
    /// At 16: how many bytes there are.
    pub size: u64,
    /// At 28: bit 0 is Enabled, bit 1 Hot Pluggable, bit 2 NonVolatile.
    pub flags: u32,
}

impl FixedKind for MemoryRange {
    ghost Said = { said.MemoryValue };

    ghost layout = { layouts.memory_range_layout };

    ghost say = { layouts.memory_range_value };

    ghost TYPE = { said.memory_range.type };

    const TYPE: u8 = 1;

    ghost SIZE = { said.memory_range.size };

    const SIZE: usize = 40;

    fn fields(bytes: &[u8]) -> MemoryRange {
        MemoryRange {
            domain: u32_at(bytes, 2),
            base: u64_at(bytes, 8),
            size: u64_at(bytes, 16),
            flags: u32_at(bytes, 28),
        }
    }

    fn put_fields(&self, out: &mut [u8]) {
        put_values(
            out,
            &[
                Value::U32(self.domain),
                Value::Zeros(2),
                Value::U64(self.base),
                Value::U64(self.size),
                Value::Zeros(4),
                Value::U32(self.flags),
                Value::Zeros(8),
            ],
        );
    }

    ghost laid = { (refl, refl, Prim.search (rules, arith), λ _ _ same. Prim.search rules) };
}

/// A processor local x2APIC affinity structure (ACPI 6.5, 5.2.16.3): type 2, 24 bytes. Bytes 2 and 3 and 20 to
/// 23 are reserved.
#[derive(Clone, Copy, Debug, PartialEq, Eq)]
pub struct X2apicDomain {
    /// At 4: the proximity domain.
    pub domain: u32,
    /// At 8: the ID of the processor's local x2APIC.
    pub x2apic_id: u32,
    /// At 12: bit 0 is Enabled.
    pub flags: u32,
    /// At 16: the clock domain.
    pub clock_domain: u32,
}

impl FixedKind for X2apicDomain {
    ghost Said = { said.X2apicDomainValue };

    ghost layout = { layouts.x2apic_domain_layout };

    ghost say = { layouts.x2apic_domain_value };

    ghost TYPE = { said.x2apic_domain.type };

    const TYPE: u8 = 2;

    ghost SIZE = { said.x2apic_domain.size };

    const SIZE: usize = 24;

    fn fields(bytes: &[u8]) -> X2apicDomain {
        X2apicDomain {
            domain: u32_at(bytes, 4),
            x2apic_id: u32_at(bytes, 8),
            flags: u32_at(bytes, 12),
            clock_domain: u32_at(bytes, 16),
        }
    }

    fn put_fields(&self, out: &mut [u8]) {
        put_values(
            out,
            &[
                Value::Zeros(2),
                Value::U32(self.domain),
                Value::U32(self.x2apic_id),
                Value::U32(self.flags),
                Value::U32(self.clock_domain),
                Value::Zeros(4),
            ],
        );
    }

    ghost laid = { (refl, refl, Prim.search (rules, arith), λ _ _ same. Prim.search rules) };
}
