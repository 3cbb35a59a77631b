//! The kinds of entries of the PPTT that have one length each.

ghost use Rattle.std.specs.Prelude.{◌≡◌, ◌≤◌, ℕ, Option, length, refl};
ghost use Rattle.std.proofs.Common.{rules, arith};
ghost use Rattle.acpi_base.specs.Pptt as said;
ghost use Rattle.acpi_base.proofs.Pptt.CacheValues.{cache24_reads, cache28_reads};
ghost use Rattle.acpi_read.specs.Pptts as layouts;

use crate::kind::FixedKind;
use acpi_base::field::{Value, put_values, u8_at, u16_at, u32_at};

/// A cache type structure without an ID (ACPI 6.5, 5.2.30.2): type 1, 24 bytes. Bytes 2 and 3 are reserved. Which other
/// fields are valid is not checked.
#[derive(Clone, Copy, Debug, PartialEq, Eq)]
pub struct Cache24 {
    /// At 4: which of the fields after it are valid.
    pub flags: u32,
    /// At 8: the offset of the cache of the next level, from the table's start; 0 for none.
    pub next_level: u32,
    /// At 12: its size in bytes.
    pub size: u32,
    /// At 16: how many sets it has.
    pub sets: u32,
    /// At 20: how many ways it has.
    pub associativity: u8,
    /// At 21: bits 1:0 are the allocation type, bits 3:2 the cache type, bit 4 the write policy.
    pub attributes: u8,
    /// At 22: the size of a line in bytes.
    pub line_size: u16,
}

/// The fields at 4 to 23, which both kinds of caches have.
#[inline(always)]
fn first_fields(bytes: &[u8]) -> Cache24
    requires { 24 ≤ length bytes.now }
    ensures { (id : Option ℕ) → layouts.values_in bytes.now id
        ≡ layouts.cache_values (layouts.cache_value result id) }
{
    Cache24 {
        flags: u32_at(bytes, 4),
        next_level: u32_at(bytes, 8),
        size: u32_at(bytes, 12),
        sets: u32_at(bytes, 16),
        associativity: u8_at(bytes, 20),
        attributes: u8_at(bytes, 21),
        line_size: u16_at(bytes, 22),
    }
}

impl FixedKind for Cache24 {
    ghost Said = { said.CacheValue };

    ghost layout = { layouts.cache24_layout };

    ghost say = { layouts.cache24_value };

    ghost TYPE = { said.cache24.type };

    const TYPE: u8 = 1;

    ghost SIZE = { said.cache24.size };

    const SIZE: usize = 24;

    fn fields(bytes: &[u8]) -> Cache24 {
        first_fields(bytes)
    }

    fn put_fields(&self, out: &mut [u8]) {
        put_values(
            out,
            &[
                Value::Zeros(2),
                Value::U32(self.flags),
                Value::U32(self.next_level),
                Value::U32(self.size),
                Value::U32(self.sets),
                Value::U8(self.associativity),
                Value::U8(self.attributes),
                Value::U16(self.line_size),
            ],
        );
    }

    ghost laid = { (
      refl,
      refl,
      record {
        counted = refl;
        numbers = refl;
        typed = Prim.omega arith;
        sized = Prim.omega arith;
        shaped = λ e count. rw count tt;
        reads = cache24_reads;
        agrees = λ e count low. rw count refl;
      },
      λ _ _ same. Prim.search rules,
    ) };
}

/// A cache type structure with an ID (ACPI 6.5, 5.2.30.2): type 1, 28 bytes. Its first fields are those of one without.
#[derive(Clone, Copy, Debug, PartialEq, Eq)]
pub struct Cache28 {
    /// At 4 to 23: the fields that a cache without an ID has too.
    pub fields: Cache24,
    /// At 24: its ID.
    pub id: u32,
}

impl FixedKind for Cache28 {
    ghost Said = { said.CacheValue };

    ghost layout = { layouts.cache28_layout };

    ghost say = { layouts.cache28_value };

    ghost TYPE = { said.cache28.type };

    const TYPE: u8 = 1;

    ghost SIZE = { said.cache28.size };

    const SIZE: usize = 28;

    fn fields(bytes: &[u8]) -> Cache28 {
        Cache28 {
            fields: first_fields(bytes),
            id: u32_at(bytes, 24),
        }
    }

    fn put_fields(&self, out: &mut [u8]) {
        let fields = &self.fields;
        put_values(
            out,
            &[
                Value::Zeros(2),
                Value::U32(fields.flags),
                Value::U32(fields.next_level),
                Value::U32(fields.size),
                Value::U32(fields.sets),
                Value::U8(fields.associativity),
                Value::U8(fields.attributes),
                Value::U16(fields.line_size),
                Value::U32(self.id),
            ],
        );
    }

    ghost laid = { (
      refl,
      refl,
      record {
        counted = refl;
        numbers = refl;
        typed = Prim.omega arith;
        sized = Prim.omega arith;
        shaped = λ e count. rw count tt;
        reads = cache28_reads;
        agrees = λ e count low. rw count refl;
      },
      λ _ _ same. Prim.search rules,
    ) };
}
