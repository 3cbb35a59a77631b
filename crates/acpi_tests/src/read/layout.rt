//! Tests of structures of a fixed layout.

ghost use Rattle.std.proofs.Common.{rules};
ghost use Rattle.std.specs.Prelude.{ℕ, List, [], ◌∷◌, refl};
ghost use Rattle.acpi_base.specs.Layouts.{Part, NumberOf, Fixed, Reserved, PartValue, Number};

use crate::samples::expect_layout;
use acpi_base::field::{Value, put_values, u8_at, u16_at, u32_at, u64_at};
use acpi_read::Layout;
use std::test::*;

/// A made-up entry of type 200, with parts of every kind except plain bytes.
#[derive(Clone, Copy, Debug, PartialEq, Eq)]
struct Entry {
    class: u8,
    interrupt: u16,
    uid: u32,
    base: u64,
}

impl Layout for Entry {
    ghost LEN = { 20 };

    const LEN: usize = 20;

    ghost parts = { Fixed 200 ∷ Fixed 20 ∷ Reserved 2 ∷ NumberOf 1 ∷ Reserved 1
        ∷ NumberOf 2 ∷ NumberOf 4 ∷ NumberOf 8 ∷ [] };

    ghost values = { λ entry. Number entry.class ∷ Number entry.interrupt ∷ Number entry.uid
        ∷ Number entry.base ∷ [] };

    fn read(bytes: &[u8]) -> Option<Entry> {
        if bytes.len() != 20 || u8_at(bytes, 0) != 200 || u8_at(bytes, 1) != 20 {
            return None;
        }
        Some(Entry {
            class: u8_at(bytes, 4),
            interrupt: u16_at(bytes, 6),
            uid: u32_at(bytes, 8),
            base: u64_at(bytes, 12),
        })
    }

    fn write(&self, out: &mut [u8]) {
        put_values(
            out,
            &[
                Value::U8(200),
                Value::U8(20),
                Value::Zeros(2),
                Value::U8(self.class),
                Value::Zeros(1),
                Value::U16(self.interrupt),
                Value::U32(self.uid),
                Value::U64(self.base),
            ],
        );
    }

    ghost counted = { refl };

    ghost one_value = { λ _ _ same. Prim.search rules };
}

const ENTRY: Entry = Entry {
    class: 0xa1,
    interrupt: 0xb2b1,
    uid: 0xc4c3_c2c1,
    base: 0xd8d7_d6d5_d4d3_d2d1,
};

const BYTES: [u8; 20] = [
    200, 20, 0, 0, 0xa1, 0, 0xb1, 0xb2, 0xc1, 0xc2, 0xc3, 0xc4, 0xd1, 0xd2, 0xd3, 0xd4, 0xd5, 0xd6,
    0xd7, 0xd8,
];

#[test]
fn entry_is_written_and_read_back(rt: HostRuntime) {
    let bytes = [
        200, 20, 0xff, 0xff, 0xa1, 0xff, 0xb1, 0xb2, 0xc1, 0xc2, 0xc3, 0xc4, 0xd1, 0xd2, 0xd3,
        0xd4, 0xd5, 0xd6, 0xd7, 0xd8,
    ];
    expect_layout(&rt, ENTRY, &bytes);
}

#[test]
fn another_kind_is_refused(rt: HostRuntime) {
    // Another type, and another length.
    for head in [[201, 20], [200, 19]] {
        let mut bytes = BYTES;
        bytes[..2].copy_from_slice(&head);
        assert!(rt; Entry::read(&bytes).is_none(), "{head:?}");
    }
    assert!(rt; Entry::read(&BYTES[..19]).is_none());
}
