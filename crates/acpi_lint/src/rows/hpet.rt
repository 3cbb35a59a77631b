//! Rules on the HPET (IA-PC HPET 1.0a, 3.2.4).

use crate::rows::hpet_fields::*;
use crate::rows::table_fields::{LENGTH, TABLE, WHOLE};
use acpi_rules::{Clause, Clauses, Form, Row, Test, Value, Within};

/// Rules on the HPET.
pub static HPET: [Row<'static>; 3] = [
    // 192 HpetLength, likely wrong (IA-PC HPET 1.0a, 3.2.4): the HPET is shorter than 56 bytes.
    // Numbers: `at` is 0x4, the offset of Length, `other` is 0x38 (56), `point` is Length.
    // "The HPET's Length, at {at}, is {point:d}, and it needs {other:d} bytes."
    rule!(192 HpetLength, given in TABLE: {
        WHOLE if LENGTH < 56 => at 4 shows 56, LENGTH
    }),
    // 193 HpetSpace, likely wrong (IA-PC HPET 1.0a, 3.2.4): the HPET's base address is not in memory.
    // Numbers: `at` is 0x28 (40), the offset of the address space, `point` is the address space.
    // "The HPET's base address, at {at}, has the address space {point}, not memory."
    rule!(193 HpetSpace, given in TABLE: {
        HPET_FULL if HPET_SPACE != 0 => at 40 shows 0, HPET_SPACE
    }),
    // 194 HpetAddress, likely wrong (IA-PC HPET 1.0a, 3.2.4, 2.3): the HPET's base address is 0, has its halves
    // swapped, or is no multiple of 1024.
    // Numbers: `at` is 0x2c (44), the offset of the base address, `point` is the base address.
    // If `point` is 0: "The base address at {at} of the HPET is 0."
    // If `point` is 0xfed0000000000000: "The base address at {at} of the HPET is {point}, whose halves are swapped."
    // "The base address at {at} of the HPET is {point}, which is no multiple of 1024."
    rule!(194 HpetAddress, given in TABLE: {
        HPET_FULL if HPET_ADDRESS == 0 => at 44 shows 0, HPET_ADDRESS;
        HPET_FULL if HPET_ADDRESS_31_0 == 0 && HPET_ADDRESS_63_32 == 0xfed0_0000 => at 44 shows 0, HPET_ADDRESS;
        HPET_FULL if (HPET_ADDRESS & 0x3ff) != 0 => at 44 shows 0, HPET_ADDRESS
    }),
];
