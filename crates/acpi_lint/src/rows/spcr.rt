//! Rules on the SPCR (Microsoft's Serial Port Console Redirection Table 1.10), by itself and with the MADT.

use crate::rows::madt::{OTHER_GIC, OTHER_MADT_LENGTHS, OTHER_MADT_WHOLE};
use crate::rows::spcr_fields::*;
use crate::rows::table_fields::{LENGTH, REVISION, TABLE, WHOLE};
use acpi_rules::{Clause, Clauses, Form, Guard, Need, Row, Source, Test, Value, Within};

/// The table has the fields of its Revision.
const SPCR_FULL: Guard<'static> = guard!((some table TABLE: { SPCR_80 if REVISION < 4; SPCR_88 }));

/// Rules on the SPCR. By hand are the string's last byte, of 276 SpcrName, and whether an I/O APIC serves the GSI, of 274
/// SpcrGsi: no row reads a byte at a computed offset, or how many inputs an I/O APIC has.
pub static SPCR: [Row<'static>; 6] = [
    // 271 SpcrLength, likely wrong (Microsoft's SPCR 1.10): the SPCR is too short for its Revision.
    // Numbers: `at` is 0x4, the offset of Length, `other` is the length that the Revision needs, `point` is Length.
    // "The SPCR's Length, at {at}, is {point:d}, and its Revision needs {other:d} bytes."
    // From Revision 4 on 88 bytes, below that 80.
    rule!(271 SpcrLength, given in TABLE: {
        WHOLE if REVISION < 4 && LENGTH < 80 => at 4 shows 80, LENGTH;
        WHOLE if REVISION >= 4 && LENGTH < 88 => at 4 shows 88, LENGTH
    }),
    // 272 SpcrAddress, likely wrong (Microsoft's SPCR 1.10): the SPCR's base address is neither in memory nor in I/O
    // ports, or is in memory with an access size above 3 (32 bits).
    // Numbers: `at` is the offset of the address space, 0x28 (40), or of the access size, 0x2b (43); `point` is the
    // space or the size.
    // If `at` is 0x28: "The SPCR's base address, at {at}, has the address space {point}, neither memory nor I/O ports."
    // "The access size at {at} of the SPCR is {point:d}, above 3 (32 bits)."
    // Applies if the base address is not 0 and the interface type is not 0x15, the RISC-V SBI console.
    rule!(272 SpcrAddress, given in TABLE where SPCR_FULL: {
        WHOLE if CONSOLE_ADDRESS != 0 && INTERFACE_TYPE != 0x15 && CONSOLE_SPACE > 1
            => at 40 shows 0, CONSOLE_SPACE;
        WHOLE if CONSOLE_ADDRESS != 0 && INTERFACE_TYPE != 0x15 && CONSOLE_SPACE == 0 && CONSOLE_ACCESS_SIZE > 3
            => at 43 shows 0, CONSOLE_ACCESS_SIZE
    }),
    // 273 SpcrBaud, likely wrong (Microsoft's SPCR 1.10): the SPCR's baud rate has a reserved value, and there is no
    // precise baud rate.
    // Numbers: `at` is 0x3a (58), the offset of the baud rate, `point` is its value.
    // "The baud rate at {at} of the SPCR has the value {point:d}, which is reserved."
    // Not reserved are 0, 3, 4, 6 and 7. A precise baud rate is there from Revision 4 on, and is not 0.
    rule!(273 SpcrBaud, given in TABLE where
        SPCR_FULL,
        (some table TABLE: { WHOLE if REVISION < 4; WHOLE if PRECISE_BAUD_RATE == 0 }):
    {
        WHOLE if BAUD_RATE >= 1 && BAUD_RATE <= 2 => at 58 shows 0, BAUD_RATE;
        WHOLE if BAUD_RATE == 5 => at 58 shows 0, BAUD_RATE;
        WHOLE if BAUD_RATE > 7 => at 58 shows 0, BAUD_RATE
    }),
    // 274 SpcrGsi, likely wrong (Microsoft's SPCR 1.10): the SPCR names an interrupt that its interrupt controller does
    // not have, or another controller than the MADT's GIC.
    // Numbers: `at` is the field's offset: 0x34 (52) of the interrupt type, 0x35 (53) of IRQ, 0x36 (54) of the GSI;
    // `point` is the field.
    // If `at` is 0x34: "The interrupt type at {at} of the SPCR is {point}, neither 0 nor 8, the GIC that the MADT has."
    // If `at` is 0x35: "The IRQ at {at} of the SPCR is {point:d}, which is reserved."
    // "The GSI at {at} of the SPCR is {point:d}, which no I/O APIC of the MADT serves, or which is no SPI of its GIC."
    // Bit 0 of the interrupt type is the 8259, of which the IRQs 2 to 7, 9 to 12, 14 and 15 are not reserved; bit 1 is
    // an I/O APIC; bit 3 is the GIC, whose SPIs are 32 to 1019 and 4096 to 5119. With a GIC in the MADT the base
    // address counts if it is not 0.
    // This row: the IRQs of the 8259.
    rule!(274 SpcrGsi, given in TABLE where
        SPCR_FULL,
        (some table TABLE: { WHOLE if (INTERRUPT_TYPE & 0b1) != 0 }):
    {
        WHOLE if IRQ < 2 => at 53 shows 0, IRQ;
        WHOLE if IRQ == 8 => at 53 shows 0, IRQ;
        WHOLE if IRQ == 13 => at 53 shows 0, IRQ;
        WHOLE if IRQ > 15 => at 53 shows 0, IRQ
    }),
    // 275 SpcrPci, look at it (Microsoft's SPCR 1.10): exactly one of the SPCR's PCI device ID and PCI vendor ID is
    // 0xffff, or its PCI device or function number is too large.
    // Numbers: for the IDs `at` is 0x40 (64), the offset of the PCI device ID, `point` is the PCI device ID. For the
    // numbers `at` is 0x45 (69) for the device or 0x46 (70) for the function, the offset of the number, `point` is the
    // number.
    // If `at` is 0x45: "The PCI device number at {at} of the SPCR is {point:d}, above 31."
    // If `at` is 0x46: "The PCI function number at {at} of the SPCR is {point:d}, above 7."
    // "The PCI device ID at {at} of the SPCR is {point}, and exactly one of it and the PCI vendor ID is 0xffff."
    // The numbers count if neither ID is 0xffff.
    rule!(275 SpcrPci, given in TABLE where SPCR_FULL: {
        WHOLE if PCI_DEVICE_ID == 0xffff && PCI_VENDOR_ID != 0xffff => at 64 shows 0, PCI_DEVICE_ID;
        WHOLE if PCI_DEVICE_ID != 0xffff && PCI_VENDOR_ID == 0xffff => at 64 shows 0, PCI_DEVICE_ID;
        WHOLE if PCI_DEVICE_ID != 0xffff && PCI_DEVICE > 31 => at 69 shows 0, PCI_DEVICE;
        WHOLE if PCI_DEVICE_ID != 0xffff && PCI_FUNCTION > 7 => at 70 shows 0, PCI_FUNCTION
    }),
    // 276 SpcrName, likely wrong (Microsoft's SPCR 1.10): the SPCR's namespace string is too short, does not lie within
    // the table, or does not end with 0.
    // Numbers: `at` is the offset of what is wrong, 0x54 (84) of NamespaceStringLength, 0x56 (86) of
    // NamespaceStringOffset, or that of the string's last byte; `point` is its value.
    // If `at` is 0x54: "NamespaceStringLength, at {at} of the SPCR, is {point:d}, below 2."
    // If `at` is 0x56: "NamespaceStringOffset, at {at} of the SPCR, is {point:d}, and the string does not lie between
    // byte 88 and the table's end."
    // "The last byte of the namespace string, at {at} of the SPCR, is {point}, not 0."
    // Applies from Revision 4 on.
    // This row: the string's length and its place.
    rule!(276 SpcrName, given in TABLE: {
        SPCR_88 if REVISION >= 4 && NAME_LENGTH < 2 => at 84 shows 0, NAME_LENGTH;
        SPCR_88 if REVISION >= 4 && NAME_OFFSET < 88 => at 86 shows 0, NAME_OFFSET;
        SPCR_88 if REVISION >= 4 && (NAME_OFFSET + 1 * NAME_LENGTH) > LENGTH => at 86 shows 0, NAME_OFFSET
    }),
];

/// Rules on the SPCR with the MADT.
pub static SPCR_WITH_MADT: [Row<'static>; 1] = [
    // 274 SpcrGsi with a GIC in the MADT, whose structures fill the table and have the lengths of their types
    rule!(274 SpcrGsi, given in TABLE where SPCR_FULL, OTHER_MADT_WHOLE, OTHER_MADT_LENGTHS, OTHER_GIC: {
        WHOLE if CONSOLE_ADDRESS != 0 && INTERRUPT_TYPE != 0 && INTERRUPT_TYPE != 8
            => at 52 shows 0, INTERRUPT_TYPE;
        WHOLE if CONSOLE_ADDRESS != 0 && INTERRUPT_TYPE == 8 && CONSOLE_GSI < 32
            => at 54 shows 0, CONSOLE_GSI;
        WHOLE if CONSOLE_ADDRESS != 0 && INTERRUPT_TYPE == 8 && CONSOLE_GSI > 1019 && CONSOLE_GSI < 4096
            => at 54 shows 0, CONSOLE_GSI;
        WHOLE if CONSOLE_ADDRESS != 0 && INTERRUPT_TYPE == 8 && CONSOLE_GSI > 5119
            => at 54 shows 0, CONSOLE_GSI
    }),
];
