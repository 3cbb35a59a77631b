//! Rules on the FADT (ACPI 6.5, 5.2.9), by itself and with the MADT. An address of 8 bytes that is there and not 0 takes
//! the place of the one of 4 bytes.

use crate::rows::fadt_fields::*;
use crate::rows::madt::{OTHER_MADT_LENGTHS, OTHER_MADT_WHOLE};
use crate::rows::madt_fields::{GICC, GICC_FLAGS, GICC_PARKING_VERSION, MADT_ENTRIES, RINTC};
use crate::rows::table_fields::{REVISION, TABLE, WHOLE};
use acpi_rules::{
    Case, Clause, Clauses, Form, Guard, Kind, Need, Row, Source, Test, Value, Within,
};

/// The hardware is reduced, or is not: bit 20 of Flags, HW_REDUCED_ACPI.
const REDUCED: Guard<'static> = guard!((some table TABLE: REDUCED_FLAG));

const NOT_REDUCED: Guard<'static> = guard!((none table TABLE: REDUCED_FLAG));

const REDUCED_FLAG: &[Case<'static>] = any!({ WHOLE if (FLAGS_31_16 & 0x10) != 0 });

/// Rules on the FADT.
pub static FADT: [Row<'static>; 14] = [
    // 104 FadtOfRevision, likely wrong (5.2.9): the FADT is too short for its Revision.
    // Numbers: `at` is 0x4, the offset of Length, `other` is Length, `point` is the length that the Revision needs.
    // "The FADT's Length, at {at}, is {other:d}, and its Revision needs {point:d} bytes."
    // Below Revision 3 there is no minimum.
    rule!(104 FadtOfRevision, given in TABLE: {
        WHOLE if REVISION >= 6 && (length own) < 276 => at 4 shows (length own), 276;
        WHOLE if REVISION >= 5 && (length own) < 268 => at 4 shows (length own), 268;
        WHOLE if REVISION >= 3 && (length own) < 244 => at 4 shows (length own), 244
    }),
    // 105 FacsDiffers, likely wrong (5.2.9): FIRMWARE_CTRL and X_FIRMWARE_CTRL differ.
    // Numbers: `at` is 0x24 (36), the offset of FIRMWARE_CTRL, `other` is FIRMWARE_CTRL, `point` is X_FIRMWARE_CTRL.
    // "FIRMWARE_CTRL, at {at} of the FADT, is {other}, and X_FIRMWARE_CTRL is {point}."
    // Neither is 0.
    rule!(105 FacsDiffers, given in TABLE: {
        WHOLE if FIRMWARE_CTRL != 0 && X_FIRMWARE_CTRL != 0 && FIRMWARE_CTRL != X_FIRMWARE_CTRL
            => at 36 shows FIRMWARE_CTRL, X_FIRMWARE_CTRL
    }),
    // 106 DsdtDiffers, likely wrong (5.2.9): DSDT and X_DSDT differ.
    // Numbers: `at` is 0x28 (40), the offset of DSDT, `other` is DSDT, `point` is X_DSDT.
    // "DSDT, at {at} of the FADT, is {other}, and X_DSDT is {point}."
    // Neither is 0.
    rule!(106 DsdtDiffers, given in TABLE: {
        WHOLE if DSDT != 0 && X_DSDT != 0 && DSDT != X_DSDT => at 40 shows DSDT, X_DSDT
    }),
    // 107 BlockDiffers, likely wrong (5.2.9): the two fields of a register block give different I/O ports.
    // Numbers: `at` is the offset of the 4-byte address, `other` is this address, `point` is the address in the X_
    // structure, which is at 148 + 3 * (`at` - 56).
    // "The register block at {at} of the FADT has the I/O port {other} there, and {point} in its X_ structure."
    rule!(107 BlockDiffers, given in TABLE where NOT_REDUCED: {
        WHOLE if X_PM1A_EVT_SPACE == 1
            && PM1A_EVT_BLK != 0 && X_PM1A_EVT_ADDRESS != 0 && PM1A_EVT_BLK != X_PM1A_EVT_ADDRESS
            => at 56 shows PM1A_EVT_BLK, X_PM1A_EVT_ADDRESS;
        WHOLE if X_PM1B_EVT_SPACE == 1
            && PM1B_EVT_BLK != 0 && X_PM1B_EVT_ADDRESS != 0 && PM1B_EVT_BLK != X_PM1B_EVT_ADDRESS
            => at 60 shows PM1B_EVT_BLK, X_PM1B_EVT_ADDRESS;
        WHOLE if X_PM1A_CNT_SPACE == 1
            && PM1A_CNT_BLK != 0 && X_PM1A_CNT_ADDRESS != 0 && PM1A_CNT_BLK != X_PM1A_CNT_ADDRESS
            => at 64 shows PM1A_CNT_BLK, X_PM1A_CNT_ADDRESS;
        WHOLE if X_PM1B_CNT_SPACE == 1
            && PM1B_CNT_BLK != 0 && X_PM1B_CNT_ADDRESS != 0 && PM1B_CNT_BLK != X_PM1B_CNT_ADDRESS
            => at 68 shows PM1B_CNT_BLK, X_PM1B_CNT_ADDRESS;
        WHOLE if X_PM2_CNT_SPACE == 1
            && PM2_CNT_BLK != 0 && X_PM2_CNT_ADDRESS != 0 && PM2_CNT_BLK != X_PM2_CNT_ADDRESS
            => at 72 shows PM2_CNT_BLK, X_PM2_CNT_ADDRESS;
        WHOLE if X_PM_TMR_SPACE == 1
            && PM_TMR_BLK != 0 && X_PM_TMR_ADDRESS != 0 && PM_TMR_BLK != X_PM_TMR_ADDRESS
            => at 76 shows PM_TMR_BLK, X_PM_TMR_ADDRESS;
        WHOLE if X_GPE0_SPACE == 1
            && GPE0_BLK != 0 && X_GPE0_ADDRESS != 0 && GPE0_BLK != X_GPE0_ADDRESS
            => at 80 shows GPE0_BLK, X_GPE0_ADDRESS;
        WHOLE if X_GPE1_SPACE == 1
            && GPE1_BLK != 0 && X_GPE1_ADDRESS != 0 && GPE1_BLK != X_GPE1_ADDRESS
            => at 84 shows GPE1_BLK, X_GPE1_ADDRESS
    }),
    // 132 NoDsdt, likely wrong (5.2.9): the FADT names no DSDT.
    // Numbers: `at` is 0x28 (40), the offset of DSDT.
    // "DSDT, at {at} of the FADT, is 0, and X_DSDT is 0 or does not exist."
    rule!(132 NoDsdt, given in TABLE: {
        WHOLE if DSDT == 0 && X_DSDT == 0 => at 40 shows 0, 0;
        WHOLE if DSDT == 0 && (length own) < 148 => at 40 shows 0, 0
    }),
    // 134 NoPm1Block, likely wrong (5.2.9): PM1a_EVT_BLK or PM1a_CNT_BLK is missing.
    // Numbers: `at` is the offset of the 4-byte field, 0x38 (56) or 0x40 (64).
    // If `at` is 0x38: "PM1a_EVT_BLK, at {at} of the FADT, has no address."
    // "PM1a_CNT_BLK, at {at} of the FADT, has no address."
    rule!(134 NoPm1Block, given in TABLE where NOT_REDUCED: {
        WHOLE if PM1A_EVT_BLK == 0 && X_PM1A_EVT_ADDRESS == 0 => at 56 shows 0, 0;
        WHOLE if PM1A_EVT_BLK == 0 && (length own) < 160 => at 56 shows 0, 0;
        WHOLE if PM1A_CNT_BLK == 0 && X_PM1A_CNT_ADDRESS == 0 => at 64 shows 0, 0;
        WHOLE if PM1A_CNT_BLK == 0 && (length own) < 184 => at 64 shows 0, 0
    }),
    // 135 BlockWidth, likely wrong (5.2.9): the length of a register block is not the width of its X_ structure.
    // Numbers: `at` is the offset of the 4-byte address, `other` is 8 times the length byte, `point` is the bit width.
    // "The register block at {at} of the FADT has a length of {other:d} bits, and its X_ structure a width of
    // {point:d}."
    // Neither of them is 0, nor one of the addresses, and a width, which has one byte, can be this length.
    rule!(135 BlockWidth, given in TABLE where NOT_REDUCED: {
        WHOLE if PM1A_EVT_BLK != 0 && X_PM1A_EVT_ADDRESS != 0
            && PM1_EVT_LEN != 0 && PM1_EVT_LEN < 32 && X_PM1A_EVT_WIDTH != 0 && (8 * PM1_EVT_LEN) != X_PM1A_EVT_WIDTH
            => at 56 shows (8 * PM1_EVT_LEN), X_PM1A_EVT_WIDTH;
        WHOLE if PM1B_EVT_BLK != 0 && X_PM1B_EVT_ADDRESS != 0
            && PM1_EVT_LEN != 0 && PM1_EVT_LEN < 32 && X_PM1B_EVT_WIDTH != 0 && (8 * PM1_EVT_LEN) != X_PM1B_EVT_WIDTH
            => at 60 shows (8 * PM1_EVT_LEN), X_PM1B_EVT_WIDTH;
        WHOLE if PM1A_CNT_BLK != 0 && X_PM1A_CNT_ADDRESS != 0
            && PM1_CNT_LEN != 0 && PM1_CNT_LEN < 32 && X_PM1A_CNT_WIDTH != 0 && (8 * PM1_CNT_LEN) != X_PM1A_CNT_WIDTH
            => at 64 shows (8 * PM1_CNT_LEN), X_PM1A_CNT_WIDTH;
        WHOLE if PM1B_CNT_BLK != 0 && X_PM1B_CNT_ADDRESS != 0
            && PM1_CNT_LEN != 0 && PM1_CNT_LEN < 32 && X_PM1B_CNT_WIDTH != 0 && (8 * PM1_CNT_LEN) != X_PM1B_CNT_WIDTH
            => at 68 shows (8 * PM1_CNT_LEN), X_PM1B_CNT_WIDTH;
        WHOLE if PM2_CNT_BLK != 0 && X_PM2_CNT_ADDRESS != 0
            && PM2_CNT_LEN != 0 && PM2_CNT_LEN < 32 && X_PM2_CNT_WIDTH != 0 && (8 * PM2_CNT_LEN) != X_PM2_CNT_WIDTH
            => at 72 shows (8 * PM2_CNT_LEN), X_PM2_CNT_WIDTH;
        WHOLE if PM_TMR_BLK != 0 && X_PM_TMR_ADDRESS != 0
            && PM_TMR_LEN != 0 && PM_TMR_LEN < 32 && X_PM_TMR_WIDTH != 0 && (8 * PM_TMR_LEN) != X_PM_TMR_WIDTH
            => at 76 shows (8 * PM_TMR_LEN), X_PM_TMR_WIDTH;
        WHOLE if GPE0_BLK != 0 && X_GPE0_ADDRESS != 0
            && GPE0_BLK_LEN != 0 && GPE0_BLK_LEN < 32 && X_GPE0_WIDTH != 0 && (8 * GPE0_BLK_LEN) != X_GPE0_WIDTH
            => at 80 shows (8 * GPE0_BLK_LEN), X_GPE0_WIDTH;
        WHOLE if GPE1_BLK != 0 && X_GPE1_ADDRESS != 0
            && GPE1_BLK_LEN != 0 && GPE1_BLK_LEN < 32 && X_GPE1_WIDTH != 0 && (8 * GPE1_BLK_LEN) != X_GPE1_WIDTH
            => at 84 shows (8 * GPE1_BLK_LEN), X_GPE1_WIDTH
    }),
    // 136 HalfBlock, likely wrong (5.2.9): a register block has an address and no length, or a length and no address.
    // Numbers: `at` is the offset of the 4-byte field, `other` is the length byte, `point` is the address, or 0 if
    // there is none.
    // If `other` is 0: "The register block at {at} of the FADT has the address {point}, and the length 0."
    // "The register block at {at} of the FADT has the length {other:d}, and no address."
    // Looked at are PM2_CNT, PM_TMR, GPE0 and GPE1.
    rule!(136 HalfBlock, given in TABLE where NOT_REDUCED: {
        WHOLE if PM2_CNT_LEN != 0 && PM2_CNT_BLK == 0 && X_PM2_CNT_ADDRESS == 0
            => at 72 shows PM2_CNT_LEN, 0;
        WHOLE if PM2_CNT_LEN != 0 && PM2_CNT_BLK == 0 && (length own) < 208
            => at 72 shows PM2_CNT_LEN, 0;
        WHOLE if PM2_CNT_LEN == 0 && X_PM2_CNT_ADDRESS != 0 => at 72 shows 0, X_PM2_CNT_ADDRESS;
        WHOLE if PM2_CNT_LEN == 0 && PM2_CNT_BLK != 0 => at 72 shows 0, PM2_CNT_BLK;
        WHOLE if PM_TMR_LEN != 0 && PM_TMR_BLK == 0 && X_PM_TMR_ADDRESS == 0
            => at 76 shows PM_TMR_LEN, 0;
        WHOLE if PM_TMR_LEN != 0 && PM_TMR_BLK == 0 && (length own) < 220
            => at 76 shows PM_TMR_LEN, 0;
        WHOLE if PM_TMR_LEN == 0 && X_PM_TMR_ADDRESS != 0 => at 76 shows 0, X_PM_TMR_ADDRESS;
        WHOLE if PM_TMR_LEN == 0 && PM_TMR_BLK != 0 => at 76 shows 0, PM_TMR_BLK;
        WHOLE if GPE0_BLK_LEN != 0 && GPE0_BLK == 0 && X_GPE0_ADDRESS == 0
            => at 80 shows GPE0_BLK_LEN, 0;
        WHOLE if GPE0_BLK_LEN != 0 && GPE0_BLK == 0 && (length own) < 232
            => at 80 shows GPE0_BLK_LEN, 0;
        WHOLE if GPE0_BLK_LEN == 0 && X_GPE0_ADDRESS != 0 => at 80 shows 0, X_GPE0_ADDRESS;
        WHOLE if GPE0_BLK_LEN == 0 && GPE0_BLK != 0 => at 80 shows 0, GPE0_BLK;
        WHOLE if GPE1_BLK_LEN != 0 && GPE1_BLK == 0 && X_GPE1_ADDRESS == 0
            => at 84 shows GPE1_BLK_LEN, 0;
        WHOLE if GPE1_BLK_LEN != 0 && GPE1_BLK == 0 && (length own) < 244
            => at 84 shows GPE1_BLK_LEN, 0;
        WHOLE if GPE1_BLK_LEN == 0 && X_GPE1_ADDRESS != 0 => at 84 shows 0, X_GPE1_ADDRESS;
        WHOLE if GPE1_BLK_LEN == 0 && GPE1_BLK != 0 => at 84 shows 0, GPE1_BLK
    }),
    // 139 GpeOverlap, likely wrong (5.2.9): GPE1_BASE is an event number of the GPE0 block.
    // Numbers: `at` is 0x5e (94), the offset of GPE1_BASE, `other` is 4 * GPE0_BLK_LEN, `point` is GPE1_BASE.
    // "GPE1_BASE, at {at} of the FADT, is {point:d}, and the GPE0 block has the events below {other:d}."
    // GPE0 has 8 events for each byte of half its length.
    rule!(139 GpeOverlap, given in TABLE where NOT_REDUCED: {
        WHOLE if GPE0_BLK != 0 && GPE1_BLK != 0
            && GPE0_BLK_LEN != 0 && GPE1_BLK_LEN != 0 && GPE1_BASE < (4 * GPE0_BLK_LEN)
            => at 94 shows (4 * GPE0_BLK_LEN), GPE1_BASE;
        WHOLE if GPE0_BLK != 0 && X_GPE1_ADDRESS != 0
            && GPE0_BLK_LEN != 0 && GPE1_BLK_LEN != 0 && GPE1_BASE < (4 * GPE0_BLK_LEN)
            => at 94 shows (4 * GPE0_BLK_LEN), GPE1_BASE;
        WHOLE if X_GPE0_ADDRESS != 0 && GPE1_BLK != 0
            && GPE0_BLK_LEN != 0 && GPE1_BLK_LEN != 0 && GPE1_BASE < (4 * GPE0_BLK_LEN)
            => at 94 shows (4 * GPE0_BLK_LEN), GPE1_BASE;
        WHOLE if X_GPE0_ADDRESS != 0 && X_GPE1_ADDRESS != 0
            && GPE0_BLK_LEN != 0 && GPE1_BLK_LEN != 0 && GPE1_BASE < (4 * GPE0_BLK_LEN)
            => at 94 shows (4 * GPE0_BLK_LEN), GPE1_BASE
    }),
    // 140 SmiHalf, likely wrong (5.2.9): SMI_CMD cannot switch between legacy mode and ACPI mode, or is 0 and its
    // values are not.
    // Numbers: `at` is 0x30 (48), the offset of SMI_CMD, `other` is the offset of ACPI_ENABLE, 0x34 (52), or of the
    // first command that is not 0, `point` is SMI_CMD.
    // If `point` is 0: "SMI_CMD, at {at} of the FADT, is 0, and the command at {other} is not."
    // "SMI_CMD, at {at} of the FADT, is {point}, and ACPI_ENABLE, at {other}, is the same as ACPI_DISABLE."
    rule!(140 SmiHalf, given in TABLE where NOT_REDUCED: {
        WHOLE if SMI_CMD != 0 && ACPI_ENABLE == ACPI_DISABLE
            => at 48 shows 52, SMI_CMD;
        WHOLE if SMI_CMD == 0 && ACPI_ENABLE != 0 => at 48 shows 52, 0;
        WHOLE if SMI_CMD == 0 && ACPI_DISABLE != 0 => at 48 shows 53, 0;
        WHOLE if SMI_CMD == 0 && S4BIOS_REQ != 0 => at 48 shows 54, 0;
        WHOLE if SMI_CMD == 0 && PSTATE_CNT != 0 => at 48 shows 55, 0;
        WHOLE if SMI_CMD == 0 && CST_CNT != 0 => at 48 shows 95, 0
    }),
    // 141 SciZero, likely wrong (5.2.9): SCI_INT is 0.
    // Numbers: `at` is 0x2e (46), the offset of SCI_INT.
    // "SCI_INT, at {at} of the FADT, is 0."
    rule!(141 SciZero, given in TABLE where NOT_REDUCED: {
        WHOLE if SCI_INT == 0 => at 46 shows 0, 0
    }),
    // 142 ResetNowhere, likely wrong (5.2.9): the reset register is supported and has the address 0.
    // Numbers: `at` is 0x74 (116), the offset of RESET_REG.
    // "The reset register, at {at} of the FADT, is supported and has the address 0."
    // RESET_REG_SUP is bit 10 of Flags.
    rule!(142 ResetNowhere, given in TABLE: {
        WHOLE if (FLAGS & 0x400) != 0 && (length own) >= 129 && RESET_REG_ADDRESS == 0
            => at 116 shows 0, 0
    }),
    // 144 SleepRegister, likely wrong (5.2.9): a sleep register of reduced hardware has no address, or not 8 bits from
    // bit 0 on.
    // Numbers: `at` is the register's offset, 0xf4 (244) or 0x100 (256). For a width or an offset `other` is the bit
    // width, `point` is the bit offset; for a register without an address both are 0.
    // If `other` is 0: "The sleep register at {at} of the FADT has no address, or the bit width 0."
    // "The sleep register at {at} of the FADT has the bit width {other:d} and the bit offset {point:d}, not 8 and 0."
    // A register without an address is found if the other one has one.
    rule!(144 SleepRegister, given in TABLE where REDUCED: {
        WHOLE if SLEEP_CONTROL_ADDRESS != 0 && SLEEP_CONTROL_WIDTH != 8
            => at 244 shows SLEEP_CONTROL_WIDTH, SLEEP_CONTROL_OFFSET;
        WHOLE if SLEEP_CONTROL_ADDRESS != 0 && SLEEP_CONTROL_OFFSET != 0
            => at 244 shows SLEEP_CONTROL_WIDTH, SLEEP_CONTROL_OFFSET;
        WHOLE if SLEEP_CONTROL_ADDRESS == 0 && SLEEP_STATUS_ADDRESS != 0
            => at 244 shows 0, 0;
        WHOLE if SLEEP_STATUS_ADDRESS != 0 && SLEEP_STATUS_WIDTH != 8
            => at 256 shows SLEEP_STATUS_WIDTH, SLEEP_STATUS_OFFSET;
        WHOLE if SLEEP_STATUS_ADDRESS != 0 && SLEEP_STATUS_OFFSET != 0
            => at 256 shows SLEEP_STATUS_WIDTH, SLEEP_STATUS_OFFSET;
        WHOLE if SLEEP_STATUS_ADDRESS == 0 && SLEEP_CONTROL_ADDRESS != 0
            => at 256 shows 0, 0
    }),
    // 145 FadtReserved, look at it (5.2.9): a field of the FADT has a reserved value.
    // Numbers: `at` is the field's offset, `point` is its value.
    // "The field at {at} of the FADT has the value {point}, which is reserved."
    // Reserved are byte 44 above 1, Preferred_PM_Profile above 8, byte 111 above 0, and in Flags the bits above bit 23
    // and both of bits 23:22, of what caches keep.
    rule!(145 FadtReserved, given in TABLE: {
        WHOLE if RESERVED_44 > 1 => at 44 shows 0, RESERVED_44;
        WHOLE if PREFERRED_PM_PROFILE > 8 => at 45 shows 0, PREFERRED_PM_PROFILE;
        WHOLE if RESERVED_111 != 0 => at 111 shows 0, RESERVED_111;
        WHOLE if FLAGS >= 0x100_0000 => at 112 shows 0, FLAGS;
        WHOLE if (FLAGS_31_16 & 0xc0) == 0xc0 => at 112 shows 0, FLAGS
    }),
];

/// Further rules on the FADT: on its Revision, and on blocks and registers that the hardware or the standard does not have.
pub static FADT_FURTHER: [Row<'static>; 9] = [
    // 282 FadtPastRevision, look at it (5.2.9): the FADT is longer than one of its Revision, or has Revision 0.
    // Numbers: for the length `at` is 0x4, the offset of Length, `other` is the length that a FADT of this Revision has,
    // `point` is Length. For Revision 0 `at` is 0x8, the offset of Revision.
    // If `at` is 0x8: "The FADT's Revision, at {at}, is 0."
    // "The FADT's Length, at {at}, is {point:d}, and a FADT of its Revision has at most {other:d} bytes."
    rule!(282 FadtPastRevision, given in TABLE: {
        WHOLE if REVISION == 1 && (length own) > 116 => at 4 shows 116, (length own);
        WHOLE if REVISION == 2 && (length own) > 132 => at 4 shows 132, (length own);
        WHOLE if REVISION >= 3 && REVISION <= 4 && (length own) > 244 => at 4 shows 244, (length own);
        WHOLE if REVISION == 5 && (length own) > 268 => at 4 shows 268, (length own);
        WHOLE if REVISION >= 6 && (length own) > 276 => at 4 shows 276, (length own);
        WHOLE if REVISION == 0 => at 8 shows 0, 0
    }),
    // 283 ArmBootEarly, look at it (5.2.9): ARM_BOOT_ARCH is not 0 in a FADT older than 5.1, which does not have it.
    // Numbers: `at` is 0x81 (129), the offset of ARM_BOOT_ARCH, `point` is ARM_BOOT_ARCH.
    // "ARM_BOOT_ARCH, at {at} of the FADT, is {point}, and the FADT is older than 5.1, which added it."
    // The lower 4 bits of the byte at 131 are the minor version, 0 if it is not there.
    rule!(283 ArmBootEarly, given in TABLE: {
        WHOLE if ((MINOR_VERSION & 0xf) + 16 * REVISION) < 0x51 && ARM_BOOT_ARCH != 0
            => at 129 shows 0, ARM_BOOT_ARCH;
        WHOLE if (length own) < 132 && REVISION <= 5 && ARM_BOOT_ARCH != 0
            => at 129 shows 0, ARM_BOOT_ARCH
    }),
    // 284 FixedInReduced, look at it (5.2.9): the hardware is reduced, and SMI_CMD or a register block has an address.
    // Numbers: `at` is the offset of the address, `point` is the address.
    // "The hardware is reduced, and the address at {at} of the FADT is {point}, not 0."
    rule!(284 FixedInReduced, given in TABLE where REDUCED: {
        WHOLE if SMI_CMD != 0 => at 48 shows 0, SMI_CMD;
        WHOLE if PM1A_EVT_BLK != 0 => at 56 shows 0, PM1A_EVT_BLK;
        WHOLE if PM1B_EVT_BLK != 0 => at 60 shows 0, PM1B_EVT_BLK;
        WHOLE if PM1A_CNT_BLK != 0 => at 64 shows 0, PM1A_CNT_BLK;
        WHOLE if PM1B_CNT_BLK != 0 => at 68 shows 0, PM1B_CNT_BLK;
        WHOLE if PM2_CNT_BLK != 0 => at 72 shows 0, PM2_CNT_BLK;
        WHOLE if PM_TMR_BLK != 0 => at 76 shows 0, PM_TMR_BLK;
        WHOLE if GPE0_BLK != 0 => at 80 shows 0, GPE0_BLK;
        WHOLE if GPE1_BLK != 0 => at 84 shows 0, GPE1_BLK;
        WHOLE if X_PM1A_EVT_ADDRESS != 0 => at 152 shows 0, X_PM1A_EVT_ADDRESS;
        WHOLE if X_PM1B_EVT_ADDRESS != 0 => at 164 shows 0, X_PM1B_EVT_ADDRESS;
        WHOLE if X_PM1A_CNT_ADDRESS != 0 => at 176 shows 0, X_PM1A_CNT_ADDRESS;
        WHOLE if X_PM1B_CNT_ADDRESS != 0 => at 188 shows 0, X_PM1B_CNT_ADDRESS;
        WHOLE if X_PM2_CNT_ADDRESS != 0 => at 200 shows 0, X_PM2_CNT_ADDRESS;
        WHOLE if X_PM_TMR_ADDRESS != 0 => at 212 shows 0, X_PM_TMR_ADDRESS;
        WHOLE if X_GPE0_ADDRESS != 0 => at 224 shows 0, X_GPE0_ADDRESS;
        WHOLE if X_GPE1_ADDRESS != 0 => at 236 shows 0, X_GPE1_ADDRESS
    }),
    // 285 SmiHandshake, look at it (5.2.9): SMI_CMD is there, and one of ACPI_ENABLE and ACPI_DISABLE is 0.
    // Numbers: `at` is the offset of the one that is 0, 0x34 (52) or 0x35 (53).
    // If `at` is 0x34: "ACPI_ENABLE, at {at} of the FADT, is 0, and SMI_CMD and ACPI_DISABLE are not."
    // "ACPI_DISABLE, at {at} of the FADT, is 0, and SMI_CMD and ACPI_ENABLE are not."
    rule!(285 SmiHandshake, given in TABLE where NOT_REDUCED: {
        WHOLE if SMI_CMD != 0 && ACPI_ENABLE == 0 && ACPI_DISABLE != 0 => at 52 shows 0, 0;
        WHOLE if SMI_CMD != 0 && ACPI_DISABLE == 0 && ACPI_ENABLE != 0 => at 53 shows 0, 0
    }),
    // 287 GpePastEnd, likely wrong (5.6.4.1): a GPE block has events above 255, for which there are no methods.
    // Numbers: for GPE0 `at` is 0x5c (92), the offset of GPE0_BLK_LEN, `point` is GPE0_BLK_LEN. For GPE1 `at` is 0x5e
    // (94), the offset of GPE1_BASE, `point` is GPE1_BASE.
    // If `at` is 0x5c: "GPE0_BLK_LEN, at {at} of the FADT, is {point:d}, which gives events above 255."
    // "GPE1_BASE, at {at} of the FADT, is {point:d}, which with GPE1_BLK_LEN gives events above 255."
    // A block has 8 events for each byte of half its length.
    rule!(287 GpePastEnd, given in TABLE where NOT_REDUCED: {
        WHOLE if GPE0_BLK != 0 && GPE0_BLK_LEN > 64 => at 92 shows 0, GPE0_BLK_LEN;
        WHOLE if X_GPE0_ADDRESS != 0 && GPE0_BLK_LEN > 64 => at 92 shows 0, GPE0_BLK_LEN;
        WHOLE if GPE1_BLK != 0 && (GPE1_BASE + 4 * GPE1_BLK_LEN) > 256 => at 94 shows 0, GPE1_BASE;
        WHOLE if X_GPE1_ADDRESS != 0 && (GPE1_BASE + 4 * GPE1_BLK_LEN) > 256 => at 94 shows 0, GPE1_BASE
    }),
    // 288 BlockTooLong, likely wrong (5.2.9, 5.2.3.2): a register block is longer than a generic address
    // structure can describe.
    // Numbers: `at` is the offset of the length byte, `point` is the length.
    // "The length byte at {at} of the FADT, of a register block, is {point:d}, above 31."
    // Looked at are blocks that only the 4-byte field gives, but for GPE0 and GPE1.
    rule!(288 BlockTooLong, given in TABLE where NOT_REDUCED: {
        WHOLE if PM1A_EVT_BLK != 0 && X_PM1A_EVT_ADDRESS == 0 && PM1_EVT_LEN > 31 => at 88 shows 0, PM1_EVT_LEN;
        WHOLE if PM1A_EVT_BLK != 0 && (length own) < 160 && PM1_EVT_LEN > 31 => at 88 shows 0, PM1_EVT_LEN;
        WHOLE if PM1B_EVT_BLK != 0 && X_PM1B_EVT_ADDRESS == 0 && PM1_EVT_LEN > 31 => at 88 shows 0, PM1_EVT_LEN;
        WHOLE if PM1B_EVT_BLK != 0 && (length own) < 172 && PM1_EVT_LEN > 31 => at 88 shows 0, PM1_EVT_LEN;
        WHOLE if PM1A_CNT_BLK != 0 && X_PM1A_CNT_ADDRESS == 0 && PM1_CNT_LEN > 31 => at 89 shows 0, PM1_CNT_LEN;
        WHOLE if PM1A_CNT_BLK != 0 && (length own) < 184 && PM1_CNT_LEN > 31 => at 89 shows 0, PM1_CNT_LEN;
        WHOLE if PM1B_CNT_BLK != 0 && X_PM1B_CNT_ADDRESS == 0 && PM1_CNT_LEN > 31 => at 89 shows 0, PM1_CNT_LEN;
        WHOLE if PM1B_CNT_BLK != 0 && (length own) < 196 && PM1_CNT_LEN > 31 => at 89 shows 0, PM1_CNT_LEN;
        WHOLE if PM2_CNT_BLK != 0 && X_PM2_CNT_ADDRESS == 0 && PM2_CNT_LEN > 31 => at 90 shows 0, PM2_CNT_LEN;
        WHOLE if PM2_CNT_BLK != 0 && (length own) < 208 && PM2_CNT_LEN > 31 => at 90 shows 0, PM2_CNT_LEN;
        WHOLE if PM_TMR_BLK != 0 && X_PM_TMR_ADDRESS == 0 && PM_TMR_LEN > 31 => at 91 shows 0, PM_TMR_LEN;
        WHOLE if PM_TMR_BLK != 0 && (length own) < 220 && PM_TMR_LEN > 31 => at 91 shows 0, PM_TMR_LEN
    }),
    // 289 BlockSpace, likely wrong (5.2.9): a register block is neither in memory nor in I/O ports.
    // Numbers: `at` is the offset of the X_ structure, which begins with its address space, `point` is this space.
    // "The X_ structure at {at} of the FADT has the address space {point}, neither memory nor I/O ports."
    rule!(289 BlockSpace, given in TABLE where NOT_REDUCED: {
        WHOLE if X_PM1A_EVT_ADDRESS != 0 && X_PM1A_EVT_SPACE > 1 => at 148 shows 0, X_PM1A_EVT_SPACE;
        WHOLE if X_PM1B_EVT_ADDRESS != 0 && X_PM1B_EVT_SPACE > 1 => at 160 shows 0, X_PM1B_EVT_SPACE;
        WHOLE if X_PM1A_CNT_ADDRESS != 0 && X_PM1A_CNT_SPACE > 1 => at 172 shows 0, X_PM1A_CNT_SPACE;
        WHOLE if X_PM1B_CNT_ADDRESS != 0 && X_PM1B_CNT_SPACE > 1 => at 184 shows 0, X_PM1B_CNT_SPACE;
        WHOLE if X_PM2_CNT_ADDRESS != 0 && X_PM2_CNT_SPACE > 1 => at 196 shows 0, X_PM2_CNT_SPACE;
        WHOLE if X_PM_TMR_ADDRESS != 0 && X_PM_TMR_SPACE > 1 => at 208 shows 0, X_PM_TMR_SPACE;
        WHOLE if X_GPE0_ADDRESS != 0 && X_GPE0_SPACE > 1 => at 220 shows 0, X_GPE0_SPACE;
        WHOLE if X_GPE1_ADDRESS != 0 && X_GPE1_SPACE > 1 => at 232 shows 0, X_GPE1_SPACE
    }),
    // 290 BlockUsualWidth, likely wrong (4.8.3): a register block has another width than the usual one.
    // Numbers: `at` is the offset of the width in the X_ structure, `point` is the width, in bits.
    // "The bit width at {at} of the FADT, of a register block, is {point:d}, not the usual one."
    // Usual are 32 bits for PM1a_EVT, PM1b_EVT and PM_TMR, 16 for PM1a_CNT and PM1b_CNT, and 8 for PM2_CNT.
    rule!(290 BlockUsualWidth, given in TABLE where NOT_REDUCED: {
        WHOLE if X_PM1A_EVT_ADDRESS != 0 && X_PM1A_EVT_WIDTH != 32 => at 149 shows 0, X_PM1A_EVT_WIDTH;
        WHOLE if X_PM1B_EVT_ADDRESS != 0 && X_PM1B_EVT_WIDTH != 32 => at 161 shows 0, X_PM1B_EVT_WIDTH;
        WHOLE if X_PM1A_CNT_ADDRESS != 0 && X_PM1A_CNT_WIDTH != 16 => at 173 shows 0, X_PM1A_CNT_WIDTH;
        WHOLE if X_PM1B_CNT_ADDRESS != 0 && X_PM1B_CNT_WIDTH != 16 => at 185 shows 0, X_PM1B_CNT_WIDTH;
        WHOLE if X_PM2_CNT_ADDRESS != 0 && X_PM2_CNT_WIDTH != 8 => at 197 shows 0, X_PM2_CNT_WIDTH;
        WHOLE if X_PM_TMR_ADDRESS != 0 && X_PM_TMR_WIDTH != 32 => at 209 shows 0, X_PM_TMR_WIDTH
    }),
    // 291 SleepNotReduced, look at it (5.2.9): a sleep register has an address, and the hardware is not reduced.
    // Numbers: `at` is the offset of the address, `point` is the address.
    // "The hardware is not reduced, and the address at {at} of the FADT, of a sleep register, is {point}, not 0."
    rule!(291 SleepNotReduced, given in TABLE where NOT_REDUCED: {
        WHOLE if SLEEP_CONTROL_ADDRESS != 0 => at 248 shows 0, SLEEP_CONTROL_ADDRESS;
        WHOLE if SLEEP_STATUS_ADDRESS != 0 => at 260 shows 0, SLEEP_STATUS_ADDRESS
    }),
];

/// Rules on the FADT with the MADT.
pub static FADT_WITH_MADT: [Row<'static>; 4] = [
    // 143 FadtForArch, likely wrong (5.2.9): the MADT is of Arm or RISC-V, and the FADT is not of reduced hardware or
    // is too old.
    // Numbers: for HW_REDUCED_ACPI `at` is 0x70 (112), the offset of Flags. For the version `at` is 0x8, the offset of
    // Revision, `other` is Revision, `point` is the minor version.
    // If `at` is 0x70: "The MADT is of Arm or RISC-V, and Flags, at {at} of the FADT, do not say that the hardware is
    // reduced."
    // "The MADT is of Arm, and the FADT, of version {other:d}.{point:d}, is older than 5.1."
    // This row: a GIC CPU interface, and a FADT older than 5.1. The lower 4 bits of the byte at 131 are the minor
    // version, 0 if it is not there.
    rule!(143 FadtForArch, given in TABLE where (some other MADT_ENTRIES: { (any GICC) }): {
        WHOLE if ((MINOR_VERSION & 0xf) + 16 * REVISION) < 0x51
            => at 8 shows REVISION, (MINOR_VERSION & 0xf);
        WHOLE if (length own) < 132 && REVISION <= 5 => at 8 shows REVISION, 0
    }),
    // a GIC CPU interface or a RISC-V hart, and the hardware is not reduced
    rule!(143 FadtForArch, given in TABLE where
        (some other MADT_ENTRIES: { (any GICC); (any RINTC) }), NOT_REDUCED:
    {
        WHOLE => at 112 shows 0, 0
    }),
    // 170 NoBootMethod, likely wrong (5.2.12.14): there are several processors and neither PSCI nor a parking protocol.
    // Numbers: `at` is 0x81 (129), the offset of ARM_BOOT_ARCH in the FADT, `point` is ARM_BOOT_ARCH.
    // "Several processors are usable, ARM_BOOT_ARCH, at {at} of the FADT, is {point}, without PSCI, and none has a
    // parking protocol."
    // PSCI is bit 0 of ARM_BOOT_ARCH. A processor has a parking protocol if it has a version of it.
    rule!(170 NoBootMethod, given in TABLE where
        (two other MADT_ENTRIES: { GICC if (GICC_FLAGS & 0b1001) != 0 }),
        (none other MADT_ENTRIES: { GICC if (GICC_FLAGS & 0b1001) != 0 && GICC_PARKING_VERSION != 0 }),
        OTHER_MADT_WHOLE, OTHER_MADT_LENGTHS:
    {
        WHOLE if (ARM_BOOT_ARCH & 0b1) == 0 => at 129 shows 0, ARM_BOOT_ARCH
    }),
    // 292 FadtForRiscv, likely wrong (5.2.9): the MADT is of RISC-V, and the FADT is older than 6.6.
    // Numbers: `at` is 0x8, the offset of Revision, `other` is Revision, `point` is the minor version.
    // "The MADT is of RISC-V, and the FADT, of version {other:d}.{point:d}, is older than 6.6."
    rule!(292 FadtForRiscv, given in TABLE where (some other MADT_ENTRIES: { (any RINTC) }): {
        WHOLE if ((MINOR_VERSION & 0xf) + 16 * REVISION) < 0x66
            => at 8 shows REVISION, (MINOR_VERSION & 0xf);
        WHOLE if (length own) < 132 && REVISION <= 6 => at 8 shows REVISION, 0
    }),
];
