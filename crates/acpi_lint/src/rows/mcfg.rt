//! Rules on the MCFG (PCI Firmware Specification 3.3, 4.1.2).

use crate::rows::mcfg_fields::*;
use crate::rows::table_fields::{LENGTH, OEM_ID_0_2, REVISION, TABLE, WHOLE};
use acpi_rules::{Case, Clause, Clauses, Form, Range, Row, Test, Value, Within};

/// The base address of each entry with buses, and 256 times its End Bus Number and its Start Bus Number; for EcamOverlap.
pub const ECAMS: &[Case<'static>] = cases!({
    ECAM if ECAM_BASE != 0 && ECAM_FIRST_BUS <= ECAM_LAST_BUS
        => at 0 shows (ECAM_FIRST_BUS + 256 * ECAM_LAST_BUS), ECAM_BASE
});

/// Rules on the MCFG. By hand is 191 EcamOverlap, since no row has the last address of an ECAM.
pub static MCFG: [Row<'static>; 6] = [
    // 185 McfgLength, likely wrong (PCI Firmware Specification 3.3, 4.1.2): the MCFG's Length is not 44 plus 16 for
    // each of one or more entries.
    // Numbers: `at` is 0x4, the offset of Length, `other` is the next length above Length that is right, `point` is
    // Length.
    // "The MCFG's Length, at {at}, is {point:d}, not 44 plus 16 for each of one or more entries: the next such length
    // is {other:d}."
    rule!(185 McfgLength, given in TABLE: {
        WHOLE if LENGTH < 60 => at 4 shows 60, LENGTH;
        WHOLE if (LENGTH & 0xf) == 0 => at 4 shows (12 + 1 * LENGTH), LENGTH;
        WHOLE if (LENGTH & 0xf) == 1 => at 4 shows (11 + 1 * LENGTH), LENGTH;
        WHOLE if (LENGTH & 0xf) == 2 => at 4 shows (10 + 1 * LENGTH), LENGTH;
        WHOLE if (LENGTH & 0xf) == 3 => at 4 shows (9 + 1 * LENGTH), LENGTH;
        WHOLE if (LENGTH & 0xf) == 4 => at 4 shows (8 + 1 * LENGTH), LENGTH;
        WHOLE if (LENGTH & 0xf) == 5 => at 4 shows (7 + 1 * LENGTH), LENGTH;
        WHOLE if (LENGTH & 0xf) == 6 => at 4 shows (6 + 1 * LENGTH), LENGTH;
        WHOLE if (LENGTH & 0xf) == 7 => at 4 shows (5 + 1 * LENGTH), LENGTH;
        WHOLE if (LENGTH & 0xf) == 8 => at 4 shows (4 + 1 * LENGTH), LENGTH;
        WHOLE if (LENGTH & 0xf) == 9 => at 4 shows (3 + 1 * LENGTH), LENGTH;
        WHOLE if (LENGTH & 0xf) == 10 => at 4 shows (2 + 1 * LENGTH), LENGTH;
        WHOLE if (LENGTH & 0xf) == 11 => at 4 shows (1 + 1 * LENGTH), LENGTH;
        WHOLE if (LENGTH & 0xf) == 13 => at 4 shows (15 + 1 * LENGTH), LENGTH;
        WHOLE if (LENGTH & 0xf) == 14 => at 4 shows (14 + 1 * LENGTH), LENGTH;
        WHOLE if (LENGTH & 0xf) == 15 => at 4 shows (13 + 1 * LENGTH), LENGTH
    }),
    // 186 EcamAddress, likely wrong (PCI Firmware Specification 3.3, 4.1.2): an entry of the MCFG has a base address
    // that is 0 or no multiple of 1 MiB.
    // Numbers: `at` is the entry's offset, `point` is its base address.
    // If `point` is 0: "The entry at {at} of the MCFG has the base address 0."
    // "The entry at {at} of the MCFG has the base address {point}, which is no multiple of 1 MiB."
    rule!(186 EcamAddress, given in MCFG_ENTRIES: {
        ECAM if ECAM_BASE == 0 => at 0 shows 0, ECAM_BASE;
        ECAM if ECAM_BASE_15_0 != 0 => at 0 shows 0, ECAM_BASE;
        ECAM if (ECAM_BASE_31_16 & 0xf) != 0 => at 0 shows 0, ECAM_BASE
    }),
    // 187 BusesReversed, likely wrong (PCI Firmware Specification 3.3, 4.1.2): an entry of the MCFG has an end bus
    // number below its start bus number.
    // Numbers: `at` is the entry's offset, `other` is 0xb (11), the offset of the end bus number in it, `point` is the
    // end bus number.
    // "The entry at {at} of the MCFG has the end bus number {point:d}, below its start bus number."
    rule!(187 BusesReversed, given in MCFG_ENTRIES: {
        ECAM if ECAM_LAST_BUS < ECAM_FIRST_BUS => at 0 shows 11, ECAM_LAST_BUS
    }),
    // 188 EcamWraps, likely wrong (PCI Firmware Specification 3.3, 4.1.2): the address range of an entry of the MCFG
    // ends above the highest address.
    // Numbers: `at` is the entry's offset, `point` is its base address.
    // "The address range of the entry at {at} of the MCFG, with the base address {point}, ends above the highest
    // address."
    // The base address is that of bus 0, and each bus has 1 MiB.
    // In units of 0x1_0000 bytes.
    rule!(188 EcamWraps, given in MCFG_ENTRIES: {
        ECAM if ECAM_BASE_63_32 == 0xffff_ffff && (ECAM_BASE_31_16 + 16 * ECAM_LAST_BUS) > 0xfff0
            => at 0 shows 0, ECAM_BASE;
        ECAM if ECAM_BASE_63_32 == 0xffff_ffff && (ECAM_BASE_31_16 + 16 * ECAM_LAST_BUS) == 0xfff0
            && ECAM_BASE_15_0 != 0
            => at 0 shows 0, ECAM_BASE
    }),
    // 189 EcamTooHigh, likely wrong: the MCFG has Revision 0, and an entry's base address is not below 0xffffffff.
    // Numbers: `at` is the entry's offset, `point` is its base address.
    // "The MCFG has Revision 0, and its entry at {at} has the base address {point}, not below 0xffffffff."
    // Applies if the OEM ID does not begin with SGI.
    rule!(189 EcamTooHigh, given in MCFG_ENTRIES: {
        ECAM if (table REVISION) == 0 && (table OEM_ID_0_2) != 0x49_4753 && ECAM_BASE >= 0xffff_ffff
            => at 0 shows 0, ECAM_BASE
    }),
    // 190 SameBus, likely wrong (PCI Firmware Specification 3.3, 4.1.2): two entries of the MCFG have the same bus of
    // the same PCI segment.
    // Numbers: `at` and `other` are the offsets of two such entries, first the one whose buses begin lower, and of two
    // that begin together the one at the lower offset; `point` is 256 * segment + bus of the lowest bus that two have.
    // "The entries at {at} and {other} of the MCFG both have the bus of which 256 * segment + bus is {point}."
    // An entry whose end bus number is below its start bus number has no bus.
    rule!(190 SameBus, overlap_to in MCFG_ENTRIES: {
        ECAM if ECAM_FIRST_BUS <= ECAM_LAST_BUS
            => at 0 shows (ECAM_LAST_BUS + 256 * ECAM_SEGMENT), (ECAM_FIRST_BUS + 256 * ECAM_SEGMENT)
    }),
];
