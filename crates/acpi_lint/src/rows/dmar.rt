//! Rules on the DMAR (Intel VT-d specification, 8.1 to 8.9), by itself, with the SRAT and with the MADT.

use crate::rows::dmar_fields::*;
use crate::rows::madt::{MADT_LENGTHS, MADT_WHOLE};
use crate::rows::madt_fields::{IO_APIC, IO_APIC_ID, MADT_ENTRIES};
use crate::rows::srat::{ALL_DOMAINS, OTHER_SRAT_LENGTHS, OTHER_SRAT_READ, OTHER_SRAT_WHOLE};
use crate::rows::srat_fields::SRAT_ENTRIES;
use crate::rows::table_fields::{LENGTH, TABLE, TYPE, WHOLE};
use acpi_rules::{
    Case, Clause, Clauses, Form, FoundAs, Guard, Kind, LookUp, Need, Range, Repeat, Row, Source,
    Test, Value, Within,
};

/// Structures that are shorter than the fields of their type.
const SHORT_STRUCTURES: &[Case<'static>] = cases!({
    (any DRHD) if (length own) < 16 => at 0 shows 16, (length own);
    (any RMRR) if (length own) < 24 => at 0 shows 24, (length own);
    (any ATSR) if (length own) < 8 => at 0 shows 8, (length own);
    (any RHSA) if (length own) < 20 => at 0 shows 20, (length own);
    (any ANDD) if (length own) < 9 => at 0 shows 9, (length own);
    (any SATC) if (length own) < 8 => at 0 shows 8, (length own);
    (any SIDP) if (length own) < 8 => at 0 shows 8, (length own)
});

/// No walk over structures or device scopes is cut, and no structure is too short.
const STRUCTURES_WHOLE: Guard<'static> = guard!((whole table DMAR_STRUCTURES));

const SCOPES_WHOLE: Guard<'static> = guard!((whole table SCOPES));

const STRUCTURES_LONG: Guard<'static> = guard!((none table DMAR_STRUCTURES: SHORT_STRUCTURES));

/// Rules on the DMAR and its structures.
pub static DMAR: [Row<'static>; 15] = [
    // 240 DmarWidth, likely wrong (Intel VT-d specification, 8.1): the DMAR is shorter than 48 bytes, or its Host
    // Address Width is not 11 to 63.
    // Numbers: `at` is the offset of the field, 0x4 of Length or 0x24 (36) of Host Address Width, `point` is the field;
    // for Length `other` is 0x30 (48).
    // If `at` is 0x24: "The Host Address Width at {at} of the DMAR is {point:d}, not 11 to 63."
    // "The DMAR's Length, at {at}, is {point:d}, and it needs {other:d} bytes."
    // An address has one bit more than Host Address Width says.
    rule!(240 DmarWidth, given in TABLE: {
        WHOLE if LENGTH < 48 => at 4 shows 48, LENGTH;
        WHOLE if HOST_ADDRESS_WIDTH < 11 => at 36 shows 0, HOST_ADDRESS_WIDTH;
        WHOLE if HOST_ADDRESS_WIDTH > 63 => at 36 shows 0, HOST_ADDRESS_WIDTH
    }),
    // 241 DmarCut, likely wrong (Intel VT-d specification, 8.1): after the last structure of the DMAR there are bytes
    // that are not a structure.
    // Numbers: `at` is the offset of these bytes, `other` is the length that they say, or 0 if they are fewer than 4,
    // `point` is the DMAR's Length.
    // If `other` is 0: "At {at} of the DMAR there is no structure: the length there is 0, or the table ends at {point},
    // before it."
    // "At {at} of the DMAR there is no structure: the length there, {other:d}, is below 4 or goes past the table's end
    // at {point}."
    rule!(241 DmarCut, cut in DMAR_STRUCTURES),
    // 242 DmarShort, likely wrong (Intel VT-d specification, 8.3 to 8.9): a structure of the DMAR is shorter than the
    // fields of its type.
    // Numbers: `at` is the structure's offset, `other` is the length that its type needs, `point` is its length.
    // "The structure at {at} of the DMAR has the length {point:d}, and its type needs {other:d} bytes."
    // A DRHD needs 16 bytes, an RMRR 24, an RHSA 20, an ANDD 9, an ATSR, SATC or SIDP 8.
    rule!(242 DmarShort, given in DMAR_STRUCTURES: SHORT_STRUCTURES),
    // 243 NoDrhd, likely wrong (Intel VT-d specification, 8.3): the DMAR has no DRHD.
    // Numbers: all 0.
    // "The DMAR has no DRHD."
    // Applies if the DMAR has 48 bytes, and DmarCut, DmarShort and ScopeCut find nothing.
    rule!(243 NoDrhd, given in TABLE where
        (none table DMAR_STRUCTURES: { (any DRHD) }), STRUCTURES_WHOLE, STRUCTURES_LONG, SCOPES_WHOLE:
    {
        WHOLE if LENGTH >= 48 => at 0 shows 0, 0
    }),
    // 246 DrhdAddress, likely wrong (Intel VT-d specification, 8.3): a DRHD has a Register Base Address that is 0 or no
    // multiple of 4096.
    // Numbers: `at` is the structure's offset, `other` is 0x8, the offset of Register Base Address in it, `point` is
    // that address.
    // If `point` is 0: "The DRHD at {at} of the DMAR has the Register Base Address 0."
    // "The DRHD at {at} of the DMAR has the Register Base Address {point}, which is no multiple of 4096."
    rule!(246 DrhdAddress, given in DMAR_STRUCTURES: {
        DRHD if DRHD_BASE == 0 => at 0 shows 8, DRHD_BASE;
        DRHD if (DRHD_BASE_15_0 & 0xfff) != 0 => at 0 shows 8, DRHD_BASE
    }),
    // 247 DrhdOverlap, likely wrong (Intel VT-d specification, 8.3): the registers of two DRHDs share an address.
    // Numbers: `at` and `other` are the offsets of two such structures, first the one whose registers begin lower, and
    // of two that begin together the one at the lower offset; `point` is the lowest address at which two overlap.
    // "The registers of the DRHDs at {at} and {other} of the DMAR share the address {point}."
    // The registers have 4096 * 2^n bytes from a Register Base Address that is not 0, where n is bits 3:0 of Size, the
    // byte at 5.
    rule!(247 DrhdOverlap, overlap in DMAR_STRUCTURES: {
        DRHD if DRHD_BASE != 0 && (DRHD_SIZE & 0xf) == 0 => at 0 shows 0x1000, DRHD_BASE;
        DRHD if DRHD_BASE != 0 && (DRHD_SIZE & 0xf) == 1 => at 0 shows 0x2000, DRHD_BASE;
        DRHD if DRHD_BASE != 0 && (DRHD_SIZE & 0xf) == 2 => at 0 shows 0x4000, DRHD_BASE;
        DRHD if DRHD_BASE != 0 && (DRHD_SIZE & 0xf) == 3 => at 0 shows 0x8000, DRHD_BASE;
        DRHD if DRHD_BASE != 0 && (DRHD_SIZE & 0xf) == 4 => at 0 shows 0x1_0000, DRHD_BASE;
        DRHD if DRHD_BASE != 0 && (DRHD_SIZE & 0xf) == 5 => at 0 shows 0x2_0000, DRHD_BASE;
        DRHD if DRHD_BASE != 0 && (DRHD_SIZE & 0xf) == 6 => at 0 shows 0x4_0000, DRHD_BASE;
        DRHD if DRHD_BASE != 0 && (DRHD_SIZE & 0xf) == 7 => at 0 shows 0x8_0000, DRHD_BASE;
        DRHD if DRHD_BASE != 0 && (DRHD_SIZE & 0xf) == 8 => at 0 shows 0x10_0000, DRHD_BASE;
        DRHD if DRHD_BASE != 0 && (DRHD_SIZE & 0xf) == 9 => at 0 shows 0x20_0000, DRHD_BASE;
        DRHD if DRHD_BASE != 0 && (DRHD_SIZE & 0xf) == 10 => at 0 shows 0x40_0000, DRHD_BASE;
        DRHD if DRHD_BASE != 0 && (DRHD_SIZE & 0xf) == 11 => at 0 shows 0x80_0000, DRHD_BASE;
        DRHD if DRHD_BASE != 0 && (DRHD_SIZE & 0xf) == 12 => at 0 shows 0x100_0000, DRHD_BASE;
        DRHD if DRHD_BASE != 0 && (DRHD_SIZE & 0xf) == 13 => at 0 shows 0x200_0000, DRHD_BASE;
        DRHD if DRHD_BASE != 0 && (DRHD_SIZE & 0xf) == 14 => at 0 shows 0x400_0000, DRHD_BASE;
        DRHD if DRHD_BASE != 0 && (DRHD_SIZE & 0xf) == 15 => at 0 shows 0x800_0000, DRHD_BASE
    }),
    // 248 SecondIncludeAll, likely wrong (Intel VT-d specification, 8.3, 8.5): two DRHDs of one segment have
    // INCLUDE_PCI_ALL set, or two ATSRs of one segment have ALL_PORTS set.
    // Numbers: `at` is the structure's offset, `other` that of the first one of its type with this flag and this
    // segment, `point` is its Segment Number.
    // "The structure at {at} of the DMAR has INCLUDE_PCI_ALL or ALL_PORTS set for the segment {point:d}, as the one at
    // {other} does."
    rule!(248 SecondIncludeAll, repeated in DMAR_STRUCTURES: {
        DRHD if (DRHD_FLAGS & 0b1) != 0 => at 0 shows DRHD_SEGMENT, DRHD_SEGMENT
    }),
    // 248 SecondIncludeAll of ATSRs
    rule!(248 SecondIncludeAll, repeated in DMAR_STRUCTURES: {
        ATSR if (ATSR_FLAGS & 0b1) != 0 => at 0 shows ATSR_SEGMENT, ATSR_SEGMENT
    }),
    // 249 IncludeAllNotLast, look at it (Intel VT-d specification, 8.3): a DRHD follows one of the same segment that has
    // INCLUDE_PCI_ALL set, and does not have it set itself.
    // Numbers: `at` is the structure's offset, `other` that of the first DRHD of its segment with INCLUDE_PCI_ALL, `point`
    // is its Segment Number.
    // "The DRHD at {at} of the DMAR comes after the one at {other}, which has INCLUDE_PCI_ALL set for the segment
    // {point:d} of both."
    rule!(249 IncludeAllNotLast, behind in DMAR_STRUCTURES: {
        DRHD if (DRHD_FLAGS & 0b1) == 0 => at 0 shows DRHD_SEGMENT, DRHD_SEGMENT
    } among table DMAR_STRUCTURES {
        DRHD if (DRHD_FLAGS & 0b1) != 0 => at 0 shows 0, DRHD_SEGMENT
    }),
    // 250 RmrrRange, likely wrong (Intel VT-d specification, 8.4): the memory of an RMRR does not begin or end at a
    // multiple of 4096, or its limit is not above its base.
    // Numbers: `at` is the structure's offset, `other` is the offset in it of the address, 0x8 of Reserved Memory
    // Region Base Address or 0x10 (16) of Reserved Memory Region Limit Address, `point` is that address.
    // If `other` is 0x8: "The RMRR at {at} of the DMAR has the base address {point}, which is no multiple of 4096."
    // "The RMRR at {at} of the DMAR has the limit address {point}, whose bits 11:0 are not all set, or which is not
    // above the base address."
    // The limit address is that of the last byte.
    rule!(250 RmrrRange, given in DMAR_STRUCTURES: {
        RMRR if (RMRR_BASE_15_0 & 0xfff) != 0 => at 0 shows 8, RMRR_BASE;
        RMRR if (RMRR_LIMIT_15_0 & 0xfff) != 0xfff => at 0 shows 16, RMRR_LIMIT;
        RMRR if RMRR_LIMIT <= RMRR_BASE => at 0 shows 16, RMRR_LIMIT
    }),
    // 251 RmrrNoDevice, likely wrong (Intel VT-d specification, 8.4): an RMRR has no device scope.
    // Numbers: `at` is the structure's offset, `other` is 0x20 (32), the least length with a device scope, `point` is
    // its length.
    // "The RMRR at {at} of the DMAR has the length {point:d}, so it has no device scope, for which it needs {other:d}
    // bytes."
    rule!(251 RmrrNoDevice, given in DMAR_STRUCTURES: {
        RMRR_ALONE => at 0 shows 32, (length own)
    }),
    // 252 RhsaNowhere, likely wrong (Intel VT-d specification, 8.6): an RHSA has a Register Base Address that no DRHD
    // has.
    // Numbers: `at` is the structure's offset, `other` is 0x8, the offset of Register Base Address in it, `point` is
    // that address.
    // "The RHSA at {at} of the DMAR has the Register Base Address {point}, which no DRHD has."
    // Applies if DmarCut, DmarShort and ScopeCut find nothing.
    rule!(252 RhsaNowhere, nowhere in DMAR_STRUCTURES where STRUCTURES_WHOLE, STRUCTURES_LONG, SCOPES_WHOLE: {
        RHSA => at 0 shows 8, RHSA_BASE
    } among table DMAR_STRUCTURES { DRHD => at 0 shows 0, DRHD_BASE }),
    // 254 SameRhsa, likely wrong (Intel VT-d specification, 8.6): two RHSAs have the same Register Base Address.
    // Numbers: `at` is the structure's offset, `other` that of the first RHSA with this address, `point` is the
    // address.
    // "The RHSA at {at} of the DMAR has the Register Base Address {point}, as the one at {other} does."
    rule!(254 SameRhsa, repeated in DMAR_STRUCTURES: { RHSA => at 0 shows RHSA_BASE, RHSA_BASE }),
    // 255 AnddName, likely wrong (Intel VT-d specification, 8.7): the ACPI Object Name of an ANDD has no byte that is 0.
    // Numbers: `at` is the structure's offset, `other` is 0x8, the offset of ACPI Object Name in it.
    // "The ACPI Object Name of the ANDD at {at} of the DMAR does not end: none of the bytes from {other:d} on is 0."
    rule!(255 AnddName, given in DMAR_STRUCTURES: {
        ANDD if (zero own 8) == (length own) => at 0 shows 8, 0
    }),
    // 256 AnddNowhere, likely wrong (Intel VT-d specification, 8.7): a device scope names an ANDD that the DMAR does
    // not have, or no DRHD has a device scope of an ANDD.
    // Numbers: `at` is the offset of the device scope or of the ANDD, `other` is the offset in it of its number, 0x4 of
    // the scope's Enumeration ID or 0x7 of ACPI Device Number, `point` is that number.
    // If `other` is 0x4: "The device scope at {at} of the DMAR has the Enumeration ID {point:d}, which is the ACPI
    // Device Number of no ANDD."
    // "The ANDD at {at} of the DMAR has the ACPI Device Number {point:d}, which is the Enumeration ID of no device
    // scope of a DRHD."
    // The device scopes are those of type 5, namespace device. Applies if DmarCut, DmarShort and ScopeCut find nothing.
    rule!(256 AnddNowhere, nowhere in DMAR_STRUCTURES where STRUCTURES_WHOLE, STRUCTURES_LONG, SCOPES_WHOLE: {
        ANDD => at 0 shows 7, ANDD_NUMBER
    } among table SCOPES { NAMESPACE_SCOPE if (around DMAR_TYPE) == 0 => at 0 shows 0, ENUMERATION_ID }),
];

/// Rules on the device scopes of a DMAR.
pub static DMAR_SCOPES: [Row<'static>; 5] = [
    // 244 ScopeCut, likely wrong (Intel VT-d specification, 8.3.1): after the last device scope of a structure of the
    // DMAR there are bytes that are not a device scope.
    // Numbers: `at` is the offset of these bytes, `other` is the length that they say, or 0 if there is 1 byte, `point`
    // is the offset at which the structure ends.
    // If `other` is 0: "At {at} of the DMAR there is no device scope: the length there is 0, or the structure ends at
    // {point}, before it."
    // "At {at} of the DMAR there is no device scope: the length there, {other:d}, is below 8 or goes past the
    // structure's end at {point}."
    rule!(244 ScopeCut, cut in SCOPES),
    // 245 ScopeType, likely wrong (Intel VT-d specification, 8.3.1): a device scope of the DMAR has an unknown type or
    // an odd length, or a step of its path has a Device above 31 or a Function above 7.
    // Numbers: `at` is the offset of the device scope or of the step, `other` is 0 for the scope's type or the step's
    // Device, 0x1 for the scope's length or the step's Function, `point` is that number.
    // If `other` is 0: "The device scope at {at} of the DMAR has a type that is not 1 to 5, or the step of a path there
    // has a Device above 31: {point:d}."
    // "The device scope at {at} of the DMAR has an odd length, or the step of a path there has a Function above 7:
    // {point:d}."
    rule!(245 ScopeType, given in SCOPES: {
        SCOPE if TYPE < 1 => at 0 shows 0, TYPE;
        SCOPE if TYPE > 5 => at 0 shows 0, TYPE;
        SCOPE if (SCOPE_LENGTH & 0b1) != 0 => at 0 shows 1, SCOPE_LENGTH
    }),
    // 245 ScopeType of the steps of a path
    rule!(245 ScopeType, given in STEPS: {
        STEP if STEP_DEVICE > 31 => at 0 shows 0, STEP_DEVICE;
        STEP if STEP_FUNCTION > 7 => at 0 shows 1, STEP_FUNCTION
    }),
    // 256 AnddNowhere of device scopes
    rule!(256 AnddNowhere, nowhere in SCOPES where STRUCTURES_WHOLE, STRUCTURES_LONG, SCOPES_WHOLE: {
        NAMESPACE_SCOPE => at 0 shows 4, ENUMERATION_ID
    } among table DMAR_STRUCTURES { ANDD => at 0 shows 0, ANDD_NUMBER }),
    // 258 SameScope, likely wrong (Intel VT-d specification, 8.3.1): two device scopes of DRHDs are of the same I/O
    // APIC.
    // Numbers: `at` is the device scope's offset, `other` that of the first one with this ID, `point` is its
    // Enumeration ID.
    // "The device scope at {at} of the DMAR is of the I/O APIC with the ID {point:d}, as the one at {other} is."
    // The device scopes are those of type 3, I/O APIC.
    rule!(258 SameScope, repeated in SCOPES: {
        IO_APIC_SCOPE if (around DMAR_TYPE) == 0 => at 0 shows ENUMERATION_ID, ENUMERATION_ID
    }),
];

/// Rules on the DMAR with the SRAT, if all its entries are read.
pub static DMAR_WITH_SRAT: [Row<'static>; 1] = [
    // 253 RhsaDomain, look at it (Intel VT-d specification, 8.6): an RHSA is in a proximity domain that the SRAT does
    // not have.
    // Numbers: `at` is the structure's offset in the DMAR, `other` is 0x10 (16), the offset of Proximity Domain in it,
    // `point` is the domain.
    // "The RHSA at {at} of the DMAR has the Proximity Domain {point:d}, which the SRAT does not have."
    // The structures of the SRAT count whether they are enabled or not.
    rule!(253 RhsaDomain, nowhere in DMAR_STRUCTURES where
        OTHER_SRAT_READ, OTHER_SRAT_WHOLE, OTHER_SRAT_LENGTHS:
    {
        RHSA => at 0 shows 16, RHSA_DOMAIN
    } among other SRAT_ENTRIES ALL_DOMAINS),
];

/// Rules on the MADT with the DMAR.
pub static MADT_WITH_DMAR: [Row<'static>; 1] = [
    // 257 IoApicUnmapped, likely wrong (Intel VT-d specification, 8.3.1): interrupts are remapped, and an I/O APIC of
    // the MADT is in no device scope of a DRHD.
    // Numbers: `at` is the offset of the I/O APIC in the MADT, `other` is 0x2, the offset of its ID in it, `point` is
    // the ID.
    // "The I/O APIC at {at} of the MADT has the ID {point:d}, which is the Enumeration ID of no device scope of a DRHD,
    // and bit 0 of the DMAR's Flags is set."
    // The device scopes are those of type 3, I/O APIC. Applies if DmarCut, DmarShort and ScopeCut find nothing.
    rule!(257 IoApicUnmapped, nowhere in MADT_ENTRIES where
        MADT_WHOLE, MADT_LENGTHS,
        (whole other DMAR_STRUCTURES), (none other DMAR_STRUCTURES: SHORT_STRUCTURES), (whole other SCOPES):
    {
        IO_APIC if ((other DMAR_FLAGS) & 0b1) != 0 && (other LENGTH) >= 48 => at 0 shows 2, IO_APIC_ID
    } among other SCOPES { IO_APIC_SCOPE if (around DMAR_TYPE) == 0 => at 0 shows 0, ENUMERATION_ID }),
];
