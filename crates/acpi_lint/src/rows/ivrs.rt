//! Rules on the IVRS (AMD 48882, 5.2), by itself and with the MADT.

use crate::rows::ivrs_fields::*;
use crate::rows::madt::{MADT_LENGTHS, MADT_WHOLE};
use crate::rows::madt_fields::{IO_APIC, IO_APIC_ID, MADT_ENTRIES};
use crate::rows::table_fields::{LENGTH, TABLE, TYPE, WHOLE};
use acpi_rules::{
    Case, Clause, Clauses, Form, FoundAs, Guard, Kind, LookUp, Need, Repeat, Row, Source, Test,
    Value, Within,
};

/// Blocks that are shorter than the fields of their type.
const SHORT_BLOCKS: &[Case<'static>] = cases!({
    (any IVHD_10) if (length own) < 24 => at 0 shows 24, (length own);
    (any IVHD_11) if (length own) < 40 => at 0 shows 40, (length own);
    (any IVMD) if (length own) < 32 => at 0 shows 32, (length own);
    (any IVHD_40) if (length own) < 40 => at 0 shows 40, (length own)
});

/// No walk over blocks or device entries is cut, and no block is too short.
const BLOCKS_WHOLE: Guard<'static> = guard!((whole table IVRS_BLOCKS));

const BLOCKS_LONG: Guard<'static> = guard!((none table IVRS_BLOCKS: SHORT_BLOCKS));

const ENTRIES_WHOLE: Guard<'static> = guard!((whole table DEVICE_ENTRIES));

const OTHER_BLOCKS_WHOLE: Guard<'static> = guard!((whole other IVRS_BLOCKS));

const OTHER_BLOCKS_LONG: Guard<'static> = guard!((none other IVRS_BLOCKS: SHORT_BLOCKS));

const OTHER_ENTRIES_WHOLE: Guard<'static> = guard!((whole other DEVICE_ENTRIES));

/// Special devices that are I/O APICs, in IVHDs of each type.
const IO_APICS_10: &[Case<'static>] = cases!({
    SPECIAL if VARIETY == 1 && (around TYPE) == 0x10 => at 0 shows 0, HANDLE
});

const IO_APICS_11: &[Case<'static>] = cases!({
    SPECIAL if VARIETY == 1 && (around TYPE) == 0x11 => at 0 shows 0, HANDLE
});

const IO_APICS_40: &[Case<'static>] = cases!({
    SPECIAL if VARIETY == 1 && (around TYPE) == 0x40 => at 0 shows 0, HANDLE
});

/// Device entries that start a range: each with its DeviceID, and the offset behind it.
const STARTS: &[Case<'static>] = cases!({
    RANGE_START => at 0 shows ENTRY_DEVICE, (end own);
    ALIAS_START => at 0 shows ENTRY_DEVICE, (end own);
    EXTENDED_START => at 0 shows ENTRY_DEVICE, (end own)
});

/// Rules on the IVRS and its blocks.
pub static IVRS: [Row<'static>; 11] = [
    // 259 IvrsCut, likely wrong (AMD 48882, 5.2.1): the IVRS is shorter than 48 bytes, or after its last block there
    // are bytes that are not a block.
    // Numbers: `at` is 0x4, the offset of Length, or the offset of these bytes; `other` is 0x30 (48), or the length
    // that the bytes say, 0 if they are fewer than 4; `point` is the IVRS's Length.
    // If `at` is 0x4: "The IVRS's Length, at {at}, is {point:d}, and it needs {other:d} bytes."
    // If `other` is 0: "At {at} of the IVRS there is no block: the length there is 0, or the table ends at {point},
    // before it."
    // "At {at} of the IVRS there is no block: the length there, {other:d}, is below 4 or goes past the table's end at
    // {point}."
    rule!(259 IvrsCut, given in TABLE: { WHOLE if LENGTH < 48 => at 4 shows 48, LENGTH }),
    // 259 IvrsCut where the walk over the blocks ends
    rule!(259 IvrsCut, cut in IVRS_BLOCKS),
    // 260 IvrsShort, likely wrong (AMD 48882, 5.2.2, 5.2.3): a block of the IVRS is shorter than the fields of its
    // type.
    // Numbers: `at` is the block's offset, `other` is the length that its type needs, `point` is its length.
    // "The block at {at} of the IVRS has the length {point:d}, and its type needs {other:d} bytes."
    // An IVHD of type 0x10 needs 24 bytes, one of type 0x11 or 0x40 needs 40, and an IVMD, of type 0x20 to 0x23, 32.
    rule!(260 IvrsShort, given in IVRS_BLOCKS: SHORT_BLOCKS),
    // 261 NoIvhd, likely wrong (AMD 48882, 5.2.2): the IVRS has no IVHD.
    // Numbers: all 0.
    // "The IVRS has no IVHD."
    // Applies if IvrsCut, IvrsShort and IvhdEntryCut find nothing.
    rule!(261 NoIvhd, given in TABLE where
        (none table IVRS_BLOCKS: { (any IVHD_10); (any IVHD_11); (any IVHD_40) }),
        BLOCKS_WHOLE, BLOCKS_LONG, ENTRIES_WHOLE:
    {
        WHOLE if LENGTH >= 48 => at 0 shows 0, 0
    }),
    // 262 IvhdAddress, likely wrong (AMD 48882, 5.2.2): an IVHD has an IOMMU Base Address that is 0 or no multiple of
    // 16384.
    // Numbers: `at` is the block's offset, `other` is 0x8, the offset of IOMMU Base Address in it, `point` is that
    // address.
    // If `point` is 0: "The IVHD at {at} of the IVRS has the IOMMU Base Address 0."
    // "The IVHD at {at} of the IVRS has the IOMMU Base Address {point}, which is no multiple of 16384."
    rule!(262 IvhdAddress, given in IVRS_BLOCKS: {
        IVHD_10 if IVHD_BASE == 0 => at 0 shows 8, IVHD_BASE;
        IVHD_10 if (IVHD_BASE_15_0 & 0x3fff) != 0 => at 0 shows 8, IVHD_BASE;
        IVHD_11 if IVHD_BASE == 0 => at 0 shows 8, IVHD_BASE;
        IVHD_11 if (IVHD_BASE_15_0 & 0x3fff) != 0 => at 0 shows 8, IVHD_BASE;
        IVHD_40 if IVHD_BASE == 0 => at 0 shows 8, IVHD_BASE;
        IVHD_40 if (IVHD_BASE_15_0 & 0x3fff) != 0 => at 0 shows 8, IVHD_BASE
    }),
    // 263 SameIvhd, likely wrong (AMD 48882, 5.2.2): two IVHDs of one type and one PCI Segment Group have the same
    // DeviceID.
    // Numbers: `at` is the block's offset, `other` that of the first IVHD of its type and PCI Segment Group with this
    // DeviceID, `point` is the DeviceID.
    // "The IVHD at {at} of the IVRS has the DeviceID {point}, as the one at {other} of the same type and PCI Segment
    // Group does."
    rule!(263 SameIvhd, repeated in IVRS_BLOCKS: {
        IVHD_10 => at 0 shows IVHD_DEVICE, (pair IVHD_SEGMENT IVHD_DEVICE)
    }),
    // 263 SameIvhd of type 0x11
    rule!(263 SameIvhd, repeated in IVRS_BLOCKS: {
        IVHD_11 => at 0 shows IVHD_DEVICE, (pair IVHD_SEGMENT IVHD_DEVICE)
    }),
    // 263 SameIvhd of type 0x40
    rule!(263 SameIvhd, repeated in IVRS_BLOCKS: {
        IVHD_40 => at 0 shows IVHD_DEVICE, (pair IVHD_SEGMENT IVHD_DEVICE)
    }),
    // 264 IvhdDiffers, likely wrong (AMD 48882, 5.2.2): two IVHDs have the same IOMMU Base Address, or the same PCI
    // Segment Group and DeviceID, and not both.
    // Numbers: `at` is the block's offset, `other` that of the first IVHD that has its IOMMU Base Address, or its PCI
    // Segment Group and DeviceID, `point` is its IOMMU Base Address.
    // "The IVHD at {at} of the IVRS has its IOMMU Base Address, {point}, or its PCI Segment Group and DeviceID in
    // common with the one at {other}, and not both."
    rule!(264 IvhdDiffers, unlike_value in IVRS_BLOCKS: {
        IVHD_10 => at 0 shows IVHD_BASE, (pair IVHD_SEGMENT IVHD_DEVICE);
        IVHD_11 => at 0 shows IVHD_BASE, (pair IVHD_SEGMENT IVHD_DEVICE);
        IVHD_40 => at 0 shows IVHD_BASE, (pair IVHD_SEGMENT IVHD_DEVICE)
    }),
    // 264 IvhdDiffers of one IOMMU Base Address
    rule!(264 IvhdDiffers, unlike in IVRS_BLOCKS: {
        IVHD_10 => at 0 shows (pair IVHD_SEGMENT IVHD_DEVICE), IVHD_BASE;
        IVHD_11 => at 0 shows (pair IVHD_SEGMENT IVHD_DEVICE), IVHD_BASE;
        IVHD_40 => at 0 shows (pair IVHD_SEGMENT IVHD_DEVICE), IVHD_BASE
    }),
    // 270 IvmdRange, likely wrong (AMD 48882, 5.2.3): an IVMD has reserved flags or none of a mapping, an empty range
    // of memory or one that ends above the highest address, or a range of devices that ends below its start.
    // Numbers: `at` is the block's offset, `other` is the offset in it of the field that is wrong, 0x1 of Flags, 0x6 of
    // the last DeviceID, 0x10 (16) of IVMD Start Address, 0x18 (24) of IVMD Memory Block Length, `point` is that field.
    // If `other` is 0x1: "The IVMD at {at} of the IVRS has the Flags {point}, with neither bit 0 nor bit 3 set, or with
    // a bit above bit 3 set."
    // If `other` is 0x6: "The IVMD at {at} of the IVRS has the last DeviceID {point}, below the first one."
    // If `other` is 0x10: "The memory of the IVMD at {at} of the IVRS, with the IVMD Start Address {point}, ends above
    // the highest address."
    // "The IVMD at {at} of the IVRS has the IVMD Memory Block Length 0."
    // Bit 0 of Flags is Unity, bit 1 IR, bit 2 IW, bit 3 exclusion range. The devices are a range in a block of type
    // 0x22.
    rule!(270 IvmdRange, given in IVRS_BLOCKS: {
        IVMD_OF_DEVICES if (IVMD_FLAGS & 0b1001) == 0 => at 0 shows 1, IVMD_FLAGS;
        IVMD_OF_DEVICES if IVMD_FLAGS > 0b1111 => at 0 shows 1, IVMD_FLAGS;
        IVMD_RANGE if IVMD_LAST_DEVICE < IVMD_DEVICE => at 0 shows 6, IVMD_LAST_DEVICE;
        IVMD_OF_DEVICES if (excess IVMD_START IVMD_LENGTH) != 0 => at 0 shows 16, IVMD_START;
        IVMD_OF_DEVICES if IVMD_LENGTH == 0 => at 0 shows 24, IVMD_LENGTH
    }),
];

/// Rules on the device entries of an IVRS.
pub static DEVICES: [Row<'static>; 9] = [
    // 265 IvhdEntryCut, likely wrong (AMD 48882, 5.2.2): after the last device entry of an IVHD there are bytes that
    // are not a device entry.
    // Numbers: `at` is the offset of these bytes, `other` is the length of the type that they say, 0 if they say none,
    // `point` is the offset at which the block ends.
    // If `other` is 0: "At {at} of the IVRS there is no device entry: the type there has no length, or the block ends
    // at {point}, before the length."
    // "At {at} of the IVRS there is no device entry: one of the type there has {other:d} bytes, and the block ends at
    // {point}."
    // A device entry of a type below 0x40 has 4 bytes, one of a type from 0x40 to 0x7f 8, and one of type 0xf0 22 and
    // its UID; other types have no length.
    rule!(265 IvhdEntryCut, cut in DEVICE_ENTRIES),
    // 266 IvhdEntryType, look at it (AMD 48882, 5.2.2): a device entry of the IVRS is of a type that its block does not
    // have, or has a Variety, a Hardware ID or a UID that is reserved.
    // Numbers: `at` is the device entry's offset, `other` is the offset in it of the byte that is wrong, 0 of its type,
    // 0x4 of Hardware ID, 0x7 of Variety, 0x14 (20) of UID Format, 0x15 (21) of UID Length, `point` is that byte.
    // If `other` is 0x4: "The ACPI HID device at {at} of the IVRS has a Hardware ID that begins with 0."
    // If `other` is 0x7: "The special device at {at} of the IVRS has the Variety {point:d}, not 1 to 3."
    // If `other` is 0x14: "The ACPI HID device at {at} of the IVRS has the UID Format {point:d}, above 2."
    // If `other` is 0x15: "The ACPI HID device at {at} of the IVRS has the UID Length {point:d}, which its UID Format
    // does not allow."
    // If `point` is 0xf0: "The device entry at {at} of the IVRS has the type {point}, which a block of type 0x10 or
    // 0x11 does not have."
    // "The device entry at {at} of the IVRS has the type {point}, which is reserved."
    // A UID of format 0 has 0 bytes, one of format 1, a number, 8.
    rule!(266 IvhdEntryType, given in DEVICE_ENTRIES: {
        UNKNOWN_OF_4 => at 0 shows 0, TYPE;
        UNKNOWN_41 => at 0 shows 0, TYPE;
        UNKNOWN_44 => at 0 shows 0, TYPE;
        UNKNOWN_OF_8 => at 0 shows 0, TYPE;
        SPECIAL if VARIETY < 1 => at 0 shows 7, VARIETY;
        SPECIAL if VARIETY > 3 => at 0 shows 7, VARIETY;
        HID_DEVICE if (around TYPE) < 0x40 => at 0 shows 0, TYPE;
        HID_DEVICE if HARDWARE_ID_0 == 0 => at 0 shows 4, HARDWARE_ID_0;
        HID_DEVICE if UID_FORMAT > 2 => at 0 shows 20, UID_FORMAT;
        HID_DEVICE if UID_FORMAT == 0 && UID_LENGTH != 0 => at 0 shows 21, UID_LENGTH;
        HID_DEVICE if UID_FORMAT == 1 && UID_LENGTH != 8 => at 0 shows 21, UID_LENGTH
    }),
    // 267 IvhdRange, likely wrong (AMD 48882, 5.2.2): a device entry of the IVRS starts a range that the next one does not
    // end, or ends one that the one before does not start, or that starts at a higher DeviceID.
    // Numbers: `at` is the device entry's offset, `other` is 0x1, the offset of DeviceID in it, `point` is the DeviceID.
    // "The device entry at {at} of the IVRS, with the DeviceID {point}, starts a range that the next one does not end, or
    // ends one that the one before does not start, or starts at a higher DeviceID."
    // Entries of the types 3, 0x43 and 0x47 start a range, and those of type 4 end one.
    rule!(267 IvhdRange, found_field 1 in DEVICE_ENTRIES: STARTS among table DEVICE_ENTRIES {
        BELOW_END => at 0 shows 0, (offset own);
        ABOVE_END => at 0 shows 0, (offset own)
    }),
    // 267 IvhdRange of a start, or of an end, without an entry behind or before it
    rule!(267 IvhdRange, given in DEVICE_ENTRIES: {
        RANGE_START if (end own) == (end around) => at 0 shows 1, ENTRY_DEVICE;
        ALIAS_START if (end own) == (end around) => at 0 shows 1, ENTRY_DEVICE;
        EXTENDED_START if (end own) == (end around) => at 0 shows 1, ENTRY_DEVICE;
        RANGE_END if (offset own) == (offset around + 24) && (around TYPE) < 0x11 => at 0 shows 1, ENTRY_DEVICE;
        RANGE_END if (offset own) == (offset around + 40) && (around TYPE) > 0x10 => at 0 shows 1, ENTRY_DEVICE
    }),
    // 267 IvhdRange of an end behind an entry that starts no range
    rule!(267 IvhdRange, found_field 1 in DEVICE_ENTRIES: {
        RANGE_END => at 0 shows ENTRY_DEVICE, (offset own)
    } among table DEVICE_ENTRIES {
        BELOW_START => at 0 shows 0, (end own);
        BELOW_ALIAS_START => at 0 shows 0, (end own);
        BELOW_EXTENDED_START => at 0 shows 0, (end own);
        ABOVE_STARTS => at 0 shows 0, (end own)
    }),
    // 267 IvhdRange of an end below its start
    rule!(267 IvhdRange, found_field_below 1 in DEVICE_ENTRIES: {
        RANGE_END => at 0 shows ENTRY_DEVICE, (offset own)
    } among table DEVICE_ENTRIES STARTS),
    // 269 SameSpecial, likely wrong (AMD 48882, 5.2.2): two special devices of one Variety, in IVHDs of one type, have
    // the same Handle.
    // Numbers: `at` is the device entry's offset, `other` that of the first one of its Variety with this Handle in
    // IVHDs of this type, `point` is the Handle.
    // "The special device at {at} of the IVRS has the Handle {point:d}, as the one at {other} of the same Variety does,
    // in IVHDs of the same type."
    rule!(269 SameSpecial, repeated in DEVICE_ENTRIES: {
        SPECIAL if (around TYPE) == 0x10 => at 0 shows HANDLE, (HANDLE + 256 * VARIETY)
    }),
    // 269 SameSpecial in IVHDs of type 0x11
    rule!(269 SameSpecial, repeated in DEVICE_ENTRIES: {
        SPECIAL if (around TYPE) == 0x11 => at 0 shows HANDLE, (HANDLE + 256 * VARIETY)
    }),
    // 269 SameSpecial in IVHDs of type 0x40
    rule!(269 SameSpecial, repeated in DEVICE_ENTRIES: {
        SPECIAL if (around TYPE) == 0x40 => at 0 shows HANDLE, (HANDLE + 256 * VARIETY)
    }),
];

/// Rules on the MADT with the IVRS.
pub static MADT_WITH_IVRS: [Row<'static>; 3] = [
    // 268 IoApicNotInIvrs, likely wrong (AMD 48882, 5.2.2): the IVHDs of one type have special devices that are I/O APICs,
    // and an I/O APIC of the MADT is none of them.
    // Numbers: `at` is the offset of the I/O APIC in the MADT, `other` is 0x2, the offset of its ID in it, `point` is the
    // ID.
    // "The I/O APIC at {at} of the MADT has the ID {point:d}, which is the Handle of no special device of Variety 1 in the
    // IVHDs of a type that have some."
    // Applies if IvrsCut, IvrsShort and IvhdEntryCut find nothing.
    rule!(268 IoApicNotInIvrs, nowhere in MADT_ENTRIES where
        MADT_WHOLE, MADT_LENGTHS, OTHER_BLOCKS_WHOLE, OTHER_BLOCKS_LONG, OTHER_ENTRIES_WHOLE,
        (some other DEVICE_ENTRIES: IO_APICS_10):
    {
        IO_APIC => at 0 shows 2, IO_APIC_ID
    } among other DEVICE_ENTRIES IO_APICS_10),
    // 268 IoApicNotInIvrs of IVHDs of type 0x11
    rule!(268 IoApicNotInIvrs, nowhere in MADT_ENTRIES where
        MADT_WHOLE, MADT_LENGTHS, OTHER_BLOCKS_WHOLE, OTHER_BLOCKS_LONG, OTHER_ENTRIES_WHOLE,
        (some other DEVICE_ENTRIES: IO_APICS_11):
    {
        IO_APIC => at 0 shows 2, IO_APIC_ID
    } among other DEVICE_ENTRIES IO_APICS_11),
    // 268 IoApicNotInIvrs of IVHDs of type 0x40
    rule!(268 IoApicNotInIvrs, nowhere in MADT_ENTRIES where
        MADT_WHOLE, MADT_LENGTHS, OTHER_BLOCKS_WHOLE, OTHER_BLOCKS_LONG, OTHER_ENTRIES_WHOLE,
        (some other DEVICE_ENTRIES: IO_APICS_40):
    {
        IO_APIC => at 0 shows 2, IO_APIC_ID
    } among other DEVICE_ENTRIES IO_APICS_40),
];
