//! Rules on the MADT (ACPI 6.5, 5.2.12), by itself and with another table.

use crate::rows::fadt_fields::{MINOR_VERSION, SCI_INT};
use crate::rows::madt_fields::*;
use crate::rows::pptt::{
    LEAF_IDS, NODE_IDS, OTHER_MARKED, OTHER_NODES, OTHER_PPTT_LENGTHS, OTHER_PPTT_WHOLE,
    OTHER_UNMARKED, PARENTS,
};
use crate::rows::pptt_fields::PPTT_ENTRIES;
use crate::rows::srat::{
    OTHER_SRAT_LENGTHS, OTHER_SRAT_WHOLE, PLACED_APIC_IDS, PLACED_PROCESSORS, PLACED_UIDS,
};
use crate::rows::srat_fields::SRAT_ENTRIES;
use crate::rows::table_fields::*;
use acpi_rules::{
    Case, Clause, Clauses, Form, FoundAs, Guard, Kind, LookUp, Need, Range, Repeat, Row, Source,
    Test, Value, Within,
};

// ---- what entries give

/// The UID of each processor.
pub const UIDS: &[Case<'static>] = cases!({
    LOCAL_APIC => at 0 shows 0, LOCAL_APIC_UID;
    X2APIC => at 0 shows 0, X2APIC_UID;
    GICC => at 0 shows 0, GICC_UID;
    CORE_PIC => at 0 shows 0, CORE_PIC_UID;
    RINTC => at 0 shows 0, RINTC_UID
});

/// The APIC ID, X2APIC ID or core ID of each processor that has one.
pub const APIC_IDS: &[Case<'static>] = cases!({
    LOCAL_APIC => at 0 shows 0, LOCAL_APIC_ID;
    X2APIC => at 0 shows 0, X2APIC_ID;
    CORE_PIC => at 0 shows 0, CORE_PIC_ID
});

/// The UID of each usable processor: one that is Enabled or Online Capable.
const USABLE_UIDS: &[Case<'static>] = cases!({
    LOCAL_APIC if (LOCAL_APIC_FLAGS & 0b11) != 0 => at 0 shows LOCAL_APIC_UID, LOCAL_APIC_UID;
    X2APIC if (X2APIC_FLAGS & 0b11) != 0 => at 0 shows X2APIC_UID, X2APIC_UID;
    GICC if (GICC_FLAGS & 0b1001) != 0 => at 0 shows GICC_UID, GICC_UID;
    CORE_PIC if (CORE_PIC_FLAGS & 0b1) != 0 => at 0 shows CORE_PIC_UID, CORE_PIC_UID;
    RINTC if (RINTC_FLAGS & 0b11) != 0 => at 0 shows RINTC_UID, RINTC_UID
});

/// The same, of which nothing else is shown where no leaf has one.
const LEAFLESS_UIDS: &[Case<'static>] = cases!({
    LOCAL_APIC if (LOCAL_APIC_FLAGS & 0b11) != 0 => at 0 shows 0, LOCAL_APIC_UID;
    X2APIC if (X2APIC_FLAGS & 0b11) != 0 => at 0 shows 0, X2APIC_UID;
    GICC if (GICC_FLAGS & 0b1001) != 0 => at 0 shows 0, GICC_UID;
    CORE_PIC if (CORE_PIC_FLAGS & 0b1) != 0 => at 0 shows 0, CORE_PIC_UID;
    RINTC if (RINTC_FLAGS & 0b11) != 0 => at 0 shows 0, RINTC_UID
});

/// The APIC ID, X2APIC ID or core ID of each usable processor that has one.
const USABLE_APIC_IDS: &[Case<'static>] = cases!({
    LOCAL_APIC if (LOCAL_APIC_FLAGS & 0b11) != 0 => at 0 shows LOCAL_APIC_ID, LOCAL_APIC_ID;
    X2APIC if (X2APIC_FLAGS & 0b11) != 0 => at 0 shows X2APIC_ID, X2APIC_ID;
    CORE_PIC if (CORE_PIC_FLAGS & 0b1) != 0 => at 0 shows CORE_PIC_ID, CORE_PIC_ID
});

/// The redistributor that a usable GIC CPU interface names as its own.
const OWN_REDISTRIBUTORS: &[Case<'static>] = cases!({
    GICC if (GICC_FLAGS & 0b1001) != 0 && GICC_GICR_BASE != 0 => at 0 shows GICC_GICR_BASE, 0
});

// ---- conditions

/// The GIC, by the version of its first distributor, has redistributors (5.2.12.15).
const HAS_REDISTRIBUTORS: Guard<'static> = guard!((first table MADT_ENTRIES: {
    GICD if GICD_VERSION == 3 => at 0 shows 0, 1;
    GICD if GICD_VERSION == 4 => at 0 shows 0, 1;
    GICD => at 0 shows 0, 0
}));

/// It has none.
const HAS_NO_REDISTRIBUTORS: Guard<'static> = guard!((first table MADT_ENTRIES: {
    GICD if GICD_VERSION == 1 => at 0 shows 0, 1;
    GICD if GICD_VERSION == 2 => at 0 shows 0, 1;
    GICD => at 0 shows 0, 0
}));

/// The entries fill the table, and those of a type that `check` reads have its length. Of such a table alone it is known
/// what is not in it.
pub const MADT_WHOLE: Guard<'static> = guard!((whole table MADT_ENTRIES));

pub const OTHER_MADT_WHOLE: Guard<'static> = guard!((whole other MADT_ENTRIES));

pub const MADT_LENGTHS: Guard<'static> = guard!((none table MADT_ENTRIES: WRONG_LENGTHS));

pub const OTHER_MADT_LENGTHS: Guard<'static> = guard!((none other MADT_ENTRIES: WRONG_LENGTHS));

const WRONG_LENGTHS: &[Case<'static>] = any!({
    (any LOCAL_APIC) if (length own) != 8;
    (any IO_APIC) if (length own) != 12;
    (any OVERRIDE) if (length own) != 10;
    (any NMI_SOURCE) if (length own) != 8;
    (any LOCAL_NMI) if (length own) != 6;
    (any ADDRESS_OVERRIDE) if (length own) != 12;
    (any X2APIC) if (length own) != 16;
    (any X2APIC_NMI) if (length own) != 12
});

/// No entry is a processor in a form that no rule reads.
const PROCESSORS_READ: Guard<'static> = guard!((none table MADT_ENTRIES: UNREAD_PROCESSORS));

pub const OTHER_PROCESSORS_READ: Guard<'static> =
    guard!((none other MADT_ENTRIES: UNREAD_PROCESSORS));

const UNREAD_PROCESSORS: &[Case<'static>] = any!({
    LOCAL_SAPIC;
    (any GICC) if (length own) < 40;
    (any CORE_PIC) if (length own) != 15;
    (any RINTC) if (length own) < 20
});

/// The other table, a MADT, has a GIC.
pub const OTHER_GIC: Guard<'static> = guard!((some other MADT_ENTRIES: { (any GICD) }));

/// The MADT has a processor of an Arm machine; for NoGtdt, which is not a row.
pub const NEEDS_GTDT: Row<'static> = rule!(209 NoGtdt, given in TABLE where
    (some table MADT_ENTRIES: { (any GICC) }),
    MADT_WHOLE, MADT_LENGTHS:
{
    WHOLE => at 0 shows 0, 0
});

// ---- for GicrTooSmall, which is not a row

/// When redistributors are counted: the GIC has some by its version, and all ranges of them are read (5.2.12.17).
pub const GICRS_ARE_KNOWN: &[Guard<'static>] = &[
    HAS_REDISTRIBUTORS,
    guard!((none table MADT_ENTRIES: { (any GICR) if (length own) != 16 })),
    MADT_WHOLE,
    MADT_LENGTHS,
];

/// The length of each range of redistributors.
pub const GICR_LENGTHS: &[Case<'static>] = cases!({ GICR => at 0 shows 0, GICR_LENGTH });

/// Each usable CPU interface.
pub const USABLE_GICCS: &[Case<'static>] = any!({ GICC if (GICC_FLAGS & 0b1001) != 0 });

// ---- the rules

/// Rules on the MADT, but for those on the parts of a GIC.
pub static MADT: [Row<'static>; 18] = [
    // 109 SameUid, likely wrong (5.2.12): two usable processors have the same UID.
    // Numbers: `at` is the structure's offset, `other` that of the first usable one with this UID, `point` is the UID.
    // "The usable processor at {at} of the MADT has the UID {point:d}, as the one at {other} does."
    rule!(109 SameUid, repeated in MADT_ENTRIES: USABLE_UIDS),
    // 110 SameApicId, likely wrong (5.2.12): two usable processors have the same APIC ID, X2APIC ID or core ID.
    // Numbers: `at` is the structure's offset, `other` that of the first usable one with this ID, `point` is the ID.
    // "The usable processor at {at} of the MADT has the APIC ID, X2APIC ID or core ID {point:d}, as the one at {other}
    // does."
    rule!(110 SameApicId, repeated in MADT_ENTRIES: USABLE_APIC_IDS),
    // 111 IoApicAtZero, likely wrong (5.2.12.3): an I/O APIC has the address 0.
    // Numbers: `at` is the structure's offset.
    // "The I/O APIC at {at} of the MADT has the address 0."
    rule!(111 IoApicAtZero, given in MADT_ENTRIES: {
        IO_APIC if IO_APIC_ADDRESS == 0 => at 0 shows 0, 0
    }),
    // 112 SameIoApicId, likely wrong (5.2.12.3): two I/O APICs have the same ID.
    // Numbers: `at` is the structure's offset, `other` that of the first I/O APIC with this ID, `point` is the ID.
    // "The I/O APIC at {at} of the MADT has the ID {point:d}, as the one at {other} does."
    rule!(112 SameIoApicId, repeated in MADT_ENTRIES: {
        IO_APIC => at 0 shows IO_APIC_ID, IO_APIC_ID
    }),
    // 113 SameIoApicAddress, likely wrong (5.2.12.3): two I/O APICs have the same address.
    // Numbers: `at` is the structure's offset, `other` that of the first I/O APIC with this address, `point` is the
    // address.
    // "The I/O APIC at {at} of the MADT has the address {point}, as the one at {other} does."
    // An address of 0 does not count.
    rule!(113 SameIoApicAddress, repeated in MADT_ENTRIES: {
        IO_APIC if IO_APIC_ADDRESS != 0 => at 0 shows IO_APIC_ADDRESS, IO_APIC_ADDRESS
    }),
    // 114 NmiNowhere, likely wrong (5.2.12.7, 5.2.12.13): a Local APIC NMI or Local x2APIC NMI names a UID that no
    // processor has.
    // Numbers: `at` is the structure's offset, `point` is the UID.
    // "The NMI at {at} of the MADT names the UID {point:d}, which no processor has."
    // A UID of all ones means all processors.
    rule!(114 NmiNowhere, nowhere in MADT_ENTRIES where PROCESSORS_READ, MADT_WHOLE, MADT_LENGTHS: {
        LOCAL_NMI if LOCAL_NMI_UID != 0xff => at 0 shows 0, LOCAL_NMI_UID;
        X2APIC_NMI if X2APIC_NMI_UID != 0xffff_ffff => at 0 shows 0, X2APIC_NMI_UID
    } among table MADT_ENTRIES UIDS),
    // 116 NoProcessor, likely wrong (5.2.12): no processor is usable.
    // Numbers: all 0.
    // "No processor of the MADT is usable."
    // Applies if all processors are read.
    rule!(116 NoProcessor, given in TABLE where
        (none table MADT_ENTRIES: USABLE_UIDS), PROCESSORS_READ, MADT_WHOLE, MADT_LENGTHS:
    {
        WHOLE => at 0 shows 0, 0
    }),
    // 127 MadtUnread, not looked at (5.2.12): a structure of the MADT of a type or length that is not read.
    // Numbers: `at` is the offset of the first one, `other` its type.
    // "The structure at {at} of the MADT, of type {other:d}, is the first that is not looked at."
    rule!(127 MadtUnread, given in MADT_ENTRIES: {
        UNREAD_6_TO_8 => at 0 shows TYPE, 0;
        (any GICC) if (length own) < 40 => at 0 shows TYPE, 0;
        (any GICD) if (length own) != 24 => at 0 shows TYPE, 0;
        (any MSI_FRAME) if (length own) != 24 => at 0 shows TYPE, 0;
        (any GICR) if (length own) != 16 => at 0 shows TYPE, 0;
        (any ITS) if (length own) != 20 => at 0 shows TYPE, 0;
        (any WAKEUP) if (length own) != 16 && (length own) != 24 => at 0 shows TYPE, 0;
        (any CORE_PIC) if (length own) != 15 => at 0 shows TYPE, 0;
        (any LIO_PIC) if (length own) != 23 => at 0 shows TYPE, 0;
        (any HT_PIC) if (length own) != 21 => at 0 shows TYPE, 0;
        (any EIO_PIC) if (length own) != 13 => at 0 shows TYPE, 0;
        (any MSI_PIC) if (length own) != 19 => at 0 shows TYPE, 0;
        (any BIO_PIC) if (length own) != 17 => at 0 shows TYPE, 0;
        (any LPC_PIC) if (length own) != 14 => at 0 shows TYPE, 0;
        (any RINTC) if (length own) < 20 => at 0 shows TYPE, 0;
        (any IMSIC) if (length own) != 16 => at 0 shows TYPE, 0;
        (any APLIC) if (length own) != 36 => at 0 shows TYPE, 0;
        (any PLIC) if (length own) != 36 => at 0 shows TYPE, 0;
        UNREAD_FROM_28 => at 0 shows TYPE, 0
    }),
    // 150 X2ApicBelow255, likely wrong (5.2.12.12): a usable local x2APIC and a usable local APIC both have an ID below
    // 255.
    // Numbers: `at` is the offset of the local x2APIC, `point` is its X2APIC ID.
    // "The usable local x2APIC at {at} of the MADT has the ID {point:d}, below 255, beside usable local APICs."
    rule!(150 X2ApicBelow255, given in MADT_ENTRIES where (some table MADT_ENTRIES: {
        LOCAL_APIC if (LOCAL_APIC_FLAGS & 0b11) != 0 && LOCAL_APIC_ID != 255
    }): {
        X2APIC if (X2APIC_FLAGS & 0b11) != 0 && X2APIC_ID < 255 => at 0 shows 0, X2APIC_ID
    }),
    // 151 BroadcastId, likely wrong (5.2.12.2, 5.2.12.12): a usable processor has the ID of a broadcast.
    // Numbers: `at` is the structure's offset, `point` is the ID.
    // "The usable processor at {at} of the MADT has the ID {point}, which means all processors."
    rule!(151 BroadcastId, given in MADT_ENTRIES: {
        LOCAL_APIC if (LOCAL_APIC_FLAGS & 0b11) != 0 && LOCAL_APIC_ID == 255 => at 0 shows 0, LOCAL_APIC_ID;
        X2APIC if (X2APIC_FLAGS & 0b11) != 0 && X2APIC_ID == 0xffff_ffff => at 0 shows 0, X2APIC_ID
    }),
    // 153 EnabledAndCapable, look at it (5.2.12.2, 5.2.12.12, 5.2.12.14): a processor is both Enabled and Online
    // Capable.
    // Numbers: `at` is the structure's offset, `point` is its Flags.
    // "The processor at {at} of the MADT is both Enabled and Online Capable: its Flags are {point}."
    // The two flags exclude each other.
    rule!(153 EnabledAndCapable, given in MADT_ENTRIES: {
        LOCAL_APIC if (LOCAL_APIC_FLAGS & 0b11) == 0b11 => at 0 shows 0, LOCAL_APIC_FLAGS;
        X2APIC if (X2APIC_FLAGS & 0b11) == 0b11 => at 0 shows 0, X2APIC_FLAGS;
        GICC if (GICC_FLAGS & 0b1001) == 0b1001 => at 0 shows 0, GICC_FLAGS;
        RINTC if (RINTC_FLAGS & 0b11) == 0b11 => at 0 shows 0, RINTC_FLAGS
    }),
    // 155 TimerLevel, likely wrong (5.2.12.5): the override of ISA interrupt 0, the timer, is level-triggered.
    // Numbers: `at` is the override's offset, `point` is its Flags.
    // "The override at {at} of the MADT, of ISA interrupt 0, the timer, is level-triggered: its Flags are {point}."
    // Bits 3:2 of Flags are 11b.
    rule!(155 TimerLevel, given in MADT_ENTRIES: {
        OVERRIDE if OVERRIDE_SOURCE == 0 && (OVERRIDE_FLAGS & 0b1100) == 0b1100
            => at 0 shows 0, OVERRIDE_FLAGS
    }),
    // 156 TwoSourcesOneGsi, likely wrong (5.2.12.5): two ISA interrupts are overridden with one interrupt number.
    // Numbers: `at` is the override's offset, `other` that of the first one with this number and another Source,
    // `point` is the number.
    // "The override at {at} of the MADT has interrupt number {point:d}, as the one at {other}, of another Source,
    // does."
    rule!(156 TwoSourcesOneGsi, unlike in MADT_ENTRIES: {
        OVERRIDE => at 0 shows OVERRIDE_SOURCE, OVERRIDE_GSI
    }),
    // 157 LintNotOne, look at it (5.2.12.7, 5.2.12.13): an NMI is connected to another input than LINT1.
    // Numbers: `at` is the structure's offset, `point` is the LINT#.
    // "The NMI at {at} of the MADT is connected to LINT{point:d}, not to LINT1."
    rule!(157 LintNotOne, given in MADT_ENTRIES: {
        LOCAL_NMI if LOCAL_NMI_LINT != 1 => at 0 shows 0, LOCAL_NMI_LINT;
        X2APIC_NMI if X2APIC_NMI_LINT != 1 => at 0 shows 0, X2APIC_NMI_LINT
    }),
    // 158 NoIoApic, look at it (5.2.12.3): overrides or NMI sources are there, and no I/O APIC.
    // Numbers: all 0.
    // "The MADT has overrides or NMI sources, and no I/O APIC."
    // There is a usable local APIC, and no I/O SAPIC.
    rule!(158 NoIoApic, given in TABLE where
        (none table MADT_ENTRIES: { (any IO_APIC); IO_SAPIC }),
        (some table MADT_ENTRIES: { (any OVERRIDE); (any NMI_SOURCE) }),
        (some table MADT_ENTRIES: {
            LOCAL_APIC if (LOCAL_APIC_FLAGS & 0b11) != 0;
            X2APIC if (X2APIC_FLAGS & 0b11) != 0
        }),
        MADT_WHOLE, MADT_LENGTHS:
    {
        WHOLE => at 0 shows 0, 0
    }),
    // 171 SameHart, likely wrong: two usable harts have the same ID.
    // Numbers: `at` is the structure's offset, `other` that of the first usable one with this ID, `point` is the ID.
    // "The usable hart at {at} of the MADT has the ID {point:d}, as the one at {other} does."
    rule!(171 SameHart, repeated in MADT_ENTRIES: {
        RINTC if (RINTC_FLAGS & 0b11) != 0 => at 0 shows RINTC_HART_ID, RINTC_HART_ID
    }),
    // 172 MadtReserved, look at it (5.2.12): a field of the MADT has a reserved value.
    // Numbers: for the MADT's Flags `at` is 0x28 (40), `point` is Flags. Otherwise `at` is the structure's offset,
    // `other` the offset in it of the first field or byte that is wrong.
    // If `at` is 0x28: "Flags, at {at} of the MADT, are {point}, in which a reserved bit is set."
    // "The structure at {at} of the MADT has a reserved value at its offset {other:d}."
    // This row: a flag of the table above bit 0.
    rule!(172 MadtReserved, given in TABLE: {
        WHOLE if MADT_FLAGS > 1 => at 40 shows 0, MADT_FLAGS
    }),
    // a flag of an entry that is not defined, or a reserved byte; `other` is its offset in the entry
    rule!(172 MadtReserved, given in MADT_ENTRIES: {
        LOCAL_APIC if LOCAL_APIC_FLAGS > 0b11 => at 0 shows 4, 0;
        IO_APIC if RESERVED_3 != 0 => at 0 shows 3, 0;
        OVERRIDE if OVERRIDE_FLAGS > 0b1111 => at 0 shows 8, 0;
        NMI_SOURCE if NMI_SOURCE_FLAGS > 0b1111 => at 0 shows 2, 0;
        LOCAL_NMI if LOCAL_NMI_FLAGS > 0b1111 => at 0 shows 3, 0;
        ADDRESS_OVERRIDE if RESERVED_2 != 0 => at 0 shows 2, 0;
        ADDRESS_OVERRIDE if RESERVED_3 != 0 => at 0 shows 3, 0;
        X2APIC if RESERVED_2 != 0 => at 0 shows 2, 0;
        X2APIC if RESERVED_3 != 0 => at 0 shows 3, 0;
        X2APIC if X2APIC_FLAGS > 0b11 => at 0 shows 8, 0;
        X2APIC_NMI if X2APIC_NMI_FLAGS > 0b1111 => at 0 shows 2, 0;
        X2APIC_NMI if RESERVED_9 != 0 => at 0 shows 9, 0;
        X2APIC_NMI if RESERVED_10 != 0 => at 0 shows 10, 0;
        X2APIC_NMI if RESERVED_11 != 0 => at 0 shows 11, 0;
        GICD if RESERVED_16 != 0 => at 0 shows 16, 0;
        GICD if RESERVED_17 != 0 => at 0 shows 17, 0;
        GICD if RESERVED_18 != 0 => at 0 shows 18, 0;
        GICD if RESERVED_19 != 0 => at 0 shows 19, 0;
        GICD if GICD_VERSION > 4 => at 0 shows 20, 0
    }),
];

/// Further rules on the MADT: on a wakeup structure, on structures of LoongArch and RISC-V, and on what the structures of a
/// GIC and of these reserve.
pub static MADT_FURTHER: [Row<'static>; 7] = [
    // 300 PicVersion, look at it (5.2.12.20 to 5.2.12.26): a structure of LoongArch or RISC-V has a version that is not 1.
    // Numbers: `at` is the structure's offset, `other` is 0x2, the offset of the version in it, `point` is the version.
    // "The structure at {at} of the MADT has the version {point:d}, not 1."
    rule!(300 PicVersion, given in MADT_ENTRIES: {
        CORE_PIC if PIC_VERSION != 1 => at 0 shows 2, PIC_VERSION;
        LIO_PIC if PIC_VERSION != 1 => at 0 shows 2, PIC_VERSION;
        HT_PIC if PIC_VERSION != 1 => at 0 shows 2, PIC_VERSION;
        EIO_PIC if PIC_VERSION != 1 => at 0 shows 2, PIC_VERSION;
        MSI_PIC if PIC_VERSION != 1 => at 0 shows 2, PIC_VERSION;
        BIO_PIC if PIC_VERSION != 1 => at 0 shows 2, PIC_VERSION;
        LPC_PIC if PIC_VERSION != 1 => at 0 shows 2, PIC_VERSION;
        RINTC if PIC_VERSION != 1 => at 0 shows 2, PIC_VERSION;
        IMSIC if PIC_VERSION != 1 => at 0 shows 2, PIC_VERSION;
        APLIC if PIC_VERSION != 1 => at 0 shows 2, PIC_VERSION;
        PLIC if PIC_VERSION != 1 => at 0 shows 2, PIC_VERSION
    }),
    // 301 FurtherReserved, look at it (5.2.12.14 to 5.2.12.20): a structure of a GIC, of LoongArch or of RISC-V has a
    // reserved value.
    // Numbers: `at` is the structure's offset, `other` the offset in it of the first field or byte that is wrong, `point`
    // is the value there.
    // "The structure at {at} of the MADT has the reserved value {point} at its offset {other:d}."
    rule!(301 FurtherReserved, given in MADT_ENTRIES: {
        GICC if RESERVED_2 != 0 => at 0 shows 2, RESERVED_2;
        GICC if RESERVED_3 != 0 => at 0 shows 3, RESERVED_3;
        GICC if GICC_FLAGS > 0b1_1111 => at 0 shows 12, GICC_FLAGS;
        GICC if RESERVED_77 != 0 => at 0 shows 77, RESERVED_77;
        GICD if RESERVED_2 != 0 => at 0 shows 2, RESERVED_2;
        GICD if RESERVED_3 != 0 => at 0 shows 3, RESERVED_3;
        GICD if RESERVED_21 != 0 => at 0 shows 21, RESERVED_21;
        GICD if RESERVED_22 != 0 => at 0 shows 22, RESERVED_22;
        GICD if RESERVED_23 != 0 => at 0 shows 23, RESERVED_23;
        MSI_FRAME if RESERVED_2 != 0 => at 0 shows 2, RESERVED_2;
        MSI_FRAME if RESERVED_3 != 0 => at 0 shows 3, RESERVED_3;
        MSI_FRAME if MSI_FRAME_FLAGS > 0b1 => at 0 shows 16, MSI_FRAME_FLAGS;
        GICR if GICR_FLAGS > 0b1 => at 0 shows 2, GICR_FLAGS;
        GICR if RESERVED_3 != 0 => at 0 shows 3, RESERVED_3;
        ITS if ITS_FLAGS > 0b1 => at 0 shows 2, ITS_FLAGS;
        ITS if RESERVED_3 != 0 => at 0 shows 3, RESERVED_3;
        ITS if RESERVED_16 != 0 => at 0 shows 16, RESERVED_16;
        ITS if RESERVED_17 != 0 => at 0 shows 17, RESERVED_17;
        ITS if RESERVED_18 != 0 => at 0 shows 18, RESERVED_18;
        ITS if RESERVED_19 != 0 => at 0 shows 19, RESERVED_19;
        CORE_PIC if CORE_PIC_FLAGS > 0b1 => at 0 shows 11, CORE_PIC_FLAGS;
        RINTC if RESERVED_3 != 0 => at 0 shows 3, RESERVED_3;
        RINTC if RINTC_FLAGS > 0b11 => at 0 shows 4, RINTC_FLAGS;
        IMSIC if RESERVED_3 != 0 => at 0 shows 3, RESERVED_3;
        IMSIC if IMSIC_RESERVED != 0 => at 0 shows 4, IMSIC_RESERVED
    }),
    // 302 HartInvalid, likely wrong: a usable hart has an ID of all ones, which no hart has.
    // Numbers: `at` is the structure's offset, `other` is 0x8, the offset of the ID in it, `point` is the ID.
    // "The usable hart at {at} of the MADT has the ID {point}, which no hart has."
    rule!(302 HartInvalid, given in MADT_ENTRIES: {
        RINTC if (RINTC_FLAGS & 0b11) != 0 && RINTC_HART_ID == largest
            => at 0 shows 8, RINTC_HART_ID
    }),
    // 303 WakeupMailbox, likely wrong (5.2.12.19): a Multiprocessor Wakeup structure is not of the length of its version,
    // or has a wrong version, reserved bytes or address.
    // Numbers: `at` is the structure's offset. For its length `other` is the length of its version, `point` is its length.
    // Otherwise `other` is the offset in it of the field that is wrong, `point` is the value there.
    // If `other` is 0x2: "The wakeup structure at {at} of the MADT has the mailbox version {point:d}, above 1."
    // If `other` is 0x4: "The wakeup structure at {at} of the MADT has the reserved value {point} at its offset
    // {other:d}."
    // If `other` is 0x8: "The wakeup structure at {at} of the MADT has the mailbox address {point}, which is 0 or no
    // multiple of 4096."
    // "The wakeup structure at {at} of the MADT has {point:d} bytes, and one of its version has {other:d}."
    rule!(303 WakeupMailbox, given in MADT_ENTRIES: {
        (any WAKEUP) if WAKEUP_VERSION > 1 => at 0 shows 2, WAKEUP_VERSION;
        (any WAKEUP) if WAKEUP_RESERVED != 0 => at 0 shows 4, WAKEUP_RESERVED;
        (any WAKEUP) if WAKEUP_MAILBOX == 0 => at 0 shows 8, WAKEUP_MAILBOX;
        (any WAKEUP) if (WAKEUP_MAILBOX & 0xfff) != 0 => at 0 shows 8, WAKEUP_MAILBOX;
        (any WAKEUP) if WAKEUP_VERSION == 0 && (length own) != 16 => at 0 shows 16, (length own);
        (any WAKEUP) if WAKEUP_VERSION == 1 && (length own) != 24 => at 0 shows 24, (length own);
        (any WAKEUP) if (length own) < 4 => at 0 shows 16, (length own)
    }),
    // 304 LapicAtZero, likely wrong (5.2.12.8): a Local APIC Address Override has the address 0.
    // Numbers: `at` is the structure's offset, `other` is 0x4, the offset of the address in it.
    // "The Local APIC Address Override at {at} of the MADT has the address 0."
    rule!(304 LapicAtZero, given in MADT_ENTRIES: {
        ADDRESS_OVERRIDE if ADDRESS_OVERRIDE_ADDRESS == 0 => at 0 shows 4, 0
    }),
    // 305 MadtRevision, look at it (5.2.12): the MADT has structures that its Revision does not have.
    // Numbers: `at` is 0x8, the offset of Revision, `point` is Revision.
    // "The MADT's Revision, at {at}, is {point:d}, and it has structures of a later one."
    // This row: structures that Revision 3 added, the x2APIC and the GIC.
    rule!(305 MadtRevision, given in TABLE where (some table MADT_ENTRIES: { SINCE_REVISION_3 }): {
        WHOLE if REVISION < 3 => at 8 shows 0, REVISION
    }),
    // those that Revision 6 added, of RISC-V
    rule!(305 MadtRevision, given in TABLE where (some table MADT_ENTRIES: { SINCE_REVISION_6 }): {
        WHOLE if REVISION < 6 => at 8 shows 0, REVISION
    }),
];

/// Rules on the parts of a GIC in it (5.2.12.14 to 5.2.12.18).
pub static GIC: [Row<'static>; 22] = [
    // 115 SecondGicd, likely wrong (5.2.12.15): there is a second GIC Distributor.
    // Numbers: `at` is the structure's offset, `other` that of the first one.
    // "The GIC Distributor at {at} of the MADT is not the only one: the first is at {other}."
    // They may have any length.
    rule!(115 SecondGicd, repeated in MADT_ENTRIES: {
        (any GICD) => at 0 shows 0, 0
    }),
    // 159 NoDistributor, likely wrong (5.2.12.15): there are GIC CPU interfaces, and no GIC Distributor.
    // Numbers: all 0.
    // "The MADT has GIC CPU interfaces, and no GIC Distributor."
    rule!(159 NoDistributor, given in TABLE where
        (some table MADT_ENTRIES: { (any GICC) }),
        (none table MADT_ENTRIES: { (any GICD) }),
        MADT_WHOLE, MADT_LENGTHS:
    {
        WHOLE => at 0 shows 0, 0
    }),
    // 160 NoRedistributor, likely wrong (5.2.12.17): the GIC has version 3 or 4, and no redistributor.
    // Numbers: `at` is the GICD's offset, `other` is its version.
    // "The GIC Distributor at {at} of the MADT has version {other:d}, and there is no redistributor."
    // There is no range of them, and no usable CPU interface names its own.
    rule!(160 NoRedistributor, given in MADT_ENTRIES where
        HAS_REDISTRIBUTORS,
        (none table MADT_ENTRIES: { (any GICR) }),
        (none table MADT_ENTRIES: OWN_REDISTRIBUTORS),
        MADT_WHOLE, MADT_LENGTHS:
    {
        GICD => at 0 shows GICD_VERSION, 0
    }),
    // 162 GiccBaseDiffers, likely wrong (5.2.12.14): two GIC CPU interfaces of a GIC of version 1 or 2 have different
    // base addresses.
    // Numbers: `at` is the offset of the GICC, `other` that of the first GICC, `point` is the address of the one at
    // `at`.
    // "The GIC CPU interface at {at} of the MADT has the base address {point}, and the first one, at {other}, has
    // another."
    rule!(162 GiccBaseDiffers, unlike_value in MADT_ENTRIES where HAS_NO_REDISTRIBUTORS: {
        GICC => at 0 shows GICC_BASE, 0
    }),
    // 163 SameMpidr, likely wrong (5.2.12.14): two usable processors have the same MPIDR.
    // Numbers: `at` is the structure's offset, `other` that of the first usable one with this MPIDR, `point` is the
    // MPIDR.
    // "The usable processor at {at} of the MADT has the MPIDR {point}, as the one at {other} does."
    rule!(163 SameMpidr, repeated in MADT_ENTRIES: {
        GICC_WITH_MPIDR if (GICC_FLAGS & 0b1001) != 0 => at 0 shows GICC_MPIDR, GICC_MPIDR
    }),
    // 164 MpidrReserved, likely wrong (5.2.12.14): a usable processor's MPIDR has a reserved bit set.
    // Numbers: `at` is the structure's offset, `point` is the MPIDR.
    // "The usable processor at {at} of the MADT has the MPIDR {point}, in which a reserved bit is set."
    // Bits 23:0 and 39:32 are those of affinities; all others are reserved.
    rule!(164 MpidrReserved, given in MADT_ENTRIES: {
        GICC_WITH_MPIDR if (GICC_FLAGS & 0b1001) != 0 && GICC_MPIDR_31_24 != 0 => at 0 shows 0, GICC_MPIDR;
        GICC_WITH_MPIDR if (GICC_FLAGS & 0b1001) != 0 && GICC_MPIDR_63_40 != 0 => at 0 shows 0, GICC_MPIDR
    }),
    // 165 GicrEmpty, likely wrong (5.2.12.17): a range of redistributors has the length 0.
    // Numbers: `at` is the structure's offset, `point` is the base address.
    // "The range of redistributors at {at} of the MADT, from {point} on, has the length 0."
    rule!(165 GicrEmpty, given in MADT_ENTRIES: {
        GICR if GICR_LENGTH == 0 => at 0 shows 0, GICR_BASE
    }),
    // 166 SameIts, likely wrong (5.2.12.18): two ITS have the same ID.
    // Numbers: `at` is the structure's offset, `other` that of the first one with this ID, `point` is the ID.
    // "The ITS at {at} of the MADT has the ID {point:d}, as the one at {other} does."
    rule!(166 SameIts, repeated in MADT_ENTRIES: {
        ITS => at 0 shows ITS_ID, ITS_ID
    }),
    // 167 SameMsiFrame, likely wrong (5.2.12.16): two GIC MSI frames have the same ID.
    // Numbers: `at` is the structure's offset, `other` that of the first one with this ID, `point` is the ID.
    // "The GIC MSI frame at {at} of the MADT has the ID {point:d}, as the one at {other} does."
    rule!(167 SameMsiFrame, repeated in MADT_ENTRIES: {
        MSI_FRAME => at 0 shows MSI_FRAME_ID, MSI_FRAME_ID
    }),
    // 168 GicOverlap, likely wrong (5.2.12.15): two structures of the GIC share an address.
    // Numbers: `at` and `other` are the offsets of two such structures, first the one that begins lower, and of two that
    // begin together the one at the lower offset; `point` is the lowest address at which two overlap.
    // "The structures of the GIC at {at} and {other} of the MADT share the address {point}."
    // The bytes of an MSI frame, an ITS and a distributor, which has more in versions 3 and 4, are given by the GIC's
    // architecture.
    rule!(168 GicOverlap, overlap in MADT_ENTRIES: {
        GICR => at 0 shows GICR_LENGTH, GICR_BASE;
        ITS => at 0 shows 0x2_0000, ITS_BASE;
        MSI_FRAME => at 0 shows 0x1000, MSI_FRAME_BASE;
        GICD if GICD_VERSION >= 3 && GICD_VERSION <= 4 => at 0 shows 0x1_0000, GICD_BASE;
        GICD => at 0 shows 0x1000, GICD_BASE
    }),
    // 169 RedistributorTwice, likely wrong (5.2.12.14, 5.2.12.17): a processor names a redistributor, and ranges of
    // redistributors are there.
    // Numbers: `at` is the offset of the GICC, `other` that of the first GICR, `point` is the GICR Base Address.
    // "The processor at {at} of the MADT names the redistributor at {point}, and there is a range of redistributors, at
    // {other}."
    // The processor is usable.
    rule!(169 RedistributorTwice, somewhere in MADT_ENTRIES: OWN_REDISTRIBUTORS among table MADT_ENTRIES {
        GICR => at 0 shows 0, 0
    }),
    // 293 GiccShort, likely wrong (5.2.12.14): a GIC CPU interface has fewer than the 76 bytes of ACPI 5.1.
    // Numbers: `at` is the structure's offset, `other` is 0x4c (76), `point` is its length.
    // "The GIC CPU interface at {at} of the MADT has {point:d} bytes, and needs {other:d}."
    rule!(293 GiccShort, given in MADT_ENTRIES: {
        GICC if (length own) < 76 => at 0 shows 76, (length own)
    }),
    // 294 GiccNoGicr, likely wrong (5.2.12.14): an enabled processor names no redistributor, and others do.
    // Numbers: `at` is the structure's offset, `other` is 0x3c (60), the offset of the GICR Base Address in it.
    // "The enabled processor at {at} of the MADT names no redistributor, and another one does."
    // There is no range of redistributors, and the GIC has version 3 or 4.
    rule!(294 GiccNoGicr, given in MADT_ENTRIES where
        HAS_REDISTRIBUTORS,
        (none table MADT_ENTRIES: { (any GICR) }),
        (some table MADT_ENTRIES: OWN_REDISTRIBUTORS),
        MADT_WHOLE, MADT_LENGTHS:
    {
        GICC if (GICC_FLAGS & 0b1) != 0 && GICC_GICR_BASE == 0 => at 0 shows 60, 0
    }),
    // 295 CapableNoGicr, likely wrong (5.2.12.14): a processor is Online Capable, and there is no range of redistributors.
    // Numbers: `at` is the structure's offset, `other` is 0xc (12), the offset of Flags in it, `point` is Flags.
    // "The processor at {at} of the MADT, with the Flags {point}, is Online Capable and not Enabled, and there is no range
    // of redistributors."
    // It is not Enabled, and the GIC has version 3 or 4.
    rule!(295 CapableNoGicr, given in MADT_ENTRIES where
        HAS_REDISTRIBUTORS,
        (none table MADT_ENTRIES: { (any GICR) }),
        MADT_WHOLE, MADT_LENGTHS:
    {
        GICC if (GICC_FLAGS & 0b1001) == 0b1000 => at 0 shows 12, GICC_FLAGS
    }),
    // 296 GiccDiffers, likely wrong (5.2.12.14): the virtual interface, the maintenance interrupt or the mode of a usable
    // processor is not that of the first one.
    // Numbers: `at` is the structure's offset, `other` the offset in it of the field that differs: 0xc (12) for the mode, bit 2
    // of Flags, 0x28 (40) for GICV, 0x30 (48) for GICH, 0x38 (56) for the maintenance interrupt; `point` is the field.
    // If `other` is 0xc: "The usable processor at {at} of the MADT, with the Flags {point}, has another mode of the
    // maintenance interrupt than the first one."
    // "The usable processor at {at} of the MADT has {point} at its offset {other:d}, and the first one differs there."
    // Both have at least the 60 bytes up to this interrupt. This row: GICV.
    rule!(296 GiccDiffers, unlike_number in MADT_ENTRIES: {
        GICC_WITH_GICV if (GICC_FLAGS & 0b1001) != 0 => at 0 shows GICC_GICV_BASE, 40
    }),
    // GICH
    rule!(296 GiccDiffers, unlike_number in MADT_ENTRIES: {
        GICC_WITH_GICV if (GICC_FLAGS & 0b1001) != 0 => at 0 shows GICC_GICH_BASE, 48
    }),
    // the maintenance interrupt
    rule!(296 GiccDiffers, unlike_number in MADT_ENTRIES: {
        GICC_WITH_GICV if (GICC_FLAGS & 0b1001) != 0 => at 0 shows GICC_MAINTENANCE, 56
    }),
    // edge-triggered, where the first one is level-triggered
    rule!(296 GiccDiffers, given in MADT_ENTRIES where (first table MADT_ENTRIES: {
        GICC_WITH_GICV if (GICC_FLAGS & 0b1001) != 0 && (GICC_FLAGS & 0b100) == 0 => at 0 shows 0, 1;
        GICC_WITH_GICV if (GICC_FLAGS & 0b1001) != 0 => at 0 shows 0, 0
    }): {
        GICC_WITH_GICV if (GICC_FLAGS & 0b1001) != 0 && (GICC_FLAGS & 0b100) != 0
            => at 0 shows 12, GICC_FLAGS
    }),
    // the other way round
    rule!(296 GiccDiffers, given in MADT_ENTRIES where (first table MADT_ENTRIES: {
        GICC_WITH_GICV if (GICC_FLAGS & 0b1001) != 0 => at 0 shows 0, (GICC_FLAGS & 0b100)
    }): {
        GICC_WITH_GICV if (GICC_FLAGS & 0b1001) != 0 && (GICC_FLAGS & 0b100) == 0
            => at 0 shows 12, GICC_FLAGS
    }),
    // 297 SameGicrBase, likely wrong (5.2.12.14): two enabled processors name the same redistributor.
    // Numbers: `at` is the structure's offset, `other` that of the first enabled one with this redistributor, `point` is
    // its address.
    // "The enabled processor at {at} of the MADT names the redistributor at {point}, as the one at {other} does."
    // The GIC has version 3 or 4.
    rule!(297 SameGicrBase, repeated in MADT_ENTRIES where HAS_REDISTRIBUTORS: {
        GICC if (GICC_FLAGS & 0b1) != 0 && GICC_GICR_BASE != 0 => at 0 shows GICC_GICR_BASE, GICC_GICR_BASE
    }),
    // 298 ParkingVersion, look at it (5.2.12.14): a GIC CPU interface has a version of the parking protocol above 1.
    // Numbers: `at` is the structure's offset, `other` is 0x10 (16), the offset of the version in it, `point` is the
    // version.
    // "The GIC CPU interface at {at} of the MADT has version {point:d} of the parking protocol, above 1."
    rule!(298 ParkingVersion, given in MADT_ENTRIES: {
        GICC if GICC_PARKING_VERSION > 1 => at 0 shows 16, GICC_PARKING_VERSION
    }),
    // 299 GiccNoPpi, likely wrong (5.2.12.14): an interrupt of a processor's profiling or trace is not private to it.
    // Numbers: `at` is the structure's offset, `other` the offset in it of the interrupt, 0x4e (78) for that of profiling,
    // 0x50 (80) for that of the trace buffer, `point` is the interrupt.
    // If `other` is 0x4e: "The GIC CPU interface at {at} of the MADT has the profiling interrupt {point:d}, which is not
    // private to a processor."
    // "The GIC CPU interface at {at} of the MADT has the trace buffer interrupt {point:d}, which is not private to a
    // processor."
    // Private are 16 to 31 and 1056 to 1119; 0 says that there is none.
    rule!(299 GiccNoPpi, given in MADT_ENTRIES: {
        GICC if GICC_SPE != 0 && GICC_SPE < 16 => at 0 shows 78, GICC_SPE;
        GICC if GICC_SPE > 31 && GICC_SPE < 1056 => at 0 shows 78, GICC_SPE;
        GICC if GICC_SPE > 1119 => at 0 shows 78, GICC_SPE;
        GICC if GICC_TRBE != 0 && GICC_TRBE < 16 => at 0 shows 80, GICC_TRBE;
        GICC if GICC_TRBE > 31 && GICC_TRBE < 1056 => at 0 shows 80, GICC_TRBE;
        GICC if GICC_TRBE > 1119 => at 0 shows 80, GICC_TRBE
    }),
];

/// Rules on the MADT with the FADT.
pub static MADT_WITH_FADT: [Row<'static>; 2] = [
    // 152 CapableTooEarly, likely wrong (5.2.12.2, 5.2.12.12, 5.2.12.14): a processor is Online Capable, which the
    // FADT's version does not have.
    // Numbers: `at` is the structure's offset, `other` is the FADT's Revision, `point` is its minor version.
    // "The processor at {at} of the MADT is Online Capable, which a FADT of version {other:d}.{point:d} does not have."
    // It is not Enabled. The FADT is older than 6.3, or 6.5 for a GICC: its Revision is the major version, and the
    // lower 4 bits of the byte at 131 are the minor one, 0 if it is not there.
    rule!(152 CapableTooEarly, given in MADT_ENTRIES: {
        LOCAL_APIC if (LOCAL_APIC_FLAGS & 0b11) == 0b10
            && (other (MINOR_VERSION & 0xf) + 16 * REVISION) < 0x63
            => at 0 shows (other REVISION), ((other MINOR_VERSION) & 0xf);
        LOCAL_APIC if (LOCAL_APIC_FLAGS & 0b11) == 0b10
            && (length other) < 132 && (other REVISION) <= 6
            => at 0 shows (other REVISION), 0;
        X2APIC if (X2APIC_FLAGS & 0b11) == 0b10
            && (other (MINOR_VERSION & 0xf) + 16 * REVISION) < 0x63
            => at 0 shows (other REVISION), ((other MINOR_VERSION) & 0xf);
        X2APIC if (X2APIC_FLAGS & 0b11) == 0b10
            && (length other) < 132 && (other REVISION) <= 6
            => at 0 shows (other REVISION), 0;
        GICC if (GICC_FLAGS & 0b1001) == 0b1000
            && (other (MINOR_VERSION & 0xf) + 16 * REVISION) < 0x65
            => at 0 shows (other REVISION), ((other MINOR_VERSION) & 0xf);
        GICC if (GICC_FLAGS & 0b1001) == 0b1000
            && (length other) < 132 && (other REVISION) <= 6
            => at 0 shows (other REVISION), 0
    }),
    // 154 OverridePastIsa, likely wrong (5.2.12.5): an override is for an interrupt above 15 that is not SCI_INT.
    // Numbers: `at` is the override's offset, `other` is its Source, `point` is its Global System Interrupt.
    // "The override at {at} of the MADT, with interrupt number {point:d}, has the Source {other:d}, above 15 and not
    // SCI_INT."
    rule!(154 OverridePastIsa, given in MADT_ENTRIES: {
        OVERRIDE if OVERRIDE_SOURCE > 15 && OVERRIDE_SOURCE != (other SCI_INT)
            => at 0 shows OVERRIDE_SOURCE, OVERRIDE_GSI
    }),
];

/// Rules on the MADT with the PPTT.
pub static MADT_WITH_PPTT: [Row<'static>; 2] = [
    // 125 NoLeaf, likely wrong (5.2.30.1): a usable processor has no leaf in the PPTT, which has nodes.
    // Numbers: `at` is the processor's offset in the MADT, `point` is its UID.
    // "The usable processor at {at} of the MADT has the UID {point:d}, which no leaf of the PPTT has."
    // Applies if the PPTT is well-formed and all processors are read. This row: from Revision 2 on.
    rule!(125 NoLeaf, nowhere in MADT_ENTRIES where
        OTHER_MARKED, OTHER_NODES, PROCESSORS_READ, OTHER_PPTT_WHOLE, OTHER_PPTT_LENGTHS:
        LEAFLESS_UIDS
        among other PPTT_ENTRIES LEAF_IDS),
    // the same below Revision 2
    rule!(125 NoLeaf, nowhere in MADT_ENTRIES where
        OTHER_UNMARKED, OTHER_NODES, PROCESSORS_READ, OTHER_PPTT_WHOLE, OTHER_PPTT_LENGTHS:
        LEAFLESS_UIDS
        among other PPTT_ENTRIES NODE_IDS except PARENTS),
];

/// Rules on the MADT with the SRAT.
pub static MADT_WITH_SRAT: [Row<'static>; 2] = [
    // 119 NoDomain, likely wrong (5.2.16): a usable processor is not in the SRAT, which has affinities.
    // Numbers: `at` is the processor's offset in the MADT, `point` is its APIC ID, X2APIC ID or core ID, of a GICC or
    // an RINTC its UID.
    // "The usable processor at {at} of the MADT, of the ID or UID {point:d}, has no enabled affinity in the SRAT, which
    // has others."
    // This row: a processor with an APIC ID. Applies if the SRAT is well-formed.
    rule!(119 NoDomain, nowhere in MADT_ENTRIES where
        PROCESSORS_READ, OTHER_SRAT_WHOLE, OTHER_SRAT_LENGTHS, PLACED_PROCESSORS:
        {
            LOCAL_APIC if (LOCAL_APIC_FLAGS & 0b11) != 0 => at 0 shows 0, LOCAL_APIC_ID;
            X2APIC if (X2APIC_FLAGS & 0b11) != 0 => at 0 shows 0, X2APIC_ID;
            CORE_PIC if (CORE_PIC_FLAGS & 0b1) != 0 => at 0 shows 0, CORE_PIC_ID
        }
        among other SRAT_ENTRIES PLACED_APIC_IDS),
    // the same of one that has none, by its UID
    rule!(119 NoDomain, nowhere in MADT_ENTRIES where
        PROCESSORS_READ, OTHER_SRAT_WHOLE, OTHER_SRAT_LENGTHS, PLACED_PROCESSORS:
        {
            GICC if (GICC_FLAGS & 0b1001) != 0 => at 0 shows 0, GICC_UID;
            RINTC if (RINTC_FLAGS & 0b11) != 0 => at 0 shows 0, RINTC_UID
        }
        among other SRAT_ENTRIES PLACED_UIDS),
];
