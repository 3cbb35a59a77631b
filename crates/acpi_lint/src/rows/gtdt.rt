//! Rules on the GTDT (ACPI 6.5, 5.2.25), by itself and with the MADT.

use crate::rows::gtdt_fields::*;
use crate::rows::madt::{OTHER_GIC, OTHER_MADT_LENGTHS, OTHER_MADT_WHOLE};
use crate::rows::table_fields::{LENGTH, REVISION, TABLE, WHOLE};
use acpi_rules::{
    Clause, Clauses, Form, Guard, Kind, Need, Range, Repeat, Row, Source, Test, Value, Within,
};

/// The table has the fields of its Revision.
const GTDT_FULL: Guard<'static> = guard!((some table TABLE: {
    GTDT_80 if REVISION < 2;
    GTDT_96 if REVISION == 2;
    GTDT_104
}));

/// It has them, and its platform timers are not within them.
const HAS_PLATFORM_TIMERS: Guard<'static> = guard!((some table TABLE: {
    GTDT_96 if REVISION == 2 && TIMERS_OFFSET >= 96;
    GTDT_104 if REVISION >= 3 && TIMERS_OFFSET >= 104
}));

/// Rules on the GTDT. By hand are 209 NoGtdt, since a row does not see which tables are listed, and 219 TimerOverlap.
pub static GTDT: [Row<'static>; 10] = [
    // 208 GtdtLength, likely wrong (5.2.25): the GTDT is too short for its Revision.
    // Numbers: `at` is 0x4, the offset of Length, `other` is the length that the Revision needs, `point` is Length.
    // "The GTDT's Length, at {at}, is {point:d}, and its Revision needs {other:d} bytes."
    // Below Revision 2 it needs 80 bytes, in Revision 2 96, from Revision 3 on 104.
    rule!(208 GtdtLength, given in TABLE: {
        WHOLE if REVISION < 2 && LENGTH < 80 => at 4 shows 80, LENGTH;
        WHOLE if REVISION == 2 && LENGTH < 96 => at 4 shows 96, LENGTH;
        WHOLE if REVISION > 2 && LENGTH < 104 => at 4 shows 104, LENGTH
    }),
    // 210 NoTimer, likely wrong (5.2.25): the GTDT has neither the non-secure EL1 timer nor the virtual timer.
    // Numbers: `at` is 0x38 (56), the offset of the GSIV of the non-secure EL1 timer.
    // "The GSIV of the non-secure EL1 timer, at {at} of the GTDT, is 0, and so is that of the virtual timer."
    rule!(210 NoTimer, given in TABLE where GTDT_FULL: {
        WHOLE if NON_SECURE_TIMER == 0 && VIRTUAL_TIMER == 0 => at 56 shows 0, NON_SECURE_TIMER
    }),
    // 212 SameTimer, look at it (5.2.25): two timers of the GTDT have the same interrupt.
    // Numbers: `at` is the offset of the GSIV of a timer, `other` that of the first one with the same value, `point` is
    // the GSIV.
    // "The timer whose GSIV is at {at} of the GTDT has the interrupt {point:d}, as the one whose GSIV is at {other}
    // does."
    // A GSIV of 0 counts as no timer. The secure EL1 timer is not compared.
    rule!(212 SameTimer, repeated in GTDT_TIMERS where GTDT_FULL: {
        TIMER if (offset own) >= 56 && (offset own) <= 72 && TIMER_GSIV != 0 => at 0 shows TIMER_GSIV, TIMER_GSIV;
        TIMER if (offset own) == 96 && (table REVISION) >= 3 && TIMER_GSIV != 0
            => at 0 shows TIMER_GSIV, TIMER_GSIV
    }),
    // 213 PlatformTimerCut, likely wrong (5.2.25): the GTDT has fewer platform timers than it says, or one of an
    // unknown type.
    // Numbers: `at` is the offset of Platform Timer Offset, 0x5c (92), or of the platform timer, `point` is that field
    // or the type. For one that does not fit `other` is its length, 0 if it has none, `point` is the GTDT's Length.
    // If `at` is 0x5c: "Platform Timer Offset, at {at} of the GTDT, is {point:d}, which is within the fields of its
    // Revision."
    // If `other` is 0: "The platform timer at {at} of the GTDT is of an unknown type or is not complete: {point:d} is
    // the type or the table's Length."
    // "The platform timer at {at} of the GTDT has the length {other:d}, which is below 4 or goes past the table's end
    // at {point}."
    // Applies from Revision 2 on.
    rule!(213 PlatformTimerCut, given in TABLE where GTDT_FULL: {
        WHOLE if REVISION == 2 && TIMER_COUNT != 0 && TIMERS_OFFSET < 96 => at 92 shows 0, TIMERS_OFFSET;
        WHOLE if REVISION > 2 && TIMER_COUNT != 0 && TIMERS_OFFSET < 104 => at 92 shows 0, TIMERS_OFFSET
    }),
    // 213 PlatformTimerCut where the walk over them ends
    rule!(213 PlatformTimerCut, cut in PLATFORM_TIMERS where HAS_PLATFORM_TIMERS),
    // 213 PlatformTimerCut of a platform timer of another type
    rule!(213 PlatformTimerCut, given in PLATFORM_TIMERS where HAS_PLATFORM_TIMERS: {
        PLATFORM_TIMER_FROM_2 => at 0 shows 0, PLATFORM_TIMER_TYPE
    }),
    // 214 TimerBlock, likely wrong (5.2.25.1): a GT Block of the GTDT does not have 1 to 8 frames that end with it.
    // Numbers: `at` is the structure's offset, `other` is the length that it needs, `point` is its length; or `other`
    // is the offset in it of GT Block Timer Count, 0xc (12), or GT Block Timer Offset, 0x10 (16), `point` is that
    // field.
    // If `other` is 0xc: "The GT Block at {at} of the GTDT has {point:d} frames, not 1 to 8."
    // If `other` is 0x10: "The frames of the GT Block at {at} of the GTDT begin at its byte {point:d}, below 20."
    // "The GT Block at {at} of the GTDT has the length {point:d}, where {other:d} are due."
    // It needs 20 bytes, and exactly those up to the end of its last frame. A frame is a GT Block Timer Structure.
    rule!(214 TimerBlock, given in PLATFORM_TIMERS where HAS_PLATFORM_TIMERS: {
        (any BLOCK) if (length own) < 20 => at 0 shows 20, (length own);
        BLOCK if FRAME_COUNT == 0 => at 0 shows 12, FRAME_COUNT;
        BLOCK if FRAME_COUNT > 8 => at 0 shows 12, FRAME_COUNT;
        BLOCK if FRAMES_OFFSET < 20 => at 0 shows 16, FRAMES_OFFSET;
        BLOCK if (length own) != (FRAMES_OFFSET + 40 * FRAME_COUNT)
            => at 0 shows (FRAMES_OFFSET + 40 * FRAME_COUNT), (length own)
    }),
    // 215 TimerFrame, likely wrong (5.2.25.1): a frame of a GT Block of the GTDT has a number above 7, or is non-secure
    // and has no address or no interrupt.
    // Numbers: `at` is the frame's offset, `other` is the offset in it of the field that is wrong, 0 of GT Frame
    // Number, 0x4 of CntBase, 0x14 (20) of the physical timer's GSIV, `point` is the field.
    // If `other` is 0: "The frame at {at} of the GTDT has the number {point:d}, above 7."
    // If `other` is 0x4: "The non-secure frame at {at} of the GTDT has the CntBase address 0."
    // "The non-secure frame at {at} of the GTDT has a physical timer with the GSIV 0."
    rule!(215 TimerFrame, given in FRAMES where HAS_PLATFORM_TIMERS: {
        FRAME if FRAME_NUMBER > 7 && (around FRAME_COUNT) <= 8
            && (length around) == (around FRAMES_OFFSET + 40 * FRAME_COUNT)
            => at 0 shows 0, FRAME_NUMBER;
        FRAME if (FRAME_FLAGS & 0b1) == 0 && FRAME_BASE == 0 && (around FRAME_COUNT) <= 8
            && (length around) == (around FRAMES_OFFSET + 40 * FRAME_COUNT)
            => at 0 shows 4, FRAME_BASE;
        FRAME if (FRAME_FLAGS & 0b1) == 0 && FRAME_GSIV == 0 && (around FRAME_COUNT) <= 8
            && (length around) == (around FRAMES_OFFSET + 40 * FRAME_COUNT)
            => at 0 shows 20, FRAME_GSIV
    }),
    // 216 SameFrame, look at it (5.2.25.1): two frames of a GT Block of the GTDT have the same number.
    // Numbers: `at` is the frame's offset, `other` that of the first frame of the GT Block with this number, `point` is
    // the number.
    // "The frame at {at} of the GTDT has the number {point:d}, as the one at {other} of the same GT Block does."
    rule!(216 SameFrame, repeated in FRAMES where HAS_PLATFORM_TIMERS: {
        FRAME if (around FRAME_COUNT) <= 8 && (length around) == (around FRAMES_OFFSET + 40 * FRAME_COUNT)
            => at 0 shows FRAME_NUMBER, (keyed around FRAME_NUMBER)
    }),
    // 217 Watchdog, likely wrong (5.2.25.2): a watchdog of the GTDT does not have 28 bytes, or one of its addresses is
    // 0.
    // Numbers: `at` is the structure's offset. For its length `other` is 0x1c (28), `point` is its length. For an
    // address `other` is the offset of it in the structure, 0x4 of RefreshFrame or 0xc (12) of WatchdogControlFrame.
    // If `other` is 0x4: "The watchdog at {at} of the GTDT has the RefreshFrame address 0."
    // If `other` is 0xc: "The watchdog at {at} of the GTDT has the WatchdogControlFrame address 0."
    // "The watchdog at {at} of the GTDT has the length {point:d}, not {other:d}."
    rule!(217 Watchdog, given in PLATFORM_TIMERS where HAS_PLATFORM_TIMERS: {
        (any WATCHDOG) if (length own) != 28 => at 0 shows 28, (length own);
        WATCHDOG if REFRESH_FRAME == 0 => at 0 shows 4, REFRESH_FRAME;
        WATCHDOG if CONTROL_FRAME == 0 => at 0 shows 12, CONTROL_FRAME
    }),
];

/// Rules on the GTDT with the MADT, if that has a GIC Distributor.
pub static GTDT_WITH_MADT: [Row<'static>; 3] = [
    // 211 TimerNoPpi, likely wrong (5.2.25): the GTDT gives a timer of each processor an interrupt that is no PPI.
    // Numbers: `at` is the offset of the timer's GSIV, `point` is the GSIV.
    // "The GSIV at {at} of the GTDT, of a timer of each processor, is {point:d}, which is no PPI of a GIC."
    // PPIs are 16 to 31 and 1056 to 1119; 0 says that there is no such timer.
    rule!(211 TimerNoPpi, given in GTDT_TIMERS where GTDT_FULL, OTHER_GIC, OTHER_MADT_WHOLE, OTHER_MADT_LENGTHS: {
        TIMER if (offset own) <= 72 && TIMER_GSIV >= 1 && TIMER_GSIV < 16 => at 0 shows 0, TIMER_GSIV;
        TIMER if (offset own) <= 72 && TIMER_GSIV > 31 && TIMER_GSIV < 1056 => at 0 shows 0, TIMER_GSIV;
        TIMER if (offset own) <= 72 && TIMER_GSIV > 1119 => at 0 shows 0, TIMER_GSIV;
        TIMER if (offset own) == 96 && (table REVISION) >= 3 && TIMER_GSIV >= 1 && TIMER_GSIV < 16
            => at 0 shows 0, TIMER_GSIV;
        TIMER if (offset own) == 96 && (table REVISION) >= 3 && TIMER_GSIV > 31 && TIMER_GSIV < 1056
            => at 0 shows 0, TIMER_GSIV;
        TIMER if (offset own) == 96 && (table REVISION) >= 3 && TIMER_GSIV > 1119 => at 0 shows 0, TIMER_GSIV
    }),
    // 218 TimerNoSpi, likely wrong (5.2.25.1, 5.2.25.2): the GTDT gives a platform timer an interrupt that is no SPI.
    // Numbers: `at` is the offset of the frame or the watchdog, `other` is the offset in it of the GSIV, 0x14 (20) of
    // the frame's physical timer or of the watchdog, 0x1c (28) of the frame's virtual timer, `point` is the GSIV.
    // If `other` is 0x1c: "The virtual timer of the frame at {at} of the GTDT has the GSIV {point:d}, which is no SPI
    // of a GIC."
    // "The watchdog or the physical timer of the frame at {at} of the GTDT has the GSIV {point:d}, which is no SPI of a
    // GIC."
    // SPIs are 32 to 1019 and 4096 to 5119; 0 says that there is no interrupt.
    rule!(218 TimerNoSpi, given in FRAMES where
        HAS_PLATFORM_TIMERS, OTHER_GIC, OTHER_MADT_WHOLE, OTHER_MADT_LENGTHS:
    {
        FRAME if FRAME_GSIV >= 1 && FRAME_GSIV < 32 && (around FRAME_COUNT) <= 8
            && (length around) == (around FRAMES_OFFSET + 40 * FRAME_COUNT)
            => at 0 shows 20, FRAME_GSIV;
        FRAME if FRAME_GSIV > 1019 && FRAME_GSIV < 4096 && (around FRAME_COUNT) <= 8
            && (length around) == (around FRAMES_OFFSET + 40 * FRAME_COUNT)
            => at 0 shows 20, FRAME_GSIV;
        FRAME if FRAME_GSIV > 5119 && (around FRAME_COUNT) <= 8
            && (length around) == (around FRAMES_OFFSET + 40 * FRAME_COUNT)
            => at 0 shows 20, FRAME_GSIV;
        FRAME if FRAME_VIRTUAL_GSIV >= 1 && FRAME_VIRTUAL_GSIV < 32 && (around FRAME_COUNT) <= 8
            && (length around) == (around FRAMES_OFFSET + 40 * FRAME_COUNT)
            => at 0 shows 28, FRAME_VIRTUAL_GSIV;
        FRAME if FRAME_VIRTUAL_GSIV > 1019 && FRAME_VIRTUAL_GSIV < 4096 && (around FRAME_COUNT) <= 8
            && (length around) == (around FRAMES_OFFSET + 40 * FRAME_COUNT)
            => at 0 shows 28, FRAME_VIRTUAL_GSIV;
        FRAME if FRAME_VIRTUAL_GSIV > 5119 && (around FRAME_COUNT) <= 8
            && (length around) == (around FRAMES_OFFSET + 40 * FRAME_COUNT)
            => at 0 shows 28, FRAME_VIRTUAL_GSIV
    }),
    // 218 TimerNoSpi of the watchdogs
    rule!(218 TimerNoSpi, given in PLATFORM_TIMERS where
        HAS_PLATFORM_TIMERS, OTHER_GIC, OTHER_MADT_WHOLE, OTHER_MADT_LENGTHS:
    {
        WATCHDOG if WATCHDOG_GSIV >= 1 && WATCHDOG_GSIV < 32 && REFRESH_FRAME != 0 && CONTROL_FRAME != 0
            => at 0 shows 20, WATCHDOG_GSIV;
        WATCHDOG if WATCHDOG_GSIV > 1019 && WATCHDOG_GSIV < 4096 && REFRESH_FRAME != 0 && CONTROL_FRAME != 0
            => at 0 shows 20, WATCHDOG_GSIV;
        WATCHDOG if WATCHDOG_GSIV > 5119 && REFRESH_FRAME != 0 && CONTROL_FRAME != 0
            => at 0 shows 20, WATCHDOG_GSIV
    }),
];

/// The ranges of registers of full structures, of 4 KiB each, each at the offset of its address; for TimerOverlap.
pub const TIMER_RANGES: &[Row<'static>] = &[
    // those of blocks, and the first one of watchdogs
    rule!(219 TimerOverlap, overlap in PLATFORM_TIMERS where HAS_PLATFORM_TIMERS: {
        BLOCK if BLOCK_ADDRESS != 0 && BLOCK_ADDRESS != largest
            && FRAME_COUNT >= 1 && FRAME_COUNT <= 8 && FRAMES_OFFSET >= 20
            && (length own) == (FRAMES_OFFSET + 40 * FRAME_COUNT)
            => at 4 shows 0x1000, BLOCK_ADDRESS;
        WATCHDOG if REFRESH_FRAME != 0 && REFRESH_FRAME != largest && CONTROL_FRAME != 0
            => at 4 shows 0x1000, REFRESH_FRAME
    }),
    // the second of watchdogs
    rule!(219 TimerOverlap, overlap in PLATFORM_TIMERS where HAS_PLATFORM_TIMERS: {
        WATCHDOG if CONTROL_FRAME != 0 && CONTROL_FRAME != largest && REFRESH_FRAME != 0
            => at 12 shows 0x1000, CONTROL_FRAME
    }),
    // both of frames
    rule!(219 TimerOverlap, overlap in FRAMES where HAS_PLATFORM_TIMERS: {
        FRAME if FRAME_BASE != 0 && FRAME_BASE != largest && (around FRAME_COUNT) <= 8
            && (length around) == (around FRAMES_OFFSET + 40 * FRAME_COUNT)
            => at 4 shows 0x1000, FRAME_BASE
    }),
    rule!(219 TimerOverlap, overlap in FRAMES where HAS_PLATFORM_TIMERS: {
        FRAME if FRAME_EL0_BASE != 0 && FRAME_EL0_BASE != largest && (around FRAME_COUNT) <= 8
            && (length around) == (around FRAMES_OFFSET + 40 * FRAME_COUNT)
            => at 12 shows 0x1000, FRAME_EL0_BASE
    }),
];
