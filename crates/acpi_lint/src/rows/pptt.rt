//! Rules on the PPTT (ACPI 6.5, 5.2.30), by itself and with the MADT.

use crate::rows::madt::{OTHER_MADT_LENGTHS, OTHER_MADT_WHOLE, OTHER_PROCESSORS_READ, UIDS};
use crate::rows::madt_fields::{CORE_PIC, GICC, MADT_ENTRIES, RINTC};
use crate::rows::pptt_fields::*;
use crate::rows::table_fields::{RESERVED_2, RESERVED_3, REVISION, TABLE, TYPE, WHOLE};
use acpi_rules::{
    Case, Clause, Clauses, Form, FoundAs, Guard, Kind, LookUp, Need, Repeat, Row, Source, Test,
    Value, Within,
};

// ---- what entries give

/// A node that another one has as its Parent.
pub const PARENTS: &[Case<'static>] = cases!({
    NODE if (length own) == (20 + 4 * NODE_RESOURCES) => at 0 shows 0, NODE_PARENT
});

/// The valid ID of each leaf, which is marked from Revision 2 on.
pub const LEAF_IDS: &[Case<'static>] = cases!({
    NODE if (NODE_FLAGS & 0b1010) == 0b1010 && (length own) == (20 + 4 * NODE_RESOURCES)
        => at 0 shows 0, NODE_ID
});

/// The valid ID of each node. Below Revision 2 a node is a leaf if no other one has it as its Parent.
pub const NODE_IDS: &[Case<'static>] = cases!({
    NODE if (NODE_FLAGS & 0b10) != 0 && (length own) == (20 + 4 * NODE_RESOURCES)
        => at 0 shows 0, NODE_ID
});

// ---- conditions

/// Leaves are marked, or are not.
const MARKED: Guard<'static> = guard!((some table TABLE: { WHOLE if REVISION >= 2 }));

const UNMARKED: Guard<'static> = guard!((some table TABLE: { WHOLE if REVISION < 2 }));

pub const OTHER_MARKED: Guard<'static> = guard!((some other TABLE: { WHOLE if REVISION >= 2 }));

pub const OTHER_UNMARKED: Guard<'static> = guard!((some other TABLE: { WHOLE if REVISION < 2 }));

/// The other table, a PPTT, has a node.
pub const OTHER_NODES: Guard<'static> = guard!((some other PPTT_ENTRIES: {
    NODE if (length own) == (20 + 4 * NODE_RESOURCES)
}));

/// The entries fill the table, and nodes and caches have their lengths. Of such a table alone it is known what is not in
/// it.
const PPTT_WHOLE: Guard<'static> = guard!((whole table PPTT_ENTRIES));

pub const OTHER_PPTT_WHOLE: Guard<'static> = guard!((whole other PPTT_ENTRIES));

const PPTT_LENGTHS: Guard<'static> = guard!((none table PPTT_ENTRIES: WRONG_LENGTHS));

pub const OTHER_PPTT_LENGTHS: Guard<'static> = guard!((none other PPTT_ENTRIES: WRONG_LENGTHS));

const WRONG_LENGTHS: &[Case<'static>] = any!({
    (any NODE) if (length own) < 20;
    NODE if (length own) != (20 + 4 * NODE_RESOURCES);
    (any CACHE_24) if (length own) != 24 && (length own) != 28
});

/// The other table, a MADT, has a processor that is not of x86.
const OTHER_BEYOND_X86: Guard<'static> =
    guard!((some other MADT_ENTRIES: { GICC; CORE_PIC; RINTC }));

// ---- for NoPackage, which is not a row

/// The leaves, by their marks from Revision 2 on; below that, if the table is well-formed, the nodes that no other one has
/// as its Parent.
pub const MARKED_LEAVES: Row<'static> =
    rule!(182 NoPackage, given in PPTT_ENTRIES where MARKED: LEAF_IDS);

pub const UNMARKED_LEAVES: Row<'static> = rule!(182 NoPackage, given in PPTT_ENTRIES where
    UNMARKED, PPTT_WHOLE, PPTT_LENGTHS: NODE_IDS except PARENTS);

/// The Parent of each node that is no physical package.
pub const OUTER_PARENTS: &[Case<'static>] = cases!({
    NODE if (NODE_FLAGS & 0b1) == 0 && (length own) == (20 + 4 * NODE_RESOURCES)
        => at 0 shows 0, NODE_PARENT
});

// ---- for SameCacheType, which is not a row

/// What each private resource of a node is, with the node's offset.
pub const RESOURCES: &[Case<'static>] = cases!({
    RESOURCE if (length around) == (around 20 + 4 * NODE_RESOURCES)
        => at 0 shows (offset around), RESOURCE_OFFSET
});

/// The offset of each cache, with its Next Level.
pub const NEXT_LEVELS: &[Case<'static>] = cases!({
    CACHE_24 => at 0 shows CACHE_NEXT_LEVEL, (offset own);
    CACHE_28 => at 0 shows CACHE_NEXT_LEVEL, (offset own)
});

/// The offset of each cache that says, validly, of which type it is: 0 for data, 1 for instructions, 2 for both.
pub const CACHE_TYPES: &[Case<'static>] = cases!({
    CACHE_24 if (CACHE_FLAGS & 0b1_0000) != 0 && (CACHE_ATTRIBUTES & 0b1100) == 0 => at 0 shows 0, (offset own);
    CACHE_24 if (CACHE_FLAGS & 0b1_0000) != 0 && (CACHE_ATTRIBUTES & 0b1100) == 0b100 => at 0 shows 1, (offset own);
    CACHE_24 if (CACHE_FLAGS & 0b1_0000) != 0 && (CACHE_ATTRIBUTES & 0b1000) != 0 => at 0 shows 2, (offset own);
    CACHE_28 if (CACHE_FLAGS & 0b1_0000) != 0 && (CACHE_ATTRIBUTES & 0b1100) == 0 => at 0 shows 0, (offset own);
    CACHE_28 if (CACHE_FLAGS & 0b1_0000) != 0 && (CACHE_ATTRIBUTES & 0b1100) == 0b100 => at 0 shows 1, (offset own);
    CACHE_28 if (CACHE_FLAGS & 0b1_0000) != 0 && (CACHE_ATTRIBUTES & 0b1000) != 0 => at 0 shows 2, (offset own)
});

// ---- the rules

/// Rules on the PPTT.
pub static PPTT: [Row<'static>; 10] = [
    // 122 SameLeaf, likely wrong (5.2.30.1): two leaves of the PPTT have the same ACPI Processor ID.
    // Numbers: `at` is the leaf's offset, `other` that of the first leaf with this ID, `point` is the ID.
    // "The leaf at {at} of the PPTT has the ACPI Processor ID {point:d}, as the one at {other} does."
    // This row: from Revision 2 on.
    rule!(122 SameLeaf, repeated in PPTT_ENTRIES where MARKED: {
        NODE if (NODE_FLAGS & 0b1010) == 0b1010 && (length own) == (20 + 4 * NODE_RESOURCES)
            => at 0 shows NODE_ID, NODE_ID
    }),
    // the same below Revision 2, if the table is well-formed
    rule!(122 SameLeaf, repeated in PPTT_ENTRIES where UNMARKED, PPTT_WHOLE, PPTT_LENGTHS: {
        NODE if (NODE_FLAGS & 0b10) != 0 && (length own) == (20 + 4 * NODE_RESOURCES)
            => at 0 shows NODE_ID, NODE_ID
    } except PARENTS),
    // 123 CacheShape, look at it (5.2.30.2): a cache has no sets, or a line size that is no power of two.
    // Numbers: `at` is the cache's offset.
    // "The cache at {at} of the PPTT has no sets, or a line size that is no power of two."
    // A number counts if the flags say that it is valid.
    rule!(123 CacheShape, given in PPTT_ENTRIES: {
        CACHE_24 if (CACHE_FLAGS & 0b10) != 0 && CACHE_SETS == 0 => at 0 shows 0, 0;
        CACHE_24 if (CACHE_FLAGS & 0b100_0000) != 0
            && CACHE_LINE_SIZE != 1 && CACHE_LINE_SIZE != 2 && CACHE_LINE_SIZE != 4 && CACHE_LINE_SIZE != 8
            && CACHE_LINE_SIZE != 0x10 && CACHE_LINE_SIZE != 0x20 && CACHE_LINE_SIZE != 0x40 && CACHE_LINE_SIZE != 0x80
            && CACHE_LINE_SIZE != 0x100 && CACHE_LINE_SIZE != 0x200 && CACHE_LINE_SIZE != 0x400 && CACHE_LINE_SIZE != 0x800
            && CACHE_LINE_SIZE != 0x1000 && CACHE_LINE_SIZE != 0x2000 && CACHE_LINE_SIZE != 0x4000 && CACHE_LINE_SIZE != 0x8000
            => at 0 shows 0, 0;
        CACHE_28 if (CACHE_FLAGS & 0b10) != 0 && CACHE_SETS == 0 => at 0 shows 0, 0;
        CACHE_28 if (CACHE_FLAGS & 0b100_0000) != 0
            && CACHE_LINE_SIZE != 1 && CACHE_LINE_SIZE != 2 && CACHE_LINE_SIZE != 4 && CACHE_LINE_SIZE != 8
            && CACHE_LINE_SIZE != 0x10 && CACHE_LINE_SIZE != 0x20 && CACHE_LINE_SIZE != 0x40 && CACHE_LINE_SIZE != 0x80
            && CACHE_LINE_SIZE != 0x100 && CACHE_LINE_SIZE != 0x200 && CACHE_LINE_SIZE != 0x400 && CACHE_LINE_SIZE != 0x800
            && CACHE_LINE_SIZE != 0x1000 && CACHE_LINE_SIZE != 0x2000 && CACHE_LINE_SIZE != 0x4000 && CACHE_LINE_SIZE != 0x8000
            => at 0 shows 0, 0
    }),
    // 124 SameCacheId, likely wrong (5.2.30.2): two caches have the same Cache ID.
    // Numbers: `at` is the cache's offset, `other` that of the first cache with this Cache ID, `point` is the Cache ID.
    // "The cache at {at} of the PPTT has the Cache ID {point:d}, as the one at {other} does."
    // Both are valid; applies from Revision 3 on.
    rule!(124 SameCacheId, repeated in PPTT_ENTRIES: {
        CACHE_28 if (table REVISION) >= 3 && (CACHE_FLAGS & 0b1000_0000) != 0
            => at 0 shows CACHE_ID, CACHE_ID
    }),
    // 180 LeafUnflagged, likely wrong (5.2.30.1): a processor that no node names as Parent is not marked as a leaf.
    // Numbers: `at` is the node's offset, `point` is its ACPI Processor ID.
    // "The node at {at} of the PPTT, of ACPI Processor ID {point:d}, is no node's Parent, and is not marked as a leaf."
    // Applies from Revision 2 on, if the table is well-formed.
    rule!(180 LeafUnflagged, given in PPTT_ENTRIES where MARKED, PPTT_WHOLE, PPTT_LENGTHS: {
        NODE if (NODE_FLAGS & 0b1010) == 0b10 && (length own) == (20 + 4 * NODE_RESOURCES)
            => at 0 shows 0, NODE_ID
    } except PARENTS),
    // 181 LeafAsParent, look at it (5.2.30.1): a leaf is the Parent of a node.
    // Numbers: `at` is the leaf's offset, `other` that of the first node that names it as its Parent.
    // "The leaf at {at} of the PPTT is the Parent of the node at {other}."
    // Applies from Revision 2 on.
    rule!(181 LeafAsParent, somewhere in PPTT_ENTRIES where MARKED: {
        NODE if (NODE_FLAGS & 0b1000) != 0 && (length own) == (20 + 4 * NODE_RESOURCES)
            => at 0 shows 0, (offset own)
    } among table PPTT_ENTRIES PARENTS),
    // 183 CacheNumbers, look at it (5.2.30.2): a cache's size or associativity is 0, or its size is not sets * ways *
    // line size.
    // Numbers: `at` is the cache's offset, `other` is its Size, `point` is Number of Sets * Associativity * Line Size,
    // as these fields are.
    // If `point` is 0: "The cache at {at} of the PPTT has the size {other:d}, and its associativity, number of sets or
    // line size is 0."
    // "The cache at {at} of the PPTT has the size {other:d}, and its sets * ways * line size is {point:d}."
    // The numbers are valid.
    rule!(183 CacheNumbers, given in PPTT_ENTRIES: {
        CACHE_24 if (CACHE_FLAGS & 0b100) != 0 && CACHE_ASSOCIATIVITY == 0
            => at 0 shows CACHE_SIZE, 0;
        CACHE_24 if (CACHE_FLAGS & 0b1) != 0 && CACHE_SIZE == 0
            => at 0 shows 0, (CACHE_SETS * CACHE_ASSOCIATIVITY * CACHE_LINE_SIZE);
        CACHE_24 if (CACHE_FLAGS & 0b100_0111) == 0b100_0111
            && CACHE_SIZE != (CACHE_SETS * CACHE_ASSOCIATIVITY * CACHE_LINE_SIZE)
            => at 0 shows CACHE_SIZE, (CACHE_SETS * CACHE_ASSOCIATIVITY * CACHE_LINE_SIZE);
        CACHE_28 if (CACHE_FLAGS & 0b100) != 0 && CACHE_ASSOCIATIVITY == 0
            => at 0 shows CACHE_SIZE, 0;
        CACHE_28 if (CACHE_FLAGS & 0b1) != 0 && CACHE_SIZE == 0
            => at 0 shows 0, (CACHE_SETS * CACHE_ASSOCIATIVITY * CACHE_LINE_SIZE);
        CACHE_28 if (CACHE_FLAGS & 0b100_0111) == 0b100_0111
            && CACHE_SIZE != (CACHE_SETS * CACHE_ASSOCIATIVITY * CACHE_LINE_SIZE)
            => at 0 shows CACHE_SIZE, (CACHE_SETS * CACHE_ASSOCIATIVITY * CACHE_LINE_SIZE)
    }),
    // 184 PpttReserved, look at it (5.2.30): a field of the PPTT has a reserved value.
    // Numbers: `at` is the structure's offset, `other` the offset in it of the first field or byte that is wrong.
    // "The structure at {at} of the PPTT has a reserved value at its offset {other:d}."
    rule!(184 PpttReserved, given in PPTT_ENTRIES: {
        NODE if RESERVED_2 != 0 && (length own) == (20 + 4 * NODE_RESOURCES) => at 0 shows 2, 0;
        NODE if RESERVED_3 != 0 && (length own) == (20 + 4 * NODE_RESOURCES) => at 0 shows 3, 0;
        NODE if NODE_FLAGS > 0b1_1111 && (length own) == (20 + 4 * NODE_RESOURCES) => at 0 shows 4, 0;
        CACHE_24 if RESERVED_2 != 0 => at 0 shows 2, 0;
        CACHE_24 if RESERVED_3 != 0 => at 0 shows 3, 0;
        CACHE_24 if CACHE_FLAGS > 0b1111_1111 => at 0 shows 4, 0;
        CACHE_24 if CACHE_ATTRIBUTES > 0b1_1111 => at 0 shows 21, 0;
        CACHE_28 if RESERVED_2 != 0 => at 0 shows 2, 0;
        CACHE_28 if RESERVED_3 != 0 => at 0 shows 3, 0;
        CACHE_28 if CACHE_FLAGS > 0b1111_1111 => at 0 shows 4, 0;
        CACHE_28 if CACHE_ATTRIBUTES > 0b1_1111 => at 0 shows 21, 0
    }),
    // 309 PpttUnread, not looked at (5.2.30): a structure of the PPTT of a type that is not read.
    // Numbers: `at` is the offset of the first one, `other` its type.
    // "The structure at {at} of the PPTT, of type {other:d}, is the first that is not looked at."
    rule!(309 PpttUnread, given in PPTT_ENTRIES: {
        PPTT_FROM_2 => at 0 shows TYPE, 0
    }),
    // 310 CacheIdZero, look at it (5.2.30.2): a cache has the Cache ID 0, and its flags say that the ID is
    // valid.
    // Numbers: `at` is the cache's offset, `other` is 0x18 (24), the offset of the Cache ID in it.
    // "The cache at {at} of the PPTT has the Cache ID 0, and its flags say that the ID is valid."
    // Applies from Revision 3 on.
    rule!(310 CacheIdZero, given in PPTT_ENTRIES: {
        CACHE_28 if (table REVISION) >= 3 && (CACHE_FLAGS & 0b1000_0000) != 0 && CACHE_ID == 0
            => at 0 shows 24, 0
    }),
];

/// Rules on the PPTT with the MADT.
pub static PPTT_WITH_MADT: [Row<'static>; 2] = [
    // 126 LeafNowhere, likely wrong (5.2.30.1): a leaf's ACPI Processor ID is no UID, and not all processors are of
    // x86.
    // Numbers: `at` is the leaf's offset, `point` is its ACPI Processor ID.
    // "The leaf at {at} of the PPTT has the ACPI Processor ID {point:d}, which is no processor's UID."
    // Applies if all processors are read. This row: from Revision 2 on.
    rule!(126 LeafNowhere, nowhere in PPTT_ENTRIES where
        OTHER_BEYOND_X86, OTHER_PROCESSORS_READ, OTHER_MADT_WHOLE, OTHER_MADT_LENGTHS, MARKED:
        LEAF_IDS
        among other MADT_ENTRIES UIDS),
    // the same below Revision 2, if the table is well-formed
    rule!(126 LeafNowhere, nowhere in PPTT_ENTRIES where
        OTHER_BEYOND_X86, OTHER_PROCESSORS_READ, OTHER_MADT_WHOLE, OTHER_MADT_LENGTHS, UNMARKED,
        PPTT_WHOLE, PPTT_LENGTHS:
        NODE_IDS except PARENTS
        among other MADT_ENTRIES UIDS),
];
