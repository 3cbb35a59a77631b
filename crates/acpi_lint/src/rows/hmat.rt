//! Rules on the HMAT (ACPI 6.5, 5.2.28), by itself and with the SRAT.

use crate::rows::hmat_fields::*;
use crate::rows::srat::{ALL_DOMAINS, OTHER_SRAT_LENGTHS, OTHER_SRAT_READ, OTHER_SRAT_WHOLE};
use crate::rows::srat_fields::{MEMORY, MEMORY_DOMAIN, PORT, PORT_DOMAIN, SRAT_ENTRIES};
use crate::rows::table_fields::{LENGTH, REVISION, TABLE, WHOLE};
use acpi_rules::{Clause, Clauses, Form, Kind, LookUp, Repeat, Row, Source, Test, Value, Within};

/// Rules on the HMAT. By hand is 207 HmatAlone, since a row does not see which tables are listed.
pub static HMAT: [Row<'static>; 10] = [
    // 195 HmatHeader, likely wrong (5.2.28): the HMAT is shorter than 40 bytes, or its Revision is neither 1 nor 2.
    // Numbers: `at` is the offset of the field, 0x4 of Length or 0x8 of Revision, `point` is the field; for Length
    // `other` is 0x28 (40).
    // If `at` is 0x8: "The HMAT's Revision, at {at}, is {point:d}, neither 1 nor 2."
    // "The HMAT's Length, at {at}, is {point:d}, and it needs {other:d} bytes."
    rule!(195 HmatHeader, given in TABLE: {
        WHOLE if LENGTH < 40 => at 4 shows 40, LENGTH;
        WHOLE if REVISION < 1 => at 8 shows 0, REVISION;
        WHOLE if REVISION > 2 => at 8 shows 0, REVISION
    }),
    // 196 HmatCut, likely wrong (5.2.28): after the last structure of the HMAT there are bytes that are not a
    // structure.
    // Numbers: `at` is the offset of these bytes, `other` is the length that they say, or 0 if they are fewer than 8,
    // `point` is the HMAT's Length.
    // If `other` is 0: "At {at} of the HMAT there is no structure: the length there is 0, or the table ends at {point},
    // before it."
    // "At {at} of the HMAT there is no structure: the length there, {other:d}, is below 8 or goes past the table's end
    // at {point}."
    rule!(196 HmatCut, cut in HMAT_STRUCTURES),
    // 197 HmatLength, likely wrong (5.2.28.3 to 5.2.28.5): a structure of the HMAT does not have the length of its
    // type, or is too short for its lists.
    // Numbers: `at` is the structure's offset, `other` is the length that it needs, at most 2^64 - 1, `point` is its
    // length.
    // "The structure at {at} of the HMAT has the length {point:d}, where {other:d} bytes are due."
    // Type 0 has 40 bytes; the others have 32, and as many as their numbers of domains or of SMBIOS handles need.
    rule!(197 HmatLength, given in HMAT_STRUCTURES: {
        (any ATTRIBUTES) if (length own) != 40 => at 0 shows 40, (length own);
        (any LOCALITY) if (length own) < 32 => at 0 shows 32, (length own);
        LOCALITY if (length own) < (matrix own 32 INITIATORS TARGETS)
            => at 0 shows (matrix own 32 INITIATORS TARGETS), (length own);
        (any MEMORY_CACHE) if (length own) < 32 => at 0 shows 32, (length own);
        MEMORY_CACHE if (length own) < (32 + 2 * SMBIOS_HANDLES)
            => at 0 shows (32 + 2 * SMBIOS_HANDLES), (length own)
    }),
    // 198 HmatDataType, look at it (5.2.28.4): a latency and bandwidth structure of the HMAT has a reserved data type.
    // Numbers: `at` is the structure's offset, `other` is 0x9, the offset of Data Type in it, `point` is Data Type.
    // "The latency and bandwidth structure at {at} of the HMAT has the data type {point:d}, above 5."
    rule!(198 HmatDataType, given in HMAT_STRUCTURES: {
        LOCALITY if DATA_TYPE > 5 && (length own) >= (matrix own 32 INITIATORS TARGETS)
            => at 0 shows 9, DATA_TYPE
    }),
    // 199 HmatHierarchy, look at it (5.2.28.4): a latency and bandwidth structure of the HMAT has a reserved memory
    // hierarchy.
    // Numbers: `at` is the structure's offset, `other` is 0x8, the offset of Flags in it, `point` is Flags.
    // "The latency and bandwidth structure at {at} of the HMAT has a reserved memory hierarchy in bits 3:0 of its
    // flags, {point}."
    // Reserved is a hierarchy above 4 in an HMAT of Revision 1, and above 3 in any other.
    rule!(199 HmatHierarchy, given in HMAT_STRUCTURES: {
        LOCALITY if (LOCALITY_FLAGS & 0xf) > 4 && (length own) >= (matrix own 32 INITIATORS TARGETS)
            => at 0 shows 8, LOCALITY_FLAGS;
        LOCALITY if (LOCALITY_FLAGS & 0xf) == 4 && (table REVISION) != 1
            && (length own) >= (matrix own 32 INITIATORS TARGETS)
            => at 0 shows 8, LOCALITY_FLAGS
    }),
    // 200 HmatUnit, likely wrong (5.2.28.4): a latency and bandwidth structure of the HMAT has the base unit 0.
    // Numbers: `at` is the structure's offset, `other` is 0x18 (24), the offset of Entry Base Unit in it.
    // "The latency and bandwidth structure at {at} of the HMAT has the Entry Base Unit 0."
    rule!(200 HmatUnit, given in HMAT_STRUCTURES: {
        LOCALITY if BASE_UNIT == 0 && (length own) >= (matrix own 32 INITIATORS TARGETS)
            => at 0 shows 24, BASE_UNIT
    }),
    // 201 HmatTooLarge, look at it (5.2.28.4): a latency or bandwidth of the HMAT does not fit into 32 bits.
    // Numbers: `at` is the offset of the value in the structure's matrix, `point` is the value.
    // "The value at {at} of the HMAT, {point:d}, times the Entry Base Unit of its structure is above 2^32 - 1."
    // 0xffff is no value.
    rule!(201 HmatTooLarge, given in HMAT_ENTRIES: {
        ENTRY if ENTRY_VALUE != 0xffff && (around BASE_UNIT * ENTRY_VALUE) > 0xffff_ffff
            && (length around) >= (matrix around 32 INITIATORS TARGETS)
            => at 0 shows 0, ENTRY_VALUE
    }),
    // 202 HmatSameDomain, look at it (5.2.28.4): a latency and bandwidth structure of the HMAT lists an initiator or a
    // target twice.
    // Numbers: `at` is the offset of the domain in one of the structure's lists, `other` that of the first one in that
    // list with the same value, `point` is the domain.
    // "Two initiators or two targets of one structure of the HMAT, at {other} and {at}, have the same domain,
    // {point:d}."
    rule!(202 HmatSameDomain, repeated in HMAT_INITIATORS: {
        LISTED_DOMAIN if (length around) >= (matrix around 32 INITIATORS TARGETS)
            => at 0 shows DOMAIN, (keyed around DOMAIN)
    }),
    // 202 HmatSameDomain of the targets
    rule!(202 HmatSameDomain, repeated in HMAT_TARGETS: {
        LISTED_DOMAIN if (length around) >= (matrix around 32 INITIATORS TARGETS)
            => at 0 shows DOMAIN, (keyed around DOMAIN)
    }),
    // 206 HmatCache, look at it (5.2.28.5): a memory side cache of the HMAT has reserved attributes, or a level above
    // its number of levels.
    // Numbers: `at` is the structure's offset, `other` is 0x18 (24), the offset of Cache Attributes in it, `point` is
    // Cache Attributes.
    // "The memory side cache at {at} of the HMAT has the attributes {point}, with a reserved value, or with a level
    // above the number of levels."
    // Bits 3:0 are the number of levels, up to 3; bits 7:4 the level; bits 11:8 the associativity and bits 15:12 the
    // write policy, each up to 2.
    rule!(206 HmatCache, given in HMAT_STRUCTURES: {
        MEMORY_CACHE if (MEMORY_CACHE_ATTRIBUTES & 0xf) > 3 && (length own) >= (32 + 2 * SMBIOS_HANDLES)
            => at 0 shows 24, MEMORY_CACHE_ATTRIBUTES;
        MEMORY_CACHE if (MEMORY_CACHE_ATTRIBUTES & 0xf0) > 0x30 && (length own) >= (32 + 2 * SMBIOS_HANDLES)
            => at 0 shows 24, MEMORY_CACHE_ATTRIBUTES;
        MEMORY_CACHE if (MEMORY_CACHE_ATTRIBUTES & 0xf0) > 0x20 && (MEMORY_CACHE_ATTRIBUTES & 0xf) == 2
            && (length own) >= (32 + 2 * SMBIOS_HANDLES)
            => at 0 shows 24, MEMORY_CACHE_ATTRIBUTES;
        MEMORY_CACHE if (MEMORY_CACHE_ATTRIBUTES & 0xf0) > 0x10 && (MEMORY_CACHE_ATTRIBUTES & 0xf) == 1
            && (length own) >= (32 + 2 * SMBIOS_HANDLES)
            => at 0 shows 24, MEMORY_CACHE_ATTRIBUTES;
        MEMORY_CACHE if (MEMORY_CACHE_ATTRIBUTES & 0xf0) > 0 && (MEMORY_CACHE_ATTRIBUTES & 0xf) == 0
            && (length own) >= (32 + 2 * SMBIOS_HANDLES)
            => at 0 shows 24, MEMORY_CACHE_ATTRIBUTES;
        MEMORY_CACHE if (MEMORY_CACHE_ATTRIBUTES & 0xf00) > 0x200 && (length own) >= (32 + 2 * SMBIOS_HANDLES)
            => at 0 shows 24, MEMORY_CACHE_ATTRIBUTES;
        MEMORY_CACHE if (MEMORY_CACHE_ATTRIBUTES & 0xf000) > 0x2000 && (length own) >= (32 + 2 * SMBIOS_HANDLES)
            => at 0 shows 24, MEMORY_CACHE_ATTRIBUTES
    }),
];

/// Rules on the HMAT with the SRAT, if all its entries are read. These count whether they are enabled or not.
pub static HMAT_WITH_SRAT: [Row<'static>; 5] = [
    // 203 HmatProximity, likely wrong (5.2.28.3): a structure of the HMAT has an initiator or memory in a domain that
    // the SRAT does not have.
    // Numbers: `at` is the structure's offset in the HMAT, `other` is the offset in it of the domain, 0xc (12) of the
    // initiator or 0x10 (16) of the memory, `point` is the domain.
    // If `other` is 0xc: "The structure at {at} of the HMAT has an initiator in the domain {point:d}, which the SRAT
    // does not have."
    // "The structure at {at} of the HMAT has memory in the domain {point:d}, and the SRAT has no memory or generic port
    // in it."
    // The initiator counts if bit 0 of Flags is set; the memory always, but in an HMAT of Revision 1 if bit 1 is set.
    rule!(203 HmatProximity, nowhere in HMAT_STRUCTURES where
        OTHER_SRAT_READ, OTHER_SRAT_WHOLE, OTHER_SRAT_LENGTHS:
    {
        ATTRIBUTES if (ATTRIBUTES_FLAGS & 0b1) != 0 => at 0 shows 12, ATTACHED_INITIATOR
    } among other SRAT_ENTRIES ALL_DOMAINS),
    // 203 HmatProximity of the memory
    rule!(203 HmatProximity, nowhere in HMAT_STRUCTURES where
        OTHER_SRAT_READ, OTHER_SRAT_WHOLE, OTHER_SRAT_LENGTHS:
    {
        ATTRIBUTES if (table REVISION) != 1 => at 0 shows 16, ATTRIBUTES_MEMORY;
        ATTRIBUTES if (ATTRIBUTES_FLAGS & 0b10) != 0 => at 0 shows 16, ATTRIBUTES_MEMORY
    } among other SRAT_ENTRIES {
        MEMORY => at 0 shows 0, MEMORY_DOMAIN;
        PORT => at 0 shows 0, PORT_DOMAIN
    }),
    // 204 HmatDomainNowhere, likely wrong (5.2.28.4): a latency and bandwidth structure of the HMAT has an initiator or
    // a target in a domain that the SRAT does not have.
    // Numbers: `at` is the offset of the domain in the structure's list, `point` is the domain.
    // "The initiator or target at {at} of the HMAT is in the domain {point:d}, which the SRAT does not have."
    rule!(204 HmatDomainNowhere, nowhere in HMAT_INITIATORS where
        OTHER_SRAT_READ, OTHER_SRAT_WHOLE, OTHER_SRAT_LENGTHS:
    {
        LISTED_DOMAIN if (length around) >= (matrix around 32 INITIATORS TARGETS) => at 0 shows 0, DOMAIN
    } among other SRAT_ENTRIES ALL_DOMAINS),
    // 204 HmatDomainNowhere of the targets
    rule!(204 HmatDomainNowhere, nowhere in HMAT_TARGETS where
        OTHER_SRAT_READ, OTHER_SRAT_WHOLE, OTHER_SRAT_LENGTHS:
    {
        LISTED_DOMAIN if (length around) >= (matrix around 32 INITIATORS TARGETS) => at 0 shows 0, DOMAIN
    } among other SRAT_ENTRIES ALL_DOMAINS),
    // 205 HmatCacheNowhere, likely wrong (5.2.28.5): a memory side cache of the HMAT is of a domain in which the SRAT
    // has no memory.
    // Numbers: `at` is the structure's offset in the HMAT, `other` is 0x8, the offset of the domain in it, `point` is
    // the domain.
    // "The memory side cache at {at} of the HMAT is of the domain {point:d}, and the SRAT has no memory in it."
    rule!(205 HmatCacheNowhere, nowhere in HMAT_STRUCTURES where
        OTHER_SRAT_READ, OTHER_SRAT_WHOLE, OTHER_SRAT_LENGTHS:
    {
        MEMORY_CACHE if (length own) >= (32 + 2 * SMBIOS_HANDLES) => at 0 shows 8, MEMORY_CACHE_DOMAIN
    } among other SRAT_ENTRIES { MEMORY => at 0 shows 0, MEMORY_DOMAIN }),
];
