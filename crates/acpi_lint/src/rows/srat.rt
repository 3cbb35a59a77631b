//! Rules on the SRAT (ACPI 6.5, 5.2.16), by itself, with the MADT and with the SLIT.

use crate::rows::madt::{
    APIC_IDS, OTHER_MADT_LENGTHS, OTHER_MADT_WHOLE, OTHER_PROCESSORS_READ, UIDS,
};
use crate::rows::madt_fields::{ITS, ITS_ID, MADT_ENTRIES};
use crate::rows::slit_fields::LOCALITIES;
use crate::rows::srat_fields::*;
use crate::rows::table_fields::*;
use acpi_rules::{
    Case, Clause, Clauses, Form, Guard, Kind, LookUp, Need, Repeat, Row, Source, Test, Value,
    Within,
};

// ---- what entries give

/// The APIC ID or X2APIC ID of each enabled affinity of one.
pub const PLACED_APIC_IDS: &[Case<'static>] = cases!({
    APIC_AFFINITY if (APIC_AFFINITY_FLAGS & 0b1) != 0 => at 0 shows 0, APIC_AFFINITY_ID;
    X2APIC_AFFINITY if (X2APIC_AFFINITY_FLAGS & 0b1) != 0 => at 0 shows 0, X2APIC_AFFINITY_ID
});

/// The UID of each enabled affinity of one.
pub const PLACED_UIDS: &[Case<'static>] = cases!({
    GICC_AFFINITY if (GICC_AFFINITY_FLAGS & 0b1) != 0 => at 0 shows 0, GICC_AFFINITY_UID;
    RINTC_AFFINITY if (RINTC_AFFINITY_FLAGS & 0b1) != 0 => at 0 shows 0, RINTC_AFFINITY_UID
});

/// An enabled affinity of a processor.
const PROCESSOR_AFFINITIES: &[Case<'static>] = any!({
    APIC_AFFINITY if (APIC_AFFINITY_FLAGS & 0b1) != 0;
    X2APIC_AFFINITY if (X2APIC_AFFINITY_FLAGS & 0b1) != 0;
    GICC_AFFINITY if (GICC_AFFINITY_FLAGS & 0b1) != 0;
    RINTC_AFFINITY if (RINTC_AFFINITY_FLAGS & 0b1) != 0
});

// ---- conditions

/// The entries fill the table, and those of a type that `check` reads have its length.
const SRAT_WHOLE: Guard<'static> = guard!((whole table SRAT_ENTRIES));

pub const OTHER_SRAT_WHOLE: Guard<'static> = guard!((whole other SRAT_ENTRIES));

const SRAT_LENGTHS: Guard<'static> = guard!((none table SRAT_ENTRIES: WRONG_LENGTHS));

pub const OTHER_SRAT_LENGTHS: Guard<'static> = guard!((none other SRAT_ENTRIES: WRONG_LENGTHS));

const WRONG_LENGTHS: &[Case<'static>] = any!({
    (any APIC_AFFINITY) if (length own) != 16;
    (any MEMORY) if (length own) != 40;
    (any X2APIC_AFFINITY) if (length own) != 24
});

/// The other table, an SRAT, has an enabled affinity of a processor.
pub const PLACED_PROCESSORS: Guard<'static> =
    guard!((some other SRAT_ENTRIES: PROCESSOR_AFFINITIES));

/// No entry of the other table, a MADT, has the type of an ITS and another length.
const OTHER_ITS_READ: Guard<'static> = guard!((none other MADT_ENTRIES: {
    (any ITS) if (length own) != 20
}));

/// An entry that no rule reads.
const UNREAD: &[Case<'static>] = cases!({
    (any GICC_AFFINITY) if (length own) != 18 => at 0 shows TYPE, 0;
    (any ITS_AFFINITY) if (length own) != 12 => at 0 shows TYPE, 0;
    (any INITIATOR) if (length own) != 32 => at 0 shows TYPE, 0;
    (any PORT) if (length own) != 32 => at 0 shows TYPE, 0;
    (any RINTC_AFFINITY) if (length own) != 20 => at 0 shows TYPE, 0;
    SRAT_FROM_8 => at 0 shows TYPE, 0
});

/// The domain of each affinity of a processor, memory range, initiator and port that is enabled.
const DOMAINS: &[Case<'static>] = cases!({
    APIC_AFFINITY if (APIC_AFFINITY_FLAGS & 0b1) != 0
        => at 0 shows 0, (APIC_AFFINITY_DOMAIN + 256 * APIC_AFFINITY_DOMAIN_HIGH);
    MEMORY if (MEMORY_FLAGS & 0b1) != 0 => at 0 shows 0, MEMORY_DOMAIN;
    X2APIC_AFFINITY if (X2APIC_AFFINITY_FLAGS & 0b1) != 0 => at 0 shows 0, X2APIC_AFFINITY_DOMAIN;
    GICC_AFFINITY if (GICC_AFFINITY_FLAGS & 0b1) != 0 => at 0 shows 0, GICC_AFFINITY_DOMAIN;
    INITIATOR if (INITIATOR_FLAGS & 0b1) != 0 => at 0 shows 0, INITIATOR_DOMAIN;
    PORT if (PORT_FLAGS & 0b1) != 0 => at 0 shows 0, PORT_DOMAIN;
    RINTC_AFFINITY if (RINTC_AFFINITY_FLAGS & 0b1) != 0 => at 0 shows 0, RINTC_AFFINITY_DOMAIN
});

/// The domain of each entry that names one.
pub const ALL_DOMAINS: &[Case<'static>] = cases!({
    APIC_AFFINITY => at 0 shows 0, (APIC_AFFINITY_DOMAIN + 256 * APIC_AFFINITY_DOMAIN_HIGH);
    MEMORY => at 0 shows 0, MEMORY_DOMAIN;
    X2APIC_AFFINITY => at 0 shows 0, X2APIC_AFFINITY_DOMAIN;
    GICC_AFFINITY => at 0 shows 0, GICC_AFFINITY_DOMAIN;
    ITS_AFFINITY => at 0 shows 0, ITS_AFFINITY_DOMAIN;
    INITIATOR => at 0 shows 0, INITIATOR_DOMAIN;
    PORT => at 0 shows 0, PORT_DOMAIN;
    RINTC_AFFINITY => at 0 shows 0, RINTC_AFFINITY_DOMAIN
});

/// No entry of the other table, an SRAT, is one that no rule reads.
pub const OTHER_SRAT_READ: Guard<'static> = guard!((none other SRAT_ENTRIES: UNREAD));

// ---- the rules

/// Rules on the SRAT.
pub static SRAT: [Row<'static>; 11] = [
    // 117 TwoUidDomains, likely wrong (5.2.16.4): two affinities put the processor of one UID in two proximity domains.
    // Numbers: `at` is the offset of the first affinity with this UID, `other` that of the one with another domain,
    // `point` is the UID.
    // "The affinities at {at} and {other} of the SRAT put the processor of UID {point:d} into two proximity domains."
    // The affinities are enabled.
    rule!(117 TwoUidDomains, unlike_first in SRAT_ENTRIES: {
        GICC_AFFINITY if (GICC_AFFINITY_FLAGS & 0b1) != 0
            => at 0 shows GICC_AFFINITY_DOMAIN, GICC_AFFINITY_UID;
        RINTC_AFFINITY if (RINTC_AFFINITY_FLAGS & 0b1) != 0
            => at 0 shows RINTC_AFFINITY_DOMAIN, RINTC_AFFINITY_UID
    }),
    // 128 SratUnread, not looked at (5.2.16): a structure of the SRAT of a type or length that is not read.
    // Numbers: `at` is the offset of the first one, `other` its type.
    // "The structure at {at} of the SRAT, of type {other:d}, is the first that is not looked at."
    rule!(128 SratUnread, given in SRAT_ENTRIES: UNREAD),
    // 173 NoMemoryRange, likely wrong (5.2.16.2): an SRAT with affinities has no enabled memory range of a length above
    // 0.
    // Numbers: all 0.
    // "The SRAT has affinities of processors, and no enabled memory range of a length above 0."
    // The affinities are enabled.
    rule!(173 NoMemoryRange, given in TABLE where
        (none table SRAT_ENTRIES: { MEMORY if (MEMORY_FLAGS & 0b1) != 0 && MEMORY_LENGTH != 0 }),
        (some table SRAT_ENTRIES: PROCESSOR_AFFINITIES),
        SRAT_WHOLE, SRAT_LENGTHS:
    {
        WHOLE => at 0 shows 0, 0
    }),
    // 174 EmptyRange, likely wrong (5.2.16.2): an enabled memory range has the length 0.
    // Numbers: `at` is the structure's offset, `point` is the Base Address.
    // "The enabled memory range at {at} of the SRAT, from {point} on, has the length 0."
    rule!(174 EmptyRange, given in SRAT_ENTRIES: {
        MEMORY if (MEMORY_FLAGS & 0b1) != 0 && MEMORY_LENGTH == 0 => at 0 shows 0, MEMORY_BASE
    }),
    // 175 InitiatorOff, likely wrong (5.2.16.6): a Generic Initiator is not enabled.
    // Numbers: `at` is the structure's offset, `point` is its domain.
    // "The Generic Initiator at {at} of the SRAT, of domain {point:d}, is not enabled."
    rule!(175 InitiatorOff, given in SRAT_ENTRIES: {
        INITIATOR if (INITIATOR_FLAGS & 0b1) == 0 => at 0 shows 0, INITIATOR_DOMAIN
    }),
    // 176 DomainPastRevision, likely wrong (5.2.16): a domain above 255 is in an SRAT of a Revision below 2.
    // Numbers: `at` is the structure's offset, `other` is the Revision, `point` is the domain.
    // "The structure at {at} of the SRAT has the domain {point:d}, and the SRAT the Revision {other:d}."
    // Below Revision 2 domains of local APICs and of memory have one byte.
    rule!(176 DomainPastRevision, given in SRAT_ENTRIES: {
        APIC_AFFINITY if (table REVISION) < 2 && (APIC_AFFINITY_FLAGS & 0b1) != 0
            && APIC_AFFINITY_DOMAIN_HIGH != 0
            => at 0 shows (table REVISION), (APIC_AFFINITY_DOMAIN + 256 * APIC_AFFINITY_DOMAIN_HIGH);
        MEMORY if (table REVISION) < 2 && (MEMORY_FLAGS & 0b1) != 0 && MEMORY_DOMAIN > 255
            => at 0 shows (table REVISION), MEMORY_DOMAIN
    }),
    // 178 SratReserved, look at it (5.2.16): a field of the SRAT has a reserved value.
    // Numbers: for the number `at` is 0x24 (36), `point` is the number. Otherwise `at` is the structure's offset,
    // `other` the offset in it of the first field or byte that is wrong.
    // If `at` is 0x24: "The number at {at} of the SRAT is {point}, not 1."
    // "The structure at {at} of the SRAT has a reserved value at its offset {other:d}."
    // This row: the number of the table.
    rule!(178 SratReserved, given in TABLE: {
        WHOLE if SRAT_RESERVED != 1 => at 36 shows 0, SRAT_RESERVED
    }),
    // a flag of an entry that is not defined, or a reserved byte; `other` is its offset in the entry
    rule!(178 SratReserved, given in SRAT_ENTRIES: {
        APIC_AFFINITY if APIC_AFFINITY_FLAGS > 0b1 => at 0 shows 4, 0;
        MEMORY if RESERVED_6 != 0 => at 0 shows 6, 0;
        MEMORY if RESERVED_7 != 0 => at 0 shows 7, 0;
        MEMORY if RESERVED_24 != 0 => at 0 shows 24, 0;
        MEMORY if RESERVED_25 != 0 => at 0 shows 25, 0;
        MEMORY if RESERVED_26 != 0 => at 0 shows 26, 0;
        MEMORY if RESERVED_27 != 0 => at 0 shows 27, 0;
        MEMORY if MEMORY_FLAGS > 0b111 => at 0 shows 28, 0;
        MEMORY if RESERVED_32 != 0 => at 0 shows 32, 0;
        MEMORY if RESERVED_33 != 0 => at 0 shows 33, 0;
        MEMORY if RESERVED_34 != 0 => at 0 shows 34, 0;
        MEMORY if RESERVED_35 != 0 => at 0 shows 35, 0;
        MEMORY if RESERVED_36 != 0 => at 0 shows 36, 0;
        MEMORY if RESERVED_37 != 0 => at 0 shows 37, 0;
        MEMORY if RESERVED_38 != 0 => at 0 shows 38, 0;
        MEMORY if RESERVED_39 != 0 => at 0 shows 39, 0;
        X2APIC_AFFINITY if RESERVED_2 != 0 => at 0 shows 2, 0;
        X2APIC_AFFINITY if RESERVED_3 != 0 => at 0 shows 3, 0;
        X2APIC_AFFINITY if X2APIC_AFFINITY_FLAGS > 0b1 => at 0 shows 12, 0;
        X2APIC_AFFINITY if RESERVED_20 != 0 => at 0 shows 20, 0;
        X2APIC_AFFINITY if RESERVED_21 != 0 => at 0 shows 21, 0;
        X2APIC_AFFINITY if RESERVED_22 != 0 => at 0 shows 22, 0;
        X2APIC_AFFINITY if RESERVED_23 != 0 => at 0 shows 23, 0
    }),
    // 306 AffinityReserved, look at it (5.2.16.4 to 5.2.16.7): a structure of a GIC, of RISC-V, or of an initiator or a
    // port has a reserved value.
    // Numbers: `at` is the structure's offset, `other` the offset in it of the first field or byte that is wrong, `point`
    // is the value there.
    // "The structure at {at} of the SRAT has the reserved value {point} at its offset {other:d}."
    rule!(306 AffinityReserved, given in SRAT_ENTRIES: {
        GICC_AFFINITY if GICC_AFFINITY_FLAGS > 0b1 => at 0 shows 10, GICC_AFFINITY_FLAGS;
        ITS_AFFINITY if RESERVED_6 != 0 => at 0 shows 6, RESERVED_6;
        ITS_AFFINITY if RESERVED_7 != 0 => at 0 shows 7, RESERVED_7;
        INITIATOR if RESERVED_2 != 0 => at 0 shows 2, RESERVED_2;
        INITIATOR if INITIATOR_FLAGS > 0b11 => at 0 shows 24, INITIATOR_FLAGS;
        INITIATOR if RESERVED_28 != 0 => at 0 shows 28, RESERVED_28;
        INITIATOR if RESERVED_29 != 0 => at 0 shows 29, RESERVED_29;
        INITIATOR if RESERVED_30 != 0 => at 0 shows 30, RESERVED_30;
        INITIATOR if RESERVED_31 != 0 => at 0 shows 31, RESERVED_31;
        PORT if RESERVED_2 != 0 => at 0 shows 2, RESERVED_2;
        PORT if PORT_FLAGS > 0b11 => at 0 shows 24, PORT_FLAGS;
        PORT if RESERVED_28 != 0 => at 0 shows 28, RESERVED_28;
        PORT if RESERVED_29 != 0 => at 0 shows 29, RESERVED_29;
        PORT if RESERVED_30 != 0 => at 0 shows 30, RESERVED_30;
        PORT if RESERVED_31 != 0 => at 0 shows 31, RESERVED_31;
        RINTC_AFFINITY if RESERVED_2 != 0 => at 0 shows 2, RESERVED_2;
        RINTC_AFFINITY if RESERVED_3 != 0 => at 0 shows 3, RESERVED_3;
        RINTC_AFFINITY if RINTC_AFFINITY_FLAGS > 0b1 => at 0 shows 12, RINTC_AFFINITY_FLAGS
    }),
    // 307 DeviceHandle, look at it (5.2.16.6, 5.2.16.7): a device handle is neither of ACPI nor of PCI.
    // Numbers: `at` is the structure's offset, `other` is 0x3, the offset of Device Handle Type in it, `point` is this type.
    // "The structure at {at} of the SRAT has the Device Handle Type {point:d}, neither ACPI nor PCI."
    rule!(307 DeviceHandle, given in SRAT_ENTRIES: {
        INITIATOR if INITIATOR_HANDLE_TYPE > 1 => at 0 shows 3, INITIATOR_HANDLE_TYPE;
        PORT if PORT_HANDLE_TYPE > 1 => at 0 shows 3, PORT_HANDLE_TYPE
    }),
    // 308 ItsDomain, likely wrong (5.2.16.5): an ITS is in a proximity domain that nothing else is in.
    // Numbers: `at` is the structure's offset, `other` is 0x2, the offset of the domain in it, `point` is the domain.
    // "The ITS affinity at {at} of the SRAT has the domain {point:d}, and nothing else is in it."
    // Something else is in it if it is enabled. Applies if all structures are read.
    rule!(308 ItsDomain, nowhere in SRAT_ENTRIES where
        (none table SRAT_ENTRIES: UNREAD), SRAT_WHOLE, SRAT_LENGTHS:
        {
            ITS_AFFINITY => at 0 shows 2, ITS_AFFINITY_DOMAIN
        }
        among table SRAT_ENTRIES DOMAINS),
];

/// Rules on the SRAT with the MADT.
pub static SRAT_WITH_MADT: [Row<'static>; 3] = [
    // 118 AffinityNowhere, likely wrong (5.2.16): the SRAT has a processor that the MADT does not have.
    // Numbers: `at` is the affinity's offset, `point` is its APIC ID, X2APIC ID or UID.
    // "The affinity at {at} of the SRAT is of the APIC ID, X2APIC ID or UID {point:d}, which no processor of the MADT
    // has."
    // This row: an enabled affinity of an APIC ID. Applies if all processors are read.
    rule!(118 AffinityNowhere, nowhere in SRAT_ENTRIES where
        OTHER_PROCESSORS_READ, OTHER_MADT_WHOLE, OTHER_MADT_LENGTHS: PLACED_APIC_IDS
        among other MADT_ENTRIES APIC_IDS),
    // the same of one for a UID
    rule!(118 AffinityNowhere, nowhere in SRAT_ENTRIES where
        OTHER_PROCESSORS_READ, OTHER_MADT_WHOLE, OTHER_MADT_LENGTHS: PLACED_UIDS
        among other MADT_ENTRIES UIDS),
    // 177 ItsNowhere, likely wrong (5.2.16.5): the SRAT has an ITS that the MADT does not have.
    // Numbers: `at` is the structure's offset in the SRAT, `point` is its ITS ID.
    // "The affinity at {at} of the SRAT is of the ITS {point:d}, which the MADT does not have."
    rule!(177 ItsNowhere, nowhere in SRAT_ENTRIES where
        OTHER_ITS_READ, OTHER_MADT_WHOLE, OTHER_MADT_LENGTHS:
        {
            ITS_AFFINITY => at 0 shows 0, ITS_AFFINITY_ID
        }
        among other MADT_ENTRIES {
            ITS => at 0 shows 0, ITS_ID
        }),
];

/// Rules on the SRAT with the SLIT, if that has a cell for each pair of localities and nothing else.
pub static SRAT_WITH_SLIT: [Row<'static>; 1] = [
    // 120 DomainPastSlit, likely wrong (5.2.17): a proximity domain of the SRAT is no locality of the SLIT.
    // Numbers: `at` is the offset in the SRAT, `other` is N, `point` is the domain.
    // "The structure at {at} of the SRAT has the proximity domain {point:d}, and the number of localities of the
    // SLIT is {other:d}."
    // Looked at are what is enabled, and the affinities of an ITS.
    rule!(120 DomainPastSlit, given in SRAT_ENTRIES where
        (some other TABLE: { WHOLE if (length own - 44) == (LOCALITIES * LOCALITIES) }):
    {
        APIC_AFFINITY if (APIC_AFFINITY_FLAGS & 0b1) != 0
            && (APIC_AFFINITY_DOMAIN + 256 * APIC_AFFINITY_DOMAIN_HIGH) >= (other LOCALITIES)
            => at 0 shows (other LOCALITIES), (APIC_AFFINITY_DOMAIN + 256 * APIC_AFFINITY_DOMAIN_HIGH);
        MEMORY if (MEMORY_FLAGS & 0b1) != 0 && MEMORY_DOMAIN >= (other LOCALITIES)
            => at 0 shows (other LOCALITIES), MEMORY_DOMAIN;
        X2APIC_AFFINITY if (X2APIC_AFFINITY_FLAGS & 0b1) != 0 && X2APIC_AFFINITY_DOMAIN >= (other LOCALITIES)
            => at 0 shows (other LOCALITIES), X2APIC_AFFINITY_DOMAIN;
        GICC_AFFINITY if (GICC_AFFINITY_FLAGS & 0b1) != 0 && GICC_AFFINITY_DOMAIN >= (other LOCALITIES)
            => at 0 shows (other LOCALITIES), GICC_AFFINITY_DOMAIN;
        ITS_AFFINITY if ITS_AFFINITY_DOMAIN >= (other LOCALITIES)
            => at 0 shows (other LOCALITIES), ITS_AFFINITY_DOMAIN;
        INITIATOR if (INITIATOR_FLAGS & 0b1) != 0 && INITIATOR_DOMAIN >= (other LOCALITIES)
            => at 0 shows (other LOCALITIES), INITIATOR_DOMAIN;
        PORT if (PORT_FLAGS & 0b1) != 0 && PORT_DOMAIN >= (other LOCALITIES)
            => at 0 shows (other LOCALITIES), PORT_DOMAIN;
        RINTC_AFFINITY if (RINTC_AFFINITY_FLAGS & 0b1) != 0 && RINTC_AFFINITY_DOMAIN >= (other LOCALITIES)
            => at 0 shows (other LOCALITIES), RINTC_AFFINITY_DOMAIN
    }),
];
