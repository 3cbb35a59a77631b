//! Advice: what breaks none of the statements, but is probably wrong.

ghost use Rattle.std.specs.Prelude.{◌≡◌, ◌≢◌, IsNone, IfSome};
ghost use Rattle.acpi_lint.specs.Rules.Rows.{AreRows, rule_name, rule_named, rule_number, rule_numbered, rule_place};
ghost use Rattle.acpi_lint.specs.declared.rule.Rule.{Rule};

/// A rule of advice. A set of tables may have a reason to break a rule, so none is a fault. A processor is usable if it
/// is Enabled or Online Capable. Sections are those of ACPI 6.5.
#[derive(Clone, Copy, Debug, PartialEq, Eq)]
pub enum Rule {
    // begin: rules, made by scripts/lists.py
    /// An address is listed twice (5.2.7, 5.2.8).
    ListedTwice,
    /// A second table of a kind is listed, of which only the first is read (5.2).
    SecondTable,
    /// A DSDT or FACS is listed, which only the FADT should name (5.2.9).
    ListedApart,
    /// The FADT is too short for its Revision (5.2.9).
    FadtOfRevision,
    /// FIRMWARE_CTRL and X_FIRMWARE_CTRL differ (5.2.9).
    FacsDiffers,
    /// DSDT and X_DSDT differ (5.2.9).
    DsdtDiffers,
    /// The two fields of a register block give different I/O ports (5.2.9).
    BlockDiffers,
    /// No I/O APIC serves the interrupt number of SCI_INT (5.2.9, 5.2.12.5).
    SciNowhere,
    /// Two usable processors have the same UID (5.2.12).
    SameUid,
    /// Two usable processors have the same APIC ID, X2APIC ID or core ID (5.2.12).
    SameApicId,
    /// An I/O APIC has the address 0 (5.2.12.3).
    IoApicAtZero,
    /// Two I/O APICs have the same ID (5.2.12.3).
    SameIoApicId,
    /// Two I/O APICs have the same address (5.2.12.3).
    SameIoApicAddress,
    /// A Local APIC NMI or Local x2APIC NMI names a UID that no processor has (5.2.12.7, 5.2.12.13).
    NmiNowhere,
    /// There is a second GIC Distributor (5.2.12.15).
    SecondGicd,
    /// No processor is usable (5.2.12).
    NoProcessor,
    /// Two affinities put the processor of one UID in two proximity domains (5.2.16.4).
    TwoUidDomains,
    /// The SRAT has a processor that the MADT does not have (5.2.16).
    AffinityNowhere,
    /// A usable processor is not in the SRAT, which has affinities (5.2.16).
    NoDomain,
    /// A proximity domain of the SRAT is no locality of the SLIT (5.2.17).
    DomainPastSlit,
    /// The distance between two localities depends on the direction (5.2.17).
    SlitDiffers,
    /// Two leaves of the PPTT have the same ACPI Processor ID (5.2.30.1).
    SameLeaf,
    /// A cache has no sets, or a line size that is no power of two (5.2.30.2).
    CacheShape,
    /// Two caches have the same Cache ID (5.2.30.2).
    SameCacheId,
    /// A usable processor has no leaf in the PPTT, which has nodes (5.2.30.1).
    NoLeaf,
    /// A leaf's ACPI Processor ID is no UID, and not all processors are of x86 (5.2.30.1).
    LeafNowhere,
    /// A structure of the MADT of a type or length that is not read (5.2.12).
    MadtUnread,
    /// A structure of the SRAT of a type or length that is not read (5.2.16).
    SratUnread,
    /// A slot of the root table is 0 (5.2.7, 5.2.8).
    NullSlot,
    /// The RSDT and the XSDT list different numbers of tables with a signature (5.2.7).
    RsdtDiffers,
    /// Two structures, the RSDP or tables, share bytes of memory (5.2).
    TablesOverlap,
    /// The FADT names no DSDT (5.2.9).
    NoDsdt,
    /// The DSDT has another signature, a wrong Length or a wrong checksum (5.2.11.1).
    DsdtWrong,
    /// PM1a_EVT_BLK or PM1a_CNT_BLK is missing (5.2.9).
    NoPm1Block,
    /// The length of a register block is not the width of its X_ structure (5.2.9).
    BlockWidth,
    /// A register block has an address and no length, or a length and no address (5.2.9).
    HalfBlock,
    /// Two register blocks share an I/O port (5.2.9).
    PortsOverlap,
    /// A register is at an I/O port above 0xffff (5.2.9).
    PortPastEnd,
    /// GPE1_BASE is an event number of the GPE0 block (5.2.9).
    GpeOverlap,
    /// SMI_CMD cannot switch between legacy mode and ACPI mode, or is 0 and its values are not (5.2.9).
    SmiHalf,
    /// SCI_INT is 0 (5.2.9).
    SciZero,
    /// The reset register is supported and has the address 0 (5.2.9).
    ResetNowhere,
    /// The MADT is of Arm or RISC-V, and the FADT is not of reduced hardware or is too old (5.2.9).
    FadtForArch,
    /// A sleep register of reduced hardware has no address, or not 8 bits from bit 0 on (5.2.9).
    SleepRegister,
    /// A field of the FADT has a reserved value (5.2.9).
    FadtReserved,
    /// A field of the FACS has a reserved value (5.2.10).
    FacsReserved,
    /// A field of the RSDP has a reserved value (5.2.5.3).
    RsdpReserved,
    /// A text of a table's header has a byte that is not printable (5.2.6).
    HeaderText,
    /// A second table of a kind is listed that should be listed once (5.2.6).
    SecondOther,
    /// A usable local x2APIC and a usable local APIC both have an ID below 255 (5.2.12.12).
    X2ApicBelow255,
    /// A usable processor has the ID of a broadcast (5.2.12.2, 5.2.12.12).
    BroadcastId,
    /// A processor is Online Capable, which the FADT's version does not have (5.2.12.2, 5.2.12.12, 5.2.12.14).
    CapableTooEarly,
    /// A processor is both Enabled and Online Capable (5.2.12.2, 5.2.12.12, 5.2.12.14).
    EnabledAndCapable,
    /// An override is for an interrupt above 15 that is not SCI_INT (5.2.12.5).
    OverridePastIsa,
    /// The override of ISA interrupt 0, the timer, is level-triggered (5.2.12.5).
    TimerLevel,
    /// Two ISA interrupts are overridden with one interrupt number (5.2.12.5).
    TwoSourcesOneGsi,
    /// An NMI is connected to another input than LINT1 (5.2.12.7, 5.2.12.13).
    LintNotOne,
    /// Overrides or NMI sources are there, and no I/O APIC (5.2.12.3).
    NoIoApic,
    /// There are GIC CPU interfaces, and no GIC Distributor (5.2.12.15).
    NoDistributor,
    /// The GIC has version 3 or 4, and no redistributor (5.2.12.17).
    NoRedistributor,
    /// The ranges of redistributors are too small for the usable processors (5.2.12.17).
    GicrTooSmall,
    /// Two GIC CPU interfaces of a GIC of version 1 or 2 have different base addresses (5.2.12.14).
    GiccBaseDiffers,
    /// Two usable processors have the same MPIDR (5.2.12.14).
    SameMpidr,
    /// A usable processor's MPIDR has a reserved bit set (5.2.12.14).
    MpidrReserved,
    /// A range of redistributors has the length 0 (5.2.12.17).
    GicrEmpty,
    /// Two ITS have the same ID (5.2.12.18).
    SameIts,
    /// Two GIC MSI frames have the same ID (5.2.12.16).
    SameMsiFrame,
    /// Two structures of the GIC share an address (5.2.12.15).
    GicOverlap,
    /// A processor names a redistributor, and ranges of redistributors are there (5.2.12.14, 5.2.12.17).
    RedistributorTwice,
    /// There are several processors and neither PSCI nor a parking protocol (5.2.12.14).
    NoBootMethod,
    /// Two usable harts have the same ID.
    SameHart,
    /// A field of the MADT has a reserved value (5.2.12).
    MadtReserved,
    /// An SRAT with affinities has no enabled memory range of a length above 0 (5.2.16.2).
    NoMemoryRange,
    /// An enabled memory range has the length 0 (5.2.16.2).
    EmptyRange,
    /// A Generic Initiator is not enabled (5.2.16.6).
    InitiatorOff,
    /// A domain above 255 is in an SRAT of a Revision below 2 (5.2.16).
    DomainPastRevision,
    /// The SRAT has an ITS that the MADT does not have (5.2.16.5).
    ItsNowhere,
    /// A field of the SRAT has a reserved value (5.2.16).
    SratReserved,
    /// The distance of a locality from another one is 10, that from itself (5.2.17).
    RemoteAsLocal,
    /// A processor that no node names as Parent is not marked as a leaf (5.2.30.1).
    LeafUnflagged,
    /// A leaf is the Parent of a node (5.2.30.1).
    LeafAsParent,
    /// No node from a leaf to its root is a package (5.2.30.1).
    NoPackage,
    /// A cache's size or associativity is 0, or its size is not sets * ways * line size (5.2.30.2).
    CacheNumbers,
    /// A field of the PPTT has a reserved value (5.2.30).
    PpttReserved,
    /// The MCFG's Length is not 44 plus 16 for each of one or more entries (PCI Firmware Specification 3.3, 4.1.2).
    McfgLength,
    /// An entry of the MCFG has a base address that is 0 or no multiple of 1 MiB (PCI Firmware Specification 3.3,
    /// 4.1.2).
    EcamAddress,
    /// An entry of the MCFG has an end bus number below its start bus number (PCI Firmware Specification 3.3, 4.1.2).
    BusesReversed,
    /// The address range of an entry of the MCFG ends above the highest address (PCI Firmware Specification 3.3,
    /// 4.1.2).
    EcamWraps,
    /// The MCFG has Revision 0, and an entry's base address is not below 0xffffffff.
    EcamTooHigh,
    /// Two entries of the MCFG have the same bus of the same PCI segment (PCI Firmware Specification 3.3, 4.1.2).
    SameBus,
    /// The ECAMs of two entries of the MCFG share an address (PCI Firmware Specification 3.3, 4.1.2).
    EcamOverlap,
    /// The HPET is shorter than 56 bytes (IA-PC HPET 1.0a, 3.2.4).
    HpetLength,
    /// The HPET's base address is not in memory (IA-PC HPET 1.0a, 3.2.4).
    HpetSpace,
    /// The HPET's base address is 0, has its halves swapped, or is no multiple of 1024 (IA-PC HPET 1.0a, 3.2.4, 2.3).
    HpetAddress,
    /// The HMAT is shorter than 40 bytes, or its Revision is neither 1 nor 2 (5.2.28).
    HmatHeader,
    /// After the last structure of the HMAT there are bytes that are not a structure (5.2.28).
    HmatCut,
    /// A structure of the HMAT does not have the length of its type, or is too short for its lists (5.2.28.3 to
    /// 5.2.28.5).
    HmatLength,
    /// A latency and bandwidth structure of the HMAT has a reserved data type (5.2.28.4).
    HmatDataType,
    /// A latency and bandwidth structure of the HMAT has a reserved memory hierarchy (5.2.28.4).
    HmatHierarchy,
    /// A latency and bandwidth structure of the HMAT has the base unit 0 (5.2.28.4).
    HmatUnit,
    /// A latency or bandwidth of the HMAT does not fit into 32 bits (5.2.28.4).
    HmatTooLarge,
    /// A latency and bandwidth structure of the HMAT lists an initiator or a target twice (5.2.28.4).
    HmatSameDomain,
    /// A structure of the HMAT has an initiator or memory in a domain that the SRAT does not have (5.2.28.3).
    HmatProximity,
    /// A latency and bandwidth structure of the HMAT has an initiator or a target in a domain that the SRAT does not
    /// have (5.2.28.4).
    HmatDomainNowhere,
    /// A memory side cache of the HMAT is of a domain in which the SRAT has no memory (5.2.28.5).
    HmatCacheNowhere,
    /// A memory side cache of the HMAT has reserved attributes, or a level above its number of levels (5.2.28.5).
    HmatCache,
    /// There is an HMAT, and no SRAT is listed (5.2.28).
    HmatAlone,
    /// The GTDT is too short for its Revision (5.2.25).
    GtdtLength,
    /// The MADT has a GIC CPU interface, and no GTDT is listed (5.2.25).
    NoGtdt,
    /// The GTDT has neither the non-secure EL1 timer nor the virtual timer (5.2.25).
    NoTimer,
    /// The GTDT gives a timer of each processor an interrupt that is no PPI (5.2.25).
    TimerNoPpi,
    /// Two timers of the GTDT have the same interrupt (5.2.25).
    SameTimer,
    /// The GTDT has fewer platform timers than it says, or one of an unknown type (5.2.25).
    PlatformTimerCut,
    /// A GT Block of the GTDT does not have 1 to 8 frames that end with it (5.2.25.1).
    TimerBlock,
    /// A frame of a GT Block of the GTDT has a number above 7, or is non-secure and has no address or no interrupt
    /// (5.2.25.1).
    TimerFrame,
    /// Two frames of a GT Block of the GTDT have the same number (5.2.25.1).
    SameFrame,
    /// A watchdog of the GTDT does not have 28 bytes, or one of its addresses is 0 (5.2.25.2).
    Watchdog,
    /// The GTDT gives a platform timer an interrupt that is no SPI (5.2.25.1, 5.2.25.2).
    TimerNoSpi,
    /// Two ranges of registers of the GTDT's platform timers share an address (5.2.25.1, 5.2.25.2).
    TimerOverlap,
    /// The DMAR is shorter than 48 bytes, or its Host Address Width is not 11 to 63 (Intel VT-d specification, 8.1).
    DmarWidth,
    /// After the last structure of the DMAR there are bytes that are not a structure (Intel VT-d specification, 8.1).
    DmarCut,
    /// A structure of the DMAR is shorter than the fields of its type (Intel VT-d specification, 8.3 to 8.9).
    DmarShort,
    /// The DMAR has no DRHD (Intel VT-d specification, 8.3).
    NoDrhd,
    /// After the last device scope of a structure of the DMAR there are bytes that are not a device scope (Intel VT-d
    /// specification, 8.3.1).
    ScopeCut,
    /// A device scope of the DMAR has an unknown type or an odd length, or a step of its path has a Device above 31 or
    /// a Function above 7 (Intel VT-d specification, 8.3.1).
    ScopeType,
    /// A DRHD has a Register Base Address that is 0 or no multiple of 4096 (Intel VT-d specification, 8.3).
    DrhdAddress,
    /// The registers of two DRHDs share an address (Intel VT-d specification, 8.3).
    DrhdOverlap,
    /// Two DRHDs of one segment have INCLUDE_PCI_ALL set, or two ATSRs of one segment have ALL_PORTS set (Intel VT-d
    /// specification, 8.3, 8.5).
    SecondIncludeAll,
    /// A DRHD follows one of the same segment that has INCLUDE_PCI_ALL set, and does not have it set itself (Intel VT-d
    /// specification, 8.3).
    IncludeAllNotLast,
    /// The memory of an RMRR does not begin or end at a multiple of 4096, or its limit is not above its base (Intel
    /// VT-d specification, 8.4).
    RmrrRange,
    /// An RMRR has no device scope (Intel VT-d specification, 8.4).
    RmrrNoDevice,
    /// An RHSA has a Register Base Address that no DRHD has (Intel VT-d specification, 8.6).
    RhsaNowhere,
    /// An RHSA is in a proximity domain that the SRAT does not have (Intel VT-d specification, 8.6).
    RhsaDomain,
    /// Two RHSAs have the same Register Base Address (Intel VT-d specification, 8.6).
    SameRhsa,
    /// The ACPI Object Name of an ANDD has no byte that is 0 (Intel VT-d specification, 8.7).
    AnddName,
    /// A device scope names an ANDD that the DMAR does not have, or no DRHD has a device scope of an ANDD (Intel VT-d
    /// specification, 8.7).
    AnddNowhere,
    /// Interrupts are remapped, and an I/O APIC of the MADT is in no device scope of a DRHD (Intel VT-d specification,
    /// 8.3.1).
    IoApicUnmapped,
    /// Two device scopes of DRHDs are of the same I/O APIC (Intel VT-d specification, 8.3.1).
    SameScope,
    /// The IVRS is shorter than 48 bytes, or after its last block there are bytes that are not a block (AMD 48882,
    /// 5.2.1).
    IvrsCut,
    /// A block of the IVRS is shorter than the fields of its type (AMD 48882, 5.2.2, 5.2.3).
    IvrsShort,
    /// The IVRS has no IVHD (AMD 48882, 5.2.2).
    NoIvhd,
    /// An IVHD has an IOMMU Base Address that is 0 or no multiple of 16384 (AMD 48882, 5.2.2).
    IvhdAddress,
    /// Two IVHDs of one type and one PCI Segment Group have the same DeviceID (AMD 48882, 5.2.2).
    SameIvhd,
    /// Two IVHDs have the same IOMMU Base Address, or the same PCI Segment Group and DeviceID, and not both (AMD 48882,
    /// 5.2.2).
    IvhdDiffers,
    /// After the last device entry of an IVHD there are bytes that are not a device entry (AMD 48882, 5.2.2).
    IvhdEntryCut,
    /// A device entry of the IVRS is of a type that its block does not have, or has a Variety, a Hardware ID or a UID
    /// that is reserved (AMD 48882, 5.2.2).
    IvhdEntryType,
    /// A device entry of the IVRS starts a range that the next one does not end, or ends one that the one before does
    /// not start, or that starts at a higher DeviceID (AMD 48882, 5.2.2).
    IvhdRange,
    /// The IVHDs of one type have special devices that are I/O APICs, and an I/O APIC of the MADT is none of them (AMD
    /// 48882, 5.2.2).
    IoApicNotInIvrs,
    /// Two special devices of one Variety, in IVHDs of one type, have the same Handle (AMD 48882, 5.2.2).
    SameSpecial,
    /// An IVMD has reserved flags or none of a mapping, an empty range of memory or one that ends above the highest
    /// address, or a range of devices that ends below its start (AMD 48882, 5.2.3).
    IvmdRange,
    /// The SPCR is too short for its Revision (Microsoft's SPCR 1.10).
    SpcrLength,
    /// The SPCR's base address is neither in memory nor in I/O ports, or is in memory with an access size above 3 (32
    /// bits) (Microsoft's SPCR 1.10).
    SpcrAddress,
    /// The SPCR's baud rate has a reserved value, and there is no precise baud rate (Microsoft's SPCR 1.10).
    SpcrBaud,
    /// The SPCR names an interrupt that its interrupt controller does not have, or another controller than the MADT's
    /// GIC (Microsoft's SPCR 1.10).
    SpcrGsi,
    /// Exactly one of the SPCR's PCI device ID and PCI vendor ID is 0xffff, or its PCI device or function number is too
    /// large (Microsoft's SPCR 1.10).
    SpcrPci,
    /// The SPCR's namespace string is too short, does not lie within the table, or does not end with 0 (Microsoft's
    /// SPCR 1.10).
    SpcrName,
    /// The OEMID of the RSDP has a byte that is not printable (5.2.5.3).
    RsdpText,
    /// The root table has a Revision that is not 1, or a text of its header has a byte that is not printable (5.2.7,
    /// 5.2.8).
    RootHeader,
    /// A text of the DSDT's header has a byte that is not printable (5.2.6).
    DsdtText,
    /// The FADT is longer than one of its Revision, or has Revision 0 (5.2.9).
    FadtPastRevision,
    /// ARM_BOOT_ARCH is not 0 in a FADT older than 5.1, which does not have it (5.2.9).
    ArmBootEarly,
    /// The hardware is reduced, and SMI_CMD or a register block has an address (5.2.9).
    FixedInReduced,
    /// SMI_CMD is there, and one of ACPI_ENABLE and ACPI_DISABLE is 0 (5.2.9).
    SmiHandshake,
    /// S4BIOS_REQ of the FADT and S4BIOS_F of the FACS do not agree (5.2.9, 5.2.10).
    S4BiosDiffers,
    /// A GPE block has events above 255, for which there are no methods (5.6.4.1).
    GpePastEnd,
    /// A register block is longer than a generic address structure can describe (5.2.9, 5.2.3.2).
    BlockTooLong,
    /// A register block is neither in memory nor in I/O ports (5.2.9).
    BlockSpace,
    /// A register block has another width than the usual one (4.8.3).
    BlockUsualWidth,
    /// A sleep register has an address, and the hardware is not reduced (5.2.9).
    SleepNotReduced,
    /// The MADT is of RISC-V, and the FADT is older than 6.6 (5.2.9).
    FadtForRiscv,
    /// A GIC CPU interface has fewer than the 76 bytes of ACPI 5.1 (5.2.12.14).
    GiccShort,
    /// An enabled processor names no redistributor, and others do (5.2.12.14).
    GiccNoGicr,
    /// A processor is Online Capable, and there is no range of redistributors (5.2.12.14).
    CapableNoGicr,
    /// The virtual interface, the maintenance interrupt or the mode of a usable processor is not that of the first one
    /// (5.2.12.14).
    GiccDiffers,
    /// Two enabled processors name the same redistributor (5.2.12.14).
    SameGicrBase,
    /// A GIC CPU interface has a version of the parking protocol above 1 (5.2.12.14).
    ParkingVersion,
    /// An interrupt of a processor's profiling or trace is not private to it (5.2.12.14).
    GiccNoPpi,
    /// A structure of LoongArch or RISC-V has a version that is not 1 (5.2.12.20 to 5.2.12.26).
    PicVersion,
    /// A structure of a GIC, of LoongArch or of RISC-V has a reserved value (5.2.12.14 to 5.2.12.20).
    FurtherReserved,
    /// A usable hart has an ID of all ones, which no hart has.
    HartInvalid,
    /// A Multiprocessor Wakeup structure is not of the length of its version, or has a wrong version, reserved bytes or
    /// address (5.2.12.19).
    WakeupMailbox,
    /// A Local APIC Address Override has the address 0 (5.2.12.8).
    LapicAtZero,
    /// The MADT has structures that its Revision does not have (5.2.12).
    MadtRevision,
    /// A structure of a GIC, of RISC-V, or of an initiator or a port has a reserved value (5.2.16.4 to 5.2.16.7).
    AffinityReserved,
    /// A device handle is neither of ACPI nor of PCI (5.2.16.6, 5.2.16.7).
    DeviceHandle,
    /// An ITS is in a proximity domain that nothing else is in (5.2.16.5).
    ItsDomain,
    /// A structure of the PPTT of a type that is not read (5.2.30).
    PpttUnread,
    /// A cache has the Cache ID 0, and its flags say that the ID is valid (5.2.30.2).
    CacheIdZero,
    /// A node names two caches of one type, and neither is the Next Level of a cache that it names (5.2.30.2).
    SameCacheType,
    // end: rules
}

/// Each rule with its number, in the order of their numbers.
const ROWS: [(Rule, u16); Rule::COUNT] = [
    // begin: rules, made by scripts/lists.py
    (Rule::ListedTwice, 101),
    (Rule::SecondTable, 102),
    (Rule::ListedApart, 103),
    (Rule::FadtOfRevision, 104),
    (Rule::FacsDiffers, 105),
    (Rule::DsdtDiffers, 106),
    (Rule::BlockDiffers, 107),
    (Rule::SciNowhere, 108),
    (Rule::SameUid, 109),
    (Rule::SameApicId, 110),
    (Rule::IoApicAtZero, 111),
    (Rule::SameIoApicId, 112),
    (Rule::SameIoApicAddress, 113),
    (Rule::NmiNowhere, 114),
    (Rule::SecondGicd, 115),
    (Rule::NoProcessor, 116),
    (Rule::TwoUidDomains, 117),
    (Rule::AffinityNowhere, 118),
    (Rule::NoDomain, 119),
    (Rule::DomainPastSlit, 120),
    (Rule::SlitDiffers, 121),
    (Rule::SameLeaf, 122),
    (Rule::CacheShape, 123),
    (Rule::SameCacheId, 124),
    (Rule::NoLeaf, 125),
    (Rule::LeafNowhere, 126),
    (Rule::MadtUnread, 127),
    (Rule::SratUnread, 128),
    (Rule::NullSlot, 129),
    (Rule::RsdtDiffers, 130),
    (Rule::TablesOverlap, 131),
    (Rule::NoDsdt, 132),
    (Rule::DsdtWrong, 133),
    (Rule::NoPm1Block, 134),
    (Rule::BlockWidth, 135),
    (Rule::HalfBlock, 136),
    (Rule::PortsOverlap, 137),
    (Rule::PortPastEnd, 138),
    (Rule::GpeOverlap, 139),
    (Rule::SmiHalf, 140),
    (Rule::SciZero, 141),
    (Rule::ResetNowhere, 142),
    (Rule::FadtForArch, 143),
    (Rule::SleepRegister, 144),
    (Rule::FadtReserved, 145),
    (Rule::FacsReserved, 146),
    (Rule::RsdpReserved, 147),
    (Rule::HeaderText, 148),
    (Rule::SecondOther, 149),
    (Rule::X2ApicBelow255, 150),
    (Rule::BroadcastId, 151),
    (Rule::CapableTooEarly, 152),
    (Rule::EnabledAndCapable, 153),
    (Rule::OverridePastIsa, 154),
    (Rule::TimerLevel, 155),
    (Rule::TwoSourcesOneGsi, 156),
    (Rule::LintNotOne, 157),
    (Rule::NoIoApic, 158),
    (Rule::NoDistributor, 159),
    (Rule::NoRedistributor, 160),
    (Rule::GicrTooSmall, 161),
    (Rule::GiccBaseDiffers, 162),
    (Rule::SameMpidr, 163),
    (Rule::MpidrReserved, 164),
    (Rule::GicrEmpty, 165),
    (Rule::SameIts, 166),
    (Rule::SameMsiFrame, 167),
    (Rule::GicOverlap, 168),
    (Rule::RedistributorTwice, 169),
    (Rule::NoBootMethod, 170),
    (Rule::SameHart, 171),
    (Rule::MadtReserved, 172),
    (Rule::NoMemoryRange, 173),
    (Rule::EmptyRange, 174),
    (Rule::InitiatorOff, 175),
    (Rule::DomainPastRevision, 176),
    (Rule::ItsNowhere, 177),
    (Rule::SratReserved, 178),
    (Rule::RemoteAsLocal, 179),
    (Rule::LeafUnflagged, 180),
    (Rule::LeafAsParent, 181),
    (Rule::NoPackage, 182),
    (Rule::CacheNumbers, 183),
    (Rule::PpttReserved, 184),
    (Rule::McfgLength, 185),
    (Rule::EcamAddress, 186),
    (Rule::BusesReversed, 187),
    (Rule::EcamWraps, 188),
    (Rule::EcamTooHigh, 189),
    (Rule::SameBus, 190),
    (Rule::EcamOverlap, 191),
    (Rule::HpetLength, 192),
    (Rule::HpetSpace, 193),
    (Rule::HpetAddress, 194),
    (Rule::HmatHeader, 195),
    (Rule::HmatCut, 196),
    (Rule::HmatLength, 197),
    (Rule::HmatDataType, 198),
    (Rule::HmatHierarchy, 199),
    (Rule::HmatUnit, 200),
    (Rule::HmatTooLarge, 201),
    (Rule::HmatSameDomain, 202),
    (Rule::HmatProximity, 203),
    (Rule::HmatDomainNowhere, 204),
    (Rule::HmatCacheNowhere, 205),
    (Rule::HmatCache, 206),
    (Rule::HmatAlone, 207),
    (Rule::GtdtLength, 208),
    (Rule::NoGtdt, 209),
    (Rule::NoTimer, 210),
    (Rule::TimerNoPpi, 211),
    (Rule::SameTimer, 212),
    (Rule::PlatformTimerCut, 213),
    (Rule::TimerBlock, 214),
    (Rule::TimerFrame, 215),
    (Rule::SameFrame, 216),
    (Rule::Watchdog, 217),
    (Rule::TimerNoSpi, 218),
    (Rule::TimerOverlap, 219),
    (Rule::DmarWidth, 240),
    (Rule::DmarCut, 241),
    (Rule::DmarShort, 242),
    (Rule::NoDrhd, 243),
    (Rule::ScopeCut, 244),
    (Rule::ScopeType, 245),
    (Rule::DrhdAddress, 246),
    (Rule::DrhdOverlap, 247),
    (Rule::SecondIncludeAll, 248),
    (Rule::IncludeAllNotLast, 249),
    (Rule::RmrrRange, 250),
    (Rule::RmrrNoDevice, 251),
    (Rule::RhsaNowhere, 252),
    (Rule::RhsaDomain, 253),
    (Rule::SameRhsa, 254),
    (Rule::AnddName, 255),
    (Rule::AnddNowhere, 256),
    (Rule::IoApicUnmapped, 257),
    (Rule::SameScope, 258),
    (Rule::IvrsCut, 259),
    (Rule::IvrsShort, 260),
    (Rule::NoIvhd, 261),
    (Rule::IvhdAddress, 262),
    (Rule::SameIvhd, 263),
    (Rule::IvhdDiffers, 264),
    (Rule::IvhdEntryCut, 265),
    (Rule::IvhdEntryType, 266),
    (Rule::IvhdRange, 267),
    (Rule::IoApicNotInIvrs, 268),
    (Rule::SameSpecial, 269),
    (Rule::IvmdRange, 270),
    (Rule::SpcrLength, 271),
    (Rule::SpcrAddress, 272),
    (Rule::SpcrBaud, 273),
    (Rule::SpcrGsi, 274),
    (Rule::SpcrPci, 275),
    (Rule::SpcrName, 276),
    (Rule::RsdpText, 279),
    (Rule::RootHeader, 280),
    (Rule::DsdtText, 281),
    (Rule::FadtPastRevision, 282),
    (Rule::ArmBootEarly, 283),
    (Rule::FixedInReduced, 284),
    (Rule::SmiHandshake, 285),
    (Rule::S4BiosDiffers, 286),
    (Rule::GpePastEnd, 287),
    (Rule::BlockTooLong, 288),
    (Rule::BlockSpace, 289),
    (Rule::BlockUsualWidth, 290),
    (Rule::SleepNotReduced, 291),
    (Rule::FadtForRiscv, 292),
    (Rule::GiccShort, 293),
    (Rule::GiccNoGicr, 294),
    (Rule::CapableNoGicr, 295),
    (Rule::GiccDiffers, 296),
    (Rule::SameGicrBase, 297),
    (Rule::ParkingVersion, 298),
    (Rule::GiccNoPpi, 299),
    (Rule::PicVersion, 300),
    (Rule::FurtherReserved, 301),
    (Rule::HartInvalid, 302),
    (Rule::WakeupMailbox, 303),
    (Rule::LapicAtZero, 304),
    (Rule::MadtRevision, 305),
    (Rule::AffinityReserved, 306),
    (Rule::DeviceHandle, 307),
    (Rule::ItsDomain, 308),
    (Rule::PpttUnread, 309),
    (Rule::CacheIdZero, 310),
    (Rule::SameCacheType, 311),
    // end: rules
];

/// The same as a slice.
fn rows() -> &'static [(Rule, u16)]
    ensures { AreRows result.now }
{
    ROWS.as_slice()
}

impl Rule {
    /// How many rules there are.
    pub const COUNT: usize = 189;

    /// The lowest number of a rule.
    pub const FIRST: u16 = 101;

    /// The highest number of a rule. Numbers between the lowest and the highest may be unused.
    pub const LAST: u16 = 311;

    /// The rule with this number.
    pub fn new(number: u16) -> Option<Rule>
        ensures found { result ≡ rule_numbered number }
        ensures same { IfSome result (λ rule. rule_number rule ≡ number) }
        ensures none { IsNone result → (rule : Rule) → rule_number rule ≢ number }
    {
        for row in rows() {
            if row.1 == number {
                return Some(row.0);
            }
        }
        None
    }

    /// The rule with this name, as `name` returns it. Upper and lower case differ.
    pub fn from_name(name: &str) -> Option<Rule>
        ensures { result ≡ rule_named name.now }
    {
        for row in rows() {
            if row.0.name() == name {
                return Some(row.0);
            }
        }
        None
    }

    /// The rule's place among all of them, in the order of their numbers, from 0 on.
    pub fn place(self) -> usize
        ensures { result ≡ rule_place self }
    {
        self as usize
    }

    /// The rule's number, from 101 on.
    pub fn number(self) -> u16
        ensures { result ≡ rule_number self }
    {
        rows()[self.place()].1
    }

    /// The rule's name, as in a line of advice.
    // Apart from the table above, which the library for C needs: it has the names as one text, without references.
    pub fn name(self) -> &'static str
        ensures { result.now ≡ rule_name self }
    {
        match self {
            // begin: rules, made by scripts/lists.py
            Rule::ListedTwice => "ListedTwice",
            Rule::SecondTable => "SecondTable",
            Rule::ListedApart => "ListedApart",
            Rule::FadtOfRevision => "FadtOfRevision",
            Rule::FacsDiffers => "FacsDiffers",
            Rule::DsdtDiffers => "DsdtDiffers",
            Rule::BlockDiffers => "BlockDiffers",
            Rule::SciNowhere => "SciNowhere",
            Rule::SameUid => "SameUid",
            Rule::SameApicId => "SameApicId",
            Rule::IoApicAtZero => "IoApicAtZero",
            Rule::SameIoApicId => "SameIoApicId",
            Rule::SameIoApicAddress => "SameIoApicAddress",
            Rule::NmiNowhere => "NmiNowhere",
            Rule::SecondGicd => "SecondGicd",
            Rule::NoProcessor => "NoProcessor",
            Rule::TwoUidDomains => "TwoUidDomains",
            Rule::AffinityNowhere => "AffinityNowhere",
            Rule::NoDomain => "NoDomain",
            Rule::DomainPastSlit => "DomainPastSlit",
            Rule::SlitDiffers => "SlitDiffers",
            Rule::SameLeaf => "SameLeaf",
            Rule::CacheShape => "CacheShape",
            Rule::SameCacheId => "SameCacheId",
            Rule::NoLeaf => "NoLeaf",
            Rule::LeafNowhere => "LeafNowhere",
            Rule::MadtUnread => "MadtUnread",
            Rule::SratUnread => "SratUnread",
            Rule::NullSlot => "NullSlot",
            Rule::RsdtDiffers => "RsdtDiffers",
            Rule::TablesOverlap => "TablesOverlap",
            Rule::NoDsdt => "NoDsdt",
            Rule::DsdtWrong => "DsdtWrong",
            Rule::NoPm1Block => "NoPm1Block",
            Rule::BlockWidth => "BlockWidth",
            Rule::HalfBlock => "HalfBlock",
            Rule::PortsOverlap => "PortsOverlap",
            Rule::PortPastEnd => "PortPastEnd",
            Rule::GpeOverlap => "GpeOverlap",
            Rule::SmiHalf => "SmiHalf",
            Rule::SciZero => "SciZero",
            Rule::ResetNowhere => "ResetNowhere",
            Rule::FadtForArch => "FadtForArch",
            Rule::SleepRegister => "SleepRegister",
            Rule::FadtReserved => "FadtReserved",
            Rule::FacsReserved => "FacsReserved",
            Rule::RsdpReserved => "RsdpReserved",
            Rule::HeaderText => "HeaderText",
            Rule::SecondOther => "SecondOther",
            Rule::X2ApicBelow255 => "X2ApicBelow255",
            Rule::BroadcastId => "BroadcastId",
            Rule::CapableTooEarly => "CapableTooEarly",
            Rule::EnabledAndCapable => "EnabledAndCapable",
            Rule::OverridePastIsa => "OverridePastIsa",
            Rule::TimerLevel => "TimerLevel",
            Rule::TwoSourcesOneGsi => "TwoSourcesOneGsi",
            Rule::LintNotOne => "LintNotOne",
            Rule::NoIoApic => "NoIoApic",
            Rule::NoDistributor => "NoDistributor",
            Rule::NoRedistributor => "NoRedistributor",
            Rule::GicrTooSmall => "GicrTooSmall",
            Rule::GiccBaseDiffers => "GiccBaseDiffers",
            Rule::SameMpidr => "SameMpidr",
            Rule::MpidrReserved => "MpidrReserved",
            Rule::GicrEmpty => "GicrEmpty",
            Rule::SameIts => "SameIts",
            Rule::SameMsiFrame => "SameMsiFrame",
            Rule::GicOverlap => "GicOverlap",
            Rule::RedistributorTwice => "RedistributorTwice",
            Rule::NoBootMethod => "NoBootMethod",
            Rule::SameHart => "SameHart",
            Rule::MadtReserved => "MadtReserved",
            Rule::NoMemoryRange => "NoMemoryRange",
            Rule::EmptyRange => "EmptyRange",
            Rule::InitiatorOff => "InitiatorOff",
            Rule::DomainPastRevision => "DomainPastRevision",
            Rule::ItsNowhere => "ItsNowhere",
            Rule::SratReserved => "SratReserved",
            Rule::RemoteAsLocal => "RemoteAsLocal",
            Rule::LeafUnflagged => "LeafUnflagged",
            Rule::LeafAsParent => "LeafAsParent",
            Rule::NoPackage => "NoPackage",
            Rule::CacheNumbers => "CacheNumbers",
            Rule::PpttReserved => "PpttReserved",
            Rule::McfgLength => "McfgLength",
            Rule::EcamAddress => "EcamAddress",
            Rule::BusesReversed => "BusesReversed",
            Rule::EcamWraps => "EcamWraps",
            Rule::EcamTooHigh => "EcamTooHigh",
            Rule::SameBus => "SameBus",
            Rule::EcamOverlap => "EcamOverlap",
            Rule::HpetLength => "HpetLength",
            Rule::HpetSpace => "HpetSpace",
            Rule::HpetAddress => "HpetAddress",
            Rule::HmatHeader => "HmatHeader",
            Rule::HmatCut => "HmatCut",
            Rule::HmatLength => "HmatLength",
            Rule::HmatDataType => "HmatDataType",
            Rule::HmatHierarchy => "HmatHierarchy",
            Rule::HmatUnit => "HmatUnit",
            Rule::HmatTooLarge => "HmatTooLarge",
            Rule::HmatSameDomain => "HmatSameDomain",
            Rule::HmatProximity => "HmatProximity",
            Rule::HmatDomainNowhere => "HmatDomainNowhere",
            Rule::HmatCacheNowhere => "HmatCacheNowhere",
            Rule::HmatCache => "HmatCache",
            Rule::HmatAlone => "HmatAlone",
            Rule::GtdtLength => "GtdtLength",
            Rule::NoGtdt => "NoGtdt",
            Rule::NoTimer => "NoTimer",
            Rule::TimerNoPpi => "TimerNoPpi",
            Rule::SameTimer => "SameTimer",
            Rule::PlatformTimerCut => "PlatformTimerCut",
            Rule::TimerBlock => "TimerBlock",
            Rule::TimerFrame => "TimerFrame",
            Rule::SameFrame => "SameFrame",
            Rule::Watchdog => "Watchdog",
            Rule::TimerNoSpi => "TimerNoSpi",
            Rule::TimerOverlap => "TimerOverlap",
            Rule::DmarWidth => "DmarWidth",
            Rule::DmarCut => "DmarCut",
            Rule::DmarShort => "DmarShort",
            Rule::NoDrhd => "NoDrhd",
            Rule::ScopeCut => "ScopeCut",
            Rule::ScopeType => "ScopeType",
            Rule::DrhdAddress => "DrhdAddress",
            Rule::DrhdOverlap => "DrhdOverlap",
            Rule::SecondIncludeAll => "SecondIncludeAll",
            Rule::IncludeAllNotLast => "IncludeAllNotLast",
            Rule::RmrrRange => "RmrrRange",
            Rule::RmrrNoDevice => "RmrrNoDevice",
            Rule::RhsaNowhere => "RhsaNowhere",
            Rule::RhsaDomain => "RhsaDomain",
            Rule::SameRhsa => "SameRhsa",
            Rule::AnddName => "AnddName",
            Rule::AnddNowhere => "AnddNowhere",
            Rule::IoApicUnmapped => "IoApicUnmapped",
            Rule::SameScope => "SameScope",
            Rule::IvrsCut => "IvrsCut",
            Rule::IvrsShort => "IvrsShort",
            Rule::NoIvhd => "NoIvhd",
            Rule::IvhdAddress => "IvhdAddress",
            Rule::SameIvhd => "SameIvhd",
            Rule::IvhdDiffers => "IvhdDiffers",
            Rule::IvhdEntryCut => "IvhdEntryCut",
            Rule::IvhdEntryType => "IvhdEntryType",
            Rule::IvhdRange => "IvhdRange",
            Rule::IoApicNotInIvrs => "IoApicNotInIvrs",
            Rule::SameSpecial => "SameSpecial",
            Rule::IvmdRange => "IvmdRange",
            Rule::SpcrLength => "SpcrLength",
            Rule::SpcrAddress => "SpcrAddress",
            Rule::SpcrBaud => "SpcrBaud",
            Rule::SpcrGsi => "SpcrGsi",
            Rule::SpcrPci => "SpcrPci",
            Rule::SpcrName => "SpcrName",
            Rule::RsdpText => "RsdpText",
            Rule::RootHeader => "RootHeader",
            Rule::DsdtText => "DsdtText",
            Rule::FadtPastRevision => "FadtPastRevision",
            Rule::ArmBootEarly => "ArmBootEarly",
            Rule::FixedInReduced => "FixedInReduced",
            Rule::SmiHandshake => "SmiHandshake",
            Rule::S4BiosDiffers => "S4BiosDiffers",
            Rule::GpePastEnd => "GpePastEnd",
            Rule::BlockTooLong => "BlockTooLong",
            Rule::BlockSpace => "BlockSpace",
            Rule::BlockUsualWidth => "BlockUsualWidth",
            Rule::SleepNotReduced => "SleepNotReduced",
            Rule::FadtForRiscv => "FadtForRiscv",
            Rule::GiccShort => "GiccShort",
            Rule::GiccNoGicr => "GiccNoGicr",
            Rule::CapableNoGicr => "CapableNoGicr",
            Rule::GiccDiffers => "GiccDiffers",
            Rule::SameGicrBase => "SameGicrBase",
            Rule::ParkingVersion => "ParkingVersion",
            Rule::GiccNoPpi => "GiccNoPpi",
            Rule::PicVersion => "PicVersion",
            Rule::FurtherReserved => "FurtherReserved",
            Rule::HartInvalid => "HartInvalid",
            Rule::WakeupMailbox => "WakeupMailbox",
            Rule::LapicAtZero => "LapicAtZero",
            Rule::MadtRevision => "MadtRevision",
            Rule::AffinityReserved => "AffinityReserved",
            Rule::DeviceHandle => "DeviceHandle",
            Rule::ItsDomain => "ItsDomain",
            Rule::PpttUnread => "PpttUnread",
            Rule::CacheIdZero => "CacheIdZero",
            Rule::SameCacheType => "SameCacheType",
            // end: rules
        }
    }
}

/// Where a rule is broken: up to three numbers, which are offsets from a table's start, slots, addresses or values in
/// the tables, depending on the rule. Those that it does not use are 0.
#[derive(Clone, Copy, Debug, PartialEq, Eq)]
pub struct Advice {
    /// The rule.
    pub rule: Rule,
    /// Where: an offset from the start of the rule's table in bytes, or the number of a slot.
    pub at: u64,
    /// What it is compared with: another place, or another number.
    pub other: u64,
    /// A third number: an address, an ID, a domain, a length.
    pub point: u64,
}
