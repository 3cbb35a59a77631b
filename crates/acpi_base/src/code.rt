//! The codes of the faults that a check can find.

ghost use Rattle.std.specs.Prelude.{◌≡◌, ◌≤◌, ◌↔◌, length, IsSome, IfSome};
ghost use Rattle.acpi_base.specs.Codes.{all_codes, code_number, code_name, stage_of};

use crate::stage::Stage;

/// What is wrong with a set of tables. `docs/FAULTS.md` says what each fault means for an operating
/// system and what a firmware author fixes.
#[derive(Clone, Copy, Debug, PartialEq, Eq)]
pub enum Code {
    /// The 20 bytes at the RSDP's address are not all in the image.
    RsdpOut,
    /// The RSDP does not begin with "RSD PTR ".
    RsdpSignature,
    /// The checksum of the RSDP's first 20 bytes is wrong.
    RsdpSum,
    /// The RSDP has Revision 2 or more, and its 36 bytes are not all in the image.
    RsdpTailOut,
    /// The RSDP's Length is below 36.
    RsdpLength,
    /// The RSDP's Length bytes are not all in the image.
    RsdpLongOut,
    /// The RSDP's extended checksum is wrong.
    RsdpExtendedSum,
    /// The RSDP gives the address of neither an XSDT nor an RSDT.
    NoRoot,
    /// The header of the XSDT or RSDT is not all in the image.
    RootHeaderOut,
    /// The XSDT or RSDT has another signature.
    RootSignature,
    /// The Length of the XSDT or RSDT is below 36.
    RootLength,
    /// The XSDT or RSDT is not all in the image.
    RootOut,
    /// The XSDT or RSDT ends inside an entry.
    RootRagged,
    /// The checksum of the XSDT or RSDT is wrong.
    RootSum,
    /// The header of a listed table is not all in the image.
    TableHeaderOut,
    /// The Length of a listed table is below 36.
    TableLength,
    /// A listed table is not all in the image.
    TableOut,
    /// The checksum of a listed table is wrong.
    TableSum,
    /// No FADT is listed.
    NoFadt,
    /// The FADT's Length is below 116.
    FadtShort,
    /// PM1_EVT_LEN is below 4.
    PmEventLength,
    /// PM1_CNT_LEN is below 2.
    PmControlLength,
    /// PM_TMR_LEN is neither 0 nor 4.
    PmTimerLength,
    /// The length of a GPE block is odd.
    GpeLength,
    /// RESET_REG is not one that ACPI 6.5, 4.8.3.6 allows.
    ResetRegister,
    /// The hardware is not reduced, and the FADT gives no address of a FACS.
    NoFacs,
    /// The FACS's address is no multiple of 64.
    FacsAlign,
    /// The FACS's first 8 bytes are not all in the image.
    FacsHeaderOut,
    /// The FACS does not begin with "FACS".
    FacsSignature,
    /// The FACS's Length is below 64.
    FacsLength,
    /// The FACS is not all in the image.
    FacsOut,
    /// The MADT's Length is below 44.
    MadtShort,
    /// A structure of the MADT is cut off, or its length is below 2.
    MadtEntryCut,
    /// A structure of the MADT does not have the length of its type.
    MadtEntryLength,
    /// An Interrupt Source Override has a Bus other than 0.
    OverrideBus,
    /// MPS INTI Flags have a reserved polarity or trigger mode.
    ReservedInti,
    /// There is a second Local APIC Address Override.
    SecondAddressOverride,
    /// An interrupt number of an I/O APIC is above 2^32 - 1.
    GsiPastEnd,
    /// Two I/O APICs serve one interrupt number.
    GsiClash,
    /// Two overrides give one source two interrupt numbers.
    OverrideClash,
    /// The SRAT's Length is below 48.
    SratShort,
    /// A structure of the SRAT is cut off, or its length is below 2.
    SratEntryCut,
    /// A structure of the SRAT does not have the length of its type.
    SratEntryLength,
    /// An enabled memory range passes 2^64 - 1.
    RangePastEnd,
    /// Two enabled memory ranges overlap.
    Overlap,
    /// The SLIT's Length is below 44.
    SlitShort,
    /// The SLIT's Length does not fit its number of localities.
    SlitSize,
    /// The distance of a locality to itself is not 10.
    SlitDiagonal,
    /// A distance is below 10.
    SlitLow,
    /// A structure of the PPTT is cut off, or its length is below 2.
    PpttEntryCut,
    /// A structure of the PPTT does not have the length of its type.
    PpttEntryLength,
    /// A node's Parent is neither 0 nor the offset of a node.
    DanglingParent,
    /// A node's private resource is no offset of a structure, or that of a node.
    DanglingResource,
    /// A cache's Next Level of Cache is neither 0 nor the offset of a cache.
    DanglingCache,
    /// The Parents of nodes form a cycle.
    ParentCycle,
    /// The next levels of caches form a cycle.
    CacheCycle,
    /// An enabled processor is in two proximity domains.
    TwoDomains,
    /// An override or NMI source has an interrupt number that no I/O APIC serves.
    GsiNowhere,
    /// A leaf's ACPI Processor ID is no processor's UID in the MADT.
    LeafUnknown,
}

/// Each code with its stage and its name, in the order of their numbers. It is read through a slice: `ROWS[index]`
/// copies all rows at each call, which took 3 % of `lint` on firmware.
const ROWS: [(Code, Stage, &str); Code::COUNT] = [
    (Code::RsdpOut, Stage::Rsdp, "RsdpOut"),
    (Code::RsdpSignature, Stage::Rsdp, "RsdpSignature"),
    (Code::RsdpSum, Stage::Rsdp, "RsdpSum"),
    (Code::RsdpTailOut, Stage::Rsdp, "RsdpTailOut"),
    (Code::RsdpLength, Stage::Rsdp, "RsdpLength"),
    (Code::RsdpLongOut, Stage::Rsdp, "RsdpLongOut"),
    (Code::RsdpExtendedSum, Stage::Rsdp, "RsdpExtendedSum"),
    (Code::NoRoot, Stage::Root, "NoRoot"),
    (Code::RootHeaderOut, Stage::Root, "RootHeaderOut"),
    (Code::RootSignature, Stage::Root, "RootSignature"),
    (Code::RootLength, Stage::Root, "RootLength"),
    (Code::RootOut, Stage::Root, "RootOut"),
    (Code::RootRagged, Stage::Root, "RootRagged"),
    (Code::RootSum, Stage::Root, "RootSum"),
    (Code::TableHeaderOut, Stage::Tables, "TableHeaderOut"),
    (Code::TableLength, Stage::Tables, "TableLength"),
    (Code::TableOut, Stage::Tables, "TableOut"),
    (Code::TableSum, Stage::Tables, "TableSum"),
    (Code::NoFadt, Stage::Fadt, "NoFadt"),
    (Code::FadtShort, Stage::Fadt, "FadtShort"),
    (Code::PmEventLength, Stage::Fadt, "PmEventLength"),
    (Code::PmControlLength, Stage::Fadt, "PmControlLength"),
    (Code::PmTimerLength, Stage::Fadt, "PmTimerLength"),
    (Code::GpeLength, Stage::Fadt, "GpeLength"),
    (Code::ResetRegister, Stage::Fadt, "ResetRegister"),
    (Code::NoFacs, Stage::Facs, "NoFacs"),
    (Code::FacsAlign, Stage::Facs, "FacsAlign"),
    (Code::FacsHeaderOut, Stage::Facs, "FacsHeaderOut"),
    (Code::FacsSignature, Stage::Facs, "FacsSignature"),
    (Code::FacsLength, Stage::Facs, "FacsLength"),
    (Code::FacsOut, Stage::Facs, "FacsOut"),
    (Code::MadtShort, Stage::Madt, "MadtShort"),
    (Code::MadtEntryCut, Stage::Madt, "MadtEntryCut"),
    (Code::MadtEntryLength, Stage::Madt, "MadtEntryLength"),
    (Code::OverrideBus, Stage::Madt, "OverrideBus"),
    (Code::ReservedInti, Stage::Madt, "ReservedInti"),
    (
        Code::SecondAddressOverride,
        Stage::Madt,
        "SecondAddressOverride",
    ),
    (Code::GsiPastEnd, Stage::Madt, "GsiPastEnd"),
    (Code::GsiClash, Stage::Interrupts, "GsiClash"),
    (Code::OverrideClash, Stage::Overrides, "OverrideClash"),
    (Code::SratShort, Stage::Srat, "SratShort"),
    (Code::SratEntryCut, Stage::Srat, "SratEntryCut"),
    (Code::SratEntryLength, Stage::Srat, "SratEntryLength"),
    (Code::RangePastEnd, Stage::Srat, "RangePastEnd"),
    (Code::Overlap, Stage::Ranges, "Overlap"),
    (Code::SlitShort, Stage::Slit, "SlitShort"),
    (Code::SlitSize, Stage::Slit, "SlitSize"),
    (Code::SlitDiagonal, Stage::Slit, "SlitDiagonal"),
    (Code::SlitLow, Stage::Slit, "SlitLow"),
    (Code::PpttEntryCut, Stage::Pptt, "PpttEntryCut"),
    (Code::PpttEntryLength, Stage::Pptt, "PpttEntryLength"),
    (Code::DanglingParent, Stage::References, "DanglingParent"),
    (
        Code::DanglingResource,
        Stage::References,
        "DanglingResource",
    ),
    (Code::DanglingCache, Stage::References, "DanglingCache"),
    (Code::ParentCycle, Stage::Parents, "ParentCycle"),
    (Code::CacheCycle, Stage::Caches, "CacheCycle"),
    (Code::TwoDomains, Stage::Domains, "TwoDomains"),
    (Code::GsiNowhere, Stage::Served, "GsiNowhere"),
    (Code::LeafUnknown, Stage::Leaves, "LeafUnknown"),
];

impl Code {
    /// How many codes there are. Their numbers begin at 1.
    pub const COUNT: usize = 59;

    /// The code with this number, from 1 to `COUNT`.
    pub fn new(number: u8) -> Option<Code>
        ensures some { IsSome result ↔ ((1 ≤ number) × (number ≤ length all_codes)) }
        ensures same { IfSome result (λ code. code_number code ≡ number) }
    {
        let index = number.checked_sub(1)?;
        let rows = ROWS.as_slice();
        let (code, _, _) = rows.get(usize::from(index))?;
        Some(*code)
    }

    /// The code's number, from 1 to `COUNT`.
    pub fn number(self) -> u8
        ensures { result ≡ code_number self }
    {
        self as u8 + 1
    }

    /// The stage whose fault this is.
    pub fn stage(self) -> Stage
        ensures { result ≡ stage_of self }
    {
        let rows = ROWS.as_slice();
        rows[self as usize].1
    }

    /// The code's name, as in the text of a fault.
    pub fn name(self) -> &'static str
        ensures { result.now ≡ code_name self }
    {
        let rows = ROWS.as_slice();
        rows[self as usize].2
    }
}
