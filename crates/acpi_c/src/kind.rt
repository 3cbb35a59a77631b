//! The kind of an answer, as a number.

ghost use Rattle.std.specs.Prelude.{◌≡◌};
ghost use Rattle.acpi_c.specs.Kinds.{kind_number};

/// The kind of an answer. A kind's number never changes.
#[derive(Clone, Copy, Debug, PartialEq, Eq)]
pub enum AnswerKind {
    /// All statements hold; or the image has the fault; or the RSDP was found; or there is no fault; or the
    /// set is shown or rebuilt.
    Yes,
    /// A statement does not hold; or the image does not have the fault; or no RSDP was found; or there are faults.
    No,
    /// Out of memory.
    OutOfMemory,
    /// The settings have another size than this version's.
    BadSize,
    /// The default number of inputs is outside 1 to 256.
    BadDefaultInputs,
    /// The setting of hot-pluggable ranges is neither 0 nor 1.
    BadHotPlug,
    /// The setting of processors is neither 0 nor 1.
    BadProcessors,
    /// The last stage is outside 1 to 18.
    BadStage,
    /// A number of inputs is outside 1 to 256.
    BadInputs,
    /// No fault code has this number.
    BadCode,
    /// A piece passes the address 2^64 - 1.
    PiecePastEnd,
    /// A piece and an earlier one share an address.
    PiecesOverlap,
    /// A line of the text is neither an address, nor data, nor empty.
    BadLine,
    /// Data comes before the first address of the text.
    NoAddress,
    /// The text gives an address a second byte.
    TextOverlap,
    /// Data of the text passes the address 2^64 - 1.
    TextPastEnd,
    /// The text, or a line of it, is too long.
    TextTooLong,
    /// The base address is not a multiple of 64.
    Unaligned,
    /// The XSDT of the rebuilt set would have more than 4,294,967,295 bytes.
    TableTooLong,
    /// A part of the rebuilt set would pass the address 2^64 - 1.
    PastEnd,
    /// The FADT has no field for the FACS's address, which would be 2^32 or above.
    NeedsLow,
}

impl AnswerKind {
    /// The kind's number, from 0 to 20.
    pub fn number(self) -> u32
        ensures { result ≡ kind_number self }
    {
        match self {
            AnswerKind::Yes => 0,
            AnswerKind::No => 1,
            AnswerKind::OutOfMemory => 2,
            AnswerKind::BadSize => 3,
            AnswerKind::BadDefaultInputs => 4,
            AnswerKind::BadHotPlug => 5,
            AnswerKind::BadProcessors => 6,
            AnswerKind::BadStage => 7,
            AnswerKind::BadInputs => 8,
            AnswerKind::BadCode => 9,
            AnswerKind::PiecePastEnd => 10,
            AnswerKind::PiecesOverlap => 11,
            AnswerKind::BadLine => 12,
            AnswerKind::NoAddress => 13,
            AnswerKind::TextOverlap => 14,
            AnswerKind::TextPastEnd => 15,
            AnswerKind::TextTooLong => 16,
            AnswerKind::Unaligned => 17,
            AnswerKind::TableTooLong => 18,
            AnswerKind::PastEnd => 19,
            AnswerKind::NeedsLow => 20,
        }
    }
}
