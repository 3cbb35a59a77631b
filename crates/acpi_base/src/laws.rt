//! Laws about the definitions: the contract of each function is a law, and its body is empty.

ghost use Rattle.std.specs.Prelude.{◌≡◌, ℕ, ◌↔◌, List, Some, IsSome};
ghost use Rattle.acpi_base.specs.Memory.{Memory, bytes_at, Has, AreBytes};
ghost use Rattle.acpi_base.specs.Entries.{OneCut, EntriesStand, CutIsStart, NoCutFault, CutsWhereAllStand, NoneInShort};
ghost use Rattle.acpi_base.specs.Laws.{FaultsExcludeClean, FaultsFit, CleanOrFaulty, CleanOrFirstFault, OneFirstFault, OneVerdict, RootsListSlots, TextsDiffer, CleanWithoutFaults, CleanWithoutFirsts, FirstIsFirstOfCode, OneFirstOfCode, NoneReportedOfClean, FirstIsReported, ReportedAreFaults};
ghost use Rattle.acpi_base.specs.Pptt.{ParentsEndOrGoRound, CachesEndOrGoRound};
ghost use Rattle.acpi_base.specs.Text.WrittenText.{WrittenIsText, OneWritten};
ghost use Rattle.acpi_base.specs.Text.TextLaws.{RunReadsText, RunReadsPrefix, RunStopsAtFaults, RunGoesOn, PrefixDecides, TextMeans, TextOrFault, NeverBoth, OneImage, OneTextFault, RefusalsAreOwn, LinesMean};

/// If an image has a fault of a stage, it is not clean to that stage or a later one: a reported fault is always a
/// reason to refuse the image.
pub fn fault_excludes_clean()
    ensures excluded { FaultsExcludeClean }
{}

/// The three numbers of a fault of an image have 64 bits: each fault fits into a `Witness`.
#[tactic(auto, using(crate::proofs::Faults::Laws::faults_fit))]
pub fn faults_fit()
    ensures fit { FaultsFit }
{}

/// An image is clean to a stage, or has a fault of a stage up to it whose numbers fit into a `Witness`: a refused
/// image always has a fault to report.
pub fn clean_or_fault()
    ensures either { CleanOrFaulty }
{}

/// An image is clean to a stage, or has a first fault, of a stage up to it: each image has a verdict.
pub fn first_fault_exists()
    ensures either { CleanOrFirstFault }
{}

/// An image has at most one first fault under each setting of the policy: which fault is reported does not depend on
/// how it was searched for.
#[tactic(auto, using(crate::proofs::Faults::Laws::one_first_fault))]
pub fn one_first_fault()
    ensures one { OneFirstFault }
{}

/// An image has no fault of any code exactly when all its stages hold, and then no code has a first fault.
pub fn clean_without_faults()
    ensures faults { CleanWithoutFaults }
    ensures firsts { CleanWithoutFirsts }
{}

/// About the first faults of all codes: there is none exactly when all stages hold; the first fault of the image,
/// which is reported as its verdict, is among them; and each is a fault.
pub fn reported_faults()
    ensures none { NoneReportedOfClean }
    ensures first { FirstIsReported }
    ensures faults { ReportedAreFaults }
{}

/// The first fault of an image, which is reported as its verdict, is the first of its code.
#[tactic(auto, using(crate::proofs::FirstOfCode::first_is_first_of_code))]
pub fn first_is_first_of_code()
    ensures first { FirstIsFirstOfCode }
{}

/// A code has at most one first fault; this includes the two codes of overlaps.
#[tactic(auto, using(crate::proofs::FirstOfCode::one_first_of_code))]
pub fn one_first_of_code()
    ensures one { OneFirstOfCode }
{}

/// There is at most one right verdict on the same stages of an image.
#[tactic(auto, using(crate::proofs::Faults::Laws::one_verdict))]
pub fn one_verdict()
    ensures one { OneVerdict }
{}

/// The addresses that a root table lists, as a function of its bytes, are those in its slots.
pub fn roots_list_slots()
    ensures slots { RootsListSlots }
{}

/// If the references of a PPTT are valid, each chain of parents ends or reaches a cycle within as many steps as nodes
/// fit into the table, and each chain of next levels within as many as caches fit; none does both.
#[tactic(auto, using(crate::proofs::Pptt::Chains::chain_laws))]
pub fn chains_end_or_go_round()
    ensures parents { ParentsEndOrGoRound }
    ensures caches { CachesEndOrGoRound }
{}

/// Different faults have different texts: a text identifies its fault.
pub fn fault_texts_differ()
    ensures { TextsDiffer }
{}

/// Reading an image text byte by byte, in any pieces, gives the same result as reading it by lines.
#[tactic(auto, using(crate::proofs::Texts::ByteMachine::machine_laws))]
pub fn machine_reads_lines()
    ensures text { RunReadsText }
    ensures prefix { RunReadsPrefix }
    ensures faults { RunStopsAtFaults }
    ensures pieces { RunGoesOn }
{}

/// A fault in a prefix of an image text is the fault of the complete text.
#[tactic(auto, using(crate::proofs::Texts::ByteMachine::prefix_is_decided))]
pub fn prefix_decides()
    ensures { PrefixDecides }
{}

/// A text is read without a fault, and as this image, exactly when it is a good text whose data is this image.
pub fn text_means()
    ensures means { TextMeans }
{}

/// A text is either good or refused with a fault, never both: it has one image, or one fault, which is a fault of a
/// text.
pub fn text_or_fault()
    ensures either { TextOrFault }
    ensures apart { NeverBoth }
    ensures image { OneImage }
    ensures fault { OneTextFault }
    ensures own { RefusalsAreOwn }
{}

/// The lines of a text are the parts between its LFs.
pub fn lines_mean()
    ensures means { LinesMean }
{}

/// `bytes_at` returns a list exactly when all addresses are present, and then it is the list of their bytes.
pub fn present_bytes()
    ensures present { (m : Memory) (a n : ℕ) → IsSome (bytes_at m a n) ↔ Has m a n }
    ensures bytes { (m : Memory) (a n : ℕ) (l : List ℕ)
        → (bytes_at m a n ≡ Some l) ↔ AreBytes m a n l }
{}

/// A table's bytes can be split into entries in at most one way, and in one exactly when there is an entry at each
/// offset where one should begin. `entries_of` is the list of the entries, and `cut_of` the one offset at which none
/// can begin.
pub fn entries_stand()
    ensures one { OneCut }
    ensures stand { EntriesStand }
    ensures cut { CutIsStart }
    ensures filled { NoCutFault }
    ensures all { CutsWhereAllStand }
    ensures short { NoneInShort }
{}

/// The written form of an image is read as that image, unless it is too long for a text, and an image has one written
/// form.
pub fn written_texts()
    ensures read { WrittenIsText }
    ensures one { OneWritten }
{}
