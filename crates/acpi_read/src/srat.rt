//! Entries of the SRAT, read by their contents, and their faults.

mod kinds;

ghost use Rattle.std.specs.Prelude.{◌≡◌, ◌+◌, ◌<◌, ◌^◌, ◌↔◌, IsTrue, true};
ghost use Rattle.acpi_base.specs.Entries.{IsTypeOf};
ghost use Rattle.acpi_base.specs.Srat as said;
ghost use Rattle.acpi_base.specs.Srat.{srat_kinds};

use crate::entries::Entries;
use crate::entry_codes::EntryCodes;
use crate::kind::{FixedKind, typed};
use crate::table::Table;
use crate::typed_entries::TableEntry;
use acpi_base::{Code, Policy};
pub use kinds::{ApicDomain, MemoryRange, X2apicDomain};

/// The type of a GICC affinity (ACPI 6.5, 5.2.16.4). Only `lint` reads its fields.
pub const GICC_AFFINITY: u8 = 3;

/// The length of a GICC affinity.
pub const GICC_AFFINITY_LEN: usize = 18;

/// The contents of an entry of an SRAT (ACPI 6.5, 5.2.16).
#[derive(Clone, Copy, Debug, PartialEq, Eq)]
pub enum SratEntry<'a> {
    /// The domain of a local APIC.
    ApicDomain(ApicDomain),
    /// A range of memory and its domain.
    MemoryRange(MemoryRange),
    /// The domain of a local x2APIC.
    X2apicDomain(X2apicDomain),
    /// Any other type: all its bytes.
    Opaque(&'a [u8]),
}

impl<'a> SratEntry<'a> {
    ghost use Rattle.std.specs.Prelude.{◌≡◌, slice_index, IfOk, IfErr};
    ghost use Rattle.acpi_base.specs.Entries.{IsEntry, IsTypeOf};
    ghost use Rattle.acpi_base.specs.Srat.{srat_kinds, srat_entry, Opaque};
    ghost use Rattle.acpi_base.specs.declared.code.Code.{Code};
    ghost use Rattle.acpi_read.specs.Srats.{srat_value, IsOfOwnLength, IsCompleteEntry};

    /// The contents of an entry with these bytes: at least two, the second of which is their count, as those of an
    /// `Entry` are. Refuses with `SratEntryLength` those of a type above that have another length. Neither flags nor
    /// ranges are checked.
    #[tactic(auto, unfolding(acpi_base::specs::Srat::srat_entry, acpi_base::specs::Entries::has_form))]
    #[inline(always)]
    pub fn read(bytes: &'a [u8]) -> Result<SratEntry<'a>, Code>
        requires { IsEntry bytes.now }
        ensures ok { IfOk result (λ entry. srat_value entry ≡ srat_entry bytes.now) }
        ensures whole { IfOk result IsCompleteEntry }
        ensures length { IfOk result (λ entry. IsOfOwnLength (srat_value entry)) }
        ensures err { IfErr result
            (λ code. (code ≡ Code.SratEntryLength) × (srat_entry bytes.now ≡ Opaque bytes.now)
            × IsTypeOf srat_kinds (slice_index bytes.now 0)) }
    {
        let code = Code::SratEntryLength;
        match bytes[0] {
            ApicDomain::TYPE => Ok(SratEntry::ApicDomain(typed(bytes, code)?)),
            MemoryRange::TYPE => Ok(SratEntry::MemoryRange(typed(bytes, code)?)),
            X2apicDomain::TYPE => Ok(SratEntry::X2apicDomain(typed(bytes, code)?)),
            _ => Ok(SratEntry::Opaque(bytes)),
        }
    }
}

/// Whether a type is one of the three whose entries are read.
#[inline(always)]
fn is_typed(number: u8) -> bool
    ensures { IsTrue result ↔ IsTypeOf srat_kinds number }
{
    number <= 2
}

/// Whether flags have bit 0, which is Enabled in the flags of each entry for which this is used.
#[tactic(auto, unfolding(acpi_base::specs::Number::has_bit))]
pub fn is_enabled(flags: u32) -> bool
    ensures { result ≡ said.is_enabled flags }
{
    flags & 1 == 1
}

/// Whether a range is enabled and ends past 2^64.
#[inline(always)]
fn is_range_past_end(range: &MemoryRange) -> bool
    ensures { IsTrue result ↔ ((said.is_enabled range.now.flags ≡ true)
        × (2 ^ 64 < range.now.base + range.now.size)) }
{
    is_enabled(range.flags) && u128::from(range.base) + u128::from(range.size) > 1 << 64
}

impl<'a> TableEntry<'a> for SratEntry<'a> {
    ghost use Rattle.std.specs.Prelude.{◌≡◌, ℕ, List};
    ghost use Rattle.acpi_base.specs.Entries.{entries_of, entries_read_by};
    ghost use Rattle.acpi_base.specs.Srat as said;
    ghost use Rattle.acpi_base.specs.Srat.{srat_entry, srat_contents, IsValidSrat, SratEntryFault, SratFault};
    ghost use Rattle.acpi_base.specs.declared.stage.Stage.{Stage};
    ghost use Rattle.acpi_read.specs.EntryFaults.{srat_codes, srat_own_code};
    ghost use Rattle.acpi_read.specs.Srats.{srat_value, IsCompleteEntry};

    ghost Said = { said.SratEntry };

    ghost value = { srat_value };

    ghost said_by = { srat_entry };

    ghost IsRead = { IsCompleteEntry };

    ghost first = { 48 };

    ghost contents = { λ whole. (srat_contents whole).entries };

    ghost codes = { srat_codes };

    ghost IsOwn = { λ q. SratEntryFault };

    ghost own_code = { srat_own_code };

    ghost IsSingle = { λ e. ⊥ };

    ghost stage = { Stage.Srat };

    ghost IsFault = { λ q whole. SratFault (srat_contents whole) };

    ghost IsValid = { λ q whole. IsValidSrat (srat_contents whole) };

    #[inline(always)]
    fn of(bytes: &'a [u8]) -> SratEntry<'a> {
        SratEntry::read(bytes).unwrap_or(SratEntry::Opaque(bytes))
    }

    #[tactic(auto, unfolding(acpi_base::specs::Srat::srat_contents))]
    #[inline(always)]
    fn first() -> usize
        ensures value { result ≡ 48 }
        ensures contents { (whole : List ℕ)
            → (srat_contents whole).entries ≡ entries_read_by srat_entry (entries_of 48 whole) }
    {
        Entries::SRAT_START
    }

    fn codes() -> EntryCodes
        ensures { result ≡ srat_codes }
    {
        EntryCodes {
            short: Some(Code::SratShort),
            cut: Code::SratEntryCut,
            second: None,
        }
    }

    #[tactic(auto, using(crate::proofs::SratFaults::srat_faults))]
    fn raw_entries(table: Table<'a>) -> Result<Entries<'a>, Code> {
        Entries::srat(table)
    }

    #[inline(always)]
    fn has_fault(&self, _: &Policy, code: Code) -> bool {
        match (code, self) {
            (Code::SratEntryLength, SratEntry::Opaque(bytes)) => is_typed(bytes[0]),
            (Code::RangePastEnd, SratEntry::MemoryRange(range)) => is_range_past_end(range),
            _ => false,
        }
    }

    #[tactic(auto, using(crate::proofs::SratFaults::srat_lowest))]
    #[inline(always)]
    fn own_code(&self) -> Code {
        match self {
            SratEntry::MemoryRange(_) => Code::RangePastEnd,
            _ => Code::SratEntryLength,
        }
    }

    #[inline(always)]
    fn single_code(&self) -> Option<Code> {
        None
    }
}
