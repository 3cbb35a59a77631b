//! Entries of the PPTT, read by their contents, and their faults.

mod kinds;
mod node_head;

use crate::entries::Entries;
use crate::entry_codes::EntryCodes;
use crate::kind::{FixedKind, laid, typed};
use crate::layout::Layout;
use crate::table::Table;
use crate::typed_entries::TableEntry;
use acpi_base::{Code, Policy};
pub use kinds::{Cache24, Cache28};
pub use node_head::NodeHead;

/// The contents of an entry of a PPTT (ACPI 6.5, 5.2.30).
#[derive(Clone, Copy, Debug, PartialEq, Eq)]
pub enum PpttEntry<'a> {
    /// A node: its first 20 bytes, and 4 for each private resource.
    Node(NodeHead, &'a [u8]),
    /// A cache without an ID.
    Cache24(Cache24),
    /// A cache with an ID.
    Cache28(Cache28),
    /// Any other type: all its bytes.
    Opaque(&'a [u8]),
}

impl<'a> PpttEntry<'a> {
    ghost use Rattle.std.specs.Prelude.{◌≡◌, ◌≤◌, slice_index, IfOk, IfErr};
    ghost use Rattle.acpi_base.specs.Entries.{IsEntry};
    ghost use Rattle.acpi_base.specs.Pptt.{pptt_entry, HasOtherPpttLength, Opaque};
    ghost use Rattle.acpi_base.specs.declared.code.Code.{Code};
    ghost use Rattle.acpi_read.specs.Pptts.{pptt_value, HasReferences, IsCompleteEntry};

    /// The contents of an entry with these bytes: at least two, the second of which is their count, as those of an
    /// `Entry` are. Refuses with `PpttEntryLength` those of types 0 and 1 that do not have a length of their type.
    /// Its references are not checked.
    #[tactic(auto, using(crate::proofs::PpttKinds::pptt_opaque))]
    #[inline(always)]
    pub fn read(bytes: &'a [u8]) -> Result<PpttEntry<'a>, Code>
        requires { IsEntry bytes.now }
        ensures ok { IfOk result (λ entry. pptt_value entry ≡ pptt_entry bytes.now) }
        ensures references { IfOk result HasReferences }
        ensures whole { IfOk result IsCompleteEntry }
        ensures length { IfOk result (λ entry. ¬ HasOtherPpttLength (pptt_value entry)) }
        ensures err { IfErr result
            (λ code. (code ≡ Code.PpttEntryLength) × (pptt_entry bytes.now ≡ Opaque bytes.now)
            × (slice_index bytes.now 0 ≤ 1)) }
    {
        let code = Code::PpttEntryLength;
        match bytes[0] {
            0 if bytes.len() < NodeHead::LEN => Err(code),
            0 => {
                let (head, references) = bytes.split_at(NodeHead::LEN);
                Ok(PpttEntry::Node(laid(head, code)?, references))
            }
            Cache28::TYPE if bytes.len() == Cache28::LEN => {
                Ok(PpttEntry::Cache28(typed(bytes, code)?))
            }
            Cache24::TYPE => Ok(PpttEntry::Cache24(typed(bytes, code)?)),
            _ => Ok(PpttEntry::Opaque(bytes)),
        }
    }
}

impl<'a> TableEntry<'a> for PpttEntry<'a> {
    ghost use Rattle.std.specs.Prelude.{◌≡◌, ℕ, List};
    ghost use Rattle.acpi_base.specs.Entries.{entries_of, entries_read_by};
    ghost use Rattle.acpi_base.specs.Pptt as said;
    ghost use Rattle.acpi_base.specs.Pptt.{pptt_entry, pptt_contents, IsCutPptt, PpttEntryFault, PpttFault};
    ghost use Rattle.acpi_base.specs.declared.stage.Stage.{Stage};
    ghost use Rattle.acpi_read.specs.EntryFaults.{pptt_codes, pptt_own_code};
    ghost use Rattle.acpi_read.specs.Pptts.{pptt_value, HasReferences, IsCompleteEntry};

    ghost Said = { said.PpttEntry };

    ghost value = { pptt_value };

    ghost said_by = { pptt_entry };

    ghost IsRead = { λ entry. HasReferences entry × IsCompleteEntry entry };

    ghost first = { 36 };

    ghost contents = { λ whole. (pptt_contents whole).entries };

    ghost codes = { pptt_codes };

    ghost IsOwn = { λ q. PpttEntryFault };

    ghost own_code = { pptt_own_code };

    ghost IsSingle = { λ e. ⊥ };

    ghost stage = { Stage.Pptt };

    ghost IsFault = { λ q whole. PpttFault (pptt_contents whole) };

    ghost IsValid = { λ q whole. IsCutPptt (pptt_contents whole) };

    #[inline(always)]
    fn of(bytes: &'a [u8]) -> PpttEntry<'a> {
        PpttEntry::read(bytes).unwrap_or(PpttEntry::Opaque(bytes))
    }

    #[tactic(auto, unfolding(acpi_base::specs::Pptt::pptt_contents))]
    #[inline(always)]
    fn first() -> usize
        ensures value { result ≡ 36 }
        ensures contents { (whole : List ℕ)
            → (pptt_contents whole).entries ≡ entries_read_by pptt_entry (entries_of 36 whole) }
    {
        Entries::PPTT_START
    }

    fn codes() -> EntryCodes
        ensures { result ≡ pptt_codes }
    {
        EntryCodes {
            short: None,
            cut: Code::PpttEntryCut,
            second: None,
        }
    }

    #[tactic(auto, using(crate::proofs::PpttFaults::pptt_faults))]
    fn raw_entries(table: Table<'a>) -> Result<Entries<'a>, Code> {
        // Makes the invariant of `Table` available to the proof, and does nothing at run time: a table has at least
        // 36 bytes.
        let _ = table.bytes();
        Ok(Entries::pptt(table))
    }

    #[inline(always)]
    fn has_fault(&self, _: &Policy, code: Code) -> bool {
        match (code, self) {
            (Code::PpttEntryLength, PpttEntry::Opaque(bytes)) => bytes[0] <= 1,
            _ => false,
        }
    }

    #[tactic(auto, using(crate::proofs::PpttFaults::pptt_lowest))]
    #[inline(always)]
    fn own_code(&self) -> Code {
        Code::PpttEntryLength
    }

    #[inline(always)]
    fn single_code(&self) -> Option<Code> {
        None
    }
}
