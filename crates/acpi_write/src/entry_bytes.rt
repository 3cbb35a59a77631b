//! Entries written as bytes.

ghost use Rattle.std.specs.Prelude.{◌≡◌, ◌≢◌, ◌≤◌, ◌*◌, ◌^◌, ◌++◌, ℕ, List, ◌↔◌, length, slice_index, flat_map, IsTrue, OnOk, MatchOption};
ghost use Rattle.std.specs.List.{All};
ghost use Rattle.acpi_base.specs.Entries.{IsEntry, IsEntryOf, IsTypeOf};
ghost use Rattle.acpi_base.specs.Layouts.{layout_bytes, HasValues};
ghost use Rattle.acpi_base.specs.Madt.{madt_kinds, madt_entry};
ghost use Rattle.acpi_base.specs.Srat.{srat_kinds, srat_entry};
ghost use Rattle.acpi_base.specs.Pptt.{pptt_entry, Node};
ghost use Rattle.acpi_read.specs.Madts.{madt_value, madt_bytes};
ghost use Rattle.acpi_read.specs.Srats.{srat_value, srat_bytes};
ghost use Rattle.acpi_read.specs.Pptts.{pptt_value, node_value, pptt_bytes};
ghost use Rattle.acpi_write.specs.Spells.{SaysEntry};
ghost use Rattle.acpi_write.specs.Views.{IsShapedMadt, IsShapedSrat, IsShapedPptt};

use acpi_read::{
    AddressOverride, ApicDomain, Cache24, Cache28, EntryKind, IoApic, Layout, LocalApic, LocalNmi,
    MadtEntry, MemoryRange, NmiSource, NodeHead, Override, PpttEntry, SratEntry, X2apic,
    X2apicDomain, X2apicNmi,
};
use std::alloc::AllocError;

/// The largest size in bytes of a structure of a fixed layout.
const MOST: usize = 40;

/// Adds the bytes of a structure of a fixed layout.
fn append_layout<L: Layout>(bytes: &mut Vec<u8>, value: &L) -> Result<(), AllocError>
    requires { L.LEN ≤ 40 }
    ensures bytes { OnOk result
        (bytes.new.items ≡ bytes.old.items ++ layout_bytes L.parts (L.values value.now)) }
    ensures says { HasValues L.parts (layout_bytes L.parts (L.values value.now))
        (L.values value.now) }
{
    let mut out = [0; MOST];
    let out = &mut out[..L::LEN];
    value.write(out);
    bytes.extend_from_slice(out)
}

/// Adds the bytes of an entry of a kind.
fn append_kind<K: EntryKind>(bytes: &mut Vec<u8>, value: &K) -> Result<(), AllocError>
    requires { K.LEN ≤ 40 }
    ensures bytes { OnOk result
        (bytes.new.items ≡ bytes.old.items ++ layout_bytes K.parts (K.values value.now)) }
    ensures says { IsEntryOf K.kind (layout_bytes K.parts (K.values value.now)) (K.say value.now) }
{
    append_layout(bytes, value)
}

/// How many bytes an entry has that is kept as bytes. None if its length byte is not their number.
fn kept_size(bytes: &[u8]) -> Option<usize>
    ensures { MatchOption result (¬ IsEntry bytes.now)
        (λ size. IsEntry bytes.now × (size ≡ length bytes.now) × (size ≤ 255)) }
{
    if bytes.len() < 2 || usize::from(bytes[1]) != bytes.len() {
        return None;
    }
    Some(bytes.len())
}

/// Whether an entry's type has no meaning in a MADT.
fn is_other_madt(entry: &[u8]) -> bool
    requires { IsEntry entry.now }
    ensures { IsTrue result ↔ (¬ IsTypeOf madt_kinds (slice_index entry.now 0)) }
{
    let number = entry[0];
    number != LocalApic::TYPE
        && number != IoApic::TYPE
        && number != Override::TYPE
        && number != NmiSource::TYPE
        && number != LocalNmi::TYPE
        && number != AddressOverride::TYPE
        && number != X2apic::TYPE
        && number != X2apicNmi::TYPE
}

/// Whether an entry's type has no meaning in an SRAT.
fn is_other_srat(entry: &[u8]) -> bool
    requires { IsEntry entry.now }
    ensures { IsTrue result ↔ (¬ IsTypeOf srat_kinds (slice_index entry.now 0)) }
{
    let number = entry[0];
    number != ApicDomain::TYPE && number != MemoryRange::TYPE && number != X2apicDomain::TYPE
}

/// Whether an entry's type has no meaning in a PPTT.
fn is_other_pptt(entry: &[u8]) -> bool
    requires { IsEntry entry.now }
    ensures { IsTrue result ↔ (2 ≤ slice_index entry.now 0) }
{
    entry[0] > Cache24::TYPE
}

/// How many bytes a node has. None if it does not have 4 bytes for each of its references.
#[tactic(auto, using(crate::proofs::EntryBytes::NodeBytes::node_sizes))]
fn node_size(head: &NodeHead, references: &[u8]) -> Option<usize>
    ensures { MatchOption result (length references.now ≢ 4 * head.now.count)
        (λ size. (length references.now ≡ 4 * head.now.count)
        × (size ≡ length (pptt_bytes (Node (node_value head.now references.now)))) × (size ≤ 255)) }
{
    let head = *head;
    if references.len() as u64 != 4 * u64::from(head.count) {
        return None;
    }
    Some(NodeHead::LEN + references.len())
}

/// Adds the bytes of a node.
#[tactic(auto, using(crate::proofs::EntryBytes::NodeBytes::nodes))]
fn append_node(bytes: &mut Vec<u8>, head: &NodeHead, references: &[u8]) -> Result<(), AllocError>
    requires { length references.now ≡ 4 * head.now.count }
    ensures bytes { OnOk result
        (bytes.new.items ≡ bytes.old.items ++ pptt_bytes
        (Node (node_value head.now references.now))) }
    ensures says { OnOk result
        (SaysEntry pptt_entry (pptt_bytes (Node (node_value head.now references.now)))
        (Node (node_value head.now references.now))) }
{
    append_layout(bytes, head)?;
    bytes.extend_from_slice(references)
}

/// An entry that can be written.
pub(crate) trait EntryBytes {
    /// There are bytes for it.
    ghost shaped: { Self → Type 0 };

    /// Its bytes.
    ghost spelled: { Self → List ℕ };

    /// The bytes encode it.
    ghost said_by: { Self → List ℕ → Type 0 };

    /// How many bytes it has. None if there are none for it.
    fn size(&self) -> Option<usize>
        ensures { MatchOption result (¬ shaped self.now)
            (λ size. shaped self.now × (size ≡ length (spelled self.now)) × (size ≤ 255)) };

    /// Adds its bytes.
    fn append(&self, bytes: &mut Vec<u8>) -> Result<(), AllocError>
        requires { shaped self.now }
        ensures bytes { OnOk result (bytes.new.items ≡ bytes.old.items ++ spelled self.now) }
        ensures says { OnOk result (said_by self.now (spelled self.now)) };
}

impl<'a> EntryBytes for MadtEntry<'a> {
    ghost shaped = { IsShapedMadt };

    ghost spelled = { λ entry. madt_bytes (madt_value entry) };

    ghost said_by = { λ entry bytes. SaysEntry madt_entry bytes (madt_value entry) };

    #[tactic(auto, using(crate::proofs::EntryBytes::EntryLists::entry_sizes))]
    fn size(&self) -> Option<usize> {
        match self {
            MadtEntry::LocalApic(_) => Some(LocalApic::LEN),
            MadtEntry::IoApic(_) => Some(IoApic::LEN),
            MadtEntry::Override(_) => Some(Override::LEN),
            MadtEntry::NmiSource(_) => Some(NmiSource::LEN),
            MadtEntry::LocalNmi(_) => Some(LocalNmi::LEN),
            MadtEntry::AddressOverride(_) => Some(AddressOverride::LEN),
            MadtEntry::X2apic(_) => Some(X2apic::LEN),
            MadtEntry::X2apicNmi(_) => Some(X2apicNmi::LEN),
            MadtEntry::Opaque(bytes) => {
                let size = kept_size(bytes)?;
                if !is_other_madt(bytes) {
                    return None;
                }
                Some(size)
            }
        }
    }

    #[tactic(auto, unfolding(acpi_base::specs::Madt::madt_entry, acpi_base::specs::Entries::has_form), using(crate::proofs::EntryBytes::EntryForms::madt_opaque))]
    fn append(&self, bytes: &mut Vec<u8>) -> Result<(), AllocError> {
        match self {
            MadtEntry::LocalApic(entry) => append_kind(bytes, entry),
            MadtEntry::IoApic(entry) => append_kind(bytes, entry),
            MadtEntry::Override(entry) => append_kind(bytes, entry),
            MadtEntry::NmiSource(entry) => append_kind(bytes, entry),
            MadtEntry::LocalNmi(entry) => append_kind(bytes, entry),
            MadtEntry::AddressOverride(entry) => append_kind(bytes, entry),
            MadtEntry::X2apic(entry) => append_kind(bytes, entry),
            MadtEntry::X2apicNmi(entry) => append_kind(bytes, entry),
            MadtEntry::Opaque(entry) => bytes.extend_from_slice(entry),
        }
    }
}

impl<'a> EntryBytes for SratEntry<'a> {
    ghost shaped = { IsShapedSrat };

    ghost spelled = { λ entry. srat_bytes (srat_value entry) };

    ghost said_by = { λ entry bytes. SaysEntry srat_entry bytes (srat_value entry) };

    #[tactic(auto, using(crate::proofs::EntryBytes::EntryLists::entry_sizes))]
    fn size(&self) -> Option<usize> {
        match self {
            SratEntry::ApicDomain(_) => Some(ApicDomain::LEN),
            SratEntry::MemoryRange(_) => Some(MemoryRange::LEN),
            SratEntry::X2apicDomain(_) => Some(X2apicDomain::LEN),
            SratEntry::Opaque(bytes) => {
                let size = kept_size(bytes)?;
                if !is_other_srat(bytes) {
                    return None;
                }
                Some(size)
            }
        }
    }

    #[tactic(auto, unfolding(acpi_base::specs::Srat::srat_entry, acpi_base::specs::Entries::has_form), using(crate::proofs::EntryBytes::EntryForms::srat_opaque))]
    fn append(&self, bytes: &mut Vec<u8>) -> Result<(), AllocError> {
        match self {
            SratEntry::ApicDomain(entry) => append_kind(bytes, entry),
            SratEntry::MemoryRange(entry) => append_kind(bytes, entry),
            SratEntry::X2apicDomain(entry) => append_kind(bytes, entry),
            SratEntry::Opaque(entry) => bytes.extend_from_slice(entry),
        }
    }
}

impl<'a> EntryBytes for PpttEntry<'a> {
    ghost shaped = { IsShapedPptt };

    ghost spelled = { λ entry. pptt_bytes (pptt_value entry) };

    ghost said_by = { λ entry bytes. SaysEntry pptt_entry bytes (pptt_value entry) };

    #[tactic(auto, using(crate::proofs::EntryBytes::EntryLists::entry_sizes))]
    fn size(&self) -> Option<usize> {
        match self {
            PpttEntry::Node(head, references) => node_size(head, references),
            PpttEntry::Cache24(_) => Some(Cache24::LEN),
            PpttEntry::Cache28(_) => Some(Cache28::LEN),
            PpttEntry::Opaque(bytes) => {
                let size = kept_size(bytes)?;
                if !is_other_pptt(bytes) {
                    return None;
                }
                Some(size)
            }
        }
    }

    #[tactic(auto, using(crate::proofs::EntryBytes::NodeBytes::pptt_says))]
    fn append(&self, bytes: &mut Vec<u8>) -> Result<(), AllocError> {
        match self {
            PpttEntry::Node(head, references) => append_node(bytes, head, references),
            PpttEntry::Cache24(entry) => append_kind(bytes, entry),
            PpttEntry::Cache28(entry) => append_kind(bytes, entry),
            PpttEntry::Opaque(entry) => bytes.extend_from_slice(entry),
        }
    }
}

/// How many bytes the entries have together. None if there are none for one of them.
#[tactic(auto, using(crate::proofs::EntryBytes::EntryLists::entry_lists))]
pub(crate) fn sizes<E: EntryBytes>(entries: &[E]) -> Option<u128>
    ensures { MatchOption result (¬ All E.shaped entries.now)
        (λ size. All E.shaped entries.now × (size ≡ length (flat_map E.spelled entries.now))
        × (size ≤ 255 * 2 ^ 64)) }
{
    let mut total = 0;
    for entry in entries {
        total += entry.size()? as u128;
    }
    Some(total)
}

/// Adds the bytes of the entries, one after another.
#[tactic(auto, using(crate::proofs::EntryBytes::EntryLists::entry_lists))]
pub(crate) fn append_all<E: EntryBytes>(
    bytes: &mut Vec<u8>,
    entries: &[E],
) -> Result<(), AllocError>
    requires { All E.shaped entries.now }
    ensures bytes { OnOk result
        (bytes.new.items ≡ bytes.old.items ++ flat_map E.spelled entries.now) }
    ensures says { OnOk result (All (λ entry. E.said_by entry (E.spelled entry)) entries.now) }
{
    for entry in entries {
        entry.append(bytes)?;
    }
    Ok(())
}
