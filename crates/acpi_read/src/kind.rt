//! Kinds of entries, each with its layout.

ghost use Rattle.std.specs.Prelude.{◌≡◌, ◌≢◌, ◌≤◌, ◌↔◌, ◌+◌, ℕ, length, slice_index, IsTrue, IfOk, IfErr};
ghost use Rattle.std.proofs.Common.{rules};
ghost use Rattle.acpi_base.specs.Entries.{EntryType, IsEntry, IsEntryOf};
ghost use Rattle.acpi_base.specs.Layouts.{IsOfLayout, HasValues, FitLayout, layout_bytes, values_at};
ghost use Rattle.acpi_base.specs.Number.{field};
ghost use Rattle.acpi_base.specs.KindLayouts.{KindLayout, IsLaidOut, LaysOut, parts_of};
ghost use Rattle.acpi_base.proofs.Layouts.Kinds.{lays_out};

use crate::layout::Layout;
use acpi_base::Code;
use acpi_base::field::{Value, put_values, u8_at};

/// A kind of entry of the MADT, the SRAT or the PPTT: its type is at 0, and its length, `LEN`, at 1.
pub trait EntryKind: Layout {
    ghost TYPE: { ℕ };

    /// Its type.
    const TYPE: u8;

    /// The contents of an entry of the kind, by the definition of the table.
    ghost Said: { Type 0 };

    /// The kind in the definition of the table.
    ghost kind: { EntryType Said };

    /// The contents of a value.
    ghost say: { Self → Said };

    /// The layout is that of the kind, and its fields are those that the definition of the table reads.
    ghost laid: { LaysOut kind Self.parts Self.values Self.allows say };
}

/// A kind with a fixed layout. `Layout` and `EntryKind` follow from this trait, since type and length come before the
/// fields.
pub(crate) trait FixedKind: Sized {
    /// The contents of an entry of the kind, by the definition of the table.
    ghost Said: { Type 0 };

    /// Its type, its length, and the parts after them.
    ghost layout: { KindLayout Said };

    /// The contents of a value.
    ghost say: { Self → Said };

    ghost TYPE: { ℕ };

    /// Its type.
    const TYPE: u8;

    ghost SIZE: { ℕ };

    /// Its length.
    const SIZE: usize;

    /// The fields in an entry's bytes, which are as many as the kind's length.
    fn fields(bytes: &[u8]) -> Self
        requires { length bytes.now ≡ SIZE }
        ensures { values_at 2 layout.rest bytes.now ≡ layout.values (say result) };

    /// Writes what comes after the length, and 0 to bytes that the standard reserves.
    fn put_fields(&self, out: &mut [u8])
        requires { 2 + length out.old ≡ SIZE }
        ensures bytes { out.new ≡ layout_bytes layout.rest (layout.values (say self.now)) }
        ensures fits { FitLayout layout.rest (layout.values (say self.now)) };

    /// Type and length are those of the layout, its parts are where the kind reads its fields, and values with the
    /// same fields are the same.
    ghost laid: { (TYPE ≡ layout.kind.type) × (SIZE ≡ layout.kind.size) × IsLaidOut layout
        × ((one other : Self) → layout.values (say one) ≡ layout.values (say other)
        → one ≡ other) };
}

impl<K: FixedKind> Layout for K {
    ghost LEN = { K.SIZE };

    const LEN: usize = K::SIZE;

    ghost parts = { parts_of K.layout };

    ghost values = { λ value. K.layout.values (K.say value) };

    fn read(bytes: &[u8]) -> Option<K> {
        if !is_kind(bytes, <K as FixedKind>::TYPE, K::SIZE) {
            return None;
        }
        Some(K::fields(bytes))
    }

    fn write(&self, out: &mut [u8]) {
        let (head, rest) = out.split_at_mut(2);
        put_values(
            head,
            &[Value::U8(<K as FixedKind>::TYPE), Value::U8(K::SIZE as u8)],
        );
        self.put_fields(rest);
    }

    ghost counted = { Prim.search rules };

    ghost one_value = { K.laid.3 };
}

impl<K: FixedKind> EntryKind for K {
    ghost TYPE = { K.FixedKind.TYPE };

    const TYPE: u8 = <K as FixedKind>::TYPE;

    ghost Said = { K.Said };

    ghost kind = { K.layout.kind };

    ghost say = { K.say };

    ghost laid = { lays_out K.layout K.laid.2 K.say };
}

/// Whether the bytes have a kind's type, at 0, and its length, at 1, and that many bytes.
pub(crate) fn is_kind(bytes: &[u8], number: u8, size: usize) -> bool
    requires { 2 ≤ size }
    ensures { IsTrue result ↔ ((length bytes.now ≡ size) × (field bytes.now 0 1 ≡ number)
        × (field bytes.now 1 1 ≡ size)) }
{
    bytes.len() == size && u8_at(bytes, 0) == number && usize::from(u8_at(bytes, 1)) == size
}

/// The structure with these bytes, or the code if they do not fit the layout.
pub(crate) fn laid<L: Layout>(bytes: &[u8], code: Code) -> Result<L, Code>
    ensures ok { IfOk result (λ value. HasValues L.parts bytes.now (L.values value)) }
    ensures err { IfErr result
        (λ other. (other ≡ code) × ¬ (IsOfLayout L.parts bytes.now × L.allows bytes.now)) }
{
    L::read(bytes).ok_or(code)
}

/// The contents of an entry with these bytes as one of the kind of its type, or the code if they do not have the
/// kind's length.
pub(crate) fn typed<K: EntryKind>(bytes: &[u8], code: Code) -> Result<K, Code>
    requires entry { IsEntry bytes.now }
    requires number { slice_index bytes.now 0 ≡ K.kind.type }
    ensures ok { IfOk result (λ value. IsEntryOf K.kind bytes.now (K.say value)) }
    ensures err { IfErr result (λ other. (other ≡ code) × (length bytes.now ≢ K.kind.size)) }
{
    laid(bytes, code)
}
