//! Laws about the definitions: the contract of each function is a law, and its body is empty.

ghost use Rattle.acpi_base.specs.KindLayouts.{LaysOut};

use crate::kind::EntryKind;

/// The layout of each kind of entry of a MADT, an SRAT and a PPTT, except nodes, has the type and the length that the
/// definition of the table gives the kind, and reads the same fields.
pub fn kinds_lay_out<K: EntryKind>()
    ensures { LaysOut K.kind K.parts K.values K.allows K.say }
{}
