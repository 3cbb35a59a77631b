//! The kinds of tables whose contents are read.

ghost use Rattle.std.specs.Prelude.{◌≡◌};

use crate::field::is_signed;

/// A kind of table whose contents are read. Sections are those of ACPI 6.5.
#[derive(Clone, Copy, Debug, PartialEq, Eq)]
pub enum TableKind {
    /// `FACP`, the FADT (5.2.9).
    Fadt,
    /// `APIC`, the MADT (5.2.12).
    Madt,
    /// `SRAT` (5.2.16).
    Srat,
    /// `SLIT` (5.2.17).
    Slit,
    /// `PPTT` (5.2.30).
    Pptt,
}

impl TableKind {
    ghost use Rattle.acpi_base.specs.TableKinds.{signature_of, IsKindOf};

    /// The kind of a table with these bytes, by its signature; none if it is the signature of no kind, or if there
    /// are fewer than 4 bytes.
    pub fn of(bytes: &[u8]) -> Option<TableKind>
        ensures { IsKindOf bytes.now result }
    {
        if is_signed(bytes, TableKind::Fadt.signature()) {
            Some(TableKind::Fadt)
        } else if is_signed(bytes, TableKind::Madt.signature()) {
            Some(TableKind::Madt)
        } else if is_signed(bytes, TableKind::Srat.signature()) {
            Some(TableKind::Srat)
        } else if is_signed(bytes, TableKind::Slit.signature()) {
            Some(TableKind::Slit)
        } else if is_signed(bytes, TableKind::Pptt.signature()) {
            Some(TableKind::Pptt)
        } else {
            None
        }
    }

    /// The signature of its tables.
    pub fn signature(self) -> &'static [u8; 4]
        ensures { result.now ≡ signature_of self }
    {
        match self {
            TableKind::Fadt => b"FACP",
            TableKind::Madt => b"APIC",
            TableKind::Srat => b"SRAT",
            TableKind::Slit => b"SLIT",
            TableKind::Pptt => b"PPTT",
        }
    }
}
