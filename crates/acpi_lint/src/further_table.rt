//! The tables that only rules of advice read.

ghost use Rattle.std.specs.Prelude.{◌≡◌};
ghost use Rattle.acpi_lint.specs.FurtherTables.{IsFurtherOf, further_signature};

use acpi_base::TableKind;
use acpi_base::field::is_signed;

/// A table beside those that `check` reads.
#[derive(Clone, Copy, Debug, PartialEq, Eq)]
pub enum FurtherTable {
    /// `MCFG` (PCI Firmware Specification 3.3, 4.1.2).
    Mcfg,
    /// `HPET` (IA-PC HPET 1.0a, 3.2.4).
    Hpet,
    /// `HMAT` (ACPI 6.5, 5.2.28).
    Hmat,
    /// `GTDT` (ACPI 6.5, 5.2.25).
    Gtdt,
    /// `DMAR` (Intel VT-d specification, 8.1).
    Dmar,
    /// `IVRS` (AMD 48882, 5.2.1).
    Ivrs,
    /// `SPCR` (Microsoft's Serial Port Console Redirection Table 1.10).
    Spcr,
}

/// A table that rules which are rows are about.
#[derive(Clone, Copy, Debug, PartialEq, Eq)]
pub enum RowTable {
    /// One that `check` reads.
    Kind(TableKind),
    /// One that it does not read.
    Further(FurtherTable),
}

impl FurtherTable {
    /// The one with these bytes, by its signature; none if it is the signature of no such table, or if there are fewer
    /// than 4 bytes.
    pub(crate) fn of(bytes: &[u8]) -> Option<FurtherTable>
        ensures { IsFurtherOf bytes.now result }
    {
        if is_signed(bytes, FurtherTable::Mcfg.signature()) {
            Some(FurtherTable::Mcfg)
        } else if is_signed(bytes, FurtherTable::Hpet.signature()) {
            Some(FurtherTable::Hpet)
        } else if is_signed(bytes, FurtherTable::Hmat.signature()) {
            Some(FurtherTable::Hmat)
        } else if is_signed(bytes, FurtherTable::Gtdt.signature()) {
            Some(FurtherTable::Gtdt)
        } else if is_signed(bytes, FurtherTable::Dmar.signature()) {
            Some(FurtherTable::Dmar)
        } else if is_signed(bytes, FurtherTable::Ivrs.signature()) {
            Some(FurtherTable::Ivrs)
        } else if is_signed(bytes, FurtherTable::Spcr.signature()) {
            Some(FurtherTable::Spcr)
        } else {
            None
        }
    }

    /// Its signature.
    pub(crate) fn signature(self) -> &'static [u8; 4]
        ensures { result.now ≡ further_signature self }
    {
        match self {
            FurtherTable::Mcfg => b"MCFG",
            FurtherTable::Hpet => b"HPET",
            FurtherTable::Hmat => b"HMAT",
            FurtherTable::Gtdt => b"GTDT",
            FurtherTable::Dmar => b"DMAR",
            FurtherTable::Ivrs => b"IVRS",
            FurtherTable::Spcr => b"SPCR",
        }
    }
}
