//! Laws about the definitions: the contract of each function is a law, and its body is empty.

ghost use Rattle.acpi_write.specs.Laws.{ContentsAreKept, EntriesAreKept, FadtsNameFacs, WhatIsReadIsSpelled};
ghost use Rattle.acpi_write.specs.Placed.{PlacedUnlessRefused, RebuiltLeadsToTables};
ghost use Rattle.acpi_write.specs.Rebuilding.{RebuiltSetsAreKept, RefusedSetsAreNotRebuilt};
ghost use Rattle.acpi_write.specs.Rebuilt.{CleanPartsAreLaid, RebuiltHoldsParts};
ghost use Rattle.acpi_write.specs.SetBytes.{AllBytesAreOne};
ghost use Rattle.acpi_write.specs.SetValues.{OneSetValue};
ghost use Rattle.acpi_write.specs.Spells.{OneValueSpelled};

/// Bytes encode at most one value of a kind, so what is written can be read in only one way.
#[tactic(auto, using(crate::proofs::Tables::Kinds::one_value))]
pub fn one_value()
    ensures { OneValueSpelled }
{}

/// A clean set has one value.
pub fn one_set_value()
    ensures { OneSetValue }
{}

/// The value that is read from a table is the one that its bytes encode: for a table of each `TableKind` if the bytes
/// can be read as one, and for any other.
#[tactic(auto, using(crate::proofs::Tables::Kinds::what_is_read))]
pub fn what_is_read()
    ensures { WhatIsReadIsSpelled }
{}

/// An entry that is read and written again has the same contents and length.
pub fn entries_are_kept()
    ensures { EntriesAreKept }
{}

/// A table that is read by its contents and written again has the same contents: the same entries at the same
/// offsets, if entries fill it.
#[tactic(auto, using(crate::proofs::TablesWritten::KeptContents::contents_are_kept))]
pub fn contents_are_kept()
    ensures { ContentsAreKept }
{}

/// A valid FADT with another FACS address is valid, and names that FACS.
pub fn fadts_name_facs()
    ensures { FadtsNameFacs }
{}

/// The rebuilt image of a set has each of its parts, complete and at its address.
#[tactic(auto, using(crate::proofs::NewSets::NewImage::parts_are_present))]
pub fn rebuilt_holds_parts()
    ensures { RebuiltHoldsParts }
{}

/// The parts of a clean set's value have the lengths from which their addresses are computed, and are placed at these
/// addresses, from each base address on.
pub fn clean_parts_are_laid()
    ensures { CleanPartsAreLaid }
{}

/// If a set's value can be placed at a base address, its rebuilt image leads from there to the tables: the RSDP at
/// that address and the XSDT that it names are valid, and the XSDT lists the tables' addresses.
#[tactic(auto, using(crate::proofs::NewSets::NewImage::leads_to_tables))]
pub fn rebuilt_leads_to_tables()
    ensures { RebuiltLeadsToTables }
{}

/// A set's value can be placed at each base address that is a multiple of 64, except if the XSDT would be too long, a
/// part would pass the last address, or the FADT has no room for the FACS's address.
pub fn placed_unless_refused()
    ensures { PlacedUnlessRefused }
{}

/// No set is both refused and rebuilt at one base address: if the address is not a multiple of 64, if the set is not
/// clean, or if its value cannot be placed there, there is no rebuilt image. Out of memory is not such a reason.
pub fn refused_sets_are_not_rebuilt()
    ensures { RefusedSetsAreNotRebuilt }
{}

/// If a clean set's value can be placed at a base address, its rebuilt image has a clean set there, under the same
/// policy with the RSDP at that address, and with the same value. Rebuilding it there again gives the same image. A
/// caller that borrows an image gets the premise that its numbers fit from `Image::numbers_fit`.
pub fn rebuilt_sets_are_kept()
    ensures { RebuiltSetsAreKept }
{}

/// An image has one list of all its bytes from an address on: so there is one result of `rebuild_bytes`.
#[tactic(auto, using(crate::proofs::SetParts::PartsAppended::all_bytes_are_one))]
pub fn all_bytes_are_one()
    ensures { AllBytesAreOne }
{}
