//! All lines of a set.

use crate::fadt::add_fadt;
use crate::madt::add_madt;
use crate::pptt::add_pptt;
use crate::root::{add_root, add_rsdp};
use crate::slit::add_slit;
use crate::srat::add_srat;
use acpi_base::{LentImage, TableKind};
use acpi_read::{FirstTables, Root};
use std::alloc::{AllocError, Global};

/// All lines of a set (ACPI 6.5, 5.2): those of the RSDP at the address `rsdp`, of the root table and its slots, and of the
/// tables that are shown line by line. The slots' tables and the FACS are read from `image`, and shown as `bad` if they
/// cannot be read. Refuses nothing; the error is that memory ran out.
pub fn set_text(
    alloc: Global,
    image: &LentImage<'_>,
    rsdp: u64,
    root: &Root<'_>,
    tables: &FirstTables<'_>,
) -> Result<String, AllocError> {
    let mut text = String::new(alloc);
    add_rsdp(&mut text, image, rsdp)?;
    add_root(&mut text, image, root)?;
    add_tables(&mut text, image, tables)?;
    Ok(text)
}

/// Adds the lines of the first listed table of each kind, and of the FACS that the FADT names.
fn add_tables(
    text: &mut String,
    image: &LentImage<'_>,
    tables: &FirstTables<'_>,
) -> Result<(), AllocError> {
    if let Some(fadt) = tables.listed(TableKind::Fadt) {
        add_fadt(text, image, fadt)?;
    }
    if let Some(madt) = tables.listed(TableKind::Madt) {
        add_madt(text, madt)?;
    }
    if let Some(srat) = tables.listed(TableKind::Srat) {
        add_srat(text, srat)?;
    }
    if let Some(slit) = tables.listed(TableKind::Slit) {
        add_slit(text, slit)?;
    }
    if let Some(pptt) = tables.listed(TableKind::Pptt) {
        add_pptt(text, pptt)?;
    }
    Ok(())
}
