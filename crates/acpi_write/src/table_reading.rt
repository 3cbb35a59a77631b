//! The contents of listed tables.

ghost use Rattle.std.specs.Prelude.{◌≡◌, ◌≤◌, ℕ, List, length, map, Some, IfOk};
ghost use Rattle.std.specs.List.{All, AllZip};
ghost use Rattle.acpi_base.specs.Entries.{entries_read_by};
ghost use Rattle.acpi_base.specs.Header.{header_of, head_of};
ghost use Rattle.acpi_base.specs.Listed.{listed_addresses};
ghost use Rattle.acpi_base.specs.Number.{byte_sum};
ghost use Rattle.acpi_base.specs.declared.table_kind.TableKind.{TableKind};
ghost use Rattle.acpi_check.specs.StageSets.{IsListedSet};
ghost use Rattle.acpi_read.specs.Entries.{IsFilledMadt, IsFilledSrat, IsFilledPptt};
ghost use Rattle.acpi_read.specs.Structures.{header_value};
ghost use Rattle.acpi_write.specs.Bodies.{entries_in, IsReadableAs};
ghost use Rattle.acpi_write.specs.Kinds.{AreReadable, table_of};
ghost use Rattle.acpi_write.specs.SetValues.{table_value_as, values_of, IsCompleteAt};
ghost use Rattle.acpi_write.specs.Views.{head_value, table_value, IsShaped, IsShort};

use crate::fadt_body::with_facs;
use crate::table_value::{Head, TableValue};
use acpi_base::TableKind;
use acpi_base::field::{u32_at, u64_at};
use acpi_check::ListedSet;
use acpi_read::{
    FirstTables, Header, Layout, Listed, MADT_FLAGS, MADT_LOCAL_APIC_ADDRESS, MadtEntry, PpttEntry,
    Slit, SratEntry, Table, TableEntry, TypedEntries,
};
use std::alloc::{AllocError, Global};

/// The contents of a header, except its signature, its length and its checksum.
pub(crate) fn head_in(header: Header) -> Head
    ensures { (bytes : List ℕ) → header_value header ≡ header_of bytes
        → head_value result ≡ head_of bytes }
{
    let oemid = header.oemid;
    let oem_table_id = header.oem_table_id;
    Head {
        revision: header.revision,
        oemid,
        oem_table_id,
        oem_revision: header.oem_revision,
        creator_id: header.creator_id,
        creator_revision: header.creator_revision,
    }
}

/// The tables that a set lists, in the order of its slots. A slot that is 0 lists nothing.
pub(crate) fn listed_tables<'a>(
    alloc: Global,
    set: &ListedSet<'a>,
) -> Result<Vec<Listed<'a>>, AllocError>
    requires { IsListedSet set.now }
    ensures { IfOk result (λ found. AllZip (IsCompleteAt set.now.image.now)
        (listed_addresses set.now.root.bytes set.now.root.width) (map table_of found.items)) }
{
    let mut found = Vec::new(alloc);
    for slot in 0..set.root.slots() {
        if let Some(listed) = set.table(slot) {
            found.push(listed)?;
        }
    }
    Ok(found)
}

/// The contents of entries, in their order.
fn entry_list<'a, E: TableEntry<'a> + Drop>(
    alloc: Global,
    entries: TypedEntries<'a, E>,
) -> Result<Vec<E>, AllocError>
    ensures entries { IfOk result
        (λ found. map E.value found.items ≡ entries_in
        (entries_read_by E.said_by entries.entry.entries.entries)) }
    ensures read { IfOk result (λ found. All E.IsRead found.items) }
{
    let mut found = Vec::new(alloc);
    for item in entries {
        found.push(item.entry)?;
    }
    Ok(found)
}

/// The contents of a FADT.
fn read_fadt<'a>(alloc: Global, table: &Table<'a>) -> Result<TableValue<'a>, AllocError>
    requires { 116 ≤ length table.now }
    ensures value { IfOk result
        (λ value. table_value value ≡ table_value_as (Some TableKind.Fadt) table.now) }
    ensures shaped { IfOk result IsShaped }
{
    let head = head_in(table.header());
    let bytes = table.bytes();
    let body = with_facs(alloc, &bytes[Header::LEN..], 0)?;
    Ok(TableValue::Fadt { head, body })
}

/// The contents of a MADT that entries fill, each of a length of its type.
fn read_madt<'a>(alloc: Global, madt: &Table<'a>) -> Result<TableValue<'a>, AllocError>
    requires { IsFilledMadt madt.now }
    ensures value { IfOk result
        (λ value. table_value value ≡ table_value_as (Some TableKind.Madt) madt.now) }
    ensures shaped { IfOk result IsShaped }
{
    let head = head_in(madt.header());
    let bytes = madt.bytes();
    let address = u32_at(bytes, MADT_LOCAL_APIC_ADDRESS);
    let flags = u32_at(bytes, MADT_FLAGS);
    let entries = entry_list(alloc, madt.entries::<MadtEntry<'_>>())?;
    Ok(TableValue::Madt {
        head,
        address,
        flags,
        entries,
    })
}

/// The contents of an SRAT that entries fill, each of a length of its type.
fn read_srat<'a>(alloc: Global, srat: &Table<'a>) -> Result<TableValue<'a>, AllocError>
    requires { IsFilledSrat srat.now }
    ensures value { IfOk result
        (λ value. table_value value ≡ table_value_as (Some TableKind.Srat) srat.now) }
    ensures shaped { IfOk result IsShaped }
{
    let head = head_in(srat.header());
    let entries = entry_list(alloc, srat.entries::<SratEntry<'_>>())?;
    Ok(TableValue::Srat { head, entries })
}

/// The contents of a PPTT that entries fill, each of a length of its type.
fn read_pptt<'a>(alloc: Global, pptt: &Table<'a>) -> Result<TableValue<'a>, AllocError>
    requires { IsFilledPptt pptt.now }
    ensures value { IfOk result
        (λ value. table_value value ≡ table_value_as (Some TableKind.Pptt) pptt.now) }
    ensures shaped { IfOk result IsShaped }
{
    let head = head_in(pptt.header());
    let entries = entry_list(alloc, pptt.entries::<PpttEntry<'_>>())?;
    Ok(TableValue::Pptt { head, entries })
}

/// The contents of a table as one of a kind.
fn known_value<'a>(
    alloc: Global,
    table: &Table<'a>,
    kind: TableKind,
) -> Result<TableValue<'a>, AllocError>
    requires { IsReadableAs (Some kind) table.now }
    ensures value { IfOk result
        (λ value. table_value value ≡ table_value_as (Some kind) table.now) }
    ensures shaped { IfOk result IsShaped }
{
    match kind {
        TableKind::Fadt => read_fadt(alloc, table),
        TableKind::Madt => read_madt(alloc, table),
        TableKind::Srat => read_srat(alloc, table),
        TableKind::Slit => {
            let head = head_in(table.header());
            let bytes = table.bytes();
            let count = u64_at(bytes, Slit::COUNT);
            let cells = &bytes[Slit::CELLS..];
            Ok(TableValue::Slit { head, count, cells })
        }
        TableKind::Pptt => read_pptt(alloc, table),
    }
}

/// The contents of a table as one of a kind, or its bytes alone.
fn value_as<'a>(
    alloc: Global,
    table: &Table<'a>,
    kind: Option<TableKind>,
) -> Result<TableValue<'a>, AllocError>
    requires readable { IsReadableAs kind table.now }
    requires zero_sum { byte_sum table.now ≡ 0 }
    ensures value { IfOk result (λ value. table_value value ≡ table_value_as kind table.now) }
    ensures shaped { IfOk result IsShaped }
    ensures short { IfOk result IsShort }
{
    let bytes = table.bytes();
    match kind {
        None => Ok(TableValue::Other { bytes }),
        Some(kind) => known_value(alloc, table, kind),
    }
}

/// The contents of tables, in their order: the first of each kind by its contents, all others by their bytes.
pub(crate) fn table_values<'a>(
    alloc: Global,
    tables: &[Listed<'a>],
) -> Result<Vec<TableValue<'a>>, AllocError>
    requires { AreReadable (map table_of tables.now) }
    ensures values { IfOk result
        (λ found. map table_value found.items ≡ values_of (map table_of tables.now)) }
    ensures shaped { IfOk result (λ found. All IsShaped found.items) }
    ensures short { IfOk result (λ found. All IsShort found.items) }
{
    let mut firsts = FirstTables::new();
    let mut found = Vec::new(alloc);
    for k in 0..tables.len() {
        let kind = firsts.add(tables[k].copied());
        let value = value_as(alloc, &tables[k].table, kind)?;
        found.push(value)?;
    }
    Ok(found)
}
