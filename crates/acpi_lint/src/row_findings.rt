//! What the rules that are rows find in a set.

ghost use Rattle.std.specs.Prelude.{◌≡◌, IfOk, IsSome, OnErr, map, option_map};
ghost use Rattle.acpi_lint.specs.CompleteTables.{IsLong, row_table_of};
ghost use Rattle.acpi_lint.specs.FurtherTables.{row_length};
ghost use Rattle.acpi_lint.specs.RowFindings.{AreBroken, AreFirsts, AreIndexes, FindsIndex, FindsTables, HasTable, IsLowestOf, index_of_table};
ghost use Rattle.acpi_lint.specs.RowGroups.{BreaksRow, OfAny, group_value, row_groups};
ghost use Rattle.acpi_rules.specs.Rows.{row_value};
ghost use Rattle.acpi_rules.specs.Terms.{tables_value};

use crate::complete_tables::CompleteTables;
use crate::further_table::{FurtherTable, RowTable};
use crate::rows::{
    DMAR_SERIES, HMAT_SERIES, IVRS_SERIES, MADT_SERIES, PPTT_SERIES, RowGroup, SRAT_SERIES,
    row_groups,
};
use acpi_base::TableKind;
use acpi_read::Table;
use acpi_rules::{Index, IndexedTable, Place, Row, Series, Tables, first_finding, lesser};
use std::alloc::{AllocError, Global};

/// A finding of a row.
#[derive(Clone, Copy)]
pub struct Found {
    /// The number of its rule.
    pub number: u16,
    /// Where the rule is broken.
    pub place: Place,
}

/// The structures of the tables that may have many, found once for all rules.
#[derive(Drop)]
struct Indexes {
    /// Those of the MADT.
    madt: Option<Index>,
    /// Those of the SRAT.
    srat: Option<Index>,
    /// Those of the PPTT.
    pptt: Option<Index>,
    /// Those of the HMAT.
    hmat: Option<Index>,
    /// Those of the DMAR.
    dmar: Option<Index>,
    /// Those of the IVRS.
    ivrs: Option<Index>,
}

/// A table that rows are about, if the set has a complete one with all its fields.
fn table_of<'a>(tables: &'a CompleteTables<'_>, table: RowTable) -> Option<Table<'a>>
    ensures { IsLong (row_length table) (row_table_of tables.now table) result }
{
    match table {
        RowTable::Kind(kind) => tables.long(kind),
        RowTable::Further(table) => tables.further(table),
    }
}

/// The index of a table of a set, if it has the table. Allocates for each structure: refuses if out of memory, but not
/// where there is no table.
fn index_of(
    alloc: Global,
    tables: &CompleteTables<'_>,
    table: RowTable,
    series: &Series,
) -> Result<Option<Index>, AllocError>
    ensures index { IfOk result (FindsIndex (row_table_of tables.now table)) }
    ensures memory { OnErr result (IsSome (row_table_of tables.now table)) }
{
    match table_of(tables, table) {
        Some(table) => Index::of(alloc, series, table.bytes()),
        None => Ok(None),
    }
}

impl Indexes {
    /// Those of a set's tables. Allocates for each structure: refuses if out of memory, but not where there is no table.
    fn of(alloc: Global, tables: &CompleteTables<'_>) -> Result<Indexes, AllocError>
        ensures indexes { IfOk result (AreIndexes tables.now) }
        ensures memory { OnErr result (HasTable tables.now) }
    {
        Ok(Indexes {
            madt: index_of(alloc, tables, RowTable::Kind(TableKind::Madt), &MADT_SERIES)?,
            srat: index_of(alloc, tables, RowTable::Kind(TableKind::Srat), &SRAT_SERIES)?,
            pptt: index_of(alloc, tables, RowTable::Kind(TableKind::Pptt), &PPTT_SERIES)?,
            hmat: index_of(
                alloc,
                tables,
                RowTable::Further(FurtherTable::Hmat),
                &HMAT_SERIES,
            )?,
            dmar: index_of(
                alloc,
                tables,
                RowTable::Further(FurtherTable::Dmar),
                &DMAR_SERIES,
            )?,
            ivrs: index_of(
                alloc,
                tables,
                RowTable::Further(FurtherTable::Ivrs),
                &IVRS_SERIES,
            )?,
        })
    }

    /// The structures of a table.
    fn of_table(&self, table: RowTable) -> Option<&Index>
        ensures { option_map (λ i. i.now) result ≡ index_of_table self.now table }
    {
        match table {
            RowTable::Kind(TableKind::Madt) => self.madt.as_ref(),
            RowTable::Kind(TableKind::Srat) => self.srat.as_ref(),
            RowTable::Kind(TableKind::Pptt) => self.pptt.as_ref(),
            RowTable::Further(FurtherTable::Hmat) => self.hmat.as_ref(),
            RowTable::Further(FurtherTable::Dmar) => self.dmar.as_ref(),
            RowTable::Further(FurtherTable::Ivrs) => self.ivrs.as_ref(),
            _ => None,
        }
    }
}

/// A table that rows are about, if the set has a complete one with all its fields, and its index if it has one.
fn indexed<'a>(
    tables: &'a CompleteTables<'_>,
    indexes: &'a Indexes,
    of: RowTable,
) -> Option<IndexedTable<'a>>
    requires { AreIndexes tables.now indexes.now }
    ensures { IsLong (row_length of) (row_table_of tables.now of)
        (option_map (λ t. t.bytes.now) result) }
{
    let table = table_of(tables, of)?;
    match indexes.of_table(of) {
        Some(index) => Some(IndexedTable::with(table.bytes(), index)),
        None => Some(IndexedTable::new(table.bytes())),
    }
}

/// The tables of a group, if the set has them.
fn tables_of<'a>(
    group: &RowGroup<'_>,
    tables: &'a CompleteTables<'_>,
    indexes: &'a Indexes,
) -> Option<Tables<'a>>
    requires { AreIndexes tables.now indexes.now }
    ensures { FindsTables tables.now group.now.0 group.now.1 (option_map tables_value result) }
{
    let table = indexed(tables, indexes, group.0)?;
    let other = match group.1 {
        Some(other) => indexed(tables, indexes, other)?,
        None => IndexedTable::new(&[]),
    };
    Some(Tables { table, other })
}

/// The first finding of each of these rows that two tables break. Allocates for each, and for the numbers of rows on
/// such as occur again or are looked up.
fn found_in(alloc: Global, rows: &[Row<'_>], tables: &Tables<'_>) -> Result<Vec<Found>, AllocError>
    ensures { IfOk result (λ found.
        AreFirsts (OfAny (BreaksRow (tables_value tables.now)) (map row_value rows.now)) found.items) }
{
    let mut found = Vec::new(alloc);
    for row in rows {
        if let Some(place) = first_finding(alloc, row, tables)? {
            found.push(Found {
                number: row.0,
                place,
            })?;
        }
    }
    Ok(found)
}

/// The first finding of each row of a group that a set's tables break. Allocates as `found_in` does: refuses if out of
/// memory, but not where there is no table.
fn found_by(
    alloc: Global,
    group: &RowGroup<'_>,
    tables: &CompleteTables<'_>,
    indexes: &Indexes,
) -> Result<Vec<Found>, AllocError>
    requires { AreIndexes tables.now indexes.now }
    ensures found { IfOk result (λ found.
        AreFirsts (AreBroken tables.now (group_value group.now)) found.items) }
    ensures memory { OnErr result (HasTable tables.now) }
{
    match tables_of(group, tables, indexes) {
        Some(both) => found_in(alloc, group.2, &both),
        None => Ok(Vec::new(alloc)),
    }
}

/// The first finding of each row of some groups that a set's tables break. Allocates as `found_in` does: refuses if out of
/// memory, but not where there is no table.
fn found_by_all(
    alloc: Global,
    groups: &[RowGroup<'_>],
    tables: &CompleteTables<'_>,
    indexes: &Indexes,
) -> Result<Vec<Found>, AllocError>
    requires { AreIndexes tables.now indexes.now }
    ensures found { IfOk result (λ found.
        AreFirsts (OfAny (AreBroken tables.now) (map group_value groups.now)) found.items) }
    ensures memory { OnErr result (HasTable tables.now) }
{
    let mut found = Vec::new(alloc);
    for group in groups {
        let more = found_by(alloc, group, tables, indexes)?;
        let more = more.as_slice();
        if !more.is_empty() {
            found.extend_from_slice(more)?;
        }
    }
    Ok(found)
}

/// The first finding of each row that a set's tables break. Allocates for each, for each structure of the tables that have
/// an index, and for the numbers of rows on such as occur again or are looked up: refuses if out of memory, but not where
/// there is no table.
pub fn row_findings(alloc: Global, tables: &CompleteTables<'_>) -> Result<Vec<Found>, AllocError>
    ensures found { IfOk result (λ found.
        AreFirsts (OfAny (AreBroken tables.now) row_groups) found.items) }
    ensures memory { OnErr result (HasTable tables.now) }
{
    let indexes = Indexes::of(alloc, tables)?;
    let groups = row_groups();
    found_by_all(alloc, &groups, tables, &indexes)
}

/// The lowest of a place and those of the findings with a number.
pub fn lowest_of(one: Option<Place>, found: &[Found], number: u16) -> Option<Place>
    ensures { IsLowestOf one found.now number result }
{
    let mut lowest = one;
    for finding in found {
        if finding.number == number {
            lowest = Some(lesser(lowest, finding.place));
        }
    }
    lowest
}
