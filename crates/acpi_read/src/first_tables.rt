//! The first table of each kind in a set.

ghost use Rattle.std.specs.Prelude.{◌≡◌, None, Some};
ghost use Rattle.std.specs.Option.{option_map};
ghost use Rattle.acpi_base.specs.declared.table_kind.TableKind.{TableKind};

use crate::table::Table;
use acpi_base::TableKind;

/// A table that a root table lists, with the address in its slot.
#[derive(Debug, Drop)]
pub struct Listed<'a> {
    /// Its address.
    pub address: u64,
    /// The table at that address.
    pub table: Table<'a>,
}

impl<'a> Listed<'a> {
    /// Another view of the same table. No byte is copied.
    pub fn copied(&self) -> Listed<'a>
        ensures { result ≡ self.now }
    {
        Listed {
            address: self.address,
            table: self.table.copied(),
        }
    }
}

/// The first table of each kind among the listed tables, which are added in their order.
#[derive(Debug, Drop)]
pub struct FirstTables<'a> {
    fadt: Option<Listed<'a>>,
    madt: Option<Listed<'a>>,
    srat: Option<Listed<'a>>,
    slit: Option<Listed<'a>>,
    pptt: Option<Listed<'a>>,
}

impl<'a> FirstTables<'a> {
    ghost use Rattle.acpi_base.specs.TableKinds.{signature_of};
    ghost use Rattle.acpi_read.specs.FirstTables.{first_listed, first_table, first_signed, IsFirstOf};

    /// No table yet.
    pub fn new() -> FirstTables<'a>
        ensures { (kind : TableKind) → first_table result kind ≡ None }
    {
        FirstTables {
            fadt: None,
            madt: None,
            srat: None,
            slit: None,
            pptt: None,
        }
    }

    /// The first table of a kind, with its address, if there is one.
    pub fn listed(&self, kind: TableKind) -> Option<&Listed<'a>>
        ensures { option_map (λ first. first.now) result ≡ first_listed self.now kind }
    {
        let place = match kind {
            TableKind::Fadt => &self.fadt,
            TableKind::Madt => &self.madt,
            TableKind::Srat => &self.srat,
            TableKind::Slit => &self.slit,
            TableKind::Pptt => &self.pptt,
        };
        place.as_ref()
    }

    /// The first table of a kind, if there is one.
    pub fn first(&self, kind: TableKind) -> Option<Table<'a>>
        ensures { result ≡ first_table self.now kind }
    {
        let listed = self.listed(kind)?;
        Some(listed.table.copied())
    }

    /// The kind of which a table would be the first one, if it were added next. None if there is one already, or if the
    /// table is of no kind.
    fn first_as(&self, table: &Table<'_>) -> Option<TableKind>
        ensures { IsFirstOf self.now table.now result }
    {
        let kind = TableKind::of(table.bytes())?;
        if self.listed(kind).is_some() {
            return None;
        }
        Some(kind)
    }

    /// Adds the next table: keeps it if it is the first of its kind, and then returns the kind.
    pub fn add(&mut self, listed: Listed<'a>) -> Option<TableKind>
        ensures tables { (kind : TableKind)
            → first_listed self.new kind ≡ first_signed (signature_of kind)
            (first_listed self.old kind) listed.entry }
        ensures kind { IsFirstOf self.old listed.entry.table result }
    {
        let kind = self.first_as(&listed.table)?;
        self.keep(kind, listed);
        Some(kind)
    }

    /// Keeps a table as the first of a kind.
    fn keep(&mut self, kind: TableKind, listed: Listed<'a>)
        ensures kept { first_listed self.new kind ≡ Some listed.entry }
        ensures others { (other : TableKind) → ¬ (other ≡ kind)
            → first_listed self.new other ≡ first_listed self.old other }
    {
        match kind {
            TableKind::Fadt => self.fadt = Some(listed),
            TableKind::Madt => self.madt = Some(listed),
            TableKind::Srat => self.srat = Some(listed),
            TableKind::Slit => self.slit = Some(listed),
            TableKind::Pptt => self.pptt = Some(listed),
        }
    }
}
