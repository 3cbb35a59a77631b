//! The first listed table of each kind, found in one pass over the slots (ACPI 6.5, 5.2.6 to 5.2.8).

ghost use Rattle.std.specs.Prelude.{◌≡◌, ◌+◌, ◌<◌, MatchOption, None, false, true};
ghost use Rattle.acpi_base.specs.TableKinds.{signature_of};
ghost use Rattle.acpi_base.specs.Tables.{IsSigned};
ghost use Rattle.acpi_base.specs.declared.table_kind.TableKind.{TableKind};
ghost use Rattle.acpi_read.specs.FirstTables.{first_listed};
ghost use Rattle.acpi_read.specs.Roots.{slots_of};
ghost use Rattle.acpi_show.specs.ListedTables.{AreFirstComplete, IsCompleteAt};
ghost use Rattle.acpi_show.specs.SlotPass.{IsFirstBefore, IsKindIn, is_met};

use acpi_base::{LentImage, TableKind};
use acpi_read::{FirstTables, Header, Layout, Listed, Root, Table};

/// The kinds of which a pass over the slots has met a header.
#[derive(Drop)]
struct MetKinds {
    fadt: bool,
    madt: bool,
    srat: bool,
    slit: bool,
    pptt: bool,
}

impl MetKinds {
    /// None yet.
    fn new() -> MetKinds
        ensures { (kind : TableKind) → is_met result kind ≡ false }
    {
        MetKinds {
            fadt: false,
            madt: false,
            srat: false,
            slit: false,
            pptt: false,
        }
    }

    /// Whether a header of this kind was met.
    fn has(&self, kind: TableKind) -> bool
        ensures { result ≡ is_met self.now kind }
    {
        match kind {
            TableKind::Fadt => self.fadt,
            TableKind::Madt => self.madt,
            TableKind::Srat => self.srat,
            TableKind::Slit => self.slit,
            TableKind::Pptt => self.pptt,
        }
    }

    /// Notes that one was met.
    fn add(&mut self, kind: TableKind)
        ensures met { is_met self.new kind ≡ true }
        ensures others { (other : TableKind) → ¬ (other ≡ kind)
            → is_met self.new other ≡ is_met self.old other }
    {
        match kind {
            TableKind::Fadt => self.fadt = true,
            TableKind::Madt => self.madt = true,
            TableKind::Srat => self.srat = true,
            TableKind::Slit => self.slit = true,
            TableKind::Pptt => self.pptt = true,
        }
    }
}

/// The kind of the table whose header is at an address, if the header's 36 bytes are present and it is of a kind.
fn kind_at(image: &LentImage<'_>, address: u64) -> Option<TableKind>
    ensures { MatchOption result
        ((kind : TableKind) → ¬ IsSigned image.now address (signature_of kind))
        (λ kind. IsSigned image.now address (signature_of kind)) }
{
    TableKind::of(image.window(address, Header::LEN as u64)?)
}

/// The address in slot k and the kind of the header there, if it lists an address with a header of a kind.
fn kind_in(image: &LentImage<'_>, root: &Root<'_>, k: u32) -> Option<(u64, TableKind)>
    requires { k < slots_of root.now }
    ensures { IsKindIn image.now root.now k result }
{
    let address = root.slot(k);
    if address == 0 {
        return None;
    }
    let kind = kind_at(image, address)?;
    Some((address, kind))
}

/// Adds the table at an address, if it is complete.
fn add_complete<'a>(tables: &mut FirstTables<'a>, image: &'a LentImage<'_>, address: u64)
    ensures same_kind { (kind : TableKind) → IsSigned image.now address (signature_of kind)
        → first_listed tables.old kind ≡ None
        → IsCompleteAt image.now address (first_listed tables.new kind) }
    ensures others { (kind : TableKind) → ¬ IsSigned image.now address (signature_of kind)
        → first_listed tables.new kind ≡ first_listed tables.old kind }
{
    let Some(table) = Table::complete(image, address) else {
        return;
    };
    tables.add(Listed { address, table });
}

/// Takes slot k, after those before it: adds its table, if the slot is the first with a header of the table's kind.
fn take_slot<'a>(
    met: &mut MetKinds,
    tables: &mut FirstTables<'a>,
    image: &'a LentImage<'_>,
    root: &Root<'_>,
    k: u32,
)
    requires { k < slots_of root.now }
    ensures { (kind : TableKind)
        → IsFirstBefore image.now root.now k (signature_of kind) (is_met met.old kind)
        (first_listed tables.old kind)
        → IsFirstBefore image.now root.now (k + 1) (signature_of kind) (is_met met.new kind)
        (first_listed tables.new kind) }
{
    let Some((address, kind)) = kind_in(image, root, k) else {
        return;
    };
    if met.has(kind) {
        return;
    }
    met.add(kind);
    add_complete(tables, image, address);
}

/// The first listed table of each kind, with its address, if it is complete, whatever its bytes sum to. Of the slots, in
/// their order, the first at whose address the 36 bytes of a header of the kind are present decides: if its table is not
/// complete, there is none of the kind, even if a later slot lists a complete one. Slots that are 0 list nothing. The
/// slots are read once for all kinds.
///
/// No checksum is checked, and the root table may be that of any image. Allocates nothing, and refuses nothing.
pub fn complete_tables<'a>(image: &'a LentImage<'_>, root: &Root<'_>) -> FirstTables<'a>
    ensures { AreFirstComplete image.now root.now result }
{
    let mut met = MetKinds::new();
    let mut tables = FirstTables::new();
    for k in 0..root.slots() {
        take_slot(&mut met, &mut tables, image, root, k);
    }
    tables
}
