//! Sets of tables that stages pass on.

ghost use Rattle.std.specs.Prelude.{◌≡◌, ◌<◌, ◌+◌, ◌*◌, IfSome, IsNone};
ghost use Rattle.acpi_base.specs.Number.{field};
ghost use Rattle.acpi_read.specs.Roots.{slots_of};
ghost use Rattle.acpi_check.specs.StageSets.{IsListedSet, IsListedIn};

use acpi_base::{LentImage, Policy};
use acpi_read::{Facs, Fadt, FirstTables, Listed, Root, Rsdp, Table};

/// A set whose RSDP, root table and listed tables are valid: what stages 1 to 3 pass on. Each table was read and
/// summed once.
#[derive(Drop)]
pub struct ListedSet<'a> {
    /// The image that has the set.
    pub image: &'a LentImage<'a>,
    /// The RSDP.
    pub rsdp: Rsdp,
    /// The root table that it names.
    pub root: Root<'a>,
    /// The first listed table of each kind.
    pub tables: FirstTables<'a>,
}

impl<'a> ListedSet<'a> {
    /// The table that a slot of the root table lists; slots are counted from 0. None if the slot is 0. Its bytes are
    /// not summed again.
    pub fn table(&self, slot: u32) -> Option<Listed<'a>>
        requires set { IsListedSet self.now }
        requires inside { slot < slots_of self.now.root }
        ensures none { IsNone result
            → field self.now.root.bytes (36 + self.now.root.width * slot) self.now.root.width ≡ 0 }
        ensures some { IfSome result (IsListedIn self.now slot) }
    {
        let address = self.root.slot(slot);
        if address == 0 {
            return None;
        }
        let table = Table::valid(self.image, address);
        Some(Listed { address, table })
    }
}

/// A set whose RSDP, root table, listed tables, FADT and FACS are valid: what the stages from the MADT's on check.
#[derive(Drop)]
pub struct Set<'a, 'p> {
    /// Its RSDP, root table and listed tables.
    pub listed: ListedSet<'a>,
    /// The settings of the check.
    pub policy: &'p Policy,
    /// The FADT.
    pub fadt: Fadt<'a>,
    /// The FACS that the FADT names, if it names one.
    pub facs: Option<Facs<'a>>,
}

/// A set of which all eighteen statements hold.
#[derive(Drop)]
pub struct CleanSet<'a> {
    /// Its RSDP, root table and listed tables.
    pub listed: ListedSet<'a>,
    /// The FADT.
    pub fadt: Fadt<'a>,
    /// The FACS that the FADT names, if it names one.
    pub facs: Option<Facs<'a>>,
}
