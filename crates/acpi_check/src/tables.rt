//! Stage 3: the listed tables.

ghost use Rattle.std.specs.Prelude.{◌≡◌};
ghost use Rattle.acpi_base.specs.Policy.{PolicyValue};
ghost use Rattle.acpi_base.specs.Statements.{CleanBefore};
ghost use Rattle.acpi_base.specs.declared.stage.Stage.{Stage};
ghost use Rattle.acpi_check.specs.StageResults.{Reads};
ghost use Rattle.acpi_check.specs.TableResults.{AreFirstTables, IsRootOf};

use crate::read_addresses::ReadAddresses;
use acpi_base::{Code, LentImage, Witness};
use acpi_read::{FirstTables, Listed, Root, Table};
use std::alloc::Global;

/// Whether every table that the root table lists is valid; and the first table of each kind, found in the same pass.
/// A fault is at the first slot, from 0, that lists a table with a fault, and `other` is the table's address. A slot
/// that is 0 lists nothing.
///
/// Allocates for more than 1,024 slots (`ReadAddresses`); if out of memory, it takes longer.
pub fn check_tables<'a>(
    alloc: Global,
    image: &'a LentImage<'_>,
    root: &Root<'a>,
) -> Result<FirstTables<'a>, Witness>
    ensures { (q : PolicyValue) → CleanBefore Stage.Tables image.now q
        → IsRootOf image.now q.rsdp root.now
        → Reads Stage.Tables image.now q (AreFirstTables image.now q.rsdp) result }
{
    let mut firsts = FirstTables::new();
    let mut read = ReadAddresses::new(alloc, root.slots());
    for slot in 0..root.slots() {
        let address = root.slot(slot);
        // What an earlier slot lists too is valid, and known.
        if address == 0 || read.has(address) {
            continue;
        }
        let table = match Table::read(image, address) {
            Ok(table) => table,
            Err(code) => return Err(listed_fault(code, slot, address)),
        };
        firsts.add(Listed { address, table });
        read.add(address);
    }
    Ok(firsts)
}

/// A fault of the table that a slot lists at an address.
fn listed_fault(code: Code, slot: u32, address: u64) -> Witness
    ensures { result ≡ record { code = code; at = slot; other = address; point = 0 } }
{
    Witness {
        code,
        at: u64::from(slot),
        other: address,
        point: 0,
    }
}
