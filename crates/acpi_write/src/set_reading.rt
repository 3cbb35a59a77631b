//! The contents of clean sets.

ghost use Rattle.std.specs.Prelude.{IfOk, IfErr};
ghost use Rattle.std.specs.List.{All};
ghost use Rattle.acpi_base.specs.Statements.{IsClean};
ghost use Rattle.acpi_write.specs.SetValues.{IsSetValue};
ghost use Rattle.acpi_write.specs.Views.{set_value, IsShaped, IsShort, IsValuesRefusal};

use crate::set_value::{SetValue, ValuesFault};
use crate::table_reading::{head_in, listed_tables, table_values};
use acpi_base::{LentImage, Policy};
use acpi_check::check_set;
use std::alloc::Global;

/// The contents of the set of an image, if it is clean under the policy: the RSDP's OEMID, the root table's header,
/// each listed table and the FACS. `encode_table` can write each table of the value: it refuses none of them with
/// `Shape` or `TooLong`.
///
/// Refuses, in this order: `NotClean` exactly when the set is not clean, unless memory runs out, with its first
/// fault, which is that of `check`; `Memory` if the allocator is out of memory: only if the stages up to the MADT's
/// hold, since these never run out of it.
pub fn values<'a>(
    alloc: Global,
    image: &'a LentImage<'_>,
    policy: &Policy,
) -> Result<SetValue<'a>, ValuesFault>
    ensures clean { IfOk result (λ _. IsClean image.now policy.now) }
    ensures value { IfOk result (λ value. IsSetValue image.now policy.now.rsdp (set_value value)) }
    ensures shaped { IfOk result (λ value. All IsShaped value.tables.items) }
    ensures short { IfOk result (λ value. All IsShort value.tables.items) }
    ensures refused { IfErr result (IsValuesRefusal image.now policy.now) }
{
    let set = check_set(alloc, image, policy)?;
    let listed = listed_tables(alloc, &set.listed)?;
    let tables = table_values(alloc, &listed)?;
    let facs = match &set.facs {
        Some(facs) => Some(facs.bytes()),
        None => None,
    };
    let oemid = set.listed.rsdp.oemid();
    let root = head_in(set.listed.root.header());
    Ok(SetValue {
        oemid,
        root,
        tables,
        facs,
    })
}
