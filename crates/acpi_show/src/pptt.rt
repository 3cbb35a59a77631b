//! The lines of the PPTT.

ghost use Rattle.std.specs.Prelude.{◌≡◌, ◌*◌, length};

use crate::entries::{Owner, add_entries, add_other};
use crate::fields::{add_decimal, add_hex};
use acpi_base::field::u32_at;
use acpi_read::{Cache24, Cache28, Entries, Entry, Listed, NodeHead, PpttEntry, TableEntry};
use std::alloc::AllocError;

/// Adds the lines of the PPTT: `pptt ADDRESS`, and those of its entries.
pub fn add_pptt(text: &mut String, listed: &Listed<'_>) -> Result<(), AllocError> {
    let address = listed.address;
    let table = listed.table.copied();
    add_hex(text, "pptt ", address)?;
    text.push('\n')?;
    add_entries(text, Owner::Pptt, Entries::pptt(table))
}

/// Adds what an entry of the PPTT says.
pub fn add_pptt_entry(text: &mut String, entry: &Entry<'_>) -> Result<(), AllocError> {
    match PpttEntry::of(entry.bytes) {
        PpttEntry::Node(head, references) => add_node(text, head, references),
        PpttEntry::Cache24(cache) => add_cache24(text, cache),
        PpttEntry::Cache28(cache) => add_cache28(text, cache),
        PpttEntry::Opaque(_) => add_other(text, entry),
    }
}

/// Adds `node flags FLAGS parent OFFSET id N resources OFFSET ..`.
fn add_node(text: &mut String, head: NodeHead, references: &[u8]) -> Result<(), AllocError>
    requires { length references.now ≡ 4 * head.count }
{
    add_hex(text, "node flags ", head.flags)?;
    add_hex(text, " parent ", head.parent)?;
    add_decimal(text, " id ", head.id)?;
    text.push_str(" resources")?;
    for k in 0..head.count as usize {
        add_hex(text, " ", u32_at(references, 4 * k))?;
    }
    Ok(())
}

/// Adds `cache flags FLAGS next OFFSET size N sets N ways N attributes FLAGS line N`: one of 24 bytes.
fn add_cache24(text: &mut String, cache: Cache24) -> Result<(), AllocError> {
    add_hex(text, "cache flags ", cache.flags)?;
    add_hex(text, " next ", cache.next_level)?;
    add_decimal(text, " size ", cache.size)?;
    add_decimal(text, " sets ", cache.sets)?;
    add_decimal(text, " ways ", cache.associativity)?;
    add_hex(text, " attributes ", cache.attributes)?;
    add_decimal(text, " line ", cache.line_size)
}

/// Adds the same and `id N`: one of 28 bytes.
fn add_cache28(text: &mut String, cache: Cache28) -> Result<(), AllocError> {
    add_cache24(text, cache.fields)?;
    add_decimal(text, " id ", cache.id)
}
