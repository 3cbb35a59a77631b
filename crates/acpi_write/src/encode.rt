//! Tables written as bytes.

ghost use Rattle.std.specs.Prelude.{◌≡◌, ◌≢◌, ◌+◌, ◌*◌, ◌^◌, ◌<◌, ◌≤◌, ◌++◌, length, map, flat_map, IsTrue, IfOk, IfErr, OnOk, MatchOption, ◌↔◌};
ghost use Rattle.acpi_write.specs.Encoded.{table_bytes, encoded_bytes, body_of, encoded_length, FitsHead};
ghost use Rattle.acpi_base.specs.Number.{number_bytes};
ghost use Rattle.acpi_base.specs.Madt.{madt_entry};
ghost use Rattle.acpi_base.specs.Srat.{srat_entry};
ghost use Rattle.acpi_base.specs.Pptt.{pptt_entry};
ghost use Rattle.acpi_read.specs.Madts.{madt_value, madt_bytes};
ghost use Rattle.acpi_read.specs.Srats.{srat_value, srat_bytes};
ghost use Rattle.acpi_read.specs.Pptts.{pptt_value, pptt_bytes};
ghost use Rattle.acpi_write.specs.Spells.{Spells, DoEntriesSay};
ghost use Rattle.std.specs.List.{All};
ghost use Rattle.acpi_write.specs.Views.{head_value, table_value, IsShaped, IsShapedMadt, IsShapedSrat, IsShapedPptt, IsCompleteTable, DoPartsSay, IsRefusal};
ghost use Rattle.acpi_write.specs.Bodies.{srat_reserved};

use crate::entry_bytes::{append_all, sizes};
use crate::table_value::{Head, TableValue};
use acpi_base::field::u32_at;
use acpi_base::sum;
use acpi_read::{Entries, Fadt, Header, Layout, MadtEntry, PpttEntry, Slit, SratEntry};
use std::alloc::{AllocError, Global};
use thiserror::Error;

/// Why a table could not be written.
#[derive(Clone, Copy, Debug, PartialEq, Eq, Error)]
pub enum WriteFault {
    /// There are no bytes for the value.
    #[error("no bytes for the value")]
    Shape,
    /// The table would have more than 4,294,967,295 bytes.
    #[error("table too long")]
    TooLong,
    /// Out of memory.
    #[error("out of memory")]
    Memory,
}

impl From<AllocError> for WriteFault {
    ghost use Rattle.acpi_write.specs.declared.encode.WriteFault.{WriteFault};

    ghost from_gives = { λ _ fault. fault ≡ WriteFault.Memory };

    fn from(_error: AllocError) -> WriteFault {
        WriteFault::Memory
    }
}

/// Whether the bytes are exactly those of one table, and sum to 0.
fn is_complete_table(bytes: &[u8]) -> bool
    ensures { IsTrue result ↔ IsCompleteTable bytes.now }
{
    bytes.len() >= Header::LEN && u32_at(bytes, 4) as usize == bytes.len() && sum(bytes) == 0
}

/// How many bytes the table has. None if there are none for the value.
#[tactic(auto, using(crate::proofs::EntryBytes::EntryLists::encoded_sizes))]
pub(crate) fn size_of(table: &TableValue<'_>) -> Option<u128>
    ensures { MatchOption result (¬ IsShaped table.now)
        (λ size. IsShaped table.now × (size ≡ encoded_length (table_value table.now))) }
{
    match table {
        TableValue::Madt { entries, .. } => Some(Entries::MADT_START as u128 + sizes(entries)?),
        TableValue::Srat { entries, .. } => Some(Entries::SRAT_START as u128 + sizes(entries)?),
        TableValue::Slit { count, cells, .. } => {
            if u128::from(*count) * u128::from(*count) != cells.len() as u128 {
                return None;
            }
            Some(Slit::CELLS as u128 + cells.len() as u128)
        }
        TableValue::Pptt { entries, .. } => Some(Entries::PPTT_START as u128 + sizes(entries)?),
        TableValue::Fadt { body, .. } => {
            if body.len() < Fadt::LEAST_LENGTH - Header::LEN {
                return None;
            }
            Some(Header::LEN as u128 + body.len() as u128)
        }
        TableValue::Other { bytes } => {
            if !is_complete_table(bytes) {
                return None;
            }
            Some(bytes.len() as u128)
        }
    }
}

/// The bytes of an SRAT from 36 to 47, which are reserved (ACPI 6.5, 5.2.16).
const SRAT_RESERVED: [u8; 12] = [1, 0, 0, 0, 0, 0, 0, 0, 0, 0, 0, 0];

/// The bytes of a MADT after its header.
#[tactic(auto, using(crate::proofs::EntryBytes::EntryLists::bodies), unfolding(acpi_base::specs::Number::number_bytes))]
fn madt_body(
    alloc: Global,
    address: u32,
    flags: u32,
    entries: &[MadtEntry<'_>],
) -> Result<Vec<u8>, AllocError>
    requires { All IsShapedMadt entries.now }
    ensures bytes { IfOk result
        (λ bytes. bytes.items ≡ number_bytes 4 address
        ++ (number_bytes 4 flags ++ flat_map madt_bytes (map madt_value entries.now))) }
    ensures says { IfOk result
        (λ _. (address < 2 ^ 32) × (flags < 2 ^ 32)
        × DoEntriesSay madt_entry madt_bytes madt_value entries.now) }
{
    let mut bytes = Vec::from_slice(alloc, &address.to_le_bytes())?;
    bytes.extend_from_slice(&flags.to_le_bytes())?;
    append_all(&mut bytes, entries)?;
    Ok(bytes)
}

/// The bytes of an SRAT after its header.
#[tactic(auto, using(crate::proofs::EntryBytes::EntryLists::bodies), unfolding(acpi_base::specs::Number::number_bytes))]
fn srat_body(alloc: Global, entries: &[SratEntry<'_>]) -> Result<Vec<u8>, AllocError>
    requires { All IsShapedSrat entries.now }
    ensures bytes { IfOk result
        (λ bytes. bytes.items ≡ srat_reserved ++ flat_map srat_bytes (map srat_value entries.now)) }
    ensures says { IfOk result (λ _. DoEntriesSay srat_entry srat_bytes srat_value entries.now) }
{
    let mut bytes = Vec::from_slice(alloc, &SRAT_RESERVED)?;
    append_all(&mut bytes, entries)?;
    Ok(bytes)
}

/// The bytes of a PPTT after its header.
#[tactic(auto, using(crate::proofs::EntryBytes::EntryLists::bodies))]
fn pptt_body(alloc: Global, entries: &[PpttEntry<'_>]) -> Result<Vec<u8>, AllocError>
    requires { All IsShapedPptt entries.now }
    ensures bytes { IfOk result
        (λ bytes. bytes.items ≡ flat_map pptt_bytes (map pptt_value entries.now)) }
    ensures says { IfOk result (λ _. DoEntriesSay pptt_entry pptt_bytes pptt_value entries.now) }
{
    let mut bytes = Vec::new(alloc);
    append_all(&mut bytes, entries)?;
    Ok(bytes)
}

/// The bytes of a table: its header, with the checksum that makes the sum 0, and its body.
#[tactic(auto, using(crate::proofs::TablesWritten::Sums::encoded_bytes))]
pub(crate) fn with_header(
    alloc: Global,
    signature: [u8; 4],
    head: &Head,
    body: &[u8],
) -> Result<Vec<u8>, AllocError>
    requires { 36 + length body.now < 2 ^ 32 }
    ensures bytes { IfOk result
        (λ bytes. bytes.items ≡ table_bytes signature (head_value head.now) body.now) }
    ensures fits { FitsHead (head_value head.now) }
{
    let head = *head;
    let oemid = head.oemid;
    let oem_table_id = head.oem_table_id;
    let mut header = Header {
        signature,
        length: (Header::LEN + body.len()) as u32,
        revision: head.revision,
        checksum: 0,
        oemid,
        oem_table_id,
        oem_revision: head.oem_revision,
        creator_id: head.creator_id,
        creator_revision: head.creator_revision,
    };
    let mut front = [0; Header::LEN];
    header.write(&mut front);
    header.checksum = 0u8.wrapping_sub(sum(&front).wrapping_add(sum(body)));
    header.write(&mut front);
    let mut bytes = Vec::from_slice(alloc, &front)?;
    bytes.extend_from_slice(body)?;
    Ok(bytes)
}

/// The bytes of a table that can be encoded and is not too long.
#[tactic(auto, unfolding(acpi_base::specs::Number::number_bytes))]
pub(crate) fn bytes_of(alloc: Global, table: &TableValue<'_>) -> Result<Vec<u8>, AllocError>
    requires shaped { IsShaped table.now }
    requires short { encoded_length (table_value table.now) < 2 ^ 32 }
    ensures bytes { IfOk result (λ bytes. bytes.items ≡ encoded_bytes (table_value table.now)) }
    ensures says { IfOk result (λ _. DoPartsSay table.now) }
{
    match table {
        TableValue::Madt {
            head,
            address,
            flags,
            entries,
        } => {
            let body = madt_body(alloc, *address, *flags, entries)?;
            with_header(alloc, *b"APIC", head, &body)
        }
        TableValue::Srat { head, entries } => {
            let body = srat_body(alloc, entries)?;
            with_header(alloc, *b"SRAT", head, &body)
        }
        TableValue::Slit { head, count, cells } => {
            let mut body = Vec::from_slice(alloc, &count.to_le_bytes())?;
            body.extend_from_slice(cells)?;
            with_header(alloc, *b"SLIT", head, &body)
        }
        TableValue::Pptt { head, entries } => {
            let body = pptt_body(alloc, entries)?;
            with_header(alloc, *b"PPTT", head, &body)
        }
        TableValue::Fadt { head, body } => with_header(alloc, *b"FACP", head, body),
        TableValue::Other { bytes } => Vec::from_slice(alloc, bytes),
    }
}

/// The bytes of a table with this value, including the header: their number is its Length, and with its checksum they
/// sum to 0 modulo 256. Reserved bytes are 0, except that the 4 at 36 of an SRAT are the number 1. The bytes of
/// `Other` are unchanged. The bytes encode no other value of the kind.
///
/// Refuses, in this order:
/// 1. `Shape` if there are no bytes for the value: - an entry that is kept as bytes has a type that its table gives a
/// meaning (0 to 5, 9 and 10 in a MADT, 0 to 2 in an SRAT, 0 and 1 in a PPTT), or its second byte is not the number
/// of its bytes, which is 2 to 255; - the bytes of a node's references are not 4 for each of the references that its
/// head counts, at most 58; - the cells of a SLIT are not `count` times `count` bytes; - the body of a FADT has fewer
/// than 80 bytes; - the bytes of `Other` are fewer than 36, are not as many as their Length says, or do not sum to 0
/// modulo 256;
/// 2. `TooLong` if the table would have more than 4,294,967,295 bytes, which does not fit into a Length;
/// 3. `Memory` if the allocator is out of memory. Nothing is allocated if it refuses with one of the first two.
#[tactic(auto, using(crate::proofs::Tables::Kinds::spelling))]
pub fn encode_table(alloc: Global, table: &TableValue<'_>) -> Result<Vec<u8>, WriteFault>
    ensures spells { IfOk result (λ bytes. Spells (table_value table.now) bytes.items) }
    ensures bytes { IfOk result (λ bytes. bytes.items ≡ encoded_bytes (table_value table.now)) }
    ensures shaped { IfOk result
        (λ _. IsShaped table.now × (encoded_length (table_value table.now) < 2 ^ 32)) }
    ensures refused { IfErr result (IsRefusal table.now) }
{
    let Some(size) = size_of(table) else {
        return Err(WriteFault::Shape);
    };
    if size > u128::from(u32::MAX) {
        return Err(WriteFault::TooLong);
    }
    Ok(bytes_of(alloc, table)?)
}
