//! The addresses of the parts of a rebuilt set.

ghost use Rattle.std.specs.Prelude.{◌≡◌, ◌+◌, ◌*◌, ◌++◌, ◌<◌, ◌^◌, ◌%◌, ◌⊎◌, length, map, IfOk, IfErr, OnOk};
ghost use Rattle.std.specs.List.{All, list_any};
ghost use Rattle.acpi_write.specs.Encoded.{encoded_length};
ghost use Rattle.acpi_write.specs.Placed.{block_ends, DoEndInside, IsPlaced, IsPlacingRefusal, is_narrow};
ghost use Rattle.acpi_write.specs.Rebuilt.{block_places, option_list, part_lengths, part_places, xsdt_length};
ghost use Rattle.acpi_write.specs.Views.{set_value, table_value, IsShaped, IsShort};
ghost use Rattle.acpi_write.specs.declared.placing.RebuildFault.{RebuildFault};

use crate::encode::size_of;
use crate::fadt_body::X_FIRMWARE_CTRL_END;
use crate::set_value::{SetValue, ValuesFault};
use crate::table_value::TableValue;
use acpi_base::Witness;
use acpi_read::{Header, Layout, Root, Rsdp};
use std::alloc::{AllocError, Global};
use thiserror::Error;

/// Why a set could not be rebuilt.
#[derive(Clone, Copy, Debug, PartialEq, Eq, Error)]
pub enum RebuildFault {
    /// The base address is not a multiple of 64.
    #[error("base address not a multiple of 64")]
    Unaligned,
    /// The set is not clean; this is its first fault.
    #[error("the set is not clean")]
    NotClean(Witness),
    /// The XSDT would have more than 4,294,967,295 bytes.
    #[error("table too long")]
    TableTooLong,
    /// A part would pass the address 2^64 - 1.
    #[error("past the last address")]
    PastEnd,
    /// The FADT has no field for the FACS's address, which is 2^32 or above.
    #[error("the FACS needs a lower address")]
    NeedsLow,
    /// Out of memory.
    #[error("out of memory")]
    Memory,
}

impl From<AllocError> for RebuildFault {
    ghost use Rattle.acpi_write.specs.declared.placing.RebuildFault.{RebuildFault};

    ghost from_gives = { λ _ fault. fault ≡ RebuildFault.Memory };

    fn from(_error: AllocError) -> RebuildFault {
        RebuildFault::Memory
    }
}

impl From<ValuesFault> for RebuildFault {
    ghost use Rattle.acpi_write.specs.Rebuilding.{rebuild_fault_of};

    ghost from_gives = { λ given fault. fault ≡ rebuild_fault_of given };

    fn from(fault: ValuesFault) -> RebuildFault {
        match fault {
            ValuesFault::NotClean(witness) => RebuildFault::NotClean(witness),
            ValuesFault::Memory => RebuildFault::Memory,
        }
    }
}

/// How many bytes the table for the value has.
fn written_length(table: &TableValue<'_>) -> u64
    requires shaped { IsShaped table.now }
    requires short { IsShort table.now }
    ensures length { result ≡ encoded_length (table_value table.now) }
{
    match table {
        // Tables of other kinds are known to sum to 0, and are not read again.
        TableValue::Other { bytes } => bytes.len() as u64,
        // A value of the right shape has a length.
        _ => size_of(table).unwrap_or(0) as u64,
    }
}

/// Appends the length of each table in bytes.
fn append_lengths(lengths: &mut Vec<u64>, tables: &[TableValue<'_>]) -> Result<(), AllocError>
    requires shaped { All IsShaped tables.now }
    requires short { All IsShort tables.now }
    ensures { OnOk result (lengths.new.items ≡ lengths.old.items ++ map
        (λ t. encoded_length (table_value t)) tables.now) }
{
    for table in tables {
        lengths.push(written_length(table))?;
    }
    Ok(())
}

/// The addresses of blocks of these lengths that are placed from a base address on, each at the next multiple of 64.
/// Refuses with `PastEnd` if one would pass the last address, and with `Memory`.
fn places_of(alloc: Global, base: u64, lengths: &[u64]) -> Result<Vec<u64>, RebuildFault>
    requires { All (λ n. 0 < n) lengths.now }
    ensures places { IfOk result (λ found. found.items ≡ block_places base lengths.now) }
    ensures inside { IfOk result (λ _. DoEndInside (block_ends base lengths.now)) }
    ensures refused { IfErr result (λ fault. (fault ≡ RebuildFault.Memory)
        ⊎ ((fault ≡ RebuildFault.PastEnd) × ¬ DoEndInside (block_ends base lengths.now))) }
{
    let mut found = Vec::new(alloc);
    let mut next = u128::from(base);
    for length in lengths {
        let end = next + u128::from(*length);
        if end > 1 << 64 {
            return Err(RebuildFault::PastEnd);
        }
        if found.push(next as u64).is_err() {
            return Err(RebuildFault::Memory);
        }
        next = (end + 63) / 64 * 64;
    }
    Ok(found)
}

/// The length in bytes of an XSDT that lists this many tables (ACPI 6.5, 5.2.8).
fn xsdt_length(tables: usize) -> u128
    ensures { result ≡ 36 + 8 * tables }
{
    Header::LEN as u128 + u128::from(Root::XSDT_SLOT) * tables as u128
}

/// The length in bytes of each part of a set: the RSDP, the XSDT, the FACS if there is one, the tables in their
/// order.
fn lengths_of(alloc: Global, value: &SetValue<'_>) -> Result<Vec<u64>, AllocError>
    requires shaped { All IsShaped value.now.tables.items }
    requires short { All IsShort value.now.tables.items }
    requires count { xsdt_length (set_value value.now) < 2 ^ 32 }
    ensures { IfOk result (λ lengths. lengths.items ≡ part_lengths (set_value value.now)) }
{
    let mut lengths = Vec::new(alloc);
    lengths.push(Rsdp::EXTENDED_LENGTH)?;
    lengths.push(xsdt_length(value.tables.len()) as u64)?;
    if let Some(facs) = value.facs {
        lengths.push(facs.len() as u64)?;
    }
    append_lengths(&mut lengths, &value.tables)?;
    Ok(lengths)
}

/// Whether the table is a FADT of fewer than 140 bytes, which has no X_FIRMWARE_CTRL (ACPI 6.5, 5.2.9).
fn is_narrow(table: &TableValue<'_>) -> bool
    ensures { result ≡ is_narrow (table_value table.now) }
{
    match table {
        TableValue::Fadt { body, .. } => body.len() < X_FIRMWARE_CTRL_END,
        _ => false,
    }
}

/// Whether any table is a FADT too short for X_FIRMWARE_CTRL.
#[tactic(auto, using(crate::proofs::SetParts::PartLengths::narrow_tables))]
fn is_one_narrow(tables: &[TableValue<'_>]) -> bool
    ensures { result ≡ list_any is_narrow (map table_value tables.now) }
{
    for table in tables {
        if is_narrow(table) {
            return true;
        }
    }
    false
}

/// The addresses of the parts of a set that is rebuilt at a base address, a multiple of 64. All addresses are
/// computed before anything is written.
///
/// Refuses, in this order: `TableTooLong`, `PastEnd`, `NeedsLow`; `Memory` may be returned instead of any.
pub(crate) fn placed(
    alloc: Global,
    value: &SetValue<'_>,
    base: u64,
) -> Result<Vec<u64>, RebuildFault>
    requires aligned { base % 64 ≡ 0 }
    requires shaped { All IsShaped value.now.tables.items }
    requires short { All IsShort value.now.tables.items }
    requires facs { All (λ bytes. 0 < length bytes) (option_list (set_value value.now).facs) }
    ensures places { IfOk result (λ found. found.items ≡ part_places (set_value value.now) base) }
    ensures placed { IfOk result (λ _. IsPlaced (set_value value.now) base) }
    ensures refused { IfErr result (λ fault. (fault ≡ RebuildFault.Memory)
        ⊎ IsPlacingRefusal (set_value value.now) base fault) }
{
    if xsdt_length(value.tables.len()) > u128::from(u32::MAX) {
        return Err(RebuildFault::TableTooLong);
    }
    let lengths = lengths_of(alloc, value)?;
    let found = places_of(alloc, base, &lengths)?;
    // After the RSDP and the XSDT the FACS is the third part.
    if value.facs.is_some() && found[2] >= 1 << 32 && is_one_narrow(&value.tables) {
        return Err(RebuildFault::NeedsLow);
    }
    Ok(found)
}
