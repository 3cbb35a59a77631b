//! Advice on the register blocks of a FADT, and on ports that it names (ACPI 6.5, 5.2.9).

ghost use Rattle.std.specs.Prelude.{◌≡◌, ◌<◌, ◌+◌, ◌*◌, ◌↔◌, IfOk, IsTrue};
ghost use Rattle.acpi_lint.specs.FadtPlaces.{IsOfBlock};
ghost use Rattle.acpi_rules.specs.Places.{FindsLeast};
ghost use Rattle.acpi_lint.specs.Rules.FadtBlocks.{block_at, block_address, block_length, port_count, port_bytes, IsPastEndAt, IsSmiPastEnd, IsBlockPastEnd, IsFixedPastEnd, IsResetPort, IsResetPastEnd, HasResetRegister, IsPortPastEnd, OnBlock};
ghost use Rattle.acpi_lint.specs.Rules.Ports.{block_range, IsPortsOverlap};
ghost use Rattle.acpi_read.specs.Fadts.{block_view_value};

use acpi_base::field::{u8_at, u32_at, u64_at};
use acpi_read::{BLOCK_LENGTHS, Block, Fadt, RESET_REG_SUP, has_flag};
use acpi_rules::{Numbered, Place, Range, first_overlap};
use std::alloc::{AllocError, Global};

/// System I/O, an address space.
const SYSTEM_IO: u8 = 1;

/// How many ports there are.
const PORTS: u64 = 0x1_0000;

// ---- what a block is

/// The address of register block k; 0 for none.
fn block_address(fadt: &Fadt<'_>, k: u8) -> u64
    requires { k < 8 }
    ensures { result ≡ block_address fadt.now k }
{
    match fadt.block(k) {
        Block::None => 0,
        Block::Gas(gas) => gas.address,
        Block::Port { address, .. } => u64::from(address),
    }
}

/// The length byte of register block k.
fn block_length(fadt: &Fadt<'_>, k: u8) -> u8
    requires { k < 8 }
    ensures { result ≡ block_length fadt.now k }
{
    u8_at(fadt.bytes(), BLOCK_LENGTHS[k as usize])
}

/// How many bytes of system I/O a block with this length byte has.
fn port_count(length: u8, block: Block) -> u8
    ensures { result ≡ port_count length (block_view_value block) }
{
    match block {
        Block::Gas(gas) if gas.space != SYSTEM_IO => 0,
        Block::Gas(gas) if length == 0 => gas.bit_width.div_ceil(8),
        Block::Gas(_) | Block::Port { .. } => length,
        Block::None => 0,
    }
}

/// How many bytes register block k has of system I/O, from its address on.
fn port_bytes(fadt: &Fadt<'_>, k: u8) -> u8
    requires { k < 8 }
    ensures { result ≡ port_bytes fadt.now k }
{
    port_count(block_length(fadt, k), fadt.block(k))
}

/// The offset of the 4-byte field of register block k.
fn block_offset(k: u8) -> u64
    ensures { result ≡ block_at k }
{
    56 + 4 * u64::from(k)
}

// ---- ports past the last one

/// The offset, if these bytes of system I/O end past the last port.
fn past_end(offset: u64, first: u64, bytes: u8) -> Option<Place>
    ensures { FindsLeast (IsPastEndAt offset first bytes) result }
{
    let bytes = u64::from(bytes);
    if bytes == 0 || first <= PORTS - bytes {
        return None;
    }
    Some(Place {
        at: offset,
        other: bytes,
        point: first,
    })
}

/// SMI_CMD, at 48, if it is past the last port.
fn smi_past_end(fadt: &Fadt<'_>) -> Option<Place>
    ensures { FindsLeast (IsSmiPastEnd fadt.now) result }
{
    past_end(48, u64::from(u32_at(fadt.bytes(), 48)), 1)
}

/// The 4-byte field of register block k, if the block ends past the last port.
fn past_end_at(fadt: &Fadt<'_>, k: u8) -> Option<Place>
    requires { k < 8 }
    ensures { FindsLeast (IsOfBlock (IsBlockPastEnd fadt.now) k) result }
{
    past_end(block_offset(k), block_address(fadt, k), port_bytes(fadt, k))
}

/// The first register block that ends past the last port.
fn block_past_end(fadt: &Fadt<'_>) -> Option<Place>
    ensures { FindsLeast (OnBlock (IsBlockPastEnd fadt.now) 0) result }
{
    for k in 0..8 {
        if let Some(place) = past_end_at(fadt, k) {
            return Some(place);
        }
    }
    None
}

/// Whether the table has a reset register, by its flag and its Length.
pub fn has_reset_register(fadt: &Fadt<'_>) -> bool
    ensures { IsTrue result ↔ HasResetRegister fadt.now }
{
    let bytes = fadt.bytes();
    has_flag(bytes, RESET_REG_SUP) && bytes.len() >= 129
}

/// Whether the reset register is a port.
fn is_reset_port(fadt: &Fadt<'_>) -> bool
    ensures { IsTrue result ↔ IsResetPort fadt.now }
{
    has_reset_register(fadt) && u8_at(fadt.bytes(), 116) == SYSTEM_IO
}

/// RESET_REG, at 116, if it is past the last port.
fn reset_past_end(fadt: &Fadt<'_>) -> Option<Place>
    ensures { FindsLeast (IsResetPastEnd fadt.now) result }
{
    if !is_reset_port(fadt) {
        return None;
    }
    let first = u64_at(fadt.bytes(), 120);
    past_end(116, first, 1)
}

/// SMI_CMD or the first register block that ends past the last port, if the hardware is not reduced.
fn fixed_past_end(fadt: &Fadt<'_>) -> Option<Place>
    ensures { FindsLeast (IsFixedPastEnd fadt.now) result }
{
    if fadt.reduced() {
        return None;
    }
    let smi = smi_past_end(fadt);
    if smi.is_some() {
        return smi;
    }
    block_past_end(fadt)
}

/// 138 PortPastEnd, likely wrong (5.2.9): a register is at an I/O port above 0xffff.
/// Numbers: `at` is the offset of the block's 4-byte field, of SMI_CMD, 0x30 (48), or of RESET_REG, 0x74 (116), `other`
/// is the number of bytes, `point` is the address.
/// "The register at {at} of the FADT has its last port above 0xffff: it begins at {point}, and its length in bytes is
/// {other:d}."
///
/// SMI_CMD or the first register block that ends past the last port, if the hardware is not
/// reduced; or else RESET_REG, if it is past the last port.
pub fn port_past_end(fadt: &Fadt<'_>) -> Option<Place>
    ensures { FindsLeast (IsPortPastEnd fadt.now) result }
{
    let fixed = fixed_past_end(fadt);
    if fixed.is_some() {
        return fixed;
    }
    reset_past_end(fadt)
}

// ---- ports that two blocks have

/// What register block k has of system I/O, from its first port on, at the offset of its 4-byte field.
fn block_range(fadt: &Fadt<'_>, k: u8) -> Numbered
    requires { k < 8 }
    ensures { result ≡ block_range fadt.now k }
{
    Numbered {
        number: block_address(fadt, k),
        at: block_offset(k),
        value: u64::from(port_bytes(fadt, k)),
    }
}

/// 137 PortsOverlap, likely wrong (5.2.9): two register blocks share an I/O port.
/// Numbers: `at` and `other` are the offsets of the 4-byte fields of two such blocks, first the one that begins lower,
/// and of two that begin together the one at the lower offset; `point` is the lowest port at which two blocks overlap.
/// "The register blocks at {at} and {other} of the FADT share the I/O port {point}."
///
/// The lowest port that two register blocks have, and the first two that have it, if the hardware
/// is not reduced. Allocates for each block.
pub fn ports_overlap(alloc: Global, fadt: &Fadt<'_>) -> Result<Option<Place>, AllocError>
    ensures { IfOk result (FindsLeast (IsPortsOverlap fadt.now)) }
{
    if fadt.reduced() {
        return Ok(None);
    }
    let mut ranges = Vec::new(alloc);
    for k in 0..8 {
        ranges.push(block_range(fadt, k))?;
    }
    first_overlap(ranges, Range::Count)
}
