//! The FADT, the fixed ACPI description table.

mod offsets;

ghost use Rattle.std.specs.Prelude.{◌≡◌, ◌≤◌, ◌<◌, ◌+◌, ◌^◌, ◌⊎◌, ◌↔◌, ℕ, length, slice_get, Some, IsTrue, IsOk, IsNone, IfOk, IfErr, IfSome, false};
ghost use Rattle.acpi_base.specs.Codes.{code_number, stage_of};
ghost use Rattle.acpi_base.specs.declared.stage.Stage.{Stage};
ghost use Rattle.acpi_base.specs.Header.{header_of};
ghost use Rattle.acpi_base.specs.Fadt.{fadt_places, field_number, has_flag, is_reduced, wide_address, address_of, facs_address, dsdt_address, block_value, HasBlockLengths, IsResetRegister, IsValidFadtTable, FadtTableFault};
ghost use Rattle.acpi_base.specs.Tables.{length_of};
ghost use Rattle.acpi_base.specs.declared.code.Code.{Code};
ghost use Rattle.acpi_read.specs.Fadts.{block_view_value};
ghost use Rattle.acpi_read.specs.Places.{place_value};
ghost use Rattle.acpi_read.specs.Structures.{gas_value, header_value};

use crate::fadt::offsets::*;
use crate::gas::{Gas, gas_in};
use crate::header::Header;
use crate::layout::Layout;
use crate::table::Table;
use acpi_base::field::{number_at, u8_at, u32_at, u64_at};
use acpi_base::{Code, Witness};
use std::marker::Model;

/// Where a field begins, and how many bytes it has.
#[derive(Clone, Copy, Debug)]
struct FieldPlace(u8, u8);

/// The fields that are numbers of 1, 2 or 4 bytes, in the standard's order (ACPI 6.5, table 5.9).
const PLACES: [FieldPlace; 41] = [
    FieldPlace(36, 4), // 0 FIRMWARE_CTRL
    FieldPlace(40, 4), // 1 DSDT
    FieldPlace(44, 1), // 2 reserved
    FieldPlace(45, 1), // 3 Preferred_PM_Profile
    FieldPlace(46, 2), // 4 SCI_INT
    FieldPlace(48, 4), // 5 SMI_CMD
    FieldPlace(52, 1), // 6 ACPI_ENABLE
    FieldPlace(53, 1), // 7 ACPI_DISABLE
    FieldPlace(54, 1), // 8 S4BIOS_REQ
    FieldPlace(55, 1), // 9 PSTATE_CNT
    FieldPlace(56, 4), // 10 PM1a_EVT_BLK
    FieldPlace(60, 4), // 11 PM1b_EVT_BLK
    FieldPlace(64, 4), // 12 PM1a_CNT_BLK
    FieldPlace(68, 4), // 13 PM1b_CNT_BLK
    FieldPlace(72, 4), // 14 PM2_CNT_BLK
    FieldPlace(76, 4), // 15 PM_TMR_BLK
    FieldPlace(80, 4), // 16 GPE0_BLK
    FieldPlace(84, 4), // 17 GPE1_BLK
    FieldPlace(88, 1), // 18 PM1_EVT_LEN
    FieldPlace(89, 1), // 19 PM1_CNT_LEN
    FieldPlace(90, 1), // 20 PM2_CNT_LEN
    FieldPlace(91, 1), // 21 PM_TMR_LEN
    FieldPlace(92, 1), // 22 GPE0_BLK_LEN
    FieldPlace(93, 1), // 23 GPE1_BLK_LEN
    FieldPlace(94, 1), // 24 GPE1_BASE
    FieldPlace(95, 1), // 25 CST_CNT
    FieldPlace(96, 2), // 26 P_LVL2_LAT
    FieldPlace(98, 2), // 27 P_LVL3_LAT
    FieldPlace(100, 2), // 28 FLUSH_SIZE
    FieldPlace(102, 2), // 29 FLUSH_STRIDE
    FieldPlace(104, 1), // 30 DUTY_OFFSET
    FieldPlace(105, 1), // 31 DUTY_WIDTH
    FieldPlace(106, 1), // 32 DAY_ALRM
    FieldPlace(107, 1), // 33 MON_ALRM
    FieldPlace(108, 1), // 34 CENTURY
    FieldPlace(109, 2), // 35 IAPC_BOOT_ARCH
    FieldPlace(111, 1), // 36 reserved
    FieldPlace(112, 4), // 37 Flags
    FieldPlace(128, 1), // 38 RESET_VALUE
    FieldPlace(129, 2), // 39 ARM_BOOT_ARCH
    FieldPlace(131, 1), // 40 minor version
];

/// RESET_REG_SUP, a bit of Flags: the reset register may be used.
pub const RESET_REG_SUP: u32 = 10;

/// HW_REDUCED_ACPI, a bit of Flags: the ACPI registers are not implemented.
const HW_REDUCED_ACPI: u32 = 20;

/// The offsets of the register blocks' length bytes, in the order of `Fadt::block`.
pub const BLOCK_LENGTHS: [usize; 8] = [
    PM1_EVT_LEN,
    PM1_EVT_LEN,
    PM1_CNT_LEN,
    PM1_CNT_LEN,
    PM2_CNT_LEN,
    PM_TMR_LEN,
    GPE0_BLK_LEN,
    GPE1_BLK_LEN,
];

/// Where a field is.
fn field_place(index: u8) -> FieldPlace
    requires { index < 41 }
    ensures place { slice_get fadt_places index ≡ Some (place_value result) }
    ensures width { (1 ≤ result.1) × (result.1 ≤ 8) }
{
    PLACES[index as usize]
}

/// Whether a bit of Flags, from 0 to 31, is set in the bytes of a FADT (ACPI 6.5, 5.2.9).
#[tactic(auto, unfolding(acpi_base::specs::Fadt::has_flag))]
pub fn has_flag(bytes: &[u8], bit: u32) -> bool
    requires bit { bit < 32 }
    requires room { 116 ≤ length bytes.now }
    ensures { result ≡ has_flag bytes.now bit }
{
    (u32_at(bytes, FLAGS) >> bit) % 2 == 1
}

/// The 8-byte address at an offset, in a field that ends at `end`, if the table has that field and the address is not
/// 0.
#[tactic(auto, unfolding(acpi_base::specs::Fadt::wide_address))]
fn wide_address(bytes: &[u8], end: usize, offset: usize) -> Option<u64>
    requires { offset + 8 ≤ end }
    ensures address { result ≡ wide_address bytes.now end offset }
    ensures inside { IfSome result (λ address. end ≤ length bytes.now) }
{
    if end > bytes.len() {
        return None;
    }
    let address = u64_at(bytes, offset);
    if address == 0 {
        return None;
    }
    Some(address)
}

/// The 8-byte address if it exists and is not 0, otherwise the 4-byte one at `narrow`.
fn address_of(bytes: &[u8], end: usize, offset: usize, narrow: usize) -> u64
    requires wide { offset + 8 ≤ end }
    requires narrow { narrow + 4 ≤ length bytes.now }
    ensures { result ≡ address_of bytes.now end offset narrow }
{
    match wide_address(bytes, end, offset) {
        Some(address) => address,
        None => u64::from(u32_at(bytes, narrow)),
    }
}

/// The first wrong length of a block if the hardware is not reduced.
fn length_fault(bytes: &[u8]) -> Option<Witness>
    requires { 116 ≤ length bytes.now }
    ensures none { IsNone result ↔ HasBlockLengths bytes.now }
    ensures fault { IfSome result (λ w. is_reduced bytes.now ≡ false
        → FadtTableFault bytes.now w.code w.at) }
    ensures zeros { IfSome result (λ w. (w.other ≡ 0) × (w.point ≡ 0)) }
    ensures stage { IfSome result (λ w. stage_of w.code ≡ Stage.Fadt) }
    ensures least { IfSome result (λ w. (other : Code) (at : ℕ) → FadtTableFault bytes.now other at
        → (w.at < at) ⊎ ((w.at ≡ at) × (code_number w.code ≤ code_number other))) }
{
    if u8_at(bytes, PM1_EVT_LEN) < 4 {
        return Some(Witness::at(Code::PmEventLength, PM1_EVT_LEN as u64));
    }
    if u8_at(bytes, PM1_CNT_LEN) < 2 {
        return Some(Witness::at(Code::PmControlLength, PM1_CNT_LEN as u64));
    }
    let timer = u8_at(bytes, PM_TMR_LEN);
    if timer != 0 && timer != 4 {
        return Some(Witness::at(Code::PmTimerLength, PM_TMR_LEN as u64));
    }
    if u8_at(bytes, GPE0_BLK_LEN) % 2 != 0 {
        return Some(Witness::at(Code::GpeLength, GPE0_BLK_LEN as u64));
    }
    if u8_at(bytes, GPE1_BLK_LEN) % 2 != 0 {
        return Some(Witness::at(Code::GpeLength, GPE1_BLK_LEN as u64));
    }
    None
}

/// Whether a reset register is one that the standard allows.
fn is_reset_register(gas: Gas) -> bool
    ensures { IsTrue result ↔ IsResetRegister (gas_value gas) }
{
    gas.space <= 2 && gas.bit_width == 8 && gas.bit_offset == 0
}

/// A register block of a FADT.
#[derive(Clone, Copy, Debug, PartialEq, Eq)]
pub enum Block {
    /// None: neither field has an address.
    None,
    /// The X_ structure, whose address is not 0.
    Gas(Gas),
    /// A system I/O port.
    Port {
        /// The 4-byte field, which is not 0.
        address: u32,
        /// The block's length byte: how many bytes it has.
        bytes: u8,
    },
}

/// The fixed ACPI description table (ACPI 6.5, 5.2.9): at least 116 bytes, and fewer than 2^32. Contracts
/// see the bytes.
///
/// A field exists if it lies completely within the bytes, whatever the revision. The signature, the revision,
/// reserved bytes and bytes past 276 are not checked, nor is what an address points to. An X_ address that exists and
/// is not 0 takes precedence over the 4-byte field.
#[derive(Debug, Drop)]
pub struct Fadt<'a> {
    table: Table<'a>,
}

impl<'a> Model for Fadt<'a> {
    ghost use Rattle.std.specs.Prelude.{◌≤◌, ℕ, List, length};

    ghost Value = { List ℕ };

    ghost view = { λ fadt. fadt.table };

    ghost invariant = { λ fadt. 116 ≤ length fadt.table };
}

impl<'a> Fadt<'a> {
    /// Its minimum length in bytes: up to the end of Flags.
    pub const LEAST_LENGTH: usize = 116;

    /// The view of a table as a FADT. Its signature is not checked.
    ///
    /// Refuses with `FadtShort` if it has fewer than 116 bytes.
    pub fn new(table: Table<'a>) -> Result<Fadt<'a>, Code>
        ensures ok { IsOk result ↔ (116 ≤ length table.entry) }
        ensures same { IfOk result (λ bytes. bytes ≡ table.entry) }
        ensures stage { IfErr result (λ code. stage_of code ≡ Stage.Fadt) }
        ensures fault { IfErr result (λ code. FadtTableFault table.entry code 0) }
        ensures least { IfErr result (λ code. (other : Code) (at : ℕ)
            → FadtTableFault table.entry other at → (0 < at)
            ⊎ ((0 ≡ at) × (code_number code ≤ code_number other))) }
    {
        if table.bytes().len() < Fadt::LEAST_LENGTH {
            return Err(Code::FadtShort);
        }
        Ok(Fadt { table })
    }

    /// The first fault by its offset, or none if the table is valid. The offset is reported as `at`, in bytes from
    /// the table's start, and the other two numbers are 0.
    ///
    /// If HW_REDUCED_ACPI, bit 20 of Flags, is clear (5.2.9, 4.8.3): `PmEventLength` at 88 if PM1_EVT_LEN is below 4;
    /// `PmControlLength` at 89 if PM1_CNT_LEN is below 2; `PmTimerLength` at 91 if PM_TMR_LEN is neither 0 nor 4;
    /// `GpeLength` at 92 or 93 if GPE0_BLK_LEN or GPE1_BLK_LEN is odd. If RESET_REG_SUP, bit 10 of Flags, is set and
    /// the table has at least 129 bytes (4.8.3.6): `ResetRegister` at 116 if RESET_REG's space is above 2, its width
    /// is not 8 bits or its bit offset is not 0.
    pub fn fault(&self) -> Option<Witness>
        ensures none { IsNone result ↔ IsValidFadtTable self.now }
        ensures fault { IfSome result
            (λ w. FadtTableFault self.now w.code w.at × (w.other ≡ 0) × (w.point ≡ 0)) }
        ensures stage { IfSome result (λ w. stage_of w.code ≡ Stage.Fadt) }
        ensures least { IfSome result (λ w. (other : Code) (at : ℕ)
            → FadtTableFault self.now other at → (w.at < at)
            ⊎ ((w.at ≡ at) × (code_number w.code ≤ code_number other))) }
    {
        let bytes = self.bytes();
        if !self.reduced()
            && let Some(w) = length_fault(bytes)
        {
            return Some(w);
        }
        if has_flag(bytes, RESET_REG_SUP)
            && bytes.len() > RESET_VALUE
            && !is_reset_register(gas_in(bytes, RESET_REG))
        {
            return Some(Witness::at(Code::ResetRegister, RESET_REG as u64));
        }
        None
    }

    /// Whether HW_REDUCED_ACPI, bit 20 of Flags, is set: the ACPI registers are not implemented.
    pub fn reduced(&self) -> bool
        ensures { result ≡ is_reduced self.now }
    {
        has_flag(self.bytes(), HW_REDUCED_ACPI)
    }

    /// The field with this number, which is below 41, or none if the table is too short to have it.
    ///
    /// Fields are the numbers of 1, 2 and 4 bytes in the standard's order (table 5.9): 0 is
    /// FIRMWARE_CTRL, 1 DSDT, 2 a reserved byte, 3 Preferred_PM_Profile, 4 SCI_INT, 5 SMI_CMD,
    /// 6 ACPI_ENABLE, 7 ACPI_DISABLE, 8 S4BIOS_REQ, 9 PSTATE_CNT; 10 to 17 are PM1a_EVT_BLK, PM1b_EVT_BLK,
    /// PM1a_CNT_BLK, PM1b_CNT_BLK, PM2_CNT_BLK, PM_TMR_BLK, GPE0_BLK and GPE1_BLK; 18 to 23 PM1_EVT_LEN,
    /// PM1_CNT_LEN, PM2_CNT_LEN, PM_TMR_LEN, GPE0_BLK_LEN and GPE1_BLK_LEN; 24 GPE1_BASE, 25 CST_CNT,
    /// 26 P_LVL2_LAT, 27 P_LVL3_LAT, 28 FLUSH_SIZE, 29 FLUSH_STRIDE, 30 DUTY_OFFSET, 31 DUTY_WIDTH,
    /// 32 DAY_ALRM, 33 MON_ALRM, 34 CENTURY, 35 IAPC_BOOT_ARCH, 36 a reserved byte, 37 Flags,
    /// 38 RESET_VALUE, 39 ARM_BOOT_ARCH and 40 the minor version.
    #[tactic(auto, unfolding(acpi_base::specs::Fadt::field_number))]
    pub fn field(&self, index: u8) -> Option<u64>
        requires { index < 41 }
        ensures { result ≡ field_number self.now index }
    {
        let FieldPlace(offset, width) = field_place(index);
        let bytes = self.bytes();
        let offset = offset as usize;
        let width = width as usize;
        if offset + width > bytes.len() {
            return None;
        }
        Some(number_at(bytes, offset, width))
    }

    /// The FACS's address, from X_FIRMWARE_CTRL at 132 or FIRMWARE_CTRL at 36; 0 for none.
    pub fn facs_address(&self) -> u64
        ensures { result ≡ facs_address self.now }
    {
        let bytes = self.bytes();
        address_of(bytes, X_FIRMWARE_CTRL + 8, X_FIRMWARE_CTRL, FIRMWARE_CTRL)
    }

    /// The DSDT's address, from X_DSDT at 140 or DSDT at 40; 0 for none.
    pub fn dsdt_address(&self) -> u64
        ensures { result ≡ dsdt_address self.now }
    {
        address_of(self.bytes(), X_DSDT + 8, X_DSDT, DSDT)
    }

    /// Register block k, which is below 8: PM1a_EVT, PM1b_EVT, PM1a_CNT, PM1b_CNT, PM2_CNT, PM_TMR, GPE0
    /// and GPE1.
    ///
    /// The X_ structure at 148 + 12k, if the table has it and its address is not 0; otherwise a system I/O port at
    /// the 4-byte address at 56 + 4k, if that is not 0, whose length is the byte at 88, 88, 89, 89, 90, 91, 92 or 93;
    /// otherwise none. The two need not agree, which is this project's choice.
    #[tactic(auto, unfolding(acpi_base::specs::Fadt::block_value))]
    pub fn block(&self, k: u8) -> Block
        requires { k < 8 }
        ensures { block_view_value result ≡ block_value self.now k }
    {
        let bytes = self.bytes();
        let structure = X_PM1A_EVT_BLK + Gas::LEN * k as usize;
        if wide_address(bytes, structure + Gas::LEN, structure + 4).is_some() {
            return Block::Gas(gas_in(bytes, structure));
        }
        let address = u32_at(bytes, PM1A_EVT_BLK + 4 * k as usize);
        if address == 0 {
            return Block::None;
        }
        Block::Port {
            address,
            bytes: u8_at(bytes, BLOCK_LENGTHS[k as usize]),
        }
    }

    /// All its bytes, with the header: as many as its Length says, at least 116, and fewer than 2^32.
    pub fn bytes(&self) -> &'a [u8]
        ensures bytes { result.now ≡ self.now }
        ensures count { (116 ≤ length self.now) × (length self.now < 2 ^ 32) }
        ensures said { length_of self.now ≡ length self.now }
    {
        self.table.bytes()
    }

    /// The fields of its first 36 bytes. Its length is the number of the table's bytes.
    pub fn header(&self) -> Header
        ensures fields { header_value result ≡ header_of self.now }
        ensures length { result.length ≡ length self.now }
    {
        self.table.header()
    }
}
