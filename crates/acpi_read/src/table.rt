//! System description tables of any kind.

ghost use Rattle.std.specs.Prelude.{◌≡◌, ◌≤◌, ◌<◌, ◌^◌, ◌↔◌, List, ℕ, Some, length, IsTrue, IsOk, IfOk, IfErr, MatchOption};
ghost use Rattle.acpi_base.specs.Codes.{code_number, stage_of};
ghost use Rattle.acpi_base.specs.declared.stage.Stage.{Stage};
ghost use Rattle.acpi_base.specs.Header.{header_of};
ghost use Rattle.acpi_base.specs.Memory.{bytes_at};
ghost use Rattle.acpi_base.specs.Number.{byte_sum};
ghost use Rattle.acpi_base.specs.Tables.{length_of, IsTable, IsValidTable, TableFault};
ghost use Rattle.acpi_base.specs.declared.code.Code.{Code};
ghost use Rattle.acpi_read.specs.Structures.{header_value};

use crate::frame::bytes_of;
use crate::header::{Header, header_at};
use acpi_base::{Code, Frame, LentImage, Question, sum};
use std::marker::Model;

/// A system description table of any kind (ACPI 6.5, 5.2.6): as many bytes as its Length says, from 36 to 2^32 - 1. A
/// table that was read by `read`, or that is known to be valid (`valid`), sums to 0; one that was read by `complete`
/// may not. Contracts see the bytes.
///
/// The signature, the revision and the bytes after the header are not checked.
#[derive(Debug, Drop)]
pub struct Table<'a> {
    bytes: &'a [u8],
}

impl<'a> Model for Table<'a> {
    ghost use Rattle.std.specs.Prelude.{◌≡◌, ◌≤◌, ◌<◌, ◌^◌, ℕ, List, length};
    ghost use Rattle.acpi_base.specs.Tables.{length_of};

    ghost Value = { List ℕ };

    ghost view = { λ table. table.bytes.now };

    ghost invariant = { λ table. (36 ≤ length table.bytes.now) × (length table.bytes.now < 2 ^ 32)
        × (length_of table.bytes.now ≡ length table.bytes.now) };
}

/// Up to how many bytes summing one by one is faster than a search for their running sums: most tables of firmware have
/// fewer.
const FEW: usize = 256;

/// Whether the bytes, which are those at the address, sum to 0 modulo 256. Fewer than 256 of them are read, however
/// many there are.
#[inline(always)]
pub fn sums_to_zero(image: &LentImage<'_>, address: u64, bytes: &[u8]) -> bool
    requires { bytes_at image.now address (length bytes.now) ≡ Some bytes.now }
    ensures { IsTrue result ↔ (byte_sum bytes.now ≡ 0) }
{
    if bytes.len() < FEW {
        return sum(bytes) == 0;
    }
    image.window_sum(address, bytes.len() as u64) == Some(0)
}

impl<'a> Table<'a> {
    /// The table at an address. Any address is allowed, even one that no root table lists.
    ///
    /// Refuses, in this order: `TableHeaderOut` if its header's 36 bytes are not all present; `TableLength` if its
    /// Length is below 36; `TableOut` if its Length bytes are not all present; `TableSum` if they do not sum to 0.
    pub fn read(image: &'a LentImage<'_>, address: u64) -> Result<Table<'a>, Code>
        ensures ok { IsOk result ↔ IsValidTable image.now address }
        ensures value { IfOk result
            (λ bytes. (header : List ℕ) × IsTable image.now address header bytes) }
        ensures fault { IfErr result (TableFault image.now address) }
        ensures stage { IfErr result (λ code. stage_of code ≡ Stage.Tables) }
        ensures least { IfErr result (λ code. (other : Code) → TableFault image.now address other
            → code_number code ≤ code_number other) }
    {
        let bytes = match bytes_of(image, address, Frame::TABLE, None) {
            Ok(bytes) => bytes,
            Err(Question::Length) => return Err(Code::TableLength),
            Err(Question::Bytes) => return Err(Code::TableOut),
            Err(_) => return Err(Code::TableHeaderOut),
        };
        if !sums_to_zero(image, address, bytes) {
            return Err(Code::TableSum);
        }
        Ok(Table { bytes })
    }

    /// The table at an address at which there is known to be a valid one. Its bytes are not summed again.
    pub fn valid(image: &'a LentImage<'_>, address: u64) -> Table<'a>
        requires { IsValidTable image.now address }
        ensures { (header : List ℕ) × IsTable image.now address header result }
    {
        let Ok(bytes) = bytes_of(image, address, Frame::TABLE, None) else {
            unreachable!()
        };
        Table { bytes }
    }

    /// The table at an address, whatever its bytes sum to. None if there is no complete one: if its header's 36 bytes
    /// are not all present, its Length is below 36, or its Length bytes are not all present.
    pub fn complete(image: &'a LentImage<'_>, address: u64) -> Option<Table<'a>>
        ensures { MatchOption result
            ((header bytes : List ℕ) → ¬ IsTable image.now address header bytes)
            (λ bytes. (header : List ℕ) × IsTable image.now address header bytes) }
    {
        let bytes = bytes_of(image, address, Frame::TABLE, None).ok()?;
        Some(Table { bytes })
    }

    /// Another view of the same table: several stages look at one. No byte is copied.
    pub fn copied(&self) -> Table<'a>
        ensures { result ≡ self.now }
    {
        Table { bytes: self.bytes }
    }

    /// All its bytes, with the header: as many as its Length says, at least 36, and fewer than 2^32.
    pub fn bytes(&self) -> &'a [u8]
        ensures bytes { result.now ≡ self.now }
        ensures count { (36 ≤ length self.now) × (length self.now < 2 ^ 32) }
        ensures said { length_of self.now ≡ length self.now }
    {
        self.bytes
    }

    /// The fields of its first 36 bytes. Its length is the number of the table's bytes.
    #[tactic(auto, unfolding(acpi_base::specs::Header::header_of))]
    pub fn header(&self) -> Header
        ensures fields { header_value result ≡ header_of self.now }
        ensures length { result.length ≡ length self.now }
    {
        header_at(self.bytes)
    }
}
