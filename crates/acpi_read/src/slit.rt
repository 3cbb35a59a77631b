//! The SLIT, the system locality information table.

ghost use Rattle.std.specs.Prelude.{◌≡◌, ◌<◌, ◌+◌, ◌↔◌, IsOk, IfOk, IfErr, MatchOption};
ghost use Rattle.acpi_base.specs.Slit.{slit_contents, distance, IsValidSlit};
ghost use Rattle.acpi_read.specs.Slits.{HasRows, AreValidTo, IsFirstSlitFault};

use crate::table::Table;
use acpi_base::field::u64_at;
use acpi_base::{Code, Witness};
use std::marker::Model;

/// The system locality information table (ACPI 6.5, 5.2.17): the relative distance from each of N localities to
/// each of them. Contracts see its length, N and its cells.
///
/// The signature and the revision are not checked, nor that distances are the same both ways.
#[derive(Debug, Drop)]
pub struct Slit<'a> {
    bytes: &'a [u8],
    /// N.
    rows: u32,
}

impl<'a> Model for Slit<'a> {
    ghost use Rattle.acpi_base.specs.Slit.{SlitContents, slit_contents};
    ghost use Rattle.acpi_read.specs.Slits.{HasRows};

    ghost Value = { SlitContents };

    ghost view = { λ slit. slit_contents slit.bytes.now };

    ghost invariant = { λ slit. HasRows slit.bytes.now slit.rows };
}

/// The fault of the cell in row i and column j; if those before it are valid, it is the first.
#[tactic(auto, using(crate::proofs::SlitCells::cells))]
fn cell_fault(bytes: &[u8], count: usize, i: usize, j: usize) -> Option<Witness>
    requires rows { HasRows bytes.now count }
    requires row { i < count }
    requires column { j < count }
    requires before { AreValidTo (slit_contents bytes.now) i j }
    ensures { MatchOption result (AreValidTo (slit_contents bytes.now) i (j + 1))
        (IsFirstSlitFault (slit_contents bytes.now)) }
{
    let at = Slit::CELLS + count * i + j;
    let distance = bytes[at];
    if i == j && distance != 10 {
        return Some(Witness::at(Code::SlitDiagonal, at as u64));
    }
    if distance < 10 {
        return Some(Witness::at(Code::SlitLow, at as u64));
    }
    None
}

/// The first fault of the cells.
#[tactic(auto, using(crate::proofs::SlitCells::rows))]
// As a part of a larger function the loops would keep their counters in memory.
#[inline(never)]
fn cells_fault(bytes: &[u8], count: usize) -> Option<Witness>
    requires { HasRows bytes.now count }
    ensures { MatchOption result (IsValidSlit (slit_contents bytes.now))
        (IsFirstSlitFault (slit_contents bytes.now)) }
{
    for i in 0..count {
        for j in 0..count {
            if let Some(fault) = cell_fault(bytes, count, i, j) {
                return Some(fault);
            }
        }
    }
    None
}

impl<'a> Slit<'a> {
    /// The offset of N, Number of System Localities.
    pub const COUNT: usize = 36;

    /// The offset of the first cell. The cells are stored row by row.
    pub const CELLS: usize = 44;

    /// The view of a table as a SLIT. Its signature is not checked. Refuses with the first fault by its offset, which
    /// is reported as `at`; the other two numbers are 0: `SlitShort` at 0 if it has fewer than 44 bytes; `SlitSize`
    /// at 36 if it does not have 44 bytes and N rows of N cells; `SlitDiagonal` at a cell on the diagonal if it is
    /// not 10; `SlitLow` at a cell if it is below 10.
    #[tactic(auto, using(crate::proofs::SlitCells::slit_faults))]
    pub fn new(table: Table<'a>) -> Result<Slit<'a>, Witness>
        ensures ok { IsOk result ↔ IsValidSlit (slit_contents table.entry) }
        ensures same { IfOk result (λ contents. contents ≡ slit_contents table.entry) }
        ensures fault { IfErr result (IsFirstSlitFault (slit_contents table.entry)) }
    {
        let bytes = table.bytes();
        if bytes.len() < Slit::CELLS {
            return Err(Witness::at(Code::SlitShort, 0));
        }
        let count = u64_at(bytes, Slit::COUNT);
        if Slit::CELLS as u128 + u128::from(count) * u128::from(count) != bytes.len() as u128 {
            return Err(Witness::at(Code::SlitSize, Slit::COUNT as u64));
        }
        if let Some(fault) = cells_fault(bytes, count as usize) {
            return Err(fault);
        }
        Ok(Slit {
            bytes,
            rows: count as u32,
        })
    }

    /// N, how many localities there are: fewer than 65,536.
    pub fn count(&self) -> u32
        ensures { result ≡ self.now.count }
    {
        self.rows
    }

    /// The relative distance from locality i to locality j, which are both below `count`: at 44 + N * i + j. It is 10
    /// from a locality to itself, at least 10 to others, and 255 if there is no path.
    #[tactic(auto, using(crate::proofs::SlitCells::slit_says))]
    pub fn distance(&self, i: u32, j: u32) -> u8
        requires from { i < self.now.count }
        requires to { j < self.now.count }
        ensures { result ≡ distance self.now i j }
    {
        let count = self.count() as usize;
        self.bytes[Slit::CELLS + count * i as usize + j as usize]
    }
}
