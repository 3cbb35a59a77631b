//! Codes 46 to 49: the SLIT.

ghost use Rattle.std.specs.Prelude.{◌≡◌, ◌≢◌, ◌<◌, ◌↔◌, IsTrue, MatchOption};
ghost use Rattle.acpi_base.specs.Slit.{SlitFault, SlitFaultAt, HasSlitSize, SomeCell, distance, slit_contents};
ghost use Rattle.acpi_confirm.specs.Cells.{HasCell, HasNoCell};

use acpi_base::field::u64_at;
use acpi_base::{Code, Witness};

/// A cell of the table.
#[derive(Clone, Copy)]
struct Cell {
    row: u64,
    column: u64,
    distance: u8,
}

/// Whether the table has 44 bytes and after them a cell for each pair of a row and a column, and nothing else.
#[tactic(auto, unfolding(acpi_base::specs::Slit::slit_contents))]
fn has_slit_size(slit: &[u8]) -> bool
    ensures { IsTrue result ↔ HasSlitSize (slit_contents slit.now) }
{
    if slit.len() < 44 {
        return false;
    }
    let count = u128::from(u64_at(slit, 36));
    slit.len() as u128 == 44 + count * count
}

/// The cell at an offset of a table that has its cells, if there is one.
#[tactic(auto, using(crate::proofs::Cells::cells))]
fn cell_at(slit: &[u8], at: u64) -> Option<Cell>
    ensures { MatchOption result (HasNoCell (slit_contents slit.now) at)
        (HasCell (slit_contents slit.now) at) }
{
    if !has_slit_size(slit) {
        return None;
    }
    if at >= slit.len() as u64 {
        return None;
    }
    let place = at.checked_sub(44)?;
    let count = u64_at(slit, 36);
    Some(Cell {
        row: place / count,
        column: place % count,
        distance: slit[at as usize],
    })
}

/// Whether the cell at an offset is on the diagonal, and its distance is not 10.
fn is_wrong_diagonal(slit: &[u8], at: u64) -> bool
    ensures { IsTrue result ↔ (HasSlitSize (slit_contents slit.now)
        × SomeCell (slit_contents slit.now) at
        (λ i j. (i ≡ j) × (distance (slit_contents slit.now) i j ≢ 10))) }
{
    cell_at(slit, at).is_some_and(|cell| cell.row == cell.column && cell.distance != 10)
}

/// Whether the distance in the cell at an offset is below 10.
fn is_low(slit: &[u8], at: u64) -> bool
    ensures { IsTrue result ↔ (HasSlitSize (slit_contents slit.now)
        × SomeCell (slit_contents slit.now) at
        (λ i j. distance (slit_contents slit.now) i j < 10)) }
{
    cell_at(slit, at).is_some_and(|cell| cell.distance < 10)
}

/// Whether the table has this fault at this offset.
#[tactic(auto, using(acpi_base::proofs::Slit::slit_size))]
fn has_fault_at(slit: &[u8], code: Code, at: u64) -> bool
    ensures { IsTrue result ↔ SlitFaultAt (slit_contents slit.now) code at }
{
    match code {
        Code::SlitShort => slit.len() < 44 && at == 0,
        Code::SlitSize => slit.len() >= 44 && !has_slit_size(slit) && at == 36,
        Code::SlitDiagonal => is_wrong_diagonal(slit, at),
        Code::SlitLow => is_low(slit, at),
        _ => false,
    }
}

/// Whether the SLIT has this fault of stage 11.
pub(crate) fn is_slit_fault(slit: &[u8], witness: &Witness) -> bool
    ensures { IsTrue result ↔ SlitFault (slit_contents slit.now) witness.now.code witness.now.at
        witness.now.other witness.now.point }
{
    has_fault_at(slit, witness.code, witness.at) && witness.other == 0 && witness.point == 0
}
