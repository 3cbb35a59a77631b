//! Codes 46 to 49, and advice on the SLIT (ACPI 6.5, 5.2.17). Its cells are read only if it has the right size.

ghost use Rattle.std.specs.Prelude.{◌<◌, MatchOption};
ghost use Rattle.acpi_base.specs.Slit.{slit_contents, HasSlitSize, SlitFault};
ghost use Rattle.acpi_lint.specs.Rules.SlitAdvice.{IsSlitDiffers, IsRemoteAsLocal};
ghost use Rattle.acpi_base.specs.declared.code.Code.{Code};
ghost use Rattle.acpi_read.specs.Slits.{HasRows};
ghost use Rattle.acpi_rules.specs.Places.{FindsLeast};
ghost use Rattle.acpi_lint.specs.ByHand.{InSized};
ghost use Rattle.acpi_lint.specs.Places.{IsRowDiffers, IsRowLocal};

use acpi_base::Code;
use acpi_base::field::u64_at;
use acpi_read::{Slit, Table};
use acpi_rules::Place;

/// How many rows of as many cells a table has, if it has these after its first 44 bytes, and nothing else.
pub fn rows(bytes: &[u8]) -> Option<usize>
    ensures { MatchOption result (¬ HasSlitSize (slit_contents bytes.now)) (HasRows bytes.now) }
{
    if bytes.len() < Slit::CELLS {
        return None;
    }
    let count = u64_at(bytes, Slit::COUNT);
    if Slit::CELLS as u128 + u128::from(count) * u128::from(count) != bytes.len() as u128 {
        return None;
    }
    Some(count as usize)
}

/// The place of a table that ends before its first cell.
#[tactic(auto, unfolding(acpi_base::specs::Slit::slit_contents))]
fn short_place(bytes: &[u8]) -> Option<Place>
    ensures { FindsLeast (SlitFault (slit_contents bytes.now) Code.SlitShort) result }
{
    (bytes.len() < Slit::CELLS).then_some(Place::at(0))
}

/// The place of the size, if it is not that of the rows.
fn size_place(bytes: &[u8]) -> Option<Place>
    ensures { FindsLeast (SlitFault (slit_contents bytes.now) Code.SlitSize) result }
{
    if bytes.len() < Slit::CELLS {
        return None;
    }
    match rows(bytes) {
        Some(_) => None,
        None => Some(Place::at(Slit::COUNT as u64)),
    }
}

/// The place of the first cell on the diagonal that is not 10.
fn diagonal_place(bytes: &[u8], count: usize) -> Option<Place>
    requires { HasRows bytes.now count }
    ensures { FindsLeast (SlitFault (slit_contents bytes.now) Code.SlitDiagonal) result }
{
    for i in 0..count {
        let at = Slit::CELLS + count * i + i;
        if bytes[at] != 10 {
            return Some(Place::at(at as u64));
        }
    }
    None
}

/// The place of the first cell that is below 10.
fn low_place(bytes: &[u8], count: usize) -> Option<Place>
    requires { HasRows bytes.now count }
    ensures { FindsLeast (SlitFault (slit_contents bytes.now) Code.SlitLow) result }
{
    for at in Slit::CELLS..bytes.len() {
        if bytes[at] < 10 {
            return Some(Place::at(at as u64));
        }
    }
    None
}

/// The place of a SLIT's first fault with this code. None for a code of another stage.
pub fn slit_fault(code: Code, table: Table<'_>) -> Option<Place>
    ensures { FindsLeast (SlitFault (slit_contents table.entry) code) result }
{
    let bytes = table.bytes();
    match code {
        Code::SlitShort => short_place(bytes),
        Code::SlitSize => size_place(bytes),
        Code::SlitDiagonal => diagonal_place(bytes, rows(bytes)?),
        Code::SlitLow => low_place(bytes, rows(bytes)?),
        _ => None,
    }
}

/// The place of the first distance from locality i to a later one that differs from the distance back.
fn row_differs(bytes: &[u8], count: usize, i: usize) -> Option<Place>
    requires rows { HasRows bytes.now count }
    requires row { i < count }
    ensures { FindsLeast (IsRowDiffers (slit_contents bytes.now) i) result }
{
    for j in i + 1..count {
        let there = Slit::CELLS + count * i + j;
        let back = Slit::CELLS + count * j + i;
        if bytes[there] != bytes[back] {
            return Some(Place {
                at: there as u64,
                other: back as u64,
                point: 0,
            });
        }
    }
    None
}

/// 121 SlitDiffers, look at it (5.2.17): the distance between two localities depends on the direction.
/// Numbers: `at` is the offset of the distance from i to j, with i below j, `other` that of the distance from j to i.
/// "The distance at {at} of the SLIT is not that at {other}, of the other direction."
///
/// The place of the first such distance of all localities.
fn rows_differ(bytes: &[u8], count: usize) -> Option<Place>
    requires { HasRows bytes.now count }
    ensures { FindsLeast (IsSlitDiffers (slit_contents bytes.now)) result }
{
    for i in 0..count {
        if let Some(place) = row_differs(bytes, count, i) {
            return Some(place);
        }
    }
    None
}

/// The distance of a locality from itself.
const LOCAL: u8 = 10;

/// The place of the first distance from locality i to another one, `point`, that is 10.
fn row_local(bytes: &[u8], count: usize, i: usize) -> Option<Place>
    requires rows { HasRows bytes.now count }
    requires row { i < count }
    ensures { FindsLeast (IsRowLocal (slit_contents bytes.now) i) result }
{
    for j in 0..count {
        let there = Slit::CELLS + count * i + j;
        if j != i && bytes[there] == LOCAL {
            return Some(Place {
                at: there as u64,
                other: i as u64,
                point: j as u64,
            });
        }
    }
    None
}

/// 179 RemoteAsLocal, likely wrong (5.2.17): the distance of a locality from another one is 10, that from itself.
/// Numbers: `at` is the offset of the distance in the SLIT, `other` is i, `point` is j: it is the distance from i to j.
/// "The distance from locality {other:d} to locality {point:d}, at {at} of the SLIT, is 10, that from a locality to
/// itself."
///
/// The place of the first such distance of all localities; `other` is the locality from which it is.
fn rows_local(bytes: &[u8], count: usize) -> Option<Place>
    requires { HasRows bytes.now count }
    ensures { FindsLeast (IsRemoteAsLocal (slit_contents bytes.now)) result }
{
    for i in 0..count {
        if let Some(place) = row_local(bytes, count, i) {
            return Some(place);
        }
    }
    None
}

/// The same in a table of the right size. The cells of another one are not read.
pub fn slit_differs(slit: &Table<'_>) -> Option<Place>
    ensures { FindsLeast (InSized IsSlitDiffers (slit_contents slit.now)) result }
{
    let bytes = slit.bytes();
    rows_differ(bytes, rows(bytes)?)
}

/// The place of the first distance of a locality from another one that is 10, in a table of the right size.
pub fn remote_as_local(slit: &Table<'_>) -> Option<Place>
    ensures { FindsLeast (InSized IsRemoteAsLocal (slit_contents slit.now)) result }
{
    let bytes = slit.bytes();
    rows_local(bytes, rows(bytes)?)
}
