//! Tests of the SLIT.

use crate::samples::{Q35, image_of_table};
use acpi_base::{Code, Image, Witness};
use acpi_read::{Slit, Table};
use std::test::*;

/// Whether the SLIT in the image has three localities, and these distances between them.
fn has_distances(image: &Image, rows: [[u8; 3]; 3]) -> Result<bool, Code> {
    let Ok(slit) = Slit::new(Table::read(image, 0x1000)?) else {
        return Ok(false);
    };
    if slit.count() != 3 {
        return Ok(false);
    }
    for i in 0..3 {
        for j in 0..3 {
            if slit.distance(i, j) != rows[i as usize][j as usize] {
                return Ok(false);
            }
        }
    }
    Ok(true)
}

#[test]
fn distances_stand_row_by_row(rt: HostRuntime) -> Result<(), Fail> {
    let body = [3, 0, 0, 0, 0, 0, 0, 0, 10, 12, 13, 21, 10, 23, 255, 32, 10];
    let image = image_of_table(rt.alloc(), &Q35, *b"SLIT", &body)?;
    let rows = [[10, 12, 13], [21, 10, 23], [255, 32, 10]];
    assert!(rt; has_distances(&image, rows) == Ok(true));
    Ok(())
}

/// The fault of the SLIT in the image.
fn fault_of(image: &Image) -> Result<Option<Witness>, Code> {
    Ok(Slit::new(Table::read(image, 0x1000)?).err())
}

/// Bodies of a SLIT, and the first fault of each: its code and its offset.
const FAULTS: [(&[u8], Option<(Code, u64)>); 7] = [
    (&[0; 7], Some((Code::SlitShort, 0))),
    (&[0; 8], None),
    (&[0; 9], Some((Code::SlitSize, 36))),
    // The square of 2^32 is 0 in 64 bits.
    (&[0, 0, 0, 0, 1, 0, 0, 0], Some((Code::SlitSize, 36))),
    (
        &[2, 0, 0, 0, 0, 0, 0, 0, 10, 20, 20, 11],
        Some((Code::SlitDiagonal, 47)),
    ),
    (
        &[2, 0, 0, 0, 0, 0, 0, 0, 10, 9, 20, 11],
        Some((Code::SlitLow, 45)),
    ),
    // A cell on the diagonal that is too low has both faults.
    (
        &[2, 0, 0, 0, 0, 0, 0, 0, 9, 9, 20, 10],
        Some((Code::SlitDiagonal, 44)),
    ),
];

/// The fault of this code at this offset.
fn witness(fault: Option<(Code, u64)>) -> Option<Witness> {
    let (code, offset) = fault?;
    Some(Witness::at(code, offset))
}

#[test]
fn the_first_fault_is_reported(rt: HostRuntime) -> Result<(), Fail> {
    for (body, fault) in &FAULTS {
        let image = image_of_table(rt.alloc(), &Q35, *b"SLIT", body)?;
        let told = fault_of(&image);
        assert!(rt; told == Ok(witness(*fault)), "{body:?}: {told:?}");
    }
    Ok(())
}
