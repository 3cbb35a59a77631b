//! The example at the head of the crate, and the same with an index.

ghost use Rattle.acpi_rules.specs.Indexes.{IsIndexOf};

use crate::{
    Case, Clauses, Extent, Field, Form, Head, Index, IndexedTable, Kind, Numbered, Path, Place,
    Range, Repeat, Row, Series, Shape, Start, Tables, Value, Within, first_finding, first_overlap,
};
use std::alloc::{AllocError, Global};
use std::test::*;

/// The entries of a MADT: a type of a byte and a length of a byte each, from offset 44 to the end.
const ENTRIES: Series = Series {
    start: Start::At(44),
    extent: Extent::ToEnd,
    shape: Shape::Headed(Head {
        kind: Field { place: 1 },
        length: Field { place: 17 },
        least: 2,
    }),
};

/// An I/O APIC: of type 1, with 12 bytes.
const IO_APIC: Kind = Kind {
    first: 1,
    last: 1,
    least: 12,
    most: 12,
};

/// Its ID.
const ID: Value = Value::Of(Within::Own, Field { place: 33 });

/// A MADT with two I/O APICs, at 44 and at 56, which both have the ID 7.
const MADT: &[u8] = b"APIC\x44\0\0\0\x05\0AAAAAABBBBBBBBCCCCDDDDEEEE\0\0\xe0\xfe\0\0\0\0\
    \x01\x0c\x07\0\0\0\xc0\xfe\0\0\0\0\x01\x0c\x07\0\0\0\xc1\xfe\x18\0\0\0";

/// Where the second one is found.
const SECOND: Place = Place {
    at: 56,
    other: 44,
    point: 7,
};

#[test]
fn example_finds_the_same_id_twice(rt: HostRuntime) -> Result<(), Fail> {
    let alloc = rt.alloc();
    let tables = Tables {
        table: IndexedTable::new(MADT),
        other: IndexedTable::new(&[]),
    };
    let path = Path::Entries(ENTRIES);
    let cases: [Case<'_>; 1] = [(IO_APIC, Clauses::None, 0, ID, ID)];
    let row: Row<'_> = (
        112,
        Form::Repeated(Repeat::Twice),
        &[],
        (&path, &cases, &[]),
        None,
    );
    let found = first_finding(alloc, &row, &tables)?;
    assert_eq!(rt; found, Some(SECOND));
    Ok(())
}

/// The same row, in the MADT with an index.
fn found_by_index(alloc: Global, index: &Index) -> Result<Option<Place>, AllocError>
    requires { IsIndexOf index.now MADT.now }
{
    let tables = Tables {
        table: IndexedTable::with(MADT, index),
        other: IndexedTable::new(&[]),
    };
    let path = Path::Entries(ENTRIES);
    let cases: [Case<'_>; 1] = [(IO_APIC, Clauses::None, 0, ID, ID)];
    let row: Row<'_> = (
        112,
        Form::Repeated(Repeat::Twice),
        &[],
        (&path, &cases, &[]),
        None,
    );
    first_finding(alloc, &row, &tables)
}

#[test]
fn an_index_changes_nothing(rt: HostRuntime) -> Result<(), Fail> {
    let alloc = rt.alloc();
    let index = Index::of(alloc, &ENTRIES, MADT)?;
    let found = match &index {
        Some(index) => found_by_index(alloc, index)?,
        None => None,
    };
    assert_eq!(rt; found, Some(SECOND));
    Ok(())
}

/// The first overlap of two ranges: the first one is at 8, the second one at 4. Each is told by its first number and a
/// value.
fn overlap_of(
    alloc: Global,
    range: Range,
    first: (u64, u64),
    second: (u64, u64),
) -> Result<Option<Place>, AllocError> {
    let mut given = Vec::new(alloc);
    for (at, (number, value)) in [(8, first), (4, second)] {
        given.push(Numbered { number, at, value })?;
    }
    first_overlap(given, range)
}

#[test]
fn ranges_overlap_by_counts(rt: HostRuntime) -> Result<(), Fail> {
    let alloc = rt.alloc();
    let found = overlap_of(alloc, Range::Count, (0x1000, 0x11), (0x1010, 1))?;
    let place = Place {
        at: 8,
        other: 4,
        point: 0x1010,
    };
    assert_eq!(rt; found, Some(place));
    let found = overlap_of(alloc, Range::Count, (0x1000, 0x10), (0x1010, 1))?;
    assert_eq!(rt; found, None);
    // An empty range contains nothing, and a range may end at 2^64.
    let found = overlap_of(alloc, Range::Count, (0x1000, 0x11), (0x1010, 0))?;
    assert_eq!(rt; found, None);
    let found = overlap_of(alloc, Range::Count, (u64::MAX, 1), (0, u64::MAX))?;
    assert_eq!(rt; found, None);
    Ok(())
}

#[test]
fn ranges_overlap_by_their_last_numbers(rt: HostRuntime) -> Result<(), Fail> {
    let alloc = rt.alloc();
    let found = overlap_of(alloc, Range::Last, (5, 9), (5, 5))?;
    let place = Place {
        at: 4,
        other: 8,
        point: 5,
    };
    assert_eq!(rt; found, Some(place));
    let found = overlap_of(alloc, Range::Last, (0, 4), (5, u64::MAX))?;
    assert_eq!(rt; found, None);
    // One whose last number is below the first one is empty.
    let found = overlap_of(alloc, Range::Last, (0, 9), (5, 4))?;
    assert_eq!(rt; found, None);
    Ok(())
}
