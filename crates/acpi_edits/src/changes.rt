//! Changes around the fields that a case reads.

use crate::lists::List;
use crate::pair::{Change, Pair, Structure};
use acpi_base::TableKind;
use acpi_rules::{Case, Clause, Field, Head, Path, Series, Shape, Source, Value, Within};
use std::alloc::{AllocError, Global};

/// The table that a field is in, if it is not in the structure itself.
fn source_of(within: Within, source: Source) -> Source {
    match (within, source) {
        (Within::Other, Source::Table) => Source::Other,
        (Within::Other, Source::Other) => Source::Table,
        _ => source,
    }
}

/// A field in a table.
#[derive(Clone, Copy, Debug)]
struct Spot {
    /// In which table.
    source: Source,
    /// At which offset.
    at: usize,
    /// How many bytes it has.
    width: usize,
}

/// The fields that a value reads.
fn push_fields(value: &Value, fields: &mut Vec<(Within, Field)>) -> Result<(), AllocError> {
    match *value {
        Value::Of(within, field) | Value::Bits(within, field, _) => {
            fields.push((within, field))?;
        }
        Value::Sum(within, field, _, _) => fields.push((within, field))?,
        Value::SumOf(within, field, _, added) | Value::SumBits(within, _, _, field, added) => {
            fields.push((within, field))?;
            fields.push((within, added))?;
        }
        Value::Product(within, one, other) => {
            fields.push((within, one))?;
            fields.push((Within::Own, other))?;
        }
        Value::Product3(one, other, third) => {
            for field in [one, other, third] {
                fields.push((Within::Own, field))?;
            }
        }
        Value::Matrix(within, _, rows, columns) => {
            fields.push((within, rows))?;
            fields.push((within, columns))?;
        }
        Value::Keyed(_, field) => fields.push((Within::Own, field))?,
        Value::Pair(one, other) | Value::Excess(one, other) => {
            for field in [one, other] {
                fields.push((Within::Own, field))?;
            }
        }
        Value::FirstZero(within, from) => {
            let place = from.saturating_mul(16).saturating_add(1);
            fields.push((within, Field { place }))?;
        }
        Value::Number(_)
        | Value::Largest
        | Value::Length(_)
        | Value::Behind(..)
        | Value::Offset(..)
        | Value::End(_) => {}
    }
    Ok(())
}

/// The field's place, of a structure of a list.
fn place_of(list: &List, of: Structure, within: Within, field: Field) -> Spot {
    let start = match within {
        Within::Table | Within::Other | Within::Outer => 0,
        Within::Around => of.around,
        Within::Own => of.at,
    };
    Spot {
        source: source_of(within, list.source),
        at: start.saturating_add(usize::from(field.at())),
        width: usize::from(field.width()),
    }
}

/// The number at a place; 0 where there is none.
fn number_at(pair: &Pair, spot: Spot) -> u64 {
    let mut number: u64 = 0;
    let bytes = pair.bytes(spot.source);
    for index in (0..spot.width.min(8)).rev() {
        let byte = bytes
            .get(spot.at.saturating_add(index))
            .copied()
            .unwrap_or(0);
        number = number.wrapping_mul(256) | u64::from(byte);
    }
    number
}

/// The number that a value names, of one with fields what is added or the mask.
fn named_number(value: &Value) -> Option<u64> {
    match *value {
        Value::Number(number) | Value::Behind(_, number) => Some(u64::from(number)),
        Value::Largest => Some(u64::MAX),
        Value::Offset(_, number) | Value::FirstZero(_, number) => Some(u64::from(number)),
        Value::Bits(_, _, number) | Value::Sum(_, _, _, number) | Value::Matrix(_, number, _, _) =>
            { Some(u64::from(number)) }
        Value::SumBits(_, _, mask, _, _) => Some(u64::from(mask)),
        _ => None,
    }
}

/// The number that a value names, and those next to it.
fn push_numbers(value: &Value, numbers: &mut Vec<u64>) -> Result<(), AllocError> {
    if let Some(number) = named_number(value) {
        for near in [number, number.wrapping_sub(1), number.wrapping_add(1)] {
            numbers.push(near)?;
        }
    }
    Ok(())
}

/// The fields that a case reads.
pub fn fields_of_case(alloc: Global, case: &Case<'_>) -> Result<Vec<(Within, Field)>, AllocError> {
    let mut fields = Vec::new(alloc);
    for clause in case.1.as_slice() {
        push_fields(&clause.left, &mut fields)?;
        push_fields(&clause.right, &mut fields)?;
    }
    push_fields(&case.3, &mut fields)?;
    push_fields(&case.4, &mut fields)?;
    each_once(alloc, &fields)
}

/// How the entries begin that a list is about: with their type and their length. None if it is about others.
pub fn head_of(list: &List) -> Option<Head> {
    match *list.path {
        Path::Entries(
            Series {
                shape: Shape::Headed(head),
                ..
            },
        ) => Some(head),
        _ => None,
    }
}

/// Whether a value is the length of the other table.
fn is_other_length(value: &Value) -> bool {
    matches!(value, Value::Length(Within::Other))
}

/// What is changed of a structure: the fields of clauses or of a case, and numbers that are tried in them.
#[derive(Debug, Drop)]
struct Around {
    fields: Vec<(Within, Field)>,
    numbers: Vec<u64>,
    /// Whether the length of the other table is read.
    is_long: bool,
}

/// These, each once.
fn each_once<T: Copy + PartialEq>(alloc: Global, all: &[T]) -> Result<Vec<T>, AllocError> {
    let mut once: Vec<T> = Vec::new(alloc);
    for one in all {
        if !once.iter().any(|known| known == one) {
            once.push(*one)?;
        }
    }
    Ok(once)
}

impl Around {
    /// No fields and no numbers.
    fn new(alloc: Global) -> Around {
        Around {
            fields: Vec::new(alloc),
            numbers: Vec::new(alloc),
            is_long: false,
        }
    }

    /// Adds the numbers that are tried in all fields.
    fn add_usual(&mut self) -> Result<(), AllocError> {
        for number in [0, 1, 2, 4, 8, 16, 32, 64, 128, u64::MAX] {
            self.numbers.push(number)?;
        }
        let mut power: u64 = 1;
        for _ in 0..8 {
            self.numbers.push(power)?;
            self.numbers.push(power.wrapping_mul(0x80))?;
            power = power.wrapping_mul(256);
        }
        Ok(())
    }

    /// Adds the fields and the numbers of a value.
    fn add(&mut self, value: &Value) -> Result<(), AllocError> {
        push_fields(value, &mut self.fields)?;
        push_numbers(value, &mut self.numbers)?;
        if is_other_length(value) {
            self.is_long = true;
        }
        Ok(())
    }

    /// Adds those of a clause.
    fn add_clause(&mut self, clause: &Clause) -> Result<(), AllocError> {
        self.add(&clause.left)?;
        self.add(&clause.right)
    }

    /// Adds a number and those next to it.
    fn add_number(&mut self, number: u16) -> Result<(), AllocError> {
        let number = u64::from(number);
        for near in [number, number.wrapping_sub(1), number.wrapping_add(1)] {
            self.numbers.push(near)?;
        }
        Ok(())
    }

    /// Each once, with the numbers that the fields of a structure have.
    fn complete(
        self,
        alloc: Global,
        pair: &Pair,
        list: &List,
        of: Structure,
    ) -> Result<Around, AllocError> {
        let Around {
            fields,
            mut numbers,
            is_long,
        } = self;
        for (within, field) in fields.iter() {
            numbers.push(number_at(pair, place_of(list, of, *within, *field)))?;
        }
        Ok(Around {
            fields: each_once(alloc, &fields)?,
            numbers: each_once(alloc, &numbers)?,
            is_long,
        })
    }
}

/// The lengths that are tried.
pub const LONGEST: u64 = 512;

/// The length of the fields that each table of a kind has: shorter ones are not read.
fn least_length(table: &[u8]) -> u64 {
    match TableKind::of(table) {
        Some(TableKind::Fadt) => 116,
        Some(TableKind::Madt | TableKind::Slit) => 44,
        Some(TableKind::Srat) => 48,
        Some(TableKind::Pptt) | None => 36,
    }
}

/// Other lengths of a structure: the numbers, and those with which a field ends at its end.
fn push_sizes(
    alloc: Global,
    pair: &Pair,
    list: &List,
    of: Structure,
    around: &Around,
    changes: &mut Vec<Change>,
) -> Result<(), AllocError> {
    let source = list.source;
    let (length, least) = match (head_of(list), list.path) {
        (Some(head), _) => (Some(head.length), u64::from(head.least)),
        (None, Path::Table) => (None, least_length(pair.bytes(source))),
        _ => return Ok(()),
    };
    let mut sizes = Vec::new(alloc);
    for (_, field) in around.fields.iter() {
        let size = u64::from(field.at()).saturating_add(u64::from(field.width()));
        sizes.push(size)?;
        sizes.push(size.saturating_sub(1))?;
    }
    sizes.extend_from_slice(&around.numbers)?;
    for size in sizes.iter() {
        if least <= *size && *size < LONGEST {
            changes.push(Change::Resize {
                source,
                of,
                length,
                size: *size as usize,
            })?;
        }
    }
    Ok(())
}

/// Other lengths of the other table, where its length is read.
fn push_other_sizes(
    pair: &Pair,
    list: &List,
    around: &Around,
    changes: &mut Vec<Change>,
) -> Result<(), AllocError> {
    let other = source_of(Within::Other, list.source);
    let whole = Structure {
        at: 0,
        size: pair.bytes(other).len(),
        around: 0,
        kind: 0,
    };
    let least = least_length(pair.bytes(other));
    for number in around.numbers.iter() {
        if around.is_long && least <= *number && *number < LONGEST {
            changes.push(Change::Resize {
                source: other,
                of: whole,
                length: None,
                size: *number as usize,
            })?;
        }
    }
    Ok(())
}

/// Each number in each field.
fn push_writes(
    list: &List,
    of: Structure,
    around: &Around,
    changes: &mut Vec<Change>,
) -> Result<(), AllocError> {
    for (within, field) in around.fields.iter() {
        let spot = place_of(list, of, *within, *field);
        for number in around.numbers.iter() {
            changes.push(Change::Write {
                source: spot.source,
                at: spot.at,
                width: spot.width,
                number: *number,
            })?;
        }
    }
    Ok(())
}

/// The bytes that are tried at each place in a field and beside it.
const BYTES: [u8; 16] = [0, 1, 2, 3, 4, 5, 6, 8, 16, 32, 64, 127, 128, 192, 254, 255];

/// Each of these bytes at each place in each field and beside it.
fn push_bytes(
    list: &List,
    of: Structure,
    around: &Around,
    changes: &mut Vec<Change>,
) -> Result<(), AllocError> {
    for (within, field) in around.fields.iter() {
        let spot = place_of(list, of, *within, *field);
        for at in spot.at.saturating_sub(1)..=spot.at.saturating_add(spot.width) {
            for byte in BYTES {
                changes.push(Change::Write {
                    source: spot.source,
                    at,
                    width: 1,
                    number: u64::from(byte),
                })?;
            }
        }
    }
    Ok(())
}

/// Changes of the fields of a clause and of lengths, of which one may make the clause hold for a structure.
pub fn changes_of_clause(
    alloc: Global,
    pair: &Pair,
    list: &List,
    of: Structure,
    clause: &Clause,
) -> Result<Vec<Change>, AllocError> {
    let mut around = Around::new(alloc);
    around.add_clause(clause)?;
    around.add_usual()?;
    let around = around.complete(alloc, pair, list, of)?;
    let mut changes = Vec::new(alloc);
    push_writes(list, of, &around, &mut changes)?;
    push_sizes(alloc, pair, list, of, &around, &mut changes)?;
    push_other_sizes(pair, list, &around, &mut changes)?;
    Ok(changes)
}

/// Changes of bytes in the fields of a clause and beside them.
pub fn bytes_of_clause(
    alloc: Global,
    list: &List,
    of: Structure,
    clause: &Clause,
) -> Result<Vec<Change>, AllocError> {
    let mut around = Around::new(alloc);
    around.add_clause(clause)?;
    let mut changes = Vec::new(alloc);
    push_bytes(list, of, &around, &mut changes)?;
    Ok(changes)
}

/// Other types of an entry, which it says in a field.
fn push_kinds(
    list: &List,
    of: Structure,
    kind: Field,
    case: &Case<'_>,
    changes: &mut Vec<Change>,
) -> Result<(), AllocError> {
    for number in [case.0.first, case.0.last] {
        for near in [number.wrapping_sub(1), number, number.wrapping_add(1)] {
            changes.push(Change::Write {
                source: list.source,
                at: of.at.saturating_add(usize::from(kind.at())),
                width: usize::from(kind.width()),
                number: u64::from(near),
            })?;
        }
    }
    Ok(())
}

/// Changes around the fields that a case reads of a structure, of its type and of its length.
pub fn changes_of_case(
    alloc: Global,
    pair: &Pair,
    list: &List,
    of: Structure,
    case: &Case<'_>,
) -> Result<Vec<Change>, AllocError> {
    let mut around = Around::new(alloc);
    for clause in case.1.as_slice() {
        around.add_clause(clause)?;
    }
    around.add(&case.3)?;
    around.add(&case.4)?;
    for number in [case.0.first, case.0.last, case.0.least, case.0.most] {
        around.add_number(number)?;
    }
    around.add_usual()?;
    let around = around.complete(alloc, pair, list, of)?;
    let mut changes = Vec::new(alloc);
    push_writes(list, of, &around, &mut changes)?;
    push_sizes(alloc, pair, list, of, &around, &mut changes)?;
    push_other_sizes(pair, list, &around, &mut changes)?;
    push_bytes(list, of, &around, &mut changes)?;
    if let Some(head) = head_of(list) {
        push_kinds(list, of, head.kind, case, &mut changes)?;
    }
    Ok(changes)
}
