//! Two tables on which rows are evaluated, and changes of their bytes.

use acpi_rules::{Field, IndexedTable, Path, Source, Tables, WalkedSites};
use std::alloc::{AllocError, Global};

/// A table, and another one, which has no bytes where a row has no other.
#[derive(Debug, Drop, PartialEq, Eq)]
pub struct Pair {
    /// The table that the rows are on.
    pub table: Vec<u8>,
    /// The other one.
    pub other: Vec<u8>,
}

/// A structure of a table, or the table, whose type is 0.
#[derive(Clone, Copy, Debug)]
pub struct Structure {
    /// Its offset.
    pub at: usize,
    /// How many bytes it has.
    pub size: usize,
    /// The offset of the one that it is in; 0 for the table.
    pub around: usize,
    /// Its type.
    pub kind: u64,
}

/// A change of a table's bytes.
#[derive(Clone, Copy, Debug)]
pub enum Change {
    /// The lowest bytes of a number are written at an offset.
    Write {
        /// Into which table.
        source: Source,
        /// The offset.
        at: usize,
        /// How many bytes.
        width: usize,
        /// The number.
        number: u64,
    },
    /// A structure of a table, or the table, gets another length.
    Resize {
        /// Of which table.
        source: Source,
        /// The structure.
        of: Structure,
        /// The field in which the structure says its length, if it does.
        length: Option<Field>,
        /// The new length.
        size: usize,
    },
}

/// Bytes of which those of a structure are cut or followed by zeros, so that it has another length.
fn resized(alloc: Global, bytes: &[u8], of: Structure, size: usize) -> Result<Vec<u8>, AllocError> {
    let mut changed = Vec::new(alloc);
    for byte in bytes.iter().take(of.at) {
        changed.push(*byte)?;
    }
    for byte in bytes.iter().skip(of.at).take(of.size.min(size)) {
        changed.push(*byte)?;
    }
    for _ in of.size..size {
        changed.push(0)?;
    }
    for byte in bytes.iter().skip(of.at.saturating_add(of.size)) {
        changed.push(*byte)?;
    }
    Ok(changed)
}

/// Writes a byte, if the table has one there.
fn put(bytes: &mut Vec<u8>, at: usize, byte: u8) {
    if let Some(place) = bytes.get_mut(at) {
        *place = byte;
    }
}

/// Writes the lowest bytes of a number, at an offset.
fn put_number(bytes: &mut Vec<u8>, at: usize, width: usize, number: u64) {
    for (index, byte) in number.to_le_bytes().iter().enumerate().take(width) {
        put(bytes, at.saturating_add(index), *byte);
    }
}

/// Writes a number into a field of a structure.
pub fn put_field(bytes: &mut Vec<u8>, start: usize, field: Field, number: u64) {
    let at = start.saturating_add(usize::from(field.at()));
    put_number(bytes, at, usize::from(field.width()), number)
}

/// The structures of a path.
pub fn structures(alloc: Global, path: &Path, bytes: &[u8]) -> Result<Vec<Structure>, AllocError> {
    let mut found = Vec::new(alloc);
    for site in WalkedSites::along(path, bytes) {
        found.push(Structure {
            at: site.own.at as usize,
            size: site.own.bytes.len(),
            around: site.around.at as usize,
            kind: site.kind,
        })?;
    }
    Ok(found)
}

impl Pair {
    /// Two tables.
    pub fn new(alloc: Global, table: &[u8], other: &[u8]) -> Result<Pair, AllocError> {
        Ok(Pair {
            table: Vec::from_slice(alloc, table)?,
            other: Vec::from_slice(alloc, other)?,
        })
    }

    /// The same tables.
    pub fn copied(&self, alloc: Global) -> Result<Pair, AllocError> {
        Pair::new(alloc, &self.table, &self.other)
    }

    /// The tables, as rows see them.
    pub fn tables(&self) -> Tables<'_> {
        Tables {
            table: IndexedTable::new(&self.table),
            other: IndexedTable::new(&self.other),
        }
    }

    /// The bytes of one of them.
    pub fn bytes(&self, source: Source) -> &[u8] {
        match source {
            Source::Table => &self.table,
            Source::Other => &self.other,
        }
    }

    /// The bytes of one of them, to be changed.
    fn bytes_mut(&mut self, source: Source) -> &mut Vec<u8> {
        match source {
            Source::Table => &mut self.table,
            Source::Other => &mut self.other,
        }
    }

    /// Makes a change.
    pub fn change(&mut self, alloc: Global, change: &Change) -> Result<(), AllocError> {
        match *change {
            Change::Write {
                source,
                at,
                width,
                number,
            } => {
                put_number(self.bytes_mut(source), at, width, number);
            }
            Change::Resize {
                source,
                of,
                length,
                size,
            } => {
                let mut changed = resized(alloc, self.bytes(source), of, size)?;
                if let Some(length) = length {
                    put_field(&mut changed, of.at, length, size as u64);
                }
                *self.bytes_mut(source) = changed;
            }
        }
        Ok(())
    }

    /// These tables with a change.
    pub fn changed(&self, alloc: Global, change: &Change) -> Result<Pair, AllocError> {
        let mut pair = self.copied(alloc)?;
        pair.change(alloc, change)?;
        Ok(pair)
    }

    /// Adds bytes at the end of one of them.
    pub fn append(&mut self, source: Source, entry: &[u8]) -> Result<(), AllocError> {
        self.bytes_mut(source).extend_from_slice(entry)
    }
}
