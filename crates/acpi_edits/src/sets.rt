//! The sets of tables on standard input.

use crate::pair::Pair;
use acpi_base::TableKind;
use acpi_lint::{FurtherTable, RowTable};
use std::alloc::{AllocError, Global};

/// The tables of a set, in the order FADT, MADT, SRAT, SLIT, PPTT, MCFG, HPET, HMAT, GTDT, DMAR, IVRS, SPCR; one that the set does
/// not have has no bytes.
#[derive(Clone, Copy, Debug)]
pub struct Set<'a> {
    tables: [&'a [u8]; 12],
}

impl<'a> Set<'a> {
    /// One of its tables.
    pub fn table(&self, table: RowTable) -> &'a [u8] {
        let [
            fadt,
            madt,
            srat,
            slit,
            pptt,
            mcfg,
            hpet,
            hmat,
            gtdt,
            dmar,
            ivrs,
            spcr,
        ] = self.tables;
        match table {
            RowTable::Kind(TableKind::Fadt) => fadt,
            RowTable::Kind(TableKind::Madt) => madt,
            RowTable::Kind(TableKind::Srat) => srat,
            RowTable::Kind(TableKind::Slit) => slit,
            RowTable::Kind(TableKind::Pptt) => pptt,
            RowTable::Further(FurtherTable::Mcfg) => mcfg,
            RowTable::Further(FurtherTable::Hpet) => hpet,
            RowTable::Further(FurtherTable::Hmat) => hmat,
            RowTable::Further(FurtherTable::Gtdt) => gtdt,
            RowTable::Further(FurtherTable::Dmar) => dmar,
            RowTable::Further(FurtherTable::Ivrs) => ivrs,
            RowTable::Further(FurtherTable::Spcr) => spcr,
        }
    }
}

/// The table that some bytes begin with, after its length as a number of 32 bits, and the bytes after it.
fn split_table(bytes: &[u8]) -> Option<(&[u8], &[u8])> {
    let (length, rest) = bytes.split_at_checked(4)?;
    let length = u32::from_le_bytes([
        *length.first()?,
        *length.get(1)?,
        *length.get(2)?,
        *length.get(3)?,
    ]);
    rest.split_at_checked(length as usize)
}

/// The set that some bytes begin with, and the bytes after it.
fn split_set(bytes: &[u8]) -> Option<(Set<'_>, &[u8])> {
    let (fadt, rest) = split_table(bytes)?;
    let (madt, rest) = split_table(rest)?;
    let (srat, rest) = split_table(rest)?;
    let (slit, rest) = split_table(rest)?;
    let (pptt, rest) = split_table(rest)?;
    let (mcfg, rest) = split_table(rest)?;
    let (hpet, rest) = split_table(rest)?;
    let (hmat, rest) = split_table(rest)?;
    let (gtdt, rest) = split_table(rest)?;
    let (dmar, rest) = split_table(rest)?;
    let (ivrs, rest) = split_table(rest)?;
    let (spcr, rest) = split_table(rest)?;
    let tables = [
        fadt, madt, srat, slit, pptt, mcfg, hpet, hmat, gtdt, dmar, ivrs, spcr,
    ];
    Some((Set { tables }, rest))
}

/// The sets that bytes consist of, up to the first that is not complete.
pub fn read_sets(alloc: Global, bytes: &[u8]) -> Result<Vec<Set<'_>>, AllocError> {
    let mut sets = Vec::new(alloc);
    let mut left = bytes;
    for _ in 0..bytes.len() {
        let Some((set, rest)) = split_set(left) else {
            break;
        };
        sets.push(set)?;
        left = rest;
    }
    Ok(sets)
}

/// Two of its tables, of each set that has them; each two once.
pub fn pairs_of(
    alloc: Global,
    sets: &[Set<'_>],
    table: RowTable,
    other: Option<RowTable>,
) -> Result<Vec<Pair>, AllocError> {
    let mut pairs: Vec<Pair> = Vec::new(alloc);
    for set in sets {
        let bytes = set.table(table);
        let beside: &[u8] = match other {
            Some(other) => set.table(other),
            None => &[],
        };
        let is_there = !bytes.is_empty() && (other.is_none() || !beside.is_empty());
        let is_known = |pair: &Pair| pair.table.as_slice() == bytes
            && pair.other.as_slice() == beside;
        if is_there && !pairs.iter().any(is_known) {
            pairs.push(Pair::new(alloc, bytes, beside)?)?;
        }
    }
    Ok(pairs)
}
