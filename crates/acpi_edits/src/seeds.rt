//! Tables on which it may show what a row finds by a case.

use crate::build::{append_twin, satisfy};
use crate::changes::changes_of_case;
use crate::edits::{cases_without, row_with};
use crate::lists::{List, Role, lists_of};
use crate::pair::{Change, Pair, Structure, structures};
use acpi_rules::{Case, Form, Need, Row, first_finding};
use std::alloc::{AllocError, Global};

/// A case of a list of a row.
#[derive(Clone, Copy, Debug)]
pub struct Aim {
    /// The row.
    pub row: Row<'static>,
    /// Which of its lists.
    pub list: usize,
    /// Which case of it.
    pub case: usize,
}

/// Tables, with the structures that the case may be about, and changes of these.
#[derive(Debug, Drop)]
pub struct Seed {
    /// The tables.
    pub pair: Pair,
    /// The structures.
    pub structures: Vec<Structure>,
    /// The changes.
    pub changes: Vec<Change>,
}

/// How many tables there are at most on which the case decides what the row finds, and how many others.
const MOST_DECIDED: usize = 60;

const MOST_OTHERS: usize = 200;

const MOST_BUILT_OTHERS: usize = 12;

/// Whether two rows find the same in two tables.
pub fn agree(
    alloc: Global,
    one: &Row<'_>,
    other: &Row<'_>,
    pair: &Pair,
) -> Result<bool, AllocError> {
    let tables = pair.tables();
    Ok(first_finding(alloc, one, &tables)? == first_finding(alloc, other, &tables)?)
}

/// Changes two tables so that the case at an index of a list holds, if the list has it, twice where that is wanted;
/// whether that was possible.
fn hold(
    alloc: Global,
    pair: &mut Pair,
    list: &List,
    index: usize,
    is_twice: bool,
) -> Result<bool, AllocError> {
    let Some(case) = list.cases.get(index) else {
        return Ok(true);
    };
    if !satisfy(alloc, pair, list, case)? {
        return Ok(false);
    }
    if is_twice {
        append_twin(alloc, pair, list, case)?;
    }
    Ok(true)
}

/// Two tables changed so that the case holds, and what the row asks beside it, with the main case at an index.
fn built(
    alloc: Global,
    base: &Pair,
    aim: &Aim,
    main: usize,
    is_twice: bool,
) -> Result<Option<Pair>, AllocError> {
    let mut pair = base.copied(alloc)?;
    for (index, list) in lists_of(alloc, &aim.row)?.iter().enumerate() {
        let is_own = index == aim.list;
        let twice = list.role == Role::Guard(Need::Two) || (is_twice && list.role == Role::Given);
        let case = match list.role {
            _ if is_own => aim.case,
            Role::Given => main,
            role if role.wants_some() => 0,
            _ => continue,
        };
        if !hold(alloc, &mut pair, list, case, twice)? {
            return Ok(None);
        }
    }
    Ok(Some(pair))
}

/// Tables in which the case of a row holds, mostly: some on which it decides what the row finds, and some others.
#[derive(Debug, Drop)]
struct SomePairs {
    decided: Vec<Pair>,
    others: Vec<Pair>,
}

impl SomePairs {
    /// Adds tables, unless they are there or enough are. `without` is the row without the case.
    fn add(
        &mut self,
        alloc: Global,
        row: &Row<'static>,
        without: &Row<'static>,
        pair: Pair,
        most: usize,
    ) -> Result<(), AllocError> {
        if self.decided.contains(&pair) || self.others.contains(&pair) {
            return Ok(());
        }
        if agree(alloc, row, without, &pair)? {
            if self.others.len() < most {
                self.others.push(pair)?;
            }
        } else if self.decided.len() < MOST_DECIDED {
            self.decided.push(pair)?;
        }
        Ok(())
    }
}

/// How many of the first cases of the numbers that a rule is about are tried beside a case of another list.
const MAINS: usize = 3;

/// Tables built from some, so that the case of a row holds, and these.
fn built_from(
    alloc: Global,
    bases: &[Pair],
    aim: &Aim,
    list: &List,
) -> Result<SomePairs, AllocError> {
    let cases = cases_without(alloc, list.cases, aim.case)?;
    let without = row_with(alloc, &aim.row, aim.list, cases)?;
    let mut all = SomePairs {
        decided: Vec::new(alloc),
        others: Vec::new(alloc),
    };
    let is_compared = matches!(aim.row.1, Form::Repeated(_) | Form::Overlap(_));
    let mains = if list.role == Role::Given { 1 } else { MAINS };
    for main in 0..mains {
        for base in bases {
            let once = built(alloc, base, aim, main, false)?;
            let twice = if is_compared {
                built(alloc, base, aim, main, true)?
            } else {
                None
            };
            for pair in [once, twice].into_iter().flatten() {
                all.add(alloc, &aim.row, &without, pair, MOST_BUILT_OTHERS)?;
            }
        }
    }
    for base in bases {
        let pair = base.copied(alloc)?;
        all.add(alloc, &aim.row, &without, pair, MOST_OTHERS)?;
    }
    Ok(all)
}

/// The structures that may be of a kind of a case, or of the next types.
fn structures_near(
    alloc: Global,
    pair: &Pair,
    list: &List,
    case: &Case<'_>,
) -> Result<Vec<Structure>, AllocError> {
    let mut near = Vec::new(alloc);
    for of in structures(alloc, list.path, pair.bytes(list.source))? {
        if of.kind.saturating_add(1) >= u64::from(case.0.first)
            && u64::from(case.0.last).saturating_add(1) >= of.kind
        {
            near.push(of)?;
        }
    }
    Ok(near)
}

/// The seeds of a case of a row.
pub fn seeds_of(alloc: Global, bases: &[Pair], aim: &Aim) -> Result<Vec<Seed>, AllocError> {
    let mut seeds = Vec::new(alloc);
    let lists = lists_of(alloc, &aim.row)?;
    let Some(list) = lists.get(aim.list) else {
        return Ok(seeds);
    };
    let Some(case) = list.cases.get(aim.case) else {
        return Ok(seeds);
    };
    let SomePairs { decided, others } = built_from(alloc, bases, aim, list)?;
    for pairs in [decided, others] {
        for pair in pairs {
            let structures = structures_near(alloc, &pair, list, case)?;
            let mut changes = Vec::new(alloc);
            for of in structures.iter() {
                changes.extend_from_slice(&changes_of_case(alloc, &pair, list, *of, case)?)?;
            }
            seeds.push(Seed {
                pair,
                structures,
                changes,
            })?;
        }
    }
    Ok(seeds)
}
