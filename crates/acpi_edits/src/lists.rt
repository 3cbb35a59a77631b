//! The lists of cases of a row.

use acpi_rules::{Case, Form, FoundAs, Known, LookUp, Need, Path, Row, Source};
use std::alloc::{AllocError, Global};

/// What a list of cases of a row is for.
#[derive(Clone, Copy, Debug, PartialEq, Eq)]
pub enum Role {
    /// A condition.
    Guard(Need),
    /// The numbers that the rule is about.
    Given,
    /// The places at which these do not count.
    Except,
    /// The numbers among which they are looked up.
    Known,
    /// The places at which those do not count.
    KnownExcept,
}

/// A list of cases of a row.
#[derive(Clone, Copy, Debug)]
pub struct List {
    /// What it is for.
    pub role: Role,
    /// In which table the structures are.
    pub source: Source,
    /// The path to them.
    pub path: &'static Path,
    /// The cases.
    pub cases: &'static [Case<'static>],
}

/// What numbers are looked up in where they are not looked up.
const NOWHERE: Known<'static> = (Source::Table, (&Path::Table, &[], &[]));

/// The lists of a row: those of its conditions in their order, and four more.
pub fn lists_of(alloc: Global, row: &Row<'static>) -> Result<Vec<List>, AllocError> {
    let mut lists = Vec::new(alloc);
    for guard in row.2 {
        lists.push(List {
            role: Role::Guard(guard.0),
            source: guard.1,
            path: guard.2,
            cases: guard.3,
        })?;
    }
    let (path, given, except) = row.3;
    let (source, (known_path, among, known_except)) = *row.4.unwrap_or(&NOWHERE);
    for (role, source, path, cases) in [
        (Role::Given, Source::Table, path, given),
        (Role::Except, Source::Table, path, except),
        (Role::Known, source, known_path, among),
        (Role::KnownExcept, source, known_path, known_except),
    ] {
        lists.push(List {
            role,
            source,
            path,
            cases,
        })?;
    }
    Ok(lists)
}

impl Role {
    /// Whether the number that a case gives is read.
    pub fn reads_number(self) -> bool {
        match self {
            Role::Guard(need) => need == Need::First,
            _ => true,
        }
    }

    /// Whether the place at which a case gives it is read.
    pub fn reads_place(self, form: Form) -> bool {
        match self {
            Role::Given => true,
            Role::Known => matches!(
                form,
                Form::LookedUp(LookUp::Found(FoundAs::First | FoundAs::Behind))
            ),
            _ => false,
        }
    }

    /// Whether one of the structures has to give a number.
    pub fn wants_some(self) -> bool {
        matches!(self, Role::Guard(Need::Some | Need::Two | Need::First))
    }
}
