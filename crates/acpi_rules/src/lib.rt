//! Rules on the bytes of tables as rows of data: a row says what a rule is, one definition says what a row means, and
//! one evaluator is proved equal to it for every row.
//!
//! Which structures of a table a rule is about is said by a path; one walk finds them, by a description of the table's
//! layout. Where many rules go over the same structures, an index of them saves time.
//!
//! An example, from `crates/acpi_rules/src/tests.rt`. `MADT` has two I/O APICs, at 44 and at 56, both with the ID 7. The
//! row of a rule on them has one case: of the kind `IO_APIC`, without further clauses; the number, which is also what is
//! reported, is the `ID`, and the place that of the I/O APIC.
//!
//! ```rust
//! let tables = Tables {
//!     table: IndexedTable::new(MADT),
//!     other: IndexedTable::new(&[]),
//! };
//! let path = Path::Entries(ENTRIES);
//! let cases: [Case<'_>; 1] = [(IO_APIC, Clauses::None, 0, ID, ID)];
//! let row: Row<'_> = (
//!     112,
//!     Form::Repeated(Repeat::Twice),
//!     &[],
//!     (&path, &cases, &[]),
//!     None,
//! );
//! let found = first_finding(alloc, &row, &tables)?;
//! assert_eq!(rt; found, Some(SECOND));
//! ```
#![tactic(auto)]

mod case;
mod clause;
mod field;
mod given;
mod index;
mod indexed_table;
mod known;
pub mod laws;
mod numbered;
mod numbers;
mod overlap;
mod passes;
mod place;
mod row;
mod series;
mod sites;
mod structures;
mod term;
#[cfg(test)]
mod tests;
mod window;

pub use case::{Case, Kind};
pub use clause::{Clause, Clauses, Test};
pub use field::Field;
pub use index::{Index, Listed, OfType};
pub use indexed_table::IndexedTable;
pub use known::{FoundAs, LookUp, first_of};
pub use numbered::{Numbered, Repeat, first_repeated, lesser, sort_numbers};
pub use numbers::{Numbers, numbers_in_order, sorted_given};
pub use overlap::{Range, first_overlap};
pub use place::Place;
pub use row::{
    Form, Guard, Known, Need, Row, Source, all_guards_hold, first_finding, first_overlap_of,
    given_by_row,
};
pub use series::{
    Extent, Head, Inner, LengthRows, Multiple, Path, Series, Shape, Start, StartRows, Sum, Types,
};
pub use sites::{Site, WalkedSites};
pub use structures::Cut;
pub use term::{Tables, Value, Within};
pub use window::Window;
