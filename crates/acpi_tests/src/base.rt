//! Tests of `acpi_base`.

mod field;
mod image;
mod lent;
mod policy;
mod table_kind;
mod tally;
mod text;
