//! Examples of the definitions of `acpi_base` and `acpi_write`: tables and sets of tables, worked out by hand, with
//! their contents, their faults, the advice on them, and one rebuilt set. Each is proved by computing.
//!
//! Nothing depends on this crate, so that the program and the library do not wait for its proof. It has no code.
#![tactic(auto)]

pub mod laws;
