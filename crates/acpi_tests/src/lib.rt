//! Tests of other crates, by what these export: `base` tests `acpi_base`, `graph` `acpi_graph`, `lint` `acpi_lint`,
//! `read` `acpi_read` and `write` `acpi_write`. A test is in the file with the name of the module that it tests.
//!
//! A crate with tests is proved twice, without them and with them. So the tests are here, above the crates that they
//! test: each of these is proved once, and this crate is empty without its tests. It exports nothing.
#![tactic(auto)]

#[cfg(test)]
mod base;
#[cfg(test)]
mod graph;
#[cfg(test)]
mod lint;
#[cfg(test)]
mod read;
#[cfg(test)]
mod samples;
#[cfg(test)]
mod write;
