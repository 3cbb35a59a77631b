//! Tests of `acpi_graph`.

mod clash;
mod example;
mod stray;
