//! Tests of `acpi_read`.

mod entries;
mod example;
mod facs;
mod fadt;
mod gas;
mod header;
mod layout;
mod listed;
mod madt;
mod pptt;
mod root;
mod rsdp;
mod slit;
mod srat;
mod table;
