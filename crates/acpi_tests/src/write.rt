//! Tests of `acpi_write`.

mod encode;
mod rebuilding;
mod set_reading;
