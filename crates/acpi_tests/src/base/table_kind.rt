//! Tests of the kinds of tables.

use acpi_base::TableKind;
use std::test::*;

/// The first bytes of tables, and the kind of each.
const STARTS: [(&[u8], Option<TableKind>); 8] = [
    (b"FACP\xf4\0\0\0", Some(TableKind::Fadt)),
    (b"APIC", Some(TableKind::Madt)),
    (b"SRAT", Some(TableKind::Srat)),
    (b"SLIT", Some(TableKind::Slit)),
    (b"PPTT", Some(TableKind::Pptt)),
    (b"FACS", None),
    (b"APIc", None),
    (b"SLI", None),
];

#[test]
fn kinds_are_known_by_their_signatures(rt: HostRuntime) {
    for (bytes, kind) in &STARTS {
        assert!(rt; TableKind::of(bytes) == *kind, "{bytes:?}");
    }
}
