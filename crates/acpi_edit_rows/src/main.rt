//! A program for a test: it edits the rules of `lint` that are rows, and prints each edit after which the row finds the
//! same on all tables that are tried.
#![tactic(auto)]

use acpi_edits::{read_sets, report_unseen};
use acpi_lint::row_groups;
use std::io;
use std::io::Read;

/// Reads sets from standard input, and reports the edits that they do not show.
fn main(rt: HostRuntime) -> io::Result<()> {
    let alloc = rt.alloc();
    let mut bytes = Vec::new(alloc);
    rt.stdin().read_to_end(&mut bytes)?;
    let sets = read_sets(alloc, &bytes)?;
    if sets.is_empty() {
        return println!(rt; "no sets");
    }
    let groups = row_groups();
    report_unseen(&rt, alloc, &groups, &sets)
}
