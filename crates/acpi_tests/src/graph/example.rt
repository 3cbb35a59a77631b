//! The example at the head of `acpi_graph`.

use acpi_graph::{Clash, Span, Stray, first_clash, first_stray};
use std::test::*;

// The example at the head of `acpi_graph`.
#[test]
fn example_finds_a_clash_and_a_stray(rt: HostRuntime) -> Result<(), Fail> {
    let alloc = rt.alloc();
    let low = Span::new(0, 10, 1).unwrap();
    let high = Span::new(8, 12, 2).unwrap();
    let spans = vec![in alloc; low, high]?;
    let (clash, comparisons) = first_clash(alloc, spans)?;
    let found = Clash::At {
        first: 1,
        second: 2,
        point: 8,
    };
    assert!(rt; clash == found && comparisons == 1);

    let (stray, steps) = first_stray(alloc, &[None, Some(0), Some(3), Some(3)])?;
    let found = Stray::Round {
        node: 2,
        lead: 1,
        round: 1,
    };
    assert!(rt; stray == found && steps == 4);
    Ok(())
}
