//! Fields and reserved bytes of a structure that have no meaning.

ghost use Rattle.std.specs.Prelude.{◌≤◌, ◌+◌, length};
ghost use Rattle.acpi_rules.specs.Places.{FindsLeast};
ghost use Rattle.acpi_lint.specs.Rules.FixedFields.{IsAbove, IsUsed};

use acpi_base::field::{number_at, u8_at};
use acpi_rules::Place;

/// The place of the number of this width at an offset, if it is above the greatest one that has a meaning.
pub fn above(bytes: &[u8], offset: usize, width: usize, greatest: u64) -> Option<Place>
    requires width { (1 ≤ width) × (width ≤ 8) }
    requires room { offset + width ≤ length bytes.now }
    ensures { FindsLeast (IsAbove bytes.now offset width greatest) result }
{
    let number = number_at(bytes, offset, width);
    (number > greatest).then_some(Place {
        at: offset as u64,
        other: 0,
        point: number,
    })
}

/// The place of the first byte that is not 0 from `start` up to `end`. None if all are 0.
pub fn used(bytes: &[u8], start: usize, end: usize) -> Option<Place>
    requires { end ≤ length bytes.now }
    ensures { FindsLeast (IsUsed bytes.now start end) result }
{
    for at in start..end {
        let byte = u8_at(bytes, at);
        if byte != 0 {
            return Some(Place {
                at: at as u64,
                other: 0,
                point: u64::from(byte),
            });
        }
    }
    None
}
