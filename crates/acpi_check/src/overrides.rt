//! Stage 8: the MADT's overrides of ISA interrupts.

ghost use Rattle.std.specs.Prelude.{◌≢◌, ◌<◌, IfErr, IfSome, IsTrue};
ghost use Rattle.acpi_base.specs.Madt.{madt_contents, Overrides, DoOverridesAgree, OverrideFault};
ghost use Rattle.acpi_base.specs.declared.stage.Stage.{Stage};
ghost use Rattle.acpi_read.specs.Madts.{madt_value};
ghost use Rattle.acpi_check.specs.FirstSeen.{FindsOther, IsGiven};
ghost use Rattle.acpi_check.specs.TableResults.{FindsFirst};
ghost use Rattle.acpi_check.specs.declared.refusal.Refusal.{Refusal};

use crate::first_seen::{Given, OtherValue, pass_given};
use crate::refusal::Refusal;
use acpi_base::{Code, Witness};
use acpi_read::{MadtEntry, Table};

/// How many Sources there are: a Source is one byte.
const SOURCES: usize = 256;

/// The interrupt number that an override gives its Source. None for another entry.
fn number_given(entry: &MadtEntry<'_>) -> Option<Given>
    ensures given { IsGiven Overrides (madt_value entry.now) result }
    ensures inside { IfSome result (λ g. g.key < 256) }
{
    match entry {
        MadtEntry::Override(read) => Some(Given {
            key: usize::from(read.source),
            value: read.gsi,
        }),
        _ => None,
    }
}

/// Whether no two overrides of a MADT are of one Source, as in most machines. Then none is given two numbers.
#[inline(never)]
fn do_sources_differ(madt: &Table<'_>) -> bool
    ensures { IsTrue result → DoOverridesAgree (madt_contents madt.now) }
{
    let mut entries = madt.entries::<MadtEntry<'_>>();
    let mut seen = [false; SOURCES];
    while let Some(at) = entries.next() {
        if let Some(Given { key: source, .. }) = number_given(&at.entry) {
            if seen[source] {
                return false;
            }
            seen[source] = true;
        }
    }
    true
}

/// The first override of a MADT that gives its Source another number than an earlier one.
// Each call clears a table of 6 KiB. As a part of its caller it would clear that for each check.
#[inline(never)]
fn first_other_number(madt: &Table<'_>) -> Option<OtherValue>
    ensures { FindsOther Overrides (madt_contents madt.now).entries result }
{
    let mut entries = madt.entries::<MadtEntry<'_>>();
    let mut firsts = [None; SOURCES];
    while let Some(at) = entries.next() {
        if let Some(found) = pass_given(&mut firsts, at.offset, number_given(&at.entry)) {
            return Some(found);
        }
    }
    None
}

/// Whether a MADT's overrides give each Source one interrupt number (ACPI 6.5, 5.2.12.5), whatever their bus. The
/// MADT may have any entries. Allocates nothing.
///
/// Refuses with `Fault` and the code `OverrideClash` if one gives its Source another number than an earlier one: `at`
/// is the offset, in bytes from the table's start, of the first that gives its Source another number than the first
/// override of this Source, whose offset is `other`; `point` is the Source, from 0 to 255.
pub fn check_overrides(madt: &Table<'_>) -> Result<(), Refusal>
    ensures settled { FindsFirst Stage.Overrides (DoOverridesAgree (madt_contents madt.now))
        (OverrideFault (madt_contents madt.now)) result }
    ensures memory { IfErr result (λ refusal. refusal ≢ Refusal.OutOfMemory) }
{
    if do_sources_differ(madt) {
        return Ok(());
    }
    match first_other_number(madt) {
        Some(found) => Err(Refusal::Fault(Witness {
            code: Code::OverrideClash,
            at: found.at,
            other: found.other,
            point: found.key as u64,
        })),
        None => Ok(()),
    }
}
