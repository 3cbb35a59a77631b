//! Numbers of the MADT's processors, sorted to be looked up.

ghost use Rattle.std.specs.Prelude.{◌≡◌, IfOk};
ghost use Rattle.acpi_base.specs.Madt.{madt_contents};
ghost use Rattle.acpi_base.specs.Policy.{counts_as_enabled};
ghost use Rattle.acpi_read.specs.Madts.{madt_value};
ghost use Rattle.acpi_check.specs.Processors.{number_of, AreNumbers};

use crate::collecting::collected;
use crate::search::sorted_unique;
use acpi_base::Processors;
use acpi_read::{MadtEntry, Table};
use std::alloc::{AllocError, Global};

/// By which number processors are looked up.
#[derive(Clone, Copy)]
pub enum Key {
    /// All, enabled or not, by their UIDs.
    Uid,
    /// Those that count as enabled, by their APIC IDs and x2APIC IDs, which are one number space.
    Enabled(Processors),
}

/// Whether a processor with these flags of the MADT counts as enabled.
#[tactic(auto, unfolding(acpi_base::specs::Number::has_bit, acpi_base::specs::Policy::counts_as_enabled))]
fn counts_as_enabled(processors: Processors, flags: u32) -> bool
    ensures { result ≡ counts_as_enabled processors flags }
{
    let is_enabled = flags & 1 == 1;
    let is_online_capable = flags >> 1 & 1 == 1;
    match processors {
        Processors::Enabled => is_enabled,
        Processors::Usable => is_enabled || is_online_capable,
    }
}

/// The number of the processor that an entry describes. None for another entry.
pub fn number_of(key: Key, entry: &MadtEntry<'_>) -> Option<u32>
    ensures { result ≡ number_of key (madt_value entry.now) }
{
    match (key, entry) {
        (Key::Uid, MadtEntry::LocalApic(processor)) => Some(u32::from(processor.uid)),
        (Key::Uid, MadtEntry::X2apic(processor)) => Some(processor.uid),
        (Key::Enabled(processors), MadtEntry::LocalApic(processor)) => {
            counts_as_enabled(processors, processor.flags).then_some(u32::from(processor.apic_id))
        }
        (Key::Enabled(processors), MadtEntry::X2apic(processor)) => {
            counts_as_enabled(processors, processor.flags).then_some(processor.x2apic_id)
        }
        _ => None,
    }
}

/// The numbers of the processors of a MADT, in rising order and each once.
pub fn numbers_of(alloc: Global, key: Key, madt: &Table<'_>) -> Result<Vec<u64>, AllocError>
    ensures { IfOk result (λ numbers. AreNumbers key (madt_contents madt.now) numbers.items) }
{
    let numbers = collected(alloc, madt.entries::<MadtEntry<'_>>(), |at| {
        number_of(key, &at.entry).map(u64::from)
    })?;
    sorted_unique(numbers)
}
