//! The slots of the root table that list an address (ACPI 6.5, 5.2.7, 5.2.8).

ghost use Rattle.std.specs.Prelude.{◌≡◌, ℕ, Contains, IfOk, IsSome, OnErr};
ghost use Rattle.acpi_base.specs.Memory.{Memory};
ghost use Rattle.acpi_base.specs.Root.{HasSlot, IsSlot};
ghost use Rattle.acpi_lint.specs.Slots.{IsRootOf, IsSought, IsTableAt, AreSlots, FindsSlot};

use crate::table_at::{Sought, TableAt};
use acpi_base::LentImage;
use acpi_read::Root;
use std::alloc::{AllocError, Global};

/// A slot of the root table that lists an address.
#[derive(Clone, Copy)]
pub struct Slot {
    /// The slot's number, from 0; slots that list nothing count too.
    pub number: u64,
    /// What is at the address, which is not 0.
    pub table: TableAt,
}

/// What is at an address: copied from the slot with this index if that lists the address, otherwise looked up.
fn table_at(image: &LentImage<'_>, slots: &[Slot], index: u32, address: u64) -> TableAt
    requires { (s : Slot) → Contains slots.now s → IsTableAt image.now s.table }
    ensures there { result.address ≡ address }
    ensures noted { IsTableAt image.now result }
{
    match slots.get(index as usize) {
        Some(slot) if slot.table.address == address => slot.table,
        _ => TableAt::of(image, address),
    }
}

/// The slots of a root table that list an address.
fn slots_of(alloc: Global, image: &LentImage<'_>, root: &Root<'_>) -> Result<Vec<Slot>, AllocError>
    ensures { IfOk result
        (λ slots. AreSlots image.now (HasSlot root.now.bytes root.now.width) slots.items) }
{
    // For each remainder of addresses, the index in `slots` of the last one that has it, or 0 if none does: millions of
    // slots may list a few tables. The modulus is odd, since most tables begin at multiples of a power of 2.
    let modulus = u64::from(root.slots()) / 2 * 2 + 1;
    let mut last = vec![in alloc; 0; modulus as usize]?;
    let mut slots = Vec::new(alloc);
    for slot in 0..root.slots() {
        let address = root.slot(slot);
        if address != 0 {
            let remainder = (address % modulus) as usize;
            let table = table_at(image, &slots, last[remainder], address);
            last[remainder] = slots.len() as u32;
            let number = u64::from(slot);
            slots.push(Slot { number, table })?;
        }
    }
    Ok(slots)
}

/// The slots of a set's root table that list an address, in their order. None if there is no root table. Allocates for
/// each slot of the root table, also for those that are 0.
pub fn listed_slots(
    alloc: Global,
    image: &LentImage<'_>,
    root: &Option<Root<'_>>,
) -> Result<Vec<Slot>, AllocError>
    ensures found { (p : ℕ) → IsRootOf image.now p root.now
        → IfOk result (λ slots. AreSlots image.now (IsSlot image.now p) slots.items) }
    ensures memory { OnErr result (IsSome root.now) }
{
    match root {
        Some(root) => slots_of(alloc, image, root),
        None => Ok(Vec::new(alloc)),
    }
}

/// The first slot at whose address there is what is looked for. The slots are those of a set.
pub fn first_slot(slots: &[Slot], sought: Sought) -> Option<Slot>
    ensures { (m : Memory) (p : ℕ) → AreSlots m (IsSlot m p) slots.now
        → FindsSlot m p (IsSought m sought) result }
{
    for slot in slots {
        if slot.table.has(sought) {
            return Some(*slot);
        }
    }
    None
}
