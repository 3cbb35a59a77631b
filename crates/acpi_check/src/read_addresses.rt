//! The addresses that a scan of slots has read.

ghost use Rattle.std.specs.Prelude.{◌≡◌, ◌⊎◌, ℕ, IsTrue};
ghost use Rattle.acpi_check.specs.FirstBelow.{IsKept};

use std::alloc::Global;

/// Up to how many slots only the last address is kept: most root tables of firmware have fewer.
const FEW: u32 = 1_024;

/// Some of the addresses that a scan of slots has read: the last one, and with many slots, as millions may list a few
/// tables, the last one of each remainder.
#[derive(Drop)]
pub struct ReadAddresses {
    last: u64,
    /// For each remainder modulo the length of this list, the last address that has it, or 0.
    of_remainders: Vec<u64>,
}

impl ReadAddresses {
    /// No address yet, for a scan of this many slots. Allocates two bytes for each of them if they are more than 1,024. If
    /// out of memory, only the last address will be kept.
    pub fn new(alloc: Global, slots: u32) -> ReadAddresses
        ensures { (a : ℕ) → IsKept result a → a ≡ 0 }
    {
        let mut of_remainders = Vec::new(alloc);
        if slots > FEW {
            // Odd, since most tables begin at multiples of a power of 2.
            let modulus = slots / 8 * 2 + 1;
            if let Ok(zeros) = vec![in alloc; 0; modulus as usize] {
                of_remainders = zeros;
            }
        }
        ReadAddresses {
            last: 0,
            of_remainders,
        }
    }

    /// Whether an address is one of those that are kept.
    pub fn has(&self, address: u64) -> bool
        ensures { IsTrue result → IsKept self.now address }
    {
        if address == self.last {
            return true;
        }
        if self.of_remainders.is_empty() {
            return false;
        }
        let remainder = (address % self.of_remainders.len() as u64) as usize;
        self.of_remainders[remainder] == address
    }

    /// Keeps an address, in place of the last one, and of the last one with the same remainder.
    pub fn add(&mut self, address: u64)
        ensures { (a : ℕ) → IsKept self.new a → (a ≡ address) ⊎ IsKept self.old a }
    {
        self.last = address;
        if !self.of_remainders.is_empty() {
            let remainder = (address % self.of_remainders.len() as u64) as usize;
            self.of_remainders[remainder] = address;
        }
    }
}
