//! The settings of a check.

ghost use Rattle.std.specs.Prelude.{◌≡◌, ◌+◌, ◌^◌, ◌<◌, ◌≤◌, ◌↔◌, IsTrue, IfOk, IfErr, OnOk, OnErr, OkIff, Err, None};
ghost use Rattle.std.specs.FinMap.{get};

use std::alloc::Global;
use std::collections::BTreeMap;
use std::marker::Model;
use thiserror::Error;

/// Why a policy cannot have the requested values.
#[derive(Clone, Copy, Debug, PartialEq, Eq, Error)]
pub enum PolicyFault {
    /// A count of inputs is outside 1 to 256.
    #[error("an I/O APIC has 1 to 256 inputs")]
    BadCount,
    /// Out of memory for the count.
    #[error("out of memory")]
    Memory,
}

/// Which enabled ranges of memory in the SRAT must not overlap.
#[derive(Clone, Copy, Debug, PartialEq, Eq)]
pub enum HotPlug {
    /// Any two of them: hot-pluggable ranges count like the others.
    Counted,
    /// Two that are both hot-pluggable, or both not: hot-pluggable ranges are not compared with the others.
    Apart,
}

/// Which processors of the MADT count as enabled.
#[derive(Clone, Copy, Debug, PartialEq, Eq)]
pub enum Processors {
    /// Those with the flag Enabled.
    Enabled,
    /// Those with the flag Enabled or Online Capable.
    Usable,
}

/// The settings of a check: the RSDP's address, how many inputs an I/O APIC has, which no table says, and two
/// settings. Contracts see the counts of inputs as a map by address.
///
/// The counts are kept in the order of their addresses: to add one, or to look one up, takes a time that grows with the
/// logarithm of their number, whatever the addresses are. Only `add_input` allocates.
#[derive(Debug, Drop)]
pub struct Policy {
    rsdp: u64,
    default_inputs: u16,
    inputs: BTreeMap<u32, u16>,
    hotplug: HotPlug,
    processors: Processors,
}

impl Model for Policy {
    ghost use Rattle.acpi_base.specs.Policy.{PolicyValue, policy_code};
    ghost use Rattle.acpi_base.specs.contracts.policy.HotPlug.{the_row as hotplug_row};
    ghost use Rattle.acpi_base.specs.contracts.policy.Processors.{the_row as processors_row};

    ghost Value = { PolicyValue };

    ghost coded = { policy_code hotplug_row.coded processors_row.coded };

    ghost use Rattle.acpi_base.specs.PolicyFields.{policy_of, AreFields};

    ghost view = { policy_of };

    ghost invariant = { AreFields };
}

impl Policy {
    ghost use Rattle.acpi_base.specs.Policy.{IsPolicy, inputs_of, new_policy, with_input};
    ghost use Rattle.acpi_base.specs.declared.policy.PolicyFault.TheVariants.{BadCount, Memory};

    /// The largest number of inputs that an I/O APIC can have.
    pub const MOST_INPUTS: u16 = 256;

    /// A policy without a count for any single I/O APIC, and with the settings `HotPlug::Counted` and
    /// `Processors::Enabled`. `rsdp` is an address in bytes. Allocates nothing.
    ///
    /// Refuses with `BadCount` if `default_inputs` is outside 1 to 256.
    #[tactic(auto, using(crate::proofs::Policies::map_reads))]
    pub fn new(alloc: Global, rsdp: u64, default_inputs: u16) -> Result<Policy, PolicyFault>
        ensures value { OkIff result ((1 ≤ default_inputs) × (default_inputs ≤ 256))
            (new_policy rsdp default_inputs) }
        ensures policy { IfOk result IsPolicy }
        ensures refused { IfErr result (λ fault. fault ≡ BadCount) }
    {
        if default_inputs == 0 || default_inputs > Policy::MOST_INPUTS {
            return Err(PolicyFault::BadCount);
        }
        Ok(Policy {
            rsdp,
            default_inputs,
            inputs: BTreeMap::new(alloc),
            hotplug: HotPlug::Counted,
            processors: Processors::Enabled,
        })
    }

    /// Sets the RSDP's address, in bytes, and nothing else. Allocates nothing.
    pub fn set_rsdp(&mut self, rsdp: u64)
        ensures value { self.new ≡ record self.old { rsdp = rsdp } }
    {
        self.rsdp = rsdp;
    }

    /// The RSDP's address, in bytes.
    pub fn rsdp(&self) -> u64
        ensures value { result ≡ self.now.rsdp }
        ensures policy { IsPolicy self.now }
    {
        self.rsdp
    }

    /// Gives the I/O APIC at `address` a count of inputs, instead of the default. The table does not say how many
    /// inputs an I/O APIC has: software reads it from a register (ACPI 6.5, 5.2.12.3). `address` is the one that the
    /// table gives, in bytes. If an address is repeated, the first count wins: a later call for it returns `Ok` and
    /// changes nothing.
    ///
    /// Refuses, in this order, and then leaves the policy unchanged: `BadCount` if `count` is outside 1 to 256;
    /// `Memory` if the allocator is out of memory. If the count is bad, or if the address already has a count,
    /// nothing is allocated.
    #[tactic(auto, using(crate::proofs::Policies::adding))]
    pub fn add_input(&mut self, address: u32, count: u16) -> Result<(), PolicyFault>
        ensures value { OnOk result (self.new ≡ with_input self.old address count) }
        ensures err { OnErr result (self.new ≡ self.old) }
        ensures bad { (result ≡ Err BadCount) ↔ ¬ ((1 ≤ count) × (count ≤ 256)) }
        ensures memory { result ≡ Err Memory → get self.old.inputs address ≡ None }
    {
        if count == 0 || count > Policy::MOST_INPUTS {
            return Err(PolicyFault::BadCount);
        }
        if self.inputs.contains_key(&address) {
            return Ok(());
        }
        match self.inputs.insert(address, count) {
            Ok(_) => Ok(()),
            Err(_) => Err(PolicyFault::Memory),
        }
    }

    /// How many inputs the I/O APIC at `address` has, 1 to 256: the first count that was given for it, or else the
    /// default. `address` is the one that the table gives, in bytes (ACPI 6.5, 5.2.12.3). Allocates nothing.
    #[tactic(auto, using(crate::proofs::Policies::looking), unfolding(crate::specs::Policy::inputs_of))]
    pub fn inputs_of(&self, address: u32) -> u16
        ensures value { result ≡ inputs_of self.now address }
        ensures fit { (1 ≤ result) × (result ≤ 256) }
    {
        self.inputs
            .get(&address)
            .copied()
            .unwrap_or(self.default_inputs)
    }

    /// Whether the interrupt numbers that the I/O APIC at `address` serves, from `gsi_base` on, end past 2^32.
    pub fn is_past_end(&self, gsi_base: u32, address: u32) -> bool
        ensures { IsTrue result ↔ (2 ^ 32 < gsi_base + inputs_of self.now address) }
    {
        u64::from(gsi_base) + u64::from(self.inputs_of(address)) > 1 << 32
    }

    /// Sets which enabled ranges of memory must not overlap, and nothing else. Allocates nothing.
    pub fn set_hotplug(&mut self, hotplug: HotPlug)
        ensures value { self.new ≡ record self.old { hotplug = hotplug } }
    {
        self.hotplug = hotplug;
    }

    /// Which enabled ranges of memory must not overlap.
    pub fn hotplug(&self) -> HotPlug
        ensures value { result ≡ self.now.hotplug }
    {
        self.hotplug
    }

    /// Sets which processors count as enabled, and nothing else. Allocates nothing.
    pub fn set_processors(&mut self, processors: Processors)
        ensures value { self.new ≡ record self.old { processors = processors } }
    {
        self.processors = processors;
    }

    /// Which processors count as enabled.
    pub fn processors(&self) -> Processors
        ensures value { result ≡ self.now.processors }
    {
        self.processors
    }
}
