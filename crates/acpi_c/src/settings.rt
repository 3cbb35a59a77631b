//! The settings of a call.

ghost use Rattle.std.specs.Prelude.{◌≡◌, IfOk, IsTrue, None, Ok, OnOk};
ghost use Rattle.std.specs.Result.{result_err};
ghost use Rattle.acpi_base.specs.Codes.{stage_number};
ghost use Rattle.acpi_base.specs.Policy.{with_input};
ghost use Rattle.acpi_c.specs.Settings.{base_refusal, count_of, hotplug_of, inputs_refusal, is_count, policy_of, policy_refusal, processors_of, settings_policy, stage_refusal, with_inputs};
ghost use Rattle.acpi_c.specs.declared.refusal.Refusal.{Refusal};

use crate::refusal::Refusal;
use acpi_base::{HotPlug, Policy, Processors, Stage};
use std::alloc::{AllocError, Global};

/// How many inputs an I/O APIC has.
#[repr(C)]
#[derive(Clone, Copy)]
pub struct Inputs {
    /// The I/O APIC's address, as in the MADT.
    pub address: u32,
    /// The number of its inputs, 1 to 256.
    pub count: u32,
}

/// The settings of a call, except for the numbers of inputs.
#[repr(C)]
#[derive(Clone, Copy)]
pub struct Settings {
    /// The size of this struct in bytes, which is 32.
    pub size: usize,
    /// The RSDP's address.
    pub rsdp: u64,
    /// The number of inputs, 1 to 256, of each I/O APIC without a number of its own.
    pub default_inputs: u32,
    /// 0: hot-pluggable ranges of memory are compared with all others; 1: only with one another.
    pub hotplug: u32,
    /// 0: processors with the flag Enabled count as enabled; 1: also those with Online Capable.
    pub processors: u32,
    /// The last stage of a check, 1 to 18. All other calls ignore it.
    pub through: u32,
}

/// The size of `Settings` in bytes.
const SIZE: usize = 32;

/// A number of inputs, if it is 1 to 256.
fn count_of(number: u32) -> Option<u16>
    ensures { result ≡ count_of number }
{
    if number == 0 || number > 256 {
        return None;
    }
    Some(number as u16)
}

/// The setting of hot-pluggable ranges.
fn hotplug_of(number: u32) -> Option<HotPlug>
    ensures { result ≡ hotplug_of number }
{
    match number {
        0 => Some(HotPlug::Counted),
        1 => Some(HotPlug::Apart),
        _ => None,
    }
}

/// The setting of processors.
fn processors_of(number: u32) -> Option<Processors>
    ensures { result ≡ processors_of number }
{
    match number {
        0 => Some(Processors::Enabled),
        1 => Some(Processors::Usable),
        _ => None,
    }
}

/// The policy of the settings, without a number of inputs for any one I/O APIC. Allocates nothing.
///
/// Refuses, in this order: `Size`, `DefaultInputs`, `HotPlug`, `Processors`.
fn settings_policy(alloc: Global, settings: &Settings) -> Result<Policy, Refusal>
    ensures { result ≡ settings_policy settings.now }
{
    if settings.size != SIZE {
        return Err(Refusal::Size);
    }
    let Some(default_inputs) = count_of(settings.default_inputs) else {
        return Err(Refusal::DefaultInputs);
    };
    let Ok(mut policy) = Policy::new(alloc, settings.rsdp, default_inputs) else {
        return Err(Refusal::DefaultInputs);
    };
    policy.set_hotplug(hotplug_of(settings.hotplug).ok_or(Refusal::HotPlug)?);
    policy.set_processors(processors_of(settings.processors).ok_or(Refusal::Processors)?);
    Ok(policy)
}

/// Refuses the first number of inputs outside 1 to 256. Allocates nothing.
fn test_inputs(inputs: &[Inputs]) -> Result<(), Refusal>
    ensures { inputs_refusal 0 inputs.now ≡ result_err result }
{
    for (index, own) in inputs.iter().enumerate() {
        if count_of(own.count).is_none() {
            return Err(Refusal::Inputs {
                index: index as u64,
            });
        }
    }
    Ok(())
}

/// The policy of the settings, if all numbers of inputs are in range too. It has none of them yet: `add_inputs` adds
/// them. Allocates nothing.
///
/// Refuses, in this order: as `settings_policy` does; `Inputs`, for the first number outside 1 to 256.
pub fn tested_policy(
    alloc: Global,
    settings: &Settings,
    inputs: &[Inputs],
) -> Result<Policy, Refusal>
    ensures ok { IfOk result (λ policy.
        policy_of settings.now inputs.now ≡ Ok (with_inputs policy inputs.now)) }
    ensures inputs { OnOk result (inputs_refusal 0 inputs.now ≡ None) }
    ensures refused { policy_refusal settings.now inputs.now ≡ result_err result }
{
    let policy = settings_policy(alloc, settings)?;
    test_inputs(inputs)?;
    Ok(policy)
}

/// Gives the I/O APIC its number of inputs, unless it has one.
fn add_count(policy: &mut Policy, inputs: &Inputs) -> Result<(), AllocError>
    requires { IsTrue (is_count inputs.now.count) }
    ensures { OnOk result (policy.new ≡ with_input policy.old inputs.now.address inputs.now.count) }
{
    match policy.add_input(inputs.address, inputs.count as u16) {
        Ok(()) => Ok(()),
        Err(_) => Err(AllocError),
    }
}

/// Gives the policy these numbers of inputs. If an address is repeated, the first number wins. If memory runs out, the
/// policy has some of them. A call does this once it has an image: so it tests the first piece before it allocates.
pub fn add_inputs(policy: &mut Policy, inputs: &[Inputs]) -> Result<(), AllocError>
    requires { inputs_refusal 0 inputs.now ≡ None }
    ensures { OnOk result (policy.new ≡ with_inputs policy.old inputs.now) }
{
    for own in inputs {
        add_count(policy, own)?;
    }
    Ok(())
}

/// The last stage of a check.
pub fn last_stage(settings: &Settings) -> Result<Stage, Refusal>
    ensures ok { IfOk result (λ stage. stage_number stage ≡ settings.now.through) }
    ensures refused { stage_refusal settings.now.through ≡ result_err result }
{
    u8::try_from(settings.through)
        .ok()
        .and_then(Stage::new)
        .ok_or(Refusal::Stage)
}

/// Refuses a base address that is not a multiple of 64. Allocates nothing.
pub fn test_base(base: u64) -> Result<(), Refusal>
    ensures { base_refusal base ≡ result_err result }
{
    if base % 64 != 0 {
        return Err(Refusal::Unaligned);
    }
    Ok(())
}
