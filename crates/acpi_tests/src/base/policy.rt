//! Tests of the settings of a check.

use acpi_base::{HotPlug, Policy, PolicyFault, Processors};

/// Addresses and counts that are added one after another, what `add_input` returns, and the count of the address from
/// then on.
const COUNTS: [(u32, u16, Result<(), PolicyFault>, u16); 9] = [
    (0xfec0_0000, 0, Err(PolicyFault::BadCount), 24),
    (0xfec0_0000, 257, Err(PolicyFault::BadCount), 24),
    (0xfec0_0000, 120, Ok(()), 120),
    (u32::MAX, 1, Ok(()), 1),
    (0, 256, Ok(()), 256),
    // The first count wins, whether or not it equals the default.
    (0xfec0_0000, 24, Ok(()), 120),
    (0xfec1_0000, 24, Ok(()), 24),
    (0xfec1_0000, 120, Ok(()), 24),
    // A bad count is refused even if the address has one.
    (0xfec0_0000, u16::MAX, Err(PolicyFault::BadCount), 120),
];

#[test]
fn each_address_has_its_first_count(rt: HostRuntime) -> Result<(), PolicyFault> {
    let mut policy = Policy::new(rt.alloc(), 0xe0000, 24)?;
    for (address, count, result, stands) in &COUNTS {
        let added = policy.add_input(*address, *count);
        let told = (added, policy.inputs_of(*address));
        assert!(rt;
            told == (*result, *stands),
            "{address:#x}={count}: {told:?}"
        );
    }
    assert!(rt; policy.inputs_of(0xfec0_0001) == 24 && policy.rsdp() == 0xe0000);
    Ok(())
}

/// The address and the count of a step. An odd factor gives each step another address, in a scattered order.
fn count_of(step: u32) -> (u32, u16) {
    (step.wrapping_mul(0x9e37_79b1), (step % 256) as u16 + 1)
}

#[test]
fn many_counts(rt: HostRuntime) -> Result<(), PolicyFault> {
    let mut policy = Policy::new(rt.alloc(), 0xe0000, 24)?;
    for step in 0..2_000 {
        let (address, count) = count_of(step);
        policy.add_input(address, count)?;
    }
    for step in 0..2_000 {
        let (address, count) = count_of(step);
        let stands = policy.inputs_of(address);
        assert!(rt; stands == count, "{address:#x}={count}: {stands}");
    }
    Ok(())
}

/// The policy's settings for hot plug and for processors.
fn settings(policy: &Policy) -> (HotPlug, Processors) {
    (policy.hotplug(), policy.processors())
}

#[test]
fn settings_are_independent(rt: HostRuntime) -> Result<(), PolicyFault> {
    let mut policy = Policy::new(rt.alloc(), 0xe0000, 24)?;
    let new = settings(&policy);
    policy.set_hotplug(HotPlug::Apart);
    let apart = settings(&policy);
    policy.set_processors(Processors::Usable);
    policy.set_hotplug(HotPlug::Counted);
    let usable = settings(&policy);
    assert!(rt; new == (HotPlug::Counted, Processors::Enabled), "{new:?}");
    assert!(rt; apart == (HotPlug::Apart, Processors::Enabled), "{apart:?}");
    assert!(rt;
        usable == (HotPlug::Counted, Processors::Usable),
        "{usable:?}"
    );
    Ok(())
}
