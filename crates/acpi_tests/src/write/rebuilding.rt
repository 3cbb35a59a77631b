//! Tests of rebuilt sets.

ghost use Rattle.std.specs.Prelude.{◌+◌, ◌^◌, ◌<◌, length};

use crate::samples::{
    PLAIN, extended_rsdp, facs, fadt_body, header_before, policy, reduced_body, set_of_fadt,
};
use acpi_base::Image;
use acpi_write::{RebuildFault, rebuild, rebuild_bytes};
use std::alloc::Global;
use std::test::Fail;

/// Whether the image has these bytes at the address.
fn holds(image: &Image, address: u64, bytes: &[u8]) -> bool {
    image.window(address, bytes.len() as u64) == Some(bytes)
}

/// Whether the image has the table with this signature and this body at the address.
fn holds_table(image: &Image, address: u64, signature: [u8; 4], body: &[u8]) -> bool
    requires { 36 + length body.now < 2 ^ 32 }
{
    let header = header_before(&PLAIN, signature, body);
    holds(image, address, &header) && holds(image, address.wrapping_add(36), body)
}

/// Whether the image has no byte at these addresses.
fn is_clear_at(image: &Image, addresses: &[u64]) -> bool {
    for address in addresses {
        if image.byte_at(*address).is_some() {
            return false;
        }
    }
    true
}

/// The rebuilt image of the set.
fn rebuilt(alloc: Global, image: Image, base: u64) -> Result<Image, Fail> {
    let policy = policy(alloc)?;
    Ok(rebuild(alloc, &image, &policy, base)?)
}

/// Why the set is not rebuilt, if it is refused.
fn refused(alloc: Global, image: Image, base: u64) -> Result<Option<RebuildFault>, Fail> {
    let policy = policy(alloc)?;
    Ok(rebuild(alloc, &image, &policy, base).err())
}

/// Addresses that are not present in the set at 0x0123456789ABCDC0: where its parts were, and after each part.
const AROUND: [u64; 6] = [
    0xe0000,
    0x1000,
    0x2000,
    0x0123_4567_89ab_cde4,
    0x0123_4567_89ab_ce2c,
    0x0123_4567_89ab_ceb4,
];

/// Whether the image has the parts of the set at 0x0123456789ABCDC0.
fn holds_parts(image: &Image) -> bool {
    let slots = 0x0123_4567_89ab_ce40u64.to_le_bytes();
    let rsdp = extended_rsdp(0, 0x0123_4567_89ab_ce00);
    holds(image, 0x0123_4567_89ab_cdc0, &rsdp)
        && holds_table(image, 0x0123_4567_89ab_ce00, *b"XSDT", &slots)
        && holds_table(image, 0x0123_4567_89ab_ce40, *b"FACP", &reduced_body())
}

#[test]
fn a_set_at_a_high_address(rt: HostRuntime) -> Result<(), Fail> {
    let image = set_of_fadt(rt.alloc(), &reduced_body())?;
    let new = rebuilt(rt.alloc(), image, 0x0123_4567_89ab_cdc0)?;
    assert!(rt; holds_parts(&new) && is_clear_at(&new, &AROUND));
    Ok(())
}

// The parts have 36, 44 and 116 bytes; zeros are between them, and nothing comes after the last one.
#[test]
fn a_set_as_memory(rt: HostRuntime) -> Result<(), Fail> {
    let image = set_of_fadt(rt.alloc(), &reduced_body())?;
    let policy = policy(rt.alloc())?;
    let bytes = rebuild_bytes(rt.alloc(), &image, &policy, 0x0123_4567_89ab_cdc0)?;
    assert!(rt; bytes.len() == 64 + 64 + 116);
    let mut memory = Image::new(rt.alloc());
    memory.add(0x0123_4567_89ab_cdc0, &bytes)?;
    assert!(rt; holds_parts(&memory));
    assert!(rt; holds(&memory, 0x0123_4567_89ab_cde4, &[0; 28]));
    assert!(rt; holds(&memory, 0x0123_4567_89ab_ce2c, &[0; 20]));
    Ok(())
}

/// The lengths of register blocks that a FADT must have if the hardware is not reduced.
const LENGTHS: [u8; 4] = [4, 2, 0, 4];

/// A set with a FACS at 0x7000.
fn set_with_facs(alloc: Global) -> Result<Image, Fail> {
    let mut image = set_of_fadt(alloc, &fadt_body(0x7000, LENGTHS, 0))?;
    image.add(0x7000, &facs(1))?;
    Ok(image)
}

// A FADT of 116 bytes has 4 for the FACS's address.
#[test]
fn a_facs_above_4_gib(rt: HostRuntime) -> Result<(), Fail> {
    let image = set_with_facs(rt.alloc())?;
    let fault = refused(rt.alloc(), image, 0xffff_ff80)?;
    assert!(rt; fault == Some(RebuildFault::NeedsLow), "{fault:?}");
    Ok(())
}

#[test]
fn a_facs_below_4_gib(rt: HostRuntime) -> Result<(), Fail> {
    let image = set_with_facs(rt.alloc())?;
    let new = rebuilt(rt.alloc(), image, 0xffff_ff40)?;
    let body = fadt_body(0xffff_ffc0, LENGTHS, 0);
    assert!(rt; holds(&new, 0xffff_ffc0, &facs(1)));
    assert!(rt; holds_table(&new, 0x1_0000_0000, *b"FACP", &body));
    Ok(())
}

#[test]
fn refusals_of_an_image_of_nothing(rt: HostRuntime) -> Result<(), Fail> {
    let alloc = rt.alloc();
    let unaligned = refused(alloc, Image::new(alloc), 0x20)?;
    assert!(rt; matches!(unaligned, Some(RebuildFault::Unaligned)));
    let unclean = refused(alloc, Image::new(alloc), 0)?;
    assert!(rt; matches!(unclean, Some(RebuildFault::NotClean(_))));
    Ok(())
}

/// Base addresses of a set whose parts have 36, 44 and 116 bytes, and why it is not rebuilt there.
const ADDRESSES: [(u64, Option<RebuildFault>); 3] = [
    (0xffff_ffff_ffff_ff00, None),
    (0xffff_ffff_ffff_ff40, Some(RebuildFault::PastEnd)),
    (0xffff_ffff_ffff_ffc0, Some(RebuildFault::PastEnd)),
];

#[test]
fn refusals_by_the_address(rt: HostRuntime) -> Result<(), Fail> {
    for (base, fault) in &ADDRESSES {
        let image = set_of_fadt(rt.alloc(), &reduced_body())?;
        let told = refused(rt.alloc(), image, *base)?;
        assert!(rt; told == *fault, "{base:x}: {told:?}");
    }
    Ok(())
}

/// Refusals, and their messages.
const NAMES: [(RebuildFault, &str); 5] = [
    (RebuildFault::Unaligned, "base address not a multiple of 64"),
    (RebuildFault::TableTooLong, "table too long"),
    (RebuildFault::PastEnd, "past the last address"),
    (RebuildFault::NeedsLow, "the FACS needs a lower address"),
    (RebuildFault::Memory, "out of memory"),
];

#[test]
fn names_of_refusals(rt: HostRuntime) -> Result<(), Fail> {
    for (fault, name) in &NAMES {
        let text = fault.to_string(rt.alloc())?;
        assert!(rt; text.as_str() == *name, "{text}");
    }
    Ok(())
}
