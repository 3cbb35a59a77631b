//! Tests of images that borrow bytes, and of source that names `Image` without a lifetime.

use acpi_base::{Image, ImageFault, LentImage};
use std::alloc::Global;
use std::process::Abort;
use std::test::Fail;

/// A reference to an image in a struct.
#[derive(Drop)]
struct Held<'a> {
    image: &'a Image,
}

/// A result that borrows from an image, by elision.
fn first_bytes(image: &Image) -> Option<&[u8]> {
    image.window(0x1000, 2)
}

/// An image as a result, which borrows nothing.
fn owned(alloc: Global) -> Result<Image, ImageFault> {
    let mut image = Image::new(alloc);
    image.add(0x1000, &[1, 2])?;
    Ok(image)
}

/// How many bytes from an address on an image has, whether lent or not.
fn count_from(image: &LentImage<'_>, address: u64) -> usize {
    image.bytes_from(address).len()
}

#[test]
fn source_without_a_lifetime(rt: HostRuntime) -> Result<(), Fail> {
    let image = owned(rt.alloc())?;
    let held = Held { image: &image };
    assert!(rt; first_bytes(held.image) == Some([1, 2].as_slice()));
    assert!(rt; count_from(held.image, 0x1001) == 1);
    Ok(())
}

/// Checks that an image has 300 bytes of 1 from 0x1000 on, two bytes of 7 from 0x2000 on, and 400 bytes of 2 from 0x3000
/// on.
fn has_all(rt: &impl Abort, image: &LentImage<'_>) {
    assert!(rt; image.window_sum(0x1000, 300) == Some(44));
    assert!(rt; image.window_sum(0x1001, 299) == Some(43));
    assert!(rt; image.window_sum(0x1000, 301).is_none());
    assert!(rt; image.window_sum(0x1fff, 2).is_none());
    assert!(rt; image.window(0x2000, 2) == Some([7, 7].as_slice()));
    assert!(rt; image.window_sum(0x3010, 384) == Some(0));
    assert!(rt; image.byte_at(0x318f) == Some(2));
    assert!(rt; image.byte_at(0x3190).is_none());
    assert!(rt; count_from(image, 0x1064) == 200);
    assert!(rt; count_from(image, 0x2fff) == 0);
}

#[test]
fn lent_and_copied(rt: HostRuntime) -> Result<(), Fail> {
    let ones = [1u8; 300];
    let twos = [2u8; 400];
    let mut image = LentImage::new(rt.alloc());
    image.lend(0x1000, &ones)?;
    image.add(0x2000, &[7, 7])?;
    image.lend(0x3000, &twos)?;
    has_all(&rt, &image);
    image.add_sums()?;
    has_all(&rt, &image);
    assert!(rt; image.lend(0x112b, &twos) == Err(ImageFault::Twice { address: 0x112b }));
    assert!(rt; image.add(0x2ffe, &[0, 0, 0]) == Err(ImageFault::Twice { address: 0x3000 }));
    has_all(&rt, &image);
    // It comes before the lent bytes, so all are copied.
    image.add(0x2001 - 2, &[9])?;
    assert!(rt; image.window(0x1fff, 3) == Some([9, 7, 7].as_slice()));
    assert!(rt; image.window_sum(0x3000, 400) == Some(32));
    Ok(())
}

#[test]
fn lent_bytes_that_touch(rt: HostRuntime) -> Result<(), Fail> {
    let ones = [1u8; 300];
    let mut image = LentImage::new(rt.alloc());
    image.lend(0, &ones)?;
    image.lend(300, &ones)?;
    assert!(rt; image.window_sum(0, 600) == Some(88));
    assert!(rt; count_from(&image, 0) == 600);
    let last = u64::MAX - 299;
    image.lend(last, &ones)?;
    assert!(rt; count_from(&image, last) == 300);
    assert!(rt; image.lend(u64::MAX, &ones) == Err(ImageFault::PastEnd));
    Ok(())
}
