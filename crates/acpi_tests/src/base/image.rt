//! Tests of images and drafts of images.

use acpi_base::{DraftImage, Image, ImageFault};
use std::alloc::Global;
use std::process::Abort;
use std::test::Fail;

/// Bytes that are added, the address of the first, and what `add` returns.
type Added<'a> = (u64, &'a [u8], Result<(), ImageFault>);

/// An address, a number of bytes from there on, and what `window` returns.
type Window<'a> = (u64, u64, Option<&'a [u8]>);

/// An image to which the bytes are added in this order.
fn image_of(rt: &impl Abort, alloc: Global, pieces: &[Added]) -> Image {
    let mut image = Image::new(alloc);
    for (address, bytes, result) in pieces {
        let added = image.add(*address, bytes);
        assert!(rt; added == *result, "{address:#x}: {added:?}");
    }
    image
}

/// The image of those of these pieces that `Image::add` takes.
fn image_of_draft(rt: &impl Abort, alloc: Global, pieces: &[Added]) -> Image {
    let mut draft = DraftImage::new(alloc);
    for (address, bytes, result) in pieces {
        if result.is_ok() {
            let added = draft.add(*address, bytes);
            assert!(rt; added == Ok(()), "{address:#x}: {added:?}");
        }
    }
    draft.finish().expect(rt, "no address twice")
}

/// What is added to an image, windows of it, and a byte that is looked up.
type Case<'a> = (&'a [Added<'a>], &'a [Window<'a>], (u64, Option<u8>));

/// Images, and what is found in them.
const IMAGES: [Case; 5] = [
    // Pieces that touch are joined.
    (
        &[
            (0x1000, &[1, 2], Ok(())),
            (0x1002, &[3], Ok(())),
            (0xfff, &[9, 9], Err(ImageFault::Twice { address: 0x1000 })),
        ],
        &[(0x1000, 3, Some(&[1, 2, 3]))],
        (0xfff, None),
    ),
    // The last address.
    (
        &[
            (u64::MAX, &[1], Ok(())),
            (u64::MAX, &[1, 2], Err(ImageFault::PastEnd)),
        ],
        &[
            (u64::MAX, 1, Some(&[1])),
            (u64::MAX, 2, None),
            (5, 0, Some(&[])),
        ],
        (u64::MAX, Some(1)),
    ),
    // Any order joins.
    (
        &[
            (0x14, &[5], Ok(())),
            (0x13, &[4], Ok(())),
            (0x10, &[1], Ok(())),
            (0x40, &[7], Ok(())),
            (0x11, &[2, 3], Ok(())),
        ],
        &[
            (0x10, 5, Some(&[1, 2, 3, 4, 5])),
            (0x12, 2, Some(&[3, 4])),
            (0x10, 6, None),
        ],
        (0x40, Some(7)),
    ),
    // The lowest address that would be present twice, and a gap between pieces.
    (
        &[
            (0x30, &[1], Ok(())),
            (0x20, &[2, 3], Ok(())),
            (0x10, &[0; 64], Err(ImageFault::Twice { address: 0x20 })),
            (0x21, &[0], Err(ImageFault::Twice { address: 0x21 })),
        ],
        &[(0x20, 2, Some(&[2, 3])), (0x20, 17, None)],
        (0x10, None),
    ),
    // Adding no bytes always succeeds.
    (
        &[
            (u64::MAX, &[], Ok(())),
            (0x10, &[1], Ok(())),
            (0x10, &[], Ok(())),
        ],
        &[(u64::MAX, 1, None)],
        (0x10, Some(1)),
    ),
];

/// Looks into an image.
fn check_windows(rt: &impl Abort, image: &Image, windows: &[Window]) {
    for (address, count, bytes) in windows {
        assert!(rt; image.window(*address, *count) == *bytes, "{address:#x}");
        let from = image.bytes_from(*address);
        assert!(rt; from.get(..*count as usize) == *bytes, "{address:#x}");
    }
}

/// Builds an image, and looks into it.
fn check_image(rt: &impl Abort, image: &Image, case: &Case) {
    let (_, windows, (address, byte)) = case;
    check_windows(rt, image, windows);
    assert!(rt; image.byte_at(*address) == *byte, "{address:#x}");
}

#[test]
fn images_hold_what_was_added(rt: HostRuntime) {
    for case in &IMAGES {
        check_image(&rt, &image_of(&rt, rt.alloc(), case.0), case);
        check_image(&rt, &image_of_draft(&rt, rt.alloc(), case.0), case);
    }
}

/// A draft of three pieces: the second repeats two addresses, the third one.
fn repeating(rt: &impl Abort, alloc: Global) -> DraftImage {
    let mut draft = DraftImage::new(alloc);
    let results = [
        draft.add(0x20, &[2, 3]),
        draft.add(0x10, &[0; 64]),
        draft.add(u64::MAX, &[1, 2]),
        draft.add(0x10, &[0]),
    ];
    let expected = [Ok(()), Ok(()), Err(ImageFault::PastEnd), Ok(())];
    assert!(rt; results == expected, "{results:?}");
    draft
}

#[test]
fn a_draft_tells_the_first_address_that_came_twice(rt: HostRuntime) -> Result<(), Fail> {
    let draft = repeating(&rt, rt.alloc());
    let so_far = draft.first_twice_so_far()?;
    assert!(rt; so_far == Some(0x20), "{so_far:?}");
    let first = draft.first_twice();
    assert!(rt; first == Some(0x20), "{first:?}");
    let refused = repeating(&rt, rt.alloc()).finish().err();
    assert!(rt;
        refused == Some(ImageFault::Twice { address: 0x20 }),
        "{refused:?}"
    );
    Ok(())
}
