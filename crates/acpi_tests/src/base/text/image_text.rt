//! Tests of image text, read at once and in pieces.

ghost use Rattle.std.specs.Prelude.{◌<◌, ◌≤◌, IfSome};

use acpi_base::{Image, ImageText, Tally, TextFault, parse_image, read_image};
use std::alloc::{AllocError, Global};
use std::io;
use std::io::Read;
use std::process::Abort;

const TABLES: &[u8] = b"@e0000
52 53 44 20 50 54 52 20 4b 41 41 41 41 41 41 00
00 10 00 00
@1000
52 53 44 54 24 00 00 00 01 0a 41 41 41 41 41 41
41 41 41 41 41 41 41 41 01 00 00 00 41 41 41 41
01 00 00 00
";

/// The text of `TABLES` with CR LF for each LF.
const TABLES_WITH_CRS: &[u8] = b"@e0000\r
52 53 44 20 50 54 52 20 4b 41 41 41 41 41 41 00\r
00 10 00 00\r
@1000\r
52 53 44 54 24 00 00 00 01 0a 41 41 41 41 41 41\r
41 41 41 41 41 41 41 41 01 00 00 00 41 41 41 41\r
01 00 00 00\r
";

// Gives its bytes, one a call, then fails once, and then ends.
#[derive(Drop)]
struct FailsOnce {
    bytes: &'static [u8],
    failed: bool,
}

impl Read for FailsOnce {
    fn read(&mut self, buffer: &mut [u8]) -> io::Result<usize> {
        if let [first, rest @ ..] = self.bytes {
            if buffer.is_empty() {
                return Ok(0);
            }
            buffer[0] = *first;
            self.bytes = rest;
            return Ok(1);
        }
        if self.failed {
            return Ok(0);
        }
        self.failed = true;
        Err(io::ErrorKind::Other.into())
    }
}

// Gives lines of comments without end.
#[derive(Drop)]
struct Endless;

impl Read for Endless {
    fn read(&mut self, buffer: &mut [u8]) -> io::Result<usize> {
        buffer.fill(b'#');
        if let Some(last) = buffer.last_mut() {
            *last = b'\n';
        }
        Ok(buffer.len())
    }
}

/// The image of a text that is passed at once.
fn image_of(alloc: Global, text: &[u8]) -> Result<Image, TextFault> {
    read_image(alloc, &mut Tally::new(text))
}

/// The image of a text that comes in pieces of this size.
fn read_in_pieces(alloc: Global, text: &[u8], size: usize) -> Result<Image, TextFault>
    requires { 0 < size }
{
    let mut reading = ImageText::new(alloc);
    for piece in text.chunks(size) {
        reading.feed(piece)?;
    }
    reading.finish()
}

/// The image of a line after the address 0. Whatever it says, nothing is refused before the text ends.
fn image_of_line(rt: &impl Abort, alloc: Global, line: &[u8; 47]) -> Result<Image, TextFault> {
    let mut reading = ImageText::new(alloc);
    let fed = [reading.feed(b"@0\n"), reading.feed(line)];
    assert!(rt; fed == [Ok(()); 2], "{fed:?}");
    reading.finish()
}

/// Whether the image has these bytes from the address on, and no more.
fn has_just(image: Image, address: u64, bytes: &[u8]) -> bool {
    let count = bytes.len() as u64;
    image.window(address, count) == Some(bytes) && image.window(address, count + 1).is_none()
}

/// Bytes of the image of `TABLES`, and addresses around them that it does not have.
const BYTES: [(u64, Option<u8>); 11] = [
    (0xdffff, None),
    (0xe0000, Some(0x52)),
    (0xe0008, Some(0x4b)),
    (0xe0013, Some(0)),
    (0xe0014, None),
    (0xfff, None),
    (0x1000, Some(0x52)),
    (0x1009, Some(0x0a)),
    (0x1020, Some(1)),
    (0x1023, Some(0)),
    (0x1024, None),
];

/// The first address at which the image is not that of `TABLES`.
fn first_wrong(image: &Image) -> Option<u64> {
    for (address, byte) in &BYTES {
        if image.byte_at(*address) != *byte {
            return Some(*address);
        }
    }
    None
}

#[test]
fn reads_each_byte(rt: HostRuntime) -> Result<(), TextFault> {
    let mut reader = Tally::new(TABLES);
    let image = read_image(rt.alloc(), &mut reader)?;
    let failures = reader.failures();
    let unread = reader.into_inner().len();
    let told = (first_wrong(&image), failures, unread);
    assert!(rt; told == (None, 0, 0), "{told:?}");
    Ok(())
}

#[test]
fn a_whole_text_is_parsed(rt: HostRuntime) -> Result<(), TextFault> {
    let wrong = first_wrong(&parse_image(rt.alloc(), TABLES)?);
    assert!(rt; wrong.is_none(), "{wrong:?}");
    // The address that comes twice precedes the bad line.
    let fault = parse_image(rt.alloc(), b"@0\n01 02\n@1\n03\n?\n").err();
    assert!(rt; fault == Some(TextFault::Twice { address: 1 }), "{fault:?}");
    Ok(())
}

/// Texts, and the only bytes of each with their address.
const TEXTS: [(&[u8], u64, &[u8]); 7] = [
    (b"", 0, &[]),
    (b"\n\r\n \t\n# @0 x\n", 0, &[]),
    (
        b"@0 # from here on\r\n 0aB0\tc1 2d \r\n",
        0,
        &[0x0a, 0xb0, 0xc1, 0x2d],
    ),
    (b"@0\n01 # a CR may stand in a comment \r\r", 0, &[1]),
    (b"@FFFFFFFFFFFFFFFF\n01", u64::MAX, &[1]),
    (b"@0123456789abcdef \n", 0x0123_4567_89ab_cdef, &[]),
    (b"@10\n01\n@8\n@20 \n\n02 03\n04", 0x20, &[2, 3, 4]),
];

#[test]
fn takes_each_form_of_line(rt: HostRuntime) -> Result<(), TextFault> {
    for (text, address, bytes) in &TEXTS {
        let is_said = has_just(image_of(rt.alloc(), text)?, *address, bytes);
        assert!(rt; is_said, "{text:?}");
    }
    Ok(())
}

/// Texts, and the first fault of each.
const REFUSED: [(&[u8], TextFault); 16] = [
    (b"@0\n1", TextFault::BadLine { line: 2 }),
    (b"01", TextFault::NoAddress { line: 1 }),
    (b"@0\n01\n@0\n02", TextFault::Twice { address: 0 }),
    (b"@ffffffffffffffff\n01 02", TextFault::PastEnd { line: 2 }),
    (b"@ffffffffffffffff\n01\n02", TextFault::PastEnd { line: 3 }),
    (b"@0\r\r\n", TextFault::BadLine { line: 1 }),
    (b"@0\n01\r02\n", TextFault::BadLine { line: 2 }),
    (b"@\n", TextFault::BadLine { line: 1 }),
    (b"@ 0\n", TextFault::BadLine { line: 1 }),
    (b"@00000000000000000\n", TextFault::BadLine { line: 1 }),
    (b"@0 1\n", TextFault::BadLine { line: 1 }),
    (b"\n@0\n0 1\n", TextFault::BadLine { line: 3 }),
    (b"01\nx\n", TextFault::NoAddress { line: 1 }),
    (b"@0\n01\n@0\n02\nx\n", TextFault::Twice { address: 0 }),
    (b"@0\n01\nx\n@0\n02\n", TextFault::BadLine { line: 3 }),
    (
        b"@4\n01\n@0\n02 03\n@4\n04\n@1\n05\n",
        TextFault::Twice { address: 4 },
    ),
];

#[test]
fn reports_the_first_fault(rt: HostRuntime) {
    for (text, fault) in &REFUSED {
        let told = image_of(rt.alloc(), text).err();
        assert!(rt; told == Some(*fault), "{text:?}: {told:?}");
    }
}

/// The faults of the texts that are as long as they may be, one byte longer, and endless.
fn faults_of_long_texts(alloc: Global) -> Result<[Option<TextFault>; 3], AllocError> {
    let mut line = vec![in alloc; b' '; 65_535]?;
    line.extend_from_slice(b"\r\n")?;
    let longest = image_of(alloc, &line).err();
    line.insert(0, b'#')?;
    let longer = image_of(alloc, &line).err();
    let endless = read_image(alloc, &mut Tally::new(Endless)).err();
    Ok([longest, longer, endless])
}

#[test]
fn limits_lines_and_texts(rt: HostRuntime) -> Result<(), AllocError> {
    let faults = faults_of_long_texts(rt.alloc())?;
    let too_long = Some(TextFault::TooLong);
    assert!(rt; faults == [None, too_long, too_long], "{faults:?}");
    Ok(())
}

/// The fault of a text that has an address twice at its beginning, and how many of its 100,000 bytes are unread then.
fn refused_at_its_head(alloc: Global) -> Result<(Option<TextFault>, usize), AllocError> {
    let mut text = vec![in alloc; b'\n'; 100_000]?;
    text[..12].copy_from_slice(b"@0\n01\n@0\n02\n");
    let mut reader = Tally::new(text.as_slice());
    let fault = read_image(alloc, &mut reader).err();
    Ok((fault, reader.into_inner().len()))
}

#[test]
fn reads_on_behind_an_address_twice(rt: HostRuntime) -> Result<(), AllocError> {
    let told = refused_at_its_head(rt.alloc())?;
    let fault = Some(TextFault::Twice { address: 0 });
    assert!(rt; told == (fault, 0), "{told:?}");
    Ok(())
}

/// Texts after which a read fails, and the fault of each. The failure is always counted.
const CUT: [(&[u8], TextFault); 3] = [
    (b"@0\n01\n", TextFault::Read),
    (b"@0\n01\n@0\n02", TextFault::Read),
    (b"@0\n01\n@0\n02\n", TextFault::Twice { address: 0 }),
];

/// The fault of a text after which a read fails, and how many reads have failed then.
fn judged(alloc: Global, bytes: &'static [u8]) -> (Option<TextFault>, u64) {
    let mut reader = Tally::new(FailsOnce {
        bytes,
        failed: false,
    });
    let read = read_image(alloc, &mut reader);
    (read.err(), reader.failures())
}

#[test]
fn judges_what_came_before_a_failure(rt: HostRuntime) {
    for (bytes, fault) in &CUT {
        let judged = judged(rt.alloc(), bytes);
        assert!(rt; judged == (Some(*fault), 1), "{bytes:?}: {judged:?}");
    }
}

/// Lines as long as a row of 16 pairs with one blank between neighbours, the first of which is one, and their bytes.
const LINES: [(&[u8; 47], &[u8]); 7] = [
    (
        b"0a 1B 2c 3D 4e 5F 60 71 82 93 a4 B5 c6 D7 e8 F9",
        b"\x0a\x1b\x2c\x3d\x4e\x5f\x60\x71\x82\x93\xa4\xb5\xc6\xd7\xe8\xf9",
    ),
    (
        b"0a1B  2c 3D 4e 5F 60 71 82 93 a4 B5 c6 D7 e8 F9",
        b"\x0a\x1b\x2c\x3d\x4e\x5f\x60\x71\x82\x93\xa4\xb5\xc6\xd7\xe8\xf9",
    ),
    (
        b"   0a 1B 2c 3D 4e 5F 60 71 82 93 a4 B5 c6 D7 e8",
        b"\x0a\x1b\x2c\x3d\x4e\x5f\x60\x71\x82\x93\xa4\xb5\xc6\xd7\xe8",
    ),
    (
        b"0a 1B 2c 3D 4e 5F 60 71 82 93 a4 B5 c6 D7 e8  \r",
        b"\x0a\x1b\x2c\x3d\x4e\x5f\x60\x71\x82\x93\xa4\xb5\xc6\xd7\xe8",
    ),
    (b"01                                  # 03 04 05 ", &[1]),
    (b"@0                                             ", &[]),
    (
        b"0102030405060708090a0b0c0d0e0f1011121314151617 ",
        &[
            1, 2, 3, 4, 5, 6, 7, 8, 9, 10, 11, 12, 13, 14, 15, 16, 17, 18, 19, 20, 21, 22, 23,
        ],
    ),
];

#[test]
fn takes_lines_of_47_bytes(rt: HostRuntime) -> Result<(), TextFault> {
    for (line, bytes) in &LINES {
        let is_said = has_just(image_of_line(&rt, rt.alloc(), line)?, 0, bytes);
        assert!(rt; is_said, "{line:?}");
    }
    Ok(())
}

// How many bytes a row says in which this byte replaces the one at this index; none if the line is bad.
fn count_said(place: usize, byte: u8) -> Option<usize>
    requires { place < 47 }
    ensures { IfSome result (λ count. count ≤ 16) }
{
    match (byte, place % 3) {
        (b'#', 0) => Some(place / 3),
        (b'#', 2) => Some(place / 3 + 1),
        (b' ' | b'\t', 2) => Some(16),
        _ => None,
    }
}

/// Whether the image has so many bytes from the address 0 on, and no more.
fn has_count(image: &Image, count: Option<usize>) -> bool {
    let Some(count) = count else {
        return false;
    };
    match image.window(0, count as u64) {
        Some(bytes) => bytes.len() == count && image.byte_at(count as u64).is_none(),
        None => false,
    }
}

/// Whether a line says so many bytes, or is refused as a bad one if there is no count.
fn is_read(
    rt: &impl Abort,
    alloc: Global,
    line: &[u8; 47],
    count: Option<usize>,
) -> Result<bool, TextFault> {
    match image_of_line(rt, alloc, line) {
        Ok(image) => Ok(has_count(&image, count)),
        Err(TextFault::BadLine { line: 2 }) => Ok(count.is_none()),
        Err(fault) => Err(fault),
    }
}

#[test]
fn reads_a_row_with_one_byte_changed(rt: HostRuntime) -> Result<(), TextFault> {
    for place in 0..47 {
        for byte in b"# \t\r@/g\xff" {
            let mut line = *b"00 11 22 33 44 55 66 77 88 99 aA Bb cC Dd eE Ff";
            line[place] = *byte;
            let is_read = is_read(&rt, rt.alloc(), &line, count_said(place, *byte))?;
            assert!(rt; is_read, "{line:?}");
        }
    }
    Ok(())
}

// The example at the head of `acpi_base`.
#[test]
fn reads_the_example_of_the_crate(rt: HostRuntime) -> Result<(), TextFault> {
    let alloc = rt.alloc();
    let mut reader = Tally::new(b"@1000\n01 02\n03 # the last byte\n".as_slice());
    let image = read_image(alloc, &mut reader)?;
    assert!(rt; image.window(0x1000, 3) == Some([1, 2, 3].as_slice()));
    assert!(rt; image.window(0x1000, 4).is_none());
    Ok(())
}

/// Whether the image of a text that comes in pieces of this size is that of `TABLES`.
fn is_right_in_pieces(alloc: Global, text: &[u8], size: usize) -> Result<bool, TextFault>
    requires { 0 < size }
{
    let image = read_in_pieces(alloc, text, size)?;
    Ok(first_wrong(&image).is_none())
}

#[test]
fn text_comes_in_pieces(rt: HostRuntime) -> Result<(), TextFault> {
    for text in &[TABLES, TABLES_WITH_CRS] {
        for size in &[1, 2, 3, 7, 48, 1000] {
            let is_right = is_right_in_pieces(rt.alloc(), text, *size)?;
            assert!(rt; is_right, "in pieces of {size}");
        }
    }
    Ok(())
}

#[test]
fn a_refusal_stays(rt: HostRuntime) {
    let mut reading = ImageText::new(rt.alloc());
    let first = reading.feed(b"01\n").err();
    let then = reading.feed(b"@0\n").err();
    let told = [first, then, reading.finish().err()];
    let fault = Some(TextFault::NoAddress { line: 1 });
    assert!(rt; told == [fault; 3], "{told:?}");
}

#[test]
fn a_pair_is_cut(rt: HostRuntime) -> Result<(), TextFault> {
    let image = read_in_pieces(rt.alloc(), b"@0\n01", 4)?;
    assert!(rt; has_just(image, 0, &[1]));
    Ok(())
}
