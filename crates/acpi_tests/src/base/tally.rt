//! Tests of counted readers and writers.

ghost use Rattle.std.specs.Prelude.{◌≤◌, IfOk};

use acpi_base::{DeviceFailed, Tally};
use std::io;
use std::io::{ErrorKind, Read, Write};

/// Answers its calls one after another with these counts of bytes and these errors, and then with 0 bytes.
#[derive(Drop)]
struct Scripted {
    answers: &'static [Result<usize, ErrorKind>],
    calls: usize,
}

impl Scripted {
    /// The next answer, with at most this many bytes.
    fn next(&mut self, most: usize) -> io::Result<usize>
        ensures { IfOk result (λ count. count ≤ most) }
    {
        self.calls = self.calls.saturating_add(1);
        let [first, rest @ ..] = self.answers else {
            return Ok(0);
        };
        self.answers = rest;
        match first {
            Ok(count) => Ok(most.min(*count)),
            Err(kind) => Err((*kind).into()),
        }
    }
}

impl Read for Scripted {
    fn read(&mut self, buffer: &mut [u8]) -> io::Result<usize> {
        let count = self.next(buffer.len())?;
        buffer.fill(7);
        Ok(count)
    }
}

impl Write for Scripted {
    fn write(&mut self, bytes: &[u8]) -> io::Result<usize> {
        self.next(bytes.len())
    }

    fn flush(&mut self) -> io::Result<()> {
        Ok(())
    }
}

/// The inner reader returns three bytes, then as many as there is room for, then fails in each way, and then ends.
const ANSWERS: [Result<usize, ErrorKind>; 8] = [
    Ok(3),
    Ok(usize::MAX),
    Err(ErrorKind::Interrupted),
    Err(ErrorKind::WouldBlock),
    Err(ErrorKind::BrokenPipe),
    Ok(2),
    Err(ErrorKind::Other),
    Ok(0),
];

/// How many bytes there is room for, what is returned, and the failures from then on.
const READS: [(usize, Result<usize, DeviceFailed>, u64); 9] = [
    (5, Ok(3), 0),
    (5, Ok(5), 0),
    (5, Err(DeviceFailed), 1),
    (5, Err(DeviceFailed), 2),
    (0, Err(DeviceFailed), 3),
    (5, Ok(2), 3),
    (5, Err(DeviceFailed), 4),
    (5, Ok(0), 4),
    (0, Ok(0), 4),
];

/// What is returned if there is room for this many bytes, at most 5, and the failures from then on.
fn read(tally: &mut Tally<Scripted>, room: usize) -> (Result<usize, DeviceFailed>, u64) {
    let mut buffer = [0; 5];
    let read = tally.read(&mut buffer[..room.min(5)]);
    (read, tally.failures())
}

// No failed call is retried, and each call makes one call of the inner reader or writer.
#[test]
fn reads_are_counted_where_they_fail(rt: HostRuntime) {
    let mut tally = Tally::new(Scripted {
        answers: &ANSWERS,
        calls: 0,
    });
    for (room, result, failures) in &READS {
        let told = read(&mut tally, *room);
        assert!(rt;
            told == (*result, *failures),
            "{told:?}, not {failures} failures"
        );
    }
    assert!(rt; tally.into_inner().calls == 9);
}

/// The bytes, what is returned, and the failures from then on.
const WRITES: [(&[u8], Result<usize, DeviceFailed>, u64); 9] = [
    (b"abcde", Ok(3), 0),
    (b"abcde", Ok(5), 0),
    (b"abcde", Err(DeviceFailed), 1),
    (b"abcde", Err(DeviceFailed), 2),
    (b"", Err(DeviceFailed), 3),
    (b"abcde", Ok(2), 3),
    (b"abcde", Err(DeviceFailed), 4),
    // A write that takes none of at least one byte has failed.
    (b"abcde", Err(DeviceFailed), 5),
    (b"", Ok(0), 5),
];

/// What a write of these bytes returns, and the failures from then on.
fn write(tally: &mut Tally<Scripted>, bytes: &[u8]) -> (Result<usize, DeviceFailed>, u64) {
    let written = tally.write(bytes);
    (written, tally.failures())
}

#[test]
fn writes_are_counted_where_they_fail(rt: HostRuntime) {
    let mut tally = Tally::new(Scripted {
        answers: &ANSWERS,
        calls: 0,
    });
    for (bytes, result, failures) in &WRITES {
        let told = write(&mut tally, bytes);
        assert!(rt;
            told == (*result, *failures),
            "{told:?}, not {failures} failures"
        );
    }
    assert!(rt; tally.into_inner().calls == 9);
}

#[test]
fn passes_written_bytes_on(rt: HostRuntime) {
    let mut writer = Tally::new(Vec::new(rt.alloc()));
    let written = writer.write(b"abc");
    assert!(rt; written == Ok(3), "{written:?}");
    assert!(rt; writer.into_inner().as_slice() == b"abc".as_slice());
}

#[test]
fn passes_read_bytes_on(rt: HostRuntime) {
    let mut reader = Tally::new(b"abc".as_slice());
    let mut buffer = [7; 5];
    assert!(rt; reader.read(&mut buffer) == Ok(3));
    assert!(rt; buffer == *b"abc\x07\x07");
}
