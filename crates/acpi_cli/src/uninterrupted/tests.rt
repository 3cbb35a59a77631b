//! Tests of readers and writers whose calls are interrupted.

ghost use Rattle.std.specs.Prelude.{◌≤◌, IfOk};

use super::Uninterrupted;
use std::io;
use std::io::{ErrorKind, Read, Write};

/// Returns these counts of bytes and errors, one for each call. After them each call is interrupted.
#[derive(Drop)]
struct Scripted {
    answers: &'static [Result<usize, ErrorKind>],
    calls: usize,
}

impl Scripted {
    /// The next answer, with at most so many bytes.
    fn next(&mut self, most: usize) -> io::Result<usize>
        ensures { IfOk result (λ count. count ≤ most) }
    {
        self.calls = self.calls.saturating_add(1);
        let [first, rest @ ..] = self.answers else {
            return Err(ErrorKind::Interrupted.into());
        };
        self.answers = rest;
        match first {
            Ok(count) => Ok(most.min(*count)),
            Err(kind) => Err((*kind).into()),
        }
    }
}

impl Read for Scripted {
    fn read(&mut self, buffer: &mut [u8]) -> io::Result<usize> {
        let count = self.next(buffer.len())?;
        buffer.fill(7);
        Ok(count)
    }
}

impl Write for Scripted {
    fn write(&mut self, bytes: &[u8]) -> io::Result<usize> {
        self.next(bytes.len())
    }

    fn flush(&mut self) -> io::Result<()> {
        Ok(())
    }
}

/// Two calls are interrupted before one gives three bytes, another kind of failure comes at once, and the end is no
/// failure.
const ANSWERS: [Result<usize, ErrorKind>; 6] = [
    Err(ErrorKind::Interrupted),
    Err(ErrorKind::Interrupted),
    Ok(3),
    Err(ErrorKind::Other),
    Err(ErrorKind::Interrupted),
    Ok(0),
];

/// What a call returns, and how many calls of the inner one were made from the first one on.
const RETURNED: [(Result<usize, ErrorKind>, usize); 4] = [
    (Ok(3), 3),
    (Err(ErrorKind::Other), 4),
    (Ok(0), 6),
    (Err(ErrorKind::Interrupted), 1_006),
];

#[test]
fn reads_are_made_again_where_they_were_interrupted(rt: HostRuntime) {
    let mut reader = Uninterrupted::new(Scripted {
        answers: &ANSWERS,
        calls: 0,
    });
    for (result, calls) in &RETURNED {
        let mut buffer = [0; 5];
        let told = reader.read(&mut buffer).map_err(|error| error.kind());
        assert!(rt; told == *result, "{told:?}");
        assert!(rt;
            reader.inner.calls == *calls,
            "{} calls",
            reader.inner.calls
        );
    }
}

#[test]
fn writes_are_made_again_where_they_were_interrupted(rt: HostRuntime) {
    let mut writer = Uninterrupted::new(Scripted {
        answers: &ANSWERS,
        calls: 0,
    });
    for (result, calls) in &RETURNED {
        let told = writer.write(b"abcde").map_err(|error| error.kind());
        assert!(rt; told == *result, "{told:?}");
        assert!(rt;
            writer.inner.calls == *calls,
            "{} calls",
            writer.inner.calls
        );
    }
}
