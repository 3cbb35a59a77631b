//! Readers and writers that keep the first bytes.

ghost use Rattle.std.specs.Prelude.{◌≡◌};
ghost use Rattle.std.specs.Io.{ReadsAtMost, WritesAtMost};
ghost use Rattle.std.specs.Io.KnownBytes.{ReadConsumes, WriteAppends};

use std::io::{Read, Result, Write};

/// How many bytes are kept.
pub const KEPT: usize = 64;

/// A reader or a writer that keeps the first bytes which it gave or took. Its bytes are those of the inner one. No call
/// allocates.
#[derive(Drop)]
pub struct Beginning<T> {
    inner: T,
    kept: Kept,
}

impl<T> Beginning<T> {
    pub fn new(inner: T) -> Beginning<T>
        ensures { result.inner ≡ inner }
    {
        Beginning {
            inner,
            kept: Kept {
                bytes: [0; KEPT],
                count: 0,
            },
        }
    }

    /// The first bytes, at most `KEPT`.
    pub fn bytes(&self) -> &[u8] {
        self.kept.bytes.get(..self.kept.count).unwrap_or_default()
    }
}

impl<R: Read> Read for Beginning<R> {
    ghost remaining = { λ reader. R.remaining reader.inner };

    fn read(&mut self, buffer: &mut [u8]) -> Result<usize>
        ensures bound { ReadsAtMost result buffer.new }
        ensures bytes { ReadConsumes (R.remaining self.old.inner) (R.remaining self.new.inner)
            result buffer.new }
    {
        let count = self.inner.read(buffer)?;
        self.kept.add(&buffer[..count]);
        Ok(count)
    }
}

impl<W: Write> Write for Beginning<W> {
    ghost contents = { λ writer. W.contents writer.inner };

    fn write(&mut self, bytes: &[u8]) -> Result<usize>
        ensures bound { WritesAtMost result bytes.now }
        ensures bytes { WriteAppends (W.contents self.old.inner) (W.contents self.new.inner)
            result bytes.now }
    {
        let count = self.inner.write(bytes)?;
        self.kept.add(&bytes[..count]);
        Ok(count)
    }

    fn flush(&mut self) -> Result<()> {
        self.inner.flush()
    }
}

/// The first `count` of the bytes are kept ones.
#[derive(Drop)]
struct Kept {
    bytes: [u8; KEPT],
    count: usize,
}

impl Kept {
    /// Keeps those of further bytes for which there is room.
    fn add(&mut self, further: &[u8]) {
        for byte in further {
            let Some(place) = self.bytes.get_mut(self.count) else {
                return;
            };
            *place = *byte;
            self.count += 1;
        }
    }
}
