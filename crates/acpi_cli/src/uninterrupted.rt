//! Readers and writers that repeat a call which a signal interrupted.

#[cfg(test)]
mod tests;

ghost use Rattle.std.specs.Prelude.{◌≡◌};
ghost use Rattle.std.specs.Io.{ReadsAtMost, WritesAtMost};
ghost use Rattle.std.specs.Io.KnownBytes.{ReadConsumes, WriteAppends};

use std::io::{ErrorKind, Read, Result, Write};

/// How often one call is made at most: a device that interrupts every call has failed, and must not stop the program
/// from ending.
const TRIES: u32 = 1_000;

/// A reader or a writer that repeats a call which a signal interrupted. Its bytes are those of the inner one. No call
/// allocates.
#[derive(Drop)]
pub struct Uninterrupted<T> {
    inner: T,
}

impl<T> Uninterrupted<T> {
    pub fn new(inner: T) -> Uninterrupted<T>
        ensures { result.inner ≡ inner }
    {
        Uninterrupted { inner }
    }
}

impl<R: Read> Read for Uninterrupted<R> {
    ghost remaining = { λ reader. R.remaining reader.inner };

    fn read(&mut self, buffer: &mut [u8]) -> Result<usize>
        ensures bound { ReadsAtMost result buffer.new }
        ensures bytes { ReadConsumes (R.remaining self.old.inner) (R.remaining self.new.inner)
            result buffer.new }
    {
        'tries: for _ in 0..TRIES {
            match self.inner.read(buffer) {
                Err(error) if error.kind() == ErrorKind::Interrupted => {}
                result => return result,
            }
        }
        Err(ErrorKind::Interrupted.into())
    }
}

impl<W: Write> Write for Uninterrupted<W> {
    ghost contents = { λ writer. W.contents writer.inner };

    fn write(&mut self, bytes: &[u8]) -> Result<usize>
        ensures bound { WritesAtMost result bytes.now }
        ensures bytes { WriteAppends (W.contents self.old.inner) (W.contents self.new.inner)
            result bytes.now }
    {
        'tries: for _ in 0..TRIES {
            match self.inner.write(bytes) {
                Err(error) if error.kind() == ErrorKind::Interrupted => {}
                result => return result,
            }
        }
        Err(ErrorKind::Interrupted.into())
    }

    fn flush(&mut self) -> Result<()> {
        self.inner.flush()
    }
}
