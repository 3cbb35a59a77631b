//! Readers and writers whose failures are counted.

ghost use Rattle.std.specs.Prelude.{◌≡◌, ◌<◌, IfOk, OnOk, OnErr, IsErr, length};
ghost use Rattle.std.specs.Io.{ReadsAtMost, WritesAtMost};
ghost use Rattle.std.specs.Io.KnownBytes.{ReadConsumes, WriteAppends};
ghost use Rattle.acpi_base.specs.Tally.{CountsFailure, last_count};

use std::io::{Read, Write};
use std::marker::Model;
use thiserror::Error;

/// A read or a write failed.
#[derive(Clone, Copy, Debug, PartialEq, Eq, Error)]
#[error("device")]
pub struct DeviceFailed;

/// A reader or a writer with a count of its failures. The bytes are those of the inner reader or writer. No call
/// allocates.
#[derive(Drop)]
pub struct Tally<T> {
    inner: T,
    failures: u64,
}

impl<T> Model for Tally<T> {
    ghost use Rattle.acpi_base.specs.Tally.{CountedDevice, counted_code};

    ghost Value = { CountedDevice T };

    ghost coded = { counted_code T.code };

    ghost view = { λ t. record { inner = t.inner; failures = t.failures } };
}

impl<T> Tally<T> {
    /// Counts from 0.
    pub fn new(inner: T) -> Tally<T>
        ensures inner { result.inner ≡ inner }
        ensures failures { result.failures ≡ 0 }
    {
        Tally { inner, failures: 0 }
    }

    /// How many reads and writes have failed, 0 to 2^64 - 1.
    pub fn failures(&self) -> u64
        ensures { result ≡ self.now.failures }
    {
        self.failures
    }

    /// The inner reader or writer.
    pub fn into_inner(self) -> T
        ensures { result ≡ self.inner }
    {
        self.inner
    }

    /// Reads once, into a prefix of the buffer, and returns how many bytes were read. Returns `DeviceFailed` if the
    /// read failed in any way, which adds one to the count. At a count of 2^64 - 1 nothing is read: it returns
    /// `DeviceFailed`, and the count stays the same.
    pub fn read(&mut self, buffer: &mut [u8]) -> Result<usize, DeviceFailed>
    where
        T: Read,
        ensures bound { ReadsAtMost result buffer.new }
        ensures bytes { ReadConsumes (T.remaining self.old.inner) (T.remaining self.new.inner)
            result buffer.new }
        ensures ok { OnOk result (self.new.failures ≡ self.old.failures) }
        ensures err { OnErr result (CountsFailure self.old.failures self.new.failures) }
        ensures last { self.old.failures ≡ last_count → IsErr result × (self.new ≡ self.old) }
    {
        if self.failures == u64::MAX {
            return Err(DeviceFailed);
        }
        match self.inner.read(buffer) {
            Ok(count) => Ok(count),
            Err(_) => {
                self.failures += 1;
                Err(DeviceFailed)
            }
        }
    }

    /// Writes once, a prefix of the bytes, and returns how many were written: at least one, unless there are none.
    /// Returns `DeviceFailed` if the write failed in any way, or wrote none of at least one byte; this adds one to
    /// the count. At a count of 2^64 - 1 nothing is written: it returns `DeviceFailed`, and the count stays the same.
    pub fn write(&mut self, bytes: &[u8]) -> Result<usize, DeviceFailed>
    where
        T: Write,
        ensures bound { WritesAtMost result bytes.now }
        ensures bytes { WriteAppends (T.contents self.old.inner) (T.contents self.new.inner) result
            bytes.now }
        ensures some { IfOk result (λ count. 0 < length bytes.now → 0 < count) }
        ensures ok { OnOk result (self.new.failures ≡ self.old.failures) }
        ensures err { OnErr result (CountsFailure self.old.failures self.new.failures) }
        ensures last { self.old.failures ≡ last_count → IsErr result × (self.new ≡ self.old) }
    {
        if self.failures == u64::MAX {
            return Err(DeviceFailed);
        }
        match self.inner.write(bytes) {
            Ok(count) if count > 0 || bytes.is_empty() => Ok(count),
            _ => {
                self.failures += 1;
                Err(DeviceFailed)
            }
        }
    }
}
