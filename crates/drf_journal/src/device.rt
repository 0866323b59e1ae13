//! Readers and writers that record whether a call has failed.
ghost use Rattle.std.specs.Prelude.{◌≡◌, ◌+◌, ◌-◌, ◌^◌, ◌||◌, true, false, min, is_err, is_ok, OnOk, OnErr, IfErr};
ghost use Rattle.std.specs.Io.{ReadsAtMost, WritesAtMost};
ghost use Rattle.std.specs.Io.KnownBytes.{Appends, Keeps, ReadConsumes, WriteAppends};
ghost use Rattle.drf_journal.specs.Device.{moved_nothing, AppendsPrefixOf};

use crate::fault::RunFault;
use std::io;
use std::io::{Read, Write};

/// A reader or writer that records the number of its calls, whether a call has failed, and whether everything that was
/// written has been flushed. An interrupted call counts as failed.
#[derive(Drop)]
pub struct Device<T> {
    inner: T,
    calls: u64,
    failed: bool,
    flushed: bool,
}

impl<T> Device<T> {
    /// Creates a device that has not been called yet.
    pub fn new(inner: T) -> Device<T>
        ensures { result ≡ record { inner = inner; calls = 0; failed = false; flushed = true } }
    {
        Device {
            inner,
            calls: 0,
            failed: false,
            flushed: true,
        }
    }

    /// Returns the reader or writer inside.
    pub fn into_inner(self) -> T
        ensures { result ≡ self.inner }
    {
        self.inner
    }

    /// Returns the number of calls, which stops at 2^64 - 1.
    pub fn calls(&self) -> u64
        ensures { result ≡ self.now.calls }
    {
        self.calls
    }

    /// Returns whether a call has failed, or a write has taken no bytes.
    pub fn failed(&self) -> bool
        ensures { result ≡ self.now.failed }
    {
        self.failed
    }

    /// Returns whether everything that was written has been flushed. This holds before the first write.
    pub fn flushed(&self) -> bool
        ensures { result ≡ self.now.flushed }
    {
        self.flushed
    }
}

impl<T: Read> Device<T> {
    /// Reads some bytes. It returns 0 only at the end of the input or for an empty buffer.
    pub fn read(&mut self, buf: &mut [u8]) -> io::Result<usize>
        ensures bound { ReadsAtMost result buf.new }
        ensures bytes { ReadConsumes (T.remaining self.old.inner) (T.remaining self.new.inner) result buf.new }
        ensures calls { self.new.calls ≡ min (self.old.calls + 1) (2 ^ 64 - 1) }
        ensures failed { self.new.failed ≡ self.old.failed || is_err result }
        ensures flushed { self.new.flushed ≡ self.old.flushed }
    {
        let reported = self.inner.read(buf);
        self.calls = self.calls.saturating_add(1);
        self.failed = self.failed || reported.is_err();
        reported
    }
}

impl<T: Write> Device<T> {
    /// Writes some of the bytes, and returns how many.
    pub fn write(&mut self, bytes: &[u8]) -> io::Result<usize>
        ensures bound { WritesAtMost result bytes.now }
        ensures bytes { WriteAppends (T.contents self.old.inner) (T.contents self.new.inner) result bytes.now }
        ensures calls { self.new.calls ≡ min (self.old.calls + 1) (2 ^ 64 - 1) }
        ensures failed { self.new.failed ≡ self.old.failed || moved_nothing result }
        ensures flushed { self.new.flushed ≡ false }
    {
        self.flushed = false;
        let reported = self.inner.write(bytes);
        self.calls = self.calls.saturating_add(1);
        self.failed = self.failed || !matches!(reported, Ok(1..));
        reported
    }

    /// Flushes what was written.
    pub fn flush(&mut self) -> io::Result<()>
        ensures bytes { Keeps (T.contents self.old.inner) (T.contents self.new.inner) }
        ensures calls { self.new.calls ≡ min (self.old.calls + 1) (2 ^ 64 - 1) }
        ensures failed { self.new.failed ≡ self.old.failed || is_err result }
        ensures flushed { self.new.flushed ≡ self.old.flushed || is_ok result }
    {
        let reported = self.inner.flush();
        self.flushed = self.flushed || reported.is_ok();
        self.calls = self.calls.saturating_add(1);
        self.failed = self.failed || reported.is_err();
        reported
    }
}

/// Writes all bytes and flushes them. Fails with `Write` if a call fails or takes no bytes; then a prefix of the bytes
/// was written.
pub fn write_whole<W: Write>(writer: &mut Device<W>, bytes: &[u8]) -> Result<(), RunFault>
    ensures ok { OnOk result (Appends (W.contents writer.old.inner) (W.contents writer.new.inner) bytes.now) }
    ensures err { OnErr result (AppendsPrefixOf (W.contents writer.old.inner) (W.contents writer.new.inner) bytes.now) }
    ensures fault { IfErr result (λ fault. fault ≡ RunFault.Write) }
    ensures failed { writer.old.failed ≡ false → writer.new.failed ≡ is_err result }
    ensures flushed { OnOk result (writer.new.flushed ≡ true) }
{
    let mut rest = bytes;
    while !rest.is_empty() {
        let Ok(count) = writer.write(rest) else {
            return Err(RunFault::Write);
        };
        if count == 0 {
            return Err(RunFault::Write);
        }
        rest = &rest[count..];
    }
    if writer.flush().is_err() {
        return Err(RunFault::Write);
    }
    Ok(())
}
