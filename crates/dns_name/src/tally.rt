//! Readers and writers that count their failures.
ghost use Rattle.std.specs.Prelude.{◌≡◌, ◌+◌, ◌-◌, ◌^◌, ◌<◌, [], length, IfOk};
ghost use Rattle.std.specs.Io.{ReadsAtMost, WritesAtMost};
ghost use Rattle.std.specs.Io.KnownBytes.{ReadConsumes, WriteAppends};
ghost use Rattle.dns_name.specs.Counted.{Writes, failures_after, joined};

use std::io::{Read, Write};
use std::marker::Model;

/// A call to a reader failed and was counted.
#[derive(Clone, Copy, Debug, PartialEq, Eq)]
pub struct SourceFailed;

/// A call to a writer failed and was counted.
#[derive(Clone, Copy, Debug, PartialEq, Eq)]
pub struct SinkFailed;

/// A device (a reader or a writer), with the number of its failed calls.
///
/// The number rises by one with each call that returns an error, and never otherwise. No call is
/// retried. Condition of each method that calls the device: the number is below `u64::MAX`.
#[derive(Drop)]
pub struct Tally<T> {
    device: T,
    failures: u64,
}

impl<T> Model for Tally<T> {
    ghost use Rattle.dns_name.specs.Counted.{Counted};

    ghost Value = { Counted T };

    ghost view = { λ t. record { device = t.device; failures = t.failures } };
}

impl<T> Tally<T> {
    /// The device with a count of 0.
    pub fn new(device: T) -> Self
        ensures device { result.device ≡ device }
        ensures failures { result.failures ≡ 0 }
    {
        Tally {
            device,
            failures: 0,
        }
    }

    /// The number of calls of the device that have failed.
    pub fn failures(&self) -> u64
        ensures { result ≡ self.now.failures }
    {
        let Tally { failures, .. } = self;
        *failures
    }

    /// The device, without its count.
    pub fn into_inner(self) -> T
        ensures { result ≡ self.device }
    {
        let Tally {
            device,
            failures: _,
        } = self;
        device
    }
}

impl<T: Read> Tally<T> {
    /// Reads once into the front of `buf` and returns the number of octets read: 0 at the end of
    /// the input, or if `buf` is empty. If the device fails, the failure is counted, and no octet
    /// has been taken from the input.
    pub fn read(&mut self, buf: &mut [u8]) -> Result<usize, SourceFailed>
        requires { self.old.failures < 2 ^ 64 - 1 }
        ensures bound { ReadsAtMost result buf.new }
        ensures bytes { ReadConsumes (T.remaining self.old.device)
            (T.remaining self.new.device) result buf.new }
        ensures counted { self.new.failures ≡ failures_after self.old.failures result }
    {
        match self.device.read(buf) {
            Ok(count) => Ok(count),
            Err(_) => {
                self.failures += 1;
                Err(SourceFailed)
            }
        }
    }
}

impl<T: Write> Tally<T> {
    /// Writes once from the front of `piece` and returns the number of octets that the device took.
    /// If the device fails, or takes nothing of a piece that is not empty, that is counted as a
    /// failure, and nothing has been written.
    pub fn write(&mut self, piece: &[u8]) -> Result<usize, SinkFailed>
        requires { self.old.failures < 2 ^ 64 - 1 }
        ensures bound { WritesAtMost result piece.now }
        ensures progress { IfOk result (λ count. 0 < length piece.now → 0 < count) }
        ensures bytes { WriteAppends (T.contents self.old.device)
            (T.contents self.new.device) result piece.now }
        ensures counted { self.new.failures ≡ failures_after self.old.failures result }
    {
        match self.device.write(piece) {
            Ok(count) if count > 0 || piece.is_empty() => Ok(count),
            _ => {
                self.failures += 1;
                Err(SinkFailed)
            }
        }
    }

    /// Writes the whole text, in as many calls as it takes. Stops at the first failed call; a
    /// prefix of the text has then been written.
    pub fn write_all(&mut self, text: &[u8]) -> Result<(), SinkFailed>
        requires { self.old.failures < 2 ^ 64 - 1 }
        ensures { Writes T.contents self.old self.new result text.now }
    {
        let mut written = 0;
        'pieces: while written < text.len() {
            written += self.write(&text[written..])?;
        }
        Ok(())
    }

    /// Writes the texts in order. Stops at the first failed call; a prefix of the joined texts has
    /// then been written.
    pub fn write_parts(&mut self, parts: &[&[u8]]) -> Result<(), SinkFailed>
        requires { self.old.failures < 2 ^ 64 - 1 }
        ensures { Writes T.contents self.old self.new result (joined parts.now) }
    {
        'parts: for part in parts {
            self.write_all(*part)?;
        }
        Ok(())
    }

    /// Flushes the device. If that fails, the failure is counted, and nothing is retried.
    pub fn flush(&mut self) -> Result<(), SinkFailed>
        requires { self.old.failures < 2 ^ 64 - 1 }
        ensures { Writes T.contents self.old self.new result [] }
    {
        if self.device.flush().is_err() {
            self.failures += 1;
            return Err(SinkFailed);
        }
        Ok(())
    }
}
