//! Gathers text in a buffer before it is written.
ghost use Rattle.std.specs.Prelude.{◌≡◌, ◌+◌, ◌-◌, ◌^◌, ◌<◌, ◌≤◌, [], ◌∷◌, ◌++◌, length, take, OnOk};
ghost use Rattle.dns_spec.specs.NameText.{three_digits};
ghost use Rattle.dns_name.specs.Counted.{Writes, Fills};

use crate::tally::{SinkFailed, Tally};
use arrayvec::ArrayVec;
use std::io::Write;
use std::marker::Model;

/// Text that is gathered, in an inline buffer of 4,096 octets, before it is written. So a line of
/// many parts takes few calls of the writer.
#[derive(Drop)]
pub struct TextBuffer {
    octets: ArrayVec<u8, 4096>,
}

impl Model for TextBuffer {
    ghost use Rattle.dns_spec.specs.Names.{Octets};

    ghost Value = { Octets };

    ghost view = { λ b. b.octets.items };
}

impl TextBuffer {
    /// An empty buffer.
    pub fn new() -> TextBuffer
        ensures { result ≡ [] }
    {
        TextBuffer {
            octets: ArrayVec::new(),
        }
    }

    /// The text.
    pub fn octets(&self) -> &[u8]
        ensures { result.now ≡ self.now }
    {
        self.octets.as_slice()
    }

    /// Appends a text.
    #[inline(always)]
    pub fn append(&mut self, text: &[u8])
        requires { length self.old + length text.now ≤ 4096 }
        ensures { self.new ≡ self.old ++ text.now }
    {
        if self.octets.try_extend_from_slice(text).is_err() {
            unreachable!();
        }
    }

    /// Appends an octet.
    #[inline(always)]
    pub fn push(&mut self, octet: u8)
        requires { length self.old + 1 ≤ 4096 }
        ensures { self.new ≡ self.old ++ octet ∷ [] }
    {
        self.octets.push(octet);
    }

    /// Appends a backslash and the three decimal digits of an octet (RFC 1035 5.1).
    pub fn push_escape(&mut self, octet: u8)
        requires { length self.old + 4 ≤ 4096 }
        ensures { self.new ≡ self.old ++ 92 ∷ three_digits octet }
    {
        self.append(&[
            b'\\',
            b'0' + octet / 100,
            b'0' + octet / 10 % 10,
            b'0' + octet % 10,
        ]);
    }

    /// Removes the last octet.
    pub fn pop(&mut self)
        requires { 0 < length self.old }
        ensures { self.new ≡ take (length self.old - 1) self.old }
    {
        self.octets.pop();
    }

    /// Empties the buffer.
    pub fn clear(&mut self)
        ensures { self.new ≡ [] }
    {
        self.octets.clear();
    }

    /// Makes room for `count` more octets. If they would not fit, the gathered text is written
    /// first.
    ///
    /// If the writer fails, it has written a prefix of the gathered text.
    #[inline(always)]
    pub fn reserve<W: Write>(&mut self, count: usize, sink: &mut Tally<W>) -> Result<(), SinkFailed>
        requires count { count ≤ 4096 }
        requires few_failures { sink.old.failures < 2 ^ 64 - 1 }
        ensures room { OnOk result (length self.new + count ≤ 4096) }
        ensures fills { Fills W.contents sink.old sink.new result self.old self.new }
    {
        if self.octets.remaining_capacity() < count {
            sink.write_all(self.octets.as_slice())?;
            self.clear();
        }
        Ok(())
    }

    /// Adds a text of any length. If it does not fit, the gathered text and then this text are
    /// written.
    ///
    /// If the writer fails, it has written a prefix of the gathered text followed by this text.
    pub fn put<W: Write>(&mut self, text: &[u8], sink: &mut Tally<W>) -> Result<(), SinkFailed>
        requires { sink.old.failures < 2 ^ 64 - 1 }
        ensures { Fills W.contents sink.old sink.new result (self.old ++ text.now) self.new }
    {
        if self.octets.remaining_capacity() < text.len() {
            sink.write_parts(&[self.octets(), text])?;
            self.clear();
        } else {
            self.append(text);
        }
        Ok(())
    }

    /// Writes the gathered text.
    ///
    /// If the writer fails, it has written a prefix of the gathered text.
    pub fn finish<W: Write>(self, sink: &mut Tally<W>) -> Result<(), SinkFailed>
        requires { sink.old.failures < 2 ^ 64 - 1 }
        ensures { Writes W.contents sink.old sink.new result self }
    {
        sink.write_all(self.octets())
    }
}
