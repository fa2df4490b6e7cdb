//! Types of records.
ghost use Rattle.std.specs.Prelude.{◌≡◌, ℕ, ◌-◌, ◌^◌, ◌<◌, MatchOption, ◌+◌, ◌≤◌, ◌++◌, length};
ghost use Rattle.dns_spec.specs.Data.{compresses};
ghost use Rattle.dns_spec.specs.TypeText.{NamesType, type_text};
ghost use Rattle.dns_name.specs.Counted.{Writes};

use crate::number::read_number;
use crate::table::{row_of_mnemonic, row_of_type};
use dns_name::{SinkFailed, Tally, TextBuffer};
use itoa::Buffer;
use std::io::Write;

/// A type of a record: 16 bits (RFC 1035 3.2.2).
#[derive(Clone, Copy, Debug, PartialEq, Eq)]
pub struct RType(pub u16);

/// The types that have a mnemonic.
impl RType {
    /// An IPv4 address (RFC 1035 3.4.1).
    pub const A: RType = RType(1);
    /// An authoritative name server (RFC 1035 3.3.11).
    pub const NS: RType = RType(2);
    /// The canonical name for an alias (RFC 1035 3.3.1).
    pub const CNAME: RType = RType(5);
    /// The start of a zone of authority (RFC 1035 3.3.13).
    pub const SOA: RType = RType(6);
    /// A pointer to another name (RFC 1035 3.3.12).
    pub const PTR: RType = RType(12);
    /// A host's processor and operating system (RFC 1035 3.3.2).
    pub const HINFO: RType = RType(13);
    /// A mail exchange (RFC 1035 3.3.9).
    pub const MX: RType = RType(15);
    /// Text (RFC 1035 3.3.14).
    pub const TXT: RType = RType(16);
    /// An IPv6 address (RFC 3596 2.1).
    pub const AAAA: RType = RType(28);
    /// The location of a service (RFC 2782).
    pub const SRV: RType = RType(33);
}

impl RType {
    /// Whether names in the data of this type are compressed. Only types of RFC 1035 may do so (RFC
    /// 3597 4).
    pub fn compresses(self) -> bool
        ensures { result ≡ compresses self.0 }
    {
        row_of_type(self).is_some_and(|row| row.compresses)
    }
}

/// Reading and writing types as text (RFC 1035 5.1, RFC 3597 5).
impl RType {
    /// The type that a word names, such as `MX` or `TYPE15`, in any case. The number after `TYPE`
    /// has no leading zeros and is at most 65535. `None` if the word does not name a type.
    pub fn read_text(word: &[u8]) -> Option<RType>
        ensures { MatchOption result ((t : ℕ) → NamesType word.now t → ⊥)
            (λ r. NamesType word.now r.0) }
    {
        if let Some(row) = row_of_mnemonic(word) {
            return Some(RType(row.number));
        }
        let (prefix, digits) = word.split_at_checked(4)?;
        if !prefix.eq_ignore_ascii_case(b"TYPE") {
            return None;
        }
        let number = read_number(digits, u32::from(u16::MAX))?;
        Some(RType(number as u16))
    }

    /// Writes the type as its mnemonic, or as `TYPE` and its number if it has none. Does not
    /// allocate.
    ///
    /// If the device fails, a prefix of that text has been written.
    pub fn write_text<W: Write>(self, sink: &mut Tally<W>) -> Result<(), SinkFailed>
        requires { sink.old.failures < 2 ^ 64 - 1 }
        ensures { Writes W.contents sink.old sink.new result (type_text self.0) }
    {
        let mut text = TextBuffer::new();
        self.append_text(&mut text);
        text.finish(sink)
    }

    /// Appends the text that `write_text` writes, at most 9 octets.
    pub fn append_text(self, text: &mut TextBuffer)
        requires { length text.old + 9 ≤ 4096 }
        ensures text { text.new ≡ text.old ++ type_text self.0 }
        ensures upto { length text.new ≤ length text.old + 9 }
    {
        match row_of_type(self) {
            Some(row) => text.append(row.mnemonic),
            None => {
                text.append(b"TYPE");
                text.append(Buffer::new().format(self.0).as_bytes());
            }
        }
    }
}
