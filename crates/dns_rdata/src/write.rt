//! Writes data as it appears in zone files (RFC 1035 5.1, RFC 3597 5).
ghost use Rattle.std.specs.Prelude.{◌≡◌, ◌+◌, ◌≤◌, ◌<◌, ◌-◌, ◌*◌, ◌^◌, ◌++◌, [], length, replicate, IsTrue};
ghost use Rattle.std.specs.Option.{is_some};
ghost use Rattle.dns_spec.specs.Names.{name_of};
ghost use Rattle.dns_spec.specs.Data.{Valid, number, ipv4, ipv6, domain, string, strings, field_front, string_front, are_strings};
ghost use Rattle.dns_spec.specs.WrittenText.{hex_text, unknown_words, field_words, string_count, data_text};
ghost use Rattle.dns_name.specs.Counted.{Writes, Fills};
ghost use Rattle.dns_rdata.specs.TypeRows.{field_of};
ghost use Rattle.dns_rdata.specs.WrittenForm.{spaced, has_one_word, PutsWord};

use crate::hex::hex_digits;
use crate::ipv4::text_of_ipv4;
use crate::ipv6_text::text_of_ipv6;
use crate::parts::{Part, first_name};
use crate::rdata::Rdata;
use crate::rtype::RType;
use crate::string::{MOST_STRING_TEXT, append_string_text};
use crate::table::{Field, is_strings, row_of_type};
use byteorder::{BigEndian, ByteOrder};
use dns_name::{NameRef, SinkFailed, Tally, TextBuffer};
use itoa::Buffer;
use std::io::Write;

// Words are separated by single spaces.
const SPACE: &[u8] = b" ";

// The number of octets that are written as hex digits before more room is made.
const CHUNK: usize = 128;

// The number of hex digits of a chunk, two for each octet.
const CHUNK_DIGITS: usize = 256;

// The most octets of the text of a string, with a space before it. No other word is longer, except
// the hex digits of the generic form, for which `put_unknown` makes room chunk by chunk.
const STRING_ROOM: usize = MOST_STRING_TEXT + 1;

impl Rdata {
    /// Writes valid data as text: its words, separated by single spaces (RFC 1035 5.1). For a type
    /// without a mnemonic these are `\#`, the length, and the octets in hex digits (RFC 3597 5).
    /// Names may be in either case. Does not allocate; the time is proportional to the length.
    ///
    /// Strings are in quotation marks. If the device fails, a prefix of the text has been written.
    pub fn write_text<W: Write>(
        rtype: RType,
        octets: &[u8],
        sink: &mut Tally<W>,
    ) -> Result<(), SinkFailed>
        requires valid { Valid rtype.0 octets.now }
        requires few_failures { sink.old.failures < 2 ^ 64 - 1 }
        ensures { Writes W.contents sink.old sink.new result (data_text rtype.0 octets.now) }
    {
        let mut text = TextBuffer::new();
        Rdata::put_text(rtype, octets, &mut text, sink)?;
        text.finish(sink)
    }

    /// Puts the text of valid data, as `write_text` writes it, into a buffer, which is written to
    /// `sink` when it is full.
    ///
    /// If the device fails, a prefix of the buffered text followed by this text has been written.
    pub fn put_text<W: Write>(
        rtype: RType,
        octets: &[u8],
        text: &mut TextBuffer,
        sink: &mut Tally<W>,
    ) -> Result<(), SinkFailed>
        requires valid { Valid rtype.0 octets.now }
        requires few_failures { sink.old.failures < 2 ^ 64 - 1 }
        ensures { Fills W.contents sink.old sink.new result
            (text.old ++ data_text rtype.0 octets.now) text.new }
    {
        let Some(row) = row_of_type(rtype) else {
            return put_unknown(octets, text, sink);
        };
        if is_strings(row.fields) {
            return put_strings(octets, text, sink);
        }
        let mut before: &[u8] = b"";
        let mut rest = octets;
        'fields: for field in row.fields {
            text.reserve(STRING_ROOM, sink)?;
            text.append(before);
            rest = append_field(*field, rest, text);
            before = SPACE;
        }
        Ok(())
    }
}

// Appends the word of the field with which `octets` begins. Returns the octets after the field.
fn append_field<'a>(field: Field, octets: &'a [u8], text: &mut TextBuffer) -> &'a [u8]
    requires there { IsTrue (is_some (field_front (field_of field) octets.now)) }
    requires one { IsTrue (has_one_word (field_of field)) }
    requires room { length text.old + 1022 ≤ 4096 }
    ensures { PutsWord (field_of field) octets.now text.old text.new result.now }
{
    match field {
        Field::U16 => append_number(2, octets, text),
        Field::U32 => append_number(4, octets, text),
        Field::Ipv4 => append_ipv4(octets, text),
        Field::Ipv6 => append_ipv6(octets, text),
        Field::Domain => append_name(octets, text),
        Field::String => append_string(octets, text),
        Field::Strings | Field::Anything => unreachable!(),
    }
}

// Puts the text of character-strings into the buffer, separated by single spaces.
fn put_strings<W: Write>(
    octets: &[u8],
    text: &mut TextBuffer,
    sink: &mut Tally<W>,
) -> Result<(), SinkFailed>
    requires strings { IsTrue (are_strings 0 octets.now) }
    requires few_failures { sink.old.failures < 2 ^ 64 - 1 }
    ensures { Fills W.contents sink.old sink.new result (text.old ++ spaced []
        (field_words (replicate (string_count 0 octets.now) strings) octets.now)) text.new }
{
    let mut before: &[u8] = b"";
    let mut rest = octets;
    'strings: while !rest.is_empty() {
        text.reserve(STRING_ROOM, sink)?;
        text.append(before);
        rest = append_string(rest, text);
        before = SPACE;
    }
    Ok(())
}

// Puts the text of data in the generic form into the buffer (RFC 3597 5).
fn put_unknown<W: Write>(
    octets: &[u8],
    text: &mut TextBuffer,
    sink: &mut Tally<W>,
) -> Result<(), SinkFailed>
    requires short { length octets.now ≤ 65535 }
    requires few_failures { sink.old.failures < 2 ^ 64 - 1 }
    ensures { Fills W.contents sink.old sink.new result
        (text.old ++ spaced [] (unknown_words octets.now)) text.new }
{
    text.reserve(STRING_ROOM, sink)?;
    text.append(b"\\# ");
    text.append(Buffer::new().format(octets.len() as u32).as_bytes());
    if octets.is_empty() {
        return Ok(());
    }
    text.append(SPACE);
    let mut rest = octets;
    'chunks: while !rest.is_empty() {
        let (chunk, others) = rest.split_at(rest.len().min(CHUNK));
        text.reserve(CHUNK_DIGITS, sink)?;
        append_hex_text(chunk, text);
        rest = others;
    }
    Ok(())
}

fn append_hex_text(octets: &[u8], text: &mut TextBuffer)
    requires { length text.old + 2 * length octets.now ≤ 4096 }
    ensures { text.new ≡ text.old ++ hex_text octets.now }
{
    'octets: for octet in octets {
        text.append(&hex_digits(*octet));
    }
}

fn append_name<'a>(octets: &'a [u8], text: &mut TextBuffer) -> &'a [u8]
    requires name { IsTrue (is_some (name_of octets.now)) }
    requires room { length text.old + 1020 ≤ 4096 }
    ensures { PutsWord domain octets.now text.old text.new result.now }
{
    let Some((Part::Name(name), rest)) = first_name(octets) else {
        unreachable!();
    };
    NameRef::new(name).append_text(text);
    rest
}

// Appends in decimal the big-endian number of `count` octets with which `octets` begins (RFC 1035
// 2.3.2). Returns the octets after the number.
#[tactic(auto, using(crate::proofs::BigNumbers::big_number_is))]
fn append_number<'a>(count: usize, octets: &'a [u8], text: &mut TextBuffer) -> &'a [u8]
    requires low { 1 ≤ count }
    requires high { count ≤ 4 }
    requires long { count ≤ length octets.now }
    requires room { length text.old + 20 ≤ 4096 }
    ensures { PutsWord (number count) octets.now text.old text.new result.now }
{
    let (number, rest) = octets.split_at(count);
    let number = BigEndian::read_uint(number, count);
    text.append(Buffer::new().format(number).as_bytes());
    rest
}

fn append_ipv4<'a>(octets: &'a [u8], text: &mut TextBuffer) -> &'a [u8]
    requires long { 4 ≤ length octets.now }
    requires room { length text.old + 15 ≤ 4096 }
    ensures { PutsWord ipv4 octets.now text.old text.new result.now }
{
    let Some((address, rest)) = octets.split_first_chunk::<4>() else {
        unreachable!();
    };
    text.append(text_of_ipv4(address).as_slice());
    rest
}

fn append_ipv6<'a>(octets: &'a [u8], text: &mut TextBuffer) -> &'a [u8]
    requires long { 16 ≤ length octets.now }
    requires room { length text.old + 39 ≤ 4096 }
    ensures { PutsWord ipv6 octets.now text.old text.new result.now }
{
    let Some((address, rest)) = octets.split_first_chunk::<16>() else {
        unreachable!();
    };
    text.append(text_of_ipv6(address).as_slice());
    rest
}

// Appends in quotation marks the character-string with which `octets` begins, without its length
// (RFC 1035 3.3). Returns the octets after the string.
fn append_string<'a>(octets: &'a [u8], text: &mut TextBuffer) -> &'a [u8]
    requires string { IsTrue (is_some (string_front octets.now)) }
    requires room { length text.old + 1022 ≤ 4096 }
    ensures { PutsWord string octets.now text.old text.new result.now }
{
    let Some((length, others)) = octets.split_first() else {
        unreachable!();
    };
    let (string, rest) = others.split_at(usize::from(*length));
    append_string_text(string, text);
    rest
}
