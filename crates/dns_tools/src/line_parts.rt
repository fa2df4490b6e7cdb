//! Lines of output, assembled from texts, numbers, names and data.
ghost use Rattle.std.specs.Prelude.{◌≡◌, ◌+◌, ◌-◌, ◌^◌, ◌<◌, ◌≤◌, ◌++◌, length, codes, decimal};
ghost use Rattle.dns_spec.specs.AllFaults.{number_text};
ghost use Rattle.dns_spec.specs.Layout.{octets16};
ghost use Rattle.dns_spec.specs.MessageLines.{class_text, count_text};
ghost use Rattle.dns_spec.specs.Report.{two_digits};
ghost use Rattle.dns_spec.specs.WrittenText.{hex_text};
ghost use Rattle.dns_name.specs.Counted.{Writes, Fills};
ghost use Rattle.dns_tools.specs.Parts.{part_text, parts_text};
ghost use Rattle.dns_tools.specs.declared.stop.Stop.TheVariants.{Sink};

use crate::stop::Stop;
use dns_name::{Name, NameRef, SinkFailed, Tally, TextBuffer};
use dns_rdata::{RType, Rdata};
use dns_wire::{CLASS_IN, WireRecord};
use itoa::Buffer;
use std::io::Write;

// Room for the text of a name. Texts of numbers, codes, classes and types are shorter.
const NAME_ROOM: usize = 1020;

/// A part of a line.
#[derive(Drop)]
pub(crate) enum LinePart<'a> {
    /// A literal text.
    Text(&'a [u8]),
    /// A number in decimal.
    Number(u64),
    /// A space and a number in decimal.
    Count(usize),
    /// A line and a column in decimal, with a colon between them.
    Position(u64, u64),
    /// 16 bits in four hexadecimal digits, in lower case.
    Hex(u16),
    /// The two decimal digits of a code.
    Code(u8),
    /// A dot and a number in decimal, or nothing.
    DottedNumber(Option<u8>),
    /// A name with a dot after each label.
    Name(NameRef<'a>),
    /// A name without its final dot.
    BareName(&'a Name),
    /// A class between spaces: ` IN `, or ` CLASS3 ` (RFC 3597 5).
    Class(u16),
    /// A type, by its name or by its number.
    TypeName(RType),
    /// The data of a record.
    Data(&'a WireRecord),
}

impl From<SinkFailed> for Stop {
    ghost from_gives = { λ _ stop. stop ≡ Sink };

    fn from(_failed: SinkFailed) -> Stop {
        Stop::Sink
    }
}

/// Writes parts, one after another.
pub(crate) fn write_parts<W: Write>(
    parts: &[LinePart<'_>],
    sink: &mut Tally<W>,
) -> Result<(), SinkFailed>
    requires { sink.old.failures < 2 ^ 64 - 1 }
    ensures { Writes W.contents sink.old sink.new result (parts_text parts.now) }
{
    let mut text = TextBuffer::new();
    'parts: for part in parts {
        text.reserve(NAME_ROOM, sink)?;
        part.put(&mut text, sink)?;
    }
    text.finish(sink)
}

impl LinePart<'_> {
    fn put<W: Write>(&self, text: &mut TextBuffer, sink: &mut Tally<W>) -> Result<(), SinkFailed>
        requires room { length text.old + 1020 ≤ 4096 }
        requires few_failures { sink.old.failures < 2 ^ 64 - 1 }
        ensures { Fills W.contents sink.old sink.new result
            (text.old ++ part_text self.now) text.new }
    {
        match self {
            LinePart::Text(octets) => return text.put(octets, sink),
            LinePart::Number(number) => text.append(Buffer::new().format(*number).as_bytes()),
            LinePart::Count(count) => append_count(*count, text),
            LinePart::Position(line, column) => append_position(*line, *column, text),
            LinePart::Hex(number) => text.append(hex_of(*number).as_slice()),
            LinePart::Code(code) => text.append(&[b'0' + *code / 10, b'0' + *code % 10]),
            LinePart::DottedNumber(number) => append_dotted(*number, text),
            LinePart::Name(name) => name.append_text(text),
            LinePart::BareName(name) => name.append_bare_text(text),
            LinePart::Class(class) => append_class(*class, text),
            LinePart::TypeName(rtype) => rtype.append_text(text),
            LinePart::Data(record) => {
                let octets = record.rdata.as_slice();
                return Rdata::put_text(record.data_type(), octets, text, sink);
            }
        }
        Ok(())
    }
}

fn append_count(count: usize, text: &mut TextBuffer)
    requires { length text.old + 1020 ≤ 4096 }
    ensures { text.new ≡ text.old ++ count_text count }
{
    text.append(b" ");
    text.append(Buffer::new().format(count).as_bytes());
}

fn append_position(line: u64, column: u64, text: &mut TextBuffer)
    requires { length text.old + 1020 ≤ 4096 }
    ensures { text.new ≡ text.old ++ (decimal line ++ codes ":" ++ decimal column) }
{
    text.append(Buffer::new().format(line).as_bytes());
    text.append(b":");
    text.append(Buffer::new().format(column).as_bytes());
}

fn append_dotted(number: Option<u8>, text: &mut TextBuffer)
    requires { length text.old + 1020 ≤ 4096 }
    ensures { text.new ≡ text.old ++ number_text number }
{
    if let Some(number) = number {
        text.append(b".");
        text.append(Buffer::new().format(number).as_bytes());
    }
}

fn append_class(class: u16, text: &mut TextBuffer)
    requires { length text.old + 1020 ≤ 4096 }
    ensures { text.new ≡ text.old ++ class_text class }
{
    if class == CLASS_IN {
        text.append(b" IN ");
        return;
    }
    text.append(b" CLASS");
    text.append(Buffer::new().format(class).as_bytes());
    text.push(b' ');
}

fn hex_of(number: u16) -> [u8; 4]
    ensures { result ≡ hex_text (octets16 number) }
{
    let mut digits = [b'0'; 4];
    if hex::encode_to_slice(number.to_be_bytes(), &mut digits).is_err() {
        unreachable!();
    }
    digits
}
