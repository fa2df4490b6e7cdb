//! Prints a message that is given in hexadecimal digits.
ghost use Rattle.std.specs.Prelude.{◌≡◌, ◌≢◌, ◌-◌, ◌^◌, ◌<◌, length, Err, IfOk, IfErr};
ghost use Rattle.std.specs.List.{flat_map};
ghost use Rattle.dns_spec.specs.MessageLines.{header_line, question_line, section_line, message_text, PrintsOctets, PrintsMessage};
ghost use Rattle.dns_name.specs.Counted.{Writes};
ghost use Rattle.dns_serve.specs.Streams.{session};
ghost use Rattle.dns_wire.specs.WireFault.{fault_code};
ghost use Rattle.dns_tools.specs.Checked.{ReportedAs};
ghost use Rattle.dns_tools.specs.FirstLine.{HasReadFront, ReadsFirst};
ghost use Rattle.dns_tools.specs.Printed.{fault_line, PrintedAs};
ghost use Rattle.dns_tools.specs.declared.line.TheConstants.{MOST_LINE_OCTETS};
ghost use Rattle.dns_tools.specs.Stops.{source_failures_after, sink_failures_after};

use crate::line::{Line, MOST_LINE_OCTETS, PIECE};
use crate::line_parts::{LinePart, write_parts};
use crate::stop::{Outcome, Stop};
use dns_name::{SinkFailed, Tally};
use dns_rdata::RType;
use dns_wire::{Message, Question, WireFault, WireRecord, read_message};
use std::alloc::Global;
use std::io::{Read, Write};

/// Prints the message on the first line of the source, which must have at most 131,070 hexadecimal
/// digits of either case. The first line of an empty source is empty.
///
/// Writes a line for the header, for each question and for each record, and returns true. If there
/// is no valid message, returns false, and writes `bad hex` if the line does not spell octets, or
/// else a line with the number of the message's fault, such as `fault 3`.
///
/// Stops reading once the line has ended or is too long. So at most 65,535 octets after the line
/// are read. If the run stops early, the sink has a prefix of what is to be written. No device is
/// used after its failure.
pub fn run_message<R, W>(alloc: Global, source: &mut Tally<R>, sink: &mut Tally<W>) -> Outcome
where
    R: Read,
    W: Write,
    requires source { source.old.failures < 2 ^ 64 - 1 }
    requires sink { sink.old.failures < 2 ^ 64 - 1 }
    ensures source { source.new.failures ≡ source_failures_after source.old.failures result }
    ensures sink { sink.new.failures ≡ sink_failures_after sink.old.failures result }
    ensures unwritten { result ≡ Err Stop.Memory → sink.new ≡ sink.old }
    ensures printed { PrintedAs
        (session R.remaining W.contents source.old source.new sink.old sink.new) result }
{
    let mut octets = vec![in alloc; 0; MOST_LINE_OCTETS]?;
    let line = match first_line(alloc, source) {
        Ok(line) => line,
        Err(stop) => return Err(stop),
    };
    let spelled = octets.as_mut_slice();
    let Some(len) = line.spell(spelled) else {
        sink.write_all(b"bad hex\n")?;
        return Ok(false);
    };
    print_octets(alloc, &spelled[..len], sink)
}

fn first_line<R: Read>(alloc: Global, source: &mut Tally<R>) -> Result<Line, Stop>
    requires { source.old.failures < 2 ^ 64 - 1 }
    ensures counted { source.new.failures ≡ source_failures_after source.old.failures result }
    ensures stop { IfErr result (λ stop. stop ≢ Stop.Sink) }
    ensures read { IfOk result (ReadsFirst (R.remaining source.old.device)
        (R.remaining source.new.device)) }
    ensures failed { result ≡ Err Stop.Source → HasReadFront (R.remaining source.old.device)
        (R.remaining source.new.device) }
{
    let mut piece = vec![in alloc; 0; PIECE]?;
    let mut line = Line::new(alloc)?;
    line.read(piece.as_mut_slice(), source)?;
    Ok(line)
}

fn print_octets<W: Write>(alloc: Global, octets: &[u8], sink: &mut Tally<W>) -> Outcome
    requires { sink.old.failures < 2 ^ 64 - 1 }
    ensures counted { sink.new.failures ≡ sink_failures_after sink.old.failures result }
    ensures stop { IfErr result (λ stop. stop ≢ Stop.Source) }
    ensures unwritten { result ≡ Err Stop.Memory → sink.new ≡ sink.old }
    ensures printed { ReportedAs (PrintsOctets octets.now) result (W.contents sink.old.device)
        (W.contents sink.new.device) }
{
    match read_message(alloc, octets) {
        Ok(message) => {
            write_message(&message, sink)?;
            Ok(true)
        }
        Err(fault) => match fault {
            WireFault::NoMemory => Err(Stop::Memory),
            _ => {
                write_fault(fault, sink)?;
                Ok(false)
            }
        },
    }
}

// Writes the line for a fault: `fault 3`.
fn write_fault<W: Write>(fault: WireFault, sink: &mut Tally<W>) -> Result<(), SinkFailed>
    requires { sink.old.failures < 2 ^ 64 - 1 }
    ensures { Writes W.contents sink.old sink.new result (fault_line (fault_code fault)) }
{
    let line = [
        LinePart::Text(b"fault "),
        LinePart::Number(u64::from(fault.code())),
        LinePart::Text(b"\n"),
    ];
    write_parts(line.as_slice(), sink)
}

// Writes a line for the header, for each question and for each record.
fn write_message<W: Write>(message: &Message, sink: &mut Tally<W>) -> Result<(), SinkFailed>
    requires { sink.old.failures < 2 ^ 64 - 1 }
    ensures { Writes W.contents sink.old sink.new result (message_text message.now) }
{
    write_header(message, sink)?;
    write_questions(message.questions.as_slice(), sink)?;
    write_records(b"answer", message.answers.as_slice(), sink)?;
    write_records(b"authority", message.authorities.as_slice(), sink)?;
    write_records(b"additional", message.additionals.as_slice(), sink)
}

// Writes the ID and the flags in hexadecimal, and the numbers of questions and records:
// `header 1234 8400 1 1 0 0`.
fn write_header<W: Write>(message: &Message, sink: &mut Tally<W>) -> Result<(), SinkFailed>
    requires { sink.old.failures < 2 ^ 64 - 1 }
    ensures { Writes W.contents sink.old sink.new result (header_line message.now) }
{
    let line = [
        LinePart::Text(b"header "),
        LinePart::Hex(message.head.id),
        LinePart::Text(b" "),
        LinePart::Hex(message.head.flags),
        LinePart::Count(message.questions.len()),
        LinePart::Count(message.answers.len()),
        LinePart::Count(message.authorities.len()),
        LinePart::Count(message.additionals.len()),
        LinePart::Text(b"\n"),
    ];
    write_parts(line.as_slice(), sink)
}

// Writes a line for each question: `question www.example. IN A`.
fn write_questions<W: Write>(questions: &[Question], sink: &mut Tally<W>) -> Result<(), SinkFailed>
    requires { sink.old.failures < 2 ^ 64 - 1 }
    ensures { Writes W.contents sink.old sink.new result (flat_map question_line questions.now) }
{
    'questions: for question in questions {
        let line = [
            LinePart::Text(b"question "),
            LinePart::Name(question.name.borrowed()),
            LinePart::Class(question.qclass),
            LinePart::TypeName(RType(question.qtype)),
            LinePart::Text(b"\n"),
        ];
        write_parts(line.as_slice(), sink)?;
    }
    Ok(())
}

// Writes a line for each record of a section: `answer www.example. 3600 IN A 192.0.2.10`.
fn write_records<'a, W: Write>(
    section: &'a [u8],
    records: &'a [WireRecord],
    sink: &mut Tally<W>,
) -> Result<(), SinkFailed>
    requires { sink.old.failures < 2 ^ 64 - 1 }
    ensures { Writes W.contents sink.old sink.new result
        (flat_map (section_line section.now) records.now) }
{
    'records: for record in records {
        let line = [
            LinePart::Text(section),
            LinePart::Text(b" "),
            LinePart::Name(record.owner.borrowed()),
            LinePart::Text(b" "),
            LinePart::Number(u64::from(record.ttl)),
            LinePart::Class(record.rclass),
            LinePart::TypeName(record.rtype),
            LinePart::Text(b" "),
            LinePart::Data(record),
            LinePart::Text(b"\n"),
        ];
        write_parts(line.as_slice(), sink)?;
    }
    Ok(())
}
