//! Reads messages as lines of hexadecimal digits, and answers each with a line.
ghost use Rattle.std.specs.Prelude.{◌≡◌, ◌≢◌, ◌-◌, ◌*◌, ◌^◌, ◌<◌, ◌≤◌, [], ◌++◌, ◌&&◌, length, take, vec_len, Option, Some, Err, OnOk, OnErr, IfOk, IfErr, IfSome};
ghost use Rattle.std.specs.Option.{is_some, option_copied};
ghost use Rattle.dns_spec.specs.Names.{Octets};
ghost use Rattle.dns_spec.specs.Lines.{line_answers, lines, message_answer, reply_line};
ghost use Rattle.dns_tools.specs.Exchanges.{Begun, Grows, IsFresh, LinesAnswered, Progress, reply_within};
ghost use Rattle.dns_spec.specs.DataText.{hex_octets};
ghost use Rattle.dns_name.specs.Counted.{AppendsBeginning, Writes, failures_after};
ghost use Rattle.dns_serve.specs.Streams.{session};
ghost use Rattle.dns_tools.specs.Stops.{source_failures_after, sink_failures_after};
ghost use Rattle.dns_tools.specs.declared.line.TheConstants.{MOST_LINE_OCTETS, PIECE};
ghost use Rattle.dns_tools.specs.declared.once.TheConstants.{MOST_ANSWER};

use crate::line::{Line, MOST_LINE_OCTETS, PIECE};
use crate::stop::{Outcome, Stop};
use dns_answer::{TcpBuilder, UdpBuilder, respond_in};
use dns_name::{SinkFailed, Tally};
use dns_zone::{Steps, Zone};
use std::alloc::{AllocError, Global};
use std::io::{Read, Write};

// The length of the longest answer: the digits of the longest reply, and the LF.
const MOST_ANSWER: usize = 131_071;

/// Writes one line to the sink for each line of the source, and returns whether all lines were
/// messages.
///
/// A message is a line of at most 131,070 hexadecimal digits of either case. Its answer is the
/// reply in lower case digits, or `none` if it gets no reply. The answer to any other line is
/// `bad hex`. After the last LF there is one more line only if octets follow it. At most
/// 18,446,744,073,709,551,615 octets are read; then the source counts as ended. Each line is
/// answered as soon as it ends.
///
/// If the run stops early, the sink has a prefix of the answers, with at least the answers to all
/// lines that ended before the last piece of at most 65,536 octets was read. No device is used
/// after its failure. Memory is allocated only before the first octet is read.
pub fn run_once<R: Read, W: Write>(
    alloc: Global,
    zone: &Zone,
    limit: dns_answer::Limit,
    source: &mut Tally<R>,
    sink: &mut Tally<W>,
) -> Outcome
    requires source { source.old.failures < 2 ^ 64 - 1 }
    requires sink { sink.old.failures < 2 ^ 64 - 1 }
    ensures source { source.new.failures ≡ source_failures_after source.old.failures result }
    ensures sink { sink.new.failures ≡ sink_failures_after sink.old.failures result }
    ensures lines { LinesAnswered (reply_within limit zone.now)
        (session R.remaining W.contents source.old source.new sink.old sink.new) result }

    // If allocation fails, nothing was read and nothing was written.
    ensures unread { result ≡ Err Stop.Memory → source.new ≡ source.old }
    ensures unwritten { result ≡ Err Stop.Memory → sink.new ≡ sink.old }
{
    let mut piece = vec![in alloc; 0; PIECE]?;
    let mut exchange = Exchange {
        zone,
        limit,
        line: Line::new(alloc)?,
        scratch: vec![in alloc; 0; MOST_ANSWER]?,
        builders: ReplyBuilders::new(alloc)?,
        are_all_messages: true,
    };
    exchange.run(piece.as_mut_slice(), source, sink)
}

// The state of a run over the lines of one source.
#[derive(Drop)]
struct Exchange<'z> {
    zone: &'z Zone,
    limit: dns_answer::Limit,
    // The unfinished line.
    line: Line,
    // Holds a line's octets, and then the digits of its reply.
    scratch: Vec<u8>,
    builders: ReplyBuilders,
    are_all_messages: bool,
    ghost scratch_octets: { vec_len scratch ≡ MOST_ANSWER },
}

impl<'z> Exchange<'z> {
    ghost use Rattle.dns_tools.specs.ExchangeForm.{kept_of, reply_of};

    fn run<R: Read, W: Write>(
        &mut self,
        piece: &mut [u8],
        source: &mut Tally<R>,
        sink: &mut Tally<W>,
    ) -> Outcome
        requires source { source.old.failures < 2 ^ 64 - 1 }
        requires sink { sink.old.failures < 2 ^ 64 - 1 }
        requires piece { length piece.old ≡ PIECE }
        requires fresh { IsFresh (kept_of self.old) }
        ensures source { source.new.failures ≡ source_failures_after source.old.failures result }
        ensures sink { sink.new.failures ≡ sink_failures_after sink.old.failures result }
        ensures lines { LinesAnswered (reply_of self.old)
            (session R.remaining W.contents source.old source.new sink.old sink.new) result }
        ensures memory { IfErr result (λ stop. stop ≢ Stop.Memory) }
    {
        let mut left = u64::MAX;
        'pieces: while left > 0 {
            let most = left.min(piece.len() as u64) as usize;
            let count = source.read(&mut piece[..most])?;
            if count == 0 {
                break;
            }
            self.take(&piece[..count], sink)?;
            left -= count as u64;
        }
        // The last line, if no LF ends it.
        if !self.line.is_empty() {
            self.end_line(sink)?;
        }
        Ok(self.are_all_messages)
    }

    // Takes the next octets of the source, and answers the lines that end in them.
    fn take<W: Write>(&mut self, octets: &[u8], sink: &mut Tally<W>) -> Result<(), SinkFailed>
        requires { sink.old.failures < 2 ^ 64 - 1 }
        ensures counted { sink.new.failures ≡ failures_after sink.old.failures result }
        ensures task { OnOk result (reply_of self.new ≡ reply_of self.old) }
        ensures taken { (held : Option Octets) (x : Octets)
            → Progress (reply_of self.old) held (W.contents sink.old.device) x (kept_of self.old)
            → OnOk result (Progress (reply_of self.old) held (W.contents sink.new.device)
            (x ++ octets.now) (kept_of self.new)) }
        ensures begun { (held : Option Octets) (x : Octets)
            → Progress (reply_of self.old) held (W.contents sink.old.device) x (kept_of self.old)
            → OnErr result (Begun (reply_of self.old) held (W.contents sink.new.device)
            (x ++ octets.now)) }
        ensures grows { Grows (W.contents sink.old.device) (W.contents sink.new.device) }
    {
        'octets: for octet in octets {
            if *octet == b'\n' {
                self.end_line(sink)?;
            } else {
                self.line.keep(*octet);
            }
        }
        Ok(())
    }

    // Answers the line that has ended, and begins the next one.
    fn end_line<W: Write>(&mut self, sink: &mut Tally<W>) -> Result<(), SinkFailed>
        requires { sink.old.failures < 2 ^ 64 - 1 }
        ensures answered { Writes W.contents sink.old sink.new result
            (message_answer (reply_of self.old) (hex_octets self.old.line)) }
        ensures line { OnOk result (self.new.line ≡ []) }
        ensures passes { OnOk result (self.new.are_all_messages ≡ (self.old.are_all_messages
            && is_some (hex_octets self.old.line))) }
        ensures task { OnOk result (reply_of self.new ≡ reply_of self.old) }
    {
        let (scratch, builders) = (self.scratch.as_mut_slice(), &mut self.builders);
        let is_message = answer(self.zone, self.limit, builders, &self.line, scratch, sink)?;
        self.are_all_messages = self.are_all_messages && is_message;
        self.line.clear();
        Ok(())
    }
}

// The builders of replies over UDP and TCP. The one for TCP is large, so it is not on the stack.
#[derive(Drop)]
struct ReplyBuilders {
    udp: UdpBuilder,
    tcp: Box<TcpBuilder>,
}

impl ReplyBuilders {
    fn new(alloc: Global) -> Result<ReplyBuilders, AllocError> {
        Ok(ReplyBuilders {
            udp: UdpBuilder::new(),
            tcp: Box::new(alloc, TcpBuilder::new())?,
        })
    }
}

// Answers a line, and returns whether the line is a message. `scratch` is for the line's octets,
// then for the digits of the reply.
fn answer<W: Write>(
    zone: &Zone,
    limit: dns_answer::Limit,
    builders: &mut ReplyBuilders,
    line: &Line,
    scratch: &mut [u8],
    sink: &mut Tally<W>,
) -> Result<bool, SinkFailed>
    requires room { length scratch.old ≡ MOST_ANSWER }
    requires few { sink.old.failures < 2 ^ 64 - 1 }
    ensures answered { Writes W.contents sink.old sink.new result
        (message_answer (reply_within limit zone.now) (hex_octets line.now)) }
    ensures message { IfOk result (λ message. message ≡ is_some (hex_octets line.now)) }
{
    let Some(len) = line.spell(&mut scratch[..MOST_LINE_OCTETS]) else {
        sink.write_all(b"bad hex\n")?;
        return Ok(false);
    };
    let (mut steps, datagram) = (Steps::new(zone), &scratch[..len]);
    match limit {
        dns_answer::Limit::Udp => {
            let reply = respond_in(&mut steps, datagram, &mut builders.udp);
            write_reply(reply, scratch, sink)?;
        }
        dns_answer::Limit::Tcp => {
            let reply = respond_in(&mut steps, datagram, &mut builders.tcp);
            write_reply(reply, scratch, sink)?;
        }
    }
    Ok(true)
}

// Writes the line for a reply, or `none` if there is no reply. `digits` has room for the digits.
fn write_reply<W: Write>(
    reply: Option<&[u8]>,
    digits: &mut [u8],
    sink: &mut Tally<W>,
) -> Result<(), SinkFailed>
    requires room { IfSome reply (λ o. 2 * length o.now < length digits.old) }
    requires few { sink.old.failures < 2 ^ 64 - 1 }
    ensures { Writes W.contents sink.old sink.new result (reply_line (option_copied reply.entry)) }
{
    match reply {
        Some(reply) => write_digits(reply, digits, sink),
        None => sink.write_all(b"none\n"),
    }
}

// Writes a reply as a line of digits.
fn write_digits<W: Write>(
    reply: &[u8],
    digits: &mut [u8],
    sink: &mut Tally<W>,
) -> Result<(), SinkFailed>
    requires room { 2 * length reply.now < length digits.old }
    requires few { sink.old.failures < 2 ^ 64 - 1 }
    ensures { Writes W.contents sink.old sink.new result (reply_line (Some reply.now)) }
{
    let end = 2 * reply.len();
    if hex::encode_to_slice(reply, &mut digits[..end]).is_err() {
        unreachable!();
    }
    digits[end] = b'\n';
    sink.write_all(&digits[..end + 1])
}
