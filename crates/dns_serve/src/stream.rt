//! A session over a stream: messages and their replies, each after its length in two octets
//! (RFC 1035 4.2.2).
ghost use Rattle.std.specs.Prelude.{◌≡◌, ◌+◌, ◌-◌, ◌^◌, ◌<◌, ◌≤◌, length};
ghost use Rattle.dns_spec.specs.Stream.{reply_frame};
ghost use Rattle.dns_name.specs.Counted.{Writes};
ghost use Rattle.dns_serve.specs.Reads.{FrameRead};
ghost use Rattle.dns_serve.specs.Streams.{SessionOf, session, reply_over_tcp, source_failures_after, sink_failures_after};

use crate::frame::{Frame, MOST_FRAME};
use crate::turn_fault::StreamFault;
use byteorder::{BigEndian, ByteOrder};
use dns_answer::{TcpBuilder, respond_in};
use dns_name::{SinkFailed, Tally};
use dns_zone::{Steps, Zone};
use std::io::{Read, Write};

/// Serves a stream: reads messages, each after its length in two octets, until it has read `most`
/// messages or the source ends after a message, and returns how many messages it read. Writes each
/// reply after its length in two octets, or nothing for a message that gets no reply.
///
/// Fails with `SourceFailed` if the source fails, and with `Cut` if the source ends inside a length
/// or a message. In both cases the replies to all earlier messages were written. Fails with
/// `SinkFailed` if the sink fails; then the replies to all messages but the last one read were
/// written, and a prefix of the reply to that message. Nothing is tried again.
///
/// Only the first 512 octets of a message are kept; its other octets are discarded. No memory is
/// allocated. The sink is flushed after each message.
///
/// Each call first clears its buffers, about 197,000 octets on the stack.
pub fn serve_stream<R: Read, W: Write>(
    zone: &Zone,
    source: &mut Tally<R>,
    sink: &mut Tally<W>,
    most: u32,
) -> Result<u32, StreamFault>
    requires source { source.old.failures < 2 ^ 64 - 1 }
    requires sink { sink.old.failures < 2 ^ 64 - 1 }
    ensures source { source.new.failures ≡ source_failures_after source.old.failures result }
    ensures sink { sink.new.failures ≡ sink_failures_after sink.old.failures result }
    ensures session { SessionOf (reply_over_tcp zone.now) most
        (session R.remaining W.contents source.old source.new sink.old sink.new) result }
{
    let (mut frame, mut buffer) = (Frame::new(), [0; MOST_FRAME]);
    let mut builder = TcpBuilder::new();
    let mut served = 0;
    'messages: while served < most {
        if !read_frame(source, &mut frame, &mut buffer)? {
            break;
        }
        let message = frame.message();
        write_reply(zone, message, sink, &mut builder, &mut buffer)?;
        sink.flush()?;
        served += 1;
    }
    Ok(served)
}

// Reads the next frame of the source, and no octet after it, through `buffer`. False if the source
// ends before it.
fn read_frame<R: Read>(
    source: &mut Tally<R>,
    frame: &mut Frame,
    buffer: &mut [u8],
) -> Result<bool, StreamFault>
    requires source { source.old.failures < 2 ^ 64 - 1 }
    requires room { 65537 ≤ length buffer.old }
    ensures read { FrameRead (R.remaining source.old.device) (R.remaining source.new.device)
        frame.new result }
    ensures source { source.new.failures ≡ source_failures_after source.old.failures result }
{
    frame.clear();
    'pieces: while frame.missing() > 0 {
        let (piece, _) = buffer.split_at_mut(frame.missing());
        let count = source.read(piece)?;
        if count == 0 {
            return if frame.is_empty() {
                Ok(false)
            } else {
                Err(StreamFault::Cut)
            };
        }
        let _ = frame.take(&piece[..count]);
    }
    Ok(true)
}

// Writes the reply to a message after its length, in a single write if the sink takes all of it;
// writes nothing if there is no reply.
fn write_reply<W: Write>(
    zone: &Zone,
    message: &[u8],
    sink: &mut Tally<W>,
    builder: &mut TcpBuilder,
    buffer: &mut [u8],
) -> Result<(), SinkFailed>
    requires sink { sink.old.failures < 2 ^ 64 - 1 }
    requires room { length buffer.old ≡ 65537 }
    ensures { Writes W.contents sink.old sink.new result
        (reply_frame (reply_over_tcp zone.now message.now)) }
{
    let Some(reply) = respond_in(&mut Steps::new(zone), message, builder) else {
        return Ok(());
    };
    let (length, rest) = buffer.split_at_mut(2);
    BigEndian::write_u16(length, reply.len() as u16);
    let (front, _) = rest.split_at_mut(reply.len());
    front.copy_from_slice(reply);
    sink.write_all(&buffer[..reply.len() + 2])
}
