use super::frames::{EMPTY, LONG, REFUSED, WWW, WWW_REPLY, ZEROS};
use dns_name::Tally;
use dns_samples_tests::{Kept, Pieces, SMALL};
use dns_serve::{StreamFault, serve_stream};
use dns_zone::Zone;
use dns_zone_tests::zone_of;
use std::alloc::{AllocError, Global};
use std::process::Abort;
use std::test::Fail;

/// The outcome of a session: its result, what was written, how many octets were not read, and for
/// source and sink whether it failed, and its failure count.
#[derive(Drop)]
struct Left {
    answer: Result<u32, StreamFault>,
    written: Vec<u8>,
    unread: usize,
    has_failed: (bool, bool),
    failures: (u64, u64),
}

// How many octets a call of a device transfers at most, and how many reads and how many writes work
// before one fails.
type Devices = (usize, u32, u32);

// More octets than a session transfers, and more calls than it makes.
const MANY: u32 = 1_000_000;

// A session for at most `most` messages.
fn session(alloc: Global, zone: &Zone, input: &[u8], most: u32, devices: Devices) -> Left {
    let (octets, reads, writes) = devices;
    let mut source = Tally::new(Pieces::new(input, octets, reads));
    let mut sink = Tally::new(Kept::new(alloc, octets, writes));
    let answer = serve_stream(zone, &mut source, &mut sink, most);
    let failures = (source.failures(), sink.failures());
    let (source, sink) = (source.into_inner(), sink.into_inner());
    Left {
        answer,
        unread: source.text.len(),
        has_failed: (source.calls.has_failed(), sink.calls.has_failed()),
        failures,
        written: sink.text,
    }
}

// Whether a session has this result, and its replies are these octets. If a device failed, the
// result says so, the failure was counted once, and the device was not used again, though it would
// work.
fn has_ended(left: &Left, answer: Result<u32, StreamFault>, replies: &[u8]) -> bool {
    let source_failed = answer == Err(StreamFault::SourceFailed);
    let sink_failed = answer == Err(StreamFault::SinkFailed);
    left.answer == answer
        && left.has_failed == (source_failed, sink_failed)
        && left.failures == (u64::from(source_failed), u64::from(sink_failed))
        && left.written.as_slice() == replies
}

// A message that gets no reply, because it is shorter than a header.
const ABSENT: &[u8] = b"\x00\x0b\x12\x34\x00\x00\x00\x01\x00\x00\x00\x00\x00";

// The octets sent, the most messages to serve, the number of messages read, the number of octets
// that stay unread, and the replies.
type Session<'a> = (&'a [&'a [u8]], u32, u32, usize, &'a [&'a [u8]]);

const SESSIONS: &[Session<'static>] = &[
    (&[WWW, ABSENT, WWW], 9, 3, 0, &[WWW_REPLY, WWW_REPLY]),
    (&[WWW, WWW], 1, 1, 31, &[WWW_REPLY]),
    (&[WWW], 0, 0, 31, &[]),
    (&[EMPTY], 9, 1, 0, &[]),
    (&[LONG, ZEROS], 9, 1, 0, &[REFUSED]),
    (&[], 9, 0, 0, &[]),
];

// Whether a session that transfers at most `piece` octets a call is as wanted.
fn is_session(
    alloc: Global,
    zone: &Zone,
    row: Session<'_>,
    piece: usize,
) -> Result<bool, AllocError> {
    let (messages, most, count, unread, replies) = row;
    let input = messages.concat(alloc)?;
    let wanted = replies.concat(alloc)?;
    let left = session(alloc, zone, &input, most, (piece, MANY, MANY));
    Ok(has_ended(&left, Ok(count), &wanted) & (left.unread == unread))
}

fn check_sessions(rt: &impl Abort, alloc: Global, zone: &Zone) -> Result<(), AllocError> {
    for &row in SESSIONS {
        for piece in [1, 2, 3, 512, 100_000] {
            assert!(rt; is_session(alloc, zone, row, piece)?, "{row:?}");
        }
    }
    Ok(())
}

// A zone, messages, and the replies to them.
type Asked<'a> = (&'a Zone, &'a [u8], &'a [u8]);

fn front(octets: &[u8], length: usize) -> &[u8] {
    octets.get(..length).unwrap_or(&[])
}

// Whether a session over the first `length` octets of three messages, which have 31, 13 and 31, ends
// with `Cut`, after the replies to the complete messages.
fn is_cut(alloc: Global, (zone, messages, replies): Asked<'_>, length: usize) -> bool {
    let devices = (512, MANY, MANY);
    let left = session(alloc, zone, front(messages, length), 9, devices);
    let written = if length < 31 { 0 } else { 47 };
    has_ended(&left, Err(StreamFault::Cut), front(replies, written))
}

fn check_cuts(rt: &impl Abort, alloc: Global, asked: Asked<'_>) {
    for length in [1, 2, 3, 30, 32, 33, 43, 45, 46, 47, 73, 74] {
        assert!(rt; is_cut(alloc, asked, length), "at {length}");
    }
}

// Whether a session serves three messages or, if a read fails, writes the replies to the messages
// that it read before. The first message ends after 31 octets, the last after 75.
fn ends_at_read(
    alloc: Global,
    (zone, messages, replies): Asked<'_>,
    most: usize,
    reads: u32,
) -> bool {
    let left = session(alloc, zone, messages, 9, (most, reads, MANY));
    let replies = match left.unread {
        0 => replies,
        1..45 => front(replies, 47),
        _ => b"",
    };
    has_ended(&left, Ok(3), replies) || has_ended(&left, Err(StreamFault::SourceFailed), replies)
}

// Whether a session serves three messages or, if a write fails, reads nothing after the message
// whose reply could not be written.
fn ends_at_write(
    alloc: Global,
    (zone, messages, replies): Asked<'_>,
    most: usize,
    writes: u32,
) -> bool {
    let left = session(alloc, zone, messages, 9, (most, MANY, writes));
    has_ended(&left, Ok(3), replies) || is_unsent(&left, replies)
}

fn is_unsent(left: &Left, replies: &[u8]) -> bool {
    let written = left.written.len();
    let is_unread = match written {
        0..47 => left.unread == 44,
        47 => left.unread <= 44,
        _ => left.unread == 0,
    };
    has_ended(left, Err(StreamFault::SinkFailed), front(replies, written)) && is_unread
}

fn check_calls(rt: &impl Abort, alloc: Global, asked: Asked<'_>) {
    for most in [1, 7, 100_000] {
        for calls in 0..200 {
            assert!(rt; ends_at_read(alloc, asked, most, calls), "read {calls}");
            assert!(rt; ends_at_write(alloc, asked, most, calls), "write {calls}");
        }
    }
}

// The most messages to serve, how many calls of the sink work, how many octets are then not read, and
// how many octets are written. The sink is flushed after each message, even after the last one to
// serve and after the message without a reply.
const SENDS: &[(u32, u32, usize, usize)] = &[
    (9, 0, 44, 0),
    (9, 1, 44, 47),
    (1, 1, 44, 47),
    (9, 2, 31, 47),
    (9, 3, 0, 47),
    (9, 4, 0, 94),
];

// Whether a session ends as in the row if a call of its sink fails.
fn ends_at_send(
    alloc: Global,
    (zone, messages, replies): Asked<'_>,
    (most, writes, unread, written): (u32, u32, usize, usize),
) -> bool {
    let left = session(alloc, zone, messages, most, (512, MANY, writes));
    has_ended(&left, Err(StreamFault::SinkFailed), front(replies, written)) && left.unread == unread
}

// Whether a sink that takes nothing is called once, after the first message was read.
fn takes_nothing(alloc: Global, (zone, messages, _): Asked<'_>) -> bool {
    let mut source = Tally::new(messages);
    let mut sink = Tally::new(Kept::new(alloc, 0, 9));
    let answer = serve_stream(zone, &mut source, &mut sink, 9);
    let (failures, unread) = (sink.failures(), source.into_inner().len());
    let left = sink.into_inner().calls.left;
    (answer, failures, left, unread) == (Err(StreamFault::SinkFailed), 1, 8, 44)
}

fn check_sends(rt: &impl Abort, alloc: Global, asked: Asked<'_>) {
    for &row in SENDS {
        assert!(rt; ends_at_send(alloc, asked, row), "at {row:?}");
    }
    assert!(rt; takes_nothing(alloc, asked));
}

fn check_failures(rt: &impl Abort, alloc: Global, zone: &Zone) -> Result<(), AllocError> {
    let messages = [WWW, ABSENT, WWW].concat(alloc)?;
    let replies = [WWW_REPLY, WWW_REPLY].concat(alloc)?;
    let asked = (zone, messages.as_slice(), replies.as_slice());
    check_cuts(rt, alloc, asked);
    check_calls(rt, alloc, asked);
    check_sends(rt, alloc, asked);
    Ok(())
}

#[test]
fn messages_and_their_replies(rt: HostRuntime) -> Result<(), Fail> {
    let zone = zone_of(rt.alloc(), b"example", SMALL, "")?;
    check_sessions(&rt, rt.alloc(), &zone)?;
    check_failures(&rt, rt.alloc(), &zone)?;
    Ok(())
}
