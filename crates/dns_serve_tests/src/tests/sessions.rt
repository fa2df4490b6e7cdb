ghost use Rattle.std.specs.Prelude.{◌<◌};

use super::frames::{EMPTY, LONG, REFUSED, WWW, WWW_REPLY, ZEROS};
use dns_answer::TcpBuilder;
use dns_samples_tests::SMALL;
use dns_serve::Session;
use dns_zone::Zone;
use dns_zone_tests::zone_of;
use std::alloc::{AllocError, Global};
use std::process::Abort;
use std::test::Fail;

// A stream that begins with each of these frames, in turn, and the replies to them.
const STREAM: &[&[u8]] = &[WWW, EMPTY, LONG, ZEROS, WWW];

const REPLIES: &[&[u8]] = &[WWW_REPLY, REFUSED, WWW_REPLY];

// How often the stream is repeated for a session that has no room for all replies. Each repetition
// gets 108 octets of replies; a session that holds more than 16,384 takes no more.
const TIMES: usize = 200;

// What a session sends if its stream comes in pieces of this size, and at most `most` octets are
// sent after each of them. If the session has no room for a piece, all replies are sent.
fn sent(
    alloc: Global,
    zone: &Zone,
    stream: &[u8],
    piece: usize,
    most: usize,
) -> Result<Vec<u8>, AllocError>
    requires { 0 < piece }
{
    let (mut session, mut builder) = (Session::new(alloc, u64::MAX)?, TcpBuilder::new());
    let mut sent = Vec::new(alloc);
    'pieces: for octets in stream.chunks(piece) {
        let rest = session.take(zone, octets, &mut builder);
        let has_room = rest.is_empty();
        send(
            &mut session,
            if has_room { most } else { usize::MAX },
            &mut sent,
        )?;
        if !has_room && !session.take(zone, rest, &mut builder).is_empty() {
            sent.clear();
        }
    }
    send(&mut session, usize::MAX, &mut sent)?;
    Ok(sent)
}

fn send(session: &mut Session, most: usize, sent: &mut Vec<u8>) -> Result<(), AllocError> {
    let unsent = session.unsent();
    let count = most.min(unsent.len());
    sent.extend_from_slice(&unsent[..count])?;
    session.note_sent(count);
    Ok(())
}

fn check_pieces(rt: &impl Abort, alloc: Global, zone: &Zone) -> Result<(), AllocError> {
    let (stream, replies) = (STREAM.concat(alloc)?, REPLIES.concat(alloc)?);
    for piece in [1, 2, 3, 30, 31, 32, 513, 514, 515, 700] {
        for most in [0, 1, 46, usize::MAX] {
            let octets = sent(alloc, zone, &stream, piece, most)?;
            assert!(rt; octets == replies, "{piece} {most}");
        }
    }
    Ok(())
}

fn check_room(rt: &impl Abort, alloc: Global, zone: &Zone) -> Result<(), AllocError> {
    let (mut stream, mut replies) = (Vec::new(alloc), Vec::new(alloc));
    for _ in 0..TIMES {
        stream.extend_from_slice(&STREAM.concat(alloc)?)?;
        replies.extend_from_slice(&REPLIES.concat(alloc)?)?;
    }
    for piece in [16_384, 100_000, 1_000_000] {
        let octets = sent(alloc, zone, &stream, piece, 0)?;
        assert!(rt; octets == replies, "{piece}");
    }
    Ok(())
}

#[test]
fn replies_do_not_depend_on_how_a_stream_is_cut(rt: HostRuntime) -> Result<(), Fail> {
    let zone = zone_of(rt.alloc(), b"example", SMALL, "")?;
    check_pieces(&rt, rt.alloc(), &zone)?;
    check_room(&rt, rt.alloc(), &zone)?;
    Ok(())
}

#[test]
fn a_session_answers_no_more_messages_than_it_may(rt: HostRuntime) -> Result<(), Fail> {
    let zone = zone_of(rt.alloc(), b"example", SMALL, "")?;
    let (mut session, mut builder) = (Session::new(rt.alloc(), 2)?, TcpBuilder::new());
    let stream = [EMPTY, WWW, WWW].concat(rt.alloc())?;
    let rest = session.take(&zone, &stream, &mut builder);
    assert!(&rt; rest == WWW && session.left() == 0 && session.unsent() == WWW_REPLY);
    assert!(&rt; session.take(&zone, WWW, &mut builder) == WWW && session.is_between_frames());
    Ok(())
}
