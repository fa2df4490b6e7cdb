use super::frames::{EMPTY, LONG, REFUSED, WWW, WWW_REPLY, ZEROS};
use crate::Mailbox;
use dns_answer::UdpBuilder;
use dns_samples_tests::SMALL;
use dns_serve::{Datagrams, TurnFault, udp_turn, udp_turn_in};
use dns_zone::Zone;
use dns_zone_tests::zone_of;
use std::alloc::Global;
use std::process::Abort;
use std::test::Fail;

// A datagram and its reply, each after a length. An empty reply is not sent.
const DATAGRAMS: &[(&[&[u8]], &[u8])] = &[
    (&[WWW], WWW_REPLY),
    (&[EMPTY], EMPTY),
    (&[WWW_REPLY], EMPTY),
    (&[LONG, ZEROS], REFUSED),
];

// A message without its length.
fn message(octets: &[u8]) -> &[u8] {
    octets.get(2..).unwrap_or(&[])
}

// Whether these are the wanted datagrams, in order.
fn are_octets(datagrams: &[Vec<u8>], wanted: &[&[u8]]) -> bool {
    datagrams.len() == wanted.len()
        && datagrams
            .iter()
            .zip(wanted)
            .all(|(datagram, wanted)| datagram.as_slice() == *wanted)
}

/// Room that is used for one turn after another.
#[derive(Drop)]
struct Room {
    octets: [u8; 512],
    builder: UdpBuilder,
}

// Whether a turn receives the datagram, sends this reply, or none, and no call fails.
fn is_answered(
    alloc: Global,
    zone: &Zone,
    room: &mut Room,
    datagram: &[&[u8]],
    reply: &[u8],
) -> bool {
    let Ok(datagram) = datagram.concat(alloc) else {
        return false;
    };
    let (received, replies) = ([message(&datagram)], [message(reply)]);
    let (sent, _) = replies.split_at(usize::from(reply != EMPTY));
    let mut mailbox = Mailbox::new(alloc, message(&datagram), 9);
    let turn = udp_turn_in(zone, &mut mailbox, &mut room.octets, &mut room.builder);
    (turn == Ok(reply != EMPTY))
        & are_octets(&mailbox.datagrams, &received)
        & are_octets(&mailbox.replies, sent)
        & (mailbox.failures() == 0)
}

fn check_replies(rt: &impl Abort, alloc: Global, zone: &Zone) {
    let mut room = Room {
        octets: [0; 512],
        builder: UdpBuilder::new(),
    };
    for &(datagram, reply) in DATAGRAMS {
        let is_answered = is_answered(alloc, zone, &mut room, datagram, reply);
        assert!(rt; is_answered, "{reply:?}");
    }
}

// Which call fails, the result of the turn, and how many calls are made.
const FAILURES: &[(u32, Result<bool, TurnFault>, u32)] = &[
    (0, Err(TurnFault::ReceiveFailed), 1),
    (1, Err(TurnFault::SendFailed), 2),
    (2, Ok(true), 2),
];

// Whether a turn returns `wanted` after `calls` calls, if call `fails_at` fails.
fn ends_so(
    alloc: Global,
    zone: &Zone,
    fails_at: u32,
    wanted: Result<bool, TurnFault>,
    calls: u32,
) -> bool {
    let mut mailbox = Mailbox::new(alloc, message(WWW), fails_at);
    let turn = udp_turn(zone, &mut mailbox);
    (turn == wanted)
        & (mailbox.calls == calls)
        & (mailbox.failures() == u64::from(wanted.is_err()))
        & (mailbox.replies.len() == usize::from(wanted.is_ok()))
}

fn check_failures(rt: &impl Abort, alloc: Global, zone: &Zone) {
    for &(fails_at, wanted, calls) in FAILURES {
        assert!(rt; ends_so(alloc, zone, fails_at, wanted, calls), "{wanted:?}");
    }
}

#[test]
fn a_datagram_and_its_reply(rt: HostRuntime) -> Result<(), Fail> {
    let zone = zone_of(rt.alloc(), b"example", SMALL, "")?;
    check_replies(&rt, rt.alloc(), &zone);
    check_failures(&rt, rt.alloc(), &zone);
    Ok(())
}
