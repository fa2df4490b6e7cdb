//! Replies over TCP past the reach of pointers, and replies in one builder, one after another.

use super::replies::{check, cost, replied};
use super::zones::long;
use dns_answer::{Limit, TcpBuilder, UdpBuilder, respond_in};
use dns_samples_tests::{QUERY, Reply, SERVICES, STRINGS, services, strings};
use dns_zone::{Steps, Zone};
use std::alloc::Global;
use std::test::Fail;

// Replies over UDP.
const CUT: &[Reply<'static>] = &[
    Reply {
        name: "64 strings",
        question: STRINGS,
        head: b"\x12\x34\x86\0\0\x01\0\0\0\0\0\0",
        records: &[],
    },
    Reply {
        name: "17 services",
        question: SERVICES,
        head: b"\x12\x34\x86\0\0\x01\0\0\0\0\0\0",
        records: &[],
    },
];

// Questions with a long answer of each kind, a name error, a refusal, a short answer and a format
// error. Each reply leaves more, or less, in the builder than the next one writes.
const QUESTIONS: &[&[u8]] = &[
    SERVICES,
    b"\x03none\x07example\0\0\x01\0\x01",
    STRINGS,
    b"\x05other\0\0\x01\0\x01",
    b"\x07example\0\0\x06\0\x01",
    b"\x07example\0",
];

// A builder for each limit.
#[derive(Drop)]
struct ReplyBuilders {
    short: UdpBuilder,
    large: TcpBuilder,
}

// The reply that is made in a builder; empty if there is no reply.
fn reply_in<'d>(
    zone: &Zone,
    builders: &'d mut ReplyBuilders,
    limit: Limit,
    asked: &[u8],
) -> &'d [u8] {
    let mut steps = Steps::new(zone);
    let reply = match limit {
        Limit::Udp => respond_in(&mut steps, asked, &mut builders.short),
        Limit::Tcp => respond_in(&mut steps, asked, &mut builders.large),
    };
    reply.unwrap_or(&[])
}

// Whether a builder that was used before makes the same reply to a question as a new one.
fn is_alike(
    alloc: Global,
    zone: &Zone,
    builders: &mut ReplyBuilders,
    limit: Limit,
    question: &[u8],
) -> bool {
    let Ok(asked) = [QUERY, question].concat(alloc) else {
        return false;
    };
    match replied(alloc, zone, limit, &[QUERY, question]) {
        Some(wanted) => reply_in(zone, builders, limit, &asked) == wanted.octets.as_slice(),
        None => false,
    }
}

#[test]
fn replies_of_the_long_zone(rt: HostRuntime) -> Result<(), Fail> {
    let alloc = rt.alloc();
    let zone = long(alloc)?;
    check(&rt, alloc, &zone, &[Limit::Udp], CUT)?;
    for (question, wanted) in [(STRINGS, strings(alloc)?), (SERVICES, services(alloc)?)] {
        let cost = cost(alloc, &zone, Limit::Tcp, question, &wanted);
        assert!(rt; cost.is_some(), "{question:?}");
    }
    Ok(())
}

#[test]
fn replies_in_builders_that_were_used_before(rt: HostRuntime) -> Result<(), Fail> {
    let alloc = rt.alloc();
    let zone = long(alloc)?;
    let mut builders = ReplyBuilders {
        short: UdpBuilder::new(),
        large: TcpBuilder::new(),
    };
    for &first in QUESTIONS {
        for &second in QUESTIONS {
            for question in [first, second] {
                let is_short = is_alike(alloc, &zone, &mut builders, Limit::Udp, question);
                let is_large = is_alike(alloc, &zone, &mut builders, Limit::Tcp, question);
                assert!(rt; is_short && is_large, "{question:?}");
            }
        }
    }
    Ok(())
}
