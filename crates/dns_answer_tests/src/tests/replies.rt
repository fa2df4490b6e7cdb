//! Datagrams, and a zone's replies to them.

use dns_answer::{Limit, respond};
use dns_samples_tests::{QUERY, Reply};
use dns_zone::{Steps, Zone};
use std::alloc::{AllocError, Global};
use std::process::Abort;

pub(super) const BOTH: &[Limit] = &[Limit::Udp, Limit::Tcp];

/// A reply, empty if there is no reply, and its cost: the nodes visited and the labels compared.
#[derive(Drop)]
pub(super) struct Outcome {
    pub(super) octets: Vec<u8>,
    pub(super) cost: (u32, u32),
}

/// A zone's reply to the datagram that consists of these pieces.
pub(super) fn replied(alloc: Global, zone: &Zone, limit: Limit, sent: &[&[u8]]) -> Option<Outcome> {
    let datagram = sent.concat(alloc).ok()?;
    let mut octets = vec![in alloc; 0; limit.octets()].ok()?;
    let mut steps = Steps::new(zone);
    let length = respond(&mut steps, &datagram, limit, &mut octets);
    octets.truncate(length.unwrap_or(0));
    let cost = (steps.visits(), steps.comparisons());
    Some(Outcome { octets, cost })
}

/// The cost of a zone's reply to a question; `None` if the reply is not `wanted`.
pub(super) fn cost(
    alloc: Global,
    zone: &Zone,
    limit: Limit,
    question: &[u8],
    wanted: &[u8],
) -> Option<(u32, u32)> {
    let replied = replied(alloc, zone, limit, &[QUERY, question])?;
    (replied.octets.as_slice() == wanted).then_some(replied.cost)
}

/// Checks the replies of a zone.
pub(super) fn check(
    rt: &impl Abort,
    alloc: Global,
    zone: &Zone,
    limits: &[Limit],
    replies: &[Reply<'_>],
) -> Result<(), AllocError> {
    for reply in replies {
        let wanted = reply.octets(alloc)?;
        for &limit in limits {
            let cost = cost(alloc, zone, limit, reply.question, &wanted);
            assert!(rt; cost.is_some(), "{} over {limit:?}", reply.name);
        }
    }
    Ok(())
}
