//! The cost of answers: the nodes visited, and the labels compared.

use super::replies::{BOTH, cost};
use super::zones::many_servers;
use dns_answer::Limit;
use dns_samples_tests::Reply;
use dns_zone_tests::{deep, wide};
use std::test::Fail;

#[test]
fn a_name_of_127_labels_takes_128_visits(rt: HostRuntime) -> Result<(), Fail> {
    let zone = deep(rt.alloc())?;
    let labels = b"\x01a".repeat(rt.alloc(), 127)?;
    let question = [labels.as_slice(), b"\0\0\x01\0\x01"].concat(rt.alloc())?;
    let head = b"\x12\x34\x84\0\0\x01\0\x01\0\0\0\0";
    let record = b"\xc0\x0c\0\x01\0\x01\0\0\x0e\x10\0\x04\xc0\0\x02\x02";
    let wanted = [head, question.as_slice(), record].concat(rt.alloc())?;
    for &limit in BOTH {
        let cost = cost(rt.alloc(), &zone, limit, &question, &wanted);
        assert!(rt; cost.map(|cost| cost.0) == Some(128), "over {limit:?}");
    }
    Ok(())
}

const OF_MANY_NAMES: Reply<'static> = Reply {
    name: "an address of one of many names",
    question: b"\x06n99996\x07example\0\0\x01\0\x01",
    head: b"\x12\x34\x84\0\0\x01\0\x01\0\0\0\0",
    records: &[b"\xc0\x0c\0\x01\0\x01\0\0\0\x3c\0\x04\xc0\0\x02\x02"],
};

#[test]
fn one_of_100_000_names_takes_17_comparisons(rt: HostRuntime) -> Result<(), Fail> {
    let (zone, reply) = (wide(rt.alloc())?, OF_MANY_NAMES);
    let wanted = reply.octets(rt.alloc())?;
    let cost = cost(rt.alloc(), &zone, Limit::Udp, reply.question, &wanted);
    assert!(rt; cost.is_some_and(|(visits, comparisons)| visits == 2 && comparisons <= 17));
    Ok(())
}

const OF_MANY_SERVERS: Reply<'static> = Reply {
    name: "a referral whose servers do not fit",
    question: b"\x01x\x03cut\x07example\0\0\x01\0\x01",
    head: b"\x12\x34\x82\0\0\x01\0\0\0\0\0\0",
    records: &[],
};

#[test]
fn a_referral_whose_servers_do_not_fit_seeks_none_of_them(rt: HostRuntime) -> Result<(), Fail> {
    let (zone, reply) = (many_servers(rt.alloc())?, OF_MANY_SERVERS);
    let wanted = reply.octets(rt.alloc())?;
    let cost = cost(rt.alloc(), &zone, Limit::Udp, reply.question, &wanted);
    assert!(rt; cost.is_some_and(|(visits, _)| visits == 2));
    Ok(())
}
