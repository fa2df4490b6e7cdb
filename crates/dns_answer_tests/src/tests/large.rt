//! Replies from a zone with sets that end near the limit of UDP or beyond it.

use super::replies::{BOTH, check, cost};
use super::zones::large;
use dns_answer::Limit;
use dns_samples_tests::{RING, Reply, put_addresses};
use std::test::Fail;

// Replies that fit either limit.
const FITTING: &[Reply<'static>] = &[
    RING,
    Reply {
        name: "a chain of seventeen aliases",
        question: b"\x02c1\x07example\0\0\x01\0\x01",
        head: b"\x12\x34\x84\0\0\x01\0\x11\0\0\0\0",
        records: &[
            b"\xc0\x0c\0\x05\0\x01\0\0\x0e\x10\0\x05\x02c2\xc0\x0f",
            b"\xc0\x28\0\x05\0\x01\0\0\x0e\x10\0\x05\x02c3\xc0\x0f",
            b"\xc0\x39\0\x05\0\x01\0\0\x0e\x10\0\x05\x02c4\xc0\x0f",
            b"\xc0\x4a\0\x05\0\x01\0\0\x0e\x10\0\x05\x02c5\xc0\x0f",
            b"\xc0\x5b\0\x05\0\x01\0\0\x0e\x10\0\x05\x02c6\xc0\x0f",
            b"\xc0\x6c\0\x05\0\x01\0\0\x0e\x10\0\x05\x02c7\xc0\x0f",
            b"\xc0\x7d\0\x05\0\x01\0\0\x0e\x10\0\x05\x02c8\xc0\x0f",
            b"\xc0\x8e\0\x05\0\x01\0\0\x0e\x10\0\x05\x02c9\xc0\x0f",
            b"\xc0\x9f\0\x05\0\x01\0\0\x0e\x10\0\x06\x03c10\xc0\x0f",
            b"\xc0\xb0\0\x05\0\x01\0\0\x0e\x10\0\x06\x03c11\xc0\x0f",
            b"\xc0\xc2\0\x05\0\x01\0\0\x0e\x10\0\x06\x03c12\xc0\x0f",
            b"\xc0\xd4\0\x05\0\x01\0\0\x0e\x10\0\x06\x03c13\xc0\x0f",
            b"\xc0\xe6\0\x05\0\x01\0\0\x0e\x10\0\x06\x03c14\xc0\x0f",
            b"\xc0\xf8\0\x05\0\x01\0\0\x0e\x10\0\x06\x03c15\xc0\x0f",
            b"\xc1\x0a\0\x05\0\x01\0\0\x0e\x10\0\x06\x03c16\xc0\x0f",
            b"\xc1\x1c\0\x05\0\x01\0\0\x0e\x10\0\x06\x03c17\xc0\x0f",
            b"\xc1\x2e\0\x05\0\x01\0\0\x0e\x10\0\x06\x03c18\xc0\x0f",
        ],
    },
    Reply {
        name: "a service",
        question: b"\x02_s\x04_tcp\x07example\0\0\x21\0\x01",
        head: b"\x12\x34\x84\0\0\x01\0\x01\0\0\0\x01",
        records: &[
            b"\xc0\x0c\0\x21\0\x01\0\0\x0e\x10\0\x12",
            b"\0\x01\0\x02\0\x35\x02ns\x07example\0",
            b"\x02ns\xc0\x14\0\x01\0\x01\0\0\x0e\x10\0\x04\xc0\0\x02\x01",
        ],
    },
    Reply {
        name: "strings that need 512 octets",
        question: b"\x01t\x07example\0\0\x10\0\x01",
        head: b"\x12\x34\x84\0\0\x01\0\x01\0\0\0\0",
        records: &[
            b"\xc0\x0c\0\x10\0\x01\0\0\x0e\x10\x01\xd9\xff",
            &[b'a'; 255],
            b"\xd8",
            &[b'a'; 216],
        ],
    },
];

const TOO_LONG: &[Reply<'static>] = &[Reply {
    name: "strings that need 513 octets",
    question: b"\x01u\x07example\0\0\x10\0\x01",
    head: b"\x12\x34\x86\0\0\x01\0\0\0\0\0\0",
    records: &[],
}];

const WHOLE: &[Reply<'static>] = &[Reply {
    name: "strings that need 513 octets",
    question: b"\x01u\x07example\0\0\x10\0\x01",
    head: b"\x12\x34\x84\0\0\x01\0\x01\0\0\0\0",
    records: &[
        b"\xc0\x0c\0\x10\0\x01\0\0\x0e\x10\x01\xda\xff",
        &[b'a'; 255],
        b"\xd9",
        &[b'a'; 217],
    ],
}];

// Each row: a reply over UDP, which leaves out 64 addresses; the header of the reply over TCP,
// which ends with these addresses; and the owner of each address, as it is written in that reply.
const ADDRESSES: &[(Reply<'static>, &[u8], &[u8])] = &[
    (
        Reply {
            name: "a mail exchange with 64 addresses",
            question: b"\x01m\x07example\0\0\x0f\0\x01",
            head: b"\x12\x34\x84\0\0\x01\0\x01\0\0\0\0",
            records: &[b"\xc0\x0c\0\x0f\0\x01\0\0\x0e\x10\0\x08\0\x0a\x03big\xc0\x0e"],
        },
        b"\x12\x34\x84\0\0\x01\0\x01\0\0\0\x40",
        b"\xc0\x29",
    ),
    (
        Reply {
            name: "64 addresses",
            question: b"\x03big\x07example\0\0\x01\0\x01",
            head: b"\x12\x34\x86\0\0\x01\0\0\0\0\0\0",
            records: &[],
        },
        b"\x12\x34\x84\0\0\x01\0\x40\0\0\0\0",
        b"\xc0\x0c",
    ),
    (
        Reply {
            name: "a referral with 64 addresses",
            question: b"\x01h\x03cut\x07example\0\0\x01\0\x01",
            head: b"\x12\x34\x82\0\0\x01\0\0\0\x01\0\0",
            records: &[b"\xc0\x0e\0\x02\0\x01\0\0\x0e\x10\0\x06\x03big\xc0\x0e"],
        },
        b"\x12\x34\x80\0\0\x01\0\0\0\x01\0\x40",
        b"\xc0\x2b",
    ),
];

#[test]
fn replies_of_the_large_zone(rt: HostRuntime) -> Result<(), Fail> {
    let alloc = rt.alloc();
    let zone = large(alloc)?;
    check(&rt, alloc, &zone, BOTH, FITTING)?;
    check(&rt, alloc, &zone, &[Limit::Udp], TOO_LONG)?;
    check(&rt, alloc, &zone, &[Limit::Tcp], WHOLE)?;
    for &(reply, head, owner) in ADDRESSES {
        check(&rt, alloc, &zone, &[Limit::Udp], &[reply])?;
        let mut whole = Reply { head, ..reply }.octets(alloc)?;
        put_addresses(&mut whole, owner, owner)?;
        let cost = cost(alloc, &zone, Limit::Tcp, reply.question, &whole);
        assert!(rt; cost.is_some(), "{}", reply.name);
    }
    Ok(())
}
