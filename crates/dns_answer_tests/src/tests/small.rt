//! Worked replies, octet by octet, datagrams that get no reply, and replies without records.

use super::replies::{BOTH, check, replied};
use dns_answer::Limit;
use dns_samples_tests::{FORMAT_ERROR, MESSAGES, QUERY, QUESTIONS, REPLIES, SMALL};
use dns_zone::Zone;
use dns_zone_tests::zone_of;
use std::alloc::Global;
use std::test::Fail;

// The query of `www.example. IN A`.
const WWW: &[u8] = b"\x12\x34\0\0\0\x01\0\0\0\0\0\0\x03www\x07example\0\0\x01\0\x01";

// Whether a datagram gets this reply, or none if `wanted` is empty, and no name is looked up.
fn is_refused(alloc: Global, zone: &Zone, limit: Limit, sent: &[&[u8]], wanted: &[&[u8]]) -> bool {
    match (replied(alloc, zone, limit, sent), wanted.concat(alloc)) {
        (Some(replied), Ok(wanted)) => replied.octets == wanted && replied.cost == (0, 0),
        _ => false,
    }
}

#[test]
fn replies_of_the_small_zone(rt: HostRuntime) -> Result<(), Fail> {
    let alloc = rt.alloc();
    let zone = zone_of(alloc, b"example", SMALL, "")?;
    check(&rt, alloc, &zone, BOTH, REPLIES)?;
    for &(sent, wanted) in MESSAGES {
        let holds = is_refused(alloc, &zone, Limit::Udp, sent, wanted);
        assert!(rt; holds, "{sent:?}");
    }
    for length in 0..29_usize {
        let wanted = &FORMAT_ERROR[..usize::from(length >= 12)];
        let holds = is_refused(alloc, &zone, Limit::Udp, &[&WWW[..length]], wanted);
        assert!(rt; holds, "{length} octets");
    }
    for &(question, head) in QUESTIONS {
        for &limit in BOTH {
            let holds = is_refused(alloc, &zone, limit, &[QUERY, question], &[head, question]);
            assert!(rt; holds, "{question:?}");
        }
    }
    Ok(())
}
