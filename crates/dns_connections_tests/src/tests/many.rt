use super::sockets::{Plan, Table};
use dns_connections::{Capacity, serve_connections};
use dns_samples_tests::SMALL;
use dns_zone::Zone;
use dns_zone_tests::zone_of;
use std::alloc::{AllocError, Global};
use std::ops::Range;
use std::process::Abort;
use std::test::Fail;

// The query `www.example. IN A` and its reply, after the length and the ID.
const QUERY: &[u8] = b"\x00\x00\x00\x01\x00\x00\x00\x00\x00\x00\
    \x03www\x07example\x00\x00\x01\x00\x01";

const REPLY: &[u8] = b"\x84\x00\x00\x01\x00\x01\x00\x00\x00\x00\
    \x03www\x07example\x00\x00\x01\x00\x01\xc0\x0c\x00\x01\x00\x01\x00\x00\x0e\x10\x00\x04\
    \xc0\x00\x02\x0a";

// The length of a query with its length and ID.
const FRAME: usize = 31;

// A message that gets no reply, after its length.
const ABSENT: &[u8] = b"\x00\x00";

// The beginning of a frame.
const PART: &[u8] = b"\x00\x1d\x12";

fn add_query(input: &mut Vec<u8>, id: u16) -> Result<(), AllocError> {
    input.extend_from_slice(b"\x00\x1d")?;
    input.extend_from_slice(&id.to_be_bytes())?;
    input.extend_from_slice(QUERY)?;
    Ok(())
}

// A peer with 0 to 4 queries, or, if its number is a multiple of 11, with four, of which it can
// neither send nor take all. The input of every seventh peer ends inside a frame. The sizes of the
// pieces depend on the number in other ways.
fn peer(alloc: Global, number: u16) -> Result<Plan, AllocError> {
    let fails = number % 11 == 0;
    let mut input = Vec::new(alloc);
    for query in 0..if fails { 4 } else { number % 5 } {
        add_query(&mut input, number.wrapping_mul(8).wrapping_add(query))?;
    }
    input.extend_from_slice(ABSENT)?;
    if number % 7 == 0 {
        input.extend_from_slice(PART)?;
    }
    Ok(Plan {
        input,
        piece: usize::from(1 + number % 41),
        most: usize::from(1 + number % 59),
        calls: if fails { 3 } else { u32::MAX },
        is_silent: false,
    })
}

fn silent(alloc: Global) -> Plan {
    Plan {
        input: Vec::new(alloc),
        piece: 1,
        most: 1,
        calls: u32::MAX,
        is_silent: true,
    }
}

// The replies to the queries with which the octets begin, and the octets after these.
fn replies<'a>(alloc: Global, octets: &'a [u8]) -> Result<(Vec<u8>, &'a [u8]), AllocError> {
    let (mut replies, mut rest) = (Vec::new(alloc), octets);
    for _ in 0..octets.len() {
        if rest.len() < FRAME {
            break;
        }
        let (frame, after) = rest.split_at(FRAME);
        let (head, query) = frame.split_at(4);
        if query != QUERY {
            break;
        }
        replies.extend_from_slice(b"\x00\x2d")?;
        replies.extend_from_slice(&head[2..])?;
        replies.extend_from_slice(REPLY)?;
        rest = after;
    }
    Ok((replies, rest))
}

// How many queries were received on connections whose input is over, and how many of these
// connections there are.
fn check_closed<A: Abort>(
    rt: &A,
    alloc: Global,
    table: &Table<'_, A>,
) -> Result<(usize, usize), AllocError> {
    let (mut queries, mut over) = (0_usize, 0_usize);
    for closed in &table.closed {
        let (replies, after) = replies(alloc, &closed.received)?;
        assert!(rt; replies.starts_with(&closed.sent));
        if closed.is_over {
            assert!(rt; closed.sent == replies && after.starts_with(ABSENT));
            let asked = closed.received.len().saturating_sub(after.len()) / FRAME;
            queries = queries.saturating_add(asked);
            over = over.saturating_add(1);
        }
    }
    Ok((queries, over))
}

// Sockets to which the peers with these numbers connect, after some that are silent.
fn peers<A: Abort>(
    rt: &A,
    alloc: Global,
    asking: Range<u16>,
    silent_ones: u16,
) -> Result<Table<'_, A>, AllocError> {
    let mut table = Table::new(rt, alloc);
    for number in asking {
        table.plans.push(peer(alloc, number)?)?;
    }
    for _ in 0..silent_ones {
        table.plans.push(silent(alloc))?;
    }
    Ok(table)
}

fn check_crowd<A: Abort>(rt: &A, alloc: Global, zone: &Zone) -> Result<(), AllocError> {
    // The silent peers alone are more than may be connected at once.
    let table = peers(rt, alloc, 0..240, 270)?;
    let begin = || Ok::<(), AllocError>(());
    let table = serve_connections(alloc, zone, table, 510, u64::MAX, Capacity::Many, begin)?;
    assert!(rt; table.closed.len() == 510 && table.plans.is_empty() && table.refusals == 0);
    assert!(rt; table.connected == 0 && table.most == 257);
    // 22 peers fail, and the input of 31 others ends inside a frame.
    let (queries, over) = check_closed(rt, alloc, &table)?;
    assert!(rt; over == 218 && table.faults == 53 && queries == 439);
    Ok(())
}

// How many octets of replies the peers of the queue get if two messages are answered on each
// connection.
const SENT: [usize; 6] = [0, 0, 94, 94, 94, 47];

fn check_queue<A: Abort>(rt: &A, alloc: Global, zone: &Zone) -> Result<(), AllocError> {
    let table = peers(rt, alloc, 1..6, 1)?;
    let begin = || Ok::<(), AllocError>(());
    let table = serve_connections(alloc, zone, table, 6, 2, Capacity::One, begin)?;
    assert!(rt; table.closed.len() == 6 && table.connected == 0 && table.most == 1);
    for (closed, sent) in table.closed.iter().zip(SENT) {
        let (replies, _) = replies(alloc, &closed.received)?;
        assert!(rt; replies.starts_with(&closed.sent) && closed.sent.len() == sent);
    }
    Ok(())
}

// Nothing is served if `begin` fails.
fn check_begin<A: Abort>(rt: &A, alloc: Global, zone: &Zone) -> Result<(), AllocError> {
    let begin = || Err::<(), AllocError>(AllocError);
    let table = peers(rt, alloc, 1..6, 1)?;
    assert!(rt; serve_connections(alloc, zone, table, 6, 2, Capacity::One, begin).is_err());
    Ok(())
}

#[test]
fn each_peer_gets_the_replies_to_its_own_queries(rt: HostRuntime) -> Result<(), Fail> {
    let zone = zone_of(rt.alloc(), b"example", SMALL, "")?;
    check_crowd(&rt, rt.alloc(), &zone)?;
    check_queue(&rt, rt.alloc(), &zone)?;
    check_begin(&rt, rt.alloc(), &zone)?;
    Ok(())
}
