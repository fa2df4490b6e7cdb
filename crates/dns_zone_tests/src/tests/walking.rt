//! Walks down the names of zones.

use crate::{deep, wide, zone_of};
use dns_name::Label;
use dns_rdata::{RType, SetView};
use dns_samples_tests::SMALL;
use dns_zone::{Node, Steps, Zone};
use std::process::Abort;
use std::test::Fail;

// Labels, the closest to the origin first.
type Labels<'a> = &'a [&'a [u8]];

// Labels, how many of them are found, and the lowest type at the last name found, or 0 if that name
// owns nothing.
type Walked<'a> = (Labels<'a>, u32, u16);

// Walks down from the origin as far as names exist.
fn walked<'z>(zone: &'z Zone, labels: Labels<'_>) -> Option<(Steps<'z>, Node<'z>)> {
    let mut steps = Steps::new(zone);
    let mut node = steps.apex();
    'labels: for octets in labels {
        let label = Label::new(octets)?;
        if steps.visits() > 1_000 || steps.comparisons() > 1_000_000 {
            return None;
        }
        let Some(child) = node.down(label, &mut steps) else {
            return Some((steps, node));
        };
        node = child;
    }
    Some((steps, node))
}

fn lowest_type(node: &Node<'_>) -> u16 {
    node.first_set().map_or(0, |set| set.rtype().0)
}

fn is_walked(zone: &Zone, (labels, found, rtype): Walked<'_>) -> bool {
    match walked(zone, labels) {
        Some((steps, node)) => {
            (steps.visits() == found.saturating_add(1))
                & (steps.comparisons() <= 17)
                & (lowest_type(&node) == rtype)
        }
        None => false,
    }
}

// Whether the name with these labels has an RRset of a type with this data, each record with this
// target, or, if `target` is `None`, without a target; for no data, whether there is no RRset.
fn has_rrset(
    zone: &Zone,
    labels: Labels<'_>,
    rtype: RType,
    wanted: &[&[u8]],
    target: Option<&[u8]>,
) -> bool {
    let Some((_, node)) = walked(zone, labels) else {
        return false;
    };
    let Some(set) = node.set(rtype) else {
        return wanted.is_empty();
    };
    if set.len() != wanted.len() {
        return false;
    }
    for i in 0..set.len() {
        if set.rdata(i) != wanted[i] || set.target(i).map(|name| name.octets()) != target {
            return false;
        }
    }
    true
}

const WALKS: &[Walked<'static>] = &[
    (&[], 0, 2),
    (&[b"www"], 1, 1),
    // Labels are compared without regard to case.
    (&[b"SUB", b"Ns"], 2, 1),
    // A name that owns nothing exists if a name below it owns something.
    (&[b"ent"], 1, 0),
    (&[b"ent", b"b"], 2, 0),
    (&[b"ent", b"b", b"a"], 3, 1),
    (&[b"w", b"*"], 2, 16),
    (&[b"w", b"x"], 1, 0),
    (&[b"nope"], 0, 2),
    (&[b"www", b"www"], 1, 1),
];

// Lines that are appended to the small zone.
const SETS: &str = "www A 192.0.2.9
www TXT \"b\"
www TXT \"\"
m MX 10 WWW.Example.
m MX 20 www
m TXT www
";

const WWW: &[u8] = b"\x03www\x07example\0";

// A label, a type, and the data and the target of the records.
type Found<'a> = (&'a [u8], RType, &'a [&'a [u8]], Option<&'a [u8]>);

const RRSETS: &[Found<'static>] = &[
    (
        b"www",
        RType::A,
        &[b"\xc0\0\x02\x09", b"\xc0\0\x02\x0a"],
        None,
    ),
    (b"www", RType::TXT, &[b"\0", b"\x01b"], None),
    (b"www", RType::AAAA, &[], None),
    (b"m", RType::TXT, &[b"\x03www"], None),
    (
        b"m",
        RType::MX,
        &[b"\0\x0a\x03www\x07example\0", b"\0\x14\x03www\x07example\0"],
        Some(WWW),
    ),
];

fn check_walks(rt: &impl Abort, zone: &Zone, rows: &[Walked<'_>]) {
    for &row in rows {
        assert!(rt; is_walked(zone, row), "{row:?}");
    }
}

#[test]
fn names_are_found_label_by_label(rt: HostRuntime) -> Result<(), Fail> {
    let zone = zone_of(rt.alloc(), b"example.", SMALL, SETS)?;
    check_walks(&rt, &zone, WALKS);
    for &(label, rtype, wanted, target) in RRSETS {
        let holds = has_rrset(&zone, &[label], rtype, wanted, target);
        assert!(rt; holds, "{rtype:?} of {label:?}");
    }
    Ok(())
}

#[test]
fn the_longest_name_has_127_labels(rt: HostRuntime) -> Result<(), Fail> {
    let (zone, labels) = (deep(rt.alloc())?, &[b"a".as_slice(); 128]);
    let visits = walked(&zone, labels).map(|(steps, _)| steps.visits());
    assert!(rt; visits == Some(128));
    assert!(rt; has_rrset(&zone, labels, RType::A, &[b"\xc0\0\x02\x02"], None));
    Ok(())
}

const CHILDREN: &[Walked<'static>] = &[
    (&[b"ns"], 1, 1),
    (&[b"n0"], 1, 1),
    (&[b"n99996"], 1, 1),
    (&[b"n99997"], 0, 2),
    (&[b"0"], 0, 2),
    (&[b"zz"], 0, 2),
];

#[test]
fn a_name_has_at_most_100_000_children(rt: HostRuntime) -> Result<(), Fail> {
    let zone = wide(rt.alloc())?;
    check_walks(&rt, &zone, CHILDREN);
    Ok(())
}
