//! Zones that are built, and faults that are reported.

use crate::built;
use dns_master::read_zone;
use dns_name::{Name, Tally};
use dns_samples_tests::{SMALL, SMALL_PRINTED};
use dns_zone::{BuildFault, CheckFaults, CheckedZone, Store, Zone, print};
use std::alloc::{AllocError, Global};
use std::test::Fail;

// An origin, a file, the origin of the zone that is built in wire form, and the zone's serial.
const ORIGINS: &[(&[u8], &str, &[u8], u32)] = &[
    (
        b"Example.",
        "@ 60 SOA ns h 1 2 3 4 5\n@ 60 NS ns.other.",
        b"\x07example\0",
        1,
    ),
    (
        b"a.b.",
        "x 60 A 192.0.2.1\n@ 60 NS x\n@ 60 SOA x x 4294967295 2 3 4 5",
        b"\x01a\x01b\0",
        4_294_967_295,
    ),
    (
        b".",
        "@ 60 NS x\nx 60 A 192.0.2.1\n@ 60 SOA x x 16909060 0 0 0 0",
        b"\0",
        16_909_060,
    ),
];

fn is_built(alloc: Global, origin: &[u8], text: &str, wire: &[u8], serial: u32) -> bool {
    match built(alloc, origin, text, "") {
        Some(Ok(zone)) => (zone.origin().octets() == wire) & (zone.serial() == serial),
        _ => false,
    }
}

#[test]
fn origins_and_serials(rt: HostRuntime) {
    for &(origin, text, wire, serial) in ORIGINS {
        assert!(rt; is_built(rt.alloc(), origin, text, wire, serial), "{text}");
    }
}

// A fault: the owner's wire form, and the number of the code.
type Reported<'a> = (&'a [u8], u8);

// The two parts of the file of a zone `example.`, and the zone's faults.
const FAULTS: &[(&str, &str, &[Reported<'static>])] = &[
    (
        SMALL,
        "www CNAME ns\nx.sub TXT \"q\"\n",
        &[
            (b"\x01x\x03sub\x07example\0", 12),
            (b"\x03www\x07example\0", 6),
        ],
    ),
    ("", "", &[(b"\x07example\0", 1), (b"\x07example\0", 4)]),
    // A record that differs only in its TTL is not a duplicate.
    (
        SMALL,
        "www 1 A 192.0.2.10\n",
        &[(b"\x03www\x07example\0", 8)],
    ),
];

fn are_reported(faults: &CheckFaults, wanted: &[Reported<'_>]) -> bool {
    let mut are_alike = faults.found.len() == wanted.len();
    for (fault, (owner, code)) in faults.found.iter().zip(wanted) {
        are_alike &= (faults.owner(fault).octets() == *owner) & (fault.code == *code);
    }
    are_alike
}

fn is_refused(alloc: Global, begin: &str, end: &str, wanted: &[Reported<'_>]) -> bool {
    match built(alloc, b"example.", begin, end) {
        Some(Err(BuildFault::Faults(faults))) => are_reported(&faults, wanted),
        _ => false,
    }
}

#[test]
fn faults_are_reported(rt: HostRuntime) {
    for &(begin, end, wanted) in FAULTS {
        assert!(rt; is_refused(rt.alloc(), begin, end, wanted), "with {end}");
    }
}

// The small zone, checked from a store to which its records were added one by one.
fn checked(alloc: Global) -> Option<CheckedZone> {
    let origin = Name::read_text(b"example.", &Name::root()).ok()?;
    let records = read_zone(alloc, &origin, &mut Tally::new(SMALL.as_bytes())).ok()?;
    let mut store = Store::new(alloc);
    for record in &records {
        store.add(record).ok()?;
    }
    if store.count() != 9 {
        return None;
    }
    store.check(alloc, &origin).ok()
}

// Whether a checked zone has the text of the small zone, also after it becomes a `Zone`.
fn is_small(alloc: Global, zone: CheckedZone) -> Result<bool, AllocError> {
    let mut sink = Tally::new(Vec::new(alloc));
    let mut served = Tally::new(Vec::new(alloc));
    let is_whole = zone.print(&mut sink) == Ok(()) && zone.serial() == 1;
    let zone = Zone::of(alloc, zone)?;
    let is_served = print(&zone, &mut served) == Ok(());
    let (sink, served) = (sink.into_inner(), served.into_inner());
    Ok(is_whole & is_served & (sink.as_slice() == SMALL_PRINTED.as_bytes()) & (sink == served))
}

#[test]
fn a_zone_is_built_of_a_store(rt: HostRuntime) -> Result<(), Fail> {
    let zone = checked(rt.alloc()).ok_or("no zone of a store")?;
    assert!(rt; is_small(rt.alloc(), zone)?);
    Ok(())
}
