//! The canonical text of zones, and sinks that fail.

use crate::zone_of;
use dns_name::Tally;
use dns_samples_tests::{Kept, MIXED, MIXED_PRINTED, SMALL, SMALL_PRINTED};
use dns_zone::{PrintFault, Zone, print};
use std::alloc::Global;
use std::test::Fail;

// The names of RFC 4034 6.1 in reverse, and records of one name that differ in type and in data.
const TURNED: &str = "$TTL 60
\\200.z TXT \"\"
*.z TXT \"\"
\\001.z TXT \"\"
z TXT \"\"
zABC.a TXT \"\"
Z.a TXT \"\"
yljkjljk.a TXT \"\"
a TXT b
a AAAA ::
a TXT \"\" \"\"
a A 192.0.2.200
a A 192.0.2.3
A A 192.0.2.3
@ NS ns.other.
@ A 192.0.2.3
@ SOA ns.other. h 1 2 3 4 5
";

const TURNED_PRINTED: &str = "example. 60 IN SOA ns.other. h.example. 1 2 3 4 5
example. 60 IN A 192.0.2.3
example. 60 IN NS ns.other.
a.example. 60 IN A 192.0.2.3
a.example. 60 IN A 192.0.2.200
a.example. 60 IN TXT \"\" \"\"
a.example. 60 IN TXT \"b\"
a.example. 60 IN AAAA ::
yljkjljk.a.example. 60 IN TXT \"\"
z.a.example. 60 IN TXT \"\"
zabc.a.example. 60 IN TXT \"\"
z.example. 60 IN TXT \"\"
\\001.z.example. 60 IN TXT \"\"
*.z.example. 60 IN TXT \"\"
\\200.z.example. 60 IN TXT \"\"
";

const SHORT: &str = "@ 1 NS ns\n@ 1 SOA ns . 1 2 3 4 5\nns 1 A 192.0.2.1";

const SHORT_PRINTED: &str = ". 1 IN SOA ns. . 1 2 3 4 5
. 1 IN NS ns.
ns. 1 IN A 192.0.2.1
";

// The two parts of the file of a zone `example.`, and the zone's canonical text. The canonical text
// of a zone that is read from canonical text is the same text.
const PRINTED: &[(&str, &str, &str)] = &[
    (SMALL, "", SMALL_PRINTED),
    // Lines that do not change the small zone.
    (SMALL, "WWW A 192.0.2.10\n@ NS ns\n", SMALL_PRINTED),
    (MIXED, "", MIXED_PRINTED),
    (TURNED, "", TURNED_PRINTED),
];

// Whether a zone is printed as this text.
fn has_text(alloc: Global, zone: &Zone, wanted: &[u8]) -> bool {
    let mut sink = Tally::new(Vec::new(alloc));
    let is_whole = print(zone, &mut sink) == Ok(()) && sink.failures() == 0;
    is_whole & (sink.into_inner().as_slice() == wanted)
}

fn is_printed(alloc: Global, begin: &str, end: &str, wanted: &str) -> Result<bool, Fail> {
    let zone = zone_of(alloc, b"example.", begin, end)?;
    Ok(has_text(alloc, &zone, wanted.as_bytes()))
}

#[test]
fn zones_printed(rt: HostRuntime) -> Result<(), Fail> {
    for &(begin, end, wanted) in PRINTED {
        assert!(rt; is_printed(rt.alloc(), begin, end, wanted)?, "{begin}{end}");
        assert!(rt; is_printed(rt.alloc(), wanted, "", wanted)?, "{wanted}");
    }
    Ok(())
}

// Whether a sink that fails after `most` octets gets the first `most` octets of the text, and its
// failure is counted.
fn is_cut(alloc: Global, zone: &Zone, most: u32) -> bool {
    let fails = SHORT_PRINTED.len() > most as usize;
    let mut sink = Tally::new(Kept::new(alloc, 1, most));
    let outcome = print(zone, &mut sink);
    let failures = sink.failures();
    let device = sink.into_inner();
    (outcome == if fails { Err(PrintFault) } else { Ok(()) })
        & (failures == u64::from(fails))
        & (device.calls.has_failed() == fails)
        & (Some(device.text.as_slice()) == SHORT_PRINTED.as_bytes().get(..most as usize))
}

#[test]
fn a_sink_that_fails_after_each_octet(rt: HostRuntime) -> Result<(), Fail> {
    let zone = zone_of(rt.alloc(), b".", SHORT, "")?;
    for most in 0..63 {
        assert!(rt; is_cut(rt.alloc(), &zone, most), "after {most}");
    }
    Ok(())
}
