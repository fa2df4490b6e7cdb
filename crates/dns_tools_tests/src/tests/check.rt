use super::devices::{Devices, all_work, front, has_ended};
use super::load::example;
use dns_name::{Name, Tally};
use dns_samples_tests::{Kept, LOADED, MIXED, MIXED_PRINTED, Pieces, SMALL, SMALL_PRINTED};
use dns_tools::{Flags, Outcome, Stop, check_zone};
use std::alloc::Global;
use std::fmt::Write;
use std::test::Fail;

pub(super) const PLAIN: Flags = Flags {
    quiet: false,
    print: false,
};

pub(super) const PRINT: Flags = Flags {
    quiet: false,
    print: true,
};

const QUIET: Flags = Flags {
    quiet: true,
    print: false,
};

const QUIET_PRINT: Flags = Flags {
    quiet: true,
    print: true,
};

/// Whether the check of a text has the wanted outcome and report.
pub(super) fn is_report(
    alloc: Global,
    origin: &Name,
    flags: Flags,
    text: &str,
    devices: Devices,
    wanted: (Outcome, &[u8]),
) -> bool {
    let (most, reads, writes) = devices;
    let mut source = Tally::new(Pieces::new(text.as_bytes(), most, reads));
    let mut sink = Tally::new(Kept::new(alloc, most, writes));
    let outcome = check_zone(alloc, origin, flags, &mut source, &mut sink);
    has_ended(source, sink, outcome, wanted)
}

// Whether a zone with this text passes or fails as `passes` says, and this is its report.
fn judges(
    alloc: Global,
    flags: Flags,
    text: &str,
    passes: bool,
    report: &str,
) -> Result<bool, Fail> {
    let wanted = (Ok(passes), report.as_bytes());
    Ok(is_report(alloc, &example()?, flags, text, all_work(4096), wanted))
}

// Zones that pass. Printed text is its own canonical text.
const PASSING: &[(Flags, &str, &str)] = &[
    (PLAIN, SMALL, LOADED),
    (PRINT, SMALL, SMALL_PRINTED),
    (QUIET, SMALL, ""),
    (QUIET_PRINT, SMALL, SMALL_PRINTED),
    (PRINT, MIXED, MIXED_PRINTED),
    (PRINT, MIXED_PRINTED, MIXED_PRINTED),
];

#[test]
fn a_zone_that_passes(rt: HostRuntime) -> Result<(), Fail> {
    for &(flags, text, report) in PASSING {
        for most in [1, 4096] {
            let wanted = (Ok(true), report.as_bytes());
            let origin = example()?;
            let is_report = is_report(rt.alloc(), &origin, flags, text, all_work(most), wanted);
            assert!(rt; is_report, "{text} with {flags:?}");
        }
    }
    Ok(())
}

// Lines added to the sample, and the report on the result.
const LINES_ADDED: &[(&str, &str)] = &[
    ("www A 192.0.2.10", LOADED),
    ("www 60 A 192.0.2.10", "www.example. Z08\n"),
    ("alias CNAME ns", "alias.example. Z07\n"),
    ("@ NS alias", "example. Z09\nexample. Z10\n"),
    ("@ NS h.sub", LOADED),
    ("sub NS h.sub", "sub.example. Z10\n"),
    ("@ MX 10 alias", "example. Z11\n"),
    ("_s._tcp SRV 1 2 53 alias", "_s._tcp.example. Z11\n"),
    ("@ MX 10 www.other.", LOADED),
    ("*.w NS ns", "*.w.example. Z12\n*.w.example. Z13\n"),
    ("www.other. A 192.0.2.1", "www.other. Z05\n"),
    ("www SOA ns hostmaster 1 2 3 4 5", "www.example. Z03\n"),
    (
        "@ SOA ns hostmaster 2 7200 900 1209600 300",
        "example. Z02\n",
    ),
    (
        "www CNAME ns\nx.sub TXT \"q\"",
        "x.sub.example. Z12\nwww.example. Z06\n",
    ),
    ("www CNAME ns\nwww CNAME ns", "www.example. Z06\n"),
];

// Whether this is the report on the sample with these lines added.
fn is_report_with(alloc: Global, added: &str, report: &str) -> Result<bool, Fail> {
    let text = format!(in alloc; "{SMALL}{added}")?;
    judges(alloc, PLAIN, text.as_str(), report == LOADED, report)
}

#[test]
fn zones_with_lines_added(rt: HostRuntime) -> Result<(), Fail> {
    for &(added, report) in LINES_ADDED {
        assert!(rt; is_report_with(rt.alloc(), added, report)?, "with {added}");
    }
    Ok(())
}

// The sample with a set of 64 addresses, and with an owner of 32 sets.
fn with_sets(alloc: Global) -> Result<String, Fail> {
    let mut text = String::from_str(alloc, SMALL)?;
    for place in 1..65 {
        writeln!(text, "f A 198.51.100.{place}")?;
    }
    for number in 65280..65312 {
        writeln!(text, "g TYPE{number} \\# 0")?;
    }
    Ok(text)
}

#[test]
fn sets_up_to_their_limits(rt: HostRuntime) -> Result<(), Fail> {
    let mut text = with_sets(rt.alloc())?;
    assert!(rt; judges(rt.alloc(), PLAIN, text.as_str(), true, LOADED)?);
    text.push_str("f A 198.51.100.65\ng TYPE65312 \\# 0\n")?;
    let report = "f.example. Z14\ng.example. Z15\n";
    assert!(rt; judges(rt.alloc(), PLAIN, text.as_str(), false, report)?);
    Ok(())
}

// The sample with one line replaced, or with lines appended if `line` is past its end.
fn changed(alloc: Global, line: usize, others: &str) -> Result<String, Fail> {
    let mut text = String::new(alloc);
    for (place, old) in SMALL.lines().enumerate() {
        text.push_str(if place + 1 == line { others } else { old })?;
        text.push_str("\n")?;
    }
    if line > 10 {
        text.push_str(others)?;
    }
    Ok(text)
}

const FLAGS: &[Flags] = &[PLAIN, PRINT, QUIET_PRINT, QUIET];

const FAULTY: &[(usize, &str, &str)] = &[
    (7, "*.w TEXT \"any\"", "line 7: R11\n"),
    (4, "ns 1h A 192.0.2.1", "line 4: R09\n"),
    (1, "", "line 2: R12\n"),
    (11, "v TXT ( \"a\"", "line 11: R04\n"),
];

// Whether a text is refused with this report, or with none if only `quiet` is set.
fn is_faulty(alloc: Global, text: &str, report: &str) -> Result<bool, Fail> {
    for &flags in FLAGS {
        let report = if flags == QUIET { "" } else { report };
        if !judges(alloc, flags, text, false, report)? {
            return Ok(false);
        }
    }
    Ok(true)
}

fn is_change(alloc: Global, line: usize, other: &str, report: &str) -> Result<bool, Fail> {
    let text = changed(alloc, line, other)?;
    is_faulty(alloc, text.as_str(), report)
}

#[test]
fn faulty_files(rt: HostRuntime) -> Result<(), Fail> {
    for &(line, other, report) in FAULTY {
        assert!(rt; is_change(rt.alloc(), line, other, report)?, "{other}");
    }
    let report = "example. Z01\nexample. Z04\n";
    assert!(rt; judges(rt.alloc(), PLAIN, "", false, report)?);
    Ok(())
}

fn is_cut(alloc: Global, writes: u32) -> Result<bool, Fail> {
    let wanted = (Err(Stop::Sink), front(LOADED.as_bytes(), writes));
    Ok(is_report(alloc, &example()?, PLAIN, SMALL, (1, 1000, writes), wanted))
}

fn is_unread(alloc: Global, reads: u32) -> Result<bool, Fail> {
    let wanted = (Err(Stop::Source), b"".as_slice());
    Ok(is_report(alloc, &example()?, PRINT, SMALL, (64, reads, 1000), wanted))
}

#[test]
fn sinks_and_sources_that_fail(rt: HostRuntime) -> Result<(), Fail> {
    for writes in 0..36 {
        assert!(rt; is_cut(rt.alloc(), writes)?, "after {writes} octets");
    }
    for reads in 0..4 {
        assert!(rt; is_unread(rt.alloc(), reads)?, "after {reads} reads");
    }
    assert!(rt; fails_at_once(rt.alloc(), PLAIN)?);
    assert!(rt; fails_at_once(rt.alloc(), PRINT)?);
    Ok(())
}

// Whether a sink that takes nothing is called once, and its failure is counted.
fn fails_at_once(alloc: Global, flags: Flags) -> Result<bool, Fail> {
    let origin = example()?;
    let mut source = Tally::new(SMALL.as_bytes());
    let mut sink = Tally::new(Kept::new(alloc, 0, 9));
    let outcome = check_zone(alloc, &origin, flags, &mut source, &mut sink);
    let failures = sink.failures();
    Ok(outcome == Err(Stop::Sink) && failures == 1 && sink.into_inner().calls.left == 8)
}
