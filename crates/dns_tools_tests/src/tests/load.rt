use dns_name::{Name, Tally};
use dns_samples_tests::{Kept, Pieces, SMALL};
use dns_tools::{LoadFault, Refusal, Stop, load_zone, write_refusal};
use dns_zone::Zone;
use std::alloc::Global;
use std::test::Fail;

pub(super) fn example() -> Result<Name, Fail> {
    Ok(Name::read_text(b"example", &Name::root())?)
}

/// The zone of the sample file.
pub(super) fn sample(alloc: Global) -> Result<Zone, Fail> {
    match load_zone(alloc, &example()?, &mut Tally::new(SMALL.as_bytes())) {
        Ok(zone) => Ok(zone),
        Err(_) => Err(Fail::new("the sample zone is refused")),
    }
}

// How a text is given: the most octets of a piece, and how many calls work before one fails.
type Given = (usize, u32);

// Whether this is the report on a refusal.
fn is_report(alloc: Global, refusal: &Refusal, wanted: &str) -> Result<bool, Fail> {
    let mut sink = Tally::new(Kept::new(alloc, 7, 1_000_000));
    write_refusal(refusal, &mut sink)?;
    Ok(sink.into_inner().text.as_slice() == wanted.as_bytes())
}

// Whether a text has a zone with this serial, or is refused with this report, or, if the report is
// empty, can't be read.
fn is_loaded(
    alloc: Global,
    text: &[u8],
    (most, calls): Given,
    wanted: Result<u32, &str>,
) -> Result<bool, Fail> {
    let mut source = Tally::new(Pieces::new(text, most, calls));
    match load_zone(alloc, &example()?, &mut source) {
        Ok(zone) => Ok(wanted == Ok(zone.serial())),
        Err(LoadFault::Refused(refusal)) => is_report(alloc, &refusal, wanted.err().unwrap_or("")),
        Err(LoadFault::Stopped(stop)) => Ok(stop == Stop::Source && wanted == Err("")),
    }
}

#[test]
fn the_sample_file(rt: HostRuntime) -> Result<(), Fail> {
    for most in [1, 7, 1000] {
        let is_loaded = is_loaded(rt.alloc(), SMALL.as_bytes(), (most, 1000), Ok(1))?;
        assert!(rt; is_loaded, "in pieces of {most}");
    }
    Ok(())
}

// A file in two parts, and its report.
const REFUSED: &[(&str, &str, &str)] = &[
    ("", "", "example. Z01\nexample. Z04\n"),
    ("", " A 192.0.2.1", "line 1: R08\n"),
    (
        "$TTL 60\n\nwww A (\n",
        "192.0.2.1 )\nx ANY\n",
        "line 5: R11\n",
    ),
    (SMALL, "www CNAME ns\n", "www.example. Z06\n"),
    (SMALL, "www.other. A 192.0.2.1\n", "www.other. Z05\n"),
];

fn is_refused(alloc: Global, begin: &str, end: &str, report: &str) -> Result<bool, Fail> {
    let text = format!(in alloc; "{begin}{end}")?;
    is_loaded(alloc, text.as_bytes(), (7, 1000), Err(report))
}

#[test]
fn refusals_in_the_lines_of_the_report(rt: HostRuntime) -> Result<(), Fail> {
    for &(begin, end, report) in REFUSED {
        assert!(rt; is_refused(rt.alloc(), begin, end, report)?, "{report}");
    }
    Ok(())
}

#[test]
fn a_source_that_fails(rt: HostRuntime) -> Result<(), Fail> {
    for calls in 0..10 {
        let is_unread = is_loaded(rt.alloc(), SMALL.as_bytes(), (20, calls), Err(""))?;
        assert!(rt; is_unread, "after {calls} reads");
    }
    Ok(())
}
