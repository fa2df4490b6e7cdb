//! Long files and long reports.

use super::check::{PLAIN, PRINT, is_report};
use super::devices::{Devices, all_work};
use super::load::example;
use dns_master::MOST_RECORDS;
use dns_name::{Name, Tally};
use dns_samples_tests::{Kept, LOADED};
use dns_tools::{Stop, check_zone};
use std::alloc::Global;
use std::fmt::Write;
use std::test::Fail;

const MOST_FILE_OCTETS: usize = 16_777_216;

// A TTL line and the three records that a zone needs at least.
const LEAST: &str = "$TTL 60\n@ SOA ns h 1 2 3 4 5\n@ NS ns\nns A 192.0.2.1\n";

// The devices of long files.
const MANY: Devices = (100_000, 10_000, 1_000_000);

// Whether the check of a text has this report, which ends with `OK` if it passes.
fn judges(alloc: Global, origin: &Name, text: &str, report: &str) -> bool {
    let wanted = (Ok(report.ends_with("OK\n")), report.as_bytes());
    is_report(alloc, origin, PLAIN, text, MANY, wanted)
}

// As many records as a file may have, all but three of them at one owner.
fn crowd(alloc: Global) -> Result<String, Fail> {
    let mut text = String::from_str(alloc, LEAST)?;
    for number in 0..49_999 {
        let (high, low) = (number / 256, number % 256);
        writeln!(text, "f A 198.51.{high}.{low}")?;
    }
    for number in 0..49_998 {
        writeln!(text, "F TYPE{} \\# 0", 1000 + number)?;
    }
    Ok(text)
}

#[test]
fn many_records_at_one_owner(rt: HostRuntime) -> Result<(), Fail> {
    let origin = example()?;
    let mut text = crowd(rt.alloc())?;
    let report = "f.example. Z14\nf.example. Z15\n";
    assert!(rt; judges(rt.alloc(), &origin, text.as_str(), report));
    text.push_str("f A 192.0.2.1\n")?;
    assert!(rt; judges(rt.alloc(), &origin, text.as_str(), "line 100002: R14\n"));
    Ok(())
}

// As many records as a file may have, all but three of them below one name.
fn family(alloc: Global) -> Result<String, Fail> {
    let mut text = String::from_str(alloc, LEAST)?;
    for number in 3..MOST_RECORDS {
        writeln!(text, "n{number:06}.below TXT a")?;
    }
    Ok(text)
}

// The canonical text of `family`.
fn family_printed(alloc: Global) -> Result<String, Fail> {
    let mut text = String::from_str(
        alloc,
        "example. 60 IN SOA ns.example. h.example. 1 2 3 4 5\nexample. 60 IN NS ns.example.\n",
    )?;
    for number in 3..MOST_RECORDS {
        writeln!(text, "n{number:06}.below.example. 60 IN TXT \"a\"")?;
    }
    text.push_str("ns.example. 60 IN A 192.0.2.1\n")?;
    Ok(text)
}

#[test]
fn many_owners_below_one_name(rt: HostRuntime) -> Result<(), Fail> {
    let origin = example()?;
    let (text, printed) = (family(rt.alloc())?, family_printed(rt.alloc())?);
    let wanted = (Ok(true), printed.as_str().as_bytes());
    assert!(rt; is_report(rt.alloc(), &origin, PRINT, text.as_str(), MANY, wanted));
    Ok(())
}

// The least zone, and 1,000 records at 100 names of 127 labels.
fn depth(alloc: Global, above: &str) -> Result<String, Fail> {
    let mut text = String::from_str(alloc, LEAST)?;
    for number in 0..1000 {
        let (high, low) = (number / 10 % 10, number % 10);
        writeln!(text, "{high}.{low}{above}.a. TYPE{} \\# 0", 1000 + number)?;
    }
    Ok(text)
}

#[test]
fn owners_of_127_labels(rt: HostRuntime) -> Result<(), Fail> {
    let alloc = rt.alloc();
    let origin = Name::read_text(b"a", &Name::root())?;
    let above = ".a".repeat(alloc, 124)?;
    let mut text = depth(alloc, above.as_str())?;
    let report = "zone a/IN: loaded serial 1\nOK\n";
    assert!(rt; judges(alloc, &origin, text.as_str(), report));
    writeln!(text, "b.0.0{above}.a. TXT a")?;
    assert!(rt; judges(alloc, &origin, text.as_str(), "line 1005: R07\n"));
    Ok(())
}

// A file of `records` records, each at a wildcard and with a name server without an address.
fn faulty_zone(alloc: Global, records: u32) -> Result<String, Fail> {
    let mut text = String::from_str(alloc, "$TTL 60\n")?;
    for number in 0..records {
        writeln!(text, "*.n{number:05} NS lost")?;
    }
    Ok(text)
}

// The report on `faulty_zone`: two lines for each record, and two for the origin, which has no
// record.
fn faulty_report(alloc: Global, records: u32) -> Result<String, Fail> {
    let mut report = String::from_str(alloc, "example. Z01\nexample. Z04\n")?;
    for number in 0..records {
        writeln!(
            report,
            "*.n{number:05}.example. Z10\n*.n{number:05}.example. Z13"
        )?;
    }
    Ok(report)
}

#[test]
fn a_report_of_100002_lines(rt: HostRuntime) -> Result<(), Fail> {
    let origin = example()?;
    let text = faulty_zone(rt.alloc(), 50_000)?;
    let report = faulty_report(rt.alloc(), 50_000)?;
    assert!(rt; report.as_str().lines().count() == 100_002);
    assert!(rt; judges(rt.alloc(), &origin, text.as_str(), report.as_str()));
    Ok(())
}

// Whether a run stops with `Sink` if its sink fails amid the report on a text.
fn fails_amid(alloc: Global, origin: &Name, text: &str, report: &str) -> bool {
    let mut source = Tally::new(text.as_bytes());
    let mut sink = Tally::new(Kept::new(alloc, 7, 10_000));
    let outcome = check_zone(alloc, origin, PLAIN, &mut source, &mut sink);
    let failures = (source.failures(), sink.failures());
    let written = sink.into_inner().text;
    outcome == Err(Stop::Sink)
        && failures == (0, 1)
        && written.len() >= 10_000
        && report.as_bytes().starts_with(written.as_slice())
}

#[test]
fn a_sink_that_fails_amid_a_long_report(rt: HostRuntime) -> Result<(), Fail> {
    let origin = example()?;
    let text = faulty_zone(rt.alloc(), 10_000)?;
    let report = faulty_report(rt.alloc(), 10_000)?;
    assert!(rt; fails_amid(rt.alloc(), &origin, text.as_str(), report.as_str()));
    Ok(())
}

// The least zone, after a comment that makes the file as long as a file may be.
fn filled(alloc: Global) -> Result<String, Fail> {
    let comment = MOST_FILE_OCTETS.saturating_sub(LEAST.len());
    let mut text = ";".repeat(alloc, comment.saturating_sub(1))?;
    text.push_str("\n")?;
    text.push_str(LEAST)?;
    Ok(text)
}

#[test]
fn a_file_up_to_its_limit(rt: HostRuntime) -> Result<(), Fail> {
    let origin = example()?;
    let mut text = filled(rt.alloc())?;
    assert!(rt; text.len() == MOST_FILE_OCTETS);
    assert!(rt; judges(rt.alloc(), &origin, text.as_str(), LOADED));
    text.push_str(";")?;
    assert!(rt; judges(rt.alloc(), &origin, text.as_str(), "line 6: R15\n"));
    Ok(())
}
