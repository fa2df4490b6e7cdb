use super::devices::{Devices, all_work, front, has_ended};
use super::load::sample;
use dns_answer::Limit;
use dns_name::Tally;
use dns_samples_tests::{Kept, Pieces};
use dns_tools::{Outcome, Stop, run_once};
use dns_zone::Zone;
use std::alloc::Global;
use std::process::Abort;
use std::test::Fail;

// Whether a run over UDP ends as wanted, and these are its answers.
fn are_answers(
    alloc: Global,
    zone: &Zone,
    input: &[u8],
    devices: Devices,
    wanted: (Outcome, &[u8]),
) -> bool {
    let (most, reads, writes) = devices;
    let mut source = Tally::new(Pieces::new(input, most, reads));
    let mut sink = Tally::new(Kept::new(alloc, most, writes));
    let outcome = run_once(alloc, zone, Limit::Udp, &mut source, &mut sink);
    has_ended(source, sink, outcome, wanted)
}

// Lines, whether all are messages, and the answers. The last line may lack its LF.
const LINES: &[(&str, bool, &str)] = &[
    ("\nzz\n00\n", false, "none\nbad hex\nnone\n"),
    ("\n0\n00\n", false, "none\nbad hex\nnone\n"),
    ("\n00\r\n00\n", false, "none\nbad hex\nnone\n"),
    ("\n00 \n00\n", false, "none\nbad hex\nnone\n"),
    ("\n123\n00\n", false, "none\nbad hex\nnone\n"),
    ("\n0x00\n00\n", false, "none\nbad hex\nnone\n"),
    ("\n\u{e9}\n00\n", false, "none\nbad hex\nnone\n"),
    ("", true, ""),
    ("\n", true, "none\n"),
    ("\n00", true, "none\nnone\n"),
    ("z", false, "bad hex\n"),
];

#[test]
fn lines_and_their_answers(rt: HostRuntime) -> Result<(), Fail> {
    let zone = sample(rt.alloc())?;
    check_lines(&rt, rt.alloc(), &zone);
    check_reads(&rt, rt.alloc(), &zone);
    check_writes(&rt, rt.alloc(), &zone);
    Ok(())
}

fn check_lines(rt: &impl Abort, alloc: Global, zone: &Zone) {
    for &(input, passes, answers) in LINES {
        for most in [1, 1000] {
            let wanted = (Ok(passes), answers.as_bytes());
            let are_answers = are_answers(alloc, zone, input.as_bytes(), all_work(most), wanted);
            assert!(rt; are_answers, "{input}");
        }
    }
}

const THREE: &[u8] = b"\n00\n\n";

const ANSWERS: &[u8] = b"none\nnone\nnone\n";

// How many reads work before one fails, and how many octets are then written.
const WRITTEN: &[(u32, u32)] = &[(0, 0), (1, 5), (2, 5), (3, 5), (4, 10)];

fn check_reads(rt: &impl Abort, alloc: Global, zone: &Zone) {
    for &(reads, written) in WRITTEN {
        let wanted = (Err(Stop::Source), front(ANSWERS, written));
        let are_answers = are_answers(alloc, zone, THREE, (1, reads, 1000), wanted);
        assert!(rt; are_answers, "after {reads} reads");
    }
}

fn check_writes(rt: &impl Abort, alloc: Global, zone: &Zone) {
    for writes in 0..15 {
        let wanted = (Err(Stop::Sink), front(ANSWERS, writes));
        let are_answers = are_answers(alloc, zone, THREE, (1, 1000, writes), wanted);
        assert!(rt; are_answers, "after {writes} writes");
    }
    assert!(rt; are_answers(alloc, zone, THREE, (1, 6, 15), (Ok(true), ANSWERS)));
}

// Digits of the longest message, with these octets after them.
fn longest(alloc: Global, after: &[u8]) -> Result<Vec<u8>, Fail> {
    let mut input = vec![in alloc; b'0'; 131_070]?;
    input.extend_from_slice(after)?;
    Ok(input)
}

// What follows the digits of the longest message, whether all lines are messages, and the answers.
const LONGEST: &[(&[u8], bool, &[u8])] = &[
    (b"", true, b"000080010000000000000000\n"),
    (b"0\n\n", false, b"bad hex\nnone\n"),
];

#[test]
fn a_line_of_the_most_digits_and_one_more(rt: HostRuntime) -> Result<(), Fail> {
    let zone = sample(rt.alloc())?;
    for &(after, passes, answers) in LONGEST {
        assert!(rt; is_answered(rt.alloc(), &zone, after, (Ok(passes), answers))?);
    }
    Ok(())
}

fn is_answered(
    alloc: Global,
    zone: &Zone,
    after: &[u8],
    wanted: (Outcome, &[u8]),
) -> Result<bool, Fail> {
    let input = longest(alloc, after)?;
    Ok(are_answers(alloc, zone, &input, all_work(70_000), wanted))
}
