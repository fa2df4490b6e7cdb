use super::devices::{Devices, all_work, front, has_ended};
use dns_name::Tally;
use dns_samples_tests::{Kept, Pieces};
use dns_tools::{Outcome, Stop, run_message};
use std::alloc::Global;
use std::test::Fail;

// Whether a run ends as wanted, and prints this.
fn is_printed(alloc: Global, input: &[u8], devices: Devices, wanted: (Outcome, &[u8])) -> bool {
    let (most, reads, writes) = devices;
    let mut source = Tally::new(Pieces::new(input, most, reads));
    let mut sink = Tally::new(Kept::new(alloc, most, writes));
    let outcome = run_message(alloc, &mut source, &mut sink);
    has_ended(source, sink, outcome, wanted)
}

const ANSWER: &[u8] =
    b"12348400000100010000000003777777076578616d706c650000010001c00c0001000100000e100004c000020a";

const ANSWER_AND_MORE: &[u8] = b"12348400000100010000000003777777076578616d706c650000010001\
    c00c0001000100000e100004c000020a\nzz\n";

const PRINTED: &[u8] = b"header 1234 8400 1 1 0 0\nquestion www.example. IN A\n\
    answer www.example. 3600 IN A 192.0.2.10\n";

#[test]
fn the_first_line_alone(rt: HostRuntime) {
    for most in [1, 2, 90, 91, 1000] {
        let wanted = (Ok(true), PRINTED);
        let is_printed = is_printed(rt.alloc(), ANSWER_AND_MORE, all_work(most), wanted);
        assert!(rt; is_printed, "{most} octets a call");
    }
}

// Whether a run over a line of `digits` zeros ends as wanted.
fn is_line(alloc: Global, digits: usize, wanted: (Outcome, &[u8])) -> Result<bool, Fail> {
    let line = vec![in alloc; b'0'; digits]?;
    Ok(is_printed(alloc, line.as_slice(), all_work(4096), wanted))
}

#[test]
fn the_longest_line(rt: HostRuntime) -> Result<(), Fail> {
    assert!(rt; is_line(rt.alloc(), 131_070, (Ok(false), b"fault 6\n"))?);
    assert!(rt; is_line(rt.alloc(), 131_071, (Ok(false), b"bad hex\n"))?);
    Ok(())
}

#[test]
fn reads_and_writes_that_fail(rt: HostRuntime) {
    for reads in 0..10 {
        let wanted = (Err(Stop::Source), b"".as_slice());
        let is_printed = is_printed(rt.alloc(), ANSWER, (10, reads, 1000), wanted);
        assert!(rt; is_printed, "after {reads} reads");
    }
    for writes in 0..93 {
        let wanted = (Err(Stop::Sink), front(PRINTED, writes));
        let is_printed = is_printed(rt.alloc(), ANSWER, (1, 1000, writes), wanted);
        assert!(rt; is_printed, "after {writes} writes");
    }
}
