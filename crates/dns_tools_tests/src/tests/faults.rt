//! The list of all faults of a file.

use super::devices::{Devices, all_work, front, has_ended};
use super::load::example;
use dns_name::Tally;
use dns_samples_tests::{Kept, Pieces, SMALL};
use dns_tools::{Outcome, Stop, list_faults};
use std::alloc::Global;
use std::test::Fail;

const FAULTY: &str = "$TTL 60
@ SOA ns h 1 2 3 4 5
@ NS ns
ns A 192.0.2.300
www 1h A 192.0.2.1
mx MXX 10 ns
t TXT ( \"a\"
  \"b
)
b..c A 192.0.2.1
";

const LIST: &[u8] = b"4:6-4:17 R13.3
5:5-5:7 R09
6:4-6:7 R11
8:5-8:5 R03
9:1-9:2 R04
10:1-10:5 R07.1
";

// Whether the list of the faults of a zone `example.` has the wanted outcome and octets.
fn is_list(
    alloc: Global,
    text: &str,
    devices: Devices,
    wanted: (Outcome, &[u8]),
) -> Result<bool, Fail> {
    let (most, reads, writes) = devices;
    let mut source = Tally::new(Pieces::new(text.as_bytes(), most, reads));
    let mut sink = Tally::new(Kept::new(alloc, most, writes));
    let outcome = list_faults(alloc, &example()?, &mut source, &mut sink);
    Ok(has_ended(source, sink, outcome, wanted))
}

#[test]
fn files_with_and_without_faults(rt: HostRuntime) -> Result<(), Fail> {
    let twice: &str = "@ SOA ns h 1 2 3 4 5\n@ 60 SOA ns h 1 2 3 4 5\n@ 60 SOA ns h 2 2 3 4 5\n";
    for most in [1, 4096] {
        let devices = all_work(most);
        assert!(rt; is_list(rt.alloc(), SMALL, devices, (Ok(true), b""))?);
        assert!(rt; is_list(rt.alloc(), FAULTY, devices, (Ok(false), LIST))?);
        let report = b"example. Z01\nexample. Z04\n";
        assert!(rt; is_list(rt.alloc(), "", devices, (Ok(false), report))?);
        let report = b"1:3-1:6 R12\nexample. Z02\n";
        assert!(rt; is_list(rt.alloc(), twice, devices, (Ok(false), report))?);
    }
    Ok(())
}

#[test]
fn sinks_and_sources_that_fail(rt: HostRuntime) -> Result<(), Fail> {
    for writes in 0..79 {
        let wanted = (Err(Stop::Sink), front(LIST, writes));
        assert!(rt;
            is_list(rt.alloc(), FAULTY, (1, 1000, writes), wanted)?,
            "{writes} octets"
        );
    }
    for reads in 0..3 {
        let wanted = (Err(Stop::Source), front(LIST, 0));
        assert!(rt;
            is_list(rt.alloc(), FAULTY, (64, reads, 1000), wanted)?,
            "{reads} reads"
        );
    }
    Ok(())
}
