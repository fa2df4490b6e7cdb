use dns_name::Tally;
use dns_rdata::{RType, RdataFault};
use dns_samples_tests::Kept;
use std::alloc::Global;

// Words, separated by `|`, and the type that each says.
const READ: &[(&[u8], Option<RType>)] = &[
    (b"A|TYPE1", Some(RType::A)),
    (b"ns", Some(RType::NS)),
    (b"CName", Some(RType::CNAME)),
    (b"SOA", Some(RType::SOA)),
    (b"aaaa", Some(RType::AAAA)),
    (b"type15", Some(RType::MX)),
    (b"Type0", Some(RType(0))),
    (b"TYPE65535", Some(RType(65535))),
    (b"TYPE65536|TYPE4294967297|TYPE065|TYPE00", None),
    (b"TYPE+1|TYPE|TYP|ANY|", None),
];

#[test]
fn types_read(rt: HostRuntime) {
    for &(words, wanted) in READ {
        for word in words.split(|octet| *octet == b'|') {
            assert!(rt; RType::read_text(word) == wanted, "at {word:?}");
        }
    }
}

const WRITTEN: &[(u16, &[u8])] = &[
    (1, b"A"),
    (2, b"NS"),
    (5, b"CNAME"),
    (6, b"SOA"),
    (12, b"PTR"),
    (13, b"HINFO"),
    (15, b"MX"),
    (16, b"TXT"),
    (28, b"AAAA"),
    (33, b"SRV"),
    (0, b"TYPE0"),
    (65, b"TYPE65"),
    (65535, b"TYPE65535"),
];

fn is_written(alloc: Global, rtype: RType, wanted: &[u8]) -> bool {
    let mut sink = Tally::new(Vec::new(alloc));
    let result = rtype.write_text(&mut sink);
    result.is_ok() && sink.into_inner().as_slice() == wanted
}

#[test]
fn types_written(rt: HostRuntime) {
    for &(number, wanted) in WRITTEN {
        let holds = is_written(rt.alloc(), RType(number), wanted);
        assert!(rt; holds, "at {number}");
    }
}

#[test]
fn a_failure_after_the_first_octet_is_told(rt: HostRuntime) {
    let mut sink = Tally::new(Kept::new(rt.alloc(), 1, 1));
    assert!(rt; RType(65).write_text(&mut sink).is_err());
    assert!(rt; sink.failures() == 1);
}

#[test]
fn compression(rt: HostRuntime) {
    for (number, wanted) in [(1, false), (6, true), (15, true), (33, false), (65, false)] {
        assert!(rt; RType(number).compresses() == wanted, "of {number}");
    }
}

const CODES: &[(RdataFault, u8)] = &[
    (RdataFault::WordCount, 1),
    (RdataFault::BadNumber, 2),
    (RdataFault::BadAddress, 3),
    (RdataFault::BadName, 4),
    (RdataFault::BadString, 5),
    (RdataFault::BadHex, 6),
    (RdataFault::NotOfType, 7),
    (RdataFault::NoMemory, 8),
];

#[test]
fn codes(rt: HostRuntime) {
    for &(fault, code) in CODES {
        assert!(rt; fault.code() == code);
    }
}
