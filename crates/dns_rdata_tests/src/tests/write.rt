use crate::tests::said::{SOA, write, written};
use dns_name::Tally;
use dns_rdata::RType;
use dns_samples_tests::Kept;
use std::alloc::{AllocError, Global};
use std::test::Fail;

// Types, data, and its text.
const ROWS: &[(RType, &[u8], &[u8])] = &[
    (RType::A, b"\xc0\0\x02\x01", b"192.0.2.1"),
    (RType::A, b"\xff\xff\xff\xff", b"255.255.255.255"),
    (
        RType::AAAA,
        b"\x20\x01\x0d\xb8\0\0\0\0\0\x01\0\0\0\0\0\x01",
        b"2001:db8::1:0:0:1",
    ),
    (RType::SOA, SOA, b"ns. mAIL.x. 1 7200 900 1209600 300"),
    (RType::NS, b"\0", b"."),
    (RType::CNAME, b"\x03a.b\x01C\0", b"a\\.b.C."),
    (RType::PTR, b"\x02ns\x07example\0", b"ns.example."),
    (RType::MX, b"\0\x0a\x04mail\x01x\0", b"10 mail.x."),
    (RType::MX, b"\xff\xff\0", b"65535 ."),
    (RType::SRV, b"\0\0\xff\xff\0\x35\x02ns\0", b"0 65535 53 ns."),
    (RType::HINFO, b"\0\x01b", b"\"\" \"b\""),
    (RType::HINFO, b"\x03A B\x02\\;", b"\"A B\" \"\\\\;\""),
    (RType::TXT, b"\x04a\"b\x09", b"\"a\\\"b\\009\""),
    (RType::TXT, b"\0", b"\"\""),
    (RType::TXT, b"\x05 ~\\.;", b"\" ~\\\\.;\""),
    (RType::TXT, b"\x03\x7f\xff\0", b"\"\\127\\255\\000\""),
    (RType::TXT, b"\x02AB\0\x01\xff", b"\"AB\" \"\" \"\\255\""),
    (RType(65280), b"", b"\\# 0"),
    (RType(65280), b"\xab\xcd\xef", b"\\# 3 abcdef"),
    (RType(65280), b"\0", b"\\# 1 00"),
    (RType(65280), b"\0\x9a\xaf\xff", b"\\# 4 009aafff"),
    (RType(0), b"\xc0\x0c", b"\\# 2 c00c"),
    (RType(65), b"0123456789", b"\\# 10 30313233343536373839"),
];

#[test]
fn data_written(rt: HostRuntime) {
    for &(rtype, octets, text) in ROWS {
        let written = written(rt.alloc(), rtype, octets);
        assert!(rt; written.as_slice() == text, "at {text:?}");
    }
}

// The number of octets that are written by calls of at most three octets each, if the call after
// the first `calls` fails. `None` unless these octets are a prefix of the text, and a failure is
// counted if and only if they are not the whole text.
fn beginning(alloc: Global, row: (RType, &[u8], &[u8]), calls: u32) -> Option<usize> {
    let (rtype, octets, text) = row;
    let mut sink = Tally::new(Kept::new(alloc, 3, calls));
    let fails = write(alloc, rtype, octets, &mut sink).is_err();
    let failures = sink.failures();
    let device = sink.into_inner();
    let length = device.text.len();
    let is_told = failures == u64::from(fails) && device.calls.has_failed() == fails;
    let is_right = text.starts_with(device.text.as_slice()) && fails == (length < text.len());
    if is_told && is_right {
        Some(length)
    } else {
        None
    }
}

// No text is longer than 40 octets, so at most 40 calls write it. Each further call that works
// writes more of the text, until the whole text is written.
#[test]
fn each_write_fails(rt: HostRuntime) -> Result<(), Fail> {
    for &row in ROWS {
        let (mut written, whole) = (0, row.2.len());
        for calls in 0..41 {
            let length = beginning(rt.alloc(), row, calls).ok_or("a beginning")?;
            assert!(rt; length > written || calls == 0 || written == whole);
            written = length;
        }
        assert!(rt; written == whole);
    }
    Ok(())
}

// 255 strings of 255 octets and 255 empty strings make 65,535 octets (RFC 1035 3.2.1).
fn longest(alloc: Global) -> Result<Vec<u8>, AllocError> {
    let mut data = Vec::new(alloc);
    for number in 1..256_usize {
        data.push(255)?;
        data.resize(256 * number, b'"')?;
    }
    data.resize(65_535, 0)?;
    Ok(data)
}

#[test]
fn longest_text_written(rt: HostRuntime) -> Result<(), Fail> {
    let data = longest(rt.alloc())?;
    // A backslash before each mark, two marks around each string, a space between two strings.
    let text = written(rt.alloc(), RType::TXT, &data);
    assert!(rt; text.len() == 2 * 255 * 255 + 3 * 510 - 1);
    let text = written(rt.alloc(), RType(65280), &data);
    assert!(rt; text.len() == 9 + 2 * 65535);
    // A backslash and three digits for each octet, between two marks.
    let mut string = [0; 256];
    string[0] = 255;
    assert!(rt; written(rt.alloc(), RType::TXT, &string).len() == 1022);
    Ok(())
}
