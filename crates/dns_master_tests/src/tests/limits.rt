//! Faults of long files: `R14` and `R15`, and faults that take precedence over them.

use super::reading::{fault, is_fault, repeated};
use std::alloc::AllocError;
use std::test::Fail;

const MOST_FILE_OCTETS: usize = 16_777_216;

// A fault as code and line, and the ends of files that have it, each after `|`: their second lines,
// with `^` after the last octet up to the limit.
const LIMITS: &[&[u8]] = &[
    b"0:0|^|a 1 A 192.0.2.1^",
    b"15:2|^x|a^ |;^x| ^\n|\\^x|\\3^00|\\26^0|\\99^9|\r^\n|\r^x|\"a^\"|\"a\\^\"|\"a\r^\n|(^)|$X^\n",
    b"15:2|a 1 A 192.0.2.1^0",
    b"15:3|\n^x",
    b"1:2|\r^|\rx^x|\0^x",
    b"2:2|\\^|\\3^|\\1x^0|\\256^0",
    b"3:2|\"a^|\"a\n^\"|\"a\r\n^\"",
    b"4:2|(^|((^)|)^x",
    b"5:2|$X\n^\n",
];

// Makes a text whose first line is a comment, and whose octets up to the limit end with `within`.
fn fill(text: &mut Vec<u8>, within: &[u8], beyond: &[u8]) -> Result<(), AllocError> {
    text.truncate(MOST_FILE_OCTETS - 100);
    text.resize((MOST_FILE_OCTETS - 1).saturating_sub(within.len()), b';')?;
    text.push(b'\n')?;
    text.extend_from_slice(within)?;
    text.extend_from_slice(beyond)
}

#[test]
fn what_stands_at_the_limit(rt: HostRuntime) -> Result<(), Fail> {
    let mut text = Vec::new(rt.alloc());
    for row in LIMITS {
        let mut ends = row.split(|octet| *octet == b'|');
        let wanted = ends.next().unwrap_or(&[]);
        for end in ends {
            let mut parts = end.split(|octet| *octet == b'^');
            let within = parts.next().unwrap_or(&[]);
            fill(&mut text, within, parts.next().ok_or("a limit")?)?;
            let holds = is_fault(rt.alloc(), fault(rt.alloc(), &text), wanted);
            assert!(rt; holds, "{wanted:?} of {end:?}");
        }
    }
    Ok(())
}

// A file's first octet; the octet that fills the file; and the fault if it is an octet too long.
const LONGEST: &[(u8, u8, (u8, u32))] = &[(b';', b'x', (15, 1)), (b'\n', b'\n', (15, 16_777_217))];

#[test]
fn a_comment_as_long_as_a_file(rt: HostRuntime) -> Result<(), Fail> {
    let mut text = Vec::new(rt.alloc());
    for &(first, other, wanted) in LONGEST {
        text.truncate(0);
        text.push(first)?;
        text.resize(MOST_FILE_OCTETS, other)?;
        assert!(rt; fault(rt.alloc(), &text) == (0, 0), "of {other}");
        text.push(other)?;
        assert!(rt; fault(rt.alloc(), &text) == wanted, "of {other}");
    }
    Ok(())
}

const RECORD: &[u8] = b"a A 192.0.2.1\n";

// The end of a file with `$TTL` and 100,000 records, and the fault.
const LAST: &[(&[u8], (u8, u32))] = &[
    (b"", (0, 0)),
    (b"\n; a A 192.0.2.1\n$TTL 1\n$ORIGIN .\n", (0, 0)),
    (RECORD, (14, 100_002)),
    (b"\n A 192.0.2.1\n", (14, 100_003)),
    (b"a 1 TYPE1 \\# 4 C0000201", (14, 100_002)),
    (b"a A 192.0.2.256", (13, 100_002)),
    (b"a 1 X", (11, 100_002)),
    (b"a 1 CH A 192.0.2.1", (10, 100_002)),
    (b"a..b 1 A 192.0.2.1", (7, 100_002)),
    (b"a A 192.0.2.1 (", (4, 100_002)),
    (b"$X", (5, 100_002)),
];

#[test]
fn what_stands_after_100000_records(rt: HostRuntime) -> Result<(), Fail> {
    for &(last, wanted) in LAST {
        let text = repeated(rt.alloc(), b"$TTL 60\n", (RECORD, 100_000), last)?;
        assert!(rt; fault(rt.alloc(), &text) == wanted, "at {last:?}");
    }
    Ok(())
}
