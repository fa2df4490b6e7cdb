//! Hostile files, and entries of many words, of which the reader keeps only the first ones.

use super::reading::{by, fault, fault_of, repeated};
use dns_name::Tally;
use std::test::Fail;

// The first part of a file; the text that is repeated after it, and how often; the last part; and
// the fault as code and line, 0 and 0 if there is none.
type Hostile<'a> = (&'a [u8], &'a [u8], usize, &'a [u8], (u8, u32));

const FILES: &[Hostile<'static>] = &[
    (b"", b"(", 1_000_000, b"", (4, 1)),
    (b"", b"(\n", 1_000_000, b"", (4, 1)),
    (b"", b")", 1_000_000, b"", (4, 1)),
    (b"", b"()", 1_000_000, b"", (0, 0)),
    (b"", b"( ) ; (\n", 1_000_000, b"", (0, 0)),
    (b"(", b"\n", 1_000_000, b"", (4, 1)),
    (b"(", b"a\n", 1_000_000, b"", (4, 1)),
    (b"", b"\\", 1_000_001, b"", (2, 1)),
    (b"", b"\\", 1_000_000, b"", (7, 1)),
    (b"", b"\\1", 1_000_000, b"", (2, 1)),
    (b"", b"\\111", 1_000_000, b"", (7, 1)),
    (b"", b"a", 16_777_216, b"", (7, 1)),
    (b"", b"a.", 8_388_608, b"", (7, 1)),
    (b"a 1 TXT ", b"a", 1_000_000, b"", (13, 1)),
    (b"a 1 TXT \"", b"a", 1_000_000, b"", (3, 1)),
    (b"a 1 TXT", b" \"\"", 65_535, b"", (0, 0)),
    (b"a 1 TXT", b" \"\"", 65_536, b"", (13, 1)),
    (b"a 1 TYPE65280 \\# 65535", b" 00", 65_535, b"", (0, 0)),
    (b"a 1 TYPE65280 \\# 65535", b" 00", 65_536, b"", (13, 1)),
    (b"a 1", b" 1", 1_000_000, b"", (11, 1)),
    (b"a", b" IN", 1_000_000, b"", (11, 1)),
    (b"a ", b"1", 1_000_000, b"", (9, 1)),
    (b"", b"\0", 1_000_000, b"", (1, 1)),
    (b";", b"\0", 1_000_000, b"", (0, 0)),
    (b"", b"\r", 1_000_000, b"", (1, 1)),
    (b"", b"\"", 65_535, b"", (3, 1)),
    (b"", b"\"", 65_534, b"", (7, 1)),
    (b"", b"$TTL 1\n", 100_000, b"", (0, 0)),
    (b"", b" ", 16_777_216, b"", (0, 0)),
    // `example.` has 9 octets, and each label has two more; a name has at most 255.
    (b"", b"$ORIGIN a\n", 100_000, b"", (6, 124)),
    (b"", b"$ORIGIN a\n", 123, b"", (0, 0)),
    (b"", b"a.", 127, b" 60 A 192.0.2.1", (0, 0)),
    (b"", b"a.", 128, b" 60 A 192.0.2.1", (7, 1)),
    (b"$TTL 1", b" 1", 40, b"\n", (6, 1)),
    (b"$ORIGIN a", b" 1", 40, b"\n", (6, 1)),
    (b"a 1 TXT", b" 1", 40, b" \\256\n", (2, 1)),
    (b"a 1 TXT", b" 1", 40, b" )\n", (4, 1)),
    (b"a 1 TXT", b" 1", 40, b" \"b\n", (3, 1)),
    (b"a 1 A 192.0.2.1", b" 1", 40, b"\n", (13, 1)),
];

#[test]
fn files_that_are_written_to_do_harm(rt: HostRuntime) -> Result<(), Fail> {
    for &(begin, piece, times, end, wanted) in FILES {
        let text = repeated(rt.alloc(), begin, (piece, times), end)?;
        let whole = fault(rt.alloc(), &text);
        let by_octets = fault_of(rt.alloc(), &mut Tally::new(by(&text, 1)));
        let holds = whole == wanted && by_octets == wanted;
        assert!(rt; holds, "at {piece:?} after {begin:?}");
    }
    Ok(())
}

// RFC 1035 3.3: a string has at most 255 octets.
#[test]
fn a_string_that_is_too_long_after_those_that_are_kept(rt: HostRuntime) -> Result<(), Fail> {
    let begin = repeated(rt.alloc(), b"a 1 TXT (", (b" b\n", 40), b"")?;
    for (length, wanted) in [(255, (0, 0)), (256, (13, 1))] {
        let text = repeated(rt.alloc(), &begin, (b"c", length), b" d )\n")?;
        assert!(rt; fault(rt.alloc(), &text) == wanted, "for {length} octets");
    }
    Ok(())
}
