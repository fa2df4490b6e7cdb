//! Files read in pieces of 4,096 octets: entries in two pieces, and the piece that decides a fault.

use super::reading::{by, fault, fault_of, repeated};
use super::records::{MIXED_MEANS, has_records};
use dns_name::Tally;
use dns_samples_tests::{MIXED, Pieces};
use std::alloc::{AllocError, Global};
use std::test::Fail;

const PIECE: usize = 4_096;

// Texts, and the fault of each file that begins with them, whatever follows.
const DECIDED: &[(&[u8], (u8, u32))] = &[
    (b"$INCLUDE x\n", (5, 1)),
    (b"a 1 A 192.0.2.1\n\0", (1, 2)),
    (b"\n\n\\256", (2, 3)),
    (b"a 1 TXT \"a\n", (3, 1)),
    (b"()\n)", (4, 2)),
    (b"( ; ( \n (", (4, 1)),
    (b"a A 192.0.2.1\n", (12, 1)),
    (b"a..b 1 A 192.0.2.1\r\n", (7, 1)),
    (b"a 1 A (\n192.0.2.256 )\n", (13, 1)),
];

// A comment line of `length` octets, and a text after it.
fn after_comment(alloc: Global, length: usize, text: &[u8]) -> Result<Vec<u8>, AllocError> {
    let mut all = b";".repeat(alloc, length.saturating_sub(1))?;
    all.push(b'\n')?;
    all.extend_from_slice(text)?;
    Ok(all)
}

// The fault of a text, 12,288 newlines after it, whose source fails at its end; and the number of
// octets that were read.
fn taken(alloc: Global, text: &[u8]) -> Result<((u8, u32), usize), AllocError> {
    let whole = repeated(alloc, text, (b"\n", 12_288), b"")?;
    let calls = u32::try_from(whole.len().div_ceil(PIECE)).unwrap_or(u32::MAX);
    let mut source = Tally::new(Pieces::new(&whole, usize::MAX, calls));
    let fault = fault_of(alloc, &mut source);
    let rest = source.into_inner().text;
    Ok((fault, whole.len().saturating_sub(rest.len())))
}

#[test]
fn a_fault_is_reported_in_the_piece_that_decides_it(rt: HostRuntime) -> Result<(), Fail> {
    for &(begin, wanted) in DECIDED {
        let found = taken(rt.alloc(), begin)?;
        assert!(rt; found == (wanted, PIECE), "at {begin:?}");
    }
    // The line end of the entry is the last octet of a piece, or the first of the next.
    for (length, wanted) in [
        (4_093, 4_096),
        (4_094, 8_192),
        (8_189, 8_192),
        (8_190, 12_288),
    ] {
        let text = after_comment(rt.alloc(), length, b"$X\n")?;
        let found = taken(rt.alloc(), &text)?;
        assert!(rt; found == ((5, 2), wanted), "after {length} octets");
    }
    // After a failed attempt, an entry is read again only when twice as many octets are held.
    let text = repeated(rt.alloc(), b"$X (", (b"\n", 8_190), b")\n")?;
    assert!(rt; taken(rt.alloc(), &text)? == ((5, 1), 16_384));
    Ok(())
}

#[test]
fn a_file_from_sources_of_few_octets(rt: HostRuntime) -> Result<(), Fail> {
    let text = after_comment(rt.alloc(), 9_000, MIXED.as_bytes())?;
    for most in [1, 2, 4_095, 4_096, 4_097] {
        let holds = has_records(rt.alloc(), by(&text, most), MIXED_MEANS);
        assert!(rt; holds, "{most} octets");
    }
    Ok(())
}

#[test]
fn entries_that_cross_the_end_of_a_piece_at_each_octet(rt: HostRuntime) -> Result<(), Fail> {
    for within in 0..=MIXED.len() {
        let text = after_comment(rt.alloc(), PIECE.saturating_sub(within), MIXED.as_bytes())?;
        let holds = has_records(rt.alloc(), text.as_slice(), MIXED_MEANS);
        assert!(rt; holds, "from {within}");
    }
    Ok(())
}

#[test]
fn faults_that_cross_the_end_of_a_piece_at_each_octet(rt: HostRuntime) -> Result<(), Fail> {
    for &(begin, (code, line)) in DECIDED {
        for within in 0..=begin.len() {
            let text = after_comment(rt.alloc(), PIECE.saturating_sub(within), begin)?;
            let holds = fault(rt.alloc(), &text) == (code, line.saturating_add(1));
            assert!(rt; holds, "at {begin:?} from {within}");
        }
    }
    Ok(())
}
