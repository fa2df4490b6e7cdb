//! Entries of many words. The reader keeps no more words than a valid entry may have.

use super::reading::{fault, repeated};
use super::records::means;
use std::alloc::{AllocError, Global};
use std::test::Fail;

const PIECE: usize = 4_096;

// Separators of words inside parentheses, used in turn.
const BETWEEN: &[&[u8]] = &[b" ", b"\t \n", b" ; c ( \" \\\n ", b"\r\n"];

// A TXT record of `count` different strings of three octets each, and what it means.
fn strings(alloc: Global, count: usize) -> Result<(Vec<u8>, Vec<u8>), AllocError> {
    let mut text = b"a 1 TXT (".to_vec(alloc)?;
    let mut meant = b"\x01a\x07example\0 1 16 ".to_vec(alloc)?;
    for number in 0..count {
        let digits = [number / 100, number / 10, number].map(last_digit);
        let mark: &[u8] = if number % 3 == 0 { b"\"" } else { b"" };
        text.extend_from_slice(BETWEEN[number % 4])?;
        text.extend_from_slice(mark)?;
        text.extend_from_slice(&digits)?;
        text.extend_from_slice(mark)?;
        meant.push(3)?;
        meant.extend_from_slice(&digits)?;
    }
    text.extend_from_slice(b" )\n")?;
    meant.push(b'\n')?;
    Ok((text, meant))
}

// A record of an unknown type with 300 octets of data, each a word of its own, and what it means.
fn hex_words(alloc: Global) -> Result<(Vec<u8>, Vec<u8>), AllocError> {
    let mut text = b"a 1 TYPE65280 ( \\# 300".to_vec(alloc)?;
    let mut meant = b"\x01a\x07example\0 1 65280 ".to_vec(alloc)?;
    for number in 0..300_usize {
        text.extend_from_slice(BETWEEN[number % 4])?;
        text.extend_from_slice(&[number / 16, number].map(last_hex_digit))?;
        meant.push((number % 256) as u8)?;
    }
    text.extend_from_slice(b" )\n")?;
    meant.push(b'\n')?;
    Ok((text, meant))
}

fn last_digit(number: usize) -> u8 {
    b"0123456789"[number % 10]
}

fn last_hex_digit(number: usize) -> u8 {
    b"0123456789abcdef"[number % 16]
}

#[test]
fn records_of_many_words(rt: HostRuntime) -> Result<(), Fail> {
    for count in [10, 11, 12, 13, 14, 15, 16, 17, 18, 19, 20, 300] {
        let (text, meant) = strings(rt.alloc(), count)?;
        assert!(rt; means(rt.alloc(), &text, &meant), "{count} strings");
    }
    let (text, meant) = hex_words(rt.alloc())?;
    assert!(rt; means(rt.alloc(), &text, &meant));
    Ok(())
}

#[test]
fn a_record_of_300_strings_across_the_end_of_a_piece(rt: HostRuntime) -> Result<(), Fail> {
    let (text, meant) = strings(rt.alloc(), 300)?;
    for within in [1, 9, 10, 150, 151, 152, 153, 1_000, 2_000] {
        let all = repeated(rt.alloc(), b"", (b"\n", PIECE - within), &text)?;
        assert!(rt; means(rt.alloc(), &all, &meant), "from {within}");
    }
    Ok(())
}

// The beginning of an entry, a word, how often the word follows, and the fault of the entry. The
// first entry has as many words as a valid entry may have.
const MOST: &[(&[u8], (&[u8], usize), (u8, u32))] = &[
    (b"\na 1 IN TYPE1000 \\# 65535", (b" aa", 65_535), (0, 0)),
    (b"\na 1 IN TYPE1000 \\# 65535", (b" aa", 65_536), (13, 2)),
    (b"\na 1 IN TYPE1000 \\# 65535", (b" aa", 70_000), (13, 2)),
    (b"\na 1 IN TXT", (b" a", 32_767), (0, 0)),
    (b"\na 1 IN TXT", (b" a", 70_000), (13, 2)),
    (b"\na..b 1 IN TXT", (b" a", 70_000), (7, 2)),
    (b"\n$ORIGIN", (b" a", 70_000), (6, 2)),
];

#[test]
fn entries_of_the_most_words(rt: HostRuntime) -> Result<(), Fail> {
    for &(first, words, wanted) in MOST {
        let text = repeated(rt.alloc(), first, words, b"")?;
        assert!(rt; fault(rt.alloc(), &text) == wanted, "at {first:?}");
    }
    Ok(())
}
