//! Data that words spell, and faults of words.

use crate::tests::said::{read, spell, word};
use dns_name::Name;
use dns_rdata::{RType, Rdata, RdataFault, Word, read_number};
use std::alloc::{AllocError, Global};
use std::test::Fail;

// A type without a mnemonic.
const ANY: RType = RType(65280);

// One word of a line; here, quoted words contain no space.
fn spelled(word: &[u8]) -> Word<'_> {
    let (raw, quoted) = match word {
        [b'"', raw @ .., b'"'] => (raw, true),
        _ => (word, false),
    };
    Word { raw, quoted }
}

// The words of a line, separated by single spaces.
fn words_of(alloc: Global, line: &[u8]) -> Result<Vec<Word<'_>>, AllocError> {
    let mut words = Vec::new(alloc);
    for word in line.split(|octet| *octet == b' ') {
        words.push(spelled(word))?;
    }
    Ok(words)
}

// Whether a line of words spells these octets, or has this fault.
fn is_read(
    alloc: Global,
    rtype: RType,
    line: &[u8],
    wanted: Result<&[u8], RdataFault>,
) -> Result<bool, AllocError> {
    let words = words_of(alloc, line)?;
    Ok(spell(alloc, rtype, &words, wanted))
}

// The root, `a.example`, and five numbers.
const SOA: &[u8] = b"\0\x01a\x07example\0\0\0\0\x01\0\0\0\0\xff\xff\xff\xff\0\0\0\x02\0\0\0\x03";

// Three numbers, and `ns.`.
const SRV: &[u8] = b"\0\0\xff\xff\0\x35\x02ns\0";

const SAID: &[(RType, &[u8], &[u8])] = &[
    (RType::A, b"192.0.2.1", b"\xc0\0\x02\x01"),
    (RType::A, b"0.0.0.0", b"\0\0\0\0"),
    (RType::A, b"255.255.255.255", b"\xff\xff\xff\xff"),
    (RType::A, b"\\# 4 C0000201", b"\xc0\0\x02\x01"),
    (RType::NS, b"@", b"\x07example\0"),
    (RType::NS, b"Ns", b"\x02ns\x07example\0"),
    (RType::CNAME, b"A\\.b.", b"\x03a.b\0"),
    (RType::SOA, b". a 1 0 4294967295 2 3", SOA),
    (RType::PTR, b".", b"\0"),
    (RType::HINFO, b"\"\" b", b"\0\x01b"),
    (RType::MX, b"10 Mail", b"\0\x0a\x04mail\x07example\0"),
    (RType::MX, b"\\# 5 0001014100", b"\0\x01\x01a\0"),
    (RType::SRV, b"0 65535 53 Ns.", SRV),
    (RType::TXT, b"\"a\\\"b\\009\"", b"\x04a\"b\x09"),
    (RType::TXT, b"A \"\\#\" .", b"\x01A\x01#\x01."),
    (RType::TXT, b"\"\" \\255\\000 \x80", b"\0\x02\xff\0\x01\x80"),
    (ANY, b"\\# 0", b""),
    (ANY, b"\\# 4 C0000201", b"\xc0\0\x02\x01"),
    (ANY, b"\\# 2 abcd", b"\xab\xcd"),
    (ANY, b"\\# 2 ab cd", b"\xab\xcd"),
    (ANY, b"\\# 3 ab CDef", b"\xab\xcd\xef"),
    (ANY, b"\\# 3 aBCd 0F", b"\xab\xcd\x0f"),
    (ANY, b"\\# 3 09aAfF", b"\x09\xaa\xff"),
    (RType(0), b"\\# 2 c00c", b"\xc0\x0c"),
];

#[test]
fn data_that_words_say(rt: HostRuntime) -> Result<(), Fail> {
    for &(rtype, line, wanted) in SAID {
        let holds = is_read(rt.alloc(), rtype, line, Ok(wanted))?;
        assert!(rt; holds, "at {line:?}");
    }
    Ok(())
}

// A type, the code of a fault, and the lines of words that have this fault, each after `|`.
const FAULTS: &[&[u8]] = &[
    b"A 1|x 192.0.2.1",
    b"SOA 1|a..b . 1 2 3 4",
    b"HINFO 1|a",
    b"SOA 2|. . 4294967296 2 3 4 5|. . 1 +2 3 4 5",
    b"MX 2|010 mail|65536 a..b|\"10\" mail",
    b"SRV 2|0 0 -1 a..b",
    b"A 3||192.0.2.256|256.0.2.1|192.0.2.01|\"192.0.2.1\"|192.0.2|192.0.2.1.|192.0.2.1.5",
    b"A 3|192.0..1|.192.0.2|192.0.2.a",
    b"AAAA 3||:|:::|1|1::2::3|00001::|g::|1::2:|::1.2.3.4|\"::\"|:1:2:3:4:5:6:7",
    b"AAAA 3|1:2:3:4:5:6:7|1:2:3:4:5:6:7:|1:2:3:4:5:6:7:8::|1:2:3:4:5:6:7:8:9",
    b"AAAA 3|::1:2:3:4:5:6:7:8|1:2:3:4::5:6:7:8",
    b"NS 4|\"ns\"|\\256",
    b"MX 4|10 a..b",
    b"TXT 5|a \\256|\"\\9\"|\"\\256\"|\"\\12\"|\"\\12a\"|\"a\\\"|\"\\\x7f\"",
    b"A 6|\\#|\\# x|\\# 4|\\# \"4\" c0000201|\\# 4 c000020",
    b"TYPE65280 6||x|\"\\#\" 0|# 0|\\ 0|\\## 0|\\035 0| 0|\\#|\\# |\\# \"0\"",
    b"TYPE65280 6|\\# \"4\" \"C0000201\"|\\# 2|\\# abcd|\\# 3 c000|\\# 1 c000|\\# 04 C0000201",
    b"TYPE65280 6|\\# 2 abcg|\\# 1 0g|\\# 1 g0|\\# 1 0x|\\# 1 @0|\\# 1 \"ab\"|\\# 2 abcd ",
    b"TYPE65280 6|\\# 2 abc d|\\# 0 |\\# +2 abcd|\\# 65536|\\# 65536 abcd",
    b"A 7|\\# 3 c00002|\\# 0",
    b"NS 7|\\# 2 c00c",
];

// Whether a line has the fault of a type that is given with its code, as in `A 1`.
fn has_fault(alloc: Global, fault: &[u8], line: &[u8]) -> Result<bool, AllocError> {
    let [rtype @ .., b' ', code] = fault else {
        return Ok(false);
    };
    let words = words_of(alloc, line)?;
    let found = match RType::read_text(rtype) {
        Some(rtype) => read(alloc, rtype, &words).err(),
        None => None,
    };
    Ok(found.map_or(0, RdataFault::code) == code.saturating_sub(b'0'))
}

#[test]
fn faults_in_their_order(rt: HostRuntime) -> Result<(), Fail> {
    for row in FAULTS {
        let mut lines = row.split(|octet| *octet == b'|');
        let fault = lines.next().unwrap_or(&[]);
        for line in lines {
            let holds = has_fault(rt.alloc(), fault, line)?;
            assert!(rt; holds, "{fault:?} at {line:?}");
        }
    }
    Ok(())
}

// Strings with spaces.
const SPACED: &[(&[u8], &[u8])] = &[(b"a.b c", b"\x05a.b c"), (b"\\.\\ \\\\", b"\x03. \\")];

const LONG: &[u8] = &[b'x'; 256];

#[test]
fn strings(rt: HostRuntime) -> Result<(), Fail> {
    for &(raw, wanted) in SPACED {
        let words = &[word(raw, true)];
        let holds = spell(rt.alloc(), RType::TXT, words, Ok(wanted));
        assert!(rt; holds, "at {raw:?}");
    }
    // A string has at most 255 octets (RFC 1035 3.3).
    let mut longest = Vec::new(rt.alloc());
    longest.push(255)?;
    longest.extend_from_slice(&LONG[..255])?;
    let words = &[word(&LONG[..255], true)];
    assert!(rt; spell(rt.alloc(), RType::TXT, words, Ok(&longest)));
    let words = &[word(LONG, true)];
    assert!(rt; spell(rt.alloc(), RType::TXT, words, Err(RdataFault::BadString)));
    Ok(())
}

// 256 strings of 255 octets make 65,536 octets; one octet less is the longest data.
#[test]
fn most_data(rt: HostRuntime) -> Result<(), Fail> {
    let mut words = Vec::new(rt.alloc());
    for _ in 0..255 {
        words.push(word(&LONG[..255], true))?;
    }
    for (length, wanted) in [(254, None), (255, Some(RdataFault::BadString))] {
        words.push(word(&LONG[..length], true))?;
        let found = Rdata::read_words(rt.alloc(), RType::TXT, words.as_slice(), &Name::root());
        assert!(rt; found.err() == wanted);
        words.pop();
    }
    Ok(())
}

// Data has at most 65,535 octets (RFC 1035 3.2.1).
#[test]
fn longest_octets(rt: HostRuntime) -> Result<(), Fail> {
    let mut octets = Vec::new(rt.alloc());
    octets.resize(65_535, 0xaa)?;
    let mut line = Vec::new(rt.alloc());
    line.extend_from_slice(b"\\# 65535 ")?;
    line.resize(131_079, b'a')?;
    assert!(rt; is_read(rt.alloc(), ANY, &line, Ok(&octets))?);
    line[7] = b'6';
    line.extend_from_slice(b" aa")?;
    assert!(rt; is_read(rt.alloc(), ANY, &line, Err(RdataFault::BadHex))?);
    Ok(())
}

// A type, a word, how many copies of the word are read, and the octets or the fault.
const REPEATED: &[(RType, &[u8], usize, Result<&[u8], RdataFault>)] = &[
    (RType::A, b"192.0.2.1", 1, Ok(b"\xc0\x00\x02\x01")),
    (RType::HINFO, b"ab", 2, Ok(b"\x02ab\x02ab")),
    (RType::MX, b"10", 2, Ok(b"\x00\x0a\x0210\x07example\x00")),
    (RType::TXT, b"a", 4, Ok(b"\x01a\x01a\x01a\x01a")),
    (
        RType::SRV,
        b"1",
        4,
        Ok(b"\0\x01\0\x01\0\x01\x011\x07example\0"),
    ),
    (RType::A, b"a", 0, Err(RdataFault::WordCount)),
    (RType::TXT, b"a", 0, Err(RdataFault::WordCount)),
    (ANY, b"a", 0, Err(RdataFault::BadHex)),
    (RType::NS, b"a..b", 2, Err(RdataFault::WordCount)),
    (RType::SOA, b"a..b", 6, Err(RdataFault::WordCount)),
    (RType::SOA, b".", 70_000, Err(RdataFault::WordCount)),
    (RType::SOA, b".", 7, Err(RdataFault::BadNumber)),
    (RType::HINFO, b"\\256", 2, Err(RdataFault::BadString)),
    (ANY, b"x", 70_000, Err(RdataFault::BadHex)),
    (RType::A, b"\\#", 70_000, Err(RdataFault::BadHex)),
];

#[test]
fn repeated_words(rt: HostRuntime) -> Result<(), Fail> {
    for &(rtype, raw, count, wanted) in REPEATED {
        let mut words = Vec::new(rt.alloc());
        for _ in 0..count {
            words.push(word(raw, false))?;
        }
        assert!(rt; spell(rt.alloc(), rtype, &words, wanted), "at {raw:?}");
    }
    Ok(())
}

// Words, separated by `|`, and the number up to 65,535 that each spells.
const NUMBERS: &[(&[u8], Option<u32>)] = &[
    (b"0", Some(0)),
    (b"9", Some(9)),
    (b"10", Some(10)),
    (b"65535", Some(65535)),
    (b"65536|4294967296|010|00||1a|+1", None),
];

#[test]
fn numbers_read(rt: HostRuntime) {
    for &(words, number) in NUMBERS {
        for word in words.split(|octet| *octet == b'|') {
            assert!(rt; read_number(word, 65535) == number, "at {word:?}");
        }
    }
    assert!(rt; read_number(b"4294967295", u32::MAX) == Some(u32::MAX));
    assert!(rt; read_number(b"4294967296", u32::MAX).is_none());
}
