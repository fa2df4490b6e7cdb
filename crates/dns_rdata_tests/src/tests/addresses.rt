use crate::tests::said::{read, spell, word, written};
use dns_rdata::RType;
use std::alloc::{AllocError, Global};
use std::test::Fail;

// Words, and the groups of the addresses that they spell.
const IPV6: &[(&[u8], &[u16])] = &[
    (b"1:0:2:3:4:5:6:7", &[1, 0, 2, 3, 4, 5, 6, 7]),
    (b"2001:DB8:0:0:1:0:0:1", &[0x2001, 0xdb8, 0, 0, 1, 0, 0, 1]),
    (b"1:2:3:4:5:6:7::", &[1, 2, 3, 4, 5, 6, 7, 0]),
    (b"::2:3:4:5:6:7:8", &[0, 2, 3, 4, 5, 6, 7, 8]),
    (b"::", &[0, 0, 0, 0, 0, 0, 0, 0]),
    (b"::1", &[0, 0, 0, 0, 0, 0, 0, 1]),
    (b"1::", &[1, 0, 0, 0, 0, 0, 0, 0]),
    (b"1::8", &[1, 0, 0, 0, 0, 0, 0, 8]),
    (b"0001:ffFF::", &[1, 0xffff, 0, 0, 0, 0, 0, 0]),
    (b"a:b:c:d:e:f:0:0", &[0xa, 0xb, 0xc, 0xd, 0xe, 0xf, 0, 0]),
];

// Whether a word spells the address with these groups.
fn has_groups(alloc: Global, raw: &[u8], groups: &[u16]) -> Result<bool, AllocError> {
    let mut octets = Vec::new(alloc);
    for group in groups {
        octets.extend_from_slice(&group.to_be_bytes())?;
    }
    let words = &[word(raw, false)];
    Ok(spell(alloc, RType::AAAA, words, Ok(&octets)))
}

#[test]
fn ipv6_read(rt: HostRuntime) -> Result<(), Fail> {
    for &(raw, groups) in IPV6 {
        assert!(rt; has_groups(rt.alloc(), raw, groups)?, "at {raw:?}");
    }
    Ok(())
}

// Addresses in the form in which they are written (RFC 5952 4), separated by `|`.
const IPV6_WRITTEN: &[u8] = b"::|::1|1::|1:0:0:2:3::|::2:3:4:5:6:7|a::b:c:0:0|1:0:2:3:4:5:6:7|\
    1:2:3:4:5:6:7:0|ffff:1fff:1ff:1f:f:fff0:ff00:f000";

// Whether the address that a word spells is written as this word.
fn is_written_as_read(alloc: Global, raw: &[u8]) -> bool {
    let words = &[word(raw, false)];
    match read(alloc, RType::AAAA, words) {
        Ok(address) => written(alloc, RType::AAAA, address.octets()).as_slice() == raw,
        Err(_) => false,
    }
}

#[test]
fn ipv6_written(rt: HostRuntime) {
    for raw in IPV6_WRITTEN.split(|octet| *octet == b'|') {
        assert!(rt; is_written_as_read(rt.alloc(), raw), "at {raw:?}");
    }
}
