//! Worked replies longer than 16,384 octets, in which pointers do not reach the last names.

use std::alloc::{AllocError, Global};

/// The question `x.example. IN TXT`.
pub const STRINGS: &[u8] = b"\x01x\x07example\0\0\x10\0\x01";

/// The question `y.example. IN SRV`.
pub const SERVICES: &[u8] = b"\x01y\x07example\0\0\x21\0\x01";

// The two digits of a number below 100.
fn digits(number: u8) -> [u8; 2] {
    [b'0' + number / 10 % 10, b'0' + number % 10]
}

/// A reply with 64 strings, each of which ends with its number.
pub fn strings(alloc: Global) -> Result<Vec<u8>, AllocError> {
    let mut octets = [b"\x12\x34\x84\0\0\x01\0\x40\0\0\0\0", STRINGS].concat(alloc)?;
    for number in 0..64_u8 {
        octets.extend_from_slice(b"\xc0\x0c\0\x10\0\x01\0\0\x0e\x10\x01\0\xff")?;
        octets.extend_from_slice(&[b'a'; 253])?;
        octets.extend_from_slice(&digits(number))?;
    }
    Ok(octets)
}

/// Appends records with the addresses 198.51.100.1 to 198.51.100.64. The first record has the owner
/// `first`, and each later record has the owner `others`.
pub fn put_addresses(octets: &mut Vec<u8>, first: &[u8], others: &[u8]) -> Result<(), AllocError> {
    for last in 1..65_u8 {
        octets.extend_from_slice(if last == 1 { first } else { others })?;
        octets.extend_from_slice(b"\0\x01\0\x01\0\0\x0e\x10\0\x04\xc6\x33\x64")?;
        octets.extend_from_slice(&[last])?;
    }
    Ok(())
}

/// A reply with 17 services, and the addresses of their targets `t10` to `t26`. The first owner of
/// a target's addresses is spelled out, and the later ones are pointers to it. The addresses of
/// `t26` begin at offset 17,002, which no pointer can reach, so each of their owners is spelled.
pub fn services(alloc: Global) -> Result<Vec<u8>, AllocError> {
    let mut octets = [b"\x12\x34\x84\0\0\x01\0\x11\0\0\x04\x40", SERVICES].concat(alloc)?;
    for number in 10..27_u8 {
        octets.extend_from_slice(b"\xc0\x0c\0\x21\0\x01\0\0\x0e\x10\0\x13")?;
        octets.extend_from_slice(b"\0\x01\0\x02\0\x35\x03t")?;
        octets.extend_from_slice(&digits(number))?;
        octets.extend_from_slice(b"\x07example\0")?;
    }
    for number in 0..17_u8 {
        let [high, low] = digits(number + 10);
        let first = [3, b't', high, low, 0xc0, 0x0e];
        let pointer = (0xc000 | 554 + 1_028 * u16::from(number)).to_be_bytes();
        let others: &[u8] = if number < 16 { &pointer } else { &first };
        put_addresses(&mut octets, &first, others)?;
    }
    Ok(octets)
}
