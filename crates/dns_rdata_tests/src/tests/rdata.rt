ghost use Rattle.std.specs.Prelude.{◌≡◌, IfOk};
ghost use Rattle.dns_spec.specs.Data.{Valid};

use crate::tests::said::SOA;
use dns_rdata::Part::{self, Name, Octets};
use dns_rdata::{RType, Rdata};
use std::alloc::{AllocError, Global};
use std::test::Fail;

// `SOA` in lower case.
const SOA_LOWERED: &[u8] =
    b"\x02ns\0\x04mail\x01x\0\0\0\0\x01\0\0\x1c\x20\0\0\x03\x84\0\x12\x75\0\0\0\x01\x2c";

// Types; octets, separated by `|`; and the octets of the data that is read from them, with names in
// lower case, or `None` if they are invalid.
const OCTETS: &[(RType, &[u8], Option<&[u8]>)] = &[
    (RType::A, b"ABCD", Some(b"ABCD")),
    (RType::NS, b"\0", Some(b"\0")),
    (RType::CNAME, b"\x01A\0", Some(b"\x01a\0")),
    (RType::PTR, b"\x01A\x02Bc\0", Some(b"\x01a\x02bc\0")),
    (RType::SOA, SOA, Some(SOA_LOWERED)),
    (RType::HINFO, b"\x01A\0", Some(b"\x01A\0")),
    (
        RType::MX,
        b"\0\x0a\x02Ma\x01A\0",
        Some(b"\0\x0a\x02ma\x01a\0"),
    ),
    (RType::TXT, b"\x02AB\0\x01C", Some(b"\x02AB\0\x01C")),
    (RType::AAAA, b"ABCDEFGHIJKLMNOP", Some(b"ABCDEFGHIJKLMNOP")),
    (RType::SRV, b"AAAAAA\x01A\0", Some(b"AAAAAA\x01a\0")),
    (RType(65), b"\x03ABC", Some(b"\x03ABC")),
    (RType(65), b"", Some(b"")),
    (RType(0), b"\xc0\x0c", Some(b"\xc0\x0c")),
    (RType::A, b"ABC|ABCDE", None),
    (RType::NS, b"|\0\0|\x01A|\x02A\0|\xc0\x0c|\x40\0", None),
    (RType::CNAME, b"\x01A\xc0\x0c", None),
    (RType::HINFO, b"\x01A|\x01A\x01A\0", None),
    (RType::MX, b"\0\x0a|\0\x0a\x01A\0\0", None),
    (RType::TXT, b"|\x02A", None),
    (RType::AAAA, b"ABCDEFGHIJKLMNO", None),
    (RType::SRV, b"AAAAAA|AAAAAA\xc0\x0c", None),
];

// Whether octets are read as data `wanted` or, if that is `None`, fail with `NotOfType`.
fn is_data(alloc: Global, rtype: RType, octets: &[u8], wanted: Option<&[u8]>) -> bool {
    match Rdata::from_wire(alloc, rtype, octets) {
        Ok(data) => wanted == Some(data.octets()),
        Err(fault) => wanted.is_none() && fault.code() == 7,
    }
}

#[test]
fn octets_of_types(rt: HostRuntime) {
    for &(rtype, rows, wanted) in OCTETS {
        for octets in rows.split(|octet| *octet == b'|') {
            let holds = is_data(rt.alloc(), rtype, octets, wanted);
            assert!(rt; holds, "of {rtype:?} at {octets:?}");
        }
    }
    let cut = &SOA[..SOA.len() - 1];
    assert!(rt; is_data(rt.alloc(), RType::SOA, cut, None));
}

// `octets`, followed by a name of 127 labels.
fn name_after(alloc: Global, octets: &[u8]) -> Result<Vec<u8>, AllocError> {
    let mut name = Vec::new(alloc);
    name.extend_from_slice(octets)?;
    for _ in 0..127 {
        name.extend_from_slice(b"\x01A")?;
    }
    name.push(0)?;
    Ok(name)
}

// A name has at most 255 octets (RFC 1035 2.3.4), and data at most 65,535 (RFC 1035 3.2.1).
#[test]
fn longest_data(rt: HostRuntime) -> Result<(), Fail> {
    let name = name_after(rt.alloc(), b"")?;
    assert!(rt; Rdata::from_wire(rt.alloc(), RType::NS, &name).is_ok());
    let longer = name_after(rt.alloc(), b"\x02B")?;
    assert!(rt; Rdata::from_wire(rt.alloc(), RType::NS, &longer).is_err());
    let mut data = Vec::new(rt.alloc());
    data.resize(65_535, 0)?;
    assert!(rt; Rdata::from_wire(rt.alloc(), RType(65), &data).is_ok());
    data.push(0)?;
    assert!(rt; Rdata::from_wire(rt.alloc(), RType(65), &data).is_err());
    Ok(())
}

// The parts of data, joined: the data itself.
fn joined(alloc: Global, rtype: RType, octets: &[u8]) -> Result<Vec<u8>, AllocError>
    requires { Valid rtype.0 octets.now }
    ensures { IfOk result (λ v. v.items ≡ octets.now) }
{
    let mut joined = Vec::new(alloc);
    'parts: for part in Rdata::parts(rtype, octets) {
        match part {
            Octets(run) => joined.extend_from_slice(run)?,
            Name(name) => joined.extend_from_slice(name)?,
        }
    }
    Ok(joined)
}

fn are_parts(rtype: RType, octets: &[u8], wanted: &[Part<'_>]) -> bool
    requires { Valid rtype.0 octets.now }
{
    let mut parts = Rdata::parts(rtype, octets);
    for part in wanted {
        if parts.next() != Some(*part) {
            return false;
        }
    }
    parts.next().is_none()
}

// Whether the data that these parts make has these parts, and the first name of them as its target.
fn has_parts(alloc: Global, rtype: RType, wanted: &[Part<'_>]) -> Result<bool, AllocError> {
    let (mut octets, mut target) = (Vec::new(alloc), None);
    for part in wanted {
        match part {
            Octets(run) => octets.extend_from_slice(run)?,
            Name(name) => {
                octets.extend_from_slice(name)?;
                target = target.or(Some(*name));
            }
        }
    }
    if Rdata::from_wire(alloc, rtype, &octets).is_err() {
        return Ok(false);
    }
    Ok(
        joined(alloc, rtype, &octets)? == octets
            && are_parts(rtype, &octets, wanted)
            && Rdata::target(rtype, &octets).map(|name| name.octets()) == target,
    )
}

const PARTS: &[(RType, &[Part<'static>])] = &[
    (RType::MX, &[Octets(b"\0\x0a"), Name(b"\x04Mail\x01A\0")]),
    (RType::HINFO, &[Octets(b"\x01A"), Octets(b"\x02BC")]),
    (
        RType::SOA,
        &[
            Name(b"\x02ns\0"),
            Name(b"\x04mAIL\x01x\0"),
            Octets(b"\0\0\0\x01"),
            Octets(b"\0\0\x1c\x20"),
            Octets(b"\0\0\x03\x84"),
            Octets(b"\0\x12\x75\0"),
            Octets(b"\0\0\x01\x2c"),
        ],
    ),
    (
        RType::SRV,
        &[
            Octets(b"AA"),
            Octets(b"BB"),
            Octets(b"CC"),
            Name(b"\x01A\0"),
        ],
    ),
    (RType::TXT, &[Octets(b"\x01A\0\x02BC")]),
    (RType(65), &[Octets(b"\x01A\0")]),
    (RType(65), &[Octets(b"")]),
];

#[test]
fn parts_in_order(rt: HostRuntime) -> Result<(), Fail> {
    for &(rtype, wanted) in PARTS {
        assert!(rt; has_parts(rt.alloc(), rtype, wanted)?, "of {rtype:?}");
    }
    Ok(())
}

#[test]
fn numbers_of_an_soa(rt: HostRuntime) -> Result<(), Fail> {
    let Ok(_) = Rdata::from_wire(rt.alloc(), RType::SOA, SOA) else {
        return Err("data of its type".into());
    };
    assert!(rt; Rdata::soa_serial(SOA) == 1);
    assert!(rt; Rdata::soa_minimum(SOA) == 300);
    Ok(())
}
