//! Worked replies that are read, and written again set by set with several hashes.
ghost use Rattle.std.specs.Prelude.{◌≡◌};

use crate::tests::reading::reply;
use dns_rdata::Rdata;
use dns_samples_tests::{OneRecord, REPLIES, RING, Reply, services, strings};
use dns_wire::{QuickHash, Section, SuffixHash, WireRecord, Writer, read_message};
use std::test::Fail;

/// Gives all suffixes the same hash, so that chains are chosen by length alone.
#[derive(Drop)]
struct OneChain;

impl SuffixHash for OneChain {
    ghost hashes = { λ _ _. 0 };

    fn hash_of(&mut self, _suffix: &[u8]) -> u16 {
        0
    }
}

/// A hash that counts its calls.
#[derive(Drop)]
struct CountingHash {
    calls: u32,
}

impl SuffixHash for CountingHash {
    ghost use Rattle.std.specs.Prelude.{◌%◌, length};

    ghost hashes = { λ _ s. length s % 1024 };

    fn hash_of(&mut self, suffix: &[u8]) -> u16 {
        self.calls = self.calls.saturating_add(1);
        (suffix.len() % 1024) as u16
    }
}

// Replies in addition to `REPLIES`.
const MORE: &[Reply<'static>] = &[
    RING,
    // The question's first label is `a`, the octet 3 and `www`. The octets of `www.example` are in
    // the question's name, but do not begin at a label. So only `example` is shared.
    Reply {
        name: "a name inside a label of the question",
        question: b"\x05a\x03www\x07example\0\0\x01\0\x01",
        head: b"\x12\x34\x84\0\0\x01\0\x01\0\0\0\0",
        records: &[b"\x03www\xc0\x12\0\x01\0\x01\0\0\x0e\x10\0\x04\xc0\0\x02\x01"],
    },
    // The names of two exchanges differ only in the last label before `example`: as they are laid
    // out, just before the pointers that end them.
    Reply {
        name: "names of many labels",
        question: b"\x01q\x07example\0\0\x0f\0\x01",
        head: b"\x12\x34\x84\0\0\x01\0\x02\0\0\0\x02",
        records: &[
            b"\xc0\x0c\0\x0f\0\x01\0\0\x0e\x10\0\x2f\0\x01",
            b"\x01a\x01a\x01a\x01a\x01a\x01a\x01a\x01a\x01a\x01a",
            b"\x01a\x01a\x01a\x01a\x01a\x01a\x01a\x01a\x01a\x01a\x02x1\xc0\x0e",
            b"\xc0\x0c\0\x0f\0\x01\0\0\x0e\x10\0\x2f\0\x02",
            b"\x01a\x01a\x01a\x01a\x01a\x01a\x01a\x01a\x01a\x01a",
            b"\x01a\x01a\x01a\x01a\x01a\x01a\x01a\x01a\x01a\x01a\x02x2\xc0\x0e",
            b"\xc0\x29\0\x01\0\x01\0\0\x0e\x10\0\x04\xc0\0\x02\x01",
            b"\xc0\x64\0\x01\0\x01\0\0\x0e\x10\0\x04\xc0\0\x02\x02",
        ],
    },
    ADDRESSES,
];

// Two addresses of a name whose first label does not appear before them.
const ADDRESSES: Reply<'static> = Reply {
    name: "two addresses",
    question: b"\x01u\x07example\0\0\x10\0\x01",
    head: b"\x12\x34\x84\0\0\x01\0\x02\0\0\0\0",
    records: &[
        b"\x01b\xc0\x0c\0\x01\0\x01\0\0\x0e\x10\0\x04\xc0\0\x02\x01",
        b"\xc0\x1b\0\x01\0\x01\0\0\x0e\x10\0\x04\xc0\0\x02\x02",
    ],
};

// A response with one record, at the owner of `ADDRESSES`, which does not fit 512 octets there.
const TOO_LONG: Reply<'static> = Reply {
    name: "strings that do not fit",
    question: b"",
    head: b"\x12\x34\x84\0\0\0\0\x01\0\0\0\0",
    records: &[
        b"\x01b\x01u\x07example\0\0\x10\0\x01\0\0\x0e\x10\x01\xda\xff",
        &[b'a'; 255],
        b"\xd9",
        &[b'a'; 217],
    ],
};

// Offers each record as a set of its own. Returns whether all of them fit or, if `has_room` is
// false, none.
fn offer<H: SuffixHash>(
    rt: HostRuntime,
    writer: &mut Writer<'_, H>,
    section: Section,
    records: &[WireRecord],
    has_room: bool,
) -> bool
    ensures { writer.new.builder.limit ≡ writer.old.builder.limit }
{
    'records: for record in records {
        let (rtype, ttl) = (record.rtype, record.ttl);
        let Ok(rdata) = Rdata::from_wire(rt.alloc(), rtype, &record.rdata) else {
            return false;
        };
        let set = OneRecord { rtype, ttl, rdata };
        if writer.put_set(section, &record.owner, ttl, &set) != has_room {
            return false;
        }
    }
    true
}

// Whether the octets of a reply are written again when its records are offered in order. The
// records `refused`, which do not fit, are offered as well before and after them.
fn is_written<H: SuffixHash>(
    rt: HostRuntime,
    hash: &mut H,
    octets: &[u8],
    refused: &[WireRecord],
) -> Result<bool, Fail> {
    let message = read_message(rt.alloc(), octets)?;
    let limit = if octets.len() <= 512 { 512 } else { 65_535 };
    let mut out = vec![in rt.alloc(); 0; limit]?;
    let mut writer = Writer::new(limit, message.questions.first(), hash);
    let are_offered = offer(rt, &mut writer, Section::Answer, refused, false)
        && offer(rt, &mut writer, Section::Answer, &message.answers, true)
        && offer(
            rt,
            &mut writer,
            Section::Authority,
            &message.authorities,
            true,
        )
        && offer(
            rt,
            &mut writer,
            Section::Additional,
            &message.additionals,
            true,
        )
        && offer(rt, &mut writer, Section::Answer, refused, false);
    let length = writer.finish(message.head, &mut out);
    Ok(are_offered && out.get(..length) == Some(octets))
}

// Whether a reply is written again with each hash.
fn is_written_by_each(
    rt: HostRuntime,
    octets: &[u8],
    refused: &[WireRecord],
) -> Result<bool, Fail> {
    Ok(
        is_written(rt, &mut OneChain, octets, refused)?
            && is_written(rt, &mut QuickHash, octets, refused)?
            && is_written(rt, &mut CountingHash { calls: 0 }, octets, refused)?,
    )
}

#[test]
fn octets_do_not_depend_on_the_hash(rt: HostRuntime) -> Result<(), Fail> {
    for reply in REPLIES.iter().chain(MORE) {
        let octets = reply.octets(rt.alloc())?;
        assert!(rt; is_written_by_each(rt, &octets, &[])?, "{}", reply.name);
    }
    assert!(rt; is_written_by_each(rt, &strings(rt.alloc())?, &[])?);
    assert!(rt; is_written_by_each(rt, &services(rt.alloc())?, &[])?);
    Ok(())
}

#[test]
fn suffixes_of_the_question_are_not_hashed(rt: HostRuntime) -> Result<(), Fail> {
    let mut counting = CountingHash { calls: 0 };
    let wildcard = reply(rt.alloc(), "a wildcard")?;
    assert!(rt; is_written(rt, &mut counting, &wildcard, &[])?);
    assert!(rt; counting.calls == 0);
    assert!(rt; is_written(rt, &mut counting, &RING.octets(rt.alloc())?, &[])?);
    assert!(rt; counting.calls > 0);
    Ok(())
}

#[test]
fn a_refused_set_leaves_nothing(rt: HostRuntime) -> Result<(), Fail> {
    let refused = read_message(rt.alloc(), &TOO_LONG.octets(rt.alloc())?)?.answers;
    assert!(rt; refused.len() == 1);
    let octets = ADDRESSES.octets(rt.alloc())?;
    assert!(rt; is_written_by_each(rt, &octets, &refused)?);
    Ok(())
}
