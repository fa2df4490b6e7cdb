use crate::tests::plain::plain_message;
use dns_samples_tests::REPLIES;
use dns_wire::{Message, Question, WireFault, WireRecord, read_message};
use std::alloc::{AllocError, Global};
use std::test::Fail;

/// The worked reply with this name.
pub(crate) fn reply(alloc: Global, name: &str) -> Result<Vec<u8>, Fail> {
    let reply = REPLIES.iter().find(|reply| reply.name == name);
    Ok(reply.ok_or("a reply")?.octets(alloc)?)
}

// The reply "a name error" with names whole, and without the length of the SOA's data.
const NAME_ERROR_READ: &[u8] =
    b"\x12\x34\x84\x03\0\x01\0\0\0\x01\0\0\x04nope\x07example\0\0\x01\0\x01\
    \x07example\0\0\x06\0\x01\0\0\x01\x2c\x02ns\x07example\0\x0ahostmaster\x07example\0\
    \0\0\0\x01\0\0\x1c\x20\0\0\x03\x84\0\x12\x75\0\0\0\x01\x2c";

// The place of each pointer in the reply "a name error", and the place where its run of labels
// begins.
const POINTERS: &[(usize, u16)] = &[(30, 30), (45, 42), (58, 47)];

// What octets spell if they are a message, in the form of `plain_message`; or their fault's code.
fn read(alloc: Global, octets: &[u8]) -> Result<Vec<u8>, u8> {
    let mut spelled = Vec::new(alloc);
    match read_message(alloc, octets) {
        Ok(message) if put_message(&mut spelled, &message).is_ok() => Ok(spelled),
        Ok(_) => Err(WireFault::NoMemory.code()),
        Err(fault) => Err(fault.code()),
    }
}

fn put_message(octets: &mut Vec<u8>, message: &Message) -> Result<(), AllocError> {
    put_number(octets, usize::from(message.head.id))?;
    put_number(octets, usize::from(message.head.flags))?;
    put_number(octets, message.questions.len())?;
    let sections = [&message.answers, &message.authorities, &message.additionals];
    for records in sections {
        put_number(octets, records.len())?;
    }
    for question in &message.questions {
        put_question(octets, question)?;
    }
    for records in sections {
        for record in records {
            put_record(octets, record)?;
        }
    }
    Ok(())
}

fn put_number(octets: &mut Vec<u8>, number: usize) -> Result<(), AllocError> {
    let number = u16::try_from(number).unwrap_or(u16::MAX);
    octets.extend_from_slice(&number.to_be_bytes())
}

fn put_question(octets: &mut Vec<u8>, question: &Question) -> Result<(), AllocError> {
    octets.extend_from_slice(question.name.octets())?;
    octets.extend_from_slice(&question.qtype.to_be_bytes())?;
    octets.extend_from_slice(&question.qclass.to_be_bytes())
}

fn put_record(octets: &mut Vec<u8>, record: &WireRecord) -> Result<(), AllocError> {
    octets.extend_from_slice(record.owner.octets())?;
    octets.extend_from_slice(&record.rtype.0.to_be_bytes())?;
    octets.extend_from_slice(&record.rclass.to_be_bytes())?;
    octets.extend_from_slice(&record.ttl.to_be_bytes())?;
    octets.extend_from_slice(record.rdata.as_slice())
}

// The code of the fault of octets, or 0 if they are a message.
fn fault(alloc: Global, octets: &[u8]) -> u8 {
    read_message(alloc, octets).err().map_or(0, WireFault::code)
}

// A copy of `octets` in which `others` replaces as many octets from `place` on.
fn changed(
    alloc: Global,
    octets: &[u8],
    place: usize,
    others: &[u8],
) -> Result<Vec<u8>, AllocError> {
    let mut changed = Vec::new(alloc);
    changed.extend_from_slice(octets.get(..place).unwrap_or(octets))?;
    changed.extend_from_slice(others)?;
    let end = changed.len();
    changed.extend_from_slice(octets.get(end..).unwrap_or(&[]))?;
    Ok(changed)
}

// The type of the data of the first record of authority.
fn data_type(alloc: Global, octets: &[u8]) -> Option<u16> {
    let message = read_message(alloc, octets).ok()?;
    let record = message.authorities.first()?;
    Some(record.data_type().0)
}

#[test]
fn a_message_is_read(rt: HostRuntime) -> Result<(), Fail> {
    let octets = reply(rt.alloc(), "a name error")?;
    assert!(rt; read(rt.alloc(), &octets)?.as_slice() == NAME_ERROR_READ);
    assert!(rt; data_type(rt.alloc(), &octets) == Some(6));
    Ok(())
}

const CHANGES: &[(&str, usize, &[u8], u8)] = &[
    ("a pointer into the header", 30, b"\x0b", 3),
    ("a pointer to itself", 30, b"\x1d", 3),
    ("reserved bits", 12, b"\x43", 2),
    ("other reserved bits", 12, b"\x80", 2),
    ("a count of two answers", 7, b"\x02", 1),
    ("no answer", 7, b"\0", 6),
    ("a length of five", 40, b"\x05", 1),
    ("a length of three", 40, b"\x03", 5),
    ("another class, whose data is octets", 34, b"\x02", 0),
    ("an octet after the record", 45, b"\0", 6),
    ("five octets of an address", 40, b"\x05\xc0\0\x02\x0a\0", 5),
];

#[test]
fn faults_by_what_is_changed(rt: HostRuntime) -> Result<(), Fail> {
    let answer = reply(rt.alloc(), "an address")?;
    for &(name, place, octets, wanted) in CHANGES {
        let octets = changed(rt.alloc(), &answer, place, octets)?;
        assert!(rt; fault(rt.alloc(), &octets) == wanted, "{name}");
    }
    assert!(rt; WireFault::NoMemory.code() == 7);
    Ok(())
}

// The type and class of a record of the root; its data; and the fault of a response with it, or 0.
const DATA: &[(u8, u8, &[u8], u8)] = &[
    (1, 3, b"\x01\x02\x03", 0),
    (1, 1, b"\x01\x02\x03", 5),
    (16, 1, b"", 5),
    (15, 1, b"\0", 5),
];

#[test]
fn data_by_class_and_type(rt: HostRuntime) -> Result<(), Fail> {
    for &(rtype, class, data, wanted) in DATA {
        let length = u8::try_from(data.len()).unwrap_or(0);
        let mut octets = b"\x12\x34\x84\0\0\0\0\x01\0\0\0\0\0".to_vec(rt.alloc())?;
        octets.extend_from_slice(&[0, rtype, 0, class, 0, 0, 0, 1, 0, length])?;
        octets.extend_from_slice(data)?;
        let holds = fault(rt.alloc(), &octets) == wanted;
        assert!(rt; holds, "type {rtype}, class {class}");
    }
    Ok(())
}

#[test]
fn beginnings_are_short(rt: HostRuntime) -> Result<(), Fail> {
    for name in ["an address", "a name error"] {
        let octets = reply(rt.alloc(), name)?;
        for count in 0..octets.len() {
            assert!(rt; fault(rt.alloc(), &octets[..count]) == 1, "{count} octets");
        }
    }
    Ok(())
}

// Whether the plain reader and `read_message` agree. The fault may have another code than 3 only if
// the changed pointer leads to a place before its own run.
fn is_plain(alloc: Global, octets: &[u8], is_before: bool) -> bool {
    match (plain_message(alloc, octets), read(alloc, octets)) {
        (Some(plain), Ok(read)) => plain == read,
        (None, Err(code)) => is_before || code == 3,
        _ => false,
    }
}

#[test]
fn pointers_to_each_place(rt: HostRuntime) -> Result<(), Fail> {
    let name_error = reply(rt.alloc(), "a name error")?;
    for &(place, run) in POINTERS {
        for target in 0..0x4000_u16 {
            let pointer = (0xc000 + target).to_be_bytes();
            let octets = changed(rt.alloc(), &name_error, place, &pointer)?;
            let is_before = target >= 12 && target < run;
            let holds = is_plain(rt.alloc(), &octets, is_before);
            assert!(rt; holds, "{place} to {target}");
        }
    }
    Ok(())
}

// The pointer at place 30 leads to 29: a label of the octet c0, a label of 29 octets, and the root.
#[test]
fn a_label_of_pointer_octets(rt: HostRuntime) -> Result<(), Fail> {
    let name_error = reply(rt.alloc(), "a name error")?;
    let octets = changed(rt.alloc(), &name_error, 31, b"\x1d")?;
    assert!(rt; octets.get(29..32) == Some(b"\x01\xc0\x1d".as_slice()));
    let read = read(rt.alloc(), &octets).ok().ok_or("a message")?;
    assert!(rt; read.get(30..63) == octets.get(29..62));
    Ok(())
}

// A message with one question, whose name has `count` labels of one octet.
fn question_of_labels(alloc: Global, count: usize) -> Result<Vec<u8>, AllocError> {
    let labels = b"\x01\0".repeat(alloc, count)?;
    let head = b"\0\0\0\0\0\x01\0\0\0\0\0\0";
    [head, labels.as_slice(), b"\0\0\0\0\0"].concat(alloc)
}

#[test]
fn long_names(rt: HostRuntime) -> Result<(), Fail> {
    for (count, wanted) in [(127, 0), (128, 4)] {
        let octets = question_of_labels(rt.alloc(), count)?;
        assert!(rt; fault(rt.alloc(), &octets) == wanted, "{count} labels");
    }
    Ok(())
}
