//! Calls that allocate memory, and calls that don't. Each appends its result to `said`.

use crate::samples::{CUT_STREAM, QUERIES, STREAM};
use dns_answer::{Limit, respond};
use dns_master::read_zone;
use dns_name::{Name, NameFault, Tally};
use dns_samples_tests::MIXED;
use dns_serve::serve_stream;
use dns_tools::{FaultText, Flags, check_zone};
use dns_zone::{BuildFault, Steps, Zone};
use std::alloc::{AllocError, Global};
use std::str;

/// The origin of all zones here.
pub(crate) fn example() -> Result<Name, NameFault> {
    Name::read_text(b"example", &Name::root())
}

pub(crate) fn check(alloc: Global, said: &mut String) -> Result<(), FaultText> {
    let flags = Flags {
        quiet: false,
        print: true,
    };
    let mut room = [0; 1_024];
    let mut source = Tally::new(MIXED.as_bytes());
    let mut sink = Tally::new(&mut room[..]);
    let outcome = check_zone(alloc, &example()?, flags, &mut source, &mut sink);
    let left = sink.into_inner().len();
    writeln!(said, "check_zone: {outcome:?}")?;
    let text = str::from_utf8(written(&room, left)).unwrap_or("no text");
    Ok(said.push_str(text)?)
}

// The written octets of a buffer that has `left` octets unused.
fn written(room: &[u8], left: usize) -> &[u8] {
    room.get(..room.len().saturating_sub(left)).unwrap_or(&[])
}

pub(crate) fn read_and_build(alloc: Global, said: &mut String) -> Result<(), FaultText> {
    let records = match read_zone(alloc, &example()?, &mut Tally::new(MIXED.as_bytes())) {
        Ok(records) => records,
        Err(fault) => return Ok(writeln!(said, "read_zone: {:?}", fault.code)?),
    };
    let ttl = records.last().map(|record| record.ttl);
    writeln!(said, "read_zone: the last TTL is {ttl:?}")?;
    match Zone::build(alloc, &example()?, records) {
        Ok(zone) => writeln!(said, "build: serial {}", zone.serial())?,
        Err(BuildFault::Faults(_faults)) => said.push_str("build: faults\n")?,
        Err(BuildFault::NoMemory) => said.push_str("build: no memory\n")?,
    }
    Ok(())
}

pub(crate) fn answer_questions(zone: &Zone, said: &mut String) -> Result<(), AllocError> {
    let (mut short, mut long) = ([0; 512], [0; 65_535]);
    for query in QUERIES {
        let length = respond(&mut Steps::new(zone), query, Limit::Udp, &mut short);
        add_digits(said, short.get(..length.unwrap_or(0)).unwrap_or(&[]))?;
        let length = respond(&mut Steps::new(zone), query, Limit::Tcp, &mut long);
        add_digits(said, long.get(..length.unwrap_or(0)).unwrap_or(&[]))?;
    }
    Ok(())
}

pub(crate) fn answer_sessions(zone: &Zone, said: &mut String) -> Result<(), AllocError> {
    for stream in [STREAM, CUT_STREAM] {
        let mut room = [0; 1_024];
        let mut sink = Tally::new(&mut room[..]);
        let answer = serve_stream(zone, &mut Tally::new(stream), &mut sink, 9);
        let left = sink.into_inner().len();
        writeln!(said, "serve_stream: {answer:?}")?;
        add_digits(said, written(&room, left))?;
    }
    Ok(())
}

fn add_digits(said: &mut String, octets: &[u8]) -> Result<(), AllocError> {
    for octet in octets {
        write!(said, "{octet:02x}")?;
    }
    said.push('\n')
}
