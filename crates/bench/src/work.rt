//! The work that is measured.
ghost use Rattle.std.specs.Prelude.{IfOk};
ghost use Rattle.dns_spec.specs.Data.{Valid};

use dns_answer::{Limit, TcpBuilder, respond, respond_in};
use dns_name::{Name, Tally};
use dns_rdata::{RType, Rdata, Word};
use dns_tools::{FaultText, load_zone};
use dns_zone::{Steps, Zone};
use std::alloc::{AllocError, Global};
use std::fs;
use std::rt::Files;

/// Does the work of a line `rounds` times, and returns a number of octets: of the data that
/// `read TYPE WORDS` reads or `write TYPE WORDS` writes, or of the reply to `udp FILE NAME TYPE`
/// or `tcp FILE NAME TYPE` from the zone in a file.
pub(crate) fn octets_of_work<R: Files + AllocGlobal>(
    rt: &R,
    line: &str,
    rounds: u32,
) -> Result<usize, FaultText> {
    let alloc = rt.alloc();
    let (work, others) = halves(line);
    let (first, others) = halves(others);
    match work {
        "read" => read_data(alloc, first, others, rounds),
        "write" => write_data(alloc, first, others, rounds),
        "udp" => answer_udp(&zone_of(rt, first)?, &query(alloc, others)?, rounds),
        "tcp" => answer_tcp(alloc, &zone_of(rt, first)?, &query(alloc, others)?, rounds),
        _ => Err(FaultText::Usage),
    }
}

fn halves(text: &str) -> (&str, &str) {
    text.split_once(' ').unwrap_or((text, ""))
}

// The words of data. For TXT they are quoted.
fn words<'a>(alloc: Global, rtype: RType, text: &'a str) -> Result<Vec<Word<'a>>, AllocError> {
    let mut words = Vec::new(alloc);
    for word in text.split(' ') {
        words.push(Word {
            raw: word.as_bytes(),
            quoted: rtype == RType::TXT,
        })?;
    }
    Ok(words)
}

fn type_of(word: &str) -> Result<RType, FaultText> {
    RType::read_text(word.as_bytes()).ok_or(FaultText::Usage)
}

fn read(alloc: Global, rtype: RType, words: &[Word<'_>]) -> Result<Rdata, FaultText>
    ensures { IfOk result (λ d. Valid rtype.0 d) }
{
    let read = Rdata::read_words(alloc, rtype, words, &Name::root());
    read.map_err(|_| FaultText::SourceFailed)
}

fn read_data(alloc: Global, rtype: &str, text: &str, rounds: u32) -> Result<usize, FaultText> {
    let rtype = type_of(rtype)?;
    let words = words(alloc, rtype, text)?;
    let mut octets = 0;
    for _ in 0..rounds {
        octets = read(alloc, rtype, words.as_slice())?.octets().len();
    }
    Ok(octets)
}

fn write_data(alloc: Global, rtype: &str, text: &str, rounds: u32) -> Result<usize, FaultText> {
    let rtype = type_of(rtype)?;
    let rdata = read(alloc, rtype, words(alloc, rtype, text)?.as_slice())?;
    let mut room = Vec::new(alloc);
    for _ in 0..rounds {
        room.truncate(0);
        let mut sink = Tally::new(room);
        let written = Rdata::write_text(rtype, rdata.octets(), &mut sink);
        room = sink.into_inner();
        written.map_err(|_| FaultText::SinkFailed)?;
    }
    Ok(rdata.octets().len())
}

// The zone `example.` in a file.
fn zone_of<R: Files + AllocGlobal>(rt: &R, path: &str) -> Result<Zone, FaultText> {
    let origin = Name::read_text(b"example.", &Name::root())?;
    let text = fs::read_to_string(rt, path).map_err(|_| FaultText::SourceFailed)?;
    let zone = load_zone(rt.alloc(), &origin, &mut Tally::new(text.as_bytes()));
    zone.map_err(|_| FaultText::SourceFailed)
}

fn query(alloc: Global, question: &str) -> Result<Vec<u8>, FaultText> {
    let (name, rtype) = halves(question);
    let name = Name::read_text(name.as_bytes(), &Name::root())?;
    let mut query = Vec::new(alloc);
    query.extend_from_slice(b"\x12\x34\x00\x00\x00\x01\x00\x00\x00\x00\x00\x00")?;
    query.extend_from_slice(name.octets())?;
    query.extend_from_slice(&type_of(rtype)?.0.to_be_bytes())?;
    query.extend_from_slice(b"\x00\x01")?;
    Ok(query)
}

// Answers over UDP with `respond`, which makes a new builder for each reply.
fn answer_udp(zone: &Zone, query: &[u8], rounds: u32) -> Result<usize, FaultText> {
    let mut out = [0; 512];
    let mut octets = 0;
    for _ in 0..rounds {
        let count = respond(&mut Steps::new(zone), query, Limit::Udp, &mut out);
        octets = count.unwrap_or(0);
    }
    looked_at(&out, octets)
}

// Answers over TCP with one builder for all replies, as a server does.
fn answer_tcp(alloc: Global, zone: &Zone, query: &[u8], rounds: u32) -> Result<usize, FaultText> {
    let mut builder = Box::new(alloc, TcpBuilder::new())?;
    let mut octets = 0;
    for round in 0..rounds {
        let reply = respond_in(&mut Steps::new(zone), query, &mut builder).unwrap_or(b"");
        octets = reply.len();
        if round == rounds - 1 {
            looked_at(reply, octets)?;
        }
    }
    Ok(octets)
}

// Checks the last output, so that the compiler can't remove the work: no reply consists only of
// zeros.
fn looked_at(written: &[u8], octets: usize) -> Result<usize, FaultText> {
    if written.iter().all(|octet| *octet == 0) {
        return Err(FaultText::SinkFailed);
    }
    Ok(octets)
}
