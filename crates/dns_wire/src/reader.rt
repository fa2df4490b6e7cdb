//! Reads messages from octets (RFC 1035 4.1).
ghost use Rattle.std.specs.Prelude.{◌≡◌, ◌≤◌, ◌<◌, length, Some, None, IfOk, IfErr, IsErr};
ghost use Rattle.dns_spec.specs.MessageFaults.{MessageFault, QuestionFault, RecordFault, SeveralFault};
ghost use Rattle.dns_spec.specs.Reading.{Spells, NoMessage, several, message_question_at, message_record_at};
ghost use Rattle.dns_wire.specs.Read.{HeaderAt};
ghost use Rattle.dns_wire.specs.WireFault.{UnlessNoMemory, fault_code};

use crate::data::read_data;
use crate::message::{Counts, HEADER_OCTETS, Head, Message, Question, WireRecord};
use crate::name::read_name;
use crate::number::{read_u16, read_u32};
use crate::wire_fault::WireFault;
use dns_rdata::RType;
use std::alloc::Global;

// What is read, and the offset after it.
type Read<T> = Result<(T, usize), WireFault>;

/// The message that the octets spell, all of them.
///
/// If they spell no message, fails with the first fault from the left. Fails with `NoMemory` only
/// if an allocation fails.
#[tactic(auto, unfolding(dns_spec::specs::Reading::message_at))]
pub fn read_message(alloc: Global, octets: &[u8]) -> Result<Message, WireFault>
    ensures ok { IfOk result (λ message. Spells octets.now message) }
    ensures err { IfErr result (λ fault. UnlessNoMemory fault (NoMessage octets.now)) }
    ensures fault { IfErr result
        (λ fault. UnlessNoMemory fault (MessageFault octets.now (fault_code fault))) }
{
    let (head, counts) = read_header(octets)?;
    let (questions, at) = read_questions(alloc, octets, counts.questions, HEADER_OCTETS)?;
    let (answers, at) = read_records(alloc, octets, counts.answers, at)?;
    let (authorities, at) = read_records(alloc, octets, counts.authorities, at)?;
    let (additionals, at) = read_records(alloc, octets, counts.additionals, at)?;
    if at != octets.len() {
        return Err(WireFault::Trailing);
    }
    Ok(Message {
        head,
        questions,
        answers,
        authorities,
        additionals,
    })
}

fn read_header(octets: &[u8]) -> Result<(Head, Counts), WireFault>
    ensures ok { IfOk result (λ read. HeaderAt octets.now read.0 read.1) }
    ensures err { IfErr result (λ fault. length octets.now < 12) }
    ensures fault { IfErr result (λ fault. fault_code fault ≡ 1) }
{
    if octets.len() < HEADER_OCTETS {
        return Err(WireFault::Short);
    }
    let head = Head {
        id: read_u16(octets, 0)?,
        flags: read_u16(octets, 2)?,
    };
    let counts = Counts {
        questions: read_u16(octets, 4)?,
        answers: read_u16(octets, 6)?,
        authorities: read_u16(octets, 8)?,
        additionals: read_u16(octets, 10)?,
    };
    Ok((head, counts))
}

#[tactic(auto, using(crate::proofs::ReadLemmas::read_none, crate::proofs::ReadLemmas::read_more, crate::proofs::ReadLemmas::read_end, crate::proofs::ReadLemmas::fault_more, crate::proofs::ReadLemmas::fault_here))]
fn read_questions(alloc: Global, message: &[u8], count: u16, at: usize) -> Read<Vec<Question>>
    requires { at ≤ length message.now }
    ensures ok { IfOk result
        (λ read. several (message_question_at message.now) count at ≡ Some (read.0.items, read.1)) }
    ensures within { IfOk result (λ read. read.1 ≤ length message.now) }
    ensures err { IfErr result (λ fault. UnlessNoMemory fault
        (several (message_question_at message.now) count at ≡ None)) }
    ensures fault { IfErr result (λ fault. UnlessNoMemory fault
        (SeveralFault (message_question_at message.now) (QuestionFault message.now) count at
        (fault_code fault))) }
{
    let mut offset = at;
    let mut questions = Vec::new(alloc);
    'questions: for _ in 0..count {
        let (question, after) = read_question(message, offset)?;
        questions.push(question)?;
        offset = after;
    }
    Ok((questions, offset))
}

fn read_question(message: &[u8], at: usize) -> Read<Question>
    requires { at ≤ length message.now }
    ensures ok { IfOk result
        (λ read. message_question_at message.now at ≡ Some (read.0, read.1)) }
    ensures within { IfOk result (λ read. read.1 ≤ length message.now) }
    ensures err { IsErr result → message_question_at message.now at ≡ None }
    ensures fault { IfErr result (λ fault. QuestionFault message.now at (fault_code fault)) }
{
    let (name, at) = read_name(message, at)?;
    let question = Question {
        name,
        qtype: read_u16(message, at)?,
        qclass: read_u16(message, at + 2)?,
    };
    Ok((question, at + 4))
}

#[tactic(auto, using(crate::proofs::ReadLemmas::read_none, crate::proofs::ReadLemmas::read_more, crate::proofs::ReadLemmas::read_end, crate::proofs::ReadLemmas::fault_more, crate::proofs::ReadLemmas::fault_here))]
fn read_records(alloc: Global, message: &[u8], count: u16, at: usize) -> Read<Vec<WireRecord>>
    requires { at ≤ length message.now }
    ensures ok { IfOk result
        (λ read. several (message_record_at message.now) count at ≡ Some (read.0.items, read.1)) }
    ensures within { IfOk result (λ read. read.1 ≤ length message.now) }
    ensures err { IfErr result (λ fault. UnlessNoMemory fault
        (several (message_record_at message.now) count at ≡ None)) }
    ensures fault { IfErr result (λ fault. UnlessNoMemory fault
        (SeveralFault (message_record_at message.now) (RecordFault message.now) count at
        (fault_code fault))) }
{
    let mut offset = at;
    let mut records = Vec::new(alloc);
    'records: for _ in 0..count {
        let (record, after) = read_record(alloc, message, offset)?;
        records.push(record)?;
        offset = after;
    }
    Ok((records, offset))
}

fn read_record(alloc: Global, message: &[u8], at: usize) -> Read<WireRecord>
    requires { at ≤ length message.now }
    ensures ok { IfOk result
        (λ read. message_record_at message.now at ≡ Some (read.0, read.1)) }
    ensures within { IfOk result (λ read. read.1 ≤ length message.now) }
    ensures err { IfErr result
        (λ fault. UnlessNoMemory fault (message_record_at message.now at ≡ None)) }
    ensures fault { IfErr result
        (λ fault. UnlessNoMemory fault (RecordFault message.now at (fault_code fault))) }
{
    let (owner, at) = read_name(message, at)?;
    let rtype = RType(read_u16(message, at)?);
    let rclass = read_u16(message, at + 2)?;
    let ttl = read_u32(message, at + 4)?;
    let length = usize::from(read_u16(message, at + 8)?);
    let at = at + 10;
    if length > message.len() - at {
        return Err(WireFault::Short);
    }
    let end = at + length;
    let rdata = read_data(alloc, message, rtype, rclass, at, end)?;
    let record = WireRecord {
        owner,
        rtype,
        rclass,
        ttl,
        rdata,
    };
    Ok((record, end))
}
