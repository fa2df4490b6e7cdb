//! Reads queries: a header and one question (RFC 1035 4.1).
ghost use Rattle.std.specs.Prelude.{◌≡◌, ◌+◌, ◌≤◌, length, IfSome, IsNone, None};
ghost use Rattle.dns_spec.specs.ComputedNames.{name_at};
ghost use Rattle.dns_spec.specs.Reading.{field16};
ghost use Rattle.dns_spec.specs.Query.{reply_head, question_at, query_read};
ghost use Rattle.dns_wire.specs.QueryForm.{as_borrowed, as_read, code_of, NameEnds};

use crate::message::{HEADER_OCTETS, Head, Question, QuestionRef};
use byteorder::{BigEndian, ByteOrder};
use dns_name::NameRef;

/// A datagram read as a query.
#[derive(Drop)]
pub enum QueryRead {
    /// A datagram that is shorter than a header, or is a response. It gets no reply.
    Absent,
    /// A query that is malformed or unsupported. The reply is this header alone.
    Refused(Head),
    /// A query: its header and its question, both as received.
    Query(Head, Question),
}

/// A datagram read as a query, with the question borrowed from it.
#[derive(Drop)]
pub enum QueryRef<'d> {
    /// A datagram that is shorter than a header, or is a response. It gets no reply.
    Absent,
    /// A query that is malformed or unsupported. The reply is this header alone.
    Refused(Head),
    /// A query: its header and its question, both as received.
    Query(Head, QuestionRef<'d>),
}

// The most octets of a label (RFC 1035 2.3.4).
const MOST_LABEL: usize = 63;

// The last offset at which the final octet of the question's name may be, since the name has at
// most 255 octets (RFC 1035 2.3.4).
const LAST_ROOT: usize = HEADER_OCTETS + 254;

/// The RCODE of a reply (RFC 1035 4.1.1).
#[derive(Clone, Copy, Debug, PartialEq, Eq)]
pub enum Rcode {
    /// No error.
    NoError = 0,
    /// The query can't be parsed.
    FormatError = 1,
    /// The name doesn't exist.
    NameError = 3,
    /// This kind of query is not supported.
    NotImplemented = 4,
    /// This query is refused.
    Refused = 5,
}

impl Rcode {
    /// The number of this RCODE in a header.
    pub fn code(self) -> u16
        ensures { result ≡ code_of self }
    {
        self as u16
    }
}

impl Head {
    /// The header of the reply to a query with this header (RFC 1035 4.1.1): the same ID, opcode
    /// and RD, with QR set, and AA, TC and RCODE as given. RA and Z are 0.
    pub fn reply(&self, authoritative: bool, truncated: bool, rcode: Rcode) -> Head
        ensures { result ≡ reply_head self.now authoritative truncated (code_of rcode) }
    {
        let opcode = self.flags / 0x800 % 16;
        let recursion_desired = self.flags / 0x100 % 2;
        let authoritative = if authoritative { 0x400 } else { 0 };
        let truncated = if truncated { 0x200 } else { 0 };
        Head {
            id: self.id,
            flags: 0x8000
                + opcode * 0x800
                + authoritative
                + truncated
                + recursion_desired * 0x100
                + rcode.code(),
        }
    }
}

/// Reads a datagram of any octets as a query (RFC 1035 4.1).
///
/// `Absent` for fewer than 12 octets and for responses. `Refused` with RCODE 4 if the opcode is not
/// 0; else with RCODE 1 if the counts are not 1, 0, 0, 0 or the octets after the header are not
/// exactly one question.
pub fn read_query(datagram: &[u8]) -> QueryRead
    ensures { as_read result ≡ query_read datagram.now }
{
    match query_ref(datagram) {
        QueryRef::Absent => QueryRead::Absent,
        QueryRef::Refused(head) => QueryRead::Refused(head),
        QueryRef::Query(head, question) => QueryRead::Query(head, question.to_question()),
    }
}

// Inlining saves 62 instructions per reply.
/// Reads a datagram as a query, as `read_query` does. The question is borrowed from the datagram,
/// so no name is copied.
#[tactic(auto, unfolding(dns_spec::specs::Query::query_read))]
#[inline(always)]
pub fn query_ref(datagram: &[u8]) -> QueryRef<'_>
    ensures { as_borrowed result ≡ query_read datagram.now }
{
    if datagram.len() < HEADER_OCTETS || field(datagram, 2) / 0x8000 >= 1 {
        return QueryRef::Absent;
    }
    let head = Head {
        id: field(datagram, 0),
        flags: field(datagram, 2),
    };
    if head.flags / 0x800 % 16 != 0 {
        return QueryRef::Refused(head.reply(false, false, Rcode::NotImplemented));
    }
    if field(datagram, 4) != 1
        || field(datagram, 6) != 0
        || field(datagram, 8) != 0
        || field(datagram, 10) != 0
    {
        return QueryRef::Refused(head.reply(false, false, Rcode::FormatError));
    }
    match question_ref(datagram) {
        None => QueryRef::Refused(head.reply(false, false, Rcode::FormatError)),
        Some(question) => QueryRef::Query(head, question),
    }
}

// The 16 bits at an offset (RFC 1035 2.3.2).
fn field(datagram: &[u8], at: usize) -> u16
    requires { at + 2 ≤ length datagram.now }
    ensures { result ≡ field16 datagram.now at }
{
    BigEndian::read_u16(&datagram[at..])
}

// The question, if the octets after the header are exactly one question.
#[tactic(auto, unfolding(dns_spec::specs::Query::question_at))]
#[inline(always)]
fn question_ref(datagram: &[u8]) -> Option<QuestionRef<'_>>
    ensures { result ≡ question_at datagram.now }
{
    let end = name_end(datagram)?;
    if datagram.len() != end + 4 {
        return None;
    }
    Some(QuestionRef {
        name: NameRef::new(&datagram[HEADER_OCTETS..end]),
        qtype: field(datagram, end),
        qclass: field(datagram, end + 2),
    })
}

// The offset after the name that follows the header; `None` if no valid name does. A pointer is
// never valid in this name, since it would have to lead to an offset before the name and after the
// header (RFC 1035 4.1.4).
fn name_end(datagram: &[u8]) -> Option<usize>
    ensures some { IfSome result (λ end. NameEnds datagram.now end) }
    ensures none { IsNone result → name_at datagram.now 12 ≡ None }
{
    let mut at = HEADER_OCTETS;
    'labels: while at < datagram.len() {
        let length = datagram[at] as usize;
        if length == 0 {
            return Some(at + 1);
        }
        let next = at + 1 + length;
        if length > MOST_LABEL || next > datagram.len() || next > LAST_ROOT {
            return None;
        }
        at = next;
    }
    None
}
