//! Messages, their questions and their records.
ghost use Rattle.std.specs.Prelude.{◌≡◌};
ghost use Rattle.dns_spec.specs.Data.{Valid};
ghost use Rattle.dns_wire.specs.Read.{data_type};

use dns_name::{Name, NameRef};
use dns_rdata::RType;
use std::marker::Model;

/// The class of the Internet (RFC 1035 3.2.4).
pub const CLASS_IN: u16 = 1;

/// The number of octets of a header (RFC 1035 4.1.1).
pub(crate) const HEADER_OCTETS: usize = 12;

/// A header without its counts: the ID, and 16 bits of QR, opcode, AA, TC, RD, RA, Z and RCODE (RFC
/// 1035 4.1.1).
#[derive(Drop)]
pub struct Head {
    /// The identifier that a reply repeats.
    pub id: u16,
    /// The bits from QR to RCODE.
    pub flags: u16,
}

impl Model for Head {
    ghost use Rattle.dns_spec.specs.Reading.{Header};

    ghost Value = { Header };

    ghost view = { λ h. record { id = h.id; flags = h.flags } };
}

/// The numbers of questions and records in a header, by section (RFC 1035 4.1.1).
#[derive(Clone, Copy, Default)]
pub(crate) struct Counts {
    pub(crate) questions: u16,
    pub(crate) answers: u16,
    pub(crate) authorities: u16,
    pub(crate) additionals: u16,
}

/// A question: the name in the case received, and the numbers of the type and the class asked for
/// (RFC 1035 4.1.2).
#[derive(Drop)]
pub struct Question {
    /// The name asked for.
    pub name: Name,
    /// The type asked for.
    pub qtype: u16,
    /// The class asked for.
    pub qclass: u16,
}

impl Model for Question {
    ghost use Rattle.dns_spec.specs.Reading.{MessageQuestion};

    ghost Value = { MessageQuestion };

    ghost view = { λ q. record { qname = q.name; qtype = q.qtype; qclass = q.qclass } };
}

impl Question {
    /// The question, borrowed.
    pub fn borrowed(&self) -> QuestionRef<'_>
        ensures { result ≡ self.now }
    {
        QuestionRef {
            name: self.name.borrowed(),
            qtype: self.qtype,
            qclass: self.qclass,
        }
    }
}

/// A question whose name is borrowed.
#[derive(Drop)]
pub struct QuestionRef<'a> {
    /// The name asked for.
    pub name: NameRef<'a>,
    /// The type asked for.
    pub qtype: u16,
    /// The class asked for.
    pub qclass: u16,
}

impl<'a> Model for QuestionRef<'a> {
    ghost use Rattle.dns_spec.specs.Reading.{MessageQuestion};

    ghost Value = { MessageQuestion };

    ghost view = { λ q. record { qname = q.name; qtype = q.qtype; qclass = q.qclass } };
}

impl QuestionRef<'_> {
    /// An owned question with the same name, type and class. Does not allocate.
    pub fn to_question(&self) -> Question
        ensures { result ≡ self.now }
    {
        Question {
            name: self.name.to_name(),
            qtype: self.qtype,
            qclass: self.qclass,
        }
    }
}

/// A record of a message (RFC 1035 4.1.3).
#[derive(Drop)]
pub struct WireRecord {
    /// The owner name, in the case received.
    pub owner: Name,
    /// The type.
    pub rtype: RType,
    /// The class.
    pub rclass: u16,
    /// The TTL in seconds, as received.
    pub ttl: u32,
    /// The data: octets without compression, with names in the case received.
    pub rdata: Vec<u8>,
}

impl Model for WireRecord {
    ghost use Rattle.dns_spec.specs.Reading.{MessageRecord};
    ghost use Rattle.dns_wire.specs.Read.{IsWireData};

    ghost Value = { MessageRecord };

    ghost view = { λ r. record {
      owner = r.owner;
      rtype = r.rtype.0;
      rclass = r.rclass;
      ttl = r.ttl;
      rdata = r.rdata.items;
    } };

    ghost invariant = { λ r. IsWireData r.rtype.0 r.rclass r.rdata.items };
}

impl WireRecord {
    /// The type that the data is valid for. In a class other than IN it is 0, a type without a
    /// mnemonic, whose data is any octets (RFC 3597 3).
    pub fn data_type(&self) -> RType
        ensures value { result.0 ≡ data_type self.now.rtype self.now.rclass }
        ensures valid { Valid result.0 self.now.rdata }
    {
        if self.rclass == CLASS_IN {
            self.rtype
        } else {
            RType(0)
        }
    }
}

/// A message (RFC 1035 4.1). Its counts are the lengths of its lists.
#[derive(Drop)]
pub struct Message {
    /// The header without its counts.
    pub head: Head,
    /// The questions.
    pub questions: Vec<Question>,
    /// The records of the answer section.
    pub answers: Vec<WireRecord>,
    /// The records of the authority section.
    pub authorities: Vec<WireRecord>,
    /// The records of the additional section.
    pub additionals: Vec<WireRecord>,
}

impl Model for Message {
    ghost use Rattle.dns_spec.specs.Reading.{DnsMessage};

    ghost Value = { DnsMessage };

    ghost view = { λ m. record {
      header = m.head;
      questions = m.questions.items;
      answers = m.answers.items;
      authorities = m.authorities.items;
      additionals = m.additionals.items;
    } };
}
