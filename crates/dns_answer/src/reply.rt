//! The reply to a datagram (RFC 1034 4.3.2).
ghost use Rattle.std.specs.Prelude.{◌≡◌, ◌↔◌, ◌*◌, ◌≤◌, length, take, IsTrue, IsNone, IfSome};
ghost use Rattle.std.specs.Option.{option_copied, option_map};
ghost use Rattle.dns_spec.specs.Records.{ZoneContents};
ghost use Rattle.dns_spec.specs.Reading.{Spells};
ghost use Rattle.dns_spec.specs.Query.{is_ignored};
ghost use Rattle.dns_spec.specs.Reply.{answered, decide, reply, reply_message, octets_of};
ghost use Rattle.dns_answer.specs.OfferedReply.{empty_reply};
ghost use Rattle.dns_answer.specs.ReplyBuilderForm.{Holds};
ghost use Rattle.dns_answer.specs.Limits.{limit_of};
ghost use Rattle.dns_zone.specs.Starts.{IsBelow};
ghost use Rattle.dns_answer.specs.Replies.{JudgedAs, IsPut, IsHeaded, Costs, Responds, visits_for, names_for, comparisons_for};

use crate::chain::seek;
use crate::reply_builder::ReplyBuilder;
use dns_name::Name;
use dns_wire::{CLASS_IN, Head, QueryRef, QuestionRef, Rcode, query_ref};
use dns_zone::{Sought, Steps};

/// The greatest length of a reply, which depends on the transport.
#[derive(Clone, Copy, Debug, PartialEq, Eq)]
pub enum Limit {
    /// Over UDP: 512 (RFC 1035 4.2.1).
    Udp,
    /// Over TCP: 65,535 (RFC 1035 4.2.2).
    Tcp,
}

impl Limit {
    /// The limit in octets.
    pub fn octets(self) -> usize
        ensures { result ≡ limit_of self }
    {
        match self {
            Limit::Udp => 512,
            Limit::Tcp => 65_535,
        }
    }
}

/// A builder of replies over UDP.
pub type UdpBuilder = ReplyBuilder<256, 512>;

/// A builder of replies over TCP; a value takes about 131,000 octets.
pub type TcpBuilder = ReplyBuilder<8192, 65_535>;

/// Writes the reply to a datagram to the front of `out` and returns its length in octets.
///
/// `None`, with `out` unspecified, if and only if the datagram gets no reply: it is shorter than a
/// header, or is a response. A datagram may contain any octets. The reply follows RFC 1034 4.3.2
/// and RFC 2308, contains as many of the RRsets as fit, from the first one on, and has TC set if an
/// RRset that the answer requires does not fit.
///
/// Preconditions: `steps` is a new walk, with counts of 0, and `out` is as long as the limit.
/// Does not allocate. No name is looked up unless a question is answered.
///
/// Each call first sets all octets of a new builder to 0, which over TCP takes far longer than making
/// a short reply. To answer many messages, keep a builder and call `respond_in`.
#[tactic(auto, using(crate::proofs::SentReplies::put_room, crate::proofs::SentReplies::put_absent, crate::proofs::SentReplies::put_octets, crate::proofs::SentReplies::put_spells, crate::proofs::SentReplies::put_fits))]
pub fn respond(
    steps: &mut Steps<'_>,
    datagram: &[u8],
    limit: Limit,
    out: &mut [u8],
) -> Option<usize>
    requires visits { steps.old.visits ≡ 0 }
    requires comparisons { steps.old.comparisons ≡ 0 }
    requires out { length out.old ≡ limit_of limit }
    ensures absent { IsNone result ↔ IsTrue (is_ignored datagram.now) }

    // The octets, and the message that they spell.
    ensures octets { option_map (λ len. take len out.new) result
        ≡ octets_of steps.old.zone datagram.now (limit_of limit) }
    ensures spells { IfSome result (λ len.
        IfSome (reply steps.old.zone datagram.now (limit_of limit))
        (λ r. Spells (take len out.new) (reply_message r))) }
    ensures fits { IfSome result (λ len. len ≤ limit_of limit) }

    // The cost of what was looked up.
    ensures zone { steps.new.zone ≡ steps.old.zone }
    ensures visits { steps.new.visits
        ≤ visits_for steps.old.zone (decide steps.old.zone datagram.now) }
    ensures visits_a_name { steps.new.visits
        ≤ 128 * names_for steps.old.zone (decide steps.old.zone datagram.now) }
    ensures comparisons { steps.new.comparisons
        ≤ comparisons_for steps.old.zone (decide steps.old.zone datagram.now) steps.new.visits }
{
    match limit {
        Limit::Udp => put_reply(respond_in(steps, datagram, &mut UdpBuilder::new()), out),
        Limit::Tcp => put_reply(respond_in(steps, datagram, &mut TcpBuilder::new()), out),
    }
}

// Copies a reply to the front of `out`, and returns its length.
fn put_reply(reply: Option<&[u8]>, out: &mut [u8]) -> Option<usize>
    requires { IfSome reply (λ o. length o.now ≤ length out.old) }
    ensures { IsPut (option_copied reply.entry) result out.new }
{
    let reply = reply?;
    let (front, _) = out.split_at_mut(reply.len());
    front.copy_from_slice(reply);
    Some(reply.len())
}

/// Makes the reply to a datagram, and returns it, borrowed from the builder: the reply that `respond`
/// writes, with the builder's `SIZE` as the limit. `None` if the datagram gets no reply.
///
/// Nothing of an earlier reply in the builder remains, and the time does not depend on `SIZE`.
///
/// Precondition: `steps` is a new walk, with counts of 0. Does not allocate.
pub fn respond_in<'d, const N: usize, const SIZE: usize>(
    steps: &mut Steps<'_>,
    datagram: &[u8],
    builder: &'d mut ReplyBuilder<N, SIZE>,
) -> Option<&'d [u8]>
    requires visits { steps.old.visits ≡ 0 }
    requires comparisons { steps.old.comparisons ≡ 0 }
    ensures { Responds steps.old steps.new datagram.now SIZE (option_copied result) }
{
    builder.message.clear();
    builder.is_full = false;
    let origin = steps.origin();
    match query_ref(datagram) {
        QueryRef::Absent => return None,
        QueryRef::Refused(head) => builder.message.finish(head),
        QueryRef::Query(head, question) => {
            builder.message.put_question(&question);
            let head = match judge(&question, origin) {
                Err(rcode) => head.reply(false, false, rcode),
                Ok(sought) => put_answer(steps, &head, &question, sought, builder),
            };
            builder.message.finish(head);
        }
    }
    Some(builder.message.octets())
}

// The name to seek, or the RCODE of a refusal: the question's class is tested first, then its
// type, then its name.
fn judge<'q>(question: &QuestionRef<'q>, origin: &Name) -> Result<Sought<'q>, Rcode>
    ensures { (z : ZoneContents) → z.origin ≡ origin.now → JudgedAs z question.now result }
{
    if question.qclass != CLASS_IN {
        return Err(Rcode::Refused);
    }
    // A QTYPE that is not a type of records: 0, OPT, or 128 to 254 (RFC 6895 3.1).
    if matches!(question.qtype, 0 | 41 | 128..=254) {
        return Err(Rcode::NotImplemented);
    }
    Sought::below(&question.name, &origin.borrowed()).ok_or(Rcode::Refused)
}

// Offers the sets of an answer to a builder that contains only the question, and returns the header.
fn put_answer<'q, 'z: 'q, const N: usize, const SIZE: usize>(
    steps: &mut Steps<'z>,
    head: &Head,
    question: &QuestionRef<'q>,
    sought: Sought<'q>,
    builder: &mut ReplyBuilder<N, SIZE>,
) -> Head
    requires begun { Holds builder.old (empty_reply question.now SIZE) }
    requires visits { steps.old.visits ≡ 0 }
    requires comparisons { steps.old.comparisons ≡ 0 }
    requires asked { sought.name ≡ question.now.qname }
    requires below { IsBelow sought steps.old.zone.origin }
    ensures reply { IsHeaded steps.old.zone SIZE (answered head.now question.now) builder.new result }
    ensures costs { Costs (answered head.now question.now) steps.old steps.new }
{
    let apex = steps.apex();
    let (verdict, followed_alias) = seek(sought, question.qtype, &apex, steps, builder);
    // AA is set, unless the reply is only a referral (RFC 1035 4.1.1).
    let only_refers = verdict.is_referral && !followed_alias;
    head.reply(!only_refers, verdict.is_truncated, verdict.rcode)
}
