//! How the answer for the last name sought ends (RFC 1034 4.3.2 step 3, RFC 2308).
ghost use Rattle.std.specs.Prelude.{◌≡◌, ◌*◌, ◌≤◌, length};
ghost use Rattle.dns_spec.specs.Names.{DomainName};
ghost use Rattle.dns_spec.specs.Answer.{referral_to, negative};
ghost use Rattle.dns_spec.specs.Sets.{HasValidData};
ghost use Rattle.dns_wire.specs.QueryForm.{code_of};
ghost use Rattle.dns_answer.specs.Walks.{IsApex, IsBelowCut, HasNodesLeft};
ghost use Rattle.dns_answer.specs.Ending.{Ends, TookTargets, IsPlain, EndsWith, TookWith};

use crate::addresses::{Side, offer_addresses};
use crate::reply_builder::ReplyBuilder;
use dns_rdata::{RType, Rdata, SetView};
use dns_wire::{Rcode, Section};
use dns_zone::{Node, RecordSet, Steps};

/// What the header states about an answer.
#[derive(Clone, Copy)]
pub(crate) struct Verdict {
    pub(crate) rcode: Rcode,
    /// Whether the answer for the last name sought is a referral.
    pub(crate) is_referral: bool,
    /// Whether a required set did not fit.
    pub(crate) is_truncated: bool,
}

/// Refers the client to the servers of a cut: offers the cut's NS set, then the addresses of the
/// servers at or below the cut, then those of all other servers (RFC 1034 4.3.2 step 3b).
// Inlining saves 52 instructions of a referral.
#[inline(always)]
pub(crate) fn refer<'z, const N: usize, const SIZE: usize>(
    cut: &Node<'z>,
    apex: &Node<'z>,
    steps: &mut Steps<'z>,
    builder: &mut ReplyBuilder<N, SIZE>,
) -> Verdict
    requires apex { IsApex steps.old.zone apex.now }
    requires cut { (n : DomainName) × IsBelowCut steps.old.zone n cut.now }
    requires room { HasNodesLeft steps.old (128 * 128) }
    ensures ends { Ends builder.old builder.new steps.old.zone
        (referral_to steps.old.zone cut.now.name) result }
    ensures took { TookTargets steps.old steps.new (referral_to steps.old.zone cut.now.name) }
{
    let Some(servers) = cut.set(RType::NS) else {
        unreachable!();
    };
    let Some(owner) = cut.owner() else {
        unreachable!();
    };
    builder.offer(Section::Authority, &owner, servers.ttl(), &servers);
    let are_all_inside = offer_addresses(&servers, Side::Inside(&owner), cut, steps, builder);
    let is_truncated = builder.is_full();
    if !are_all_inside {
        offer_addresses(&servers, Side::Outside(&owner), apex, steps, builder);
    }
    Verdict {
        rcode: Rcode::NoError,
        is_referral: true,
        is_truncated,
    }
}

/// Gives a negative answer: offers the zone's SOA, with the lesser of its TTL and its MINIMUM as
/// TTL (RFC 2308 3, 5).
// Inlining saves 36 instructions of a name error.
#[inline(always)]
pub(crate) fn deny<const N: usize, const SIZE: usize>(
    rcode: Rcode,
    apex: &Node<'_>,
    steps: &Steps<'_>,
    builder: &mut ReplyBuilder<N, SIZE>,
) -> Verdict
    requires apex { IsApex apex.now.zone apex.now }
    requires zone { steps.now.zone ≡ apex.now.zone }
    ensures { Ends builder.old builder.new apex.now.zone
        (negative apex.now.zone (code_of rcode)) result }
{
    let Some(soa) = apex.set(RType::SOA) else {
        return ended(rcode, builder);
    };
    let ttl = soa.ttl().min(Rdata::soa_minimum(soa.rdata(0)));
    builder.offer(Section::Authority, &steps.origin().borrowed(), ttl, &soa);
    ended(rcode, builder)
}

/// The verdict for an answer without a referral, after all of its required sets were offered.
pub(crate) fn ended<const N: usize, const SIZE: usize>(
    rcode: Rcode,
    builder: &ReplyBuilder<N, SIZE>,
) -> Verdict
    ensures { IsPlain builder.now (code_of rcode) result }
{
    Verdict {
        rcode,
        is_referral: false,
        is_truncated: builder.is_full(),
    }
}

/// Ends an answer with the set that was asked for, which has been offered already: offers the
/// addresses of its targets if its type is NS, MX or SRV.
pub(crate) fn end_with<'z, const N: usize, const SIZE: usize>(
    set: &RecordSet<'z>,
    apex: &Node<'z>,
    steps: &mut Steps<'z>,
    builder: &mut ReplyBuilder<N, SIZE>,
) -> Verdict
    requires valid { HasValidData set.now }
    requires few { length set.now.rdata ≤ 64 }
    requires apex { IsApex steps.old.zone apex.now }
    requires room { HasNodesLeft steps.old (64 * 128) }
    ensures ends { EndsWith builder.old builder.new steps.old.zone set.now result }
    ensures took { TookWith steps.old steps.new set.now }
{
    let verdict = ended(Rcode::NoError, builder);
    // The addresses of targets of these types are useful to the client.
    let rtype = set.rtype();
    if rtype == RType::NS || rtype == RType::MX || rtype == RType::SRV {
        offer_addresses(set, Side::All, apex, steps, builder);
    }
    verdict
}
