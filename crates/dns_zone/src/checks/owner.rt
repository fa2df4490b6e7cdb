//! The fifteen checks of a name of a zone.
ghost use Rattle.std.specs.Prelude.{◌≡◌, ◌==◌, ◌&&◌, not, length, map, drop, nat_lt, []};
ghost use Rattle.std.specs.Bool.{OnTrue};
ghost use Rattle.std.specs.List.{list_all, list_any, zip};
ghost use Rattle.dns_spec.specs.Records.{owns};
ghost use Rattle.dns_spec.specs.Tree.{is_cut};
ghost use Rattle.dns_spec.specs.Checks.{is_origin, count, owns_such, is_address_type, below_cut, checks, ttls_differ, ns_target_alias, ns_target_lacks_address, mx_target_alias, data_at_cut, large_set, many_sets};
ghost use Rattle.dns_spec.specs.Data.{type_soa, type_ns, type_cname};
ghost use Rattle.dns_zone.specs.OwnerForm.{is_other_type, is_plain_type, is_server_alias, server_lacks_address, is_exchange_alias};
ghost use Rattle.dns_zone.specs.ReportedForm.{reported_at};
ghost use Rattle.dns_zone.specs.SetWalks.{sets_ended};

use crate::checks::context::CheckContext;
use crate::checks::target::LastTarget;
use crate::order::key::{is_below, is_under};
use crate::order::lookup::{has_type, of_type};
use crate::store::stored::StoredRecord;
use dns_name::NameRef;
use dns_rdata::RType;
use std::marker::Model;

// The most records that an RRset may have.
const MOST_OF_A_SET: usize = 64;

// The most RRsets that one owner may have.
const MOST_SETS: usize = 32;

// The faults of the targets of a name's records.
#[derive(Clone, Copy, Default)]
struct TargetFaults {
    // The target of an NS record is an alias.
    ns_alias: bool,
    // The target of an NS record lacks an address.
    ns_lacks_address: bool,
    // The target of an MX or SRV record is an alias.
    exchange_alias: bool,
}

/// A name of a zone, with its records.
#[derive(Drop)]
pub(crate) struct Owner<'a> {
    pub(crate) context: &'a CheckContext<'a>,
    pub(crate) name: &'a NameRef<'a>,
    pub(crate) key: &'a [u8],
    pub(crate) own: &'a [StoredRecord],
    pub(crate) is_below_cut: bool,
    /// Whether the name is the zone's origin.
    pub(crate) is_apex: bool,
}

impl<'a> Model for Owner<'a> {
    ghost use Rattle.std.specs.Prelude.{◌≡◌};
    ghost use Rattle.dns_spec.specs.Checks.{is_origin, below_cut};
    ghost use Rattle.dns_zone.specs.KeyForm.{name_key};
    ghost use Rattle.dns_zone.specs.OwnerForm.{NameOfZone, IsOwner};

    ghost Value = { NameOfZone };

    ghost view = { λ o. record { zone = o.context.now; name = o.name.now } };

    ghost invariant = { λ o. IsOwner o.context.now o.name.now o.own.now
        × (o.key.now ≡ name_key o.name.now)
        × (o.is_below_cut ≡ below_cut o.context.now o.name.now)
        × (o.is_apex ≡ is_origin o.context.now o.name.now) };
}

impl<'a> Owner<'a> {
    /// Which checks the name fails, in the order of their codes (RFC 1034 3.6.2, 4.2;
    /// RFC 1035 5.2; RFC 2181 5.2, 10; RFC 4592 4.2).
    pub(crate) fn judged(&self, last: &mut LastTarget) -> [bool; 15]
        ensures { result ≡ map (λ c. c.1 self.now.zone self.now.name) checks }
    {
        let targets = self.target_faults(last);
        [
            self.is_apex && !self.owns(RType::SOA),
            self.is_apex && self.count(RType::SOA) > 1,
            !self.is_apex && self.owns(RType::SOA),
            self.is_apex && !self.owns(RType::NS),
            !self.own.is_empty() && !is_under(self.key, self.context.key()),
            self.owns(RType::CNAME) && self.owns_other_than_cname(),
            self.count(RType::CNAME) > 1,
            self.has_other_ttls(),
            targets.ns_alias,
            targets.ns_lacks_address,
            targets.exchange_alias,
            self.has_data_at_cut(),
            self.name.is_wildcard() && self.owns(RType::NS),
            self.has_large_set(),
            self.has_many_sets(),
        ]
    }

    /// A fast path: true only if the name passes all checks, as most names do. If false, all
    /// checks must be made.
    pub(crate) fn is_plain(&self) -> bool
        ensures { OnTrue result (reported_at self.now.zone self.now.name ≡ []) }
    {
        if self.is_apex
            || self.own.len() > MOST_SETS
            || !have_plain_types(self.own)
            || self.is_below_cut && self.owns_other_than_address()
        {
            return false;
        }
        is_under(self.key, self.context.key()) && !self.has_other_ttls()
    }

    fn has_other_ttls(&self) -> bool
        ensures { result ≡ ttls_differ self.now.zone self.now.name }
    {
        have_other_ttls(self.own)
    }

    // The faults of the targets of all records. Each target is looked up once.
    fn target_faults(&self, last: &mut LastTarget) -> TargetFaults
        ensures alias { result.ns_alias ≡ ns_target_alias self.now.zone self.now.name }
        ensures lacks_address { result.ns_lacks_address ≡ ns_target_lacks_address self.now.zone self.now.name }
        ensures exchange { result.exchange_alias ≡ mx_target_alias self.now.zone self.now.name }
    {
        let owner_is_cut = self.is_cut();
        let mut rest = self.own;
        let mut found = TargetFaults::default();
        'targets: while let Some((first, others)) = rest.split_first() {
            let faults = self.record_faults(first, owner_is_cut, last);
            found.ns_alias |= faults.ns_alias;
            found.ns_lacks_address |= faults.ns_lacks_address;
            found.exchange_alias |= faults.exchange_alias;
            rest = others;
        }
        found
    }

    // The faults of the target of one record, of any type.
    fn record_faults(
        &self,
        entry: &StoredRecord,
        owner_is_cut: bool,
        last: &mut LastTarget,
    ) -> TargetFaults
        requires { owner_is_cut ≡ is_cut self.now.zone self.now.name }
        ensures alias { result.ns_alias ≡ is_server_alias self.now.zone entry.now }
        ensures lacks_address { result.ns_lacks_address ≡ server_lacks_address self.now.zone self.now.name entry.now }
        ensures exchange { result.exchange_alias ≡ is_exchange_alias self.now.zone entry.now }
    {
        let is_server = entry.rtype == RType::NS;
        if !is_server && entry.rtype != RType::MX && entry.rtype != RType::SRV {
            return TargetFaults::default();
        }
        let (is_alias, lacks_address) = self
            .context
            .target_faults(entry, self.name, owner_is_cut, last);
        TargetFaults {
            ns_alias: is_server && is_alias,
            ns_lacks_address: is_server && lacks_address,
            exchange_alias: !is_server && is_alias,
        }
    }

    // A cut may own only NS records and addresses, and a name below a cut only addresses (glue).
    // Most cuts own nothing else, so the types are tested first.
    fn has_data_at_cut(&self) -> bool
        ensures { result ≡ data_at_cut self.now.zone self.now.name }
    {
        self.owns_other_than_delegation() && self.is_cut()
            || self.is_below_cut && self.owns_other_than_address()
    }

    fn has_large_set(&self) -> bool
        ensures { result ≡ large_set self.now.zone self.now.name }
    {
        have_large_set(self.own)
    }

    fn has_many_sets(&self) -> bool
        ensures { result ≡ many_sets self.now.zone self.now.name }
    {
        have_many_sets(self.own)
    }

    // The number of records of the type that the name owns.
    fn count(&self, rtype: RType) -> usize
        ensures { result ≡ count self.now.zone self.now.name rtype.0 }
    {
        of_type(self.own, rtype).len()
    }

    // Whether the name owns a record of the type.
    fn owns(&self, rtype: RType) -> bool
        ensures { result ≡ owns self.now.zone self.now.name rtype.0 }
    {
        has_type(self.own, rtype)
    }

    fn is_cut(&self) -> bool
        ensures { result ≡ is_cut self.now.zone self.now.name }
    {
        self.owns(RType::NS) && is_below(self.key, self.context.key())
    }

    fn owns_other_than_cname(&self) -> bool
        ensures { result ≡ owns_such self.now.zone self.now.name (λ t. not (t == type_cname)) }
    {
        self.own.iter().any(|entry| entry.rtype != RType::CNAME)
    }

    fn owns_other_than_delegation(&self) -> bool
        ensures { result ≡ owns_such self.now.zone self.now.name is_other_type }
    {
        self.own.iter().any(|entry| entry.rtype != RType::NS && !is_address(entry.rtype))
    }

    fn owns_other_than_address(&self) -> bool
        ensures { result ≡ owns_such self.now.zone self.now.name (λ t. not (is_address_type t)) }
    {
        self.own.iter().any(|entry| !is_address(entry.rtype))
    }
}

fn is_address(rtype: RType) -> bool
    ensures { result ≡ is_address_type rtype.0 }
{
    rtype == RType::A || rtype == RType::AAAA
}

// Whether no record needs a check for its type, as a CNAME does beside another record.
fn have_plain_types(own: &[StoredRecord]) -> bool
    ensures { result ≡ list_all (λ r. is_plain_type (length own.now) r.rtype) own.now }
{
    own.iter()
        .all(|entry| is_plain_type(own.len(), entry.rtype))
}

// Whether a record of this type, one of `count` records of a name, needs no check for its type.
fn is_plain_type(count: usize, rtype: RType) -> bool
    ensures { result ≡ is_plain_type count rtype.0 }
{
    rtype != RType::SOA
        && rtype != RType::NS
        && rtype != RType::MX
        && rtype != RType::SRV
        && (rtype != RType::CNAME || count == 1)
}

// Whether some RRset has records with different TTLs (RFC 2181 5.2). This is so if and only if two
// adjacent records have the same type and different TTLs.
fn have_other_ttls(own: &[StoredRecord]) -> bool
    ensures { result ≡ list_any (λ p. p.0.rtype == p.1.rtype && not (p.0.ttl == p.1.ttl))
        (zip own.now (drop 1 own.now)) }
{
    own.iter().zip(own.iter().skip(1)).any(|(one, next)| one.rtype == next.rtype
        && one.ttl != next.ttl)
}

// Whether some RRset has more than 64 records. This is so if and only if some record and the 64th
// record after it have the same type.
fn have_large_set(own: &[StoredRecord]) -> bool
    ensures { result ≡ list_any (λ p. p.0.rtype == p.1.rtype) (zip own.now (drop 64 own.now)) }
{
    own.iter()
        .zip(own.iter().skip(MOST_OF_A_SET))
        .any(|(one, other)| one.rtype == other.rtype)
}

// Whether the name owns more than 32 RRsets.
fn have_many_sets(own: &[StoredRecord]) -> bool
    ensures { result ≡ nat_lt 32 (sets_ended own.now) }
{
    if own.len() <= MOST_SETS {
        return false;
    }
    let mut rest = own;
    let mut left = MOST_SETS;
    'records: while let Some((first, others)) = rest.split_first() {
        rest = others;
        if others.first().is_some_and(|next| next.rtype == first.rtype) {
            continue;
        }
        if left == 0 {
            return true;
        }
        left -= 1;
    }
    false
}
