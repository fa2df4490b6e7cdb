//! A zone under check: its origin, its records in canonical order, and the names to be checked.
ghost use Rattle.std.specs.Prelude.{◌≡◌, ◌≤◌, length, ◌&&◌, true, false, IfSome};
ghost use Rattle.std.specs.Option.{option_map_or};
ghost use Rattle.std.specs.List.Sorted.{IsNonDecreasingBy};
ghost use Rattle.dns_spec.specs.Names.{folded, at_or_below};
ghost use Rattle.dns_spec.specs.Records.{ResourceRecord, at, owns};
ghost use Rattle.dns_spec.specs.Data.{type_cname, target};
ghost use Rattle.dns_spec.specs.Tree.{is_cut};
ghost use Rattle.dns_spec.specs.Checks.{at_or_below_cut, lacks_address, has_address};
ghost use Rattle.dns_zone.specs.KeyForm.{name_key};
ghost use Rattle.dns_zone.specs.NamesForm.{own_in, owner_of, IsChecked, IsLastUpto};

use crate::checks::target::{LastTarget, target};
use crate::names::{CheckedName, count_upto, is_covered};
use crate::order::above::is_at_or_below;
use crate::order::lookup::has_type;
use crate::store::stored::StoredRecord;
use dns_name::NameRef;
use dns_rdata::RType;
use std::marker::Model;

/// What the checks of a zone use: its origin, its records in canonical order, and its names.
#[derive(Drop)]
pub(crate) struct CheckContext<'a> {
    pub(crate) origin: &'a NameRef<'a>,
    /// The key of the origin.
    pub(crate) key: &'a [u8],
    pub(crate) records: &'a [StoredRecord],
    pub(crate) names: &'a [CheckedName<'a>],
}

impl<'a> Model for CheckContext<'a> {
    ghost use Rattle.dns_spec.specs.Records.{ZoneContents};
    ghost use Rattle.dns_zone.specs.NamesForm.{IsCheckContext};

    ghost Value = { ZoneContents };

    ghost view = { λ s. record { origin = s.origin.now; records = s.records.now } };

    ghost invariant = { λ s. IsCheckContext (record { origin = s.origin.now; records = s.records.now })
        s.key.now s.names.now };
}

impl<'a> CheckContext<'a> {
    /// The key of the origin.
    pub(crate) fn key(&self) -> &[u8]
        ensures value { result.now ≡ name_key self.now.origin }
        ensures lower { folded self.now.origin ≡ self.now.origin }
    {
        self.key
    }

    /// The records that a checked name owns.
    pub(crate) fn own(&self, one: &CheckedName<'_>) -> &'a [StoredRecord]
        requires rising { one.now.first ≤ one.now.end }
        requires within { one.now.end ≤ length self.now.records }
        ensures { result.now ≡ own_in self.now.records one.now }
    {
        &self.records[one.first as usize..one.end as usize]
    }

    /// A checked name: the owner of its records, or the origin if there are no records.
    #[tactic(auto, using(crate::proofs::SearchSteps::wire_steps))]
    pub(crate) fn name(&self, one: &CheckedName<'_>) -> NameRef<'a>
        requires rising { one.now.first ≤ one.now.end }
        requires within { one.now.end ≤ length self.now.records }
        ensures { result ≡ owner_of self.now one.now }
    {
        match self.own(one).first() {
            Some(first) => first.owner(),
            None => NameRef::new(self.origin.octets()),
        }
    }

    // A fast path: the checked name that is the target, if it is at one of the indexes that are
    // tried first. Makes no key.
    fn soon_found(&self, target: &NameRef<'_>, last: &mut LastTarget) -> Option<&'a CheckedName<'a>>
        ensures { IfSome result (λ one. IsChecked self.now target.now one.now) }
    {
        'indexes: for index in last.probable_indexes() {
            if index < self.names.len() && self.name(&self.names[index]) == *target {
                last.keep_index(index);
                return Some(&self.names[index]);
            }
        }
        None
    }

    // The last checked name that does not come after the target in canonical order. The target is at
    // or below the origin, which is a checked name, so there is one.
    fn last_upto(&self, target: &mut LastTarget) -> &'a CheckedName<'a>
        requires lower { folded target.old ≡ target.old }
        requires inside { at_or_below target.old self.now.origin ≡ true }
        ensures same { target.new ≡ target.old }
        ensures last { IsLastUpto self.now target.old result.now }
    {
        let index = count_upto(self.names, target.key()) - 1;
        target.keep_index(index);
        &self.names[index]
    }

    // The records that the target owns, ordered by type, and whether the target is at or below a
    // cut (RFC 1034 4.2). The target is at or below the origin.
    #[tactic(auto, using(crate::proofs::CheckedNames::found_steps))]
    fn at(&self, target: &NameRef<'_>, last: &mut LastTarget) -> (&'a [StoredRecord], bool)
        requires lower { folded target.now ≡ target.now }
        requires inside { at_or_below target.now self.now.origin ≡ true }
        ensures own { result.0.now ≡ at self.now target.now }
        ensures by_types { IsNonDecreasingBy (λ (r : ResourceRecord). r.rtype) result.0.now }
        ensures cut { result.1 ≡ at_or_below_cut self.now target.now }
    {
        if let Some(one) = self.soon_found(target, last) {
            return (self.own(one), one.cut > 0);
        }
        last.move_to(target);
        let one = self.last_upto(last);
        let key = last.key();
        if one.key == key {
            return (self.own(one), one.cut > 0);
        }
        (&[], is_covered(one.cut, one.key, key))
    }

    /// Whether the record's target is in the zone and owns a CNAME (RFC 2181 10.3), and whether it
    /// needs an address in the zone, but has none (RFC 1034 4.2.1). It needs one if it is at or
    /// below the origin and either at or below no cut, or at or below the owner, which is a cut
    /// (even if another cut lies between them). The target is looked up once.
    pub(crate) fn target_faults(
        &self,
        entry: &StoredRecord,
        owner: &NameRef<'_>,
        owner_is_cut: bool,
        last: &mut LastTarget,
    ) -> (bool, bool)
        requires cut { owner_is_cut ≡ is_cut self.now owner.now }
        requires lower { folded owner.now ≡ owner.now }
        ensures alias { result.0 ≡ option_map_or
            (λ m. at_or_below m self.now.origin && owns self.now m type_cname)
            (target entry.now.rtype entry.now.rdata) false }
        ensures lacks_address { result.1 ≡ option_map_or
            (λ m. at_or_below m self.now.origin && lacks_address self.now owner.now m)
            (target entry.now.rtype entry.now.rdata) false }
    {
        match target(entry) {
            Some(target) => self.name_faults(&target, owner, owner_is_cut, last),
            None => (false, false),
        }
    }

    // The same as `target_faults`, for a record with this target.
    fn name_faults(
        &self,
        target: &NameRef<'_>,
        owner: &NameRef<'_>,
        owner_is_cut: bool,
        last: &mut LastTarget,
    ) -> (bool, bool)
        requires lower { folded target.now ≡ target.now }
        requires cut { owner_is_cut ≡ is_cut self.now owner.now }
        requires lower_owner { folded owner.now ≡ owner.now }
        ensures alias { result.0 ≡ (at_or_below target.now self.now.origin
            && owns self.now target.now type_cname) }
        ensures lacks_address { result.1 ≡ (at_or_below target.now self.now.origin
            && lacks_address self.now owner.now target.now) }
    {
        if !is_at_or_below(target, self.origin) {
            return (false, false);
        }
        let (own, is_under_cut) = self.at(target, last);
        let lacks_address = !self.has_address(target, own)
            && (!is_under_cut || owner_is_cut && is_at_or_below(target, owner));
        (has_type(own, RType::CNAME), lacks_address)
    }

    #[tactic(auto, using(crate::proofs::OwnRecords::own_owns))]
    fn has_address(&self, name: &NameRef<'_>, own: &[StoredRecord]) -> bool
        requires own { own.now ≡ at self.now name.now }
        requires by_types { IsNonDecreasingBy (λ (r : ResourceRecord). r.rtype) own.now }
        ensures { result ≡ has_address self.now name.now }
    {
        has_type(own, RType::A) || has_type(own, RType::AAAA)
    }
}
