//! The names that are checked in a zone: its origin and all owners, without duplicates, in
//! canonical order.
ghost use Rattle.std.specs.Prelude.{◌≡◌, ◌≤◌, length, IfOk, OnOk};
ghost use Rattle.std.specs.List.Sorted.{IsNonDecreasingBy, IsPartitionedBy};
ghost use Rattle.dns_spec.specs.Names.{DomainName, folded};
ghost use Rattle.dns_spec.specs.Tree.{is_cut};
ghost use Rattle.dns_spec.specs.Meaning.{most_records};
ghost use Rattle.dns_spec.specs.Records.{ResourceRecord, ZoneContents, at};
ghost use Rattle.dns_zone.specs.ZoneForm.{AreOrdered, IsFront};
ghost use Rattle.dns_zone.specs.KeyForm.{name_key};
ghost use Rattle.dns_zone.specs.OwnerKeysForm.{AreKeyed};
ghost use Rattle.dns_zone.specs.NamesForm.{is_covered, is_upto, AreChecked, AreOwners, ComesNext, IsTopmost};

use crate::order::key::{is_below, key_at};
use crate::order::lookup::{count_in_front, has_type};
use crate::order::owner_keys::OwnerKeys;
use crate::store::stored::StoredRecord;
use dns_name::{NameRef, begins_with};
use dns_rdata::RType;
use std::alloc::{AllocError, Global};

/// A name to be checked.
#[derive(Drop)]
pub(crate) struct CheckedName<'a> {
    /// Its key.
    pub(crate) key: &'a [u8],
    /// The index of its first record.
    pub(crate) first: u32,
    /// The index one past its last record. Only the origin may have no records.
    pub(crate) end: u32,
    /// The length of the key of the topmost cut that the name is at or below; 0 if no cut is.
    pub(crate) cut: usize,
}

/// The names that are checked in a zone. `records` is in canonical order, `key` is the key of the
/// origin, and `keyed` has the keys of the owners.
pub(crate) fn checked_names<'a>(
    alloc: Global,
    origin: &NameRef<'_>,
    key: &'a [u8],
    records: &[StoredRecord],
    keyed: &'a OwnerKeys,
) -> Result<Vec<CheckedName<'a>>, AllocError>
    requires lower { folded origin.now ≡ origin.now }
    requires key { key.now ≡ name_key origin.now }
    requires ordered { AreOrdered records.now }
    requires few { length records.now ≤ most_records }
    requires keyed { AreKeyed keyed.now.keys.items records.now keyed.now.starts.items }
    ensures { IfOk result (λ names. AreChecked
        (record { origin = origin.now; records = records.now }) names.items) }
{
    let mut names = Vec::with_capacity(alloc, records.len())?;
    let mut first = 0;
    let mut rest = records;
    let mut last: &[u8] = &[];
    let mut cut = 0;
    'owners: while let Some((record, others)) = rest.split_first() {
        let owner = record.owner();
        let (own, others) = rest.split_at(1 + count_in_front(others, &owner));
        let next = key_at(keyed.keys.as_slice(), keyed.starts[first], record);
        let end = first + own.len();
        cut = cut_of(key, last, cut, next, own);
        names.push(CheckedName {
            key: next,
            first: first as u32,
            end: end as u32,
            cut,
        })?;
        first = end;
        rest = others;
        last = next;
    }
    add_origin(origin, key, records, &mut names)?;
    Ok(names)
}

// The length of the key of the topmost cut that an owner is at or below; 0 if there is no such cut.
// `key` and `own` are the owner's key and records. `last` is the key of the name before the owner,
// and `cut` is this length for that name.
fn cut_of(origin: &[u8], last: &[u8], cut: usize, key: &[u8], own: &[StoredRecord]) -> usize
    requires fits { cut ≤ length last.now }
    requires by_types { IsNonDecreasingBy (λ (r : ResourceRecord). r.rtype) own.now }
    ensures { (z : ZoneContents) (o n : DomainName)
        → ComesNext z o n cut origin.now last.now key.now own.now → IsTopmost z n result }
{
    if is_covered(cut, last, key) {
        cut
    } else if is_cut(origin, key, own) {
        key.len()
    } else {
        0
    }
}

// Whether a name, given by its key and its records, is a cut (RFC 1034 4.2).
#[tactic(auto, using(crate::proofs::OwnRecords::own_owns))]
fn is_cut(origin: &[u8], key: &[u8], own: &[StoredRecord]) -> bool
    requires { IsNonDecreasingBy (λ (r : ResourceRecord). r.rtype) own.now }
    ensures { (z : ZoneContents) (n : DomainName) → folded z.origin ≡ z.origin → folded n ≡ n
        → origin.now ≡ name_key z.origin → key.now ≡ name_key n → own.now ≡ at z n
        → result ≡ is_cut z n }
{
    has_type(own, RType::NS) && is_below(key, origin)
}

/// Whether `key` begins with the first `cut` octets of `last`. False if `cut` is 0.
pub(crate) fn is_covered(cut: usize, last: &[u8], key: &[u8]) -> bool
    requires { cut ≤ length last.now }
    ensures { result ≡ is_covered cut last.now key.now }
{
    cut > 0 && begins_with(key, &last[..cut])
}

/// The number of names that are not after the name with this key.
pub(crate) fn count_upto(names: &[CheckedName<'_>], key: &[u8]) -> usize
    requires { IsPartitionedBy (is_upto key.now) names.now }
    ensures { IsFront (is_upto key.now) names.now result }
{
    names.partition_point(|one| is_upto(one, key))
}

fn is_upto(one: &CheckedName<'_>, key: &[u8]) -> bool
    ensures { result ≡ is_upto key.now one.now }
{
    !one.key.cmp(key).is_gt()
}

fn add_origin<'a>(
    origin: &NameRef<'_>,
    key: &'a [u8],
    records: &[StoredRecord],
    names: &mut Vec<CheckedName<'a>>,
) -> Result<(), AllocError>
    requires lower { folded origin.now ≡ origin.now }
    requires key { key.now ≡ name_key origin.now }
    requires ordered { AreOrdered records.now }
    requires owners { AreOwners (record { origin = origin.now; records = records.now })
        names.old.items }
    ensures { OnOk result (AreChecked (record { origin = origin.now; records = records.now })
        names.new.items) }
{
    let place = count_upto(names.as_slice(), key);
    if place > 0 && names[place - 1].key == key {
        return Ok(());
    }
    names.insert(
        place,
        CheckedName {
            key,
            first: 0,
            end: 0,
            cut: 0,
        },
    )?;
    Ok(())
}
