//! Records of a name, found by binary search among records in canonical order.
ghost use Rattle.std.specs.Prelude.{◌≡◌, ◌<◌, ◌≤◌, ◌==◌, false, get_or, length, drop, not, nat_lt};
ghost use Rattle.std.specs.List.{list_any, filter, prefix_len};
ghost use Rattle.std.specs.List.Sorted.{IsPartitionedBy, IsNonDecreasingBy};
ghost use Rattle.dns_spec.specs.Names.{folded, same, at_or_below};
ghost use Rattle.dns_spec.specs.Records.{ResourceRecord};
ghost use Rattle.dns_zone.specs.ZoneForm.{IsFront};

use crate::order::above::is_at_or_below;
use crate::store::stored::StoredRecord;
use dns_name::NameRef;
use dns_rdata::RType;

// Up to this many records are searched one by one. Most owners have no more.
const FEW: usize = 4;

/// The number of records whose owners are at or below the name. Condition: these records come
/// before all others.
pub(crate) fn count_under(records: &[StoredRecord], name: &NameRef<'_>) -> usize
    requires in_front { IsPartitionedBy
        (λ (r : ResourceRecord). at_or_below r.owner name.now) records.now }
    requires lower { folded name.now ≡ name.now }
    ensures { IsFront (λ (r : ResourceRecord). at_or_below r.owner name.now) records.now result }
{
    // If a name is the only child of its parent, all of these records are at or below it. This is
    // tested first, since a name of many labels may have many such names above it. Most other
    // names have no name below them.
    let (Some(first), Some(last)) = (records.first(), records.last()) else {
        return 0;
    };
    if is_under(last, name) {
        return records.len();
    }
    if !is_under(first, name) {
        return 0;
    }
    let front = records.split_at(upto_other(records, name)).0;
    front.partition_point(|entry| is_under(entry, name))
}

// The index of a record whose owner is not at or below the name, or else the number of records. If
// few records are at or below the name, this takes few steps.
fn upto_other(records: &[StoredRecord], name: &NameRef<'_>) -> usize
    requires { folded name.now ≡ name.now }
    ensures bound { result ≤ length records.now }
    ensures other { (d : ResourceRecord) → result < length records.now
        → at_or_below (get_or records.now result d).owner name.now ≡ false }
{
    let mut most = 1;
    'doubled: while most < records.len() {
        if !is_under(&records[most], name) {
            return most;
        }
        most = most.saturating_mul(2);
    }
    records.len()
}

/// The number of records at the front whose owner is the name, counted one by one.
pub(crate) fn count_in_front(records: &[StoredRecord], name: &NameRef<'_>) -> usize
    requires { folded name.now ≡ name.now }
    ensures value { result ≡ prefix_len
        (λ (r : ResourceRecord). same r.owner name.now) records.now }
    ensures bound { result ≤ length records.now }
{
    records
        .iter()
        .take_while(|entry| entry.owner() == *name)
        .count()
}

/// Whether some record has the type. The records are ordered by type.
pub(crate) fn has_type(records: &[StoredRecord], rtype: RType) -> bool
    requires { IsNonDecreasingBy (λ (r : ResourceRecord). r.rtype) records.now }
    ensures { result ≡ list_any (λ (r : ResourceRecord). r.rtype == rtype.0) records.now }
{
    if records.len() <= FEW {
        return records.iter().any(|entry| entry.rtype == rtype);
    }
    match records[count_below(records, rtype)..].first() {
        Some(entry) => entry.rtype == rtype,
        None => false,
    }
}

/// The records of a type, from records ordered by type. Most names own records of one type only, so
/// the types of the first and the last record usually decide.
pub(crate) fn of_type<'a>(records: &'a [StoredRecord], rtype: RType) -> &'a [StoredRecord]
    requires { IsNonDecreasingBy (λ (r : ResourceRecord). r.rtype) records.now }
    ensures { result.now ≡ filter (λ (r : ResourceRecord). r.rtype == rtype.0) records.now }
{
    let (Some(first), Some(last)) = (records.first(), records.last()) else {
        return records;
    };
    if rtype.0 < first.rtype.0 || last.rtype.0 < rtype.0 {
        return &[];
    }
    if first.rtype == last.rtype {
        return records;
    }
    let others = &records[count_below(records, rtype)..];
    &others[..others.partition_point(|entry| entry.rtype == rtype)]
}

/// The number of records with a lower type, from records ordered by type.
pub(crate) fn count_below(records: &[StoredRecord], rtype: RType) -> usize
    requires { IsNonDecreasingBy (λ (r : ResourceRecord). r.rtype) records.now }
    ensures bound { result ≤ length records.now }
    ensures others { drop result records.now
        ≡ filter (λ (r : ResourceRecord). not (nat_lt r.rtype rtype.0)) records.now }
{
    records.partition_point(|entry| entry.rtype.0 < rtype.0)
}

fn is_under(entry: &StoredRecord, name: &NameRef<'_>) -> bool
    requires { folded name.now ≡ name.now }
    ensures { result ≡ at_or_below entry.now.owner name.now }
{
    is_at_or_below(&entry.owner(), name)
}
