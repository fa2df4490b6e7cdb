//! Records in canonical order, without duplicates.
ghost use Rattle.std.specs.Prelude.{◌≡◌, ◌<◌, ◌≤◌, All, length, map, IfOk, OnOk};
ghost use Rattle.dns_spec.specs.Names.{Octets};
ghost use Rattle.dns_spec.specs.Meaning.{most_records};
ghost use Rattle.dns_spec.specs.Records.{records_equal, distinct, sort_by, record_order};
ghost use Rattle.dns_spec.specs.ZonePrinted.{IsReadRecord};
ghost use Rattle.dns_zone.specs.KeyForm.{name_key};
ghost use Rattle.dns_zone.specs.OwnerKeysForm.{key_in, AreKeyed};
ghost use Rattle.dns_zone.specs.SortKeyForm.{no_record, placed, AreApart, AreSortKeys, AreSorted};
ghost use Rattle.dns_zone.specs.ZoneForm.{AreOrdered};

use crate::order::owner_keys::{OwnerKeys, keys_of};
use crate::order::sort_key::{Order, SortKey};
use crate::store::stored::StoredRecord;
use dns_name::NameRef;
use std::alloc::{AllocError, Global};

/// Sorts records into canonical order without duplicates (RFC 4034 6.1, 6.3, RFC 2181 5), and
/// returns them with the keys of their owners. Their sort keys are sorted, and then the records are
/// moved.
pub(crate) fn sorted(
    alloc: Global,
    origin: &NameRef<'_>,
    mut records: Vec<StoredRecord>,
) -> Result<(Vec<StoredRecord>, OwnerKeys), AllocError>
    requires { length records.items ≤ most_records }
    ensures records { IfOk result (λ (kept, _). kept.items
        ≡ sort_by record_order (distinct records_equal records.items)) }
    ensures in_order { IfOk result (λ (kept, _). AreOrdered kept.items) }
    ensures count { IfOk result (λ (kept, _). length kept.items ≤ length records.items) }
    ensures each { IfOk result (λ (kept, _). All IsReadRecord kept.items) }
    ensures origin { IfOk result (λ (_, keyed).
        key_in keyed.keys.items 0 origin.now ≡ name_key origin.now) }
    ensures keyed { IfOk result (λ (kept, keyed). AreKeyed keyed.keys.items kept.items
        keyed.starts.items) }
{
    let (keys, mut sort_keys) = keys_of(alloc, &*origin, records.as_slice())?;
    sort_distinct(keys.as_slice(), records.as_slice(), &mut sort_keys)?;
    let starts = starts_of(alloc, sort_keys.as_slice())?;
    gather(&mut records, sort_keys.as_mut_slice());
    Ok((records, OwnerKeys { keys, starts }))
}

// Sorts the sort keys of records, and leaves out those of duplicates.
fn sort_distinct(
    keys: &[u8],
    records: &[StoredRecord],
    sort_keys: &mut Vec<SortKey>,
) -> Result<(), AllocError>
    requires { All IsReadRecord records.now }
    ensures { OnOk result ((o : Octets) → AreSortKeys o keys.now records.now sort_keys.old.items
        → AreSorted keys.now records.now sort_keys.new.items) }
{
    let Some(first) = records.first() else {
        return Ok(());
    };
    let order = Order {
        keys,
        records,
        first,
    };
    let kept = order.keep_rising(sort_keys.as_mut_slice());
    // If all rise, there are no duplicates.
    if kept < sort_keys.len() {
        order.sort(sort_keys, kept)?;
        sort_keys.dedup_by(|next, one| order.are_same(next, one));
    }
    Ok(())
}

// Puts the records in the order of their sort keys, and drops the records without one. Overwrites
// the indices in the sort keys.
fn gather(records: &mut Vec<StoredRecord>, sort_keys: &mut [SortKey])
    requires few { length records.old.items ≤ most_records }
    requires inside { All (λ (p : SortKey). p.at < length records.old.items) sort_keys.old }
    requires apart { AreApart sort_keys.old }
    requires fewer { length sort_keys.old ≤ length records.old.items }
    ensures { records.new.items ≡ map (placed records.old.items no_record) sort_keys.old }
{
    'sort_keys: for to in 0..sort_keys.len() {
        // The indices before `to` are filled. A record that was at one of them was swapped to the
        // index that is now in the sort key there, and perhaps on from that one.
        let mut from = sort_keys[to].at as usize;
        'moved: while from < to {
            from = sort_keys[from].at as usize;
        }
        records.swap(to, from);
        sort_keys[to].at = from as u32;
    }
    records.truncate(sort_keys.len());
}

fn starts_of(alloc: Global, sort_keys: &[SortKey]) -> Result<Vec<u32>, AllocError>
    ensures { IfOk result (λ starts. starts.items ≡ map (λ (p : SortKey). p.start) sort_keys.now) }
{
    sort_keys
        .iter()
        .map(|sort_key| sort_key.start)
        .collect(alloc)
}
