//! The keys of the owners of records, in one shared list of octets.
ghost use Rattle.std.specs.Prelude.{◌≡◌, ◌≤◌, All, length, IfOk};
ghost use Rattle.dns_spec.specs.Meaning.{most_records};
ghost use Rattle.dns_spec.specs.ZonePrinted.{IsReadRecord};
ghost use Rattle.dns_zone.specs.KeyForm.{name_key};
ghost use Rattle.dns_zone.specs.OwnerKeysForm.{key_in};
ghost use Rattle.dns_zone.specs.SortKeyForm.{AreSortKeys};

use crate::order::key::Key;
use crate::order::sort_key::SortKey;
use crate::store::stored::StoredRecord;
use dns_name::NameRef;
use std::alloc::{AllocError, Global};

/// The keys of owners.
#[derive(Drop)]
pub(crate) struct OwnerKeys {
    /// The key of the origin, then the keys of the owners.
    pub(crate) keys: Vec<u8>,
    /// For each record, the offset in `keys` at which its owner's key begins. Adjacent records of
    /// one owner share a key.
    pub(crate) starts: Vec<u32>,
}

/// The keys of the owners, and the sort keys of the records, in the order of `records`. Takes memory
/// for the octets of the owners, and 24 octets for each record.
#[tactic(auto, using(crate::proofs::SearchSteps::wire_steps))]
pub(crate) fn keys_of<'a>(
    alloc: Global,
    origin: &'a NameRef<'a>,
    records: &'a [StoredRecord],
) -> Result<(Vec<u8>, Vec<SortKey>), AllocError>
    requires { length records.now ≤ most_records }
    ensures origin { IfOk result (λ (keys, _). key_in keys.items 0 origin.now ≡ name_key origin.now) }
    ensures sort_keys { IfOk result (λ (keys, sort_keys).
        AreSortKeys (name_key origin.now) keys.items records.now sort_keys.items) }
    ensures read { IfOk result (λ _. All IsReadRecord records.now) }
{
    let mut keys = Vec::new(alloc);
    let mut sort_keys: Vec<SortKey> = Vec::with_capacity(alloc, records.len())?;
    let (first, mut key) = (Key::of(origin), Key::of(origin));
    keys.extend_from_slice(key.octets())?;
    let mut last = NameRef::new(origin.octets());
    let mut sort_key = SortKey::of(first.octets(), key.octets(), 0, 0);
    'records: for each in records {
        let owner = each.owner();
        if owner != last {
            key.move_to(&last, &owner);
            sort_key = SortKey::of(first.octets(), key.octets(), 0, keys.len() as u32);
            keys.extend_from_slice(key.octets())?;
            last = owner;
        }
        sort_key.at = sort_keys.len() as u32;
        sort_keys.push(sort_key)?;
    }
    Ok((keys, sort_keys))
}
