//! The canonical order of records: by owner (RFC 4034 6.1), type, data (RFC 4034 6.3) and TTL.

pub(crate) mod above;
pub(crate) mod key;
pub(crate) mod lookup;
pub(crate) mod owner_keys;
pub(crate) mod sort;
pub(crate) mod sort_key;

ghost use Rattle.std.specs.Prelude.{◌≡◌};
ghost use Rattle.std.specs.Ordering.{nat_cmp, ordering_then};
ghost use Rattle.dns_spec.specs.Records.{data_order};

use crate::store::stored::StoredRecord;
use std::cmp::Ordering;

// Compares two records of one owner: by type, then by data, then by TTL.
pub(crate) fn own_order(one: &StoredRecord, other: &StoredRecord) -> Ordering
    ensures { result ≡ ordering_then (nat_cmp one.now.rtype other.now.rtype)
        (ordering_then (data_order one.now other.now) (nat_cmp one.now.ttl other.now.ttl)) }
{
    one.rtype
        .0
        .cmp(&other.rtype.0)
        .then_with(|| one.rdata().cmp(other.rdata()))
        .then_with(|| one.ttl.cmp(&other.ttl))
}
