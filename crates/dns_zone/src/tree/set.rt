//! The RRsets of a node, borrowed from the zone.
ghost use Rattle.std.specs.Prelude.{◌≡◌, ◌<◌, [], length, get_or, IfSome, IsTrue};
ghost use Rattle.dns_spec.specs.Names.{folded, is_name};
ghost use Rattle.dns_spec.specs.Data.{target};
ghost use Rattle.dns_spec.specs.Sets.{set_of};
ghost use Rattle.dns_zone.specs.SetForm.{AreOfType};

use crate::checks::target::target;
use crate::store::stored::StoredRecord;
use dns_name::NameRef;
use dns_rdata::{RType, SetView};
use std::marker::Model;

/// The records of one type at a name of a zone (RFC 2181 5), ordered by data octets; data that is
/// a prefix of other data comes first.
#[derive(Drop)]
pub struct RecordSet<'z> {
    rtype: RType,
    ttl: u32,
    records: &'z [StoredRecord],
}

impl<'z> Model for RecordSet<'z> {
    ghost use Rattle.dns_spec.specs.Sets.{RecordSet as SetValue};
    ghost use Rattle.dns_zone.specs.SetForm.{set_of_type, IsOfType};

    ghost Value = { SetValue };

    ghost view = { λ s. set_of_type s.rtype.0 s.ttl s.records.now };

    ghost invariant = { λ s. IsOfType s.rtype.0 s.records.now };
}

impl<'z> RecordSet<'z> {
    /// The first name in the data of record `i`, counted from 0: the server of NS, the target of
    /// CNAME or SRV, the exchange of MX (RFC 1035 3.3.1, 3.3.9, 3.3.11, RFC 2782). It is in lower
    /// case, and borrowed from the zone. `None` if the data contains no name. Precondition: `i` is
    /// below `len`.
    pub fn target(&self, i: usize) -> Option<NameRef<'z>>
        requires { i < length self.now.rdata }
        ensures value { result ≡ target self.now.rtype (get_or self.now.rdata i []) }
        ensures is_name { IfSome result (λ m. IsTrue (is_name m)) }
        ensures lower { IfSome result (λ m. folded m ≡ m) }
    {
        let records = self.records;
        target(&records[i])
    }
}

// The set of these records, which have one type. Its TTL is that of the first record; in a checked
// zone all records of a set have the same TTL (RFC 2181 5.2). `None` if there are no records.
pub(crate) fn set_ref<'z>(records: &'z [StoredRecord]) -> Option<RecordSet<'z>>
    requires { AreOfType records.now }
    ensures { result ≡ set_of records.now }
{
    let first = records.first()?;
    Some(RecordSet {
        rtype: first.rtype,
        ttl: first.ttl,
        records,
    })
}

impl SetView for RecordSet<'_> {
    ghost set = { λ s. s };

    fn rtype(&self) -> RType {
        self.rtype
    }

    fn ttl(&self) -> u32 {
        self.ttl
    }

    fn len(&self) -> usize {
        self.records.len()
    }

    fn rdata(&self, i: usize) -> &[u8] {
        let records = self.records;
        records[i].rdata()
    }
}
