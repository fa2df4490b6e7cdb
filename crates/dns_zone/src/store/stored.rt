//! Records in the compact form in which a zone stores them.
ghost use Rattle.std.specs.Prelude.{◌≡◌, IfOk};
ghost use Rattle.dns_spec.specs.Names.{folded};
ghost use Rattle.dns_spec.specs.Data.{Valid, lower_case};
ghost use Rattle.dns_spec.specs.Records.{records_equal};
ghost use Rattle.dns_spec.specs.ZonePrinted.{IsReadRecord};

use crate::store::octets::RecordOctets;
use dns_master::Record;
use dns_name::{NameRef, are_equal};
use dns_rdata::RType;
use std::alloc::{AllocError, Global};
use std::marker::Model;

/// A record. Takes 72 octets, and one allocation if its owner and data exceed 62 octets together.
#[derive(Drop)]
pub(crate) struct StoredRecord {
    // The owner in wire form, of `owner_octets` octets, followed by the data.
    octets: RecordOctets,
    owner_octets: u8,
    /// Its type.
    pub(crate) rtype: RType,
    /// Its TTL in seconds.
    pub(crate) ttl: u32,
}

impl Model for StoredRecord {
    ghost use Rattle.dns_spec.specs.Records.{ResourceRecord};
    ghost use Rattle.dns_zone.specs.EntryForm.{owner_in, data_in, octets_in, IsEntry};

    ghost Value = { ResourceRecord };

    ghost view = { λ e. record {
      owner = owner_in e.owner_octets (octets_in e.octets);
      ttl = e.ttl;
      rtype = e.rtype.0;
      rdata = data_in e.owner_octets (octets_in e.octets);
    } };

    ghost invariant = { λ e. IsEntry e.owner_octets (octets_in e.octets) e.ttl e.rtype.0 };
}

impl StoredRecord {
    /// A copy of a record. At most one allocation is made, for its octets.
    pub(crate) fn of(alloc: Global, read: &Record) -> Result<StoredRecord, AllocError>
        ensures { IfOk result (λ entry. entry ≡ read.now) }
    {
        let owner = read.owner.octets();
        let data = read.rdata.octets();
        Ok(StoredRecord {
            octets: RecordOctets::of(alloc, owner, data)?,
            owner_octets: owner.len() as u8,
            rtype: read.rtype,
            ttl: read.ttl,
        })
    }

    pub(crate) fn owner(&self) -> NameRef<'_>
        ensures value { result ≡ self.now.owner }
        ensures lower { folded result ≡ result }
        ensures read { IsReadRecord self.now }
    {
        let count = self.owner_octets as usize;
        NameRef::new(self.octets.borrowed().split_at(count).0)
    }

    pub(crate) fn rdata(&self) -> &[u8]
        ensures value { result.now ≡ self.now.rdata }
        ensures valid { Valid self.now.rtype self.now.rdata }
        ensures lower { lower_case self.now.rtype self.now.rdata ≡ self.now.rdata }
    {
        let count = self.owner_octets as usize;
        self.octets.borrowed().split_at(count).1
    }

    /// Whether two records are the same: owner, type and data (RFC 2181 5), and TTL.
    pub(crate) fn is_same(&self, other: &StoredRecord) -> bool
        ensures { result ≡ records_equal self.now other.now }
    {
        self.rtype == other.rtype
            && are_equal(self.rdata(), other.rdata())
            && self.owner() == other.owner()
            && self.ttl == other.ttl
    }
}
