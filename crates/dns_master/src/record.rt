//! Records of a zone file.
ghost use Rattle.std.specs.Prelude.{◌≡◌, IfOk};
ghost use Rattle.std.specs.Bool.{OnTrue, OnFalse};
ghost use Rattle.dns_spec.specs.Names.{DomainName, folded};
ghost use Rattle.dns_master.specs.RecordForm.{IsKept, SpelledName, SpelledOwner};

use dns_name::Name;
use dns_rdata::{RType, Rdata, Word};
use std::alloc::{AllocError, Global};
use std::marker::Model;

/// A record of class IN (RFC 1035 3.2.1). Its owner and the names in its data are in lower case,
/// and its data is valid for its type.
#[derive(Drop)]
pub struct Record {
    /// The owner name.
    pub owner: Name,
    /// The TTL in seconds, at most 2147483647 (RFC 2181 8).
    pub ttl: u32,
    /// The type.
    pub rtype: RType,
    /// The data.
    pub rdata: Rdata,
}

impl Model for Record {
    ghost use Rattle.dns_spec.specs.Records.{ResourceRecord};
    ghost use Rattle.dns_master.specs.RecordForm.{IsKept};

    ghost Value = { ResourceRecord };

    ghost view = { λ r. record {
      owner = r.owner;
      ttl = r.ttl;
      rtype = r.rtype.0;
      rdata = r.rdata;
    } };

    ghost invariant = { λ r. IsKept r.owner r.ttl r.rtype.0 r.rdata };
}

impl Record {
    /// Sets the owner to the name that an unquoted word spells, relative to the origin, in lower
    /// case. Returns false if the word is quoted or spells no name; the owner is then unspecified.
    pub(crate) fn spell_owner(&mut self, word: &Word<'_>, origin: &Name) -> bool
        ensures spelled { OnTrue result (SpelledOwner origin.now word.now self.new.owner) }
        ensures none { OnFalse result
            ((n : DomainName) → SpelledName origin.now word.now n → ⊥) }
        ensures low { folded self.new.owner ≡ self.new.owner }
    {
        !word.quoted && self.owner.spell(word.raw, origin).is_ok()
    }

    /// A copy. Allocates at most once, for the data.
    pub fn copied(&self, alloc: Global) -> Result<Record, AllocError>
        ensures { IfOk result (λ copy. copy ≡ self.now) }
    {
        Ok(Record {
            owner: self.owner.copied(),
            ttl: self.ttl,
            rtype: self.rtype,
            rdata: self.rdata.copied(alloc)?,
        })
    }
}
