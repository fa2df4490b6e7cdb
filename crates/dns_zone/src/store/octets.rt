//! The octets of a stored record: inside the record if they are few, as for most records.
ghost use Rattle.std.specs.Prelude.{◌≡◌, ◌+◌, ◌≤◌, ◌++◌, length, IfOk};
ghost use Rattle.dns_zone.specs.EntryForm.{octets_in};

use std::alloc::{AllocError, Global};
use std::marker::Model;

/// The most octets that are stored inside a record; with them a record takes 72 octets.
pub(crate) const MOST_IN_PLACE: usize = 62;

/// At most 62 octets.
#[derive(Drop)]
pub(crate) struct FewOctets {
    octets: [u8; MOST_IN_PLACE],
    count: u8,
}

impl Model for FewOctets {
    ghost use Rattle.std.specs.Prelude.{◌≤◌, take};
    ghost use Rattle.dns_spec.specs.Names.{Octets};

    ghost Value = { Octets };

    ghost view = { λ f. take f.count f.octets };

    ghost invariant = { λ f. f.count ≤ 62 };
}

impl FewOctets {
    fn of(owner: &[u8], rdata: &[u8]) -> FewOctets
        requires { length owner.now + length rdata.now ≤ 62 }
        ensures { result ≡ owner.now ++ rdata.now }
    {
        let mut octets = [0; MOST_IN_PLACE];
        let (front, rest) = octets.as_mut_slice().split_at_mut(owner.len());
        front.copy_from_slice(owner);
        rest[..rdata.len()].copy_from_slice(rdata);
        FewOctets {
            octets,
            count: (owner.len() + rdata.len()) as u8,
        }
    }

    fn borrowed(&self) -> &[u8]
        ensures { result.now ≡ self.now }
    {
        self.octets.as_slice().split_at(self.count as usize).0
    }
}

/// The octets of a record: its owner in wire form, then its data.
#[derive(Drop)]
pub(crate) enum RecordOctets {
    Few(FewOctets),
    Many(Vec<u8>),
}

impl RecordOctets {
    /// A copy of an owner and of data. Makes one allocation if both exceed 62 octets together.
    pub(crate) fn of(alloc: Global, owner: &[u8], rdata: &[u8]) -> Result<RecordOctets, AllocError>
        ensures { IfOk result (λ octets. octets_in octets ≡ owner.now ++ rdata.now) }
    {
        let count = owner.len() + rdata.len();
        if count <= MOST_IN_PLACE {
            return Ok(RecordOctets::Few(FewOctets::of(owner, rdata)));
        }
        let mut octets = Vec::with_capacity(alloc, count)?;
        octets.extend_from_slice(owner)?;
        octets.extend_from_slice(rdata)?;
        Ok(RecordOctets::Many(octets))
    }

    pub(crate) fn borrowed(&self) -> &[u8]
        ensures { result.now ≡ octets_in self.now }
    {
        match self {
            RecordOctets::Few(few) => few.borrowed(),
            RecordOctets::Many(octets) => octets.as_slice(),
        }
    }
}
