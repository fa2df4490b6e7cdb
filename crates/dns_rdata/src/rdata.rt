//! Data of records (RFC 1035 3.2.1): octets without compression, with names in lower case.
ghost use Rattle.std.specs.Prelude.{◌≡◌, ◌≤◌, ◌++◌, [], All, length, IfOk, OnOk, MatchResult, Some, IfSome, IsTrue, if◌then◌else◌};
ghost use Rattle.dns_spec.specs.Names.{is_name};
ghost use Rattle.dns_spec.specs.Data.{valid, Valid, fields_of, target, lower_case, part_octets, part_folded};
ghost use Rattle.dns_rdata.specs.Parts.{IsWirePart, before_name, part_for};

use crate::parts::{Part, are_cut};
use crate::rdata_fault::RdataFault;
use crate::rtype::RType;
use crate::table::fields_of_type;
use dns_name::NameRef;
use std::alloc::{AllocError, Global};
use std::marker::Model;

/// Data has at most 65,535 octets (RFC 1035 3.2.1).
pub(crate) const MAX_OCTETS: usize = 65_535;

/// The data of a record: its octets without compression, with names in lower case.
///
/// It does not contain the record type. A struct that holds both has the invariant that the data is
/// valid for the record type.
#[derive(Drop)]
pub struct Rdata {
    pub(crate) octets: Vec<u8>,
}

impl Model for Rdata {
    ghost use Rattle.std.specs.Prelude.{◌≤◌, length};
    ghost use Rattle.dns_spec.specs.Names.{Octets};

    ghost Value = { Octets };

    ghost view = { λ r. r.octets.items };

    ghost invariant = { λ r. length r.octets.items ≤ 65535 };
}

impl Rdata {
    /// The data with these octets, and with the ASCII letters of its names in lower case.
    ///
    /// Fails with `NotOfType` if the octets are invalid for the type: they do not exactly fill its
    /// fields, contain a compressed name or one that is too long, or are more than 65,535. For a
    /// type without a mnemonic, any octets are valid (RFC 3597 3). Fails with `NoMemory` only if
    /// allocation fails; it allocates at most once.
    pub fn from_wire(alloc: Global, rtype: RType, octets: &[u8]) -> Result<Rdata, RdataFault>
        ensures valid { IfOk result (λ d. Valid rtype.0 d) }
        ensures value { MatchResult result (λ d. Valid rtype.0 octets.now
            × (d ≡ lower_case rtype.0 octets.now))
            (λ fault. fault ≡
            (if valid rtype.0 octets.now then RdataFault.NoMemory else RdataFault.NotOfType)) }
    {
        Rdata::lowered(rtype, octets, Vec::new(alloc))
    }

    /// Data without octets. Does not allocate.
    pub fn empty(alloc: Global) -> Rdata
        ensures { result ≡ [] }
    {
        Rdata {
            octets: Vec::new(alloc),
        }
    }

    /// A copy with the same octets. Allocates at most once.
    pub fn copied(&self, alloc: Global) -> Result<Rdata, AllocError>
        ensures { IfOk result (λ copy. copy ≡ self.now) }
    {
        let mut octets = Vec::with_capacity(alloc, self.octets.len())?;
        octets.extend_from_slice(self.octets())?;
        Ok(Rdata { octets })
    }

    /// Data as `from_wire` returns it, stored in `memory`. Condition: `memory` is empty.
    pub(crate) fn lowered(rtype: RType, octets: &[u8], memory: Vec<u8>) -> Result<Rdata, RdataFault>
        requires { memory.items ≡ [] }
        ensures valid { IfOk result (λ d. Valid rtype.0 d) }
        ensures value { MatchResult result (λ d. Valid rtype.0 octets.now
            × (d ≡ lower_case rtype.0 octets.now))
            (λ fault. fault ≡
            (if valid rtype.0 octets.now then RdataFault.NoMemory else RdataFault.NotOfType)) }
    {
        if octets.len() > MAX_OCTETS || !are_cut(fields_of_type(rtype), octets) {
            return Err(RdataFault::NotOfType);
        }
        let mut lowered = memory;
        lowered.reserve_exact(octets.len())?;
        let mut parts = Rdata::parts(rtype, octets);
        'parts: while let Some(part) = parts.next() {
            append_lowered(part, &mut lowered)?;
        }
        Ok(Rdata { octets: lowered })
    }

    /// The octets, at most 65,535, without a length before them.
    pub fn octets(&self) -> &[u8]
        ensures value { result.now ≡ self.now }
        ensures bound { length result.now ≤ 65535 }
    {
        self.octets.as_slice()
    }

    /// The first name in valid data, if there is one, borrowed from the data: for example the
    /// server of NS, the target of CNAME, or the exchange of MX (RFC 1035 3.3.1, 3.3.9, 3.3.11).
    pub fn target(rtype: RType, octets: &[u8]) -> Option<NameRef<'_>>
        requires { Valid rtype.0 octets.now }
        ensures value { result ≡ target rtype.0 octets.now }
        ensures is_name { IfSome result (λ n. IsTrue (is_name n)) }
    {
        if let Some(count) = octets_before_target(rtype) {
            let (_, name) = octets.split_at(count);
            return Some(NameRef::new(name));
        }
        let mut parts = Rdata::parts(rtype, octets);
        'parts: while let Some(part) = parts.next() {
            if let Part::Name(octets) = part {
                return Some(NameRef::new(octets));
            }
        }
        None
    }
}

// A fast path: the number of octets before the target, for types whose data is numbers, if any, and
// one name (RFC 1035 3.3.1, 3.3.9, 3.3.11 and 3.3.12, RFC 2782). For a type that is not listed here
// the caller finds the target by the fields in `table`.
fn octets_before_target(rtype: RType) -> Option<usize>
    ensures { IfSome result (λ k. before_name (fields_of rtype.0) ≡ Some k) }
{
    match rtype {
        RType::NS | RType::CNAME | RType::PTR => Some(0),
        RType::MX => Some(2),
        RType::SRV => Some(6),
        _ => None,
    }
}

fn append_lowered(part: Part<'_>, octets: &mut Vec<u8>) -> Result<(), AllocError>
    requires { IsWirePart part }
    ensures { OnOk result (octets.new.items
        ≡ octets.old.items ++ part_octets (part_folded (part_for part.entry))) }
{
    match part {
        Part::Octets(run) => octets.extend_from_slice(run),
        Part::Name(name) => {
            let name = NameRef::new(name).to_name().fold();
            octets.extend_from_slice(name.octets())
        }
    }
}
