//! Zones that passed all checks.
ghost use Rattle.std.specs.Prelude.{◌≡◌, ◌≤◌, [], length, IfOk, IfErr};
ghost use Rattle.std.specs.List.{filter};
ghost use Rattle.dns_spec.specs.Names.{folded, same};
ghost use Rattle.dns_spec.specs.Records.{ResourceRecord, zone_of, ordered_zone, first_serial, zone_serial};
ghost use Rattle.dns_spec.specs.Checks.{faults};
ghost use Rattle.dns_spec.specs.Meaning.{most_records};
ghost use Rattle.dns_spec.specs.ZonePrinted.{is_soa};
ghost use Rattle.dns_zone.specs.ZoneForm.{IsBuilt, ReportsFaults};

use crate::build_fault::{BuildFault, CheckFaults};
use crate::checks::faults;
use crate::order::sort::sorted;
use crate::shared_slice::SharedSlice;
use crate::store::Store;
use crate::store::stored::StoredRecord;
use dns_name::{Name, NameRef};
use dns_rdata::{RType, Rdata};
use std::alloc::Global;
use std::marker::Model;

/// A zone without faults: an origin, and at most 100,000 records in canonical order, without
/// duplicates.
///
/// It can be printed. To be served, it must become a `Zone`, whose names can be walked.
#[derive(Drop)]
pub struct CheckedZone {
    pub(crate) origin: Name,
    pub(crate) records: SharedSlice<StoredRecord>,
}

impl Model for CheckedZone {
    ghost use Rattle.dns_spec.specs.Records.{ZoneContents};
    ghost use Rattle.dns_zone.specs.ZoneForm.{IsBuilt};

    ghost Value = { ZoneContents };

    ghost view = { λ z. record { origin = z.origin; records = z.records } };

    ghost invariant = { λ z. IsBuilt (record { origin = z.origin; records = z.records }) };
}

impl CheckedZone {
    /// The origin of the zone, in lower case.
    pub fn origin(&self) -> &Name
        ensures origin { result.now ≡ self.now.origin }
        ensures lower { folded self.now.origin ≡ self.now.origin }
        ensures built { IsBuilt self.now }
    {
        &self.origin
    }

    /// The serial number of its SOA (RFC 1035 3.3.13).
    pub fn serial(&self) -> u32
        ensures { result ≡ zone_serial self.now }
    {
        serial_at(&self.origin.borrowed(), self.records.borrowed())
    }

    pub(crate) fn records(&self) -> &[StoredRecord]
        ensures records { result.now ≡ self.now.records }
        ensures built { IsBuilt self.now }
    {
        self.records.borrowed()
    }
}

impl Store {
    /// Checks the records as `Zone::build` does. The zone contains them without duplicates
    /// (RFC 2181 5), in canonical order (RFC 4034 6.1, 6.3).
    ///
    /// Fails with `Faults`, which has all faults of the zone and keeps its records, or, only if
    /// allocation fails, with `NoMemory`. Precondition: there are at most 100,000 records, as in a
    /// zone file.
    pub fn check(self, alloc: Global, origin: &Name) -> Result<CheckedZone, BuildFault>
        requires { length self ≤ most_records }
        ensures ok { IfOk result (λ zone. zone ≡ ordered_zone origin.now self) }
        ensures passes { IfOk result (λ zone. faults (zone_of origin.now self) ≡ []) }
        ensures faults { IfErr result (λ fault. ReportsFaults fault (zone_of origin.now self)) }
    {
        let Store { entries, .. } = self;
        let origin = origin.fold();
        let (records, keyed) = sorted(alloc, &origin.borrowed(), entries)?;
        let found = faults(alloc, &origin.borrowed(), records.as_slice(), &keyed)?;
        if !found.is_empty() {
            return Err(BuildFault::Faults(CheckFaults {
                origin,
                records,
                found,
            }));
        }
        let records = SharedSlice::new(records);
        Ok(CheckedZone { origin, records })
    }
}

// The serial number of the first SOA at the origin, or 0 if the origin has no SOA.
fn serial_at(origin: &NameRef<'_>, records: &[StoredRecord]) -> u32
    ensures { result ≡ first_serial
        (filter is_soa (filter (λ (r : ResourceRecord). same r.owner origin.now) records.now)) }
{
    'records: for entry in records {
        if entry.owner().same(origin) && entry.rtype == RType::SOA {
            return Rdata::soa_serial(entry.rdata());
        }
    }
    0
}
