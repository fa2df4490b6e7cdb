//! Zones without faults whose names can be walked.
ghost use Rattle.std.specs.Prelude.{◌≡◌, ◌≤◌, [], length, IfOk, IfErr};
ghost use Rattle.dns_spec.specs.Names.{folded};
ghost use Rattle.dns_spec.specs.Records.{zone_of, ordered_zone, zone_serial};
ghost use Rattle.dns_spec.specs.Checks.{faults};
ghost use Rattle.dns_spec.specs.Meaning.{most_records};
ghost use Rattle.dns_zone.specs.ZoneForm.{IsBuilt, ReportsFaults};

use crate::build_fault::BuildFault;
use crate::checked::CheckedZone;
use crate::store::Store;
use crate::tree::steps::Steps;
use crate::tree::zone_tree::Tree;
use dns_master::Record;
use dns_name::Name;
use std::alloc::{AllocError, Global};
use std::marker::Model;

/// A zone without faults whose names can be walked, so that it can be served.
#[derive(Drop)]
pub struct Zone {
    pub(crate) tree: Tree,
}

impl Model for Zone {
    ghost use Rattle.dns_spec.specs.Records.{ZoneContents};

    ghost Value = { ZoneContents };

    ghost use Rattle.dns_zone.specs.NodeForm.{IsZoneTree};

    ghost view = { λ z. z.tree.zone };

    ghost invariant = { λ z. IsZoneTree z.tree };
}

impl Zone {
    /// Builds the zone with this origin and these records. Its records are without duplicates
    /// (RFC 2181 5), in canonical order (RFC 4034 6.1, 6.3).
    ///
    /// Fails as `Store::check` does. Precondition: there are at most 100,000 records, as in a zone
    /// file.
    pub fn build(alloc: Global, origin: &Name, records: Vec<Record>) -> Result<Zone, BuildFault>
        requires { length records.items ≤ most_records }
        ensures ok { IfOk result (λ zone. zone ≡ ordered_zone origin.now records.items) }
        ensures passes { IfOk result (λ zone. faults (zone_of origin.now records.items) ≡ []) }
        ensures faults { IfErr result (λ fault. ReportsFaults fault
            (zone_of origin.now records.items)) }
    {
        let mut store = Store::new(alloc);
        'records: for read in records.as_slice() {
            store.add(read)?;
        }
        drop(records);
        let zone = store.check(alloc, origin)?;
        Ok(Zone::of(alloc, zone)?)
    }

    /// Prepares a checked zone for serving: makes a tree of its names. Takes 36 octets of memory for
    /// each name.
    pub fn of(alloc: Global, zone: CheckedZone) -> Result<Zone, AllocError>
        ensures { IfOk result (λ whole. whole ≡ zone) }
    {
        let tree = Tree::of(alloc, zone)?;
        Ok(Zone { tree })
    }

    /// The origin of the zone, in lower case.
    pub fn origin(&self) -> &Name
        ensures origin { result.now ≡ self.now.origin }
        ensures lower { folded self.now.origin ≡ self.now.origin }
        ensures built { IsBuilt self.now }
    {
        self.tree.zone().origin()
    }

    /// The serial number of its SOA (RFC 1035 3.3.13).
    pub fn serial(&self) -> u32
        ensures { result ≡ zone_serial self.now }
    {
        self.tree.zone().serial()
    }
}

impl<'z> Steps<'z> {
    /// A walk over the zone, with counts of 0.
    pub fn new(zone: &'z Zone) -> Steps<'z>
        ensures { result ≡ record { zone = zone.now; visits = 0; comparisons = 0 } }
    {
        Steps::over(&zone.tree)
    }
}
