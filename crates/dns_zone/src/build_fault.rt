//! Why a zone is rejected.
ghost use Rattle.std.specs.Prelude.{◌≡◌, []};
ghost use Rattle.dns_zone.specs.FaultForm.{numbered_owner, faults_in, zone_in};
ghost use Rattle.dns_zone.specs.declared.build_fault.BuildFault.TheVariants.{NoMemory};

use crate::store::stored::StoredRecord;
use dns_name::{Name, NameRef};
use std::alloc::{AllocError, Global};

/// A fault of a zone. `CheckFaults::owner` gives the name for which it is reported.
#[derive(Clone, Copy)]
pub struct CheckFault {
    /// 0 if it is reported for the origin, else 1 more than the index of a record of its owner.
    pub(crate) owner: u32,
    /// The number of its code: 1 for `Z01`.
    pub code: u8,
}

/// The faults of a zone. They keep its origin and records, for the names of the owners.
#[derive(Drop)]
pub struct CheckFaults {
    pub(crate) origin: Name,
    pub(crate) records: Vec<StoredRecord>,
    /// Ordered by owner, then by code.
    pub found: Vec<CheckFault>,
}

impl CheckFaults {
    /// No faults.
    pub fn none(alloc: Global) -> CheckFaults
        ensures { faults_in result ≡ [] }
    {
        CheckFaults {
            origin: Name::root(),
            records: Vec::new(alloc),
            found: Vec::new(alloc),
        }
    }

    /// The name for which one of these faults is reported, in lower case.
    pub fn owner(&self, fault: &CheckFault) -> NameRef<'_>
        ensures { result ≡ numbered_owner (zone_in self.now) fault.now.owner }
    {
        if fault.owner == 0 {
            return self.origin.borrowed();
        }
        match self.records.get(fault.owner as usize - 1) {
            Some(record) => record.owner(),
            None => self.origin.borrowed(),
        }
    }
}

/// Why a zone is rejected.
#[derive(Drop)]
pub enum BuildFault {
    /// The faults of the zone, at least one.
    Faults(CheckFaults),
    /// Memory allocation failed.
    NoMemory,
}

impl From<AllocError> for BuildFault {
    ghost from_gives = { λ _ fault. fault ≡ NoMemory };

    fn from(_error: AllocError) -> BuildFault {
        BuildFault::NoMemory
    }
}
