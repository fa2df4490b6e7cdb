//! Collections of the records of a zone file.
ghost use Rattle.std.specs.Prelude.{◌≡◌, [], ◌∷◌, ◌++◌, List, OnOk};
ghost use Rattle.dns_spec.specs.Records.{ResourceRecord};

use crate::record::Record;
use std::alloc::{AllocError, Global};

/// A collection to which the reader adds records, in any form that the caller needs.
pub trait RecordCollection {
    /// The records of the collection, in the order in which they were added.
    ghost records: { Self → List ResourceRecord };

    /// Adds a record at the end. Fails only if allocation fails.
    fn add(&mut self, one: &Record) -> Result<(), AllocError>
        ensures { OnOk result (records self.new ≡ records self.old ++ one.now ∷ []) };
}

/// A list of whole records.
#[derive(Drop)]
pub(crate) struct WholeRecords {
    pub(crate) alloc: Global,
    pub(crate) records: Vec<Record>,
}

impl RecordCollection for WholeRecords {
    ghost records = { λ w. w.records.items };

    fn add(&mut self, one: &Record) -> Result<(), AllocError> {
        let copy = one.copied(self.alloc)?;
        self.records.push(copy)?;
        Ok(())
    }
}
