//! A growing list of records, from which a zone is made.

pub(crate) mod octets;
pub(crate) mod stored;

ghost use Rattle.std.specs.Prelude.{◌≡◌, ◌≢◌, ◌⊎◌, ◌-◌, ◌^◌, ◌<◌, ◌≤◌, [], ◌∷◌, ◌++◌, length, IfOk, IfErr, OnOk, OnErr};
ghost use Rattle.dns_master.specs.SourceForm.{ReadsFile};

use crate::store::stored::StoredRecord;
use dns_master::{ReadCode, ReadFault, Record, RecordCollection, read_into};
use dns_name::{Name, Tally};
use std::alloc::{AllocError, Global};
use std::io::Read;
use std::marker::Model;

/// Records of a zone, in the order in which they were added.
///
/// Each takes 72 octets, and one allocation if its owner and data exceed 62 octets together.
#[derive(Drop)]
pub struct Store {
    alloc: Global,
    pub(crate) entries: Vec<StoredRecord>,
}

impl Model for Store {
    ghost use Rattle.std.specs.Prelude.{List};
    ghost use Rattle.dns_spec.specs.Records.{ResourceRecord};

    ghost Value = { List ResourceRecord };

    ghost view = { λ s. s.entries.items };
}

impl Store {
    /// An empty store.
    pub fn new(alloc: Global) -> Store
        ensures { result ≡ [] }
    {
        Store {
            alloc,
            entries: Vec::new(alloc),
        }
    }

    /// Reads the records of a zone file as `read_zone` does, relative to the origin of the zone,
    /// and fails as it does (RFC 1035 section 5).
    pub fn read<R: Read>(
        alloc: Global,
        origin: &Name,
        source: &mut Tally<R>,
    ) -> Result<Store, ReadFault>
        requires { source.old.failures < 2 ^ 64 - 1 }
        ensures { ReadsFile R.remaining source.old source.new origin.now (λ found. found) result }
    {
        let mut store = Store::new(alloc);
        read_into(alloc, origin, source, &mut store)?;
        Ok(store)
    }

    /// The number of records.
    pub fn count(&self) -> usize
        ensures { result ≡ length self.now }
    {
        self.entries.len()
    }

    /// Adds a record at the end. If allocation fails, the store is unchanged.
    pub fn add(&mut self, read: &Record) -> Result<(), AllocError>
        ensures added { OnOk result (self.new ≡ self.old ++ read.now ∷ []) }
        ensures unchanged { OnErr result (self.new ≡ self.old) }
    {
        let entry = StoredRecord::of(self.alloc, read)?;
        self.entries.push(entry)?;
        Ok(())
    }
}

impl RecordCollection for Store {
    ghost records = { λ s. s };

    fn add(&mut self, one: &Record) -> Result<(), AllocError> {
        Store::add(self, one)
    }
}
