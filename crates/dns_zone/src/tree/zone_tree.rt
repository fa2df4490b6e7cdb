//! The tree of a zone's names. No other file reads its rows: a node is given its own name and
//! records, and its children only as `Children`, which count the comparisons of their labels.
ghost use Rattle.std.specs.Prelude.{◌≡◌, IfOk};
ghost use Rattle.std.specs.List.Sorted.{IsNonDecreasingBy};
ghost use Rattle.dns_spec.specs.Records.{ResourceRecord, at};
ghost use Rattle.dns_zone.specs.NodeForm.{node_at, IsZoneNode, IsZoneTree};

use crate::checked::CheckedZone;
use crate::shared_slice::SharedSlice;
use crate::store::stored::StoredRecord;
use crate::tree::children::Children;
use crate::tree::row::{Row, RowNumber};
use crate::tree::{octets_of, rows_of};
use dns_name::NameRef;
use std::alloc::{AllocError, Global};

/// A zone and the tree of its names.
#[derive(Drop)]
pub(crate) struct Tree {
    zone: CheckedZone,
    // A row for each name, level by level. The children of a row are adjacent.
    rows: SharedSlice<Row>,
    // For each row the number of its first child's row, and at the end the number of all rows. The
    // children of a row end where those of the next row begin.
    bounds: SharedSlice<u32>,
}

impl Tree {
    /// The tree of a zone. Takes 36 octets of memory for each name.
    pub(crate) fn of(alloc: Global, zone: CheckedZone) -> Result<Tree, AllocError>
        ensures zone { IfOk result (λ tree. tree.zone ≡ zone) }
        ensures tree { IfOk result IsZoneTree }
    {
        let (rows, bounds) = rows_of(alloc, &zone.origin().borrowed(), zone.records())?;
        Ok(Tree { zone, rows, bounds })
    }

    pub(crate) fn zone(&self) -> &CheckedZone
        ensures { result.now ≡ self.now.zone }
    {
        &self.zone
    }

    /// The name of a row.
    pub(crate) fn name(&self, row: RowNumber) -> NameRef<'_>
        requires { IsZoneNode self.now row.0 }
        ensures { result ≡ (node_at self.now row.0).name }
    {
        let row = &self.rows.borrowed()[row.0];
        NameRef::new(octets_of(self.zone.records(), row))
    }

    /// The records of a row's name.
    pub(crate) fn own(&self, row: RowNumber) -> &[StoredRecord]
        requires { IsZoneNode self.now row.0 }
        ensures own { result.now ≡ at self.now.zone (node_at self.now row.0).name }
        ensures by_types { IsNonDecreasingBy (λ (r : ResourceRecord). r.rtype) result.now }
    {
        let row = &self.rows.borrowed()[row.0];
        &self.zone.records()[row.first as usize..row.own_end as usize]
    }

    /// The children of the node of a row.
    pub(crate) fn children(&self, row: RowNumber) -> Children<'_>
        requires { IsZoneNode self.now row.0 }
        ensures { result ≡ record { tree = self.now; row = row.0 } }
    {
        let bounds = self.bounds.borrowed();
        let start = bounds[row.0] as usize;
        let end = bounds[row.0 + 1] as usize;
        Children::new(self, row, start, &self.rows.borrowed()[start..end])
    }
}
