//! The names of a zone as a list of rows, level by level. The children of a row are adjacent, in
//! the order of their labels.

pub(crate) mod children;
pub(crate) mod counts;
pub(crate) mod label_key;
pub(crate) mod labels;
pub(crate) mod lower_case;
pub(crate) mod node;
pub(crate) mod row;
pub(crate) mod search;
pub(crate) mod set;
pub(crate) mod sought;
pub(crate) mod steps;
pub(crate) mod zone_tree;

ghost use Rattle.std.specs.Prelude.{◌≡◌, ◌<◌, length, IfOk, OnOk};
ghost use Rattle.dns_name.specs.WireForm.{labels_of, IsWireForm};
ghost use Rattle.dns_zone.specs.ZoneForm.{IsBuilt, IsCanonical};
ghost use Rattle.dns_zone.specs.TreeForm.{row_octets, row_name, row_at, IsRow, IsTree};
ghost use Rattle.dns_zone.specs.TreeSteps.{AddsChildren};

use crate::order::above::shortest_end;
use crate::shared_slice::SharedSlice;
use crate::store::stored::StoredRecord;
use crate::tree::row::Row;
use dns_name::NameRef;
use std::alloc::{AllocError, Global};

/// The rows of all names of a zone, and for each row the row number of its first child. A row's
/// children end where the next row's children begin.
pub(crate) fn rows_of(
    alloc: Global,
    origin: &NameRef<'_>,
    records: &[StoredRecord],
) -> Result<(SharedSlice<Row>, SharedSlice<u32>), AllocError>
    requires { IsBuilt (record { origin = origin.now; records = records.now }) }
    ensures { IfOk result (λ (rows, bounds). IsTree origin.now records.now rows bounds) }
{
    // Room for the names of most zones. A list that outgrows its room is copied, while room that is
    // never used takes no memory.
    let most = 2 * records.len();
    let mut rows = Vec::with_capacity(alloc, most)?;
    let mut bounds = Vec::with_capacity(alloc, most)?;
    // All records of a zone are at or below the origin.
    rows.push(Row::of(records, origin, 0, records.len()))?;
    bounds.push(1)?;
    'rows: for number in 0..usize::MAX {
        if number == rows.len() {
            break;
        }
        add_children(records, number, &mut rows)?;
        bounds.push(to_u32(rows.len())?)?;
    }
    Ok((SharedSlice::new(rows), SharedSlice::new(bounds)))
}

// A number of rows as a `u32`. Fails only from 2^32 rows on, which would take over 128 GB.
pub(crate) fn to_u32(rows: usize) -> Result<u32, AllocError>
    ensures { IfOk result (λ number. number ≡ rows) }
{
    u32::try_from(rows).ok().ok_or(AllocError)
}

// Adds the rows of a row's children after all other rows.
fn add_children(
    records: &[StoredRecord],
    number: usize,
    rows: &mut Vec<Row>,
) -> Result<(), AllocError>
    requires canonical { IsCanonical records.now }
    requires number { number < length rows.old.items }
    requires row { IsRow records.now (row_at rows.old.items number)
        (row_name records.now (row_at rows.old.items number)) }
    ensures { OnOk result (AddsChildren records.now
        (row_name records.now (row_at rows.old.items number)) rows.old.items rows.new.items) }
{
    let row = &rows[number];
    let parent = octets_of(records, row);
    let end = row.end as usize;
    let mut next = row.own_end as usize;
    'children: while next < end {
        let name = shortest_end(&records[next].owner(), parent.len() + 1);
        let child = Row::of(records, &name, next, end);
        next = child.end as usize;
        rows.push(child)?;
    }
    Ok(())
}

// The wire form of a row's name.
pub(crate) fn octets_of<'a>(records: &'a [StoredRecord], row: &Row) -> &'a [u8]
    requires { IsRow records.now row.now (row_name records.now row.now) }
    ensures octets { result.now ≡ row_octets records.now row.now }
    ensures wire { IsWireForm result.now }
    ensures name { labels_of result.now ≡ row_name records.now row.now }
{
    let first = &records[row.first as usize];
    first.owner().octets().split_at(row.offset as usize).1
}
