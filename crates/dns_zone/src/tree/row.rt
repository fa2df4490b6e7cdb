//! Rows of a tree of names.
ghost use Rattle.std.specs.Prelude.{◌≡◌, ◌<◌, ◌≤◌, true, [], length, take, drop, get_or};
ghost use Rattle.dns_spec.specs.Names.{folded, at_or_below};
ghost use Rattle.dns_zone.specs.ZoneForm.{IsCanonical};
ghost use Rattle.dns_zone.specs.TreeForm.{owners, under, IsRow};

use crate::order::lookup::{count_in_front, count_under};
use crate::store::stored::StoredRecord;
use crate::tree::label_key::{LabelKey, first_label_octets};
use dns_name::NameRef;

/// The number of a node's row in its tree. The origin's is 0.
#[derive(Clone, Copy, Default)]
pub(crate) struct RowNumber(pub(crate) usize);

/// A name of a zone: which of the zone's records, in canonical order, are at or below it, and
/// which are its own.
#[derive(Drop)]
pub(crate) struct Row {
    /// The index of the first record at or below the name.
    pub(crate) first: u32,
    /// The index after the name's own records, which come first.
    pub(crate) own_end: u32,
    /// The index after the records at or below the name.
    pub(crate) end: u32,
    /// The offset at which the name begins in the wire form of the first record's owner, which ends
    /// with the name.
    pub(crate) offset: u8,
    /// The length of the name's first label.
    pub(crate) label_octets: u8,
    /// The key of the name's first label.
    pub(crate) key: LabelKey,
}

impl Row {
    /// The row of a name. The owner of the record at `first` is at or below the name. The owners of
    /// the records before `first` and from `end` on are not.
    pub(crate) fn of(records: &[StoredRecord], name: &NameRef<'_>, first: usize, end: usize) -> Row
        requires canonical { IsCanonical records.now }
        requires lower { folded name.now ≡ name.now }
        requires some { first < end }
        requires fits { end ≤ length records.now }
        requires here { at_or_below (get_or (owners records.now) first []) name.now ≡ true }
        requires before { under name.now (take first records.now) ≡ [] }
        requires after { under name.now (drop end records.now) ≡ [] }
        ensures row { IsRow records.now result name.now }
        ensures first { result.first ≡ first }
    {
        let others = &records[first..end];
        let own = count_in_front(others, name);
        // The first record is at or below the name, even if it is not the name's own.
        let known = own.max(1);
        let (_, after) = others.split_at(known);
        let label = first_label_octets(name);
        Row {
            first: first as u32,
            own_end: (first + own) as u32,
            end: (first + (known + count_under(after, name))) as u32,
            offset: (records[first].owner().octets().len() - name.octets().len()) as u8,
            label_octets: label.len() as u8,
            key: LabelKey::of(label),
        }
    }
}
