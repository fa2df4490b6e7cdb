//! The children of a node, whose labels are compared only by a function that counts.
ghost use Rattle.std.specs.Prelude.{◌≡◌, ◌+◌, ◌<◌, ◌∷◌, map, length};
ghost use Rattle.std.specs.Char.{to_ascii_lowercase};
ghost use Rattle.dns_spec.specs.Names.{label_order};
ghost use Rattle.dns_zone.specs.LabelKey.{IsKey};
ghost use Rattle.dns_zone.specs.TreeForm.{row_label, row_name, IsRow};
ghost use Rattle.dns_zone.specs.NodeForm.{AreChildrenAt, IsZoneNode, node_at, child_rows, child_label};

use crate::store::stored::StoredRecord;
use crate::tree::counts::Counts;
use crate::tree::label_key::{KEY_OCTETS, LabelKey, first_label_octets, order_to};
use crate::tree::node::Node;
use crate::tree::octets_of;
use crate::tree::row::{Row, RowNumber};
use crate::tree::zone_tree::Tree;
use dns_name::NameRef;
use std::cmp::Ordering;
use std::marker::Model;

/// The children of a node, in the order of their labels. The labels are not handed out: only `order`
/// reads them, and it counts each comparison.
#[derive(Drop)]
pub(crate) struct Children<'z> {
    tree: &'z Tree,
    parent: RowNumber,
    start: usize,
    rows: &'z [Row],
}

impl<'z> Model for Children<'z> {
    ghost use Rattle.dns_zone.specs.NodeForm.{TreeRow, AreChildrenAt};

    ghost Value = { TreeRow };

    ghost view = { λ k. record { tree = k.tree.now; row = k.parent.0 } };

    ghost invariant = { λ k. AreChildrenAt (record { tree = k.tree.now; row = k.parent.0 }) k.start
        k.rows.now };
}

impl<'z> Children<'z> {
    /// The children of the node of the row `parent`: the rows from number `start` on.
    pub(crate) fn new(
        tree: &'z Tree,
        parent: RowNumber,
        start: usize,
        rows: &'z [Row],
    ) -> Children<'z>
        requires { AreChildrenAt (record { tree = tree.now; row = parent.0 }) start rows.now }
        ensures { result ≡ record { tree = tree.now; row = parent.0 } }
    {
        Children {
            tree,
            parent,
            start,
            rows,
        }
    }

    pub(crate) fn len(&self) -> usize
        ensures { result ≡ length (child_rows self.now) }
    {
        self.rows.len()
    }

    /// Compares the label of child `i` with another label, whose key is `key`. The comparison is
    /// counted.
    pub(crate) fn order(
        &self,
        i: usize,
        key: &LabelKey,
        label: &[u8],
        counts: &mut Counts,
    ) -> Ordering
        requires child { i < length (child_rows self.now) }
        requires key { IsKey key.now (map to_ascii_lowercase label.now) }
        requires room { counts.old.comparisons < 4294967295 }
        ensures order { result ≡ label_order (child_label self.now i)
            (map to_ascii_lowercase label.now) }
        ensures counted { counts.new ≡ record counts.old { comparisons = counts.old.comparisons + 1 } }
    {
        counts.count_comparison();
        order_of(self.tree.zone().records(), &self.rows[i], key, label)
    }

    /// The row of child `i`.
    pub(crate) fn row(&self, i: usize) -> RowNumber
        requires child { i < length (child_rows self.now) }
        ensures at { IsZoneNode self.now.tree result.0 }
        ensures node { node_at self.now.tree result.0 ≡ record {
          zone = self.now.tree.zone;
          name = child_label self.now i ∷ (node_at self.now.tree self.now.row).name;
        } }
    {
        RowNumber(self.start + i)
    }

    /// Visits the node of a row; the visit is counted.
    pub(crate) fn visit(&self, row: RowNumber, counts: &mut Counts) -> Node<'z>
        requires at { IsZoneNode self.now.tree row.0 }
        requires visits { counts.old.visits < 4294967295 }
        ensures node { result ≡ node_at self.now.tree row.0 }
        ensures visits { counts.new ≡ record counts.old { visits = counts.old.visits + 1 } }
    {
        counts.count_visit();
        Node::at(self.tree, row)
    }
}

// Compares a row's label with another label, whose key is `key`. Usually the keys differ. If they
// are equal and one label has no octets beyond its key, that label is a prefix of the other.
fn order_of(records: &[StoredRecord], row: &Row, key: &LabelKey, label: &[u8]) -> Ordering
    requires row { IsRow records.now row.now (row_name records.now row.now) }
    requires key { IsKey key.now (map to_ascii_lowercase label.now) }
    ensures { result ≡ label_order (row_label records.now row.now)
        (map to_ascii_lowercase label.now) }
{
    if row.key.front != key.front {
        return row.key.front.cmp(&key.front);
    }
    if row.key.next != key.next {
        return row.key.next.cmp(&key.next);
    }
    let count = usize::from(row.label_octets);
    if count <= KEY_OCTETS || label.len() <= KEY_OCTETS {
        return count.cmp(&label.len());
    }
    let own = first_label_octets(&NameRef::new(octets_of(records, row)));
    order_to(own.split_at(KEY_OCTETS).1, label.split_at(KEY_OCTETS).1)
}
