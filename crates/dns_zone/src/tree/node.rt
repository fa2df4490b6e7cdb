//! The nodes of a zone: the names that exist in it (RFC 1034 3.1, RFC 4592 2.2).
ghost use Rattle.std.specs.Prelude.{◌≡◌, ◌+◌, ◌<◌, ◌≤◌, ◌↔◌, [], ◌∷◌, map, length, get_or, if◌then◌else◌, IsTrue, IsSome, IfSome, MatchOption};
ghost use Rattle.std.specs.List.{slice_get};
ghost use Rattle.std.specs.Option.{is_some, option_and_then};
ghost use Rattle.std.specs.Char.{to_ascii_lowercase};
ghost use Rattle.std.specs.List.Sorted.{IsNonDecreasingBy};
ghost use Rattle.dns_spec.specs.Records.{ResourceRecord, at, rrset};
ghost use Rattle.dns_spec.specs.Sets.{set_of, of_lowest_type};
ghost use Rattle.dns_spec.specs.Tree.{exists};
ghost use Rattle.dns_zone.specs.Nodes.{IsNode, IsSetOf};
ghost use Rattle.dns_zone.specs.NodeForm.{node_at, IsZoneNode};
ghost use Rattle.dns_zone.specs.TreeForm.{children_at};

use crate::order::lookup::of_type;
use crate::store::stored::StoredRecord;
use crate::tree::children::Children;
use crate::tree::row::RowNumber;
use crate::tree::set::{RecordSet, set_ref};
use crate::tree::zone_tree::Tree;
use dns_name::NameRef;
use dns_rdata::RType;
use std::marker::Model;

/// A name that exists in a zone: it, or a name below it, owns a record (RFC 4592 2.2).
///
/// It borrows from the zone, as do its sets. Nodes come only from a walk, which counts them.
#[derive(Drop)]
pub struct Node<'z> {
    tree: &'z Tree,
    row: RowNumber,
}

impl<'z> Model for Node<'z> {
    ghost use Rattle.dns_zone.specs.Nodes.{ZoneNode};

    ghost Value = { ZoneNode };

    ghost use Rattle.dns_zone.specs.NodeForm.{node_at, IsZoneNode};

    ghost view = { λ n. node_at n.tree.now n.row.0 };

    ghost invariant = { λ n. IsZoneNode n.tree.now n.row.0 };
}

impl<'z> Node<'z> {
    pub(crate) fn at(tree: &'z Tree, row: RowNumber) -> Node<'z>
        requires { IsZoneNode tree.now row.0 }
        ensures { result ≡ node_at tree.now row.0 }
    {
        Node { tree, row }
    }

    /// The node's name, in lower case, borrowed from the zone.
    pub fn name(&self) -> NameRef<'z>
        ensures { result ≡ self.now.name }
    {
        self.tree.name(self.row)
    }

    /// The records of a type at the name, in the order of the octets of their data; `None` if the
    /// name owns no record of the type (RFC 2181 5).
    pub fn set(&self, rtype: RType) -> Option<RecordSet<'z>>
        ensures set { result ≡ set_of (rrset self.now.zone self.now.name rtype.0) }
        ensures rtype { IfSome result (λ s. s.rtype ≡ rtype.0) }
        ensures kept { IfSome result (IsSetOf self.now) }
    {
        set_ref(of_type(self.own(), rtype))
    }

    /// The node's name in lower case, borrowed from the zone; `None` if it owns no record.
    pub fn owner(&self) -> Option<NameRef<'z>>
        ensures name { MatchOption result (at self.now.zone self.now.name ≡ [])
            (λ n. n ≡ self.now.name) }
        ensures node { IsNode self.now.zone self.now.name }
    {
        let first = self.own().first()?;
        Some(first.owner())
    }

    /// The records of the lowest type at the name; `None` if it owns no record.
    #[tactic(auto, using(crate::proofs::Common::first_rest, crate::proofs::NodeSets::lowest))]
    pub fn first_set(&self) -> Option<RecordSet<'z>>
        ensures set { result ≡ set_of (of_lowest_type (at self.now.zone self.now.name)) }
        ensures kept { IfSome result (IsSetOf self.now) }
    {
        let own = self.own();
        let first = own.first()?;
        self.set(first.rtype)
    }

    /// The node's children.
    pub(crate) fn children(&self) -> Children<'z>
        ensures at { IsZoneNode result.tree result.row }
        ensures node { node_at result.tree result.row ≡ self.now }
    {
        self.tree.children(self.row)
    }

    fn own(&self) -> &'z [StoredRecord]
        ensures own { result.now ≡ at self.now.zone self.now.name }
        ensures by_types { IsNonDecreasingBy (λ (r : ResourceRecord). r.rtype) result.now }
        ensures node { IsNode self.now.zone self.now.name }
    {
        self.tree.own(self.row)
    }
}
