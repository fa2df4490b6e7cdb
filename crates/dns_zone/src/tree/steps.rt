//! A walk over the names of a zone, which counts its steps.
ghost use Rattle.std.specs.Prelude.{◌≡◌, ◌+◌, ◌<◌};
ghost use Rattle.dns_spec.specs.Names.{folded};
ghost use Rattle.dns_zone.specs.Nodes.{IsNode};
ghost use Rattle.dns_zone.specs.NodeForm.{IsZoneTree};
ghost use Rattle.dns_zone.specs.ZoneForm.{IsBuilt};

use crate::tree::counts::Counts;
use crate::tree::node::Node;
use crate::tree::row::RowNumber;
use crate::tree::zone_tree::Tree;
use dns_name::Name;
use std::marker::Model;

/// A walk over one zone: how many nodes it visited, and how many labels it compared.
///
/// A node comes only from a walk, which counts it. A walk cannot be copied, and neither the zone
/// nor another walk can be obtained from it. So all steps of code that is given a walk are counted.
#[derive(Drop)]
pub struct Steps<'z> {
    tree: &'z Tree,
    pub(crate) counts: Counts,
}

impl<'z> Model for Steps<'z> {
    ghost use Rattle.dns_zone.specs.Nodes.{Walk};
    ghost use Rattle.dns_zone.specs.NodeForm.{IsZoneTree};

    ghost Value = { Walk };

    ghost view = { λ s. record {
      zone = s.tree.now.zone;
      visits = s.counts.visits;
      comparisons = s.counts.comparisons;
    } };

    ghost invariant = { λ s. IsZoneTree s.tree.now };
}

impl<'z> Steps<'z> {
    /// A walk over a tree, with counts of 0.
    pub(crate) fn over(tree: &'z Tree) -> Steps<'z>
        requires { IsZoneTree tree.now }
        ensures { result ≡ record { zone = tree.now.zone; visits = 0; comparisons = 0 } }
    {
        Steps {
            tree,
            counts: Counts::over(tree),
        }
    }

    /// How many nodes were visited.
    pub fn visits(&self) -> u32
        ensures { result ≡ self.now.visits }
    {
        self.counts.visits()
    }

    /// How many times a label was compared with a child's label.
    pub fn comparisons(&self) -> u32
        ensures { result ≡ self.now.comparisons }
    {
        self.counts.comparisons()
    }

    /// The origin of the zone, in lower case.
    pub fn origin(&self) -> &'z Name
        ensures value { result.now ≡ self.now.zone.origin }
        ensures lower { folded self.now.zone.origin ≡ self.now.zone.origin }
        ensures built { IsBuilt self.now.zone }
    {
        self.tree.zone().origin()
    }

    /// Visits the node of the origin; the visit is counted.
    ///
    /// Precondition: `visits` is below 4,294,967,295.
    pub fn apex(&mut self) -> Node<'z>
        requires { self.old.visits < 4294967295 }
        ensures node { result ≡ record { zone = self.old.zone; name = self.old.zone.origin } }
        ensures exists { IsNode self.old.zone self.old.zone.origin }
        ensures visits { self.new.visits ≡ self.old.visits + 1 }
        ensures comparisons { self.new.comparisons ≡ self.old.comparisons }
        ensures zone { self.new.zone ≡ self.old.zone }
    {
        self.counts.count_visit();
        Node::at(self.tree, RowNumber(0))
    }
}
