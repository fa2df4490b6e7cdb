//! Finds a child by its label, by binary search. Labels of children are compared by `Children` alone,
//! which counts.
ghost use Rattle.std.specs.Prelude.{◌≡◌, ◌+◌, ◌<◌, ◌≤◌, ◌↔◌, ◌∷◌, map, length, if◌then◌else◌, IsTrue, IsSome, IfSome, IsNone};
ghost use Rattle.std.specs.Option.{is_some};
ghost use Rattle.std.specs.Char.{to_ascii_lowercase};
ghost use Rattle.dns_spec.specs.Tree.{exists};
ghost use Rattle.dns_zone.specs.TreeForm.{row_label};
ghost use Rattle.dns_zone.specs.NodeForm.{IsZoneNode, node_at, child_rows, child_label};
ghost use Rattle.dns_spec.proofs.General.Elements.{Among};

use crate::tree::children::Children;
use crate::tree::counts::Counts;
use crate::tree::label_key::LabelKey;
use crate::tree::node::Node;
use crate::tree::row::RowNumber;
use crate::tree::steps::Steps;
use dns_name::Label;
use std::cmp::Ordering;

impl<'z> Node<'z> {
    /// Visits the child with this label, if that name exists. Labels are compared without regard
    /// to the case of ASCII letters (RFC 1035 2.3.3). The visit and each comparison of labels are
    /// counted.
    ///
    /// A node has at most 100,000 children, so 17 comparisons find a label. Preconditions: the
    /// steps are over the node's zone, `visits` is below 4,294,967,295, and `comparisons` is at
    /// most 4,294,967,278.
    pub fn down(&self, label: Label<'_>, steps: &mut Steps<'z>) -> Option<Node<'z>>
        requires zone { steps.old.zone ≡ self.now.zone }
        requires visits { steps.old.visits < 4294967295 }
        requires comparisons { steps.old.comparisons ≤ 4294967278 }

        ensures child { IsSome result ↔ IsTrue
            (exists self.now.zone (label.entry ∷ self.now.name)) }
        ensures node { IfSome result (λ n. n ≡ record {
          zone = self.now.zone;
          name = map to_ascii_lowercase label.entry ∷ self.now.name;
        }) }

        ensures visits { steps.new.visits ≡ steps.old.visits + (if is_some result then 1 else 0) }
        ensures rise { steps.old.comparisons ≤ steps.new.comparisons }
        ensures bound { steps.new.comparisons ≤ steps.old.comparisons + 17 }
        ensures compared { IfSome result (λ _. steps.old.comparisons < steps.new.comparisons) }
        ensures same_zone { steps.new.zone ≡ steps.old.zone }
    {
        let children = self.children();
        let row = child_of(&children, &label, &mut steps.counts)?;
        Some(children.visit(row, &mut steps.counts))
    }
}

// The row of the child with this label, if that name exists. Each comparison of labels is counted.
#[inline(always)]
pub(crate) fn child_of(
    children: &Children<'_>,
    label: &Label<'_>,
    counts: &mut Counts,
) -> Option<RowNumber>
    requires at { IsZoneNode children.now.tree children.now.row }
    requires comparisons { counts.old.comparisons ≤ 4294967278 }

    ensures child { IsSome result ↔ IsTrue
        (exists children.now.tree.zone
        (label.now ∷ (node_at children.now.tree children.now.row).name)) }
    ensures at { IfSome result (λ k. IsZoneNode children.now.tree k.0) }
    ensures node { IfSome result (λ k. node_at children.now.tree k.0 ≡ record {
      zone = children.now.tree.zone;
      name = map to_ascii_lowercase label.now ∷ (node_at children.now.tree children.now.row).name;
    }) }

    ensures rise { counts.old.comparisons ≤ counts.new.comparisons }
    ensures bound { counts.new.comparisons ≤ counts.old.comparisons + 17 }
    ensures compared { IfSome result (λ _. counts.old.comparisons < counts.new.comparisons) }
    ensures visits { counts.new.visits ≡ counts.old.visits }
{
    let found = find(children, label.octets(), counts)?;
    Some(children.row(found))
}

// The index of the child with this label, whatever its case, if there is one. Each comparison is
// counted; there are at most 17, since 100,000 children are fewer than 2 ^ 17.
fn find(children: &Children<'_>, label: &[u8], counts: &mut Counts) -> Option<usize>
    requires at { IsZoneNode children.now.tree children.now.row }
    requires comparisons { counts.old.comparisons ≤ 4294967278 }

    ensures found { IfSome result (λ i. (i < length (child_rows children.now))
        × (child_label children.now i ≡ map to_ascii_lowercase label.now)) }
    ensures none { IsNone result → Among (map to_ascii_lowercase label.now)
        (map (row_label children.now.tree.zone.records) (child_rows children.now)) → ⊥ }

    ensures rise { counts.old.comparisons ≤ counts.new.comparisons }
    ensures bound { counts.new.comparisons ≤ counts.old.comparisons + 17 }
    ensures compared { IfSome result (λ _. counts.old.comparisons < counts.new.comparisons) }
    ensures visits { counts.new.visits ≡ counts.old.visits }
{
    let key = LabelKey::of(label);
    let (mut low, mut high) = (0, children.len());
    'halves: while low < high {
        let middle = (low + high) / 2;
        match children.order(middle, &key, label, counts) {
            Ordering::Less => low = middle + 1,
            Ordering::Equal => return Some(middle),
            Ordering::Greater => high = middle,
        }
    }
    None
}
