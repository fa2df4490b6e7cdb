//! The addresses of a set's targets (RFC 1034 4.3.2 step 6).
ghost use Rattle.std.specs.Prelude.{◌≡◌, ◌*◌, ◌≤◌, ◌<◌, ◌⊎◌, [], length, true, false, IfSome};
ghost use Rattle.std.specs.List.{list_any, list_all, filter};
ghost use Rattle.dns_spec.specs.Names.{same, folded, at_or_below};
ghost use Rattle.dns_spec.specs.Answer.{item};
ghost use Rattle.dns_spec.specs.Records.{rrset};
ghost use Rattle.dns_spec.specs.Layout.{additional};
ghost use Rattle.dns_spec.specs.Sets.{HasValidData};
ghost use Rattle.dns_answer.specs.Walks.{IsStart, HasNodesLeft, Took};
ghost use Rattle.dns_answer.specs.ReplyBuilderForm.{Offers};
ghost use Rattle.dns_answer.specs.Targets.{addresses_of, depth_in, side_items, side_nodes, side_takes, Reaches, takes_target, set_targets, targets_of_first, target_at, target_items, target_nodes, target_misses};

use crate::lookup::{Cuts, PathEnd, or_start, walk};
use crate::reply_builder::ReplyBuilder;
use dns_name::NameRef;
use dns_rdata::{RType, SetView};
use dns_wire::Section;
use dns_zone::{Node, RecordSet, Sought, Steps};

/// Which targets are selected: all, those at or below a cut, or those that are not.
#[derive(Clone, Copy)]
pub(crate) enum Side<'c, 'n> {
    /// All targets.
    All,
    /// The targets at or below the cut, without whose addresses the client can't continue.
    Inside(&'c NameRef<'n>),
    /// The targets that are not at or below the cut.
    Outside(&'c NameRef<'n>),
}

impl Side<'_, '_> {
    fn takes(self, target: &NameRef<'_>) -> bool
        ensures { result ≡ side_takes self.entry target.now }
    {
        match self {
            Side::All => true,
            Side::Inside(cut) => target.at_or_below(cut),
            Side::Outside(cut) => !target.at_or_below(cut),
        }
    }
}

/// Offers the addresses of the selected targets of a set, in order, and only once for each target.
/// The path to each of them begins at `start`. Returns whether all targets are selected. Once the
/// reply is full, no further target is looked up, since its addresses would not be added; then the
/// result has no meaning.
pub(crate) fn offer_addresses<'z, const N: usize, const SIZE: usize>(
    set: &RecordSet<'z>,
    side: Side<'_, '_>,
    start: &Node<'z>,
    steps: &mut Steps<'z>,
    builder: &mut ReplyBuilder<N, SIZE>,
) -> bool
    requires start { IsStart steps.old.zone false start.now }
    requires reaches { Reaches steps.old.zone start.now.name (side_takes side) }
    requires valid { HasValidData set.now }
    requires few { length set.now.rdata ≤ 64 }
    requires room { HasNodesLeft steps.old (64 * 128) }
    ensures offers { Offers builder.old builder.new
        (side_items steps.old.zone (side_takes side.entry) [] (set_targets set.now)) }
    ensures took { Took steps.old steps.new
        (side_nodes steps.old.zone (side_takes side.entry) (set_targets set.now))
        (length (filter (side_takes side.entry) (set_targets set.now))) }
    ensures bound { Took steps.old steps.new (127 * 64) 64 }
    ensures all { (builder.new.full ≡ true)
        ⊎ (result ≡ list_all (side_takes side.entry) (set_targets set.now)) }
{
    let mut all = true;
    'targets: for i in 0..set.len() {
        if builder.is_full() {
            return all;
        }
        all &= offer_target(set, i, side, start, steps, builder);
    }
    all
}

// Offers the addresses of the target of record `i`, if the target is selected and no earlier record
// has the same target. Returns false only if the record has a target that is not selected.
fn offer_target<'z, const N: usize, const SIZE: usize>(
    set: &RecordSet<'z>,
    i: usize,
    side: Side<'_, '_>,
    start: &Node<'z>,
    steps: &mut Steps<'z>,
    builder: &mut ReplyBuilder<N, SIZE>,
) -> bool
    requires valid { HasValidData set.now }
    requires inside { i < length set.now.rdata }
    requires start { IsStart steps.old.zone false start.now }
    requires reaches { Reaches steps.old.zone start.now.name (side_takes side) }
    requires room { HasNodesLeft steps.old 128 }
    ensures offers { Offers builder.old builder.new (target_items steps.old.zone (side_takes side.entry)
        (targets_of_first i set.now) (target_at i set.now)) }
    ensures took { Took steps.old steps.new
        (target_nodes steps.old.zone (side_takes side.entry) (target_at i set.now))
        (target_misses (side_takes side.entry) (target_at i set.now)) }
    ensures bound { Took steps.old steps.new 127 1 }
    ensures meant { result ≡ takes_target (side_takes side.entry) (target_at i set.now) }
{
    let Some(target) = set.target(i) else {
        return true;
    };
    if !side.takes(&target) {
        return false;
    }
    if !stood_before(set, i, &target) {
        offer_address(&target, start, steps, builder);
    }
    true
}

// Whether one of the first `count` records of a set has this target. All these names are in lower
// case.
fn stood_before(set: &RecordSet<'_>, count: usize, target: &NameRef<'_>) -> bool
    requires valid { HasValidData set.now }
    requires lower { folded target.now ≡ target.now }
    requires inside { count ≤ length set.now.rdata }
    ensures { result ≡ list_any (same target.now) (targets_of_first count set.now) }
{
    'earlier: for i in 0..count {
        if let Some(earlier) = set.target(i) {
            if *target == earlier {
                return true;
            }
        }
    }
    false
}

// Offers the addresses of a name in lower case: its A set, then its AAAA set. The name may be below
// a cut. A wildcard's sets are not offered.
#[tactic(auto, using(crate::proofs::TargetLaws::depth_below))]
fn offer_address<'z, const N: usize, const SIZE: usize>(
    target: &NameRef<'_>,
    start: &Node<'z>,
    steps: &mut Steps<'z>,
    builder: &mut ReplyBuilder<N, SIZE>,
)
    requires start { IsStart steps.old.zone false start.now }
    requires reached { at_or_below target.now steps.old.zone.origin ≡ true
        → at_or_below target.now start.now.name ≡ true }
    requires lower { folded target.now ≡ target.now }
    requires room { HasNodesLeft steps.old 128 }
    ensures offers { Offers builder.old builder.new (addresses_of steps.old.zone target.now) }
    ensures took { Took steps.old steps.new (depth_in steps.old.zone target.now) 1 }
{
    let Some(sought) = Sought::below(target, &start.name()) else {
        return;
    };
    let node = match walk(&sought, start, Cuts::Pass, steps) {
        PathEnd::Cut(_) => return,
        PathEnd::Encloser(_) => return,
        PathEnd::Name(node) => node,
    };
    let node = or_start(&node, &*start);
    offer_type(node, RType::A, target, builder);
    offer_type(node, RType::AAAA, target, builder);
}

// Offers the set of a type at a node, if the node has such a set.
fn offer_type<const N: usize, const SIZE: usize>(
    node: &Node<'_>,
    rtype: RType,
    owner: &NameRef<'_>,
    builder: &mut ReplyBuilder<N, SIZE>,
)
    requires owner { node.now.name ≡ owner.now }
    ensures { Offers builder.old builder.new
        (item additional (rrset node.now.zone node.now.name rtype.0)) }
{
    if let Some(set) = node.set(rtype) {
        builder.offer(Section::Additional, owner, set.ttl(), &set);
    }
}
