//! Seeks the name of a question, and then the targets of aliases (RFC 1034 4.3.2 step 3a).
ghost use Rattle.std.specs.Prelude.{◌≡◌, ◌<◌, ◌∷◌, [], length, true, IfSome};
ghost use Rattle.std.specs.List.{list_any};
ghost use Rattle.dns_spec.specs.Names.{folded, names_equal, same};
ghost use Rattle.dns_spec.specs.Records.{at};
ghost use Rattle.dns_zone.specs.Nodes.{IsSetOf};
ghost use Rattle.dns_answer.specs.Seeking.{MaySeek, Seeks, Followed, AreTargets, SoughtAs, IsShown, NextIs, names_of};

use crate::ending::{Verdict, deny, end_with, ended, refer};
use crate::lookup::{Found, look_up, or_start};
use crate::reply_builder::ReplyBuilder;
use arrayvec::ArrayVec;
use dns_name::{Name, NameRef};
use dns_rdata::{RType, SetView};
use dns_wire::{Rcode, Section};
use dns_zone::{Node, RecordSet, Sought, Steps};

// The QTYPE that asks for all types (RFC 1035 3.2.3).
const QTYPE_ANY: u16 = 255;

// The most aliases that are followed, a limit of this project.
const MOST_ALIASES: usize = 16;

/// The result of seeking one name.
#[derive(Drop)]
pub(crate) enum Next<'z> {
    /// The name is the last one sought.
    Last(Verdict),
    /// The name is an alias of another name.
    Alias(Sought<'z>),
}

/// Seeks the name of a question and then the targets of aliases: offers the CNAME sets of the
/// aliases, then the sets with which the last name ends the answer. Also returns whether the
/// question's name is an alias that was followed.
pub(crate) fn seek<'q, 'z: 'q, const N: usize, const SIZE: usize>(
    first: Sought<'q>,
    qtype: u16,
    apex: &Node<'z>,
    steps: &mut Steps<'z>,
    builder: &mut ReplyBuilder<N, SIZE>,
) -> (Verdict, bool)
    requires { MaySeek steps.old apex.now [] first }
    ensures seeks { Seeks builder.old builder.new steps.old steps.new qtype [] first.entry.name
        result.0 }
    ensures followed { Followed steps.old.zone qtype first.entry.name result.0 result.1 }
{
    match seek_one(&first, qtype, &[], apex, steps, builder) {
        Next::Last(verdict) => (verdict, false),
        Next::Alias(target) => {
            let verdict = seek_targets(first, target, qtype, apex, steps, builder);
            (verdict, true)
        }
    }
}

// Seeks the target of the first alias, and then the targets of further aliases. Only this function
// makes room for the names sought, since most answers have no alias.
fn seek_targets<'q, 'z: 'q, const N: usize, const SIZE: usize>(
    first: Sought<'q>,
    target: Sought<'z>,
    qtype: u16,
    apex: &Node<'z>,
    steps: &mut Steps<'z>,
    builder: &mut ReplyBuilder<N, SIZE>,
) -> Verdict
    requires { MaySeek steps.old apex.now (first ∷ []) target }
    ensures { Seeks builder.old builder.new steps.old steps.new qtype (first.entry.name ∷ [])
        target.entry.name result }
{
    let mut earlier: ArrayVec<Sought<'q>, MOST_ALIASES> = ArrayVec::new();
    earlier.push(first);
    let mut sought = target;
    'names: loop {
        match seek_one(&sought, qtype, earlier.as_slice(), apex, steps, builder) {
            Next::Last(verdict) => return verdict,
            Next::Alias(target) => {
                earlier.push(sought);
                sought = target;
            }
        }
    }
}

// Seeks one name: offers its CNAME set if it is an alias, or else the sets with which it ends the
// answer. Inlining saves 62 to 190 instructions per reply.
#[inline(always)]
fn seek_one<'z, const N: usize, const SIZE: usize>(
    sought: &Sought<'_>,
    qtype: u16,
    earlier: &[Sought<'_>],
    apex: &Node<'z>,
    steps: &mut Steps<'z>,
    builder: &mut ReplyBuilder<N, SIZE>,
) -> Next<'z>
    requires { MaySeek steps.old apex.now earlier.now sought.now }
    ensures { SoughtAs builder.old builder.new steps.old steps.new qtype apex.now earlier.now sought.now
        result }
{
    let node = match look_up(sought, apex, steps) {
        Found::Cut(cut) => return Next::Last(refer(&cut, apex, steps, builder)),
        Found::Nothing => return Next::Last(deny(Rcode::NameError, apex, steps, builder)),
        Found::Records(node) => node,
    };
    let node = or_start(&node, &*apex);
    let Some((set, is_alias)) = shown_set(node, qtype) else {
        return Next::Last(deny(Rcode::NoError, apex, steps, builder));
    };
    builder.offer(Section::Answer, &sought.name, set.ttl(), &set);
    if !is_alias {
        return Next::Last(end_with(&set, apex, steps, builder));
    }
    let Some(target) = next_sought(&set, sought, earlier, steps.origin()) else {
        return Next::Last(ended(Rcode::NoError, builder));
    };
    Next::Alias(target)
}

// The set at a node that the answer contains, and whether it is an alias to follow. A CNAME set
// replaces the set asked for, unless the question asks for CNAME or for all types. If it asks for
// all types, the set is the one with the lowest type number (RFC 8482 4.1).
#[inline(always)]
fn shown_set<'z>(node: &Node<'z>, qtype: u16) -> Option<(RecordSet<'z>, bool)>
    ensures shown { IsShown qtype (at node.now.zone node.now.name) result }
    ensures kept { IfSome result (λ (set, _). IsSetOf node.now set) }
{
    if qtype == QTYPE_ANY {
        return Some((node.first_set()?, false));
    }
    if qtype != RType::CNAME.0 {
        if let Some(alias) = node.set(RType::CNAME) {
            return Some((alias, true));
        }
    }
    Some((node.set(RType(qtype))?, false))
}

// The target of an alias as the next name to seek. `None` if no more aliases may be followed, or
// the target is outside the zone or was sought already.
#[inline(always)]
fn next_sought<'z>(
    alias: &RecordSet<'z>,
    sought: &Sought<'_>,
    earlier: &[Sought<'_>],
    origin: &Name,
) -> Option<Sought<'z>>
    requires some { 0 < length alias.now.rdata }
    requires lower { AreTargets earlier.now sought.now }
    ensures { NextIs origin.now alias.now (sought.now.name ∷ names_of earlier.now) result }
{
    if earlier.len() >= MOST_ALIASES {
        return None;
    }
    let next = Sought::below(&alias.target(0)?, &origin.borrowed())?;
    if is_among(&next.name, sought, earlier) {
        return None;
    }
    Some(next)
}

// Whether a name in lower case is `last`, the last name sought, or is in `earlier`. All names
// sought but the first are targets, so they are in lower case too, and comparing octets suffices.
fn is_among(name: &NameRef<'_>, last: &Sought<'_>, earlier: &[Sought<'_>]) -> bool
    requires name { folded name.now ≡ name.now }
    requires lower { AreTargets earlier.now last.now }
    ensures { result ≡ list_any (same name.now) (last.now.name ∷ names_of earlier.now) }
{
    let Some((first, targets)) = earlier.split_first() else {
        return name.same(&last.name);
    };
    *name == last.name || has_equal(targets, name) || name.same(&first.name)
}

// Whether a name is equal to one of `names`, octet by octet.
fn has_equal(names: &[Sought<'_>], name: &NameRef<'_>) -> bool
    ensures { result ≡ list_any (λ s. names_equal name.now s.name) names.now }
{
    names.iter().any(|other| *name == other.name)
}
