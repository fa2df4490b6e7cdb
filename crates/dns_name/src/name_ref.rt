//! Borrowed domain names, in wire form, and their labels.
ghost use Rattle.std.specs.Prelude.{◌≡◌, ◌≤◌, ◌↔◌, [], ◌∷◌, length, map, reverse, drop, IsTrue, MatchOption};
ghost use Rattle.std.specs.Bool.{OnTrue};
ghost use Rattle.std.specs.Char.{to_ascii_lowercase};
ghost use Rattle.std.specs.Cmp.{nat_eq_equiv, partial_equiv_from_equiv};
ghost use Rattle.std.specs.Cmp.Lexicographic.{lists_per, lists_equiv, slice_cmp};
ghost use Rattle.std.specs.Ordering.{ordering_then};
ghost use Rattle.std.specs.Iterator.{YieldsFirst, item_count};
ghost use Rattle.dns_spec.specs.Names.{is_name, wire, folded, same, at_or_below, below, names_equal, label_order};
ghost use Rattle.dns_spec.specs.Checks.{first_is_asterisk};
ghost use Rattle.dns_name.specs.WireForm.{labels_of, IsWireForm};

use crate::label::Label;
use crate::name::Name;
use crate::octets::are_equal;
use std::cmp::Ordering;
use std::marker::Model;

/// A borrowed domain name, in wire form. The root has no labels (RFC 1034 3.1, RFC 1035 3.1).
#[derive(Drop)]
pub struct NameRef<'a> {
    octets: &'a [u8],
}

/// The remaining labels of a name.
#[derive(Drop)]
pub struct Labels<'a> {
    rest: NameRef<'a>,
}

impl<'a> Model for NameRef<'a> {
    ghost use Rattle.dns_spec.specs.Names.{DomainName};
    ghost use Rattle.dns_name.specs.WireForm.{labels_of, IsWireForm};

    ghost Value = { DomainName };

    ghost view = { λ n. labels_of n.octets.now };

    ghost invariant = { λ n. IsWireForm n.octets.now };
}

impl<'a> NameRef<'a> {
    /// The name whose wire form is these octets, such as the octets of a name in data.
    pub fn new(octets: &'a [u8]) -> NameRef<'a>
        requires { IsWireForm octets.now }
        ensures value { result ≡ labels_of octets.now }
        ensures is_name { IsTrue (is_name result) }
    {
        NameRef { octets }
    }

    /// An owned name with the same octets. Does not allocate.
    pub fn to_name(&self) -> Name
        ensures value { result ≡ self.now }
        ensures is_name { IsTrue (is_name result) }
    {
        Name::from_octets(self.octets)
    }

    /// The wire form: each label after its length, then the root's length 0 (RFC 1035 3.1).
    pub fn octets(&self) -> &'a [u8]
        ensures value { result.now ≡ wire self.now }
        ensures bound { length result.now ≤ 255 }
        ensures is_name { IsTrue (is_name self.now) }
    {
        self.octets
    }

    pub(crate) fn label_count(&self) -> usize
        ensures { result ≡ length self.now }
    {
        self.labels().count()
    }

    /// The labels in order, the label nearest to the root last.
    ///
    /// There are at most 127, since each takes at least two octets on the wire.
    pub fn labels(&self) -> Labels<'a>
        ensures labels { result ≡ self.now }
        ensures is_name { IsTrue (is_name self.now) }
        ensures count { length self.now ≤ 127 }
    {
        Labels {
            rest: NameRef::new(self.octets),
        }
    }
}

/// Comparison of names (RFC 1035 2.3.3).
impl NameRef<'_> {
    /// Whether the names are the same, ignoring the case of ASCII letters.
    pub fn same(&self, other: &NameRef<'_>) -> bool
        ensures { result ≡ same self.now other.now }
    {
        same_octets(self.octets(), other.octets())
    }

    /// Whether the name is `ancestor` or a name below it: whether it ends with the labels of
    /// `ancestor`, ignoring the case of ASCII letters (RFC 1034 3.1).
    pub fn at_or_below(&self, ancestor: &NameRef<'_>) -> bool
        ensures { result ≡ at_or_below self.now ancestor.now }
    {
        let target = ancestor.octets();
        let mut suffix = self.octets();
        'labels: while suffix.len() > target.len() {
            let Some((_, rest)) = first_label(suffix) else {
                return false;
            };
            suffix = rest;
        }
        same_octets(suffix, target)
    }

    /// Whether the name is a wildcard: whether its first label is exactly `*` (RFC 4592 2.1.1).
    ///
    /// `*.example.` is a wildcard; `a.*.example.` and `**.example.` are not.
    pub fn is_wildcard(&self) -> bool
        ensures { result ≡ first_is_asterisk self.now }
    {
        match self.labels().next() {
            Some(label) => label.octets() == b"*".as_slice(),
            None => false,
        }
    }

    // Compares labels from the right, and letters of different case as different. A fast path: two
    // names of a zone often have the same parent. Then only their first labels are compared.
    pub(crate) fn order_as_spelled(&self, other: &NameRef<'_>) -> Ordering
        ensures { result ≡ slice_cmp label_order (reverse self.now) (reverse other.now) }
    {
        let (mut left, mut right) = (self.labels(), other.labels());
        if let (Some(first), Some(second)) = (left.next(), right.next()) {
            if left.are_those_of(&right) {
                return first.octets().cmp(second.octets());
            }
        }
        let (own_count, other_count) = (self.label_count(), other.label_count());
        let shared = own_count.min(other_count);
        let longer = own_count.cmp(&other_count);
        order_of_labels(
            self.without_first(own_count - shared),
            other.without_first(other_count - shared),
            longer,
        )
    }

    fn without_first(&self, extra: usize) -> Labels<'_>
        ensures { result ≡ drop extra self.now }
    {
        let mut labels = self.labels();
        'extra: for _ in 0..extra {
            labels.next();
        }
        labels
    }
}

/// Equality octet by octet: names that differ only in case are different. `same` ignores case.
impl PartialEq for NameRef<'_> {
    ghost eq = { names_equal };

    ghost laws = { lists_per (lists_per (partial_equiv_from_equiv nat_eq_equiv)) };

    fn eq(&self, other: &Self) -> bool {
        are_equal(self.octets(), other.octets())
    }
}

impl Eq for NameRef<'_> {
    ghost laws = { lists_equiv (lists_equiv nat_eq_equiv) };
}

impl<'a> Model for Labels<'a> {
    ghost use Rattle.dns_spec.specs.Names.{DomainName};

    ghost Value = { DomainName };

    ghost view = { λ l. l.rest };
}

impl<'a> Iterator for Labels<'a> {
    type Item = Label<'a>;

    ghost next_gives = { YieldsFirst (λ s. s) };

    ghost remaining = { item_count (λ s. s) };

    fn next(&mut self) -> Option<Label<'a>> {
        let (label, rest) = first_label(self.rest.octets)?;
        self.rest.octets = rest;
        Some(label)
    }
}

impl Labels<'_> {
    // Whether the remaining labels of both are equal, octet by octet.
    fn are_those_of(&self, other: &Labels<'_>) -> bool
        ensures { OnTrue result (self.now ≡ other.now) }
    {
        self.rest.octets == other.rest.octets
    }
}

/// The first label of a name in wire form, and the wire form of the name without that label: `www`
/// and `example.` for `www.example.`. `None` for the root.
pub fn first_label(octets: &[u8]) -> Option<(Label<'_>, &[u8])>
    requires { IsWireForm octets.now }
    ensures { MatchOption result (labels_of octets.now ≡ [])
        (λ x. (labels_of octets.now ≡ x.0 ∷ labels_of x.1.now) × IsWireForm x.1.now) }
{
    let (length, rest) = octets.split_first()?;
    let length = *length as usize;
    if length == 0 {
        return None;
    }
    let (label, rest) = rest.split_at(length);
    Some((Label::new(label)?, rest))
}

// The order of two lists of equally many labels, compared from the right; if the lists are equal,
// `longer`. The loop stops once the remaining labels are equal, since names of a zone often differ
// only in their first labels.
fn order_of_labels(left: Labels<'_>, right: Labels<'_>, longer: Ordering) -> Ordering
    requires { length left ≡ length right }
    ensures { result ≡ ordering_then (slice_cmp label_order (reverse left.entry)
        (reverse right.entry)) longer }
{
    let mut left = left;
    let mut right = right;
    let mut order = longer;
    'labels: while let (Some(l), Some(r)) = (left.next(), right.next()) {
        order = l.octets().cmp(r.octets()).then(order);
        if left.are_those_of(&right) {
            return order;
        }
    }
    order
}

// A fast path: names that are the same, ignoring case, mostly have equal octets. This saves 130 to
// 350 instructions per short reply.
fn same_octets(left: &[u8], right: &[u8]) -> bool
    ensures { IsTrue result ↔ (map to_ascii_lowercase left.now ≡ map to_ascii_lowercase right.now) }
{
    are_equal(left, right) || left.eq_ignore_ascii_case(right)
}
