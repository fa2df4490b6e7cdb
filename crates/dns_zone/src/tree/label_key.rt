//! Keys of labels: their first octets as numbers, which tell most labels apart.
ghost use Rattle.std.specs.Prelude.{◌≡◌, ◌≤◌, map, length};
ghost use Rattle.std.specs.Char.{to_ascii_lowercase};
ghost use Rattle.dns_spec.specs.Names.{label_order};
ghost use Rattle.dns_zone.specs.LabelKey.{IsEight, IsKey};
ghost use Rattle.dns_zone.specs.TreeForm.{first_of};

use crate::tree::lower_case::lower_case;
use dns_name::{NameRef, are_equal};
use std::cmp::Ordering;

/// The number of octets in a key.
pub(crate) const KEY_OCTETS: usize = 16;

// The number of octets in each of its numbers.
const EIGHT: usize = 8;

/// The first sixteen octets of a label in lower case, as two big-endian numbers, padded with 0. Of
/// two labels with different keys, the one with the lesser key comes first.
#[derive(Clone, Copy, Drop)]
pub(crate) struct LabelKey {
    pub(crate) front: u64,
    pub(crate) next: u64,
}

impl LabelKey {
    pub(crate) fn of(label: &[u8]) -> LabelKey
        ensures { IsKey result (map to_ascii_lowercase label.now) }
    {
        let (_, after) = label.split_at(label.len().min(EIGHT));
        LabelKey {
            front: eight_of(label),
            next: eight_of(after),
        }
    }
}

// The first eight octets in lower case as a big-endian number, padded with 0.
fn eight_of(label: &[u8]) -> u64
    ensures { IsEight result (map to_ascii_lowercase label.now) }
{
    let mut key = 0;
    // The place value of the next octet.
    let mut worth = 1 << 56;
    'octets: for i in 0..label.len().min(EIGHT) {
        key += u64::from(lower_case(label[i])) * worth;
        worth /= 256;
    }
    key
}

/// The octets of a name's first label; none for the root.
pub(crate) fn first_label_octets<'a>(name: &NameRef<'a>) -> &'a [u8]
    ensures value { result.now ≡ first_of name.now }
    ensures bound { length result.now ≤ 63 }
{
    match name.labels().next() {
        Some(label) => label.octets(),
        None => &[],
    }
}

/// Compares a label in lower case with another one, ignoring the other's case.
pub(crate) fn order_to(lower: &[u8], label: &[u8]) -> Ordering
    requires { map to_ascii_lowercase lower.now ≡ lower.now }
    ensures { result ≡ label_order lower.now (map to_ascii_lowercase label.now) }
{
    let (mut left, mut right) = after_same(lower, label);
    'octets: while let Some((one, left_rest)) = left.split_first() {
        let Some((other, right_rest)) = right.split_first() else {
            return Ordering::Greater;
        };
        let other = lower_case(*other);
        if *one != other {
            return one.cmp(&other);
        }
        left = left_rest;
        right = right_rest;
    }
    if right.is_empty() {
        Ordering::Equal
    } else {
        Ordering::Less
    }
}

// The rests of both labels after the chunks of eight octets that are equal in both.
fn after_same<'a>(lower: &'a [u8], label: &'a [u8]) -> (&'a [u8], &'a [u8])
    requires { map to_ascii_lowercase lower.now ≡ lower.now }
    ensures { label_order result.0.now (map to_ascii_lowercase result.1.now)
        ≡ label_order lower.now (map to_ascii_lowercase label.now) }
{
    let (mut left, mut right) = (lower, label);
    'eights: while left.len() >= 8 && right.len() >= 8 {
        let (front, left_rest) = left.split_at(8);
        let (begin, right_rest) = right.split_at(8);
        if !are_equal(front, begin) {
            break;
        }
        left = left_rest;
        right = right_rest;
    }
    (left, right)
}
