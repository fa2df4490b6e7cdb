//! Reads IPv6 addresses (RFC 4291 2.2).
ghost use Rattle.std.specs.Prelude.{◌≡◌, ◌==◌, ◌&&◌, [], ◌∷◌, ◌++◌, Some, None, length, nat_lt, if◌then◌else◌, MatchOption, IsTrue, IsFalse};
ghost use Rattle.std.specs.Bool.{OnTrue};
ghost use Rattle.std.specs.Option.{option_map, option_and_then};
ghost use Rattle.std.specs.List.{flat_map};
ghost use Rattle.std.specs.Int.{bytes_high_first};
ghost use Rattle.std.specs.Str.Parse.{digits_value};
ghost use Rattle.dns_spec.specs.AddressText.{is_group, groups_said, around_gap, eight_groups, filled_groups, ipv6_octets};
ghost use Rattle.dns_rdata.specs.AddressForm.{GivesPair, few_groups};

use crate::hex::digit_value;
use crate::ipv4::index_of;
use arrayvec::ArrayVec;

// The number of groups in an address (RFC 4291 2.2).
const GROUPS: usize = 8;

/// The IPv6 address that a word spells: eight groups of 1 to 4 hex digits of either case, separated
/// by colons, or fewer groups, with one `::` that stands for at least one zero group (RFC 4291
/// 2.2).
///
/// `None` for any other word, such as `::1.2.3.4`.
pub(crate) fn read_ipv6(word: &[u8]) -> Option<[u8; 16]>
    ensures { result ≡ ipv6_octets word.now }
{
    let Some((front, back)) = split_at_gap(word) else {
        let groups = read_groups(word)?;
        return octets_of_groups(groups.as_slice());
    };
    let mut groups = read_groups(front)?;
    let back = read_groups(back)?;
    if !fill(&mut groups, back.as_slice()) {
        return None;
    }
    octets_of_groups(groups.as_slice())
}

// The texts before and after the first `::`. `None` if the text has no `::`.
fn split_at_gap(text: &[u8]) -> Option<(&[u8], &[u8])>
    ensures { GivesPair result (around_gap text.now) }
{
    let mut index = 0;
    'indices: while index + 1 < text.len() {
        if text[index] == b':' && text[index + 1] == b':' {
            let (front, gap_and_back) = text.split_at(index);
            return Some((front, &gap_and_back[2..]));
        }
        index += 1;
    }
    None
}

// The groups that a text spells, separated by colons. An empty text has no groups.
fn read_groups(text: &[u8]) -> Option<ArrayVec<u16, GROUPS>>
    ensures { option_map (λ groups. groups.items) result ≡ option_and_then few_groups
        (groups_said text.now) }
{
    let mut groups = ArrayVec::new();
    if text.is_empty() {
        return Some(groups);
    }
    let mut rest = text;
    'groups: while let Some(end) = index_of(rest, b':') {
        if !push_group(&mut groups, &rest[..end]) {
            return None;
        }
        rest = &rest[end + 1..];
    }
    if !push_group(&mut groups, rest) {
        return None;
    }
    Some(groups)
}

// Appends the group that a text spells. Returns false if it spells none, or there are eight groups
// already; nothing is appended then.
fn push_group(groups: &mut ArrayVec<u16, GROUPS>, text: &[u8]) -> bool
    ensures pushed { result ≡ is_group text.now && nat_lt (length groups.old.items) 8 }
    ensures value { OnTrue result (groups.new.items ≡ groups.old.items
        ++ digits_value 16 text.now ∷ []) }
{
    if text.is_empty() || text.len() > 4 || groups.is_full() {
        return false;
    }
    let mut group: u16 = 0;
    'digits: for digit in text {
        let Some(value) = digit_value(*digit) else {
            return false;
        };
        group = group * 16 + u16::from(value);
    }
    groups.push(group);
    true
}

// Appends zero groups, at least one, and then `back`, to make eight groups. Returns false if there
// is no room for that.
fn fill(groups: &mut ArrayVec<u16, GROUPS>, back: &[u16]) -> bool
    ensures { MatchOption (filled_groups groups.old.items back.now) (IsFalse result)
        (λ filled. IsTrue result × (groups.new.items ≡ filled)) }
{
    if groups.len() + back.len() >= GROUPS {
        return false;
    }
    'zeros: while groups.len() + back.len() < GROUPS {
        groups.push(0);
    }
    groups.try_extend_from_slice(back).is_ok()
}

// The octets of eight groups, the high octet of each group first.
fn octets_of_groups(groups: &[u16]) -> Option<[u8; 16]>
    ensures { result ≡ option_map (flat_map (bytes_high_first 2)) (eight_groups groups.now) }
{
    let [first, second, third, fourth, fifth, sixth, seventh, eighth] = groups else {
        return None;
    };
    let [a, b] = first.to_be_bytes();
    let [c, d] = second.to_be_bytes();
    let [e, f] = third.to_be_bytes();
    let [g, h] = fourth.to_be_bytes();
    let [i, j] = fifth.to_be_bytes();
    let [k, l] = sixth.to_be_bytes();
    let [m, n] = seventh.to_be_bytes();
    let [o, p] = eighth.to_be_bytes();
    Some([a, b, c, d, e, f, g, h, i, j, k, l, m, n, o, p])
}
