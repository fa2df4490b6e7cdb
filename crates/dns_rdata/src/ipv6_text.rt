//! Writes IPv6 addresses (RFC 5952 4).
ghost use Rattle.std.specs.Prelude.{◌≡◌, ◌≤◌, ◌+◌, ◌*◌, ◌-◌, ◌++◌, false, length, ◌==◌};
ghost use Rattle.std.specs.Fmt.{digits};
ghost use Rattle.std.specs.List.{prefix_len};
ghost use Rattle.dns_spec.specs.AddressText.{groups_of, groups_text, longest_run, longest_place, ipv6_text};

use crate::hex::hex_digit;
use arrayvec::ArrayVec;

/// The text of an IPv6 address has at most 39 octets: eight groups of four digits, and seven
/// colons.
pub(crate) const MOST_IPV6_OCTETS: usize = 39;

/// The text of an IPv6 address, such as `2001:db8::1:0:0:1`: groups in lower case without leading
/// zeros, and `::` for the longest run of at least two zero groups. If several runs are equally
/// long, the first is shortened (RFC 5952 4).
pub(crate) fn text_of_ipv6(address: &[u8; 16]) -> ArrayVec<u8, MOST_IPV6_OCTETS>
    ensures { result.items ≡ ipv6_text address.now }
{
    let groups = groups_of_octets(address);
    let groups = groups.as_slice();
    let (index, run) = longest_zero_run(groups);
    let mut text = ArrayVec::new();
    if run < 2 {
        push_groups(&mut text, groups);
        return text;
    }
    let (front, zeros_and_back) = groups.split_at(index);
    let (_, back) = zeros_and_back.split_at(run);
    push_groups(&mut text, front);
    text.push(b':');
    text.push(b':');
    push_groups(&mut text, back);
    text
}

fn groups_of_octets(address: &[u8; 16]) -> [u16; 8]
    ensures { result ≡ groups_of address.now }
{
    let [a, b, c, d, e, f, g, h, i, j, k, l, m, n, o, p] = *address;
    [
        group_of(a, b),
        group_of(c, d),
        group_of(e, f),
        group_of(g, h),
        group_of(i, j),
        group_of(k, l),
        group_of(m, n),
        group_of(o, p),
    ]
}

fn group_of(high: u8, low: u8) -> u16
    ensures { result ≡ 256 * high + low }
{
    256 * u16::from(high) + u16::from(low)
}

// The index at which the longest run of zero groups begins, and the number of its groups. If
// several runs are equally long, the first counts.
fn longest_zero_run(groups: &[u16]) -> (usize, usize)
    ensures index { result.0 ≡ longest_place groups.now }
    ensures run { result.1 ≡ longest_run groups.now }
    ensures inside { result.0 + result.1 ≤ length groups.now }
{
    let mut index = 0;
    let mut longest = zero_run(groups);
    'indices: for start in 1..groups.len() {
        let run = zero_run(&groups[start..]);
        if run > longest {
            index = start;
            longest = run;
        }
    }
    (index, longest)
}

fn zero_run(groups: &[u16]) -> usize
    ensures { result ≡ prefix_len (λ n. n == 0) groups.now }
{
    groups.iter().take_while(|group| **group == 0).count()
}

fn push_groups(text: &mut ArrayVec<u8, MOST_IPV6_OCTETS>, groups: &[u16])
    requires { length text.old.items + 5 * length groups.now ≤ 40 }
    ensures text { text.new.items ≡ text.old.items ++ groups_text groups.now }
    ensures short { length text.new.items ≤ length text.old.items + (5 * length groups.now - 1) }
{
    let Some((first, others)) = groups.split_first() else {
        return;
    };
    push_group(text, *first);
    'groups: for group in others {
        text.push(b':');
        push_group(text, *group);
    }
}

fn push_group(text: &mut ArrayVec<u8, MOST_IPV6_OCTETS>, group: u16)
    requires { length text.old.items + 4 ≤ 39 }
    ensures text { text.new.items ≡ text.old.items ++ digits 16 false group }
    ensures short { length text.new.items ≤ length text.old.items + 4 }
{
    let high = (group / 256) as u8;
    let low = (group % 256) as u8;
    if high == 0 {
        push_octet(text, low);
        return;
    }
    push_octet(text, high);
    text.push(hex_digit(low / 16));
    text.push(hex_digit(low % 16));
}

// Appends the hex digits of an octet, without a leading zero.
fn push_octet(text: &mut ArrayVec<u8, MOST_IPV6_OCTETS>, octet: u8)
    requires { length text.old.items + 2 ≤ 39 }
    ensures text { text.new.items ≡ text.old.items ++ digits 16 false octet }
    ensures short { length text.new.items ≤ length text.old.items + 2 }
{
    if octet < 16 {
        text.push(hex_digit(octet));
        return;
    }
    text.push(hex_digit(octet / 16));
    text.push(hex_digit(octet % 16));
}
