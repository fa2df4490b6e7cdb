//! Reads and writes IPv4 addresses (RFC 1035 3.4.1).
ghost use Rattle.std.specs.Prelude.{◌≡◌, ◌↔◌, ℕ, IsNone, IfSome, Some, ◌≤◌, decimal, ◌==◌, ◌+◌, ◌++◌, length};
ghost use Rattle.std.specs.List.{position};
ghost use Rattle.dns_spec.specs.Names.{Octets};
ghost use Rattle.dns_spec.specs.AddressText.{SaysIpv4, ipv4_text};
ghost use Rattle.dns_rdata.specs.AddressForm.{OctetThen, number_at};
ghost use Rattle.dns_name.specs.TextForm.{Gives};

use arrayvec::ArrayVec;
use dns_name::first_digit;
use itoa::Buffer;

/// The text of an IPv4 address has at most 15 octets.
pub(crate) const MOST_IPV4_OCTETS: usize = 15;

/// The IPv4 address that a word spells: four decimal numbers from 0 to 255, separated by dots (RFC
/// 1035 3.4.1).
///
/// `None` for any other word, such as `192.0.2.01`.
pub(crate) fn read_ipv4(word: &[u8]) -> Option<[u8; 4]>
    ensures { (d : Octets) → (result ≡ Some d) ↔ SaysIpv4 word.now d }
{
    let (first, rest) = octet_and_dot(word)?;
    let (second, rest) = octet_and_dot(rest)?;
    let (third, rest) = octet_and_dot(rest)?;
    let (fourth, end) = first_number(rest)?;
    if !end.is_empty() {
        return None;
    }
    Some([first, second, third, fourth])
}

/// The text of an IPv4 address, as in `192.0.2.1` (RFC 1035 3.4.1).
pub(crate) fn text_of_ipv4(address: &[u8; 4]) -> ArrayVec<u8, MOST_IPV4_OCTETS>
    ensures { result.items ≡ ipv4_text address.now }
{
    let [first, second, third, fourth] = *address;
    let mut text = ArrayVec::new();
    push_octet(&mut text, first);
    text.push(b'.');
    push_octet(&mut text, second);
    text.push(b'.');
    push_octet(&mut text, third);
    text.push(b'.');
    push_octet(&mut text, fourth);
    text
}

// Appends the decimal text of an octet, at most three digits.
fn push_octet(text: &mut ArrayVec<u8, MOST_IPV4_OCTETS>, octet: u8)
    requires { length text.old.items + 3 ≤ 15 }
    ensures text { text.new.items ≡ text.old.items ++ decimal octet }
    ensures short { length text.new.items ≤ length text.old.items + 3 }
{
    let mut number = Buffer::new();
    let digits = number.format(u32::from(octet)).as_bytes();
    if text.try_extend_from_slice(digits).is_err() {
        unreachable!();
    }
}

// The number at the beginning of a text, and the text after the dot that ends the number. `None` if
// there is no such number, or no dot after it.
fn octet_and_dot(text: &[u8]) -> Option<(u8, &[u8])>
    ensures some { IfSome result (λ x. OctetThen text.now x.0 x.1.now) }
    ensures none { IsNone result → (n : ℕ) (rest : Octets) → OctetThen text.now n rest → ⊥ }
{
    let (octet, end) = first_number(text)?;
    let (dot, rest) = end.split_first()?;
    if *dot != b'.' {
        return None;
    }
    Some((octet, rest))
}

// The number at the beginning of a text, at most three digits without a leading zero, and the text
// after it.
#[tactic(auto, unfolding(crate::specs::AddressForm::number_at))]
fn first_number(text: &[u8]) -> Option<(u8, &[u8])>
    ensures { Gives result (number_at text.now) }
{
    let (hundreds, rest) = first_digit(text)?;
    if hundreds == 0 {
        return Some((0, rest));
    }
    let Some((tens, others)) = first_digit(rest) else {
        return Some((hundreds as u8, rest));
    };
    let number = 10 * hundreds + tens;
    let Some((ones, end)) = first_digit(others) else {
        return Some((number as u8, others));
    };
    let number = u8::try_from(10 * number + ones).ok()?;
    Some((number, end))
}

pub(crate) fn index_of(text: &[u8], wanted: u8) -> Option<usize>
    ensures { result ≡ position (λ octet. octet == wanted) text.now }
{
    text.iter().position(|octet| *octet == wanted)
}
