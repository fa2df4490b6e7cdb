//! Compression of names: finds the longest suffix of a name that a pointer may replace, and keeps
//! the offsets of the longer suffixes (RFC 1035 4.1.4).
ghost use Rattle.std.specs.Prelude.{◌≡◌, List, ◌+◌, ◌-◌, ◌*◌, ◌≤◌, ◌<◌, ◌^◌, [], ◌∷◌, ◌++◌, length, drop, min, IsTrue, IfSome, IsNone, ℕ, false};
ghost use Rattle.dns_spec.specs.Names.{Octets, DomainName, wire, is_name};
ghost use Rattle.dns_spec.specs.Layout.{Placed, shared_octets};
ghost use Rattle.dns_wire.specs.Writing.{IsAsked, asked_offsets, NotAsked, IsLastOf, IsLaid, front_size, new_offsets, shown_form, Follows, AfterLabel, Holds};
ghost use Rattle.dns_wire.specs.Kept.{IsSharedAt, NoneSpelled};
ghost use Rattle.dns_wire.specs.SuffixNumbers.{suffix_number};

use crate::message::HEADER_OCTETS;
use crate::suffix_number::number_of;
use crate::suffix_offsets::{SuffixHash, SuffixOffsets};
use dns_name::ends_with;

// The last offset that the 14 bits of a pointer reach.
pub(crate) const LAST_OFFSET: usize = 16383;

/// How a name is laid out in a message.
#[derive(Clone, Copy, Default)]
pub(crate) struct NameForm {
    /// The number of octets of the labels that are written.
    pub(crate) front: usize,
    /// The offset of the suffix after these labels, which a pointer replaces. `None` if only the
    /// root is after them.
    pub(crate) pointer: Option<u16>,
}

/// How a name, given in its wire form, is laid out in `room` octets: a pointer replaces its longest
/// suffix that a pointer may replace. Suffixes are tried from the longest. `None` if the labels
/// before a suffix leave no room for two more octets: then the name does not fit.
pub(crate) fn shared_suffix<H: SuffixHash, const N: usize>(
    offsets: &SuffixOffsets<N>,
    message: &[u8],
    hash: &mut H,
    name: &[u8],
    asked_end: usize,
    room: usize,
) -> Option<NameForm>
    requires asked { IsAsked message.now asked_end }
    ensures shared { IfSome result (λ laid. (ms : List Placed) (n : DomainName)
        → Holds (suffix_number (H.hashes hash.old)) ms message.now
        (asked_offsets (suffix_number (H.hashes hash.old)) message.now asked_end ++ offsets.now)
        → name.now ≡ wire n → IsTrue (is_name n)
        → IsLaid ms n (shown_form laid)) }
    ensures past { IsNone result → (ms : List Placed) (n : DomainName)
        → Holds (suffix_number (H.hashes hash.old)) ms message.now
        (asked_offsets (suffix_number (H.hashes hash.old)) message.now asked_end ++ offsets.now)
        → name.now ≡ wire n → IsTrue (is_name n) → room < length (shared_octets ms n) }
    ensures inside { IfSome result (λ laid. laid.front ≤ length name.now) }
    ensures reached { IfSome result (λ laid. IfSome laid.pointer (λ offset. offset < 16384)) }
    ensures same { H.hashes hash.new ≡ H.hashes hash.old }
{
    let mut rest = name;
    'suffixes: while let Some((_, after)) = after_first_label(rest) {
        let front = name.len() - rest.len();
        // A pointer has two octets, and a label has at least two.
        if front + 2 > room {
            return None;
        }
        if let Some(offset) = find_suffix(offsets, message, hash, rest, asked_end) {
            let pointer = Some(offset);
            return Some(NameForm { front, pointer });
        }
        rest = after;
    }
    let (front, pointer) = (name.len() - rest.len(), None);
    Some(NameForm { front, pointer })
}

// An offset at which the message spells a suffix: in the question's name, or else one of `offsets`.
// If `offsets` is empty, nothing is hashed.
fn find_suffix<H: SuffixHash, const N: usize>(
    offsets: &SuffixOffsets<N>,
    message: &[u8],
    hash: &mut H,
    suffix: &[u8],
    asked_end: usize,
) -> Option<u16>
    requires { IsAsked message.now asked_end }
    ensures found { IfSome result (λ offset. IsSharedAt
        (asked_offsets (suffix_number (H.hashes hash.old)) message.now asked_end ++ offsets.now)
        message.now suffix.now offset) }
    ensures none { IsNone result → NoneSpelled
        (asked_offsets (suffix_number (H.hashes hash.old)) message.now asked_end ++ offsets.now)
        (suffix_number (H.hashes hash.old) suffix.now) message.now suffix.now }
    ensures same { H.hashes hash.new ≡ H.hashes hash.old }
{
    if let Some(offset) = offset_before(message, asked_end, suffix) {
        return Some(offset);
    }
    if offsets.len() == 0 {
        return None;
    }
    let number = number_of(hash, suffix);
    offsets.find(number, message, suffix)
}

// The offset of `suffix` in the question's name, which ends at offset `end`. `None` for the root,
// and if the name does not end with `suffix`. Such offsets need not be kept, since the distance of
// each from `end` is the suffix's length. Inlining saves up to 5 % of the work for a reply.
#[inline(always)]
pub(crate) fn offset_before(message: &[u8], end: usize, suffix: &[u8]) -> Option<u16>
    requires { IsAsked message.now end }
    ensures found { (head : Octets → ℕ) → IfSome result (λ offset. IsSharedAt
        (asked_offsets head message.now end) message.now suffix.now offset) }
    ensures reached { IfSome result (λ offset. offset < 16384) }
    ensures none { IsNone result → NotAsked message.now end suffix.now }
{
    if suffix.len() < 2 {
        return None;
    }
    let (front, _) = message.split_at(end);
    let (_, name) = front.split_at(HEADER_OCTETS);
    if !has_last_labels(name, suffix) {
        return None;
    }
    Some((end - suffix.len()) as u16)
}

// Whether `name` ends with `suffix`, and one of its labels or the root begins there. Equal octets
// may also begin inside a label. Inlining saves up to 5 % of the work for a reply.
#[inline(always)]
fn has_last_labels(name: &[u8], suffix: &[u8]) -> bool
    ensures yes { IsTrue result
        → (length suffix.now ≤ length name.now) × IsLastOf name.now suffix.now }
    ensures no { result ≡ false → (n front t : DomainName) (l : Octets) → name.now ≡ wire n
        → IsTrue (is_name n) → n ≡ front ++ l ∷ t → wire (l ∷ t) ≡ suffix.now → ⊥ }
{
    if !ends_with(name, suffix) {
        return false;
    }
    let mut rest = name;
    'labels: while rest.len() > suffix.len() {
        let Some((_, after)) = after_first_label(rest) else {
            return false;
        };
        rest = after;
    }
    rest.len() == suffix.len()
}

/// Adds to `offsets` the offsets of a name's suffixes. The name is laid out at offset `at`. Only
/// suffixes count that begin in its first `front` octets and within the reach of a pointer.
pub(crate) fn keep_suffixes<H: SuffixHash, const N: usize>(
    offsets: &mut SuffixOffsets<N>,
    hash: &mut H,
    name: &[u8],
    front: usize,
    at: usize,
)
    requires short { at + front < 2 ^ 16 }
    requires room { min (at + front) 16384 ≤ 2 * N }
    requires few { 2 * length offsets.old ≤ at }
    requires most { N ≤ 8192 }
    ensures kept { (ms : List Placed) (n : DomainName) → name.now ≡ wire n → IsTrue (is_name n)
        → front ≡ front_size ms n
        → offsets.new ≡ offsets.old
        ++ new_offsets (suffix_number (H.hashes hash.old)) ms n at }
    ensures few { 2 * length offsets.new ≤ at + front }
    ensures more { Follows offsets.old offsets.new }
    ensures same { H.hashes hash.new ≡ H.hashes hash.old }
{
    let mut rest = name;
    let mut offset = at;
    'suffixes: while offset < at + front {
        let Some((length, after)) = after_first_label(rest) else {
            return;
        };
        let next = offset + 1 + length;
        if next > at + front || offset > LAST_OFFSET {
            return;
        }
        offsets.insert(offset as u16, number_of(hash, rest));
        offset = next;
        rest = after;
    }
}

// The length of the first label of a name in wire form, and the octets after that label. `None` for
// the root.
fn after_first_label(name: &[u8]) -> Option<(usize, &[u8])>
    ensures some { IfSome result (λ r. AfterLabel name.now r.0 r.1.now) }
    ensures root { IsNone result → (n : DomainName) → name.now ≡ wire n → IsTrue (is_name n)
        → n ≡ [] }
    ensures shorter { IfSome result (λ r. length r.1.now < length name.now) }
    ensures bound { IfSome result (λ r. r.0 < 256) }
{
    let (length, others) = name.split_first()?;
    let length = usize::from(*length);
    if length == 0 {
        return None;
    }
    let (_, after) = others.split_at_checked(length)?;
    Some((length, after))
}
