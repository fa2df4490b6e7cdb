//! The offsets of the suffixes of names after the question, found by a hash of the suffix (RFC 1035
//! 4.1.4).
ghost use Rattle.std.specs.Prelude.{◌≡◌, ◌-◌, ◌<◌, ◌≤◌, [], ◌∷◌, ◌++◌, length, take, IfSome, IsNone};
ghost use Rattle.dns_wire.specs.Chains.{chain_of};
ghost use Rattle.dns_wire.specs.Kept.{IsKept, SpellsSuffix, NoneSpelled};

use crate::spelled::is_spelled;
use arrayvec::ArrayVec;
use std::marker::Model;

// The number of chains of offsets: a suffix with number k is in chain k / 2 modulo `HEADS`.
//
// Whatever the hash, a chain contains suffixes of only four lengths, 64 octets apart, since six of
// the seven bits that choose the chain are bits of the length. So it contains at most one suffix
// for each 64 octets of a name, rounded up: at most 256 in the 16,384 octets that a pointer
// reaches, plus one for each name there. A reply has at most 82 names, so a suffix is compared by
// its octets with at most 82 suffixes of its length.
const HEADS: usize = 128;

// The offset of a suffix; in `next`, the index, counted from 1, of the previous entry of the same
// chain, or 0 for the chain's oldest entry; and the number of the suffix.
#[derive(Clone, Copy, Default)]
struct KeptOffset {
    offset: u16,
    next: u16,
    number: u32,
}

/// Offsets of suffixes, each with the number of its suffix (`number_of`, a hash), in the order in
/// which they were added. The octets of a suffix are only in the message.
#[derive(Drop)]
pub(crate) struct SuffixOffsets<const N: usize> {
    // The index, counted from 1, of the newest entry of each chain; 0 for an empty chain.
    heads: [u16; HEADS],
    entries: ArrayVec<KeptOffset, N>,
}

impl<const N: usize> Model for SuffixOffsets<N> {
    ghost use Rattle.std.specs.Prelude.{List};
    ghost use Rattle.dns_wire.specs.Kept.{Kept};

    ghost Value = { List Kept };

    ghost use Rattle.std.specs.Prelude.{map};
    ghost use Rattle.dns_wire.specs.Chains.{kept_in, AreChains};

    ghost view = { λ p. map kept_in p.entries.items };

    ghost invariant = { λ p. AreChains p.heads p.entries.items };
}

impl<const N: usize> SuffixOffsets<N> {
    pub(crate) fn new() -> SuffixOffsets<N>
        ensures { result ≡ [] }
    {
        SuffixOffsets {
            heads: [0; HEADS],
            entries: ArrayVec::new(),
        }
    }

    pub(crate) fn len(&self) -> usize
        ensures value { result ≡ length self.now }
        ensures fits { result ≤ N }
    {
        self.entries.len()
    }

    /// Adds the offset of a suffix with this number.
    pub(crate) fn insert(&mut self, offset: u16, number: u32)
        requires few { N ≤ 8192 }
        requires room { length self.old < N }
        requires reached { offset < 16384 }
        ensures { self.new ≡ self.old ++ record { offset = offset; number = number } ∷ [] }
    {
        let next = self.heads[chain_of(number)];
        self.entries.push(KeptOffset {
            offset,
            next,
            number,
        });
        self.heads[chain_of(number)] = self.entries.len() as u16;
    }

    /// Removes all but the first `count` offsets, as if the later ones had never been added.
    pub(crate) fn take_back(&mut self, count: usize)
        ensures { self.new ≡ take count self.old }
    {
        'offsets: while self.len() > count {
            if let Some(newest) = self.entries.pop() {
                self.heads[chain_of(newest.number)] = newest.next;
            }
        }
    }

    /// The newest of the offsets with this number at which the message spells the suffix.
    pub(crate) fn find(&self, number: u32, message: &[u8], suffix: &[u8]) -> Option<u16>
        ensures kept { IfSome result (λ offset. IsKept self.now offset number) }
        ensures spelled { IfSome result (λ offset. SpellsSuffix message.now offset suffix.now) }
        ensures reached { IfSome result (λ offset. offset < 16384) }
        ensures none { IsNone result → NoneSpelled self.now number message.now suffix.now }
    {
        let mut newest = self.heads[chain_of(number)];
        'chain: while newest > 0 {
            // A reference: copying the entry would take half as long again.
            let entry = &self.entries.as_slice()[usize::from(newest) - 1];
            if entry.number == number && is_spelled(message, usize::from(entry.offset), suffix) {
                return Some(entry.offset);
            }
            newest = entry.next;
        }
        None
    }
}

// The chain of the suffixes with this number.
fn chain_of(number: u32) -> usize
    ensures chain { result ≡ chain_of number }
    ensures low { result < 128 }
{
    (number / 2 % HEADS as u32) as usize
}

/// A hash of suffixes, below 1,024, always the same for the same octets. Suffixes are looked for by
/// a number (`number_of`) that contains the two highest bits of this hash.
///
/// The message that is written does not depend on this hash.
pub trait SuffixHash {
    ghost use Rattle.std.specs.Prelude.{ℕ};
    ghost use Rattle.dns_spec.specs.Names.{Octets};

    /// The hash of each suffix.
    ghost hashes: { Self → Octets → ℕ };

    /// The hash of a suffix, given in its wire form.
    fn hash_of(&mut self, suffix: &[u8]) -> u16
        ensures value { result ≡ hashes self.old suffix.now }
        ensures low { result < 1024 }
        ensures same { hashes self.new ≡ hashes self.old };
}
