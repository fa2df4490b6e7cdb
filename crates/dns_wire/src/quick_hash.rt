//! A hash of suffixes that reads few of their octets.
use crate::suffix_offsets::SuffixHash;

// 2^32 divided by the golden ratio.
const SPREAD: u32 = 2_654_435_769;

/// Hashes the first four octets of a suffix by one multiplication. The hash of a suffix of three
/// octets is the only octet of its label.
#[derive(Clone, Copy, Default, Debug)]
pub struct QuickHash;

impl SuffixHash for QuickHash {
    ghost use Rattle.dns_wire.specs.QuickNumbers.{quick_number};

    ghost hashes = { λ _ s. quick_number s };

    fn hash_of(&mut self, suffix: &[u8]) -> u16 {
        // Multiplying by an odd number carries each octet into the highest bits.
        match suffix.first_chunk::<4>() {
            Some(front) => (u32::from_le_bytes(*front).wrapping_mul(SPREAD) / 4_194_304) as u16,
            None => suffix.get(1).map_or(0, |octet| u16::from(*octet)),
        }
    }
}
