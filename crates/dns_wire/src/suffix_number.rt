//! The number of a suffix, by which its offset is found among those kept.
ghost use Rattle.std.specs.Prelude.{◌≡◌, ◌<◌, ◌≤◌, ◌^◌, length, take, drop, ◌+◌};
ghost use Rattle.std.specs.Int.{from_le_bytes, w64};
ghost use Rattle.dns_wire.specs.SuffixNumbers.{suffix_number, octets_number, mixed};

use crate::suffix_offsets::SuffixHash;

// 2^64 divided by the golden ratio.
const SPREAD: u64 = 11_400_714_819_323_198_485;

/// The number of a suffix: 22 bits of a hash of all its octets, 8 bits of its length, and the two
/// highest bits of the writer's hash.
pub(crate) fn number_of<H: SuffixHash>(hash: &mut H, suffix: &[u8]) -> u32
    ensures value { result ≡ suffix_number (H.hashes hash.old) suffix.now }
    ensures same { H.hashes hash.new ≡ H.hashes hash.old }
{
    let high = u32::from(hash.hash_of(suffix) / 256);
    let length = (suffix.len() % 256) as u32;
    octets_number(suffix) * 1024 + length * 4 + high
}

// A hash of 22 bits that depends on all octets. They are taken eight at a time: the last eight
// first, then groups of eight from the left. So the hash of a suffix is not computed from those of
// shorter suffixes.
fn octets_number(octets: &[u8]) -> u32
    ensures value { result ≡ octets_number octets.now }
    ensures low { result < 2 ^ 22 }
{
    if octets.len() <= 8 {
        let few = octets.iter().fold(0, |number: u64, octet| {
            number.wrapping_mul(256) ^ u64::from(*octet)
        });
        return (mixed(few) >> 42) as u32;
    }
    let mut number = eight_at(octets, octets.len() - 8);
    'eights: for i in 0..(octets.len() - 1) / 8 {
        number = mixed(number ^ eight_at(octets, 8 * i));
    }
    (number >> 42) as u32
}

// The two halves of a product of 128 bits, combined: all bits of the number affect the result.
fn mixed(number: u64) -> u64
    ensures { result ≡ mixed number }
{
    let product = u128::from(number) * u128::from(SPREAD);
    (product >> 64) as u64 ^ number.wrapping_mul(SPREAD)
}

fn eight_at(octets: &[u8], at: usize) -> u64
    requires { at + 8 ≤ length octets.now }
    ensures { result ≡ from_le_bytes w64 (take 8 (drop at octets.now)) }
{
    let (_, rest) = octets.split_at(at);
    let Some(eight) = rest.first_chunk::<8>() else {
        unreachable!();
    };
    u64::from_le_bytes(*eight)
}
