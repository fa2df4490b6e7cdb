//! Reads names without escapes, as most names in zone files are (RFC 1035 5.1).
ghost use Rattle.std.specs.Prelude.{◌≡◌, ◌≢◌, ◌+◌, ◌≤◌, ◌++◌, length, drop, map, codes, if◌then◌else◌};
ghost use Rattle.std.specs.Bool.{OnTrue};
ghost use Rattle.std.specs.Char.{to_ascii_lowercase};
ghost use Rattle.dns_name.specs.TextForm.{SpellsFolded, HasLengths, IsEnded, is_length, is_mark};

use crate::name::Name;
use crate::name_octets::MAX_OCTETS;

// For each octet, the octet in lower case; but for a dot and a backslash, 0.
const IN_LOWER_CASE: [u8; 256] = [
    0, 1, 2, 3, 4, 5, 6, 7, 8, 9, 10, 11, 12, 13, 14, 15, 16, 17, 18, 19, 20, 21, 22, 23, 24, 25,
    26, 27, 28, 29, 30, 31, 32, 33, 34, 35, 36, 37, 38, 39, 40, 41, 42, 43, 44, 45, 0, 47, 48, 49,
    50, 51, 52, 53, 54, 55, 56, 57, 58, 59, 60, 61, 62, 63, 64, 97, 98, 99, 100, 101, 102, 103,
    104, 105, 106, 107, 108, 109, 110, 111, 112, 113, 114, 115, 116, 117, 118, 119, 120, 121, 122,
    91, 0, 93, 94, 95, 96, 97, 98, 99, 100, 101, 102, 103, 104, 105, 106, 107, 108, 109, 110, 111,
    112, 113, 114, 115, 116, 117, 118, 119, 120, 121, 122, 123, 124, 125, 126, 127, 128, 129, 130,
    131, 132, 133, 134, 135, 136, 137, 138, 139, 140, 141, 142, 143, 144, 145, 146, 147, 148, 149,
    150, 151, 152, 153, 154, 155, 156, 157, 158, 159, 160, 161, 162, 163, 164, 165, 166, 167, 168,
    169, 170, 171, 172, 173, 174, 175, 176, 177, 178, 179, 180, 181, 182, 183, 184, 185, 186, 187,
    188, 189, 190, 191, 192, 193, 194, 195, 196, 197, 198, 199, 200, 201, 202, 203, 204, 205, 206,
    207, 208, 209, 210, 211, 212, 213, 214, 215, 216, 217, 218, 219, 220, 221, 222, 223, 224, 225,
    226, 227, 228, 229, 230, 231, 232, 233, 234, 235, 236, 237, 238, 239, 240, 241, 242, 243, 244,
    245, 246, 247, 248, 249, 250, 251, 252, 253, 254, 255,
];

impl Name {
    // Sets the name to the one that a word spells, in lower case. Returns false, with the name
    // unspecified, if the word is `.`, contains a backslash or an octet 0, or spells no name.
    pub(crate) fn spell_plain(&mut self, word: &[u8], origin: &Name) -> bool
        requires { word.now ≢ codes "@" }
        ensures { OnTrue result (SpellsFolded origin.now word.now self.new) }
    {
        let (labels, end) = ended_labels(word, origin);
        let count = labels.len() + 1;
        if count + end.len() > MAX_OCTETS {
            return false;
        }
        let (front, rest) = self.octets.all.split_at_mut(count);
        if !put_lengths(labels, front) {
            self.octets.set_root();
            return false;
        }
        put_lowered(end, rest);
        self.octets.count = count + end.len();
        true
    }
}

// Copies octets to the front of `room`, in lower case. A fast path for a single octet: often only
// the root's length is copied.
fn put_lowered(octets: &[u8], room: &mut [u8])
    requires { length octets.now ≤ length room.old }
    ensures { room.new ≡ map to_ascii_lowercase octets.now ++ drop (length octets.now) room.old }
{
    if let [octet] = octets {
        room[0] = octet.to_ascii_lowercase();
        return;
    }
    let room = &mut room[..octets.len()];
    room.copy_from_slice(octets);
    room.make_ascii_lowercase();
}

// The text of the word's labels, and the wire form of the name that follows them: the root if the
// word ends with a dot, otherwise the origin.
fn ended_labels<'a>(word: &'a [u8], origin: &'a Name) -> (&'a [u8], &'a [u8])
    ensures { IsEnded origin.now word.now result.0.now result.1.now }
{
    match word {
        [labels @ .., b'.'] => (labels, &[0]),
        _ => (word, origin.octets()),
    }
}

// Writes labels without escapes in lower case, each after its length, from the last label to the
// first. Returns false if an octet is a backslash or 0, or if a label has no octets or more than 63
// (RFC 1035 2.3.4).
fn put_lengths(labels: &[u8], octets: &mut [u8]) -> bool
    requires room { length octets.old ≡ length labels.now + 1 }
    requires few { length octets.old ≤ 255 }
    ensures { OnTrue result (HasLengths labels.now octets.new) }
{
    let mut count = 0;
    let mut place = labels.len();
    'octets: while place > 0 {
        let octet = labels[place - 1];
        let lower = in_lower_case(octet);
        if lower > 0 {
            octets[place] = lower;
            count += 1;
        } else {
            if octet != b'.' || !is_length(count) {
                return false;
            }
            octets[place] = count;
            count = 0;
        }
        place -= 1;
    }
    octets[0] = count;
    is_length(count)
}

// An octet of a label in lower case; 0 for a dot and a backslash.
fn in_lower_case(octet: u8) -> u8
    ensures { result ≡ (if is_mark octet then 0 else to_ascii_lowercase octet) }
{
    IN_LOWER_CASE[octet as usize]
}

// Whether a label may have this number of octets (RFC 1035 2.3.4).
fn is_length(count: u8) -> bool
    ensures { result ≡ is_length count }
{
    count > 0 && count <= 63
}
