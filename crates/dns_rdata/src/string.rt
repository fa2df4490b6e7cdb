//! Reads and writes character-strings (RFC 1035 3.3 and 5.1).
ghost use Rattle.std.specs.Prelude.{◌≡◌, ◌↔◌, ◌≤◌, ◌+◌, ◌*◌, ◌++◌, length, IsNone, IfSome};
ghost use Rattle.std.specs.Bool.{OnTrue};
ghost use Rattle.std.specs.List.{list_all};
ghost use Rattle.dns_spec.specs.NameText.{is_printable};
ghost use Rattle.dns_spec.specs.Names.{Octets};
ghost use Rattle.dns_spec.specs.DataText.{SpellsString};
ghost use Rattle.dns_spec.specs.WrittenText.{string_octet_text, string_text};
ghost use Rattle.dns_rdata.specs.WrittenForm.{is_plain};

use arrayvec::ArrayVec;
use dns_name::{TextBuffer, first_octet};

/// A character-string has at most 255 octets (RFC 1035 3.3).
pub(crate) const MOST_STRING_OCTETS: usize = 255;

/// The text of a character-string has at most 1,022 octets: four for each of its own octets, and
/// two quotation marks.
pub(crate) const MOST_STRING_TEXT: usize = 1022;

/// The octets of the character-string that a word spells. `word` is the spelling without the
/// quotation marks that may be around it.
///
/// `None` if an escape is bad, or the string has more than 255 octets (RFC 1035 3.3).
#[cold]
#[inline(never)]
pub(crate) fn read_string(word: &[u8]) -> Option<ArrayVec<u8, MOST_STRING_OCTETS>>
    ensures some { IfSome result (λ read. (s : Octets) → SpellsString word.now s
        ↔ (s ≡ read.items)) }
    ensures short { IfSome result (λ read. length read.items ≤ 255) }
    ensures none { IsNone result → (s : Octets) → SpellsString word.now s → length s ≤ 255 → ⊥ }
{
    let mut octets = ArrayVec::new();
    let mut rest = word;
    'octets: while !rest.is_empty() {
        let (octet, others) = first_octet(rest)?;
        if octets.is_full() {
            return None;
        }
        octets.push(octet);
        rest = others;
    }
    Some(octets)
}

/// Whether a word has at most 255 octets and no backslash. Such a word spells the string of its own
/// octets.
pub(crate) fn is_plain_string(word: &[u8]) -> bool
    ensures short { OnTrue result (length word.now ≤ 255) }
    ensures itself { OnTrue result ((s : Octets) → SpellsString word.now s ↔ (s ≡ word.now)) }
{
    word.len() <= MOST_STRING_OCTETS && !word.contains(&b'\\')
}

/// Appends the text of a character-string in quotation marks. `"` and `\` get a backslash before
/// them, and each octet that is not printable is written as `\DDD` (RFC 1035 5.1).
pub(crate) fn append_string_text(string: &[u8], text: &mut TextBuffer)
    requires short { length string.now ≤ 255 }
    requires room { length text.old + 1022 ≤ 4096 }
    ensures { text.new ≡ text.old ++ string_text string.now }
{
    text.push(b'"');
    if are_plain(string) {
        text.append(string);
    } else {
        'octets: for octet in string {
            append_octet(text, *octet);
        }
    }
    text.push(b'"');
}

fn append_octet(text: &mut TextBuffer, octet: u8)
    requires { length text.old + 4 ≤ 4096 }
    ensures text { text.new ≡ text.old ++ string_octet_text octet }
    ensures upto { length text.new ≤ length text.old + 4 }
{
    if octet == b'"' || octet == b'\\' {
        text.append(&[b'\\', octet]);
    } else if is_printable(octet) {
        text.push(octet);
    } else {
        text.push_escape(octet);
    }
}

// Whether all octets are written unescaped. The loop does not stop early, so that a processor can
// test many octets at once.
fn are_plain(octets: &[u8]) -> bool
    ensures { result ≡ list_all is_plain octets.now }
{
    let mut all = true;
    'octets: for octet in octets {
        all &= is_printable(*octet) & (*octet != b'"') & (*octet != b'\\');
    }
    all
}

fn is_printable(octet: u8) -> bool
    ensures { result ≡ is_printable octet }
{
    (octet >= b' ') & (octet <= b'~')
}
