//! Reads data in the generic form, its length and its octets as hex digits (RFC 3597 5).
ghost use Rattle.std.specs.Prelude.{◌≡◌, ◌≢◌, ◌≤◌, ◌<◌, not, [], length, OnOk, IfOk, IfErr, IfSome};
ghost use Rattle.dns_spec.specs.Names.{Octets};
ghost use Rattle.std.specs.List.{list_all, position};
ghost use Rattle.std.specs.Char.{is_ascii_hexdigit};
ghost use Rattle.dns_spec.specs.DataText.{SaysUnknown, is_unknown_mark};
ghost use Rattle.dns_spec.specs.AllFaults.{FaultyUnknown, is_hex};
ghost use Rattle.dns_rdata.specs.UnknownForm.{AppendsWord, SaysHexWord};

use crate::hex::append_hex;
use crate::number::read_number;
use crate::rdata_fault::RdataFault;
use crate::word::Word;

// Data has at most 65,535 octets (RFC 1035 3.2.1).
const MOST_DATA_OCTETS: u32 = 65_535;

/// Whether the word is the unquoted `\#`, which begins the generic form.
pub(crate) fn is_unknown_mark(word: &Word<'_>) -> bool
    ensures { result ≡ is_unknown_mark word.now }
{
    !word.quoted && word.raw == b"\\#".as_slice()
}

/// Puts the octets that the words after `\#` spell into `octets`, which must be empty. The first of
/// these words is the number of octets; the others are hex digits, an even number in each word.
///
/// Fails with `NoMemory` only if allocation fails, and otherwise with `BadHex`.
pub(crate) fn put_unknown(words: &[Word<'_>], octets: &mut Vec<u8>) -> Result<(), RdataFault>
    requires { octets.old.items ≡ [] }
    ensures ok { OnOk result (SaysUnknown words.now octets.new.items) }
    ensures short { OnOk result (length octets.new.items ≤ 65535) }
    ensures fault { IfErr result (λ fault. fault ≢ RdataFault.NoMemory → (d : Octets)
        → SaysUnknown words.now d → length d ≤ 65535 → ⊥) }
    ensures kind { IfErr result (λ fault. fault ≢ RdataFault.NoMemory → fault ≡ RdataFault.BadHex) }
{
    let Some((first, others)) = words.split_first() else {
        return Err(RdataFault::BadHex);
    };
    if first.quoted {
        return Err(RdataFault::BadHex);
    }
    let count = read_number(first.raw, MOST_DATA_OCTETS).ok_or(RdataFault::BadHex)?;
    'words: for word in others {
        append_word(word, octets)?;
        if octets.len() > count as usize {
            return Err(RdataFault::BadHex);
        }
    }
    if octets.len() != count as usize {
        return Err(RdataFault::BadHex);
    }
    Ok(())
}

/// For words after `\#`: the number of words, from `\#` on, before the one at fault. This is the
/// first word that is no length of at most 65,535, or not hex digits; `\#` if there is no such word.
pub(crate) fn faulty_unknown(words: &[Word<'_>]) -> usize
    ensures value { FaultyUnknown words.now result }
    ensures bound { result ≤ length words.now }
{
    let Some((first, others)) = words.split_first() else {
        return 0;
    };
    if first.quoted || read_number(first.raw, MOST_DATA_OCTETS).is_none() {
        return 1;
    }
    match first_not_hex(others) {
        Some(index) => index + 2,
        None => 0,
    }
}

// The index of the first word that does not spell whole octets in hex digits, if there is one.
fn first_not_hex(words: &[Word<'_>]) -> Option<usize>
    ensures value { result ≡ position (λ w. not (is_hex w)) words.now }
    ensures bound { IfSome result (λ index. index < length words.now) }
{
    words.iter().position(|word| !is_hex(word))
}

// Whether a word spells whole octets in hex digits.
fn is_hex(word: &Word<'_>) -> bool
    ensures { result ≡ is_hex word.now }
{
    !word.quoted && !word.raw.is_empty() && word.raw.len() % 2 == 0 && are_hex_digits(word.raw)
}

fn are_hex_digits(text: &[u8]) -> bool
    ensures { result ≡ list_all is_ascii_hexdigit text.now }
{
    text.iter().all(|octet| octet.is_ascii_hexdigit())
}

// Appends the octets that a word spells in hex digits. Fails with `BadHex` if the word is quoted,
// empty, or not of an even number of hex digits.
fn append_word(word: &Word<'_>, octets: &mut Vec<u8>) -> Result<(), RdataFault>
    ensures ok { IfOk result (λ _. AppendsWord word.now octets.old.items octets.new.items) }
    ensures fault { IfErr result (λ fault. fault ≢ RdataFault.NoMemory → (d : Octets)
        → SaysHexWord word.now d → ⊥) }
    ensures kind { IfErr result (λ fault. fault ≢ RdataFault.NoMemory → fault ≡ RdataFault.BadHex) }
{
    if word.quoted || word.raw.is_empty() || !append_hex(word.raw, octets)? {
        return Err(RdataFault::BadHex);
    }
    Ok(())
}
