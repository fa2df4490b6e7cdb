//! Reads data in the form of its type: one word for each number, address, name and string (RFC
//! 1035 5.1).
ghost use Rattle.std.specs.Prelude.{◌≡◌, ◌≢◌, ◌≤◌, ◌==◌, ◌<◌, ℕ, ◌++◌, false, [], length, slice_get, Some, OnOk, IfErr};
ghost use Rattle.dns_spec.specs.Data.{number, string};
ghost use Rattle.dns_spec.specs.DataFaults.{DataFaultIs, field_fault};
ghost use Rattle.dns_spec.specs.AllFaults.{FaultyData};
ghost use Rattle.dns_spec.specs.DataText.{SaysNumber, SaysString, SaysWord, Says, word_fields};
ghost use Rattle.dns_rdata.specs.RdataFault.{fault_code};
ghost use Rattle.dns_rdata.specs.TypeRows.{field_of, fields_in};
ghost use Rattle.dns_rdata.specs.WordForms.{as_it_is, canonical_octets, AppendsSaid, is_marked};

use crate::ipv4::read_ipv4;
use crate::ipv6::read_ipv6;
use crate::number::read_number;
use crate::rdata::MAX_OCTETS;
use crate::rdata_fault::RdataFault;
use crate::rtype::RType;
use crate::string::{is_plain_string, read_string};
use crate::table::{Field, is_strings, row_of_type};
use crate::word::Word;
use dns_name::Name;

/// The number of octets reserved for data before it is read. Most data fits into these, so that its
/// memory never grows. For a smaller request an allocator would hardly take less memory.
pub(crate) const USUAL_OCTETS: usize = 24;

/// Reads words in the form of the type, and puts the data that they spell into `octets`, which must
/// be empty. Names are put in lower case; `name` is a buffer for reading them.
///
/// Fails with `BadHex` if the type has no mnemonic, with `WordCount` if the number of words is
/// wrong, or else with the fault of the first invalid word from the left, or with `BadString` if
/// the data exceeds 65,535 octets. `faulty` is then the number of words, from the type on, before
/// the one at fault.
pub(crate) fn put_typed(
    rtype: RType,
    words: &[Word<'_>],
    origin: &Name,
    name: &mut Name,
    faulty: &mut usize,
    octets: &mut Vec<u8>,
) -> Result<(), RdataFault>
    requires none { octets.old.items ≡ [] }
    requires not_unknown { is_marked words.now ≡ false }
    ensures ok { OnOk result (Says rtype.0 words.now origin.now octets.new.items) }
    ensures which { IfErr result (λ fault. fault ≢ RdataFault.NoMemory
        → DataFaultIs rtype.0 words.now origin.now (fault_code fault)) }
    ensures faulty { IfErr result (λ fault. fault ≢ RdataFault.NoMemory
        → FaultyData rtype.0 words.now origin.now faulty.new) }
{
    let Some(row) = row_of_type(rtype) else {
        *faulty = words.len().min(1);
        return Err(RdataFault::BadHex);
    };
    if !is_word_count(row.fields, words.len()) {
        *faulty = 0;
        return Err(RdataFault::WordCount);
    }
    'words: for (index, word) in words.iter().enumerate() {
        *faulty = index + 1;
        append_word(field_at(row.fields, index), word, origin, name, octets)?;
        if octets.len() > MAX_OCTETS {
            return Err(RdataFault::BadString);
        }
    }
    Ok(())
}

// Whether `count` is a valid number of words for data with these fields.
fn is_word_count(fields: &[Field], count: usize) -> bool
    ensures { result ≡ (length (word_fields count (fields_in fields.now)) == count) }
{
    if is_strings(fields) {
        count > 0
    } else {
        fields.len() == count
    }
}

// The field that word number `index` spells, counted from 0.
fn field_at(fields: &[Field], index: usize) -> Field
    requires { (k : ℕ) × (index < k) × (length (word_fields k (fields_in fields.now)) ≡ k) }
    ensures { (k : ℕ) → index < k
        → slice_get (word_fields k (fields_in fields.now)) index ≡ Some (field_of result) }
{
    if is_strings(fields) {
        Field::Strings
    } else {
        fields[index]
    }
}

// Appends the octets that a word spells for a field. Only the word of a string may be quoted.
fn append_word(
    field: Field,
    word: &Word<'_>,
    origin: &Name,
    name: &mut Name,
    octets: &mut Vec<u8>,
) -> Result<(), RdataFault>
    ensures { AppendsSaid (field_fault (field_of field)) (canonical_octets (field_of field))
        (SaysWord (field_of field) origin.now word.now) octets.old.items octets.new.items result }
{
    if word.quoted && !matches!(field, Field::String | Field::Strings) {
        return Err(fault_of(field));
    }
    match field {
        Field::U16 => append_u16(word.raw, octets),
        Field::U32 => append_u32(word.raw, octets),
        Field::Ipv4 => append(octets, &read_ipv4(word.raw).ok_or(RdataFault::BadAddress)?),
        Field::Ipv6 => append(octets, &read_ipv6(word.raw).ok_or(RdataFault::BadAddress)?),
        Field::Domain => {
            name.spell(word.raw, origin)?;
            append(octets, name.octets())
        }
        Field::String | Field::Strings => append_string(word.raw, octets),
        Field::Anything => Err(fault_of(field)),
    }
}

fn fault_of(field: Field) -> RdataFault
    ensures { fault_code result ≡ field_fault (field_of field) }
{
    match field {
        Field::U16 | Field::U32 => RdataFault::BadNumber,
        Field::Ipv4 | Field::Ipv6 => RdataFault::BadAddress,
        Field::Domain => RdataFault::BadName,
        Field::String | Field::Strings | Field::Anything => RdataFault::BadString,
    }
}

// Appends the number that a text spells, the most significant octet first (RFC 1035 2.3.2).
fn append_u16(text: &[u8], octets: &mut Vec<u8>) -> Result<(), RdataFault>
    ensures { AppendsSaid (field_fault (number 2)) as_it_is (SaysNumber 2 text.now)
        octets.old.items octets.new.items result }
{
    let number = read_number(text, 0xffff).ok_or(RdataFault::BadNumber)?;
    let [_, _, a, b] = number.to_be_bytes();
    append(octets, &[a, b])
}

fn append_u32(text: &[u8], octets: &mut Vec<u8>) -> Result<(), RdataFault>
    ensures { AppendsSaid (field_fault (number 4)) as_it_is (SaysNumber 4 text.now)
        octets.old.items octets.new.items result }
{
    let number = read_number(text, 0xffff_ffff).ok_or(RdataFault::BadNumber)?;
    append(octets, &number.to_be_bytes())
}

// Appends the length of the string that a text spells, and then the string (RFC 1035 3.3). Most
// strings have no escapes, so their octets are taken from the text itself.
fn append_string(text: &[u8], octets: &mut Vec<u8>) -> Result<(), RdataFault>
    ensures { AppendsSaid (field_fault string) as_it_is (SaysString text.now)
        octets.old.items octets.new.items result }
{
    if is_plain_string(text) {
        append(octets, &[text.len() as u8])?;
        return append(octets, text);
    }
    let string = read_string(text).ok_or(RdataFault::BadString)?;
    append(octets, &[string.len() as u8])?;
    append(octets, string.as_slice())
}

fn append(octets: &mut Vec<u8>, piece: &[u8]) -> Result<(), RdataFault>
    ensures ok { OnOk result (octets.new.items ≡ octets.old.items ++ piece.now) }
    ensures fault { IfErr result (λ fault. fault ≡ RdataFault.NoMemory) }
{
    octets.extend_from_slice(piece)?;
    Ok(())
}
