//! Why an entry is faulty, and which of its words.
ghost use Rattle.std.specs.Prelude.{◌≡◌, ◌≢◌, ◌+◌, ◌≤◌, length, Some, None, if◌then◌else◌};
ghost use Rattle.dns_spec.specs.NameText.{name_fault};
ghost use Rattle.dns_spec.specs.Meaning.{Nothing, fields};
ghost use Rattle.dns_master.specs.Codes.{fault_of};
ghost use Rattle.dns_master.specs.RecordForm.{SpelledName};
ghost use Rattle.dns_master.specs.TakeForm.{ForDataFault, words_to};

use crate::earlier::{Blame, RecordFault};
use crate::fields::{Fields, is_class_word, is_ttl_word};
use crate::read_fault::ReadCode;
use dns_name::Name;
use dns_rdata::{RdataFault, Word};

impl Blame {
    /// A fault of the word that comes after this number of words of the entry.
    pub(crate) fn after(words: usize, code: ReadCode) -> Blame
        requires { code ≢ ReadCode.SourceFailed }
        ensures code { result.code ≡ code }
        ensures number { result.number ≡ None }
        ensures words { result.words ≡ words }
    {
        Blame {
            code,
            number: None,
            words,
        }
    }
}

/// The fault of an entry whose owner is invalid, with the number of the name's fault unless the
/// word is quoted.
pub(crate) fn owner_blame(word: &Word<'_>, origin: &Name) -> Blame
    requires { Nothing (SpelledName origin.now word.now) }
    ensures code { result.code ≡ ReadCode.BadOwner }
    ensures number { result.number
        ≡ (if word.now.is_quoted then None else Some (name_fault word.now.raw)) }
    ensures words { result.words ≡ 0 }
{
    let number = match Name::read_text(word.raw, origin) {
        Err(fault) if !word.quoted => Some(fault.code()),
        _ => None,
    };
    Blame {
        code: ReadCode::BadOwner,
        number,
        words: 0,
    }
}

impl RecordFault {
    /// A fault without a number.
    pub(crate) fn of(code: ReadCode) -> RecordFault
        requires { code ≢ ReadCode.SourceFailed }
        ensures code { result.code ≡ code }
        ensures number { result.number ≡ None }
    {
        RecordFault { code, number: None }
    }
}

/// The fault of a record whose data has this fault.
pub(crate) fn data_fault(fault: RdataFault) -> RecordFault
    ensures { ForDataFault fault result }
{
    match fault {
        RdataFault::NoMemory => RecordFault::of(ReadCode::NoMemory),
        _ => RecordFault {
            code: ReadCode::BadData,
            number: Some(fault.code()),
        },
    }
}

/// The fault of a record, with the word at fault. `words` are the words of the entry after its
/// owner, and `before` is the number of words before them. If the data is invalid, `in_data` words,
/// counted from the type on, come before the one at fault.
#[cold]
#[inline(never)]
pub(crate) fn record_blame(
    fault: RecordFault,
    before: usize,
    words: &[Word<'_>],
    in_data: usize,
) -> Blame
    requires before { before ≤ 1 }
    requires blamed { fault.code ≡ ReadCode.BadData
        → in_data ≤ 1 + length (fields words.now).others }
    ensures code { result.code ≡ fault.code }
    ensures number { result.number ≡ fault.number }
    ensures words { result.words
        ≡ before + words_to (fault_of fault.code) words.now in_data }
{
    Blame {
        code: fault.code,
        number: fault.number,
        words: before + words_before(fault.code, words, in_data),
    }
}

// How many of the words after the owner come before the one at fault. A TTL at fault is the first
// of them, or the second after a class; a class at fault is the first, or the second after a TTL.
#[tactic(auto, using(crate::proofs::TakeSteps::fields_few))]
fn words_before(code: ReadCode, words: &[Word<'_>], in_data: usize) -> usize
    requires blamed { code ≡ ReadCode.BadData
        → in_data ≤ 1 + length (fields words.now).others }
    ensures value { result ≡ words_to (fault_of code) words.now in_data }
    ensures bound { result ≤ 1 + length words.now }
{
    let before_type = words.len().saturating_sub(Fields::of(words).others.len());
    match (code, words.split_first()) {
        (ReadCode::BadTtl, Some((first, _))) => usize::from(!is_ttl_word(first)),
        (ReadCode::OtherClass, Some((first, _))) => usize::from(!is_class_word(first)),
        (ReadCode::BadTtl | ReadCode::OtherClass, None) => 0,
        (ReadCode::BadData, _) => before_type + in_data,
        _ => before_type,
    }
}
