//! The entries of a zone file. An entry ends at the first line end outside parentheses
//! (RFC 1035 5.1).
ghost use Rattle.std.specs.Prelude.{◌≡◌, ◌≢◌, ◌≤◌, Some, None, true, length, IfOk, IfErr, IfSome, MatchOption};
ghost use Rattle.std.specs.Option.{option_map, unwrap_or};
ghost use Rattle.dns_spec.specs.FileFaults.{too_long};
ghost use Rattle.dns_spec.specs.ZoneText.{is_cut_short, extent_by, stop_at, stop_fault, string_fault, token_fault, unless_cut_short, word_of};
ghost use Rattle.dns_spec.specs.EntryPlaces.{ending_fault};
ghost use Rattle.dns_master.specs.TokenForm.{shown_token};
ghost use Rattle.dns_master.specs.EntryForm.{EntryRead, StepIs, WholeBefore, shown_ending};
ghost use Rattle.dns_master.specs.Codes.{ForFault, fault_of};

use crate::read_fault::ReadCode;
use crate::run::{RunKind, after_blanks};
use crate::token::{Token, first_token};
use dns_rdata::Word;
use std::alloc::AllocError;

/// The most words of an entry that are stored while a file is read: one more than a valid entry may
/// have.
// Before the data of a record come at most its owner, TTL, class and type. Data has at most 65,535
// octets, and at most one word for each. The generic form has two more words, `\#` and the length.
pub(crate) const MOST_WORDS: usize = 65_542;

/// How reading an entry ends.
#[derive(Clone, Copy)]
pub(crate) enum Ending<'a> {
    /// After its line end, before this text.
    AfterLine(&'a [u8]),
    /// At a misplaced parenthesis, which begins this text.
    AtParenthesis(&'a [u8]),
    /// Before this text, from which no token can be read; true inside parentheses.
    AtStop(bool, &'a [u8]),
}

/// Reads the entry that begins a text, up to its end or its lexical fault. Stores its words in
/// `words`, but no more than the first `most`. Returns the number of its line ends, and how reading
/// it ends.
pub(crate) fn read_entry<'a>(
    text: &'a [u8],
    most: usize,
    words: &mut Vec<Word<'a>>,
) -> Result<(u32, Ending<'a>), AllocError>
    requires { length text.now ≤ 16777217 }
    ensures { IfOk result (λ found. EntryRead text.now most words.new.items found.0
        (shown_ending found.1)) }
{
    words.clear();
    let (mut lines, mut is_open, mut rest) = (0, false, text);
    'tokens: while let Some((token, others)) = first_token(rest) {
        if let Some(word) = word_of(token) {
            if words.len() < most {
                words.push(word)?;
            }
            rest = after_blanks(others);
            continue;
        }
        lines += u32::from(matches!(token, Token::LineEnd));
        match step_after(token, is_open) {
            Step::Misplaced => return Ok((lines, Ending::AtParenthesis(rest))),
            Step::Over => return Ok((lines, Ending::AfterLine(others))),
            Step::Onward(now_open) => is_open = now_open,
        }
        rest = others;
    }
    Ok((lines, Ending::AtStop(is_open, rest)))
}

/// The word that a token is, if it is a word or a quoted string.
pub(crate) fn word_of(token: Token<'_>) -> Option<Word<'_>>
    ensures { result ≡ word_of (shown_token token.entry) }
{
    match token {
        Token::Word(raw) => Some(Word { raw, quoted: false }),
        Token::Quoted(raw) => Some(Word { raw, quoted: true }),
        _ => None,
    }
}

// What follows a token: nothing, because the token is a misplaced parenthesis or ends the entry; or
// more tokens, inside (true) or outside parentheses.
#[derive(Clone, Copy)]
pub(crate) enum Step {
    Misplaced,
    Over,
    Onward(bool),
}

#[tactic(auto, using(crate::proofs::EntryFacts::misplaced_steps))]
pub(crate) fn step_after(token: Token<'_>, is_open: bool) -> Step
    ensures { StepIs is_open (shown_token token.entry) result }
{
    match token {
        Token::Opening if is_open => Step::Misplaced,
        Token::Opening => Step::Onward(true),
        Token::Closing if is_open => Step::Onward(false),
        Token::Closing => Step::Misplaced,
        Token::LineEnd if !is_open => Step::Over,
        _ => Step::Onward(is_open),
    }
}

/// The text after an entry, if the entry is complete: it ends with a line end, or without a fault
/// at the end of a text that does not go on. `goes_on` says whether the text goes on past its
/// limit; it is `None` while more text may follow.
///
/// Returns `None` if only more text could decide whether the entry is complete. Fails with the
/// lexical fault of the entry.
#[tactic(auto, using(crate::proofs::Refusals::other_than_long))]
pub(crate) fn rest_after<'a>(
    ending: Ending<'a>,
    goes_on: Option<bool>,
) -> Result<Option<&'a [u8]>, ReadCode>
    ensures ok { IfOk result (λ found. MatchOption found (goes_on ≡ None)
        (λ rest. WholeBefore goes_on (shown_ending ending.entry) rest.now)) }
    ensures err { IfErr result (λ code. ForFault code (λ fault.
        (ending_fault (extent_by (unwrap_or goes_on true)) (shown_ending ending.entry) ≡ Some fault)
        × (goes_on ≡ None → fault ≢ too_long))) }
{
    match ending {
        Ending::AfterLine(rest) => Ok(Some(rest)),
        Ending::AtParenthesis(_) => Err(ReadCode::Parenthesis),
        Ending::AtStop(is_open, rest) => {
            match stop_fault(rest, is_open, goes_on.unwrap_or(true)) {
                None => Ok(Some(rest)),
                Some(ReadCode::TooLong) if goes_on.is_none() => Ok(None),
                Some(fault) => Err(fault),
            }
        }
    }
}

/// The lexical fault of an entry, by how reading it ends. `goes_on` is whether the text goes on
/// past its limit.
pub(crate) fn ending_fault(ending: Ending<'_>, goes_on: bool) -> Option<ReadCode>
    ensures { option_map fault_of result
        ≡ ending_fault (extent_by goes_on) (shown_ending ending.entry) }
{
    match ending {
        Ending::AfterLine(_) => None,
        Ending::AtParenthesis(_) => Some(ReadCode::Parenthesis),
        Ending::AtStop(is_open, rest) => stop_fault(rest, is_open, goes_on),
    }
}

// The fault of an entry without a line end; `None` if it ends with the text. `rest` is the text
// after the last token, from which no other token can be read. `is_open` is whether this is inside
// parentheses, and `goes_on` is whether the text goes on past its limit.
fn stop_fault(rest: &[u8], is_open: bool, goes_on: bool) -> Option<ReadCode>
    ensures value { option_map fault_of result
        ≡ stop_fault (extent_by goes_on) is_open (stop_at rest.now) }
    ensures source { IfSome result (λ code. code ≢ ReadCode.SourceFailed) }
{
    let Some((first, others)) = rest.split_first() else {
        return match (goes_on, is_open) {
            (true, _) => Some(ReadCode::TooLong),
            (_, true) => Some(ReadCode::Parenthesis),
            _ => None,
        };
    };
    if *first == b'"' {
        let (_, stop) = others.split_at(RunKind::String.length(others));
        return Some(unless_cut_short(goes_on, stop, string_fault(stop)));
    }
    Some(unless_cut_short(goes_on, rest, token_fault(rest)))
}

// Returns `fault`, the fault of the text `rest`, from which no token can be read or continued; or
// returns `TooLong` if octets past the limit could change that, because the text is empty, or may
// be the beginning of an escape or of CR LF.
fn unless_cut_short(goes_on: bool, rest: &[u8], fault: ReadCode) -> ReadCode
    ensures value { fault_of result ≡ unless_cut_short (extent_by goes_on) rest.now
        (fault_of fault) }
    ensures source { fault ≢ ReadCode.SourceFailed → result ≢ ReadCode.SourceFailed }
{
    let is_cut_short = matches!(
        rest,
        [] | [b'\\'] | [b'\r'] | [b'\\', b'0'..=b'9'] | [b'\\', b'0'..=b'9', b'0'..=b'9']
    );
    if goes_on && is_cut_short {
        ReadCode::TooLong
    } else {
        fault
    }
}

// The fault of a quoted string without a closing quotation mark. `rest` is the text after the
// octets of the string.
fn string_fault(rest: &[u8]) -> ReadCode
    ensures value { fault_of result ≡ string_fault rest.now }
    ensures source { result ≢ ReadCode.SourceFailed }
{
    match rest {
        [] | [b'\n', ..] | [b'\r', b'\n', ..] => ReadCode::UnendedString,
        _ => token_fault(rest),
    }
}

// The fault of a text from which no token can be read.
fn token_fault(rest: &[u8]) -> ReadCode
    ensures value { fault_of result ≡ token_fault rest.now }
    ensures source { result ≢ ReadCode.SourceFailed }
{
    if rest.first() == Some(&b'\\') {
        return ReadCode::BadEscape;
    }
    ReadCode::BadOctet
}
