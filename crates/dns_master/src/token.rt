//! The tokens of a zone file (RFC 1035 5.1).
ghost use Rattle.dns_spec.specs.ZoneText.{token_front};
ghost use Rattle.dns_master.specs.TokenForm.{Begins};

use crate::run::{RunKind, after_blanks, after_comment};

/// A token. The text of a word or a quoted string has its escapes, but no quotation marks around
/// it.
#[derive(Clone, Copy, Debug, PartialEq, Eq)]
pub(crate) enum Token<'a> {
    Blank,
    Comment,
    Word(&'a [u8]),
    Quoted(&'a [u8]),
    Opening,
    Closing,
    LineEnd,
}

/// The first token of a text, and the text after it. `None` if the text is empty, or no token
/// begins with it.
#[inline(always)]
#[tactic(auto, using(crate::proofs::RunLemmas::word_first))]
pub(crate) fn first_token(text: &[u8]) -> Option<(Token<'_>, &[u8])>
    ensures { Begins result (token_front text.now) }
{
    let (first, others) = text.split_first()?;
    // A fast path, because most tokens are words: it saves 2 % of the instructions for a check of a
    // large zone. The last case below is left only for words that begin with an escape.
    if RunKind::Word.has(*first) {
        let (raw, others) = text.split_at(RunKind::Word.length(text));
        return Some((Token::Word(raw), others));
    }
    match *first {
        b' ' | b'\t' => Some((Token::Blank, after_blanks(text))),
        b';' => Some((Token::Comment, after_comment(others))),
        b'"' => {
            let (raw, end) = others.split_at(RunKind::String.length(others));
            match end {
                [b'"', after @ ..] => Some((Token::Quoted(raw), after)),
                _ => None,
            }
        }
        b'(' => Some((Token::Opening, others)),
        b')' => Some((Token::Closing, others)),
        b'\n' => Some((Token::LineEnd, others)),
        b'\r' => match others {
            [b'\n', after @ ..] => Some((Token::LineEnd, after)),
            _ => None,
        },
        _ => {
            let length = RunKind::Word.length(text);
            if length == 0 {
                return None;
            }
            let (raw, others) = text.split_at(length);
            Some((Token::Word(raw), others))
        }
    }
}
