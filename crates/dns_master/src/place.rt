//! The places of faults in an entry of a zone file (RFC 1035 5.1).
ghost use Rattle.std.specs.Prelude.{◌≡◌, ◌≤◌, length, IfSome, Some, None, MatchOption};
ghost use Rattle.dns_spec.specs.ZoneText.{stop_at};
ghost use Rattle.dns_spec.specs.EntryPlaces.{empty_place, octet_place, stop_octets, next_line, end_octets, fault_place, text_after};
ghost use Rattle.dns_master.specs.Codes.{fault_of};
ghost use Rattle.dns_master.specs.EntryForm.{rest_in, shown_ending};
ghost use Rattle.dns_master.specs.PlaceForm.{shown_place};

use crate::entry::Ending;
use crate::read_fault::ReadCode;
use crate::run::{RunKind, after_comment};

/// A span of a text: the number of octets before it, and the number of octets up to its end.
#[derive(Clone, Copy, Debug, PartialEq, Eq)]
pub struct Span {
    /// The number of octets before it.
    pub begins: usize,
    /// The number of octets up to its end.
    pub ends: usize,
}

impl Span {
    /// The empty place after this number of octets.
    pub(crate) fn empty(begins: usize) -> Span
        ensures { shown_place result ≡ empty_place begins }
    {
        Span {
            begins,
            ends: begins,
        }
    }

    /// The place of the octet that begins `text`, which comes after `begins` octets. At a line end
    /// and at the end of the text the place is empty.
    pub(crate) fn of_octet(begins: usize, text: &[u8]) -> Span
        requires { begins ≤ 16777217 }
        ensures { shown_place result ≡ octet_place begins text.now }
    {
        let ends = match text {
            [] | [b'\n', ..] | [b'\r', b'\n', ..] => begins,
            _ => begins + 1,
        };
        Span { begins, ends }
    }
}

/// For a text `rest` with which no token begins: the text from the first octet on that can't
/// continue the entry. This is `rest`, or what follows the octets of an unended string.
pub(crate) fn stop_octets(rest: &[u8]) -> &[u8]
    ensures value { result.now ≡ stop_octets (stop_at rest.now) }
    ensures short { length result.now ≤ length rest.now }
{
    match rest {
        [b'"', others @ ..] => others.split_at(RunKind::String.length(others)).1,
        _ => rest,
    }
}

/// The text after its first LF.
pub(crate) fn next_line(text: &[u8]) -> &[u8]
    ensures value { result.now ≡ next_line text.now }
    ensures short { length result.now ≤ length text.now }
{
    match after_comment(text) {
        [_, others @ ..] => others,
        [] => b"",
    }
}

/// The place of a lexical fault with this code. `text` is the text of a file up to its limit, and
/// `past` the octet past the limit, if there is one.
pub(crate) fn stop_place(text: &[u8], past: &[u8], code: ReadCode, ending: Ending<'_>) -> Span
    requires { length text.now ≤ 16777216 }
    ensures { shown_place result ≡ fault_place (length text.now) past.now (fault_of code)
        (end_octets (shown_ending ending.entry)) }
{
    match code {
        ReadCode::TooLong => Span::of_octet(text.len(), past),
        _ => {
            let rest = end_octets(ending);
            Span::of_octet(text.len().saturating_sub(rest.len()), rest)
        }
    }
}

// The text after the line end of an entry, or from the octet on at which reading it stops.
fn end_octets(ending: Ending<'_>) -> &[u8]
    ensures { result.now ≡ end_octets (shown_ending ending.entry) }
{
    match ending {
        Ending::AfterLine(rest) | Ending::AtParenthesis(rest) => rest,
        Ending::AtStop(_, rest) => stop_octets(rest),
    }
}

/// The text with which the next entry begins: after the line end of this one or, if it has a fault,
/// from the next line on. `None` if reading stopped at the end of the text, not after a line end.
pub(crate) fn text_after(ending: Ending<'_>) -> Option<&[u8]>
    ensures value { MatchOption result (text_after (shown_ending ending.entry) ≡ None)
        (λ rest. text_after (shown_ending ending.entry) ≡ Some rest.now) }
    ensures short { IfSome result
        (λ rest. length rest.now ≤ length (rest_in (shown_ending ending.entry))) }
{
    match ending {
        Ending::AfterLine(rest) => Some(rest),
        Ending::AtParenthesis(rest) => Some(next_line(rest)),
        Ending::AtStop(_, []) => None,
        Ending::AtStop(_, rest) => Some(next_line(stop_octets(rest))),
    }
}
