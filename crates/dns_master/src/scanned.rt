//! What an entry of a file gives, or its fault with its place (RFC 1035 section 5).
ghost use Rattle.std.specs.Prelude.{◌≡◌, ◌-◌, ◌≤◌, length, IfOk};
ghost use Rattle.dns_spec.specs.AllFaults.{place_after};
ghost use Rattle.dns_master.specs.Codes.{fault_of};
ghost use Rattle.dns_master.specs.PlaceForm.{shown_place};
ghost use Rattle.dns_master.specs.ListingForm.{IsScanned, Judges, PassesEntry, fault_in, placed, shown_fault, spot_by};

use crate::earlier::{Blame, Earlier};
use crate::entry::{Ending, Step, ending_fault, step_after, word_of};
use crate::place::{Span, stop_octets, stop_place};
use crate::read_fault::ReadCode;
use crate::run::begins_blank;
use crate::token::first_token;
use dns_rdata::{DataBuffers, Word};
use std::alloc::AllocError;

/// A fault of an entry of a file.
#[derive(Clone, Copy, Debug, PartialEq, Eq)]
pub struct EntryFault {
    /// The code.
    pub code: ReadCode,
    /// What is wrong with the owner (`R07`) or the data (`R13`), as a number.
    pub number: Option<u8>,
    /// The place of the fault.
    pub place: Span,
    /// The offset of the entry: the number of octets before it.
    pub entry: usize,
}

/// What an entry gives: whether it gives a record, or its fault.
pub(crate) enum Judged {
    Gives(bool),
    Faulty(EntryFault),
}

/// An entry that was read.
#[derive(Clone, Copy)]
pub(crate) struct ScannedEntry<'a, 'w> {
    /// All octets of the file, up to its limit.
    pub(crate) octets: &'w [u8],
    /// The octet past the limit, if there is one.
    pub(crate) past: &'w [u8],
    /// The octets from the beginning of the entry on.
    pub(crate) rest: &'w [u8],
    pub(crate) words: &'a [Word<'w>],
    /// How reading the entry ended.
    pub(crate) ending: Ending<'w>,
}

impl ScannedEntry<'_, '_> {
    /// Takes the entry, even if it has a lexical fault, since later entries look back on it. Such a
    /// fault is returned before any other. A record that the entry gives is then `earlier.last`.
    pub(crate) fn take(
        &self,
        earlier: &mut Earlier,
        buffers: &mut DataBuffers,
    ) -> Result<Judged, AllocError>
        requires scanned { IsScanned self.now }
        ensures passed { PassesEntry earlier.old self.now earlier.new }
        ensures taken { IfOk result (Judges earlier.old (placed self.now) earlier.new.last) }
    {
        let taken = earlier.take(begins_blank(self.rest), self.words, buffers);
        if let Some(code) = ending_fault(self.ending, !self.past.is_empty()) {
            let place = stop_place(self.octets, self.past, code, self.ending);
            return Ok(Judged::Faulty(self.fault(code, None, place)));
        }
        match taken {
            Ok(is_record) => Ok(Judged::Gives(is_record)),
            Err(blame) if blame.code == ReadCode::NoMemory => Err(AllocError),
            Err(blame) => Ok(Judged::Faulty(self.fault_by(blame))),
        }
    }

    // A fault of the entry.
    fn fault(&self, code: ReadCode, number: Option<u8>, place: Span) -> EntryFault
        ensures { shown_fault result
            ≡ fault_in self.now (fault_of code) number (shown_place place) }
    {
        let entry = self.octets_before();
        EntryFault {
            code,
            number,
            place,
            entry,
        }
    }

    // The number of octets before the entry.
    fn octets_before(&self) -> usize
        ensures { result ≡ length self.now.octets.now - length self.now.rest.now }
    {
        self.octets.len().saturating_sub(self.rest.len())
    }

    // The fault of the entry, with the place of the word to blame.
    fn fault_by(&self, blame: Blame) -> EntryFault
        requires short { length self.now.rest.now ≤ length self.now.octets.now }
        ensures { shown_fault result ≡ fault_in self.now (fault_of blame.code) blame.number
            (spot_by (fault_of blame.code) blame.words self.now) }
    {
        let place = match blame.code {
            ReadCode::NoOwner | ReadCode::TooManyRecords => Span::empty(self.octets_before()),
            _ => self.place_after(blame.words),
        };
        self.fault(blame.code, blame.number, place)
    }

    // The place of the word after `number` words; the end of the entry if it has no such word.
    // Reads the entry again, so that words need not keep their places: few entries are faulty.
    fn place_after(&self, number: usize) -> Span
        requires short { length self.now.rest.now ≤ length self.now.octets.now }
        ensures { shown_place result ≡ place_after number (placed self.now) }
    {
        let total = self.octets.len();
        let (mut left, mut is_open, mut rest) = (number, false, self.rest);
        'tokens: while let Some((token, others)) = first_token(rest) {
            let begins = total - rest.len();
            match step_after(token, is_open) {
                Step::Misplaced | Step::Over => return Span::empty(begins),
                Step::Onward(now_open) => is_open = now_open,
            }
            if word_of(token).is_some() {
                if left == 0 {
                    let ends = total - others.len();
                    return Span { begins, ends };
                }
                left -= 1;
            }
            rest = others;
        }
        Span::empty(total - stop_octets(rest).len())
    }
}
