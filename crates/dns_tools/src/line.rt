//! A line of hexadecimal digits, read piece by piece.
ghost use Rattle.std.specs.Prelude.{◌≡◌, ◌-◌, ◌^◌, ◌<◌, ◌≤◌, ◌==◌, [], ◌∷◌, ◌++◌, length, take, vec_len, vec_capacity, Some, None, IfOk, OnOk, OnErr, IfSome, IfNone};
ghost use Rattle.std.specs.Bool.{OnTrue, OnFalse};
ghost use Rattle.dns_spec.specs.Names.{Octets};
ghost use Rattle.dns_spec.specs.DataText.{hex_octets};
ghost use Rattle.dns_name.specs.Counted.{failures_after};
ghost use Rattle.dns_tools.specs.declared.stop.Stop.TheVariants.{Source};
ghost use Rattle.dns_tools.specs.declared.line.TheConstants.{MOST_KEPT, MOST_LINE_OCTETS, PIECE};

use crate::stop::Stop;
use dns_name::{SourceFailed, Tally};
use std::alloc::{AllocError, Global};
use std::io::Read;
use std::marker::Model;

/// The most octets of a message on a line.
pub(crate) const MOST_LINE_OCTETS: usize = 65_535;

// The most digits that are kept of a line: one more than the longest message has. This number is
// odd, so that the digits spell no octets.
const MOST_KEPT: usize = 131_071;

/// The most octets of an input that are read at once.
pub(crate) const PIECE: usize = 65_536;

impl From<SourceFailed> for Stop {
    ghost from_gives = { λ _ stop. stop ≡ Source };

    fn from(_failed: SourceFailed) -> Stop {
        Stop::Source
    }
}

/// The front of an unfinished line, at most one digit longer than the longest message.
#[derive(Drop)]
pub(crate) struct Line {
    digits: Vec<u8>,
    ghost digits_fit: { vec_len digits ≤ MOST_KEPT },
    ghost digits_room: { MOST_KEPT ≤ vec_capacity digits },
}

impl Model for Line {
    ghost use Rattle.dns_spec.specs.Names.{Octets};

    ghost Value = { Octets };

    ghost view = { λ l. l.digits.items };
}

impl Line {
    ghost use Rattle.dns_tools.specs.FirstLine.{kept_line, IsFront, KeepsFirst, HasReadFront, ReadsFirst};

    pub(crate) fn new(alloc: Global) -> Result<Line, AllocError>
        ensures { IfOk result (λ line. line ≡ []) }
    {
        let digits = Vec::with_capacity(alloc, MOST_KEPT)?;
        Ok(Line { digits })
    }

    pub(crate) fn is_empty(&self) -> bool
        ensures { result ≡ (length self.now == 0) }
    {
        self.digits.is_empty()
    }

    /// Keeps the next octet of the line, unless the line is already too long to be a message.
    pub(crate) fn keep(&mut self, octet: u8)
        ensures { self.new ≡ kept_line (self.old ++ octet ∷ []) }
    {
        if self.digits.len() < MOST_KEPT {
            self.digits.push_reserved(octet);
        }
    }

    pub(crate) fn clear(&mut self)
        ensures { self.new ≡ [] }
    {
        self.digits.clear();
    }

    /// Reads the first line of a source, in pieces of at most `PIECE` octets, and stops once the
    /// line has ended or is too long.
    pub(crate) fn read<R: Read>(
        &mut self,
        piece: &mut [u8],
        source: &mut Tally<R>,
    ) -> Result<(), SourceFailed>
        requires source { source.old.failures < 2 ^ 64 - 1 }
        requires fresh { self.old ≡ [] }
        requires piece { length piece.old ≡ PIECE }
        ensures counted { source.new.failures ≡ failures_after source.old.failures result }
        ensures read { OnOk result (ReadsFirst (R.remaining source.old.device)
            (R.remaining source.new.device) self.new) }
        ensures failed { OnErr result (HasReadFront (R.remaining source.old.device)
            (R.remaining source.new.device)) }
    {
        let mut is_over = false;
        'pieces: while !is_over {
            let count = source.read(piece)?;
            is_over = count == 0 || self.take(&piece[..count]);
        }
        Ok(())
    }

    // Takes the next octets of the source, and returns whether the line needs no more octets.
    fn take(&mut self, octets: &[u8]) -> bool
        ensures more { (x : Octets) → IsFront x self.old → OnFalse result
            (IsFront (x ++ octets.now) self.new) }
        ensures over { (x : Octets) → IsFront x self.old → OnTrue result
            (KeepsFirst (x ++ octets.now) self.new) }
    {
        'octets: for octet in octets {
            if *octet == b'\n' {
                return true;
            }
            self.keep(*octet);
        }
        self.digits.len() == MOST_KEPT
    }

    /// Writes the octets of the line's message to the front of the buffer, and returns their
    /// number. `None` if the line is not a message.
    pub(crate) fn spell(&self, octets: &mut [u8]) -> Option<usize>
        requires { length octets.old ≡ MOST_LINE_OCTETS }
        ensures some { IfSome result (λ len. hex_octets self.now ≡ Some (take len octets.new)) }
        ensures within { IfSome result (λ len. len ≤ length octets.new) }
        ensures none { IfNone result (hex_octets self.now ≡ None) }
    {
        let len = self.digits.len() / 2;
        hex::decode_to_slice(self.digits.as_slice(), &mut octets[..len]).ok()?;
        Some(len)
    }
}
