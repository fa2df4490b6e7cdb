//! A message that arrives after its length in two octets (RFC 1035 4.2.2), in any pieces.
ghost use Rattle.std.specs.Prelude.{◌≡◌, ◌+◌, ◌≤◌, ◌<◌, ◌^◌, ◌-◌, [], ◌++◌, length, take, drop, ◌==◌, min};
ghost use Rattle.dns_spec.specs.Names.{Octets};
ghost use Rattle.dns_spec.specs.Reading.{field16};
ghost use Rattle.dns_serve.specs.Framing.{HasCome, missing_of};
ghost use Rattle.arrayvec.specs.ArrayVec.{array_vec_len};

use arrayvec::ArrayVec;
use byteorder::{BigEndian, ByteOrder};
use std::marker::Model;

/// The octets of the longest frame: a length and 65,535 octets.
pub(crate) const MOST_FRAME: usize = 65_537;

// How many octets of a frame are kept: its length, and 512 octets of its message. No query needs
// more: its question ends by octet 271.
const MOST_KEPT: usize = 514;

/// The octets of a frame that a stream has given so far.
#[derive(Drop)]
pub struct Frame {
    // The first of these octets.
    kept: ArrayVec<u8, MOST_KEPT>,
    // How many octets the stream has given.
    came: usize,
    ghost kept_came: { array_vec_len kept ≡ min came 514 },
    ghost within: { 2 ≤ came → came ≤ 2 + field16 kept.items 0 },
}

impl Model for Frame {
    ghost use Rattle.dns_serve.specs.Framing.{FrameState};

    ghost Value = { FrameState };

    ghost view = { λ f. record { came = f.came; kept = f.kept.items } };
}

impl Frame {
    /// A frame of which no octet has come.
    pub fn new() -> Frame
        ensures { HasCome result [] }
    {
        Frame {
            kept: ArrayVec::new(),
            came: 0,
        }
    }

    /// Forgets what has come, for the next frame.
    pub fn clear(&mut self)
        ensures { HasCome self.new [] }
    {
        self.kept.clear();
        self.came = 0;
    }

    /// Whether no octet has come.
    pub fn is_empty(&self) -> bool
        ensures { result ≡ (self.now.came == 0) }
    {
        self.came == 0
    }

    /// How many octets of the length are missing, or, once it has come, how many of the message.
    /// The frame is whole if none is missing.
    pub fn missing(&self) -> usize
        ensures count { result ≡ missing_of self.now }
        ensures within { self.now.came + result ≤ 65537 }
    {
        if self.came < 2 {
            return 2 - self.came;
        }
        2 + usize::from(BigEndian::read_u16(self.kept.as_slice())) - self.came
    }

    /// Takes octets of a stream, up to the end of the length, or, once that has come, of the
    /// message. Returns the others.
    pub fn take<'a>(&mut self, octets: &'a [u8]) -> &'a [u8]
        ensures came { (x : Octets) → HasCome self.old x
            → HasCome self.new (x ++ take (missing_of self.old) octets.now) }
        ensures rest { result.now ≡ drop (missing_of self.old) octets.now }
    {
        let (piece, rest) = octets.split_at(self.missing().min(octets.len()));
        let (kept, _) = piece.split_at(self.kept.remaining_capacity().min(piece.len()));
        if self.kept.try_extend_from_slice(kept).is_err() {
            unreachable!();
        }
        self.came += piece.len();
        rest
    }

    /// The message of a whole frame, without the octets that are not kept.
    pub fn message(&self) -> &[u8]
        requires { 2 ≤ self.now.came }
        ensures { result.now ≡ drop 2 self.now.kept }
    {
        &self.kept.as_slice()[2..]
    }
}
