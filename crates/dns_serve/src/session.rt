//! The messages that a stream brings and the replies to them, without calls of a device.
ghost use Rattle.std.specs.Prelude.{ℕ, vec_len, vec_capacity, ◌≡◌, ◌+◌, ◌==◌, ◌≤◌, ◌<◌, ◌⊎◌, [], ◌++◌, length, drop, IfOk};
ghost use Rattle.dns_spec.specs.Names.{Octets};
ghost use Rattle.dns_spec.specs.Stream.{reply_frame};
ghost use Rattle.dns_serve.specs.Framing.{HasTaken, IsEndOf, TakesMore, IsNew, missing_of};
ghost use Rattle.dns_serve.specs.Streams.{reply_over_tcp};

use crate::frame::{Frame, MOST_FRAME};
use byteorder::{BigEndian, ByteOrder};
use dns_answer::{TcpBuilder, respond_in};
use dns_zone::{Steps, Zone};
use std::alloc::{AllocError, Global};
use std::marker::Model;

// No message is answered while more octets of replies than this are held.
const BATCH: usize = 16_384;

/// What a server holds of one stream: the frame that is arriving, and the replies that were not
/// sent. Callers read the stream, write what `unsent` returns, and say so with `note_sent`.
///
/// However the stream is cut into pieces, the octets sent, followed by the unsent octets, are the
/// replies to the messages of all frames taken. At most 81,921 octets of replies are held, in
/// memory that `new` allocates.
#[derive(Drop)]
pub struct Session {
    frame: Frame,
    // Replies, each after its length. The first `sent` octets were sent.
    replies: Vec<u8>,
    sent: usize,
    // How many more messages are answered.
    left: u64,
    ghost incomplete: { 0 < missing_of frame },
    ghost part: { sent ≤ vec_len replies },
    ghost bound: { vec_len replies ≤ 81921 },
    ghost room: { 81921 ≤ vec_capacity replies },
}

impl Model for Session {
    ghost use Rattle.std.specs.Prelude.{drop, vec_len};
    ghost use Rattle.dns_serve.specs.Framing.{SessionState};

    ghost Value = { SessionState };

    ghost view = { λ s. record {
      frame = s.frame;
      unsent = drop s.sent s.replies.items;
      held = vec_len s.replies;
      left = s.left;
    } };
}

impl Session {
    /// A session of which nothing was taken, and that answers at most `most` messages. Fails only
    /// if allocation fails.
    pub fn new(alloc: Global, most: u64) -> Result<Session, AllocError>
        ensures { IfOk result (λ session. IsNew most session) }
    {
        Ok(Session {
            frame: Frame::new(),
            replies: Vec::with_capacity(alloc, BATCH + MOST_FRAME)?,
            sent: 0,
            left: most,
        })
    }

    /// Takes octets of the stream, and answers each message that they complete. Returns the octets
    /// that it does not take: none, unless more than 16,384 octets of replies are held, or no more
    /// messages are answered. Does not allocate.
    pub fn take<'a>(&mut self, zone: &Zone, octets: &'a [u8], builder: &mut TcpBuilder) -> &'a [u8]
        ensures rest { IsEndOf result.now octets.now }
        ensures taken { (most : ℕ) (x : Octets) (sent : Octets)
            → HasTaken zone.now most self.old x sent
            → TakesMore zone.now most self.old self.new x sent octets.now result.now }
    {
        let mut rest = octets;
        'pieces: while !rest.is_empty() && self.replies.len() <= BATCH && self.left > 0 {
            rest = self.frame.take(rest);
            if self.frame.missing() == 0 {
                put_reply(zone, self.frame.message(), builder, &mut self.replies);
                self.frame.clear();
                self.left -= 1;
            }
        }
        rest
    }

    /// The octets to send next.
    pub fn unsent(&self) -> &[u8]
        ensures { result.now ≡ self.now.unsent }
    {
        &self.replies[self.sent..]
    }

    /// Records that the first `count` of the unsent octets were sent. Once all octets were sent, no
    /// replies are held.
    pub fn note_sent(&mut self, count: usize)
        requires { count ≤ length self.old.unsent }
        ensures unsent { self.new.unsent ≡ drop count self.old.unsent }
        ensures frame { self.new.frame ≡ self.old.frame }
        ensures left { self.new.left ≡ self.old.left }
        ensures empty { self.new.unsent ≡ [] → self.new.held ≡ 0 }
        ensures held { (self.new.unsent ≡ []) ⊎ (self.new.held ≡ self.old.held) }
    {
        self.sent += count;
        if self.sent == self.replies.len() {
            self.replies.clear();
            self.sent = 0;
        }
    }

    /// Whether the octets taken end with a frame, or there are none.
    pub fn is_between_frames(&self) -> bool
        ensures { result ≡ (self.now.frame.came == 0) }
    {
        self.frame.is_empty()
    }

    /// How many more messages are answered.
    pub fn left(&self) -> u64
        ensures { result ≡ self.now.left }
    {
        self.left
    }
}

// Appends the reply to a message after its length, or nothing if there is no reply.
fn put_reply(zone: &Zone, message: &[u8], builder: &mut TcpBuilder, replies: &mut Vec<u8>)
    requires { vec_len replies.old + 65537 ≤ vec_capacity replies.old }
    ensures items { replies.new.items
        ≡ replies.old.items ++ reply_frame (reply_over_tcp zone.now message.now) }
    ensures bound { vec_len replies.new ≤ vec_len replies.old + 65537 }
    ensures room { vec_capacity replies.old ≤ vec_capacity replies.new }
{
    let Some(reply) = respond_in(&mut Steps::new(zone), message, builder) else {
        return;
    };
    let mut length = [0; 2];
    BigEndian::write_u16(&mut length, reply.len() as u16);
    if replies.extend_from_slice(&length).is_err() || replies.extend_from_slice(reply).is_err() {
        unreachable!();
    }
}
