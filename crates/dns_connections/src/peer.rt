//! One connection: its messages and replies, as far as its calls get without waiting.
ghost use Rattle.std.specs.Prelude.{List, nat_lt, vec_len, vec_capacity, ◌≡◌, ◌≤◌, ◌<◌, ℕ, [], length, drop, ⊤, Ok, IfOk, IfErr, OnOk, IfSome, true};
ghost use Rattle.dns_spec.specs.Records.{ZoneContents};
ghost use Rattle.dns_connections.specs.Exchanges.{SocketsState, IsFresh, IsServing, IsServed};

use crate::sockets::{Stopped, Stream};
use dns_answer::TcpBuilder;
use dns_serve::{Session, StreamFault};
use dns_zone::Zone;
use std::alloc::Global;
use std::marker::PhantomData;
use std::time::Duration;

/// How many octets are received at once.
pub(crate) const PIECE: usize = 16_384;

/// A type that stands for what one server serves, in the types of its connections.
pub(crate) trait Served: Drop {
    // The zone.
    ghost zone: { ZoneContents };
    // The most messages that are answered on one connection.
    ghost most: { ℕ };
    // The connections that were open before, and the exchanges that had ended.
    ghost before: { SocketsState };
}

/// How a turn of a connection ends.
#[derive(Clone, Copy, Debug, PartialEq, Eq)]
pub(crate) enum Next {
    // Nothing can be done before its socket is reported again.
    Waits,
    // There may be more to do.
    GoesOn,
    // Its input has ended after a message, or no more messages are answered, and all replies were
    // sent.
    Ends,
}

/// A connection.
#[derive(Drop)]
pub(crate) struct Peer<Z: Served, S: Stream> {
    stream: S,
    session: Session,
    // Octets received, of which the session has taken the first `taken`.
    input: Vec<u8>,
    taken: usize,
    pub(crate) accepted_at: Duration,
    // When it last completed a message or took all its replies, or else was accepted.
    pub(crate) progress_at: Duration,
    // Whether the end of the input was reported.
    has_ended: bool,
    zone: PhantomData<Z>,
    ghost part: { taken ≤ vec_len input },
    ghost bound: { vec_len input ≤ 16384 },
    ghost room: { 16384 ≤ vec_capacity input },
    ghost serves: { ∥ IsServing Z.zone Z.most session (drop taken input.items)
        (S.exchange stream) ∥₁ },
}

impl<Z: Served, S: Stream> Peer<Z, S> {
    /// A new connection, of which `most` messages are answered. Returns the stream if allocation
    /// fails.
    pub(crate) fn new(alloc: Global, stream: S, most: u64, now: Duration) -> Result<Peer<Z, S>, S>
        requires fresh { IsFresh (S.exchange stream) }
        requires most { most ≡ Z.most }
        ensures { IfErr result (λ same. same ≡ stream) }
    {
        let Ok(session) = Session::new(alloc, most) else {
            return Err(stream);
        };
        let Ok(input) = Vec::with_capacity(alloc, PIECE) else {
            return Err(stream);
        };
        Ok(Peer {
            session,
            input,
            stream,
            taken: 0,
            accepted_at: now,
            progress_at: now,
            has_ended: false,
            zone: PhantomData,
        })
    }

    /// The stream, to be closed.
    pub(crate) fn end(self) -> S
        ensures { IsServed Z.zone Z.most (S.exchange result) }
    {
        let Peer { stream, .. } = self;
        stream
    }

    /// Records that the socket was reported. Returns whether a turn can do something.
    pub(crate) fn note(&mut self, has_input: bool, has_ended: bool) -> bool {
        self.has_ended |= has_ended;
        has_input || has_ended || !self.session.unsent().is_empty()
    }

    /// The fault of the connection if it makes no progress: `SinkFailed` if a reply is unsent, or
    /// else `SourceFailed` if a message is incomplete; `None` if neither is so.
    pub(crate) fn lateness(&self) -> Option<StreamFault> {
        if !self.session.unsent().is_empty() {
            return Some(StreamFault::SinkFailed);
        }
        (!self.session.is_between_frames()).then_some(StreamFault::SourceFailed)
    }

    /// Sends what is unsent. If all of it was sent, receives once, unless octets are pending; then
    /// answers the messages, and sends the replies.
    pub(crate) fn turn(
        &mut self,
        zone: &Zone,
        builder: &mut TcpBuilder,
        buffer: &mut [u8; PIECE],
        now: Duration,
    ) -> Result<Next, StreamFault>
        requires { zone.now ≡ Z.zone }
    {
        if !self.send(now)? {
            return Ok(Next::Waits);
        }
        if self.session.left() == 0 {
            return Ok(Next::Ends);
        }
        let mut is_dry = false;
        if !self.has_pending() {
            match self.receive(buffer) {
                Ok(0) if self.session.is_between_frames() => return Ok(Next::Ends),
                Ok(0) => return Err(StreamFault::Cut),
                // After a short read there is no more input until the socket is reported again.
                Ok(count) => is_dry = count < PIECE && !self.has_ended,
                Err(Stopped::WouldBlock) => return Ok(Next::Waits),
                Err(Stopped::Failed) => return Err(StreamFault::SourceFailed),
            }
        }
        let left = self.session.left();
        self.answer(zone, builder);
        if self.session.left() < left {
            self.progress_at = now;
        }
        if !self.send(now)? || is_dry && !self.has_pending() && self.session.left() > 0 {
            return Ok(Next::Waits);
        }
        Ok(Next::GoesOn)
    }

    fn has_pending(&self) -> bool
        ensures { result ≡ nat_lt self.now.taken (vec_len self.now.input) }
    {
        self.taken < self.input.len()
    }

    // Receives octets, with none pending, and no reply unsent.
    fn receive(&mut self, buffer: &mut [u8; PIECE]) -> Result<usize, Stopped>
        requires taken { self.old.taken ≡ vec_len self.old.input }
        requires unsent { self.old.session.unsent ≡ [] }
        ensures { IfOk result (λ n. (self.new.taken ≡ 0) × (vec_len self.new.input ≡ n)) }
    {
        self.input.clear();
        self.taken = 0;
        let count = self.stream.receive(buffer)?;
        let (octets, _) = buffer.split_at(count);
        if self.input.extend_from_slice(octets).is_err() {
            unreachable!();
        }
        Ok(count)
    }

    // Answers the pending octets, as far as there is room for replies.
    fn answer(&mut self, zone: &Zone, builder: &mut TcpBuilder)
        requires zone { zone.now ≡ Z.zone }
        requires pending { self.old.taken < vec_len self.old.input }
    {
        let (_, pending) = self.input.split_at(self.taken);
        let rest = self.session.take(zone, pending, builder);
        self.taken = self.input.len() - rest.len();
    }

    // Sends what is unsent. False if the connection does not take all of it now.
    fn send(&mut self, now: Duration) -> Result<bool, StreamFault>
        ensures { IfOk result (λ sent. sent ≡ true → self.new.session.unsent ≡ []) }
    {
        'calls: for _ in 0..u64::MAX {
            if self.session.unsent().is_empty() {
                return Ok(true);
            }
            match self.send_once() {
                Ok(0) => break,
                Ok(_) if self.session.unsent().is_empty() => self.progress_at = now,
                Ok(_) => {}
                Err(Stopped::WouldBlock) => return Ok(false),
                Err(Stopped::Failed) => break,
            }
        }
        Err(StreamFault::SinkFailed)
    }

    fn send_once(&mut self) -> Result<usize, Stopped> {
        let count = self.stream.send(self.session.unsent())?;
        self.session.note_sent(count);
        Ok(count)
    }
}
