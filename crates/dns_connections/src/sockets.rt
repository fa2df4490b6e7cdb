//! Listening sockets and connections, whose calls do not wait.
ghost use Rattle.std.specs.Prelude.{◌≡◌, ◌<◌, ◌≤◌, ℕ, Option, IfOk, length};
ghost use Rattle.dns_connections.specs.Exchanges.{Exchange, SocketsState, IsFresh, IsServed, Receives, Sends, accepted, closed};

use dns_serve::StreamFault;
use dns_zone::Zone;
use std::time::Duration;

/// Why a call transferred nothing.
#[derive(Clone, Copy, Debug, PartialEq, Eq)]
pub enum Stopped {
    /// The call would have to wait.
    WouldBlock,
    /// The connection is broken, or a new connection can't be accepted.
    Failed,
}

/// A connection. A connection in memory knows what was received and sent; for a socket it is
/// unknown.
pub trait Stream: Drop {
    /// What was received and sent so far, if it is known.
    ghost exchange: { Self → Option Exchange };

    /// Receives octets into the front of `buf`, which is not empty, and returns how many: 0 only at
    /// the end of the input.
    fn receive(&mut self, buf: &mut [u8]) -> Result<usize, Stopped>
        requires { 0 < length buf.old }
        ensures bound { IfOk result (λ n. n ≤ length buf.new) }
        ensures received { Receives (exchange self.old) (exchange self.new) result buf.new };

    /// Sends octets from the front of `octets`, and returns how many.
    fn send(&mut self, octets: &[u8]) -> Result<usize, Stopped>
        ensures bound { IfOk result (λ n. n ≤ length octets.now) }
        ensures sent { Sends (exchange self.old) (exchange self.new) result octets.now };
}

/// What a wait has found.
#[derive(Clone, Copy, Debug, PartialEq, Eq)]
pub enum Found {
    /// A connection may be accepted.
    Connection,
    /// The server is asked to end.
    End,
    /// A connection may be read or written.
    Peer {
        /// The key under which the connection is watched.
        key: usize,
        /// Whether it may be read. If not, it may only be written.
        has_input: bool,
        /// Whether its input has ended, or the connection is broken.
        has_ended: bool,
    },
}

/// A listening socket and its connections. Only `wait` waits.
///
/// A connection is reported once each time that it becomes readable or writable (edge-triggered).
/// So callers write until a call would block. They read until a call would block, or until it
/// returns fewer octets than there is room for and no end was reported.
pub trait Sockets: Drop {
    /// A connection.
    type Stream: Stream;

    /// How many connections are open, and what was received and sent on those that were closed.
    ghost state: { Self → SocketsState };

    /// Waits until something is found, for at most this time if it is given.
    fn wait(&mut self, most: Option<Duration>)
        ensures { state self.new ≡ state self.old };

    /// Something that `wait` has found and that was not returned yet.
    fn next_found(&mut self) -> Option<Found>
        ensures { state self.new ≡ state self.old };

    /// A new connection, on which nothing was received or sent.
    fn accept(&mut self) -> Result<Self::Stream, Stopped>
        ensures fresh { IfOk result (λ stream. IsFresh (Self.Stream.exchange stream)) }
        ensures state { state self.new ≡ accepted result (state self.old) };

    /// Starts to report a connection under a key.
    fn watch(&mut self, stream: &mut Self::Stream, key: usize) -> Result<(), Stopped>
        ensures stream { Self.Stream.exchange stream.new ≡ Self.Stream.exchange stream.old }
        ensures state { state self.new ≡ state self.old };

    /// Closes a connection that was served from the zone: at most `most` of its messages were
    /// answered.
    fn close(&mut self, zone: &Zone, most: u64, stream: Self::Stream)
        requires { IsServed zone.now most (Self.Stream.exchange stream) }
        ensures { state self.new ≡ closed (Self.Stream.exchange stream) (state self.old) };

    /// Reports that a connection broke, ended inside a message, or made no progress in time.
    fn report(&mut self, fault: StreamFault)
        ensures { state self.new ≡ state self.old };

    /// Reports that a connection could not be accepted.
    fn report_refusal(&mut self)
        ensures { state self.new ≡ state self.old };

    /// The time.
    fn now(&mut self) -> Duration
        ensures { state self.new ≡ state self.old };
}
