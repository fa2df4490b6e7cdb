//! Serves the connections of a listening socket, many at once and each in its turn.
ghost use Rattle.std.specs.Prelude.{◌≡◌, ◌+◌, [], Ok, IfOk, IfErr, OnOk, OnErr};
ghost use Rattle.dns_spec.specs.Records.{ZoneContents};
ghost use Rattle.dns_connections.specs.Exchanges.{HasServed, HasClosed, IsFresh, IsServed};
ghost use Rattle.slab.specs.Slab.{slab_len};

use crate::peer::{Next, PIECE, Peer, Served};
use crate::sockets::{Found, Sockets, Stopped};
use dns_answer::TcpBuilder;
use dns_serve::StreamFault;
use dns_zone::Zone;
use slab::Slab;
use std::alloc::{AllocError, Global};
use std::collections::VecDeque;
use std::marker::Brand;
use std::time::Duration;

// The most connections at once. One more takes the place of the one that made no progress for the
// longest time (RFC 7766 6.2.3). Each takes 98,305 octets for its input and replies.
const MOST_PEERS: usize = 256;

// The keys of connections are below this: there is room for one connection too many, until another
// one is closed.
const KEYS: usize = MOST_PEERS + 1;

// How many connections are accepted at most before the others get a turn.
const ACCEPTS: u32 = 16;

// How long a connection may neither complete a message nor take all its replies.
const PROGRESS_MILLIS: u64 = 10_000;

// How long a connection may send nothing, if no message is incomplete and no reply unsent, and the
// server is to end or serves one connection at a time.
const SILENCE_MILLIS: u64 = 300;

// If one connection is served at a time: how long after it was accepted it may send nothing.
const FIRST_MILLIS: u64 = 2_000;

// If one connection is served at a time: how long after it was accepted it may begin new messages.
const BEGIN_MILLIS: u64 = 10_000;

// How long after it was told to end a server of many connections closes all of them.
const ENDING_MILLIS: u64 = 3_000;

// The shortest time between two checks of these limits.
const SWEEP_MILLIS: u64 = 100;

// How long nothing is accepted after a connection could not be accepted.
const PAUSE_MILLIS: u64 = 100;

fn after(time: Duration, millis: u64) -> Duration {
    time.saturating_add(Duration::from_millis(millis))
}

// The values here are never used: each call of `serve_connections` has its own ones.
impl Served for Brand {
    ghost zone = { record { origin = []; records = [] } };

    ghost most = { 0 };

    ghost before = { record { connected = 0; closed = [] } };
}

/// How many connections are served at once.
#[derive(Clone, Copy, Debug, PartialEq, Eq)]
pub enum Capacity {
    /// One; others wait until it is closed. It is closed if it sends nothing for 2 seconds after it
    /// was accepted, or for 0.3 seconds after a reply. 10 seconds after it was accepted, no new
    /// message may begin.
    One,
    /// At most 256. One more takes the place of the one that made no progress for the longest time.
    Many,
}

// Out of line: it has 0.4 to 0.5 MB on the stack, which no other service needs.
/// Accepts `turns` connections of a listening socket, or fewer if the server is asked to end,
/// serves them, and returns the sockets once no connection is left. Connections that can't be
/// accepted count too.
///
/// Calls `begin` once, after it has allocated what it needs for serving, and before it accepts a
/// connection. Fails only if this allocation or `begin` fails.
///
/// The connections that are ready are served one after another, again and again; each time at most
/// 16,384 octets are received on each. A connection that for 10 seconds neither completes a message
/// nor takes all its replies is closed. At most `most` messages are answered on each connection.
///
/// With `Capacity::Many`, once `turns` connections were accepted or the server is asked to end: a
/// connection without an incomplete message or an unsent reply is closed 0.3 seconds after its last
/// progress, and after 3 seconds all are closed.
///
/// However the sockets report what they found, and however input is cut: each connection that was
/// accepted is closed, and what was sent on it is a prefix of the replies to the first `most`
/// messages received on it, in order. If its input has ended, all of these replies were sent.
#[inline(never)]
pub fn serve_connections<K, E, B>(
    alloc: Global,
    zone: &Zone,
    sockets: K,
    turns: u32,
    most: u64,
    capacity: Capacity,
    begin: B,
) -> Result<K, E>
where
    K: Sockets,
    E: From<AllocError>,
    B: FnOnce() -> Result<(), E> + Drop,
    requires { B.IsAlwaysCallable begin }
    ensures begun { OnOk result (B.post begin (Ok tt)) }
    ensures served { IfOk result
        (λ then. HasServed zone.now most (K.state sockets) (K.state then)) }
{
    let plan = Plan {
        turns,
        most,
        capacity,
    };
    serve::<Brand, K, E, B>(alloc, zone, sockets, plan, begin)
}

// How many connections are served, how many messages on each, and how many connections at once.
#[derive(Clone, Copy)]
struct Plan {
    turns: u32,
    most: u64,
    capacity: Capacity,
}

fn serve<Z, K, E, B>(alloc: Global, zone: &Zone, sockets: K, plan: Plan, begin: B) -> Result<K, E>
where
    Z: Served,
    K: Sockets,
    E: From<AllocError>,
    B: FnOnce() -> Result<(), E> + Drop,
    requires zone { zone.now ≡ Z.zone }
    requires most { plan.most ≡ Z.most }
    requires before { K.state sockets ≡ Z.before }
    requires begin { B.IsAlwaysCallable begin }
    ensures begun { OnOk result (B.post begin (Ok tt)) }
    ensures served { IfOk result (λ then. HasServed Z.zone Z.most Z.before (K.state then)) }
{
    let mut connections: Connections<'_, Z, K> = Connections::new(alloc, zone, sockets, plan)?;
    begin()?;
    connections.run();
    let Connections {
        mut sockets,
        peers,
        ..
    } = connections;
    'left: for (_, peer) in peers {
        sockets.close(zone, plan.most, peer.end());
    }
    Ok(sockets)
}

// A listening socket, its connections, and the buffers that they share.
#[derive(Drop)]
struct Connections<'z, Z: Served, K: Sockets> {
    zone: &'z Zone,
    sockets: K,
    peers: Slab<Peer<Z, K::Stream>>,
    // The keys of the connections that may have something to do, each once, and whether a key is
    // among them. A key may remain from a connection that was closed.
    ready: VecDeque<usize>,
    is_ready: [bool; KEYS],
    alloc: Global,
    builder: TcpBuilder,
    buffer: [u8; PIECE],
    plan: Plan,
    // How many connections may still be accepted.
    left: u32,
    // Whether a connection may be waiting to be accepted. False after accepting would have blocked,
    // until a connection is reported.
    may_accept: bool,
    // When connections may be accepted again, after one could not be accepted.
    accept_at: Duration,
    // When the limits are checked next.
    sweep_at: Duration,
    // When all connections are closed, if the server is to end.
    end_at: Option<Duration>,
    ghost is_zone: { zone.now ≡ Z.zone },
    ghost is_most: { plan.most ≡ Z.most },
    ghost connected: { (K.state sockets).connected ≡ Z.before.connected + slab_len peers },
    ghost served: { ∥ HasClosed Z.zone Z.most Z.before.closed (K.state sockets).closed ∥₁ },
}

impl<'z, Z: Served, K: Sockets> Connections<'z, Z, K> {
    fn new(
        alloc: Global,
        zone: &'z Zone,
        sockets: K,
        plan: Plan,
    ) -> Result<Connections<'z, Z, K>, AllocError>
        requires zone { zone.now ≡ Z.zone }
        requires most { plan.most ≡ Z.most }
        requires before { K.state sockets ≡ Z.before }
    {
        Ok(Connections {
            peers: Slab::with_capacity(alloc, KEYS)?,
            ready: VecDeque::with_capacity(alloc, KEYS)?,
            is_ready: [false; KEYS],
            zone,
            sockets,
            alloc,
            builder: TcpBuilder::new(),
            buffer: [0; PIECE],
            left: plan.turns,
            plan,
            may_accept: true,
            accept_at: Duration::from_millis(0),
            sweep_at: Duration::from_millis(0),
            end_at: None,
        })
    }

    fn run(&mut self) {
        'rounds: for _ in 0..u64::MAX {
            let now = self.sockets.now();
            if self.left == 0 {
                if self.peers.is_empty() {
                    break;
                }
                self.begin_end(now);
            }
            self.accept_some(now);
            self.take_turns(now);
            self.sweep(now);
            let patience = self.patience(now);
            self.sockets.wait(patience);
            self.note_found();
        }
    }

    // With `Capacity::Many`: sets the time at which all connections are closed, unless it was set
    // before. Each connection gets one more turn, so that what it has sent by now is still read.
    fn begin_end(&mut self, now: Duration) {
        if self.end_at.is_none() && self.plan.capacity == Capacity::Many {
            self.end_at = Some(after(now, ENDING_MILLIS));
            'peers: for key in 0..KEYS {
                self.mark(key);
            }
        }
    }

    // Whether a connection may be waiting that can be accepted now.
    fn can_accept(&self, now: Duration) -> bool {
        let has_place = self.plan.capacity == Capacity::Many || self.peers.is_empty();
        self.may_accept && self.left > 0 && has_place && now >= self.accept_at
    }

    // How long the next wait may last; `None` if there is nothing to do until a socket is reported.
    fn patience(&self, now: Duration) -> Option<Duration> {
        if self.can_accept(now) || !self.ready.is_empty() {
            return Some(Duration::from_millis(0));
        }
        let is_idle = self.peers.is_empty() && !self.may_accept && self.left > 0;
        (!is_idle).then_some(Duration::from_millis(SWEEP_MILLIS))
    }

    fn note_found(&mut self) {
        'found: for _ in 0..u64::MAX {
            match self.sockets.next_found() {
                Some(Found::Connection) => self.may_accept = true,
                Some(Found::End) => self.left = 0,
                Some(
                    Found::Peer {
                        key,
                        has_input,
                        has_ended,
                    },
                ) => self.note_peer(key, has_input, has_ended),
                None => break,
            }
        }
    }

    fn note_peer(&mut self, key: usize, has_input: bool, has_ended: bool) {
        let Some(peer) = self.peers.get_mut(key) else {
            return;
        };
        if peer.note(has_input, has_ended) {
            self.mark(key);
        }
    }

    // Lets a connection have a turn in the next round.
    fn mark(&mut self, key: usize) {
        if key < KEYS && !self.is_ready[key] {
            self.is_ready[key] = true;
            let _ = self.ready.push_back(key);
        }
    }

    fn close(&mut self, key: usize) {
        if let Some(peer) = self.peers.try_remove(key) {
            self.sockets.close(self.zone, self.plan.most, peer.end());
        }
    }

    // The connection that made no progress for the longest time.
    fn oldest(&self) -> Option<usize> {
        let oldest = self.peers.iter().min_by_key(|(_, peer)| peer.progress_at);
        oldest.map(|(key, _)| key)
    }

    // Accepts connections while one may be waiting, but at most `ACCEPTS`. One that can't be
    // accepted counts too, and then nothing is accepted for some time.
    fn accept_some(&mut self, now: Duration) {
        'accepts: for _ in 0..ACCEPTS {
            if !self.can_accept(now) {
                break;
            }
            match self.accept(now) {
                Ok(()) => self.left = self.left.saturating_sub(1),
                Err(Stopped::WouldBlock) => self.may_accept = false,
                Err(Stopped::Failed) => {
                    self.left = self.left.saturating_sub(1);
                    self.accept_at = after(now, PAUSE_MILLIS);
                    self.sockets.report_refusal();
                }
            }
        }
    }

    // Accepts a connection, and closes another one if there are too many. Fails, too, if there is
    // no memory for the connection or it can't be watched.
    fn accept(&mut self, now: Duration) -> Result<(), Stopped> {
        let stream = self.sockets.accept()?;
        let (sockets, peers, most) = (&mut self.sockets, &mut self.peers, self.plan.most);
        if let Err(stream) = admit(self.alloc, sockets, peers, stream, most, now) {
            self.sockets.close(self.zone, most, stream);
            return Err(Stopped::Failed);
        }
        if self.peers.len() > MOST_PEERS {
            if let Some(key) = self.oldest() {
                self.close(key);
            }
        }
        Ok(())
    }

    // Gives each connection that is ready a turn.
    fn take_turns(&mut self, now: Duration) {
        'turns: for _ in 0..self.ready.len() {
            if let Some(key) = self.ready.pop_front() {
                self.take_turn(key, now);
            }
        }
    }

    fn take_turn(&mut self, key: usize, now: Duration) {
        if key < KEYS {
            self.is_ready[key] = false;
        }
        let Some(peer) = self.peers.get_mut(key) else {
            return;
        };
        match peer.turn(self.zone, &mut self.builder, &mut self.buffer, now) {
            Ok(Next::GoesOn) => self.mark(key),
            Ok(Next::Waits) => {}
            Ok(Next::Ends) => self.close(key),
            Err(fault) => {
                self.close(key);
                self.sockets.report(fault);
            }
        }
    }

    // Closes the connections whose deadline is over.
    fn sweep(&mut self, now: Duration) {
        if now < self.sweep_at {
            return;
        }
        self.sweep_at = after(now, SWEEP_MILLIS);
        'peers: for key in 0..KEYS {
            self.close_if_late(key, now);
        }
    }

    fn close_if_late(&mut self, key: usize, now: Duration) {
        let Some(peer) = self.peers.get(key) else {
            return;
        };
        let (deadline, fault) = self.deadline(peer);
        let is_over = self.end_at.is_some_and(|end_at| now >= end_at);
        if !is_over && now < deadline {
            return;
        }
        self.close(key);
        if let Some(fault) = fault {
            self.sockets.report(fault);
        }
    }

    // When a connection is closed if it makes no progress, and the fault that is then reported, if
    // any. `fault` is `None` if it has neither an incomplete message nor an unsent reply.
    fn deadline(&self, peer: &Peer<Z, K::Stream>) -> (Duration, Option<StreamFault>) {
        let fault = peer.lateness();
        let silent = after(peer.progress_at, SILENCE_MILLIS);
        let late = after(peer.progress_at, PROGRESS_MILLIS);
        let begin_until = after(peer.accepted_at, BEGIN_MILLIS);
        match (self.plan.capacity, fault) {
            (Capacity::Many, None) if self.end_at.is_some() => (silent, None),
            (Capacity::Many, _) => (late, fault),
            // It has sent nothing yet.
            (Capacity::One, None) if peer.progress_at == peer.accepted_at => {
                (
                    after(peer.accepted_at, FIRST_MILLIS),
                    Some(StreamFault::SourceFailed),
                )
            }
            (Capacity::One, None) => (silent.min(begin_until), None),
            // Its message began too late.
            (Capacity::One, Some(StreamFault::SourceFailed)) if peer.progress_at >= begin_until => {
                (begin_until, None)
            }
            // Whatever progress it makes, at most 20 seconds after it was accepted.
            (Capacity::One, _) => (late.min(after(begin_until, PROGRESS_MILLIS)), fault),
        }
    }
}

// Gives a new connection a place, and starts to watch it. Returns the stream if it can't be
// watched, or there is no memory.
fn admit<Z: Served, K: Sockets>(
    alloc: Global,
    sockets: &mut K,
    peers: &mut Slab<Peer<Z, K::Stream>>,
    stream: K::Stream,
    most: u64,
    now: Duration,
) -> Result<(), K::Stream>
    requires fresh { IsFresh (K.Stream.exchange stream) }
    requires most { most ≡ Z.most }
    ensures sockets { K.state sockets.new ≡ K.state sockets.old }
    ensures len { OnOk result (slab_len peers.new ≡ slab_len peers.old + 1) }
    ensures same { OnErr result (slab_len peers.new ≡ slab_len peers.old) }
    ensures refused { IfErr result (λ stream. IsServed Z.zone Z.most (K.Stream.exchange stream)) }
{
    let mut stream = stream;
    if sockets.watch(&mut stream, peers.vacant_key()).is_err() {
        return Err(stream);
    }
    let peer = Peer::new(alloc, stream, most, now)?;
    match peers.insert(peer) {
        Ok(_) => Ok(()),
        Err(refused) => Err(refused.value.end()),
    }
}
