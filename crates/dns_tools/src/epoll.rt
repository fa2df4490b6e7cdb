//! The sockets of the system: a listening TCP socket and its connections, whose calls do not wait.
ghost use Rattle.std.specs.Prelude.{◌≡◌, ◌⊎◌, [], None, IfErr};

use crate::startup::text_or_no_memory;
use crate::stop::FaultText;
use crate::watch::{Watch, is_unread};
use dns_connections::{Found, Sockets, Stopped, Stream};
use dns_serve::StreamFault;
use dns_zone::Zone;
use mio::net::{TcpListener, TcpStream};
use mio::{Events, Interest, Poll, Token};
use std::collections::VecDeque;
use std::fmt::Display;
use std::io::{self, ErrorKind, Read, Write};
use std::net::{self, Net, Shutdown};
use std::thread;
use std::time::{Clock, Duration};

// How many events one wait reports at most.
const MOST_EVENTS: usize = 64;

// The tokens of the listener and of standard output; a connection's token is its key.
const LISTENER: Token = Token(usize::MAX);

const OUTPUT: Token = Token(usize::MAX - 1);

// How many closed connections linger at most.
const MOST_LINGERING: usize = 256;

// Times in milliseconds.

// The pause after a wait that failed.
const PAUSE: u64 = 100;

// How long a connection lingers: after its output ended, its input is read and discarded. Closing a
// socket before all of its input is read resets the connection, and the peer loses the replies that
// have not reached it yet (RFC 2525 2.17).
const LINGER: u64 = 1_000;

// How often the lingering connections are read.
const LOOK: u64 = 100;

/// A connection over TCP.
#[derive(Drop)]
pub struct Connection {
    stream: TcpStream,
    // Its input has ended, or a call failed.
    is_over: bool,
}

impl Connection {
    // Why a call failed that was not interrupted.
    fn stop(&mut self, error: &io::Error) -> Stopped {
        if error.kind() == ErrorKind::WouldBlock {
            return Stopped::WouldBlock;
        }
        self.is_over = true;
        Stopped::Failed
    }
}

impl Stream for Connection {
    ghost exchange = { λ _. None };

    fn receive(&mut self, buf: &mut [u8]) -> Result<usize, Stopped> {
        'calls: for _ in 0..u64::MAX {
            match self.stream.read(buf) {
                Ok(count) => {
                    self.is_over |= count == 0;
                    return Ok(count);
                }
                Err(error) if error.kind() == ErrorKind::Interrupted => {}
                Err(error) => return Err(self.stop(&error)),
            }
        }
        Err(Stopped::Failed)
    }

    fn send(&mut self, octets: &[u8]) -> Result<usize, Stopped> {
        'calls: for _ in 0..u64::MAX {
            match self.stream.write(octets) {
                Ok(count) => return Ok(count),
                Err(error) if error.kind() == ErrorKind::Interrupted => {}
                Err(error) => return Err(self.stop(&error)),
            }
        }
        Err(Stopped::Failed)
    }
}

// A connection whose output has ended, until it is dropped.
#[derive(Drop)]
struct Lingering {
    stream: TcpStream,
    // When it is dropped.
    until: Duration,
}

impl Lingering {
    // Reads and discards what has arrived. Returns whether more may come.
    fn discard(&mut self, buffer: &mut [u8]) -> bool {
        'calls: for _ in 0..16 {
            match self.stream.read(buffer) {
                Ok(0) => return false,
                Ok(_) => {}
                Err(error) => return error.kind() == ErrorKind::WouldBlock,
            }
        }
        true
    }
}

// The lingering connections, the oldest first.
#[derive(Drop)]
struct LingeringQueue {
    queue: VecDeque<Lingering>,
    // When they are read next.
    next_look: Duration,
}

impl LingeringQueue {
    // Reads each connection once, if that is due, and drops those whose time is over.
    fn look(&mut self, now: Duration) {
        if now < self.next_look {
            return;
        }
        self.next_look = now.saturating_add(Duration::from_millis(LOOK));
        let mut buffer = [0; 4096];
        self.queue.retain_mut(|lingering| now < lingering.until && lingering.discard(&mut buffer));
    }

    fn add(&mut self, stream: TcpStream, now: Duration) {
        if self.queue.len() >= MOST_LINGERING {
            let _oldest = self.queue.pop_front();
        }
        let until = now.saturating_add(Duration::from_millis(LINGER));
        let _ = self.queue.push_back(Lingering { stream, until });
    }

    // How long a wait may last, if without these connections it may last `most`.
    fn longest_wait(&self, most: Option<Duration>) -> Option<Duration> {
        if self.queue.is_empty() {
            return most;
        }
        let look = Duration::from_millis(LOOK);
        Some(most.map_or(look, |most| most.min(look)))
    }
}

/// A listening TCP socket and its connections, over epoll. Diagnostics go to standard error.
///
/// A connection that is closed before its input ended lingers for at most one second, while others
/// are served: its input is read and discarded.
#[derive(Drop)]
pub struct Epoll<'a, R> {
    poll: Poll,
    events: Events,
    found: Vec<Found>,
    listener: TcpListener,
    connected: usize,
    lingering: LingeringQueue,
    rt: &'a R,
    now: Duration,
    are_said: bool,
}

impl<'a, R: Net + Clock + AllocGlobal> Epoll<'a, R> {
    /// A listener without connections, which asks for an end if `watch` does. Fails with `bind` if
    /// the socket does not listen, and with `no memory` if allocation fails.
    pub fn new(
        rt: &'a R,
        listener: net::TcpListener,
        watch: Option<&Watch>,
    ) -> Result<Epoll<'a, R>, FaultText>
        ensures { IfErr result (λ fault. (fault ≡ FaultText.NotBound) ⊎ (fault ≡ FaultText.NoMemory)) }
    {
        let made = Epoll::made(rt, listener, watch);
        made.map_err(|error| text_or_no_memory(&error, FaultText::NotBound))
    }

    fn made(
        rt: &'a R,
        listener: net::TcpListener,
        watch: Option<&Watch>,
    ) -> io::Result<Epoll<'a, R>> {
        listener.set_nonblocking(true)?;
        let mut listener = TcpListener::from_std(listener);
        let mut poll = Poll::new(rt)?;
        poll.registry()
            .register(&mut listener, LISTENER, Interest::READABLE)?;
        let mut events = Events::with_capacity(rt.alloc(), MOST_EVENTS)?;
        poll.poll(&mut events, Some(Duration::ZERO))?;
        if events.iter().any(|event| event.is_read_closed()) {
            return Err(io::Error::from(ErrorKind::NotConnected));
        }
        if let Some(watch) = watch {
            watch.join(&poll, OUTPUT);
        }
        Ok(Epoll {
            poll,
            events,
            found: Vec::with_capacity(rt.alloc(), MOST_EVENTS)?,
            listener,
            connected: 0,
            lingering: LingeringQueue {
                queue: VecDeque::with_capacity(rt.alloc(), MOST_LINGERING)?,
                next_look: Duration::ZERO,
            },
            rt,
            now: rt.monotonic()?,
            are_said: true,
        })
    }
}

impl<R: Clock> Epoll<'_, R> {
    /// Lets the closed connections linger, for at most one second. Returns whether every diagnostic
    /// was written.
    pub fn finish(self) -> bool {
        let mut sockets = self;
        'looks: for _ in 0..=LINGER / LOOK {
            let now = sockets.time();
            sockets.lingering.look(now);
            if sockets.lingering.queue.is_empty() {
                break;
            }
            thread::sleep(sockets.rt, Duration::from_millis(LOOK));
        }
        sockets.are_said
    }

    fn time(&mut self) -> Duration
        ensures { self.new.connected ≡ self.old.connected }
    {
        if let Ok(now) = self.rt.monotonic() {
            self.now = now;
        }
        self.now
    }
}

impl<R: Clock + Eprint> Epoll<'_, R> {
    // Writes a diagnostic, unless an earlier one could not be written.
    fn say(&mut self, text: impl Display + Drop)
        ensures { self.new.connected ≡ self.old.connected }
    {
        self.are_said = self.are_said && self.rt.eprintln(text).is_ok();
    }
}

// Replaces what was found by what the events say.
fn find(events: &Events, found: &mut Vec<Found>) {
    found.clear();
    'events: for event in events {
        let what = match event.token() {
            LISTENER => Found::Connection,
            OUTPUT if is_unread(event) => Found::End,
            OUTPUT => continue,
            Token(key) => Found::Peer {
                key,
                has_input: event.is_readable(),
                has_ended: event.is_read_closed() || event.is_error(),
            },
        };
        let _ = found.push(what);
    }
}

// Accepts a connection. One that its peer has broken already is passed over.
fn accept_from(listener: &TcpListener) -> Result<TcpStream, Stopped> {
    'calls: for _ in 0..u64::MAX {
        match listener.accept() {
            Ok((stream, _)) => return Ok(stream),
            Err(error) => match error.kind() {
                ErrorKind::WouldBlock => return Err(Stopped::WouldBlock),
                ErrorKind::Interrupted | ErrorKind::ConnectionAborted => {}
                _ => break,
            },
        }
    }
    Err(Stopped::Failed)
}

impl<R: Clock + Eprint> Sockets for Epoll<'_, R> {
    type Stream = Connection;

    ghost state = { λ s. record { connected = s.connected; closed = [] } };

    fn wait(&mut self, most: Option<Duration>) {
        let now = self.time();
        self.lingering.look(now);
        let most = self.lingering.longest_wait(most);
        let mut is_done = self.poll.poll(&mut self.events, most).is_ok();
        // A signal ends a wait early, and without events.
        if is_done && self.events.is_empty() {
            let at_once = Some(Duration::ZERO);
            is_done = self.poll.poll(&mut self.events, at_once).is_ok();
        }
        if !is_done {
            thread::sleep(self.rt, Duration::from_millis(PAUSE));
        }
        find(&self.events, &mut self.found);
    }

    fn next_found(&mut self) -> Option<Found> {
        self.found.pop()
    }

    fn accept(&mut self) -> Result<Connection, Stopped> {
        let connected = self.connected.checked_add(1).ok_or(Stopped::Failed)?;
        let stream = accept_from(&self.listener)?;
        self.connected = connected;
        Ok(Connection {
            stream,
            is_over: false,
        })
    }

    fn watch(&mut self, connection: &mut Connection, key: usize) -> Result<(), Stopped> {
        let both = Interest::READABLE | Interest::WRITABLE;
        let registry = self.poll.registry();
        let registered = registry.register(&mut connection.stream, Token(key), both);
        registered.ok().ok_or(Stopped::Failed)
    }

    fn close(&mut self, _zone: &Zone, _most: u64, connection: Connection) {
        self.connected = self.connected.saturating_sub(1);
        let Connection {
            mut stream,
            is_over,
        } = connection;
        if is_over || stream.shutdown(Shutdown::Write).is_err() {
            return;
        }
        if self.poll.registry().deregister(&mut stream).is_ok() {
            let now = self.time();
            self.lingering.add(stream, now);
        }
    }

    fn report(&mut self, fault: StreamFault) {
        self.say(fault);
    }

    fn report_refusal(&mut self) {
        self.say("accept");
    }

    fn now(&mut self) -> Duration {
        self.time()
    }
}
