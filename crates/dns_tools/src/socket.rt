//! A UDP socket as a device for datagrams.
ghost use Rattle.std.specs.Prelude.{◌≡◌, false, None};

use crate::listen::Ending;
use crate::nonblocking::is_put_off;
use crate::watch::{LOOK, Watch};
use dns_serve::{Datagrams, Failed};
use std::io::{Error, ErrorKind};
use std::marker::Model;
use std::net::{SocketAddr, UdpSocket};
use std::time::{Clock, Duration};

/// A UDP socket that is bound to an address, with a count of its failures. Its calls wait even if
/// the socket is non-blocking, which another process that shares it may have set.
///
/// If it has a watch that asks for an end, no more datagrams are received: calls fail.
#[derive(Drop)]
pub struct Socket<'a, C> {
    socket: UdpSocket,
    // For the pauses before calls are repeated.
    clock: &'a C,
    watch: Option<Watch>,
    is_over: bool,
    // The sender of the last datagram.
    sender: Option<SocketAddr>,
    failures: u64,
}

impl<'a, C> Model for Socket<'a, C> {
    ghost use Rattle.std.specs.Option.{is_some};
    ghost use Rattle.dns_tools.specs.Sockets.{SocketState};

    ghost Value = { SocketState };

    ghost view = { λ s. record {
      failures = s.failures;
      has_sender = is_some s.sender;
      over = s.is_over;
    } };
}

impl<'a, C: Clock> Socket<'a, C> {
    /// The socket with a failure count of 0, and no sender yet. With a watch, a receive looks at it
    /// each 250 milliseconds; other processes that share the socket then wait no longer either.
    pub fn new(socket: UdpSocket, clock: &'a C, watch: Option<Watch>) -> Socket<'a, C>
        ensures { result ≡ record { failures = 0; has_sender = false; over = false } }
    {
        if watch.is_some() {
            let _ = socket.set_read_timeout(Some(Duration::from_millis(LOOK)));
        }
        Socket {
            socket,
            clock,
            watch,
            is_over: false,
            sender: None,
            failures: 0,
        }
    }
}

fn time(clock: &impl Clock) -> Duration {
    clock.monotonic().unwrap_or_default()
}

// Whether to repeat a receive that failed and began at this time: at once if it waited its whole
// time, and after a pause if it would block sooner.
fn is_received_again(error: &Error, begun: Duration, clock: &impl Clock) -> bool {
    let waited = time(clock).saturating_sub(begun) >= Duration::from_millis(LOOK / 2);
    error.kind() == ErrorKind::WouldBlock && waited || is_made_again(error, clock)
}

// A call that was interrupted or would block is repeated: it received nothing, and sent nothing.
impl<C: Clock> Datagrams for Socket<'_, C> {
    ghost received = { λ _. None };

    ghost sent = { λ _. None };

    ghost count = { λ s. s.failures };

    ghost has_sender = { λ s. s.has_sender };

    fn receive(&mut self, buf: &mut [u8; 512]) -> Result<usize, Failed> {
        'calls: for _ in 0..u64::MAX {
            let now = time(self.clock);
            if let Some(watch) = &mut self.watch {
                self.is_over = watch.look(now);
            }
            if self.is_over {
                break;
            }
            match self.socket.recv_from(buf) {
                Ok((count, sender)) => {
                    self.sender = Some(sender);
                    return Ok(count);
                }
                Err(error) if is_received_again(&error, now, self.clock) => {}
                Err(_) => break,
            }
        }
        self.failures += 1;
        Err(Failed)
    }

    fn send(&mut self, reply: &[u8]) -> Result<(), Failed> {
        if let Some(sender) = self.sender {
            'calls: for _ in 0..u64::MAX {
                match self.socket.send_to(reply, sender) {
                    Ok(_) => return Ok(()),
                    Err(error) if is_made_again(&error, self.clock) => {}
                    Err(_) => break,
                }
            }
        }
        self.failures += 1;
        Err(Failed)
    }

    fn failures(&self) -> u64 {
        self.failures
    }
}

impl<C: Clock> Ending for Socket<'_, C> {
    ghost over = { λ s. s.over };

    fn is_over(&self) -> bool {
        self.is_over
    }
}

// Whether a call is repeated: at once if it was interrupted, after a pause if it would block.
fn is_made_again(error: &Error, clock: &impl Clock) -> bool {
    error.kind() == ErrorKind::Interrupted || is_put_off(error, clock)
}
