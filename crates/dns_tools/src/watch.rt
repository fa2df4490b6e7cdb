//! Standard output as a sign that a server is wanted: a supervisor that asks a server to end closes
//! its end of the pipe.
ghost use Rattle.std.specs.Prelude.{◌≡◌, ◌⊎◌, IfErr};

use crate::stop::FaultText;
use mio::event::Event;
use mio::unix::SourceFd;
use mio::{Events, Interest, Poll, Token};
use std::net::Net;
use std::os::fd::{AsRawFd, RawFd};
use std::time::Duration;

// How often the pipe is looked at, in milliseconds.
pub(crate) const LOOK: u64 = 250;

/// A watch over standard output. A pipe without a reader asks for an end; a file or a terminal never
/// does.
#[derive(Drop)]
pub struct Watch {
    poll: Poll,
    events: Events,
    output: RawFd,
    // The time of the last look.
    looked: Duration,
    is_over: bool,
}

impl Watch {
    /// A watch that has not found an end yet. Fails with `bind` if the process has no descriptor
    /// left for it, and with `no memory` if allocation fails.
    pub fn new<R: Net + AllocGlobal, O: AsRawFd>(rt: &R, output: &O) -> Result<Watch, FaultText>
        ensures { IfErr result (λ fault. (fault ≡ FaultText.NotBound) ⊎ (fault ≡ FaultText.NoMemory)) }
    {
        let poll = Poll::new(rt).ok().ok_or(FaultText::NotBound)?;
        let watch = Watch {
            poll,
            events: Events::with_capacity(rt.alloc(), 1)?,
            output: output.as_raw_fd(),
            looked: Duration::ZERO,
            is_over: false,
        };
        watch.join(&watch.poll, Token(0));
        Ok(watch)
    }

    /// Has another `Poll` report under a token what happens to the pipe. A file is never reported.
    pub(crate) fn join(&self, poll: &Poll, token: Token) {
        let mut output = SourceFd(&self.output);
        let _ = poll
            .registry()
            .register(&mut output, token, Interest::PRIORITY);
    }

    /// Looks at the pipe, if the last look was 250 milliseconds ago. Returns whether a look has found
    /// that its reader is gone.
    pub(crate) fn look(&mut self, now: Duration) -> bool {
        let is_due = now.saturating_sub(self.looked) >= Duration::from_millis(LOOK);
        if is_due && !self.is_over {
            self.looked = now;
            let at_once = Some(Duration::ZERO);
            self.is_over = self.poll.poll(&mut self.events, at_once).is_ok()
                && self.events.iter().any(|event| is_unread(event));
        }
        self.is_over
    }
}

// Whether an event says that a pipe has no reader. A terminal that hangs up also reports the end of
// its input.
pub(crate) fn is_unread(event: &Event) -> bool {
    event.is_error() && !event.is_read_closed()
}
