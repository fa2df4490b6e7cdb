//! Sockets in memory, which know what each connection received and sent.
ghost use Rattle.std.specs.Prelude.{◌≡◌};

use dns_connections::{Found, Sockets, Stopped, Stream};
use dns_serve::StreamFault;
use dns_zone::Zone;
use std::alloc::Global;
use std::process::Abort;
use std::time::Duration;

/// What a peer does: the octets that it sends, how many of them a call receives at most, how many
/// octets it takes at once, and how many calls succeed. Every second call would block. A peer that
/// is silent does not end its output.
#[derive(Drop)]
pub(super) struct Plan {
    pub(super) input: Vec<u8>,
    pub(super) piece: usize,
    pub(super) most: usize,
    pub(super) calls: u32,
    pub(super) is_silent: bool,
}

/// A connection to such a peer: what it has received and sent, and whether its input is over.
#[derive(Drop)]
pub(super) struct Talk {
    plan: Plan,
    pub(super) received: Vec<u8>,
    pub(super) sent: Vec<u8>,
    pub(super) is_over: bool,
    // Whether the next call would block.
    blocks: bool,
}

impl Talk {
    // Whether the next call succeeds.
    fn call(&mut self) -> Result<(), Stopped>
        ensures received { self.new.received ≡ self.old.received }
        ensures sent { self.new.sent ≡ self.old.sent }
        ensures over { self.new.is_over ≡ self.old.is_over }
    {
        self.blocks = !self.blocks;
        if self.blocks {
            return Err(Stopped::WouldBlock);
        }
        self.plan.calls = self.plan.calls.checked_sub(1).ok_or(Stopped::Failed)?;
        Ok(())
    }
}

impl Stream for Talk {
    ghost use Rattle.std.specs.Prelude.{Some};

    ghost exchange = { λ t. Some (record {
      received = t.received.items;
      sent = t.sent.items;
      over = t.is_over;
    }) };

    fn receive(&mut self, buf: &mut [u8]) -> Result<usize, Stopped> {
        self.call()?;
        let rest = self.plan.input.get(self.received.len()..).unwrap_or(&[]);
        if rest.is_empty() && self.plan.is_silent {
            return Err(Stopped::WouldBlock);
        }
        let count = self.plan.piece.min(rest.len()).min(buf.len());
        let (octets, _) = rest.split_at(count);
        if self.received.extend_from_slice(octets).is_err() {
            return Err(Stopped::Failed);
        }
        let (front, _) = buf.split_at_mut(count);
        front.copy_from_slice(octets);
        self.is_over = count == 0;
        Ok(count)
    }

    fn send(&mut self, octets: &[u8]) -> Result<usize, Stopped> {
        self.call()?;
        let (front, _) = octets.split_at(self.plan.most.min(octets.len()));
        if self.sent.extend_from_slice(front).is_err() {
            return Err(Stopped::Failed);
        }
        Ok(front.len())
    }
}

/// Sockets to which peers connect, the last one first. Each wait finds all of them.
#[derive(Drop)]
pub(super) struct Table<'a, A: Abort> {
    rt: &'a A,
    alloc: Global,
    pub(super) plans: Vec<Plan>,
    pub(super) connected: usize,
    pub(super) closed: Vec<Talk>,
    pub(super) faults: u32,
    pub(super) refusals: u32,
    // The most connections at once so far.
    pub(super) most: usize,
    // More than the greatest key, and how many keys were found since the last wait.
    keys: usize,
    found: usize,
    millis: u64,
}

impl<'a, A: Abort> Table<'a, A> {
    pub(super) fn new(rt: &'a A, alloc: Global) -> Table<'a, A> {
        Table {
            rt,
            alloc,
            plans: Vec::new(alloc),
            connected: 0,
            closed: Vec::new(alloc),
            faults: 0,
            refusals: 0,
            most: 0,
            keys: 0,
            found: 0,
            millis: 0,
        }
    }
}

impl<A: Abort> Sockets for Table<'_, A> {
    ghost use Rattle.std.specs.Prelude.{map};

    type Stream = Talk;

    ghost state = { λ t. record {
      connected = t.connected;
      closed = map (λ c. record {
        received = c.received.items;
        sent = c.sent.items;
        over = c.is_over;
      }) t.closed.items;
    } };

    // A wait without an end is a mistake once no peer is left to connect.
    fn wait(&mut self, most: Option<Duration>) {
        if most.is_none() && self.plans.is_empty() {
            panic!(self.rt; "a wait without an end");
        }
        self.found = 0;
    }

    // The keys rise after one wait, and fall after the next.
    fn next_found(&mut self) -> Option<Found> {
        let place = self.found;
        if place > self.keys {
            return None;
        }
        self.found = place.saturating_add(1);
        if place == self.keys {
            return Some(Found::Connection);
        }
        let falls = self.millis % 2 == 1;
        Some(Found::Peer {
            key: if falls { self.keys - 1 - place } else { place },
            has_input: true,
            has_ended: true,
        })
    }

    fn accept(&mut self) -> Result<Talk, Stopped> {
        let plan = self.plans.pop().ok_or(Stopped::WouldBlock)?;
        self.connected = self.connected.checked_add(1).ok_or(Stopped::Failed)?;
        self.most = self.most.max(self.connected);
        Ok(Talk {
            plan,
            received: Vec::new(self.alloc),
            sent: Vec::new(self.alloc),
            is_over: false,
            blocks: false,
        })
    }

    fn watch(&mut self, _stream: &mut Talk, key: usize) -> Result<(), Stopped> {
        self.keys = self.keys.max(key.saturating_add(1));
        Ok(())
    }

    fn close(&mut self, _zone: &Zone, _most: u64, stream: Talk) {
        self.connected = self.connected.saturating_sub(1);
        if self.closed.push(stream).is_err() {
            panic!(self.rt; "no memory");
        }
    }

    fn report(&mut self, _fault: StreamFault) {
        self.faults = self.faults.saturating_add(1);
    }

    fn report_refusal(&mut self) {
        self.refusals = self.refusals.saturating_add(1);
    }

    fn now(&mut self) -> Duration {
        self.millis = self.millis.saturating_add(1);
        Duration::from_millis(self.millis)
    }
}
