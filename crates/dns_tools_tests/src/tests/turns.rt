//! Turns at a device, one after another.

ghost use Rattle.std.specs.Prelude.{◌≡◌};

use super::load::sample;
use dns_serve::{Datagrams, Failed};
use dns_serve_tests::Mailbox;
use dns_tools::{Ending, serve_datagrams};
use dns_zone::Zone;
use std::alloc::Global;
use std::cell::Cell;
use std::fmt::Display;
use std::io::{self, ErrorKind};
use std::process::Abort;
use std::test::Fail;

const QUERY: &[u8] = b"\x12\x34\x00\x00\x00\x01\x00\x00\x00\x00\x00\x00\x02ns\x07example\x00\
    \x00\x01\x00\x01";

const REPLY: &[u8] = b"\x12\x34\x84\x00\x00\x01\x00\x01\x00\x00\x00\x00\x02ns\x07example\x00\
    \x00\x01\x00\x01\xc0\x0c\x00\x01\x00\x01\x00\x00\x0e\x10\x00\x04\xc0\x00\x02\x01";

/// A mailbox at which the server is asked to end after some turns that failed.
#[derive(Drop)]
struct Asking<'a> {
    mailbox: Mailbox<'a>,
    faults: u64,
}

impl Datagrams for Asking<'_> {
    ghost use Rattle.std.specs.Prelude.{Some, map, true};

    ghost received = { λ m. Some (map (λ d. d.items) m.mailbox.datagrams.items) };

    ghost sent = { λ m. Some (map (λ d. d.items) m.mailbox.replies.items) };

    ghost count = { λ m. m.mailbox.failures };

    ghost has_sender = { λ _. true };

    fn receive(&mut self, buf: &mut [u8; 512]) -> Result<usize, Failed> {
        self.mailbox.receive(buf)
    }

    fn send(&mut self, reply: &[u8]) -> Result<(), Failed> {
        self.mailbox.send(reply)
    }

    fn failures(&self) -> u64 {
        self.mailbox.failures()
    }
}

impl Ending for Asking<'_> {
    ghost use Rattle.std.specs.Prelude.{◌==◌};

    ghost over = { λ m. m.mailbox.failures == m.faults };

    fn is_over(&self) -> bool {
        self.mailbox.failures == self.faults
    }
}

/// Standard error that takes nothing, and counts its calls.
#[derive(Drop)]
struct Refusing<'a> {
    calls: &'a Cell<u32>,
}

impl Eprint for Refusing<'_> {
    fn eprint<D: Display + Drop>(&self, _value: D) -> io::Result<()> {
        self.calls.set(self.calls.get().saturating_add(1));
        Err(io::Error::from(ErrorKind::Other))
    }

    fn eprintln<D: Display + Drop>(&self, value: D) -> io::Result<()> {
        self.eprint(value)
    }
}

fn device<'a>(alloc: Global, fails_at: u32, faults: u64) -> Asking<'a>
    ensures { result.mailbox.failures ≡ 0 }
{
    Asking {
        mailbox: Mailbox::new(alloc, QUERY, fails_at),
        faults,
    }
}

// Which call fails, how many turns fail, and how many calls are made in three turns.
const TURNS: &[(u32, u32, u32)] = &[(9, 0, 6), (0, 1, 5), (3, 1, 6), (5, 1, 6)];

// Whether three turns return `are_said`, and send each reply but those of the turns that fail.
fn go_on<E: Eprint>(
    errors: &E,
    alloc: Global,
    zone: &Zone,
    (fails_at, faults, calls): (u32, u32, u32),
    are_said: bool,
) -> bool {
    let mut device = device(alloc, fails_at, u64::MAX);
    serve_datagrams(errors, zone, &mut device, 3) == are_said
        && device.failures() == u64::from(faults)
        && device.mailbox.calls == calls
        && device.mailbox.replies.len() == if faults == 0 { 3 } else { 2 }
        && device
            .mailbox
            .replies
            .iter()
            .all(|reply| reply.as_slice() == REPLY)
}

// Whether turns go on also if standard error takes nothing, to which each diagnostic is written once.
fn go_on_unheard(alloc: Global, zone: &Zone, row: (u32, u32, u32)) -> bool {
    let calls = Cell::new(0);
    let errors = Refusing { calls: &calls };
    go_on(&errors, alloc, zone, row, row.1 == 0) && calls.get() == row.1
}

// Whether a server that is asked to end at its second datagram takes no third turn, and says nothing.
fn ends_when_asked(alloc: Global, zone: &Zone) -> bool {
    let calls = Cell::new(0);
    let mut device = device(alloc, 2, 1);
    serve_datagrams(&Refusing { calls: &calls }, zone, &mut device, 3)
        && calls.get() == 0
        && device.mailbox.calls == 3
        && device.mailbox.replies.len() == 1
}

#[test]
fn turns_go_on(rt: HostRuntime) -> Result<(), Fail> {
    let zone = sample(rt.alloc())?;
    check(&rt, &zone);
    Ok(())
}

fn check<R: Abort + Eprint + AllocGlobal>(rt: &R, zone: &Zone) {
    for &row in TURNS {
        assert!(rt; go_on(rt, rt.alloc(), zone, row, true), "{row:?}");
        assert!(rt; go_on_unheard(rt.alloc(), zone, row), "{row:?} unheard");
    }
    assert!(rt; ends_when_asked(rt.alloc(), zone));
}
