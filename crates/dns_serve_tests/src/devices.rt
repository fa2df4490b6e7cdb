ghost use Rattle.std.specs.Prelude.{◌≡◌, ◌≤◌, ◌++◌, ◌∷◌, [], true, map, take};
ghost use Rattle.std.specs.Bool.{OnTrue, OnFalse};

use dns_serve::{Datagrams, Failed};
use std::alloc::Global;

/// A device in memory: it receives the same datagram again and again, and knows what it received
/// and sent.
#[derive(Drop)]
pub struct Mailbox<'a> {
    alloc: Global,
    datagram: &'a [u8],
    fails_at: u32,
    /// The datagrams received.
    pub datagrams: Vec<Vec<u8>>,
    /// The replies sent.
    pub replies: Vec<Vec<u8>>,
    /// The number of calls.
    pub calls: u32,
    /// The number of failed calls.
    pub failures: u64,
}

impl<'a> Mailbox<'a> {
    /// A device whose call number `fails_at`, counted from 0, fails; later calls work.
    pub fn new(alloc: Global, datagram: &'a [u8], fails_at: u32) -> Mailbox<'a>
        ensures { result.failures ≡ 0 }
    {
        Mailbox {
            alloc,
            datagram,
            fails_at,
            datagrams: Vec::new(alloc),
            replies: Vec::new(alloc),
            calls: 0,
            failures: 0,
        }
    }

    // Whether the next call works.
    fn works(&mut self) -> bool
        ensures failures { self.new.failures ≡ self.old.failures }
        ensures datagrams { self.new.datagrams ≡ self.old.datagrams }
        ensures replies { self.new.replies ≡ self.old.replies }
    {
        let call = self.calls;
        self.calls = self.calls.saturating_add(1);
        call != self.fails_at
    }
}

// Appends a copy of the octets. False, with nothing appended, if allocation fails.
fn keep(alloc: Global, octets: &[u8], list: &mut Vec<Vec<u8>>) -> bool
    ensures kept { OnTrue result (map (λ d. d.items) list.new.items
        ≡ map (λ d. d.items) list.old.items ++ octets.now ∷ []) }
    ensures same { OnFalse result (list.new.items ≡ list.old.items) }
{
    let Ok(copy) = octets.to_vec(alloc) else {
        return false;
    };
    list.push(copy).is_ok()
}

// Copies the first 512 octets of a datagram to the front of `buf`, and returns how many.
fn hand(datagram: &[u8], buf: &mut [u8; 512]) -> usize
    ensures handed { take result buf.new ≡ take 512 datagram.now }
    ensures within { result ≤ 512 }
{
    let (piece, _) = datagram.split_at(512_usize.min(datagram.len()));
    let (front, _) = buf.split_at_mut(piece.len());
    front.copy_from_slice(piece);
    piece.len()
}

impl Datagrams for Mailbox<'_> {
    ghost use Rattle.std.specs.Prelude.{Some};

    ghost received = { λ m. Some (map (λ d. d.items) m.datagrams.items) };

    ghost sent = { λ m. Some (map (λ d. d.items) m.replies.items) };

    ghost count = { λ m. m.failures };

    ghost has_sender = { λ _. true };

    fn receive(&mut self, buf: &mut [u8; 512]) -> Result<usize, Failed> {
        if !self.works() || !keep(self.alloc, self.datagram, &mut self.datagrams) {
            self.failures += 1;
            return Err(Failed);
        }
        Ok(hand(self.datagram, buf))
    }

    fn send(&mut self, reply: &[u8]) -> Result<(), Failed> {
        if !self.works() || !keep(self.alloc, reply, &mut self.replies) {
            self.failures += 1;
            return Err(Failed);
        }
        Ok(())
    }

    fn failures(&self) -> u64 {
        self.failures
    }
}
