//! Sources that give their text in pieces of different lengths, that fail, or that never end.

use super::reading::fault_of;
use super::records::{has_records, means};
use dns_name::Tally;
use dns_samples_tests::Pieces;
use std::io::{self, Read};

const TEXT: &[u8] = b"$TTL 60
@ SOA ns h ( 1 2\r
 3 4 5 ) ; c
ns A 192.0.2.1
 TXT \"a b\" \\\"
";

const MEANT: &[u8] = b"\x07example\0 60 6 \x02ns\x07example\0\x01h\x07example\0\0\0\0\x01\0\0\0\x02\
    \0\0\0\x03\0\0\0\x04\0\0\0\x05\n\
    \x02ns\x07example\0 60 1 \xc0\0\x02\x01\n\
    \x02ns\x07example\0 60 16 \x03a b\x01\"\n";

#[test]
fn pieces_of_any_length(rt: HostRuntime) {
    assert!(rt; means(rt.alloc(), TEXT, MEANT));
    let source = (&TEXT[..3]).chain(&TEXT[3..4]).chain(&TEXT[4..]);
    assert!(rt; has_records(rt.alloc(), source, MEANT));
}

// After a source failed (code 16), it is not called again, though a later call would work. The last
// call that can fail is the one that finds the end of the text.
#[test]
fn a_source_that_fails_at_each_call(rt: HostRuntime) {
    for calls in 0..=TEXT.len() + 1 {
        let fails = calls <= TEXT.len();
        let mut source = Tally::new(Pieces::new(TEXT, 1, calls as u32));
        let wanted = if fails { (16, 0) } else { (0, 0) };
        let found = fault_of(rt.alloc(), &mut source);
        assert!(rt; found == wanted, "after {calls} calls");
        assert!(rt; source.failures() == u64::from(fails));
        assert!(rt; source.into_inner().calls.has_failed() == fails);
    }
}

// A source that gives up to `most` octets each call, and never ends.
#[derive(Drop)]
struct Endless {
    octet: u8,
    most: usize,
    given: usize,
}

impl Read for Endless {
    fn read(&mut self, buf: &mut [u8]) -> io::Result<usize> {
        let most = self.most.min(buf.len());
        buf[..most].fill(self.octet);
        self.given = self.given.saturating_add(most);
        Ok(most)
    }
}

#[test]
fn no_more_octets_are_taken_than_decide(rt: HostRuntime) {
    for (octet, most, line) in [(b';', 65_536, 1), (b'\n', 1_000_003, 16_777_217)] {
        let given = 0;
        let mut source = Tally::new(Endless { octet, most, given });
        let found = fault_of(rt.alloc(), &mut source);
        assert!(rt; found == (15, line), "of {octet}");
        assert!(rt; source.into_inner().given == 16_777_217, "of {octet}");
    }
}
