ghost use Rattle.std.specs.Prelude.{◌≡◌, IfOk};

use dns_name::{SinkFailed, Tally};
use std::io::{self, ErrorKind, Read, Write};

/// A device that counts its calls. Calls `from` to `to` - 1, counted from 0, fail, and no others.
#[derive(Drop)]
struct Failing {
    from: u32,
    to: u32,
    calls: u32,
}

impl Failing {
    fn call(&mut self, count: usize) -> io::Result<usize>
        ensures { IfOk result (λ n. n ≡ count) }
    {
        let fails = self.from <= self.calls && self.calls < self.to;
        self.calls = self.calls.saturating_add(1);
        if fails {
            return Err(io::Error::from(ErrorKind::Other));
        }
        Ok(count)
    }
}

impl Read for Failing {
    fn read(&mut self, buf: &mut [u8]) -> io::Result<usize> {
        self.call(buf.len().min(1))
    }
}

impl Write for Failing {
    fn write(&mut self, piece: &[u8]) -> io::Result<usize> {
        self.call(piece.len().min(1))
    }

    fn flush(&mut self) -> io::Result<()> {
        self.call(0)?;
        Ok(())
    }
}

// A call of a device: it takes an octet, puts an octet, puts texts whole, or flushes.
enum Call {
    Take,
    Put,
    All,
    Parts,
    Flush,
}

use Call::{All, Flush, Parts, Put, Take};

// A call, and whether it works.
type Step = (Call, bool);

// The first call that fails, the first after it that works, the number of all calls, and the steps.
const RUNS: &[(u32, u32, u32, &[Step])] = &[
    // Each failure is counted once.
    (1, u32::MAX, 2, &[(Take, true), (Take, false)]),
    (2, u32::MAX, 4, &[(All, false), (Parts, false)]),
    // After a failure, later steps call the device again, and each flush is passed on.
    (0, 1, 2, &[(Take, false), (Take, true)]),
    (0, 1, 5, &[(Put, false), (Put, true), (All, true)]),
    (1, 2, 3, &[(Flush, true), (Flush, false), (Flush, true)]),
    // After a failure, a step makes no more calls.
    (0, 1, 1, &[(All, false)]),
    (1, 2, 2, &[(All, false)]),
    (2, 3, 3, &[(All, false)]),
    (0, 1, 1, &[(Parts, false)]),
    (1, 2, 2, &[(Parts, false)]),
    (2, 3, 3, &[(Parts, false)]),
    (0, 1, 1, &[(Put, false)]),
    (0, 1, 1, &[(Take, false)]),
];

// Makes a call, unless ten calls have failed before it. Whether it works.
fn works(device: &mut Tally<Failing>, call: &Call) -> bool {
    if device.failures() > 9 {
        return false;
    }
    match call {
        Take => device.read(&mut [0; 4]) == Ok(1),
        Put => device.write(b"a") == Ok(1),
        All => device.write_all(b"abc").is_ok(),
        Parts => device.write_parts(&[b"", b"a", b"", b"bc"]).is_ok(),
        Flush => device.flush().is_ok(),
    }
}

fn has_run(mut device: Tally<Failing>, steps: &[Step], calls: u32) -> bool {
    let mut failures = 0_u8;
    for (call, wanted) in steps {
        failures = failures.saturating_add(u8::from(!*wanted));
        if works(&mut device, call) != *wanted || device.failures() != u64::from(failures) {
            return false;
        }
    }
    device.into_inner().calls == calls
}

#[test]
fn failures_are_counted(rt: HostRuntime) {
    for (i, &(from, to, calls, steps)) in RUNS.iter().enumerate() {
        let device = Tally::new(Failing { from, to, calls: 0 });
        assert!(rt; has_run(device, steps, calls), "run {i}");
    }
}

#[test]
fn a_short_read_and_the_end_are_no_failures(rt: HostRuntime) {
    let mut source = Tally::new(b"abc".as_slice());
    let mut piece = [0; 2];
    for (count, wanted) in [(2, b"ab"), (1, b"cb"), (0, b"cb")] {
        assert!(rt; source.failures() == 0);
        assert!(rt; source.read(&mut piece) == Ok(count) && piece == *wanted);
    }
    assert!(rt; source.failures() == 0);
    assert!(rt; source.into_inner().is_empty());
}

#[test]
fn what_is_written_stands_in_the_device(rt: HostRuntime) {
    let mut sink = Tally::new(Vec::new(rt.alloc()));
    assert!(rt; sink.write(b"ab") == Ok(2));
    assert!(rt; sink.write_all(b"cd") == Ok(()));
    assert!(rt; sink.write_parts(&[b"e", b"", b"fg"]) == Ok(()));
    assert!(rt; sink.failures() == 0);
    assert!(rt; sink.into_inner().as_slice() == b"abcdefg".as_slice());
}

#[test]
fn a_write_that_takes_nothing_is_a_failure(rt: HostRuntime) {
    let mut room = [0; 3];
    let mut sink = Tally::new(room.as_mut_slice());
    assert!(rt; sink.write(b"") == Ok(0));
    assert!(rt; sink.write_all(b"abc") == Ok(()));
    assert!(rt; sink.failures() == 0);
    assert!(rt; sink.write(b"") == Ok(0));
    assert!(rt; sink.write(b"d") == Err(SinkFailed));
    assert!(rt; sink.failures() == 1);
}
