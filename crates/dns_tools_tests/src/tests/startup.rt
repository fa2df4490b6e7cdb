use dns_tools::{Outcome, Stop, finish};
use std::alloc::Global;
use std::io::{self, BufWriter, ErrorKind, Write};
use std::test::Fail;

/// A device that fails at each call, and counts the calls.
#[derive(Drop)]
struct Counting<'a> {
    calls: &'a mut u32,
}

impl Write for Counting<'_> {
    fn write(&mut self, _piece: &[u8]) -> io::Result<usize> {
        *self.calls = (*self.calls).saturating_add(1);
        Err(io::Error::from(ErrorKind::Other))
    }

    fn flush(&mut self) -> io::Result<()> {
        Ok(())
    }
}

// How a run ended, how the program ends, and how often it calls the device.
const OUTCOMES: &[(Outcome, Outcome, u32)] = &[
    (Ok(true), Err(Stop::Sink), 1),
    (Ok(false), Err(Stop::Sink), 1),
    (Err(Stop::Memory), Err(Stop::Memory), 0),
    (Err(Stop::Sink), Err(Stop::Sink), 0),
];

// How a program ends after its run ended with `outcome` and octets in its buffer. Counts the calls.
fn ended(alloc: Global, outcome: Outcome, calls: &mut u32) -> Result<Outcome, Fail> {
    let mut output = BufWriter::new(alloc, Counting { calls })?;
    output.write_all(b"zone")?;
    Ok(finish(outcome, output).0)
}

#[test]
fn a_buffer_is_written_once_at_most(rt: HostRuntime) -> Result<(), Fail> {
    for &(outcome, wanted, wanted_calls) in OUTCOMES {
        let mut calls = 0;
        let ended = ended(rt.alloc(), outcome, &mut calls)?;
        assert!(rt; ended == wanted && calls == wanted_calls, "{outcome:?}");
    }
    Ok(())
}
