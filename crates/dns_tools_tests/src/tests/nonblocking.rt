use dns_tools::Nonblocking;
use std::cell::Cell;
use std::io::{self, ErrorKind, Read, Write};
use std::test::Fail;
use std::time::{Clock, Duration};

/// A clock that counts the pauses.
#[derive(Drop)]
struct Pauses {
    count: Cell<u32>,
}

impl Clock for Pauses {
    fn monotonic(&self) -> io::Result<Duration> {
        Ok(Duration::ZERO)
    }

    fn since_1970(&self) -> io::Result<Duration> {
        Ok(Duration::ZERO)
    }

    fn sleep(&self, _duration: Duration) {
        self.count.set(self.count.get().saturating_add(1));
    }
}

/// A device whose first two calls would block. The fourth fails.
#[derive(Drop)]
struct PutOff {
    calls: u32,
}

impl PutOff {
    fn call(&mut self) -> io::Result<usize> {
        self.calls = self.calls.saturating_add(1);
        match self.calls {
            1 | 2 => Err(io::Error::from(ErrorKind::WouldBlock)),
            3 => Ok(1),
            _ => Err(io::Error::from(ErrorKind::BrokenPipe)),
        }
    }
}

impl Read for PutOff {
    fn read(&mut self, buf: &mut [u8]) -> io::Result<usize> {
        Ok(self.call()?.min(buf.len()))
    }
}

impl Write for PutOff {
    fn write(&mut self, piece: &[u8]) -> io::Result<usize> {
        Ok(self.call()?.min(piece.len()))
    }

    fn flush(&mut self) -> io::Result<()> {
        Ok(())
    }
}

// Whether a call that would block is repeated, and a call that fails is not.
fn is_read(pauses: &Pauses) -> io::Result<bool> {
    let mut source = Nonblocking::new(PutOff { calls: 0 }, pauses);
    Ok(source.read(&mut [0; 4])? == 1 && source.read(&mut [0; 4]).is_err())
}

fn is_written(pauses: &Pauses) -> io::Result<bool> {
    let mut sink = Nonblocking::new(PutOff { calls: 0 }, pauses);
    Ok(sink.write(b"zone")? == 1 && sink.write(b"zone").is_err())
}

#[test]
fn a_call_that_is_put_off_is_made_again_and_one_that_fails_is_not(
    rt: HostRuntime,
) -> Result<(), Fail> {
    let count = Cell::new(0);
    let pauses = Pauses { count };
    assert!(rt; is_read(&pauses)? && pauses.count.get() == 2);
    assert!(rt; is_written(&pauses)? && pauses.count.get() == 4);
    Ok(())
}
