//! Standard streams whose calls wait, even if the streams are non-blocking.
ghost use Rattle.std.specs.Prelude.{◌≡◌};

use std::io::{self, ErrorKind, Read, Write};
use std::thread;
use std::time::{Clock, Duration};

// The pause before a call that would block is repeated, in milliseconds.
const PAUSE: u64 = 10;

/// A device whose calls wait: if it is non-blocking (`O_NONBLOCK`, which another process that
/// shares the stream may have set), a call that would block is repeated after a pause.
///
/// Such a call transferred nothing, so no octet is lost or repeated.
#[derive(Drop)]
pub struct Nonblocking<'a, T, C> {
    device: T,
    clock: &'a C,
}

impl<'a, T, C: Clock> Nonblocking<'a, T, C> {
    /// The device, with a clock for its pauses.
    pub fn new(device: T, clock: &'a C) -> Nonblocking<'a, T, C>
        ensures { result.device ≡ device }
    {
        Nonblocking { device, clock }
    }
}

impl<T: Read, C: Clock> Read for Nonblocking<'_, T, C> {
    ghost remaining = { λ s. T.remaining s.device };

    fn read(&mut self, buf: &mut [u8]) -> io::Result<usize> {
        'calls: for _ in 0..u64::MAX {
            match self.device.read(buf) {
                Err(error) if is_put_off(&error, self.clock) => {}
                came => return came,
            }
        }
        Err(io::Error::from(ErrorKind::TimedOut))
    }
}

impl<T: Write, C: Clock> Write for Nonblocking<'_, T, C> {
    ghost contents = { λ s. T.contents s.device };

    fn write(&mut self, piece: &[u8]) -> io::Result<usize> {
        'calls: for _ in 0..u64::MAX {
            match self.device.write(piece) {
                Err(error) if is_put_off(&error, self.clock) => {}
                taken => return taken,
            }
        }
        Err(io::Error::from(ErrorKind::TimedOut))
    }

    fn flush(&mut self) -> io::Result<()> {
        self.device.flush()
    }
}

// Whether a call failed because it would block. If so, sleeps for the pause.
pub(crate) fn is_put_off(error: &io::Error, clock: &impl Clock) -> bool {
    let put_off = error.kind() == ErrorKind::WouldBlock;
    if put_off {
        thread::sleep(clock, Duration::from_millis(PAUSE));
    }
    put_off
}
