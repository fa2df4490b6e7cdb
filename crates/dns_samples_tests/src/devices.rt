ghost use Rattle.std.specs.Prelude.{◌≡◌, ◌↔◌, IsTrue};

use std::alloc::Global;
use std::io::{self, ErrorKind, Read, Write};

/// Counts the calls of a device. The first calls work, the next call fails, and later calls work
/// again.
#[derive(Drop)]
pub struct Calls {
    /// The number of calls that work before the failing one; `u32::MAX` right after that one.
    pub left: u32,
}

impl Calls {
    /// Whether the failing call was made, and no other call since.
    pub fn has_failed(&self) -> bool
        ensures { IsTrue result ↔ self.now.left ≡ 4294967295 }
    {
        self.left == u32::MAX
    }

    // Counts a call, which may be the failing one.
    fn count(&mut self) -> io::Result<()> {
        if self.left == 0 {
            self.left = u32::MAX;
            return Err(io::Error::from(ErrorKind::Other));
        }
        self.left -= 1;
        Ok(())
    }
}

/// A reader that gives a text in pieces.
#[derive(Drop)]
pub struct Pieces<'a> {
    /// The rest of the text.
    pub text: &'a [u8],
    /// The most octets that a call gives.
    pub most: usize,
    /// The count of its calls.
    pub calls: Calls,
}

impl<'a> Pieces<'a> {
    /// A reader whose first `calls` calls work.
    pub fn new(text: &'a [u8], most: usize, calls: u32) -> Pieces<'a>
        ensures { result.calls.left ≡ calls }
    {
        let calls = Calls { left: calls };
        Pieces { text, most, calls }
    }
}

impl Read for Pieces<'_> {
    fn read(&mut self, buf: &mut [u8]) -> io::Result<usize> {
        self.calls.count()?;
        let most = self.most.min(buf.len());
        self.text.read(&mut buf[..most])
    }
}

/// A writer that keeps its output. Flushing counts as a call.
#[derive(Drop)]
pub struct Kept {
    /// What was written.
    pub text: Vec<u8>,
    /// The most octets that a call takes.
    pub most: usize,
    /// The count of its calls.
    pub calls: Calls,
}

impl Kept {
    /// A writer whose first `calls` calls work.
    pub fn new(alloc: Global, most: usize, calls: u32) -> Kept
        ensures { result.calls.left ≡ calls }
    {
        let text = Vec::new(alloc);
        let calls = Calls { left: calls };
        Kept { text, most, calls }
    }
}

impl Write for Kept {
    fn write(&mut self, piece: &[u8]) -> io::Result<usize> {
        self.calls.count()?;
        let most = self.most.min(piece.len());
        self.text.write(&piece[..most])
    }

    fn flush(&mut self) -> io::Result<()> {
        self.calls.count()
    }
}
