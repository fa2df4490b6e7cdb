//! Helpers for the tests of the reader.
ghost use Rattle.std.specs.Prelude.{◌<◌, ◌-◌, ◌^◌};

use dns_master::read_zone;
use dns_name::{Name, Tally};
use dns_samples_tests::Pieces;
use std::alloc::{AllocError, Global};
use std::io::Read;

/// The name `example.`
pub(super) fn example() -> Name {
    Name::read_text(b"example.", &Name::root()).unwrap_or_default()
}

/// A source that gives at most `most` octets of a text for each call, and never fails.
pub(super) fn by(text: &[u8], most: usize) -> Pieces<'_> {
    Pieces::new(text, most, u32::MAX)
}

/// The fault of a source, as code and line; 0 and 0 if it has none.
pub(super) fn fault_of<R: Read>(alloc: Global, source: &mut Tally<R>) -> (u8, u32)
    requires { source.old.failures < 2 ^ 64 - 1 }
{
    match read_zone(alloc, &example(), source) {
        Ok(_) => (0, 0),
        Err(fault) => (fault.code.number(), fault.line),
    }
}

/// The fault of a file, as code and line; 0 and 0 if it has none.
pub(super) fn fault(alloc: Global, text: &[u8]) -> (u8, u32) {
    fault_of(alloc, &mut Tally::new(text))
}

/// Whether a fault is the one that is given as code and line, for example as `13:1`.
pub(super) fn is_fault(alloc: Global, (code, line): (u8, u32), wanted: &[u8]) -> bool {
    format!(in alloc; "{code}:{line}").is_ok_and(|text| text.as_bytes() == wanted)
}

/// A text that begins with `begin`, continues with `times` copies of `piece`, and ends with `end`.
pub(super) fn repeated(
    alloc: Global,
    begin: &[u8],
    (piece, times): (&[u8], usize),
    end: &[u8],
) -> Result<Vec<u8>, AllocError> {
    let pieces = piece.repeat(alloc, times)?;
    [begin, &pieces, end].concat(alloc)
}
