//! Devices that fail, and what a run with them writes.

use dns_name::Tally;
use dns_samples_tests::{Kept, Pieces};
use dns_tools::{Outcome, Stop};

/// How many octets a call of a device transfers at most, and how many reads and how many writes
/// work before one fails.
pub(super) type Devices = (usize, u32, u32);

/// Devices that do not fail, and transfer at most `most` octets a call.
pub(super) fn all_work(most: usize) -> Devices {
    (most, 1_000_000, 1_000_000)
}

/// The first `length` octets.
pub(super) fn front(octets: &[u8], length: u32) -> &[u8] {
    octets.get(..length as usize).unwrap_or(&[])
}

/// Whether a run ended as wanted: with this result and output. Also whether, if a device failed,
/// the result says so, the failure was counted once, and the device was not used again, though it
/// would work.
pub(super) fn has_ended(
    source: Tally<Pieces<'_>>,
    sink: Tally<Kept>,
    outcome: Outcome,
    wanted: (Outcome, &[u8]),
) -> bool {
    let counts = (source.failures(), sink.failures());
    let (source, sink) = (source.into_inner(), sink.into_inner());
    let calls = (source.calls.has_failed(), sink.calls.has_failed());
    are_counted(outcome, counts, calls) & (outcome == wanted.0) & (sink.text.as_slice() == wanted.1)
}

// Whether the result says which device's calls failed, and each failure was counted.
fn are_counted(outcome: Outcome, counts: (u64, u64), calls: (bool, bool)) -> bool {
    let source_failed = outcome == Err(Stop::Source);
    let sink_failed = outcome == Err(Stop::Sink);
    counts == (u64::from(source_failed), u64::from(sink_failed))
        && calls == (source_failed, sink_failed)
}
