//! The labels of a name, from the right.
ghost use Rattle.std.specs.Prelude.{◌≡◌, ◌+◌, ◌≤◌, ◌<◌, ◌∷◌, length, drop, get_or};
ghost use Rattle.dns_name.specs.WireForm.{labels_of, IsWireForm};
ghost use Rattle.dns_zone.specs.Starts.{BeginsAt, AreStarts};

use dns_name::{Label, first_label};

/// The most labels that a name can have, since each has at least two octets on the wire.
pub const MOST_LABELS: usize = 127;

/// Stores the offset in the wire form at which each of the first `count` labels of a name begins.
/// One pass finds all offsets; then the labels can be taken from the right.
pub fn put_starts(octets: &[u8], count: usize, starts: &mut [u8])
    requires form { IsWireForm octets.now }
    requires labels { count ≤ length (labels_of octets.now) }
    requires room { count ≤ length starts.old }
    ensures starts { AreStarts octets.now count starts.new }
    ensures room { length starts.new ≡ length starts.old }
{
    let mut start = 0;
    'labels: for k in 0..count {
        starts[k] = start;
        start += 1 + octets[start as usize];
    }
}

/// The label that comes after the first `count` labels of a name.
pub fn label_after<'a>(octets: &'a [u8], starts: &[u8], count: usize) -> Label<'a>
    requires start { BeginsAt octets.now count (get_or starts.now count 0) }
    requires known { count < length starts.now }
    requires inside { count < length (labels_of octets.now) }
    ensures { drop count (labels_of octets.now) ≡ result ∷ drop (count + 1) (labels_of octets.now) }
{
    let Some((label, _)) = first_label(octets.split_at(starts[count] as usize).1) else {
        unreachable!();
    };
    label
}
