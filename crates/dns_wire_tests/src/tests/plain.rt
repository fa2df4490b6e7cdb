//! A plain reader of messages, written from RFC 1035 4.1 without regard to speed.

use std::alloc::Global;

/// A message with A and SOA records: its octets with names in full, and without lengths of data.
pub(crate) fn plain_message(alloc: Global, octets: &[u8]) -> Option<Vec<u8>> {
    let mut spelled = Vec::new(alloc);
    spelled.extend_from_slice(octets.get(..12)?).ok()?;
    let mut place = 12;
    for _ in 0..plain_number(octets, 4)? {
        let after = plain_name(octets, place, &mut spelled)?;
        place = after.checked_add(4)?;
        spelled.extend_from_slice(octets.get(after..place)?).ok()?;
    }
    for section in [6, 8, 10] {
        for _ in 0..plain_number(octets, section)? {
            place = plain_record(octets, place, &mut spelled)?;
        }
    }
    if place == octets.len() {
        Some(spelled)
    } else {
        None
    }
}

// Appends the record at a place to `spelled`, and returns the place after the record.
fn plain_record(octets: &[u8], place: usize, spelled: &mut Vec<u8>) -> Option<usize> {
    let after = plain_name(octets, place, spelled)?;
    let rtype = plain_number(octets, after)?;
    let class = plain_number(octets, after.checked_add(2)?)?;
    let length = after.checked_add(8)?;
    spelled.extend_from_slice(octets.get(after..length)?).ok()?;
    let data = length.checked_add(2)?;
    let end = data.checked_add(plain_number(octets, length)?)?;
    let numbers = match (class, rtype) {
        (1, 1) if data.checked_add(4)? != end => return None,
        (1, 6) => {
            let mailbox = plain_name(octets, data, spelled)?;
            let serial = plain_name(octets, mailbox, spelled)?;
            if serial.checked_add(20)? != end {
                return None;
            }
            serial
        }
        _ => data,
    };
    spelled.extend_from_slice(octets.get(numbers..end)?).ok()?;
    Some(end)
}

// Appends the full name at a place to `spelled`, and returns the place after the name there.
fn plain_name(octets: &[u8], place: usize, spelled: &mut Vec<u8>) -> Option<usize> {
    let before = spelled.len();
    let end = plain_labels(octets, place, place, spelled, 1000)?;
    if spelled.len().checked_sub(before)? > 255 {
        return None;
    }
    Some(end)
}

// Appends the labels from a place on, in a run of labels that begins at `run`, to `spelled`.
// Returns the place after the labels there. Length 0 ends them; a length up to 63 is followed by a
// label; a pointer leads to a run that begins before this one, and after the header.
fn plain_labels(
    octets: &[u8],
    run: usize,
    place: usize,
    spelled: &mut Vec<u8>,
    most: u32,
) -> Option<usize> {
    let left = most.checked_sub(1)?;
    let first = usize::from(*octets.get(place)?);
    let after = place.checked_add(1)?;
    if first == 0 {
        spelled.push(0).ok()?;
        return Some(after);
    }
    if first < 64 {
        let end = after.checked_add(first)?;
        spelled.extend_from_slice(octets.get(place..end)?).ok()?;
        return plain_labels(octets, run, end, spelled, left);
    }
    let target = (first & 63) * 256 + usize::from(*octets.get(after)?);
    if first < 192 || target < 12 || target >= run {
        return None;
    }
    plain_labels(octets, target, target, spelled, left)?;
    after.checked_add(1)
}

fn plain_number(octets: &[u8], place: usize) -> Option<usize> {
    let high = usize::from(*octets.get(place)?);
    let low = usize::from(*octets.get(place.checked_add(1)?)?);
    Some(high * 256 + low)
}
