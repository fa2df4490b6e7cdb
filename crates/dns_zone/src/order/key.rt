//! Keys of names: octets whose lexicographic order is the canonical order of the names.
ghost use Rattle.std.specs.Prelude.{◌≡◌, ◌+◌, ◌<◌, ◌≤◌, [], length};
ghost use Rattle.dns_spec.specs.Names.{DomainName, folded, at_or_below, below};
ghost use Rattle.dns_name.specs.WireForm.{labels_of, IsWireForm};
ghost use Rattle.dns_zone.specs.KeyForm.{raised, ended, name_key, BeginAlike};
ghost use Rattle.dns_zone.specs.OwnerKeysForm.{key_in};

use crate::order::above::shortest_end;
use crate::store::stored::StoredRecord;
use dns_name::{Name, NameRef, are_equal, begins_with, first_label};
use std::marker::Model;

const MAX_OCTETS: usize = 255;

// The labels that a name shares with the one before it mostly follow one of its first three labels.
const NEAR: u32 = 3;

/// The key of a name in lower case. Comparing keys octet by octet gives the canonical order of the
/// names (RFC 4034 6.1).
#[derive(Drop)]
pub(crate) struct Key {
    octets: [u8; MAX_OCTETS],
    count: usize,
}

impl Model for Key {
    ghost use Rattle.std.specs.Prelude.{◌≤◌, take};
    ghost use Rattle.dns_spec.specs.Names.{Octets};

    ghost Value = { Octets };

    ghost view = { λ k. take k.count k.octets };

    ghost invariant = { λ k. k.count ≤ 255 };
}

impl Key {
    /// The key of the root, which is empty. `move_to` changes it to the key of another name.
    pub(crate) fn new() -> Key
        ensures { result ≡ name_key [] }
    {
        Key {
            octets: [0; MAX_OCTETS],
            count: 0,
        }
    }

    /// The key of a name: its labels from the right, each with an end marker, so that a label
    /// comes before the longer ones that begin with it.
    pub(crate) fn of(name: &NameRef<'_>) -> Key
        ensures { result ≡ name_key name.now }
    {
        let mut key = Key::new();
        key.move_to(&Name::root().borrowed(), name);
        key
    }

    /// Changes the key of `from` to the key of `name`. The labels that both share, except the first
    /// label of `name`, are not written again if at most three labels come before them, as in most
    /// names.
    pub(crate) fn move_to(&mut self, from: &NameRef<'_>, name: &NameRef<'_>)
        requires { self.old ≡ name_key from.now }
        ensures { self.new ≡ name_key name.now }
    {
        let octets = name.octets();
        self.count = octets.len() - 1;
        put_labels(octets, from, NEAR, &mut self.octets[..self.count]);
    }

    /// Its octets, one fewer than in the wire form of the name.
    pub(crate) fn octets(&self) -> &[u8]
        ensures value { result.now ≡ self.now }
        ensures bound { length result.now ≤ 255 }
    {
        &self.octets[..self.count]
    }
}

/// Whether the name of the first key is at or below the name of the other, both in lower case: if
/// and only if the other key is a prefix of the first.
#[tactic(auto, using(crate::proofs::KeyPrefix::starts_under))]
pub(crate) fn is_under(key: &[u8], other: &[u8]) -> bool
    ensures { (n m : DomainName) → folded n ≡ n → folded m ≡ m → key.now ≡ name_key n
        → other.now ≡ name_key m → result ≡ at_or_below n m }
{
    begins_with(key, other)
}

/// Whether the name of the first key is below the name of the other, both in lower case.
pub(crate) fn is_below(key: &[u8], other: &[u8]) -> bool
    ensures { (n m : DomainName) → folded n ≡ n → folded m ≡ m → key.now ≡ name_key n
        → other.now ≡ name_key m → result ≡ below n m }
{
    key.len() > other.len() && is_under(key, other)
}

/// The key of a record's owner. It begins at the offset `start` in `keys`.
#[tactic(auto, using(crate::proofs::Common::wire_some))]
pub(crate) fn key_at<'a>(keys: &'a [u8], start: u32, of: &StoredRecord) -> &'a [u8]
    ensures value { result.now ≡ key_in keys.now start of.now.owner }
    ensures lower { folded of.now.owner ≡ of.now.owner }
{
    let (_, after) = keys.split_at((start as usize).min(keys.len()));
    after
        .split_at((of.owner().octets().len() - 1).min(after.len()))
        .0
}

// Writes the key of the name with these octets to `key`, which has the length of the key. `key` and
// the key of `known` begin alike. The labels that the name shares with `known` are not written
// again if at most `near` labels come before them. So at most `near` names are compared.
fn put_labels(octets: &[u8], known: &NameRef<'_>, near: u32, key: &mut [u8])
    requires wire { IsWireForm octets.now }
    requires room { length octets.now ≡ length key.old + 1 }
    requires alike { BeginAlike key.old (name_key known.now) }
    ensures { key.new ≡ name_key (labels_of octets.now) }
{
    let Some((label, rest)) = first_label(octets) else {
        return;
    };
    let (front, end) = key.split_at_mut(rest.len() - 1);
    if near == 0 || !are_equal(shortest_end(known, rest.len()).octets(), rest) {
        put_labels(rest, known, near.saturating_sub(1), front);
    }
    put_label(label.octets(), end);
}

// Writes a label in lower case, and its end marker 0. Octets below 65 are raised by one, so that 0
// is free; they stay distinct because 65 to 90 do not occur in lower case.
fn put_label(label: &[u8], key: &mut [u8])
    requires { length key.old ≡ length label.now + 1 }
    ensures { key.new ≡ ended label.now }
{
    if let [octet] = label {
        key[0] = raised(*octet);
        key[1] = 0;
        return;
    }
    'octets: for place in 0..label.len() {
        key[place] = raised(label[place]);
    }
    key[label.len()] = 0;
}

fn raised(octet: u8) -> u8
    ensures { result ≡ raised octet }
{
    if octet < 65 { octet + 1 } else { octet }
}
