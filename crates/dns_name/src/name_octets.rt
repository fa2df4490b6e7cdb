//! The octets of a name, stored inline.
ghost use Rattle.std.specs.Prelude.{◌≡◌, ◌+◌, ◌-◌, ◌<◌, ◌≤◌, [], ◌∷◌, ◌++◌, length, take, map};
ghost use Rattle.std.specs.Char.{to_ascii_lowercase};

use std::marker::Model;

// The most octets of a name on the wire (RFC 1035 2.3.4).
pub(crate) const MAX_OCTETS: usize = 255;

/// At most 255 octets, stored inline. Unlike `ArrayVec`, it does not clear removed octets. Clearing
/// them would take a tenth of the time of spelling a name.
#[derive(Drop)]
pub(crate) struct NameOctets {
    /// The array. Its octets after the first `count` are unspecified.
    pub(crate) all: [u8; MAX_OCTETS],
    /// The number of octets in use.
    pub(crate) count: usize,
}

impl Model for NameOctets {
    ghost use Rattle.std.specs.Prelude.{◌≤◌, take};
    ghost use Rattle.dns_spec.specs.Names.{Octets};

    ghost Value = { Octets };

    ghost view = { λ o. take o.count o.all };

    ghost invariant = { λ o. o.count ≤ 255 };
}

impl NameOctets {
    /// The wire form of the root: a length 0.
    pub(crate) fn root() -> NameOctets
        ensures { result ≡ 0 ∷ [] }
    {
        NameOctets {
            all: [0; MAX_OCTETS],
            count: 1,
        }
    }

    /// Sets the octets to the wire form of the root.
    pub(crate) fn set_root(&mut self)
        ensures { self.new ≡ 0 ∷ [] }
    {
        self.clear();
        self.push(0);
    }

    /// Removes all octets.
    pub(crate) fn clear(&mut self)
        ensures { self.new ≡ [] }
    {
        self.count = 0;
    }

    /// The octets.
    pub(crate) fn as_slice(&self) -> &[u8]
        ensures value { result.now ≡ self.now }
        ensures bound { length result.now ≤ 255 }
    {
        &self.all[..self.count]
    }

    /// The number of octets that can be added.
    pub(crate) fn remaining_capacity(&self) -> usize
        ensures { result + length self.now ≡ 255 }
    {
        MAX_OCTETS - self.count
    }

    /// Removes the last octet.
    pub(crate) fn pop(&mut self)
        requires { 0 < length self.old }
        ensures { self.new ≡ take (length self.old - 1) self.old }
    {
        self.count -= 1;
    }

    /// Adds an octet at the end.
    pub(crate) fn push(&mut self, octet: u8)
        requires { length self.old < 255 }
        ensures { self.new ≡ self.old ++ octet ∷ [] }
    {
        self.append(&[octet]);
    }

    /// Adds octets at the end.
    pub(crate) fn append(&mut self, part: &[u8])
        requires { length self.old + length part.now ≤ 255 }
        ensures { self.new ≡ self.old ++ part.now }
    {
        let end = self.count + part.len();
        self.all[self.count..end].copy_from_slice(part);
        self.count = end;
    }

    /// Converts letters to lower case. In a wire form only letters change: a length is at most 63,
    /// and letters begin at 65.
    pub(crate) fn lower(&mut self)
        ensures { self.new ≡ map to_ascii_lowercase self.old }
    {
        self.all[..self.count].make_ascii_lowercase();
    }
}
