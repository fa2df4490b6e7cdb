//! One label of a domain name.
ghost use Rattle.std.specs.Prelude.{◌≡◌, ◌<◌, ◌≤◌, ◌↔◌, length, IsTrue, IsSome, IfSome};
ghost use Rattle.dns_spec.specs.Names.{is_label};

use std::marker::Model;

/// A label: 1 to 63 octets of any value, borrowed (RFC 1035 2.3.4, RFC 2181 11).
#[derive(Drop)]
pub struct Label<'a> {
    octets: &'a [u8],
}

impl<'a> Model for Label<'a> {
    ghost use Rattle.std.specs.Prelude.{IsTrue};
    ghost use Rattle.dns_spec.specs.Names.{Octets, is_label};

    ghost Value = { Octets };

    ghost view = { λ l. l.octets.now };

    ghost invariant = { λ l. IsTrue (is_label l.octets.now) };
}

impl<'a> Label<'a> {
    /// The label with these octets. `None` if there are no octets, or more than 63.
    pub fn new(octets: &'a [u8]) -> Option<Label<'a>>
        ensures some { IsSome result ↔ IsTrue (is_label octets.now) }
        ensures octets { IfSome result (λ label. label ≡ octets.now) }
    {
        if octets.is_empty() || octets.len() > 63 {
            return None;
        }
        Some(Label { octets })
    }

    /// The label's octets, without a length octet.
    pub fn octets(&self) -> &'a [u8]
        ensures value { result.now ≡ self.now }
        ensures is_label { IsTrue (is_label self.now) }
        ensures some { 0 < length result.now }
        ensures bound { length result.now ≤ 63 }
    {
        self.octets
    }
}
