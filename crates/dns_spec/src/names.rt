//! Laws of names and of their wire forms.

ghost use Rattle.std.specs.Prelude.{◌≡◌, ◌++◌, ◌↔◌, Some, IsTrue};
ghost use Rattle.dns_spec.specs.Names.{Octets, DomainName, wire, is_name, name_of};

/// `name_of` gives a name and `rest` if and only if the name is valid and the octets are its wire
/// form, followed by `rest` (RFC 1035 3.1): `\x01a\x00xyz` gives `a.` and `xyz`.
pub fn octets_begin_with_the_name_read()
    ensures { (octets : Octets) (n : DomainName) (rest : Octets)
        → (name_of octets ≡ Some (n, rest)) ↔ ((octets ≡ wire n ++ rest) × IsTrue (is_name n)) }
{}
