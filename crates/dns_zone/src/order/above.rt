//! Whether names in lower case are at or below others.
ghost use Rattle.std.specs.Prelude.{◌≡◌, ◌<◌};
ghost use Rattle.dns_spec.specs.Names.{folded, at_or_below};
ghost use Rattle.dns_zone.specs.NameEnd.{ending};

use dns_name::NameRef;

/// Whether a name is at or below another: whether the only suffix of the name that can be the other
/// is equal to it.
pub(crate) fn is_at_or_below(name: &NameRef<'_>, other: &NameRef<'_>) -> bool
    requires name { folded name.now ≡ name.now }
    requires other { folded other.now ≡ other.now }
    ensures { result ≡ at_or_below name.now other.now }
{
    shortest_end(name, other.octets().len()) == *other
}

/// The shortest suffix of a name that has at least `least` octets on the wire, or the whole name if
/// the name has fewer. For `www.sub.example.` and 10 this is `sub.example.`
///
/// Skips labels by their lengths, without reading them.
pub(crate) fn shortest_end<'a>(name: &NameRef<'a>, least: usize) -> NameRef<'a>
    requires { 0 < least }
    ensures { result ≡ ending least name.now }
{
    let octets = name.octets();
    let last = octets.len().saturating_sub(least);
    let mut place = 0;
    'labels: loop {
        let next = place + 1 + octets[place] as usize;
        if next > last {
            return NameRef::new(octets.split_at(place).1);
        }
        place = next;
    }
}
