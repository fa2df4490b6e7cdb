//! Names to be looked up from a name above them.
ghost use Rattle.std.specs.Prelude.{◌≡◌, false, MatchOption};
ghost use Rattle.dns_spec.specs.Names.{at_or_below};
ghost use Rattle.dns_zone.specs.Starts.{IsBelow};

use dns_name::{NameRef, first_label};

/// A name to look up, and how many labels it has below the name from which the lookup begins.
#[derive(Drop)]
pub struct Sought<'n> {
    pub name: NameRef<'n>,
    pub depth: usize,
}

impl Default for Sought<'_> {
    /// The root, looked up from itself.
    fn default() -> Self {
        Sought {
            name: NameRef::new(&[0]),
            depth: 0,
        }
    }
}

impl<'n> Sought<'n> {
    /// A name to be looked up from `ancestor`; `None` if the name is not at or below it.
    pub fn below(name: &NameRef<'n>, ancestor: &NameRef<'_>) -> Option<Sought<'n>>
        ensures { MatchOption result (at_or_below name.now ancestor.now ≡ false)
            (λ sought. (sought.name ≡ name.now) × IsBelow sought ancestor.now) }
    {
        let least = ancestor.octets().len();
        let octets = name.octets();
        let mut suffix = octets;
        let mut depth = 0;
        'labels: while suffix.len() > least {
            let Some((_, rest)) = first_label(suffix) else {
                return None;
            };
            suffix = rest;
            depth += 1;
        }
        if !NameRef::new(suffix).same(ancestor) {
            return None;
        }
        Some(Sought {
            name: NameRef::new(octets),
            depth,
        })
    }
}
