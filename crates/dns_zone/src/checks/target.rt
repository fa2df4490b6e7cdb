//! The targets of records, and where the checks found them among the checked names.
ghost use Rattle.std.specs.Prelude.{◌≡◌, [], IfSome, IsTrue};
ghost use Rattle.dns_spec.specs.Names.{folded, is_name};
ghost use Rattle.dns_spec.specs.Data.{target};
ghost use Rattle.dns_zone.specs.KeyForm.{name_key};

use crate::order::key::Key;
use crate::store::stored::StoredRecord;
use dns_name::{Name, NameRef};
use dns_rdata::Rdata;
use std::marker::Model;

/// The first name in the data, for example the server of NS (RFC 1035 3.3.11), the exchange of MX
/// (3.3.9), or the target of CNAME or SRV. `None` if the data contains no name.
#[tactic(auto, using(crate::proofs::Targets::target_if))]
pub(crate) fn target(entry: &StoredRecord) -> Option<NameRef<'_>>
    ensures value { result ≡ target entry.now.rtype entry.now.rdata }
    ensures is_name { IfSome result (λ m. IsTrue (is_name m)) }
    ensures lower { IfSome result (λ m. folded m ≡ m) }
{
    Rdata::target(entry.rtype, entry.rdata())
}

/// The last target that was looked up by its key, and the two indexes among the checked names at
/// which the next target is tried before it is looked up. Many names have the same target, so the
/// first is the index of the last target. Glue often comes right after its cut, one server after
/// another, so the second is the index of the name after the last target or, for the first target
/// of a name, of the name after this one.
#[derive(Drop)]
pub(crate) struct LastTarget {
    name: Name,
    key: Key,
    // The index of the last target.
    index: usize,
    // The other index that is tried first for the next target.
    next: usize,
    // How many names `pass_name` has passed, including the one under check. So it is the index of
    // the name after this one.
    passed: usize,
}

impl Model for LastTarget {
    ghost use Rattle.std.specs.Prelude.{◌≡◌};
    ghost use Rattle.dns_spec.specs.Names.{DomainName};
    ghost use Rattle.dns_zone.specs.KeyForm.{name_key};

    ghost Value = { DomainName };

    ghost view = { λ l. l.name };

    ghost invariant = { λ l. l.key ≡ name_key l.name };
}

impl LastTarget {
    /// Before any lookup, with the root as its name.
    pub(crate) fn new() -> LastTarget
        ensures { result ≡ [] }
    {
        LastTarget {
            name: Name::root(),
            key: Key::new(),
            index: 0,
            next: 0,
            passed: 0,
        }
    }

    /// Makes this name the last target.
    pub(crate) fn move_to(&mut self, name: &NameRef<'_>)
        ensures { self.new ≡ name.now }
    {
        self.key.move_to(&self.name.borrowed(), name);
        self.name.copy_from(name);
    }

    pub(crate) fn key(&self) -> &[u8]
        ensures { result.now ≡ name_key self.now }
    {
        self.key.octets()
    }

    /// Goes on to the targets of the next checked name.
    pub(crate) fn pass_name(&mut self)
        ensures { self.new ≡ self.old }
    {
        self.passed = self.passed.saturating_add(1);
        self.next = self.passed;
    }

    /// The indexes among the checked names at which a target is sought first: unverified hints.
    pub(crate) fn probable_indexes(&self) -> [usize; 2] {
        [self.index, self.next]
    }

    /// Keeps the index of a target or, if the target is no checked name, of the last one before it.
    pub(crate) fn keep_index(&mut self, index: usize)
        ensures { self.new ≡ self.old }
    {
        self.index = index;
        self.next = index.saturating_add(1);
    }
}
