//! Domain names in their wire form.
ghost use Rattle.std.specs.Prelude.{⊤, ◌≡◌, ◌≤◌, ◌↔◌, [], ◌∷◌, ◌++◌, length, IsTrue};
ghost use Rattle.std.specs.Bool.{OnTrue, OnFalse};
ghost use Rattle.std.specs.Cmp.{nat_eq_equiv, partial_equiv_from_equiv};
ghost use Rattle.std.specs.Cmp.Lexicographic.{lists_per, lists_equiv};
ghost use Rattle.dns_spec.specs.Names.{is_name, wire, folded, same, at_or_below, below, names_equal, name_order};
ghost use Rattle.dns_spec.specs.Checks.{first_is_asterisk};
ghost use Rattle.dns_name.specs.TextForm.{Appended};
ghost use Rattle.dns_name.specs.WireForm.{labels_of, IsWireForm};

use crate::label::Label;
use crate::name_octets::NameOctets;
use crate::name_ref::{Labels, NameRef};
use std::alloc::AllocError;
use std::cmp::Ordering;
use std::marker::Model;

/// A domain name: its labels, the label nearest to the root last, with at most 255 octets on the
/// wire (RFC 1034 3.1, RFC 1035 2.3.4). The root has no labels.
#[derive(Drop)]
pub struct Name {
    pub(crate) octets: NameOctets,
}

impl Model for Name {
    ghost use Rattle.dns_spec.specs.Names.{DomainName};
    ghost use Rattle.dns_name.specs.WireForm.{labels_of, IsWireForm};

    ghost Value = { DomainName };

    ghost view = { λ n. labels_of n.octets };

    ghost invariant = { λ n. IsWireForm n.octets };
}

impl Name {
    /// The root, whose wire form is a single octet 0.
    pub fn root() -> Name
        ensures { result ≡ [] }
    {
        Name {
            octets: NameOctets::root(),
        }
    }

    /// Sets the name to the root.
    pub fn clear(&mut self)
        ensures { self.new ≡ [] }
    {
        self.octets.set_root();
    }

    /// Sets the name to `other`, with the same octets. Does not allocate.
    pub fn copy_from(&mut self, other: &NameRef<'_>)
        ensures value { self.new ≡ other.now }
        ensures is_name { IsTrue (is_name self.new) }
    {
        self.octets.clear();
        self.octets.append(other.octets());
    }

    /// Adds a label next to the root: `www.example.` and `org` give `www.example.org.`
    ///
    /// Returns false, and leaves the name unchanged, if the wire form would exceed 255 octets (RFC
    /// 1035 2.3.4).
    pub fn push(&mut self, label: Label<'_>) -> bool
        ensures fits { IsTrue result ↔ (length (wire (self.old ++ label.entry ∷ [])) ≤ 255) }
        ensures pushed { OnTrue result (self.new ≡ self.old ++ label.entry ∷ []) }
        ensures unchanged { OnFalse result (self.new ≡ self.old) }
        ensures is_name { IsTrue (is_name self.new) }
    {
        let octets = label.octets();
        if self.octets.remaining_capacity() <= octets.len() {
            return false;
        }
        self.octets.pop();
        self.octets.push(octets.len() as u8);
        self.octets.append(octets);
        self.octets.push(0);
        true
    }

    // Adds the labels of `other` next to the root. Returns false, and leaves the name unchanged, if
    // the wire form would exceed 255 octets.
    pub(crate) fn append(&mut self, other: &Name) -> bool
        ensures { Appended self.old other.now result self.new }
    {
        let octets = other.octets();
        if self.octets.remaining_capacity() + 1 < octets.len() {
            return false;
        }
        self.octets.pop();
        self.octets.append(octets);
        true
    }

    /// The wire form: each label after its length, then the root's length 0 (RFC 1035 3.1).
    pub fn octets(&self) -> &[u8]
        ensures value { result.now ≡ wire self.now }
        ensures bound { length result.now ≤ 255 }
        ensures is_name { IsTrue (is_name self.now) }
    {
        self.octets.as_slice()
    }

    /// The name, borrowed.
    pub fn borrowed(&self) -> NameRef<'_>
        ensures value { result ≡ self.now }
        ensures is_name { IsTrue (is_name self.now) }
    {
        NameRef::new(self.octets.as_slice())
    }

    /// The labels in order, the label nearest to the root last.
    ///
    /// There are at most 127, since each takes at least two octets on the wire.
    pub fn labels(&self) -> Labels<'_>
        ensures labels { result ≡ self.now }
        ensures is_name { IsTrue (is_name self.now) }
        ensures count { length self.now ≤ 127 }
    {
        self.borrowed().labels()
    }
}

/// Comparison of names (RFC 1035 2.3.3).
impl Name {
    /// The name in lower case: `WWW.Example.` gives `www.example.` Only ASCII letters have a case.
    ///
    /// The name itself is unchanged, since replies repeat names as they were spelled.
    pub fn fold(&self) -> Name
        ensures { result ≡ folded self.now }
    {
        let mut folded = self.copied();
        folded.fold_in_place();
        folded
    }

    /// Converts the name itself to lower case (RFC 1035 2.3.3). Nothing is copied.
    pub fn fold_in_place(&mut self)
        ensures { self.new ≡ folded self.old }
    {
        self.octets.lower();
    }

    /// Whether the names are the same, ignoring the case of ASCII letters.
    pub fn same(&self, other: &Name) -> bool
        ensures { result ≡ same self.now other.now }
    {
        self.borrowed().same(&other.borrowed())
    }

    /// Whether the name is `ancestor` or a name below it: whether it ends with the labels of
    /// `ancestor`, ignoring the case of ASCII letters (RFC 1034 3.1).
    pub fn at_or_below(&self, ancestor: &Name) -> bool
        ensures { result ≡ at_or_below self.now ancestor.now }
    {
        self.borrowed().at_or_below(&ancestor.borrowed())
    }

    /// The canonical order of two names (RFC 4034 6.1).
    ///
    /// Labels are compared from the right, each as octets in lower case. A label comes before any
    /// longer label that begins with it, and a name before all names below it. Does not allocate.
    pub fn order(&self, other: &Name) -> Ordering
        ensures { result ≡ name_order self.now other.now }
    {
        let (own, others) = (self.fold(), other.fold());
        own.borrowed().order_as_spelled(&others.borrowed())
    }

    pub(crate) fn from_octets(octets: &[u8]) -> Name
        requires { IsWireForm octets.now }
        ensures value { result ≡ labels_of octets.now }
        ensures is_name { IsTrue (is_name result) }
    {
        let mut name = NameOctets::root();
        name.clear();
        name.append(octets);
        Name { octets: name }
    }

    /// A copy with the same octets. Does not allocate.
    pub fn copied(&self) -> Name
        ensures value { result ≡ self.now }
        ensures is_name { IsTrue (is_name result) }
    {
        Name::from_octets(self.octets())
    }
}

/// The root.
impl Default for Name {
    ghost is_default = { λ name. name ≡ [] };

    fn default() -> Name {
        Name::root()
    }
}

impl Clone for Name {
    ghost is_clone = { λ name clone. clone ≡ name };

    ghost is_infallible = { λ _. ⊤ };

    fn clone(&self) -> Result<Name, AllocError> {
        Ok(self.copied())
    }
}

/// Equality octet by octet: names that differ only in case are different. `same` ignores case.
impl PartialEq for Name {
    ghost eq = { names_equal };

    ghost laws = { lists_per (lists_per (partial_equiv_from_equiv nat_eq_equiv)) };

    fn eq(&self, other: &Name) -> bool {
        self.octets() == other.octets()
    }
}

impl Eq for Name {
    ghost laws = { lists_equiv (lists_equiv nat_eq_equiv) };
}
