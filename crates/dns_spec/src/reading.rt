//! Laws of reading names and questions in messages.

ghost use Rattle.std.specs.Prelude.{◌≡◌, ℕ, ◌≤◌, Some, ◌↔◌, length};
ghost use Rattle.dns_spec.specs.Names.{Octets, DomainName};
ghost use Rattle.dns_spec.specs.NamesInMessages.{NameAt};
ghost use Rattle.dns_spec.specs.ComputedNames.{name_at};
ghost use Rattle.dns_spec.specs.MessageFaults.{MessageFault};
ghost use Rattle.dns_spec.specs.Reading.{MessageQuestion};
ghost use Rattle.dns_spec.specs.Query.{question_at};

/// `name_at b i` gives the name `n` and the place `e` if and only if `n` is spelled at place `i`
/// and its own octets end before place `e` (`NameAt`, RFC 1035 4.1.4).
pub fn name_at_computes_the_relation()
    ensures { (b : Octets) (i : ℕ) (n : DomainName) (e : ℕ)
        → (name_at b i ≡ Some (n, e)) ↔ NameAt b i n e }
{}

/// At most one name is spelled at a place of a message, and its own octets end in only one way.
pub fn place_spells_one_name()
    ensures { (b : Octets) (i : ℕ) (n m : DomainName) (e f : ℕ) → NameAt b i n e → NameAt b i m f
        → (n ≡ m) × (e ≡ f) }
{}

/// A datagram that ends with a question directly after its header has at most 271 octets: 12 for
/// the header, 255 for the name, and 4 for QTYPE and QCLASS (RFC 1035 4.1.2).
pub fn question_ends_by_octet_271()
    ensures { (d : Octets) (q : MessageQuestion) → question_at d ≡ Some q → length d ≤ 271 }
{}

/// Octets have at most one first fault.
pub fn message_has_one_fault()
    ensures { (b : Octets) (f g : ℕ) → MessageFault b f → MessageFault b g → f ≡ g }
{}
