//! Laws of the text of names.

ghost use Rattle.std.specs.Prelude.{◌≡◌, ℕ, ◌<◌, ◌++◌, ◌∷◌, ◌↔◌, Some, All, IsTrue};
ghost use Rattle.dns_spec.specs.Names.{Octets, DomainName, is_name};
ghost use Rattle.dns_spec.specs.NameText.{name_text, SpellsName, SpellsOctet, escape_front};

/// The text of a valid name of octets below 256 spells that name, whatever the origin (RFC 1035
/// 5.1).
pub fn written_name_is_read_back()
    ensures { (origin n : DomainName) → All (All (λ o. o < 256)) n → IsTrue (is_name n)
        → SpellsName origin (name_text n) n }
{}

/// A word spells at most one name, relative to an origin.
pub fn word_spells_one_name()
    ensures { (origin : DomainName) (word : Octets) (n m : DomainName)
        → SpellsName origin word n → SpellsName origin word m → n ≡ m }
{}

/// For the text after a backslash, `escape_front` gives an octet and `rest` if and only if the
/// backslash and the text before `rest` are an escape that spells the octet (RFC 1035 5.1).
pub fn escape_stands_for_what_it_spells()
    ensures { (text : Octets) (x : ℕ) (rest : Octets) → (escape_front text ≡ Some (x, rest))
        ↔ ((e : Octets) × (text ≡ e ++ rest) × SpellsOctet (92 ∷ e) x) }
{}
