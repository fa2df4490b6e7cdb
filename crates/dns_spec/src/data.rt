//! Laws of types and their data: a type's text names it, and the parts of data join to that data.
//! Valid data stays valid in lower case, and the words written for it spell it in lower case.

ghost use Rattle.std.specs.Prelude.{◌≡◌, ℕ, ◌<◌, List, All, IsTrue};
ghost use Rattle.std.specs.List.{list_all};
ghost use Rattle.dns_spec.specs.Names.{Octets, DomainName};
ghost use Rattle.dns_spec.specs.Data.{Valid, parts, joined, lower_case};
ghost use Rattle.dns_spec.specs.TypeText.{NamesType, type_text};
ghost use Rattle.dns_spec.specs.DataText.{Word, Says};
ghost use Rattle.dns_spec.specs.DataFaults.{DataFaultIs};
ghost use Rattle.dns_spec.specs.WrittenText.{written_words, stands_alone};

/// The text of a type of 16 bits names that type (RFC 3597 5).
pub fn type_text_names_its_type()
    ensures { (t : ℕ) → t < 65536 → NamesType (type_text t) t }
{}

/// A word names at most one type.
pub fn word_names_one_type()
    ensures { (word : Octets) (t u : ℕ) → NamesType word t → NamesType word u → t ≡ u }
{}

/// Joining the parts of data gives that data.
pub fn joined_parts_are_the_data()
    ensures { (t : ℕ) (d : Octets) → joined (parts t d) ≡ d }
{}

/// Valid data in lower case is still valid for its type.
pub fn lowered_data_is_valid()
    ensures { (t : ℕ) (d : Octets) → Valid t d → Valid t (lower_case t d) }
{}

/// Lowering valid data twice is the same as lowering it once.
pub fn lowering_twice_is_lowering_once()
    ensures { (t : ℕ) (d : Octets) → Valid t d → lower_case t (lower_case t d) ≡ lower_case t d }
{}

/// The words that are written for valid data of octets below 256 spell that data again, with its
/// names in lower case, whatever the origin (RFC 1035 5.1, RFC 3597 5).
pub fn written_data_is_said_again()
    ensures { (t : ℕ) (origin : DomainName) (d : Octets) → All (λ o. o < 256) d → Valid t d
        → Says t (written_words t d) origin (lower_case t d) }
{}

/// No word that is written for valid data of octets below 256 ends early (RFC 1035 5.1): its
/// octets are printable, an unquoted word has at least one octet, and each octet that would end
/// the word has a backslash before it.
pub fn written_words_stand_alone()
    ensures { (t : ℕ) (d : Octets) → All (λ o. o < 256) d → Valid t d
        → IsTrue (list_all stands_alone (written_words t d)) }
{}

/// As data of a type, words spell at most one sequence of octets, relative to an origin.
pub fn words_say_one_data()
    ensures { (t : ℕ) (ws : List Word) (origin : DomainName) (d e : Octets) → Says t ws origin d
        → Says t ws origin e → d ≡ e }
{}

/// Words that have a fault spell no data of the type, relative to the origin.
pub fn faulty_words_say_no_data()
    ensures { (t : ℕ) (ws : List Word) (origin : DomainName) (k : ℕ) (d : Octets)
        → DataFaultIs t ws origin k → Says t ws origin d → ⊥ }
{}

/// As data of a type, words have at most one fault, relative to an origin.
pub fn words_have_one_fault()
    ensures { (t : ℕ) (ws : List Word) (origin : DomainName) (j k : ℕ) → DataFaultIs t ws origin j
        → DataFaultIs t ws origin k → j ≡ k }
{}
