//! Single words of an entry.
ghost use Rattle.std.specs.Prelude.{◌≡◌, ◌↔◌, ◌≤◌, ℕ, Some};
ghost use Rattle.std.specs.Option.{ForSome};
ghost use Rattle.dns_spec.specs.Meaning.{TtlSays, is_word};
ghost use Rattle.dns_spec.specs.TypeText.{text_in_lower_case};

use dns_rdata::{Word, read_number};

// The greatest TTL (RFC 2181 8).
const MOST_TTL: u32 = 2_147_483_647;

/// The TTL that an unquoted word spells: seconds in decimal, without leading zeros, at most
/// 2147483647. `None` for any other word.
pub(crate) fn read_ttl(word: &Word<'_>) -> Option<u32>
    ensures value { (n : ℕ) → (result ≡ Some n) ↔ TtlSays word.now n }
    ensures short { ForSome result (λ n. n ≤ 2147483647) }
{
    if word.quoted {
        return None;
    }
    read_number(word.raw, MOST_TTL)
}

/// Whether a word is this text, apart from the case of ASCII letters.
pub(crate) fn is_word(text: &[u8], word: &[u8]) -> bool
    ensures { result ≡ is_word (text_in_lower_case text.now) word.now }
{
    word.eq_ignore_ascii_case(text)
}
