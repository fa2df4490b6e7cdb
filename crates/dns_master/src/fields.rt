//! Reads the fields between the owner and the data of a record (RFC 1035 5.1).
ghost use Rattle.std.specs.Prelude.{◌≡◌, [], ◌∷◌, drop, codes, MatchOption};
ghost use Rattle.std.specs.List.{list_any};
ghost use Rattle.std.specs.Option.{option_copied};
ghost use Rattle.dns_spec.specs.Meaning.{Nothing, TypeIs, fields, class_after, ttl_after, is_ttl_word, is_class_word, is_word, is_other_class};
ghost use Rattle.dns_master.specs.RecordForm.{NamedType};

use crate::words::is_word;
use dns_rdata::{RType, Word};
use std::marker::Model;

/// The TTL and the class of a record, each optional and in either order; and the words after them:
/// the type and the data.
#[derive(Debug, Drop)]
pub(crate) struct Fields<'a, 'w> {
    pub(crate) ttl: Option<&'a Word<'w>>,
    pub(crate) class: Option<&'a Word<'w>>,
    pub(crate) others: &'a [Word<'w>],
}

impl<'a, 'w> Model for Fields<'a, 'w> {
    ghost use Rattle.dns_spec.specs.Meaning as meaning;
    ghost use Rattle.std.specs.Option.{option_copied};

    ghost Value = { meaning.Fields };

    ghost view = { λ f. record {
      ttl = option_copied f.ttl;
      class = option_copied f.class;
      others = f.others.now;
    } };
}

impl<'a, 'w> Fields<'a, 'w> {
    /// The fields of a record, from the words after its owner: for `IN A 192.0.2.1`, no TTL, the
    /// class `IN`, and the other words `A 192.0.2.1`.
    #[inline(always)]
    pub(crate) fn of(words: &'a [Word<'w>]) -> Fields<'a, 'w>
        ensures { result ≡ fields words.now }
    {
        match words.split_first() {
            Some((first, others)) if is_ttl_word(first) => Fields::after_ttl(first, others),
            Some((first, others)) if is_class_word(first) => Fields::after_class(first, others),
            _ => Fields {
                ttl: None,
                class: None,
                others: words,
            },
        }
    }

    // The fields of a record whose TTL comes first, from the words after it.
    #[inline(always)]
    fn after_ttl(ttl: &'a Word<'w>, words: &'a [Word<'w>]) -> Fields<'a, 'w>
        ensures { result ≡ class_after ttl.now words.now }
    {
        let (class, others) = match words.split_first() {
            Some((first, others)) if is_class_word(first) => (Some(first), others),
            _ => (None, words),
        };
        let ttl = Some(ttl);
        Fields { ttl, class, others }
    }

    // The fields of a record whose class comes first, from the words after it.
    #[inline(always)]
    fn after_class(class: &'a Word<'w>, words: &'a [Word<'w>]) -> Fields<'a, 'w>
        ensures { result ≡ ttl_after class.now words.now }
    {
        let class = Some(class);
        let (ttl, others) = match words.split_first() {
            Some((first, others)) if is_ttl_word(first) => (Some(first), others),
            _ => (None, words),
        };
        Fields { ttl, class, others }
    }
}

// Whether a word is unquoted and begins with a digit, as a TTL does but no class or type.
pub(crate) fn is_ttl_word(word: &Word<'_>) -> bool
    ensures { result ≡ is_ttl_word word.now }
{
    !word.quoted && word.raw.first().is_some_and(|first| first.is_ascii_digit())
}

// Whether a word is unquoted and, in letters of either case, is the mnemonic of a class or begins
// with `CLASS`, as `CLASS1` does (RFC 1035 3.2.4, RFC 3597 5).
#[inline(always)]
pub(crate) fn is_class_word(word: &Word<'_>) -> bool
    ensures { result ≡ is_class_word word.now }
{
    let raw = word.raw;
    !word.quoted
        && (is_class_name(raw)
            || raw
                .split_at_checked(5)
                .is_some_and(|(prefix, _)| is_word(b"class", prefix)))
}

fn is_class_name(raw: &[u8]) -> bool
    ensures { result ≡ list_any (λ c. is_word c raw.now)
        (codes "in" ∷ codes "ch" ∷ codes "cs" ∷ codes "hs" ∷ []) }
{
    is_word(b"in", raw) || is_word(b"ch", raw) || is_word(b"cs", raw) || is_word(b"hs", raw)
}

// Whether a class is stated, and it is not IN, which is `CLASS1` too (RFC 3597 5).
pub(crate) fn is_other_class(stated: Option<&Word<'_>>) -> bool
    ensures { result ≡ is_other_class (option_copied stated.entry) }
{
    stated.is_some_and(|word| !(is_word(b"in", word.raw) || is_word(b"class1", word.raw)))
}

// The type that the first word names, if zones may have that type, and the words after it.
#[inline(always)]
pub(crate) fn type_and_words<'a, 'w>(words: &'a [Word<'w>]) -> Option<(RType, &'a [Word<'w>])>
    ensures { MatchOption result (Nothing (TypeIs words.now))
        (λ x. TypeIs words.now x.0.0 × (x.1.now ≡ drop 1 words.now)) }
{
    let (first, others) = words.split_first()?;
    Some((read_type(first)?, others))
}

// The type that an unquoted word names, if zones may have that type. They may not have type 0, a
// QTYPE or meta-TYPE (RFC 6895 3.1), or DNAME, DS, RRSIG, NSEC, DNSKEY, NSEC3 or NSEC3PARAM.
fn read_type(word: &Word<'_>) -> Option<RType>
    ensures { MatchOption result (Nothing (NamedType word.now)) (λ r. NamedType word.now r.0) }
{
    if word.quoted {
        return None;
    }
    let rtype = RType::read_text(word.raw)?;
    if matches!(
        rtype.0,
        0 | 128..=255 | 39 | 41 | 43 | 46 | 47 | 48 | 50 | 51
    ) {
        None
    } else {
        Some(rtype)
    }
}
