//! Laws of replies: the octets of a reply spell its message, and of all sets for the question the
//! reply keeps the longest prefix that fits.

ghost use Rattle.std.specs.Prelude.{◌≡◌, ℕ, List, [], ◌++◌, ◌+◌, ◌*◌, ◌<◌, ◌≤◌, All, IsTrue, Option, Some, length, take};
ghost use Rattle.dns_spec.specs.Names.{Octets, DomainName, folded, is_name};
ghost use Rattle.dns_spec.specs.Records.{ResourceRecord, ZoneContents};
ghost use Rattle.dns_spec.specs.Checks.{most_of_a_set, Passes};
ghost use Rattle.dns_spec.specs.Reading.{MessageQuestion, Spells};
ghost use Rattle.dns_spec.specs.Answer.{most_aliases, chain, outcome, targets, items, required_items, most_visits, names_looked_up};
ghost use Rattle.dns_spec.specs.Layout.{Item, layout};
ghost use Rattle.dns_spec.specs.LayoutSize.{size};
ghost use Rattle.dns_spec.specs.Reply.{Reply, kept, fitting, reply, reply_with, reply_octets, octets_of, reply_message};
ghost use Rattle.dns_spec.specs.Query.{most_over_udp, query_read};
ghost use Rattle.dns_spec.specs.Laws.{IsWritable, IsSetAt};

/// The octets of a reply spell its message, for every zone whose records fit a message
/// (`IsWritable`), every datagram of octets below 256 and every limit from 271 to 65,535 octets
/// (RFC 1035 4.1).
pub fn reply_is_spelled()
    ensures { (z : ZoneContents) (d : Octets) (limit : ℕ) (r : Reply) → All IsWritable z.records
        → All (λ o. o < 256) d
        → 271 ≤ limit → limit ≤ 65535
        → reply z d limit ≡ Some r → Spells (reply_octets r) (reply_message r) }
{}

/// A reply has at most `limit` octets if `limit` is at least 271, so that the header and any
/// question fit.
pub fn reply_is_within_its_limit()
    ensures { (z : ZoneContents) (d : Octets) (limit : ℕ) (r : Reply) → 271 ≤ limit
        → reply z d limit ≡ Some r → length (reply_octets r) ≤ limit }
{}

/// At most 17 names are sought for a question: the QNAME, and the targets of at most 16 aliases (a
/// limit of this project).
pub fn chains_have_few_names()
    ensures { (z : ZoneContents) (q : DomainName) (t : ℕ)
        → length (chain z q t) ≤ 1 + most_aliases }
{}

/// The list of all sets for a question begins with the required sets. TC is set if one of the
/// required sets is missing (RFC 1035 4.1.1).
pub fn items_begin_with_the_required()
    ensures { (z : ZoneContents) (q : DomainName) (t : ℕ)
        → take (length (required_items z q t)) (items z q t) ≡ required_items z q t }
{}

/// Each set for a question consists of the records of one RRset at one owner, with one TTL (RFC
/// 2181 section 5), provided that the zone passes and that its origin and owners are in lower case,
/// as they are if read from a file.
pub fn items_are_record_sets()
    ensures { (z : ZoneContents) → folded z.origin ≡ z.origin
        → All (λ (r : ResourceRecord). folded r.owner ≡ r.owner) z.records → Passes z
        → (q : DomainName) (t : ℕ) → All (λ (i : Item). IsSetAt i.records) (items z q t) }
{}

/// An answer has at most 64 targets, provided that the zone passes and that its origin and owners
/// are in lower case: all targets are in one set, and a set has at most 64 records (a limit of this
/// project).
pub fn answers_have_few_targets()
    ensures { (z : ZoneContents) → folded z.origin ≡ z.origin
        → All (λ (r : ResourceRecord). folded r.owner ≡ r.owner) z.records → Passes z
        → (q : DomainName) (t : ℕ) → length (targets (outcome z q t)) ≤ most_of_a_set }
{}

/// Under the same conditions, an answer has at most 146 sets: a CNAME set for each of 17 names; one
/// set with the records asked for, the servers of a referral, or the SOA; and two address sets for
/// each of 64 targets.
pub fn answers_have_few_sets()
    ensures { (z : ZoneContents) → folded z.origin ≡ z.origin
        → All (λ (r : ResourceRecord). folded r.owner ≡ r.owner) z.records → Passes z
        → (q : DomainName) (t : ℕ) → length (items z q t) ≤ 2 + most_aliases + 2 * most_of_a_set }
{}

/// An answer to a question with a valid name visits at most 128 nodes for each name that it looks
/// up: the origin, and one node for each label below the origin, of which a name has at most 127
/// (RFC 1035 2.3.4).
pub fn answers_visit_few_nodes()
    ensures { (z : ZoneContents) (q : DomainName) (t : ℕ) → IsTrue (is_name q)
        → most_visits z q t ≤ 128 * names_looked_up z q t }
{}

/// The kept sets fit the limit, provided that a reply without sets fits it.
pub fn kept_sets_fit()
    ensures { (size_of : List Item → ℕ) (limit : ℕ) (sets : List Item) → size_of [] ≤ limit
        → size_of (kept size_of limit sets) ≤ limit }
{}

/// No prefix of the list that fits the limit has more sets than are kept.
pub fn kept_sets_are_the_most()
    ensures { (size_of : List Item → ℕ) (limit : ℕ) (sets : List Item) (k : ℕ) → k ≤ length sets
        → size_of (take k sets) ≤ limit
        → k ≤ length (kept size_of limit sets) }
{}

/// Appending sets never makes the layout smaller.
pub fn size_grows_with_each_set()
    ensures { (q : Option MessageQuestion) (front more : List Item)
        → size q front ≤ size q (front ++ more) }
{}

/// So stopping before the first set that does not fit gives the longest prefix that fits.
pub fn kept_sets_stop_at_the_first_that_does_not_fit()
    ensures { (q : Option MessageQuestion) (limit : ℕ) (sets : List Item)
        → kept (size q) limit sets ≡ fitting (size q) limit [] sets }
{}

/// How a datagram is read as a query depends only on its first 512 octets, since a query with a
/// question has at most 271 octets.
pub fn first_octets_are_read()
    ensures { (d : Octets) → query_read d ≡ query_read (take most_over_udp d) }
{}

/// The reply depends only on the first 512 octets of the datagram, however the sets to keep are
/// chosen.
pub fn first_octets_decide()
    ensures { (z : ZoneContents) (keep : MessageQuestion → List Item) (d : Octets)
        → reply_with keep z d ≡ reply_with keep z (take most_over_udp d) }
{}

/// The header, the question and the sets of the reply depend only on the first 512 octets of the
/// datagram, whatever the limit.
pub fn first_octets_give_the_message()
    ensures { (z : ZoneContents) (d : Octets) (limit : ℕ)
        → reply z d limit ≡ reply z (take most_over_udp d) limit }
{}

/// The octets of the reply depend only on the first 512 octets of the datagram, whatever the limit.
pub fn first_octets_give_the_octets()
    ensures { (z : ZoneContents) (d : Octets) (limit : ℕ)
        → octets_of z d limit ≡ octets_of z (take most_over_udp d) limit }
{}
