//! A message of up to 65,535 octets being written, with the caller's hash (RFC 1035 4.1).
ghost use Rattle.std.specs.Prelude.{◌≡◌, ◌↔◌, ℕ, ◌<◌, ◌≤◌, List, [], length, take, IsTrue, IsFalse, Option, All};
ghost use Rattle.std.specs.Option.{option_copied};
ghost use Rattle.std.specs.Bool.{OnTrue, OnFalse};
ghost use Rattle.dns_spec.specs.Names.{Octets};
ghost use Rattle.dns_spec.specs.Reading.{MessageQuestion, Spells};
ghost use Rattle.dns_spec.specs.Layout.{Item, layout, message_of, records_of};
ghost use Rattle.dns_spec.specs.LayoutSize.{size};
ghost use Rattle.dns_spec.specs.Laws.{sections_in_order, IsWritable};
ghost use Rattle.dns_spec.specs.Sharing.{Sharing};
ghost use Rattle.dns_wire.specs.PartialMessage.{IsPartial, with_set};

use crate::message::{Head, Question};
use crate::message_builder::{MessageBuilder, Section};
use crate::suffix_offsets::SuffixHash;
use dns_name::Name;
use dns_rdata::SetView;

/// Writes a message: a builder with room for the longest message, and the caller's hash, by which suffixes
/// are found.
#[derive(Drop)]
pub struct Writer<'h, H: SuffixHash> {
    hash: &'h mut H,
    builder: MessageBuilder<8192, 65535>,
}

impl<'h, H: SuffixHash> Writer<'h, H> {
    /// Begins a message of at most `limit` octets (512 to 65,535), with the question, if one is
    /// given, and without records.
    pub fn new(limit: usize, question: Option<&Question>, hash: &'h mut H) -> Writer<'h, H>
        requires from { 512 ≤ limit }
        requires upto { limit ≤ 65535 }
        ensures partial { IsPartial (H.hashes result.hash.now)
            (option_copied question.entry) [] result.builder }
        ensures limit { result.builder.limit ≡ limit }
    {
        let mut builder = MessageBuilder::new(limit);
        if let Some(question) = question {
            builder.put_question(&question.borrowed());
        }
        Writer { hash, builder }
    }

    /// Writes all records of a set into a section, with an owner and a TTL in seconds. If they
    /// would make the message exceed its limit, writes none of them and returns false.
    pub fn put_set<S: SetView>(&mut self, section: Section, owner: &Name, ttl: u32, set: &S) -> bool
        ensures fits { (q : Option MessageQuestion) (items : List Item)
            → IsPartial (H.hashes self.old.hash.now) q items self.old.builder → IsTrue result
            ↔ (size q (with_set items section owner.now ttl (S.set set.now))
            ≤ self.old.builder.limit) }
        ensures put { (q : Option MessageQuestion) (items : List Item)
            → IsPartial (H.hashes self.old.hash.now) q items self.old.builder
            → OnTrue result (IsPartial (H.hashes self.new.hash.now) q
            (with_set items section owner.now ttl (S.set set.now)) self.new.builder) }
        ensures least { (q : Option MessageQuestion) (items : List Item)
            → IsPartial (H.hashes self.old.hash.now) q items self.old.builder
            → self.old.builder.limit ≤ 16384 → IsFalse result ↔ ((z : ℕ) → Sharing q
            (with_set items section owner.now ttl (S.set set.now)) z → self.old.builder.limit < z) }
        ensures unchanged { OnFalse result (self.new.builder ≡ self.old.builder) }
        ensures limit { self.new.builder.limit ≡ self.old.builder.limit }
        ensures same { H.hashes self.new.hash.now ≡ H.hashes self.old.hash.now }
    {
        self.builder
            .put_set(self.hash, section, &owner.borrowed(), ttl, set)
    }

    /// Copies the message, with its header and counts, to the front of `out` and returns its
    /// length in octets.
    ///
    /// Condition: `out` is at least as long as the message's limit.
    pub fn finish(self, head: Head, out: &mut [u8]) -> usize
        requires { self.builder.limit ≤ length out.old }
        ensures length { (h : Octets → ℕ) (q : Option MessageQuestion) (items : List Item)
            → IsPartial h q items self.entry.builder → result ≡ size q items }
        ensures layout { (h : Octets → ℕ) (q : Option MessageQuestion) (items : List Item)
            → IsPartial h q items self.entry.builder → take result out.new ≡ layout head q items }
        ensures spelled { (h : Octets → ℕ) (q : Option MessageQuestion) (items : List Item)
            → IsPartial h q items self.entry.builder → IsTrue (sections_in_order items)
            → All IsWritable (records_of items)
            → Spells (take result out.new) (message_of head q items) }
    {
        let mut builder = self.builder;
        builder.finish(head);
        let message = builder.octets();
        let (front, _) = out.split_at_mut(message.len());
        front.copy_from_slice(message);
        message.len()
    }
}
