//! A message being written: a question, and sets in their sections, within a limit (RFC 1035 4.1).
ghost use Rattle.std.specs.Prelude.{◌≡◌, ◌↔◌, ◌+◌, ◌<◌, ◌≤◌, ◌^◌, List, [], ◌++◌, ℕ, ◌*◌, length, take, drop, min, IsTrue, IsFalse, IfSome, Option, Some, All};
ghost use Rattle.std.specs.Bool.{OnTrue, OnFalse};
ghost use Rattle.dns_spec.specs.Names.{Octets, DomainName, wire, is_name};
ghost use Rattle.dns_spec.specs.Data.{Valid, class_in, compresses};
ghost use Rattle.dns_spec.specs.Reading.{MessageQuestion, Spells};
ghost use Rattle.dns_spec.specs.Layout.{Item, Placed, layout, header_octets, message_of, octets16, octets32, pointer, record_laid, records_of};
ghost use Rattle.dns_spec.specs.LayoutSize.{size};
ghost use Rattle.dns_spec.specs.Laws.{sections_in_order, IsWritable};
ghost use Rattle.dns_spec.specs.Sharing.{Sharing};
ghost use Rattle.dns_wire.specs.Writing.{IsAsked, IsForm, IsLaid, IsLaidAs, form_again, end_octets, shown, octets_laid, name_laid, shown_form, parts_laid, tail_laid};
ghost use Rattle.dns_wire.specs.PartialMessage.{with_counted, with_octets, HasNames, Writes, WritesAfter};

use crate::message::{CLASS_IN, Counts, HEADER_OCTETS, Head, QuestionRef};
use crate::suffix_offsets::{SuffixHash, SuffixOffsets};
use crate::suffixes::{LAST_OFFSET, NameForm, keep_suffixes, offset_before, shared_suffix};
use arrayvec::ArrayVec;
use byteorder::{BigEndian, ByteOrder};
use dns_name::NameRef;
use dns_rdata::{Field, Part, RType, SetView, first_part};
use std::marker::Model;

/// The sections of a message after its question (RFC 1035 4.1).
#[derive(Clone, Copy, Debug, PartialEq, Eq)]
pub enum Section {
    /// The answer section: records that answer the question.
    Answer,
    /// The authority section: records that point to an authority.
    Authority,
    /// The additional section: records that help with using those of the other sections.
    Additional,
}

/// A message being written. It stores everything inline, without allocating: up to `N` offsets of
/// name suffixes, and `SIZE` octets.
#[derive(Drop)]
pub struct MessageBuilder<const N: usize, const SIZE: usize> {
    octets: ArrayVec<u8, SIZE>,
    // The offsets of the suffixes of names after the question, which later names may point to.
    offsets: SuffixOffsets<N>,
    limit: usize,
    // The offset where the question's name ends; without a question, the offset where the header
    // ends. `offsets` has none of the suffixes of that name, since `offset_before` computes them.
    asked_end: usize,
    counts: Counts,
}

impl<const N: usize, const SIZE: usize> Model for MessageBuilder<N, SIZE> {
    ghost use Rattle.dns_wire.specs.PartialMessage.{PartialMessage, partial_of, IsWellKept};

    ghost Value = { PartialMessage };

    ghost view = { λ p. partial_of p.limit p.octets.items p.asked_end p.offsets p.counts };

    ghost invariant = { λ p. IsWellKept N SIZE
        (partial_of p.limit p.octets.items p.asked_end p.offsets p.counts) };
}

impl<const N: usize, const SIZE: usize> MessageBuilder<N, SIZE> {
    ghost use Rattle.dns_wire.specs.PartialMessage.{IsPartial, empty_message, with_set};

    /// A builder with an empty message of at most `limit` octets, 512 to 65,535.
    ///
    /// Conditions: `SIZE` is at least `limit`. `N` is at least half of `SIZE`, but never more than
    /// 8,192, which always suffices: a pointer reaches 16,384 octets, and a label takes at least
    /// two.
    pub fn new(limit: usize) -> MessageBuilder<N, SIZE>
        requires from { 512 ≤ limit }
        requires upto { limit ≤ 65535 }
        requires octets { limit ≤ SIZE }
        requires offsets { min SIZE 16384 ≤ 2 * N }
        requires most { N ≤ 8192 }
        ensures { result ≡ empty_message limit }
    {
        let mut octets = ArrayVec::new();
        extend(&mut octets, &[0; HEADER_OCTETS]);
        MessageBuilder {
            octets,
            offsets: SuffixOffsets::new(),
            limit,
            asked_end: HEADER_OCTETS,
            counts: Counts::default(),
        }
    }

    /// Empties the builder for a new message. The time that this takes depends on what was written,
    /// not on the size of the builder.
    pub fn clear(&mut self)
        ensures { self.new ≡ empty_message self.old.limit }
    {
        self.octets.truncate(0);
        extend(&mut self.octets, &[0; HEADER_OCTETS]);
        self.offsets.take_back(0);
        self.asked_end = HEADER_OCTETS;
        self.counts = Counts::default();
    }

    /// Writes the question that a reply repeats.
    ///
    /// Condition: the message is empty.
    pub fn put_question(&mut self, question: &QuestionRef<'_>)
        requires { self.old ≡ empty_message self.old.limit }
        ensures partial { (h : Octets → ℕ) → IsPartial h (Some question.now) [] self.new }
        ensures limit { self.new.limit ≡ self.old.limit }
    {
        extend(&mut self.octets, question.name.octets());
        self.asked_end = self.octets.len();
        extend(&mut self.octets, &question.qtype.to_be_bytes());
        extend(&mut self.octets, &question.qclass.to_be_bytes());
        self.counts.questions = 1;
    }

    /// Writes all records of a set into a section, with a borrowed owner and a TTL in seconds. If
    /// they would make the message exceed its limit, writes none of them and returns false.
    pub fn put_set<H: SuffixHash, S: SetView>(
        &mut self,
        hash: &mut H,
        section: Section,
        owner: &NameRef<'_>,
        ttl: u32,
        set: &S,
    ) -> bool
        ensures fits { (q : Option MessageQuestion) (items : List Item)
            → IsPartial (H.hashes hash.old) q items self.old → IsTrue result
            ↔ (size q (with_set items section owner.now ttl (S.set set.now)) ≤ self.old.limit) }
        ensures put { (q : Option MessageQuestion) (items : List Item) → IsPartial
            (H.hashes hash.old) q items self.old → OnTrue result (IsPartial (H.hashes hash.old) q
            (with_set items section owner.now ttl (S.set set.now)) self.new) }
        ensures least { (q : Option MessageQuestion) (items : List Item)
            → IsPartial (H.hashes hash.old) q items self.old → self.old.limit ≤ 16384
            → IsFalse result ↔ ((z : ℕ) → Sharing q
            (with_set items section owner.now ttl (S.set set.now)) z → self.old.limit < z) }
        ensures unchanged { OnFalse result (self.new ≡ self.old) }
        ensures limit { self.new.limit ≡ self.old.limit }
        ensures same { H.hashes hash.new ≡ H.hashes hash.old }
    {
        let (octets, offsets) = (self.octets.len(), self.offsets.len());
        // Each record has at least 10 octets after its owner.
        if (self.limit - octets) / 10 < set.len() {
            return false;
        }
        let (rtype, form) = (set.rtype(), &mut NameForm::default());
        let shares = rtype.compresses();
        'records: for i in 0..set.len() {
            let (first, rdata) = (i == 0, set.rdata(i));
            if !self.put_record(hash, owner, first, octets, form, rtype, shares, ttl, rdata) {
                self.octets.truncate(octets);
                self.offsets.take_back(offsets);
                return false;
            }
        }
        count_records(&mut self.counts, section, set.len() as u16);
        true
    }

    /// Completes the message with its header and counts.
    pub fn finish(&mut self, head: Head)
        ensures layout { (h : Octets → ℕ) (q : Option MessageQuestion) (items : List Item)
            → IsPartial h q items self.old → self.new.octets ≡ layout head q items }
        ensures spelled { (h : Octets → ℕ) (q : Option MessageQuestion) (items : List Item)
            → IsPartial h q items self.old
            → IsTrue (sections_in_order items) → All IsWritable (records_of items)
            → Spells self.new.octets (message_of head q items) }
        ensures fits { length self.new.octets ≤ self.old.limit }
        ensures limit { self.new.limit ≡ self.old.limit }
    {
        put_header(self.octets.as_mut_slice(), &head, &self.counts);
    }

    /// The octets written so far.
    pub fn octets(&self) -> &[u8]
        ensures { result.now ≡ self.now.octets }
    {
        self.octets.as_slice()
    }

    // Writes a record of class IN, of a set whose first record begins at offset `start`. Returns
    // false if the record does not fit; a part of it may then have been written. `form` says how
    // the owner of the set's first record is laid out: the first record sets it, and the others use
    // it.
    fn put_record<H: SuffixHash>(
        &mut self,
        hash: &mut H,
        owner: &NameRef<'_>,
        first: bool,
        start: usize,
        form: &mut NameForm,
        rtype: RType,
        shares: bool,
        ttl: u32,
        rdata: &[u8],
    ) -> bool
        requires valid { Valid rtype.0 rdata.now }
        requires shares { shares ≡ compresses rtype.0 }
        requires form { IsForm (wire owner.now) (shown_form form.old) }
        requires start { start ≤ length self.old.octets }
        ensures writes { WritesAfter
            (IsLaidAs owner.now first (form_again start (shown_form form.old)))
            (H.hashes hash.old) (H.hashes hash.new) self.old self.new
            (λ ms p. record_laid ms p (shown owner.now rtype.0 ttl rdata.now)) result }
        ensures longer { OnTrue result
            (length self.old.octets + 10 ≤ length self.new.octets) }
        ensures form { IsForm (wire owner.now) (shown_form form.new) }
        ensures first { IsTrue first → OnTrue result ((ms : List Placed)
            → HasNames self.old (H.hashes hash.old) ms
            → IsLaid ms owner.now (shown_form form.new)) }
        ensures others { IsFalse first → form.new ≡ form.old }
    {
        if !self.put_owner(hash, owner, first, start, form) {
            return false;
        }
        if shares {
            self.put_shared_tail(hash, rtype, ttl, rdata)
        } else {
            self.append(&record_numbers(rtype, ttl, rdata.len() as u16), rdata)
        }
    }

    // Writes what follows the owner, for a record whose data may have compressed names. The data's
    // length is known only after the data is written. It then goes into the last two of the 10
    // octets before the data.
    fn put_shared_tail<H: SuffixHash>(
        &mut self,
        hash: &mut H,
        rtype: RType,
        ttl: u32,
        rdata: &[u8],
    ) -> bool
        requires valid { Valid rtype.0 rdata.now }
        requires shared { IsTrue (compresses rtype.0) }
        ensures writes { Writes (H.hashes hash.old) (H.hashes hash.new) self.old self.new
            (tail_laid rtype.0 ttl rdata.now) result }
        ensures longer { OnTrue result
            (length self.old.octets + 10 ≤ length self.new.octets) }
    {
        let at = self.octets.len();
        if !self.append(&[], &record_numbers(rtype, ttl, 0)) {
            return false;
        }
        if !self.put_data(hash, rtype, rdata) {
            return false;
        }
        let length = (self.octets.len() - at - 10) as u16;
        let (_, end) = self.octets.as_mut_slice().split_at_mut(at + 8);
        BigEndian::write_u16(end, length);
        true
    }

    // Writes data that may have compressed names: for MX a preference and the name of an exchange
    // (RFC 1035 3.3.9), for SOA the names of a server and of a mailbox and five numbers of 32 bits
    // (3.3.13), for other types one name. Returns false if the data does not fit; a part of it may
    // then have been written.
    fn put_data<H: SuffixHash>(&mut self, hash: &mut H, rtype: RType, rdata: &[u8]) -> bool
        requires valid { Valid rtype.0 rdata.now }
        requires shared { IsTrue (compresses rtype.0) }
        ensures { Writes (H.hashes hash.old) (H.hashes hash.new) self.old self.new
            (parts_laid rtype.0 rdata.now) result }
    {
        if rtype == RType::MX {
            let (preference, exchange) = rdata.split_at(2);
            return self.append(&[], preference) && self.put_name(hash, exchange);
        }
        if rtype == RType::SOA {
            let Some((part, rest)) = first_part(Field::Domain, rdata) else {
                unreachable!();
            };
            let Part::Name(server) = part else {
                unreachable!();
            };
            let (mailbox, numbers) = rest.split_at(rest.len() - 20);
            if !self.put_name(hash, server) {
                return false;
            }
            return self.put_name(hash, mailbox) && self.append(&[], numbers);
        }
        self.put_name(hash, rdata)
    }

    // Writes the owner of a record. In the first record of a set, its longest suffix that a pointer
    // may replace is looked up. Each other record gets a pointer to the first record's owner, or
    // the same octets as that: a pointer, the root, or a name beyond the reach of pointers.
    // Inlining saves about 50 instructions per record.
    #[inline(always)]
    fn put_owner<H: SuffixHash>(
        &mut self,
        hash: &mut H,
        owner: &NameRef<'_>,
        first: bool,
        start: usize,
        form: &mut NameForm,
    ) -> bool
        requires form { IsForm (wire owner.now) (shown_form form.old) }
        requires start { start ≤ length self.old.octets }
        ensures writes { WritesAfter
            (IsLaidAs owner.now first (form_again start (shown_form form.old)))
            (H.hashes hash.old) (H.hashes hash.new) self.old self.new
            (name_laid owner.now) result }
        ensures form { IsForm (wire owner.now) (shown_form form.new) }
        ensures first { IsTrue first → OnTrue result ((ms : List Placed)
            → HasNames self.old (H.hashes hash.old) ms
            → IsLaid ms owner.now (shown_form form.new)) }
        ensures others { IsFalse first → form.new ≡ form.old }
    {
        let name = owner.octets();
        if !first {
            let NameForm { front, pointer } = *form;
            if front > 0 && start <= LAST_OFFSET {
                return self.append_end(&[], Some(start as u16));
            }
            let (labels, _) = name.split_at(front);
            return self.append_end(labels, pointer);
        }
        // Most owners are the question's name or a suffix of it.
        let Some(offset) = offset_before(self.octets.as_slice(), self.asked_end, name) else {
            return self.lay_name(hash, name, form);
        };
        let pointer = Some(offset);
        *form = NameForm { front: 0, pointer };
        self.append_end(&[], pointer)
    }

    // Writes a name in data.
    fn put_name<H: SuffixHash>(&mut self, hash: &mut H, name: &[u8]) -> bool
        ensures { (n : DomainName) → name.now ≡ wire n → IsTrue (is_name n)
            → Writes (H.hashes hash.old) (H.hashes hash.new) self.old self.new (name_laid n)
            result }
    {
        self.lay_name(hash, name, &mut NameForm::default())
    }

    // Writes a name, given in its wire form: the labels before its longest suffix that a pointer
    // may replace, and that pointer; or the whole name, if there is no such suffix. If they do not
    // fit, writes nothing and returns false. `form` becomes the name's layout.
    #[inline(never)]
    fn lay_name<H: SuffixHash>(&mut self, hash: &mut H, name: &[u8], form: &mut NameForm) -> bool
        requires { IsForm name.now (shown_form form.old) }
        ensures writes { (n : DomainName) → name.now ≡ wire n → IsTrue (is_name n)
            → Writes (H.hashes hash.old) (H.hashes hash.new) self.old self.new (name_laid n)
            result }
        ensures form { IsForm name.now (shown_form form.new) }
        ensures laid { OnTrue result ((ms : List Placed) (n : DomainName)
            → HasNames self.old (H.hashes hash.old) ms → name.now ≡ wire n → IsTrue (is_name n)
            → IsLaid ms n (shown_form form.new)) }
    {
        let message = self.octets.as_slice();
        let at = self.octets.len();
        let room = self.limit - at;
        let found = shared_suffix(&self.offsets, message, hash, name, self.asked_end, room);
        let Some(laid) = found else {
            return false;
        };
        let (labels, _) = name.split_at(laid.front);
        if !self.append_end(labels, laid.pointer) {
            return false;
        }
        keep_suffixes(&mut self.offsets, hash, name, laid.front, at);
        *form = laid;
        true
    }

    // Appends the labels at the front of a name, and its end: a pointer to the offset `pointer`
    // (RFC 1035 4.1.4) or, if that is `None`, the root's length. If they do not fit the limit,
    // appends nothing and returns false.
    fn append_end(&mut self, labels: &[u8], pointer: Option<u16>) -> bool
        requires { IfSome pointer (λ p. p < 16384) }
        ensures fits { IsTrue result ↔ (length self.old.octets
            + (length labels.now + length (end_octets pointer)) ≤ self.old.limit) }
        ensures put { OnTrue result
            (self.new ≡ with_octets self.old (labels.now ++ end_octets pointer)) }
        ensures unchanged { OnFalse result (self.new ≡ self.old) }
        ensures asked { IsAsked self.old.octets self.old.asked_end }
    {
        match pointer {
            Some(offset) => self.append(labels, &(0xc000 + offset).to_be_bytes()),
            None => self.append(labels, &[0]),
        }
    }

    // Appends two runs of octets. If they do not fit the limit, appends nothing and returns false.
    fn append(&mut self, front: &[u8], end: &[u8]) -> bool
        ensures fits { IsTrue result ↔ (length self.old.octets
            + (length front.now + length end.now) ≤ self.old.limit) }
        ensures put { OnTrue result (self.new ≡ with_octets self.old (front.now ++ end.now)) }
        ensures unchanged { OnFalse result (self.new ≡ self.old) }
        ensures writes { (head : Octets → ℕ) → Writes head head self.old self.new
            (octets_laid (front.now ++ end.now)) result }
        ensures asked { IsAsked self.old.octets self.old.asked_end }
    {
        let room = self.limit - self.octets.len();
        if room < front.len() || room - front.len() < end.len() {
            return false;
        }
        extend(&mut self.octets, front);
        extend(&mut self.octets, end);
        true
    }
}

// Appends octets; there has to be room for them. Skipping the copy of an empty run saves about 34
// instructions of a short reply, and 1,216 of a reply with 64 addresses.
fn extend<const SIZE: usize>(octets: &mut ArrayVec<u8, SIZE>, more: &[u8])
    requires { length octets.old.items + length more.now ≤ SIZE }
    ensures { octets.new.items ≡ octets.old.items ++ more.now }
{
    if !more.is_empty() && octets.try_extend_from_slice(more).is_err() {
        unreachable!();
    }
}

fn count_records(counts: &mut Counts, section: Section, count: u16)
    requires { counts.old.answers + counts.old.authorities + counts.old.additionals + count
        < 2 ^ 16 }
    ensures { counts.new ≡ with_counted counts.old section count }
{
    match section {
        Section::Answer => counts.answers += count,
        Section::Authority => counts.authorities += count,
        Section::Additional => counts.additionals += count,
    }
}

fn put_header(out: &mut [u8], head: &Head, counts: &Counts)
    requires { 12 ≤ length out.old }
    ensures octets { out.new ≡ header_octets head.now counts.now.questions counts.now.answers
        counts.now.authorities counts.now.additionals ++ drop 12 out.old }
    ensures id { head.now.id < 2 ^ 16 }
    ensures flags { head.now.flags < 2 ^ 16 }
{
    let Head { id, flags } = *head;
    BigEndian::write_u16(out, id);
    BigEndian::write_u16(&mut out[2..], flags);
    BigEndian::write_u16(&mut out[4..], counts.questions);
    BigEndian::write_u16(&mut out[6..], counts.answers);
    BigEndian::write_u16(&mut out[8..], counts.authorities);
    BigEndian::write_u16(&mut out[10..], counts.additionals);
}

// Type, class IN, TTL and data length of a record (RFC 1035 4.1.3).
fn record_numbers(rtype: RType, ttl: u32, length: u16) -> [u8; 10]
    ensures { result ≡ octets16 rtype.0 ++ octets16 class_in ++ octets32 ttl ++ octets16 length }
{
    let mut octets = [0; 10];
    BigEndian::write_u16(&mut octets, rtype.0);
    BigEndian::write_u16(&mut octets[2..], CLASS_IN);
    BigEndian::write_u32(&mut octets[4..], ttl);
    BigEndian::write_u16(&mut octets[8..], length);
    octets
}
