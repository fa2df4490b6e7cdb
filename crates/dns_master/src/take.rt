//! Takes entries, faulty or not, one after another (RFC 1035 5.1).
ghost use Rattle.std.specs.Prelude.{◌≡◌, ◌≤◌, ◌++◌, ◌+◌, [], ◌∷◌, List, length, IfOk, IfErr, OnOk, if◌then◌else◌};
ghost use Rattle.std.specs.Option.{option_copied, option_or};
ghost use Rattle.dns_spec.specs.TypeText.{text_in_lower_case};
ghost use Rattle.dns_spec.specs.Meaning.{directive, fields, is_directive, kind_by_words};
ghost use Rattle.dns_master.specs.EarlierForm.{LooksBack, Passes, RecordPassed, handed};
ghost use Rattle.dns_master.specs.TakeForm.{ArgumentIs, Blames, GivesKind, FieldsOwn, FieldsBlames, RecordBlames, directive_name};
ghost use Rattle.dns_spec.specs.DataText as text;

use crate::blame::{data_fault, owner_blame, record_blame};
use crate::earlier::{Blame, Earlier, RecordFault};
use crate::fields::{Fields, is_other_class, type_and_words};
use crate::read_fault::ReadCode;
use crate::reader::MOST_RECORDS;
use crate::record::Record;
use crate::record_collection::RecordCollection;
use crate::words::{is_word, read_ttl};
use dns_name::Name;
use dns_rdata::{DataBuffers, RType, Rdata, Word};
use std::alloc::{AllocError, Global};
use std::mem::replace;

impl Earlier {
    /// What is known before the first entry of a file.
    pub(crate) fn none(alloc: Global, origin: &Name) -> Earlier
        ensures { LooksBack origin.now [] result }
    {
        let none = Record {
            owner: Name::root(),
            ttl: 0,
            rtype: RType(0),
            rdata: Rdata::empty(alloc),
        };
        Earlier {
            origin: origin.copied(),
            default_ttl: None,
            stated_ttl: None,
            records_left: MOST_RECORDS + 1,
            has_owner: false,
            last: none,
        }
    }

    /// Adds the last record to the collection, if `is_record` is true.
    pub(crate) fn add_last<C: RecordCollection>(
        &self,
        is_record: bool,
        collection: &mut C,
    ) -> Result<(), AllocError>
        ensures { OnOk result (C.records collection.new
            ≡ C.records collection.old ++ handed is_record self.now.last) }
    {
        if is_record {
            collection.add(&self.last)?;
        }
        Ok(())
    }

    /// Takes an entry: its words, and whether it begins with a blank. Returns whether it gives a
    /// record, which is then `last`. It gives none if it is not a record, or inherits an invalid
    /// TTL. Its lexical faults are not examined here.
    pub(crate) fn take(
        &mut self,
        is_blank_led: bool,
        words: &[Word<'_>],
        buffers: &mut DataBuffers,
    ) -> Result<bool, Blame>
        ensures passed { Passes self.old
            (kind_by_words is_blank_led words.now) self.new }
        ensures ok { IfOk result (λ taken. GivesKind self.old
            (kind_by_words is_blank_led words.now) (handed taken self.new.last)) }
        ensures err { IfErr result (Blames self.old
            (kind_by_words is_blank_led words.now)) }
    {
        let Some((first, others)) = words.split_first() else {
            return Ok(false);
        };
        if is_blank_led {
            if !self.has_owner {
                self.pass_record(Fields::of(words).ttl);
                return Err(Blame::after(0, ReadCode::NoOwner));
            }
            return self.take_record(0, words, buffers);
        }
        if is_directive(first) {
            self.take_directive(first.raw, others)?;
            return Ok(false);
        }
        self.has_owner = self.last.spell_owner(first, &self.origin);
        if !self.has_owner {
            self.pass_record(Fields::of(others).ttl);
            return Err(owner_blame(first, &self.origin));
        }
        self.take_record(1, others, buffers)
    }

    // Takes a directive. Its first argument counts for later entries, even if there are others.
    fn take_directive(&mut self, name: &[u8], words: &[Word<'_>]) -> Result<(), Blame>
        ensures passed { Passes self.old
            (directive (text_in_lower_case name.now) words.now) self.new }
        ensures ok { OnOk result (GivesKind self.old
            (directive (text_in_lower_case name.now) words.now) []) }
        ensures err { IfErr result (Blames self.old
            (directive (text_in_lower_case name.now) words.now)) }
    {
        let is_origin = is_word(b"$origin", name);
        if !is_origin && !is_word(b"$ttl", name) {
            return Err(Blame::after(0, ReadCode::UnknownDirective));
        }
        let Some((first, others)) = words.split_first() else {
            return Err(Blame::after(0, ReadCode::DirectiveWords));
        };
        if !self.take_argument(is_origin, first) {
            return Err(Blame::after(1, ReadCode::DirectiveWords));
        }
        if !others.is_empty() {
            return Err(Blame::after(2, ReadCode::DirectiveWords));
        }
        Ok(())
    }

    // Takes the first argument of `$ORIGIN`, or else of `$TTL`, and returns whether it is valid. If
    // it is a name, even a quoted one, this is the origin from now on. A TTL, even an invalid one,
    // is the default TTL from now on.
    fn take_argument(&mut self, is_origin: bool, argument: &Word<'_>) -> bool
        ensures passed { (others : List text.Word) → Passes self.old
            (directive (directive_name is_origin) (argument.now ∷ others)) self.new }
        ensures valid { ArgumentIs self.old is_origin argument.now result }
    {
        if !is_origin {
            let ttl = read_ttl(argument);
            self.default_ttl = Some(ttl);
            return ttl.is_some();
        }
        let Ok(origin) = Name::read_text(argument.raw, &self.origin) else {
            return false;
        };
        self.origin = origin;
        !argument.quoted
    }

    // Takes a record whose owner is in `last`, from the words after its owner, which follow
    // `before` words of the entry.
    #[inline(always)]
    fn take_record(
        &mut self,
        before: usize,
        words: &[Word<'_>],
        buffers: &mut DataBuffers,
    ) -> Result<bool, Blame>
        requires before { before ≤ 1 }
        ensures passed { RecordPassed self.old (fields words.now).ttl self.new }
        ensures ok { IfOk result (λ taken. FieldsOwn self.old self.old.last.owner
            (fields words.now) (handed taken self.new.last)) }
        ensures err { IfErr result (RecordBlames self.old self.old.last.owner before
            words.now) }
    {
        match self.take_fields(words, buffers) {
            Ok(taken) => Ok(taken),
            Err(fault) => Err(record_blame(fault, before, words, buffers.words_before_fault)),
        }
    }

    // Takes a record whose owner is in `last`, from the words after its owner. If the data is
    // invalid, `buffers.words_before_fault` counts the words before the one at fault, from the type
    // on. Out of line: inlined, it would make a check of a large zone take 3 % more instructions.
    #[inline(never)]
    fn take_fields(
        &mut self,
        words: &[Word<'_>],
        buffers: &mut DataBuffers,
    ) -> Result<bool, RecordFault>
        ensures passed { RecordPassed self.old (fields words.now).ttl self.new }
        ensures ok { IfOk result (λ taken. FieldsOwn self.old self.old.last.owner
            (fields words.now) (handed taken self.new.last)) }
        ensures err { IfErr result (FieldsBlames self.old self.old.last.owner
            (fields words.now) buffers.new.words_before_fault) }
        ensures few { IfErr result (λ fault. fault.code ≡ ReadCode.BadData
            → buffers.new.words_before_fault ≤ 1 + length (fields words.now).others) }
    {
        let fields = Fields::of(words);
        self.pass_record(fields.ttl);
        let is_stated = fields.ttl.is_some();
        if is_stated && matches!(self.stated_ttl, Some(None)) {
            return Err(RecordFault::of(ReadCode::BadTtl));
        }
        if is_other_class(fields.class) {
            return Err(RecordFault::of(ReadCode::OtherClass));
        }
        let Some((rtype, words)) = type_and_words(fields.others) else {
            return Err(RecordFault::of(ReadCode::BadType));
        };
        let Some(ttl) = self.ttl_in_force(is_stated) else {
            return Err(RecordFault::of(ReadCode::NoTtl));
        };
        let rdata = match Rdata::read_words_in(buffers, rtype, words, &self.origin) {
            Ok(rdata) => rdata,
            Err(fault) => return Err(data_fault(fault)),
        };
        if self.records_left == 0 {
            return Err(RecordFault::of(ReadCode::TooManyRecords));
        }
        let Some(ttl) = ttl else {
            return Ok(false);
        };
        self.last.ttl = ttl;
        self.last.rtype = rtype;
        buffers.take_back(replace(&mut self.last.rdata, rdata));
        Ok(true)
    }

    // The TTL in force for the record that was passed last, `Some(None)` if it is invalid.
    // `is_stated` is whether the record states one.
    fn ttl_in_force(&self, is_stated: bool) -> Option<Option<u32>>
        ensures { result ≡ (if is_stated then self.now.stated_ttl
            else option_or self.now.default_ttl self.now.stated_ttl) }
    {
        if is_stated {
            return self.stated_ttl;
        }
        self.default_ttl.or(self.stated_ttl)
    }

    // Passes a record, faulty or not: counts it, and keeps the TTL that it states, if any.
    #[inline(always)]
    fn pass_record(&mut self, stated: Option<&Word<'_>>)
        ensures passed { RecordPassed self.old (option_copied stated.entry) self.new }
        ensures owner { self.new.has_owner ≡ self.old.has_owner }
        ensures last { self.new.last ≡ self.old.last }
    {
        if let Some(word) = stated {
            self.stated_ttl = Some(read_ttl(word));
        }
        self.records_left = self.records_left.saturating_sub(1);
    }
}

// Whether a word is the name of a directive.
fn is_directive(word: &Word<'_>) -> bool
    ensures { result ≡ is_directive word.now }
{
    !word.quoted && word.raw.first() == Some(&b'$')
}
