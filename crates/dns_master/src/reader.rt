//! Reads zone files (RFC 1035 section 5).
ghost use Rattle.std.specs.Prelude.{◌≡◌, ◌≢◌, ◌+◌, ◌-◌, ◌^◌, ◌≤◌, ◌<◌, [], length, IfOk, IfErr, IfSome, None};
ghost use Rattle.dns_master.specs.Codes.{ForFault};
ghost use Rattle.dns_master.specs.SourceForm.{ReadsFile};
ghost use Rattle.dns_master.specs.EarlierForm.{handed};
ghost use Rattle.dns_master.specs.PieceForm.{TakesFirst, FrontFaulty};

use crate::earlier::Earlier;
use crate::entry::{MOST_WORDS, read_entry, rest_after};
use crate::pieces::PieceReader;
use crate::read_fault::{ReadCode, ReadFault};
use crate::record::Record;
use crate::record_collection::{RecordCollection, WholeRecords};
use crate::run::begins_blank;
use crate::source::{PIECE, append_piece};
use dns_name::{Name, Tally};
use dns_rdata::{DataBuffers, Word};
use std::alloc::Global;
use std::io::Read;

/// The most records that a file may have: a limit of this product (`R14`).
pub const MOST_RECORDS: usize = 100_000;

/// Reads a zone file, relative to the origin of the zone (RFC 1035 section 5).
///
/// The records are in the order of the file; owners, and names in data, are in lower case. A file
/// may have at most 100,000 records and 16,777,216 octets. At most one octet more than that is read
/// from the source.
///
/// A faulty file yields no records. The fault has the first line of the first faulty entry. Its
/// code is that of the leftmost fault with a code of `R01` to `R04` or `R15` in that entry; if it
/// has no such fault, it is the lowest code that applies to the entry. The code is `R16` if the
/// source failed, and `R17` only if allocation failed.
pub fn read_zone<R: Read>(
    alloc: Global,
    origin: &Name,
    source: &mut Tally<R>,
) -> Result<Vec<Record>, ReadFault>
    requires { source.old.failures < 2 ^ 64 - 1 }
    ensures { ReadsFile R.remaining source.old source.new origin.now (λ found. found.items) result }
{
    let mut whole = WholeRecords {
        alloc,
        records: Vec::new(alloc),
    };
    read_into(alloc, origin, source, &mut whole)?;
    Ok(whole.records)
}

/// Reads a zone file as `read_zone` does, and adds each record to the caller's collection, which
/// must be empty. After a fault the contents of the collection are unspecified.
pub fn read_into<R: Read, C: RecordCollection>(
    alloc: Global,
    origin: &Name,
    source: &mut Tally<R>,
    collection: &mut C,
) -> Result<(), ReadFault>
    requires few_failures { source.old.failures < 2 ^ 64 - 1 }
    requires nothing { C.records collection.old ≡ [] }
    ensures { ReadsFile R.remaining source.old source.new origin.now
        (λ _. C.records collection.new) result }
{
    let mut piece = [0; PIECE];
    let mut reading = PieceReader::new(alloc, origin);
    'pieces: while reading.left > 0 {
        if !reading.take_piece(source, &mut piece, collection)? {
            return reading.finish(false, collection);
        }
    }
    // One octet past the limit tells whether the file goes on.
    let mut past = Vec::new(alloc);
    match append_piece(source, 1, &mut piece, &mut past) {
        Ok(goes_on) => reading.finish(goes_on, collection),
        Err(fault) => Err(fault),
    }
}

// Reads entries one after another.
#[derive(Drop)]
pub(crate) struct Reader {
    pub(crate) earlier: Earlier,
    /// The line on which the next entry begins, counted from 1.
    pub(crate) line: u32,
}

impl Reader {
    /// Takes the first entry of a text. Returns whether the entry gives a record, which is then
    /// `earlier.last`, and the text after the entry.
    ///
    /// `goes_on` says whether the text goes on past its limit; if it is `None`, more text may
    /// follow. Takes nothing and returns `None` if only more text could decide where the entry
    /// ends.
    pub(crate) fn take_entry<'a>(
        &mut self,
        text: &'a [u8],
        goes_on: Option<bool>,
        words: &mut Vec<Word<'a>>,
        buffers: &mut DataBuffers,
    ) -> Result<Option<(bool, &'a [u8])>, ReadCode>
        requires some { text.now ≢ [] }
        requires fits { self.old.line + length text.now ≤ 16777217 }
        ensures ok { IfOk result (λ found. IfSome found (λ x. TakesFirst goes_on self.old text.now
            (handed x.0 self.new.earlier.last) self.new x.1.now)) }
        ensures none { IfOk result (λ found. found ≡ None
            → (self.new ≡ self.old) × (goes_on ≡ None)) }
        ensures err { IfErr result (λ code. ForFault code
            (λ fault. FrontFaulty goes_on self.old text.now fault self.old.line)) }
    {
        let Ok((lines, ending)) = read_entry(text, MOST_WORDS, words) else {
            return Err(ReadCode::NoMemory);
        };
        let Some(rest) = rest_after(ending, goes_on)? else {
            return Ok(None);
        };
        match self
            .earlier
            .take(begins_blank(text), words.as_slice(), buffers)
        {
            Ok(taken) => {
                self.line += lines;
                Ok(Some((taken, rest)))
            }
            Err(blame) => Err(blame.code),
        }
    }
}
