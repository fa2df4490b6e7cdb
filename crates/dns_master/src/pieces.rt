//! Reads a zone file piece by piece.
ghost use Rattle.std.specs.Prelude.{◌≡◌, ◌≢◌, ◌+◌, ◌-◌, ◌^◌, ◌<◌, ◌≤◌, ◌++◌, ◌⊎◌, [], length, IfOk, IfErr, OnOk, None};
ghost use Rattle.dns_spec.specs.Meaning.{fault_at};
ghost use Rattle.dns_master.specs.Codes.{OfEntry, OfFile, failures_after_read};
ghost use Rattle.dns_master.specs.PieceForm.{Knows, FrontFaulty, FrontAdded, PieceTaken, PieceFaulty, ReaderMeans, TextAdded};

use crate::earlier::Earlier;
use crate::read_fault::{ReadCode, ReadFault, entry_fault};
use crate::reader::Reader;
use crate::record_collection::RecordCollection;
use crate::source::{MOST_FILE_OCTETS, PIECE, append_piece};
use dns_name::{Name, Tally};
use dns_rdata::DataBuffers;
use std::alloc::Global;
use std::io::Read;

/// Reads a file piece by piece: keeps what the reader knows of the entries so far, and the octets
/// after these entries, with which the next entry begins.
#[derive(Drop)]
pub(crate) struct PieceReader {
    alloc: Global,
    pub(crate) reader: Reader,
    buffers: DataBuffers,
    pub(crate) held: Vec<u8>,
    /// The number of octets held after the last attempt to take entries. The next attempt waits
    /// until twice as many are held, so that an entry of many pieces is read in linear time.
    held_at_attempt: usize,
    /// The number of octets that may still be read.
    pub(crate) left: usize,
}

impl PieceReader {
    pub(crate) fn new(alloc: Global, origin: &Name) -> PieceReader
        ensures known { Knows origin.now [] result.reader }
        ensures line { result.reader.line ≡ 1 }
        ensures nothing { result.held.items ≡ [] }
        ensures all { result.left ≡ 16777216 }
    {
        let reader = Reader {
            earlier: Earlier::none(alloc, origin),
            line: 1,
        };
        PieceReader {
            alloc,
            reader,
            buffers: DataBuffers::new(alloc),
            held: Vec::new(alloc),
            left: MOST_FILE_OCTETS,
            held_at_attempt: 0,
        }
    }

    /// Reads a piece, and adds the records of the entries that are complete now. Returns false at
    /// the end of the source.
    pub(crate) fn take_piece<R: Read, C: RecordCollection>(
        &mut self,
        source: &mut Tally<R>,
        piece: &mut [u8],
        collection: &mut C,
    ) -> Result<bool, ReadFault>
        requires few_failures { source.old.failures < 2 ^ 64 - 1 }
        requires some { 0 < self.old.left }
        requires piece { length piece.old ≡ 4096 }
        requires fits { self.old.reader.line + length self.old.held.items + self.old.left
            ≤ 16777217 }
        ensures ok { IfOk result (λ more. PieceTaken (R.remaining source.old.device)
            (R.remaining source.new.device) self.old.reader self.old.held.items self.old.left
            self.new.reader self.new.held.items self.new.left more (C.records collection.old)
            (C.records collection.new)) }
        ensures fits { OnOk result (self.new.reader.line + length self.new.held.items
            + self.new.left ≤ 16777217) }
        ensures same { length piece.new ≡ length piece.old }
        ensures err { IfErr result (OfFile (PieceFaulty (R.remaining source.old.device)
            (R.remaining source.new.device) self.old.reader self.old.held.items self.old.left)) }
        ensures counted { source.new.failures ≡ failures_after_read source.old.failures result }
    {
        let asked = PIECE.min(self.left);
        let before = self.held.len();
        let more = match append_piece(source, asked, piece, &mut self.held) {
            Ok(more) => more,
            Err(fault) => return Err(fault),
        };
        self.left -= self.held.len() - before;
        if self.held.len() / 2 >= self.held_at_attempt {
            self.take_front(collection)?;
        }
        Ok(more)
    }

    // Adds the records of the complete entries in the held octets.
    fn take_front<C: RecordCollection>(&mut self, collection: &mut C) -> Result<(), ReadFault>
        requires fits { self.old.reader.line + length self.old.held.items ≤ 16777217 }
        ensures ok { OnOk result (FrontAdded None self.old.reader self.old.held.items
            self.new.reader self.new.held.items (C.records collection.old)
            (C.records collection.new)) }
        ensures left { self.new.left ≡ self.old.left }
        ensures fits { OnOk result (self.new.reader.line + length self.new.held.items
            ≤ self.old.reader.line + length self.old.held.items) }
        ensures err { IfErr result (OfEntry
            (FrontFaulty None self.old.reader self.old.held.items)) }
    {
        let rest = take_entries(
            self.alloc,
            &mut self.reader,
            &mut self.buffers,
            self.held.as_slice(),
            None,
            collection,
        )?;
        if rest.len() < self.held.len() {
            let mut kept = Vec::new(self.alloc);
            kept.extend_from_slice(rest)?;
            self.held = kept;
        }
        self.held_at_attempt = self.held.len();
        Ok(())
    }

    /// Adds the records of the held octets, which are the last ones of the file or, if `goes_on` is
    /// true, the last ones before the limit of its size. If the file goes on, fails with the fault
    /// of an entry before the limit, or else with `TooLong`.
    pub(crate) fn finish<C: RecordCollection>(
        self,
        goes_on: bool,
        collection: &mut C,
    ) -> Result<(), ReadFault>
        requires fits { self.reader.line + length self.held.items ≤ 16777217 }
        ensures ok { OnOk result (TextAdded self.reader goes_on self.held.items
            (C.records collection.old) (C.records collection.new)) }
        ensures err { IfErr result (OfEntry (λ fault line.
            ReaderMeans self.reader goes_on self.held.items (fault_at fault line))) }
    {
        let mut reading = self;
        take_entries(
            reading.alloc,
            &mut reading.reader,
            &mut reading.buffers,
            reading.held.as_slice(),
            Some(goes_on),
            collection,
        )?;
        if goes_on {
            return Err(entry_fault(ReadCode::TooLong, reading.reader.line));
        }
        Ok(())
    }
}

// Adds the records of the complete entries at the front of a text, and returns the text after them.
// `goes_on` says whether the file goes on past the limit of its size; it is `None` while more
// pieces may follow.
fn take_entries<'a, C: RecordCollection>(
    alloc: Global,
    reader: &mut Reader,
    buffers: &mut DataBuffers,
    text: &'a [u8],
    goes_on: Option<bool>,
    collection: &mut C,
) -> Result<&'a [u8], ReadFault>
    requires fits { reader.old.line + length text.now ≤ 16777217 }
    ensures ok { IfOk result (λ rest. FrontAdded goes_on reader.old text.now reader.new rest.now
        (C.records collection.old) (C.records collection.new)) }
    ensures lines { IfOk result (λ rest. reader.new.line + length rest.now
        ≤ reader.old.line + length text.now) }
    ensures same { IfOk result (λ rest. length text.now ≤ length rest.now
        → rest.now ≡ text.now) }
    ensures all { IfOk result (λ rest. goes_on ≢ None → rest.now ≡ []) }
    ensures err { IfErr result (OfEntry (FrontFaulty goes_on reader.old text.now)) }
{
    let mut words = Vec::new(alloc);
    let mut rest = text;
    'entries: while !rest.is_empty() {
        let line = reader.line;
        let (is_record, others) = match reader.take_entry(rest, goes_on, &mut words, buffers) {
            Ok(Some(taken)) => taken,
            Ok(None) => break,
            Err(code) => return Err(entry_fault(code, line)),
        };
        reader.earlier.add_last(is_record, collection)?;
        rest = others;
    }
    Ok(rest)
}
