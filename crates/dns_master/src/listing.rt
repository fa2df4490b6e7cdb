//! All faults of a zone file, each with its place (RFC 1035 section 5).
ghost use Rattle.std.specs.Prelude.{◌≡◌, ◌-◌, ◌^◌, ◌<◌, ◌≤◌, ◌++◌, ◌+◌, [], ◌∷◌, List, length, IfErr, IfOk, OnOk, ◌⊎◌};
ghost use Rattle.dns_spec.specs.AllFaults as all;
ghost use Rattle.dns_master.specs.Codes.{failures_after_read, fault_of};
ghost use Rattle.dns_master.specs.ListingForm.{IsScanned, shown_fault};
ghost use Rattle.dns_master.specs.FaultListForm.{IsList, ListsText, ReadsOctets, TakesEntry};

use crate::earlier::Earlier;
use crate::entry::read_entry;
use crate::place::text_after;
use crate::read_fault::{ReadCode, ReadFault};
use crate::record_collection::RecordCollection;
use crate::scanned::{EntryFault, Judged, ScannedEntry};
use crate::source::{MOST_FILE_OCTETS, PIECE, append_piece};
use dns_name::{Name, Tally};
use dns_rdata::DataBuffers;
use std::alloc::{AllocError, Global};
use std::io::Read;

/// The most faults that are listed.
pub const MOST_LISTED: usize = 1_000;

/// The faults of a text, in order.
#[derive(Drop)]
pub struct FaultList {
    /// The first faults, at most 1,000.
    pub faults: Vec<EntryFault>,
    /// Whether there are more.
    pub has_more: bool,
}

impl FaultList {
    fn none(alloc: Global) -> FaultList
        ensures { IsList result [] }
    {
        FaultList {
            faults: Vec::new(alloc),
            has_more: false,
        }
    }

    fn add(&mut self, fault: EntryFault) -> Result<(), AllocError>
        ensures { OnOk result ((found : List all.EntryFault) → IsList self.old found
            → IsList self.new (found ++ shown_fault fault ∷ [])) }
    {
        if self.faults.len() < MOST_LISTED {
            self.faults.push(fault)?;
        } else {
            self.has_more = true;
        }
        Ok(())
    }
}

/// Reads the octets of a file, but at most 16,777,217: one octet past its limit.
///
/// Fails with `SourceFailed` if the source fails, and with `NoMemory` only if allocation fails, in
/// each case with line 0. The octets that were read are lost then.
pub fn read_octets<R: Read>(alloc: Global, source: &mut Tally<R>) -> Result<Vec<u8>, ReadFault>
    requires { source.old.failures < 2 ^ 64 - 1 }
    ensures ok { IfOk result (λ text. ReadsOctets (R.remaining source.old.device)
        (R.remaining source.new.device) text.items) }
    ensures err { IfErr result (λ f. ((f.code ≡ ReadCode.SourceFailed)
        ⊎ (f.code ≡ ReadCode.NoMemory)) × (f.line ≡ 0)) }
    ensures counted { source.new.failures ≡ failures_after_read source.old.failures result }
{
    let mut text = Vec::new(alloc);
    let mut piece = [0; PIECE];
    let mut left = MOST_FILE_OCTETS + 1;
    'pieces: while left > 0 {
        let before = text.len();
        if !append_piece(source, PIECE.min(left), &mut piece, &mut text)? {
            break;
        }
        left -= text.len() - before;
    }
    Ok(text)
}

/// Lists the faults of the text of a file (RFC 1035 section 5), and adds the records of the entries
/// without a fault to the caller's collection, in order.
///
/// Fails only if allocation fails. The collection may have some of the records then.
pub fn list_text<C: RecordCollection>(
    alloc: Global,
    origin: &Name,
    text: &[u8],
    collection: &mut C,
) -> Result<FaultList, AllocError>
    ensures { IfOk result (λ list. ListsText origin.now text.now list (C.records collection.old)
        (C.records collection.new)) }
{
    // The octets that are examined, and the octet after them, if there is one.
    let (octets, past) = text.split_at(text.len().min(MOST_FILE_OCTETS));
    let (past, _) = past.split_at(past.len().min(1));
    let mut listing = Listing {
        list: FaultList::none(alloc),
        earlier: Earlier::none(alloc, origin),
    };
    let (mut buffers, mut words) = (DataBuffers::new(alloc), Vec::new(alloc));
    let mut rest = octets;
    // Only the last entry may be empty, so there are at most this many.
    let mut left = octets.len() + 1;
    'entries: while left > 0 {
        left -= 1;
        let (_, ending) = read_entry(rest, usize::MAX, &mut words)?;
        let entry = ScannedEntry {
            octets,
            past,
            rest,
            words: words.as_slice(),
            ending,
        };
        if !listing.take(&entry, &mut buffers, collection)? {
            return Ok(listing.list);
        }
        match text_after(ending) {
            Some(after) => rest = after,
            None => return Ok(listing.list),
        }
    }
    Ok(listing.list)
}

// The faults so far, and what later entries need of the entries so far.
#[derive(Drop)]
struct Listing {
    list: FaultList,
    earlier: Earlier,
}

impl Listing {
    // Takes an entry: adds its fault to the list or, if it gives a record, this to the collection.
    // Returns whether reading goes on.
    fn take<C: RecordCollection>(
        &mut self,
        entry: &ScannedEntry<'_, '_>,
        buffers: &mut DataBuffers,
        collection: &mut C,
    ) -> Result<bool, AllocError>
        requires { IsScanned entry.now }
        ensures { IfOk result (λ goes_on. TakesEntry self.old entry.now
            (C.records collection.old) self.new (C.records collection.new) goes_on) }
    {
        match entry.take(&mut self.earlier, buffers)? {
            Judged::Gives(is_record) => {
                self.earlier.add_last(is_record, collection)?;
                Ok(true)
            }
            Judged::Faulty(fault) => {
                self.list.add(fault)?;
                Ok(!ends_list(fault.code))
            }
        }
    }
}

// Whether the list ends after a fault with this code.
fn ends_list(code: ReadCode) -> bool
    ensures { result ≡ all.is_last (fault_of code) }
{
    code.number() >= ReadCode::TooManyRecords.number()
}
