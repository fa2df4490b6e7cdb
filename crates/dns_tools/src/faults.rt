//! The list of all faults of a zone file.
ghost use Rattle.std.specs.Prelude.{◌≡◌, ◌≢◌, ◌-◌, ◌^◌, ◌<◌, ◌≤◌, ◌++◌, [], List, length, IfOk, IfErr};
ghost use Rattle.std.specs.List.{flat_map};
ghost use Rattle.dns_spec.specs.Names.{Octets, folded};
ghost use Rattle.dns_spec.specs.Records.{ZoneContents, zone_of};
ghost use Rattle.dns_spec.specs.Meaning.{most_records};
ghost use Rattle.dns_spec.specs.Checks.{faults};
ghost use Rattle.dns_spec.specs.Report.{fault_report};
ghost use Rattle.dns_spec.specs.AllFaults as all;
ghost use Rattle.dns_spec.specs.AllFaults.{AllFaults, ListsFaults, is_lasting};
ghost use Rattle.dns_spec.specs.AllFaults.{entry_report, line_at, column_at};
ghost use Rattle.dns_master.specs.FaultListForm.{IsList};
ghost use Rattle.dns_master.specs.ListingForm.{shown_fault};
ghost use Rattle.dns_name.specs.Counted.{Writes};
ghost use Rattle.dns_zone.specs.FaultForm.{faults_in};
ghost use Rattle.dns_tools.specs.Checked.{ReportedAs};
ghost use Rattle.dns_tools.specs.Listed.{ListedAs, stop_of_code, list_report, IsAt};
ghost use Rattle.dns_tools.specs.declared.stop.Stop.TheVariants.{Memory};
ghost use Rattle.dns_tools.specs.Stops.{source_failures_after, sink_failures_after};

use crate::line_parts::{LinePart, write_parts};
use crate::report::write_check_faults;
use crate::stop::{Outcome, Stop};
use dns_master::{EntryFault, FaultList, ReadCode, ReadFault, list_text, read_octets};
use dns_name::{Name, SinkFailed, Tally};
use dns_zone::{BuildFault, CheckFaults, Store};
use std::alloc::Global;
use std::io::{Read, Write};

// The codes of the faults of a zone that a further record may remove: `Z01`, `Z04` and `Z10`.
const NO_SOA: u8 = 1;

const NO_NS: u8 = 4;

const NO_ADDRESS: u8 = 10;

/// Reading the octets of a file fails only if the source or an allocation fails.
impl From<ReadFault> for Stop {
    ghost from_gives = { λ fault stop. stop ≡ stop_of_code fault.code };

    fn from(fault: ReadFault) -> Stop {
        match fault.code {
            ReadCode::SourceFailed => Stop::Source,
            _ => Stop::Memory,
        }
    }
}

/// Lists all faults of a zone from its file (RFC 1035 section 5), and returns whether there are
/// none.
///
/// The faults of entries come first, in order: `3:1-3:9 R13.2` gives the line and column in octets
/// where a fault begins and where it ends, its code, and its number if it has one. At most 1,000
/// are listed, and then a line `more` if there are more. The faults of the zone follow, as the
/// checker reports them: `www.example. Z06`. If an entry is faulty, only those are listed that no
/// further record removes.
///
/// Stops with `Memory` if allocation fails, and with `Source` if reading fails; then nothing was
/// written. Stops with `Sink` if writing fails; then a prefix of the list was written.
pub fn list_faults<R: Read, W: Write>(
    alloc: Global,
    origin: &Name,
    source: &mut Tally<R>,
    sink: &mut Tally<W>,
) -> Outcome
    requires source { source.old.failures < 2 ^ 64 - 1 }
    requires sink { sink.old.failures < 2 ^ 64 - 1 }
    ensures report { ListedAs (R.remaining source.old.device) (R.remaining source.new.device)
        origin.now result (W.contents sink.old.device) (W.contents sink.new.device) }
    ensures source { source.new.failures ≡ source_failures_after source.old.failures result }
    ensures sink { sink.new.failures ≡ sink_failures_after sink.old.failures result }
{
    let text = read_octets(alloc, source)?;
    match Store::read(alloc, &origin.fold(), &mut Tally::new(text.as_slice())) {
        Ok(store) => {
            drop(text);
            list_zone(alloc, origin, store, sink)
        }
        Err(fault) if matches!(fault.code, ReadCode::SourceFailed | ReadCode::NoMemory) => {
            Err(Stop::Memory)
        }
        Err(_) => list_file(alloc, origin, text.as_slice(), sink),
    }
}

// Lists the faults of the zone of a file without a faulty entry.
fn list_zone<W: Write>(alloc: Global, origin: &Name, store: Store, sink: &mut Tally<W>) -> Outcome
    requires few { length store ≤ most_records }
    requires sink { sink.old.failures < 2 ^ 64 - 1 }
    ensures report { (text : Octets) → AllFaults (folded origin.now) text [] store
        → ReportedAs (ListsFaults origin.now text) result
        (W.contents sink.old.device) (W.contents sink.new.device) }
    ensures stop { IfErr result (λ stop. stop ≢ Stop.Source) }
    ensures sink { sink.new.failures ≡ sink_failures_after sink.old.failures result }
{
    let zone = zone_faults(alloc, origin, store)?;
    write_check_faults(&zone, sink)?;
    Ok(zone.found.is_empty())
}

// Lists the faults of a file, whose text this is: those of its entries, and those of its zone.
fn list_file<W: Write>(alloc: Global, origin: &Name, text: &[u8], sink: &mut Tally<W>) -> Outcome
    requires { sink.old.failures < 2 ^ 64 - 1 }
    ensures report { ReportedAs (ListsFaults origin.now text.now) result
        (W.contents sink.old.device) (W.contents sink.new.device) }
    ensures stop { IfErr result (λ stop. stop ≢ Stop.Source) }
    ensures sink { sink.new.failures ≡ sink_failures_after sink.old.failures result }
{
    let mut store = Store::new(alloc);
    let list = list_text(alloc, &origin.fold(), text, &mut store)?;
    let zone = listed(&list, zone_faults(alloc, origin, store)?);
    write_entry_faults(&list, text, sink)?;
    write_check_faults(&zone, sink)?;
    Ok(list.faults.is_empty() && zone.found.is_empty())
}

// The faults of the zone of these records.
fn zone_faults(alloc: Global, origin: &Name, store: Store) -> Result<CheckFaults, Stop>
    requires { length store ≤ most_records }
    ensures ok { IfOk result (λ found. faults_in found ≡ faults (zone_of origin.now store)) }
    ensures err { IfErr result (λ stop. stop ≡ Memory) }
{
    match store.check(alloc, origin) {
        Ok(_) => Ok(CheckFaults::none(alloc)),
        Err(BuildFault::Faults(faults)) => Ok(faults),
        Err(BuildFault::NoMemory) => Err(Stop::Memory),
    }
}

// The faults of a zone that are listed beside the faults of its file: all, if the file has none.
// Otherwise the zone lacks the records of the faulty entries, so only those faults of the zone are
// listed that no further record removes.
fn listed(list: &FaultList, mut zone: CheckFaults) -> CheckFaults
    ensures { (found : List all.EntryFault) (z : ZoneContents) → IsList list.now found
        → faults_in zone ≡ faults z → faults_in result ≡ all.zone_faults found z }
{
    if !list.faults.is_empty() {
        zone.found.retain(|fault| is_lasting(fault.code));
    }
    zone
}

// Whether no further record removes a fault with this code.
fn is_lasting(code: u8) -> bool
    ensures { result ≡ is_lasting code }
{
    !matches!(code, NO_SOA | NO_NS | NO_ADDRESS)
}

fn write_entry_faults<W: Write>(
    list: &FaultList,
    text: &[u8],
    sink: &mut Tally<W>,
) -> Result<(), SinkFailed>
    requires { sink.old.failures < 2 ^ 64 - 1 }
    ensures { Writes W.contents sink.old sink.new result (list_report text.now list.now) }
{
    let mut at = START;
    'faults: for fault in list.faults.as_slice() {
        write_entry_fault(fault, text, &mut at, sink)?;
    }
    let more: &[u8] = if list.has_more { b"more\n" } else { b"" };
    write_parts(&[LinePart::Text(more)], sink)
}

// Writes the line of a fault: `3:1-3:9 R13.2`. `at` becomes the place where the fault begins.
fn write_entry_fault<W: Write>(
    fault: &EntryFault,
    text: &[u8],
    at: &mut Position,
    sink: &mut Tally<W>,
) -> Result<(), SinkFailed>
    requires at { IsAt text.now at.old }
    requires sink { sink.old.failures < 2 ^ 64 - 1 }
    ensures at { IsAt text.now at.new }
    ensures written { Writes W.contents sink.old sink.new result
        (entry_report text.now (shown_fault fault.now)) }
{
    *at = at.moved(text, fault.place.begins);
    let end = at.moved(text, fault.place.ends);
    let line = [
        LinePart::Position(at.line, at.column),
        LinePart::Text(b"-"),
        LinePart::Position(end.line, end.column),
        LinePart::Text(b" R"),
        LinePart::Code(fault.code.number()),
        LinePart::DottedNumber(fault.number),
        LinePart::Text(b"\n"),
    ];
    write_parts(line.as_slice(), sink)
}

// A position in a text: the octets before it, and its line and column, from 1.
#[derive(Clone, Copy)]
struct Position {
    octets: usize,
    line: u64,
    column: u64,
}

const START: Position = Position {
    octets: 0,
    line: 1,
    column: 1,
};

impl Position {
    // The place after this many octets of a text; its end if it has fewer.
    fn moved(self, text: &[u8], octets: usize) -> Position
        requires { IsAt text.now self }
        ensures at { IsAt text.now result }
        ensures line { result.line ≡ line_at text.now octets }
        ensures column { result.column ≡ column_at text.now octets }
    {
        let mut at = if octets < self.octets { START } else { self };
        let end = octets.min(text.len());
        'octets: for place in at.octets..end {
            if text[place] == b'\n' {
                at.line += 1;
                at.column = 1;
            } else {
                at.column += 1;
            }
        }
        at.octets = end;
        at
    }
}
