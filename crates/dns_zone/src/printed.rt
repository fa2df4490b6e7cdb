//! The canonical text of a zone (RFC 1035 5.1).
ghost use Rattle.std.specs.Prelude.{◌≡◌, ◌+◌, ◌-◌, ◌^◌, ◌<◌, ◌≤◌, ◌++◌, All, length};
ghost use Rattle.std.specs.List.Sorted.{IsPermutation};
ghost use Rattle.dns_spec.specs.Names.{DomainName};
ghost use Rattle.dns_spec.specs.ZoneText.{most_octets};
ghost use Rattle.dns_spec.specs.Meaning.{Means, records};
ghost use Rattle.std.specs.List.{filter, flat_map};
ghost use Rattle.dns_spec.specs.ZonePrinted.{HasZoneType, record_line, soa_first, printed_records, zone_text};
ghost use Rattle.dns_name.specs.Counted.{Writes, Fills};
ghost use Rattle.dns_zone.specs.ZoneForm.{is_chosen};

use crate::checked::CheckedZone;
use crate::store::stored::StoredRecord;
use crate::zone::Zone;
use dns_name::{SinkFailed, Tally, TextBuffer};
use dns_rdata::{RType, Rdata};
use itoa::Buffer;
use std::io::Write;

// Room for an owner (1,020 octets), a TTL (10), a type (9), and the class and spaces (6).
const FRONT_ROOM: usize = 1045;

/// A zone was not fully printed, because the sink failed (`P1`). The `Tally` counted the failure.
#[derive(Clone, Copy, Debug, PartialEq, Eq)]
pub struct PrintFault;

impl From<SinkFailed> for PrintFault {
    fn from(_failed: SinkFailed) -> PrintFault {
        PrintFault
    }
}

/// Writes the canonical text of a zone: each record on a line of its own with its owner, TTL,
/// class, type and data, the SOA first and the others in canonical order (RFC 1035 5.1, 5.2,
/// RFC 4034 6.1, 6.3).
///
/// Names are written in full, with a final dot. The text is a zone file. Read with any origin, it
/// means the same records, if it has at most 16,777,216 octets and the zone has only types that a
/// zone file may contain. Printing allocates no memory. If the sink fails, a prefix of the text was
/// written, and nothing is written after it.
pub fn print<W: Write>(zone: &Zone, sink: &mut Tally<W>) -> Result<(), PrintFault>
    requires { sink.old.failures < 2 ^ 64 - 1 }
    ensures writes { Writes W.contents sink.old sink.new result (zone_text zone.now) }
    ensures meaning { All HasZoneType zone.now.records → length (zone_text zone.now) ≤ most_octets
        → (o : DomainName) → Means o (zone_text zone.now) (records (printed_records zone.now)) }
    ensures same_records { IsPermutation zone.now.records (printed_records zone.now) }
{
    zone.tree.zone().print(sink)
}

impl CheckedZone {
    /// Writes the canonical text of the zone, as `print` does.
    pub fn print<W: Write>(&self, sink: &mut Tally<W>) -> Result<(), PrintFault>
        requires { sink.old.failures < 2 ^ 64 - 1 }
        ensures writes { Writes W.contents sink.old sink.new result (zone_text self.now) }
        ensures meaning { All HasZoneType self.now.records
            → length (zone_text self.now) ≤ most_octets
            → (o : DomainName) → Means o (zone_text self.now) (records (printed_records self.now)) }
        ensures same_records { IsPermutation self.now.records (printed_records self.now) }
    {
        write_records(self.records(), sink)?;
        Ok(())
    }
}

// Writes the SOA, then the other records in order.
fn write_records<W: Write>(records: &[StoredRecord], sink: &mut Tally<W>) -> Result<(), SinkFailed>
    requires { sink.old.failures < 2 ^ 64 - 1 }
    ensures { Writes W.contents sink.old sink.new result
        (flat_map record_line (soa_first records.now)) }
{
    let mut text = TextBuffer::new();
    put_chosen(true, records, &mut text, sink)?;
    put_chosen(false, records, &mut text, sink)?;
    text.finish(sink)
}

// Writes either the SOA records or all others, in order.
fn put_chosen<W: Write>(
    is_soa: bool,
    records: &[StoredRecord],
    text: &mut TextBuffer,
    sink: &mut Tally<W>,
) -> Result<(), SinkFailed>
    requires { sink.old.failures < 2 ^ 64 - 1 }
    ensures { Fills W.contents sink.old sink.new result
        (text.old ++ flat_map record_line (filter (is_chosen is_soa) records.now)) text.new }
{
    'records: for entry in records {
        if (entry.rtype == RType::SOA) == is_soa {
            put_record(entry, text, sink)?;
        }
    }
    Ok(())
}

// Writes the line of a record.
fn put_record<W: Write>(
    entry: &StoredRecord,
    text: &mut TextBuffer,
    sink: &mut Tally<W>,
) -> Result<(), SinkFailed>
    requires { sink.old.failures < 2 ^ 64 - 1 }
    ensures { Fills W.contents sink.old sink.new result
        (text.old ++ record_line entry.now) text.new }
{
    text.reserve(FRONT_ROOM, sink)?;
    let mut digits = Buffer::new();
    entry.owner().append_text(text);
    text.push(b' ');
    text.append(digits.format(entry.ttl).as_bytes());
    text.append(b" IN ");
    entry.rtype.append_text(text);
    text.push(b' ');
    Rdata::put_text(entry.rtype, entry.rdata(), text, sink)?;
    text.reserve(1, sink)?;
    text.push(b'\n');
    Ok(())
}
