//! Loads a zone from its file.
ghost use Rattle.std.specs.Prelude.{◌≡◌, ◌-◌, ◌^◌, ◌<◌};
ghost use Rattle.dns_name.specs.Counted.{Writes};
ghost use Rattle.dns_tools.specs.declared.stop.Stop.TheVariants.{Memory};
ghost use Rattle.dns_tools.specs.declared.load.LoadFault.TheVariants.{Stopped};
ghost use Rattle.dns_tools.specs.Load.{Loads, fault_of_read, refusal_report};

use crate::line_parts::{LinePart, write_parts};
use crate::report::write_check_faults;
use crate::stop::Stop;
use dns_master::{ReadCode, ReadFault};
use dns_name::{Name, SinkFailed, Tally};
use dns_zone::{BuildFault, CheckFaults, CheckedZone, Store, Zone};
use std::alloc::{AllocError, Global};
use std::io::{Read, Write};

/// Why a zone file is refused.
#[derive(Drop)]
pub enum Refusal {
    /// The first fault of the file, and the line on which its entry begins.
    File(ReadFault),
    /// The faults of the zone.
    Zone(CheckFaults),
}

/// Why no zone was loaded.
#[derive(Drop)]
pub enum LoadFault {
    /// The file or its zone has a fault.
    Refused(Refusal),
    /// The source or an allocation failed.
    Stopped(Stop),
}

impl From<ReadFault> for LoadFault {
    ghost from_gives = { λ fault refusal. refusal ≡ fault_of_read fault };

    fn from(fault: ReadFault) -> LoadFault {
        match fault.code {
            ReadCode::SourceFailed => LoadFault::Stopped(Stop::Source),
            ReadCode::NoMemory => LoadFault::Stopped(Stop::Memory),
            _ => LoadFault::Refused(Refusal::File(fault)),
        }
    }
}

impl From<AllocError> for LoadFault {
    ghost from_gives = { λ _ refusal. refusal ≡ Stopped Memory };

    fn from(_error: AllocError) -> LoadFault {
        LoadFault::Stopped(Stop::Memory)
    }
}

/// Loads the zone of an origin from its file (RFC 1035 section 5), and makes all checks.
///
/// The file is read relative to the origin in lower case. If the file has a fault, only its first
/// fault is returned; otherwise all faults of the zone are. Nothing is read after a failure.
pub(crate) fn load<R: Read>(
    alloc: Global,
    origin: &Name,
    source: &mut Tally<R>,
) -> Result<CheckedZone, LoadFault>
    requires { source.old.failures < 2 ^ 64 - 1 }
    ensures { Loads R.remaining source.old source.new origin.now result }
{
    let origin = origin.fold();
    let records = Store::read(alloc, &origin, source)?;
    match records.check(alloc, &origin) {
        Ok(zone) => Ok(zone),
        Err(BuildFault::Faults(faults)) => Err(LoadFault::Refused(Refusal::Zone(faults))),
        Err(BuildFault::NoMemory) => Err(LoadFault::Stopped(Stop::Memory)),
    }
}

/// Loads a zone as `load` does, and prepares it for serving.
pub fn load_zone<R>(alloc: Global, origin: &Name, source: &mut Tally<R>) -> Result<Zone, LoadFault>
where
    R: Read,
    requires { source.old.failures < 2 ^ 64 - 1 }
    ensures { Loads R.remaining source.old source.new origin.now result }
{
    Ok(Zone::of(alloc, load(alloc, origin, source)?)?)
}

/// Writes why a file is refused, in the format of the checker's report.
pub fn write_refusal<W: Write>(refusal: &Refusal, sink: &mut Tally<W>) -> Result<(), SinkFailed>
    requires { sink.old.failures < 2 ^ 64 - 1 }
    ensures { Writes W.contents sink.old sink.new result (refusal_report refusal.now) }
{
    match refusal {
        // `line 7: R11`
        Refusal::File(fault) => {
            let line = [
                LinePart::Text(b"line "),
                LinePart::Number(u64::from(fault.line)),
                LinePart::Text(b": R"),
                LinePart::Code(fault.code.number()),
                LinePart::Text(b"\n"),
            ];
            write_parts(line.as_slice(), sink)
        }
        Refusal::Zone(faults) => write_check_faults(faults, sink),
    }
}
