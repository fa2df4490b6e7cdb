//! The checker of zone files.
ghost use Rattle.std.specs.Prelude.{◌≡◌, ◌<◌, ◌-◌, ◌^◌};
ghost use Rattle.dns_spec.specs.Report.{failing, passing};
ghost use Rattle.dns_tools.specs.Checked.{options_of, WrittenAs, CheckedAs};
ghost use Rattle.dns_tools.specs.Load.{refusal_report};
ghost use Rattle.dns_tools.specs.declared.stop.Stop.TheVariants.{Sink};
ghost use Rattle.dns_tools.specs.Stops.{source_failures_after, sink_failures_after};

use crate::load::{LoadFault, Refusal, load, write_refusal};
use crate::report::write_loaded;
use crate::stop::{Outcome, Stop};
use dns_name::{Name, Tally};
use dns_zone::{CheckedZone, PrintFault};
use std::alloc::Global;
use std::io::{Read, Write};
use std::mem::forget;

/// What the checker writes.
#[derive(Clone, Copy, Debug, PartialEq, Eq)]
pub struct Flags {
    /// Write nothing, unless `print` is set.
    pub quiet: bool,
    /// Write the canonical text of the zone, if the zone passes.
    pub print: bool,
}

impl From<PrintFault> for Stop {
    ghost from_gives = { λ _ stop. stop ≡ Sink };

    fn from(_fault: PrintFault) -> Stop {
        Stop::Sink
    }
}

/// Checks a zone from its file (RFC 1035 section 5), writes the report, and returns whether the
/// zone passes.
///
/// A fault of the file is reported by its line and code. The faults of the zone are reported by
/// owner and code, one on each line, ordered by owner, then by code. A zone that passes is
/// reported by its name and serial, or printed in its canonical text. With `quiet` alone nothing
/// is written.
///
/// If the run stops with `Memory` or `Source`, nothing was written. If it stops with `Sink`, a
/// prefix of the report was written.
///
/// The memory of a zone that passes is leaked, because the program ends afterwards.
pub fn check_zone<R: Read, W: Write>(
    alloc: Global,
    origin: &Name,
    flags: Flags,
    source: &mut Tally<R>,
    sink: &mut Tally<W>,
) -> Outcome
    requires source { source.old.failures < 2 ^ 64 - 1 }
    requires sink { sink.old.failures < 2 ^ 64 - 1 }
    ensures report { CheckedAs (R.remaining source.old.device) (R.remaining source.new.device)
        origin.now (options_of flags) result (W.contents sink.old.device)
        (W.contents sink.new.device) }
    ensures source { source.new.failures ≡ source_failures_after source.old.failures result }
    ensures sink { sink.new.failures ≡ sink_failures_after sink.old.failures result }
{
    match load(alloc, origin, source) {
        Ok(zone) => {
            let outcome = report_zone(flags, &zone, sink);
            // The program ends after its report. Freeing the zone record by record would take a
            // thirtieth of the time of a check.
            forget(zone);
            outcome
        }
        Err(LoadFault::Refused(refusal)) => report_refusal(flags, &refusal, sink),
        // Loading writes nothing, so it stops with `Source` or `Memory`.
        Err(LoadFault::Stopped(Stop::Source)) => Err(Stop::Source),
        Err(LoadFault::Stopped(_)) => Err(Stop::Memory),
    }
}

fn report_refusal<W: Write>(flags: Flags, refusal: &Refusal, sink: &mut Tally<W>) -> Outcome
    requires { sink.old.failures < 2 ^ 64 - 1 }
    ensures written { WrittenAs (failing (options_of flags) (refusal_report refusal.now)) result
        (W.contents sink.old.device) (W.contents sink.new.device) }
    ensures sink { sink.new.failures ≡ sink_failures_after sink.old.failures result }
{
    if flags.print || !flags.quiet {
        write_refusal(refusal, sink)?;
    }
    Ok(false)
}

fn report_zone<W: Write>(flags: Flags, zone: &CheckedZone, sink: &mut Tally<W>) -> Outcome
    requires { sink.old.failures < 2 ^ 64 - 1 }
    ensures written { WrittenAs (passing (options_of flags) zone.now) result
        (W.contents sink.old.device) (W.contents sink.new.device) }
    ensures sink { sink.new.failures ≡ sink_failures_after sink.old.failures result }
{
    if flags.print {
        zone.print(sink)?;
    } else if !flags.quiet {
        write_loaded(zone, sink)?;
    }
    Ok(true)
}
