//! The lines of the checker's report.
ghost use Rattle.std.specs.Prelude.{◌-◌, ◌^◌, ◌<◌};
ghost use Rattle.std.specs.List.{flat_map};
ghost use Rattle.dns_spec.specs.Report.{fault_report, loaded_report, serving_report};
ghost use Rattle.dns_name.specs.Counted.{Writes};
ghost use Rattle.dns_zone.specs.FaultForm.{faults_in};

use crate::line_parts::{LinePart, write_parts};
use dns_name::{SinkFailed, Tally};
use dns_zone::{CheckFaults, CheckedZone, Zone};
use std::io::Write;

/// Writes a line for each fault of the zone: `www.example. Z06`.
pub(crate) fn write_check_faults<W: Write>(
    faults: &CheckFaults,
    sink: &mut Tally<W>,
) -> Result<(), SinkFailed>
    requires { sink.old.failures < 2 ^ 64 - 1 }
    ensures { Writes W.contents sink.old sink.new result
        (flat_map fault_report (faults_in faults.now)) }
{
    'faults: for fault in faults.found.as_slice() {
        let line = [
            LinePart::Name(faults.owner(fault)),
            LinePart::Text(b" Z"),
            LinePart::Code(fault.code),
            LinePart::Text(b"\n"),
        ];
        write_parts(line.as_slice(), sink)?;
    }
    Ok(())
}

/// Writes the lines of a zone that passes: `zone example/IN: loaded serial 1` and `OK`.
pub(crate) fn write_loaded<W: Write>(
    zone: &CheckedZone,
    sink: &mut Tally<W>,
) -> Result<(), SinkFailed>
    requires { sink.old.failures < 2 ^ 64 - 1 }
    ensures { Writes W.contents sink.old sink.new result (loaded_report zone.now) }
{
    let lines = [
        LinePart::Text(b"zone "),
        LinePart::BareName(zone.origin()),
        LinePart::Text(b"/IN: loaded serial "),
        LinePart::Number(u64::from(zone.serial())),
        LinePart::Text(b"\nOK\n"),
    ];
    write_parts(lines.as_slice(), sink)
}

/// Writes the line of a server that has loaded its zone: `zone example/IN: serving serial 1`.
pub(crate) fn write_serving<W: Write>(zone: &Zone, sink: &mut Tally<W>) -> Result<(), SinkFailed>
    requires { sink.old.failures < 2 ^ 64 - 1 }
    ensures { Writes W.contents sink.old sink.new result (serving_report zone.now) }
{
    let line = [
        LinePart::Text(b"zone "),
        LinePart::BareName(zone.origin()),
        LinePart::Text(b"/IN: serving serial "),
        LinePart::Number(u64::from(zone.serial())),
        LinePart::Text(b"\n"),
    ];
    write_parts(line.as_slice(), sink)
}
