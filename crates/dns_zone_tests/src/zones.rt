//! Zones made of the text of files.

use dns_master::read_zone;
use dns_name::{Name, Tally};
use dns_zone::{BuildFault, Zone};
use std::alloc::Global;
use std::fmt::Write;
use std::test::Fail;

/// What is built from a file in two parts; `None` if the file can't be read as records.
pub fn built(
    alloc: Global,
    origin: &[u8],
    begin: &str,
    end: &str,
) -> Option<Result<Zone, BuildFault>> {
    let text = [begin, end].concat(alloc).ok()?;
    let origin = Name::read_text(origin, &Name::root()).ok()?;
    let records = read_zone(alloc, &origin, &mut Tally::new(text.as_bytes())).ok()?;
    Some(Zone::build(alloc, &origin, records))
}

/// The zone of a file in two parts.
pub fn zone_of(alloc: Global, origin: &[u8], begin: &str, end: &str) -> Result<Zone, Fail> {
    match built(alloc, origin, begin, end) {
        Some(Ok(zone)) => Ok(zone),
        _ => Err(Fail::new("no zone")),
    }
}

/// A zone of 100,000 records, with 99,998 names directly below its origin `example.`: `ns`, and
/// `n0` to `n99996` with the address 192.0.2.2.
pub fn wide(alloc: Global) -> Result<Zone, Fail> {
    let mut text = String::new(alloc);
    for number in 0..99_997_u32 {
        writeln!(text, "n{number} A 192.0.2.2")?;
    }
    let apex = "$TTL 60\n@ SOA ns h 1 2 3 4 5\n@ NS ns\nns A 192.0.2.1\n";
    zone_of(alloc, b"example.", apex, text.as_str())
}

/// A zone at the root, with the address 192.0.2.2 at a name of 127 labels `a`.
pub fn deep(alloc: Global) -> Result<Zone, Fail> {
    let name = "a.".repeat(alloc, 127)?;
    let text = format!(in alloc; "{name}\n{name} A 192.0.2.2\n")?;
    zone_of(
        alloc,
        b".",
        "$TTL 3600\n@ SOA a h 1 2 3 4 5\n@ NS ",
        text.as_str(),
    )
}
