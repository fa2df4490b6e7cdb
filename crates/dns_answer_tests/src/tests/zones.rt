//! Zones for the tests.

use dns_samples_tests::SMALL;
use dns_zone::Zone;
use dns_zone_tests::zone_of;
use std::alloc::Global;
use std::fmt::Write;
use std::test::Fail;

// Aliases in a ring, and sets with targets.
const MORE: &str = "r1 CNAME r2
r2 CNAME r1
c18 A 192.0.2.18
m MX 10 big
cut NS big.cut
_s._tcp SRV 1 2 53 ns
";

/// The small zone, with chains of aliases, and with sets that end near the limit of UDP or far
/// beyond it.
pub(super) fn large(alloc: Global) -> Result<Zone, Fail> {
    let mut text = String::new(alloc);
    text.push_str(MORE)?;
    writeln!(text, "t TXT {:a<255} {:a<216}", "", "")?;
    writeln!(text, "u TXT {:a<255} {:a<217}", "", "")?;
    for number in 1..18_u32 {
        writeln!(text, "c{number} CNAME c{}", number + 1)?;
    }
    for last in 1..65_u32 {
        writeln!(text, "big A 198.51.100.{last}\nbig.cut A 198.51.100.{last}")?;
    }
    zone_of(alloc, b"example", SMALL, text.as_str())
}

/// The small zone, with sets that fill a reply over TCP beyond the reach of pointers.
pub(super) fn long(alloc: Global) -> Result<Zone, Fail> {
    let mut text = String::new(alloc);
    for number in 0..64_u32 {
        writeln!(text, "x TXT {:a<253}{number:02}", "")?;
    }
    for number in 10..27_u32 {
        writeln!(text, "y SRV 1 2 53 t{number}")?;
        for last in 1..65_u32 {
            writeln!(text, "t{number} A 198.51.100.{last}")?;
        }
    }
    zone_of(alloc, b"example", SMALL, text.as_str())
}

/// A zone with a cut of 64 servers, each with an address.
pub(super) fn many_servers(alloc: Global) -> Result<Zone, Fail> {
    let mut text = String::new(alloc);
    for number in 0..64_u32 {
        writeln!(text, "cut NS n{number}.cut\nn{number}.cut A 192.0.2.2")?;
    }
    zone_of(alloc, b"example", SMALL, text.as_str())
}
