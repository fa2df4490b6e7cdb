//! Command lines: the program and its arguments, separated by commas.

use dns_answer::Limit;
use dns_tools::{FaultText, Service, check_words, serve_words, socket_words};
use std::alloc::{AllocError, Global};
use std::test::Fail;

fn words_of<'a>(alloc: Global, line: &'a str) -> Result<Vec<&'a str>, AllocError> {
    line.split(',').collect(alloc)
}

// Why a command line is refused; `None` if it is accepted.
fn refusal(alloc: Global, line: &str) -> Result<Option<FaultText>, Fail> {
    let words = words_of(alloc, line)?;
    let Some((program, words)) = words.as_slice().split_first() else {
        return Err(Fail::new("an empty line"));
    };
    Ok(match *program {
        "zonecheck" => check_words(alloc, words).err(),
        "zoneserve" => serve_words(alloc, words).err(),
        _ => socket_words(words).err(),
    })
}

const USAGE: &str = "zoneserve
zoneserve,once
zoneserve,once,example,zone,zone
zoneserve,onc,example,zone
zoneserve,,example,zone
zoneserve,Once,example,zone
zoneserve,help
zoneserve,help,once
zoneserve,--help
zoneserve,-h
zoneserve,--version
zoneserve,-V
zoneserve,once,--help,zone
zoneserve,once,--,example,zone
zoneserve,--,once,example,zone
zoneserve,once,--tcp,--tcp,example,zone
zoneserve,once,example,--tcp,zone
zoneserve,once,-example,zone
zoneserve,once,example,-
zoneserve,once,example,zone,--tcp=1
zoneserve,udp,127.0.0.1:53,example,zone
zoneserve,udp,127.0.0.1:53,0,example,zone
zoneserve,tcp,127.0.0.1:53,1000001,example,zone
zoneserve,tcp,127.0.0.1:53,01,example,zone
zoneserve,tcp,127.0.0.1:53,-1,example,zone
zoneserve,udp,127.0.0.1:53,1,-example,zone
zoneserve,udp,127.0.0.1:53,1,example,-
zoneserve,udp,--tcp,127.0.0.1:53,1,example,zone
zonecheck,--quiet
zonecheck,--version
zonecheck,--quiet,example
zonecheck,example,--quiet,zone
zonecheck,--qui,example,zone
zonecheck,--quiet,--,example,zone
zonesocket,UDP,1,example,zone
zonesocket,,1,example,zone
zonesocket,udp,01,example,zone
zonesocket,udp,1000001,example,zone
zonesocket,udp,-1,example,zone
zonesocket,udp,,example,zone
zonesocket,udp,1,-example,zone
zonesocket,tcp,1,example,-
zonesocket,tcp,1,--help,zone";

const BAD_ORIGINS: &str = "zoneserve,once,,zone
zoneserve,once,..,zone
zoneserve,once,\\256,zone
zoneserve,once,a\\,zone
zonecheck,--quiet,..,zone
zonecheck,--quiet,\\256,zone
zonecheck,--quiet,a\\,zone";

#[test]
fn command_lines_that_are_refused(rt: HostRuntime) -> Result<(), Fail> {
    for line in USAGE.lines() {
        assert!(rt;
            refusal(rt.alloc(), line)? == Some(FaultText::Usage),
            "{line}"
        );
    }
    for line in BAD_ORIGINS.lines() {
        assert!(rt;
            refusal(rt.alloc(), line)? == Some(FaultText::BadOrigin),
            "{line}"
        );
    }
    Ok(())
}

// Origins and files, and the octets of the origins.
const TAKEN: &[(&str, &str, &[u8])] = &[
    ("example", "zone", b"\x07example\x00"),
    ("Example.", "", b"\x07example\x00"),
    (".", "once", b"\x00"),
    ("@", "a b", b"\x00"),
    ("a\\.b", "/", b"\x03a.b\x00"),
    ("\u{e9}", "help", b"\x02\xc3\xa9\x00"),
];

fn is_taken(alloc: Global, origin: &str, file: &str, octets: &[u8]) -> Result<bool, Fail> {
    let words = ["once", origin, file];
    let said = serve_words(alloc, words.as_slice())?;
    Ok((said.origin.octets() == octets) & (said.file == file))
}

// Arguments that ask for a service at an address: the transport, the address and the turns.
const SERVICES: &[(&str, Limit, &str, u32)] = &[
    ("udp,[::1]:53,1,example,zone", Limit::Udp, "[::1]:53", 1),
    (
        "tcp,127.0.0.1:53,1000000,example,zone",
        Limit::Tcp,
        "127.0.0.1:53",
        1_000_000,
    ),
    ("tcp,-a,7,example,zone", Limit::Tcp, "-a", 7),
    ("udp,--,7,example,zone", Limit::Udp, "--", 7),
];

fn asks_for(
    alloc: Global,
    line: &str,
    transport: Limit,
    address: &str,
    turns: u32,
) -> Result<bool, Fail> {
    let words = words_of(alloc, line)?;
    let said = serve_words(alloc, words.as_slice())?;
    let service = match transport {
        Limit::Udp => Service::Udp { address, turns },
        Limit::Tcp => Service::Tcp { address, turns },
    };
    Ok((said.service == service) & (said.file == "zone"))
}

const TAKEN_WITH_SOCKET: &[(&str, Limit, u32)] = &[
    ("udp,1,Example.,zone", Limit::Udp, 1),
    ("tcp,1000000,example,zone", Limit::Tcp, 1_000_000),
    ("tcp,7,example,zone", Limit::Tcp, 7),
];

const EXAMPLE: &[u8] = b"\x07example\x00";

// Whether these arguments ask for turns over this transport, with the file `zone` and `example.`.
fn asks_for_turns(alloc: Global, line: &str, transport: Limit, turns: u32) -> Result<bool, Fail> {
    let words = words_of(alloc, line)?;
    let said = socket_words(words.as_slice())?;
    let are_said = (said.transport, said.turns, said.file) == (transport, turns, "zone");
    Ok(are_said & (said.origin.octets() == EXAMPLE))
}

#[test]
fn command_lines_that_are_taken(rt: HostRuntime) -> Result<(), Fail> {
    for &(origin, file, octets) in TAKEN {
        assert!(rt; is_taken(rt.alloc(), origin, file, octets)?, "{origin}");
    }
    for &(line, transport, address, turns) in SERVICES {
        assert!(rt;
            asks_for(rt.alloc(), line, transport, address, turns)?,
            "{line}"
        );
    }
    for &(line, transport, turns) in TAKEN_WITH_SOCKET {
        assert!(rt;
            asks_for_turns(rt.alloc(), line, transport, turns)?,
            "{line}"
        );
    }
    Ok(())
}
