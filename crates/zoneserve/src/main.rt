//! A server of one zone. `zoneserve once [--tcp] ORIGIN FILE` loads the zone of ORIGIN from FILE,
//! and answers each line of standard input, a message in hexadecimal digits, with a line on
//! standard output. `zoneserve udp|tcp ADDR TURNS ORIGIN FILE` loads the zone, and serves TURNS
//! datagrams or connections at the address ADDR.
#![tactic(auto)]

use dns_connections::{Capacity, serve_connections};
use dns_name::Tally;
use dns_tools::{
    Epoll, FaultText, LoadFault, Nonblocking, Service, end, end_of, given_words, listener_at,
    load_zone, open_file, refuse, run_once, serve_datagrams, serve_words, socket_at,
    status_of_turns,
};
use dns_zone::Zone;
use std::io;
use std::net::{Net, TcpListener, TcpStream};
use std::process::ExitCode;
use std::rt::{Env, Files};
use std::time::Clock;

// The most messages that are answered on one connection.
const MOST_MESSAGES: u64 = 1_000_000;

fn main(rt: HostRuntime) -> ExitCode {
    ExitCode::from(end(&rt, run(&rt, &rt.stderr())))
}

// Loads the zone that the arguments name, serves it, and returns the exit status.
fn run<R, E: Print>(rt: &R, errors: &E) -> Result<u8, FaultText>
where
    R: Env + Files + Input + Print + Eprint + Clock + AllocGlobal,
    R: Net<Listener = TcpListener, Stream = TcpStream>,
{
    let alloc = rt.alloc();
    let words = given_words(rt)?;
    let words = serve_words(alloc, words.as_slice())?;
    let file = open_file(rt, words.file)?;
    // The file is closed before anything is served.
    let loaded = load_zone(alloc, &words.origin, &mut Tally::new(file));
    match loaded {
        Ok(zone) => serve(rt, &zone, &words.service),
        Err(LoadFault::Refused(refusal)) => refuse(rt, errors, &refusal),
        Err(LoadFault::Stopped(stop)) => Err(FaultText::from(stop)),
    }
}

fn serve<R>(rt: &R, zone: &Zone, service: &Service<'_>) -> Result<u8, FaultText>
where
    R: Input + Print + Eprint + Clock + AllocGlobal,
    R: Net<Listener = TcpListener, Stream = TcpStream>,
{
    let are_said = match service {
        Service::Once(limit) => {
            let mut source = Tally::new(Nonblocking::new(rt.reader(), rt));
            let mut sink = Tally::new(Nonblocking::new(io::writer(rt), rt));
            let outcome = run_once(rt.alloc(), zone, *limit, &mut source, &mut sink);
            return end_of(outcome);
        }
        Service::Udp { address, turns } => {
            let mut socket = socket_at(rt, address)?;
            serve_datagrams(rt, zone, &mut socket, *turns)
        }
        Service::Tcp { address, turns } => {
            let sockets = Epoll::new(rt, listener_at(rt, address)?, None)?;
            let (most, capacity) = (MOST_MESSAGES, Capacity::One);
            let begin = || Ok::<(), FaultText>(());
            serve_connections(rt.alloc(), zone, sockets, *turns, most, capacity, begin)?.finish()
        }
    };
    Ok(status_of_turns(are_said))
}
