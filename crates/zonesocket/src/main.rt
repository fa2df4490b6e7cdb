//! A server of one zone at a socket that it is given as standard input:
//! `zonesocket udp|tcp TURNS ORIGIN FILE` loads the zone of ORIGIN from FILE, writes a line to
//! standard output to say so, and serves TURNS datagrams or connections, many connections at once.
//! It ends earlier if standard output is a pipe and its reader is gone. The socket outlives the
//! process. So several processes can serve it at once, and a new process can replace an old one
//! without losing what waits at the socket.
#![tactic(auto)]

use dns_answer::Limit;
use dns_connections::{Capacity, serve_connections};
use dns_name::Tally;
use dns_tools::{
    Epoll, FaultText, LoadFault, SocketWords, Watch, end, given_listener, given_socket,
    given_words, load_zone, open_file, refuse, say_serving, serve_datagrams, socket_words,
    status_of_turns,
};
use dns_zone::Zone;
use std::net::Net;
use std::os::fd::{AsFd, AsRawFd};
use std::process::ExitCode;
use std::rt::{Env, Files};
use std::time::Clock;

fn main(rt: HostRuntime) -> ExitCode {
    ExitCode::from(end(&rt, run(&rt, &rt.stdin(), &rt.stdout(), &rt.stderr())))
}

// Serves the zone that the arguments name at the given socket, and returns the exit status.
fn run<R, I: AsFd, O: AsRawFd, E: Print>(
    rt: &R,
    given: &I,
    output: &O,
    errors: &E,
) -> Result<u8, FaultText>
where
    R: Env + Files + Print + Eprint + Clock + Net + AllocGlobal,
{
    let words = given_words(rt)?;
    let words = socket_words(words.as_slice())?;
    let file = open_file(rt, words.file)?;
    // The file is closed before anything is served.
    let loaded = load_zone(rt.alloc(), &words.origin, &mut Tally::new(file));
    match loaded {
        Ok(zone) => serve(rt, given, output, &zone, &words),
        Err(LoadFault::Refused(refusal)) => refuse(rt, errors, &refusal),
        Err(LoadFault::Stopped(stop)) => Err(FaultText::from(stop)),
    }
}

// Says on standard output that the zone is served, and serves it at the given socket, with any
// number of messages on a connection. The exit status says whether each diagnostic was written.
fn serve<R, I: AsFd, O: AsRawFd>(
    rt: &R,
    given: &I,
    output: &O,
    zone: &Zone,
    words: &SocketWords<'_>,
) -> Result<u8, FaultText>
where
    R: Print + Eprint + Clock + Net + AllocGlobal,
{
    let watch = Watch::new(rt, output)?;
    let turns = words.turns;
    let are_said = match words.transport {
        Limit::Udp => {
            let mut socket = given_socket(given, rt, watch)?;
            say_serving(rt, zone)?;
            serve_datagrams(rt, zone, &mut socket, turns)
        }
        Limit::Tcp => {
            let sockets = Epoll::new(rt, given_listener(given)?, Some(&watch))?;
            let begin = || say_serving(rt, zone);
            let (most, capacity) = (u64::MAX, Capacity::Many);
            serve_connections(rt.alloc(), zone, sockets, turns, most, capacity, begin)?.finish()
        }
    };
    Ok(status_of_turns(are_said))
}
