//! What functions return if memory is refused. `refused FILE` calls functions that allocate
//! memory, loads the zone of `example.` from FILE, serves queries and a session from it, and
//! prints the result of each call.
//!
//! `make faults` runs the program once for each of its allocations, and refuses that allocation.
//! The line of the call that made the allocation reports this, and all other lines stay the same.
//! The program allocates memory for its own use before the calls.
#![tactic(auto)]

mod calls;
mod samples;

use calls::{answer_questions, answer_sessions, check, example, read_and_build};
use dns_name::Tally;
use dns_tools::{FaultText, LoadFault, end, given_words, load_zone, open_file};
use dns_wire::read_message;
use samples::MESSAGE;
use std::io::{self, Write};
use std::process::ExitCode;
use std::rt::{Env, Files};

// More octets than the program prints.
const ROOM: usize = 65_536;

fn main(rt: HostRuntime) -> ExitCode {
    ExitCode::from(end(&rt, call(&rt).map(|()| 0)))
}

// Makes the calls, and prints their results.
fn call<R: Env + Files + Print + AllocGlobal>(rt: &R) -> Result<(), FaultText> {
    let alloc = rt.alloc();
    let words = given_words(rt)?;
    let [path] = words.as_slice() else {
        return Err(FaultText::Usage);
    };
    let mut said = String::with_capacity(alloc, ROOM)?;
    check(alloc, &mut said)?;
    read_and_build(alloc, &mut said)?;
    let id = read_message(alloc, MESSAGE).map(|message| message.head.id);
    writeln!(said, "read_message: {id:?}")?;
    let file = open_file(rt, path.as_str())?;
    match load_zone(alloc, &example()?, &mut Tally::new(file)) {
        Ok(zone) => {
            said.push_str("load_zone: a zone\n")?;
            answer_questions(&zone, &mut said)?;
            answer_sessions(&zone, &mut said)?;
        }
        Err(LoadFault::Stopped(stop)) => writeln!(said, "load_zone: {stop:?}")?,
        Err(LoadFault::Refused(_refusal)) => said.push_str("load_zone: refused\n")?,
    }
    let printed = io::writer(rt).write_all(said.as_bytes());
    printed.map_err(|_| FaultText::SinkFailed)
}
