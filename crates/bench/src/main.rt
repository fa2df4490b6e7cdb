//! Reads data, writes data, and answers queries repeatedly, for a tool that counts instructions.
//!
//! `bench ROUNDS` does the work of each line of standard input ROUNDS times, and prints how many
//! octets the result has. `bench/queries` supplies the lines. Zone files are looked up in the current
//! directory.
#![tactic(auto)]

mod work;

use dns_tools::{FaultText, end, given_words};
use std::io;
use std::process::ExitCode;
use std::rt::{Env, Files};
use work::octets_of_work;

fn main(rt: HostRuntime) -> ExitCode {
    ExitCode::from(end(&rt, do_all(&rt).map(|()| 0)))
}

fn do_all<R: Env + Files + Input + Print + AllocGlobal>(rt: &R) -> Result<(), FaultText> {
    let words = given_words(rt)?;
    let [rounds] = words.as_slice() else {
        return Err(FaultText::Usage);
    };
    let rounds = rounds.parse::<u32>().map_err(|_| FaultText::Usage)?;
    let input = io::read_to_string(rt.alloc(), rt.reader());
    let input = input.map_err(|_| FaultText::SourceFailed)?;
    for line in input.as_str().lines() {
        let octets = octets_of_work(rt, line, rounds)?;
        println!(rt; "{octets}").map_err(|_| FaultText::SinkFailed)?;
    }
    Ok(())
}
