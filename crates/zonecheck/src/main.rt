//! A checker of zone files: `zonecheck [--quiet] [--print] ORIGIN FILE` reports whether the zone
//! of ORIGIN in FILE may be served, and if not, why. With `--print` it prints the canonical text of
//! a zone that may be served.
#![tactic(auto)]

use dns_name::Tally;
use dns_tools::{
    FaultText, buffered_stream, check_words, check_zone, end, end_of, finish, given_words,
    open_file,
};
use std::process::ExitCode;
use std::rt::{Env, Files};
use std::time::Clock;

fn main(rt: HostRuntime) -> ExitCode {
    ExitCode::from(end(&rt, check(&rt)))
}

// Checks the zone that the arguments name, writes the report, and returns the exit status.
fn check<R: Env + Files + Print + Clock + AllocGlobal>(rt: &R) -> Result<u8, FaultText> {
    let alloc = rt.alloc();
    let words = given_words(rt)?;
    let words = check_words(alloc, words.as_slice())?;
    let mut source = Tally::new(open_file(rt, words.file)?);
    let mut sink = Tally::new(buffered_stream(rt, rt)?);
    let outcome = check_zone(alloc, &words.origin, words.flags, &mut source, &mut sink);
    end_of(finish(outcome, sink.into_inner()).0)
}
