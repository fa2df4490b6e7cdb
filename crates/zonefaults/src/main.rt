//! Lists all faults of a zone file, each with its place: `zonefaults ORIGIN FILE`.
#![tactic(auto)]

use dns_name::Tally;
use dns_tools::{
    FaultText, buffered_stream, check_words, end, end_of, finish, given_words, list_faults,
    open_file,
};
use std::process::ExitCode;
use std::rt::{Env, Files};
use std::time::Clock;

fn main(rt: HostRuntime) -> ExitCode {
    ExitCode::from(end(&rt, list(&rt)))
}

// Lists the faults of the file that the arguments name, and returns the exit status.
fn list<R: Env + Files + Print + Clock + AllocGlobal>(rt: &R) -> Result<u8, FaultText> {
    let alloc = rt.alloc();
    let words = given_words(rt)?;
    let words = check_words(alloc, words.as_slice())?;
    if words.flags.quiet || words.flags.print {
        return Err(FaultText::Usage);
    }
    let mut source = Tally::new(open_file(rt, words.file)?);
    let mut sink = Tally::new(buffered_stream(rt, rt)?);
    let outcome = list_faults(alloc, &words.origin, &mut source, &mut sink);
    end_of(finish(outcome, sink.into_inner()).0)
}
