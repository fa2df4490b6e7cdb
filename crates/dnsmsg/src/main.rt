//! A printer of messages: `dnsmsg` prints the message whose hexadecimal digits are the first line
//! of standard input.
#![tactic(auto)]

use dns_name::Tally;
use dns_tools::{
    FaultText, Nonblocking, buffered_stream, end, end_of, finish, given_words, run_message,
};
use std::process::ExitCode;
use std::rt::Env;
use std::time::Clock;

fn main(rt: HostRuntime) -> ExitCode {
    ExitCode::from(end(&rt, print(&rt)))
}

// Prints the message on standard input, and returns the exit status. Takes no arguments.
fn print<R: Env + Input + Print + Clock + AllocGlobal>(rt: &R) -> Result<u8, FaultText> {
    let alloc = rt.alloc();
    if !given_words(rt)?.is_empty() {
        return Err(FaultText::Usage);
    }
    let mut sink = Tally::new(buffered_stream(rt, rt)?);
    let mut source = Tally::new(Nonblocking::new(rt.reader(), rt));
    let outcome = run_message(alloc, &mut source, &mut sink);
    end_of(finish(outcome, sink.into_inner()).0)
}
