//! Replays recorded runs of the programs: `replay FILE ..` reads the cases in each FILE, calls
//! what the program calls with the arguments, the zone file and the standard input of each case,
//! and reports each case whose output differs from the recorded one.
//!
//! The first lines of the files in `data/` describe the format of a case.
#![tactic(auto)]

mod answer;
mod case;

use answer::answer;
use case::Case;
use dns_tools::{FaultText, given_words, say};
use std::fs;
use std::io::{self, Write};
use std::process::ExitCode;
use std::rt::{Env, Files};

fn main(rt: HostRuntime) -> ExitCode {
    ExitCode::from(match replay(&rt) {
        Ok(true) => 0,
        Ok(false) => 1,
        Err(word) => say(&rt, word),
    })
}

// Whether the output of all cases in all files is as recorded. Empty lines separate cases.
fn replay<R: Env + Files + Print + AllocGlobal>(rt: &R) -> Result<bool, FaultText> {
    let mut passes = true;
    for file in given_words(rt)?.as_slice() {
        let text = fs::read_to_string(rt, file.as_str()).map_err(|_| FaultText::SourceFailed)?;
        let (mut count, mut differing) = (0u32, 0u32);
        for part in text.as_str().split("\n\n") {
            if part.starts_with('#') {
                continue;
            }
            count = count.saturating_add(1);
            if !gives_its_answer(rt, part)? {
                differing = differing.saturating_add(1);
                passes = false;
            }
        }
        println!(rt; "{count} cases, {differing} differ").map_err(|_| FaultText::SinkFailed)?;
    }
    Ok(passes)
}

// Whether the output of a case is as recorded. If not, prints the case and its output.
fn gives_its_answer<R: Print + AllocGlobal>(rt: &R, part: &str) -> Result<bool, FaultText> {
    let case = Case::read(rt.alloc(), part)?;
    let given = answer(rt.alloc(), &case)?;
    if given == case.wanted {
        return Ok(true);
    }
    let said = println!(rt; "{part}\nbut status {}, and", given.status);
    said.map_err(|_| FaultText::SinkFailed)?;
    let written = io::writer(rt).write_all(given.written.as_slice());
    written.map_err(|_| FaultText::SinkFailed)?;
    Ok(false)
}
