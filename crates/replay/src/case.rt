//! The format of a case.

use dns_tools::FaultText;
use percent_encoding::percent_decode;
use std::alloc::Global;
use std::str::Lines;

/// A run of a program, and its expected output.
#[derive(Drop)]
pub(crate) struct Case<'a> {
    /// The program's name, and its arguments.
    pub words: Vec<&'a str>,
    /// The octets of the zone file.
    pub file: Vec<u8>,
    /// The octets of standard input.
    pub input: Vec<u8>,
    /// The recorded output.
    pub wanted: Answer,
}

/// The exit status of a run, and what it writes to standard output, or to standard error if the
/// status is 2.
#[derive(PartialEq, Eq, Drop)]
pub(crate) struct Answer {
    pub status: u8,
    pub written: Vec<u8>,
}

impl Case<'_> {
    /// Parses a case: a line with the program and its arguments, the lines of the file and of
    /// standard input, the line of the status, and the lines of output.
    pub(crate) fn read(alloc: Global, text: &str) -> Result<Case<'_>, FaultText> {
        let (asked, answered) = text.split_once("\nstatus ").unwrap_or((text, ""));
        let (asked, input) = asked
            .split_once("\nstandard input\n")
            .unwrap_or((asked, ""));
        let (mut asked, mut answered) = (asked.lines(), answered.lines());
        let words = asked.next().unwrap_or("").split_whitespace();
        let status = answered.next().unwrap_or("").parse();
        Ok(Case {
            words: words.collect(alloc)?,
            file: octets_of(alloc, asked)?,
            input: octets_of(alloc, input.lines())?,
            wanted: Answer {
                status: status.map_err(|_| FaultText::SourceFailed)?,
                written: octets_of(alloc, answered)?,
            },
        })
    }
}

// The octets that lines spell. Each line stands for its octets and an LF, or, if it ends with `%`,
// for its octets alone.
fn octets_of(alloc: Global, lines: Lines<'_>) -> Result<Vec<u8>, FaultText> {
    let mut octets = Vec::new(alloc);
    for line in lines {
        let line = line.strip_prefix("|").ok_or(FaultText::SourceFailed)?;
        let spelled = line.strip_suffix("%");
        percent_decode(spelled.unwrap_or(line).as_bytes()).append_to(&mut octets)?;
        if spelled.is_none() {
            octets.push(b'\n')?;
        }
    }
    Ok(octets)
}
