//! The output of a program.

use crate::case::{Answer, Case};
use dns_name::Tally;
use dns_tools::{
    FAULT_STATUS, FaultText, Service, check_words, check_zone, end_of, list_faults, load_zone,
    run_message, run_once, serve_words,
};
use std::alloc::{AllocError, Global};

/// The output of a case's program: its report and exit status, or its diagnostic on standard
/// error.
pub(crate) fn answer(alloc: Global, case: &Case<'_>) -> Result<Answer, AllocError> {
    match report(alloc, case) {
        Ok(answer) => Ok(answer),
        Err(word) => Ok(Answer {
            status: FAULT_STATUS,
            written: format!(in alloc; "{word}\n")?.into_bytes(),
        }),
    }
}

// Calls what the program calls, with the arguments, the zone file and the standard input of the
// case. `zoneserve` is supported only with `once`, and only for a zone without faults.
fn report(alloc: Global, case: &Case<'_>) -> Result<Answer, FaultText> {
    let words = case.words.as_slice().split_first();
    let (program, words) = words.ok_or(FaultText::Usage)?;
    let mut file = Tally::new(case.file.as_slice());
    let mut input = Tally::new(case.input.as_slice());
    let mut sink = Tally::new(Vec::new(alloc));
    let status = end_of(match *program {
        "zonecheck" => {
            let words = check_words(alloc, words)?;
            check_zone(alloc, &words.origin, words.flags, &mut file, &mut sink)
        }
        "zonefaults" => {
            let words = check_words(alloc, words)?;
            list_faults(alloc, &words.origin, &mut file, &mut sink)
        }
        "zoneserve" => {
            let words = serve_words(alloc, words)?;
            let Service::Once(limit) = words.service else {
                return Err(FaultText::Usage);
            };
            let zone = load_zone(alloc, &words.origin, &mut file);
            let zone = zone.map_err(|_| FaultText::SourceFailed)?;
            run_once(alloc, &zone, limit, &mut input, &mut sink)
        }
        "dnsmsg" => run_message(alloc, &mut input, &mut sink),
        _ => return Err(FaultText::Usage),
    })?;
    let written = sink.into_inner();
    Ok(Answer { status, written })
}
