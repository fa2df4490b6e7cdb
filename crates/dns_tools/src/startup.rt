//! What all programs share: reading their arguments, opening the zone file, and reporting why they
//! stop.
ghost use Rattle.std.specs.Prelude.{◌≡◌, ◌⊎◌, Ok, Err, IfOk, IfErr, OnOk};
ghost use Rattle.std.specs.Io.Buffered.{writer_contents};
ghost use Rattle.std.specs.Io.KnownBytes.{Keeps};

use crate::load::{Refusal, write_refusal};
use crate::nonblocking::Nonblocking;
use crate::report::write_serving;
use crate::stop::{FAULT_STATUS, FaultText, Outcome, Stop, end_of, exit_status};
use dns_name::Tally;
use dns_zone::Zone;
use std::alloc::Global;
use std::env::FillError;
use std::io::{self, BufWriter, Error, ErrorKind, Write};
use std::rt::{Env, Files};
use std::time::Clock;
use std::{env, fs};

/// The arguments after the program's own name, which is ignored. Fails with `usage` if an argument
/// is not text, because no program takes such arguments, and with `no memory` if allocation fails.
pub fn given_words<R: Env + AllocGlobal>(rt: &R) -> Result<Vec<String>, FaultText>
    ensures { IfErr result (λ fault. (fault ≡ FaultText.Usage) ⊎ (fault ≡ FaultText.NoMemory)) }
{
    let given = env::args(&(Arguments { rt }, rt.alloc()));
    let given = given.map_err(|error| text_or_no_memory(&error, FaultText::Usage))?;
    Ok(given.collect(rt.alloc())?)
}

// The environment without the program's own name, which need not be text.
#[derive(Drop)]
struct Arguments<'a, R> {
    rt: &'a R,
}

impl<R: Env> Env for Arguments<'_, R> {
    fn arg(&self, i: usize, buf: &mut [u8]) -> Result<usize, FillError> {
        match i.checked_add(1) {
            Some(next) => self.rt.arg(next, buf),
            None => Err(FillError::NotPresent),
        }
    }

    fn var(&self, name: &str, buf: &mut [u8]) -> Result<usize, FillError> {
        self.rt.var(name, buf)
    }

    fn var_at(&self, i: usize, buf: &mut [u8]) -> Result<usize, FillError> {
        self.rt.var_at(i, buf)
    }
}

/// Opens the file at a path for reading. Fails with `R16` if it can't be opened, and with
/// `no memory` if allocation fails.
pub fn open_file<R: Files>(rt: &R, path: &str) -> Result<R::File, FaultText>
    ensures { IfErr result (λ fault. (fault ≡ FaultText.SourceFailed)
        ⊎ (fault ≡ FaultText.NoMemory)) }
{
    fs::open(rt, path).map_err(|error| text_or_no_memory(&error, FaultText::SourceFailed))
}

/// Flushes the buffer of a report if its run finished. Returns the outcome of the run, or `Sink` if
/// flushing failed, and the device under the buffer.
///
/// The buffer is taken apart, because dropping it would write once more after a failure.
pub fn finish<W: Write + Drop>(outcome: Outcome, output: BufWriter<W>) -> (Outcome, W)
    ensures stopped { IfErr outcome (λ stop. result.0 ≡ Err stop) }
    ensures ended { IfOk outcome (λ passes.
        (result.0 ≡ Ok passes) ⊎ (result.0 ≡ Err Stop.Sink)) }
    ensures written { OnOk result.0
        (Keeps (writer_contents W.contents output) (W.contents result.1)) }
{
    let mut output = output;
    let flushed = match outcome {
        Ok(_) => output.flush(),
        Err(_) => Ok(()),
    };
    let (device, _unwritten) = output.into_parts();
    match flushed {
        Ok(()) => (outcome, device),
        Err(_) => (Err(Stop::Sink), device),
    }
}

/// Writes to standard error why there is no zone to serve, in the checker's format. Returns the
/// exit status: 1, or 2 if the writing failed.
pub fn refuse<R: Clock + AllocGlobal, E: Print>(
    rt: &R,
    errors: &E,
    refusal: &Refusal,
) -> Result<u8, FaultText>
    ensures status { IfOk result (λ status. (status ≡ 1) ⊎ (status ≡ 2)) }
    ensures fault { IfErr result (λ fault. fault ≡ FaultText.NoMemory) }
{
    let mut sink = Tally::new(buffered_stream(rt, errors)?);
    let outcome = match write_refusal(refusal, &mut sink) {
        Ok(()) => Ok(false),
        Err(failed) => Err(failed.into()),
    };
    Ok(exit_status(&finish(outcome, sink.into_inner()).0))
}

/// Writes the line to standard output that says that a zone is served. Fails with `P1` if that
/// can't be written.
pub fn say_serving<R: Clock + Print + AllocGlobal>(rt: &R, zone: &Zone) -> Result<(), FaultText>
    ensures { IfErr result
        (λ fault. (fault ≡ FaultText.SinkFailed) ⊎ (fault ≡ FaultText.NoMemory)) }
{
    let mut sink = Tally::new(buffered_stream(rt, rt)?);
    let outcome = match write_serving(zone, &mut sink) {
        Ok(()) => Ok(true),
        Err(failed) => Err(failed.into()),
    };
    end_of(finish(outcome, sink.into_inner()).0)?;
    Ok(())
}

/// A standard stream with a buffer, whose calls wait even if the stream is non-blocking. Fails with
/// `no memory` if allocation fails.
pub fn buffered_stream<'a, R: Clock + AllocGlobal, P: Print>(
    rt: &'a R,
    stream: &'a P,
) -> Result<BufWriter<Nonblocking<'a, io::Printer<'a, P>, R>>, FaultText>
    ensures { IfErr result (λ fault. fault ≡ FaultText.NoMemory) }
{
    let buffered = BufWriter::new(rt.alloc(), Nonblocking::new(io::writer(stream), rt));
    buffered.ok().ok_or(FaultText::NoMemory)
}

/// The exit status of a program: the given one, or, if the program stopped early, 2, after its
/// diagnostic was printed.
pub fn end(rt: &impl Eprint, status: Result<u8, FaultText>) -> u8
    ensures said { IfErr status (λ _. result ≡ 2) }
    ensures status { IfOk status (λ status. result ≡ status) }
{
    match status {
        Ok(status) => status,
        Err(text) => say(rt, text),
    }
}

/// Writes a diagnostic to standard error, and returns the exit status for it, 2, even if it can't
/// be written.
pub fn say(rt: &impl Eprint, text: FaultText) -> u8
    ensures { result ≡ 2 }
{
    let _written = rt.eprintln(text);
    FAULT_STATUS
}

/// The diagnostic for a failed call: `no memory` if memory was missing, else `text`.
pub(crate) fn text_or_no_memory(error: &Error, text: FaultText) -> FaultText
    ensures { (result ≡ text) ⊎ (result ≡ FaultText.NoMemory) }
{
    if error.kind() == ErrorKind::OutOfMemory {
        FaultText::NoMemory
    } else {
        text
    }
}
