//! Why a program stops, the diagnostic that it prints, and its exit status.
ghost use Rattle.std.specs.Prelude.{◌≡◌};
ghost use Rattle.dns_tools.specs.declared.stop.Stop.TheVariants.{Memory};
ghost use Rattle.dns_tools.specs.declared.stop.FaultText.TheVariants.{BadOrigin, NoMemory};
ghost use Rattle.clap.specs.Values.{kind_of};
ghost use Rattle.dns_tools.specs.Status.{status_of, end_of, status_of_turns};
ghost use Rattle.dns_tools.specs.Status.{fault_text, text_of_kind};

use clap::error::ErrorKind;
use dns_name::NameFault;
use std::alloc::{AllocError, AllocFailed};
use thiserror::Error;

/// Why a run stopped before the end of its input.
#[derive(Clone, Copy, Debug, PartialEq, Eq)]
pub enum Stop {
    /// Memory allocation failed.
    Memory,
    /// Reading failed.
    Source,
    /// Writing failed.
    Sink,
}

impl From<AllocError> for Stop {
    ghost from_gives = { λ _ stop. stop ≡ Memory };

    fn from(_error: AllocError) -> Stop {
        Stop::Memory
    }
}

/// The result of a run, or why it stopped early.
pub type Outcome = Result<bool, Stop>;

/// The exit status of a program: 0 if its run returned true, 1 if it returned false, 2 if it
/// stopped early.
pub fn exit_status(outcome: &Outcome) -> u8
    ensures { result ≡ status_of outcome.now }
{
    match outcome {
        Ok(true) => 0,
        Ok(false) => 1,
        Err(_) => 2,
    }
}

/// How a program ends: with the exit status of its run, or with the diagnostic for its stop.
pub fn end_of(outcome: Outcome) -> Result<u8, FaultText>
    ensures { result ≡ end_of outcome }
{
    match outcome {
        Ok(_) => Ok(exit_status(&outcome)),
        Err(stop) => Err(FaultText::from(stop)),
    }
}

/// The exit status of a server after its last turn: 0 if every diagnostic was written to standard
/// error, else 2.
pub fn status_of_turns(are_said: bool) -> u8
    ensures { result ≡ status_of_turns are_said }
{
    if are_said { 0 } else { FAULT_STATUS }
}

/// What a program prints on standard error if it can't do its task. The texts are printed
/// literally.
#[derive(Clone, Copy, Debug, PartialEq, Eq, Error)]
pub enum FaultText {
    /// The program does not take these arguments.
    #[error("usage")]
    Usage,
    /// ORIGIN is not a domain name.
    #[error("bad origin")]
    BadOrigin,
    /// Memory allocation failed.
    #[error("no memory")]
    NoMemory,
    /// The zone file can't be opened or read, or standard input can't be read.
    #[error("R16")]
    SourceFailed,
    /// Writing to standard output failed.
    #[error("P1")]
    SinkFailed,
    /// The address or the given socket can't be used.
    #[error("bind")]
    NotBound,
}

/// The exit status of a program that prints such a diagnostic.
pub const FAULT_STATUS: u8 = 2;

impl From<AllocError> for FaultText {
    ghost from_gives = { λ _ text. text ≡ NoMemory };

    fn from(_error: AllocError) -> FaultText {
        FaultText::NoMemory
    }
}

/// The diagnostic of a program whose run stopped for this reason.
impl From<Stop> for FaultText {
    ghost from_gives = { λ stop text. text ≡ fault_text stop };

    fn from(stop: Stop) -> FaultText {
        match stop {
            Stop::Memory => FaultText::NoMemory,
            Stop::Source => FaultText::SourceFailed,
            Stop::Sink => FaultText::SinkFailed,
        }
    }
}

/// Whatever the fault of ORIGIN, the diagnostic is `bad origin`.
impl From<NameFault> for FaultText {
    ghost from_gives = { λ _ text. text ≡ BadOrigin };

    fn from(_fault: NameFault) -> FaultText {
        FaultText::BadOrigin
    }
}

/// The diagnostic is `no memory` if `clap` could not allocate, and otherwise `usage`.
impl From<clap::Error> for FaultText {
    ghost from_gives = { λ error text. text ≡ text_of_kind (kind_of error) };

    fn from(error: clap::Error) -> FaultText {
        match error.kind() {
            ErrorKind::OutOfMemory => FaultText::NoMemory,
            _ => FaultText::Usage,
        }
    }
}

impl<T: Drop> From<AllocFailed<T>> for FaultText {
    ghost from_gives = { λ _ text. text ≡ NoMemory };

    fn from(_refused: AllocFailed<T>) -> FaultText {
        FaultText::NoMemory
    }
}
