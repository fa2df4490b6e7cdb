//! Why a zone file is rejected.
ghost use Rattle.std.specs.Prelude.{◌≡◌};
ghost use Rattle.dns_master.specs.Codes.{IsFaultOn, code_number};

use std::alloc::{AllocError, AllocFailed};

/// Why a zone file is rejected, by code.
#[derive(Clone, Copy, Debug, PartialEq, Eq)]
pub enum ReadCode {
    /// An invalid octet.
    BadOctet = 1,
    /// A backslash that begins no escape.
    BadEscape,
    /// A quoted string that does not end on its line.
    UnendedString,
    /// A parenthesis inside parentheses, a closing one without an opening one, or a text that ends
    /// inside parentheses.
    Parenthesis,
    /// A directive other than `$ORIGIN` and `$TTL`.
    UnknownDirective,
    /// Invalid arguments of a directive.
    DirectiveWords,
    /// An invalid owner name.
    BadOwner,
    /// No owner is stated, and there is no earlier record.
    NoOwner,
    /// A TTL that is not a number up to 2147483647 (RFC 2181 8).
    BadTtl,
    /// A class other than IN.
    OtherClass,
    /// A missing or invalid type, or a type that zones may not have.
    BadType,
    /// No TTL is stated, and no earlier `$TTL` or record states one.
    NoTtl,
    /// Invalid data.
    BadData,
    /// More than 100,000 records.
    TooManyRecords,
    /// More than 16,777,216 octets.
    TooLong,
    /// The source failed.
    SourceFailed,
    /// Memory allocation failed.
    NoMemory,
}

impl ReadCode {
    /// The number of the code, 1 to 17 in the order of the variants: 7 for `R07`.
    pub fn number(self) -> u8
        ensures { result ≡ code_number self }
    {
        self as u8
    }
}

impl<T: Drop> From<AllocFailed<T>> for ReadCode {
    ghost use Rattle.dns_master.specs.declared.read_fault.ReadCode.{ReadCode};

    ghost from_gives = { λ _ code. code ≡ ReadCode.NoMemory };

    fn from(_refused: AllocFailed<T>) -> ReadCode {
        ReadCode::NoMemory
    }
}

impl From<AllocError> for ReadFault {
    ghost use Rattle.dns_master.specs.declared.read_fault.ReadCode.{ReadCode};

    ghost from_gives = { λ _ f. (f.code ≡ ReadCode.NoMemory) × (f.line ≡ 0) };

    fn from(_refused: AllocError) -> ReadFault {
        ReadFault {
            code: ReadCode::NoMemory,
            line: 0,
        }
    }
}

/// Why a zone file is rejected, and on which line.
#[derive(Clone, Copy, Debug, PartialEq, Eq)]
pub struct ReadFault {
    /// The code.
    pub code: ReadCode,
    /// The line on which the faulty entry begins, counted from 1; 0 if the source or an allocation
    /// failed.
    pub line: u32,
}

/// The fault of a file whose entry on this line is rejected with this code. The line is 0 if an
/// allocation failed.
pub(crate) fn entry_fault(code: ReadCode, line: u32) -> ReadFault
    ensures { IsFaultOn line code result }
{
    match code {
        ReadCode::NoMemory => ReadFault { code, line: 0 },
        _ => ReadFault { code, line },
    }
}
