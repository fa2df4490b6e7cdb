//! Why octets are not a message.
ghost use Rattle.std.specs.Prelude.{◌≡◌};
ghost use Rattle.dns_wire.specs.WireFault.{fault_code};

use std::alloc::{AllocError, AllocFailed};

/// Why octets are not a message (RFC 1035 4.1).
#[derive(Clone, Copy, Debug, PartialEq, Eq)]
pub enum WireFault {
    /// The octets end before the message is complete.
    Short = 1,
    /// A label begins with the bits 01 or 10, which are reserved (RFC 1035 4.1.4).
    ReservedLabel,
    /// A pointer leads into the header, or to an offset that is not before the run of labels that
    /// it ends (RFC 1035 4.1.4).
    BadPointer,
    /// A name has more than 255 octets (RFC 1035 2.3.4).
    LongName,
    /// The octets of a record's data do not exactly fill the fields of its type, or a field is
    /// invalid (RFC 1035 3.3).
    BadData,
    /// Octets follow the last record.
    Trailing,
    /// Allocation failed.
    NoMemory,
}

impl WireFault {
    /// The number of the fault, 1 to 7 in the order of the variants.
    pub fn code(self) -> u8
        ensures { result ≡ fault_code self }
    {
        self as u8
    }
}

impl From<AllocError> for WireFault {
    ghost use Rattle.dns_wire.specs.declared.wire_fault.WireFault.{WireFault};

    ghost from_gives = { λ _ fault. fault ≡ WireFault.NoMemory };

    fn from(_refused: AllocError) -> WireFault {
        WireFault::NoMemory
    }
}

impl<T: Drop> From<AllocFailed<T>> for WireFault {
    ghost use Rattle.dns_wire.specs.declared.wire_fault.WireFault.{WireFault};

    ghost from_gives = { λ _ fault. fault ≡ WireFault.NoMemory };

    fn from(_refused: AllocFailed<T>) -> WireFault {
        WireFault::NoMemory
    }
}
