//! Why words or octets are invalid data for a type.
ghost use Rattle.std.specs.Prelude.{◌≡◌};
ghost use Rattle.dns_rdata.specs.RdataFault.{fault_code};
ghost use Rattle.dns_rdata.specs.declared.rdata_fault.RdataFault.TheVariants.{BadName, NoMemory};

use dns_name::NameFault;
use std::alloc::AllocError;

/// Why words or octets are invalid data for a type.
#[derive(Clone, Copy, Debug, PartialEq, Eq)]
pub enum RdataFault {
    /// There are too few words, or too many.
    WordCount = 1,
    /// A word is not a number of the required size, or is quoted.
    BadNumber,
    /// A word is not an address, or is quoted.
    BadAddress,
    /// A word is not a name, or is quoted.
    BadName,
    /// A string has more than 255 octets or a bad escape; or the words spell more than 65,535
    /// octets.
    BadString,
    /// In the generic form (RFC 3597 5), the length is invalid, or the hex digits do not spell that
    /// many octets; or the data of a type without a mnemonic is in another form.
    BadHex,
    /// The octets are invalid for the type, or more than 65,535 (RFC 1035 3.2.1).
    NotOfType,
    /// Allocation failed.
    NoMemory,
}

impl RdataFault {
    /// The code of the fault, 1 to 8 in the order of the variants.
    pub fn code(self) -> u8
        ensures { result ≡ fault_code self }
    {
        self as u8
    }
}

/// Any fault in the text of a name is reported as `BadName`.
impl From<NameFault> for RdataFault {
    ghost from_gives = { λ _ fault. fault ≡ BadName };

    fn from(_fault: NameFault) -> RdataFault {
        RdataFault::BadName
    }
}

impl From<AllocError> for RdataFault {
    ghost from_gives = { λ _ fault. fault ≡ NoMemory };

    fn from(_error: AllocError) -> RdataFault {
        RdataFault::NoMemory
    }
}
