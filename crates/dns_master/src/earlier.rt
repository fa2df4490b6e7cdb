//! What is known of the entries so far, faulty or not, and why one is faulty.
ghost use Rattle.std.specs.Prelude.{◌≡◌, ◌≢◌, ◌≤◌};
ghost use Rattle.std.specs.Option.{ForSome};
ghost use Rattle.dns_spec.specs.Names.{folded};
ghost use Rattle.dns_master.specs.declared.read_fault.ReadCode.TheVariants.{SourceFailed};

use crate::read_fault::ReadCode;
use crate::record::Record;
use dns_name::Name;

/// What later entries need of the entries so far, faulty or not.
#[derive(Drop)]
pub(crate) struct Earlier {
    /// The current origin.
    pub(crate) origin: Name,
    /// The TTL of the last `$TTL`; `Some(None)` if it is invalid.
    pub(crate) default_ttl: Option<Option<u32>>,
    /// The TTL of the last record that states one; `Some(None)` if it is invalid.
    pub(crate) stated_ttl: Option<Option<u32>>,
    /// One more than the number of records that may follow, or 0 after too many. Each record so far
    /// counts, faulty or not.
    pub(crate) records_left: usize,
    /// Whether an owner was stated, and the last one is valid.
    pub(crate) has_owner: bool,
    /// The last record without a fault, but with the owner that was stated last, if it is valid.
    /// The next record is read into this field, its owner first.
    pub(crate) last: Record,
    ghost default_short: { ForSome default_ttl (λ t. ForSome t (λ n. n ≤ 2147483647)) },
    ghost stated_short: { ForSome stated_ttl (λ t. ForSome t (λ n. n ≤ 2147483647)) },
    ghost low: { folded last.owner ≡ last.owner },
}

/// Why an entry is faulty, apart from a lexical fault.
#[derive(Clone, Copy, Debug)]
pub(crate) struct Blame {
    pub(crate) code: ReadCode,
    /// What is wrong with the owner (`R07`) or the data (`R13`), as a number.
    pub(crate) number: Option<u8>,
    /// How many words of the entry come before the one at fault. Not used if no word is at fault.
    pub(crate) words: usize,
    ghost source: { code ≢ SourceFailed },
}

/// Why a record is faulty, apart from its owner: the code, and what is wrong with its data (`R13`),
/// as a number.
#[derive(Clone, Copy, Debug)]
pub(crate) struct RecordFault {
    pub(crate) code: ReadCode,
    pub(crate) number: Option<u8>,
    ghost source: { code ≢ SourceFailed },
}
