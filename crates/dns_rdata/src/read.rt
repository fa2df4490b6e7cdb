//! Reads data from the words of a zone file (RFC 1035 5.1, RFC 3597 5).
ghost use Rattle.std.specs.Prelude.{◌≡◌, ◌≢◌, length, IfOk, IfErr};
ghost use Rattle.dns_spec.specs.Names.{Octets};
ghost use Rattle.dns_spec.specs.Data.{Valid};
ghost use Rattle.dns_spec.specs.DataText.{Says};
ghost use Rattle.dns_spec.specs.DataFaults.{DataFaultIs};
ghost use Rattle.dns_spec.specs.AllFaults.{FaultyData};
ghost use Rattle.dns_rdata.specs.RdataFault.{fault_code};

use crate::rdata::Rdata;
use crate::rdata_fault::RdataFault;
use crate::rtype::RType;
use crate::typed::{USUAL_OCTETS, put_typed};
use crate::unknown::{faulty_unknown, is_unknown_mark, put_unknown};
use crate::word::Word;
use dns_name::Name;
use std::alloc::Global;
use std::mem::replace;

/// Buffers for reading data; their memory is reused from record to record.
#[derive(Drop)]
pub struct DataBuffers {
    alloc: Global,
    name: Name,
    octets: Vec<u8>,
    // The octets that words in the generic form spell, before they are checked against the type.
    spelled: Vec<u8>,
    /// After words that spell no data: the number of words, from the type on, before the one at
    /// fault, which is the type if the number of words is wrong.
    pub words_before_fault: usize,
}

impl DataBuffers {
    /// Empty buffers. Does not allocate.
    pub fn new(alloc: Global) -> DataBuffers {
        DataBuffers {
            alloc,
            name: Name::root(),
            octets: Vec::new(alloc),
            spelled: Vec::new(alloc),
            words_before_fault: 0,
        }
    }

    /// Takes back the memory of data that is no longer needed, for the next data.
    pub fn take_back(&mut self, data: Rdata) {
        self.octets = data.octets;
    }
}

impl Rdata {
    /// The data that words spell, relative to the origin, with its names in lower case.
    ///
    /// If the first word is the unquoted `\#`, the other words must be the length and the octets in
    /// hex digits (RFC 3597 5), or else the fault is `BadHex`; if these octets are invalid for the
    /// type, the fault is `NotOfType`. A type without a mnemonic has only this form; any other
    /// words are `BadHex`. For other types, words that do not begin with `\#` must be in the form
    /// of the type. The fault is then `WordCount` if their number is wrong, or else that of the
    /// first invalid word from the left: `BadNumber`, `BadAddress`, `BadName` or `BadString`.
    /// `BadString` also reports data of more than 65,535 octets. Fails with `NoMemory` only if
    /// allocation fails.
    pub fn read_words(
        alloc: Global,
        rtype: RType,
        words: &[Word<'_>],
        origin: &Name,
    ) -> Result<Rdata, RdataFault>
        ensures valid { IfOk result (λ d. Valid rtype.0 d) }
        ensures ok { IfOk result (λ d. Says rtype.0 words.now origin.now d) }
        ensures only { IfOk result
            (λ d. (e : Octets) → Says rtype.0 words.now origin.now e → e ≡ d) }
        ensures fault { IfErr result (λ fault. fault ≢ RdataFault.NoMemory → (d : Octets)
            → Says rtype.0 words.now origin.now d → ⊥) }
        ensures which { IfErr result (λ fault. fault ≢ RdataFault.NoMemory
            → DataFaultIs rtype.0 words.now origin.now (fault_code fault)) }
    {
        Rdata::read_words_in(&mut DataBuffers::new(alloc), rtype, words, origin)
    }

    /// The data that words spell, as `read_words` returns it. The data takes its memory from
    /// `buffers`; `DataBuffers::take_back` returns the memory.
    #[tactic(auto, using(crate::proofs::TypedData::said_valid))]
    pub fn read_words_in(
        buffers: &mut DataBuffers,
        rtype: RType,
        words: &[Word<'_>],
        origin: &Name,
    ) -> Result<Rdata, RdataFault>
        ensures valid { IfOk result (λ d. Valid rtype.0 d) }
        ensures ok { IfOk result (λ d. Says rtype.0 words.now origin.now d) }
        ensures only { IfOk result
            (λ d. (e : Octets) → Says rtype.0 words.now origin.now e → e ≡ d) }
        ensures fault { IfErr result (λ fault. fault ≢ RdataFault.NoMemory → (d : Octets)
            → Says rtype.0 words.now origin.now d → ⊥) }
        ensures which { IfErr result (λ fault. fault ≢ RdataFault.NoMemory
            → DataFaultIs rtype.0 words.now origin.now (fault_code fault)) }
        ensures faulty { IfErr result (λ fault. fault ≢ RdataFault.NoMemory
            → FaultyData rtype.0 words.now origin.now buffers.new.words_before_fault) }
    {
        let mut octets = replace(&mut buffers.octets, Vec::new(buffers.alloc));
        octets.clear();
        octets.reserve_exact(USUAL_OCTETS)?;
        if let Some((first, others)) = words.split_first() {
            if is_unknown_mark(first) {
                buffers.spelled.clear();
                buffers.words_before_fault = 1;
                if let Err(fault) = put_unknown(others, &mut buffers.spelled) {
                    buffers.words_before_fault = faulty_unknown(others) + 1;
                    return Err(fault);
                }
                return Rdata::lowered(rtype, buffers.spelled.as_slice(), octets);
            }
        }
        let before = &mut buffers.words_before_fault;
        put_typed(rtype, words, origin, &mut buffers.name, before, &mut octets)?;
        Ok(Rdata { octets })
    }
}
