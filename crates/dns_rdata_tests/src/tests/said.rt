ghost use Rattle.std.specs.Prelude.{◌<◌, ◌-◌, ◌^◌};

use dns_name::{Name, SinkFailed, Tally};
use dns_rdata::{DataBuffers, RType, Rdata, RdataFault, Word};
use std::alloc::Global;
use std::io::Write;

/// `ns.`, `mAIL.x.`, and SERIAL, REFRESH, RETRY, EXPIRE and MINIMUM (RFC 1035 3.3.13).
pub(crate) const SOA: &[u8] =
    b"\x02ns\0\x04mAIL\x01x\0\0\0\0\x01\0\0\x1c\x20\0\0\x03\x84\0\x12\x75\0\0\0\x01\x2c";

/// The data that words spell, relative to `Example.` The words are read twice with the same
/// buffers, so that anything left in the buffers by the first reading would show.
pub(crate) fn read(alloc: Global, rtype: RType, words: &[Word<'_>]) -> Result<Rdata, RdataFault> {
    let origin = Name::read_text(b"Example.", &Name::root()).unwrap_or_default();
    let mut buffers = DataBuffers::new(alloc);
    if let Ok(before) = Rdata::read_words_in(&mut buffers, rtype, words, &origin) {
        buffers.take_back(before);
    }
    Rdata::read_words_in(&mut buffers, rtype, words, &origin)
}

pub(crate) fn word(raw: &[u8], quoted: bool) -> Word<'_> {
    Word { raw, quoted }
}

/// Whether words spell data with these octets, or have this fault.
pub(crate) fn spell(
    alloc: Global,
    rtype: RType,
    words: &[Word<'_>],
    wanted: Result<&[u8], RdataFault>,
) -> bool {
    match read(alloc, rtype, words) {
        Ok(data) => wanted == Ok(data.octets()),
        Err(fault) => wanted == Err(fault),
    }
}

// Writes data as text; nothing if the data is invalid.
pub(crate) fn write<W: Write>(
    alloc: Global,
    rtype: RType,
    octets: &[u8],
    sink: &mut Tally<W>,
) -> Result<(), SinkFailed>
    requires { sink.old.failures < 2 ^ 64 - 1 }
{
    match Rdata::from_wire(alloc, rtype, octets) {
        Ok(_) => Rdata::write_text(rtype, octets, sink),
        Err(_) => Ok(()),
    }
}

/// The text of valid data; nothing if it could not be written.
pub(crate) fn written(alloc: Global, rtype: RType, octets: &[u8]) -> Vec<u8> {
    let mut sink = Tally::new(Vec::new(alloc));
    let result = write(alloc, rtype, octets, &mut sink);
    let mut text = sink.into_inner();
    if result.is_err() {
        text.clear();
    }
    text
}
