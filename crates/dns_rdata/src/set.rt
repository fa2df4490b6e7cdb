//! One record set, borrowed.
ghost use Rattle.std.specs.Prelude.{◌≡◌, ◌<◌, [], length, get_or};
ghost use Rattle.dns_spec.specs.Data.{Valid};

use crate::rtype::RType;

/// One borrowed record set: the type, the TTL and the data of its records, without their owner
/// (RFC 2181 5).
///
/// The data is always valid for the type.
pub trait SetView {
    ghost use Rattle.dns_spec.specs.Sets.{RecordSet, HasValidData};

    /// The set.
    ghost set: { Self → RecordSet };

    /// The type of all records.
    fn rtype(&self) -> RType
        ensures { result.0 ≡ (set self.now).rtype };

    /// The TTL of all records, in seconds.
    fn ttl(&self) -> u32
        ensures { result ≡ (set self.now).ttl };

    /// The number of records.
    fn len(&self) -> usize
        ensures value { result ≡ length (set self.now).rdata }
        ensures valid { HasValidData (set self.now) };

    /// The data of record `i`, counted from 0: octets without compression. Requires `i` to be
    /// below `len`.
    fn rdata(&self, i: usize) -> &[u8]
        requires { i < length (set self.now).rdata }
        ensures value { result.now ≡ get_or (set self.now).rdata i [] }
        ensures valid { Valid (set self.now).rtype result.now };
}
