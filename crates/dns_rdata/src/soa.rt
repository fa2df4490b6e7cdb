//! The numbers at the end of an SOA's data (RFC 1035 3.3.13).
ghost use Rattle.std.specs.Prelude.{◌≡◌};
ghost use Rattle.dns_spec.specs.Data.{Valid, type_soa, soa_serial, soa_minimum};

use crate::rdata::Rdata;
use byteorder::{BigEndian, ByteOrder};

impl Rdata {
    /// The SERIAL in an SOA's data: the first of the five numbers at its end.
    pub fn soa_serial(octets: &[u8]) -> u32
        requires { Valid type_soa octets.now }
        ensures { result ≡ soa_serial octets.now }
    {
        BigEndian::read_u32(&octets[octets.len() - 20..])
    }

    /// The MINIMUM in an SOA's data, in seconds: the last of the five numbers at its end. It
    /// bounds the time for which a negative answer is cached (RFC 2308 4).
    pub fn soa_minimum(octets: &[u8]) -> u32
        requires { Valid type_soa octets.now }
        ensures { result ≡ soa_minimum octets.now }
    {
        BigEndian::read_u32(&octets[octets.len() - 4..])
    }
}
