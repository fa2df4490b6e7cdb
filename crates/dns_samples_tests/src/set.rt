ghost use Rattle.dns_spec.specs.Data.{Valid};

use dns_rdata::{RType, Rdata, SetView};

/// A set of one record.
#[derive(Drop)]
pub struct OneRecord {
    /// Its type.
    pub rtype: RType,
    /// Its TTL, in seconds.
    pub ttl: u32,
    /// Its data, which is valid for the type.
    pub rdata: Rdata,
    ghost valid: { Valid rtype.0 rdata },
}

impl SetView for OneRecord {
    ghost use Rattle.std.specs.Prelude.{[], ◌∷◌};

    ghost set = { λ s. record { rtype = s.rtype.0; ttl = s.ttl; rdata = s.rdata ∷ [] } };

    fn rtype(&self) -> RType {
        self.rtype
    }

    fn ttl(&self) -> u32 {
        self.ttl
    }

    fn len(&self) -> usize {
        1
    }

    fn rdata(&self, _i: usize) -> &[u8] {
        self.rdata.octets()
    }
}
