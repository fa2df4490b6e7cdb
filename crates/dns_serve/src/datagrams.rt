//! Devices that receive datagrams and send replies.
ghost use Rattle.std.specs.Prelude.{◌≡◌, ℕ, ◌-◌, ◌^◌, ◌<◌, List, Option, IsOk, IsTrue, Bool};
ghost use Rattle.dns_spec.specs.Names.{Octets};
ghost use Rattle.dns_name.specs.Counted.{failures_after};
ghost use Rattle.dns_serve.specs.Turns.{Hands, Sends, KeepsAll};

/// A call of a device failed, and was counted.
#[derive(Clone, Copy, Debug, PartialEq, Eq)]
pub struct Failed;

/// A device that receives one datagram after another, and sends replies to the sender of the last
/// one.
///
/// It counts its failures: the count rises by one if and only if a call fails. Each call requires
/// that the count be below the greatest `u64`. A device in memory knows the datagrams that it
/// received and sent; for a socket they are unknown.
pub trait Datagrams {
    /// The datagrams received so far, if they are known.
    ghost received: { Self → Option (List Octets) };

    /// The datagrams sent so far, if they are known.
    ghost sent: { Self → Option (List Octets) };

    /// The number of failed calls.
    ghost count: { Self → ℕ };

    /// Whether there is a sender to reply to.
    ghost has_sender: { Self → Bool };

    /// Receives one datagram, stores its first 512 octets at the front of `buf`, and returns how
    /// many were stored. Further octets of the datagram are lost.
    fn receive(&mut self, buf: &mut [u8; 512]) -> Result<usize, Failed>
        requires { count self.old < 2 ^ 64 - 1 }
        ensures datagram { Hands (received self.old) (received self.new) result buf.new }
        ensures sent { KeepsAll (sent self.old) (sent self.new) }
        ensures sender { IsOk result → IsTrue (has_sender self.new) }
        ensures counted { count self.new ≡ failures_after (count self.old) result };

    /// Sends one datagram to the sender of the last datagram received. Fails without such a sender.
    fn send(&mut self, reply: &[u8]) -> Result<(), Failed>
        requires { count self.old < 2 ^ 64 - 1 }
        ensures datagram { Sends (sent self.old) (sent self.new) result reply.now }
        ensures received { KeepsAll (received self.old) (received self.new) }
        ensures sender { IsOk result → IsTrue (has_sender self.old) }
        ensures counted { count self.new ≡ failures_after (count self.old) result };

    /// The number of failed calls.
    fn failures(&self) -> u64
        ensures { result ≡ count self.now };
}
