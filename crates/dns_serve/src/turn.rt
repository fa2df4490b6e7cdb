//! One turn of a server over UDP: a datagram and its reply (RFC 1035 4.2.1).
ghost use Rattle.std.specs.Prelude.{◌≡◌, ◌-◌, ◌^◌, ◌<◌};
ghost use Rattle.dns_name.specs.Counted.{failures_after};
ghost use Rattle.dns_serve.specs.Turns.{TurnOf, turn};

use crate::datagrams::Datagrams;
use crate::turn_fault::TurnFault;
use dns_answer::{UdpBuilder, respond_in};
use dns_zone::{Steps, Zone};

// The most octets that are kept of a datagram: the most of a message over UDP (RFC 1035 4.2.1).
// The device drops the others, so a longer datagram gets the reply to its first 512 octets.
const MOST_KEPT: usize = 512;

/// Receives one datagram, and sends the reply to its sender: true if a reply was sent, false if
/// the datagram gets none.
///
/// Fails with `ReceiveFailed` if receiving fails, with nothing sent, and with `SendFailed` if
/// sending fails. Nothing is tried again, and no memory is allocated.
///
/// Each call first clears its buffers. Callers that take many turns should keep buffers and call
/// `udp_turn_in`.
pub fn udp_turn<D: Datagrams>(zone: &Zone, device: &mut D) -> Result<bool, TurnFault>
    requires { D.count device.old < 2 ^ 64 - 1 }
    ensures turn { TurnOf zone.now (turn D.received D.sent device.old device.new) result }
    ensures counted { D.count device.new ≡ failures_after (D.count device.old) result }
{
    let mut buffer = [0; MOST_KEPT];
    let mut builder = UdpBuilder::new();
    udp_turn_in(zone, device, &mut buffer, &mut builder)
}

/// Takes a turn as `udp_turn` does, in the caller's buffers: for the datagram and for the reply.
///
/// The buffers are not cleared, and earlier turns in them have no effect.
pub fn udp_turn_in<D: Datagrams>(
    zone: &Zone,
    device: &mut D,
    buffer: &mut [u8; MOST_KEPT],
    builder: &mut UdpBuilder,
) -> Result<bool, TurnFault>
    requires { D.count device.old < 2 ^ 64 - 1 }
    ensures turn { TurnOf zone.now (turn D.received D.sent device.old device.new) result }
    ensures counted { D.count device.new ≡ failures_after (D.count device.old) result }
{
    let Ok(count) = device.receive(buffer) else {
        return Err(TurnFault::ReceiveFailed);
    };
    let Some(reply) = respond_in(&mut Steps::new(zone), &buffer[..count], builder) else {
        return Ok(false);
    };
    match device.send(reply) {
        Ok(()) => Ok(true),
        Err(_) => Err(TurnFault::SendFailed),
    }
}
