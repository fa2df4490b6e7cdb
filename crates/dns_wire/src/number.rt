//! Reads big-endian numbers in a message (RFC 1035 2.3.2).
ghost use Rattle.std.specs.Prelude.{◌≡◌, ◌+◌, ◌<◌, ◌≤◌, ◌↔◌, length, take, drop, IfOk, IfErr, IsErr};
ghost use Rattle.dns_spec.specs.Reading.{field16, field32};
ghost use Rattle.dns_wire.specs.WireFault.{fault_code};

use crate::wire_fault::WireFault;

/// The 16 bits at offset `at`. Fails with `Short` if the message ends before two octets are read.
pub(crate) fn read_u16(message: &[u8], at: usize) -> Result<u16, WireFault>
    requires { at ≤ length message.now }
    ensures ok { IfOk result (λ number. number ≡ field16 message.now at) }
    ensures within { IfOk result (λ number. at + 2 ≤ length message.now) }
    ensures err { IsErr result → length message.now < at + 2 }
    ensures short { IfErr result (λ fault. fault_code fault ≡ 1) }
{
    Ok(u16::from_be_bytes(octets_at(message, at)?))
}

/// The 32 bits at offset `at`. Fails with `Short` if the message ends before four octets are read.
pub(crate) fn read_u32(message: &[u8], at: usize) -> Result<u32, WireFault>
    requires { at ≤ length message.now }
    ensures ok { IfOk result (λ number. number ≡ field32 message.now at) }
    ensures within { IfOk result (λ number. at + 4 ≤ length message.now) }
    ensures err { IsErr result → length message.now < at + 4 }
    ensures short { IfErr result (λ fault. fault_code fault ≡ 1) }
{
    Ok(u32::from_be_bytes(octets_at(message, at)?))
}

// The `N` octets from offset `at` on.
fn octets_at<const N: usize>(message: &[u8], at: usize) -> Result<[u8; N], WireFault>
    requires { at ≤ length message.now }
    ensures ok { IfOk result (λ octets. octets ≡ take N (drop at message.now)) }
    ensures err { IsErr result ↔ length message.now < at + N }
    ensures short { IfErr result (λ fault. fault_code fault ≡ 1) }
{
    message[at..].first_chunk().copied().ok_or(WireFault::Short)
}
