//! A server's socket, which is bound to an address or was given to the process, and the turns of a
//! server over UDP.
ghost use Rattle.std.specs.Prelude.{◌≡◌, ◌+◌, ◌^◌, ◌<◌, Bool, true, false, IfOk, IfErr};
ghost use Rattle.dns_tools.specs.Turns.{TakesTurns, EndsTurns};

use crate::socket::Socket;
use crate::stop::FaultText;
use crate::watch::Watch;
use dns_answer::UdpBuilder;
use dns_serve::{Datagrams, udp_turn_in};
use dns_zone::Zone;
use std::io::ErrorKind;
use std::net::{IpAddr, Net, SocketAddr, TcpListener, TcpStream, UdpSocket};
use std::os::fd::{AsFd, OwnedFd};
use std::time::Clock;

// How often sending to port 0 is tried, if the error says nothing about the kind of the socket.
const MOST_PROBES: u32 = 16;

/// A UDP socket at an address, which has received nothing yet. Fails with `bind` if the address
/// can't be used.
pub fn socket_at<'a, R: Net + Clock>(rt: &'a R, address: &str) -> Result<Socket<'a, R>, FaultText>
    ensures socket { IfOk result (λ socket. socket ≡ record {
      failures = 0;
      has_sender = false;
      over = false;
    }) }
    ensures fault { IfErr result (λ fault. fault ≡ FaultText.NotBound) }
{
    let socket = UdpSocket::bind(rt, socket_address(address)?);
    let socket = socket.ok().ok_or(FaultText::NotBound)?;
    Ok(Socket::new(socket, rt, None))
}

/// A listening TCP socket at an address. Fails with `bind` if the address can't be used.
pub fn listener_at<R>(rt: &R, address: &str) -> Result<TcpListener, FaultText>
where
    R: Net<Listener = TcpListener, Stream = TcpStream>,
    ensures { IfErr result (λ fault. fault ≡ FaultText.NotBound) }
{
    let listener = TcpListener::bind(rt, socket_address(address)?);
    listener.ok().ok_or(FaultText::NotBound)
}

/// The UDP socket that the process was given, which has received nothing here yet. Fails with
/// `bind` if the given descriptor is not a UDP socket with an address and a port, or if it is
/// connected.
///
/// The socket gets a time limit for receiving, also for other processes that share it.
pub fn given_socket<'a, I: AsFd, C: Clock>(
    given: &I,
    clock: &'a C,
    watch: Watch,
) -> Result<Socket<'a, C>, FaultText>
    ensures socket { IfOk result (λ socket. socket ≡ record {
      failures = 0;
      has_sender = false;
      over = false;
    }) }
    ensures fault { IfErr result (λ fault. fault ≡ FaultText.NotBound) }
{
    let socket = UdpSocket::from(copy_of(given)?);
    let address = socket.local_addr();
    if address.is_ok_and(|address| is_udp(&socket, address)) {
        return Ok(Socket::new(socket, clock, Some(watch)));
    }
    Err(FaultText::NotBound)
}

/// The TCP socket that the process was given. Fails with `bind` if the given descriptor is not a
/// TCP socket with an address and a port, or if it is a connection.
pub fn given_listener<I: AsFd>(given: &I) -> Result<TcpListener, FaultText>
    ensures { IfErr result (λ fault. fault ≡ FaultText.NotBound) }
{
    let listener = TcpListener::from(copy_of(given)?);
    let stream = TcpStream::from(copy_of(given)?);
    // Reading a TCP option fails on other sockets.
    let is_tcp = stream.nodelay().is_ok();
    let address = listener.local_addr();
    let has_port = address.is_ok_and(|address| address.port() > 0);
    if is_tcp && has_port && stream.peer_addr().is_err() {
        return Ok(listener);
    }
    Err(FaultText::NotBound)
}

// Whether a socket with this address is a UDP socket with a port, and not connected.
fn is_udp(socket: &UdpSocket, address: SocketAddr) -> bool {
    address.port() > 0 && socket.peer_addr().is_err() && refuses_port_0(socket, address.ip())
}

// Whether the socket refuses to send to port 0, which is invalid over UDP. A raw socket has no
// ports: it sends these octets, an IP header for a socket that takes one, to its own host, which
// discards them. A call that fails for another reason, such as a lack of buffers, is repeated.
fn refuses_port_0(socket: &UdpSocket, ip: IpAddr) -> bool {
    let mut octets = [0; 40];
    octets[0] = 0x45;
    'calls: for _ in 0..MOST_PROBES {
        match socket.send_to(&octets, SocketAddr::new(ip, 0)) {
            Ok(_) => break,
            Err(error) if error.kind() == ErrorKind::InvalidInput => return true,
            Err(_) => {}
        }
    }
    false
}

// A duplicate of the given descriptor.
fn copy_of<I: AsFd>(given: &I) -> Result<OwnedFd, FaultText>
    ensures { IfErr result (λ fault. fault ≡ FaultText.NotBound) }
{
    let copy = given.as_fd().try_clone_to_owned();
    copy.ok().ok_or(FaultText::NotBound)
}

/// A device at which a server may be asked to end.
pub trait Ending {
    /// Whether the server was asked to end.
    ghost over: { Self → Bool };

    /// Whether the server was asked to end.
    fn is_over(&self) -> bool
        ensures { result ≡ over self.now };
}

/// Takes `turns` turns at a device, one after another, or fewer if the server is asked to end;
/// turns that fail count too. Returns whether every diagnostic was written to standard error: `U1`
/// if no datagram was received, `U2` if a reply was not sent.
pub fn serve_datagrams<E: Eprint, D: Datagrams + Ending>(
    rt: &E,
    zone: &Zone,
    device: &mut D,
    turns: u32,
) -> bool
    requires { D.count device.old + turns < 2 ^ 64 }
    ensures said { D.count device.new ≡ D.count device.old → result ≡ true }
    ensures turns { EndsTurns zone.now turns (D.over device.new)
        (record {
          received = D.received device.old;
          sent = D.sent device.old;
          failures = D.count device.old;
        })
        (record {
          received = D.received device.new;
          sent = D.sent device.new;
          failures = D.count device.new;
        }) }
{
    let mut buffer = [0; 512];
    let mut builder = UdpBuilder::new();
    let mut are_said = true;
    'turns: for _ in 0..turns {
        if let Err(fault) = udp_turn_in(zone, device, &mut buffer, &mut builder) {
            if device.is_over() {
                break;
            }
            are_said = are_said && rt.eprintln(fault).is_ok();
        }
    }
    are_said
}

// Parses an address and a port. Host names are not looked up.
fn socket_address(address: &str) -> Result<SocketAddr, FaultText>
    ensures { IfErr result (λ fault. fault ≡ FaultText.NotBound) }
{
    address.parse().ok().ok_or(FaultText::NotBound)
}
