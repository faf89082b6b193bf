// The sockets and ports of hosts. What sockets carry is trusted: no contract says it.
ghost use Rattle.std.specs.Prelude.{◌≡◌, ◌≤◌, ◌<◌, ◌||◌, ◌++◌, ◌∷◌, ◌↔◌, ◌⊎◌, [], length, nat_le, vec_capacity, false, true, Some};
ghost use Rattle.std.specs.Prelude.{OnOk, IfOk, IsOk, IsSome, option_and_then};
ghost use Rattle.std.specs.Option.{option_copied};
ghost use Rattle.std.specs.Result.{result_ok, OkIff};
ghost use Rattle.homa_plain.specs.declared.id.HostId.{HostId as Host};
ghost use Rattle.homa_plain.specs.Calls.{is_host};
ghost use Rattle.node_io.specs.declared.net.Got.TheVariants.{Nothing};
ghost use Rattle.node_io.specs.Net.{IfFrom, is_welcome};
ghost use Rattle.node_io.specs.System.{beside, host_at, local_port};

use crate::hosts::HostSet;
use crate::{Got, NetFailed, NoMemory};
use homa_plain::{Frame, HostId};
use std::alloc::Global;
use std::io::{self, ErrorKind};
use std::net::{Ipv4Addr, SocketAddr, SocketAddrV4, UdpSocket};

/// How many datagrams of others are passed over in one receive.
const MOST_PASSED: u32 = 64;

/// How many hosts have room, bound or routed: the most that settings allow.
const MOST_HOSTS: usize = 32;

/// The address of a port on this machine.
pub(crate) fn address(port: u16) -> SocketAddr
    ensures { local_port result ≡ Some port }
{
    SocketAddr::V4(SocketAddrV4::new(Ipv4Addr::LOCALHOST, port))
}

// The port of an address, where that is one of this machine.
fn local_port(at: SocketAddr) -> Option<u16>
    ensures { result ≡ local_port at }
{
    match at {
        SocketAddr::V4(at) if at.ip().octets().as_slice() == [127, 0, 0, 1].as_slice() => Some(
            at.port(),
        ),
        _ => None,
    }
}

// What a receive answers where the socket failed: nothing came within the limit or before a signal, or a fault.
fn answer_to(kind: ErrorKind) -> Result<Got, NetFailed>
    ensures { OkIff result ((kind ≡ ErrorKind.WouldBlock) ⊎ (kind ≡ ErrorKind.TimedOut) ⊎ (kind ≡ ErrorKind.Interrupted)) Nothing }
{
    match kind {
        ErrorKind::WouldBlock | ErrorKind::TimedOut | ErrorKind::Interrupted => Ok(Got::Nothing),
        _ => Err(NetFailed),
    }
}

/// Makes a socket's calls wait, a receive for a datagram and a send for room, or not.
pub(crate) fn wait(socket: &UdpSocket, is_waiting: bool) -> Result<(), NetFailed> {
    socket.set_nonblocking(!is_waiting).map_err(|_| NetFailed)
}

// Sends bytes to an address. Where there is no room for them, it waits for room, this once.
fn send(socket: &UdpSocket, bytes: &[u8], to: SocketAddr) -> Result<usize, NetFailed> {
    match socket.send_to(bytes, to) {
        Ok(sent) => Ok(sent),
        Err(e) if e.kind() == ErrorKind::WouldBlock => {
            wait(socket, true)?;
            let sent = socket.send_to(bytes, to).map_err(|_| NetFailed)?;
            wait(socket, false)?;
            Ok(sent)
        }
        Err(_) => Err(NetFailed),
    }
}

// What a socket's receive answers, which waits or doesn't.
fn received(
    socket: &UdpSocket,
    bytes: &mut [u8],
    is_waiting: bool,
) -> Result<io::Result<(usize, SocketAddr)>, NetFailed>
    ensures { IfOk result (λ answer. IfOk answer (λ r. r.0 ≤ length bytes.new)) }
{
    if is_waiting {
        wait(socket, true)?;
    }
    let answer = socket.recv_from(bytes);
    if is_waiting {
        wait(socket, false)?;
    }
    Ok(answer)
}

// What a send answers that took so many of its bytes: a part is a fault.
fn answer_to_sent(sent: usize, len: usize) -> Result<(), NetFailed>
    ensures { IsOk result ↔ (sent ≡ len) }
{
    if sent == len { Ok(()) } else { Err(NetFailed) }
}

/// A socket of each host that has one here, and the ports of hosts, here and elsewhere. No socket waits, but as its calls say.
#[derive(Drop)]
pub(crate) struct Sockets {
    sockets: Vec<(HostId, UdpSocket)>,
    ports: Vec<(HostId, u16)>,
    known: HostSet,
    // A datagram was given since the host that was bound last had none.
    has_given: bool,
    ghost fewer: { length sockets.items ≤ length ports.items },
    ghost most: { length ports.items ≤ 32 },
    ghost sockets_reserved: { 32 ≤ vec_capacity sockets },
    ghost ports_reserved: { 32 ≤ vec_capacity ports },
}

impl Sockets {
    ghost use Rattle.node_io.specs.Sockets.{are_known, ports_of, bound_of, sockets_of};

    /// No host. Only this takes memory.
    pub(crate) fn new(alloc: Global) -> Result<Sockets, NoMemory>
        ensures known { IfOk result (λ sockets. (h : Host) → are_known sockets h ≡ false) }
        ensures ports { IfOk result (λ sockets. ports_of sockets ≡ []) }
        ensures bound { IfOk result (λ sockets. bound_of sockets ≡ []) }
    {
        Ok(Sockets {
            sockets: Vec::with_capacity(alloc, MOST_HOSTS)?,
            ports: Vec::with_capacity(alloc, MOST_HOSTS)?,
            known: HostSet::new(),
            has_given: false,
        })
    }

    /// Whether there is no room for one more host.
    pub(crate) fn is_full(&self) -> bool
        ensures { result ≡ nat_le 32 (length (ports_of self.now)) }
    {
        self.ports.len() >= MOST_HOSTS
    }

    /// Keeps the socket of a host, and its port.
    pub(crate) fn keep(&mut self, host: HostId, port: u16, socket: UdpSocket)
        requires { length (ports_of self.old) < 32 }
        ensures known { (h : Host) → are_known self.new h ≡ (are_known self.old h || is_host h host) }
        ensures ports { ports_of self.new ≡ ports_of self.old ++ (host, port) ∷ [] }
        ensures sockets { sockets_of self.new ≡ sockets_of self.old ++ (host, socket) ∷ [] }
    {
        // The room was reserved, so no memory is taken here, and this can't fail.
        self.sockets.push((host, socket)).unwrap();
        self.ports.push((host, port)).unwrap();
        self.known.insert(host);
    }

    /// Learns at which port a host is.
    pub(crate) fn learn(&mut self, host: HostId, port: u16)
        requires { length (ports_of self.old) < 32 }
        ensures known { (h : Host) → are_known self.new h ≡ (are_known self.old h || is_host h host) }
        ensures ports { ports_of self.new ≡ ports_of self.old ++ (host, port) ∷ [] }
        ensures sockets { sockets_of self.new ≡ sockets_of self.old }
    {
        // The room was reserved, so no memory is taken here, and this can't fail.
        self.ports.push((host, port)).unwrap();
        self.known.insert(host);
    }

    // The socket of a host.
    fn socket(&self, host: HostId) -> Result<&UdpSocket, NetFailed>
        ensures { option_copied (result_ok result) ≡ beside (sockets_of self.now) host }
    {
        for (bound, socket) in &self.sockets {
            if *bound == host {
                return Ok(socket);
            }
        }
        Err(NetFailed)
    }

    // The port of a host.
    fn port(&self, host: HostId) -> Result<u16, NetFailed>
        ensures { result_ok result ≡ beside (ports_of self.now) host }
    {
        for (known, port) in &self.ports {
            if *known == host {
                return Ok(*port);
            }
        }
        Err(NetFailed)
    }

    // The host at an address.
    fn host(&self, at: SocketAddr) -> Option<HostId>
        ensures { result ≡ option_and_then (host_at (ports_of self.now)) (local_port at) }
    {
        let at = local_port(at)?;
        for (host, port) in &self.ports {
            if *port == at {
                return Some(*host);
            }
        }
        None
    }

    /// Sends bytes from the socket of a host to the port of another one, as soon as the system has room for them. A part that is
    /// sent is a fault.
    pub(crate) fn transmit(&self, from: HostId, to: HostId, bytes: &[u8]) -> Result<(), NetFailed>
        ensures from { OnOk result (IsSome (beside (sockets_of self.now) from)) }
        ensures to { OnOk result (IsSome (beside (ports_of self.now) to)) }
    {
        let socket = self.socket(from)?;
        let to = address(self.port(to)?);
        answer_to_sent(send(socket, bytes, to)?, bytes.len())
    }

    // Takes a datagram for a host from another one that is known. Where it waits, it waits for the first that comes alone.
    fn take(&self, host: HostId, frame: &mut Frame, is_waiting: bool) -> Result<Got, NetFailed>
        ensures from { IfOk result (λ got. IfFrom got (λ from. is_welcome (are_known self.now) host from ≡ true)) }
        ensures socket { OnOk result (IsSome (beside (sockets_of self.now) host)) }
    {
        let socket = self.socket(host)?;
        let mut bytes = [0; 1500];
        for passed in 0..MOST_PASSED {
            match received(socket, &mut bytes, is_waiting && passed == 0)? {
                Ok((len, at)) => {
                    if let Some(from) = self.host(at)
                        && self.known.contains(from)
                        && from != host
                    {
                        frame.set(&bytes[..len]);
                        return Ok(Got::Frame { from });
                    }
                }
                Err(e) => return answer_to(e.kind()),
            }
        }
        Ok(Got::Nothing)
    }

    // Whether a host was bound last.
    fn is_last(&self, host: HostId) -> bool {
        self.sockets.last().is_some_and(|s| s.0 == host)
    }

    /// Receives a datagram for a host from another one that is known. It waits for one only for the host that was bound
    /// last, and only where none was given to any host since that one had none. So whatever comes, a loop turn has one
    /// wait at most, however many hosts it has.
    pub(crate) fn receive(&mut self, host: HostId, frame: &mut Frame) -> Result<Got, NetFailed>
        ensures from { IfOk result (λ got. IfFrom got (λ from. is_welcome (are_known self.old) host from ≡ true)) }
        ensures socket { OnOk result (IsSome (beside (sockets_of self.old) host)) }
        ensures known { are_known self.new ≡ are_known self.old }
        ensures ports { ports_of self.new ≡ ports_of self.old }
        ensures sockets { sockets_of self.new ≡ sockets_of self.old }
    {
        let is_last = self.is_last(host);
        let got = self.take(host, frame, is_last && !self.has_given)?;
        self.has_given = got != Got::Nothing || (self.has_given && !is_last);
        Ok(got)
    }
}
