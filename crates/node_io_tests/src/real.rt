// The system's sockets and its clock: over loopback, with a socket that is lent, and with a made time.
use crate::steps::{A, B, C, binds, hears, holds, receives, routes, sends};
use homa_plain::{Frame, HostId};
use node_io::{Clock, Got, Net, NetFailed, TickClock, UdpNet};
use std::cell::Cell;
use std::io::{self, ErrorKind};
use std::net::{Ipv4Addr, SocketAddr, SocketAddrV4, TcpListener, TcpStream, UdpSocket};
use std::os::fd::OwnedFd;
use std::process::Abort;
use std::rt::Clock as SystemClock;
use std::test::Fail;
use std::time::Duration;

// Binds a host at a free port.
fn bind_somewhere<N: Net>(net: &mut N, host: HostId) -> Result<u16, Fail> {
    for port in 20_000..60_000 {
        if net.bind(host, port).is_ok() {
            return Ok(port);
        }
    }
    Err(Fail::from("no port is free"))
}

fn at(port: u16) -> SocketAddr {
    SocketAddr::V4(SocketAddrV4::new(Ipv4Addr::LOCALHOST, port))
}

// A request and its response.
fn exchange<N: Net>(rt: &impl Abort, net: &mut N, got: &mut Frame) {
    receives(rt, net, got, A, Ok(Got::Nothing));
    sends(rt, net, A, B, b"request", Ok(()));
    hears(rt, net, got, B, A, b"request");
    sends(rt, net, B, A, b"response", Ok(()));
    hears(rt, net, got, A, B, b"response");
}

// Of 64 datagrams of a stranger before one of a friend a receive sees none; of 63 it sees the friend's.
fn passes_over_64<N: Net>(
    rt: &impl Abort,
    net: &mut N,
    got: &mut Frame,
    stranger: &UdpSocket,
    port: u16,
) -> Result<(), Fail> {
    for (count, first) in [(64, Got::Nothing), (63, Got::Frame { from: A })] {
        for _ in 0..count {
            assert_eq!(rt; stranger.send_to(b"stranger", at(port))?, 8);
        }
        sends(rt, net, A, B, b"friend", Ok(()));
        receives(rt, net, got, B, Ok(first));
        if first == Got::Nothing {
            hears(rt, net, got, B, A, b"friend");
        }
        holds(rt, got, b"friend");
    }
    Ok(())
}

// What a stranger sends is passed over, and a datagram that is too long is cut.
fn passes_over<N: Net>(
    rt: &impl Abort,
    net: &mut N,
    got: &mut Frame,
    stranger: &UdpSocket,
    port: u16,
) -> Result<(), Fail> {
    assert_eq!(rt; stranger.send_to(b"stranger", at(port))?, 8);
    sends(rt, net, A, B, &[7; 1501], Ok(()));
    hears(rt, net, got, B, A, &[7; 1500]);
    Ok(())
}

// A host without a socket or a port.
fn lacks<N: Net>(rt: &impl Abort, net: &mut N, got: &mut Frame, port: u16) {
    receives(rt, net, got, C, Err(NetFailed));
    sends(rt, net, C, A, b"x", Err(NetFailed));
    sends(rt, net, A, C, b"x", Err(NetFailed));
    binds(rt, net, C, port, Err(NetFailed));
}

// A host elsewhere.
fn goes_elsewhere<N: Net>(
    rt: &impl Abort,
    net: &mut N,
    got: &mut Frame,
    other: &UdpSocket,
    port: u16,
) -> Result<(), Fail> {
    routes(rt, net, C, other.local_addr()?.port());
    sends(rt, net, B, C, b"hello", Ok(()));
    let mut bytes = [0; 9];
    other.set_read_timeout(Some(Duration::from_secs(1)))?;
    assert_eq!(rt; other.recv_from(&mut bytes)?, (5, at(port)));
    assert_eq!(rt; other.send_to(b"answer", at(port))?, 6);
    hears(rt, net, got, B, C, b"answer");
    Ok(())
}

fn meet<N: Net>(rt: &impl Abort, net: &mut N, stranger: &UdpSocket) -> Result<(), Fail> {
    let mut got = Frame::empty();
    bind_somewhere(net, A)?;
    let port = bind_somewhere(net, B)?;
    exchange(rt, net, &mut got);
    passes_over(rt, net, &mut got, stranger, port)?;
    passes_over_64(rt, net, &mut got, stranger, port)?;
    lacks(rt, net, &mut got, port);
    goes_elsewhere(rt, net, &mut got, stranger, port)
}

#[test]
fn two_hosts_exchange_datagrams_over_loopback(rt: HostRuntime) -> Result<(), Fail> {
    let stranger = UdpSocket::bind(&rt, at(0))?;
    let mut net = UdpNet::new(rt.alloc(), &rt)?;
    meet(&rt, &mut net, &stranger)
}

#[test]
fn the_clock_goes_on(rt: HostRuntime) -> Result<(), Fail> {
    let mut clock = TickClock::new(&rt);
    let first = clock.now();
    let socket = UdpSocket::bind(&rt, at(0))?;
    socket.set_read_timeout(Some(Duration::from_millis(30)))?;
    assert!(rt; socket.recv_from(&mut [0; 1]).is_err());
    assert!(rt; clock.now() >= first + 2);
    Ok(())
}

/// A network that gives another handle of one socket, at whatever port one is asked for.
#[derive(Drop)]
struct Lent<'a> {
    socket: &'a UdpSocket,
}

impl std::net::Net for Lent<'_> {
    type Stream = TcpStream;

    type Listener = TcpListener;

    fn bind(&self, _at: SocketAddr) -> io::Result<TcpListener> {
        Err(io::Error::from(ErrorKind::Unsupported))
    }

    fn connect(&self, _at: SocketAddr) -> io::Result<TcpStream> {
        Err(io::Error::from(ErrorKind::Unsupported))
    }

    fn bind_udp(&self, _at: SocketAddr) -> io::Result<UdpSocket> {
        self.socket.try_clone()
    }
}

// A host's receive waits for a millisecond: the system rounds the limit up to its own ticks, as that of any other socket.
fn has_limit<N: Net>(rt: &impl Abort, net: &mut N, socket: &UdpSocket, wanted: Option<Duration>) {
    binds(rt, net, A, 1, Ok(()));
    let limit = socket.read_timeout().ok().flatten();
    assert!(rt; limit.is_some());
    assert!(rt; limit == wanted);
    receives(rt, net, &mut Frame::empty(), A, Ok(Got::Nothing));
}

#[test]
fn a_receive_has_a_limit(rt: HostRuntime) -> Result<(), Fail> {
    let socket = UdpSocket::bind(&rt, at(0))?;
    let other = UdpSocket::bind(&rt, at(0))?;
    other.set_read_timeout(Some(Duration::from_millis(1)))?;
    let wanted = other.read_timeout()?;
    let mut net = UdpNet::new(rt.alloc(), Lent { socket: &socket })?;
    has_limit(&rt, &mut net, &socket, wanted);
    Ok(())
}

// A socket that listens for streams gives and takes no datagram.
fn is_broken<N: Net>(rt: &impl Abort, net: &mut N) {
    binds(rt, net, A, 1, Ok(()));
    routes(rt, net, B, 2);
    receives(rt, net, &mut Frame::empty(), A, Err(NetFailed));
    sends(rt, net, A, B, b"x", Err(NetFailed));
}

#[test]
fn a_broken_socket_is_a_fault(rt: HostRuntime) -> Result<(), Fail> {
    let listener = TcpListener::bind(&rt, at(0))?;
    let socket = UdpSocket::from(OwnedFd::from(listener));
    let mut net = UdpNet::new(rt.alloc(), Lent { socket: &socket })?;
    is_broken(&rt, &mut net);
    Ok(())
}

// A stream that nobody reads takes a part of what is too much for it.
fn is_short<N: Net>(rt: &impl Abort, net: &mut N, much: &[u8]) {
    binds(rt, net, A, 1, Ok(()));
    routes(rt, net, B, 2);
    sends(rt, net, A, B, b"all", Ok(()));
    sends(rt, net, A, B, much, Err(NetFailed));
}

#[test]
fn a_short_send_is_a_fault(rt: HostRuntime) -> Result<(), Fail> {
    let listener = TcpListener::bind(&rt, at(0))?;
    let stream = TcpStream::connect(&rt, listener.local_addr()?)?;
    stream.set_nonblocking(true)?;
    let socket = UdpSocket::from(OwnedFd::from(stream));
    let much = vec![in rt.alloc(); 0; 1 << 24]?;
    let mut net = UdpNet::new(rt.alloc(), Lent { socket: &socket })?;
    is_short(&rt, &mut net, &much);
    Ok(())
}

// All 32 places are taken, so a 33rd host is bound nowhere, and its port stays free.
fn is_full<R: Abort + std::net::Net, N: Net>(rt: &R, net: &mut N, free: SocketAddr) {
    for number in 0..32 {
        routes(rt, net, HostId(number), 1);
    }
    binds(rt, net, HostId(32), free.port(), Err(NetFailed));
    assert!(rt; UdpSocket::bind(rt, free).is_ok());
}

#[test]
fn a_host_without_room_takes_no_port(rt: HostRuntime) -> Result<(), Fail> {
    let free = UdpSocket::bind(&rt, at(0))?.local_addr()?;
    let mut net = UdpNet::new(rt.alloc(), &rt)?;
    is_full(&rt, &mut net, free);
    Ok(())
}

/// A clock that shows so many milliseconds, or fails.
#[derive(Drop)]
struct MadeTime<'a> {
    millis: &'a Cell<Option<u64>>,
}

impl SystemClock for MadeTime<'_> {
    fn monotonic(&self) -> io::Result<Duration> {
        match self.millis.get() {
            Some(millis) => Ok(Duration::from_millis(millis)),
            None => Err(io::Error::from(ErrorKind::Unsupported)),
        }
    }

    fn since_1970(&self) -> io::Result<Duration> {
        Err(io::Error::from(ErrorKind::Unsupported))
    }
}

// At each made time the clock gives this tick.
fn gives<C: Clock>(
    rt: &impl Abort,
    clock: &mut C,
    made: &Cell<Option<u64>>,
    rows: &[(Option<u64>, u64)],
) {
    for (millis, tick) in rows {
        made.set(*millis);
        assert_eq!(rt; clock.now(), *tick);
    }
}

#[test]
fn ticks_are_ten_milliseconds_of_a_made_time(rt: HostRuntime) {
    let made = Cell::new(Some(5_000));
    let mut clock = TickClock::new(MadeTime { millis: &made });
    let rows = [
        (Some(5_009), 0),
        (Some(5_010), 1),
        (Some(6_239), 123),
        (None, 123),
        (Some(5_500), 123),
        (Some(3_605_000), 360_000),
        (Some(20_000_000_000_000), 1_000_000_000_000),
    ];
    gives(&rt, &mut clock, &made, &rows);
}

#[test]
fn ticks_count_from_the_first_reading(rt: HostRuntime) {
    let made = Cell::new(None);
    let mut clock = TickClock::new(MadeTime { millis: &made });
    let rows = [(None, 0), (Some(7_000), 0), (Some(8_000), 100)];
    gives(&rt, &mut clock, &made, &rows);
}
