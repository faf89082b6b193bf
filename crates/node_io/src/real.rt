// The system's sockets as a net, and its clock. What they carry and give is trusted: no contract says it.
ghost use Rattle.std.specs.Prelude.{◌≡◌, ◌≤◌, ◌||◌, ◌++◌, ◌∷◌, ◌-◌, ◌/◌, ◌↔◌, [], length, min, false, None, Some, refl};
ghost use Rattle.std.specs.Prelude.{OnOk, OnErr, OnSome, IfOk, IfSome, IsErr, IsSome};
ghost use Rattle.std.specs.Time.{instant_nanos};
ghost use Rattle.homa_io.specs.Outside.{HasRisen};
ghost use Rattle.homa_plain.specs.declared.id.HostId.{HostId as Host};
ghost use Rattle.homa_plain.specs.Calls.{is_host};
ghost use Rattle.homa_plain.specs.World.{last_tick};
ghost use Rattle.node_io.specs.System.{tick_at};

use crate::faults::FaultCount;
use crate::sockets::{Sockets, address, wait};
use crate::{Clock, Got, Net, NetFailed, NoMemory};
use homa_plain::{Frame, HostId, LAST_TICK};
use std::alloc::Global;
use std::net::UdpSocket;
use std::time::{Duration, Instant};

/// For how many milliseconds a receive waits for a datagram.
const READ_LIMIT: u64 = 1;

// A socket at a port of this machine, which doesn't wait, and whose reads have a limit where they do.
fn socket_at<R: std::net::Net>(rt: &R, port: u16) -> Result<UdpSocket, NetFailed> {
    let socket = UdpSocket::bind(rt, address(port)).map_err(|_| NetFailed)?;
    let limit = Duration::from_millis(READ_LIMIT);
    socket.set_read_timeout(Some(limit)).map_err(|_| NetFailed)?;
    wait(&socket, false)?;
    Ok(socket)
}

// Counts a fault where a call failed.
fn counted<T>(faults: &mut FaultCount, answer: Result<T, NetFailed>) -> Result<T, NetFailed>
    ensures answer { result ≡ answer }
    ensures risen { OnErr result (HasRisen faults.old.0 faults.new.0) }
    ensures quiet { OnOk result (faults.new ≡ faults.old) }
    ensures never_falls { faults.old.0 ≤ faults.new.0 }
{
    if answer.is_err() {
        faults.raise();
    }
    answer
}

/// Sockets on 127.0.0.1 as a net, one for each host that is bound. It can't tell what is queued, sent or given. Each
/// error of a socket is a fault, and so are a host beyond 32 that is bound or routed, and a host without a socket or a
/// port. A receive for the host that was bound last waits, unless a datagram was given to some host since that one had
/// none; no other receive waits. The limit of a wait is 1 millisecond, of which a system with 250 timer ticks a second
/// makes 4 to 12. A receive gives nothing, too, after 64 datagrams of others, and where a signal broke it off.
#[derive(Drop)]
pub struct UdpNet<R: std::net::Net + Drop> {
    rt: R,
    sockets: Sockets,
    faults: FaultCount,
}

impl<R: std::net::Net + Drop> UdpNet<R> {
    ghost use Rattle.node_io.specs.Real.{udp_known, udp_ports, udp_bound, udp_faults};

    /// A net that knows no host. Only this takes memory.
    pub fn new(alloc: Global, rt: R) -> Result<UdpNet<R>, NoMemory>
        ensures known { IfOk result (λ net. (h : Host) → udp_known net h ≡ false) }
        ensures faults { IfOk result (λ net. udp_faults net ≡ 0) }
    {
        let sockets = Sockets::new(alloc)?;
        Ok(UdpNet {
            rt,
            sockets,
            faults: FaultCount::NONE,
        })
    }

    // Opens a socket for a host. Where there is no room to keep it, none is opened.
    fn open(&mut self, host: HostId, port: u16) -> Result<(), NetFailed>
        ensures known { OnOk result ((h : Host) → udp_known self.new h ≡ (udp_known self.old h || is_host h host)) }
        ensures ports { OnOk result (udp_ports self.new ≡ udp_ports self.old ++ (host, port) ∷ []) }
        ensures bound { OnOk result (udp_bound self.new ≡ udp_bound self.old ++ host ∷ []) }
        ensures full { 32 ≤ length (udp_ports self.old) → IsErr result }
        ensures err { OnErr result (self.new ≡ self.old) }
        ensures faults { self.new.faults ≡ self.old.faults }
    {
        if self.sockets.is_full() {
            return Err(NetFailed);
        }
        let socket = socket_at(&self.rt, port)?;
        self.sockets.keep(host, port, socket);
        Ok(())
    }

    // Learns at which port a host is, where there is room.
    fn learn(&mut self, host: HostId, port: u16) -> Result<(), NetFailed>
        ensures known { OnOk result ((h : Host) → udp_known self.new h ≡ (udp_known self.old h || is_host h host)) }
        ensures ports { OnOk result (udp_ports self.new ≡ udp_ports self.old ++ (host, port) ∷ []) }
        ensures bound { udp_bound self.new ≡ udp_bound self.old }
        ensures full { IsErr result ↔ (32 ≤ length (udp_ports self.old)) }
        ensures err { OnErr result (self.new ≡ self.old) }
        ensures faults { self.new.faults ≡ self.old.faults }
    {
        if self.sockets.is_full() {
            return Err(NetFailed);
        }
        self.sockets.learn(host, port);
        Ok(())
    }
}

impl<R: std::net::Net + Drop> Net for UdpNet<R> {
    ghost use Rattle.node_io.specs.Real.{udp_known, udp_faults};

    ghost known = { λ net. udp_known net };

    ghost queued = { λ _. None };

    ghost acts = { λ _. None };

    ghost sent = { λ _. None };

    ghost gave = { λ _. None };

    ghost faults = { λ net. udp_faults net };

    fn bind(&mut self, host: HostId, port: u16) -> Result<(), NetFailed> {
        let answer = self.open(host, port);
        counted(&mut self.faults, answer)
    }

    fn route(&mut self, host: HostId, port: u16) -> Result<(), NetFailed> {
        let answer = self.learn(host, port);
        counted(&mut self.faults, answer)
    }

    fn send(&mut self, from: HostId, to: HostId, bytes: &[u8]) -> Result<(), NetFailed> {
        let answer = self.sockets.transmit(from, to, bytes);
        counted(&mut self.faults, answer)
    }

    fn recv(&mut self, host: HostId, frame: &mut Frame) -> Result<Got, NetFailed> {
        let answer = self.sockets.receive(host, frame);
        counted(&mut self.faults, answer)
    }

    ghost sent_is = { λ _. refl };

    ghost gave_is = { λ _. refl };
}

// The tick so many seconds and milliseconds after the start.
fn ticks_of(secs: u64, millis: u32) -> u64
    ensures { result ≡ tick_at secs millis }
{
    let ticks = secs.saturating_mul(100);
    ticks.saturating_add(u64::from(millis / 10)).min(LAST_TICK)
}

// How many ticks of 10 milliseconds are between two readings of a clock, up to the last tick; none where it fell.
fn ticks_between(start: Instant, now: Instant) -> u64
    ensures { result ≡ min ((instant_nanos now - instant_nanos start) / 10000000) last_tick }
{
    let passed = now.duration_since(start);
    ticks_of(passed.as_secs(), passed.subsec_millis())
}

/// The system's clock in ticks of 10 milliseconds since it was made. Where the system's clock fails, it stands.
#[derive(Drop)]
pub struct TickClock<R: std::rt::Clock + Drop> {
    rt: R,
    start: Option<Instant>,
    last: u64,
    ghost most: { last ≤ last_tick },
}

impl<R: std::rt::Clock + Drop> TickClock<R> {
    ghost use Rattle.node_io.specs.Real.{tick_last};

    /// A clock that stands at tick 0. Where the system's clock fails here, its ticks count from its first reading.
    pub fn new(rt: R) -> TickClock<R>
        ensures { tick_last result ≡ 0 }
    {
        let start = Instant::now(&rt).ok();
        TickClock { rt, start, last: 0 }
    }

    // The tick of the system's clock, counted from its first reading, which is noted.
    fn read(&mut self) -> Option<u64>
        ensures most { IfSome result (λ tick. tick ≤ LAST_TICK) }
        ensures last { self.new.last ≡ self.old.last }
        ensures start { IfSome self.old.start (λ start. self.new.start ≡ Some start) }
        ensures noted { OnSome result (IsSome self.new.start) }
    {
        let now = Instant::now(&self.rt).ok()?;
        let start = self.start.unwrap_or(now);
        self.start = Some(start);
        Some(ticks_between(start, now))
    }
}

impl<R: std::rt::Clock + Drop> Clock for TickClock<R> {
    ghost use Rattle.node_io.specs.Real.{tick_last};

    ghost ticks = { λ _. None };

    ghost last = { λ clock. tick_last clock };

    fn now(&mut self) -> u64 {
        if let Some(tick) = self.read() {
            self.last = self.last.max(tick);
        }
        self.last
    }
}
