//! Two hosts driven by hand: what stands around the core, without a world.
//!
//! Host 0 calls host 1. The entries of each step are printed, and its datagram is handed over; here no step sends two. A
//! packet is named by its number within its step. So the lines are those of a call that is acknowledged, without the
//! lines of a world: at tick 4 the server asks for an ACK, keeps the call's name up to tick 24, and frees it then.
#![tactic(auto)]

ghost use Rattle.std.specs.Prelude.{◌<◌};

use driven_host::DrivenHost;
use homa_io::{Sink, StdSink};
use homa_plain::{Entry, HostId, Settings};
use homa_text::put_entry;
use std::alloc::Global;
use std::io;
use std::process::ExitCode;

const CLIENT: HostId = HostId(0);

const SERVER: HostId = HostId(1);

// Prints the entries of a host's last step. No host tells that a line is refused.
fn print<K: Sink>(sink: &mut K, host: &DrivenHost) -> Option<()> {
    for i in 0..host.host().entries() {
        let entry = host.entry(i);
        if !matches!(entry, Entry::Refused { .. }) {
            put_entry(sink, &entry).ok()?;
        }
    }
    Some(())
}

// A host in its first life.
fn open(alloc: Global, hosts: &mut Vec<DrivenHost>, id: HostId) -> Option<()>
    requires { id.0 < 2 }
{
    let host = DrivenHost::open(alloc, id, 1, 0, &Settings::usual()).ok()?;
    hosts.push(host).ok()
}

// A host calls service 0 of another one.
fn call<K: Sink>(
    alloc: Global,
    sink: &mut K,
    hosts: &mut [DrivenHost],
    client: usize,
    server: HostId,
) -> Option<()> {
    let request = Vec::from_slice(alloc, b"hi").ok()?;
    let host = hosts.get_mut(client)?;
    host.call(server, 0, request, 0)?;
    print(sink, host)
}

// A host has its turn, at this tick of its clock.
fn turn<K: Sink>(sink: &mut K, hosts: &mut [DrivenHost], host: usize, now: u64) -> Option<()> {
    let host = hosts.get_mut(host)?;
    host.turn(now)?;
    print(sink, host)
}

// Hands the datagram that a host sent in its last step over to its receiver, at this tick of the receiver's clock.
fn hand_over<K: Sink>(
    alloc: Global,
    sink: &mut K,
    hosts: &mut [DrivenHost],
    sender: usize,
    now: u64,
) -> Option<()> {
    let out = hosts.get(sender)?.out();
    if out.is_empty() {
        return None;
    }
    let (from, to) = (out.sender(0), out.receiver(0));
    let frame = Vec::from_slice(alloc, out.bytes(0)).ok()?;
    let host = hosts.get_mut(usize::from(to.0))?;
    host.deliver(alloc, from, &frame, now)?;
    print(sink, host)
}

// A call, up to the tick at which nothing is left of it. None where there is no memory, or a line isn't written.
fn drive<K: Sink>(alloc: Global, sink: &mut K, hosts: &mut Vec<DrivenHost>) -> Option<()> {
    open(alloc, hosts, CLIENT)?;
    open(alloc, hosts, SERVER)?;
    call(alloc, sink, hosts, 0, SERVER)?;
    hand_over(alloc, sink, hosts, 0, 0)?;
    hand_over(alloc, sink, hosts, 1, 0)?;
    turn(sink, hosts, 1, 4)?;
    hand_over(alloc, sink, hosts, 1, 4)?;
    hand_over(alloc, sink, hosts, 0, 4)?;
    turn(sink, hosts, 1, 24)?;
    turn(sink, hosts, 1, 25)
}

fn main(rt: HostRuntime) -> ExitCode {
    let mut sink = StdSink::new(io::writer(&rt));
    let mut hosts = Vec::new(rt.alloc());
    match drive(rt.alloc(), &mut sink, &mut hosts) {
        Some(()) => ExitCode::from(0),
        None => ExitCode::from(1),
    }
}
