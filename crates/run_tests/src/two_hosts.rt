// Two local hosts over sockets on 127.0.0.1 and the system's clock.
use crate::carried::{carry, carry_out};
use homa_io::MemSink;
use homa_top::ExitStatus;
use node_io::{TickClock, UdpNet};
use std::test::Fail;

// The most bytes that a command prints.
const MOST_BYTES: u32 = 1_000_000;

// How many nodes run at most until a call comes to its end, on a machine that may stand still for as long as a node runs.
const MOST_NODES: u32 = 8;

// Runs a node of two hosts at these ports, of which one calls the other. Whatever the machine does, no datagram is too old.
fn run_at(rt: &HostRuntime, first: u16, second: u16) -> Result<(ExitStatus, MemSink), Fail> {
    let script = format!(in rt.alloc();
        "life 100000\nlocal 0 1 {first}\nlocal 1 1 {second}\nend 20\nturns 100000\ngo\nat 0 call 1 0 0 6869\n"
    )?;
    let mut net = UdpNet::new(rt.alloc(), rt)?;
    let mut clock = TickClock::new(rt);
    carry_out(
        rt.alloc(),
        &["node"],
        script.as_bytes(),
        MOST_BYTES,
        &mut net,
        &mut clock,
    )
}

// The same, at the first two ports that are free.
fn run_somewhere(rt: &HostRuntime) -> Result<(ExitStatus, MemSink), Fail> {
    for first in 20_000..60_000 {
        let (status, trace) = run_at(rt, first, first + 1)?;
        if status != ExitStatus::NetFailed {
            return Ok((status, trace));
        }
    }
    Err(Fail::from("no port is free"))
}

#[test]
fn a_call_between_two_hosts_is_done(rt: HostRuntime) -> Result<(), Fail> {
    for _ in 0..MOST_NODES {
        let (status, trace) = run_somewhere(&rt)?;
        let text = str::from_utf8(trace.bytes()).unwrap_or("");
        let last = text.lines().last().unwrap_or("");
        assert_eq!(rt; status, ExitStatus::Done);
        assert!(rt; last.starts_with("ok "));
        let (status, verdict) = carry(rt.alloc(), &["check"], trace.bytes(), MOST_BYTES)?;
        assert_eq!(rt; status, ExitStatus::Done);
        assert!(rt; verdict.bytes().starts_with(b"yes "));
        if text.contains("\ndone 1.1.0 6869\n") {
            return Ok(());
        }
    }
    Err(Fail::from("no call was done"))
}
