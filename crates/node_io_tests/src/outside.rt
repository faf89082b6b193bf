// A net and a clock in memory, and a net that never fails.
use crate::steps::{A, B, C, binds, holds, receives, routes, sends};
use homa_plain::{Frame, HostId};
use node_io::{Clock, Got, MemClock, MemNet, Net, NetFailed, SureNet};
use std::alloc::Global;
use std::test::Fail;

fn frame(bytes: &[u8]) -> Result<Frame, Fail> {
    let mut frame = Frame::empty();
    if bytes.len() > 1500 {
        return Err(Fail::from("too long"));
    }
    frame.set(bytes);
    Ok(frame)
}

// Datagrams of a stranger, to another host, of the host itself, and two of a host that it knows.
fn five_queued(alloc: Global) -> Result<Vec<(HostId, HostId, Frame)>, Fail> {
    let rows: [(HostId, HostId, &[u8]); 5] = [
        (C, B, b"stranger"),
        (A, C, b"elsewhere"),
        (B, B, b"itself"),
        (A, B, b"first"),
        (A, B, b"second"),
    ];
    let mut queued = Vec::new(alloc);
    for (from, to, bytes) in rows {
        let frame = frame(bytes)?;
        queued.push((from, to, frame))?;
    }
    Ok(queued)
}

#[test]
fn a_host_receives_the_oldest_of_those_that_it_knows(rt: HostRuntime) -> Result<(), Fail> {
    let mut got = frame(b"before")?;
    let queued = five_queued(rt.alloc())?;
    let mut net = MemNet::new(rt.alloc(), queued, 8, Vec::new(rt.alloc()))?;
    let from_a = Ok(Got::Frame { from: A });
    binds(&rt, &mut net, B, 4001, Ok(()));
    routes(&rt, &mut net, A, 4000);
    receives(&rt, &mut net, &mut got, B, from_a);
    holds(&rt, &got, b"first");
    receives(&rt, &mut net, &mut got, B, from_a);
    holds(&rt, &got, b"second");
    receives(&rt, &mut net, &mut got, B, Ok(Got::Nothing));

    // What is sent to a host that is bound is queued for it, and not what is sent elsewhere.
    sends(&rt, &mut net, B, A, b"away", Ok(()));
    sends(&rt, &mut net, A, B, b"here", Ok(()));
    receives(&rt, &mut net, &mut got, A, Ok(Got::Nothing));
    receives(&rt, &mut net, &mut got, B, from_a);
    holds(&rt, &got, b"here");
    Ok(())
}

#[test]
fn calls_fail_by_plan_and_where_there_is_no_room(rt: HostRuntime) -> Result<(), Fail> {
    let mut got = Frame::empty();
    let fails = Vec::from_slice(rt.alloc(), &[1, 3])?;
    let mut net = MemNet::new(rt.alloc(), Vec::new(rt.alloc()), 1, fails)?;
    binds(&rt, &mut net, A, 4000, Ok(()));
    binds(&rt, &mut net, B, 4001, Err(NetFailed));
    binds(&rt, &mut net, B, 4001, Ok(()));
    sends(&rt, &mut net, A, B, b"lost", Err(NetFailed));
    sends(&rt, &mut net, A, B, &[7; 1501], Err(NetFailed));
    sends(&rt, &mut net, A, B, b"sent", Ok(()));
    sends(&rt, &mut net, A, B, b"more", Err(NetFailed));
    receives(&rt, &mut net, &mut got, B, Ok(Got::Frame { from: A }));
    holds(&rt, &got, b"sent");
    receives(&rt, &mut net, &mut got, B, Err(NetFailed));
    Ok(())
}

#[test]
fn the_last_tick_is_given_for_ever(rt: HostRuntime) -> Result<(), Fail> {
    let mut clock = MemClock::new(Vec::from_slice(rt.alloc(), &[3, 3, 7])?);
    for tick in [3, 3, 7, 7, 7] {
        assert_eq!(rt; clock.now(), tick);
    }
    Ok(())
}

#[test]
fn a_net_that_never_fails_gives_nothing(rt: HostRuntime) {
    let mut net = SureNet::new();
    binds(&rt, &mut net, A, 4000, Ok(()));
    routes(&rt, &mut net, B, 4001);
    sends(&rt, &mut net, A, B, b"lost", Ok(()));
    receives(&rt, &mut net, &mut Frame::empty(), A, Ok(Got::Nothing));
}
