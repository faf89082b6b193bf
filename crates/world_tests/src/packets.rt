// Packets that are whole, late and stale.
ghost use Rattle.std.specs.Prelude.{◌≡◌, ◌≤◌, [], length, IfOk};
ghost use Rattle.homa_plain.specs.Settings.{IsValid};
ghost use Rattle.world_packets.specs.All.{kept_all};

use homa_plain::{Body, Frame, HostId, Packet, Role, Settings};
use homa_wire::encode;
use std::alloc::{AllocError, Global};
use std::process::Abort;
use std::test::Fail;
use world_packets::*;

// The usual settings, with this version.
fn settings(wire: u32) -> Result<Settings, Fail>
    ensures { IfOk result IsValid }
{
    let mut s = Settings::usual();
    s.wire = wire;
    s.check()?;
    Ok(s)
}

// A packet of three bytes. Its life is 20 ticks: at tick 20 it may still be delivered, at tick 21 no more.
fn goes_late(rt: &impl Abort, alloc: Global, packets: &mut Packets) -> Result<(), AllocError>
    requires { kept_all packets.old ≡ [] }
{
    packets.reserve(alloc, 0)?;
    packets.push(HostId(0), HostId(1), b"abc");
    let whole = Kept::Whole {
        tick: 0,
        from: HostId(0),
        to: HostId(1),
        bytes: b"abc".as_slice(),
    };
    assert!(rt; packets.get(0) == Some(whole));
    assert!(rt; packets.get(1).is_none());
    packets.reserve(alloc, 20)?;
    assert!(rt; packets.get(0) == Some(whole));
    packets.reserve(alloc, 21)?;
    assert!(rt; packets.get(0) == Some(Kept::Late { tick: 0 }));
    assert!(rt; packets.count() == 1);
    Ok(())
}

// There was memory.
fn has_memory(rt: &impl Abort, answer: Result<(), AllocError>) {
    assert!(rt; answer.is_ok());
}

#[test]
fn late_after_its_life(rt: HostRuntime) -> Result<(), Fail> {
    let settings = settings(1)?;
    let mut packets = Packets::open(rt.alloc(), &settings);
    has_memory(&rt, goes_late(&rt, rt.alloc(), &mut packets));
    Ok(())
}

// A BUSY that is sent by a clock of 5.
fn busy() -> Frame
    ensures { length result ≤ 1444 }
{
    let busy = Packet {
        role: Role::Client,
        level: 7,
        sender: 1,
        inc: 1,
        seq: 0,
        at: 5,
        body: Body::Busy,
    };
    let mut frame = Frame::empty();
    encode(&busy, 2, b"", &mut frame);
    frame
}

// It is stale for certain once the world's clock is above 25.
fn goes_stale(
    rt: &impl Abort,
    alloc: Global,
    packets: &mut Packets,
    frame: &Frame,
) -> Result<(), AllocError>
    requires none { kept_all packets.old ≡ [] }
    requires short { length frame.now ≤ 1444 }
{
    packets.reserve(alloc, 0)?;
    packets.push(HostId(0), HostId(1), frame.bytes());
    packets.reserve(alloc, 25)?;
    assert!(rt; matches!(packets.get(0), Some(Kept::Whole { .. })));
    packets.reserve(alloc, 26)?;
    let stale = Kept::Stale {
        to: HostId(1),
        at: 5,
    };
    assert!(rt; packets.get(0) == Some(stale));
    Ok(())
}

#[test]
fn stale_by_its_clock(rt: HostRuntime) -> Result<(), Fail> {
    let settings = settings(2)?;
    let mut packets = Packets::open(rt.alloc(), &settings);
    has_memory(&rt, goes_stale(&rt, rt.alloc(), &mut packets, &busy()));
    Ok(())
}

// A packet of three bytes in each second tick, and one that is sent long after them.
fn go_late(alloc: Global, packets: &mut Packets) -> Result<(), AllocError>
    requires { kept_all packets.old ≡ [] }
{
    for number in 0..200u64 {
        packets.reserve(alloc, 2 * number)?;
        packets.push(HostId(0), HostId(1), b"abc");
    }
    packets.reserve(alloc, 100_000)?;
    packets.push(HostId(0), HostId(1), b"abc");
    packets.reserve(alloc, 100_021)?;
    Ok(())
}

// They are all late.
fn are_late(rt: &impl Abort, packets: &Packets) {
    for number in 0..200u64 {
        assert!(rt; packets.get(number) == Some(Kept::Late { tick: 2 * number }));
    }
    assert!(rt; packets.get(200) == Some(Kept::Late { tick: 100_000 }));
    assert!(rt; packets.get(201).is_none());
    assert!(rt; packets.count() == 201);
}

#[test]
fn late_by_its_number(rt: HostRuntime) -> Result<(), Fail> {
    let settings = settings(1)?;
    let mut packets = Packets::open(rt.alloc(), &settings);
    has_memory(&rt, go_late(rt.alloc(), &mut packets));
    are_late(&rt, &packets);
    Ok(())
}
