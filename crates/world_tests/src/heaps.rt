// The heaps of the hosts of a world, after a call of which every packet is lost.
ghost use Rattle.std.specs.Prelude.{◌≡◌, ◌≤◌, ◌<◌, ◌+◌, length, IfOk};
ghost use Rattle.std.specs.List.{AllByRecursion};

use homa_host::Host;
use homa_plain::{Event, HostId, Settings};
use homa_replay::ReplayWorld;
use homa_service::Suite;
use homa_world::*;
use std::alloc::{AllocError, Global};
use std::process::Abort;
use std::test::Fail;

// How many timers are armed, from how many peers messages come, and how many messages may be sent.
fn heaps(host: &Host) -> (u32, u32, u32) {
    (
        host.timers().heap().len(),
        host.grants().peers().len(),
        host.pacer().heap().len(),
    )
}

// Whether a timer is due at this tick, and none at the tick before.
fn is_due_at(host: &Host, tick: u64) -> bool
    requires { 1 ≤ tick }
{
    let timers = host.timers();
    timers.due(tick).is_some() && timers.due(tick - 1).is_none()
}

// Of the hosts of a world: their heaps, and whether the client's first timer is due at this tick.
fn seen(world: &World<Suite>, tick: u64) -> ((u32, u32, u32), (u32, u32, u32), bool)
    requires hosts { world.now.settings.hosts ≡ 2 }
    requires tick { 1 ≤ tick }
{
    let (client, server) = (world.host(HostId(0)), world.host(HostId(1)));
    (heaps(client), heaps(server), is_due_at(client, tick))
}

fn happens(alloc: Global, world: &mut World<Suite>, event: &Event, bytes: &[u8]) -> bool
    requires { world.old.applied < 100 }
    ensures applied { world.new.applied ≤ world.old.applied + 1 }
    ensures settings { world.new.settings ≡ world.old.settings }
{
    world.apply(alloc, event, bytes).is_ok()
}

// Four ticks, and a turn of the client; whether they were done.
fn goes_on(alloc: Global, world: &mut World<Suite>) -> bool
    requires { world.old.applied < 90 }
    ensures applied { world.new.applied ≤ world.old.applied + 5 }
    ensures settings { world.new.settings ≡ world.old.settings }
{
    let first = happens(alloc, world, &Event::Clock, b"");
    let second = happens(alloc, world, &Event::Clock, b"");
    let third = happens(alloc, world, &Event::Clock, b"");
    let fourth = happens(alloc, world, &Event::Clock, b"");
    let turn = happens(alloc, world, &Event::Turn { host: HostId(0) }, b"");
    first && second && third && fourth && turn
}

// The request goes at tick 0. The client waits for its answer up to tick 4; nothing comes in, and nothing is left to be sent.
fn is_asked(rt: &impl Abort, alloc: Global, world: &mut World<Suite>)
    requires applied { world.old.applied ≡ 0 }
    requires hosts { world.old.settings.hosts ≡ 2 }
    ensures applied { world.new.applied ≤ 1 }
    ensures settings { world.new.settings ≡ world.old.settings }
{
    let call = Event::Call {
        client: HostId(0),
        server: HostId(1),
        number: 0,
    };
    let called = happens(alloc, world, &call, b"hi");
    assert!(rt; called);
    assert!(rt; seen(world, 4) == ((1, 0, 0), (0, 0, 0), true));
}

// A RESEND goes at tick 4, and the next one is due at tick 8.
fn is_asked_again(rt: &impl Abort, alloc: Global, world: &mut World<Suite>)
    requires applied { world.old.applied ≤ 1 }
    requires hosts { world.old.settings.hosts ≡ 2 }
    ensures applied { world.new.applied ≤ 6 }
    ensures settings { world.new.settings ≡ world.old.settings }
{
    let gone = goes_on(alloc, world);
    assert!(rt; gone);
    assert!(rt; world.packets() == 2);
    assert!(rt; seen(world, 8) == ((1, 0, 0), (0, 0, 0), true));
}

// The fifth RESEND goes at tick 20, and the call fails at tick 24 if nothing comes.
fn is_asked_for_the_last_time(rt: &impl Abort, alloc: Global, world: &mut World<Suite>)
    requires applied { world.old.applied ≤ 6 }
    requires hosts { world.old.settings.hosts ≡ 2 }
    ensures applied { world.new.applied ≤ 26 }
    ensures settings { world.new.settings ≡ world.old.settings }
{
    let second = goes_on(alloc, world);
    let third = goes_on(alloc, world);
    let fourth = goes_on(alloc, world);
    let fifth = goes_on(alloc, world);
    assert!(rt; second && third && fourth && fifth);
    assert!(rt; world.packets() == 6);
    assert!(rt; seen(world, 24) == ((1, 0, 0), (0, 0, 0), true));
}

// It failed: no host holds anything.
fn fails(rt: &impl Abort, alloc: Global, world: &mut World<Suite>)
    requires applied { world.old.applied ≤ 26 }
    requires hosts { world.old.settings.hosts ≡ 2 }
{
    let gone = goes_on(alloc, world);
    assert!(rt; gone);
    assert!(rt; world.packets() == 6);
    assert!(rt; seen(world, 1_000) == ((0, 0, 0), (0, 0, 0), false));
}

fn two(alloc: Global) -> Result<Vec<Suite>, AllocError>
    ensures count { IfOk result (λ all. length all.items ≡ 2) }
    ensures none { IfOk result (λ all. AllByRecursion (λ suite. suite ≡ 0) all.items) }
{
    let mut all = Vec::new(alloc);
    all.push(Suite::new())?;
    all.push(Suite::new())?;
    Ok(all)
}

#[test]
fn every_packet_is_lost(rt: HostRuntime) -> Result<(), Fail> {
    let alloc = rt.alloc();
    let services = two(alloc)?;
    let mut world = World::open_at(alloc, &Settings::usual(), services, 0)?;
    is_asked(&rt, alloc, &mut world);
    is_asked_again(&rt, alloc, &mut world);
    is_asked_for_the_last_time(&rt, alloc, &mut world);
    fails(&rt, alloc, &mut world);
    Ok(())
}
