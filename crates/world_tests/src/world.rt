// Worlds at the end of their clock, and a service that finds no memory.
ghost use Rattle.std.specs.Prelude.{◌≡◌, ◌≤◌, ◌+◌, ◌<◌, length, IfOk};
ghost use Rattle.std.specs.List.{AllByRecursion};

use homa_plain::{Body, CallId, Entry, Event, HostId, Role, Settings, WorldFault};
use homa_replay::ReplayWorld;
use homa_service::Suite;
use homa_world::*;
use std::alloc::{AllocError, Global};
use std::process::Abort;
use std::test::Fail;
use test_services::Fickle;

fn two(alloc: Global) -> Result<Vec<Fickle<Suite>>, AllocError>
    ensures count { IfOk result (λ all. length all.items ≡ 2) }
    ensures none { IfOk result (λ all. AllByRecursion (λ fickle. fickle.then ≡ 0) all.items) }
{
    let mut all = Vec::new(alloc);
    for made in 0..2u32 {
        all.push(Fickle::over(Suite::new()))?;
    }
    Ok(all)
}

// What comes of an event.
fn happens(
    alloc: Global,
    world: &mut World<Fickle<Suite>>,
    event: &Event,
    bytes: &[u8],
) -> Result<(), WorldFault>
    requires { world.old.applied < 100 }
    ensures applied { world.new.applied ≤ world.old.applied + 1 }
    ensures settings { world.new.settings ≡ world.old.settings }
{
    world.apply(alloc, event, bytes)
}

// No tick is left for the clock, and a host has its turn.
fn has_no_tick_left(rt: &impl Abort, alloc: Global, world: &mut World<Fickle<Suite>>)
    requires { world.old.applied ≡ 0 }
{
    let ended = happens(alloc, world, &Event::Clock, b"");
    assert!(rt; ended == Err(WorldFault::ClockEnd));
    let turned = happens(alloc, world, &Event::Turn { host: HostId(1) }, b"");
    assert!(rt; turned.is_ok());
    assert!(rt; world.now() == 1_000_000_000_000);
}

#[test]
fn the_clock_ends(rt: HostRuntime) -> Result<(), Fail> {
    let alloc = rt.alloc();
    let services = two(alloc)?;
    let mut world = World::open_at(alloc, &Settings::usual(), services, 1_000_000_000_000)?;
    has_no_tick_left(&rt, alloc, &mut world);
    Ok(())
}

// What these tests compare of an entry: its kind and its numbers, and its bytes.
fn facts<'a>(entry: &Entry<'a>) -> Option<(u8, [u64; 4], &'a [u8], &'a [u8])> {
    match *entry {
        Entry::Call {
            id,
            server,
            service,
            bytes,
        } => {
            let server = u64::from(server.0);
            let numbers = [u64::from(id.seq), server, u64::from(service), 0];
            Some((0, numbers, bytes, b""))
        }
        Entry::Deliver { packet } => Some((1, [packet, 0, 0, 0], b"", b"")),
        Entry::Send {
            number,
            from,
            to,
            level,
            payload,
            ..
        } => {
            let (from, to) = (u64::from(from.0), u64::from(to.0));
            Some((2, [number, from, to, u64::from(level)], payload, b""))
        }
        Entry::Run {
            host,
            service,
            request,
            response,
            hold,
            ..
        } => {
            let host = u64::from(host.0);
            let numbers = [host, u64::from(service), u64::from(hold), 0];
            Some((3, numbers, request, response))
        }
        Entry::Done { id, bytes } => Some((4, [u64::from(id.seq), 0, 0, 0], bytes, b"")),
        _ => None,
    }
}

// These are the entries of the last event.
fn tells(rt: &impl Abort, world: &World<Fickle<Suite>>, wanted: &[Entry<'_>]) {
    assert!(rt; world.entries() == wanted.len());
    for i in 0..wanted.len() {
        assert!(rt; facts(&world.entry(i)) == facts(&wanted[i]));
    }
}

// The call of host 0.
fn first() -> CallId {
    CallId {
        client: HostId(0),
        inc: 1,
        seq: 0,
    }
}

// A message of one piece is sent.
fn sent(number: u64, role: Role, service: u8, payload: &[u8]) -> Entry<'_>
    requires { length payload.now ≤ 8 }
{
    let (from, to) = match role {
        Role::Client => (HostId(0), HostId(1)),
        Role::Server => (HostId(1), HostId(0)),
    };
    Entry::Send {
        number,
        from,
        to,
        inc: 1,
        role,
        id: first(),
        level: 7,
        body: Body::Data {
            length: payload.len() as u32,
            offset: 0,
            version: 0,
            service,
            ack: None,
        },
        payload,
    }
}

// Host 0 calls a service of host 1.
fn calls(rt: &impl Abort, alloc: Global, world: &mut World<Fickle<Suite>>, number: u8)
    requires { world.old.applied ≡ 0 }
    ensures applied { world.new.applied ≤ 1 }
    ensures settings { world.new.settings ≡ world.old.settings }
{
    let (client, server) = (HostId(0), HostId(1));
    let call = Event::Call {
        client,
        server,
        number,
    };
    let called = happens(alloc, world, &call, b"hi");
    assert!(rt; called.is_ok());
    let told = Entry::Call {
        id: first(),
        server,
        service: number,
        bytes: b"hi",
    };
    tells(rt, world, &[told, sent(0, Role::Client, number, b"hi")]);
}

// The service finds no memory for the request: the clock, the packets and the live calls stay.
fn is_refused(rt: &impl Abort, alloc: Global, world: &mut World<Fickle<Suite>>)
    requires { world.old.applied ≤ 1 }
    ensures { world.new.applied ≤ 2 }
{
    let refused = happens(alloc, world, &Event::Deliver { packet: 0 }, b"");
    assert!(rt; refused == Err(WorldFault::NoMemory));
    assert!(rt; (world.now(), world.packets()) == (0, 1));
    assert!(rt; (world.live(HostId(0)), world.live(HostId(1))) == (1, 0));
}

// The same delivery again: the service answers this.
fn is_answered(
    rt: &impl Abort,
    alloc: Global,
    world: &mut World<Fickle<Suite>>,
    number: u8,
    response: &[u8],
)
    requires applied { world.old.applied ≤ 2 }
    requires short { length response.now ≤ 8 }
    ensures { world.new.applied ≤ 3 }
{
    let delivered = happens(alloc, world, &Event::Deliver { packet: 0 }, b"");
    assert!(rt; delivered.is_ok());
    let run = Entry::Run {
        host: HostId(1),
        id: first(),
        service: number,
        request: b"hi",
        response,
        hold: 0,
    };
    let send = sent(1, Role::Server, 0, response);
    tells(rt, world, &[Entry::Deliver { packet: 0 }, run, send]);
}

// The response comes, and the call is done.
fn is_done(rt: &impl Abort, alloc: Global, world: &mut World<Fickle<Suite>>, response: &[u8])
    requires { world.old.applied ≤ 3 }
{
    let delivered = happens(alloc, world, &Event::Deliver { packet: 1 }, b"");
    assert!(rt; delivered.is_ok());
    let done = Entry::Done {
        id: first(),
        bytes: response,
    };
    tells(rt, world, &[Entry::Deliver { packet: 1 }, done]);
}

// A service is called, finds no memory, and answers when the request comes again.
fn answers_again(
    rt: &impl Abort,
    alloc: Global,
    world: &mut World<Fickle<Suite>>,
    number: u8,
    response: &[u8],
)
    requires applied { world.old.applied ≡ 0 }
    requires short { length response.now ≤ 8 }
{
    calls(rt, alloc, world, number);
    is_refused(rt, alloc, world);
    is_answered(rt, alloc, world, number, response);
    is_done(rt, alloc, world, response);
}

#[test]
fn want_of_memory_is_no_delivery(rt: HostRuntime) -> Result<(), Fail> {
    let alloc = rt.alloc();
    let services = two(alloc)?;
    let mut world = World::open_at(alloc, &Settings::usual(), services, 0)?;
    answers_again(&rt, alloc, &mut world, 0, b"hi");
    Ok(())
}

// Number 1 answers how often its service has answered with this answer: the refusal is no answer.
#[test]
fn want_of_memory_is_no_answer(rt: HostRuntime) -> Result<(), Fail> {
    let alloc = rt.alloc();
    let services = two(alloc)?;
    let mut world = World::open_at(alloc, &Settings::usual(), services, 0)?;
    answers_again(&rt, alloc, &mut world, 1, &[0, 0, 0, 0, 0, 0, 0, 1]);
    Ok(())
}
