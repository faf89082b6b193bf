// What a host's heaps hold, with values that were worked out by hand, a front of a frame that is a packet, and a service
// that finds no memory.
ghost use Rattle.std.specs.Prelude.{◌≡◌, ◌+◌, ◌<◌, ◌^◌, IfOk};
ghost use Rattle.driven_host.specs.Driven.{IsKept};

use driven_host::DrivenHost;
use homa_host::Host;
use homa_plain::{CallId, Entry, HostId, Settings};
use host_heap::first;
use host_view::Outbox;
use msg_pool::Scratch;
use place_heap::Key;
use std::alloc::{AllocError, Global};
use std::process::Abort;
use std::test::*;
use test_services::{Fickle, Letter};

const CLIENT: HostId = HostId(0);

const SERVER: HostId = HostId(1);

// The first slot of a host's rows as a client, and the first of those as a server.
const CLIENT_SLOT: u32 = 0;

const SERVER_SLOT: u32 = 256;

// A request's whole: two bytes, "hi".
const DATA: [u8; 38] = [
    1, 1, 0, 7, 0, 0, 0, 1, 0, 0, 0, 1, 0, 0, 0, 0, 0, 0, 0, 2, 0, 0, 0, 0, 0, 0, 0, 0, 0, 0, 0, 0,
    0, 0, 0, 0, 104, 105,
];

fn key(first: u64, second: u64) -> Key
    ensures { result ≡ record { first = first; second = second } }
{
    Key { first, second }
}

// What a host's heaps hold: the first timer and the sender that is granted first, and how many timers, senders and messages
// to send there are.
#[derive(Clone, Copy, Debug, PartialEq, Eq)]
struct Holds {
    timer: Option<(u32, Key)>,
    timers: u32,
    sender: Option<(u32, Key)>,
    senders: u32,
    sends: u32,
}

fn heaps(host: &Host) -> Holds {
    Holds {
        timer: first(host.timers().heap()),
        timers: host.timers().heap().len(),
        sender: first(host.grants().peers()),
        senders: host.grants().peers().len(),
        sends: host.pacer().heap().len(),
    }
}

// A client that waits for its server up to a tick: all of its request is sent, and nothing comes.
fn waits_until(tick: u64) -> Holds {
    Holds {
        timer: Some((CLIENT_SLOT, key(tick, 0))),
        timers: 1,
        sender: None,
        senders: 0,
        sends: 0,
    }
}

// A server with one byte of two, of which it asks for the other at tick 4.
const ONE_OF_TWO: Holds = Holds {
    timer: Some((
        SERVER_SLOT,
        Key {
            first: 4,
            second: 0,
        },
    )),
    timers: 1,
    sender: Some((
        0,
        Key {
            first: 1,
            second: 0,
        },
    )),
    senders: 1,
    sends: 0,
};

// The call's only host has asked the server in vain.
#[test]
fn the_heaps_of_a_call_that_is_lost(rt: HostRuntime) -> Result<(), Fail> {
    let request = Vec::from_slice(rt.alloc(), b"hi")?;
    let mut client = DrivenHost::open(rt.alloc(), CLIENT, 1, 0, &Settings::usual())?;
    asks(&rt, &mut client, request);
    gives_up(&rt, &mut client);
    Ok(())
}

// A call of two bytes: the client asks for the response when 4 ticks have gone, and again 4 ticks later.
fn asks(rt: &impl Abort, client: &mut DrivenHost, request: Vec<u8>) {
    assert!(rt; client.call(SERVER, 0, request, 0).is_some());
    assert!(rt; heaps(client.host()) == waits_until(4));
    assert!(rt; client.host().pacer().credit() == 13_998);
    assert!(rt; client.turn(4).is_some());
    assert!(rt; heaps(client.host()) == waits_until(8));
}

// It has asked five times, and gives up.
fn gives_up(rt: &impl Abort, client: &mut DrivenHost) {
    for now in 5..25 {
        assert!(rt; client.turn(now).is_some());
    }
    assert!(rt; client.host().live() == 0);
    assert!(rt; heaps(client.host()).timers == 0);
}

#[test]
fn a_piece_without_its_last_byte(rt: HostRuntime) -> Result<(), Fail> {
    let mut server = DrivenHost::open(rt.alloc(), SERVER, 1, 0, &Settings::usual())?;
    is_whole_later(&rt, rt.alloc(), &mut server);
    Ok(())
}

// One byte of two comes, 68, and then both.
fn is_whole_later(rt: &impl Abort, alloc: Global, server: &mut DrivenHost) {
    assert!(rt; server.deliver(alloc, CLIENT, &DATA[..37], 0).is_some());
    assert!(rt; server.host().entries() == 0);
    assert!(rt; heaps(server.host()) == ONE_OF_TWO);
    assert!(rt; server.deliver(alloc, CLIENT, &DATA, 0).is_some());
    assert!(rt; server.host().entries() == 2);
    assert!(rt; is_answered(&server.entry(0), b"hi"));
    assert!(rt; heaps(server.host()).senders == 0);
}

// A service answers "hi" by these bytes.
fn is_answered(entry: &Entry<'_>, bytes: &[u8]) -> bool {
    let call = CallId {
        client: CLIENT,
        inc: 1,
        seq: 0,
    };
    match entry {
        Entry::Run {
            host,
            id,
            service,
            request,
            response,
            hold,
        } => {
            *host == SERVER
                && *id == call
                && (*service, *hold) == (0, 0)
                && *request == b"hi".as_slice()
                && *response == bytes
        }
        _ => false,
    }
}

// The first of two bytes of another call's request.
const OTHER: [u8; 37] = [
    1, 1, 0, 7, 0, 0, 0, 1, 0, 0, 0, 1, 0, 0, 0, 1, 0, 0, 0, 2, 0, 0, 0, 0, 0, 0, 0, 0, 0, 0, 0, 0,
    0, 0, 0, 0, 104,
];

// A RESEND of the first byte of the response to `DATA`, and its answer where there is no row of that call: an UNKNOWN.
const RESEND: [u8; 25] = [
    1, 3, 0, 7, 0, 0, 0, 1, 0, 0, 0, 1, 0, 0, 0, 0, 0, 0, 0, 0, 0, 0, 0, 1, 3,
];

const UNKNOWN: [u8; 17] = [1, 6, 1, 7, 0, 0, 0, 1, 0, 0, 0, 1, 0, 0, 0, 0, 0];

// The response to `DATA`: the byte 7.
const RESPONSE: [u8; 37] = [
    1, 1, 1, 7, 0, 0, 0, 1, 0, 0, 0, 1, 0, 0, 0, 0, 0, 0, 0, 1, 0, 0, 0, 0, 0, 0, 0, 0, 0, 0, 0, 0,
    0, 0, 0, 0, 7,
];

// A host with a service that finds no memory at its first call.
#[derive(Drop)]
struct Lent {
    host: Host,
    service: Fickle<Letter>,
    out: Outbox,
    scratch: Scratch,
}

fn opened(alloc: Global) -> Result<Lent, AllocError>
    ensures kept { IfOk result (λ it. IsKept it.host it.service.then.served it.out it.host.host.id 2 0) }
    ensures id { IfOk result (λ it. it.host.host.id.0 ≡ 1) }
{
    let out = Outbox::new(alloc)?;
    let scratch = Scratch::new(alloc)?;
    Ok(Lent {
        host: Host::open(alloc, SERVER, 1, &Settings::usual())?,
        service: Fickle::over(Letter::new(7)),
        out,
        scratch,
    })
}

// A datagram comes from the client at tick 0, after so many steps. Tells whether there was memory.
fn comes(rt: &impl Abort, alloc: Global, it: &mut Lent, steps: u64, frame: &[u8]) -> bool
    requires few { steps < 2 ^ 56 }
    requires kept { IsKept it.old.host it.old.service.then.served it.old.out it.old.host.host.id 2 steps }
    requires id { it.old.host.host.id.0 ≡ 1 }
    ensures kept { IsKept it.new.host it.new.service.then.served it.new.out it.new.host.host.id 2 (steps + 1) }
    ensures id { it.new.host.host.id.0 ≡ 1 }
{
    assert!(rt; it.host.last() == 0);
    it.host
        .deliver(
            alloc,
            CLIENT,
            frame,
            0,
            &mut it.service,
            &mut it.out,
            &mut it.scratch,
        )
        .is_ok()
}

#[test]
fn want_of_memory_is_no_delivery(rt: HostRuntime) -> Result<(), Fail> {
    let mut it = opened(rt.alloc())?;
    is_refused(&rt, rt.alloc(), &mut it);
    is_served(&rt, rt.alloc(), &mut it);
    Ok(())
}

// Beside the other call's row a request comes, and the service finds no memory. Nothing happens: no entry, no packet, no row
// but the one that there was.
fn is_refused(rt: &impl Abort, alloc: Global, it: &mut Lent)
    requires kept { IsKept it.old.host it.old.service.then.served it.old.out it.old.host.host.id 2 0 }
    requires id { it.old.host.host.id.0 ≡ 1 }
    ensures kept { IsKept it.new.host it.new.service.then.served it.new.out it.new.host.host.id 2 2 }
    ensures id { it.new.host.host.id.0 ≡ 1 }
{
    assert!(rt; comes(rt, alloc, it, 0, &OTHER));
    has_the_other(rt, &it.host);
    assert!(rt; !comes(rt, alloc, it, 1, &DATA));
    assert!(rt; it.host.entries() == 0);
    assert!(rt; it.out.is_empty());
    assert!(rt; it.service.then.served == 0);
    has_the_other(rt, &it.host);
}

// The client is told that the call isn't known. The same packet again: the service answers, and its response is sent.
fn is_served(rt: &impl Abort, alloc: Global, it: &mut Lent)
    requires kept { IsKept it.old.host it.old.service.then.served it.old.out it.old.host.host.id 2 2 }
    requires id { it.old.host.host.id.0 ≡ 1 }
{
    assert!(rt; comes(rt, alloc, it, 2, &RESEND));
    has_sent(rt, &it.out, &UNKNOWN);
    assert!(rt; comes(rt, alloc, it, 3, &DATA));
    assert!(rt; it.service.then.served == 1);
    has_sent(rt, &it.out, &RESPONSE);
    assert!(rt; it.host.entries() == 2);
    assert!(rt; is_answered(&it.host.entry(0, &it.out, &it.scratch), &[7]));
}

// A host whose only row is that of a request of which one byte is missing.
fn has_the_other(rt: &impl Abort, host: &Host) {
    assert!(rt; heaps(host) == ONE_OF_TWO);
    assert!(rt; host.live() == 0);
}

// One frame, of these bytes.
fn has_sent(rt: &impl Abort, out: &Outbox, frame: &[u8]) {
    assert!(rt; out.len() == 1);
    assert!(rt; out.bytes(0) == frame);
}
