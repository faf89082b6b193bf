ghost use Rattle.std.specs.Prelude.{◌≡◌, ◌<◌, ◌≤◌, ◌^◌, ◌∷◌, [], IfOk, IsSome, length};
ghost use Rattle.msg_pool.specs.Pool.{Pool};
ghost use Rattle.host_places.specs.Placed.{spot_at};
ghost use Rattle.homa_plain.specs.Settings.{IsValid};
ghost use Rattle.homa_in.specs.Pooled.{AreIn};
ghost use Rattle.homa_in.specs.Pieces.{IsFit};
ghost use Rattle.homa_server.specs.Table.{request_at};

use homa_plain::{Body, CallId, Emitted, HostId, LAST_HOST_TICK, Packet, Role, Settings};
use homa_server::*;
use homa_service::{Reply, Service, Suite};
use msg_pool::{MsgPool, Scratch};
use std::alloc::{AllocError, Global};
use std::process::Abort;
use std::test::Fail;

const FROM: HostId = HostId(0);

const ID: CallId = CallId {
    client: FROM,
    inc: 1,
    seq: 7,
};

// A packet of the call.
fn packet(body: Body) -> Packet
    ensures role { result.role ≡ Role.Client }
    ensures body { result.body ≡ body }
{
    Packet {
        role: Role::Client,
        level: 7,
        sender: 1,
        inc: 1,
        seq: 7,
        at: 0,
        body,
    }
}

// A piece of a request of `length` bytes.
fn piece(length: u32, offset: u32, service: u8) -> Packet
    ensures role { result.role ≡ Role.Client }
    ensures body { result.body ≡ Body.Data length offset 0 service None }
{
    packet(Body::Data {
        length,
        offset,
        version: 0,
        service,
        ack: None,
    })
}

// Settings with room for one row, whose client is asked once.
fn one_row() -> Settings
    ensures { IsValid result }
{
    Settings {
        tries: 1,
        served: 1,
        ..Settings::usual()
    }
}

// A table without calls.
fn new_table(alloc: Global, settings: &Settings) -> Result<ServerTable, AllocError>
    requires { IsValid settings.now }
    ensures { IfOk result (λ t. (pool : Pool) → AreIn pool (request_at t.rows)) }
{
    ServerTable::open(alloc, HostId(1), settings)
}

// The row acts, if it is due.
fn act_if_due(
    table: &mut ServerTable,
    slot: u32,
    now: u64,
    order: u64,
    pool: &mut MsgPool,
) -> Option<ServerAct>
    requires stands { IsSome (spot_at table.old.rows slot) }
    requires now { now ≤ LAST_HOST_TICK }
    requires pool { AreIn pool.old (request_at table.old.rows) }
    ensures { AreIn pool.new (request_at table.new.rows) }
{
    let at = table.deadline(slot)?;
    if now < at {
        return None;
    }
    Some(table.act(slot, now, order, pool))
}

// The request is granted, if it may be.
fn grant_if_more(table: &mut ServerTable, slot: u32, offset: u32, now: u64) -> bool
    requires stands { IsSome (spot_at table.old.rows slot) }
    requires now { now ≤ LAST_HOST_TICK }
{
    let Some(part) = table.incoming(slot) else {
        return false;
    };
    if offset < part.granted() || part.len() < offset {
        return false;
    }
    table.granted(slot, offset, now);
    true
}

// A server with its pool.
#[derive(Drop)]
struct Server {
    table: ServerTable,
    pool: MsgPool,
    scratch: Scratch,
}

impl Server {
    // A server without calls, with so many pages.
    fn open(alloc: Global, settings: &Settings, pages: u32) -> Result<Server, AllocError>
        requires valid { IsValid settings.now }
        requires pages { pages ≤ 4096 }
        ensures { IfOk result (λ s. AreIn s.pool (request_at s.table.rows)) }
    {
        let table = new_table(alloc, settings)?;
        let pool = MsgPool::new(alloc, pages)?;
        let scratch = Scratch::new(alloc)?;
        Ok(Server {
            table,
            pool,
            scratch,
        })
    }

    // A packet comes from a host. The services are those of a suite.
    fn get(
        &mut self,
        alloc: Global,
        from: HostId,
        packet: &Packet,
        payload: &[u8],
        now: u64,
        order: u64,
    ) -> Result<ServerDid, AllocError>
        requires role { packet.now.role ≡ Role.Client }
        requires fits { IsFit packet.now.body payload.now }
        requires now { now ≤ LAST_HOST_TICK }
        requires order { order < 2 ^ 63 }
        requires pool { AreIn self.old.pool (request_at self.old.table.rows) }
        ensures { AreIn self.new.pool (request_at self.new.table.rows) }
    {
        let mut suite = Suite::new();
        self.table.receive(
            alloc,
            from,
            packet,
            payload,
            now,
            order,
            &mut self.pool,
            &mut suite,
            &mut self.scratch,
        )
    }
}

// A request that comes in two pieces runs.
fn runs(rt: &impl Abort, alloc: Global, server: &mut Server)
    requires { AreIn server.old.pool (request_at server.old.table.rows) }
{
    opens(rt, alloc, server, piece(5, 0, 2), 10, 0);
    assert!(rt; server.table.rows() == 1);
    let last = server.get(alloc, FROM, &piece(5, 2, 2), b"cde", 11, 1).ok();
    let ran = ServerDid::Ran {
        slot: slot(rt, &server.table),
        opened: false,
        hold: 0,
    };
    assert!(rt; last == Some(ran));
    assert!(rt; server.scratch.bytes() == b"abcde".as_slice());
    assert!(rt; server.pool.free() == 2);
}

// The slot of the call's row.
fn slot(rt: &impl Abort, table: &ServerTable) -> u32
    ensures { IsSome (spot_at table.now.rows result) }
{
    table.find(ID).expect(rt, "a row")
}

// A request's piece with the bytes "ab" opens it.
fn opens(rt: &impl Abort, alloc: Global, server: &mut Server, packet: Packet, now: u64, order: u64)
    requires role { packet.role ≡ Role.Client }
    requires fits { IsFit packet.body (97 ∷ 98 ∷ []) }
    requires now { now ≤ LAST_HOST_TICK }
    requires order { order < 2 ^ 63 }
    requires pool { AreIn server.old.pool (request_at server.old.table.rows) }
    ensures { AreIn server.new.pool (request_at server.new.table.rows) }
{
    let first = server.get(alloc, FROM, &packet, b"ab", now, order).ok();
    let opened = ServerDid::Opened(slot(rt, &server.table));
    assert!(rt; first == Some(opened));
}

// The call's row acts at a tick, if it is due, and does this.
fn acts(rt: &impl Abort, server: &mut Server, now: u64, wanted: Option<ServerAct>)
    requires now { now ≤ LAST_HOST_TICK }
    requires pool { AreIn server.old.pool (request_at server.old.table.rows) }
    ensures { AreIn server.new.pool (request_at server.new.table.rows) }
{
    let slot = slot(rt, &server.table);
    let act = act_if_due(&mut server.table, slot, now, 1, &mut server.pool);
    assert!(rt; act == wanted);
}

// What the table says of the call that ran.
fn stands(rt: &impl Abort, table: &ServerTable) {
    let answer = table.response(ID);
    assert!(rt; answer == Some(b"edcba".as_slice()));
    let slot = slot(rt, table);
    let facts = table.row(slot);
    assert!(rt; facts.id == ID && facts.peer == FROM && facts.order == 0);
    assert!(rt; table.incoming(slot).is_none());
    assert!(rt; table.deadline(slot).is_none());
}

// The response leaves, and is acknowledged.
fn leaves(rt: &impl Abort, table: &mut ServerTable) {
    let at = slot(rt, table);
    assert!(rt; table.emit(at, 12, 4) == Emitted::Short);
    let at = slot(rt, table);
    assert!(rt; table.emit(at, 12, 5) == Emitted::Sent(0, 5));
    assert!(rt; table.ack(ID, 13) == Some((at, 33)));
    assert!(rt; table.response(ID).is_none());
    assert!(rt; table.rows() == 1);
}

// A call from its first piece to its ACK.
fn comes_to_its_end(rt: &impl Abort, alloc: Global, server: &mut Server)
    requires { AreIn server.old.pool (request_at server.old.table.rows) }
{
    runs(rt, alloc, server);
    stands(rt, &server.table);
    leaves(rt, &mut server.table);
}

#[test]
fn one_call(rt: HostRuntime) -> Result<(), Fail> {
    let mut server = Server::open(rt.alloc(), &Settings::usual(), 2)?;
    comes_to_its_end(&rt, rt.alloc(), &mut server);
    Ok(())
}

// What was opened of a request of 12,000 bytes is granted.
fn is_granted(rt: &impl Abort, table: &mut ServerTable) {
    let at = slot(rt, table);
    assert!(rt; table.deadline(at) == Some(14));
    assert!(rt; grant_if_more(table, at, 12000, 11));
    let at = slot(rt, table);
    assert!(rt; table.deadline(at) == Some(15));
    let granted = table.incoming(at).map(|part| part.granted());
    assert!(rt; granted == Some(12000));
}

// A request of 12,000 bytes is opened and granted.
fn opens_and_is_granted(rt: &impl Abort, alloc: Global, server: &mut Server)
    requires { AreIn server.old.pool (request_at server.old.table.rows) }
{
    opens(rt, alloc, server, piece(12000, 0, 0), 10, 0);
    is_granted(rt, &mut server.table);
}

#[test]
fn a_grant(rt: HostRuntime) -> Result<(), Fail> {
    let mut server = Server::open(rt.alloc(), &Settings::usual(), 8)?;
    opens_and_is_granted(&rt, rt.alloc(), &mut server);
    Ok(())
}

// A service that holds its reply back is asked once.
fn runs_and_waits(rt: &impl Abort, alloc: Global, server: &mut Server)
    requires { AreIn server.old.pool (request_at server.old.table.rows) }
    ensures { AreIn server.new.pool (request_at server.new.table.rows) }
{
    let first = server.get(alloc, FROM, &piece(2, 0, 3), b"hi", 10, 0).ok();
    let at = slot(rt, &server.table);
    let ran = ServerDid::Ran {
        slot: at,
        opened: true,
        hold: 10,
    };
    assert!(rt; first == Some(ran));
    let again = server.get(alloc, FROM, &piece(2, 0, 3), b"hi", 11, 1).ok();
    assert!(rt; again == Some(ServerDid::Nothing));
}

// The reply goes out when it has been held for 10 ticks.
fn is_released(rt: &impl Abort, server: &mut Server)
    requires { AreIn server.old.pool (request_at server.old.table.rows) }
{
    let at = slot(rt, &server.table);
    assert!(rt; server.table.deadline(at) == Some(20));
    acts(rt, server, 19, None);
    acts(rt, server, 20, Some(ServerAct::Release));
    let at = slot(rt, &server.table);
    assert!(rt; server.table.emit(at, 20, 1400) == Emitted::Sent(0, 2));
}

// A reply is held back, and goes out.
fn holds_and_releases(rt: &impl Abort, alloc: Global, server: &mut Server)
    requires { AreIn server.old.pool (request_at server.old.table.rows) }
{
    runs_and_waits(rt, alloc, server);
    is_released(rt, server);
}

#[test]
fn a_held_reply(rt: HostRuntime) -> Result<(), Fail> {
    let mut server = Server::open(rt.alloc(), &Settings::usual(), 2)?;
    holds_and_releases(&rt, rt.alloc(), &mut server);
    Ok(())
}

// Too few pages for the first request, and too few rows for the third.
fn fills(rt: &impl Abort, alloc: Global, server: &mut Server)
    requires { AreIn server.old.pool (request_at server.old.table.rows) }
{
    let full = server
        .get(alloc, FROM, &piece(5000, 0, 0), b"ab", 10, 0)
        .ok();
    assert!(rt; full == Some(ServerDid::FullPages { need: 2, free: 1 }));
    opens(rt, alloc, server, piece(50, 10, 0), 10, 0);
    let other = server
        .get(alloc, HostId(2), &piece(5, 0, 0), b"ab", 11, 1)
        .ok();
    assert!(rt; other == Some(ServerDid::FullRows { rows: 1 }));
}

#[test]
fn too_little_room(rt: HostRuntime) -> Result<(), Fail> {
    let mut server = Server::open(rt.alloc(), &one_row(), 1)?;
    fills(&rt, rt.alloc(), &mut server);
    Ok(())
}

// The client is asked once, and then the request is given up.
fn gives_up(rt: &impl Abort, server: &mut Server)
    requires { AreIn server.old.pool (request_at server.old.table.rows) }
    ensures { AreIn server.new.pool (request_at server.new.table.rows) }
{
    acts(rt, server, 14, Some(ServerAct::Resend(0, 10)));
    acts(rt, server, 18, Some(ServerAct::Drop(ID)));
    assert!(rt; server.table.rows() == 0);
    assert!(rt; server.table.find(ID).is_none());
    assert!(rt; server.pool.free() == 1);
}

// A request is given up, and opened again.
fn drops_and_reopens(rt: &impl Abort, alloc: Global, server: &mut Server)
    requires { AreIn server.old.pool (request_at server.old.table.rows) }
{
    opens(rt, alloc, server, piece(50, 10, 0), 10, 0);
    gives_up(rt, server);
    opens(rt, alloc, server, piece(50, 10, 0), 19, 1);
}

#[test]
fn a_drop_and_its_reopening(rt: HostRuntime) -> Result<(), Fail> {
    let mut server = Server::open(rt.alloc(), &one_row(), 1)?;
    drops_and_reopens(&rt, rt.alloc(), &mut server);
    Ok(())
}

// A service that finds no memory.
#[derive(Drop)]
struct Poor;

impl Service for Poor {
    ghost served = { λ poor. 0 };

    ghost allows = { λ poor count number q r hold. ⊥ };

    fn serve(&mut self, _alloc: Global, _number: u8, _request: &[u8]) -> Result<Reply, AllocError> {
        Err(AllocError)
    }
}

// A request of one packet comes, and the service finds no memory.
fn finds_no_memory(rt: &impl Abort, alloc: Global, server: &mut Server)
    requires { AreIn server.old.pool (request_at server.old.table.rows) }
{
    let none = server.table.receive(
        alloc,
        FROM,
        &piece(2, 0, 0),
        b"hi",
        10,
        0,
        &mut server.pool,
        &mut Poor,
        &mut server.scratch,
    );
    assert!(rt; none.is_err());
    assert!(rt; server.table.rows() == 0);
    assert!(rt; server.table.find(ID).is_none());
    assert!(rt; server.pool.free() == 2);
    assert!(rt; server.scratch.bytes() == b"hi".as_slice());
}

#[test]
fn no_memory_in_the_service(rt: HostRuntime) -> Result<(), Fail> {
    let mut server = Server::open(rt.alloc(), &Settings::usual(), 2)?;
    finds_no_memory(&rt, rt.alloc(), &mut server);
    Ok(())
}
