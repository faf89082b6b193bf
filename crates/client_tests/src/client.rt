ghost use Rattle.std.specs.Prelude.{◌≡◌, ◌≤◌, ◌<◌, IfOk, IsSome};
ghost use Rattle.host_places.specs.Placed.{spot_at};
ghost use Rattle.homa_plain.specs.Settings.{IsValid};
ghost use Rattle.homa_plain.specs.Wire.{FitsKind};
ghost use Rattle.homa_in.specs.Pooled.{AreIn};
ghost use Rattle.homa_client.specs.AtTable.{part_at};

use homa_client::*;
use homa_plain::{
    Body, CallId, Emitted, HostId, LAST_HOST_TICK, OutFacts, Packet, Role, RowFacts, Settings,
    StartFault,
};
use msg_pool::{MsgPool, Scratch};
use std::alloc::{AllocError, Global};
use std::process::Abort;
use std::test::Fail;

const CLIENT: HostId = HostId(0);

const SERVER: HostId = HostId(1);

// The first call.
const ID: CallId = CallId {
    client: CLIENT,
    inc: 3,
    seq: 7,
};

// A packet of the first call, which an incarnation of its server sends.
fn packet(sender: u32, body: Body) -> Packet
    ensures role { result.role ≡ Role.Server }
    ensures level { result.level ≡ 7 }
    ensures body { result.body ≡ body }
{
    Packet {
        role: Role::Server,
        level: 7,
        sender,
        inc: 3,
        seq: 7,
        at: 0,
        body,
    }
}

// A piece of a response of `length` bytes.
fn piece(length: u32, offset: u32) -> Body
    ensures { result ≡ Body.Data length offset 0 0 None }
{
    Body::Data {
        length,
        offset,
        version: 0,
        service: 0,
        ack: None,
    }
}

// Settings by which the server is asked once.
fn one_try() -> Settings
    ensures { IsValid result }
{
    Settings {
        tries: 1,
        ..Settings::usual()
    }
}

// Settings with room for one call.
fn one_call_at_a_time() -> Settings
    ensures { IsValid result }
{
    Settings {
        calls: 1,
        ..Settings::usual()
    }
}

// A client with its pool.
#[derive(Drop)]
struct Client {
    table: ClientTable,
    pool: MsgPool,
    scratch: Scratch,
}

impl Client {
    // A client in its third incarnation, with so many pages.
    fn open(
        alloc: Global,
        settings: &Settings,
        first_seq: u32,
        pages: u32,
    ) -> Result<Client, AllocError>
        requires valid { IsValid settings.now }
        requires pages { pages ≤ 4096 }
        ensures { IfOk result (λ c. AreIn c.pool (part_at c.table.rows)) }
    {
        let table = ClientTable::open(alloc, CLIENT, 3, first_seq, settings)?;
        let pool = MsgPool::new(alloc, pages)?;
        let scratch = Scratch::new(alloc)?;
        Ok(Client {
            table,
            pool,
            scratch,
        })
    }

    // Calls service 2 of a host.
    fn start(
        &mut self,
        server: HostId,
        request: Vec<u8>,
        now: u64,
    ) -> Result<(u32, CallId), (StartFault, Vec<u8>)>
        requires now { now ≤ LAST_HOST_TICK }
        requires pool { AreIn self.old.pool (part_at self.old.table.rows) }
        ensures pool { AreIn self.new.pool (part_at self.new.table.rows) }
    {
        self.table.start(server, 2, request, now, 0)
    }

    // A packet of the first call comes from its server.
    fn get(&mut self, sender: u32, body: Body, payload: &[u8], now: u64) -> ClientDid
        requires fits { FitsKind Role.Server 7 body payload.now }
        requires now { now ≤ LAST_HOST_TICK }
        requires pool { AreIn self.old.pool (part_at self.old.table.rows) }
        ensures pool { AreIn self.new.pool (part_at self.new.table.rows) }
    {
        let packet = packet(sender, body);
        self.table.receive(
            SERVER,
            &packet,
            payload,
            now,
            1,
            &mut self.pool,
            &mut self.scratch,
        )
    }

    // The row acts, if it is due.
    fn act_if_due(&mut self, slot: u32, now: u64) -> Option<ClientAct>
        requires stands { IsSome (spot_at self.old.table.rows slot) }
        requires now { now ≤ LAST_HOST_TICK }
        requires pool { AreIn self.old.pool (part_at self.old.table.rows) }
        ensures { AreIn self.new.pool (part_at self.new.table.rows) }
    {
        let at = self.table.deadline(slot)?;
        if now < at {
            return None;
        }
        Some(self.table.act(slot, now, &mut self.pool))
    }

    // The next bytes of the request go out, if they may.
    fn emit(&mut self, slot: u32, now: u64, credit: u32) -> Emitted
        requires stands { IsSome (spot_at self.old.table.rows slot) }
        requires now { now ≤ LAST_HOST_TICK }
        requires pool { AreIn self.old.pool (part_at self.old.table.rows) }
        ensures { AreIn self.new.pool (part_at self.new.table.rows) }
    {
        self.table.emit(slot, now, credit)
    }

    // The response is granted, if it may be.
    fn grant_if_more(&mut self, slot: u32, offset: u32, now: u64) -> bool
        requires stands { IsSome (spot_at self.old.table.rows slot) }
        requires now { now ≤ LAST_HOST_TICK }
    {
        let Some(part) = self.table.incoming(slot) else {
            return false;
        };
        if offset < part.granted() || part.len() < offset {
            return false;
        }
        self.table.granted(slot, offset, now);
        true
    }
}

// The first call starts, at tick 10. Tells its slot.
fn starts(rt: &impl Abort, client: &mut Client, request: Vec<u8>) -> u32
    requires { AreIn client.old.pool (part_at client.old.table.rows) }
    ensures { AreIn client.new.pool (part_at client.new.table.rows) }
{
    let (slot, id) = client.start(SERVER, request, 10).ok().expect(rt, "started");
    assert!(rt; id == ID);
    assert!(rt; client.table.live() == 1);
    assert!(rt; client.table.find(ID) == Some(slot));
    slot
}

// No call is live, and so many pages are free.
fn is_over(rt: &impl Abort, client: &Client, free: u32) {
    assert!(rt; client.table.live() == 0);
    assert!(rt; client.table.find(ID).is_none());
    assert!(rt; client.pool.free() == free);
}

// A packet of the first call comes, and this is what the client does.
fn gets(
    rt: &impl Abort,
    client: &mut Client,
    sender: u32,
    body: Body,
    payload: &[u8],
    now: u64,
    wanted: ClientDid,
) -> u32
    requires fits { FitsKind Role.Server 7 body payload.now }
    requires now { now ≤ LAST_HOST_TICK }
    requires pool { AreIn client.old.pool (part_at client.old.table.rows) }
    ensures { AreIn client.new.pool (part_at client.new.table.rows) }
{
    let did = client.get(sender, body, payload, now);
    assert!(rt; did == wanted);
    client.pool.free()
}

// The first call's row acts at a tick, if it is due, and does this.
fn acts(rt: &impl Abort, client: &mut Client, now: u64, wanted: Option<ClientAct>)
    requires now { now ≤ LAST_HOST_TICK }
    requires pool { AreIn client.old.pool (part_at client.old.table.rows) }
    ensures { AreIn client.new.pool (part_at client.new.table.rows) }
{
    let slot = client.table.find(ID).expect(rt, "a row");
    let act = client.act_if_due(slot, now);
    assert!(rt; act == wanted);
}

// The next bytes of the first call's request go out at a tick, if they may.
fn emits(rt: &impl Abort, client: &mut Client, now: u64, credit: u32, wanted: Emitted)
    requires now { now ≤ LAST_HOST_TICK }
    requires pool { AreIn client.old.pool (part_at client.old.table.rows) }
    ensures { AreIn client.new.pool (part_at client.new.table.rows) }
{
    let slot = client.table.find(ID).expect(rt, "a row");
    let emitted = client.emit(slot, now, credit);
    assert!(rt; emitted == wanted);
}

// When the first call's row acts.
fn deadline(rt: &impl Abort, table: &ClientTable) -> Option<u64> {
    let slot = table.find(ID).expect(rt, "a row");
    table.deadline(slot)
}

// How many bytes of the first call's response are missing.
fn left(rt: &impl Abort, table: &ClientTable) -> Option<u32> {
    let slot = table.find(ID).expect(rt, "a row");
    table.incoming(slot).map(|part| part.remaining())
}

// What the table says of a request of five bytes that waits.
fn waits(rt: &impl Abort, table: &ClientTable) {
    let slot = table.find(ID).expect(rt, "a row");
    let out = OutFacts {
        length: 5,
        service: 2,
        left: 5,
        order: 0,
        prio: 0,
        waiting: true,
    };
    let facts = RowFacts {
        id: ID,
        peer: SERVER,
        order: 0,
        out: Some(out),
    };
    assert!(rt; table.row(slot) == facts);
    assert!(rt; table.request(slot) == b"abcde".as_slice());
    assert!(rt; table.incoming(slot).is_none());
    assert!(rt; table.deadline(slot).is_none());
}

// A call of five bytes goes out, and waits.
fn goes_out(rt: &impl Abort, client: &mut Client, request: Vec<u8>)
    requires { AreIn client.old.pool (part_at client.old.table.rows) }
{
    starts(rt, client, request);
    waits(rt, &client.table);
    emits(rt, client, 11, 4, Emitted::Short);
    emits(rt, client, 12, 5, Emitted::Sent(0, 5));
    emits(rt, client, 12, 5, Emitted::Rests);
    assert!(rt; deadline(rt, &client.table) == Some(16));
}

#[test]
fn one_call(rt: HostRuntime) -> Result<(), Fail> {
    let request = Vec::from_slice(rt.alloc(), b"abcde")?;
    let mut client = Client::open(rt.alloc(), &Settings::usual(), 7, 2)?;
    goes_out(&rt, &mut client, request);
    Ok(())
}

// A call is answered by three bytes, which come in two pieces.
fn is_answered(rt: &impl Abort, client: &mut Client, request: Vec<u8>)
    requires { AreIn client.old.pool (part_at client.old.table.rows) }
{
    let slot = starts(rt, client, request);
    let free = gets(
        rt,
        client,
        1,
        piece(3, 0),
        b"xy",
        13,
        ClientDid::Opened(slot),
    );
    assert!(rt; free == 1);
    assert!(rt; left(rt, &client.table) == Some(1));
    let done = ClientDid::Done {
        slot,
        id: ID,
        opened: false,
    };
    gets(rt, client, 1, piece(3, 2), b"z", 14, done);
    assert!(rt; client.scratch.bytes() == b"xyz".as_slice());
    is_over(rt, client, 2);
    gets(rt, client, 1, Body::NeedAck, b"", 15, ClientDid::Ack);
    gets(rt, client, 1, piece(3, 0), b"xy", 15, ClientDid::Nothing);
}

#[test]
fn a_response(rt: HostRuntime) -> Result<(), Fail> {
    let request = Vec::from_slice(rt.alloc(), b"a")?;
    let mut client = Client::open(rt.alloc(), &Settings::usual(), 7, 2)?;
    is_answered(&rt, &mut client, request);
    Ok(())
}

// What was opened of a response of 12,000 bytes is granted.
fn is_granted(rt: &impl Abort, client: &mut Client) {
    let slot = client.table.find(ID).expect(rt, "a row");
    assert!(rt;
        !client.grant_if_more(slot, 12001, 11),
        "the response is shorter"
    );
    let slot = client.table.find(ID).expect(rt, "a row");
    assert!(rt; client.grant_if_more(slot, 12000, 11));
    let slot = client.table.find(ID).expect(rt, "a row");
    let granted = client.table.incoming(slot).map(|part| part.granted());
    assert!(rt; granted == Some(12000));
    let sent = client.table.emit(slot, 12, 1400);
    assert!(rt; sent == Emitted::Sent(0, 1));
    assert!(rt; deadline(rt, &client.table) == Some(16));
}

// A response of 12,000 bytes is opened, and granted.
fn opens_and_is_granted(rt: &impl Abort, client: &mut Client, request: Vec<u8>)
    requires { AreIn client.old.pool (part_at client.old.table.rows) }
{
    let slot = starts(rt, client, request);
    let opened = ClientDid::Opened(slot);
    gets(rt, client, 1, piece(12000, 0), b"xy", 10, opened);
    is_granted(rt, client);
}

#[test]
fn a_grant(rt: HostRuntime) -> Result<(), Fail> {
    let request = Vec::from_slice(rt.alloc(), b"a")?;
    let mut client = Client::open(rt.alloc(), &Settings::usual(), 7, 4)?;
    opens_and_is_granted(&rt, &mut client, request);
    Ok(())
}

// The server is asked once before anything comes, and once after.
fn times_out(rt: &impl Abort, client: &mut Client, request: Vec<u8>)
    requires { AreIn client.old.pool (part_at client.old.table.rows) }
{
    let slot = starts(rt, client, request);
    emits(rt, client, 10, 1400, Emitted::Sent(0, 2));
    acts(rt, client, 13, None);
    acts(rt, client, 14, Some(ClientAct::Resend(0, 10000)));
    let free = gets(
        rt,
        client,
        1,
        piece(5, 1),
        b"x",
        15,
        ClientDid::Opened(slot),
    );
    assert!(rt; free == 0);
    acts(rt, client, 19, Some(ClientAct::Resend(0, 1)));
    acts(rt, client, 23, Some(ClientAct::Timeout(ID)));
    is_over(rt, client, 1);
}

#[test]
fn a_timeout(rt: HostRuntime) -> Result<(), Fail> {
    let request = Vec::from_slice(rt.alloc(), b"ab")?;
    let mut client = Client::open(rt.alloc(), &one_try(), 7, 1)?;
    times_out(&rt, &mut client, request);
    Ok(())
}

// Pieces of two lives of the server come: the response begins anew with the later one, and the earlier one's are left.
fn hears_two_lives(rt: &impl Abort, client: &mut Client, slot: u32)
    requires { AreIn client.old.pool (part_at client.old.table.rows) }
    ensures { AreIn client.new.pool (part_at client.new.table.rows) }
{
    gets(
        rt,
        client,
        1,
        piece(5, 0),
        b"ab",
        11,
        ClientDid::Opened(slot),
    );
    gets(
        rt,
        client,
        2,
        piece(5, 2),
        b"CDE",
        12,
        ClientDid::Opened(slot),
    );
    let free = gets(rt, client, 1, piece(5, 0), b"ab", 13, ClientDid::Nothing);
    assert!(rt; left(rt, &client.table) == Some(2));
    assert!(rt; free == 0);
}

// The server says that the call is under way, and then that it isn't known.
fn is_forgotten(rt: &impl Abort, client: &mut Client, slot: u32)
    requires { AreIn client.old.pool (part_at client.old.table.rows) }
{
    gets(rt, client, 2, Body::NeedAck, b"", 14, ClientDid::Busy(slot));
    let unknown = Body::Unknown { reason: 0 };
    gets(rt, client, 2, unknown, b"", 15, ClientDid::Touched(slot));
    let forgotten = Body::Unknown { reason: 1 };
    let free = gets(
        rt,
        client,
        2,
        forgotten,
        b"",
        16,
        ClientDid::Forgotten { slot, id: ID },
    );
    assert!(rt; client.table.find(ID).is_none());
    assert!(rt; free == 1);
}

// Both lives are heard of, and the later one has forgotten the call.
fn hears_and_is_forgotten(rt: &impl Abort, client: &mut Client, request: Vec<u8>)
    requires { AreIn client.old.pool (part_at client.old.table.rows) }
{
    let slot = starts(rt, client, request);
    hears_two_lives(rt, client, slot);
    is_forgotten(rt, client, slot);
}

#[test]
fn two_lives_of_the_server(rt: HostRuntime) -> Result<(), Fail> {
    let request = Vec::from_slice(rt.alloc(), b"a")?;
    let mut client = Client::open(rt.alloc(), &Settings::usual(), 7, 1)?;
    hears_and_is_forgotten(&rt, &mut client, request);
    Ok(())
}

// Why a call can't start, the length of the request that came back, and the sequence number of one that can.
fn tried(client: &mut Client, server: HostId, request: Vec<u8>) -> Result<u32, (StartFault, usize)>
    requires { AreIn client.old.pool (part_at client.old.table.rows) }
    ensures { AreIn client.new.pool (part_at client.new.table.rows) }
{
    match client.start(server, request, 10) {
        Ok((_, id)) => Ok(id.seq),
        Err((fault, back)) => Err((fault, back.len())),
    }
}

// Requests of no bytes, one too many, two for the client itself, and two twice.
fn starts_once(rt: &impl Abort, client: &mut Client, requests: [Vec<u8>; 5])
    requires { AreIn client.old.pool (part_at client.old.table.rows) }
{
    let [empty, long, own, last, full] = requests;
    assert!(rt; tried(client, SERVER, empty) == Err((StartFault::Empty, 0)));
    assert!(rt; tried(client, SERVER, long) == Err((StartFault::TooLong, 1_000_001)));
    assert!(rt; tried(client, CLIENT, own) == Err((StartFault::SelfCall, 2)));
    assert!(rt; tried(client, SERVER, last) == Ok(u32::MAX - 1));
    assert!(rt; tried(client, SERVER, full) == Err((StartFault::CallsFull, 2)));
}

#[test]
fn calls_that_cannot_start(rt: HostRuntime) -> Result<(), Fail> {
    let settings = one_call_at_a_time();
    let long = Vec::from_elem(rt.alloc(), 5_u8, 1_000_001)?;
    let own = Vec::from_slice(rt.alloc(), b"ab")?;
    let last = Vec::from_slice(rt.alloc(), b"ab")?;
    let full = Vec::from_slice(rt.alloc(), b"ab")?;
    let requests = [Vec::new(rt.alloc()), long, own, last, full];
    let mut client = Client::open(rt.alloc(), &settings, u32::MAX - 1, 1)?;
    starts_once(&rt, &mut client, requests);
    Ok(())
}

// No sequence number is left.
fn is_spent(rt: &impl Abort, client: &mut Client, request: Vec<u8>)
    requires { AreIn client.old.pool (part_at client.old.table.rows) }
{
    let spent = tried(client, SERVER, request);
    assert!(rt; spent == Err((StartFault::SeqSpent, 2)));
}

#[test]
fn sequence_numbers_are_spent(rt: HostRuntime) -> Result<(), Fail> {
    let request = Vec::from_slice(rt.alloc(), b"ab")?;
    let mut client = Client::open(rt.alloc(), &one_call_at_a_time(), u32::MAX, 1)?;
    is_spent(&rt, &mut client, request);
    Ok(())
}

// A response that needs two pages, of which there is one.
fn lacks_a_page(rt: &impl Abort, client: &mut Client, request: Vec<u8>)
    requires { AreIn client.old.pool (part_at client.old.table.rows) }
{
    let slot = starts(rt, client, request);
    let full = ClientDid::Full {
        slot,
        id: ID,
        need: 2,
        free: 1,
    };
    let free = gets(rt, client, 1, piece(4097, 0), b"ab", 11, full);
    assert!(rt; left(rt, &client.table).is_none());
    assert!(rt; free == 1);
}

#[test]
fn full_pages(rt: HostRuntime) -> Result<(), Fail> {
    let request = Vec::from_slice(rt.alloc(), b"a")?;
    let mut client = Client::open(rt.alloc(), &Settings::usual(), 7, 1)?;
    lacks_a_page(&rt, &mut client, request);
    Ok(())
}
