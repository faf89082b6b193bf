// Every form of line: printed, compared with the line worked out by hand, and read back; and lines of no entry.
ghost use Rattle.homa_plain.specs.Entries.{plain, IsCause};
ghost use Rattle.homa_plain.specs.Told.{HasLine};

use check_reader::read_entry;
use homa_io::MemSink;
use homa_plain::{
    Body, CallId, Cutoffs, Entry, HostId, LineFault, More, Name, Role, ScriptFault, SettingFault,
    Settings, StartFault, Why, WorldFault,
};
use homa_text::put_entry;
use std::alloc::{AllocError, Global};
use std::process::Abort;
use std::test::Fail;

// An entry's line goes to a sink.
fn puts(rt: &impl Abort, sink: &mut MemSink, entry: &Entry<'_>, line: &[u8])
    requires { HasLine (plain entry.now) }
{
    assert_eq!(rt; put_entry(sink, entry), Ok(()));
    assert!(rt; sink.bytes().strip_suffix(b"\n") == Some(line));
}

// An entry is printed as this line.
fn is_printed(rt: &impl Abort, alloc: Global, entry: &Entry<'_>, line: &[u8]) -> Result<(), Fail>
    requires { HasLine (plain entry.now) }
{
    let mut sink = MemSink::new(alloc, 300, Vec::new(alloc))?;
    puts(rt, &mut sink, entry, line);
    Ok(())
}

// A line is read as the entry that is printed so.
#[tactic(auto, using(crate::proofs::Told::has_line))]
fn is_read(rt: &impl Abort, alloc: Global, line: &[u8]) -> Result<(), Fail> {
    let mut bytes = vec![in alloc; 0; line.len()]?;
    let Some(read) = read_entry(line, &mut bytes) else {
        panic!(rt; "no entry is read");
    };
    is_printed(rt, alloc, &read, line)
}

fn same(rt: &impl Abort, alloc: Global, entry: &Entry<'_>, line: &[u8]) -> Result<(), Fail>
    requires { HasLine (plain entry.now) }
{
    is_printed(rt, alloc, entry, line)?;
    is_read(rt, alloc, line)
}

const CALL: CallId = CallId {
    client: HostId(0),
    inc: 1,
    seq: 4_294_967_295,
};

#[test]
fn settings(rt: HostRuntime) -> Result<(), Fail> {
    let alloc = rt.alloc();
    let line = |skew, wire| {
        Entry::Settings(Settings {
            skew,
            wire,
            ..Settings::usual()
        })
    };
    let usual = b"settings 2 1400 10000 10000 4 14000 4 5 20 1024 256 1024 0";
    same(&rt, alloc, &line(0, 1), usual)?;
    let skew = b"settings 2 1400 10000 10000 4 14000 4 5 20 1024 256 1024 0 3";
    same(&rt, alloc, &line(3, 1), skew)?;
    let wire = b"settings 2 1400 10000 10000 4 14000 4 5 20 1024 256 1024 0 0 2";
    same(&rt, alloc, &line(0, 2), wire)?;
    let both = b"settings 2 1400 10000 10000 4 14000 4 5 20 1024 256 1024 0 3 2";
    same(&rt, alloc, &line(3, 2), both)
}

#[test]
fn events(rt: HostRuntime) -> Result<(), Fail> {
    let alloc = rt.alloc();
    let (host, other) = (HostId(65535), HostId(1));
    let call = Entry::Call {
        id: CALL,
        server: other,
        service: 255,
        bytes: b"hi",
    };
    same(&rt, alloc, &call, b"call 0.1.4294967295 1 255 6869")?;
    let deliver = Entry::Deliver { packet: u64::MAX };
    same(&rt, alloc, &deliver, b"deliver 18446744073709551615")?;
    same(&rt, alloc, &Entry::Clock { tick: 0 }, b"clock 0")?;
    let restart = Entry::Restart { host, inc: 2 };
    same(&rt, alloc, &restart, b"restart 65535 2")?;
    let bytes = &[0, 0xff];
    let inject = Entry::Inject { host, bytes };
    same(&rt, alloc, &inject, b"inject 65535 00ff")?;
    let bytes = &[];
    let nothing = Entry::Inject { host: other, bytes };
    same(&rt, alloc, &nothing, b"inject 1 -")?;
    let shift = Entry::Shift { host, n: 1000 };
    same(&rt, alloc, &shift, b"shift 65535 1000")?;
    same(&rt, alloc, &Entry::Junk { host }, b"junk 65535")?;
    let (at, now) = (5, 30);
    let stale = Entry::Stale { host, at, now };
    same(&rt, alloc, &stale, b"stale 65535 5 30")?;
    let (from, bytes) = (other, &[0xa0]);
    let received = Entry::Recv { host, from, bytes };
    same(&rt, alloc, &received, b"recv 65535 1 a0")
}

#[test]
fn effects(rt: HostRuntime) -> Result<(), Fail> {
    let alloc = rt.alloc();
    let (host, id) = (HostId(1), CALL);
    let run = |request, response| Entry::Run {
        host,
        id,
        service: 3,
        request,
        response,
        hold: 7,
    };
    let line = b"run 1 0.1.4294967295 3 6869 6f6b21 7";
    same(&rt, alloc, &run(b"hi", b"ok!"), line)?;
    let line = b"run 1 0.1.4294967295 3 - - 7";
    same(&rt, alloc, &run(b"", b""), line)?;
    let bytes = b"ok";
    let done = Entry::Done { id, bytes };
    same(&rt, alloc, &done, b"done 0.1.4294967295 6f6b")?;
    let why = Why::Timeout;
    let timeout = Entry::Fail { id, why };
    same(&rt, alloc, &timeout, b"fail 0.1.4294967295 timeout")?;
    let why = Why::Forgotten;
    let forgotten = Entry::Fail { id, why };
    same(&rt, alloc, &forgotten, b"fail 0.1.4294967295 forgotten")
}

#[test]
fn rows(rt: HostRuntime) -> Result<(), Fail> {
    let alloc = rt.alloc();
    let (host, id) = (HostId(1), CALL);
    let drop = Entry::Drop { host, id };
    same(&rt, alloc, &drop, b"drop 1 0.1.4294967295")?;
    let gaps = Entry::Gaps { host, id };
    same(&rt, alloc, &gaps, b"gaps 1 0.1.4294967295")?;
    let until = 90;
    let bury = Entry::Bury { host, id, until };
    same(&rt, alloc, &bury, b"bury 1 0.1.4294967295 90")?;
    let free = Entry::Free { host, id };
    same(&rt, alloc, &free, b"free 1 0.1.4294967295")?;
    let rows = Entry::FullRows {
        host,
        id,
        rows: 2,
        limit: 3,
    };
    same(&rt, alloc, &rows, b"full 1 0.1.4294967295 rows 2 3")?;
    let pages = Entry::FullPages {
        host,
        id,
        need: 4,
        free: 0,
    };
    same(&rt, alloc, &pages, b"full 1 0.1.4294967295 pages 4 0")?;
    let cutoffs = Cutoffs {
        version: 65535,
        upto: [0, 0, 0, 1_000_000, 40, 30, 20, 10],
    };
    let balance = Entry::Balance { host, cutoffs };
    let line = b"balance 1 65535 0 0 0 1000000 40 30 20 10";
    same(&rt, alloc, &balance, line)
}

fn send<'a>(role: Role, level: u8, body: Body, payload: &'a [u8]) -> Entry<'a>
    ensures { HasLine (plain result) }
{
    Entry::Send {
        number: 9,
        from: HostId(1),
        to: HostId(0),
        inc: 2,
        role,
        id: CALL,
        level,
        body,
        payload,
    }
}

#[test]
fn packets(rt: HostRuntime) -> Result<(), Fail> {
    let alloc = rt.alloc();
    let data = |ack| Body::Data {
        length: 5,
        offset: 3,
        version: 4,
        service: 6,
        ack,
    };
    let first = send(Role::Client, 3, data(None), b"hi");
    let line = b"send 9 1>0 2 DATA c 0.1.4294967295 3 5 3 4 6 - 6869";
    same(&rt, alloc, &first, line)?;
    let empty = send(Role::Server, 7, data(Some((1, 8))), b"");
    let line = b"send 9 1>0 2 DATA s 0.1.4294967295 7 5 3 4 6 1.8 -";
    same(&rt, alloc, &empty, line)?;
    let grant = send(Role::Server, 7, Body::Grant { offset: 8, prio: 1 }, b"");
    let line = b"send 9 1>0 2 GRANT s 0.1.4294967295 8 1";
    same(&rt, alloc, &grant, line)?;
    let body = Body::Resend {
        from: 2,
        to: 4,
        prio: 255,
    };
    let line = b"send 9 1>0 2 RESEND c 0.1.4294967295 2 4 255";
    same(&rt, alloc, &send(Role::Client, 7, body, b""), line)?;
    let busy = send(Role::Server, 7, Body::Busy, b"");
    same(&rt, alloc, &busy, b"send 9 1>0 2 BUSY s 0.1.4294967295")
}

#[test]
fn other_packets(rt: HostRuntime) -> Result<(), Fail> {
    let alloc = rt.alloc();
    let body = Body::Cutoffs(Cutoffs {
        version: 1,
        upto: [0, 7, 6, 5, 4, 3, 2, 1],
    });
    let line = b"send 9 1>0 2 CUTOFFS s 0.1.4294967295 1 0 7 6 5 4 3 2 1";
    same(&rt, alloc, &send(Role::Server, 7, body, b""), line)?;
    let body = Body::Unknown { reason: 1 };
    let line = b"send 9 1>0 2 UNKNOWN s 0.1.4294967295 1";
    same(&rt, alloc, &send(Role::Server, 7, body, b""), line)?;
    let line = b"send 9 1>0 2 NEED_ACK s 0.1.4294967295";
    same(&rt, alloc, &send(Role::Server, 7, Body::NeedAck, b""), line)?;
    let more = More::empty();
    let line = b"send 9 1>0 2 ACK c 0.1.4294967295";
    same(
        &rt,
        alloc,
        &send(Role::Client, 7, Body::Ack { more }, b""),
        line,
    )?;
    let mut more = More::empty();
    more.push(1, 2);
    more.push(3, 4);
    more.push(5, 6);
    more.push(7, 8);
    let line = b"send 9 1>0 2 ACK c 0.1.4294967295 1.2 3.4 5.6 7.8";
    same(
        &rt,
        alloc,
        &send(Role::Client, 7, Body::Ack { more }, b""),
        line,
    )
}

fn refused(fault: LineFault) -> Entry<'static>
    requires { IsCause fault }
    ensures { HasLine (plain result) }
{
    Entry::Refused { line: 2, fault }
}

#[test]
fn ends(rt: HostRuntime) -> Result<(), Fail> {
    let alloc = rt.alloc();
    same(&rt, alloc, &Entry::Finished { n: 12 }, b"ok 12")?;
    let (turns, now) = (3, 100);
    let stalled = Entry::Stalled { turns, now };
    same(&rt, alloc, &stalled, b"stalled 3 100")?;
    let long = refused(LineFault::Script(ScriptFault::LongLine));
    same(&rt, alloc, &long, b"refused 2 LongLine")?;
    let over = refused(LineFault::Script(ScriptFault::InputTooLong));
    same(&rt, alloc, &over, b"refused 2 InputTooLong")?;
    let seg = ScriptFault::Setting(SettingFault::OutOfRange(Name::Seg));
    let range = refused(LineFault::Script(seg));
    same(&rt, alloc, &range, b"refused 2 Setting OutOfRange seg")?;
    let rate = ScriptFault::Setting(SettingFault::RateUnderSeg);
    let under = refused(LineFault::Script(rate));
    same(&rt, alloc, &under, b"refused 2 Setting RateUnderSeg")
}

#[test]
fn refusals_by_the_world(rt: HostRuntime) -> Result<(), Fail> {
    let alloc = rt.alloc();
    let end = refused(LineFault::World(WorldFault::ClockEnd));
    same(&rt, alloc, &end, b"refused 2 ClockEnd")?;
    let (sent, now) = (3, 24);
    let late = refused(LineFault::World(WorldFault::Late { sent, now }));
    same(&rt, alloc, &late, b"refused 2 Late 3 24")?;
    let start = WorldFault::Start(StartFault::SeqSpent);
    let spent = refused(LineFault::World(start));
    same(&rt, alloc, &spent, b"refused 2 Start SeqSpent")?;
    let (n, most) = (11, 10);
    let band = refused(LineFault::World(WorldFault::OutOfBand { n, most }));
    same(&rt, alloc, &band, b"refused 2 OutOfBand 11 10")?;
    let (last, now) = (30, 29);
    let back = refused(LineFault::World(WorldFault::Back { last, now }));
    same(&rt, alloc, &back, b"refused 2 Back 30 29")
}

fn none(rt: &impl Abort, alloc: Global, line: &[u8]) -> Result<(), AllocError> {
    let mut bytes = vec![in alloc; 0; line.len()]?;
    assert!(rt; read_entry(line, &mut bytes).is_none());
    Ok(())
}

#[test]
fn no_lines(rt: HostRuntime) -> Result<(), Fail> {
    let lines = [
        b"".as_slice(),
        b" ",
        b"ok",
        b"ok 1 2",
        b"ok 1 ",
        b" ok 1",
        b"ok  1",
        b"ok\t1",
        b"ok 01",
        b"ok -",
        b"ok +1",
        b"ok 1\r",
        b"ok 1\n",
        b"OK 1",
        b"okay 1",
        b"# ok 1",
        b"ok 18446744073709551616",
        b"refused 2 NoMemory",
        b"junk 65536",
        b"restart 1 4294967296",
        b"call 0.1.0 1 256 -",
        b"call 0.1 1 0 -",
        b"call 0.1.0.0 1 0 -",
        b"call 0..0 1 0 -",
        b"call 0.1.4294967296 1 0 -",
    ];
    for line in lines {
        none(&rt, rt.alloc(), line)?;
    }
    Ok(())
}

#[test]
fn no_lines_of_bytes_or_settings(rt: HostRuntime) -> Result<(), Fail> {
    let lines = [
        b"inject 0".as_slice(),
        b"inject 0 ",
        b"inject 0 6A",
        b"inject 0 A6",
        b"inject 0 6",
        b"inject 0 6g",
        b"inject 0 --",
        b"inject 0 *3",
        b"settings 2 1400 10000 10000 4 14000 4 5 20 1024 256 1024",
        b"settings 2 1400 10000 10000 4 14000 4 5 20 1024 256 1024 0 0",
        b"settings 2 1400 10000 10000 4 14000 4 5 20 1024 256 1024 0 0 1",
        b"settings 2 1400 10000 10000 4 14000 4 5 20 1024 256 1024 0 3 1",
        b"settings 2 1400 10000 10000 4 14000 4 5 20 1024 256 1024 0 3 2 0",
    ];
    for line in lines {
        none(&rt, rt.alloc(), line)?;
    }
    Ok(())
}

#[test]
fn no_lines_of_packets_or_refusals(rt: HostRuntime) -> Result<(), Fail> {
    let lines = [
        b"send 0 0>1 1 ACK c 0.1.0 0.1 0.2 0.3 0.4 0.5".as_slice(),
        b"send 0 0>1 1 ACK c 0.1.0 0.1.2",
        b"send 0 0-1 1 BUSY c 0.1.0",
        b"send 0 0>1>2 1 BUSY c 0.1.0",
        b"send 0 0>1 1 BUSY C 0.1.0",
        b"send 0 0>1 1 busy c 0.1.0",
        b"send 0 0>1 1 BUSY c 0.1.0 7",
        b"send 0 0>1 1 DATA c 0.1.0 7 1 0 0 0 -",
        b"send 0 0>1 1 UNKNOWN s 0.1.0 256",
        b"fail 0.1.0 maybe",
        b"full 0 0.1.0 pages 1",
        b"full 0 0.1.0 beds 1 2",
        b"balance 1 2 0 0 0 1 2 3 4",
        b"refused 1",
        b"refused 1 NoGo 2",
        b"refused 1 Setting seg",
        b"refused 1 Late 3",
        b"refused 1 Start",
    ];
    for line in lines {
        none(&rt, rt.alloc(), line)?;
    }
    Ok(())
}
