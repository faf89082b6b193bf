// What a recorder prints of runs. The texts follow from the table of what stands for each report, line by line.
ghost use Rattle.std.specs.Prelude.{◌≤◌, length, IfOk};
ghost use Rattle.homa_plain.specs.Settings.{IsValid};
ghost use Rattle.homa_plain.specs.World.{last_tick};

use homa_io::{MemSink, WriteFailed};
use homa_plain::{Body, CallId, Entry, HostId, Role, Settings};
use homa_record::Recorder;
use node_io::{Observer, SeenFault};
use std::test::Fail;

const A: HostId = HostId(0);

const B: HostId = HostId(1);

// The datagram of a request with the bytes `hi`, in version 1.
const REQUEST: [u8; 38] = [
    1, 1, 0, 7, 0, 0, 0, 1, 0, 0, 0, 1, 0, 0, 0, 0, 0, 0, 0, 2, 0, 0, 0, 0, 0, 0, 0, 0, 0, 0, 0, 0,
    0, 0, 0, 0, 104, 105,
];

// The datagram of the same with the byte `a`, in version 2, sent at tick 0.
const DATED: [u8; 45] = [
    2, 1, 0, 7, 0, 0, 0, 1, 0, 0, 0, 1, 0, 0, 0, 0, 0, 0, 0, 0, 0, 0, 0, 0, 0, 0, 0, 1, 0, 0, 0, 0,
    0, 0, 0, 0, 0, 0, 0, 0, 0, 0, 0, 0, 97,
];

// A BUSY of the same call, in version 1.
const BUSY: [u8; 16] = [1, 4, 0, 7, 0, 0, 0, 1, 0, 0, 0, 1, 0, 0, 0, 0];

// The settings of this version.
fn settings_of(wire: u32) -> Result<Settings, Fail>
    ensures { IfOk result IsValid }
{
    let mut settings = Settings::usual();
    settings.wire = wire;
    match settings.check() {
        Ok(()) => Ok(settings),
        Err(_) => Err(Fail::from("they aren't valid")),
    }
}

// A request of A goes to B, whole in one packet with this number.
fn sends(recorder: &mut Recorder<MemSink>, number: u64, bytes: &[u8]) -> Result<(), SeenFault>
    requires some { 1 ≤ length bytes.now }
    requires few { length bytes.now ≤ 1400 }
{
    let body = Body::Data {
        length: bytes.len() as u32,
        offset: 0,
        version: 0,
        service: 0,
        ack: None,
    };
    let id = CallId {
        client: A,
        inc: 1,
        seq: 0,
    };
    recorder.seen(&Entry::Send {
        number,
        from: A,
        to: B,
        inc: 1,
        role: Role::Client,
        id,
        level: 7,
        body,
        payload: bytes,
    })
}

// A datagram comes to B from A.
fn hears(recorder: &mut Recorder<MemSink>, bytes: &[u8]) -> Result<(), SeenFault> {
    recorder.seen(&Entry::Recv {
        host: B,
        from: A,
        bytes,
    })
}

// The clock stands at a tick.
fn stands(recorder: &mut Recorder<MemSink>, tick: u64) -> Result<(), SeenFault>
    requires { tick ≤ last_tick }
{
    recorder.seen(&Entry::Clock { tick })
}

// A run with settings of a life of 20 ticks, in which one datagram comes again and again.
fn played(recorder: &mut Recorder<MemSink>, settings: Settings) -> Result<(), SeenFault>
    requires { IsValid settings }
{
    hears(recorder, &REQUEST)?;
    recorder.seen(&Entry::Settings(settings))?;
    stands(recorder, 0)?;
    sends(recorder, 0, b"hi")?;
    sends(recorder, 3, b"hi")?;
    sends(recorder, 2, b"hi")?;
    sends(recorder, 4, b"ho")?;
    hears(recorder, &REQUEST)?;
    stands(recorder, 20)?;
    hears(recorder, &REQUEST)?;
    hears(recorder, b"hi")?;
    recorder.turning(B)?;
    stands(recorder, 21)?;
    hears(recorder, &REQUEST)
}

#[test]
fn a_datagram_is_told_by_its_greatest_number_for_its_life(rt: HostRuntime) -> Result<(), Fail> {
    let settings = settings_of(1)?;
    let sink = MemSink::new(rt.alloc(), 1000, Vec::new(rt.alloc()))?;
    let mut recorder = Recorder::open(rt.alloc(), sink)?;
    assert_eq!(rt; played(&mut recorder, settings), Err(SeenFault::Stranger));
    let text =
        b"hosts 2\nseg 1400\nwindow 10000\nunsched 10000\novercommit 4\nrate 14000\nresend 4\ntries 5\nlife 20\npages 1024\n\
        calls 256\nserved 1024\nrebalance 0\ngo\ndeliver 3\nclock\nclock\nclock\nclock\nclock\nclock\nclock\nclock\nclock\n\
        clock\nclock\nclock\nclock\nclock\nclock\nclock\nclock\nclock\nclock\nclock\ndeliver 3\ninject 1 6869\nturn 1\nclock\n\
        stranger 1 0 0101000700000001000000010000000000000002000000000000000000000000000000006869\n";
    assert_eq!(rt; recorder.into_sink().bytes(), text.as_slice());
    Ok(())
}

// A request with the byte `a` is sent, and then this datagram comes.
fn heard(
    recorder: &mut Recorder<MemSink>,
    settings: Settings,
    bytes: &[u8],
) -> Result<(), SeenFault>
    requires { IsValid settings }
{
    recorder.seen(&Entry::Settings(settings))?;
    sends(recorder, 7, b"a")?;
    hears(recorder, bytes)
}

// Whether a recorder takes it, and whether it prints this at the end.
fn records(rt: &HostRuntime, wire: u32, bytes: &[u8], last: &[u8]) -> Result<(bool, bool), Fail> {
    let settings = settings_of(wire)?;
    let sink = MemSink::new(rt.alloc(), 1000, Vec::new(rt.alloc()))?;
    let mut recorder = Recorder::open(rt.alloc(), sink)?;
    let is_ok = heard(&mut recorder, settings, bytes).is_ok();
    let sink = recorder.into_sink();
    Ok((is_ok, sink.bytes().ends_with(last)))
}

#[test]
fn packets_are_those_of_the_version(rt: HostRuntime) -> Result<(), Fail> {
    let sent = b"skew 0\nwire 2\ngo\ndeliver 7\n";
    assert_eq!(rt; records(&rt, 2, &DATED, sent)?, (true, true));
    let junk = b"skew 0\nwire 2\ngo\ninject 1 01040007000000010000000100000000\n";
    assert_eq!(rt; records(&rt, 2, &BUSY, junk)?, (true, true));
    let stranger = b"rebalance 0\ngo\nstranger 1 0 01040007000000010000000100000000\n";
    assert_eq!(rt; records(&rt, 1, &BUSY, stranger)?, (false, true));
    Ok(())
}

#[test]
fn a_fault_of_the_sink_is_told(rt: HostRuntime) -> Result<(), Fail> {
    let settings = settings_of(1)?;
    let fails = Vec::from_slice(rt.alloc(), &[2])?;
    let sink = MemSink::new(rt.alloc(), 1000, fails)?;
    let mut recorder = Recorder::open(rt.alloc(), sink)?;
    let failed = Err(SeenFault::Write(WriteFailed));
    assert_eq!(rt; played(&mut recorder, settings), failed);
    assert_eq!(rt;
        recorder.into_sink().bytes(),
        b"hosts 2\nseg 1400\n".as_slice()
    );
    Ok(())
}
