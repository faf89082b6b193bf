// Schedules that are read, refused and printed. What is expected is written out by hand. Short ones that are refused are rows
// of the program run_rows.
ghost use Rattle.std.specs.Prelude.{◌≡◌, ◌<◌, ◌-◌, ◌^◌, true, false, Ok};
ghost use Rattle.homa_script.specs.Script.{opened, is_end};

use homa_io::{MemSink, MemSource, ReadFailed, WriteFailed};
use homa_plain::{Event, HostId, LONGEST_INPUT, ScriptFault, Settings};
use homa_script::{Next, Reader, ScriptStop, put_event, put_settings};
use std::alloc::{AllocError, Global};
use std::process::Abort;
use std::test::Fail;

fn source_of(alloc: Global, text: &[u8]) -> Result<MemSource, AllocError> {
    let bytes = Vec::from_slice(alloc, text)?;
    Ok(MemSource::new(bytes, Vec::new(alloc)))
}

// The settings are these.
fn begins(rt: &impl Abort, reader: &mut Reader, source: &mut MemSource, settings: &Settings)
    requires { reader.old ≡ opened reader.old.place.limit }
    ensures started { reader.new.started ≡ true }
    ensures not_ended { reader.new.ended ≡ false }
{
    assert_eq!(rt; reader.settings(source), Ok(*settings));
}

// What comes next is this, with these bytes.
fn goes_on(rt: &impl Abort, reader: &mut Reader, source: &mut MemSource, next: Next, bytes: &[u8])
    requires started { reader.old.started ≡ true }
    requires not_ended { reader.old.ended ≡ false }
    ensures started { reader.new.started ≡ true }
    ensures ended { reader.new.ended ≡ is_end (Ok next) }
{
    assert_eq!(rt; reader.next(source), Ok(next));
    assert!(rt; reader.bytes() == bytes);
}

// The reader stops so, or has.
fn stops(rt: &impl Abort, reader: &mut Reader, source: &mut MemSource, stop: ScriptStop)
    requires started { reader.old.started ≡ true }
    requires not_ended { reader.old.ended ≡ false }
    ensures started { reader.new.started ≡ true }
    ensures not_ended { reader.new.ended ≡ false }
{
    assert_eq!(rt; reader.next(source), Err(stop));
}

// The settings are refused so, with so many lines read, and what comes next is too.
fn refuses(
    rt: &impl Abort,
    reader: &mut Reader,
    source: &mut MemSource,
    stop: ScriptStop,
    lines: u64,
)
    requires { reader.old ≡ opened reader.old.place.limit }
{
    assert_eq!(rt; reader.settings(source), Err(stop));
    assert_eq!(rt; reader.next(source), Err(stop));
    assert_eq!(rt; reader.line(), lines);
}

// What the events give behind the settings, of which there are at most a hundred: how many they are, or
// the first stop and its line.
fn events_of(reader: &mut Reader, source: &mut MemSource) -> Result<u32, (u64, ScriptStop)>
    requires started { reader.old.started ≡ true }
    requires not_ended { reader.old.ended ≡ false }
{
    for events in 0..100 {
        match reader.next(source) {
            Ok(Next::End) => return Ok(events),
            Ok(_) => {}
            Err(stop) => return Err((reader.line(), stop)),
        }
    }
    Ok(100)
}

// The same of a whole schedule.
fn count_events(reader: &mut Reader, source: &mut MemSource) -> Result<u32, (u64, ScriptStop)>
    requires { reader.old ≡ opened reader.old.place.limit }
{
    match reader.settings(source) {
        Ok(_) => events_of(reader, source),
        Err(stop) => Err((reader.line(), stop)),
    }
}

fn read_all(alloc: Global, text: &[u8]) -> Result<Result<u32, (u64, ScriptStop)>, AllocError> {
    let mut source = source_of(alloc, text)?;
    let mut reader = Reader::open(alloc, LONGEST_INPUT)?;
    Ok(count_events(&mut reader, &mut source))
}

fn refused(
    rt: &impl Abort,
    alloc: Global,
    text: &[u8],
    line: u64,
    fault: ScriptFault,
) -> Result<(), AllocError> {
    let stop = ScriptStop::Fault(fault);
    assert_eq!(rt; read_all(alloc, text)?, Err((line, stop)), "{text:?}");
    Ok(())
}

// A line behind `go`.
fn behind_go(alloc: Global, line: &[u8]) -> Result<Vec<u8>, AllocError> {
    let mut text = Vec::from_slice(alloc, b"go\n")?;
    text.extend_from_slice(line)?;
    Ok(text)
}

// The line behind `go` stands for this, with these bytes.
fn gives(rt: &impl Abort, reader: &mut Reader, source: &mut MemSource, next: Next, bytes: &[u8])
    requires { reader.old ≡ opened reader.old.place.limit }
{
    begins(rt, reader, source, &Settings::usual());
    goes_on(rt, reader, source, next, bytes);
}

// The one line behind `go` stands for this, with these bytes.
fn stands_for(
    rt: &impl Abort,
    alloc: Global,
    line: &[u8],
    next: Next,
    bytes: &[u8],
) -> Result<(), AllocError> {
    let text = behind_go(alloc, line)?;
    let mut source = source_of(alloc, &text)?;
    let mut reader = Reader::open(alloc, LONGEST_INPUT)?;
    gives(rt, &mut reader, &mut source, next, bytes);
    Ok(())
}

#[test]
fn lines_behind_go(rt: HostRuntime) -> Result<(), Fail> {
    let call = |client, server, number| {
        Next::Event(Event::Call {
            client: HostId(client),
            server: HostId(server),
            number,
        })
    };
    let rows: [(&[u8], Next, &[u8]); 19] = [
        (b"call 0 1 7 6869", call(0, 1, 7), b"hi"),
        (b"  call  65535 0   255 -  ", call(65535, 0, 255), b""),
        (b"call 1 0 0 *4\r\n", call(1, 0, 0), b"\x00\x01\x02\x03"),
        (b"call 1 0 0 *0", call(1, 0, 0), b""),
        (b"call 0 1 0 aBcD", call(0, 1, 0), b"\xab\xcd"),
        (
            b"deliver 0\n",
            Next::Event(Event::Deliver { packet: 0 }),
            b"",
        ),
        (
            b"deliver 18446744073709551615",
            Next::Event(Event::Deliver { packet: u64::MAX }),
            b"",
        ),
        (b"clock", Next::Event(Event::Clock), b""),
        (b"clock\r", Next::Event(Event::Clock), b""),
        (
            b"turn 31",
            Next::Event(Event::Turn { host: HostId(31) }),
            b"",
        ),
        (b"tick", Next::Ticks(1), b""),
        (b"tick 100000", Next::Ticks(100_000), b""),
        (
            b"restart 2",
            Next::Event(Event::Restart { host: HostId(2) }),
            b"",
        ),
        (
            b"inject 3 00ff",
            Next::Event(Event::Inject { host: HostId(3) }),
            b"\x00\xff",
        ),
        (
            b"shift 1 4294967295",
            Next::Event(Event::Shift {
                host: HostId(1),
                n: u32::MAX,
            }),
            b"",
        ),
        (b"\n  \n# deliver\n#x 1\n\r\ntick 7 ", Next::Ticks(7), b""),
        (b"", Next::End, b""),
        (b"# clock", Next::End, b""),
        (b" \n\n", Next::End, b""),
    ];
    for (line, next, bytes) in rows {
        stands_for(&rt, rt.alloc(), line, next, bytes)?;
    }
    Ok(())
}

#[test]
fn a_whole_schedule(rt: HostRuntime) -> Result<(), Fail> {
    let text = b"# two\nhosts 5\nhosts 3\n\nwire 2\ngo\ncall 0 1 0 6869\ndeliver 0\ntick 5";
    let mut source = source_of(rt.alloc(), text)?;
    let mut reader = Reader::open(rt.alloc(), LONGEST_INPUT)?;
    reads_three(&rt, &mut reader, &mut source);
    Ok(())
}

// Three hosts, a call in line 7, its packet, and five ticks.
fn reads_three(rt: &impl Abort, reader: &mut Reader, source: &mut MemSource)
    requires { reader.old ≡ opened reader.old.place.limit }
{
    let settings = Settings {
        hosts: 3,
        wire: 2,
        ..Settings::usual()
    };
    begins(rt, reader, source, &settings);
    assert_eq!(rt; reader.line(), 6);
    let call = Event::Call {
        client: HostId(0),
        server: HostId(1),
        number: 0,
    };
    goes_on(rt, reader, source, Next::Event(call), b"hi");
    assert_eq!(rt; reader.line(), 7);
    let deliver = Event::Deliver { packet: 0 };
    goes_on(rt, reader, source, Next::Event(deliver), b"");
    goes_on(rt, reader, source, Next::Ticks(5), b"");
    assert_eq!(rt; reader.line(), 9);
    goes_on(rt, reader, source, Next::End, b"");
    assert_eq!(rt; reader.line(), 10);
}

// A line of so many bytes, behind `go`, and this end: it begins with these, and the others are this byte.
fn long_text(
    alloc: Global,
    first: &[u8],
    rest: u8,
    len: u32,
    end: &[u8],
) -> Result<Vec<u8>, AllocError> {
    let mut text = Vec::from_slice(alloc, b"go\n")?;
    text.extend_from_slice(first)?;
    text.resize(3 + len as usize, rest)?;
    text.extend_from_slice(end)?;
    Ok(text)
}

#[test]
fn long_lines_that_are_refused(rt: HostRuntime) -> Result<(), Fail> {
    // 2,099,991 digits are an odd number. A carriage return counts.
    let rows: [(&[u8], u32, &[u8], ScriptFault); 4] = [
        (b"inject 0 ", 2_100_001, b"", ScriptFault::LongLine),
        (b"inject 0 ", 2_100_000, b"", ScriptFault::BadHex),
        (b"# ", 2_100_001, b"", ScriptFault::LongLine),
        (b"# ", 2_100_000, b"\r\n", ScriptFault::LongLine),
    ];
    for (first, len, end, fault) in rows {
        let text = long_text(rt.alloc(), first, b'0', len, end)?;
        refused(&rt, rt.alloc(), &text, 2, fault)?;
    }
    Ok(())
}

#[test]
fn long_lines(rt: HostRuntime) -> Result<(), Fail> {
    // A line feed doesn't count.
    let rows: [(&[u8], &[u8], u32); 3] = [
        (b"inject  0 ", b"", 1),
        (b"# ", b"", 0),
        (b"# ", b"\n", 0),
    ];
    for (first, end, events) in rows {
        let text = long_text(rt.alloc(), first, b'0', 2_100_000, end)?;
        assert_eq!(rt; read_all(rt.alloc(), &text)?, Ok(events), "{first:?}");
    }
    Ok(())
}

#[test]
fn lines_that_are_no_text(rt: HostRuntime) -> Result<(), Fail> {
    let rows: [(&[u8], u64, ScriptFault); 3] = [
        (b"go\nclock \xff", 2, ScriptFault::NotUtf8),
        (b"# \xff\ngo", 1, ScriptFault::NotUtf8),
        ("go\nclöck".as_bytes(), 2, ScriptFault::UnknownWord),
    ];
    for (text, line, fault) in rows {
        refused(&rt, rt.alloc(), text, line, fault)?;
    }
    Ok(())
}

#[test]
fn long_lines_that_are_no_text(rt: HostRuntime) -> Result<(), Fail> {
    let rows: [(&[u8], u32, ScriptFault); 2] = [
        (b"inject 0 ", 2_100_001, ScriptFault::LongLine),
        (b"# ", 2_100_000, ScriptFault::NotUtf8),
    ];
    for (first, len, fault) in rows {
        let text = long_text(rt.alloc(), first, 0xff, len, b"")?;
        refused(&rt, rt.alloc(), &text, 2, fault)?;
    }
    Ok(())
}

// The input is too long behind its settings.
fn is_too_long(rt: &impl Abort, alloc: Global, text: &[u8], limit: u64) -> Result<(), AllocError>
    requires { limit < 2 ^ 64 - 1 }
{
    let mut source = source_of(alloc, text)?;
    let mut reader = Reader::open(alloc, limit)?;
    stops_behind_go(rt, &mut reader, &mut source, ScriptFault::InputTooLong);
    Ok(())
}

// The line behind `go` is refused so, and whatever comes next is too.
fn stops_behind_go(rt: &impl Abort, reader: &mut Reader, source: &mut MemSource, fault: ScriptFault)
    requires { reader.old ≡ opened reader.old.place.limit }
{
    let stop = ScriptStop::Fault(fault);
    begins(rt, reader, source, &Settings::usual());
    stops(rt, reader, source, stop);
    stops(rt, reader, source, stop);
    stops(rt, reader, source, stop);
    assert_eq!(rt; reader.line(), 2);
}

#[test]
fn an_input_that_is_too_long(rt: HostRuntime) -> Result<(), Fail> {
    is_too_long(&rt, rt.alloc(), b"go\n\n", 3)?;

    // Its other refusals come later: this line has an unknown word, and is no text.
    is_too_long(&rt, rt.alloc(), b"go\nx \xff\n", 6)?;
    Ok(())
}

// A last line that ends at the limit is none of it.
#[test]
fn an_input_that_ends_at_the_limit(rt: HostRuntime) -> Result<(), Fail> {
    let mut source = source_of(rt.alloc(), b"go\nclock")?;
    let mut reader = Reader::open(rt.alloc(), 8)?;
    reads_a_clock(&rt, &mut reader, &mut source);
    Ok(())
}

// The usual settings, the clock, and the end.
fn reads_a_clock(rt: &impl Abort, reader: &mut Reader, source: &mut MemSource)
    requires { reader.old ≡ opened reader.old.place.limit }
{
    begins(rt, reader, source, &Settings::usual());
    goes_on(rt, reader, source, Next::Event(Event::Clock), b"");
    goes_on(rt, reader, source, Next::End, b"");
}

// A source of these bytes, of which the read with this number, from 0, fails.
fn failing(alloc: Global, bytes: Vec<u8>, read: u64) -> Result<MemSource, AllocError> {
    let fails = Vec::from_slice(alloc, &[read])?;
    Ok(MemSource::new(bytes, fails))
}

#[test]
fn the_first_stop_stays(rt: HostRuntime) -> Result<(), Fail> {
    // The first read gives it all, and a second one would fail.
    let bytes = Vec::from_slice(rt.alloc(), b"go\nclock x\nclock\n")?;
    let mut source = failing(rt.alloc(), bytes, 1)?;
    let mut reader = Reader::open(rt.alloc(), LONGEST_INPUT)?;
    stops_behind_go(&rt, &mut reader, &mut source, ScriptFault::Extra);
    Ok(())
}

#[test]
fn a_first_stop_before_go_stays(rt: HostRuntime) -> Result<(), Fail> {
    let mut source = source_of(rt.alloc(), b"hosts\ngo\nclock")?;
    let mut reader = Reader::open(rt.alloc(), LONGEST_INPUT)?;
    let stop = ScriptStop::Fault(ScriptFault::Missing);
    refuses(&rt, &mut reader, &mut source, stop, 1);
    Ok(())
}

#[test]
fn a_first_read_that_fails(rt: HostRuntime) -> Result<(), Fail> {
    let bytes = Vec::from_slice(rt.alloc(), b"go\nclock\n")?;
    let mut source = failing(rt.alloc(), bytes, 0)?;
    let mut reader = Reader::open(rt.alloc(), LONGEST_INPUT)?;
    let stop = ScriptStop::Read(ReadFailed);
    refuses(&rt, &mut reader, &mut source, stop, 0);
    Ok(())
}

// `go`, a comment of 65,522 bytes with its line feed, one event of six bytes with five of the next, which
// are 65,536 bytes, and the last one.
fn more_than_a_read(alloc: Global) -> Result<Vec<u8>, AllocError> {
    let mut bytes = vec![in alloc; b'#'; 65_525]?;
    bytes[..3].copy_from_slice(b"go\n");
    bytes[65_524] = b'\n';
    bytes.extend_from_slice(b"clock\nclock\n")?;
    Ok(bytes)
}

#[test]
fn a_read_that_fails_in_an_event(rt: HostRuntime) -> Result<(), Fail> {
    // The first read gives 65,536 bytes.
    let bytes = more_than_a_read(rt.alloc())?;
    let mut source = failing(rt.alloc(), bytes, 1)?;
    let mut reader = Reader::open(rt.alloc(), LONGEST_INPUT)?;
    reads_a_clock_and_fails(&rt, &mut reader, &mut source);
    Ok(())
}

// The usual settings, the clock, and a read that fails.
fn reads_a_clock_and_fails(rt: &impl Abort, reader: &mut Reader, source: &mut MemSource)
    requires { reader.old ≡ opened reader.old.place.limit }
{
    begins(rt, reader, source, &Settings::usual());
    goes_on(rt, reader, source, Next::Event(Event::Clock), b"");
    let stop = ScriptStop::Read(ReadFailed);
    stops(rt, reader, source, stop);
    stops(rt, reader, source, stop);
}

// An event's line goes to a sink.
fn puts(rt: &impl Abort, sink: &mut MemSink, event: &Event, bytes: &[u8], line: &[u8]) {
    assert_eq!(rt; put_event(sink, event, bytes), Ok(()));
    assert_eq!(rt; sink.bytes(), line);
}

fn printed(
    rt: &impl Abort,
    alloc: Global,
    event: Event,
    bytes: &[u8],
    line: &[u8],
) -> Result<(), AllocError> {
    let mut sink = MemSink::new(alloc, 200, Vec::new(alloc))?;
    puts(rt, &mut sink, &event, bytes, line);
    Ok(())
}

#[test]
fn events_that_are_printed(rt: HostRuntime) -> Result<(), Fail> {
    let call = Event::Call {
        client: HostId(0),
        server: HostId(1),
        number: 255,
    };
    let host = HostId(31);
    let rows: [(Event, &[u8], &[u8]); 8] = [
        (call, b"hi", b"call 0 1 255 6869\n"),
        (call, b"", b"call 0 1 255 -\n"),
        (Event::Deliver { packet: 12 }, b"", b"deliver 12\n"),
        (Event::Clock, b"", b"clock\n"),
        (Event::Turn { host }, b"", b"turn 31\n"),
        (Event::Restart { host }, b"", b"restart 31\n"),
        (Event::Inject { host }, b"\x0a\xff", b"inject 31 0aff\n"),
        (
            Event::Shift { host, n: u32::MAX },
            b"",
            b"shift 31 4294967295\n",
        ),
    ];
    for (event, bytes, line) in rows {
        printed(&rt, rt.alloc(), event, bytes, line)?;
        stands_for(&rt, rt.alloc(), line, Next::Event(event), bytes)?;
    }
    Ok(())
}

// The lines of the usual settings, and these last ones.
fn usual_lines(alloc: Global, last: &[u8]) -> Result<Vec<u8>, AllocError> {
    let mut text = Vec::from_slice(alloc, b"hosts 2\nseg 1400\nwindow 10000\nunsched 10000\n")?;
    text.extend_from_slice(b"overcommit 4\nrate 14000\nresend 4\ntries 5\nlife 20\n")?;
    text.extend_from_slice(b"pages 1024\ncalls 256\nserved 1024\nrebalance 0\n")?;
    text.extend_from_slice(last)?;
    Ok(text)
}

// Settings are printed as these lines.
fn puts_settings(rt: &impl Abort, sink: &mut MemSink, settings: &Settings, text: &[u8]) {
    assert_eq!(rt; put_settings(sink, settings), Ok(()));
    assert_eq!(rt; sink.bytes(), text);
}

fn prints_settings(
    rt: &impl Abort,
    alloc: Global,
    settings: &Settings,
    text: &[u8],
) -> Result<(), AllocError> {
    let mut sink = MemSink::new(alloc, 300, Vec::new(alloc))?;
    puts_settings(rt, &mut sink, settings, text);
    Ok(())
}

// Settings are printed as the usual lines with these last ones, which are then read back.
fn prints(
    rt: &impl Abort,
    alloc: Global,
    settings: &Settings,
    last: &[u8],
) -> Result<(), AllocError> {
    let text = usual_lines(alloc, last)?;
    prints_settings(rt, alloc, settings, &text)?;
    reads_back(rt, alloc, settings, &text)
}

fn reads_back(
    rt: &impl Abort,
    alloc: Global,
    settings: &Settings,
    text: &[u8],
) -> Result<(), AllocError> {
    let mut source = source_of(alloc, text)?;
    let mut reader = Reader::open(alloc, LONGEST_INPUT)?;
    begins(rt, &mut reader, &mut source, settings);
    Ok(())
}

#[test]
fn settings_that_are_printed(rt: HostRuntime) -> Result<(), Fail> {
    let usual = Settings::usual();
    let rows: [(Settings, &[u8]); 3] = [
        (usual, b"go\n"),
        (Settings { skew: 2, ..usual }, b"skew 2\ngo\n"),
        (Settings { wire: 2, ..usual }, b"skew 0\nwire 2\ngo\n"),
    ];
    for (settings, last) in rows {
        prints(&rt, rt.alloc(), &settings, last)?;
    }
    Ok(())
}

// The fourth line fails.
fn fails_at_the_fourth(rt: &impl Abort, sink: &mut MemSink) {
    let usual = Settings::usual();
    assert_eq!(rt; put_settings(sink, &usual), Err(WriteFailed));
    let lines = b"hosts 2\nseg 1400\nwindow 10000\n".as_slice();
    assert_eq!(rt; sink.bytes(), lines);
    assert_eq!(rt; put_event(sink, &Event::Clock, b""), Ok(()));
}

#[test]
fn writes_that_fail(rt: HostRuntime) -> Result<(), Fail> {
    let fails = Vec::from_slice(rt.alloc(), &[3])?;
    let mut sink = MemSink::new(rt.alloc(), 300, fails)?;
    fails_at_the_fourth(&rt, &mut sink);
    Ok(())
}

// Four bytes of a line go in.
fn is_full(rt: &impl Abort, full: &mut MemSink) {
    assert_eq!(rt; put_event(full, &Event::Clock, b""), Err(WriteFailed));
    assert_eq!(rt; full.bytes(), b"cloc".as_slice());
}

#[test]
fn a_write_that_finds_no_room(rt: HostRuntime) -> Result<(), Fail> {
    let mut full = MemSink::new(rt.alloc(), 4, Vec::new(rt.alloc()))?;
    is_full(&rt, &mut full);
    Ok(())
}
