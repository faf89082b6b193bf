// Each public function where it succeeds, the edges that no clause shows by itself, and faults.
ghost use Rattle.homa_plain.specs.Entries.{plain};
ghost use Rattle.homa_plain.specs.Told.{HasLine};

use homa_io::{MemSink, MemSource, ReadFailed, WriteFailed};
use homa_plain::{
    Body, CallId, Entry, HostId, LineFault, Name, Role, ScriptFault, SettingFault, Settings,
};
use homa_text::put_entry;
use std::alloc::{AllocError, Global};
use std::process::Abort;
use std::test::Fail;
use text_lines::{LineGot, Lines, read_bytes, read_number, word};
use written_lines::{Word, put_line};

#[test]
fn numbers(rt: HostRuntime) {
    let rows: [(&[u8], Option<u64>); 6] = [
        (b"0", Some(0)),
        (b"01", None),
        (b"", None),
        (b"18446744073709551615", Some(18_446_744_073_709_551_615)),
        (b"18446744073709551616", None),
        (b"1x", None),
    ];
    for (word, wanted) in rows {
        assert_eq!(rt; read_number(word), wanted, "{word:?}");
    }
}

#[test]
fn words(rt: HostRuntime) {
    let line = b"  go   1 ";
    assert_eq!(rt; word(line, 0), Some(b"go".as_slice()));
    assert_eq!(rt; word(line, 1), Some(b"1".as_slice()));
    assert_eq!(rt; word(line, 2), None);
}

// A word is read as wanted.
fn reads(rt: &impl Abort, word: &[u8], out: &mut Vec<u8>, wanted: Result<usize, ScriptFault>) {
    assert!(rt; word.len() <= 2_100_000);
    assert!(rt; out.capacity() >= 1_050_000);
    assert_eq!(rt; read_bytes(word, out), wanted, "{word:?}");
}

#[test]
fn bytes_of_words(rt: HostRuntime) -> Result<(), Fail> {
    let mut out = Vec::with_capacity(rt.alloc(), 1_050_000)?;
    let bad_number = Err(ScriptFault::BadNumber);
    let bad_hex = Err(ScriptFault::BadHex);
    let rows: [(&[u8], Result<usize, ScriptFault>); 13] = [
        (b"-", Ok(0)),
        (b"*0", Ok(0)),
        (b"*1000002", bad_number),
        (b"*01", bad_number),
        (b"*x", bad_number),
        (b"*", bad_number),
        (b"*-1", bad_number),
        (b"-6", bad_hex),
        (b"--", bad_hex),
        (b"6*", bad_hex),
        (b"6", bad_hex),
        (b"6g", bad_hex),
        (b"66 ", bad_hex),
    ];
    for (word, wanted) in rows {
        reads(&rt, word, &mut out, wanted);
    }
    reads(&rt, b"6A6b", &mut out, Ok(2));
    assert!(rt; out.starts_with(&[0x6a, 0x6b]));
    reads(&rt, b"*3", &mut out, Ok(3));
    assert!(rt; out.starts_with(&[0, 1, 2]));
    assert_eq!(rt; out.len(), 3);
    reads(&rt, b"*1000001", &mut out, Ok(1_000_001));
    assert_eq!(rt; out.get(999_999).copied(), Some(63));
    assert_eq!(rt; out.get(1_000_000).copied(), Some(64));
    assert_eq!(rt; out.get(1_000_001).copied(), None);
    Ok(())
}

fn source(alloc: Global, text: &[u8]) -> Result<MemSource, AllocError> {
    let bytes = Vec::from_slice(alloc, text)?;
    Ok(MemSource::new(bytes, Vec::new(alloc)))
}

// What comes next is this, and a line is these bytes.
fn comes(
    rt: &impl Abort,
    lines: &mut Lines,
    source: &mut MemSource,
    wanted: Result<LineGot, ReadFailed>,
    bytes: &[u8],
) {
    let answer = lines.next(source);
    assert_eq!(rt; answer, wanted);
    assert!(rt; answer != Ok(LineGot::Line) || lines.bytes() == bytes);
}

#[test]
fn lines_with_and_without_a_feed(rt: HostRuntime) -> Result<(), Fail> {
    let mut source = source(rt.alloc(), b"go\n\nabc")?;
    let mut lines = Lines::open(rt.alloc(), 100, 3)?;
    comes(&rt, &mut lines, &mut source, Ok(LineGot::Line), b"go");
    comes(&rt, &mut lines, &mut source, Ok(LineGot::Line), b"");
    comes(&rt, &mut lines, &mut source, Ok(LineGot::Line), b"abc");
    comes(&rt, &mut lines, &mut source, Ok(LineGot::End), b"");
    assert_eq!(rt; lines.number(), 4);
    Ok(())
}

#[test]
fn a_long_line(rt: HostRuntime) -> Result<(), Fail> {
    let mut source = source(rt.alloc(), b"go\n\nabc")?;
    let mut lines = Lines::open(rt.alloc(), 100, 2)?;
    comes(&rt, &mut lines, &mut source, Ok(LineGot::Line), b"go");
    comes(&rt, &mut lines, &mut source, Ok(LineGot::Line), b"");
    comes(&rt, &mut lines, &mut source, Ok(LineGot::Long), b"");
    assert_eq!(rt; lines.number(), 3);
    Ok(())
}

#[test]
fn one_byte_over_the_limit(rt: HostRuntime) -> Result<(), Fail> {
    let mut source = source(rt.alloc(), b"go\n\n")?;
    let mut lines = Lines::open(rt.alloc(), 3, 100)?;
    comes(&rt, &mut lines, &mut source, Ok(LineGot::Line), b"go");
    comes(&rt, &mut lines, &mut source, Ok(LineGot::Over), b"");
    Ok(())
}

#[test]
fn a_read_fails_in_a_line(rt: HostRuntime) -> Result<(), Fail> {
    // The first read gives the first line, of 65,531 bytes, and five bytes of the second.
    let first = vec![in rt.alloc(); b'a'; 65530]?;
    let mut bytes = Vec::from_slice(rt.alloc(), &first)?;
    bytes.extend_from_slice(b"\n0123456789\n")?;
    let fails = Vec::from_slice(rt.alloc(), &[1])?;
    let mut source = MemSource::new(bytes, fails);
    let mut lines = Lines::open(rt.alloc(), 100_000, 70_000)?;
    comes(&rt, &mut lines, &mut source, Ok(LineGot::Line), &first);
    comes(&rt, &mut lines, &mut source, Err(ReadFailed), b"");
    comes(&rt, &mut lines, &mut source, Ok(LineGot::Line), b"56789");
    comes(&rt, &mut lines, &mut source, Ok(LineGot::End), b"");
    Ok(())
}

// An entry is printed, or the write fails.
fn puts(rt: &impl Abort, sink: &mut MemSink, entry: &Entry<'_>, wanted: Result<(), WriteFailed>)
    requires { HasLine (plain entry.now) }
{
    assert_eq!(rt; put_entry(sink, entry), wanted);
}

// A sink took these bytes.
fn took(rt: &impl Abort, sink: &MemSink, bytes: &[u8]) {
    assert!(rt; sink.bytes() == bytes);
}

fn expect_line(rt: &impl Abort, alloc: Global, entry: &Entry<'_>, line: &[u8]) -> Result<(), Fail>
    requires { HasLine (plain entry.now) }
{
    let mut sink = MemSink::new(alloc, 200, Vec::new(alloc))?;
    puts(rt, &mut sink, entry, Ok(()));
    took(rt, &sink, line);
    Ok(())
}

#[test]
fn lines_of_entries(rt: HostRuntime) -> Result<(), Fail> {
    let send = Entry::Send {
        number: 0,
        from: HostId(0),
        to: HostId(1),
        inc: 1,
        role: Role::Client,
        id: CallId {
            client: HostId(0),
            inc: 1,
            seq: 0,
        },
        level: 7,
        body: Body::Data {
            length: 2,
            offset: 0,
            version: 0,
            service: 0,
            ack: None,
        },
        payload: b"hi",
    };
    let text = b"send 0 0>1 1 DATA c 0.1.0 7 2 0 0 0 - 6869\n";
    expect_line(&rt, rt.alloc(), &send, text)?;

    let settings = Entry::Settings(Settings::usual());
    let text = b"settings 2 1400 10000 10000 4 14000 4 5 20 1024 256 1024 0\n";
    expect_line(&rt, rt.alloc(), &settings, text)?;

    let fault = ScriptFault::Setting(SettingFault::OutOfRange(Name::Seg));
    let refused = Entry::Refused {
        line: 2,
        fault: LineFault::Script(fault),
    };
    let text = b"refused 2 Setting OutOfRange seg\n";
    expect_line(&rt, rt.alloc(), &refused, text)
}

// A packet of a call of host 0, from its client or from its server, host 1.
fn packet<'a>(number: u64, role: Role, body: Body, payload: &'a [u8]) -> Entry<'a>
    ensures { HasLine (plain result) }
{
    let (from, to, inc) = match role {
        Role::Client => (HostId(0), HostId(1), 2),
        Role::Server => (HostId(1), HostId(0), 3),
    };
    let id = CallId {
        client: HostId(0),
        inc: 2,
        seq: 8,
    };
    Entry::Send {
        number,
        from,
        to,
        inc,
        role,
        id,
        level: 6,
        body,
        payload,
    }
}

fn piece(ack: Option<(u32, u32)>) -> Body {
    Body::Data {
        length: 3000,
        offset: 1400,
        version: 1,
        service: 4,
        ack,
    }
}

#[test]
fn lines_that_are_quick(rt: HostRuntime) -> Result<(), Fail> {
    expect_line(&rt, rt.alloc(), &Entry::Clock { tick: 70 }, b"clock 70\n")?;
    expect_line(
        &rt,
        rt.alloc(),
        &Entry::Deliver { packet: 0 },
        b"deliver 0\n",
    )?;

    let grant = Body::Grant {
        offset: 28_000,
        prio: 5,
    };
    let text = b"send 12 1>0 3 GRANT s 0.2.8 28000 5\n";
    expect_line(&rt, rt.alloc(), &packet(12, Role::Server, grant, b""), text)?;

    let bytes = [0, 0xff, 0x9a];
    let text = b"send 13 0>1 2 DATA c 0.2.8 6 3000 1400 1 4 2.7 00ff9a\n";
    let data = packet(13, Role::Client, piece(Some((2, 7))), &bytes);
    expect_line(&rt, rt.alloc(), &data, text)?;

    let text = b"send 14 1>0 3 DATA s 0.2.8 6 3000 1400 1 4 - -\n";
    expect_line(
        &rt,
        rt.alloc(),
        &packet(14, Role::Server, piece(None), b""),
        text,
    )?;

    let resend = Body::Resend {
        from: 0,
        to: 1400,
        prio: 7,
    };
    let text = b"send 15 0>1 2 RESEND c 0.2.8 0 1400 7\n";
    expect_line(
        &rt,
        rt.alloc(),
        &packet(15, Role::Client, resend, b""),
        text,
    )
}

// Words are printed as a line.
fn puts_words(rt: &impl Abort, sink: &mut MemSink, words: &[Word<'_>]) {
    assert_eq!(rt; put_line(sink, words), Ok(()));
}

#[test]
fn lines_of_words(rt: HostRuntime) -> Result<(), Fail> {
    let mut sink = MemSink::new(rt.alloc(), 100, Vec::new(rt.alloc()))?;
    let words = [
        Word::Text(b"get"),
        Word::Number(7),
        Word::Hex(b""),
        Word::Call(1, 2),
    ];
    puts_words(&rt, &mut sink, &words);
    puts_words(&rt, &mut sink, &[]);
    took(&rt, &sink, b"get 7 - 1.2\n\n");
    Ok(())
}

#[test]
fn a_line_is_one_write(rt: HostRuntime) -> Result<(), Fail> {
    let fails = Vec::from_slice(rt.alloc(), &[1])?;
    let mut sink = MemSink::new(rt.alloc(), 100, fails)?;
    let line = Entry::Finished { n: 12 };
    puts(&rt, &mut sink, &line, Ok(()));
    puts(&rt, &mut sink, &line, Err(WriteFailed));
    took(&rt, &sink, b"ok 12\n");
    Ok(())
}

// The line of an injection of so many bytes, each of them 0xab.
fn injection(alloc: Global, n: u32) -> Result<Vec<u8>, AllocError> {
    let mut line = Vec::from_slice(alloc, b"inject 3 ")?;
    for _ in 0..n {
        line.extend_from_slice(b"ab")?;
    }
    line.push(b'\n')?;
    Ok(line)
}

#[test]
fn a_long_line_goes_out_in_parts(rt: HostRuntime) -> Result<(), Fail> {
    let bytes = vec![in rt.alloc(); 0xab; 40_000]?;
    let expected = injection(rt.alloc(), 40_000)?;
    let mut sink = MemSink::new(rt.alloc(), 100_000, Vec::new(rt.alloc()))?;
    let host = HostId(3);
    let entry = Entry::Inject {
        host,
        bytes: &bytes,
    };
    puts(&rt, &mut sink, &entry, Ok(()));
    took(&rt, &sink, &expected);
    Ok(())
}

// The second part fails, after the first of at most 65,536 bytes.
#[test]
fn a_part_of_a_long_line_fails(rt: HostRuntime) -> Result<(), Fail> {
    let bytes = vec![in rt.alloc(); 0xab; 40_000]?;
    let expected = injection(rt.alloc(), 40_000)?;
    let fails = Vec::from_slice(rt.alloc(), &[1])?;
    let mut sink = MemSink::new(rt.alloc(), 100_000, fails)?;
    let host = HostId(3);
    let entry = Entry::Inject {
        host,
        bytes: &bytes,
    };
    puts(&rt, &mut sink, &entry, Err(WriteFailed));
    assert!(rt; expected.as_slice().starts_with(sink.bytes()));
    assert!(rt; !sink.bytes().is_empty());
    Ok(())
}
