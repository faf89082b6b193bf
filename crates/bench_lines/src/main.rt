//! Writes many lines of one kind of entry to standard output, through a sink that holds lines back; or as
//! many copies of the first one. `bench/lines.sh` times the one beside the other.
//!
//! The words are `put` or `copy`; the kind; and the number of lines. The kinds are `clock`, `grant`, `junk`,
//! `inject` of a byte, `short` and `long`, which are pieces of 60 and of 1,400 bytes, and `call`, `run` and
//! `done` of 100 bytes each.
#![tactic(auto)]

ghost use Rattle.homa_plain.specs.Entries.{plain};
ghost use Rattle.homa_plain.specs.Told.{HasLine};

use homa_io::{HeldSink, MemSink, Room, Sink, StdSink, WriteFailed, write_all};
use homa_plain::{Body, CallId, Entry, HostId, Role};
use homa_text::put_entry;
use std::process::ExitCode;
use std::{env, io};

// A kind of line.
#[derive(Clone, Copy)]
enum Kind {
    Clock,
    Grant,
    Junk,
    Inject,
    Short,
    Long,
    Call,
    Run,
    Done,
}

fn kind_of(word: &str) -> Option<Kind> {
    match word {
        "clock" => Some(Kind::Clock),
        "grant" => Some(Kind::Grant),
        "junk" => Some(Kind::Junk),
        "inject" => Some(Kind::Inject),
        "short" => Some(Kind::Short),
        "long" => Some(Kind::Long),
        "call" => Some(Kind::Call),
        "run" => Some(Kind::Run),
        "done" => Some(Kind::Done),
        _ => None,
    }
}

// The call that all packets and messages are of.
fn call_id() -> CallId {
    CallId {
        client: HostId(3),
        inc: 1,
        seq: 77,
    }
}

// A packet of a server's response.
fn packet<'a>(number: u64, body: Body, payload: &'a [u8]) -> Entry<'a>
    ensures { HasLine (plain result) }
{
    Entry::Send {
        number,
        from: HostId(5),
        to: HostId(3),
        inc: 1,
        role: Role::Server,
        id: call_id(),
        level: 6,
        body,
        payload,
    }
}

// A piece of a long message.
fn piece() -> Body {
    Body::Data {
        length: 1_000_000,
        offset: 28_000,
        version: 4,
        service: 0,
        ack: None,
    }
}

// What is told of a call: it starts, its service was called, or it is done.
fn message<'a>(kind: Kind, bytes: &'a [u8]) -> Entry<'a>
    ensures { HasLine (plain result) }
{
    let (id, host, service) = (call_id(), HostId(5), 0);
    match kind {
        Kind::Call => Entry::Call {
            id,
            server: host,
            service,
            bytes,
        },
        Kind::Run => Entry::Run {
            host,
            id,
            service,
            request: bytes,
            response: bytes,
            hold: 0,
        },
        _ => Entry::Done { id, bytes },
    }
}

// Entry number `i` of this kind, whose number has seven digits.
fn entry<'a>(kind: Kind, i: u64, payload: &'a [u8; 1400]) -> Entry<'a>
    ensures { HasLine (plain result) }
{
    let number = 1_000_000 + i % 9_000_000;
    match kind {
        Kind::Clock => Entry::Clock { tick: number },
        Kind::Grant => {
            let grant = Body::Grant {
                offset: 100_000,
                prio: 3,
            };
            packet(number, grant, &payload[..0])
        }
        Kind::Junk => Entry::Junk { host: HostId(5) },
        Kind::Inject => Entry::Inject {
            host: HostId(5),
            bytes: &payload[..1],
        },
        Kind::Short => packet(number, piece(), &payload[..60]),
        Kind::Long => packet(number, piece(), payload),
        Kind::Call | Kind::Run | Kind::Done => message(kind, &payload[..100]),
    }
}

// So many lines of this kind.
fn put_lines<K: Sink>(
    sink: &mut K,
    kind: Kind,
    count: u64,
    payload: &[u8; 1400],
) -> Result<(), WriteFailed> {
    for i in 0..count {
        put_entry(sink, &entry(kind, i, payload))?;
    }
    Ok(())
}

// So many copies of a line.
fn copy_lines<K: Sink>(sink: &mut K, line: &[u8], count: u64) -> Result<(), WriteFailed> {
    for _ in 0..count {
        write_all(sink, line)?;
    }
    Ok(())
}

// Writes the lines, or the copies of the first one, and what is held of them.
fn write_lines<K: Sink + Drop>(
    held: &mut HeldSink<K>,
    is_copy: bool,
    kind: Kind,
    count: u64,
    first: &mut MemSink,
) -> Result<(), WriteFailed> {
    let payload = [0xab; 1400];
    if is_copy {
        put_entry(first, &entry(kind, 0, &payload))?;
        copy_lines(held, first.bytes(), count)?;
    } else {
        put_lines(held, kind, count, &payload)?;
    }
    held.flush()
}

fn main(rt: HostRuntime) -> io::Result<ExitCode> {
    let mut words = env::args(&rt)?.skip(1);
    let Some(how) = words.next() else {
        return Ok(ExitCode::from(1));
    };
    let Some(kind) = words.next().and_then(|word| kind_of(word.as_str())) else {
        return Ok(ExitCode::from(1));
    };
    let Some(count) = words
        .next()
        .and_then(|word| word.as_str().parse::<u64>().ok())
    else {
        return Ok(ExitCode::from(1));
    };
    let mut first = MemSink::new(rt.alloc(), 4096, Vec::new(rt.alloc()))?;
    let sink = StdSink::new(io::writer(&rt));
    let mut held = HeldSink::over(sink, Room::new(rt.alloc())?);
    let answer = write_lines(&mut held, how.as_str() == "copy", kind, count, &mut first);
    let _sink = held.into_sink();
    Ok(ExitCode::from(if answer.is_ok() { 0 } else { 4 }))
}
