//! Carries out node scripts over a net and a clock in memory, and prints what each gave and its status.
//!
//! The words are one or more cases of three words each: `node` or `record`, the name of a script, and the name of a file that
//! says what the net and the clock are. What is printed of a case is what its sink took, and then a line `status N`.
#![tactic(auto)]

mod net_file;

use crate::net_file::NetFile;
use homa_io::{MemSink, MemSource, Sink, StdSink, write_all};
use homa_top::{ExitStatus, run, suites};
use node_io::{MemClock, MemNet};
use std::alloc::Global;
use std::process::ExitCode;
use std::{env, fs, io};

// The most bytes that a case prints.
const MOST_PRINTED: u32 = 1_000_000;

// Carries out a case. None where its net can't be made, or there is no memory.
fn carry_out(
    alloc: Global,
    word: &str,
    script: Vec<u8>,
    text: &str,
) -> Option<(ExitStatus, MemSink)> {
    let file = NetFile::read(alloc, text)?;
    let mut clock = MemClock::new(file.ticks);
    let mut net = MemNet::new(alloc, file.queued, file.room, file.fails).ok()?;
    let mut source = MemSource::new(script, file.reads);
    let mut sink = MemSink::new(alloc, MOST_PRINTED, file.writes).ok()?;
    let services = suites(alloc).ok()?;
    let status = run(
        alloc,
        &[word],
        &mut source,
        &mut sink,
        &mut net,
        &mut clock,
        services,
    );
    Some((status, sink))
}

// Carries out a case and prints it. None where that can't be done.
fn print_case<K: Sink>(
    alloc: Global,
    sink: &mut K,
    word: &str,
    script: Vec<u8>,
    text: &str,
) -> Option<()> {
    let (status, printed) = carry_out(alloc, word, script, text)?;
    let last = format!(in alloc; "status {}\n", status.code()).ok()?;
    write_all(sink, printed.bytes()).ok()?;
    write_all(sink, last.as_bytes()).ok()
}

fn main(rt: HostRuntime) -> io::Result<ExitCode> {
    let alloc = rt.alloc();
    let mut sink = StdSink::new(io::writer(&rt));
    let mut words = Vec::new(alloc);
    for word in env::args(&rt)?.skip(1) {
        words.push(word)?;
    }
    for case in words.chunks(3) {
        let [word, script, net] = case else {
            return Ok(ExitCode::from(1));
        };
        let script = fs::read(&rt, script.as_str())?;
        let text = fs::read_to_string(&rt, net.as_str())?;
        if print_case(alloc, &mut sink, word.as_str(), script, text.as_str()).is_none() {
            return Ok(ExitCode::from(1));
        }
    }
    Ok(ExitCode::from(0))
}
