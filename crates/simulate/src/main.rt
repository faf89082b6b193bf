//! The program: runs an experiment on standard input in a simulated network, and prints what is asked of the runs.
//!
//! The first word says what is printed: `summary` is a page for people, `figures`, `totals` and `calls` are CSV, or JSON lines, and
//! `schedule` is a schedule for `homa replay`. All begin with all values of the experiment.
#![tactic(auto)]

mod answering;
mod call_rows;
mod cells;
mod ended;
mod faults;
mod parts;
mod progress;
mod rows;
mod running;
mod slowdown_rows;
mod summary;
mod tally;
mod totals;
mod values;
mod warnings;
mod words;

use crate::answering::answer;
use crate::ended::Ended;
use crate::faults::EndReason;
use crate::progress::{RunProgress, Silence};
use crate::words::{CommandLine, Wanted, read_words};
use homa_io::{StdSink, StdSource};
use simulation::SimStop;
use std::alloc::AllocError;
use std::process::ExitCode;
use std::{env, io};

const USAGE: &str =
    "usage: homa-simulate summary | figures | totals | calls | schedule [--json] [--progress] < EXPERIMENT";

// The command line without the program's name; no words if one of them isn't UTF-8.
fn command_line(rt: &HostRuntime) -> Result<Vec<String>, AllocError> {
    let mut words = Vec::new(rt.alloc());
    let args = match env::args(rt) {
        Ok(args) => args,
        Err(error) if error.kind() == io::ErrorKind::OutOfMemory => return Err(AllocError),
        Err(_) => return Ok(words),
    };
    for word in args.skip(1) {
        words.push(word)?;
    }
    Ok(words)
}

// Runs what is asked over standard input and output.
fn ask(rt: &HostRuntime, asked: Wanted) -> Ended {
    let mut source = StdSource::new(rt.reader());
    let sink = StdSink::new(io::writer(rt));
    if asked.tells_progress {
        answer(
            rt.alloc(),
            asked,
            &mut source,
            sink,
            rt,
            &mut RunProgress::new(rt),
        )
    } else {
        answer(rt.alloc(), asked, &mut source, sink, rt, &mut Silence)
    }
}

// Does what the words ask.
fn carry_out(rt: &HostRuntime, words: &[&str]) -> Ended {
    match read_words(words) {
        CommandLine::Ask(asked) => ask(rt, asked),
        CommandLine::Wrong(fault) => Ended::Words(fault),
        CommandLine::Help => match println!(rt; "{USAGE}") {
            Ok(()) => Ended::Helped,
            Err(_) => Ended::Stopped(SimStop::Write),
        },
    }
}

// Does what the words ask, and says on standard error why it isn't done.
fn tell(rt: &HostRuntime, words: &[&str]) -> Ended {
    let ended = carry_out(rt, words);
    if ended.status() != 0 {
        let why = EndReason { ended, words };
        let _ = eprintln!(rt; "homa-simulate: {why}");
    }
    ended
}

// Does what the command line asks.
fn end(rt: &HostRuntime) -> Result<Ended, AllocError> {
    let words = command_line(rt)?;
    let mut texts = Vec::new(rt.alloc());
    for word in &words {
        texts.push(word.as_str())?;
    }
    Ok(tell(rt, &texts))
}

fn main(rt: HostRuntime) -> ExitCode {
    let ended = end(&rt).unwrap_or(Ended::Stopped(SimStop::NoMemory));
    ExitCode::from(ended.status())
}
