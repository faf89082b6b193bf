//! The program: calls `run` with the words of the command line, standard input and output, sockets on 127.0.0.1 and the
//! system's clock. It exits with the code of the status.
#![tactic(auto)]

use homa_io::{StdSink, StdSource};
use homa_top::{ExitStatus, run, suites};
use node_io::{TickClock, UdpNet};
use std::alloc::AllocError;
use std::process::ExitCode;
use std::{env, io};

// Returns the command line without the program's name; no words if one of them isn't UTF-8.
fn words(rt: &HostRuntime) -> Result<Vec<String>, AllocError> {
    let mut words = Vec::new(rt.alloc());
    let args = match env::args(rt) {
        Ok(args) => args,
        Err(error) if error.kind() == io::ErrorKind::OutOfMemory => return Err(AllocError),
        Err(_) => return Ok(words),
    };
    for word in args.skip(1) {
        words.push(word)?;
    }
    Ok(words)
}

// Calls `run` with all of these.
fn status(rt: &HostRuntime) -> Result<ExitStatus, AllocError> {
    let alloc = rt.alloc();
    let words = words(rt)?;
    let mut texts = Vec::new(alloc);
    for word in &words {
        texts.push(word.as_str())?;
    }
    let services = suites(alloc)?;
    let mut source = StdSource::new(rt.reader());
    let mut sink = StdSink::new(io::writer(rt));
    let mut net = UdpNet::new(alloc, rt)?;
    let mut clock = TickClock::new(rt);
    Ok(run(
        alloc,
        &texts,
        &mut source,
        &mut sink,
        &mut net,
        &mut clock,
        services,
    ))
}

fn main(rt: HostRuntime) -> ExitCode {
    let status = status(&rt).unwrap_or(ExitStatus::NoMemory);
    ExitCode::from(status.code())
}
