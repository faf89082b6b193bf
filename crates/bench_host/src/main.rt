//! Hands one host packets of a kind, for one of its rows after the other. `bench/host.sh` times a delivery by the number
//! of rows.
//!
//! The words are a kind or `all`, how many rows (1 to 1,000) and how many deliveries (at most 500,000). It prints the
//! kind, how many deliveries there were, how many entries they told, how many packets they sent, and how many bytes these
//! have. Of each kind but `done` one packet a row is handed over before, which isn't counted: so a response is there of
//! which bytes come, and calls are acknowledged that are to be so already. A delivery comes a tick after the one before;
//! no turn does.
#![tactic(auto)]

// With two rows and four deliveries, as the gate runs it, two more bytes of each message come. Each makes its message
// the one with the fewest missing bytes, or the oldest of the two, and it is granted one more: a GRANT has 16 + 5 bytes.
// A GRANT, a RESEND and an UNKNOWN each have one byte of a request sent, in 16 + 20 + 1 bytes, and a NEED_ACK a BUSY, in
// 16. A datagram that is no packet is told; a repeat of a piece, of CUTOFFS and of an ACK, and a BUSY, tell nothing. Each
// `done` tells that a call is done, that another is made, and that its first byte is sent, in 16 + 20 + 1 bytes. No
// server has five calls that are done, of which it would be told by an ACK.

mod frames;
mod kind;
mod mix;

use crate::kind::Kind;
use crate::mix::{Mix, Told, run_kind};
use std::process::ExitCode;
use std::{env, io};

// Runs a kind and prints what its deliveries told. False where there is no memory.
fn print_kind(rt: &HostRuntime, kind: Kind, mix: Mix) -> io::Result<bool> {
    let Some(told) = run_kind(rt.alloc(), mix, kind) else {
        return Ok(false);
    };
    let Told {
        deliveries,
        entries,
        packets,
        bytes,
    } = told;
    println!(rt; "{} {deliveries} {entries} {packets} {bytes}", kind.name())?;
    Ok(true)
}

// Runs the kind of this word, or all.
fn run(rt: &HostRuntime, word: &str, mix: Mix) -> io::Result<ExitCode> {
    let mut status = 1;
    for kind in Kind::all() {
        if word == "all" || word == kind.name() {
            if !print_kind(rt, kind, mix)? {
                return Ok(ExitCode::from(2));
            }
            status = 0;
        }
    }
    Ok(ExitCode::from(status))
}

fn main(rt: HostRuntime) -> io::Result<ExitCode> {
    let mut words = env::args(&rt)?.skip(1);
    let word = words.next();
    let rows = words.next();
    let mix = Mix::read(rows, words.next());
    match (word, mix) {
        (Some(word), Some(mix)) => run(&rt, word.as_str(), mix),
        _ => Ok(ExitCode::from(1)),
    }
}
