//! Takes a message of 1,000,000 bytes in pieces of 1,400, or copies a message out of its pages, many times; or copies as
//! many bytes. `bench/pool.sh` times the one beside the other.
//!
//! The first word is `accept`, which takes 714 pieces; `open`, which opens and closes a message without pieces; `pieces`,
//! which copies 714 pieces; `fill`, which copies a message out; or `copy`, which copies 1,000,000 bytes. The second word
//! is how many times. It prints a number that depends on all of that: how many bytes were new, or the sum of the first
//! bytes. With `accept 2`, as the gate runs it, 2 * 714 * 1,400 bytes are new.
#![tactic(auto)]

mod copies;
mod messages;

use crate::copies::{copies, piece_copies};
use crate::messages::{fills, messages};
use std::process::ExitCode;
use std::{env, io};

fn run(rt: &HostRuntime, word: &str, times: u64) -> io::Result<ExitCode> {
    let sum = match word {
        "accept" => messages(rt.alloc(), 714, times)?,
        "open" => messages(rt.alloc(), 0, times)?,
        "pieces" => piece_copies(rt.alloc(), times)?,
        "fill" => fills(rt.alloc(), times)?,
        "copy" => copies(rt.alloc(), times)?,
        _ => return Ok(ExitCode::from(1)),
    };
    println!(rt; "{sum}")?;
    Ok(ExitCode::from(0))
}

fn main(rt: HostRuntime) -> io::Result<ExitCode> {
    let mut words = env::args(&rt)?.skip(1);
    let word = words.next();
    let times = words
        .next()
        .and_then(|word| word.as_str().parse::<u64>().ok());
    match (word, times) {
        (Some(word), Some(times)) => run(&rt, word.as_str(), times),
        _ => Ok(ExitCode::from(1)),
    }
}
