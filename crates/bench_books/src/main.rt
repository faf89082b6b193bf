//! Fills a book with rows and then makes rounds of one question and one change, over `homa_grants` or `homa_timers`.
//! `bench/books.sh` times a round by the number of rows.
//!
//! The words are `choose`, `due` or `both`, how many rows (1 to 1,280) and how many rounds (at most 1,000,000). It
//! prints a checksum of all answers, so that none of them can be left out.
//!
//! With four rows and four rounds, as the gate runs it, the rows have keys 609, 954, 315 and 703, and the rows that
//! come first get 60, 460, 1275 and 687. So `due` answers 2, 2, 2 and 0, and `choose` 2 0 3 1 three times and then
//! 0 3 1 2.
#![tactic(auto)]

mod grants;
mod mix;
mod timers;

use crate::grants::by_grants;
use crate::mix::Mix;
use crate::timers::by_timers;
use std::process::ExitCode;
use std::{env, io};

fn run(rt: &HostRuntime, word: &str, mix: Mix) -> io::Result<ExitCode> {
    if word != "choose" && word != "due" && word != "both" {
        return Ok(ExitCode::from(1));
    }
    if word != "due" {
        println!(rt; "{}", by_grants(rt.alloc(), mix)?)?;
    }
    if word != "choose" {
        println!(rt; "{}", by_timers(rt.alloc(), mix)?)?;
    }
    Ok(ExitCode::from(0))
}

fn main(rt: HostRuntime) -> io::Result<ExitCode> {
    let mut words = env::args(&rt)?.skip(1);
    let word = words.next();
    let rows = words.next();
    let mix = Mix::read(rows, words.next());
    match (word, mix) {
        (Some(word), Some(mix)) => run(&rt, word.as_str(), mix),
        _ => Ok(ExitCode::from(1)),
    }
}
