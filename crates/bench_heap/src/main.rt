//! A mix of changes to a heap of 8192 slots, read from standard input, over `place_heap` or over std's
//! `BTreeMap`; then the first eight slots with their keys. `bench/heap.sh` times the one beside the other.
//!
//! The word is `heap`, `map`, or `read`, which only reads the mix. A line is `set SLOT FIRST SECOND`, which
//! inserts the slot with its key or gives it another, or `unset SLOT`, which removes it where it is there.
#![tactic(auto)]

mod map;
mod mix;
mod raw;

use crate::map::by_map;
use crate::mix::{Change, read_mix};
use crate::raw::by_heap;
use place_heap::Item;
use std::marker::Brand;
use std::process::ExitCode;
use std::sync::ledger::Blank;
use std::{env, io};

fn print(rt: &impl Print, items: &[Item]) -> io::Result<()> {
    for (slot, key) in items {
        println!(rt; "{slot} {} {}", key.first, key.second)?;
    }
    Ok(())
}

fn run(rt: &HostRuntime, word: &str, mix: &[Change]) -> io::Result<ExitCode> {
    match word {
        "heap" => print(rt, &by_heap::<Brand>(rt.alloc(), mix, Blank::new(1))?)?,
        "map" => print(rt, &by_map(rt.alloc(), mix)?)?,
        "read" => println!(rt; "{}", mix.len())?,
        _ => return Ok(ExitCode::from(1)),
    }
    Ok(ExitCode::from(0))
}

fn main(rt: HostRuntime) -> io::Result<ExitCode> {
    let mix = read_mix(&rt)?;
    for word in env::args(&rt)?.skip(1) {
        return run(&rt, word.as_str(), &mix);
    }
    Ok(ExitCode::from(1))
}
