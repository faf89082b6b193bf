//! Carries out worked runs: from words and bytes to bytes and a status.
//!
//! The words of this program are files of runs. A run begins with a line of `$` and the words of a command; what stands below it, up to
//! the line feed before the next such line, is its input. Behind a `!` in that line stands what is done beside: `read N` or `write N`
//! fails that read or write, `from LINE` prints from that line on, and `reads` or `writes` fails each in turn and counts
//! them. Behind each file's name, a run is printed as its first line, what its sink took, and its status.
#![tactic(auto)]

mod plan;
mod rows;

use crate::rows::put_row;
use std::alloc::{AllocError, Global};
use std::io::Write;
use std::{env, fs, io};

// What the runs of a file print.
fn put_all(alloc: Global, out: &mut Vec<u8>, text: &str) -> Result<(), AllocError> {
    let mut rest = text.strip_prefix("$");
    for _ in 0..text.len() {
        let Some(here) = rest else {
            break;
        };
        let (row, later) = match here.split_once("\n$") {
            Some((row, later)) => (row, Some(later)),
            None => (here, None),
        };
        put_row(alloc, out, row)?;
        rest = later;
    }
    Ok(())
}

fn main(rt: HostRuntime) -> io::Result<()> {
    let mut out = Vec::new(rt.alloc());
    for name in env::args(&rt)?.skip(1) {
        let text = fs::read_to_string(&rt, name.as_str())?;
        let title = format!(in rt.alloc(); "# {name}\n")?;
        out.extend_from_slice(title.as_bytes())?;
        put_all(rt.alloc(), &mut out, text.as_str())?;
    }
    io::writer(&rt).write_all(out.as_slice())
}
