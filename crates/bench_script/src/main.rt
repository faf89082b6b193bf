//! Counts the events of a schedule on standard input, where `tick N` counts as N, and prints the number.
//! Where a line is refused it prints the line's number and why, and ends with status 2; where a read
//! failed, it ends with status 3. `bench/script.sh` times it.
#![tactic(auto)]

ghost use Rattle.std.specs.Prelude.{◌≡◌, ℕ, List, Some, Ok, IfOk, IfErr};
ghost use Rattle.homa_plain.specs.Script.{opening};
ghost use Rattle.homa_script.specs.Script.{opened};
ghost use Rattle.bench_script.specs.Count.{count_of, IsStop};

use homa_io::{Source, StdSource};
use homa_script::{Next, Reader, ScriptStop};
use std::io;
use std::process::ExitCode;

// The most bytes of an input.
const MOST_BYTES: u64 = 68_719_476_736;

// Counts the events of the schedule that the source has.
fn count_events<S: Source>(reader: &mut Reader, source: &mut S) -> Result<u64, ScriptStop>
    requires { reader.old ≡ opened MOST_BYTES }
    ensures count { IfOk result (λ events. (bytes : List ℕ) → S.left source.old ≡ Some bytes → count_of (opening MOST_BYTES bytes) ≡ Ok events) }
    ensures stop { IfErr result (λ stop. (bytes : List ℕ) → S.left source.old ≡ Some bytes
        → IsStop (count_of (opening MOST_BYTES bytes)) reader.new.place.number stop) }
{
    reader.settings(source)?;
    let mut events: u64 = 0;
    loop {
        match reader.next(source)? {
            Next::Event(_) => events += 1,
            Next::Ticks(n) => events += u64::from(n),
            Next::End => return Ok(events),
        }
    }
}

fn main(rt: HostRuntime) -> io::Result<ExitCode> {
    let mut reader = Reader::open(rt.alloc(), MOST_BYTES)?;
    let mut source = StdSource::new(rt.reader());
    match count_events(&mut reader, &mut source) {
        Ok(events) => {
            println!(rt; "{events}")?;
            Ok(ExitCode::from(0))
        }
        Err(ScriptStop::Fault(fault)) => {
            println!(rt; "{} {fault:?}", reader.line())?;
            Ok(ExitCode::from(2))
        }
        Err(ScriptStop::Read(_)) => Ok(ExitCode::from(3)),
    }
}
