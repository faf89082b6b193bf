// A run and what it prints.
use crate::plan::{Plan, read_plan};
use homa_io::{MemSink, MemSource};
use homa_top::{ExitStatus, run, suites};
use node_io::{MemClock, MemNet};
use std::alloc::{AllocError, Global};

// The most bytes that a run prints.
const MOST_BYTES: u32 = 2_100_000;

// The most reads, or writes, that fail in turn.
const MOST_TURNS: u64 = 1000;

// The status of a run, and the bytes that its sink took. These reads and writes fail, by their numbers.
fn carried(
    alloc: Global,
    words: &[&str],
    input: &str,
    reads: Vec<u64>,
    writes: Vec<u64>,
) -> Result<(ExitStatus, MemSink), AllocError> {
    let bytes = Vec::from_slice(alloc, input.as_bytes())?;
    let mut source = MemSource::new(bytes, reads);
    let services = suites(alloc)?;
    let mut sink = MemSink::new(alloc, MOST_BYTES, writes)?;
    let mut net = MemNet::new(alloc, Vec::new(alloc), 0, Vec::new(alloc))?;
    let mut clock = MemClock::new(vec![in alloc; 0]?);
    let status = run(
        alloc,
        words,
        &mut source,
        &mut sink,
        &mut net,
        &mut clock,
        services,
    );
    Ok((status, sink))
}

// How many reads, or writes, of a run there are, each of which fails in turn. None where one of them has another status, or
// where what is printed is no front of the whole.
fn turns(
    alloc: Global,
    words: &[&str],
    input: &str,
    is_read: bool,
) -> Result<Option<u64>, AllocError> {
    let (_, whole) = carried(alloc, words, input, Vec::new(alloc), Vec::new(alloc))?;
    for k in 0..MOST_TURNS {
        let plan = vec![in alloc; k]?;
        let none = Vec::new(alloc);
        let (reads, writes) = if is_read { (plan, none) } else { (none, plan) };
        let (status, sink) = carried(alloc, words, input, reads, writes)?;
        match status {
            ExitStatus::Done => return Ok(Some(k)),
            ExitStatus::ReadFailed if is_read => {}
            ExitStatus::WriteFailed if !is_read => {}
            _ => return Ok(None),
        }
        if !whole.bytes().starts_with(sink.bytes()) {
            return Ok(None);
        }
    }
    Ok(None)
}

// Appends how many reads, or writes, failed in turn.
fn put_turns(
    alloc: Global,
    out: &mut Vec<u8>,
    words: &[&str],
    input: &str,
    is_read: bool,
) -> Result<(), AllocError> {
    let line = match turns(alloc, words, input, is_read)? {
        Some(n) => format!(in alloc; "{n} failed in turn\n")?,
        None => format!(in alloc; "another status, or no front\n")?,
    };
    out.extend_from_slice(line.as_bytes())
}

// Where the first line of this text begins, and 0 where there is none.
fn place_of(alloc: Global, bytes: &[u8], line: &str) -> Result<usize, AllocError> {
    let mark = format!(in alloc; "\n{line}\n")?;
    let text = str::from_utf8(bytes).unwrap_or("");
    Ok(
        text.find(mark.as_str())
            .map_or(0, |at| at.saturating_add(1)),
    )
}

// Appends what a run printed from a line on, and its status.
fn put_run(
    alloc: Global,
    out: &mut Vec<u8>,
    ran: &(ExitStatus, MemSink),
    from: &str,
) -> Result<(), AllocError> {
    let bytes = ran.1.bytes();
    let place = place_of(alloc, bytes, from)?;
    out.extend_from_slice(bytes.get(place..).unwrap_or(b""))?;
    let line = format!(in alloc; "status {}\n", ran.0.code())?;
    out.extend_from_slice(line.as_bytes())
}

// Appends what a run of these words prints.
fn put_planned(
    alloc: Global,
    out: &mut Vec<u8>,
    words: &[&str],
    input: &str,
    plan: Plan<'_>,
) -> Result<(), AllocError> {
    let (reads, writes) = match plan {
        Plan::Reads => return put_turns(alloc, out, words, input, true),
        Plan::Writes => return put_turns(alloc, out, words, input, false),
        Plan::Unknown => return out.extend_from_slice(b"no such plan\n"),
        Plan::Read(n) => (vec![in alloc; n]?, Vec::new(alloc)),
        Plan::Write(n) => (Vec::new(alloc), vec![in alloc; n]?),
        Plan::Whole | Plan::From(_) => (Vec::new(alloc), Vec::new(alloc)),
    };
    let from = if let Plan::From(line) = plan {
        line
    } else {
        ""
    };
    let ran = carried(alloc, words, input, reads, writes)?;
    put_run(alloc, out, &ran, from)
}

/// Appends the first line of a run, in whose text the `$` before it is left out, and what it prints.
pub(crate) fn put_row(alloc: Global, out: &mut Vec<u8>, row: &str) -> Result<(), AllocError> {
    let (head, input) = row.split_once('\n').unwrap_or((row, ""));
    let first = format!(in alloc; "${head}\n")?;
    out.extend_from_slice(first.as_bytes())?;
    let (words, plan) = head.split_once('!').unwrap_or((head, ""));
    let words = words.split_whitespace().collect::<Vec<&str>>(alloc)?;
    put_planned(alloc, out, &words, input, read_plan(plan.trim()))
}
