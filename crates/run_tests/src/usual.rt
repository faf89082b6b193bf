// Commands with usual input, of which no clause says that memory is found for it.
use crate::carried::carry;
use homa_top::ExitStatus;
use std::alloc::Global;
use std::test::Fail;

// The lines of a trace of so many ticks.
fn ticks(alloc: Global, count: u32) -> Result<Vec<u8>, Fail> {
    let mut text = Vec::from_slice(
        alloc,
        b"settings 2 1400 10000 10000 4 14000 4 5 20 1024 256 1024 0\n",
    )?;
    for tick in 1..=count {
        let line = format!(in alloc; "clock {tick}\n")?;
        text.extend_from_slice(line.as_bytes())?;
    }
    Ok(text)
}

#[test]
fn a_trace_of_100001_ticks_is_judged(rt: HostRuntime) -> Result<(), Fail> {
    let trace = ticks(rt.alloc(), 100_001)?;
    let (status, verdict) = carry(rt.alloc(), &["check"], trace.as_slice(), 100)?;
    assert_eq!(rt; status, ExitStatus::Done);
    assert_eq!(rt; verdict.bytes(), b"yes 100002\n".as_slice());
    Ok(())
}

// The number behind a word that begins a line.
fn number_of(text: &[u8], word: &str) -> Result<u64, Fail> {
    for line in str::from_utf8(text).unwrap_or("").lines() {
        if let Some((first, number)) = line.split_once(' ')
            && first == word
        {
            return number.parse().map_err(|_| Fail::from("no number"));
        }
    }
    Err(Fail::from("no such line"))
}

// How many lines begin with a word.
fn lines_of(text: &[u8], word: &str) -> u64 {
    let mut count = 0u64;
    for line in str::from_utf8(text).unwrap_or("").lines() {
        if line.starts_with(word) {
            count = count.saturating_add(1);
        }
    }
    count
}

#[test]
fn no_more_calls_are_done_than_run(rt: HostRuntime) -> Result<(), Fail> {
    for (seed, calls) in [("7", "1000"), ("1", "100"), ("2", "100"), ("3", "100")] {
        let (status, summary) = carry(rt.alloc(), &["gen", seed, calls], b"", 1000)?;
        assert_eq!(rt; status, ExitStatus::Done);
        let (runs, done) = (
            number_of(summary.bytes(), "runs")?,
            number_of(summary.bytes(), "done")?,
        );
        assert!(rt; 0 < done && done <= runs);
    }
    Ok(())
}

#[test]
fn a_made_schedule_is_replayed_and_judged(rt: HostRuntime) -> Result<(), Fail> {
    let alloc = rt.alloc();
    let (status, schedule) = carry(alloc, &["make", "1", "50"], b"", 100_000)?;
    assert_eq!(rt; status, ExitStatus::Done);
    let (status, trace) = carry(alloc, &["replay"], schedule.bytes(), 16_000_000)?;
    assert_eq!(rt; status, ExitStatus::Done);
    let (status, verdict) = carry(alloc, &["check"], trace.bytes(), 100)?;
    assert_eq!(rt; status, ExitStatus::Done);
    assert!(rt; verdict.bytes().starts_with(b"yes "));
    let (status, summary) = carry(alloc, &["gen", "1", "50"], b"", 1000)?;
    assert_eq!(rt; status, ExitStatus::Done);
    for (begins, word) in [
        ("done ", "done"),
        ("run ", "runs"),
        ("deliver ", "deliver"),
        ("clock ", "clock"),
    ] {
        assert_eq!(rt;
            lines_of(trace.bytes(), begins),
            number_of(summary.bytes(), word)?
        );
    }
    Ok(())
}
