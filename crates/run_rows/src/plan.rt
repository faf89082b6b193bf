// What is done beside a run.

/// What fails, or what is left out.
#[derive(Clone, Copy)]
pub(crate) enum Plan<'a> {
    /// Nothing.
    Whole,
    /// The read of this number fails, counted from 0.
    Read(u64),
    /// The write of this number fails, counted from 0.
    Write(u64),
    /// What stands above this line isn't printed.
    From(&'a str),
    /// Each read fails in turn.
    Reads,
    /// Each write fails in turn.
    Writes,
    /// There is no such plan.
    Unknown,
}

/// The plan that these words name.
pub(crate) fn read_plan(words: &str) -> Plan<'_> {
    match words {
        "" => Plan::Whole,
        "reads" => Plan::Reads,
        "writes" => Plan::Writes,
        _ => {
            let (word, rest) = words.split_once(' ').unwrap_or((words, ""));
            read_of(word, rest)
        }
    }
}

// The plan of this word, with what stands behind it.
fn read_of<'a>(word: &str, rest: &'a str) -> Plan<'a> {
    match (word, rest.parse::<u64>()) {
        ("read", Ok(n)) => Plan::Read(n),
        ("write", Ok(n)) => Plan::Write(n),
        ("from", _) => Plan::From(rest),
        _ => Plan::Unknown,
    }
}
