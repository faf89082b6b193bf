// The line of a verdict.
ghost use Rattle.homa_check.specs.Checks.{plain_verdict, verdict_text};
ghost use Rattle.homa_io.specs.Writing.{IsWritten};

use crate::verdict::Verdict;
use homa_io::{Sink, WriteFailed};
use written_lines::{Word, put_line};

/// Writes the line of a verdict: `yes` and how many lines there are; or `no`, the line's number from 1, and the word of the
/// clause. After an error the sink took a prefix of the line.
pub fn put_verdict<K: Sink>(sink: &mut K, verdict: Verdict) -> Result<(), WriteFailed>
    ensures { IsWritten K.taken K.faults K.is_same result sink.old sink.new (verdict_text (plain_verdict verdict)) }
{
    match verdict {
        Verdict::Yes { lines } => put_line(sink, &[Word::Text(b"yes"), Word::Number(lines)]),
        Verdict::No { line, clause } => put_line(
            sink,
            &[
                Word::Text(b"no"),
                Word::Number(line),
                Word::Text(clause.word()),
            ],
        ),
    }
}
