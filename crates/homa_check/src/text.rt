// The check of a text.
ghost use Rattle.std.specs.Prelude.{◌≡◌, ◌≢◌, ◌+◌, ◌-◌, ◌*◌, ◌^◌, ◌<◌, ◌≤◌, ◌++◌, ℕ, List, Some, None, [], true, length, min, IfOk, OnOk};
ghost use Rattle.std.specs.Option.{option_map};
ghost use Rattle.homa_check.specs.Checks.{plain_verdict, is_yes, is_read, verdict_at_end, IsNext, TookLine, IsUpTo, IsCutShort, HasReadOn};
ghost use Rattle.homa_check.specs.Clauses.{clause_of};
ghost use Rattle.check_lines.specs.Traces.{Follows};
ghost use Rattle.homa_check.specs.declared.text.Next.TheVariants.{Taken};
ghost use Rattle.homa_check.specs.declared.verdict.Clause.{Clause as AClause};
ghost use Rattle.homa_check.specs.declared.verdict.Verdict.TheVariants.{Yes, No};
ghost use Rattle.homa_io.specs.Outside.{unread, IsAtEnd};
ghost use Rattle.check_reader.specs.Forms.{entry_of};
ghost use Rattle.homa_plain.specs.Input.{has_no_feed};
ghost use Rattle.trace_rules.specs.View.{View, nothing_seen};
ghost use Rattle.text_lines.specs.Lines.{reading};
ghost use Rattle.check_verdict.specs.Text.{IsTrace, IsNoTrace};
ghost use Rattle.check_verdict.specs.Verdict.{verdict_of, judged_text, seen_text};

use crate::step::step_entry;
use crate::verdict::{CheckStop, Clause, Verdict};
use check_lines::Trace;
use check_reader::read_entry;
use homa_io::Source;
use homa_plain::LONGEST_INPUT;
use std::alloc::{AllocError, Global};
use text_lines::{LineGot, Lines};

// The most bytes of a line, its line feed not counted.
const LONGEST_LINE: u32 = 4_100_000;

// Room for the bytes that a line can spell.
const ROOM: usize = 2_050_000;

/// What became of the next line.
#[derive(Clone, Copy)]
pub(crate) enum Next {
    /// It obeys all laws.
    Taken,
    /// There is no next line.
    End,
    /// This clause fails first.
    Fails(Clause),
}

// Returns the first clause that fails at a line of text, and takes the line if none does.
fn step(
    alloc: Global,
    trace: &mut Trace,
    line: &[u8],
    room: &mut [u8],
) -> Result<Option<Clause>, AllocError>
    requires { length line.now ≤ 2 * length room.old }
    ensures judged { IfOk result (λ r. (v : View) → Follows v trace.old → v.place < 2 ^ 64 - 1 → option_map clause_of r ≡ judged_text v (entry_of line.now)) }
    ensures next { IfOk result (λ r. (v : View) → Follows v trace.old → v.place < 2 ^ 64 - 1 → r ≡ None → Follows (seen_text v (entry_of line.now)) trace.new) }
{
    match read_entry(line, room) {
        Some(entry) => step_entry(alloc, trace, &entry),
        None => Ok(Some(Clause::Shape)),
    }
}

// Reads the next line, and judges it.
fn judge_next<S: Source>(
    alloc: Global,
    trace: &mut Trace,
    lines: &mut Lines,
    source: &mut S,
    room: &mut [u8],
) -> Result<Next, CheckStop>
    requires longest { (reading lines.old).longest ≡ 4100000 }
    requires limit { (reading lines.old).limit ≡ LONGEST_INPUT }
    requires within { (reading lines.old).read ≤ LONGEST_INPUT }
    requires room { 2050000 ≤ length room.old }
    ensures next { IfOk result (λ next. (v : View) → Follows v trace.old → v.place ≤ LONGEST_INPUT
        → IsNext v (reading lines.old) (reading lines.new) (S.left source.old) (S.left source.new) trace.new next) }
    ensures read { IfOk result (λ next. next ≡ Taken → ((reading lines.old).read < (reading lines.new).read) × ((reading lines.new).read ≤ LONGEST_INPUT)) }
    ensures took { IfOk result (λ next. TookLine (S.left source.old) (S.left source.new) (reading lines.old) (reading lines.new) (next ≢ Taken)) }
    ensures unended { is_read result ≡ true → (came : List ℕ) × (S.left source.old ≡ unread came (S.left source.new))
        × (has_no_feed ((reading lines.old).pending ++ came) ≡ true) }
    ensures number { OnOk result ((reading lines.new).number ≡ min ((reading lines.old).number + 1) (2 ^ 64 - 1)) }
    ensures limit { (reading lines.new).limit ≡ (reading lines.old).limit }
    ensures longest { (reading lines.new).longest ≡ (reading lines.old).longest }
    ensures room { length room.new ≡ length room.old }
    ensures source { HasReadOn S.left S.faults S.is_same result source.old source.new }
{
    match lines.next(source)? {
        LineGot::End => Ok(Next::End),
        LineGot::Long => Ok(Next::Fails(Clause::Shape)),
        LineGot::Over => Ok(Next::Fails(Clause::Shape)),
        LineGot::Line => match step(alloc, trace, lines.bytes(), room)? {
            Some(clause) => Ok(Next::Fails(clause)),
            None => Ok(Next::Taken),
        },
    }
}

// Returns the verdict after the last line.
fn at_end(trace: &Trace) -> Verdict
    ensures { (v : View) → Follows v trace.now → verdict_at_end v ≡ plain_verdict result }
{
    if trace.place == 0 {
        return Verdict::No {
            line: 1,
            clause: Clause::Shape,
        };
    }
    Verdict::Yes { lines: trace.place }
}

/// Judges a text line by line, up to the first line that isn't one of a trace, or breaks a law. A line of more than
/// 4,100,000 bytes without its line feed isn't one, nor is the line that holds byte number 68,719,476,737.
/// Errors: `Read` if the source counted a fault, and `NoMemory`. The source is then read up to some place.
pub fn check<S: Source>(alloc: Global, source: &mut S) -> Result<Verdict, CheckStop>
    // The verdict is the definition's, on all bytes that the source had.
    ensures verdict { IfOk result (λ verdict. (bytes : List ℕ) → S.left source.old ≡ Some bytes → verdict_of bytes ≡ plain_verdict verdict) }

    // Yes: the text has so many lines, each has its shape, and all of them obey all laws. It was read to its end.
    ensures yes { IfOk result (λ verdict. (bytes : List ℕ) (n : ℕ) → S.left source.old ≡ Some bytes → verdict ≡ Yes n → IsTrace bytes n) }
    ensures end { IfOk result (λ verdict. is_yes verdict ≡ true → IsAtEnd (S.left source.new)) }

    // No: this line is the first that hasn't its shape or breaks a law, and this clause is the first that fails there.
    ensures no { IfOk result (λ verdict. (bytes : List ℕ) (line : ℕ) (clause : AClause) → S.left source.old ≡ Some bytes → verdict ≡ No line clause
        → IsNoTrace bytes line (clause_of clause)) }

    // If reading failed, the lines that arrived whole obey all laws.
    ensures cut { is_read result ≡ true → (bytes : List ℕ) → S.left source.old ≡ Some bytes → IsCutShort bytes (S.left source.new) }

    // In each case the source was read from its beginning up to some place. `Read` is returned exactly if its count of faults
    // rose. `NoMemory` may come at any time.
    ensures source { HasReadOn S.left S.faults S.is_same result source.old source.new }
{
    let mut lines = Lines::open(alloc, LONGEST_INPUT, LONGEST_LINE)?;
    let mut room = vec![in alloc; 0; ROOM]?;
    let mut trace = Trace::new(alloc);
    judge_all(alloc, &mut trace, &mut lines, source, &mut room)
}

// Judges the lines that are left. After the line of a no, nothing is read.
fn judge_all<S: Source>(
    alloc: Global,
    trace: &mut Trace,
    lines: &mut Lines,
    source: &mut S,
    room: &mut [u8],
) -> Result<Verdict, CheckStop>
    requires follows { Follows nothing_seen trace.old }
    requires lines { reading lines.old ≡ record { pending = []; line = []; read = 0; number = 0; limit = LONGEST_INPUT; longest = 4100000 } }
    requires room { 2050000 ≤ length room.old }
    ensures verdict { IfOk result (λ verdict. (bytes : List ℕ) → S.left source.old ≡ Some bytes → verdict_of bytes ≡ plain_verdict verdict) }
    ensures end { IfOk result (λ verdict. is_yes verdict ≡ true → IsAtEnd (S.left source.new)) }
    ensures behind { IfOk result (λ verdict. (line : ℕ) (clause : AClause) → verdict ≡ No line clause
        → IsUpTo line (S.left source.old) (S.left source.new) (reading lines.new)) }
    ensures cut { is_read result ≡ true → (bytes : List ℕ) → S.left source.old ≡ Some bytes → IsCutShort bytes (S.left source.new) }
    ensures source { HasReadOn S.left S.faults S.is_same result source.old source.new }
{
    'lines: loop {
        match judge_next(alloc, trace, lines, source, room)? {
            Next::Taken => {}
            Next::End => return Ok(at_end(trace)),
            Next::Fails(clause) => {
                return Ok(Verdict::No {
                    line: lines.number(),
                    clause,
                });
            }
        }
    }
}
