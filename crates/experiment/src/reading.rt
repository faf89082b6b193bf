// The lines of an experiment.
ghost use Rattle.std.specs.Prelude.{◌≡◌, ◌≤◌, ℕ, List, Some, true, length, IfOk};
ghost use Rattle.homa_plain.specs.Input.{words_of};
ghost use Rattle.experiment.specs.Grammar.{line_of};
ghost use Rattle.experiment.specs.Drafts.{drafting};
ghost use Rattle.text_lines.specs.Lines.{reading};
ghost use Rattle.script_lines.specs.Place.{place_of, ReadsScript};
ghost use Rattle.experiment.specs.Texts.{fault_at, line_after, IsLineTaken, IsNextText, IsTextNumbered, IsExperimentOf};

use crate::draft::Draft;
use crate::fault::{ExperimentFault, LineStop, Refusal, Wrong};
use crate::grammar::read_line;
use crate::statement::Statement;
use crate::trial::Experiment;
use homa_io::Source;
use script_lines::{ScriptStop, last_line, next_line};
use std::alloc::Global;
use text_lines::Lines;

// The most bytes of an experiment, and of a line.
const MOST_BYTES: u64 = 1 << 32;

const LONGEST_LINE: u32 = 2_100_000;

// What is wrong in a line of this number.
fn said(line: u64, refusal: Refusal) -> ExperimentFault
    ensures { result ≡ fault_at line refusal }
{
    ExperimentFault::Said {
        line,
        word: refusal.word,
        wrong: refusal.wrong,
    }
}

// Whether there is a further line, which then is the last one of `lines`.
fn next<S: Source>(lines: &mut Lines, source: &mut S) -> Result<bool, ExperimentFault>
    requires script { ReadsScript (reading lines.old) }
    ensures line { (bytes : List ℕ) → S.left source.old ≡ Some bytes → IsNextText (reading lines.old) (reading lines.new) bytes (S.left source.new) result }
    ensures numbered { IsTextNumbered (place_of (reading lines.old)) (place_of (reading lines.new)) result }
    ensures short { IfOk result (λ there. there ≡ true → length (reading lines.new).line ≤ 2100000) }
    ensures limit { (reading lines.new).limit ≡ (reading lines.old).limit }
    ensures longest { (reading lines.new).longest ≡ (reading lines.old).longest }
    ensures never_falls { S.faults source.old ≤ S.faults source.new }
    ensures same { S.is_same source.old source.new }
{
    match next_line(lines, source) {
        Ok(there) => Ok(there),
        Err(ScriptStop::Read(_)) => Err(ExperimentFault::Read),
        Err(ScriptStop::Fault(fault)) => Err(ExperimentFault::Said {
            line: lines.number(),
            word: 1,
            wrong: Wrong::Unreadable(fault),
        }),
    }
}

// Takes a line of this number, and answers whether it says something.
fn take(draft: &mut Draft, alloc: Global, number: u64, text: &[u8]) -> Result<bool, ExperimentFault>
    requires { length text.now ≤ 2100000 }
    ensures { IsLineTaken (line_after (drafting draft.old) number (line_of number (words_of text.now))) number result (drafting draft.new) }
{
    let line = match read_line(number, text) {
        Ok(line) => line,
        Err(refusal) => return Err(said(number, refusal)),
    };
    match draft.take(alloc, number, line) {
        Ok(()) => Ok(!matches!(line, Statement::Blank)),
        Err(LineStop::NoMemory) => Err(ExperimentFault::NoMemory),
        Err(LineStop::Refused(refusal)) => Err(said(number, refusal)),
    }
}

/// Reads an experiment, to the end of the source. Empty lines, and those that begin with `#`, say nothing; what no line says is as
/// usual. A text of which no line says anything is none.
pub fn read<S: Source>(alloc: Global, source: &mut S) -> Result<Experiment, ExperimentFault>
    ensures text { (bytes : List ℕ) → S.left source.old ≡ Some bytes → IsExperimentOf bytes result }
    ensures never_falls { S.faults source.old ≤ S.faults source.new }
    ensures same { S.is_same source.old source.new }
{
    let mut draft = Draft::new(alloc)?;
    let mut lines = Lines::open(alloc, MOST_BYTES, LONGEST_LINE)?;
    let mut says = false;
    'lines: while next(&mut lines, source)? {
        let number = lines.number();
        let any = take(&mut draft, alloc, number, last_line(&lines))?;
        says |= any;
    }
    if !says {
        return Err(ExperimentFault::Said {
            line: lines.number(),
            word: 1,
            wrong: Wrong::Nothing,
        });
    }
    draft.experiment()
}
