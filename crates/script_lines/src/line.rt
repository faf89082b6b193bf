// The lines of a script.
ghost use Rattle.std.specs.Prelude.{◌≡◌, ◌≤◌, ◌+◌, ℕ, List, Some, true, length, IfOk};
ghost use Rattle.homa_plain.specs.Script.{without_return};
ghost use Rattle.text_lines.specs.Lines.{reading};
ghost use Rattle.script_lines.specs.Place.{place_of, ReadsScript};
ghost use Rattle.script_lines.specs.Stops.{has_failed_read};
ghost use Rattle.script_lines.specs.Faults.{CountsFaults};
ghost use Rattle.script_lines.specs.Lines.{IsNextLine, IsNumbered};
ghost use Rattle.script_lines.specs.Taking.{GoesOn};

use crate::ScriptStop;
use homa_io::Source;
use homa_plain::ScriptFault;
use std::str::from_utf8;
use text_lines::{LineGot, Lines};

/// Reads the next line, and answers whether there is one. A line that isn't refused by what it is
/// made of is then the last line of `lines`.
pub fn next_line<S: Source>(lines: &mut Lines, source: &mut S) -> Result<bool, ScriptStop>
    requires script { ReadsScript (reading lines.old) }
    ensures line { (bytes : List ℕ) → S.left source.old ≡ Some bytes → IsNextLine (reading lines.old) (reading lines.new) bytes (S.left source.new) result }
    ensures goes { GoesOn (reading lines.old) (reading lines.new) (S.left source.old) (S.left source.new) (has_failed_read result) }
    ensures numbered { IsNumbered (place_of (reading lines.old)) (place_of (reading lines.new)) result }
    ensures short { IfOk result (λ there. there ≡ true → length (reading lines.new).line ≤ 2100000) }
    ensures sized { IfOk result (λ there. there ≡ true → (reading lines.old).read + length (reading lines.new).line ≤ (reading lines.new).read) }
    ensures faults { CountsFaults S.faults S.is_same (has_failed_read result) source.old source.new }
{
    match lines.next(source)? {
        LineGot::End => Ok(false),
        LineGot::Over => Err(ScriptStop::Fault(ScriptFault::InputTooLong)),
        LineGot::Long => Err(ScriptStop::Fault(ScriptFault::LongLine)),
        LineGot::Line => match from_utf8(lines.bytes()) {
            Ok(_) => Ok(true),
            Err(_) => Err(ScriptStop::Fault(ScriptFault::NotUtf8)),
        },
    }
}

/// The last line without its line feed, and without the one carriage return at its end.
pub fn last_line(lines: &Lines) -> &[u8]
    ensures value { result.now ≡ without_return (reading lines.now).line }
    ensures short { length result.now ≤ length (reading lines.now).line }
{
    let line = lines.bytes();
    match line.strip_suffix(b"\r".as_slice()) {
        Some(front) => front,
        None => line,
    }
}
