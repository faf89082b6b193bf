// What comes next of a schedule.
ghost use Rattle.std.specs.Prelude.{◌≡◌, ◌≤◌, ℕ, List, Some, length, vec_capacity, IfOk, IfSome};
ghost use Rattle.homa_plain.specs.Settings.{IsValid};
ghost use Rattle.text_lines.specs.Lines.{reading};
ghost use Rattle.script_lines.specs.Place.{place_of, IsCounted, ReadsScript};
ghost use Rattle.script_lines.specs.Stops.{has_failed_read};
ghost use Rattle.script_lines.specs.Faults.{CountsFaults};
ghost use Rattle.script_lines.specs.Taking.{GoesOn};
ghost use Rattle.homa_script.specs.Given.{IsWithin};
ghost use Rattle.homa_script.specs.Script.{opened, IsOpening};
ghost use Rattle.homa_script.specs.Lines.{IsNextGiven, IsGivenOn};

use crate::event::{Given, read_event_line};
use crate::opening::{OpeningLine, read_opening_line};
use homa_io::Source;
use homa_plain::{ScriptFault, Settings};
use script_lines::{ScriptStop, last_line, next_line};
use text_lines::Lines;

/// Reads the lines up to `go`, and gives the settings that hold there.
pub(crate) fn read_settings<S: Source>(
    lines: &mut Lines,
    source: &mut S,
) -> Result<Settings, ScriptStop>
    requires script { ReadsScript (reading lines.old) }
    requires first { place_of (reading lines.old) ≡ (opened (reading lines.old).limit).place }
    ensures settings { (bytes : List ℕ) → S.left source.old ≡ Some bytes
        → IsOpening (reading lines.old).limit (place_of (reading lines.new)) bytes (S.left source.new) result }
    ensures goes { GoesOn (reading lines.old) (reading lines.new) (S.left source.old) (S.left source.new) (has_failed_read result) }
    ensures valid { IfOk result IsValid }
    ensures counted { IfOk result (λ settings. IsCounted (place_of (reading lines.new))) }
    ensures faults { CountsFaults S.faults S.is_same (has_failed_read result) source.old source.new }
{
    let mut settings = Settings::usual();
    'lines: while next_line(lines, source)? {
        match read_opening_line(last_line(lines))? {
            OpeningLine::Blank => {}
            OpeningLine::Setting(name, n) => settings.set(name, n),
            OpeningLine::Go => {
                settings.check()?;
                return Ok(settings);
            }
        }
    }
    Err(ScriptStop::Fault(ScriptFault::NoGo))
}

/// Reads the lines up to the next one with words, and gives what it stands for; nothing at the end.
pub(crate) fn next_given<S: Source>(
    lines: &mut Lines,
    source: &mut S,
    out: &mut Vec<u8>,
) -> Result<Option<Given>, ScriptStop>
    requires room { 1050000 ≤ vec_capacity out.old }
    requires script { ReadsScript (reading lines.old) }
    ensures given { (bytes : List ℕ) → S.left source.old ≡ Some bytes
        → IsNextGiven (place_of (reading lines.old)) (place_of (reading lines.new)) out.new.items bytes (S.left source.new) result }
    ensures goes { GoesOn (reading lines.old) (reading lines.new) (S.left source.old) (S.left source.new) (has_failed_read result) }
    ensures within { IfOk result (λ given. IfSome given (λ g. IsWithin g (length out.new.items))) }
    ensures most { IfOk result (λ given. IfSome given (λ g. IsWithin g 1050000)) }
    ensures capacity { vec_capacity out.old ≤ vec_capacity out.new }
    ensures on { IfOk result (IsGivenOn (place_of (reading lines.old)) (place_of (reading lines.new))) }
    ensures faults { CountsFaults S.faults S.is_same (has_failed_read result) source.old source.new }
{
    'lines: while next_line(lines, source)? {
        if let Some(given) = read_event_line(last_line(lines), out)? {
            return Ok(Some(given));
        }
    }
    Ok(None)
}
