// The lines before `go` and `go` itself.
ghost use Rattle.std.specs.Prelude.{◌≡◌, ◌≤◌, false, length};
ghost use Rattle.homa_plain.specs.Input.{words_of};
ghost use Rattle.homa_plain.specs.Script.{setting_given, phrase_of};
ghost use Rattle.homa_script.specs.Given.{line_of};

use crate::event::read_event_word;
use homa_plain::{Name, ScriptFault};
use script_lines::{Words, is_comment};
use text_lines::read_name;

/// What a line before `go`, or `go` itself, stands for.
#[derive(Clone, Copy)]
pub(crate) enum OpeningLine {
    /// Nothing: it has no words, or is a comment.
    Blank,
    /// A setting has this number.
    Setting(Name, u32),
    /// The settings end.
    Go,
}

// A setting's number.
fn read_setting(name: Name, words: &mut Words<'_>) -> Result<OpeningLine, ScriptFault>
    ensures { setting_given name words.old ≡ line_of result }
{
    let n = words.number(u64::from(u32::MAX))? as u32;
    words.end()?;
    Ok(OpeningLine::Setting(name, n))
}

/// What a line before `go`, or `go` itself, stands for.
pub(crate) fn read_opening_line(line: &[u8]) -> Result<OpeningLine, ScriptFault>
    requires { length line.now ≤ 2100000 }
    ensures { phrase_of false (words_of line.now) ≡ line_of result }
{
    let mut words = Words::new(line);
    let Some(word) = words.next() else {
        return Ok(OpeningLine::Blank);
    };
    if is_comment(word) {
        return Ok(OpeningLine::Blank);
    }
    if let Some(name) = read_name(word) {
        return read_setting(name, &mut words);
    }
    if read_event_word(word).is_some() {
        return Err(ScriptFault::NoGo);
    }
    if word != b"go".as_slice() {
        return Err(ScriptFault::UnknownWord);
    }
    words.end()?;
    Ok(OpeningLine::Go)
}
