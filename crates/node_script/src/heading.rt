// The lines before `go`, and `go` itself.
ghost use Rattle.std.specs.Prelude.{◌≡◌, ◌≤◌, length, IfOk};
ghost use Rattle.homa_plain.specs.Input.{words_of};
ghost use Rattle.node_runs.specs.Script.{number_between, port_operand, setting_given, local_given, remote_given, limit_given, word_given, heading_of};
ghost use Rattle.node_runs.specs.Script.{spoken, EndIs, TurnsAre};
ghost use Rattle.script_lines.specs.Operands.{with_words};
ghost use Rattle.node_script.specs.Setup.{heading_given, limit_of};
ghost use Rattle.node_script.specs.Heads.{IsWithin};

use crate::place::{Naming, Place};
use homa_plain::{Name, ScriptFault};
use script_lines::{Words, is_comment};
use text_lines::read_name;

/// What a line before `go`, or `go` itself, stands for.
#[derive(Clone, Copy)]
pub(crate) enum Heading {
    /// Nothing: it has no words, or is a comment.
    Blank,
    /// A setting has this number.
    Setting(Name, u32),
    /// A host is named.
    Names(Naming),
    /// The tick of the end.
    End(u64),
    /// How many loop turns there may be.
    Turns(u64),
    /// The head ends.
    Go,
}

/// The next word as a number of at least `least` and at most `most`.
pub(crate) fn read_between(words: &mut Words<'_>, least: u64, most: u64) -> Result<u64, ScriptFault>
    ensures operand { number_between least most words.old ≡ with_words result words.new }
    ensures least { IfOk result (λ n. least ≤ n) }
    ensures most { IfOk result (λ n. n ≤ most) }
{
    let n = words.number(most)?;
    if n < least {
        return Err(ScriptFault::BadNumber);
    }
    Ok(n)
}

// A port.
fn read_port(words: &mut Words<'_>) -> Result<u16, ScriptFault>
    ensures { port_operand words.old ≡ with_words result words.new }
{
    Ok(read_between(words, 1, 65_535)? as u16)
}

// A setting's number.
fn read_setting(name: Name, words: &mut Words<'_>) -> Result<Heading, ScriptFault>
    ensures given { setting_given name words.old ≡ heading_given result }
    ensures within { IfOk result IsWithin }
{
    let n = words.number(u64::from(u32::MAX))? as u32;
    words.end()?;
    Ok(Heading::Setting(name, n))
}

// The operands of `local`.
fn read_local(words: &mut Words<'_>) -> Result<Heading, ScriptFault>
    ensures given { local_given words.old ≡ heading_given result }
    ensures within { IfOk result IsWithin }
{
    let host = words.host()?;
    let inc = read_between(words, 1, u64::from(u32::MAX))? as u32;
    let port = read_port(words)?;
    words.end()?;
    let place = Place::Local { inc, port };
    Ok(Heading::Names(Naming { host, place }))
}

// The operands of `remote`.
fn read_remote(words: &mut Words<'_>) -> Result<Heading, ScriptFault>
    ensures given { remote_given words.old ≡ heading_given result }
    ensures within { IfOk result IsWithin }
{
    let host = words.host()?;
    let port = read_port(words)?;
    words.end()?;
    let place = Place::Remote { port };
    Ok(Heading::Names(Naming { host, place }))
}

// The operand of `end` and of `turns`.
fn read_limit(words: &mut Words<'_>) -> Result<u64, ScriptFault>
    ensures end { limit_given EndIs words.old ≡ limit_of EndIs result }
    ensures turns { limit_given TurnsAre words.old ≡ limit_of TurnsAre result }
    ensures least { IfOk result (λ n. 1 ≤ n) }
    ensures most { IfOk result (λ n. n ≤ 1000000000) }
{
    let n = read_between(words, 1, 1_000_000_000)?;
    words.end()?;
    Ok(n)
}

// A line whose first word names no setting.
fn read_word(word: &[u8], words: &mut Words<'_>) -> Result<Heading, ScriptFault>
    ensures given { word_given word.now words.old ≡ heading_given result }
    ensures within { IfOk result IsWithin }
{
    match word {
        b"local" => read_local(words),
        b"remote" => read_remote(words),
        b"end" => Ok(Heading::End(read_limit(words)?)),
        b"turns" => Ok(Heading::Turns(read_limit(words)?)),
        b"at" => Err(ScriptFault::NoGo),
        b"go" => {
            words.end()?;
            Ok(Heading::Go)
        }
        _ => Err(ScriptFault::UnknownWord),
    }
}

/// What a line before `go`, or `go` itself, stands for.
pub(crate) fn read_heading(line: &[u8]) -> Result<Heading, ScriptFault>
    requires { length line.now ≤ 2100000 }
    ensures given { heading_of (spoken (words_of line.now)) ≡ heading_given result }
    ensures within { IfOk result IsWithin }
{
    let mut words = Words::new(line);
    let Some(word) = words.next() else {
        return Ok(Heading::Blank);
    };
    if is_comment(word) {
        return Ok(Heading::Blank);
    }
    match read_name(word) {
        Some(name) => read_setting(name, &mut words),
        None => read_word(word, &mut words),
    }
}
