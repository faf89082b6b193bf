// The lines behind `go`: events, and ticks.
ghost use Rattle.std.specs.Prelude.{◌≡◌, ◌≤◌, [], true, length, vec_capacity, IfOk, IfSome};
ghost use Rattle.std.specs.Option.{option_map};
ghost use Rattle.homa_plain.specs.Input.{words_of};
ghost use Rattle.homa_plain.specs.Script.{GivenEvent, event_word, alone, call_given, deliver_given, host_given, tick_given, inject_given};
ghost use Rattle.homa_plain.specs.Script.{shift_given, event_given, phrase_of};
ghost use Rattle.homa_script.specs.Given.{word_seen, given_of, bare_of, ticks_of, phrase_given, IsWithin};

use homa_plain::{Event, ScriptFault};
use script_lines::{Words, is_comment, read_up_to};

/// What a line behind `go` stands for.
#[derive(Clone, Copy)]
pub(crate) enum Given {
    /// An event, with so many bytes beside it.
    Event { event: Event, len: usize },
    /// So many ticks: 1 to 100,000.
    Ticks(u32),
}

/// The first word of a line behind `go`.
#[derive(Clone, Copy)]
pub(crate) enum EventWord {
    Call,
    Deliver,
    Clock,
    Turn,
    Tick,
    Restart,
    Inject,
    Shift,
}

/// The event's word that a word is.
pub(crate) fn read_event_word(word: &[u8]) -> Option<EventWord>
    ensures { option_map word_seen result ≡ event_word word.now }
{
    match word {
        b"call" => Some(EventWord::Call),
        b"deliver" => Some(EventWord::Deliver),
        b"clock" => Some(EventWord::Clock),
        b"turn" => Some(EventWord::Turn),
        b"tick" => Some(EventWord::Tick),
        b"restart" => Some(EventWord::Restart),
        b"inject" => Some(EventWord::Inject),
        b"shift" => Some(EventWord::Shift),
        _ => None,
    }
}

// The operands of `call`.
fn read_call(words: &mut Words<'_>, out: &mut Vec<u8>) -> Result<Given, ScriptFault>
    requires room { 1050000 ≤ vec_capacity out.old }
    ensures given { call_given words.old ≡ given_of result out.new.items }
    ensures within { IfOk result (λ given. IsWithin given (length out.new.items)) }
    ensures most { IfOk result (λ given. IsWithin given 1050000) }
    ensures capacity { vec_capacity out.old ≤ vec_capacity out.new }
{
    let client = words.host()?;
    let server = words.host()?;
    let number = words.number(255)? as u8;
    let len = words.bytes(out)?;
    words.end()?;
    let event = Event::Call {
        client,
        server,
        number,
    };
    Ok(Given::Event { event, len })
}

// The operands of `inject`.
fn read_inject(words: &mut Words<'_>, out: &mut Vec<u8>) -> Result<Given, ScriptFault>
    requires room { 1050000 ≤ vec_capacity out.old }
    ensures given { inject_given words.old ≡ given_of result out.new.items }
    ensures within { IfOk result (λ given. IsWithin given (length out.new.items)) }
    ensures most { IfOk result (λ given. IsWithin given 1050000) }
    ensures capacity { vec_capacity out.old ≤ vec_capacity out.new }
{
    let host = words.host()?;
    let len = words.bytes(out)?;
    words.end()?;
    let event = Event::Inject { host };
    Ok(Given::Event { event, len })
}

// The operand of `deliver`.
fn read_deliver(words: &mut Words<'_>) -> Result<Event, ScriptFault>
    ensures { deliver_given words.old ≡ bare_of result }
{
    let packet = words.number(u64::MAX)?;
    words.end()?;
    Ok(Event::Deliver { packet })
}

// The operands of `shift`.
fn read_shift(words: &mut Words<'_>) -> Result<Event, ScriptFault>
    ensures { shift_given words.old ≡ bare_of result }
{
    let host = words.host()?;
    let n = words.number(u64::from(u32::MAX))? as u32;
    words.end()?;
    Ok(Event::Shift { host, n })
}

// The operand of `turn`.
fn read_turn(words: &mut Words<'_>) -> Result<Event, ScriptFault>
    ensures { host_given Event.Turn words.old ≡ bare_of result }
{
    let host = words.host()?;
    words.end()?;
    Ok(Event::Turn { host })
}

// The operand of `restart`.
fn read_restart(words: &mut Words<'_>) -> Result<Event, ScriptFault>
    ensures { host_given Event.Restart words.old ≡ bare_of result }
{
    let host = words.host()?;
    words.end()?;
    Ok(Event::Restart { host })
}

// No operand.
fn read_clock(words: &mut Words<'_>) -> Result<Event, ScriptFault>
    ensures { alone (GivenEvent Event.Clock [], words.old) ≡ bare_of result }
{
    words.end()?;
    Ok(Event::Clock)
}

// The operand of `tick`, which may be left out.
fn read_tick(words: &mut Words<'_>) -> Result<u32, ScriptFault>
    ensures given { tick_given words.old ≡ ticks_of result }
    ensures some { IfOk result (λ n. 1 ≤ n) }
    ensures within { IfOk result (λ n. n ≤ 100000) }
{
    let Some(word) = words.next() else {
        return Ok(1);
    };
    let n = read_up_to(word, 100_000)?;
    if n == 0 {
        return Err(ScriptFault::BadNumber);
    }
    words.end()?;
    Ok(n as u32)
}

// An event without bytes.
fn bare(event: Event) -> Given
    ensures { result ≡ Given.Event event 0 }
{
    Given::Event { event, len: 0 }
}

// What stands behind an event's word.
fn read_given(
    word: EventWord,
    words: &mut Words<'_>,
    out: &mut Vec<u8>,
) -> Result<Given, ScriptFault>
    requires room { 1050000 ≤ vec_capacity out.old }
    ensures given { event_given (word_seen word) words.old ≡ given_of result out.new.items }
    ensures within { IfOk result (λ given. IsWithin given (length out.new.items)) }
    ensures most { IfOk result (λ given. IsWithin given 1050000) }
    ensures capacity { vec_capacity out.old ≤ vec_capacity out.new }
{
    match word {
        EventWord::Call => read_call(words, out),
        EventWord::Deliver => Ok(bare(read_deliver(words)?)),
        EventWord::Clock => Ok(bare(read_clock(words)?)),
        EventWord::Turn => Ok(bare(read_turn(words)?)),
        EventWord::Tick => Ok(Given::Ticks(read_tick(words)?)),
        EventWord::Restart => Ok(bare(read_restart(words)?)),
        EventWord::Inject => read_inject(words, out),
        EventWord::Shift => Ok(bare(read_shift(words)?)),
    }
}

/// What a line behind `go` stands for: nothing, where it has no words or is a comment. The bytes of
/// its event go to the front of `out`.
pub(crate) fn read_event_line(line: &[u8], out: &mut Vec<u8>) -> Result<Option<Given>, ScriptFault>
    requires short { length line.now ≤ 2100000 }
    requires room { 1050000 ≤ vec_capacity out.old }
    ensures phrase { phrase_of true (words_of line.now) ≡ phrase_given result out.new.items }
    ensures within { IfOk result (λ given. IfSome given (λ g. IsWithin g (length out.new.items))) }
    ensures most { IfOk result (λ given. IfSome given (λ g. IsWithin g 1050000)) }
    ensures capacity { vec_capacity out.old ≤ vec_capacity out.new }
{
    let mut words = Words::new(line);
    let Some(word) = words.next() else {
        return Ok(None);
    };
    if is_comment(word) {
        return Ok(None);
    }
    let Some(event) = read_event_word(word) else {
        return Err(ScriptFault::UnknownWord);
    };
    Ok(Some(read_given(event, &mut words, out)?))
}
