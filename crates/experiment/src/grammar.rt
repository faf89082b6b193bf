// What a line says, by its words.
ghost use Rattle.std.specs.Prelude.{◌≡◌, ◌≤◌, length, IfOk};
ghost use Rattle.homa_plain.specs.Input.{words_of};
ghost use Rattle.experiment.specs.Grammar.{in_range, with_words, number_between, last, host_given, moment_given, length_with};
ghost use Rattle.experiment.specs.Grammar.{setting_given, amount_given, workload_given, size_given, length_given, cumulative_given, card_of, card_given};
ghost use Rattle.experiment.specs.Grammar.{hot_given, restart_given, call_given, inject_given, shift_given, verb_given, other_given, line_of};
ghost use Rattle.experiment.specs.Ranges.{IsWithin};
ghost use Rattle.experiment.specs.Verbs.{verbs, verb_in};
ghost use Rattle.homa_plain.specs.Numbers.{number_of};

use crate::amounts::{Amount, BYTE_AT_ONE, NANO, read_amount};
use crate::fault::{Refusal, Wrong};
use crate::load::Hot;
use crate::marks::{Injection, ListedCall, Restarting, Shifting};
use crate::network::Card;
use crate::statement::Statement;
use crate::verbs::{Verb, read_verb};
use homa_plain::{HostId, Name};
use script_lines::{Words, is_comment};
use text_lines::{read_name, read_number};

// The most bytes of a message.
const MOST_LENGTH: u64 = 1_000_000;

// The most shares of a step.
const MOST_SHARE: u64 = 1_000_000;

// The latest moment that a line may say, in nanoseconds: after a day.
const DAY: u64 = 86_400_000_000_000;

// The most bytes of a datagram that is injected.
const MOST_INJECTED: u64 = 1500;

// The most ticks by which a clock is set ahead.
const MOST_SHIFT: u64 = 2000;

// What is wrong in a word.
fn refused(word: u32, wrong: Wrong) -> Refusal
    ensures { result ≡ record { word = word; wrong = wrong } }
{
    Refusal { word, wrong }
}

// A word, which is this one of its line, as a number of a range.
fn ranged(text: &[u8], word: u32, least: u64, most: u64) -> Result<u64, Refusal>
    ensures given { result ≡ in_range word least most (number_of text.now) }
    ensures least { IfOk result (λ n. least ≤ n) }
    ensures most { IfOk result (λ n. n ≤ most) }
{
    match read_number(text) {
        Some(n) if least <= n && n <= most => Ok(n),
        _ => Err(refused(word, Wrong::Outside(least, most))),
    }
}

// The next word as such a number.
fn number(words: &mut Words<'_>, word: u32, least: u64, most: u64) -> Result<u64, Refusal>
    ensures given { number_between word least most words.old ≡ with_words result words.new }
    ensures least { IfOk result (λ n. least ≤ n) }
    ensures most { IfOk result (λ n. n ≤ most) }
{
    match words.next() {
        None => Err(refused(word, Wrong::Missing)),
        Some(text) => ranged(text, word, least, most),
    }
}

// That no word is left, where the next one would be this one of its line.
fn end(words: &mut Words<'_>, word: u32) -> Result<(), Refusal>
    ensures { result ≡ last word words.old }
{
    match words.next() {
        None => Ok(()),
        Some(_) => Err(refused(word, Wrong::Extra)),
    }
}

// A host's number.
fn host(words: &mut Words<'_>, word: u32) -> Result<HostId, Refusal>
    ensures given { host_given word words.old ≡ with_words result words.new }
    ensures most { IfOk result (λ host. host.0 ≤ 31) }
{
    Ok(HostId(number(words, word, 0, 31)? as u16))
}

// A moment, in nanoseconds.
fn moment(words: &mut Words<'_>, word: u32) -> Result<u64, Refusal>
    ensures given { moment_given word words.old ≡ with_words result words.new }
    ensures most { IfOk result (λ at. at ≤ 86400000000000000) }
{
    Ok(number(words, word, 0, DAY)? * NANO)
}

// A setting's number.
fn setting(name: Name, words: &mut Words<'_>) -> Result<Statement, Refusal>
    ensures given { setting_given name words.old ≡ result }
    ensures within { IfOk result IsWithin }
{
    let n = number(words, 2, 0, u64::from(u32::MAX))? as u32;
    end(words, 3)?;
    Ok(Statement::Setting(name, n))
}

// An amount's number.
fn amount(amount: Amount, words: &mut Words<'_>) -> Result<Statement, Refusal>
    ensures given { amount_given amount words.old ≡ result }
    ensures within { IfOk result IsWithin }
{
    let (least, most) = amount.range();
    let n = number(words, 2, least, most)?;
    if amount == Amount::Link && BYTE_AT_ONE % n != 0 {
        return Err(refused(2, Wrong::Uneven));
    }
    end(words, 3)?;
    Ok(Statement::Amount(amount, n))
}

// `workload NUMBER`.
fn workload(words: &mut Words<'_>) -> Result<Statement, Refusal>
    ensures given { workload_given words.old ≡ result }
    ensures within { IfOk result IsWithin }
{
    let n = number(words, 2, 1, 5)? as u32;
    end(words, 3)?;
    Ok(Statement::Workload(n))
}

// `size UPTO SHARE`.
fn size(words: &mut Words<'_>) -> Result<Statement, Refusal>
    ensures given { size_given words.old ≡ result }
    ensures within { IfOk result IsWithin }
{
    let upto = number(words, 2, 1, MOST_LENGTH)? as u32;
    let share = number(words, 3, 1, MOST_SHARE)? as u32;
    end(words, 4)?;
    Ok(Statement::Size { upto, share })
}

// A length with its share, which is 1 if no word is left.
fn length_with(upto: u32, words: &mut Words<'_>) -> Result<Statement, Refusal>
    requires some { 1 ≤ upto }
    requires most { upto ≤ 1000000 }
    ensures given { length_with upto words.old ≡ result }
    ensures within { IfOk result IsWithin }
{
    match words.next() {
        None => Ok(Statement::Length { upto, share: 1 }),
        Some(text) => {
            let share = ranged(text, 3, 1, MOST_SHARE)? as u32;
            end(words, 4)?;
            Ok(Statement::Length { upto, share })
        }
    }
}

// `length BYTES` and `length BYTES SHARE`.
fn one_length(words: &mut Words<'_>) -> Result<Statement, Refusal>
    ensures given { length_given words.old ≡ result }
    ensures within { IfOk result IsWithin }
{
    let upto = number(words, 2, 1, MOST_LENGTH)? as u32;
    length_with(upto, words)
}

// `cumulative UPTO MILLIONTHS`.
fn cumulative(words: &mut Words<'_>) -> Result<Statement, Refusal>
    ensures given { cumulative_given words.old ≡ result }
    ensures within { IfOk result IsWithin }
{
    let upto = number(words, 2, 1, MOST_LENGTH)? as u32;
    let sum = number(words, 3, 1, MOST_SHARE)? as u32;
    end(words, 4)?;
    Ok(Statement::Cumulative { upto, sum })
}

// The card that a word names.
fn named_card(word: &[u8]) -> Option<Card>
    ensures { result ≡ card_of word.now }
{
    match word {
        b"fifo" => Some(Card::Fifo),
        b"levels" => Some(Card::Levels),
        b"srpt" => Some(Card::Srpt),
        _ => None,
    }
}

// `card fifo`, `card levels` or `card srpt`.
fn card(words: &mut Words<'_>) -> Result<Statement, Refusal>
    ensures given { card_given words.old ≡ result }
    ensures within { IfOk result IsWithin }
{
    let Some(text) = words.next() else {
        return Err(refused(2, Wrong::Missing));
    };
    let Some(card) = named_card(text) else {
        return Err(refused(2, Wrong::Card));
    };
    end(words, 3)?;
    Ok(Statement::Card(card))
}

// `hot HOST SHARE`.
fn hot(words: &mut Words<'_>) -> Result<Statement, Refusal>
    ensures given { hot_given words.old ≡ result }
    ensures within { IfOk result IsWithin }
{
    let host = host(words, 2)?;
    let share = number(words, 3, 0, 1000)? as u32;
    end(words, 4)?;
    Ok(Statement::Hot(Hot { host, share }))
}

// `restart HOST NANOSECONDS`.
fn restart(line: u64, words: &mut Words<'_>) -> Result<Statement, Refusal>
    ensures given { restart_given line words.old ≡ result }
    ensures within { IfOk result IsWithin }
{
    let host = host(words, 2)?;
    let at = moment(words, 3)?;
    end(words, 4)?;
    Ok(Statement::Restart(Restarting { host, at, line }))
}

// `call CLIENT SERVER BYTES NANOSECONDS`.
fn call(line: u64, words: &mut Words<'_>) -> Result<Statement, Refusal>
    ensures given { call_given line words.old ≡ result }
    ensures within { IfOk result IsWithin }
{
    let client = host(words, 2)?;
    let server = host(words, 3)?;
    if client == server {
        return Err(refused(3, Wrong::SelfCall));
    }
    let bytes = number(words, 4, 1, MOST_LENGTH)? as u32;
    let at = moment(words, 5)?;
    end(words, 6)?;
    Ok(Statement::Call(ListedCall {
        client,
        server,
        bytes,
        at,
        line,
    }))
}

// `inject HOST BYTES NANOSECONDS`.
fn inject(line: u64, words: &mut Words<'_>) -> Result<Statement, Refusal>
    ensures given { inject_given line words.old ≡ result }
    ensures within { IfOk result IsWithin }
{
    let host = host(words, 2)?;
    let bytes = number(words, 3, 0, MOST_INJECTED)? as u32;
    let at = moment(words, 4)?;
    end(words, 5)?;
    Ok(Statement::Inject(Injection {
        host,
        bytes,
        at,
        line,
    }))
}

// `shift HOST TICKS NANOSECONDS`.
fn shift(line: u64, words: &mut Words<'_>) -> Result<Statement, Refusal>
    ensures given { shift_given line words.old ≡ result }
    ensures within { IfOk result IsWithin }
{
    let host = host(words, 2)?;
    let ticks = number(words, 3, 0, MOST_SHIFT)? as u32;
    let at = moment(words, 4)?;
    end(words, 5)?;
    Ok(Statement::Shift(Shifting {
        host,
        ticks,
        at,
        line,
    }))
}

// A line that says this.
fn verb(line: u64, verb: Verb, words: &mut Words<'_>) -> Result<Statement, Refusal>
    ensures given { verb_given line verb words.old ≡ result }
    ensures within { IfOk result IsWithin }
{
    match verb {
        Verb::Workload => workload(words),
        Verb::Size => size(words),
        Verb::Length => one_length(words),
        Verb::Cumulative => cumulative(words),
        Verb::Card => card(words),
        Verb::Hot => hot(words),
        Verb::Restart => restart(line, words),
        Verb::Call => call(line, words),
        Verb::Inject => inject(line, words),
        Verb::Shift => shift(line, words),
    }
}

// A line whose first word names no setting and no amount.
fn other(line: u64, word: &[u8], words: &mut Words<'_>) -> Result<Statement, Refusal>
    ensures given { other_given line (verb_in verbs word.now) words.old ≡ result }
    ensures within { IfOk result IsWithin }
{
    match read_verb(word) {
        Some(said) => verb(line, said, words),
        None => Err(refused(1, Wrong::UnknownName)),
    }
}

/// What a line of this number stands for.
pub(crate) fn read_line(line: u64, text: &[u8]) -> Result<Statement, Refusal>
    requires { length text.now ≤ 2100000 }
    ensures given { line_of line (words_of text.now) ≡ result }
    ensures within { IfOk result IsWithin }
{
    let mut words = Words::new(text);
    let Some(word) = words.next() else {
        return Ok(Statement::Blank);
    };
    if is_comment(word) {
        return Ok(Statement::Blank);
    }
    if let Some(name) = read_name(word) {
        return setting(name, &mut words);
    }
    match read_amount(word) {
        Some(named) => amount(named, &mut words),
        None => other(line, word, &mut words),
    }
}
