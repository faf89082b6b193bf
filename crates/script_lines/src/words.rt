// The words of a line, one after another, and the operands that they are.
ghost use Rattle.std.specs.Prelude.{◌≡◌, ◌≤◌, ◌+◌, ◌==◌, ◌∷◌, [], length, vec_capacity, IfOk, IfSome, IfNone};
ghost use Rattle.std.specs.List.{position_or_len};
ghost use Rattle.homa_plain.specs.Input.{words_of};
ghost use Rattle.homa_plain.specs.Numbers.{number_of};
ghost use Rattle.homa_plain.specs.Script.{is_comment, number_up_to, number_at_most, host_operand, bytes_operand};
ghost use Rattle.script_lines.specs.Operands.{with_words, taken, end_of};

use homa_plain::{HostId, ScriptFault};
use std::marker::Model;
use text_lines::{read_bytes, read_number};

// How many bytes stand before the first space, or the end.
fn word_len(line: &[u8]) -> usize
    ensures value { result ≡ position_or_len (λ b. b == 32) line.now }
    ensures within { result ≤ length line.now }
{
    line.iter().position(|b| *b == b' ').unwrap_or(line.len())
}

// The first word, and what stands behind it.
fn split_word(line: &[u8]) -> Option<(&[u8], &[u8])>
    ensures some { IfSome result (λ split. words_of line.now ≡ split.0.now ∷ words_of split.1.now) }
    ensures none { IfNone result (words_of line.now ≡ []) }
    ensures short { IfSome result (λ split. length split.0.now + length split.1.now ≤ length line.now) }
{
    for (i, b) in line.iter().enumerate() {
        if *b != b' ' {
            let word = &line[i..];
            return Some(word.split_at(word_len(word)));
        }
    }
    None
}

/// Tells whether a word begins a comment: its first byte is `#`.
pub fn is_comment(word: &[u8]) -> bool
    ensures { result ≡ is_comment word.now }
{
    matches!(word, [b'#', ..])
}

/// A word as a number of at most `most`.
pub fn read_up_to(word: &[u8], most: u64) -> Result<u64, ScriptFault>
    ensures value { result ≡ number_up_to most (number_of word.now) }
    ensures within { IfOk result (λ n. n ≤ most) }
{
    match read_number(word) {
        Some(n) if n <= most => Ok(n),
        _ => Err(ScriptFault::BadNumber),
    }
}

/// What is left of a line of at most 2,100,000 bytes. Contracts see the list of its words.
#[derive(Drop)]
pub struct Words<'a> {
    rest: &'a [u8],
}

impl<'a> Model for Words<'a> {
    ghost use Rattle.std.specs.Prelude.{ℕ, List, length, ◌≤◌};
    ghost use Rattle.homa_plain.specs.Input.{words_of};

    ghost Value = { List (List ℕ) };

    ghost view = { λ w. words_of w.rest.now };

    ghost invariant = { λ w. length w.rest.now ≤ 2100000 };
}

impl<'a> Words<'a> {
    /// The words of this line.
    pub fn new(line: &'a [u8]) -> Words<'a>
        requires { length line.now ≤ 2100000 }
        ensures { result ≡ words_of line.now }
    {
        Words { rest: line }
    }

    /// The next word.
    pub fn next(&mut self) -> Option<&'a [u8]>
        ensures some { IfSome result (λ word. self.old ≡ word.now ∷ self.new) }
        ensures none { IfNone result (self.old ≡ []) }
        ensures short { IfSome result (λ word. length word.now ≤ 2100000) }
    {
        let (word, rest) = split_word(self.rest)?;
        self.rest = rest;
        Some(word)
    }

    /// The next word as a number of at most `most`.
    pub fn number(&mut self, most: u64) -> Result<u64, ScriptFault>
        ensures operand { number_at_most most self.old ≡ with_words result self.new }
        ensures within { IfOk result (λ n. n ≤ most) }
    {
        match self.next() {
            None => Err(ScriptFault::Missing),
            Some(word) => read_up_to(word, most),
        }
    }

    /// The next word as a host's number, at most 65,535.
    pub fn host(&mut self) -> Result<HostId, ScriptFault>
        ensures { host_operand self.old ≡ with_words result self.new }
    {
        Ok(HostId(self.number(65535)? as u16))
    }

    /// The next word as bytes, which go to the front of `out`, and how many they are.
    pub fn bytes(&mut self, out: &mut Vec<u8>) -> Result<usize, ScriptFault>
        requires room { 1050000 ≤ vec_capacity out.old }
        ensures operand { bytes_operand self.old ≡ with_words (taken result out.new.items) self.new }
        ensures fits { IfOk result (λ n. n ≤ length out.new.items) }
        ensures most { IfOk result (λ n. n ≤ 1050000) }
        ensures capacity { vec_capacity out.old ≤ vec_capacity out.new }
    {
        match self.next() {
            None => Err(ScriptFault::Missing),
            Some(word) => read_bytes(word, out),
        }
    }

    /// That no word is left.
    pub fn end(&mut self) -> Result<(), ScriptFault>
        ensures { result ≡ end_of self.old }
    {
        match self.next() {
            None => Ok(()),
            Some(_) => Err(ScriptFault::Extra),
        }
    }
}
