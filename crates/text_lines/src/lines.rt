// The lines of an input, one at a time.
ghost use Rattle.std.specs.Prelude.{◌≡◌, ◌+◌, ◌-◌, ◌^◌, ◌<◌, ◌≤◌, ◌++◌, [], ℕ, List, true, false, length, min, IfOk, OnOk, OnErr};
ghost use Rattle.homa_io.specs.Outside.{HasRisen, unread, IsAtEnd};
ghost use Rattle.homa_plain.specs.Input.{has_no_feed};
ghost use Rattle.text_lines.specs.LineRoom.{room};
ghost use Rattle.text_lines.specs.declared.lines.LineGot.TheVariants.{End};

use crate::input::Input;
use crate::line_room::LineRoom;
use crate::scan::{Found, find_feed};
use homa_io::{ReadFailed, Source};
use std::alloc::{AllocError, Global};

/// What the next line is.
#[derive(Clone, Copy, Debug, PartialEq, Eq)]
pub enum LineGot {
    /// A line: `bytes` gives it.
    Line,
    /// It has more than `longest` bytes, a carriage return counted and the line feed not.
    Long,
    /// Byte number `limit + 1` of the input stands in it, its line feed included.
    Over,
    /// The input ends with no byte of a further line.
    End,
}

/// The lines of an input. A carriage return is a byte like any other.
#[derive(Drop)]
pub struct Lines {
    input: Input,
    line: LineRoom,
    read: u64,
    number: u64,
    limit: u64,
    longest: u32,
    ghost within: { read ≤ limit },
    ghost countable: { limit < 2 ^ 64 - 1 },
    ghost sized: { room line ≡ longest },
}

impl Lines {
    ghost use Rattle.text_lines.specs.Lines.{reading, IsNext};

    /// A reader of an input of at most `limit` bytes, fewer than 2^64 - 1, in lines of at most `longest`
    /// bytes, 4,100,000 or fewer, the line feed not counted. Room for the longest line is taken here, and none later.
    pub fn open(alloc: Global, limit: u64, longest: u32) -> Result<Lines, AllocError>
        requires longest { longest ≤ 4100000 }
        requires limit { limit < 2 ^ 64 - 1 }
        ensures { IfOk result (λ lines. reading lines ≡ record { pending = []; line = []; read = 0; number = 0; limit = limit; longest = longest }) }
    {
        Ok(Lines {
            input: Input::open(alloc)?,
            line: LineRoom::open(alloc, longest as usize)?,
            read: 0,
            number: 0,
            limit,
            longest,
        })
    }

    /// Reads the next line. The source is read in parts of up to 64 KiB, and only where no byte is
    /// pending, so not where the line is pending whole. After an error the bytes of the line that came are
    /// lost, and nothing is counted.
    pub fn next<S: Source>(&mut self, source: &mut S) -> Result<LineGot, ReadFailed>
        ensures next { IfOk result (λ got. (came : List ℕ) × (S.left source.old ≡ unread came (S.left source.new))
            × IsNext (reading self.old) (reading self.new) came (IsAtEnd (S.left source.new)) got) }
        ensures number { OnOk result ((reading self.new).number ≡ min ((reading self.old).number + 1) (2 ^ 64 - 1)) }

        // The two limits stay.
        ensures limit { (reading self.new).limit ≡ (reading self.old).limit }
        ensures longest { (reading self.new).longest ≡ (reading self.old).longest }

        // An error counts no bytes and no line.
        ensures read { OnErr result ((reading self.new).read ≡ (reading self.old).read) }
        ensures uncounted { OnErr result ((reading self.new).number ≡ (reading self.old).number) }

        ensures err { OnErr result ((came : List ℕ) × (S.left source.old ≡ unread came (S.left source.new))) }

        // Where a line feed is pending nothing is read. An error comes in the midst of a line.
        ensures stays { has_no_feed (reading self.old).pending ≡ false → source.new ≡ source.old }
        ensures unended { OnErr result ((came : List ℕ) × (S.left source.old ≡ unread came (S.left source.new))
            × (has_no_feed ((reading self.old).pending ++ came) ≡ true)) }

        // At the end nothing is read and nothing is pending.
        ensures ends { IfOk result (λ got. got ≡ End → (S.left source.new ≡ S.left source.old) × ((reading self.new).pending ≡ [])) }

        ensures ahead { length (reading self.new).pending ≤ 65536 }

        ensures risen { OnErr result (HasRisen (S.faults source.old) (S.faults source.new)) }
        ensures quiet { OnOk result (S.faults source.new ≡ S.faults source.old) }
        ensures never_falls { S.faults source.old ≤ S.faults source.new }
        ensures same { S.is_same source.old source.new }
    {
        let most = (self.limit - self.read) as usize;
        let found = find_feed(&mut self.input, source, &mut self.line, most)?;
        self.number = self.number.saturating_add(1);
        match found {
            Found::Over => Ok(LineGot::Over),
            Found::Line { len, size } => {
                if size == 0 {
                    return Ok(LineGot::End);
                }
                self.read += size as u64;
                if len > self.longest as usize {
                    return Ok(LineGot::Long);
                }
                Ok(LineGot::Line)
            }
        }
    }

    /// The last line, without its line feed, where `next` answered `Line`; otherwise the bytes that were kept of what came.
    pub fn bytes(&self) -> &[u8]
        ensures { result.now ≡ (reading self.now).line }
    {
        self.line.bytes()
    }

    /// How many lines came: the number of the last one, counted from 1. It stays at 2^64 - 1.
    pub fn number(&self) -> u64
        ensures { result ≡ (reading self.now).number }
    {
        self.number
    }
}
