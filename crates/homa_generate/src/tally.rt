//! How many lines of each kind a trace has.
ghost use Rattle.std.specs.Prelude.{◌≡◌, ◌<◌, Some, OnOk, OnErr, slice_get};
ghost use Rattle.homa_io.specs.Writing.{IsWritten};
ghost use Rattle.homa_generate.specs.Counts.{IsFullOf, kinds, name, place, one_more, no_counts, counts_text};

use homa_io::{Sink, WriteFailed};
use homa_plain::Kind;
use homa_world::LineKind;
use std::alloc::AllocError;
use std::marker::Model;
use written_lines::Word::{Number, Text};
use written_lines::put_line;

// How many kinds of lines are counted.
const COUNT: usize = 15;

// The kinds of lines that tell of no packet's sending, in the order of the summary. Those of packets stand behind them.
const STEPS: [LineKind; 7] = [
    LineKind::Call,
    LineKind::Run,
    LineKind::Done,
    LineKind::Timeout,
    LineKind::Forgotten,
    LineKind::Deliver,
    LineKind::Clock,
];

// The kind at a place of the summary.
fn kind_at(place: usize) -> LineKind
    requires { place < 15 }
    ensures { slice_get kinds place ≡ Some result }
{
    if place < STEPS.len() {
        return STEPS[place];
    }
    LineKind::Sent(Kind::ALL[place - STEPS.len()])
}

// A kind's place in the summary.
fn place_of(kind: LineKind) -> usize
    ensures place { result ≡ place kind }
    ensures inside { result < 15 }
{
    match kind {
        LineKind::Call => 0,
        LineKind::Run => 1,
        LineKind::Done => 2,
        LineKind::Timeout => 3,
        LineKind::Forgotten => 4,
        LineKind::Deliver => 5,
        LineKind::Clock => 6,
        LineKind::Sent(kind) => 6 + usize::from(kind.number()),
    }
}

// A kind's name in the summary.
fn name_of(kind: LineKind) -> &'static [u8]
    ensures { result.now ≡ name kind }
{
    match kind {
        LineKind::Call => b"calls",
        LineKind::Run => b"runs",
        LineKind::Done => b"done",
        LineKind::Timeout => b"timeout",
        LineKind::Forgotten => b"forgotten",
        LineKind::Deliver => b"deliver",
        LineKind::Clock => b"clock",
        LineKind::Sent(kind) => kind.word(),
    }
}

/// How many lines of each kind a trace has, in the order of its summary.
#[derive(Drop)]
pub struct Counts {
    numbers: [u64; COUNT],
}

impl Model for Counts {
    ghost use Rattle.std.specs.Prelude.{ℕ, List};

    ghost Value = { List ℕ };

    ghost view = { λ c. c.numbers };
}

impl Counts {
    /// No line was counted.
    pub fn new() -> Counts
        ensures { result ≡ no_counts }
    {
        Counts {
            numbers: [0; COUNT],
        }
    }

    /// Counts a line of this kind, if it is one. Fails where its number has no room left, and then counts nothing.
    pub fn note_kind(&mut self, kind: Option<LineKind>) -> Result<(), AllocError>
        ensures ok { OnOk result (self.new ≡ one_more self.old kind) }
        ensures full { OnErr result (IsFullOf self.old kind) }
        ensures same { OnErr result (self.new ≡ self.old) }
    {
        if let Some(kind) = kind {
            let number = &mut self.numbers[place_of(kind)];
            *number = number.checked_add(1).ok_or(AllocError)?;
        }
        Ok(())
    }

    /// Writes the summary: a line for each kind, with its name and its number. After an error the sink took a front
    /// of it.
    pub fn put<K: Sink>(&self, sink: &mut K) -> Result<(), WriteFailed>
        ensures { IsWritten K.taken K.faults K.is_same result sink.old sink.new (counts_text self.now) }
    {
        for place in 0..COUNT {
            let kind = kind_at(place);
            put_line(
                sink,
                &[Text(name_of(kind)), Number(self.numbers[place_of(kind)])],
            )?;
        }
        Ok(())
    }
}
