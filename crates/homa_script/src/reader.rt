// A reader of schedules.
ghost use Rattle.std.specs.Prelude.{◌≡◌, ◌≤◌, ◌<◌, ◌-◌, ◌^◌, ℕ, List, [], true, false, is_some, length, IfOk, IfErr, IfSome};
ghost use Rattle.std.specs.Result.{result_err};
ghost use Rattle.homa_io.specs.Outside.{HasRisen};
ghost use Rattle.homa_plain.specs.Settings.{IsValid};

use crate::event::Given;
use crate::next::Next;
use crate::read::{next_given, read_settings};
use homa_io::Source;
use homa_plain::Settings;
use script_lines::ScriptStop;
use std::alloc::{AllocError, Global};
use std::marker::Model;
use text_lines::Lines;

// The most bytes of a line, the line feed not counted.
const LONGEST_LINE: u32 = 2_100_000;

// Room for the bytes that a line can spell.
const ROOM: usize = 1_050_000;

// How far a reader has come.
#[derive(Clone, Copy)]
enum Stage {
    // `settings` wasn't called.
    Opened,
    // `go` was read.
    Started,
    // The end was answered.
    Ended,
    // The first stop.
    Stopped(ScriptStop),
}

/// A reader of a schedule: of its settings, and then of its events, one by one. All its memory is
/// taken where it is opened.
#[derive(Drop)]
pub struct Reader {
    lines: Lines,
    operand: Vec<u8>,
    len: usize,
    stage: Stage,
}

impl Model for Reader {
    ghost use Rattle.homa_script.specs.Script.{Script};

    ghost Value = { Script };

    ghost use Rattle.homa_script.specs.Inside.{script_of, IsSound};

    ghost view = { script_of };

    ghost invariant = { IsSound };
}

impl Reader {
    ghost use Rattle.script_lines.specs.Place.{IsCounted};
    ghost use Rattle.script_lines.specs.Stops.{is_read, has_failed_read};
    ghost use Rattle.script_lines.specs.Faults.{CountsFaults};
    ghost use Rattle.script_lines.specs.Taking.{TakesLines};
    ghost use Rattle.homa_script.specs.Script.{opened, has_operand, is_end, IsOpening, IsNext, IsInRange, IsOn};

    /// A reader of a schedule of at most `limit` bytes.
    pub fn open(alloc: Global, limit: u64) -> Result<Reader, AllocError>
        requires limit { limit < 2 ^ 64 - 1 }
        ensures { IfOk result (λ reader. reader ≡ opened limit) }
    {
        Ok(Reader {
            lines: Lines::open(alloc, limit, LONGEST_LINE)?,
            operand: Vec::with_capacity(alloc, ROOM)?,
            len: 0,
            stage: Stage::Opened,
        })
    }

    /// Reads up to `go`, and gives the settings that hold there. It is called once, before `next`.
    pub fn settings<S: Source>(&mut self, source: &mut S) -> Result<Settings, ScriptStop>
        requires first { self.old ≡ opened self.old.place.limit }

        // They are those of the definition, whatever stands behind; or its refusal.
        ensures settings { (bytes : List ℕ) → S.left source.old ≡ Some bytes → IsOpening self.old.place.limit self.new.place bytes (S.left source.new) result }
        ensures valid { IfOk result IsValid }

        // Behind the last line that it took no byte was read, but for at most 65,536 that are pending.
        ensures took { has_failed_read result ≡ false → TakesLines self.old.place self.new.place (S.left source.old) (S.left source.new) }
        ensures ahead { length self.new.place.pending ≤ 65536 }

        ensures started { self.new.started ≡ true }
        ensures not_ended { self.new.ended ≡ false }
        ensures stopped { self.new.stopped ≡ result_err result }
        ensures operand { self.new.operand ≡ [] }
        ensures counted { IfOk result (λ settings. IsCounted self.new.place) }
        ensures limit { self.new.place.limit ≡ self.old.place.limit }

        ensures faults { CountsFaults S.faults S.is_same (has_failed_read result) source.old source.new }
    {
        let answer = read_settings(&mut self.lines, source);
        self.stage = match answer {
            Ok(_) => Stage::Started,
            Err(stop) => Stage::Stopped(stop),
        };
        answer
    }

    /// Reads up to the next line with words, and gives what it stands for. It is called after
    /// `settings`, and not after it answered `End`. A reader that stopped answers its first stop.
    pub fn next<S: Source>(&mut self, source: &mut S) -> Result<Next, ScriptStop>
        requires started { self.old.started ≡ true }
        requires not_ended { self.old.ended ≡ false }

        // It is the next step of the definition, or its refusal or end, whatever stands behind.
        ensures next { self.old.stopped ≡ None → (bytes : List ℕ) → S.left source.old ≡ Some bytes
            → IsNext self.old.place self.new.place self.new.operand bytes (S.left source.new) result }

        // Behind the last line that it took no byte was read, but for at most 65,536 that are pending.
        ensures took { self.old.stopped ≡ None → has_failed_read result ≡ false
            → TakesLines self.old.place self.new.place (S.left source.old) (S.left source.new) }
        ensures ahead { self.old.stopped ≡ None → length self.new.place.pending ≤ 65536 }

        ensures started { self.new.started ≡ true }
        ensures ended { self.new.ended ≡ is_end result }
        ensures stopped { self.new.stopped ≡ result_err result }
        ensures operand { self.old.stopped ≡ None → has_operand result ≡ false → self.new.operand ≡ [] }
        ensures range { IfOk result IsInRange }
        ensures on { IfOk result (IsOn self.old.place self.new.place) }
        ensures limit { self.new.place.limit ≡ self.old.place.limit }

        // After a stop nothing is read.
        ensures again { IfSome self.old.stopped (λ stop. result ≡ Err stop) }
        ensures kept { is_some self.old.stopped ≡ true → (self.new ≡ self.old) × (source.new ≡ source.old) }

        ensures risen { self.old.stopped ≡ None → IfErr result (λ stop. is_read stop ≡ true → HasRisen (S.faults source.old) (S.faults source.new)) }
        ensures quiet { has_failed_read result ≡ false → S.faults source.new ≡ S.faults source.old }
        ensures never_falls { S.faults source.old ≤ S.faults source.new }
        ensures same { S.is_same source.old source.new }
    {
        if let Stage::Stopped(stop) = self.stage {
            return Err(stop);
        }
        self.len = 0;
        match next_given(&mut self.lines, source, &mut self.operand) {
            Ok(Some(Given::Event { event, len })) => {
                self.len = len;
                Ok(Next::Event(event))
            }
            Ok(Some(Given::Ticks(n))) => Ok(Next::Ticks(n)),
            Ok(None) => {
                self.stage = Stage::Ended;
                Ok(Next::End)
            }
            Err(stop) => {
                self.stage = Stage::Stopped(stop);
                Err(stop)
            }
        }
    }

    /// The bytes of the event that `next` answered last: of a call or of an injection; none of any
    /// other, nor before the first event or after a stop or the end. They are at most 1,050,000.
    pub fn bytes(&self) -> &[u8]
        ensures bytes { result.now ≡ self.now.operand }
        ensures fits { length result.now ≤ 1050000 }
    {
        &self.operand[..self.len]
    }

    /// The number of the last line that was read, counted from 1; at the end of the input it is one more.
    pub fn line(&self) -> u64
        ensures { result ≡ self.now.place.number }
    {
        self.lines.number()
    }
}
