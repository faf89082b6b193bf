// The replay of a schedule.
ghost use Rattle.std.specs.Prelude.{◌≡◌, ◌≤◌, ◌+◌, ◌*◌, ◌^◌, ℕ, List, [], Some, None, Ok, true, false, IfOk, IfErr, IfSome, OnOk, OnErr, IsErrOf};
ghost use Rattle.homa_io.specs.Outside.{HasRisen, appended, TookFront};
ghost use Rattle.homa_plain.specs.Entries.{PlainSettings, PlainRefused, IsCause};
ghost use Rattle.homa_plain.specs.Text.{line_text};
ghost use Rattle.homa_plain.specs.Settings.{IsValid};
ghost use Rattle.homa_plain.specs.Script.{Opened, opening};
ghost use Rattle.homa_plain.specs.Replay.{events_of};
ghost use Rattle.script_lines.specs.Place.{IsCounted};
ghost use Rattle.homa_script.specs.Steps.{steps_left};
ghost use Rattle.script_lines.specs.Read.{IsRead};
ghost use Rattle.script_lines.specs.Taking.{TakesLines};
ghost use Rattle.homa_script.specs.Script.{opened, IsInRange};
ghost use Rattle.homa_plain.specs.World.{World};
ghost use Rattle.homa_replay.specs.Playing.{Plays};
ghost use Rattle.homa_replay.specs.NextLine.{given_of, line_events, is_end};
ghost use Rattle.homa_replay.specs.Progress.{left_at, replay_of, is_unasked, ArePrinted, AreParts};
ghost use Rattle.homa_replay.specs.RefusedReads.{RefusesLast};
ghost use Rattle.homa_replay.specs.Stops.{prints_all};
ghost use Rattle.homa_replay.specs.Faults.{OnlyWrites, LeavesBoth};

use crate::ahead::read_ahead;
use crate::lines::{play, play_ticks};
use crate::{FlushSink, ReplayWorld, Stop};
use homa_io::{Sink, Source};
use homa_plain::{Entry, LONGEST_INPUT, LineFault, Settings, WorldFault};
use homa_script::{Next, Reader};
use homa_text::put_entry;
use std::alloc::Global;

// Carries out a line behind `go`, and answers why the world refuses it, if it does.
fn play_line<P: ReplayWorld, K: FlushSink>(
    alloc: Global,
    world: &mut P,
    sink: &mut K,
    hosts: u32,
    next: &Next,
    bytes: &[u8],
) -> Result<Option<WorldFault>, Stop>
    requires hosts { hosts ≤ 32 }
    requires few { P.events world.old + line_events hosts next.now ≤ 2 ^ 57 }
    ensures plays { Plays (P.settings world.old) (events_of hosts (given_of next.now bytes.now)) (P.stands world.old) (P.stands world.new)
        (P.allows world.old) (P.allows world.new) (K.taken sink.old) (K.taken sink.new) result }
    ensures settings { P.settings world.new ≡ P.settings world.old }
    ensures counted { P.events world.new ≤ P.events world.old + line_events hosts next.now }
    ensures sink { OnlyWrites K.faults K.is_same result sink.old sink.new }
{
    match next {
        Next::Event(event) => play(alloc, world, sink, event, bytes),
        Next::Ticks(n) => play_ticks(alloc, world, sink, hosts, *n),
        Next::End => Ok(None),
    }
}

// Whether the input ended.
fn is_end(next: &Next) -> bool
    ensures { result ≡ is_end next.now }
{
    matches!(next, Next::End)
}

// How many events a line has.
fn line_events(next: &Next, hosts: u32) -> u64
    requires hosts { hosts ≤ 32 }
    requires range { IsInRange next.now }
    ensures { result ≡ line_events hosts next.now }
{
    match next {
        Next::Event(_) => 1,
        Next::Ticks(n) => u64::from(*n) * u64::from(hosts + 1),
        Next::End => 0,
    }
}

// Prints that a line is refused.
fn put_refused<K: Sink>(sink: &mut K, line: u64, fault: LineFault) -> Result<bool, Stop>
    requires { IsCause fault }
    ensures ok { OnOk result (K.taken sink.new ≡ appended (K.taken sink.old) (line_text (PlainRefused line fault))) }
    ensures refused { IfOk result (λ accepted. accepted ≡ false) }
    ensures err { OnErr result (TookFront (K.taken sink.old) (K.taken sink.new) (line_text (PlainRefused line fault))) }
    ensures write { IsErrOf result Stop.Write → HasRisen (K.faults sink.old) (K.faults sink.new) }
    ensures stop { IfErr result (λ stop. stop ≡ Stop.Write) }
    ensures memory { IsErrOf result Stop.NoMemory → ⊥ }
    ensures read { IsErrOf result Stop.Read → ⊥ }
    ensures quiet { OnOk result (K.faults sink.new ≡ K.faults sink.old) }
    ensures same { K.is_same sink.old sink.new }
{
    put_entry(sink, &Entry::Refused { line, fault })?;
    Ok(false)
}

/// Reads the settings of a schedule up to `go`, and prints their line; or prints why a line is refused, and answers None.
/// It is called once, before `carry_on`.
pub fn begin<S: Source, K: FlushSink>(
    reader: &mut Reader,
    source: &mut S,
    sink: &mut K,
) -> Result<Option<Settings>, Stop>
    requires { reader.old ≡ opened LONGEST_INPUT }
    ensures opened { IfOk result (λ r. IfSome r (λ s. (bytes : List ℕ) → S.left source.old ≡ Some bytes
        → IsRead bytes (S.left source.new) (opening LONGEST_INPUT) (λ more. Opened s (steps_left reader.new.place more)))) }
    ensures line { IfOk result (λ r. IfSome r (λ s. K.taken sink.new ≡ appended (K.taken sink.old) (line_text (PlainSettings s)))) }
    ensures valid { IfOk result (λ r. IfSome r IsValid) }
    ensures refused { result ≡ Ok None → (boxes : ℕ) → ArePrinted (replay_of boxes) (S.left source.old) (K.taken sink.old) (K.taken sink.new) is_unasked false }
    ensures part { IfErr result (λ stop. (boxes : ℕ)
        → AreParts (replay_of boxes) (S.left source.old) (S.left source.new) (K.taken sink.old) (K.taken sink.new) is_unasked (prints_all stop)) }
    ensures front { result ≡ Ok None → (boxes : ℕ)
        → AreParts (replay_of boxes) (S.left source.old) (S.left source.new) (K.taken sink.old) (K.taken sink.new) is_unasked false }
    ensures took { OnOk result (TakesLines reader.old.place reader.new.place (S.left source.old) (S.left source.new)) }
    ensures behind { result ≡ Ok None
        → RefusesLast reader.old.place reader.new.place (S.left source.old) (S.left source.new) (K.taken sink.old) (K.taken sink.new) }

    ensures started { reader.new.started ≡ true }
    ensures not_ended { reader.new.ended ≡ false }
    ensures running { IfOk result (λ r. IfSome r (λ s. reader.new.stopped ≡ None)) }
    ensures counted { IfOk result (λ r. IfSome r (λ s. IsCounted reader.new.place)) }
    ensures limit { reader.new.place.limit ≡ LONGEST_INPUT }

    ensures left { LeavesBoth S.faults S.is_same K.faults K.is_same K.held source.old source.new sink.old sink.new result }
    ensures memory { IsErrOf result Stop.NoMemory → ⊥ }
{
    match read_ahead::<Settings, S, K>(reader, source, sink)? {
        Ok(settings) => {
            put_entry(sink, &Entry::Settings(settings))?;
            Ok(Some(settings))
        }
        Err(fault) => {
            put_refused(sink, reader.line(), LineFault::Script(fault))?;
            Ok(None)
        }
    }
}

/// Carries out the lines behind `go` in a world in which nothing has happened, and prints what they tell. True where no line
/// is refused, and the input was then read to its end.
pub fn carry_on<P: ReplayWorld, S: Source, K: FlushSink>(
    alloc: Global,
    reader: &mut Reader,
    source: &mut S,
    sink: &mut K,
    world: &mut P,
    hosts: u32,
) -> Result<bool, Stop>
    requires started { reader.old.started ≡ true }
    requires not_ended { reader.old.ended ≡ false }
    requires running { reader.old.stopped ≡ None }
    requires counted { IsCounted reader.old.place }
    requires limit { reader.old.place.limit ≡ LONGEST_INPUT }
    requires first { P.events world.old ≡ 0 }
    requires hosts { hosts ≡ (P.settings world.old).hosts }
    requires few { hosts ≤ 32 }
    ensures printed { IfOk result (λ accepted. (w : World) → P.stands world.old w
        → ArePrinted (left_at (P.settings world.old) w 0 reader.old.place) (S.left source.old) (K.taken sink.old) (K.taken sink.new)
        (P.allows world.old) accepted) }
    ensures to_end { result ≡ Ok true → (w : World) → P.stands world.old w → (bytes : List ℕ) → S.left source.old ≡ Some bytes → S.left source.new ≡ Some [] }
    ensures part { IfErr result (λ stop. (w : World) → P.stands world.old w
        → AreParts (left_at (P.settings world.old) w 0 reader.old.place) (S.left source.old) (S.left source.new) (K.taken sink.old) (K.taken sink.new)
        (P.allows world.old) (prints_all stop)) }
    ensures front { OnOk result ((w : World) → P.stands world.old w
        → AreParts (left_at (P.settings world.old) w 0 reader.old.place) (S.left source.old) (S.left source.new) (K.taken sink.old) (K.taken sink.new)
        (P.allows world.old) false) }
    ensures behind { result ≡ Ok false → (w : World) → P.stands world.old w → (bytes : List ℕ) → S.left source.old ≡ Some bytes
        → RefusesLast reader.old.place reader.new.place (S.left source.old) (S.left source.new) (K.taken sink.old) (K.taken sink.new) }

    ensures left { LeavesBoth S.faults S.is_same K.faults K.is_same K.held source.old source.new sink.old sink.new result }
{
    let mut events: u64 = 0;
    'lines: loop {
        let next = match read_ahead::<Next, S, K>(reader, source, sink)? {
            Ok(next) => next,
            Err(fault) => {
                put_refused(sink, reader.line(), LineFault::Script(fault))?;
                return Ok(false);
            }
        };
        if is_end(&next) {
            put_entry(sink, &Entry::Finished { n: events })?;
            return Ok(true);
        }
        let refused = play_line(alloc, world, sink, hosts, &next, reader.bytes())?;
        if let Some(fault) = refused {
            put_refused(sink, reader.line(), LineFault::World(fault))?;
            return Ok(false);
        }
        events += line_events(&next, hosts);
    }
}
