// The replay of a schedule, from its settings to its last line.
ghost use Rattle.std.specs.Prelude.{◌≡◌, ℕ, List, [], ◌∷◌, Some, Ok, true, false, IfOk, IfErr, OnOk, OnErr, IsErrOf};
ghost use Rattle.homa_io.specs.Outside.{HasRisen, Grows, appended};
ghost use Rattle.homa_io.specs.Held.{sink_below, held_bytes};
ghost use Rattle.homa_plain.specs.Entries.{PlainEntry, PlainSettings};
ghost use Rattle.homa_plain.specs.Settings.{IsValid};
ghost use Rattle.homa_plain.specs.Answers.{shown};
ghost use Rattle.homa_replay.specs.OpenWorld.{IsOpened, may_write};
ghost use Rattle.homa_replay.specs.RefusedReads.{IsReadUpTo};
ghost use Rattle.homa_replay.specs.Stops.{prints_all};
ghost use Rattle.homa_replay.specs.Faults.{AreFaults, LeavesBoth};
ghost use Rattle.homa_replay.specs.Replayed.{IsReplayed};
ghost use Rattle.homa_replay.specs.Progress.{replay_of, ArePrinted, AreParts};

use crate::{FlushSink, ReplayWorld, Stop, begin, carry_on};
use homa_io::{HeldSink, Room, Sink, Source};
use homa_plain::{LONGEST_INPUT, Settings};
use homa_script::Reader;
use std::alloc::{AllocError, Global};

/// A world that is opened with boxes `B`, in which services answer.
pub trait OpenWorld<B>: ReplayWorld {
    /// How many boxes there are.
    ghost many: { B → ℕ };

    /// There are enough of them, and none has answered yet.
    ghost are_ready: { B → Type 0 };

    /// Each answer that the entries show is allowed by the box that serves its host then, with its number of answers before.
    ghost are_allowed: { B → List PlainEntry → Type 0 };

    /// A world in which nothing has happened, of so many hosts as the settings say, each in its first life.
    fn open(alloc: Global, s: &Settings, boxes: B) -> Result<Self, AllocError>
        requires valid { IsValid s.now }
        requires ready { are_ready boxes }
        ensures opened { IfOk result (λ w. IsOpened s.now (many boxes) (Self.stands w)) }
        ensures settings { IfOk result (λ w. Self.settings w ≡ s.now) }
        ensures events { IfOk result (λ w. Self.events w ≡ 0) }
        ensures allows { IfOk result (λ w. (told : List PlainEntry) → Self.allows w told → are_allowed boxes (PlainSettings s.now ∷ told)) };

    /// Where no service was asked, every box allows it.
    ghost unasked: { (boxes : B) (told : List PlainEntry) → shown told ≡ [] → are_allowed boxes told };
}

// Replays a schedule through a sink that may hold lines back.
fn replay_held<B: Drop, P: OpenWorld<B> + Drop, S: Source, K: FlushSink>(
    alloc: Global,
    source: &mut S,
    sink: &mut K,
    boxes: B,
) -> Result<bool, Stop>
    requires { P.are_ready boxes }
    ensures replayed { IsReplayed (P.many boxes) (P.are_allowed boxes) (S.left source.old) (S.left source.new) (K.taken sink.old) (K.taken sink.new) result }
    ensures front { OnOk result (AreParts (replay_of (P.many boxes)) (S.left source.old) (S.left source.new) (K.taken sink.old) (K.taken sink.new)
        (P.are_allowed boxes) false) }

    ensures left { LeavesBoth S.faults S.is_same K.faults K.is_same K.held source.old source.new sink.old sink.new result }
{
    let mut reader = Reader::open(alloc, LONGEST_INPUT)?;
    let Some(settings) = begin(&mut reader, source, sink)? else {
        return Ok(false);
    };
    let mut world = P::open(alloc, &settings, boxes)?;
    let accepted = carry_on(alloc, &mut reader, source, sink, &mut world, settings.hosts)?;
    Ok(accepted)
}

/// Writes what is held, unless reading or writing failed already: then nothing is held, or no more may be written.
pub fn finish<A, K: Sink + Drop>(
    held: &mut HeldSink<K>,
    answer: &Result<A, Stop>,
) -> Result<(), Stop>
    requires { IsErrOf answer.now Stop.Read → held_bytes held.old ≡ [] }
    ensures none { OnOk result ((IsErrOf answer.now Stop.Write → ⊥) → held_bytes held.new ≡ []) }
    ensures whole { appended (K.taken (sink_below held.new)) (held_bytes held.new) ≡ appended (K.taken (sink_below held.old)) (held_bytes held.old) }
    ensures grows { Grows (K.taken (sink_below held.old)) (K.taken (sink_below held.new)) }
    ensures same { K.is_same (sink_below held.old) (sink_below held.new) }
    ensures quiet { OnOk result (K.faults (sink_below held.new) ≡ K.faults (sink_below held.old)) }
    ensures risen { OnErr result (HasRisen (K.faults (sink_below held.old)) (K.faults (sink_below held.new))) }
    ensures stop { IfErr result (λ stop. stop ≡ Stop.Write) }
    ensures tried { OnErr result (may_write answer.now ≡ true) }
{
    if let Err(Stop::Read | Stop::Write) = answer {
        return Ok(());
    }
    held.flush()?;
    Ok(())
}

// Replays a schedule through a sink that holds lines back, and writes them all.
fn replay_through<B: Drop, P: OpenWorld<B> + Drop, S: Source, K: Sink + Drop>(
    alloc: Global,
    source: &mut S,
    held: &mut HeldSink<K>,
    boxes: B,
) -> Result<bool, Stop>
    requires ready { P.are_ready boxes }
    requires none { held_bytes held.old ≡ [] }
    ensures replayed { IsReplayed (P.many boxes) (P.are_allowed boxes) (S.left source.old) (S.left source.new) (K.taken (sink_below held.old))
        (K.taken (sink_below held.new)) result }
    ensures same { K.is_same (sink_below held.old) (sink_below held.new) }
    ensures faults { AreFaults (S.faults source.old) (S.faults source.new) (K.faults (sink_below held.old)) (K.faults (sink_below held.new)) result }
{
    let answer = replay_held::<B, P, S, HeldSink<K>>(alloc, source, held, boxes);
    finish(held, &answer)?;
    let accepted = answer?;
    Ok(accepted)
}

/// Replays the schedule that the source has, in a world with these boxes, and prints its trace. True where no line is refused,
/// and the input was then read to its end. At most one of the two counts of faults changes: the source's where it answers
/// `Read`, the sink's where it answers `Write`.
///
/// What is said of the bytes holds where the source tells what it has left, and the sink what it took, as those in memory do.
pub fn replay<B: Drop, P: OpenWorld<B> + Drop, S: Source, K: Sink>(
    alloc: Global,
    source: &mut S,
    sink: &mut K,
    boxes: B,
) -> Result<bool, Stop>
    requires { P.are_ready boxes }

    // What was printed is the replay of the bytes that the source had, with the answers that its own `run` lines show.
    ensures printed { IfOk result (λ accepted. ArePrinted (replay_of (P.many boxes)) (S.left source.old) (K.taken sink.old) (K.taken sink.new)
        (P.are_allowed boxes) accepted) }
    ensures to_end { result ≡ Ok true → (bytes : List ℕ) → S.left source.old ≡ Some bytes → S.left source.new ≡ Some [] }

    // Behind a line that is refused at most 65,536 bytes were read.
    ensures behind { result ≡ Ok false → (bytes : List ℕ) → S.left source.old ≡ Some bytes
        → IsReadUpTo bytes (S.left source.new) (K.taken sink.old) (K.taken sink.new) }

    // Otherwise it is a front of that; unless the sink failed, what was printed are whole lines.
    ensures part { IfErr result (λ stop. AreParts (replay_of (P.many boxes)) (S.left source.old) (S.left source.new) (K.taken sink.old)
        (K.taken sink.new) (P.are_allowed boxes) (prints_all stop)) }

    // Each count changes only with its own fault.
    ensures quiet_source { OnOk result (S.faults source.new ≡ S.faults source.old) }
    ensures quiet_sink { OnOk result (K.faults sink.new ≡ K.faults sink.old) }
    ensures read_risen { IsErrOf result Stop.Read → HasRisen (S.faults source.old) (S.faults source.new) }
    ensures read_quiet { IsErrOf result Stop.Read → K.faults sink.new ≡ K.faults sink.old }
    ensures write_risen { IsErrOf result Stop.Write → HasRisen (K.faults sink.old) (K.faults sink.new) }
    ensures write_quiet { IsErrOf result Stop.Write → S.faults source.new ≡ S.faults source.old }
    ensures memory_source { IsErrOf result Stop.NoMemory → S.faults source.new ≡ S.faults source.old }
    ensures memory_sink { IsErrOf result Stop.NoMemory → K.faults sink.new ≡ K.faults sink.old }
{
    let room = Room::new(alloc)?;
    let mut held = HeldSink::over(sink, room);
    let answer = replay_through::<B, P, S, &mut K>(alloc, source, &mut held, boxes);
    let _sink = held.into_sink();
    let accepted = answer?;
    Ok(accepted)
}
