//! Every replay obeys all laws: what is so of every trace, of the replay of every schedule.
//!
//! The model: a schedule that opens a world tells the trace of that world for the events of its lines, one line behind the
//! other, and ends with a last line. No code stands here, only laws; each is the contract of a function that does nothing.
//! Main promise: `every_replay_obeys`: each line of such a replay, the last one too, has the shape and obeys all five laws.

ghost use Rattle.std.specs.Prelude.{◌≡◌, ◌≤◌, ℕ, List, None, take, replicate};
ghost use Rattle.homa_plain.specs.declared.settings.Settings.{Settings};
ghost use Rattle.homa_plain.specs.Settings.{IsValid};
ghost use Rattle.homa_plain.specs.Script.{Steps, Opened, opening, most_bytes};
ghost use Rattle.homa_plain.specs.Rules.{Answer};
ghost use Rattle.homa_plain.specs.Replay.{Finished, replay, last_entry};
ghost use Rattle.trace_rules.specs.View.{nothing_seen};
ghost use Rattle.trace_rules.specs.Laws.{Holds};
ghost use Rattle.trace_rules.specs.Judge.{Obeys, first_broken};
ghost use Rattle.trace_steps.specs.Always.{last_incarnation, trace};
ghost use Rattle.trace_laws.specs.Shaped.{HasCause};
ghost use Rattle.trace_laws.specs.Replays.{OpensWorld, events_in, OfEveryReplay};

/// Where a world is opened, its settings are valid, and what is told before the last line is the trace of that world, whose
/// hosts begin with incarnation 1 at tick 0, for all events of the schedule in order. A line is refused only for a cause that
/// may refuse one. Only where a world is opened a replay comes to the end of its schedule.
pub fn replays_are_traces()
    ensures valid { (bytes : List ℕ) (s : Settings) (steps : Steps) → opening most_bytes bytes ≡ Opened s steps → IsValid s }
    ensures told { (bytes : List ℕ) (s : Settings) (steps : Steps) (answers : List Answer) (boxes : ℕ)
        → opening most_bytes bytes ≡ Opened s steps
        → (replay bytes answers boxes).told ≡ trace s (replicate s.hosts 1) 0 boxes answers (events_in s.hosts steps.steps) }
    ensures cause { (bytes : List ℕ) (answers : List Answer) (boxes : ℕ) → HasCause (last_entry (replay bytes answers boxes).end) }
    ensures finished { (bytes : List ℕ) (answers : List Answer) (boxes n : ℕ) → (replay bytes answers boxes).end ≡ Finished n → OpensWorld bytes }
{}

/// Each line of the replay of a schedule that opens a world has the shape and obeys all five laws, whatever the bytes
/// are and whatever the services answer. That holds of the last line too, be it that of the end or that of a refusal.
/// It holds of each of the first n lines, as where a replay stops halfway, and a judge of the lines finds none that
/// breaks a law. With no world opened, nothing is told before the refusal; so what is told before the last line obeys
/// the laws for all bytes.
pub fn every_replay_obeys()
    ensures obeys { OfEveryReplay (Holds Obeys nothing_seen) }
    ensures fronts { OfEveryReplay (λ lines. (n : ℕ) → Holds Obeys nothing_seen (take n lines)) }
    ensures judged { OfEveryReplay (λ lines. first_broken lines ≡ None) }
    ensures told { (bytes : List ℕ) (answers : List Answer) (boxes : ℕ) → boxes ≤ last_incarnation
        → Holds Obeys nothing_seen (replay bytes answers boxes).told }
{}
