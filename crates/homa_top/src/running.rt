// The top call.
ghost use Rattle.std.specs.Prelude.{◌≡◌, ◌≢◌, ◌⊎◌, ℕ, List, None, Some, [], length, true, false};
ghost use Rattle.homa_io.specs.Outside.{HasRisen, appended, TookFront};
ghost use Rattle.homa_plain.specs.declared.id.HostId.{HostId as Host};
ghost use Rattle.homa_plain.specs.Rules.{Answer};
ghost use Rattle.homa_plain.specs.Replay.{replay};
ghost use Rattle.homa_replay.specs.RefusedReads.{IsReadUpTo};
ghost use Rattle.homa_replay.specs.Progress.{replay_of, ArePrinted, AreParts};
ghost use Rattle.homa_plain.specs.Answers.{shown};
ghost use Rattle.homa_replay.specs.Stream.{is_refusal};
ghost use Rattle.generated_runs.specs.Generated.{generated_settings, schedule_text, summary_text};
ghost use Rattle.homa_generate.specs.Made.{run_of};
ghost use Rattle.box_laws.specs.First.{AreReady, AreAllowed};
ghost use Rattle.node_hosts.specs.Fair.{AreFairlyAllowed};
ghost use Rattle.node_output.specs.Traces.{around};
ghost use Rattle.node_print_laws.specs.Printed.{OpensNode};
ghost use Rattle.trace_laws.specs.Replays.{OpensWorld};
ghost use Rattle.homa_top.specs.declared.words.Command.TheVariants as command;
ghost use Rattle.homa_top.specs.Commands.{HasMade, HasCounted, HasJudged, HasRun, HasRecorded, IsNeverRefused};
ghost use Rattle.homa_top.specs.Exits.{is_broken_off, prints_all};
ghost use Rattle.homa_top.specs.declared.exit.ExitStatus.TheVariants as status;
ghost use Rattle.homa_top.specs.Lawful.{TookLawful, TookLawfulLines};
ghost use Rattle.homa_top.specs.Words.{said, reads, uses_net, prints_last, usage_line};

use crate::commands::{
    put_judgement, put_node, put_record, put_rounds, put_schedule, put_summary, put_usage,
    status_of,
};
use crate::exit::ExitStatus;
use crate::words::{Command, read_words};
use homa_io::{Sink, Source};
use homa_replay::replay;
use homa_service::Service;
use homa_world::World;
use node_io::{Clock, Net};
use std::alloc::Global;

/// Carries out a command line, `words` without the program's name: `replay`, `make SEED CALLS`, `gen SEED CALLS`, `node`,
/// `record`, `check` or `quiet N M`.
///
/// - `replay` reads a schedule from the source and prints its trace.
/// - `check` reads a trace and prints the verdict on it. The status is `Done` for yes, and `Refused` for no.
/// - `make` prints a schedule of generated traffic, and `gen` the summary of its trace.
/// - `node` reads a script, runs its local hosts over the net and the clock, and prints their trace. No clause says that
///   each line goes out at once, if the run comes to its end.
/// - `record` runs a script likewise, and prints a schedule of the run's events. The law `texts_repeat` says when its replay
///   repeats the run. It stops with `Stranger` at a packet that the host from which it came didn't send to this one in this
///   run, in the last `life` ticks.
/// - `quiet` prints in how many rounds a call is done.
///
/// Service h serves host h. The others serve hosts that restart, the last one first. What is said of bytes holds if
/// source and sink are observable, as those in memory are. What is said of datagrams and ticks holds if net and clock are.
pub fn run<V: Service, S: Source, K: Sink, N: Net, C: Clock>(
    alloc: Global,
    words: &[&str],
    source: &mut S,
    sink: &mut K,
    net: &mut N,
    clock: &mut C,
    services: Vec<V>,
) -> ExitStatus
    requires ready { AreReady V.served services.items }
    requires none_known { (h : Host) → N.known net.old h ≡ false }

    // If the words are no command, the usage line is printed.
    ensures usage { result ≡ status.NoCommand → said words.now ≡ None }
    ensures no_command { said words.now ≡ None → (result ≡ status.NoCommand) ⊎ (result ≡ status.WriteFailed) }
    ensures usage_text { result ≡ status.NoCommand → K.taken sink.new ≡ appended (K.taken sink.old) usage_line }
    ensures usage_front { said words.now ≡ None → TookFront (K.taken sink.old) (K.taken sink.new) usage_line }

    // Only `replay`, `node`, `record` and `check` read, and refuse a line.
    ensures source_stays { reads (said words.now) ≡ false → source.new ≡ source.old }
    ensures reads { (result ≡ status.Refused) ⊎ (result ≡ status.ReadFailed) → reads (said words.now) ≡ true }

    // Only `node` and `record` use the net and the clock, and stall. Only `record` meets a stranger.
    ensures net_stays { uses_net (said words.now) ≡ false → net.new ≡ net.old }
    ensures clock_stays { uses_net (said words.now) ≡ false → clock.new ≡ clock.old }
    ensures uses_net { (result ≡ status.NetFailed) ⊎ (result ≡ status.Stalled) → uses_net (said words.now) ≡ true }
    ensures stranger { result ≡ status.Stranger → said words.now ≡ Some command.Record }

    // `replay` printed the replay of the source's bytes, with the answers in its own `run` lines, which the services allow.
    // Either no line is refused and the source was read to its end, or the last line refuses one, and at most 65,536 bytes
    // after that were read.
    ensures accepted { said words.now ≡ Some command.Replay → result ≡ status.Done
        → ArePrinted (replay_of (length services.items)) (S.left source.old) (K.taken sink.old) (K.taken sink.new)
        (AreAllowed V.served V.allows services.items) true }
    ensures refused { said words.now ≡ Some command.Replay → result ≡ status.Refused
        → ArePrinted (replay_of (length services.items)) (S.left source.old) (K.taken sink.old) (K.taken sink.new)
        (AreAllowed V.served V.allows services.items) false }
    ensures to_end { said words.now ≡ Some command.Replay → result ≡ status.Done → (bytes : List ℕ) → S.left source.old ≡ Some bytes
        → S.left source.new ≡ Some [] }
    ensures behind { said words.now ≡ Some command.Replay → result ≡ status.Refused → (bytes : List ℕ) → S.left source.old ≡ Some bytes
        → IsReadUpTo bytes (S.left source.new) (K.taken sink.old) (K.taken sink.new) }

    // If the schedule opens a world, each of these lines obeys all laws.
    ensures laws { said words.now ≡ Some command.Replay → (result ≡ status.Done) ⊎ (result ≡ status.Refused) → (bytes : List ℕ)
        → S.left source.old ≡ Some bytes → OpensWorld bytes → TookLawful (K.taken sink.old) (K.taken sink.new) }

    // After a fault, or without memory, the output is a prefix of it. Unless the sink failed, it is whole lines.
    ensures front { said words.now ≡ Some command.Replay → is_broken_off result ≡ true
        → AreParts (replay_of (length services.items)) (S.left source.old) (S.left source.new) (K.taken sink.old) (K.taken sink.new)
        (AreAllowed V.served V.allows services.items) (prints_all result) }

    // `node` printed the text of the node's run of the source's bytes, with the answers in its own `run` lines, which the
    // services allow, and with the ticks and datagrams that clock and net gave. The net took the run's datagrams, and the
    // status is that of the run's end. After a fault, or without memory, the output is a prefix.
    ensures node { said words.now ≡ Some command.Node → (bytes : List ℕ) → S.left source.old ≡ Some bytes
        → HasRun (AreFairlyAllowed V.served V.allows services.items) bytes (S.left source.new)
        (around (K.taken sink.old) (N.acts net.old) (N.sent net.old) (N.gave net.old) (C.ticks clock.old))
        (around (K.taken sink.new) (N.acts net.new) (N.sent net.new) (N.gave net.new) (C.ticks clock.new)) result }

    // If the script is opened, and the net was honest in the lines that the sink took whole, each of these obeys all laws,
    // however the run ended or was broken off.
    ensures node_laws { said words.now ≡ Some command.Node → (bytes : List ℕ) → S.left source.old ≡ Some bytes → OpensNode bytes
        → TookLawfulLines bytes (around (K.taken sink.old) (N.acts net.old) (N.sent net.old) (N.gave net.old) (C.ticks clock.old))
        (around (K.taken sink.new) (N.acts net.new) (N.sent net.new) (N.gave net.new) (C.ticks clock.new)) result }

    // `record` printed the recording of the node's run: a schedule of the run's events, up to its end or to the first foreign
    // datagram. The net took the run's datagrams up to there, and the status is that of the run's end, or `Stranger`. After
    // a fault, or without memory, the output is a prefix.
    ensures recorded { said words.now ≡ Some command.Record → (bytes : List ℕ) → S.left source.old ≡ Some bytes
        → HasRecorded (AreFairlyAllowed V.served V.allows services.items) bytes (S.left source.new)
        (around (K.taken sink.old) (N.acts net.old) (N.sent net.old) (N.gave net.old) (C.ticks clock.old))
        (around (K.taken sink.new) (N.acts net.new) (N.sent net.new) (N.gave net.new) (C.ticks clock.new)) result }

    // `check` printed the verdict on the source's bytes. Yes means that each line has its shape and obeys all laws. No names
    // the first line that doesn't, and the clause that fails there.
    ensures judged { said words.now ≡ Some command.Check → (bytes : List ℕ) → S.left source.old ≡ Some bytes
        → HasJudged bytes (S.left source.new) (K.taken sink.old) (K.taken sink.new) result }

    // `make`, `gen` and `quiet` printed the schedule of the generated run, the summary of its trace, the line of the quiet
    // call; or a prefix of it.
    ensures made { (seed calls : ℕ) → said words.now ≡ Some (command.Make seed calls)
        → HasMade (run_of seed calls (length services.items)) (schedule_text generated_settings) (K.taken sink.old) (K.taken sink.new)
        (AreAllowed V.served V.allows services.items) result }
    ensures counted { (seed calls : ℕ) → said words.now ≡ Some (command.Gen seed calls)
        → HasMade (run_of seed calls (length services.items)) (λ g. summary_text g.told) (K.taken sink.old) (K.taken sink.new)
        (AreAllowed V.served V.allows services.items) result }
    ensures quiet { (n m : ℕ) → said words.now ≡ Some (command.Quiet n m) → HasCounted n m (K.taken sink.old) (K.taken sink.new) result }

    // `gen`, `check` and `quiet` print nothing if memory ran out or reading failed.
    ensures unsaid { prints_last (said words.now) ≡ true → (result ≡ status.NoMemory) ⊎ (result ≡ status.ReadFailed) → K.taken sink.new ≡ K.taken sink.old }

    // Each fault has its cause and its status. Nothing else keeps an accepted input from its end, with the answers that the
    // services may give.
    ensures read { result ≡ status.ReadFailed → HasRisen (S.faults source.old) (S.faults source.new) }
    ensures write { result ≡ status.WriteFailed → HasRisen (K.faults sink.old) (K.faults sink.new) }
    ensures net { result ≡ status.NetFailed → HasRisen (N.faults net.old) (N.faults net.new) }
    ensures read_fault { S.faults source.new ≢ S.faults source.old → result ≡ status.ReadFailed }
    ensures write_fault { K.faults sink.new ≢ K.faults sink.old → result ≡ status.WriteFailed }
    ensures net_fault { N.faults net.new ≢ N.faults net.old → result ≡ status.NetFailed }
    ensures complete { said words.now ≡ Some command.Replay → (bytes : List ℕ) → S.left source.old ≡ Some bytes
        → ((answers : List Answer) → shown (replay bytes answers (length services.items)).told ≡ answers
        → AreAllowed V.served V.allows services.items (replay bytes answers (length services.items)).told
        → is_refusal (replay bytes answers (length services.items)).end ≡ false)
        → (HasRisen (S.faults source.old) (S.faults source.new) → ⊥) → (HasRisen (K.faults sink.old) (K.faults sink.new) → ⊥) → (result ≡ status.Done)
        ⊎ (result ≡ status.NoMemory) }
    ensures complete_node { said words.now ≡ Some command.Node → (bytes : List ℕ) → S.left source.old ≡ Some bytes
        → IsNeverRefused (AreFairlyAllowed V.served V.allows services.items) bytes (C.ticks clock.old)
        → (HasRisen (S.faults source.old) (S.faults source.new) → ⊥) → (HasRisen (K.faults sink.old) (K.faults sink.new) → ⊥)
        → (HasRisen (N.faults net.old) (N.faults net.new) → ⊥)
        → (result ≡ status.Done) ⊎ (result ≡ status.Stalled) ⊎ (result ≡ status.NoMemory) }
    ensures complete_record { said words.now ≡ Some command.Record → (bytes : List ℕ) → S.left source.old ≡ Some bytes
        → IsNeverRefused (AreFairlyAllowed V.served V.allows services.items) bytes (C.ticks clock.old)
        → (HasRisen (S.faults source.old) (S.faults source.new) → ⊥) → (HasRisen (K.faults sink.old) (K.faults sink.new) → ⊥)
        → (HasRisen (N.faults net.old) (N.faults net.new) → ⊥)
        → (result ≡ status.Done) ⊎ (result ≡ status.Stalled) ⊎ (result ≡ status.Stranger) ⊎ (result ≡ status.NoMemory) }
    ensures complete_check { said words.now ≡ Some command.Check → (HasRisen (S.faults source.old) (S.faults source.new) → ⊥)
        → (HasRisen (K.faults sink.old) (K.faults sink.new) → ⊥) → (result ≡ status.Done) ⊎ (result ≡ status.Refused) ⊎ (result ≡ status.NoMemory) }
{
    match read_words(words) {
        None => put_usage(sink),
        Some(Command::Make { seed, calls }) => put_schedule(alloc, sink, services, seed, calls),
        Some(Command::Gen { seed, calls }) => put_summary(alloc, sink, services, seed, calls),
        Some(Command::Node) => put_node(alloc, source, sink, net, clock, services),
        Some(Command::Record) => put_record(alloc, source, sink, net, clock, services),
        Some(Command::Check) => put_judgement(alloc, source, sink),
        Some(Command::Quiet { request, response }) => put_rounds(alloc, sink, request, response),
        Some(Command::Replay) => {
            match replay::<Vec<V>, World<V>, S, K>(alloc, source, sink, services) {
                Ok(true) => ExitStatus::Done,
                Ok(false) => ExitStatus::Refused,
                Err(stop) => status_of(stop),
            }
        }
    }
}
