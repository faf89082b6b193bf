// What each command does, with its status.
ghost use Rattle.std.specs.Prelude.{◌≡◌, ◌≢◌, ◌≤◌, ◌⊎◌, ℕ, List, Some, false, length};
ghost use Rattle.homa_io.specs.Outside.{HasRisen, appended, TookFront};
ghost use Rattle.homa_plain.specs.declared.id.HostId.{HostId as Host};
ghost use Rattle.node_turns.specs.Faults.{counts};
ghost use Rattle.node_output.specs.Traces.{around};
ghost use Rattle.generated_runs.specs.Generated.{generated_settings, schedule_text, summary_text};
ghost use Rattle.homa_generate.specs.Made.{run_of};
ghost use Rattle.box_laws.specs.First.{AreReady, AreAllowed};
ghost use Rattle.node_hosts.specs.Fair.{AreFairlyAllowed};
ghost use Rattle.homa_top.specs.Words.{usage_line};
ghost use Rattle.homa_top.specs.Commands.{HasMade, HasCounted, HasJudged, HasRun, HasRecorded};
ghost use Rattle.homa_top.specs.Exits.{status_of, status_of_node, status_of_recorded};
ghost use Rattle.homa_top.specs.Faults.{HaveStatus};
ghost use Rattle.homa_top.specs.declared.exit.ExitStatus.TheVariants as status;

use crate::exit::ExitStatus;
use homa_check::{CheckStop, Verdict, check, put_verdict};
use homa_generate::{count, make};
use homa_io::{Sink, Source, write_all};
use homa_plain::{LONGEST_MESSAGE, Settings};
use homa_replay::Stop;
use homa_service::Service;
use homa_world::World;
use node_hosts::{Fair, NodeHosts};
use node_io::{Clock, Net};
use node_output::{Broken, NodeEnd, Recorded, print_node, print_recording};
use quiet_call::{put_quiet, quiet_rounds};
use std::alloc::Global;

const USAGE: &[u8] =
    b"usage: homa replay | make SEED CALLS | gen SEED CALLS | node | record | check | quiet N M\n";

/// Prints the usage line.
pub(crate) fn put_usage<K: Sink>(sink: &mut K) -> ExitStatus
    ensures statuses { (result ≡ status.NoCommand) ⊎ (result ≡ status.WriteFailed) }
    ensures line { result ≡ status.NoCommand → K.taken sink.new ≡ appended (K.taken sink.old) usage_line }
    ensures front { TookFront (K.taken sink.old) (K.taken sink.new) usage_line }
    ensures write { result ≡ status.WriteFailed → HasRisen (K.faults sink.old) (K.faults sink.new) }
    ensures quiet { result ≡ status.NoCommand → K.faults sink.new ≡ K.faults sink.old }
{
    match write_all(sink, USAGE) {
        Ok(()) => ExitStatus::NoCommand,
        Err(_) => ExitStatus::WriteFailed,
    }
}

/// The status of a command that stopped.
pub(crate) fn status_of(stop: Stop) -> ExitStatus
    ensures { result ≡ status_of stop }
{
    match stop {
        Stop::Read => ExitStatus::ReadFailed,
        Stop::Write => ExitStatus::WriteFailed,
        Stop::NoMemory => ExitStatus::NoMemory,
    }
}

/// Prints the schedule of generated traffic in a world with these services.
pub(crate) fn put_schedule<V: Service, K: Sink>(
    alloc: Global,
    sink: &mut K,
    services: Vec<V>,
    seed: u64,
    calls: u32,
) -> ExitStatus
    requires { AreReady V.served services.items }
    ensures made { HasMade (run_of seed calls (length services.items)) (schedule_text generated_settings) (K.taken sink.old) (K.taken sink.new)
        (AreAllowed V.served V.allows services.items) result }
    ensures write { result ≡ status.WriteFailed → HasRisen (K.faults sink.old) (K.faults sink.new) }
    ensures quiet { result ≢ status.WriteFailed → K.faults sink.new ≡ K.faults sink.old }
{
    match make::<Vec<V>, World<V>, K>(alloc, sink, services, seed, calls) {
        Ok(()) => ExitStatus::Done,
        Err(stop) => status_of(stop),
    }
}

/// Prints the summary of generated traffic in a world with these services.
pub(crate) fn put_summary<V: Service, K: Sink>(
    alloc: Global,
    sink: &mut K,
    services: Vec<V>,
    seed: u64,
    calls: u32,
) -> ExitStatus
    requires { AreReady V.served services.items }
    ensures made { HasMade (run_of seed calls (length services.items)) (λ g. summary_text g.told) (K.taken sink.old) (K.taken sink.new)
        (AreAllowed V.served V.allows services.items) result }
    ensures unsaid { result ≡ status.NoMemory → K.taken sink.new ≡ K.taken sink.old }
    ensures write { result ≡ status.WriteFailed → HasRisen (K.faults sink.old) (K.faults sink.new) }
    ensures quiet { result ≢ status.WriteFailed → K.faults sink.new ≡ K.faults sink.old }
{
    match count::<Vec<V>, World<V>, K>(alloc, sink, services, seed, calls) {
        Ok(()) => ExitStatus::Done,
        Err(stop) => status_of(stop),
    }
}

/// Prints in how many rounds a quiet call of so many bytes is done, with the usual settings, and the bound.
pub(crate) fn put_rounds<K: Sink>(
    alloc: Global,
    sink: &mut K,
    request: u32,
    response: u32,
) -> ExitStatus
    requires request { (1 ≤ request) × (request ≤ LONGEST_MESSAGE) }
    requires response { (1 ≤ response) × (response ≤ LONGEST_MESSAGE) }
    ensures counted { HasCounted request response (K.taken sink.old) (K.taken sink.new) result }
    ensures unsaid { result ≡ status.NoMemory → K.taken sink.new ≡ K.taken sink.old }
    ensures write { result ≡ status.WriteFailed → HasRisen (K.faults sink.old) (K.faults sink.new) }
    ensures quiet { result ≢ status.WriteFailed → K.faults sink.new ≡ K.faults sink.old }
{
    let Ok(rounds) = quiet_rounds(alloc, &Settings::usual(), request, response) else {
        return ExitStatus::NoMemory;
    };
    match put_quiet(sink, request, response, rounds) {
        Ok(()) => ExitStatus::Done,
        Err(_) => ExitStatus::WriteFailed,
    }
}

/// Judges the trace that the source has, and prints the verdict.
pub(crate) fn put_judgement<S: Source, K: Sink>(
    alloc: Global,
    source: &mut S,
    sink: &mut K,
) -> ExitStatus
    ensures judged { (bytes : List ℕ) → S.left source.old ≡ Some bytes → HasJudged bytes (S.left source.new) (K.taken sink.old) (K.taken sink.new) result }
    ensures unsaid { (result ≡ status.NoMemory) ⊎ (result ≡ status.ReadFailed) → K.taken sink.new ≡ K.taken sink.old }
    ensures statuses { (result ≡ status.Done) ⊎ (result ≡ status.Refused) ⊎ (result ≡ status.ReadFailed) ⊎ (result ≡ status.WriteFailed)
        ⊎ (result ≡ status.NoMemory) }
    ensures read { result ≡ status.ReadFailed → HasRisen (S.faults source.old) (S.faults source.new) }
    ensures read_quiet { result ≢ status.ReadFailed → S.faults source.new ≡ S.faults source.old }
    ensures write { result ≡ status.WriteFailed → HasRisen (K.faults sink.old) (K.faults sink.new) }
    ensures write_quiet { result ≢ status.WriteFailed → K.faults sink.new ≡ K.faults sink.old }
{
    let verdict = match check(alloc, source) {
        Ok(verdict) => verdict,
        Err(CheckStop::Read(_)) => return ExitStatus::ReadFailed,
        Err(CheckStop::NoMemory) => return ExitStatus::NoMemory,
    };
    if put_verdict(sink, verdict).is_err() {
        return ExitStatus::WriteFailed;
    }
    match verdict {
        Verdict::Yes { .. } => ExitStatus::Done,
        Verdict::No { .. } => ExitStatus::Refused,
    }
}

// The status of a node's run.
fn status_of_node(answer: Result<NodeEnd, Broken>) -> ExitStatus
    ensures { result ≡ status_of_node answer }
{
    match answer {
        Ok(NodeEnd::Ended { .. }) => ExitStatus::Done,
        Ok(NodeEnd::Refused { .. }) => ExitStatus::Refused,
        Ok(NodeEnd::Stalled { .. }) => ExitStatus::Stalled,
        Err(Broken::Read) => ExitStatus::ReadFailed,
        Err(Broken::Write) => ExitStatus::WriteFailed,
        Err(Broken::Net) => ExitStatus::NetFailed,
        Err(Broken::NoMemory) => ExitStatus::NoMemory,
    }
}

/// Runs the node of the script that the source has, and prints its trace with its last line.
pub(crate) fn put_node<V: Service, S: Source, K: Sink, N: Net, C: Clock>(
    alloc: Global,
    source: &mut S,
    sink: &mut K,
    net: &mut N,
    clock: &mut C,
    services: Vec<V>,
) -> ExitStatus
    requires ready { AreReady V.served services.items }
    requires none_known { (h : Host) → N.known net.old h ≡ false }
    ensures run { (bytes : List ℕ) → S.left source.old ≡ Some bytes → HasRun (AreFairlyAllowed V.served V.allows services.items) bytes (S.left source.new)
        (around (K.taken sink.old) (N.acts net.old) (N.sent net.old) (N.gave net.old) (C.ticks clock.old))
        (around (K.taken sink.new) (N.acts net.new) (N.sent net.new) (N.gave net.new) (C.ticks clock.new)) result }
    ensures command { result ≢ status.NoCommand }
    ensures usual { result ≢ status.Stranger }
    ensures faults { HaveStatus (counts (S.faults source.old) (N.faults net.old) (K.faults sink.old))
        (counts (S.faults source.new) (N.faults net.new) (K.faults sink.new)) result }
{
    status_of_node(print_node::<Vec<V>, NodeHosts<Fair<V>>, S, K, N, C>(
        alloc, source, sink, net, clock, services,
    ))
}

// The status of a recording.
fn status_of_recorded(answer: Recorded) -> ExitStatus
    ensures { result ≡ status_of_recorded answer }
{
    match answer {
        Recorded::Done => ExitStatus::Done,
        Recorded::Refused => ExitStatus::Refused,
        Recorded::Stalled => ExitStatus::Stalled,
        Recorded::Stranger => ExitStatus::Stranger,
        Recorded::ReadFailed => ExitStatus::ReadFailed,
        Recorded::WriteFailed => ExitStatus::WriteFailed,
        Recorded::NetFailed => ExitStatus::NetFailed,
        Recorded::NoMemory => ExitStatus::NoMemory,
    }
}

/// Runs the node of the script that the source has, and prints its run as a schedule, with its last line.
pub(crate) fn put_record<V: Service, S: Source, K: Sink, N: Net, C: Clock>(
    alloc: Global,
    source: &mut S,
    sink: &mut K,
    net: &mut N,
    clock: &mut C,
    services: Vec<V>,
) -> ExitStatus
    requires ready { AreReady V.served services.items }
    requires none_known { (h : Host) → N.known net.old h ≡ false }
    ensures recorded { (bytes : List ℕ) → S.left source.old ≡ Some bytes
        → HasRecorded (AreFairlyAllowed V.served V.allows services.items) bytes (S.left source.new)
        (around (K.taken sink.old) (N.acts net.old) (N.sent net.old) (N.gave net.old) (C.ticks clock.old))
        (around (K.taken sink.new) (N.acts net.new) (N.sent net.new) (N.gave net.new) (C.ticks clock.new)) result }
    ensures command { result ≢ status.NoCommand }
    ensures faults { HaveStatus (counts (S.faults source.old) (N.faults net.old) (K.faults sink.old))
        (counts (S.faults source.new) (N.faults net.new) (K.faults sink.new)) result }
{
    status_of_recorded(print_recording::<Vec<V>, NodeHosts<Fair<V>>, S, K, N, C>(
        alloc, source, sink, net, clock, services,
    ))
}
