//! The schedule of a generated run, and its summary.
ghost use Rattle.std.specs.Prelude.{◌≡◌, [], OnOk, OnErr, IfOk, IsErrOf};
ghost use Rattle.homa_io.specs.Held.{sink_below, held_bytes};
ghost use Rattle.homa_replay.specs.declared.stop.Stop.TheVariants.{NoMemory};
ghost use Rattle.generated_runs.specs.Generated.{generated_settings, schedule_text, summary_text};
ghost use Rattle.homa_generate.specs.Progress.{IsHeard, IsFaulted};
ghost use Rattle.homa_generate.specs.Made.{run_of, HasRun, IsMade, IsPartMade};

use crate::lines::Progress;
use crate::rounds::play_rounds;
use crate::setup::Setup;
use crate::{Counts, GenerateWorld};
use homa_fabric::Fabric;
use homa_io::{HeldSink, Room, Sink, SureSink};
use homa_plain::Settings;
use homa_replay::{FlushSink, OpenWorld, Stop, finish};
use homa_script::put_settings;
use std::alloc::Global;

// The settings of generated runs: the usual ones with 32 hosts.
fn generated_settings() -> Settings
    ensures { result ≡ generated_settings }
{
    let mut settings = Settings::usual();
    settings.hosts = 32;
    settings
}

// Prints the schedule of a run where `prints` says so, and answers the counts of its trace. Without, the sink is one that doesn't tell what it took.
fn generate<B: Drop, P: GenerateWorld + OpenWorld<B> + Drop, K: FlushSink>(
    alloc: Global,
    sink: &mut K,
    boxes: B,
    seed: u64,
    calls: u32,
    prints: bool,
) -> Result<Counts, Stop>
    requires ready { P.are_ready boxes }
    requires heard { IsHeard prints K.taken }
    ensures ran { IfOk result (HasRun (run_of seed calls (P.many boxes)) (K.taken sink.old) (K.taken sink.new) (P.are_allowed boxes)) }
    ensures part { OnErr result (IsPartMade (run_of seed calls (P.many boxes)) (schedule_text generated_settings) (K.taken sink.old) (K.taken sink.new)
        (P.are_allowed boxes)) }
    ensures faulted { IsFaulted result (K.faults sink.old) (K.faults sink.new) }
    ensures same { K.is_same sink.old sink.new }
{
    let setup = Setup::new(alloc, generated_settings(), prints)?;
    let mut world = P::open(alloc, &setup.settings, boxes)?;
    let mut progress = Progress {
        fabric: Fabric::open(alloc, &setup.settings, seed)?,
        counts: Counts::new(),
        left: calls,
    };
    put_settings(sink, &setup.settings)?;
    play_rounds(&setup, &mut world, sink, &mut progress)?;
    Ok(progress.counts)
}

// Prints the schedule of a run through a sink that holds lines back, and writes them all.
fn make_through<B: Drop, P: GenerateWorld + OpenWorld<B> + Drop, K: Sink + Drop>(
    alloc: Global,
    held: &mut HeldSink<K>,
    boxes: B,
    seed: u64,
    calls: u32,
) -> Result<(), Stop>
    requires ready { P.are_ready boxes }
    requires none { held_bytes held.old ≡ [] }
    ensures made { OnOk result (IsMade (run_of seed calls (P.many boxes)) (schedule_text generated_settings) (K.taken (sink_below held.old))
        (K.taken (sink_below held.new)) (P.are_allowed boxes)) }
    ensures part { OnErr result (IsPartMade (run_of seed calls (P.many boxes)) (schedule_text generated_settings) (K.taken (sink_below held.old))
        (K.taken (sink_below held.new)) (P.are_allowed boxes)) }
    ensures faulted { IsFaulted result (K.faults (sink_below held.old)) (K.faults (sink_below held.new)) }
    ensures same { K.is_same (sink_below held.old) (sink_below held.new) }
{
    let made = generate::<B, P, HeldSink<K>>(alloc, held, boxes, seed, calls, true);
    finish(held, &made)?;
    made?;
    Ok(())
}

/// Prints the schedule of the generated run of a seed with so many calls, in a world with these boxes.
pub fn make<B: Drop, P: GenerateWorld + OpenWorld<B> + Drop, K: Sink>(
    alloc: Global,
    sink: &mut K,
    boxes: B,
    seed: u64,
    calls: u32,
) -> Result<(), Stop>
    requires { P.are_ready boxes }
    ensures made { OnOk result (IsMade (run_of seed calls (P.many boxes)) (schedule_text generated_settings) (K.taken sink.old) (K.taken sink.new)
        (P.are_allowed boxes)) }
    ensures part { OnErr result (IsPartMade (run_of seed calls (P.many boxes)) (schedule_text generated_settings) (K.taken sink.old) (K.taken sink.new)
        (P.are_allowed boxes)) }
    ensures faulted { IsFaulted result (K.faults sink.old) (K.faults sink.new) }
    ensures same { K.is_same sink.old sink.new }
{
    let room = Room::new(alloc)?;
    let mut held = HeldSink::over(sink, room);
    let made = make_through::<B, P, &mut K>(alloc, &mut held, boxes, seed, calls);
    let _sink = held.into_sink();
    made?;
    Ok(())
}

/// Prints the summary of the generated run of a seed with so many calls, in a world with these boxes.
pub fn count<B: Drop, P: GenerateWorld + OpenWorld<B> + Drop, K: Sink>(
    alloc: Global,
    sink: &mut K,
    boxes: B,
    seed: u64,
    calls: u32,
) -> Result<(), Stop>
    requires { P.are_ready boxes }
    ensures made { OnOk result (IsMade (run_of seed calls (P.many boxes)) (λ g. summary_text g.told) (K.taken sink.old) (K.taken sink.new)
        (P.are_allowed boxes)) }
    ensures part { OnErr result (IsPartMade (run_of seed calls (P.many boxes)) (λ g. summary_text g.told) (K.taken sink.old) (K.taken sink.new)
        (P.are_allowed boxes)) }
    ensures unsaid { IsErrOf result NoMemory → K.taken sink.new ≡ K.taken sink.old }
    ensures faulted { IsFaulted result (K.faults sink.old) (K.faults sink.new) }
    ensures same { K.is_same sink.old sink.new }
{
    let counts = generate::<B, P, SureSink>(
        alloc,
        &mut SureSink::new(),
        boxes,
        seed,
        calls,
        false,
    )?;
    counts.put(sink)?;
    Ok(())
}
