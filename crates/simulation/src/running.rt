// The turns of a run, from its first to its last.
ghost use Rattle.std.specs.Prelude.{◌≡◌, ◌≤◌, ◌<◌, ◌+◌, ◌^◌, OnOk, OnErr, IfOk};
ghost use Rattle.homa_plain.specs.World.{World};
ghost use Rattle.simulation.specs.Runs.{at, HasRun, HasStopped, IsRun, IsPart};

use crate::events::happen;
use crate::lines::begin;
use crate::setup::Setup;
use crate::{HostNetwork, SimStop};
use experiment::Experiment;
use homa_generate::GenerateWorld;
use homa_io::Sink;
use homa_plain::Event;
use homa_replay::OpenWorld;
use simulated_network::{RunOutcome, RunStep, SimulatedNetwork};
use std::alloc::Global;

// After how many turns a run stops.
const MOST_TURNS: u64 = 1 << 50;

// After how many turns it is told how far a run is.
const TOLD_EVERY: u64 = 1 << 16;

/// How far a run is: its moment in picoseconds, how many calls were drawn, and how many events happened.
#[derive(Clone, Copy, Debug, PartialEq, Eq)]
pub struct Far {
    pub now: u64,
    pub drawn: u32,
    pub events: u64,
}

/// What hears how far a run is.
pub trait Telling {
    ghost use Rattle.simulation.specs.declared.running.Far.{Far};

    /// From one state to the next, it heard that a run is so far.
    ghost hears: { Self → Far → Self → Type 0 };

    /// Hears how far a run is.
    fn tell(&mut self, far: &Far)
        ensures { hears self.old far.entry.now self.new };
}

// A turn of a run; whether the run goes on.
fn turn<P: GenerateWorld, N: HostNetwork, K: Sink>(
    setup: &Setup,
    world: &mut P,
    network: &mut N,
    sink: &mut K,
    events: &mut u64,
) -> Result<bool, SimStop>
    requires settings { setup.now.settings ≡ P.settings world.old }
    requires few { P.events world.old < 2 ^ 57 }
    requires room { events.old < 2 ^ 57 }
    ensures ran { OnOk result ((w : World) → P.stands world.old w
        → HasRun N.gives N.heeds N.leaves (P.settings world.old) setup.now.service setup.now.prints w
        (at network.old events.old (K.taken sink.old)) (at network.new events.new (K.taken sink.new))
        (P.stands world.new) (P.allows world.old) (P.allows world.new)) }
    ensures stopped { OnErr result ((w : World) → P.stands world.old w
        → HasStopped N.gives N.heeds N.leaves (P.settings world.old) setup.now.service setup.now.prints w
        (at network.old events.old (K.taken sink.old)) (K.taken sink.new) (P.allows world.old)) }
    ensures settings { P.settings world.new ≡ P.settings world.old }
    ensures applied { P.events world.new ≤ P.events world.old + 1 }
    ensures rises { OnOk result (events.new ≤ events.old + 1) }
    ensures same { K.is_same sink.old sink.new }
{
    match network.next(world.clock())? {
        RunStep::Over => return Ok(false),
        RunStep::Inside => {}
        RunStep::Event { event, bytes } => {
            happen(setup, world, network, sink, events, &event, bytes)?;
        }
        RunStep::Call {
            client,
            server,
            bytes,
        } => {
            if setup.settings.calls <= world.live(client) {
                network.leave_out();
                return Ok(true);
            }
            let event = Event::Call {
                client,
                server,
                number: setup.service,
            };
            happen(setup, world, network, sink, events, &event, bytes)?;
        }
    }
    Ok(true)
}

// The turns of a run up to its end; how many events happened.
pub(crate) fn play<P: GenerateWorld, N: HostNetwork, K: Sink, T: Telling>(
    setup: &Setup,
    world: &mut P,
    network: &mut N,
    sink: &mut K,
    telling: &mut T,
) -> Result<u64, SimStop>
    requires settings { setup.now.settings ≡ P.settings world.old }
    requires few { P.events world.old ≤ 2 ^ 56 }
    ensures ran { IfOk result (λ events. (w : World) → P.stands world.old w
        → HasRun N.gives N.heeds N.leaves (P.settings world.old) setup.now.service setup.now.prints w
        (at network.old 0 (K.taken sink.old)) (at network.new events (K.taken sink.new))
        (P.stands world.new) (P.allows world.old) (P.allows world.new)) }
    ensures stopped { OnErr result ((w : World) → P.stands world.old w
        → HasStopped N.gives N.heeds N.leaves (P.settings world.old) setup.now.service setup.now.prints w
        (at network.old 0 (K.taken sink.old)) (K.taken sink.new) (P.allows world.old)) }
    ensures same { K.is_same sink.old sink.new }
{
    let mut events = 0;
    for turns in 0..MOST_TURNS {
        if !turn(setup, world, network, sink, &mut events)? {
            return Ok(events);
        }
        if turns % TOLD_EVERY == 0 {
            let far = Far {
                now: network.now(),
                drawn: network.drawn(),
                events,
            };
            telling.tell(&far);
        }
    }
    Err(SimStop::TooLong)
}

/// Runs an experiment with a seed in a world with these boxes, in which nothing has happened. If `prints`, the sink takes the
/// settings and the line of each event, which is a schedule. After a stop it took a prefix of one, in which at most one event stands
/// that didn't happen.
pub fn simulate<B: Drop, P: GenerateWorld + OpenWorld<B> + Drop, K: Sink, T: Telling>(
    alloc: Global,
    experiment: &Experiment,
    seed: u64,
    boxes: B,
    sink: &mut K,
    prints: bool,
    telling: &mut T,
) -> Result<RunOutcome, SimStop>
    requires { P.are_ready boxes }
    ensures ran { IfOk result (λ outcome. IsRun experiment.now.settings (P.many boxes) prints (P.are_allowed boxes) (K.taken sink.old) (K.taken sink.new)
        outcome.events) }
    ensures stopped { OnErr result (IsPart experiment.now.settings (P.many boxes) prints (P.are_allowed boxes) (K.taken sink.old) (K.taken sink.new)) }
    ensures same { K.is_same sink.old sink.new }
{
    let setup = Setup::new(alloc, experiment, prints)?;
    let mut world = P::open(alloc, &setup.settings, boxes)?;
    let mut network = SimulatedNetwork::open(alloc, experiment, seed)?;
    begin(&setup, sink)?;
    let events = play(&setup, &mut world, &mut network, sink, telling)?;
    Ok(network.finish(events))
}
