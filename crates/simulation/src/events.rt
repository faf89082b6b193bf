// An event of a run, which the network heeds.
ghost use Rattle.std.specs.Prelude.{◌≡◌, ◌≤◌, ◌<◌, ◌+◌, ◌^◌, OnOk, OnErr};
ghost use Rattle.homa_io.specs.Outside.{appended, TookFront};
ghost use Rattle.homa_plain.specs.Entries.{plain};
ghost use Rattle.homa_plain.specs.World.{World};
ghost use Rattle.simulation.specs.Turns.{IsShown, AreHeeded, HasHappened, beside, line_of};
ghost use Rattle.simulation.specs.Runs.{said};

use crate::lines::show;
use crate::setup::Setup;
use crate::{HostNetwork, SimStop};
use homa_generate::GenerateWorld;
use homa_io::Sink;
use homa_plain::{Entry, Event, WorldFault};
use homa_replay::ReplayWorld;
use homa_world::Passing;
use simulated_network::NetworkStop;

// What the world shows of an entry's packet, if the entry is of one that was sent.
fn shown_of<P: GenerateWorld>(world: &P, entry: &Entry<'_>) -> Option<Passing>
    ensures { (w : World) → P.stands world.now w → IsShown (P.settings world.now) w (plain entry.now) result }
{
    match *entry {
        Entry::Send { number, .. } => world.packet(number),
        _ => None,
    }
}

// The network heeds each entry of the last event.
fn heed_all<P: GenerateWorld, N: HostNetwork>(world: &P, network: &mut N) -> Result<(), NetworkStop>
    ensures { OnOk result ((w : World) → P.stands world.now w
        → AreHeeded N.heeds (P.settings world.now) w (P.told world.now) network.old network.new) }
{
    let count = world.entries();
    for i in 0..count {
        let entry = world.entry(i);
        let passing = shown_of(world, &entry);
        network.heed(&entry, passing)?;
    }
    Ok(())
}

// Why a run stops where the world didn't do an event.
fn stop_at(fault: WorldFault) -> SimStop {
    match fault {
        WorldFault::NoMemory => SimStop::NoMemory,
        fault => SimStop::Refused(fault),
    }
}

/// An event happens, with so many counting bytes beside it, and is counted. It is printed, the world does it, and the network
/// heeds what it tells. Stops where the run has as many events as it may, and where more bytes stand beside the event than a
/// message has.
pub(crate) fn happen<P: GenerateWorld, N: HostNetwork, K: Sink>(
    setup: &Setup,
    world: &mut P,
    network: &mut N,
    sink: &mut K,
    events: &mut u64,
    event: &Event,
    bytes: u32,
) -> Result<(), SimStop>
    requires few { P.events world.old < 2 ^ 57 }
    requires room { events.old < 2 ^ 57 }
    ensures happened { OnOk result ((w : World) → P.stands world.old w
        → HasHappened N.heeds (P.settings world.old) w (beside event.now bytes) network.old network.new (P.stands world.new) (P.allows world.old)
        (P.allows world.new)) }
    ensures printed { OnOk result (K.taken sink.new ≡ appended (K.taken sink.old) (said setup.now.prints (line_of (beside event.now bytes)))) }
    ensures counted { OnOk result (events.new ≡ events.old + 1) }
    ensures part { OnErr result (TookFront (K.taken sink.old) (K.taken sink.new) (said setup.now.prints (line_of (beside event.now bytes)))) }
    ensures settings { P.settings world.new ≡ P.settings world.old }
    ensures applied { P.events world.new ≤ P.events world.old + 1 }
    ensures same { K.is_same sink.old sink.new }
{
    if setup.most_events != 0 && setup.most_events <= *events {
        return Err(SimStop::Events);
    }
    if setup.bytes.len() < bytes as usize {
        return Err(SimStop::TooLong);
    }
    let request = &setup.bytes[..bytes as usize];
    show(setup, sink, event, request)?;
    match world.apply(setup.alloc, event, request) {
        Ok(()) => {}
        Err(fault) => return Err(stop_at(fault)),
    }
    heed_all(world, network)?;
    *events += 1;
    Ok(())
}
