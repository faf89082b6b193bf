// The events of a line, one after the other.
ghost use Rattle.std.specs.Prelude.{◌≡◌, ◌≤◌, ◌<◌, ◌+◌, ◌*◌, ◌^◌, ◌∷◌, []};
ghost use Rattle.homa_plain.specs.declared.event.Event.TheVariants as event;
ghost use Rattle.homa_plain.specs.Replay.{turns_of, ticks};
ghost use Rattle.homa_plain.specs.Entries.{is_memory};
ghost use Rattle.homa_replay.specs.Lines.{tick_of};
ghost use Rattle.homa_replay.specs.Playing.{Plays};
ghost use Rattle.homa_replay.specs.Faults.{OnlyWrites};

use crate::{FlushSink, ReplayWorld, Stop};
use homa_plain::{Event, HostId, WorldFault};
use std::alloc::Global;

// Whether there was no memory.
fn is_memory(fault: &WorldFault) -> bool
    ensures { result ≡ is_memory fault.now }
{
    matches!(fault, WorldFault::NoMemory)
}

/// Does an event and prints its entries, or answers why it is refused.
pub(crate) fn play<P: ReplayWorld, K: FlushSink>(
    alloc: Global,
    world: &mut P,
    sink: &mut K,
    event: &Event,
    bytes: &[u8],
) -> Result<Option<WorldFault>, Stop>
    requires few { P.events world.old < 2 ^ 57 }
    ensures plays { Plays (P.settings world.old) (record { event = event.now; bytes = bytes.now } ∷ []) (P.stands world.old) (P.stands world.new)
        (P.allows world.old) (P.allows world.new) (K.taken sink.old) (K.taken sink.new) result }
    ensures settings { P.settings world.new ≡ P.settings world.old }
    ensures counted { P.events world.new ≤ P.events world.old + 1 }
    ensures sink { OnlyWrites K.faults K.is_same result sink.old sink.new }
{
    if let Err(fault) = world.apply(alloc, event, bytes) {
        if is_memory(&fault) {
            return Err(Stop::NoMemory);
        }
        return Ok(Some(fault));
    }
    world.put_entries(sink)?;
    Ok(None)
}

// A turn of each host.
fn play_turns<P: ReplayWorld, K: FlushSink>(
    alloc: Global,
    world: &mut P,
    sink: &mut K,
    hosts: u32,
) -> Result<Option<WorldFault>, Stop>
    requires hosts { hosts ≤ 32 }
    requires few { P.events world.old + hosts ≤ 2 ^ 57 }
    ensures plays { Plays (P.settings world.old) (turns_of 0 hosts) (P.stands world.old) (P.stands world.new) (P.allows world.old) (P.allows world.new)
        (K.taken sink.old) (K.taken sink.new) result }
    ensures settings { P.settings world.new ≡ P.settings world.old }
    ensures counted { P.events world.new ≤ P.events world.old + hosts }
    ensures sink { OnlyWrites K.faults K.is_same result sink.old sink.new }
{
    for host in 0..hosts {
        let turn = Event::Turn {
            host: HostId(host as u16),
        };
        let answer = play(alloc, world, sink, &turn, &[])?;
        if answer.is_some() {
            return Ok(answer);
        }
    }
    Ok(None)
}

// The clock goes on, and then each host has a turn.
fn play_tick<P: ReplayWorld, K: FlushSink>(
    alloc: Global,
    world: &mut P,
    sink: &mut K,
    hosts: u32,
) -> Result<Option<WorldFault>, Stop>
    requires hosts { hosts ≤ 32 }
    requires few { P.events world.old + hosts < 2 ^ 57 }
    ensures plays { Plays (P.settings world.old) (tick_of hosts) (P.stands world.old) (P.stands world.new) (P.allows world.old) (P.allows world.new)
        (K.taken sink.old) (K.taken sink.new) result }
    ensures settings { P.settings world.new ≡ P.settings world.old }
    ensures counted { P.events world.new ≤ P.events world.old + hosts + 1 }
    ensures sink { OnlyWrites K.faults K.is_same result sink.old sink.new }
{
    let answer = play(alloc, world, sink, &Event::Clock, &[])?;
    if answer.is_some() {
        return Ok(answer);
    }
    let turned = play_turns(alloc, world, sink, hosts)?;
    Ok(turned)
}

/// So many ticks.
pub(crate) fn play_ticks<P: ReplayWorld, K: FlushSink>(
    alloc: Global,
    world: &mut P,
    sink: &mut K,
    hosts: u32,
    n: u32,
) -> Result<Option<WorldFault>, Stop>
    requires hosts { hosts ≤ 32 }
    requires few { P.events world.old + n * (hosts + 1) ≤ 2 ^ 57 }
    ensures plays { Plays (P.settings world.old) (ticks hosts n) (P.stands world.old) (P.stands world.new) (P.allows world.old) (P.allows world.new)
        (K.taken sink.old) (K.taken sink.new) result }
    ensures settings { P.settings world.new ≡ P.settings world.old }
    ensures counted { P.events world.new ≤ P.events world.old + n * (hosts + 1) }
    ensures sink { OnlyWrites K.faults K.is_same result sink.old sink.new }
{
    for tick in 0..n {
        let answer = play_tick(alloc, world, sink, hosts)?;
        if answer.is_some() {
            return Ok(answer);
        }
    }
    Ok(None)
}
