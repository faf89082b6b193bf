//! The events of a line, whose entries are counted.
ghost use Rattle.std.specs.Prelude.{◌≡◌, ◌≤◌, ◌<◌, ◌+◌, ◌^◌, ◌∷◌, [], drop, length, false, IfOk};
ghost use Rattle.homa_plain.specs.World.{World};
ghost use Rattle.homa_plain.specs.Replay.{turns_of, ticks};
ghost use Rattle.generated_runs.specs.Rounds.{all_sent};
ghost use Rattle.homa_plain.specs.Entries.{is_memory};
ghost use Rattle.homa_generate.specs.Carried.{IsCarried};
ghost use Rattle.homa_generate.specs.GenerateWorld.{AreNew};

use crate::{Counts, GenerateWorld};
use homa_fabric::Fabric;
use homa_plain::{Event, HostId, WorldFault};
use homa_replay::ReplayWorld;
use std::alloc::{AllocError, Global};

// That an event wasn't done; or there is no memory.
fn refused(fault: WorldFault) -> Result<bool, AllocError>
    ensures { IfOk result (λ done. (done ≡ false) × (is_memory fault ≡ false)) }
{
    if matches!(fault, WorldFault::NoMemory) {
        return Err(AllocError);
    }
    Ok(false)
}

/// Does an event and counts its entries; whether the world did it. An event that the world refuses changes nothing.
pub(crate) fn happen<P: GenerateWorld>(
    alloc: Global,
    world: &mut P,
    counts: &mut Counts,
    event: &Event,
    bytes: &[u8],
) -> Result<bool, AllocError>
    requires few { P.events world.old < 2 ^ 57 }
    ensures carried { IfOk result (λ done. (w : World) → P.stands world.old w
        → IsCarried (P.settings world.old) w (record { event = event.now; bytes = bytes.now } ∷ []) (P.stands world.new) counts.old counts.new
        (P.allows world.old) (P.allows world.new) done) }
    ensures settings { P.settings world.new ≡ P.settings world.old }
    ensures counted { P.events world.new ≤ P.events world.old + 1 }
{
    match world.apply(alloc, event, bytes) {
        Ok(()) => {}
        Err(fault) => return refused(fault),
    }
    world.count_lines(counts)?;
    Ok(true)
}

// A turn of each host, up to one that the world refuses; whether it refused none.
fn turns<P: GenerateWorld>(
    alloc: Global,
    world: &mut P,
    counts: &mut Counts,
    hosts: u32,
) -> Result<bool, AllocError>
    requires hosts { hosts ≤ 32 }
    requires few { P.events world.old + hosts ≤ 2 ^ 57 }
    ensures carried { IfOk result (λ done. (w : World) → P.stands world.old w
        → IsCarried (P.settings world.old) w (turns_of 0 hosts) (P.stands world.new) counts.old counts.new (P.allows world.old) (P.allows world.new) done) }
    ensures settings { P.settings world.new ≡ P.settings world.old }
    ensures counted { P.events world.new ≤ P.events world.old + hosts }
{
    for host in 0..hosts {
        let turn = Event::Turn {
            host: HostId(host as u16),
        };
        if !happen(alloc, world, counts, &turn, &[])? {
            return Ok(false);
        }
    }
    Ok(true)
}

/// The clock goes on, and then each host has a turn, up to one that the world refuses; whether it refused none.
pub(crate) fn tick<P: GenerateWorld>(
    alloc: Global,
    world: &mut P,
    counts: &mut Counts,
    hosts: u32,
) -> Result<bool, AllocError>
    requires hosts { hosts ≤ 32 }
    requires few { P.events world.old + hosts < 2 ^ 57 }
    ensures carried { IfOk result (λ done. (w : World) → P.stands world.old w
        → IsCarried (P.settings world.old) w (ticks hosts 1) (P.stands world.new) counts.old counts.new (P.allows world.old) (P.allows world.new) done) }
    ensures settings { P.settings world.new ≡ P.settings world.old }
    ensures counted { P.events world.new ≤ P.events world.old + hosts + 1 }
{
    if !happen(alloc, world, counts, &Event::Clock, &[])? {
        return Ok(false);
    }
    turns(alloc, world, counts, hosts)
}

/// The packets with numbers from `first` on enter the fabric; one that the world doesn't show any more doesn't.
pub(crate) fn enter<P: GenerateWorld>(world: &P, fabric: &mut Fabric, first: u64)
    ensures entered { (w : World) → P.stands world.now w → AreNew (P.settings world.now) w first
        → fabric.new.fabric ≡ all_sent (P.settings world.now) first (drop first w.packets) fabric.old.fabric }
    ensures life { fabric.new.life ≡ fabric.old.life }
    ensures hosts { length fabric.new.fabric.destinations ≡ length fabric.old.fabric.destinations }
{
    let end = world.packets();
    for number in first..end {
        if let Some(packet) = world.packet(number) {
            fabric.sent(number, packet.to, packet.level, packet.len, packet.tick);
        }
    }
}
