// All cards, or all outputs of the switch.
ghost use Rattle.std.specs.Prelude.{◌≡◌, ◌<◌, ◌+◌, ◌^◌, length, true, false, Ok, None, IfOk, IfSome, OnErr};
ghost use Rattle.packet_network.specs.Outlets.{waiting_at_all};
ghost use Rattle.packet_network.specs.Measures.{waits_of, level_of};

use crate::event::Place;
use crate::measure::{Level, Waits};
use crate::outlet::Outlet;
use crate::packet::SimPacket;
use experiment::{Card, Network};
use network_parts::Passage;
use run_gauges::SENDERS;
use std::alloc::{AllocError, Global};

/// The queues of so many hosts, in this order, and with this room.
pub(crate) fn open_all(
    alloc: Global,
    network: &Network,
    order: Card,
    room: u64,
) -> Result<Vec<Outlet>, AllocError>
    ensures all { IfOk result (λ os. length os.items ≡ 32) }
    ensures empty { IfOk result (λ os. waiting_at_all os.items ≡ 0) }
{
    let mut outlets = Vec::with_capacity(alloc, SENDERS)?;
    for _ in 0..SENDERS {
        outlets.push(Outlet::open(alloc, network, order, room)?)?;
    }
    Ok(outlets)
}

/// A packet comes to one of these; false where it has no room.
#[tactic(auto, using(crate::proofs::StandingLaws::one_changes))]
pub(crate) fn enter_at(
    outlets: &mut [Outlet],
    place: Place,
    now: u64,
    packet: SimPacket,
) -> Result<bool, AllocError>
    requires { length outlets.old ≡ 32 }
    ensures fits { result ≡ Ok true → waiting_at_all outlets.new ≡ waiting_at_all outlets.old + 1 }
    ensures refused { result ≡ Ok false → waiting_at_all outlets.new ≡ waiting_at_all outlets.old }
    ensures err { OnErr result (waiting_at_all outlets.new ≡ waiting_at_all outlets.old) }
{
    outlets[place.host as usize].enter(now, packet)
}

/// The next packet of one of these begins, if its link is free.
#[tactic(auto, using(crate::proofs::StandingLaws::one_changes))]
pub(crate) fn begin_at(
    outlets: &mut [Outlet],
    place: Place,
    now: u64,
) -> Option<(SimPacket, Passage)>
    requires { length outlets.old ≡ 32 }
    ensures some { IfSome result (λ _. waiting_at_all outlets.new + 1 ≡ waiting_at_all outlets.old) }
    ensures there { IfSome result (λ r. r.1.there < 2 ^ 63) }
    ensures none { result ≡ None → waiting_at_all outlets.new ≡ waiting_at_all outlets.old }
{
    outlets[place.host as usize].begin(now)
}

/// Counting begins anew at all of these.
#[tactic(auto, using(crate::proofs::StandingLaws::one_changes))]
pub(crate) fn restart_all(outlets: &mut [Outlet], now: u64)
    ensures { waiting_at_all outlets.new ≡ waiting_at_all outlets.old }
{
    for outlet in outlets.iter_mut() {
        outlet.restart(now);
    }
}

/// How packets waited at all of these up to a moment.
pub(crate) fn all_waits(outlets: &[Outlet], now: u64) -> Waits
    ensures { result ≡ waits_of now outlets.now }
{
    let mut waits = Waits::new();
    for outlet in outlets.iter() {
        waits = outlet.tally.add_waits(now, &waits);
    }
    waits
}

/// What waited and passed at a level of all of these up to a moment.
pub(crate) fn level_of_all(outlets: &[Outlet], level: usize, now: u64) -> Level
    requires { level < 8 }
    ensures { result ≡ level_of now level outlets.now }
{
    let mut sum = Level::new();
    for outlet in outlets.iter() {
        sum = outlet.tally.add_level(now, level, &sum);
    }
    sum
}
