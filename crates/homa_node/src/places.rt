// The net learns where the hosts are, and the node which of them are its own.
ghost use Rattle.std.specs.Prelude.{◌≡◌, ◌≤◌, ◌<◌, false, nat_lt, length, map, OnOk, OnErr, IfOk};
ghost use Rattle.std.specs.List.{All, AllByRecursion};
ghost use Rattle.homa_io.specs.Outside.{HasRisen};
ghost use Rattle.homa_plain.specs.declared.id.HostId.{HostId as Host};
ghost use Rattle.node_runs.specs.Course.{first_inc, locals_from};
ghost use Rattle.node_runs.specs.Acts.{connects};
ghost use Rattle.node_turns.specs.Told.{listed, ListedFront};
ghost use Rattle.node_script.specs.Setup.{place_seen};
ghost use Rattle.node_script.specs.Heads.{IsPlaced};

use homa_plain::HostId;
use node_io::{Net, NetFailed};
use node_script::Place;
use std::alloc::{AllocError, Global};

/// The local hosts are bound, and then the others are routed, in order.
pub fn connect<N: Net>(net: &mut N, places: &[Place]) -> Result<(), NetFailed>
    requires few { length places.now ≤ 32 }
    requires none_known { (h : Host) → N.known net.old h ≡ false }
    ensures known { OnOk result ((h : Host) → N.known net.new h ≡ nat_lt h.0 (length places.now)) }
    ensures acts { OnOk result (N.acts net.new ≡ listed (N.acts net.old) (connects (map place_seen places.now))) }
    ensures err_acts { OnErr result (ListedFront (N.acts net.old) (N.acts net.new) (connects (map place_seen places.now))) }
    ensures sent { N.sent net.new ≡ N.sent net.old }
    ensures gave { N.gave net.new ≡ N.gave net.old }
    ensures risen { OnErr result (HasRisen (N.faults net.old) (N.faults net.new)) }
    ensures quiet { OnOk result (N.faults net.new ≡ N.faults net.old) }
    ensures never_falls { N.faults net.old ≤ N.faults net.new }
{
    for host in 0..places.len() {
        if let Place::Local { port, .. } = places[host] {
            net.bind(HostId(host as u16), port)?;
        }
    }
    for other in 0..places.len() {
        if let Place::Remote { port } = places[other] {
            net.route(HostId(other as u16), port)?;
        }
    }
    Ok(())
}

// The incarnation of a host; one that is elsewhere does nothing here.
fn first_inc(place: &Place) -> u32
    requires placed { IsPlaced place.now }
    ensures inc { result ≡ first_inc (place_seen place.now) }
    ensures lives { 1 ≤ result }
{
    match place {
        Place::Local { inc, .. } => *inc,
        Place::Remote { .. } => 1,
    }
}

/// The incarnations of all hosts.
pub fn first_incs(alloc: Global, places: &[Place]) -> Result<Vec<u32>, AllocError>
    requires placed { All IsPlaced places.now }
    ensures incs { IfOk result (λ incs. incs.items ≡ map first_inc (map place_seen places.now)) }
    ensures lives { IfOk result (λ incs. AllByRecursion (λ inc. 1 ≤ inc) incs.items) }
{
    let mut incs = Vec::with_capacity(alloc, places.len())?;
    for place in places {
        incs.push(first_inc(place))?;
    }
    Ok(incs)
}

/// The local hosts, in order.
pub fn locals(alloc: Global, places: &[Place]) -> Result<Vec<HostId>, AllocError>
    requires few { length places.now ≤ 32 }
    ensures locals { IfOk result (λ ids. ids.items ≡ locals_from 0 (map place_seen places.now)) }
{
    let mut ids = Vec::with_capacity(alloc, places.len())?;
    for host in 0..places.len() {
        if let Place::Local { .. } = places[host] {
            ids.push(HostId(host as u16))?;
        }
    }
    Ok(ids)
}
