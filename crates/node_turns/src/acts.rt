// What the hosts of a node do in a loop turn.
ghost use Rattle.std.specs.Prelude.{◌≡◌, ◌==◌, ◌||◌, nat_lt, ◌≤◌, ◌<◌, ◌+◌, ◌^◌, true, ◌*◌, List, IfErr, OnOk, OnErr, length};
ghost use Rattle.homa_plain.specs.declared.id.HostId.{HostId as Host};
ghost use Rattle.std.specs.List.{AllByRecursion};
ghost use Rattle.homa_plain.specs.World.{World};
ghost use Rattle.homa_plain.specs.Entries.{PlainEntry};
ghost use Rattle.node_runs.specs.Course.{GoesOn, IsReceived, has_turn, hears, hosts_act, most_received};
ghost use Rattle.node_turns.specs.Told.{Listed, ListedFront, Hears, Turns, AreTold, AreFront, AreDone, AreBroken, AreHalted, SomeStrange};
ghost use Rattle.node_turns.specs.Faults.{counts, AreFaults};
ghost use Rattle.node_turns.specs.Same.{HaveStepped, IsSameOutside};
ghost use Rattle.node_turns.specs.Acting.{HasActed, IsCut, IsMidst, IsHeardStop, OnStrange, with_left, goes_on, clock_reports};

use crate::telling::{send_frames, tell_entries};
use crate::{LoopHosts, NodeStop};
use homa_plain::{Entry, Frame, HostId, LAST_TICK};
use node_io::{Got, Net, Observer};
use std::alloc::Global;

/// How many datagrams a host receives in a loop turn at most.
const MOST_RECEIVED: u32 = 64;

/// A turn of a host.
pub fn has_turn<H: LoopHosts, N: Net, O: Observer>(
    hosts: &mut H,
    host: HostId,
    net: &mut N,
    observer: &mut O,
) -> Result<(), NodeStop>
    requires host { host.0 < (H.settings hosts.old).hosts }
    requires few { H.steps hosts.old < 2 ^ 57 }
    ensures acted { OnOk result ((w : World) → H.stands hosts.old w
        → HasActed (with_left (λ n. GoesOn (has_turn (H.settings hosts.old) host n))) goes_on (H.settings hosts.old) w (H.stands hosts.new)
        (H.allows hosts.old) (H.allows hosts.new)
        (AreDone O.told O.kept O.strange (O.taken observer.old) (O.notes observer.old) (O.taken observer.new) (O.notes observer.new)
        (N.acts net.old) (N.acts net.new) (Turns host) (Hears 64)) (N.sent net.old)
        (N.sent net.new) (N.gave net.old) (N.gave net.new)) }
    ensures cut { OnErr result ((w : World) → H.stands hosts.old w
        → IsCut (with_left (λ n. GoesOn (has_turn (H.settings hosts.old) host n))) (H.settings hosts.old) w (H.allows hosts.old)
        (AreBroken O.told O.kept O.strange (O.taken observer.old) (O.notes observer.old) (O.taken observer.new) (N.acts net.old) (N.acts net.new) (Turns host))
        (ListedFront (N.sent net.old) (N.sent net.new)) (N.gave net.old) (N.gave net.new)) }
    ensures midst { IfErr result IsMidst }
    ensures stepped { HaveStepped H.settings H.clock H.steps hosts.old hosts.new 1 }
    ensures outside { IsSameOutside N.known N.faults O.faults O.is_same
        net.old net.new observer.old observer.new result }
{
    observer.turning(host)?;
    hosts.turn(host);
    send_frames(hosts, net)?;
    tell_entries(hosts, observer)?;
    Ok(())
}

// What a frame holds can have been received. It does nothing: that a slice holds bytes is known of an argument.
fn is_received(bytes: &[u8])
    requires { length bytes.now ≤ 1500 }
    ensures { (from : Host) → IsReceived (record { from = from; bytes = bytes.now }) }
{}

/// A host receives up to 64 datagrams, until there is none.
pub fn hears<H: LoopHosts, N: Net, O: Observer>(
    alloc: Global,
    hosts: &mut H,
    host: HostId,
    net: &mut N,
    observer: &mut O,
) -> Result<(), NodeStop>
    requires host { host.0 < (H.settings hosts.old).hosts }
    requires few { H.steps hosts.old + 64 < 2 ^ 57 }
    requires known { (h : Host) → N.known net.old h ≡ true → h.0 < (H.settings hosts.old).hosts }
    ensures acted { OnOk result ((w : World) → H.stands hosts.old w
        → HasActed (hears (H.settings hosts.old) host most_received) goes_on (H.settings hosts.old) w (H.stands hosts.new) (H.allows hosts.old)
        (H.allows hosts.new)
        (AreDone O.told O.kept O.strange (O.taken observer.old) (O.notes observer.old) (O.taken observer.new) (O.notes observer.new)
        (N.acts net.old) (N.acts net.new) (Hears 64) (Turns host)) (N.sent net.old)
        (N.sent net.new) (N.gave net.old) (N.gave net.new)) }
    ensures cut { OnErr result ((w : World) → H.stands hosts.old w
        → IsCut (hears (H.settings hosts.old) host most_received) (H.settings hosts.old) w (H.allows hosts.old)
        (AreBroken O.told O.kept O.strange (O.taken observer.old) (O.notes observer.old) (O.taken observer.new) (N.acts net.old) (N.acts net.new) (Hears 64))
        (ListedFront (N.sent net.old) (N.sent net.new)) (N.gave net.old) (N.gave net.new)) }
    ensures strange { OnStrange result
        ((w : World) → H.stands hosts.old w → IsCut (hears (H.settings hosts.old) host most_received) (H.settings hosts.old) w (H.allows hosts.old)
        (AreHalted O.told O.kept O.strange (O.taken observer.old) (O.notes observer.old) (O.taken observer.new) (N.acts net.old) (N.acts net.new) (Hears 64))
        (Listed (N.sent net.old) (N.sent net.new)) (N.gave net.old) (N.gave net.new)) }
    ensures some_strange { OnStrange result (SomeStrange O.strange) }
    ensures midst { IfErr result IsHeardStop }
    ensures stepped { HaveStepped H.settings H.clock H.steps hosts.old hosts.new 64 }
    ensures outside { IsSameOutside N.known N.faults O.faults O.is_same
        net.old net.new observer.old observer.new result }
{
    let mut frame = Frame::empty();
    for i in 0..MOST_RECEIVED {
        let Got::Frame { from } = net.recv(host, &mut frame)? else {
            return Ok(());
        };
        let bytes = frame.bytes();
        is_received(bytes);
        observer.seen(&Entry::Recv { host, from, bytes })?;
        hosts.hear(alloc, host, from, bytes)?;
        send_frames(hosts, net)?;
        tell_entries(hosts, observer)?;
    }
    Ok(())
}

/// Each local host receives, and then has its turn.
pub fn hosts_act<H: LoopHosts, N: Net, O: Observer>(
    alloc: Global,
    hosts: &mut H,
    locals: &[HostId],
    net: &mut N,
    observer: &mut O,
) -> Result<(), NodeStop>
    requires there { AllByRecursion (λ host. host.0 < (H.settings hosts.old).hosts) locals.now }
    requires fit { length locals.now ≤ 32 }
    requires few { H.steps hosts.old + 2080 < 2 ^ 57 }
    requires known { (h : Host) → N.known net.old h ≡ true → h.0 < (H.settings hosts.old).hosts }
    ensures acted { OnOk result ((w : World) → H.stands hosts.old w
        → HasActed (with_left (hosts_act (H.settings hosts.old) locals.now)) goes_on (H.settings hosts.old) w (H.stands hosts.new) (H.allows hosts.old)
        (H.allows hosts.new)
        (AreDone O.told O.kept O.strange (O.taken observer.old) (O.notes observer.old) (O.taken observer.new) (O.notes observer.new)
        (N.acts net.old) (N.acts net.new) (Hears 64) (Hears 64)) (N.sent net.old)
        (N.sent net.new) (N.gave net.old) (N.gave net.new)) }
    ensures cut { OnErr result ((w : World) → H.stands hosts.old w
        → IsCut (with_left (hosts_act (H.settings hosts.old) locals.now)) (H.settings hosts.old) w (H.allows hosts.old)
        (AreBroken O.told O.kept O.strange (O.taken observer.old) (O.notes observer.old) (O.taken observer.new) (N.acts net.old) (N.acts net.new) (Hears 64))
        (ListedFront (N.sent net.old) (N.sent net.new)) (N.gave net.old) (N.gave net.new)) }
    ensures strange { OnStrange result
        ((w : World) → H.stands hosts.old w → IsCut (with_left (hosts_act (H.settings hosts.old) locals.now)) (H.settings hosts.old) w (H.allows hosts.old)
        (AreHalted O.told O.kept O.strange (O.taken observer.old) (O.notes observer.old) (O.taken observer.new) (N.acts net.old) (N.acts net.new) (Hears 64))
        (Listed (N.sent net.old) (N.sent net.new)) (N.gave net.old) (N.gave net.new)) }
    ensures some_strange { OnStrange result (SomeStrange O.strange) }
    ensures midst { IfErr result IsHeardStop }
    ensures stepped { HaveStepped H.settings H.clock H.steps hosts.old hosts.new (65 * length locals.now) }
    ensures outside { IsSameOutside N.known N.faults O.faults O.is_same
        net.old net.new observer.old observer.new result }
{
    for i in 0..locals.len() {
        let host = locals[i];
        hears(alloc, hosts, host, net, observer)?;
        has_turn(hosts, host, net, observer)?;
    }
    Ok(())
}

// The clock is told in the first loop turn, and where it rose since the last one.
fn is_news<H: LoopHosts>(hosts: &H, n: u64, now: u64) -> bool
    ensures { (w : World) → H.stands hosts.now w → result ≡ (n == 1 || nat_lt w.clock now) }
{
    n == 1 || hosts.now() < now
}

/// The clock stands at this tick: that is told in the first loop turn, and where it rose since the last one.
pub fn clock_stands<H: LoopHosts, O: Observer>(
    hosts: &mut H,
    n: u64,
    now: u64,
    observer: &mut O,
) -> Result<(), NodeStop>
    requires rises { H.clock hosts.old ≤ now }
    requires most { now ≤ LAST_TICK }
    ensures told { OnOk result ((w : World) → H.stands hosts.old w → H.stands hosts.new (record w { clock = now }) ×
        AreTold O.told O.kept O.strange (O.taken observer.old) (O.notes observer.old) (O.taken observer.new) (O.notes observer.new) (clock_reports n now w)) }
    ensures cut { OnErr result ((w : World) → H.stands hosts.old w
        → AreFront O.told O.kept O.strange (O.taken observer.old) (O.notes observer.old) (O.taken observer.new) (clock_reports n now w)) }
    ensures allows { (told : List PlainEntry) → H.allows hosts.new told → H.allows hosts.old told }
    ensures clock { H.clock hosts.new ≡ now }
    ensures midst { IfErr result IsMidst }
    ensures settings { H.settings hosts.new ≡ H.settings hosts.old }
    ensures steps { H.steps hosts.new ≡ H.steps hosts.old }
    ensures faults { AreFaults (counts 0 0 (O.faults observer.old)) (counts 0 0 (O.faults observer.new)) result }
    ensures same { O.is_same observer.old observer.new }
{
    let is_told = is_news(hosts, n, now);
    hosts.stand_at(now);
    if is_told {
        observer.seen(&Entry::Clock { tick: now })?;
    }
    Ok(())
}
