// The calls whose tick has come are started.
ghost use Rattle.std.specs.Prelude.{◌≡◌, ◌≤◌, ◌<◌, ◌^◌, ◌∷◌, ℕ, List, Some, [], IfErr, OnOk};
ghost use Rattle.homa_plain.specs.declared.fault.LineFault.TheVariants.{World as ByWorld};
ghost use Rattle.homa_plain.specs.declared.fault.WorldFault.TheVariants.{Start as CantStart};
ghost use Rattle.homa_plain.specs.World.{World};
ghost use Rattle.node_runs.specs.Course.{RefusedAt};
ghost use Rattle.node_runs.specs.Script.{Calls};
ghost use Rattle.node_turns.specs.Told.{ListedFront, Hears, AreDone, AreBroken};
ghost use Rattle.node_turns.specs.Same.{HaveStepped, IsSameOutside};
ghost use Rattle.node_turns.specs.Acting.{HasActed, IsCut};
ghost use Rattle.node_script.specs.Heads.{IsSound, setup_seen};
ghost use Rattle.homa_node.specs.Starting.{starting, called, OnStart, OnCut, IsCallStop};
ghost use Rattle.homa_node.specs.Coming.{calls_ahead, IsOpenAt, IsIdle, IsAllRead, HasRoom};
ghost use Rattle.homa_node.specs.Ends.{AreSameEnds};
ghost use Rattle.homa_node.specs.Started.{stopping, HasStarted, HasStopped};

use crate::{NextCall, look, take_due};
use homa_io::Source;
use node_io::{Net, Observer};
use node_script::{Reader, Setup, TimedCall};
use node_turns::{LoopHosts, NodeStop, send_frames, tell_entries};
use std::alloc::Global;

/// A call whose tick has come is started.
pub fn start_call<H: LoopHosts, N: Net, O: Observer>(
    alloc: Global,
    hosts: &mut H,
    call: &TimedCall,
    request: &[u8],
    net: &mut N,
    observer: &mut O,
) -> Result<(), NodeStop>
    requires client { call.now.client.0 < (H.settings hosts.old).hosts }
    requires server { call.now.server.0 < (H.settings hosts.old).hosts }
    requires few { H.steps hosts.old < 2 ^ 57 }
    ensures acted { OnOk result ((w : World) → H.stands hosts.old w → call.now.tick ≤ w.clock → (held : Calls)
        → HasActed (starting (H.settings hosts.old) held (called call.now request.now ∷ [])) (starting (H.settings hosts.old) held [])
        (H.settings hosts.old) w (H.stands hosts.new) (H.allows hosts.old) (H.allows hosts.new)
        (AreDone O.told O.kept O.strange (O.taken observer.old) (O.notes observer.old) (O.taken observer.new) (O.notes observer.new)
        (N.acts net.old) (N.acts net.new) (Hears 64) (Hears 64)) (N.sent net.old)
        (N.sent net.new) (N.gave net.old) (N.gave net.new)) }
    ensures cut { OnCut result ((w : World) → H.stands hosts.old w → call.now.tick ≤ w.clock → (held : Calls)
        → IsCut (starting (H.settings hosts.old) held (called call.now request.now ∷ [])) (H.settings hosts.old) w (H.allows hosts.old)
        (AreBroken O.told O.kept O.strange (O.taken observer.old) (O.notes observer.old) (O.taken observer.new) (N.acts net.old) (N.acts net.new) (Hears 64))
        (ListedFront (N.sent net.old) (N.sent net.new)) (N.gave net.old) (N.gave net.new)) }
    ensures refused { OnStart result
        (λ line fault. (w : World) → H.stands hosts.old w → call.now.tick ≤ w.clock → (held : Calls)
        → HasActed (starting (H.settings hosts.old) held (called call.now request.now ∷ [])) (stopping held (RefusedAt line (ByWorld (CantStart fault))))
        (H.settings hosts.old) w (λ v. Unit {0}) (H.allows hosts.old) (λ told. told ≡ [])
        (AreDone O.told O.kept O.strange (O.taken observer.old) (O.notes observer.old) (O.taken observer.new) (O.notes observer.new)
        (N.acts net.old) (N.acts net.new) (Hears 64) (Hears 64)) (N.sent net.old)
        (N.sent net.new) (N.gave net.old) (N.gave net.new)) }
    ensures stops { IfErr result IsCallStop }
    ensures stepped { HaveStepped H.settings H.clock H.steps hosts.old hosts.new 1 }
    ensures outside { IsSameOutside N.known N.faults O.faults O.is_same
        net.old net.new observer.old observer.new result }
{
    let answer = hosts.call(alloc, call.client, call.server, call.service, request)?;
    if let Err(fault) = answer {
        return Err(NodeStop::Start {
            line: call.line,
            fault,
        });
    }
    send_frames(hosts, net)?;
    tell_entries(hosts, observer)?;
    Ok(())
}

/// The calls whose tick has come are started, in order. No clause says when a line is read: the code reads one where each call
/// before it was started.
pub fn starts<H: LoopHosts, S: Source, N: Net, O: Observer>(
    alloc: Global,
    reader: &mut Reader,
    setup: &Setup,
    ahead: &mut NextCall,
    hosts: &mut H,
    source: &mut S,
    net: &mut N,
    observer: &mut O,
) -> Result<(), NodeStop>
    requires counted { IsOpenAt setup.now ahead.old reader.old }
    requires sound { IsSound setup.now }
    requires settings { H.settings hosts.old ≡ setup.now.settings }
    requires limit { reader.old.place.limit ≤ 2 ^ 36 }
    requires few { HasRoom (2 ^ 56) (H.steps hosts.old) ahead.old reader.old }

    // Of the calls that were to be made before, so many were started, and none that is left is due.
    ensures started { OnOk result (HasStarted (H.settings hosts.old) (H.stands hosts.old) (H.allows hosts.old) (N.sent net.old) (N.sent net.new)
        (N.gave net.old) (N.gave net.new) (S.left source.old) (S.left source.new) (calls_ahead (setup_seen setup.now) ahead.old reader.old)
        (H.stands hosts.new) (H.allows hosts.new)
        (AreDone O.told O.kept O.strange (O.taken observer.old) (O.notes observer.old) (O.taken observer.new) (O.notes observer.new)
        (N.acts net.old) (N.acts net.new) (Hears 64) (Hears 64))
        (calls_ahead (setup_seen setup.now) ahead.new reader.new)) }
    ensures idle { OnOk result (IsIdle ahead.new (H.clock hosts.new)) }
    ensures waits { OnOk result ((w : World) → H.stands hosts.new w → IsIdle ahead.new w.clock) }
    ensures all { OnOk result ((bytes : List ℕ) → S.left source.old ≡ Some bytes → IsAllRead ahead.old (Some bytes) → IsAllRead ahead.new (S.left source.new)) }

    // Or the next line is refused, or a call can't start, or the hosts stopped.
    ensures stopped { IfErr result (HasStopped (H.settings hosts.old) (H.stands hosts.old) (H.allows hosts.old) (N.sent net.old) (N.sent net.new)
        (N.gave net.old) (N.gave net.new) (S.left source.old) (S.left source.new) (calls_ahead (setup_seen setup.now) ahead.old reader.old)
        O.told O.kept O.strange (H.stands hosts.new) (H.allows hosts.new) (O.taken observer.old) (O.notes observer.old) (O.taken observer.new)
        (O.notes observer.new) (N.acts net.old) (N.acts net.new)) }

    ensures counted { OnOk result (IsOpenAt setup.now ahead.new reader.new) }
    ensures limit { reader.new.place.limit ≡ reader.old.place.limit }
    ensures room { OnOk result ((most : ℕ) → HasRoom most (H.steps hosts.old) ahead.old reader.old → HasRoom most (H.steps hosts.new) ahead.new reader.new) }
    ensures settings { H.settings hosts.new ≡ H.settings hosts.old }
    ensures clock { H.clock hosts.new ≡ H.clock hosts.old }
    ensures known { N.known net.new ≡ N.known net.old }
    ensures ends { AreSameEnds S.faults N.faults O.faults S.is_same O.is_same source.old source.new net.old net.new
        observer.old observer.new result }
{
    look(reader, setup, ahead, source)?;
    'calls: while let Some(call) = take_due(ahead, hosts.now()) {
        start_call(alloc, hosts, &call, reader.request(call.len), net, observer)?;
        look(reader, setup, ahead, source)?;
    }
    Ok(())
}
