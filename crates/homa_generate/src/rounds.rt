//! The rounds of a run.
ghost use Rattle.std.specs.Prelude.{◌≡◌, ◌<◌, OnOk, OnErr};
ghost use Rattle.generated_runs.specs.Rounds.{Generated, host_round, hosts_round, calls_round, next_round, rounds, is_over, most_handed, calls_a_round};
ghost use Rattle.generated_runs.specs.Generated.{most_rounds};
ghost use Rattle.homa_generate.specs.Progress.{holds_of, IsHeard, IsReady, IsSteady, IsFaulted};
ghost use Rattle.homa_generate.specs.Going.{IsAt, HasGone, HasStopped};
ghost use Rattle.homa_generate.specs.Steps.{one_call};

use crate::GenerateWorld;
use crate::lines::{Line, Progress, play};
use crate::setup::Setup;
use homa_io::Sink;
use homa_plain::HostId;
use homa_replay::{FlushSink, ReplayWorld, Stop};

/// How many packets a host is handed in a round, at most: twice as many as there are bytes.
const MOST_HANDED: u32 = 32_000;

/// How many calls are made in a round, at most.
const CALLS_A_ROUND: u32 = 20;

/// After how many rounds a run ends, if it wasn't over before.
const MOST_ROUNDS: u32 = 100_000;

// A host is handed packets until its round ends.
fn host_round<P: GenerateWorld, K: FlushSink>(
    setup: &Setup,
    world: &mut P,
    sink: &mut K,
    progress: &mut Progress,
    to: HostId,
) -> Result<(), Stop>
    requires ready { IsReady setup.now.settings (P.settings world.old) progress.old (P.events world.old) 1056000 }
    requires heard { IsHeard setup.now.prints K.taken }
    requires inside { to.0 < (P.settings world.old).hosts }
    ensures gone { OnOk result ((g : Generated) → IsAt (holds_of progress.old (K.taken sink.old)) (P.stands world.old) g
        → HasGone (host_round most_handed (P.settings world.old) to.0) (λ x. x) g (holds_of progress.old (K.taken sink.old))
        (holds_of progress.new (K.taken sink.new)) (P.stands world.new) (P.allows world.old) (P.allows world.new)) }
    ensures stopped { OnErr result ((g : Generated) → IsAt (holds_of progress.old (K.taken sink.old)) (P.stands world.old) g
        → HasStopped (host_round most_handed (P.settings world.old) to.0) g (K.taken sink.old) (K.taken sink.new) (P.allows world.old)) }
    ensures steady { IsSteady (P.settings world.old) (P.settings world.new) progress.old progress.new (P.events world.old) (P.events world.new) 1056000 }
    ensures faulted { IsFaulted result (K.faults sink.old) (K.faults sink.new) }
    ensures same { K.is_same sink.old sink.new }
{
    for _ in 0..MOST_HANDED {
        let Some(number) = progress.fabric.next(to, world.clock()) else {
            return Ok(());
        };
        play(setup, world, sink, progress, &Line::Deliver(number))?;
    }
    Ok(())
}

// Each host in order.
fn hosts_round<P: GenerateWorld, K: FlushSink>(
    setup: &Setup,
    world: &mut P,
    sink: &mut K,
    progress: &mut Progress,
) -> Result<(), Stop>
    requires ready { IsReady setup.now.settings (P.settings world.old) progress.old (P.events world.old) 33792000 }
    requires heard { IsHeard setup.now.prints K.taken }
    ensures gone { OnOk result ((g : Generated) → IsAt (holds_of progress.old (K.taken sink.old)) (P.stands world.old) g
        → HasGone (hosts_round (P.settings world.old) 0 (P.settings world.old).hosts) (λ x. x) g (holds_of progress.old (K.taken sink.old))
        (holds_of progress.new (K.taken sink.new)) (P.stands world.new) (P.allows world.old) (P.allows world.new)) }
    ensures stopped { OnErr result ((g : Generated) → IsAt (holds_of progress.old (K.taken sink.old)) (P.stands world.old) g
        → HasStopped (hosts_round (P.settings world.old) 0 (P.settings world.old).hosts) g (K.taken sink.old) (K.taken sink.new) (P.allows world.old)) }
    ensures steady { IsSteady (P.settings world.old) (P.settings world.new) progress.old progress.new (P.events world.old) (P.events world.new) 33792000 }
    ensures faulted { IsFaulted result (K.faults sink.old) (K.faults sink.new) }
    ensures same { K.is_same sink.old sink.new }
{
    for host in 0..setup.settings.hosts {
        host_round(setup, world, sink, progress, HostId(host as u16))?;
    }
    Ok(())
}

// A call is drawn; where its client has as many live calls as it may, it isn't made, but counts.
fn call<P: GenerateWorld, K: FlushSink>(
    setup: &Setup,
    world: &mut P,
    sink: &mut K,
    progress: &mut Progress,
) -> Result<(), Stop>
    requires ready { IsReady setup.now.settings (P.settings world.old) progress.old (P.events world.old) 33 }
    requires heard { IsHeard setup.now.prints K.taken }
    requires some { 0 < progress.old.left }
    ensures gone { OnOk result ((g : Generated) → IsAt (holds_of progress.old (K.taken sink.old)) (P.stands world.old) g
        → HasGone (one_call (P.settings world.old)) (λ x. x) g (holds_of progress.old (K.taken sink.old)) (holds_of progress.new (K.taken sink.new))
        (P.stands world.new) (P.allows world.old) (P.allows world.new)) }
    ensures stopped { OnErr result ((g : Generated) → IsAt (holds_of progress.old (K.taken sink.old)) (P.stands world.old) g
        → HasStopped (one_call (P.settings world.old)) g (K.taken sink.old) (K.taken sink.new) (P.allows world.old)) }
    ensures steady { IsSteady (P.settings world.old) (P.settings world.new) progress.old progress.new (P.events world.old) (P.events world.new) 33 }
    ensures faulted { IsFaulted result (K.faults sink.old) (K.faults sink.new) }
    ensures same { K.is_same sink.old sink.new }
{
    let traffic = progress.fabric.traffic();
    progress.left -= 1;
    if setup.settings.calls <= world.live(traffic.client) {
        return Ok(());
    }
    play(setup, world, sink, progress, &Line::Call(traffic))?;
    Ok(())
}

// So many calls, as long as some are still to be made.
fn calls_round<P: GenerateWorld, K: FlushSink>(
    setup: &Setup,
    world: &mut P,
    sink: &mut K,
    progress: &mut Progress,
) -> Result<(), Stop>
    requires ready { IsReady setup.now.settings (P.settings world.old) progress.old (P.events world.old) 660 }
    requires heard { IsHeard setup.now.prints K.taken }
    ensures gone { OnOk result ((g : Generated) → IsAt (holds_of progress.old (K.taken sink.old)) (P.stands world.old) g
        → HasGone (calls_round calls_a_round (P.settings world.old)) (λ x. x) g (holds_of progress.old (K.taken sink.old))
        (holds_of progress.new (K.taken sink.new)) (P.stands world.new) (P.allows world.old) (P.allows world.new)) }
    ensures stopped { OnErr result ((g : Generated) → IsAt (holds_of progress.old (K.taken sink.old)) (P.stands world.old) g
        → HasStopped (calls_round calls_a_round (P.settings world.old)) g (K.taken sink.old) (K.taken sink.new) (P.allows world.old)) }
    ensures steady { IsSteady (P.settings world.old) (P.settings world.new) progress.old progress.new (P.events world.old) (P.events world.new) 660 }
    ensures faulted { IsFaulted result (K.faults sink.old) (K.faults sink.new) }
    ensures same { K.is_same sink.old sink.new }
{
    for _ in 0..CALLS_A_ROUND {
        if progress.left == 0 {
            return Ok(());
        }
        call(setup, world, sink, progress)?;
    }
    Ok(())
}

// A round: a tick, then what each host is handed, then calls.
fn round<P: GenerateWorld, K: FlushSink>(
    setup: &Setup,
    world: &mut P,
    sink: &mut K,
    progress: &mut Progress,
) -> Result<(), Stop>
    requires ready { IsReady setup.now.settings (P.settings world.old) progress.old (P.events world.old) 40000000 }
    requires heard { IsHeard setup.now.prints K.taken }
    ensures gone { OnOk result ((g : Generated) → IsAt (holds_of progress.old (K.taken sink.old)) (P.stands world.old) g
        → HasGone (next_round (P.settings world.old)) (λ x. x) g (holds_of progress.old (K.taken sink.old)) (holds_of progress.new (K.taken sink.new))
        (P.stands world.new) (P.allows world.old) (P.allows world.new)) }
    ensures stopped { OnErr result ((g : Generated) → IsAt (holds_of progress.old (K.taken sink.old)) (P.stands world.old) g
        → HasStopped (next_round (P.settings world.old)) g (K.taken sink.old) (K.taken sink.new) (P.allows world.old)) }
    ensures steady { IsSteady (P.settings world.old) (P.settings world.new) progress.old progress.new (P.events world.old) (P.events world.new) 40000000 }
    ensures faulted { IsFaulted result (K.faults sink.old) (K.faults sink.new) }
    ensures same { K.is_same sink.old sink.new }
{
    play(setup, world, sink, progress, &Line::Tick)?;
    progress.fabric.begin();
    hosts_round(setup, world, sink, progress)?;
    calls_round(setup, world, sink, progress)?;
    Ok(())
}

// Whether all calls are made, and none is live.
fn is_over<P: GenerateWorld>(world: &P, progress: &Progress) -> bool
    ensures { (g : Generated) → P.stands world.now g.world → progress.now.left ≡ g.left → result ≡ is_over g }
{
    progress.left == 0 && world.is_idle()
}

/// Rounds go on until the run is over, or there were as many as there may be.
pub(crate) fn play_rounds<P: GenerateWorld, K: FlushSink>(
    setup: &Setup,
    world: &mut P,
    sink: &mut K,
    progress: &mut Progress,
) -> Result<(), Stop>
    requires ready { IsReady setup.now.settings (P.settings world.old) progress.old (P.events world.old) 4000000000000 }
    requires heard { IsHeard setup.now.prints K.taken }
    ensures gone { OnOk result ((g : Generated) → IsAt (holds_of progress.old (K.taken sink.old)) (P.stands world.old) g
        → HasGone (rounds most_rounds (P.settings world.old)) (λ x. x) g (holds_of progress.old (K.taken sink.old)) (holds_of progress.new (K.taken sink.new))
        (P.stands world.new) (P.allows world.old) (P.allows world.new)) }
    ensures stopped { OnErr result ((g : Generated) → IsAt (holds_of progress.old (K.taken sink.old)) (P.stands world.old) g
        → HasStopped (rounds most_rounds (P.settings world.old)) g (K.taken sink.old) (K.taken sink.new) (P.allows world.old)) }
    ensures steady { IsSteady (P.settings world.old) (P.settings world.new) progress.old progress.new (P.events world.old) (P.events world.new) 4000000000000 }
    ensures faulted { IsFaulted result (K.faults sink.old) (K.faults sink.new) }
    ensures same { K.is_same sink.old sink.new }
{
    for _ in 0..MOST_ROUNDS {
        round(setup, world, sink, progress)?;
        if is_over(world, progress) {
            return Ok(());
        }
    }
    Ok(())
}
