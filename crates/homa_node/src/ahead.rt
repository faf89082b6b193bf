// What is known of the calls that are still to be made.
ghost use Rattle.std.specs.Prelude.{◌≡◌, ◌≤◌, ◌<◌, ℕ, List, Some, IfSome, IfNone, IfErr, OnOk};
ghost use Rattle.node_turns.specs.Faults.{counts, AreFaults};
ghost use Rattle.node_script.specs.Heads.{setup_seen};
ghost use Rattle.homa_node.specs.Coming.{HasLooked, IsLooked, IsOpenAt, IsIdle, HasRoom, IsLookStop, lines_ahead, look_stop};
ghost use Rattle.homa_node.specs.declared.ahead.NextCall.TheVariants.{Unread, Call};

use homa_io::Source;
use homa_plain::LineFault;
use node_script::{CallStop, Reader, Setup, TimedCall};
use node_turns::NodeStop;

/// What is known of the calls that are still to be made.
#[derive(Clone, Copy)]
pub enum NextCall {
    /// The next line isn't read.
    Unread,
    /// This call is next.
    Call(TimedCall),
    /// There is none.
    Ended,
}

// Why no call is next. A line behind `go` is refused by its words, or since a host isn't there.
fn stop_at(line: u64, stop: CallStop) -> NodeStop
    ensures { result ≡ look_stop line stop }
{
    match stop {
        CallStop::Read(_) => NodeStop::Read,
        CallStop::Fault(LineFault::Script(fault)) => NodeStop::Script { line, fault },
        CallStop::Fault(LineFault::World(_)) => NodeStop::Host(line),
    }
}

/// Reads on, where the next line isn't read.
pub fn look<S: Source>(
    reader: &mut Reader,
    setup: &Setup,
    ahead: &mut NextCall,
    source: &mut S,
) -> Result<(), NodeStop>
    requires counted { IsOpenAt setup.now ahead.old reader.old }
    requires end { 1 ≤ setup.now.end }

    // The calls that are still to be made stay the same, whatever stands behind.
    ensures looked { (bytes : List ℕ) → S.left source.old ≡ Some bytes
        → HasLooked (setup_seen setup.now) ahead.old reader.old ahead.new reader.new bytes (S.left source.new) result }
    ensures stops { IfErr result IsLookStop }
    ensures known { OnOk result (IsLooked ahead.new) }
    ensures counted { OnOk result (IsOpenAt setup.now ahead.new reader.new) }
    ensures limit { reader.new.place.limit ≡ reader.old.place.limit }
    ensures room { OnOk result ((most steps : ℕ) → HasRoom most steps ahead.old reader.old → HasRoom most steps ahead.new reader.new) }
    ensures on { OnOk result (ahead.old ≡ Unread → lines_ahead ahead.new reader.new < lines_ahead ahead.old reader.old) }

    ensures faults { AreFaults (counts (S.faults source.old) 0 0) (counts (S.faults source.new) 0 0) result }
    ensures same { S.is_same source.old source.new }
{
    let NextCall::Unread = *ahead else {
        return Ok(());
    };
    match reader.next_call(setup, source) {
        Ok(Some(call)) => {
            *ahead = NextCall::Call(call);
            Ok(())
        }
        Ok(None) => {
            *ahead = NextCall::Ended;
            Ok(())
        }
        Err(stop) => Err(stop_at(reader.line(), stop)),
    }
}

/// The next call, if its tick has come. Then the next line isn't read.
pub fn take_due(ahead: &mut NextCall, now: u64) -> Option<TimedCall>
    requires { IsLooked ahead.old }
    ensures some { IfSome result (λ c. ahead.old ≡ Call c) }
    ensures due { IfSome result (λ c. c.tick ≤ now) }
    ensures taken { IfSome result (λ c. ahead.new ≡ Unread) }
    ensures none { IfNone result (ahead.new ≡ ahead.old) }
    ensures idle { IfNone result (IsIdle ahead.new now) }
{
    let NextCall::Call(call) = *ahead else {
        return None;
    };
    if now < call.tick {
        return None;
    }
    *ahead = NextCall::Unread;
    Some(call)
}
