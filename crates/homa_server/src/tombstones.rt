//! How long a tombstone stays, and the NEED_ACK that comes before one.
ghost use Rattle.std.specs.Prelude.{◌≡◌, ℕ, ◌+◌, ◌<◌, ◌≤◌, true, Some, None};
ghost use Rattle.std.specs.Prelude.{IfNone};
ghost use Rattle.homa_plain.specs.declared.id.CallId.{CallId};
ghost use Rattle.homa_plain.specs.declared.id.HostId.{HostId};
ghost use Rattle.homa_plain.specs.Settings.{IsValid};
ghost use Rattle.homa_plain.specs.declared.settings.Settings.{Settings};
ghost use Rattle.homa_plain.specs.Rules.{Moment as PlainMoment};
ghost use Rattle.homa_plain.specs.Tombstones.{state_acked};
ghost use Rattle.msg_pool.specs.Pool.{Pool};
ghost use Rattle.homa_server.specs.Held.{is_answering, state_part, seen_state, seen_server};
ghost use Rattle.homa_in.specs.Pieces.{moment_with};
ghost use Rattle.homa_server.specs.Answers.{acked_of};
ghost use Rattle.homa_plain.specs.Timers.{server_acts};
ghost use Rattle.homa_server.specs.Answers.{after_act};
ghost use Rattle.homa_server.specs.Answers.{acted_of, IfResend};

use crate::ServerAct;
use crate::row::Row;
use crate::state::State;
use homa_plain::{CallId, LAST_HOST_TICK, LONGEST_MESSAGE, Settings};

impl Row {
    /// The client has finished the call: a tombstone stays for as long as packets of it may come. Answers up to which
    /// tick; none where the row is neither held nor replied to, which then stays.
    pub fn bury_at_ack(&mut self, now: u64, settings: &Settings) -> Option<u64>
        requires valid { IsValid settings.now }
        requires now { now ≤ LAST_HOST_TICK }
        ensures did { (id : CallId) (host : HostId) (order free rows : ℕ) (pool : Pool)
            → let m = moment_with host now order free rows in
            state_acked settings.now m id (seen_server pool self.old) (seen_state pool self.old.state)
            ≡ acked_of m id (Some (seen_server pool self.new)) result }
        ensures same { IfNone result (self.new ≡ self.old) }
        ensures part { state_part self.new.state ≡ state_part self.old.state }
    {
        match &self.state {
            State::Held { .. } | State::Replying { .. } => {
                let until = now + settings.span();
                self.state = State::Buried { until };
                Some(until)
            }
            _ => None,
        }
    }

    // The client is asked once more, or the response is given up. The client may still be patient, and its request may
    // be under way for a span after that, so the tombstone stays for both.
    pub(crate) fn replying_acts(&mut self, id: CallId, now: u64, settings: &Settings) -> ServerAct
        requires answering { is_answering self.old.state ≡ true }
        requires valid { IsValid settings.now }
        requires now { now ≤ LAST_HOST_TICK }
        ensures did { (m : PlainMoment) (pool : Pool) → m.now ≡ now
            → server_acts settings.now m id (seen_server pool self.old) ≡ acted_of settings.now m id (after_act pool self.new result) result }
        ensures asks { IfResend result (λ from to. (from < to) × (to ≤ LONGEST_MESSAGE)) }
        ensures part { state_part self.new.state ≡ None }
    {
        let State::Replying { base, count, .. } = &mut self.state else {
            unreachable!()
        };
        if *count >= settings.tries {
            let until = now + 2 * settings.span() + settings.patience();
            self.state = State::Buried { until };
            return ServerAct::Bury(id, until);
        }
        *base = now;
        *count += 1;
        ServerAct::NeedAck
    }
}
