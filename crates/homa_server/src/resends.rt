//! RESEND after silence: which bytes of a request a row asks for again, and when it gives up. `timers` says when it is due.
//! `homa_client/src/resends` is the client's side.
ghost use Rattle.std.specs.Prelude.{◌≡◌, ◌+◌, ◌<◌, ◌≤◌, true, Some};
ghost use Rattle.homa_plain.specs.declared.id.CallId.{CallId};
ghost use Rattle.homa_plain.specs.declared.settings.Settings.{Settings};
ghost use Rattle.homa_plain.specs.Rules.{Moment as PlainMoment};
ghost use Rattle.homa_plain.specs.Timers.{server_acts};
ghost use Rattle.msg_pool.specs.Pool.{Pool};
ghost use Rattle.homa_in.specs.Pooled.{IsInPool};
ghost use Rattle.homa_server.specs.Held.{is_arriving};
ghost use Rattle.homa_server.specs.Held.{state_part, seen_server};
ghost use Rattle.homa_server.specs.Answers.{HasTimer, after_act};
ghost use Rattle.homa_server.specs.Answers.{acted_of, IfResend};

use crate::ServerAct;
use crate::row::Row;
use crate::state::State;
use homa_plain::{CallId, LAST_HOST_TICK, LONGEST_MESSAGE, Settings};

impl Row {
    // The request is asked for again, or given up.
    pub(crate) fn receiving_acts(&mut self, id: CallId, now: u64, settings: &Settings) -> ServerAct
        requires arriving { is_arriving self.old.state ≡ true }
        requires now { now ≤ LAST_HOST_TICK }
        requires due { HasTimer settings.now self.old }
        ensures did { (m : PlainMoment) (pool : Pool) → m.now ≡ now → IsInPool pool (state_part self.old.state)
            → server_acts settings.now m id (seen_server pool self.old) ≡ acted_of settings.now m id (after_act pool self.new result) result }
        ensures part { state_part self.new.state ≡ state_part self.old.state }
        ensures asks { IfResend result (λ from to. (from < to) × (to ≤ LONGEST_MESSAGE)) }
    {
        let State::Receiving {
            part,
            base,
            count,
            ..
        } = &mut self.state
        else {
            unreachable!()
        };
        if *count >= settings.tries {
            return ServerAct::Drop(id);
        }
        let Some((from, to)) = part.gap() else {
            unreachable!()
        };
        *base = now;
        *count += 1;
        ServerAct::Resend(from, to)
    }
}
