// When a row acts by itself: its deadline in each state, and which rule it follows then.
// Rules: the end of `hold`. RESEND after silence is in `resends`, NEED_ACK and the end of a response in `tombstones`.
ghost use Rattle.std.specs.Prelude.{◌≡◌, ℕ, ◌+◌, ◌<◌, ◌≤◌, length, true, Some, None};
ghost use Rattle.homa_plain.specs.declared.id.CallId.{CallId};
ghost use Rattle.homa_plain.specs.declared.id.HostId.{HostId};
ghost use Rattle.homa_plain.specs.Settings.{IsValid};
ghost use Rattle.homa_plain.specs.declared.settings.Settings.{Settings};
ghost use Rattle.homa_plain.specs.Outgoing as outgoing;
ghost use Rattle.homa_plain.specs.Timers.{state_deadline, server_acts};
ghost use Rattle.msg_pool.specs.Pool.{Pool};
ghost use Rattle.homa_in.specs.Pooled.{IsInPool};
ghost use Rattle.homa_server.specs.Held.{Answering, IfKeeping};
ghost use Rattle.homa_server.specs.Held.{is_keeping, state_part, seen_state, seen_server};
ghost use Rattle.homa_in.specs.Pieces.{moment_with};
ghost use Rattle.homa_server.specs.Answers.{HasTimer, after_act};
ghost use Rattle.homa_server.specs.Answers.{acted_of, IfResend};

use crate::ServerAct;
use crate::row::Row;
use crate::state::{State, replying};
use homa_plain::{CallId, LAST_HOST_TICK, LONGEST_MESSAGE, Settings};
use std::mem;

impl Row {
    /// When the row's timer is due; none where it rests.
    pub fn deadline(&self, settings: &Settings) -> Option<u64>
        ensures { (pool : Pool) → IsInPool pool (state_part self.now.state) → result ≡ state_deadline settings.now (seen_state pool self.now.state) }
    {
        match &self.state {
            State::Receiving { part, base, .. } => {
                if part.gap().is_none() {
                    return None;
                }
                Some(*base + u64::from(settings.resend))
            }
            State::Held { release, .. } => Some(*release),
            State::Replying { out, base, .. } => {
                if out.waiting() {
                    return None;
                }
                Some(*base + u64::from(settings.resend))
            }
            State::Buried { until } => Some(*until + 1),
        }
    }

    // The response was held back for long enough.
    fn release(&mut self, now: u64, order: u64, unsched: u32)
        requires keeping { is_keeping self.old.state ≡ true }
        requires unsched { 1 ≤ unsched }
        requires now { now ≤ LAST_HOST_TICK }
        ensures { IfKeeping self.old.state (λ response. self.new ≡ record self.old {
          state = Answering response (outgoing.opened (length response) unsched) order now 0;
        }) }
    {
        let State::Held { response, .. } = mem::replace(
            &mut self.state,
            State::Buried { until: now },
        ) else {
            unreachable!()
        };
        self.state = replying(response, now, order, unsched);
    }

    /// The row, whose timer is due, acts; `order` is the number that a release takes. Where the row goes by its answer,
    /// it stays as it was, and is to be dropped by `close`.
    pub fn act(&mut self, id: CallId, now: u64, order: u64, settings: &Settings) -> ServerAct
        requires valid { IsValid settings.now }
        requires now { now ≤ LAST_HOST_TICK }
        requires due { HasTimer settings.now self.old }
        ensures did { (host : HostId) (free rows : ℕ) (pool : Pool) → IsInPool pool (state_part self.old.state)
            → let m = moment_with host now order free rows in
            server_acts settings.now m id (seen_server pool self.old) ≡ acted_of settings.now m id (after_act pool self.new result) result }
        ensures asks { IfResend result (λ from to. (from < to) × (to ≤ LONGEST_MESSAGE)) }
        ensures part { state_part self.new.state ≡ state_part self.old.state }
    {
        match &self.state {
            State::Receiving { .. } => self.receiving_acts(id, now, settings),
            State::Held { .. } => {
                self.release(now, order, settings.unsched);
                ServerAct::Release
            }
            State::Replying { .. } => self.replying_acts(id, now, settings),
            State::Buried { .. } => ServerAct::Free(id),
        }
    }
}
