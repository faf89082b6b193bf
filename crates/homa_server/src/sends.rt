// A row is granted to, and its response is sent.
// Rules: a GRANT sent renews the row's RESEND timer, and DATA of a response goes within the granted end and the credit.
ghost use Rattle.std.specs.Prelude.{◌≡◌, ◌<◌, ◌≤◌, length, Some};
ghost use Rattle.homa_plain.specs.Settings.{IsValid};
ghost use Rattle.homa_plain.specs.declared.settings.Settings.{Settings};
ghost use Rattle.homa_plain.specs.Incoming as incoming;
ghost use Rattle.homa_plain.specs.Outgoing as outgoing;
ghost use Rattle.homa_plain.specs.Sending.{server_granted};
ghost use Rattle.msg_pool.specs.Pool.{Pool};
ghost use Rattle.homa_in.specs.Pooled.{Moves, IsInPool};
ghost use Rattle.homa_server.specs.Held.{state_part, response_in, seen_state, seen_server};
ghost use Rattle.homa_in.specs.Sends.{IsAffordable, IfSent};
ghost use Rattle.homa_server.specs.Answers.{IsGrantable};
ghost use Rattle.homa_server.specs.Answers.{state_emits, server_sends};

use crate::row::Row;
use crate::state::State;
use homa_plain::{Emitted, LAST_HOST_TICK, Settings};

impl Row {
    /// The request is granted up to `offset`: the row's timer begins anew.
    pub fn granted(&mut self, offset: u32, now: u64)
        requires now { now ≤ LAST_HOST_TICK }
        requires up { IsGrantable self.old.state offset }
        ensures row { (pool : Pool) → seen_server pool self.new ≡ server_granted now offset (seen_server pool self.old) }
        ensures part { (pool : Pool) → IsInPool pool (state_part self.old.state) → Moves pool (state_part self.old.state) pool (state_part self.new.state) }
    {
        let State::Receiving { part, base, .. } = &mut self.state else {
            unreachable!()
        };
        part.raise(offset);
        *base = now;
    }

    /// Takes the response's next bytes to be sent, at most `seg`, where some wait and the credit is enough.
    pub fn emit(&mut self, now: u64, credit: u32, settings: &Settings) -> Emitted
        requires valid { IsValid settings.now }
        requires now { now ≤ LAST_HOST_TICK }
        ensures emitted { (pool : Pool) → result ≡ state_emits settings.now credit (seen_state pool self.old.state) }
        ensures row { (pool : Pool) → seen_server pool self.new ≡ server_sends settings.now now (seen_server pool self.old) result }
        ensures part { state_part self.new.state ≡ state_part self.old.state }
        ensures bytes { IfSent result (λ from to. IsAffordable (length (response_in self.old.state)) settings.now.seg credit from to) }
    {
        let State::Replying { out, base, .. } = &mut self.state else {
            return Emitted::Rests;
        };
        let Some((from, to)) = out.peek(settings.seg) else {
            return Emitted::Rests;
        };
        if credit < to - from {
            return Emitted::Short;
        }
        out.next(settings.seg);
        *base = now;
        Emitted::Sent(from, to)
    }
}
