//! RESEND after silence: when a call asks for bytes again, for which, and when it times out.
//! `homa_server/src/resends` is the server's side.
ghost use Rattle.std.specs.Prelude.{◌≡◌, ℕ, ◌<◌, ◌≤◌, IfSome, IsSomeAnd};
ghost use Rattle.std.specs.Option.{option_map};
ghost use Rattle.range_set.specs.Fits.{bounds};
ghost use Rattle.homa_plain.specs.declared.settings.Settings.{Settings};
ghost use Rattle.homa_plain.specs.declared.id.HostId.{HostId};
ghost use Rattle.homa_plain.specs.Settings.{IsValid};
ghost use Rattle.homa_plain.specs.Timers.{is_client_at_rest, client_deadline, client_acts, wanted};
ghost use Rattle.msg_pool.specs.Pool.{Pool};
ghost use Rattle.homa_in.specs.Pooled.{seen_part, IsInPool, Moves};
ghost use Rattle.homa_in.specs.Pieces.{moment_with};
ghost use Rattle.homa_client.specs.Held.{seen_row};
ghost use Rattle.homa_client.specs.Gives.{row_left, IsAct, IsLeft, IsAsked};

use crate::answers::ClientAct;
use crate::row::Row;
use homa_plain::{CallId, LAST_HOST_TICK, LONGEST_MESSAGE, Settings};
use msg_pool::MsgPool;

impl Row {
    // Whether the timer rests: the request's last byte was never sent and bytes of it wait, or of the response all has come that
    // may come so far.
    fn is_at_rest(&self) -> bool
        ensures { (pool : Pool) → IsInPool pool self.now.part → result ≡ is_client_at_rest (seen_row pool self.now) }
    {
        if self.out.top_sent() < self.out.len() && self.out.waiting() {
            return true;
        }
        match &self.part {
            None => false,
            Some(part) => part.gap().is_none(),
        }
    }

    /// When the timer is due, after `resend` ticks of silence; none where it rests.
    pub(crate) fn deadline(&self, resend: u32) -> Option<u64>
        ensures { (s : Settings) (pool : Pool) → s.resend ≡ resend → IsInPool pool self.now.part
            → result ≡ client_deadline s (seen_row pool self.now) }
    {
        if self.is_at_rest() {
            return None;
        }
        Some(self.base + u64::from(resend))
    }

    // The bytes of the response that are asked for: the first gap, or those that need no grant where none has come.
    fn wanted(&self, unsched: u32) -> Option<(u32, u32)>
        ensures range { (s : Settings) (pool : Pool) → s.unsched ≡ unsched → IsInPool pool self.now.part
            → result ≡ option_map bounds (wanted s (seen_part pool self.now.part)) }
        ensures some { 1 ≤ unsched → unsched ≤ LONGEST_MESSAGE → IfSome result (λ r. (r.0 < r.1) × (r.1 ≤ LONGEST_MESSAGE)) }
    {
        match &self.part {
            None => Some((0, unsched)),
            Some(part) => part.gap(),
        }
    }

    /// The row, which is due, asks for missing bytes of the response, or gives the call up: then it has no part any more.
    pub(crate) fn act(
        &mut self,
        id: CallId,
        settings: &Settings,
        now: u64,
        pool: &mut MsgPool,
    ) -> ClientAct
        requires valid { IsValid settings.now }
        requires now { now ≤ LAST_HOST_TICK }
        requires pool { IsInPool pool.old self.old.part }
        requires due { IsSomeAnd (client_deadline settings.now (seen_row pool.old self.old)) (λ at. at ≤ now) }
        ensures did { (host : HostId) (order free rows : ℕ) → let m = moment_with host now order free rows in
            let did = client_acts settings.now m id (seen_row pool.old self.old) in
            IsAct settings.now m id did result × (did.row ≡ row_left (seen_row pool.new self.new) result) }
        ensures moves { Moves pool.old self.old.part pool.new self.new.part }
        ensures gone { IsLeft result self.new.part }
        ensures asked { IsAsked result }
    {
        if self.count < settings.tries {
            let Some((from, to)) = self.wanted(settings.unsched) else {
                unreachable!()
            };
            self.count += 1;
            self.base = now;
            return ClientAct::Resend(from, to);
        }
        self.drop_part(pool);
        ClientAct::Timeout(id)
    }
}
