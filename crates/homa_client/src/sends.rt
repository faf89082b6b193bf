//! What a row sends, and up to where its response is granted.
//! Rules: DATA of a request goes within the granted end and the credit. A request that was sent to its end isn't
//! repeated to a server that is silent beyond the patience.
ghost use Rattle.std.specs.Prelude.{◌≡◌, ◌≤◌, IsSomeAnd};
ghost use Rattle.homa_plain.specs.declared.settings.Settings.{Settings};
ghost use Rattle.homa_plain.specs.Settings.{IsValid};
ghost use Rattle.homa_plain.specs.SentNext.{may_send_request};
ghost use Rattle.homa_plain.specs.Sending.{while_new, client_granted};
ghost use Rattle.msg_pool.specs.Pool.{Pool};
ghost use Rattle.homa_in.specs.Pooled.{IsInPool, Moves};
ghost use Rattle.homa_in.specs.Sends.{IfSent, IsAffordable};
ghost use Rattle.homa_client.specs.Held.{seen_row};
ghost use Rattle.homa_client.specs.Gives.{row_emits, row_sends};

use crate::row::Row;
use homa_plain::{Emitted, LAST_HOST_TICK, Settings};

impl Row {
    // Whether the request may be sent: bytes of it wait, and its last byte was never sent or the server was heard of
    // not long ago.
    fn may_send(&self, settings: &Settings, now: u64) -> bool
        requires { IsValid settings.now }
        ensures { (pool : Pool) → result ≡ may_send_request settings.now now (seen_row pool self.now) }
    {
        self.out.waiting()
            && (self.out.top_sent() < self.out.len() || now <= self.heard + settings.patience())
    }

    // While the last byte of the request was never sent, a piece that is sent sets the timer anew.
    fn renew_timer(&mut self, now: u64)
        requires { now ≤ LAST_HOST_TICK }
        ensures row { (pool : Pool) → seen_row pool self.new ≡ while_new now (seen_row pool self.old) }
        ensures part { self.new.part ≡ self.old.part }
    {
        if self.out.top_sent() < self.out.len() {
            self.heard = now;
            self.base = now;
            self.count = 0;
        }
    }

    /// Takes the next bytes of the request to be sent, where it may be sent and the credit is enough.
    pub(crate) fn emit(&mut self, settings: &Settings, now: u64, credit: u32) -> Emitted
        requires valid { IsValid settings.now }
        requires now { now ≤ LAST_HOST_TICK }
        ensures emitted { (pool : Pool) → result ≡ row_emits settings.now now credit (seen_row pool self.old) }
        ensures row { (pool : Pool) → seen_row pool self.new ≡ row_sends settings.now now (seen_row pool self.old) result }
        ensures part { self.new.part ≡ self.old.part }
        ensures sent { IfSent result (IsAffordable self.old.out.length settings.now.seg credit) }
    {
        if !self.may_send(settings, now) {
            return Emitted::Rests;
        }
        let Some((from, to)) = self.out.peek(settings.seg) else {
            return Emitted::Rests;
        };
        if credit < to - from {
            return Emitted::Short;
        }
        self.renew_timer(now);
        self.out.next(settings.seg);
        Emitted::Sent(from, to)
    }

    /// The response is granted up to `offset`.
    pub(crate) fn granted(&mut self, offset: u32, now: u64)
        requires now { now ≤ LAST_HOST_TICK }
        requires part { IsSomeAnd self.old.part (λ part. (part.granted ≤ offset) × (offset ≤ part.length)) }
        ensures row { (pool : Pool) → seen_row pool self.new ≡ client_granted now offset (seen_row pool self.old) }
        ensures moves { (pool : Pool) → IsInPool pool self.old.part → Moves pool self.old.part pool self.new.part }
    {
        let Some(part) = &mut self.part else {
            unreachable!()
        };
        part.raise(offset);
        self.base = now;
    }
}
