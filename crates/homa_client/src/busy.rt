//! BUSY: the server asks for bytes of a request that it won't be sent more of now.
//!
//! `gets` answers so too where a NEED_ACK comes, since the call is live, and hears BUSY of a server. `homa_server/src/busy` is the
//! server's side.
ghost use Rattle.std.specs.Prelude.{◌≡◌, List, ℕ, ◌<◌, ◌≤◌, None};
ghost use Rattle.homa_plain.specs.Busy.{resend};
ghost use Rattle.homa_plain.specs.AtClient.{request_resent};
ghost use Rattle.homa_plain.specs.declared.id.CallId.{CallId};
ghost use Rattle.homa_plain.specs.Rules.{Moment as PlainMoment};
ghost use Rattle.msg_pool.specs.Pool.{Pool};
ghost use Rattle.homa_client.specs.Held.{seen_row};
ghost use Rattle.homa_client.specs.Gives.{HasNone, did_of};

use crate::answers::RowDid;
use crate::row::Row;
use homa_out::Resent;

impl Row {
    // A RESEND of the request; with BUSY where it queues nothing: all bytes asked for still wait, there are none such, or there are
    // too many ranges.
    pub(crate) fn resend(&mut self, from: u32, to: u32, prio: u8) -> RowDid
        requires some { from < to }
        requires prio { prio ≤ 7 }
        ensures did { (m : PlainMoment) (id : CallId) (pool : Pool) (told : List ℕ) → let r = seen_row pool self.old in
            request_resent m r (resend r.out from to prio) ≡ did_of m id None (seen_row pool self.new) told result }
        ensures part { self.new.part ≡ self.old.part }
        ensures stays { HasNone result self.new.part }
    {
        match self.out.resend(from, to, prio) {
            Resent::Queued => RowDid::Touched,
            Resent::Busy => RowDid::Busy,
        }
    }
}
