//! BUSY: a RESEND comes for bytes that a row can't give now.
//!
//! The request still arrives (`receiving_resend`), the response is held back (`held_gets`), or the RESEND queues nothing of it
//! (`homa_out/src/busy`). `homa_client/src/busy` is the client's side.
ghost use Rattle.std.specs.Prelude.{◌≡◌, ℕ, List, true, false, Some};
ghost use Rattle.homa_plain.specs.declared.id.CallId.{CallId};
ghost use Rattle.homa_plain.specs.declared.settings.Settings.{Settings};
ghost use Rattle.homa_plain.specs.declared.packet.Body.{Body};
ghost use Rattle.homa_plain.specs.Rows.{ServerRow};
ghost use Rattle.homa_plain.specs.Rules.{Moment as PlainMoment};
ghost use Rattle.homa_plain.specs.AtServer.{held_gets};
ghost use Rattle.homa_in.specs.Pieces.{piece_in};
ghost use Rattle.homa_server.specs.Held.{Arriving, IfArriving, is_arriving};
ghost use Rattle.homa_server.specs.Answers.{IsAnswered, has_run, IsSlotOf, slot_in, slot_if};
ghost use Rattle.homa_server.specs.Answers.{is_resend};

use crate::ServerDid;
use crate::row::Row;
use crate::state::State;
use homa_plain::Body;

impl Row {
    // A RESEND of a call whose request still arrives: the client was heard of, but its request is no further.
    pub(crate) fn receiving_resend(&mut self, slot: u32) -> ServerDid
        requires arriving { is_arriving self.old.state ≡ true }
        ensures busy { result ≡ ServerDid.Busy slot }
        ensures tries { IfArriving self.old.state (λ wanted part base count. self.new ≡ record self.old { state = Arriving wanted part base 0 }) }
    {
        let State::Receiving { count, .. } = &mut self.state else {
            unreachable!()
        };
        *count = 0;
        ServerDid::Busy(slot)
    }
}

// A packet of a call whose response is held back.
pub(crate) fn held_gets(slot: u32, body: &Body) -> ServerDid
    ensures did { (s : Settings) (id : CallId) (m : PlainMoment) (row : ServerRow) (response payload told : List ℕ)
        → IsAnswered s m id (piece_in body.now payload) (λ a. held_gets m body.now row) (Some row) response told result }
    ensures slot { IsSlotOf (Some slot) result }
    ensures named { slot_in result ≡ slot_if (is_resend body.now) slot }
    ensures not_run { has_run result ≡ false }
{
    match body {
        Body::Resend { .. } => ServerDid::Busy(slot),
        _ => ServerDid::Nothing,
    }
}
