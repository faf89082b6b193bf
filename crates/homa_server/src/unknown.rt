//! UNKNOWN: a RESEND comes of a call that has no record (reason 0), or DATA or a RESEND of one that has only a
//! tombstone (reason 1). `homa_client/src/gets` says what UNKNOWN does at a client.
ghost use Rattle.std.specs.Prelude.{◌≡◌, ℕ, List, ◌||◌, false, Some, None};
ghost use Rattle.homa_plain.specs.declared.id.CallId.{CallId};
ghost use Rattle.homa_plain.specs.declared.settings.Settings.{Settings};
ghost use Rattle.homa_plain.specs.declared.packet.Body.{Body};
ghost use Rattle.homa_plain.specs.Rows.{ServerRow};
ghost use Rattle.homa_plain.specs.Rules.{Moment as PlainMoment};
ghost use Rattle.homa_plain.specs.Unknown.{buried_gets};
ghost use Rattle.homa_in.specs.Pieces.{piece_in};
ghost use Rattle.homa_server.specs.Answers.{IsAnswered, has_run, IsSlotOf, slot_in, slot_if};
ghost use Rattle.homa_server.specs.Answers.{is_data, is_resend};
ghost use Rattle.homa_plain.specs.AtServer.{unknown_gets};

use crate::ServerDid;
use homa_plain::Body;

// A packet of a call that the server ran and has forgotten.
pub(crate) fn buried_gets(slot: u32, body: &Body) -> ServerDid
    ensures did { (s : Settings) (id : CallId) (m : PlainMoment) (row : ServerRow) (response payload told : List ℕ)
        → IsAnswered s m id (piece_in body.now payload) (λ a. buried_gets m body.now row) (Some row) response told result }
    ensures slot { IsSlotOf (Some slot) result }
    ensures named { slot_in result ≡ slot_if (is_data body.now || is_resend body.now) slot }
    ensures not_run { has_run result ≡ false }
{
    match body {
        Body::Data { .. } | Body::Resend { .. } => ServerDid::Unknown(Some(slot)),
        _ => ServerDid::Nothing,
    }
}

// The answer to a packet, which is no piece, of a call that has no row.
pub(crate) fn no_record(body: &Body) -> ServerDid
    requires { is_data body.now ≡ false }
    ensures did { (s : Settings) (m : PlainMoment) (id : CallId) (payload response told : List ℕ)
        → IsAnswered s m id (piece_in body.now payload) (λ a. unknown_gets s m id body.now payload a) None response told result }
    ensures slot { IsSlotOf None result }
    ensures not_run { has_run result ≡ false }
{
    match body {
        Body::Resend { .. } => ServerDid::Unknown(None),
        _ => ServerDid::Nothing,
    }
}
