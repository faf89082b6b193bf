// What the tables' answers have a host do.
// Rules: which BUSY, UNKNOWN, ACK, RESEND or NEED_ACK packet follows from a row's rule, and which timer, GRANTs and
// SRPT place the row has.
ghost use Rattle.std.specs.Prelude.{◌≡◌, ℕ, ◌+◌, ◌<◌, ◌≤◌, Option, Some, None, List, IsSome, IfSome, option_copied, if◌then◌else◌};
ghost use Rattle.std.specs.Option.{option_and_then};
ghost use Rattle.homa_plain.specs.declared.id.CallId.{CallId};
ghost use Rattle.homa_plain.specs.declared.packet.Role.TheVariants.{Client as AsClient, Server as AsServer};
ghost use Rattle.homa_plain.specs.declared.settings.Settings.{Settings};
ghost use Rattle.homa_plain.specs.Settings.{asking_level};
ghost use Rattle.homa_plain.specs.Packets.{Packet as PlainPacket};
ghost use Rattle.homa_plain.specs.Rows.{ClientRow, ServerRow};
ghost use Rattle.homa_plain.specs.Rules.{Moment, Answer, Did};
ghost use Rattle.msg_pool.specs.Pool.{Pool};
ghost use Rattle.homa_in.specs.Pooled.{IsInPool, AreIn, seen_part};
ghost use Rattle.homa_in.specs.Pieces.{piece_in};
ghost use Rattle.host_places.specs.Placed.{StandsAt, spot_at};
ghost use Rattle.homa_client.specs.Held.{HeldRow, seen_row};
ghost use Rattle.homa_client.specs.Gives.{IsAct, IsAsked};
ghost use Rattle.homa_client.specs.AtTable.{version_at, answer_of};
ghost use Rattle.homa_server.specs.Held.{HeldServer, seen_server};
ghost use Rattle.homa_server.specs.Answers.{version_there, service_in, served_of, acted_of, reason_for, IfResend};
ghost use Rattle.homa_server.specs.Table.{request_at};
ghost use Rattle.host_state.specs.Saying.{IsOutcome, FitsSaid, outcome_marks, outcome_frames, one_of};
ghost use Rattle.host_books.specs.Duty.{client_duty, server_duty, timer_duty, arrival_duty};
ghost use Rattle.homa_host.specs.Outcomes.{IfServerTouched, head_in, length_in, version_in, client_change, server_change, client_orders};
ghost use Rattle.homa_host.specs.Outcomes.{server_orders, client_act_change, IfTouched};

use homa_client::{ClientAct, ClientDid, ClientTable};
use homa_in::Incoming;
use homa_plain::{Body, CallId, LONGEST_MESSAGE, More, RowFacts, Why};
use homa_server::{ServerAct, ServerDid, ServerTable};
use host_books::{Arrival, Deadline, Duties, Waiting};
use host_state::{Outcome, Said};
use host_view::Mark;

/// What became of the row at a place.
#[derive(Clone, Copy)]
pub(crate) enum Change {
    /// No row changed.
    Nothing,
    /// The row stands, and may have changed.
    Stays(u32),
    /// The row is gone.
    Goes(u32),
}

/// What a piece tells of its message: how many bytes the message has, and the version of the cutoffs, if this is the
/// first piece.
#[derive(Clone, Copy)]
pub(crate) struct PieceHead {
    pub length: u32,
    pub version: Option<u16>,
}

/// What the packet's piece tells, if it brings one.
pub(crate) fn head_of(body: &Body) -> Option<PieceHead>
    ensures { result ≡ head_in body.now }
{
    match body {
        Body::Data {
            length,
            offset,
            version,
            ..
        } => Some(PieceHead {
            length: *length,
            version: if *offset == 0 { Some(*version) } else { None },
        }),
        _ => None,
    }
}

// What comes of a piece that was taken up; it may have opened its message.
fn taken(opened: bool, head: Option<PieceHead>, said: Said, finished: bool) -> Outcome
    ensures opened { result.opened ≡ (if opened then Some (length_in head) else None) }
    ensures version { result.version ≡ version_in head }
    ensures said { result.said ≡ said }
    ensures finished { result.finished ≡ finished }
{
    match head {
        Some(head) => Outcome {
            opened: if opened { Some(head.length) } else { None },
            version: head.version,
            said,
            finished,
        },
        None => Outcome {
            opened: if opened { Some(0) } else { None },
            version: None,
            said,
            finished,
        },
    }
}

/// Which row of a client changed.
pub(crate) fn client_change(did: &ClientDid) -> Change
    ensures { result ≡ client_change did.now }
{
    match did {
        ClientDid::Nothing | ClientDid::Ack => Change::Nothing,
        ClientDid::Touched(slot) | ClientDid::Opened(slot) | ClientDid::Busy(slot) => {
            Change::Stays(*slot)
        }
        ClientDid::Full { slot, .. } | ClientDid::Gaps { slot, .. } => Change::Stays(*slot),
        ClientDid::Done { slot, .. } | ClientDid::Forgotten { slot, .. } => Change::Goes(*slot),
    }
}

/// What comes of a packet at its client; `touched` is the version in a first piece of the message in the row.
pub(crate) fn client_outcome(
    did: ClientDid,
    head: Option<PieceHead>,
    touched: Option<u16>,
) -> Outcome
    ensures outcome { (m : Moment) (p : PlainPacket) (row : Option ClientRow) (told : List ℕ) → head ≡ head_in p.body
        → IfTouched did (λ _. touched ≡ version_at (piece_in p.body p.payload) row) → IsOutcome (answer_of m p row told did) result }
    ensures fits { FitsSaid AsClient result.said }
    ensures len { length_in head ≤ LONGEST_MESSAGE → IfSome result.opened (λ len. len ≤ LONGEST_MESSAGE) }
    ensures marks { outcome_marks result ≤ 4 }
    ensures frames { outcome_frames result ≤ 3 }
    ensures opened { one_of result.opened ≤ client_orders did }
{
    match did {
        ClientDid::Nothing => Outcome::none(),
        ClientDid::Touched(_) => Outcome {
            version: touched,
            ..Outcome::none()
        },
        ClientDid::Opened(_) => taken(true, head, Said::Nothing, false),
        ClientDid::Done { id, opened, .. } => {
            taken(opened, head, Said::Tell(Mark::Done { id }), true)
        }
        ClientDid::Full { id, need, free, .. } => {
            Outcome::of(Said::Tell(Mark::NoPages { id, need, free }))
        }
        ClientDid::Gaps { id, .. } => {
            taken(false, head, Said::Tell(Mark::TooManyGaps { id }), false)
        }
        ClientDid::Busy(_) => Outcome::of(Said::Post(Body::Busy)),
        ClientDid::Ack => {
            let more = More::empty();
            Outcome::of(Said::Post(Body::Ack { more }))
        }
        ClientDid::Forgotten { id, .. } => {
            let why = Why::Forgotten;
            Outcome::of(Said::Tell(Mark::Failed { id, why }))
        }
    }
}

/// How many order numbers a packet took at its client.
pub(crate) fn client_orders(did: &ClientDid) -> u64
    ensures order { result ≡ client_orders did.now }
    ensures one { result ≤ 1 }
{
    match did {
        ClientDid::Opened(_) => 1,
        ClientDid::Done { opened, .. } => u64::from(*opened),
        _ => 0,
    }
}

/// Which row of a server changed.
pub(crate) fn server_change(did: &ServerDid) -> Change
    ensures { result ≡ server_change did.now }
{
    match did {
        ServerDid::Nothing | ServerDid::FullRows { .. } | ServerDid::FullPages { .. } => {
            Change::Nothing
        }
        ServerDid::Touched(slot) | ServerDid::Opened(slot) => Change::Stays(*slot),
        ServerDid::Gaps(slot) | ServerDid::Busy(slot) => Change::Stays(*slot),
        ServerDid::Ran { slot, .. } => Change::Stays(*slot),
        ServerDid::Unknown(Some(slot)) => Change::Stays(*slot),
        ServerDid::Unknown(None) => Change::Nothing,
    }
}

/// What comes of a packet of a call at its server, whose table has room for `limit` rows; `touched` is the version in a
/// first piece of the request in the row.
pub(crate) fn server_outcome(
    did: ServerDid,
    id: CallId,
    service: u8,
    limit: u32,
    head: Option<PieceHead>,
    touched: Option<u16>,
) -> Outcome
    ensures outcome { (s : Settings) (m : Moment) (p : PlainPacket) (row : Option ServerRow) (told : List ℕ) (a : Answer) → head ≡ head_in p.body
        → s.served ≡ limit → service ≡ service_in (piece_in p.body p.payload)
        → IfServerTouched did (λ _. touched ≡ version_there (piece_in p.body p.payload) row) → p.id ≡ id
        → IsOutcome (served_of s m id (piece_in p.body p.payload) row told a did) result }
    ensures fits { FitsSaid AsServer result.said }
    ensures len { length_in head ≤ LONGEST_MESSAGE → IfSome result.opened (λ len. len ≤ LONGEST_MESSAGE) }
    ensures marks { outcome_marks result ≤ 3 }
    ensures frames { outcome_frames result ≤ 2 }
    ensures opened { one_of result.opened ≤ server_orders did }
{
    match did {
        ServerDid::Nothing => Outcome::none(),
        ServerDid::Touched(_) => Outcome {
            version: touched,
            ..Outcome::none()
        },
        ServerDid::Opened(_) => taken(true, head, Said::Nothing, false),
        ServerDid::Ran { opened, hold, .. } => {
            let mark = Mark::Ran { id, service, hold };
            taken(opened, head, Said::Tell(mark), false)
        }
        ServerDid::FullRows { rows } => { Outcome::of(Said::Tell(Mark::NoRow { id, rows, limit })) }
        ServerDid::FullPages { need, free } => {
            Outcome::of(Said::Tell(Mark::NoPages { id, need, free }))
        }
        ServerDid::Gaps(_) => taken(false, head, Said::Tell(Mark::TooManyGaps { id }), false),
        ServerDid::Busy(_) => Outcome::of(Said::Post(Body::Busy)),
        ServerDid::Unknown(slot) => Outcome::of(Said::Post(unknown(slot))),
    }
}

// The UNKNOWN about a call that has a tombstone in this slot, or no record.
fn unknown(slot: Option<u32>) -> Body
    ensures { result ≡ Body.Unknown (reason_for slot) }
{
    let reason = if slot.is_some() { 1 } else { 0 };
    Body::Unknown { reason }
}

/// How many order numbers a packet took at its server.
pub(crate) fn server_orders(did: &ServerDid) -> u64
    ensures order { result ≡ server_orders did.now }
    ensures two { result ≤ 2 }
{
    match did {
        ServerDid::Opened(_) => 1,
        ServerDid::Ran { opened, hold, .. } => u64::from(*opened) + u64::from(*hold == 0),
        _ => 0,
    }
}

/// What became of a client's row at a place whose timer was due.
pub(crate) fn client_act_change(act: ClientAct, place: u32) -> Change
    ensures { result ≡ client_act_change place act }
{
    match act {
        ClientAct::Resend(..) => Change::Stays(place),
        ClientAct::Timeout(_) => Change::Goes(place),
    }
}

/// What a client's row did whose timer was due.
pub(crate) fn client_act_outcome(act: ClientAct, prio: u8) -> Outcome
    ensures outcome { (s : Settings) (m : Moment) (id : CallId) (d : Did ClientRow) → prio ≡ asking_level s → IsAct s m id d act
        → IsOutcome d result }
    ensures fits { prio ≤ 7 → IsAsked act → FitsSaid AsClient result.said }
    ensures marks { outcome_marks result ≤ 1 }
    ensures frames { outcome_frames result ≤ 1 }
    ensures opened { result.opened ≡ None }
{
    match act {
        ClientAct::Resend(from, to) => Outcome::of(Said::Post(Body::Resend { from, to, prio })),
        ClientAct::Timeout(id) => {
            let why = Why::Timeout;
            Outcome::of(Said::Tell(Mark::Failed { id, why }))
        }
    }
}

/// What a server's row did whose timer was due.
pub(crate) fn server_act_outcome(act: ServerAct, prio: u8) -> Outcome
    ensures outcome { (s : Settings) (m : Moment) (id : CallId) (row : Option ServerRow) → prio ≡ asking_level s
        → IsOutcome (acted_of s m id row act) result }
    ensures fits { prio ≤ 7 → IfResend act (λ from to. (from < to) × (to ≤ LONGEST_MESSAGE)) → FitsSaid AsServer result.said }
    ensures marks { outcome_marks result ≤ 1 }
    ensures frames { outcome_frames result ≤ 1 }
    ensures opened { result.opened ≡ None }
{
    match act {
        ServerAct::Resend(from, to) => Outcome::of(Said::Post(Body::Resend { from, to, prio })),
        ServerAct::Drop(id) => Outcome::of(Said::Tell(Mark::Dropped { id })),
        ServerAct::Release => Outcome::none(),
        ServerAct::NeedAck => Outcome::of(Said::Post(Body::NeedAck)),
        ServerAct::Bury(id, until) => Outcome::of(Said::Tell(Mark::Entombed { id, until })),
        ServerAct::Free(id) => Outcome::of(Said::Tell(Mark::Freed { id })),
    }
}

// The entry of a message that isn't whole.
fn arrival_of(part: Option<&Incoming>) -> Option<Arrival>
    ensures { (pool : Pool) → IsInPool pool (option_copied part.entry)
        → result ≡ arrival_duty (seen_part pool (option_copied part.entry)) }
{
    let part = part?;
    Some(Arrival {
        peer: part.peer(),
        remaining: part.remaining(),
        order: part.order(),
    })
}

// The entry of a message of which bytes wait to be sent.
fn waiting_of(facts: &RowFacts) -> Option<Waiting>
    ensures { result ≡ option_and_then (λ o. if o.waiting then Some (record { left = o.left; order = o.order }) else None) facts.now.out }
{
    let out = facts.out?;
    if !out.waiting {
        return None;
    }
    Some(Waiting {
        left: out.left,
        order: out.order,
    })
}

// The entry of a row's timer.
fn deadline_of(facts: &RowFacts, at: Option<u64>) -> Option<Deadline>
    ensures { result ≡ timer_duty facts.now.order at }
{
    let at = at?;
    Some(Deadline {
        at,
        order: facts.order,
    })
}

/// The timer of the client's row at a place.
pub(crate) fn client_timer(clients: &ClientTable, place: u32) -> Option<Deadline>
    requires stands { IsSome (spot_at clients.now.rows place) }
    ensures { (id : CallId) (r : HeldRow) (pool : Pool) → StandsAt clients.now.rows id place r → IsInPool pool r.part
        → result ≡ (client_duty clients.now.settings (seen_row pool r)).timer }
{
    let facts = clients.row(place);
    deadline_of(&facts, clients.deadline(place))
}

/// What waits to be sent of the client's row at a place.
pub(crate) fn client_waiting(clients: &ClientTable, place: u32) -> Option<Waiting>
    requires stands { IsSome (spot_at clients.now.rows place) }
    ensures { (id : CallId) (r : HeldRow) (pool : Pool) → StandsAt clients.now.rows id place r → IsInPool pool r.part
        → result ≡ (client_duty clients.now.settings (seen_row pool r)).waiting }
{
    let facts = clients.row(place);
    waiting_of(&facts)
}

/// What the client's row at a place has in the books.
pub(crate) fn client_duties(clients: &ClientTable, place: u32) -> Duties
    requires stands { IsSome (spot_at clients.now.rows place) }
    ensures { (id : CallId) (r : HeldRow) (pool : Pool) → StandsAt clients.now.rows id place r → IsInPool pool r.part
        → result ≡ client_duty clients.now.settings (seen_row pool r) }
{
    let facts = clients.row(place);
    Duties {
        timer: deadline_of(&facts, clients.deadline(place)),
        arrival: arrival_of(clients.incoming(place)),
        waiting: waiting_of(&facts),
    }
}

/// The timer of the server's row at a place.
pub(crate) fn server_timer(servers: &ServerTable, place: u32) -> Option<Deadline>
    requires stands { IsSome (spot_at servers.now.rows place) }
    ensures { (id : CallId) (r : HeldServer) (pool : Pool) → StandsAt servers.now.rows id place r
        → AreIn pool (request_at servers.now.rows)
        → result ≡ (server_duty servers.now.settings (seen_server pool r)).timer }
{
    let facts = servers.row(place);
    deadline_of(&facts, servers.deadline(place))
}

/// What waits to be sent of the server's row at a place.
pub(crate) fn server_waiting(servers: &ServerTable, place: u32) -> Option<Waiting>
    requires stands { IsSome (spot_at servers.now.rows place) }
    ensures { (id : CallId) (r : HeldServer) (pool : Pool) → StandsAt servers.now.rows id place r
        → AreIn pool (request_at servers.now.rows)
        → result ≡ (server_duty servers.now.settings (seen_server pool r)).waiting }
{
    let facts = servers.row(place);
    waiting_of(&facts)
}

/// What the server's row at a place has in the books.
pub(crate) fn server_duties(servers: &ServerTable, place: u32) -> Duties
    requires stands { IsSome (spot_at servers.now.rows place) }
    ensures { (id : CallId) (r : HeldServer) (pool : Pool) → StandsAt servers.now.rows id place r
        → AreIn pool (request_at servers.now.rows)
        → result ≡ server_duty servers.now.settings (seen_server pool r) }
{
    let facts = servers.row(place);
    Duties {
        timer: deadline_of(&facts, servers.deadline(place)),
        arrival: arrival_of(servers.incoming(place)),
        waiting: waiting_of(&facts),
    }
}
