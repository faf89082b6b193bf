// Laws of a host's steps. No function here does anything: each states laws, and its body is empty.
ghost use Rattle.std.specs.Prelude.{◌≡◌, ◌↔◌, ◌≤◌, Bool, true, false, ℕ, Option, None, Some, List, Contains};
ghost use Rattle.plain_sets.specs.Ordered.{KeysDiffer};
ghost use Rattle.homa_plain.specs.declared.id.CallId.{CallId};
ghost use Rattle.homa_plain.specs.declared.id.HostId.{HostId};
ghost use Rattle.homa_plain.specs.declared.packet.Role.{Role};
ghost use Rattle.homa_plain.specs.declared.packet.Body.{Body};
ghost use Rattle.homa_plain.specs.declared.settings.Settings.{Settings};
ghost use Rattle.homa_plain.specs.Grants.{choice_key};
ghost use Rattle.homa_plain.specs.Timers.{most_acts};
ghost use Rattle.homa_plain.specs.Entries.{PlainRun};
ghost use Rattle.homa_plain.specs.Packets.{Packet};
ghost use Rattle.homa_plain.specs.Rows.{ClientRow, ServerRow};
ghost use Rattle.homa_plain.specs.Host.{Host, new_host, Says};
ghost use Rattle.homa_plain.specs.Rules.{Answer, Did};
ghost use Rattle.homa_plain.specs.Timers.{Place, OfClient, OfServer, timer_key, timers};
ghost use Rattle.homa_plain.specs.Sending.{arrivals};
ghost use Rattle.homa_plain.specs.SentNext.{leaving_key, departures};
ghost use Rattle.homa_plain.specs.Work.{Work};
ghost use Rattle.homa_plain.specs.CutoffsPackets.{notes, tells_cutoffs, hears_cutoffs};
ghost use Rattle.homa_plain.specs.FiveAcks.{finishes};
ghost use Rattle.homa_plain.specs.Steps.{asked, served, acts_at, acts, grants_at};
ghost use Rattle.homa_plain.specs.SentNext.{leaves_from};
ghost use Rattle.homa_plain.specs.Steps.{next_id, starts, call_step, arrival_step, turn_step, has_run, arrival_or_none};
ghost use Rattle.step_laws.specs.StepLaws.{run_count, LeavesOthers, LeavesRows, IsBounded, HasOwnOrders, picked_anew};

/// The rows that are due act as if the first of them were picked anew before each act: a row that acted isn't due
/// again at the same tick, and no act changes the deadline of another row.
pub fn turn_by_picking()
    ensures { (s : Settings) (w : Work) → 1 ≤ s.resend → acts s w ≡ picked_anew s most_acts w }
{}

/// A step asks a service at most once, and asks one exactly where it tells a RUN. Where there is none, the step is the
/// same for every answer. Where there is one, its response and its hold are the answer's. A call and a turn ask no
/// service.
pub fn one_answer_a_step()
    ensures once { (s : Settings) (h : Host) (now : ℕ) (p : Option Packet) (a : Answer)
        → run_count (arrival_step s h now p a).told ≤ 1 }
    ensures unasked { (s : Settings) (h : Host) (now : ℕ) (p : Option Packet) (a b : Answer)
        → has_run (arrival_step s h now p a).told ≡ false → arrival_step s h now p b ≡ arrival_step s h now p a }
    ensures any_answer { (s : Settings) (h : Host) (now : ℕ) (p : Option Packet) (a b : Answer)
        → has_run (arrival_step s h now p a).told ≡ has_run (arrival_step s h now p b).told }
    ensures told { (s : Settings) (h : Host) (now : ℕ) (p : Option Packet) (a : Answer)
        → (host : HostId) (id : CallId) (service : ℕ) (request response : List ℕ) (hold : ℕ)
        → Contains (arrival_step s h now p a).told (Says (PlainRun host id service request response hold))
        → (response ≡ a.bytes) × (hold ≡ a.hold) }
    ensures call { (s : Settings) (h : Host) (now : ℕ) (server : HostId) (service : ℕ) (request : List ℕ)
        → has_run (call_step s h now server service request).told ≡ false }
    ensures turn { (s : Settings) (h : Host) (now : ℕ) → has_run (turn_step s h now).told ≡ false }
    ensures with_answer { (s : Settings) (h : Host) (now : ℕ) (p : Option Packet) (a : Answer)
        → arrival_or_none s h now p (Some a) ≡ Some (arrival_step s h now p a) }
    ensures none { (s : Settings) (h : Host) (now : ℕ) (p : Option Packet) (a : Answer)
        → (arrival_or_none s h now p None ≡ None) ↔ (has_run (arrival_step s h now p a).told ≡ true) }
    ensures without { (s : Settings) (h : Host) (now : ℕ) (p : Option Packet) (a : Answer)
        → has_run (arrival_step s h now p a).told ≡ false
        → arrival_or_none s h now p None ≡ Some (arrival_step s h now p a) }
{}

/// A move changes no row but that of its call: what a client does changes one row of a client, and what a server does
/// one row of a server. The moves beside the rows change none.
pub fn moves_stay_with_their_call()
    ensures asked { (s : Settings) (id : CallId) (server : HostId) (did : Did ClientRow) (w : Work)
        → LeavesOthers (OfClient id) w (asked s id server did w) }
    ensures served { (s : Settings) (id : CallId) (did : Did ServerRow) (w : Work)
        → LeavesOthers (OfServer id) w (served s id did w) }
    ensures acts { (s : Settings) (place : Place) (w : Work) → LeavesOthers place w (acts_at s place w) }
    ensures grants { (s : Settings) (place : Place) (offset prio : ℕ) (w : Work)
        → LeavesOthers place w (grants_at s place offset prio w) }
    ensures leaves { (s : Settings) (place : Place) (w v : Work)
        → leaves_from s place w ≡ Some v → LeavesOthers place w v }
    ensures starts { (s : Settings) (server : HostId) (service : ℕ) (request : List ℕ) (w : Work)
        → LeavesOthers (OfClient (next_id w.host)) w (starts s server service request w) }
    ensures hears { (s : Settings) (peer : HostId) (inc : ℕ) (what : Body) (w : Work)
        → LeavesRows w (hears_cutoffs s peer inc what w) }
    ensures notes { (s : Settings) (opened : Option ℕ) (w : Work) → LeavesRows w (notes s opened w) }
    ensures finishes { (s : Settings) (id : CallId) (server : HostId) (done : Bool) (w : Work)
        → LeavesRows w (finishes s id server done w) }
    ensures tells { (s : Settings) (role : Role) (id : CallId) (server : HostId) (version : Option ℕ) (w : Work)
        → LeavesRows w (tells_cutoffs s role id server version w) }
{}

/// With at most seven messages granted to at once, a step sends at most 64 packets. The order numbers that it gives
/// out are as many as the number says: one at a call, two at most when a packet comes, 32 at most in a turn.
pub fn step_bounds()
    ensures call { (s : Settings) → s.overcommit ≤ 7
        → (h : Host) (now : ℕ) (server : HostId) (service : ℕ) (request : List ℕ)
        → IsBounded 1 h (call_step s h now server service request) }
    ensures arrival { (s : Settings) → s.overcommit ≤ 7 → (h : Host) (now : ℕ) (p : Option Packet) (a : Answer)
        → IsBounded 2 h (arrival_step s h now p a) }
    ensures turn { (s : Settings) → s.overcommit ≤ 7 → (h : Host) (now : ℕ) → IsBounded 32 h (turn_step s h now) }
{}

/// The order numbers of a host's rows differ, those of the messages that arrive at it too, and those of the messages
/// that it sends: a new host has no row, and each step keeps this. So no two timers, no two messages to be granted to
/// and no two messages to be sent have one key, and which comes first doesn't turn on where the rows stand.
pub fn rows_have_different_orders()
    ensures new { (s : Settings) (id : HostId) (inc last : ℕ) → HasOwnOrders (new_host s id inc last) }
    ensures call { (s : Settings) (h : Host) (now : ℕ) (server : HostId) (service : ℕ) (request : List ℕ)
        → HasOwnOrders h → HasOwnOrders (call_step s h now server service request).host }
    ensures arrival { (s : Settings) (h : Host) (now : ℕ) (p : Option Packet) (a : Answer)
        → HasOwnOrders h → HasOwnOrders (arrival_step s h now p a).host }
    ensures turn { (s : Settings) (h : Host) (now : ℕ) → HasOwnOrders h → HasOwnOrders (turn_step s h now).host }
    ensures timers { (s : Settings) (h : Host) → HasOwnOrders h → KeysDiffer timer_key (timers s h) }
    ensures arrivals { (h : Host) → HasOwnOrders h → KeysDiffer (λ a. choice_key a.message) (arrivals h) }
    ensures departures { (s : Settings) (now : ℕ) (h : Host) → HasOwnOrders h → KeysDiffer leaving_key (departures s now h) }
{}
