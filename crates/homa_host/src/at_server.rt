// What packets of clients do to the calls that a host serves.
// Rules: DATA of a request, GRANT and RESEND of a response, BUSY, UNKNOWN, and an ACK, which leaves a tombstone.
ghost use Rattle.std.specs.Prelude.{◌≡◌, ℕ, [], Option, None, ◌+◌, ◌<◌, ◌≤◌, ◌^◌, Some, List, length, OnOk, OnErr, IsSome};
ghost use Rattle.std.specs.List.{AllByRecursion};
ghost use Rattle.std.specs.Option.{option_map};
ghost use Rattle.plain_sets.specs.Maps.{get};
ghost use Rattle.homa_plain.specs.declared.id.CallId.{CallId};
ghost use Rattle.homa_plain.specs.declared.packet.Role.TheVariants.{Client as OfClientRole};
ghost use Rattle.homa_plain.specs.Wire.{IsWellFormed};
ghost use Rattle.homa_plain.specs.Packets.{Packet as PlainPacket, packet_between};
ghost use Rattle.homa_plain.specs.Rules.{Answer, Moment};
ghost use Rattle.homa_plain.specs.Tombstones.{server_acked};
ghost use Rattle.homa_plain.specs.Work.{Work, begun};
ghost use Rattle.homa_plain.specs.CutoffsPackets.{hears_cutoffs};
ghost use Rattle.homa_plain.specs.Steps.{comes_to_row, served, moment};
ghost use Rattle.msg_pool.specs.Pool.{Pool};
ghost use Rattle.homa_in.specs.Pieces.{piece_in};
ghost use Rattle.host_places.specs.Placed.{StandsAt, spot_at};
ghost use Rattle.homa_server.specs.Held.{HeldServer, seen_server};
ghost use Rattle.homa_server.specs.Answers.{version_there, service_in, acked_of};
ghost use Rattle.host_state.specs.Control.{IsAt, IsSound};
ghost use Rattle.homa_plain.specs.Rows.{ServerRow};
ghost use Rattle.host_view.specs.declared.outbox.SentFrame.{SentFrame};
ghost use Rattle.host_view.specs.Marks.{response_of, IsReply, IsWhole};
ghost use Rattle.homa_host.specs.Parts.{host_of, seen_of, IsKept};
ghost use Rattle.homa_host.specs.Asking.{HasAsked};
ghost use Rattle.homa_host.specs.Amid.{Amid, Steady, HasCome};
ghost use Rattle.homa_host.specs.Lending.{CanCome, IsSame, IsServed, IsRefused};
ghost use Rattle.homa_host.specs.ServerFollow.{acked_change};
ghost use Rattle.homa_host.specs.Outcomes.{head_in, length_in, IfServerTouched};
ghost use Rattle.homa_host.specs.Settled.{SettledServer, is_quiet};

use crate::lent::Lent;
use crate::outcome::{Change, PieceHead, head_of, server_change, server_orders, server_outcome};
use crate::parts::{HostParts, follow_server};
use homa_plain::{Body, CallId, HostId, LONGEST_MESSAGE, Packet};
use homa_server::{ServerDid, ServerTable};
use homa_service::Service;
use host_state::Control;
use host_view::{Mark, Outbox};
use std::alloc::{AllocError, Global};

impl HostParts {
    // A packet of a client comes, but for the calls that it acknowledges. Where the service finds no memory, nothing but
    // `scratch` changes, which holds the request.
    pub(crate) fn server_gets<V: Service>(
        &mut self,
        alloc: Global,
        from: HostId,
        packet: &Packet,
        payload: &[u8],
        now: u64,
        lent: &mut Lent<'_, V>,
    ) -> Result<(), AllocError>
        requires kept { IsKept self.old }
        requires begins { CanCome V.served (seen_of self.old) from now lent.old }
        requires formed { IsWellFormed self.old.control.settings.wire packet.now payload.now }
        requires role { packet.now.role ≡ OfClientRole }
        ensures kept { IsKept self.new }
        ensures step { OnOk result ((a : Answer) → AllByRecursion (IsReply (host_of self.new) a) self.new.control.marks
            → let p = packet_between from self.old.control.id packet.now payload.now in
            let s = self.old.control.settings in
            let w = comes_to_row s p a OfClientRole (hears_cutoffs s from packet.now.sender packet.now.body (begun (host_of self.old) now)) in
            Amid w self.new lent.new.out.now × AllByRecursion (IsWhole lent.new.scratch.now) w.told) }
        ensures steady { OnOk result (HasCome now 3 2 2 self.old self.new lent.new.out.now) }
        ensures served { OnOk result (IsServed V.served V.allows lent.old lent.new (host_of self.new) self.new.control.marks) }
        ensures asks { OnErr result ((a : Answer) → let p = packet_between from self.old.control.id packet.now payload.now in
            let s = self.old.control.settings in
            HasAsked (record { client = from; inc = packet.now.inc; seq = packet.now.seq })
            (service_in (piece_in packet.now.body payload.now)) lent.new.scratch.now
            (comes_to_row s p a OfClientRole (hears_cutoffs s from packet.now.sender packet.now.body (begun (host_of self.old) now))).told) }
        ensures same { OnErr result (self.new ≡ self.old) }
        ensures refused { OnErr result (IsRefused V.served lent.old lent.new) }
        ensures lent { IsSame V.allows lent.old lent.new }
    {
        let id = packet.call(from);
        // For the proof: the pool's pages are those that are free and those that are leased.
        let _free = self.pool.free();
        let did = self.servers.receive(
            alloc,
            from,
            packet,
            payload,
            now,
            self.order,
            &mut self.pool,
            lent.service,
            lent.scratch,
        )?;
        // For the proof: the table's rows stand at different places.
        let _rows = self.servers.rows();
        self.control.begin(now);
        self.control.hear(from, packet.sender, &packet.body);
        let settings = *self.control.settings();
        let head = head_of(&packet.body);
        let touched = touched_version(&self.servers, &did, head);
        let change = server_change(&did);
        follow_server(&mut self.books, &self.servers, settings.calls, change);
        self.order += server_orders(&did);
        let number = service_of(&packet.body);
        if is_quiet(&did, touched) {
            return Ok(());
        }
        settle(&mut self.control, id, did, number, head, touched, lent.out);
        Ok(())
    }

    // The client of a call has finished it. Nothing is sent, whatever was sent before.
    pub(crate) fn server_acked(&mut self, id: CallId)
        requires kept { IsKept self.old }
        requires client { id.client.0 < self.old.control.settings.hosts }
        requires call { 1 ≤ id.inc }
        requires order { self.old.order < 2 ^ 63 + 2 ^ 32 }
        requires room { length self.old.control.marks + 1 ≤ 128 }
        ensures kept { IsKept self.new }
        ensures step { (w : Work) (frames : List SentFrame) → Amid w self.old frames
            → let s = self.old.control.settings in
            Amid (served s id (server_acked s (moment s id w) id (get w.host.servers id)) w) self.new frames }
        ensures others { (q : CallId) → (q ≡ id → ⊥) → response_of (host_of self.new) q ≡ response_of (host_of self.old) q }
        ensures steady { Steady 1 0 0 self.old [] self.new [] }
    {
        let settings = *self.control.settings();
        let now = self.control.last();
        let acked = self.servers.ack(id, now);
        // For the proof: the table's rows stand at different places.
        let _rows = self.servers.rows();
        let change = acked_change(acked);
        follow_server(&mut self.books, &self.servers, settings.calls, change);
        tell_buried(&mut self.control, id, acked);
    }
}

// Whether nothing comes of a packet at its server beside its row.
fn is_quiet(did: &ServerDid, touched: Option<u16>) -> bool
    ensures { result ≡ is_quiet did.now touched }
{
    match did {
        ServerDid::Nothing => true,
        ServerDid::Touched(_) => touched.is_none(),
        _ => false,
    }
}

// What comes of a packet at its server is settled, beside its row; `number` is the service that the packet's piece is
// for.
fn settle(
    control: &mut Control,
    id: CallId,
    did: ServerDid,
    number: u8,
    head: Option<PieceHead>,
    touched: Option<u16>,
    out: &mut Outbox,
)
    requires call { 1 ≤ id.inc }
    requires len { length_in head ≤ LONGEST_MESSAGE }
    requires opened { control.old.tuning.opened + 1 < 2 ^ 64 }
    requires room { length control.old.marks + 3 ≤ 128 }
    requires frames { length out.old + 2 ≤ 64 }
    ensures { SettledServer id did number head touched control.old out.old control.new out.new }
{
    let limit = control.settings().served;
    let outcome = server_outcome(did, id, number, limit, head, touched);
    control.settle_server(id, outcome, out);
}

// The version in a first piece of the request that arrives in the row.
fn touched_version(servers: &ServerTable, did: &ServerDid, head: Option<PieceHead>) -> Option<u16>
    requires stands { IfServerTouched did.now (λ place. IsSome (spot_at servers.now.rows place)) }
    ensures { (p : PlainPacket) (pool : Pool) (id : CallId) (r : HeldServer) → head ≡ head_in p.body
        → IfServerTouched did.now (λ place. StandsAt servers.now.rows id place r
        → result ≡ version_there (piece_in p.body p.payload) (Some (seen_server pool r))) }
{
    let ServerDid::Touched(place) = did else {
        return None;
    };
    if servers.incoming(*place).is_none() {
        return None;
    }
    head?.version
}

// The service that a piece is for.
pub(crate) fn service_of(body: &Body) -> u8
    ensures { (payload : List ℕ) → result ≡ service_in (piece_in body.now payload) }
{
    match body {
        Body::Data { service, .. } => *service,
        _ => 0,
    }
}

// What an ACK did to the row at a place, which is buried up to a tick.
fn acked_change(acked: Option<(u32, u64)>) -> Change
    ensures { result ≡ acked_change acked }
{
    match acked {
        Some((place, _)) => Change::Stays(place),
        None => Change::Nothing,
    }
}

// Tells of a call that an ACK buried up to a tick.
fn tell_buried(control: &mut Control, id: CallId, acked: Option<(u32, u64)>)
    requires room { length control.old.marks + 1 ≤ 128 }
    ensures step { (m : Moment) (row : Option ServerRow) (w : Work) (frames : List SentFrame)
        → IsAt w control.old frames
        → IsAt (served control.old.settings id (acked_of m id row (option_map (λ x. x.1) acked)) w)
        control.new frames }
    ensures same { control.new ≡ record control.old { marks = control.new.marks } }
    ensures marks { length control.new.marks ≤ length control.old.marks + 1 }
    ensures sound { IsSound control.new }
{
    if let Some((_, until)) = acked {
        control.tell(Mark::Entombed { id, until });
    }
    // For the proof: the control is sound.
    let _sound = control.settings();
}
