//! The table of a client's live calls.
//! Rules: when a call may start, BUSY to NEED_ACK while a call is live, and an ACK to it when the call is over.
ghost use Rattle.std.specs.Prelude.{◌≡◌, List, ℕ, ◌+◌, ◌<◌, ◌≤◌, Some, None, IfOk, IfErr, IfSome, OnErr, IsSome, length, option_copied};
ghost use Rattle.plain_sets.specs.Maps.{empty, len};
ghost use Rattle.homa_plain.specs.declared.id.CallId.{CallId};
ghost use Rattle.homa_plain.specs.declared.id.HostId.{HostId};
ghost use Rattle.homa_plain.specs.declared.packet.Role.TheVariants.{Server as OfServer};
ghost use Rattle.homa_plain.specs.Settings.{IsValid};
ghost use Rattle.homa_plain.specs.Outgoing.{IsSound};
ghost use Rattle.homa_plain.specs.Packets.{Packet as PlainPacket, packet_between};
ghost use Rattle.homa_plain.specs.Rules.{Moment as PlainMoment};
ghost use Rattle.homa_plain.specs.AtClient.{unasked};
ghost use Rattle.homa_plain.specs.Wire.{FitsKind};
ghost use Rattle.homa_plain.specs.Timers.{client_deadline, client_acts};
ghost use Rattle.homa_plain.specs.Sending.{client_granted};
ghost use Rattle.msg_pool.specs.Pool.{Pool};
ghost use Rattle.host_places.specs.Placed.{StandsAt, ArePlaced, spot_at};
ghost use Rattle.homa_in.specs.Pooled.{AreIn, IsInPool};
ghost use Rattle.homa_in.specs.Pieces.{moment_with};
ghost use Rattle.homa_in.specs.Sends.{IfSent, IsAffordable};
ghost use Rattle.homa_client.specs.Held.{HeldRow, seen_row, IsRow};
ghost use Rattle.homa_client.specs.Gives.{row_emits, row_sends, facts, IsAct, IsAsked};
ghost use Rattle.homa_client.specs.AtTable.{Clients, part_at, place_at, IsOwnCall, IsCallAt, Received, Moved, Started, fault_of, slot_in};
ghost use Rattle.homa_client.specs.Lending.{IsSame};
ghost use Rattle.homa_client.specs.AtTable.{answer_of, told_of, rows_left, IsDueAt, HasActed, row_at, MayGrant};

use crate::answers::{ClientAct, ClientDid, RowDid};
use crate::lent::Lent;
use crate::row::Row;
use homa_in::{Incoming, Moment};
use homa_plain::{
    Body, CallId, Emitted, HostId, LAST_HOST_TICK, LONGEST_MESSAGE, Packet, RowFacts, Settings,
    StartFault,
};
use host_places::Rows;
use msg_pool::{MsgPool, Scratch};
use std::alloc::{AllocError, Global};
use std::marker::Model;

/// The live calls that a host has made in its present life, each at a place of its own: 0 to `calls` - 1.
#[derive(Drop)]
pub struct ClientTable {
    host: HostId,
    inc: u32,
    seq: u32,
    settings: Settings,
    rows: Rows<Row>,
}

impl Model for ClientTable {
    ghost use Rattle.homa_client.specs.AtTable.{Clients, clients_code, IsTable};

    ghost Value = { Clients };

    ghost coded = { clients_code };

    ghost view = { λ t. record { host = t.host; inc = t.inc; seq = t.seq; settings = t.settings; rows = t.rows.rows } };

    ghost invariant = { λ t. IsTable t.host t.inc t.seq t.settings t.rows };
}

impl ClientTable {
    /// A table without calls, for a client in this incarnation; `first_seq` is the sequence number of its first call.
    /// Fails where memory runs out.
    pub fn open(
        alloc: Global,
        host: HostId,
        inc: u32,
        first_seq: u32,
        settings: &Settings,
    ) -> Result<ClientTable, AllocError>
        requires { IsValid settings.now }
        ensures { IfOk result (λ t. t ≡ record { host = host; inc = inc; seq = first_seq; settings = settings.now; rows = empty }) }
    {
        let rows = Rows::open(alloc, settings.calls)?;
        Ok(ClientTable {
            host,
            inc,
            seq: first_seq,
            settings: *settings,
            rows,
        })
    }

    /// Starts a call of a service of a host, `now` by the client's clock, and answers its place and its name. Where it
    /// can't start, says why, changes nothing and gives the request back. `order` is the number of what is opened next.
    pub fn start(
        &mut self,
        server: HostId,
        number: u8,
        request: Vec<u8>,
        now: u64,
        order: u64,
    ) -> Result<(u32, CallId), (StartFault, Vec<u8>)>
        requires { now ≤ LAST_HOST_TICK }
        ensures fault { IfErr result (λ e. fault_of self.old server request.items ≡ Some e.0) }
        ensures back { IfErr result (λ e. e.1 ≡ request) }
        ensures same { OnErr result (self.new ≡ self.old) }
        ensures no_fault { IfOk result (λ _. fault_of self.old server request.items ≡ None) }
        ensures started { IfOk result (λ r. Started self.old server number request.items now order self.new r.0 r.1) }
    {
        if let Some(fault) = self.fault(server, request.as_slice()) {
            return Err((fault, request));
        }
        let id = CallId {
            client: self.host,
            inc: self.inc,
            seq: self.seq,
        };
        let row = Row::open(server, number, request, now, order, self.settings.unsched);
        let slot = self.rows.insert(id, row);
        self.seq += 1;
        Ok((slot, id))
    }

    // Why a call with this request can't start, if it can't.
    fn fault(&self, server: HostId, request: &[u8]) -> Option<StartFault>
        ensures { result ≡ fault_of self.now server request.now }
    {
        if request.is_empty() {
            return Some(StartFault::Empty);
        }
        if request.len() > LONGEST_MESSAGE as usize {
            return Some(StartFault::TooLong);
        }
        if server == self.host {
            return Some(StartFault::SelfCall);
        }
        if self.rows.len() >= self.settings.calls {
            return Some(StartFault::CallsFull);
        }
        if self.seq == u32::MAX {
            return Some(StartFault::SeqSpent);
        }
        None
    }

    /// A packet of a server comes from a host, `now` by the client's clock. Where a response becomes whole, `scratch`
    /// becomes its bytes. `order` is the number of what is opened next.
    pub fn receive(
        &mut self,
        from: HostId,
        packet: &Packet,
        payload: &[u8],
        now: u64,
        order: u64,
        pool: &mut MsgPool,
        scratch: &mut Scratch,
    ) -> ClientDid
        requires role { packet.now.role ≡ OfServer }
        requires fits { FitsKind packet.now.role packet.now.level packet.now.body payload.now }
        requires now { now ≤ LAST_HOST_TICK }
        requires pool { AreIn pool.old (part_at self.old.rows) }
        ensures received { Received self.old pool.old
            (packet_between from self.old.host packet.now payload.now) now order self.new pool.new scratch.new result }
        ensures pool { AreIn pool.new (part_at self.new.rows) }
    {
        let mut lent = Lent { pool, scratch };
        self.gets(Moment { now, order }, from, packet, payload, &mut lent)
    }

    // The same, with what is lent.
    fn gets(
        &mut self,
        at: Moment,
        from: HostId,
        packet: &Packet,
        payload: &[u8],
        lent: &mut Lent<'_>,
    ) -> ClientDid
        requires role { packet.now.role ≡ OfServer }
        requires fits { FitsKind packet.now.role packet.now.level packet.now.body payload.now }
        requires now { at.now ≤ LAST_HOST_TICK }
        requires pool { AreIn lent.old.pool.now (part_at self.old.rows) }
        ensures received { Received self.old lent.old.pool.now (packet_between from self.old.host packet.now payload.now)
            at.now at.order self.new lent.new.pool.now lent.new.scratch.now result }
        ensures pool { AreIn lent.new.pool.now (part_at self.new.rows) }
        ensures lent { IsSame lent.old lent.new }
    {
        let id = packet.call(self.host);
        let Some(slot) = self.rows.find(id) else {
            return not_live(&packet.body);
        };
        if !self.row_at(slot).takes(from, packet.sender) {
            return ClientDid::Nothing;
        }
        let unsched = self.settings.unsched;
        let inc = packet.sender;
        let did = self
            .rows
            .row_mut(slot)
            .gets(at, id, inc, &packet.body, payload, unsched, lent);
        self.finish(slot, id, did)
    }

    // Ends the row at a place where its answer says so, and answers for the table.
    fn finish(&mut self, slot: u32, id: CallId, did: RowDid) -> ClientDid
        requires { IsCallAt self.old.rows slot id }
        ensures answer { result ≡ told_of slot id did }
        ensures rows { self.new ≡ record self.old { rows = rows_left self.old.rows id did } }
    {
        match did {
            RowDid::Touched => ClientDid::Touched(slot),
            RowDid::Opened => ClientDid::Opened(slot),
            RowDid::Done { opened } => {
                self.rows.remove(slot);
                ClientDid::Done { slot, id, opened }
            }
            RowDid::Full { need, free } => ClientDid::Full {
                slot,
                id,
                need,
                free,
            },
            RowDid::Gaps => ClientDid::Gaps { slot, id },
            RowDid::Busy => ClientDid::Busy(slot),
            RowDid::Forgotten => {
                self.rows.remove(slot);
                ClientDid::Forgotten { slot, id }
            }
        }
    }

    // The row at a place.
    fn row_at(&self, slot: u32) -> &Row
        requires { IsSome (spot_at self.now.rows slot) }
        ensures { (id : CallId) (r : HeldRow) → StandsAt self.now.rows id slot r → result.now ≡ r }
    {
        let Some((_, row)) = self.rows.get(slot) else {
            unreachable!()
        };
        row
    }

    // The call whose row stands at a place.
    fn call_at(&self, slot: u32) -> CallId
        requires { IsSome (spot_at self.now.rows slot) }
        ensures call { IsCallAt self.now.rows slot result }
        ensures own { IsOwnCall self.now.host self.now.inc self.now.seq result }
        ensures placed { ArePlaced self.now.settings.calls self.now.rows }
    {
        let Some((id, _)) = self.rows.get(slot) else {
            unreachable!()
        };
        id
    }

    /// The place of a call's row, if the call is live.
    pub fn find(&self, id: CallId) -> Option<u32>
        ensures place { result ≡ place_at self.now.rows id }
        ensures stands { IfSome result (λ slot. IsSome (spot_at self.now.rows slot)) }
    {
        self.rows.find(id)
    }

    /// What is told of the row at a place.
    pub fn row(&self, slot: u32) -> RowFacts
        requires { IsSome (spot_at self.now.rows slot) }
        ensures facts { (id : CallId) (r : HeldRow) → StandsAt self.now.rows id slot r → result ≡ facts id r }
        ensures row { (id : CallId) (r : HeldRow) → StandsAt self.now.rows id slot r → IsRow r }
        ensures out { (id : CallId) (r : HeldRow) → StandsAt self.now.rows id slot r → IsSound r.out }
        ensures small { (id : CallId) (r : HeldRow) → StandsAt self.now.rows id slot r → length r.request ≤ LONGEST_MESSAGE }
        ensures own { (id : CallId) (r : HeldRow) → StandsAt self.now.rows id slot r → IsOwnCall self.now.host self.now.inc self.now.seq id }
    {
        let id = self.call_at(slot);
        self.row_at(slot).facts(id)
    }

    /// Takes the row's next bytes to be sent, `now` by the client's clock, where its request may be sent and the credit
    /// is enough for them.
    pub fn emit(&mut self, slot: u32, now: u64, credit: u32) -> Emitted
        requires stands { IsSome (spot_at self.old.rows slot) }
        requires now { now ≤ LAST_HOST_TICK }
        ensures emitted { (id : CallId) (r : HeldRow) (pool : Pool) → StandsAt self.old.rows id slot r
            → result ≡ row_emits self.old.settings now credit (seen_row pool r) }
        ensures sent { (id : CallId) (r : HeldRow) → StandsAt self.old.rows id slot r
            → IfSent result (IsAffordable r.out.length self.old.settings.seg credit) }
        ensures row { (id : CallId) (r : HeldRow) (pool : Pool) → StandsAt self.old.rows id slot r → IsInPool pool r.part
            → Moved id self.old pool self.new pool (Some (row_sends self.old.settings now (seen_row pool r) result)) }
    {
        let settings = self.settings;
        self.rows.row_mut(slot).emit(&settings, now, credit)
    }

    /// The row, which is due, acts, `now` by the client's clock.
    pub fn act(&mut self, slot: u32, now: u64, pool: &mut MsgPool) -> ClientAct
        requires stands { IsSome (spot_at self.old.rows slot) }
        requires now { now ≤ LAST_HOST_TICK }
        requires due { IsDueAt self.old.settings now pool.old self.old.rows slot }
        requires pool { AreIn pool.old (part_at self.old.rows) }
        ensures acted { (id : CallId) (r : HeldRow) (host : HostId) (order free rows : ℕ) → StandsAt self.old.rows id slot r
            → let m = moment_with host now order free rows in
            let did = client_acts self.old.settings m id (seen_row pool.old r) in
            IsAct self.old.settings m id did result × Moved id self.old pool.old self.new pool.new did.row }
        ensures left { (id : CallId) (r : HeldRow) → StandsAt self.old.rows id slot r → HasActed result (row_at pool.new self.new.rows id) }
        ensures asked { IsAsked result }
        ensures pool { AreIn pool.new (part_at self.new.rows) }
    {
        let id = self.call_at(slot);
        let settings = self.settings;
        let acted = self.rows.row_mut(slot).act(id, &settings, now, pool);
        if let ClientAct::Timeout(_) = acted {
            self.rows.remove(slot);
        }
        acted
    }

    /// The response in the row is granted up to `offset`, `now` by the client's clock.
    pub fn granted(&mut self, slot: u32, offset: u32, now: u64)
        requires stands { IsSome (spot_at self.old.rows slot) }
        requires now { now ≤ LAST_HOST_TICK }
        requires part { MayGrant self.old.rows slot offset }
        ensures { (id : CallId) (r : HeldRow) (pool : Pool) → StandsAt self.old.rows id slot r → IsInPool pool r.part
            → Moved id self.old pool self.new pool (Some (client_granted now offset (seen_row pool r))) }
    {
        self.rows.row_mut(slot).granted(offset, now);
    }

    /// When the row's timer is due, by the client's clock; none where it rests.
    pub fn deadline(&self, slot: u32) -> Option<u64>
        requires { IsSome (spot_at self.now.rows slot) }
        ensures { (id : CallId) (r : HeldRow) (pool : Pool) → StandsAt self.now.rows id slot r → IsInPool pool r.part
            → result ≡ client_deadline self.now.settings (seen_row pool r) }
    {
        self.row_at(slot).deadline(self.settings.resend)
    }

    /// The part of the response, if there is one.
    pub fn incoming(&self, slot: u32) -> Option<&Incoming>
        requires { IsSome (spot_at self.now.rows slot) }
        ensures { (id : CallId) (r : HeldRow) → StandsAt self.now.rows id slot r → option_copied result ≡ r.part }
    {
        self.row_at(slot).part()
    }

    /// The request.
    pub fn request(&self, slot: u32) -> &[u8]
        requires { IsSome (spot_at self.now.rows slot) }
        ensures { (id : CallId) (r : HeldRow) → StandsAt self.now.rows id slot r → result.now ≡ r.request }
    {
        self.row_at(slot).request()
    }

    /// How many calls are live.
    pub fn live(&self) -> u32
        ensures live { result ≡ len self.now.rows }
        ensures placed { ArePlaced self.now.settings.calls self.now.rows }
    {
        self.rows.len()
    }
}

// What is answered to a packet of a call that isn't live.
fn not_live(body: &Body) -> ClientDid
    ensures did { (m : PlainMoment) (p : PlainPacket) (told : List ℕ) → unasked m body.now ≡ answer_of m p None told result }
    ensures slot { slot_in result ≡ None }
{
    match body {
        Body::NeedAck => ClientDid::Ack,
        Body::Data { .. }
        | Body::Grant { .. }
        | Body::Resend { .. }
        | Body::Busy
        | Body::Cutoffs(_)
        | Body::Unknown { .. }
        | Body::Ack { .. } => ClientDid::Nothing,
    }
}
