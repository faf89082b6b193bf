// The calls that a host serves, at their places.
// Rules: DATA of a call without a row opens one if there is room, and an ACK leaves a tombstone.
ghost use Rattle.std.specs.Prelude.{◌≡◌, ℕ, ◌+◌, ◌<◌, ◌≤◌, ◌^◌, true, List, Some, None, IfOk, IfSome, IsSome, IsSomeAnd, OnErr, length};
ghost use Rattle.std.specs.Prelude.{option_copied, if◌then◌else◌, IfNone};
ghost use Rattle.std.specs.Option.{option_map, option_and_then};
ghost use Rattle.plain_sets.specs.Maps.{empty, get, len};
ghost use Rattle.homa_plain.specs.declared.id.CallId.{CallId};
ghost use Rattle.homa_plain.specs.declared.packet.Role.TheVariants.{Client as OfClient};
ghost use Rattle.homa_plain.specs.Settings.{IsValid};
ghost use Rattle.homa_plain.specs.Packets.{packet_between};
ghost use Rattle.homa_plain.specs.declared.id.HostId.{HostId};
ghost use Rattle.homa_plain.specs.declared.settings.Settings.{Settings};
ghost use Rattle.homa_plain.specs.Rules.{Answer};
ghost use Rattle.homa_plain.specs.AtServer.{server_gets, unknown_gets};
ghost use Rattle.homa_plain.specs.Tombstones.{server_acked};
ghost use Rattle.homa_plain.specs.Timers.{server_deadline, server_acts};
ghost use Rattle.homa_plain.specs.Sending.{server_granted};
ghost use Rattle.msg_pool.specs.Pool.{Pool};
ghost use Rattle.homa_in.specs.Pooled.{AreIn};
ghost use Rattle.host_places.specs.Placed.{Placed, StandsAt, ArePlaced, spot_at};
ghost use Rattle.homa_server.specs.Held.{HeldServer, IsKept, seen_server, state_part, state_response, response_in};
ghost use Rattle.homa_in.specs.Pieces.{piece_in, IsFit, moment_with};
ghost use Rattle.homa_in.specs.Sends.{IfSent, IsAffordable};
ghost use Rattle.homa_server.specs.Answers.{has_run, service_in, IsAsked, acked_of, acted_of};
ghost use Rattle.homa_server.specs.Answers.{IfResend, HasServerActed, IsGrantable, state_emits, server_sends, server_facts};
ghost use Rattle.homa_server.specs.Lending.{HasAsked, HasTaken, IsSame, IsRefused};
ghost use Rattle.homa_server.specs.Table.{Servers, Served, ServerMoved, server_at, request_at, slot_at, server_moment};

use crate::lent::Lent;
use crate::opens::{FirstPiece, open_row};
use crate::row::Row;
use crate::unknown::no_record;
use crate::{ServerAct, ServerDid};
use homa_in::{Incoming, Moment, Piece};
use homa_plain::{
    Body, CallId, Emitted, HostId, LAST_HOST_TICK, LONGEST_MESSAGE, Packet, RowFacts, Settings,
};
use homa_service::Service;
use host_places::Rows;
use msg_pool::{MsgPool, Scratch};
use std::alloc::{AllocError, Global};
use std::marker::Model;

/// The calls that a host serves, at fixed places. A slot is the number of a place.
#[derive(Drop)]
pub struct ServerTable {
    host: HostId,
    settings: Settings,
    rows: Rows<Row>,
}

impl Model for ServerTable {
    ghost use Rattle.homa_server.specs.Table.{Servers, servers_code, IsTable};

    ghost Value = { Servers };

    ghost coded = { servers_code };

    ghost view = { λ t. record { host = t.host; settings = t.settings; rows = t.rows.rows } };

    ghost invariant = { λ t. IsTable t.settings t.rows };
}

impl ServerTable {
    /// A table without calls, with room for as many as the settings say. Only this takes memory.
    pub fn open(alloc: Global, host: HostId, settings: &Settings) -> Result<ServerTable, AllocError>
        requires { IsValid settings.now }
        ensures { IfOk result (λ t. t ≡ record { host = host; settings = settings.now; rows = empty }) }
    {
        let rows = Rows::open(alloc, settings.served)?;
        Ok(ServerTable {
            host,
            settings: *settings,
            rows,
        })
    }

    /// A packet of role Client comes from a host; the calls that it acknowledges are for `ack`. `order` is the number of
    /// whatever is opened next. The service is called where the packet makes a request whole, which then stands in
    /// `scratch`. Only there memory may be wanting, and then nothing but `scratch` changes, which holds the request.
    pub fn receive<V: Service>(
        &mut self,
        alloc: Global,
        from: HostId,
        packet: &Packet,
        payload: &[u8],
        now: u64,
        order: u64,
        pool: &mut MsgPool,
        service: &mut V,
        scratch: &mut Scratch,
    ) -> Result<ServerDid, AllocError>
        requires role { packet.now.role ≡ OfClient }
        requires fits { IsFit packet.now.body payload.now }
        requires now { now ≤ LAST_HOST_TICK }
        requires order { order < 2 ^ 63 }
        requires served { V.served service.old < 2 ^ 63 }
        requires pool { AreIn pool.old (request_at self.old.rows) }
        ensures received { IfOk result (λ did. Served self.old pool.old (packet_between from self.old.host packet.now payload.now) now order
            self.new pool.new scratch.new
            (λ request response hold. V.allows service.old (V.served service.old)
            (service_in (piece_in packet.now.body payload.now)) request response hold) did) }
        ensures served { IfOk result (λ did.
            V.served service.new ≡ (if has_run did then V.served service.old + 1 else V.served service.old)) }
        ensures pool { AreIn pool.new (request_at self.new.rows) }
        ensures asks { OnErr result ((a : Answer) → let p = packet_between from self.old.host packet.now payload.now in
            IsAsked (record { client = from; inc = packet.now.inc; seq = packet.now.seq }) (service_in (piece_in packet.now.body payload.now)) scratch.new
            (server_gets self.old.settings (server_moment self.old now order pool.old p.id) p a (server_at pool.old self.old.rows p.id))) }
        ensures same { OnErr result (self.new ≡ self.old) }
        ensures same_pool { OnErr result (pool.new ≡ pool.old) }
        ensures not_served { OnErr result (V.served service.new ≡ V.served service.old) }
        ensures allows_before { (count n hold : ℕ) (q r : List ℕ) → V.allows service.new count n q r hold → V.allows service.old count n q r hold }
    {
        let mut lent = Lent {
            pool,
            service,
            scratch,
        };
        self.gets(
            alloc,
            Moment { now, order },
            from,
            packet,
            payload,
            &mut lent,
        )
    }

    // The same, with what is lent.
    fn gets<V: Service>(
        &mut self,
        alloc: Global,
        at: Moment,
        from: HostId,
        packet: &Packet,
        payload: &[u8],
        lent: &mut Lent<'_, V>,
    ) -> Result<ServerDid, AllocError>
        requires role { packet.now.role ≡ OfClient }
        requires fits { IsFit packet.now.body payload.now }
        requires now { at.now ≤ LAST_HOST_TICK }
        requires order { at.order < 2 ^ 63 }
        requires served { V.served lent.old.service.now < 2 ^ 63 }
        requires pool { AreIn lent.old.pool.now (request_at self.old.rows) }
        ensures received { IfOk result (λ did. Served self.old lent.old.pool.now (packet_between from self.old.host packet.now payload.now) at.now at.order
            self.new lent.new.pool.now lent.new.scratch.now
            (λ request response hold. V.allows lent.old.service.now (V.served lent.old.service.now)
            (service_in (piece_in packet.now.body payload.now)) request response hold) did) }
        ensures served { IfOk result (λ did. V.served lent.new.service.now
            ≡ (if has_run did then V.served lent.old.service.now + 1 else V.served lent.old.service.now)) }
        ensures pool { AreIn lent.new.pool.now (request_at self.new.rows) }
        ensures asks { OnErr result ((a : Answer) → let p = packet_between from self.old.host packet.now payload.now in
            IsAsked (record { client = from; inc = packet.now.inc; seq = packet.now.seq })
            (service_in (piece_in packet.now.body payload.now)) lent.new.scratch.now
            (server_gets self.old.settings (server_moment self.old at.now at.order lent.old.pool.now p.id) p a
            (server_at lent.old.pool.now self.old.rows p.id))) }
        ensures same { OnErr result (self.new ≡ self.old) }
        ensures refused { OnErr result (IsRefused V.served lent.old lent.new) }
        ensures lent { IsSame V.allows lent.old lent.new }
    {
        let id = packet.call(from);
        match self.rows.find(id) {
            Some(slot) => self.known_gets(alloc, at, id, slot, &packet.body, payload, lent),
            None => self.unknown_gets(alloc, at, id, &packet.body, payload, lent),
        }
    }

    // A packet of a call that has a row.
    fn known_gets<V: Service>(
        &mut self,
        alloc: Global,
        at: Moment,
        id: CallId,
        slot: u32,
        body: &Body,
        payload: &[u8],
        lent: &mut Lent<'_, V>,
    ) -> Result<ServerDid, AllocError>
        requires served { V.served lent.old.service.now < 2 ^ 63 }
        requires pool { AreIn lent.old.pool.now (request_at self.old.rows) }
        requires stands { Some slot ≡ slot_at self.old.rows id }
        requires placed { ArePlaced self.old.settings.served self.old.rows }
        requires fits { IsFit body.now payload.now }
        requires now { at.now ≤ LAST_HOST_TICK }
        ensures taken { IfOk result (HasTaken V.served V.allows self.old id body.now payload.now at.now at.order lent.old self.new lent.new) }
        ensures asked { OnErr result (HasAsked V.served self.old id body.now payload.now at.now at.order lent.old self.new lent.new) }
        ensures pool { AreIn lent.new.pool.now (request_at self.new.rows) }
        ensures lent { IsSame V.allows lent.old lent.new }
    {
        let settings = self.settings;
        let row = self.rows.row_mut(slot);
        row.gets(alloc, at, slot, body, payload, &settings, lent)
    }

    // A packet of a call that has no row.
    fn unknown_gets<V: Service>(
        &mut self,
        alloc: Global,
        at: Moment,
        id: CallId,
        body: &Body,
        payload: &[u8],
        lent: &mut Lent<'_, V>,
    ) -> Result<ServerDid, AllocError>
        requires served { V.served lent.old.service.now < 2 ^ 63 }
        requires pool { AreIn lent.old.pool.now (request_at self.old.rows) }
        requires absent { get self.old.rows id ≡ None }
        requires fits { IsFit body.now payload.now }
        requires now { at.now ≤ LAST_HOST_TICK }
        requires order { at.order < 2 ^ 63 }
        ensures taken { IfOk result (HasTaken V.served V.allows self.old id body.now payload.now at.now at.order lent.old self.new lent.new) }
        ensures asked { OnErr result (HasAsked V.served self.old id body.now payload.now at.now at.order lent.old self.new lent.new) }
        ensures pool { AreIn lent.new.pool.now (request_at self.new.rows) }
        ensures lent { IsSame V.allows lent.old lent.new }
    {
        let Body::Data {
            length,
            offset,
            service: number,
            ..
        } = body
        else {
            return Ok(no_record(body));
        };
        let rows = self.rows.len();
        if rows >= self.settings.served {
            return Ok(ServerDid::FullRows { rows });
        }
        let piece = Piece {
            size: *length,
            offset: *offset,
            service: *number,
            bytes: payload,
        };
        match open_row(alloc, at, id.client, piece, &self.settings, lent)? {
            FirstPiece::FullPages { need, free } => Ok(ServerDid::FullPages { need, free }),
            FirstPiece::Begun(row) => Ok(ServerDid::Opened(self.rows.insert(id, row))),
            FirstPiece::Ran { row, hold } => Ok(ServerDid::Ran {
                slot: self.rows.insert(id, row),
                opened: true,
                hold,
            }),
        }
    }

    /// The client has finished a call: a tombstone takes the row's place. Answers the call's slot and the tombstone's last
    /// tick; none where the call is neither held back nor replied to, and then nothing changes.
    pub fn ack(&mut self, id: CallId, now: u64) -> Option<(u32, u64)>
        requires now { now ≤ LAST_HOST_TICK }
        ensures acked { (pool : Pool) (order : ℕ) → AreIn pool (request_at self.old.rows)
            → let m = server_moment self.old now order pool id in
            server_acked self.old.settings m id (server_at pool self.old.rows id)
            ≡ acked_of m id (server_at pool self.new.rows id) (option_map (λ x. x.1) result) }
        ensures same { IfNone result (self.new ≡ self.old) }
        ensures slot { IfSome result (λ x. slot_at self.new.rows id ≡ Some x.0) }
        ensures moved { (pool : Pool) → AreIn pool (request_at self.old.rows)
            → ServerMoved id self.old pool self.new pool (server_at pool self.new.rows id) }
    {
        let slot = self.rows.find(id)?;
        let until = self.known_acked(id, slot, now)?;
        Some((slot, until))
    }

    // The client has finished a call that has a row.
    fn known_acked(&mut self, id: CallId, slot: u32, now: u64) -> Option<u64>
        requires stands { Some slot ≡ slot_at self.old.rows id }
        requires placed { ArePlaced self.old.settings.served self.old.rows }
        requires now { now ≤ LAST_HOST_TICK }
        ensures acked { (pool : Pool) (order : ℕ) → AreIn pool (request_at self.old.rows)
            → let m = server_moment self.old now order pool id in
            server_acked self.old.settings m id (server_at pool self.old.rows id) ≡ acked_of m id (server_at pool self.new.rows id) result }
        ensures same { IfNone result (self.new ≡ self.old) }
        ensures slot { slot_at self.new.rows id ≡ Some slot }
        ensures moved { (pool : Pool) → AreIn pool (request_at self.old.rows)
            → ServerMoved id self.old pool self.new pool (server_at pool self.new.rows id) }
    {
        let settings = self.settings;
        self.rows.row_mut(slot).bury_at_ack(now, &settings)
    }

    /// Takes the next bytes of the row's response to be sent, where some wait and the credit is enough.
    pub fn emit(&mut self, slot: u32, now: u64, credit: u32) -> Emitted
        requires stands { IsSome (spot_at self.old.rows slot) }
        requires now { now ≤ LAST_HOST_TICK }
        ensures emitted { (id : CallId) (r : HeldServer) (pool : Pool) → StandsAt self.old.rows id slot r
            → result ≡ state_emits self.old.settings credit (seen_server pool r).state }
        ensures bytes { (id : CallId) (r : HeldServer) → StandsAt self.old.rows id slot r
            → IfSent result (λ from to. IsAffordable (length (response_in r.state)) self.old.settings.seg credit from to) }
        ensures moved { (id : CallId) (r : HeldServer) (pool : Pool) → StandsAt self.old.rows id slot r → AreIn pool (request_at self.old.rows)
            → ServerMoved id self.old pool self.new pool (Some (server_sends self.old.settings now (seen_server pool r) result)) }
    {
        let settings = self.settings;
        self.rows.row_mut(slot).emit(now, credit, &settings)
    }

    /// The row, whose timer is due, acts; `order` is the number that a release takes.
    pub fn act(&mut self, slot: u32, now: u64, order: u64, pool: &mut MsgPool) -> ServerAct
        requires stands { IsSome (spot_at self.old.rows slot) }
        requires now { now ≤ LAST_HOST_TICK }
        requires pool { AreIn pool.old (request_at self.old.rows) }
        requires due { (id : CallId) (r : HeldServer) → StandsAt self.old.rows id slot r
            → IsSomeAnd (server_deadline self.old.settings (seen_server pool.old r)) (λ at. at ≤ now) }
        ensures acted { (id : CallId) (r : HeldServer) (free rows : ℕ) → StandsAt self.old.rows id slot r
            → let m = moment_with self.old.host now order free rows in
            server_acts self.old.settings m id (seen_server pool.old r) ≡ acted_of self.old.settings m id (server_at pool.new self.new.rows id) result }
        ensures left { (id : CallId) (r : HeldServer) → StandsAt self.old.rows id slot r → HasServerActed result (server_at pool.new self.new.rows id) }
        ensures asks { IfResend result (λ from to. (from < to) × (to ≤ LONGEST_MESSAGE)) }
        ensures moved { (id : CallId) (r : HeldServer) → StandsAt self.old.rows id slot r
            → ServerMoved id self.old pool.old self.new pool.new (server_at pool.new self.new.rows id) }
        ensures pool { AreIn pool.new (request_at self.new.rows) }
    {
        let settings = self.settings;
        let Some((id, _)) = self.rows.get(slot) else {
            unreachable!()
        };
        let act = self.rows.row_mut(slot).act(id, now, order, &settings);
        if let ServerAct::Drop(_) | ServerAct::Free(_) = act {
            let (_, row) = self.rows.remove(slot);
            row.close(pool);
        }
        act
    }

    /// The request in the row, which arrives, is granted up to `offset`.
    pub fn granted(&mut self, slot: u32, offset: u32, now: u64)
        requires stands { IsSome (spot_at self.old.rows slot) }
        requires now { now ≤ LAST_HOST_TICK }
        requires up { (id : CallId) (r : HeldServer) → StandsAt self.old.rows id slot r → IsGrantable r.state offset }
        ensures { (id : CallId) (r : HeldServer) (pool : Pool) → StandsAt self.old.rows id slot r → AreIn pool (request_at self.old.rows)
            → ServerMoved id self.old pool self.new pool (Some (server_granted now offset (seen_server pool r))) }
    {
        self.rows.row_mut(slot).granted(offset, now);
    }

    /// When the row's timer is due; none where it rests.
    pub fn deadline(&self, slot: u32) -> Option<u64>
        requires { IsSome (spot_at self.now.rows slot) }
        ensures { (id : CallId) (r : HeldServer) (pool : Pool) → StandsAt self.now.rows id slot r → AreIn pool (request_at self.now.rows)
            → result ≡ server_deadline self.now.settings (seen_server pool r) }
    {
        self.at(slot).deadline(&self.settings)
    }

    /// The facts of the row; its client is the peer.
    pub fn row(&self, slot: u32) -> RowFacts
        requires { IsSome (spot_at self.now.rows slot) }
        ensures facts { (id : CallId) (r : HeldServer) → StandsAt self.now.rows id slot r → result ≡ server_facts id r }
        ensures kept { (id : CallId) (r : HeldServer) → StandsAt self.now.rows id slot r → IsKept r.state }
        ensures placed { ArePlaced self.now.settings.served self.now.rows }
    {
        let Some((id, row)) = self.rows.get(slot) else {
            unreachable!()
        };
        RowFacts {
            id,
            peer: id.client,
            order: row.order(),
            out: row.out(),
        }
    }

    /// The part of the request, where it arrives.
    pub fn incoming(&self, slot: u32) -> Option<&Incoming>
        requires { IsSome (spot_at self.now.rows slot) }
        ensures { (id : CallId) (r : HeldServer) → StandsAt self.now.rows id slot r → option_copied result ≡ state_part r.state }
    {
        self.at(slot).incoming()
    }

    // The row at a place, where one stands.
    fn at(&self, slot: u32) -> &Row
        requires { IsSome (spot_at self.now.rows slot) }
        ensures { (id : CallId) (r : HeldServer) → StandsAt self.now.rows id slot r → result.now ≡ r }
    {
        match self.rows.get(slot) {
            Some((_, row)) => row,
            None => unreachable!(),
        }
    }

    /// The response of a call, where it is held back or goes out.
    pub fn response(&self, id: CallId) -> Option<&[u8]>
        ensures { option_copied result ≡ option_and_then (λ (x : Placed HeldServer). state_response x.row.state) (get self.now.rows id) }
    {
        let slot = self.rows.find(id)?;
        self.at(slot).response()
    }

    /// The slot of a call's row, if it has one.
    pub fn find(&self, id: CallId) -> Option<u32>
        ensures slot { result ≡ slot_at self.now.rows id }
        ensures stands { IfSome result (λ slot. IsSome (spot_at self.now.rows slot)) }
        ensures placed { ArePlaced self.now.settings.served self.now.rows }
    {
        self.rows.find(id)
    }

    /// How many rows there are, tombstones among them.
    pub fn rows(&self) -> u32
        ensures rows { result ≡ len self.now.rows }
        ensures within { result ≤ self.now.settings.served }
        ensures placed { ArePlaced self.now.settings.served self.now.rows }
    {
        self.rows.len()
    }
}
